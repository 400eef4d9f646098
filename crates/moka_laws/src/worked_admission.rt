//! Worked cases of admission by frequency and by weight, and of the lifetimes of single entries.
//! The prover computes each.
ghost use Rattle.std.specs.Prelude.{◌≡◌, true, nat_eq, Some, None, [], ◌∷◌};
ghost use Rattle.moka_model.specs.declared.notification.RemovalCause.TheVariants.{Expired, Explicit, Replaced, Size};
ghost use Rattle.moka_model.specs.Events.{Looked, Written, Invalidated, Maintained};
ghost use Rattle.moka_model.specs.Admission.{frequency};
ghost use Rattle.moka_model.specs.Removals.{removals_at, removals};
ghost use Rattle.moka_laws.specs.Worked.{seconds, written, left_as, found, contains, counted};
ghost use Rattle.moka_laws.specs.WorkedSize.{three_used, fourth_comes};
ghost use Rattle.moka_laws.specs.WorkedAdmission.{by_frequency, by_weight, weighed, five_and_three, five_alone, from_a_hit, until_a_hit};
ghost use Rattle.moka_laws.specs.WorkedAdmission.{as_long_again, with_lives, asked_once, asked_twice, fourth_tries, fourth_again};
ghost use Rattle.moka_laws.specs.WorkedAdmission.{second_heavier, second_lighter, third_of_four, two_contend, two_heaviest, hit_twice};
ghost use Rattle.moka_laws.specs.Worked.{get_at, entry_count_of, weight_of, evictions, resident_keys, pending_keys};
ghost use Rattle.moka_laws.specs.Worked.{contains_then_get};
ghost use Rattle.moka_laws.specs.WorkedAdmission.{fourth_enters, fourth_fits, three_seconds_old};

/// Three resident keys were looked up twice, twice and once; the third is the least recently used.
///
/// A fourth key is not admitted before it was looked up, nor after one lookup, since 1 is not
/// greater than 1. After two lookups it is admitted, and the third is evicted.
pub fn a_key_enters_that_is_asked_for_more_often()
    ensures first { frequency (by_frequency 3) three_used 1 ≡ 2 }
    ensures second { frequency (by_frequency 3) three_used 2 ≡ 2 }
    ensures third { frequency (by_frequency 3) three_used 3 ≡ 1 }
    ensures order { resident_keys (by_frequency 3) three_used ≡ 3 ∷ 1 ∷ 2 ∷ [] }
    ensures never_asked { evictions (by_frequency 3) 12 fourth_comes ≡ left_as 4 40 Size ∷ [] }
    ensures missed { get_at (by_frequency 3) 4 13 (Maintained None 12 ∷ fourth_comes) ≡ found None }
    ensures asked_once { evictions (by_frequency 3) 15 asked_once ≡ left_as 4 41 Size ∷ [] }
    ensures asked_twice { evictions (by_frequency 3) 18 asked_twice ≡ left_as 3 30 Size ∷ [] }
    ensures found { get_at (by_frequency 3) 4 19 fourth_enters ≡ found (Some 42) }
    ensures invalidated { removals_at nat_eq (by_frequency 3) (Invalidated 2 20) fourth_enters
        ≡ left_as 2 20 Explicit ∷ [] }
{}

/// Weights of 10, 15 and 5 at a capacity of 31.
///
/// A fourth key, of weight 15, needs the room of the third and the first. It is admitted only once
/// its frequency exceeds the sum of theirs. A heavier or lighter overwrite changes what fits.
pub fn a_key_enters_by_its_weight()
    ensures four_times { removals nat_eq (by_weight 31) (fourth_tries 4)
        ≡ left_as 4 15 Size ∷ left_as 4 15 Size ∷ left_as 4 15 Size ∷ left_as 4 15 Size ∷ [] }
    ensures misses { get_at (by_weight 31) 4 11 (fourth_tries 4) ≡ found None }
    ensures enters { evictions (by_weight 31) 13 fourth_again
        ≡ left_as 3 5 Size ∷ left_as 1 10 Size ∷ [] }
    ensures first { get_at (by_weight 31) 1 13 fourth_fits ≡ found None }
    ensures second { get_at (by_weight 31) 2 13 fourth_fits ≡ found (Some 15) }
    ensures third { get_at (by_weight 31) 3 13 fourth_fits ≡ found None }
    ensures fourth { get_at (by_weight 31) 4 13 fourth_fits ≡ found (Some 115) }
    ensures replaced { removals_at nat_eq (by_weight 31) (Written 2 20 14) fourth_fits
        ≡ left_as 2 15 Replaced ∷ [] }
    ensures heavier { evictions (by_weight 31) 15 second_heavier ≡ left_as 4 115 Size ∷ [] }
    ensures lighter { evictions (by_weight 31) 17 second_lighter ≡ [] }
    ensures counted { entry_count_of (by_weight 31) (Maintained None 17 ∷ second_lighter)
        ≡ counted 2 }
    ensures weight { weight_of (by_weight 31) (Maintained None 17 ∷ second_lighter) ≡ counted 25 }
{}

/// A third key of weight 4 needs the room of both others, which were looked up once each. Two
/// lookups of it are not enough, three are.
pub fn more_often_than_both_together()
    ensures twice { evictions (by_weight 5) 8 third_of_four ≡ left_as 3 4 Size ∷ [] }
    ensures weight_then { weight_of (by_weight 5) (Maintained None 8 ∷ third_of_four) ≡ counted 5 }
    ensures three_times { evictions (by_weight 5) 9 (Looked 3 8 ∷ third_of_four)
        ≡ left_as 1 3 Size ∷ left_as 2 2 Size ∷ [] }
    ensures weight { weight_of (by_weight 5) (Maintained None 9 ∷ Looked 3 8 ∷ third_of_four)
        ≡ counted 4 }
{}

/// Two keys are resident at a capacity of 2, looked up twice and once, and two others are pending.
///
/// Each pending key is judged by its own lookups, in order, the second against what the first left.
pub fn two_contend_for_the_place()
    ensures order { resident_keys (by_frequency 2) (two_contend 2 2) ≡ 1 ∷ 2 ∷ [] }
    ensures waiting { pending_keys (by_frequency 2) (two_contend 2 2) ≡ 3 ∷ 4 ∷ [] }
    ensures neither { evictions (by_frequency 2) 6 (two_contend 2 2)
        ≡ left_as 3 30 Size ∷ left_as 4 40 Size ∷ [] }
    ensures both { evictions (by_frequency 2) 6 (two_contend 3 2)
        ≡ left_as 1 10 Size ∷ left_as 2 20 Size ∷ [] }
    ensures both_stay { resident_keys (by_frequency 2) (Maintained None 6 ∷ two_contend 3 2)
        ≡ 3 ∷ 4 ∷ [] }
    ensures first_alone { evictions (by_frequency 2) 6 (two_contend 3 1)
        ≡ left_as 1 10 Size ∷ left_as 4 40 Size ∷ [] }
    ensures second_alone { evictions (by_frequency 2) 6 (two_contend 2 3)
        ≡ left_as 3 30 Size ∷ left_as 1 10 Size ∷ [] }
    ensures second_stays { resident_keys (by_frequency 2) (Maintained None 6 ∷ two_contend 2 3)
        ≡ 2 ∷ 4 ∷ [] }
{}

/// Sums of weights do not wrap at the greatest weight.
pub fn two_of_the_greatest_weight()
    ensures weight { weight_of weighed (Maintained None 0 ∷ two_heaviest) ≡ counted 8_589_934_590 }
    ensures left { removals nat_eq weighed (Maintained None 0 ∷ two_heaviest) ≡ [] }
{}

/// Lifetimes of single entries.
///
/// - 5 s from creation, and 3 s from each hit.
/// - A hit that keeps the lifetime, one that ends it, and one that gives as long again as the
///   value's age.
/// - An update's lifetime counts only over a live value. Over an expired one the creation's does.
pub fn own_lives()
    ensures at_four { get_at (with_lives five_and_three) 1 (seconds 4) written ≡ found (Some 7) }
    ensures at_six { get_at (with_lives five_and_three) 1 (seconds 6)
        (Looked 1 (seconds 4) ∷ written) ≡ found (Some 7) }
    ensures at_nine { get_at (with_lives five_and_three) 1 (seconds 9) hit_twice ≡ found None }
    ensures not_by_a_look { contains_then_get (with_lives five_and_three) (seconds 4) (seconds 5)
        ≡ contains true ∷ found None ∷ [] }
    ensures kept { get_at (with_lives five_alone) 1 (seconds 4) written ≡ found (Some 7) }
    ensures kept_to_the_end { get_at (with_lives five_alone) 1 (seconds 5)
        (Looked 1 (seconds 4) ∷ written) ≡ found None }
    ensures taken_away { get_at (with_lives until_a_hit) 1 (seconds 9)
        (Looked 1 (seconds 4) ∷ written) ≡ found (Some 7) }
    ensures as_long_again { get_at (with_lives as_long_again) 1 7_999_999_999 three_seconds_old
        ≡ found (Some 7) }
    ensures no_longer { get_at (with_lives as_long_again) 1 (seconds 8) three_seconds_old
        ≡ found None }
    ensures after_a_hit { get_at (with_lives from_a_hit) 1 (seconds 7)
        (Looked 1 (seconds 4) ∷ written) ≡ found None }
    ensures after_an_update { get_at (with_lives from_a_hit) 1 (seconds 7)
        (Written 1 8 (seconds 1) ∷ written) ≡ found (Some 8) }
    ensures updated_at_its_end { get_at (with_lives from_a_hit) 1 (seconds 8)
        (Written 1 8 (seconds 1) ∷ written) ≡ found None }
    ensures over_an_expired_one { get_at (with_lives from_a_hit) 1 (seconds 99)
        (Written 1 8 (seconds 7) ∷ Looked 1 (seconds 4) ∷ written) ≡ found (Some 8) }
    ensures update_keeps { get_at (with_lives five_alone) 1 (seconds 5)
        (Written 1 8 (seconds 4) ∷ written) ≡ found None }
    ensures as_expired { evictions (with_lives five_alone) (seconds 5) written
        ≡ left_as 1 7 Expired ∷ [] }
{}
