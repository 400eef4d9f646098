//! Worked cases of lifetimes, causes, stored keys, notices and sequence numbers. The prover
//! computes each.
ghost use Rattle.std.specs.Prelude.{◌≡◌, true, false, nat_eq, [], ◌∷◌};
ghost use Rattle.moka_model.specs.declared.notification.RemovalCause.TheVariants.{Expired, Explicit, Replaced};
ghost use Rattle.moka_model.specs.Events.{Looked, Written, Invalidated, Taken};
ghost use Rattle.moka_model.specs.Removals.{removals_at, removals};
ghost use Rattle.moka_model.specs.Numbers.{next_number, greatest_number};
ghost use Rattle.moka_model.specs.Calls.{Insert, IsOutOfNumbers};
ghost use Rattle.moka_laws.specs.Worked.{seconds, without_lives, ten_to_live, five_to_idle, both_lives, at_the_last_number, written};
ghost use Rattle.moka_laws.specs.Worked.{same_last_digit, left_as, stepped, found, contains, noticed};
ghost use Rattle.moka_laws.specs.Worked.{get_at, contains_at, next_notice};
ghost use Rattle.moka_laws.specs.Worked.{looked_up_twice, looked_up_late, two_left, overwritten_as_11, anew_as_11, contains_then_get};
ghost use Rattle.moka_laws.specs.Worked.{notice_of};

/// A TTL of 10 s: the last nanosecond still finds the value, the deadline does not. A moment before
/// the latest one counts as the latest.
pub fn time_to_live()
    ensures before { get_at ten_to_live 1 9_999_999_999 written ≡ found (Some 7) }
    ensures at_end { get_at ten_to_live 1 10_000_000_000 looked_up_late ≡ found None }
    ensures back { get_at ten_to_live 1 (seconds 9) (Looked 1 (seconds 10) ∷ looked_up_late)
        ≡ found None }
    ensures back_again { get_at ten_to_live 1 (seconds 9)
        (Looked 1 (seconds 9) ∷ Looked 1 (seconds 10) ∷ written) ≡ found None }
    ensures back_alone { get_at ten_to_live 1 (seconds 9) looked_up_late ≡ found (Some 7) }
    ensures anew { get_at ten_to_live 1 (seconds 19) (Written 1 8 (seconds 10) ∷ written)
        ≡ found (Some 8) }
{}

/// A TTI of 5 s: a `get` that finds the value extends it, a `contains_key` does not.
pub fn time_to_idle()
    ensures contained { contains_at five_to_idle 1 (seconds 4) written ≡ contains true }
    ensures not_extended { contains_then_get five_to_idle (seconds 4) (seconds 5)
        ≡ contains true ∷ found None ∷ [] }
    ensures found { get_at five_to_idle 1 (seconds 4) written ≡ found (Some 7) }
    ensures extended { get_at five_to_idle 1 (seconds 8) (Looked 1 (seconds 4) ∷ written)
        ≡ found (Some 7) }
    ensures ended { get_at five_to_idle 1 (seconds 13) looked_up_twice ≡ found None }
    ensures anew { get_at five_to_idle 1 (seconds 8) (Written 1 8 (seconds 4) ∷ written)
        ≡ found (Some 8) }
    ensures not_by_a_miss { get_at five_to_idle 1 (seconds 6) (Looked 1 (seconds 5) ∷ written)
        ≡ found None }
{}

/// With a TTL and a TTI the earlier deadline counts: hits extend the TTI, never the TTL.
pub fn both_lives_end()
    ensures idle { get_at both_lives 1 (seconds 5) written ≡ found None }
    ensures live { get_at both_lives 1 (seconds 9) looked_up_twice ≡ found (Some 7) }
    ensures ended { get_at both_lives 1 (seconds 10) looked_up_twice ≡ found None }
{}

/// `contains_key` records no moment: a later lookup at an earlier moment still finds the value.
pub fn looks_record_nothing()
    ensures gone { contains_at ten_to_live 1 (seconds 10) written ≡ contains false }
    ensures still { contains_then_get ten_to_live (seconds 10) (seconds 9)
        ≡ contains false ∷ found (Some 7) ∷ [] }
{}

/// The causes of removals by a write and by an invalidation, before and at the deadline.
pub fn causes()
    ensures overwritten { removals_at nat_eq ten_to_live (Written 1 8 (seconds 1)) written
        ≡ left_as 1 7 Replaced ∷ [] }
    ensures invalidated { removals_at nat_eq ten_to_live (Invalidated 1 (seconds 1)) written
        ≡ left_as 1 7 Explicit ∷ [] }
    ensures overwritten_late { removals_at nat_eq ten_to_live (Written 1 8 (seconds 10)) written
        ≡ left_as 1 7 Expired ∷ [] }
    ensures invalidated_late { removals_at nat_eq ten_to_live (Invalidated 1 (seconds 10)) written
        ≡ left_as 1 7 Expired ∷ [] }
    ensures other_key { removals_at nat_eq ten_to_live (Written 2 8 (seconds 1)) written ≡ [] }
    ensures absent { removals_at nat_eq ten_to_live (Invalidated 1 (seconds 2))
        (Invalidated 1 (seconds 1) ∷ written) ≡ [] }
    ensures look { removals_at nat_eq ten_to_live (Looked 1 (seconds 10)) written ≡ [] }
{}

/// An overwrite keeps the stored key; after a removal the next write brings its own.
pub fn stored_key()
    ensures kept { removals same_last_digit without_lives overwritten_as_11
        ≡ left_as 1 7 Replaced ∷ left_as 1 8 Explicit ∷ [] }
    ensures anew { removals same_last_digit without_lives anew_as_11
        ≡ left_as 1 7 Explicit ∷ left_as 11 8 Explicit ∷ [] }
{}

/// Notices are taken once each, in the order of the removals, and then there is none.
pub fn notices()
    ensures first { next_notice without_lives two_left ≡ notice_of 1 7 Replaced }
    ensures second { next_notice without_lives (Taken ∷ two_left) ≡ notice_of 1 8 Explicit }
    ensures then_none { next_notice without_lives (Taken ∷ Taken ∷ two_left) ≡ noticed None }
    ensures none_counts { next_notice without_lives (Invalidated 1 1 ∷ Taken ∷ written)
        ≡ notice_of 1 7 Explicit }
{}

/// Each write draws a sequence number, also an overwrite. Once the greatest is next, no number can
/// be drawn.
pub fn numbers()
    ensures drawn { next_number without_lives (Looked 1 3 ∷ two_left) ≡ 2 }
    ensures used_up { next_number at_the_last_number written ≡ greatest_number }
    ensures none_left { IsOutOfNumbers nat_eq at_the_last_number (stepped written) (Insert 2 7 0) }
{}
