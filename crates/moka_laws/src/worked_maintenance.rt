//! Worked cases of a maintenance of two queues. The prover computes each.
ghost use Rattle.std.specs.Prelude.{◌≡◌, Some, None, [], ◌∷◌};
ghost use Rattle.moka_model.specs.MaintenanceLaws.{queues, evicted_within, after_within};
ghost use Rattle.moka_laws.specs.WorkedMaintenance.{one, all_live, two_and_five_dead, least_recently_used, by_count, of_four, twelve_wait};
ghost use Rattle.moka_laws.specs.WorkedMaintenance.{four_waits, two_wait, three_wait};
ghost use Rattle.moka_laws.specs.WorkedMaintenance.{evicts, leaves, evicted_of_six, left_of_six};

/// LRU, each weighs 1: of twelve pending keys at a capacity of 10 the first two are evicted. A
/// pending key at a full cache evicts the least recently used one.
pub fn least_recently_used_leaves()
    ensures two_leave { evicts one 10 least_recently_used twelve_wait ≡ 1 ∷ 2 ∷ [] }
    ensures ten_stay { leaves one 10 least_recently_used twelve_wait
        ≡ queues (3 ∷ 4 ∷ 5 ∷ 6 ∷ 7 ∷ 8 ∷ 9 ∷ 10 ∷ 11 ∷ 12 ∷ []) [] }
    ensures one_leaves { evicts one 3 least_recently_used four_waits ≡ 3 ∷ [] }
    ensures three_stay { leaves one 3 least_recently_used four_waits ≡ queues (1 ∷ 2 ∷ 4 ∷ []) [] }
    ensures no_capacity { after_within one None all_live least_recently_used None four_waits
        ≡ queues (3 ∷ 1 ∷ 2 ∷ 4 ∷ []) [] }
{}

/// By counts: a pending key evicts its victim only if its count is greater.
pub fn greater_count_wins()
    ensures dropped { evicts one 3 (by_count (of_four 2 2 1 1)) four_waits ≡ 4 ∷ [] }
    ensures as_before { leaves one 3 (by_count (of_four 2 2 1 1)) four_waits
        ≡ queues (3 ∷ 1 ∷ 2 ∷ []) [] }
    ensures admitted { evicts one 3 (by_count (of_four 2 2 1 2)) four_waits ≡ 3 ∷ [] }
    ensures in_its_place { leaves one 3 (by_count (of_four 2 2 1 2)) four_waits
        ≡ queues (1 ∷ 2 ∷ 4 ∷ []) [] }
    ensures room { evicts one 4 (by_count (of_four 2 2 1 0)) four_waits ≡ [] }
{}

/// By counts, two pending keys: each is judged by itself, in order, the second against what the
/// first left.
///
/// So the second evicts the key that the first did not beat, or the next one, or the first itself.
pub fn each_is_judged_by_itself()
    ensures neither { evicts one 2 (by_count (of_four 2 1 2 2)) two_wait ≡ 3 ∷ 4 ∷ [] }
    ensures both { evicts one 2 (by_count (of_four 2 1 3 2)) two_wait ≡ 1 ∷ 2 ∷ [] }
    ensures both_stay { leaves one 2 (by_count (of_four 2 1 3 2)) two_wait
        ≡ queues (3 ∷ 4 ∷ []) [] }
    ensures first_alone { evicts one 2 (by_count (of_four 2 1 3 1)) two_wait ≡ 1 ∷ 4 ∷ [] }
    ensures first_stays { leaves one 2 (by_count (of_four 2 1 3 1)) two_wait
        ≡ queues (2 ∷ 3 ∷ []) [] }
    ensures second_alone { evicts one 2 (by_count (of_four 2 1 2 3)) two_wait ≡ 3 ∷ 1 ∷ [] }
    ensures second_stays { leaves one 2 (by_count (of_four 2 1 2 3)) two_wait
        ≡ queues (2 ∷ 4 ∷ []) [] }
    ensures against_the_first { evicts (of_four 1 1 2 2) 2 (by_count (of_four 1 1 3 4)) two_wait
        ≡ 1 ∷ 2 ∷ 3 ∷ [] }
    ensures just_as_often { evicts (of_four 1 1 2 2) 2 (by_count (of_four 1 1 3 3)) two_wait
        ≡ 1 ∷ 2 ∷ 4 ∷ [] }
    ensures room_is_made { evicts (of_four 1 1 2 2) 2 (by_count (of_four 1 1 2 3)) two_wait
        ≡ 3 ∷ 1 ∷ 2 ∷ [] }
{}

/// By weights: the victims are the shortest prefix that makes room, and a pending key has to beat
/// the sum of their counts. A key heavier than the capacity is dropped, without victims.
pub fn weights_make_room()
    ensures two_victims { evicts (of_four 10 15 5 15) 31 least_recently_used four_waits
        ≡ 3 ∷ 1 ∷ [] }
    ensures two_stay { leaves (of_four 10 15 5 15) 31 least_recently_used four_waits
        ≡ queues (2 ∷ 4 ∷ []) [] }
    ensures equal_sum { evicts (of_four 10 15 5 15) 31 (by_count (of_four 2 9 1 3)) four_waits
        ≡ 4 ∷ [] }
    ensures greater_sum { evicts (of_four 10 15 5 15) 31 (by_count (of_four 2 9 1 4)) four_waits
        ≡ 3 ∷ 1 ∷ [] }
    ensures too_heavy { evicts (of_four 10 15 5 32) 31 least_recently_used four_waits ≡ 4 ∷ [] }
    ensures just_fits { evicts (of_four 10 15 5 31) 31 least_recently_used four_waits
        ≡ 3 ∷ 1 ∷ 2 ∷ [] }
    ensures over { evicts (of_four 20 15 5 10) 31 least_recently_used four_waits ≡ 3 ∷ 1 ∷ [] }
{}

/// Dead keys are evicted before all others, residents before pending ones, and make room.
pub fn dead_leave_before()
    ensures leaving { evicted_of_six 3 None ≡ 2 ∷ 5 ∷ 1 ∷ [] }
    ensures standing { left_of_six 3 None ≡ queues (3 ∷ 4 ∷ 6 ∷ []) [] }
    ensures room { evicted_of_six 4 None ≡ 2 ∷ 5 ∷ [] }
    ensures no_capacity { evicted_within one None two_and_five_dead least_recently_used None
        three_wait ≡ 2 ∷ 5 ∷ [] }
{}

/// Within a limit the first parts are done, and what the next one would move stays in place. A
/// pending key and its victims are one part: at a limit below the number of victims the key stays
/// pending.
pub fn limits()
    ensures none { left_of_six 3 (Some 0) ≡ three_wait }
    ensures first { evicted_of_six 3 (Some 1) ≡ 2 ∷ [] }
    ensures after_first { left_of_six 3 (Some 1) ≡ queues (1 ∷ 3 ∷ []) (4 ∷ 5 ∷ 6 ∷ []) }
    ensures second { evicted_of_six 3 (Some 2) ≡ 2 ∷ 5 ∷ [] }
    ensures after_second { left_of_six 3 (Some 2) ≡ queues (1 ∷ 3 ∷ 4 ∷ []) (6 ∷ []) }
    ensures third { left_of_six 3 (Some 3) ≡ queues (3 ∷ 4 ∷ 6 ∷ []) [] }
    ensures whole_part { after_within (of_four 10 15 5 15) (Some 31) all_live least_recently_used
        (Some 1) four_waits ≡ four_waits }
{}
