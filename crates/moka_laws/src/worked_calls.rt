//! Worked cases of calls in sequence. The prover computes each, except the flush.
//!
//! Others are of invalidation by a test, maintenance within a limit, lookups that are turned down,
//! and single draws of a sequence number.
ghost use Rattle.std.specs.Prelude.{◌≡◌, true, false, nat_eq, Some, None, [], ◌∷◌};
ghost use Rattle.moka_model.specs.declared.notification.RemovalCause.TheVariants.{Explicit, Expired, Replaced, Size};
ghost use Rattle.moka_model.specs.Events.{Written, Invalidated, Maintained, Passed, Drawn, latest};
ghost use Rattle.moka_model.specs.Admission.{notes, frequency};
ghost use Rattle.moka_model.specs.Orders.{orders};
ghost use Rattle.moka_model.specs.Removals.{removals_at, removals, notices_left};
ghost use Rattle.moka_model.specs.Conserved.{count_written, count_standing, count_left, given_out};
ghost use Rattle.moka_model.specs.Numbers.{next_number, entry_count};
ghost use Rattle.moka_laws.specs.Worked.{seconds, without_lives, ten_to_live, five_to_idle, left_as, replies, found, contains, is_done};
ghost use Rattle.moka_laws.specs.Worked.{counted, noticed};
ghost use Rattle.moka_laws.specs.WorkedSize.{at_capacity};
ghost use Rattle.moka_laws.specs.WorkedAdmission.{by_frequency};
ghost use Rattle.moka_laws.specs.WorkedCalls.{session, behind_64, steps_come, two_and_two, one_leaves, another_leaves, two_hidden};
ghost use Rattle.moka_laws.specs.WorkedCalls.{turned_down};
ghost use Rattle.moka_laws.specs.WorkedCalls.{all_hidden, some_hidden, removals_of_both, one_taken, has_value};
ghost use Rattle.moka_laws.specs.Worked.{get_at, contains_at, resident_keys, pending_keys};
ghost use Rattle.moka_laws.specs.Worked.{notice_of};

/// A session at a capacity of 2: the first of two keys is hit, so that a third one evicts the
/// second.
pub fn a_session()
    ensures { replies nat_eq (at_capacity 2) session []
        ≡ is_done ∷ is_done ∷ is_done ∷ found (Some 10) ∷ is_done ∷ contains true ∷ counted 3
        ∷ is_done ∷ notice_of 2 20 Size ∷ noticed None ∷ found None ∷ is_done ∷ counted 1
        ∷ notice_of 1 10 Explicit ∷ [] }
{}

/// At a capacity of 10, 64 keys are pending. The next write flushes first, so that 11 are stored.
pub fn a_session_with_a_flush()
    ensures { replies nat_eq (at_capacity 10) behind_64 (steps_come 64)
        ≡ is_done ∷ counted 11 ∷ found (Some 65) ∷ [] }
{}

/// Maintenance within a limit stops before the first part that would exceed it, and the next one
/// continues there. At a capacity of 2 each pending key evicts a resident one.
pub fn a_maintenance_within_a_limit()
    ensures nothing { removals_at nat_eq (at_capacity 2) (Maintained (Some 0) 5) two_and_two ≡ [] }
    ensures nothing_moves { pending_keys (at_capacity 2) (Maintained (Some 0) 5 ∷ two_and_two)
        ≡ 3 ∷ 4 ∷ [] }
    ensures one { removals nat_eq (at_capacity 2) one_leaves ≡ left_as 1 10 Size ∷ [] }
    ensures admitted { resident_keys (at_capacity 2) one_leaves ≡ 2 ∷ 3 ∷ [] }
    ensures waiting { pending_keys (at_capacity 2) one_leaves ≡ 4 ∷ [] }
    ensures found { get_at (at_capacity 2) 4 6 one_leaves ≡ found (Some 40) }
    ensures another { removals nat_eq (at_capacity 2) another_leaves
        ≡ left_as 1 10 Size ∷ left_as 2 20 Size ∷ [] }
    ensures admitted_then { resident_keys (at_capacity 2) another_leaves ≡ 3 ∷ 4 ∷ [] }
    ensures all_at_once { removals nat_eq (at_capacity 2) (Maintained None 5 ∷ two_and_two)
        ≡ removals nat_eq (at_capacity 2) another_leaves }
{}

/// An invalidated entry is stored and counted, but no lookup finds it. Its cause is `Explicit`,
/// also if it is expired too. A write brings the key back.
pub fn what_is_hidden()
    ensures not_found { get_at without_lives 2 3 two_hidden ≡ found None }
    ensures not_there { contains_at without_lives 3 3 two_hidden ≡ contains false }
    ensures another { get_at without_lives 1 3 two_hidden ≡ found (Some 10) }
    ensures counted { entry_count nat_eq without_lives two_hidden ≡ 3 }
    ensures none_leaves { removals nat_eq without_lives two_hidden ≡ [] }
    ensures leaves { removals nat_eq without_lives (Maintained None 3 ∷ two_hidden)
        ≡ left_as 2 20 Explicit ∷ left_as 3 30 Explicit ∷ [] }
    ensures overwritten { removals_at nat_eq without_lives (Written 2 21 3) two_hidden
        ≡ left_as 2 20 Explicit ∷ [] }
    ensures expired_too { removals_at nat_eq ten_to_live (Invalidated 2 (seconds 20)) two_hidden
        ≡ left_as 2 20 Explicit ∷ [] }
    ensures expired { removals_at nat_eq ten_to_live (Invalidated 1 (seconds 20)) two_hidden
        ≡ left_as 1 10 Expired ∷ [] }
    ensures anew { get_at without_lives 2 4 (Written 2 20 3 ∷ two_hidden) ≡ found (Some 20) }
{}

/// `invalidate_all` invalidates everything stored at once, with the cause `Explicit`. Later writes
/// are not invalidated.
pub fn a_session_that_hides_all()
    ensures { replies nat_eq without_lives all_hidden [] ≡ is_done ∷ is_done ∷ is_done ∷ found None
        ∷ found (Some 20) ∷ counted 2 ∷ is_done ∷ notice_of 1 10 Explicit ∷ noticed None ∷ counted 1
        ∷ [] }
{}

/// Entries that pass a test are invalidated, and removed in access order. Later writes are not
/// invalidated, even if they pass the test.
pub fn a_session_that_hides_by_a_test()
    ensures { replies nat_eq without_lives some_hidden []
        ≡ is_done ∷ is_done ∷ is_done ∷ is_done ∷ is_done ∷ is_done ∷ is_done
        ∷ notice_of 0 7 Explicit ∷ notice_of 2 9 Explicit ∷ noticed None ∷ found None
        ∷ found (Some 8) ∷ found None ∷ found (Some 7) ∷ counted 2 ∷ [] }
{}

/// `remove` returns only a live value; an expired one is removed too, as `Expired`.
pub fn a_session_that_removes()
    ensures { replies nat_eq ten_to_live removals_of_both []
        ≡ is_done ∷ is_done ∷ found None ∷ notice_of 1 10 Expired ∷ found (Some 20)
        ∷ notice_of 2 20 Explicit ∷ found None ∷ counted 0 ∷ [] }
{}

/// A lookup that is turned down is noted and records its moment, but does not extend the TTI.
pub fn a_look_that_is_turned_down()
    ensures noted { notes without_lives turned_down ≡ 1 ∷ [] }
    ensures frequency { frequency (by_frequency 3) turned_down 1 ≡ 1 }
    ensures recorded { latest turned_down ≡ seconds 4 }
    ensures stands { get_at five_to_idle 1 (seconds 4) turned_down ≡ found (Some 7) }
    ensures not_extended { get_at five_to_idle 1 (seconds 5) turned_down ≡ found None }
{}

/// A `Drawn` draws a sequence number and nothing else; a `Passed` records a moment and nothing
/// else.
pub fn a_number_and_a_moment()
    ensures drawn { next_number without_lives (Drawn ∷ turned_down) ≡ 2 }
    ensures stands { get_at without_lives 1 0 (Drawn ∷ turned_down) ≡ found (Some 7) }
    ensures passed { get_at ten_to_live 1 0 (Passed (seconds 10) ∷ turned_down) ≡ found None }
    ensures none_drawn { next_number without_lives (Passed (seconds 10) ∷ turned_down) ≡ 1 }
{}

/// A key is written, overwritten and removed, and one notice is taken. Neither pair is stored: the
/// notice of the first was taken, that of the second is queued.
pub fn each_pair_is_at_one_place()
    ensures written { count_written (λ k v. true) one_taken ≡ 2 }
    ensures stored { count_standing (λ k v. true) (orders nat_eq without_lives one_taken) ≡ 0 }
    ensures given { given_out nat_eq without_lives one_taken ≡ left_as 1 10 Replaced ∷ [] }
    ensures waiting { notices_left nat_eq without_lives one_taken ≡ left_as 1 11 Explicit ∷ [] }
    ensures by_value { count_written (has_value 11) one_taken ≡ 1 }
    ensures given_by_value { count_left (has_value 11) (given_out nat_eq without_lives one_taken)
        ≡ 0 }
    ensures waiting_by_value { count_left (has_value 11)
        (notices_left nat_eq without_lives one_taken) ≡ 1 }
{}
