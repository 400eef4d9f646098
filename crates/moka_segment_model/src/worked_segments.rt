//! Worked cases of segments, which the prover computes.
ghost use Rattle.std.specs.Prelude.{◌≡◌, true, false, Some, None, [], ◌∷◌};
ghost use Rattle.moka_model.specs.declared.notification.RemovalCause.TheVariants.{Explicit, Size};
ghost use Rattle.moka_model.specs.Calls.{Done, Found, Counted, Left, Noticed, Run, Wait};
ghost use Rattle.moka_segment_model.specs.Segments.{share, segment_of, bits_for};
ghost use Rattle.moka_segment_model.specs.WorkedSegments.{of_segments, upper, replies_in, two_and_one, upper_first, both_invalidated};
ghost use Rattle.moka_segment_model.specs.WorkedSegments.{one_by_one, lower_name, upper_name, two_turns, noticed_as, entered};
ghost use Rattle.moka_segment_model.specs.WorkedSegments.{invalidated_by_a_test};

/// Each of eight segments has 13 of a capacity of 100. The hashes of the second segment begin at an
/// eighth of all hashes. Five segments are rounded up to eight.
pub fn shares_and_segments()
    ensures thirteen { share 8 100 ≡ 13 }
    ensures above_the_middle { share 2 9007199254740993 ≡ 4503599627370497 }
    ensures none { share 4 0 ≡ 0 }
    ensures second { segment_of 3 2305843009213693952 ≡ 1 }
    ensures before_it { segment_of 3 2305843009213693951 ≡ 0 }
    ensures last { segment_of 3 18446744073709551615 ≡ 7 }
    ensures first { segment_of 3 5 ≡ 0 }
    ensures eight { bits_for 5 ≡ 3 }
    ensures thirty_two { bits_for 24 ≡ 5 }
    ensures sixteen { bits_for 16 ≡ 4 }
    ensures one { bits_for 1 ≡ 0 }
    ensures most { bits_for 9223372036854775808 ≡ 63 }
    ensures alone { segment_of 0 18446744073709551615 ≡ 0 }
{}

/// Two segments share a capacity of two: each keeps one entry. The moment of a lookup in one
/// segment does not pass in the other.
pub fn each_segment_has_its_share_and_its_moment()
    ensures { replies_in (of_segments 1 2) two_and_one []
        ≡ Some Done ∷ Some Done ∷ Some Done ∷ Some Done ∷ noticed_as 1 10 Size ∷ Some (Noticed None)
        ∷ Some (Counted 2) ∷ Some (Found None) ∷ Some (Found (Some 30)) ∷ [] }
{}

/// Notices come segment by segment, not in the order of removal.
pub fn notices_come_segment_by_segment()
    ensures { replies_in (of_segments 1 2) upper_first []
        ≡ Some Done ∷ Some Done ∷ Some Done ∷ Some Done ∷ noticed_as 1 10 Explicit
        ∷ noticed_as upper 20 Explicit ∷ Some (Noticed None) ∷ [] }
{}

/// `invalidate_all` reaches the last segment too. What is invalidated still counts.
pub fn all_segments_are_hidden()
    ensures { replies_in (of_segments 1 2) both_invalidated []
        ≡ Some Done ∷ Some Done ∷ Some Done ∷ Some (Found None) ∷ Some (Found None)
        ∷ Some (Counted 2) ∷ [] }
{}

/// Invalidation by a test reaches each segment.
pub fn a_test_goes_to_all_segments()
    ensures { replies_in (of_segments 1 4) invalidated_by_a_test []
        ≡ Some Done ∷ Some Done ∷ Some Done ∷ Some Done
        ∷ Some (Found None) ∷ Some (Found (Some 20)) ∷ Some (Found None) ∷ [] }
{}

/// Each segment gets the whole limit, and something is left if any of them leaves something.
///
/// Three entries are invalidated, two of them in one segment. A maintenance with a limit of 1
/// evicts one in each segment.
pub fn each_segment_is_given_the_whole_limit()
    ensures { replies_in (of_segments 1 4) one_by_one []
        ≡ Some Done ∷ Some Done ∷ Some Done ∷ Some Done ∷ Some (Left true) ∷ Some (Counted 1)
        ∷ Some (Left false) ∷ Some (Counted 0) ∷ [] }
{}

/// Each segment numbers its own turns, and knows a name only for its own keys. So two turns with
/// one number do not collide.
pub fn each_segment_has_its_own_turns()
    ensures { replies_in (of_segments 1 2) two_turns []
        ≡ Some (Run lower_name None) ∷ Some (Run upper_name None) ∷ Some (Wait lower_name)
        ∷ entered 1 7 true ∷ None ∷ entered 1 7 false ∷ Some Done ∷ Some (Found (Some 7))
        ∷ Some (Found None) ∷ [] }
{}
