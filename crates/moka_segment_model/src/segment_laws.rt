//! The laws of segments: each segment has its own keys and its share, behaves as a cache of its
//! own, and depends on no other.
ghost use Rattle.std.specs.Prelude.{◌≡◌, ℕ, ◌*◌, ◌^◌, ◌-◌, ◌≤◌, ◌<◌, ◌+◌};
ghost use Rattle.moka_segment_model.specs.Segments.{SegmentedSettings, bits_for, share, share_settings, segment_of};
ghost use Rattle.moka_segment_model.specs.CallsOfSegments.{AfterAll, IsLegalInEach, IsInNoOtherList, OthersChangeNoReply, ListDecidesReply};
ghost use Rattle.moka_segment_model.specs.CallsOfSegments.{EachRepliesAlike, TakesNone, LimitGoesToEach, SomeIsLeft, NoneIsLeft};
ghost use Rattle.moka_segment_model.specs.CallsOfSegments.{OneListsAll, OneRepliesAsState, KeysStandAtHome, IsBoundedInEach};
ghost use Rattle.moka_segment_model.specs.CallsOfSegments.{WeighsWithinShare, CountsWithinShare, IsLiveInEach, WritesItsKeyAlone};
ghost use Rattle.moka_segment_model.specs.CallsOfSegments.{InsertWritesItsPair, NoPairIsLost};
ghost use Rattle.moka_segment_model.specs.SegmentLaws.{HasItsShare};

/// The share of a segment is the least number that, times the number of segments, is at least the
/// whole.
///
/// The share of the only segment is the whole (`alone`). The share of 0 is 0 (`nothing`), and no
/// other share is 0 (`something`).
pub fn a_share_is_the_least()
    ensures enough { (segments whole : ℕ) → 0 < segments → whole ≤ share segments whole * segments }
    ensures least { (segments whole less : ℕ) → 0 < segments → whole ≤ less * segments
        → share segments whole ≤ less }
    ensures alone { (whole : ℕ) → share 1 whole ≡ whole }
    ensures nothing { (segments : ℕ) → 0 < segments → share segments 0 ≡ 0 }
    ensures something { (segments whole : ℕ) → 0 < segments → 0 < whole → 0 < share segments whole }
{}

/// Each hash belongs to one segment, which its highest bits name.
///
/// The segments divide the hashes, in order, into ranges of equal length (`from`, `to`). A single
/// segment has all hashes (`one`).
pub fn a_segment_has_the_hashes_of_its_highest_bits()
    ensures within { (bits hash : ℕ) → bits < 64 → hash < 2 ^ 64 → segment_of bits hash < 2 ^ bits }
    ensures from { (bits hash : ℕ) → segment_of bits hash * 2 ^ (64 - bits) ≤ hash }
    ensures to { (bits hash : ℕ) → hash < (segment_of bits hash + 1) * 2 ^ (64 - bits) }
    ensures one { (hash : ℕ) → hash < 2 ^ 64 → segment_of 0 hash ≡ 0 }
{}

/// A number of segments is rounded up to a power of two, and no further than needed.
pub fn segments_are_rounded_up_to_a_power_of_two()
    ensures enough { (segments : ℕ) → segments ≤ 2 ^ 63 → segments ≤ 2 ^ bits_for segments }
    ensures least { (segments bits : ℕ) → bits < 64 → segments ≤ 2 ^ bits
        → bits_for segments ≤ bits }
    ensures few { (segments : ℕ) → bits_for segments < 64 }
{}

/// Each segment has all settings of the whole, and its share of the capacity.
///
/// So a lifetime, a flush limit and the first sequence number are the same in each, and so is
/// whether predicates are supported.
pub fn a_segment_is_built_as_the_whole<K, V>()
    ensures { (settings : SegmentedSettings K V) → HasItsShare settings (share_settings settings) }
{}

/// A segment's list of accepted steps is legal: it is one of a cache with the segment's share.
pub fn a_segments_list_is_legal<K: Eq, V, E>()
    ensures { AfterAll K V E (IsLegalInEach K.eq) }
{}

/// What one segment does changes no reply of another. A call on a key returns the same, whether or
/// not calls to another segment came before it.
///
/// The calls to another segment are not in the segment's list (`list`), and a call on a key depends
/// only on that list (`by_its_list`).
pub fn what_one_segment_does_changes_no_reply_of_another<K: Eq, V, E>()
    ensures list { AfterAll K V E (IsInNoOtherList K.eq) }
    ensures reply { AfterAll K V E (OthersChangeNoReply K.eq) }
    ensures by_its_list { AfterAll K V E (ListDecidesReply K.eq) }
{}

/// A call that goes to each segment returns the same in all of them, unless they return something
/// together (`each`). A `take_notice` that finds no notice returns none (`none`).
pub fn all_segments_answer_a_broadcast_alike<K: Eq, V, E>()
    ensures each { AfterAll K V E (EachRepliesAlike K.eq) }
    ensures none { AfterAll K V E (TakesNone K.eq) }
{}

/// A maintenance with a limit runs in each segment with the whole limit. It returns that something
/// is left exactly if one of the segments, by itself, would return so.
pub fn a_maintenance_within_a_limit_leaves_what_any_segment_leaves<K: Eq, V, E>()
    ensures each { AfterAll K V E (LimitGoesToEach K.eq) }
    ensures some { AfterAll K V E (SomeIsLeft K.eq) }
    ensures none { AfterAll K V E (NoneIsLeft K.eq) }
{}

/// A cache of one segment behaves as a state.
///
/// Its share is the whole (`settings`), and each call returns what a state with the same list
/// returns (`reply`). The list leaves out counts and each `take_notice` that finds no notice,
/// since they change nothing (`list`).
pub fn one_segment_answers_as_a_state<K: Eq, V, E>()
    ensures settings { (settings : SegmentedSettings K V) → settings.bits ≡ 0
        → share_settings settings ≡ settings.whole }
    ensures list { AfterAll K V E (OneListsAll K.eq) }
    ensures reply { AfterAll K V E (OneRepliesAsState K.eq) }
{}

/// If equal keys hash alike, each key that is stored in a segment belongs to that segment. So no
/// key is stored in two.
pub fn each_key_stands_in_its_own_segment<K: Eq, V, E>()
    ensures { AfterAll K V E (KeysStandAtHome K.eq) }
{}

/// With a capacity, each segment stays within its share.
///
/// If each entry weighs 1 and the flush limit is not 0, a segment never stores more than its share
/// plus the flush point (`always`). After maintenance its weight is within its share, by number too
/// if each entry weighs 1 (`weight`, `count`). Then all that is stored is live (`live`).
pub fn each_segment_stays_within_its_share<K: Eq, V, E>()
    ensures always { AfterAll K V E (IsBoundedInEach K.eq) }
    ensures weight { AfterAll K V E (WeighsWithinShare K.eq) }
    ensures count { AfterAll K V E (CountsWithinShare K.eq) }
    ensures live { AfterAll K V E (IsLiveInEach K.eq) }
{}

/// A call writes only under its own key, and a call without a key writes nothing (`own`). An insert
/// writes its pair exactly if the capacity is not 0 (`insert`).
pub fn a_call_writes_under_its_own_key<K: Eq, V, E>()
    ensures own { AfterAll K V E (WritesItsKeyAlone K.eq) }
    ensures insert { AfterAll K V E (InsertWritesItsPair K.eq) }
{}

/// Over all segments nothing is lost or doubled.
///
/// Take any test of pairs that does not distinguish equal keys. As many of the written pairs pass
/// it as of those that are stored, whose notice is queued, or whose notice was taken, together.
pub fn no_segment_loses_or_doubles_a_pair<K: Eq, V, E>()
    ensures { AfterAll K V E (NoPairIsLost K.eq) }
{}
