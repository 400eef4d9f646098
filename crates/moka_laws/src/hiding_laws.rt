//! Laws about mass invalidation, and the law that no pair of a key and a value is lost or doubled.
ghost use Rattle.moka_model.specs.Lives.{Settings};
ghost use Rattle.moka_laws.specs.Each.{AfterEvents, AfterSteps, AcrossSteps};
ghost use Rattle.moka_laws.specs.HidingLaws.{IsHiddenExactly, WrittenIsNotHidden, HidingRemovesNothing, PairsStandOrLeft};
ghost use Rattle.moka_laws.specs.HidingLaws.{RemovedPairsAreNoticed, NoneIsFoundAfterAll, NoneIsFoundAfterTest, OthersStand};
ghost use Rattle.moka_laws.specs.HidingLaws.{InvalidationNotesNothing, TestIsRejectedExactly, RejectedIsByName, RejectedChangesNothing};
ghost use Rattle.moka_laws.specs.HidingLaws.{LeavesAsRemoved};

/// An entry is invalidated exactly if an event after its last write invalidates by a test that
/// holds of its stored key and value.
///
/// So values written later are not invalidated. Such an event removes nothing.
pub fn hidden_exactly_where_a_test_held_since<K: Eq, V>()
    ensures exactly { AfterEvents K V (IsHiddenExactly K.eq) }
    ensures later_writes { AfterEvents K V (WrittenIsNotHidden K.eq) }
    ensures none_leaves { AfterEvents K V (HidingRemovesNothing K.eq) }
{}

/// An invalidated value is never found again.
///
/// After `invalidate_all` no lookup or removal finds a key until it is written. After an
/// invalidation by a test so it is for the entries that pass the test, and the others are
/// unchanged.
pub fn what_is_hidden_is_never_found<K: Eq, V, E>()
    ensures all { AcrossSteps K V E (NoneIsFoundAfterAll K.eq) }
    ensures by_test { AcrossSteps K V E (NoneIsFoundAfterTest K.eq) }
    ensures others { AfterSteps K V E (OthersStand K.eq) }
{}

/// An invalidated entry is removed with the cause `Explicit`, whatever removes it.
pub fn what_was_hidden_leaves_as_removed<K, V>()
    ensures { (settings : Settings K V) → LeavesAsRemoved settings }
{}

/// No invalidation or removal changes a frequency.
pub fn an_invalidation_changes_no_frequency<K: Eq, V, E>()
    ensures { AfterSteps K V E (InvalidationNotesNothing K.eq) }
{}

/// Which calls can be rejected.
///
/// An invalidation by a test exactly if the cache does not support that; of the others, only calls
/// that name a turn. A rejected call changes nothing.
pub fn tests_and_names_alone_are_refused<K: Eq, V, E>()
    ensures exactly { AfterSteps K V E (TestIsRejectedExactly K.eq) }
    ensures others { AfterSteps K V E (RejectedIsByName K.eq) }
    ensures nothing { AfterSteps K V E (RejectedChangesNothing K.eq) }
{}

/// Each written pair of a key and a value is at one place: stored, queued as a notice, or taken as
/// a notice.
///
/// Stated by counts, for any test that does not distinguish equal keys: as many written pairs pass
/// it as stored, queued and taken pairs together.
pub fn each_pair_stands_or_was_noticed<K: Eq, V>()
    ensures stands_or_left { AfterEvents K V (PairsStandOrLeft K.eq) }
    ensures left { AfterEvents K V (RemovedPairsAreNoticed K.eq) }
{}
