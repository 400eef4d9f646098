//! Laws about memory: which calls may run out of it, by name.
//!
//! Of an insert, and of all others in one sentence, `writes_and_copies_alone_take_memory` of
//! `call_laws` says it.
ghost use Rattle.moka_laws.specs.Each.{AfterSteps};
ghost use Rattle.moka_reply_laws.specs.MemoryLaws.{FreeTakesNone, MissTakesNone, FoundMayTake, EndsWithoutCopy, MissedRemovalTakesNone};
ghost use Rattle.moka_reply_laws.specs.MemoryLaws.{RejectedTakesNone, CollectTakesForItsReply, SafeCollectTakesNone};

/// These calls never run out of memory: `contains_key`, `invalidate`, `invalidate_all`, an
/// invalidation by a test, maintenance, the counts, `take_notice`, `abandon` and `leave`.
pub fn calls_that_never_run_out_of_memory<K: Eq, V: Clone, E>()
    ensures { AfterSteps K V E (FreeTakesNone K.eq V.is_clone V.is_infallible) }
{}

/// A `get` or a `remove` may run out of memory exactly if it finds a value whose clone can fail.
pub fn a_lookup_takes_memory_for_a_clone_alone<K: Eq, V: Clone, E>()
    ensures miss { AfterSteps K V E (MissTakesNone K.eq V.is_clone V.is_infallible) }
    ensures found { AfterSteps K V E (FoundMayTake K.eq V.is_clone V.is_infallible) }
{}

/// Which ends of a turn never run out of memory.
///
/// - A finish with nothing, and a compute that does nothing.
/// - A compute that removes and finds nothing.
/// - A finish that is rejected.
pub fn an_end_takes_memory_for_a_value_or_an_error<K: Eq, V: Clone, E>()
    ensures nothing { AfterSteps K V E (EndsWithoutCopy K.eq V.is_clone V.is_infallible) }
    ensures miss { AfterSteps K V E (MissedRemovalTakesNone K.eq V.is_clone V.is_infallible) }
    ensures rejected { AfterSteps K V E (RejectedTakesNone K.eq V.is_clone V.is_infallible) }
{}

/// A collect may run out of memory only if it returns a value or an error.
///
/// It may not for a value if clones of no value can fail.
pub fn a_collect_takes_memory_for_what_it_returns<K: Eq, V: Clone, E>()
    ensures reply { AfterSteps K V E (CollectTakesForItsReply K.eq V.is_clone V.is_infallible) }
    ensures safe { AfterSteps K V E (SafeCollectTakesNone K.eq V.is_clone V.is_infallible) }
{}
