//! Laws about what calls return, and which clones their callers get.
ghost use Rattle.moka_laws.specs.Each.{AfterSteps};
ghost use Rattle.moka_reply_laws.specs.LookLaws.{RemoveFindsTheSame, ContainsTellsTheSame, ShownIsTheSame, RemovedIsTheSame};
ghost use Rattle.moka_reply_laws.specs.LookLaws.{StillNoneIsTheSame};
ghost use Rattle.moka_reply_laws.specs.CountLaws.{CountsAll, CountsUnremoved, WeighsAll};
ghost use Rattle.moka_reply_laws.specs.CopyLaws.{FoundIsCloned, NoneIsReturned, OthersAreEqual, IsReturnedExactly, CallsReturn};
ghost use Rattle.moka_reply_laws.specs.CopyLaws.{RejectedReturnsNothing};

/// Calls at one moment find the same value as a `get`, or none if it finds none.
///
/// - `remove` returns what a `get` would.
/// - `contains_key` returns `true` exactly if a `get` would find a value.
/// - A compute is shown what a `get` would find when it begins.
/// - A compute that removes returns what a `get` would find when it finishes.
pub fn calls_find_what_a_get_finds<K: Eq, V, E>()
    ensures remove { AfterSteps K V E (RemoveFindsTheSame K.eq) }
    ensures contains_key { AfterSteps K V E (ContainsTellsTheSame K.eq) }
    ensures shown { AfterSteps K V E (ShownIsTheSame K.eq) }
    ensures removed { AfterSteps K V E (RemovedIsTheSame K.eq) }
    ensures still_none { AfterSteps K V E (StillNoneIsTheSame K.eq) }
{}

/// A count is the count, up to the greatest `u64`.
///
/// - `entry_count` counts the resident entries and the pending ones. They are as many as the writes
///   whose value was not removed.
/// - `weighted_size` adds up the weights of the resident entries and of the pending ones.
pub fn a_count_is_the_count<K: Eq, V, E>()
    ensures stored { AfterSteps K V E (CountsAll K.eq) }
    ensures unremoved { AfterSteps K V E (CountsUnremoved K.eq) }
    ensures weight { AfterSteps K V E (WeighsAll K.eq) }
{}

/// What a caller gets of a value that was found is a clone of it. Of none it gets none.
pub fn a_found_value_is_cloned<K, V: Clone, E>()
    ensures found { FoundIsCloned K E V.is_clone }
    ensures none { NoneIsReturned K E V.is_clone }
{}

/// A result without a stored value is returned as it is.
///
/// A result with one is returned with a clone in place of the value, and all else of it is the same.
pub fn all_but_the_value_is_returned_as_it_is<K: Eq, V: Clone, E>()
    ensures others { OthersAreEqual K E V.is_clone }
    ensures exactly { IsReturnedExactly K E V.is_clone }
    ensures calls { AfterSteps K V E (CallsReturn K.eq V.is_clone) }
    ensures rejected { AfterSteps K V E (RejectedReturnsNothing K.eq V.is_clone) }
{}
