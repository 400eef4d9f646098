//! Laws about what lookups find, what is stored, and what is removed.
//!
//! Each is the contract of a function without code, and holds for every list of events or of
//! accepted steps.
ghost use Rattle.std.specs.Prelude.{◌≡◌, ℕ, ◌<◌, ◌≤◌, List, ◌++◌, ◌^◌, fold};
ghost use Rattle.moka_model.specs.Lives.{Settings, Write};
ghost use Rattle.moka_model.specs.Events.{Event, latest};
ghost use Rattle.moka_model.specs.Admission.{frequency};
ghost use Rattle.moka_model.specs.Orders.{orders, standing};
ghost use Rattle.moka_model.specs.Removals.{notices_left};
ghost use Rattle.moka_model.specs.Numbers.{next_number, is_flush_due};
ghost use Rattle.moka_model.specs.Steps.{events_in};
ghost use Rattle.moka_model.specs.Calls.{Call};
ghost use Rattle.moka_policy.specs.NumberHash.{number_hash};
ghost use Rattle.std.specs.Hash.{u64 as number_writes};
ghost use Rattle.moka_laws.specs.Laws.{reply};
ghost use Rattle.moka_laws.specs.Each.{AfterEvents, AcrossEvents, AfterSteps, AcrossSteps, QuestionKeeps, QuestionKeepsEach};
ghost use Rattle.moka_laws.specs.StandingLaws.{FindsWritten, MissesWritten, FindsInserted, MissesInserted, FindsFinished, OrInsertHits};
ghost use Rattle.moka_laws.specs.StandingLaws.{OrInsertIsFresh, FindsOrInserted, FindsLastWrite, FindsNothing, EqualKeysFindTheSame};
ghost use Rattle.moka_laws.specs.StandingLaws.{QuestionIsNoEvent, TakesNext, TakesWhatItReturns, TakesNoneAtTheEnd, ValuesAreInOrder};
ghost use Rattle.moka_laws.specs.StandingLaws.{ValuesAreCounted, NoticesAreRemovals, TakenAreCounted, LastWriteStands};
ghost use Rattle.moka_laws.specs.StandingLaws.{StandsByItsLastWrite, NoneStandsExactly, FirstWriteHasTheKey, StandsByItsFirstWrite};
ghost use Rattle.moka_laws.specs.StandingLaws.{LastWriteIsOne, EqualKeysStandAlike, WriteRemoves, InvalidationRemoves, EvictionRemoves};
ghost use Rattle.moka_laws.specs.StandingLaws.{NoEvictionKeeps, RemovesLastWritesAlone, RemovesNothingUnwritten, RemovesNothingElse};
ghost use Rattle.moka_laws.specs.StandingLaws.{IsLeftOrEnded, FirstEndIsOne, DeadStays, StaysMissed, IsLiveExactly, IsExpiredExactly};
ghost use Rattle.moka_laws.specs.StandingLaws.{StaysExpired, StaysDead, NumbersAreCounted, DrawsOne, NumbersNeverFall, NumbersGrow};

/// After a write, a lookup at the write's moment or an earlier one finds its value.
///
/// If a lifetime is 0 (TTL, TTI or the entry's own), no lookup ever finds it. The value of an
/// accepted `insert` is found too, with or without a flush before it. At a capacity of 0 no lookup
/// finds anything.
pub fn get_after_insert<K: Eq, V, E>()
    ensures found { AfterSteps K V E (FindsWritten K.eq) }
    ensures expired { AfterSteps K V E (MissesWritten K.eq) }
    ensures accepted { AfterSteps K V E (FindsInserted K.eq) }
    ensures not_stored { AfterSteps K V E (MissesInserted K.eq) }
{}

/// After a turn is finished with a value, a lookup at the same moment or an earlier one finds it.
///
/// So the next lookup finds a value that an initializer computed. This does not hold at a capacity
/// of 0, or if the entry has a lifetime of 0.
pub fn get_after_finish<K: Eq, V, E>()
    ensures { AfterSteps K V E (FindsFinished K.eq) }
{}

/// An `or_insert` on a live value is a hit, as by `get`: it returns that value, neither fresh nor
/// replaced, and is the same step.
///
/// Otherwise it is a lookup and a write. It returns its own value as fresh, and a lookup at the
/// same moment or an earlier one finds that. Exceptions to the last: a capacity of 0, and a
/// lifetime of 0.
pub fn get_after_or_insert<K: Eq, V, E>()
    ensures hit { AfterSteps K V E (OrInsertHits K.eq) }
    ensures fresh { AfterSteps K V E (OrInsertIsFresh K.eq) }
    ensures found { AfterSteps K V E (FindsOrInserted K.eq) }
{}

/// A call that only reads is a step without events and without a move.
///
/// Such a step changes nothing: with or without it, every later result is the same. So are both
/// orders, whether a flush is due, the queued notices, the next sequence number and the
/// frequencies.
pub fn a_question_changes_nothing<K: Eq, V, E>()
    ensures step { AfterSteps K V E (QuestionIsNoEvent K.eq) }
    ensures reply { QuestionKeepsEach K V E (Call K V E) (reply K.eq) }
    ensures standing { QuestionKeepsEach K V E K
        (λ settings k steps. standing K.eq settings k (events_in steps)) }
    ensures orders { QuestionKeeps K V E
        (λ settings steps. orders K.eq settings (events_in steps)) }
    ensures flush { QuestionKeeps K V E
        (λ settings steps. is_flush_due K.eq settings (events_in steps)) }
    ensures notices { QuestionKeeps K V E
        (λ settings steps. notices_left K.eq settings (events_in steps)) }
    ensures next_number { QuestionKeeps K V E
        (λ settings steps. next_number settings (events_in steps)) }
    ensures frequency { QuestionKeepsEach K V E ℕ
        (λ settings hash steps. frequency settings (events_in steps) hash) }
{}

/// No value is lost or doubled: the values written to a key are, in order, those removed under it
/// and then the stored one.
pub fn each_write_stands_or_left<K: Eq, V>()
    ensures in_order { AfterEvents K V (ValuesAreInOrder K.eq) }
    ensures counted { AfterEvents K V (ValuesAreCounted K.eq) }
{}

/// Each removal is taken as a notice once, in order.
///
/// The removals taken so far, followed by the queued ones, are all removals. A call that takes a
/// notice returns the next one, and takes only that.
pub fn each_removal_is_noticed_once<K: Eq, V, E>()
    ensures in_order { AfterEvents K V (NoticesAreRemovals K.eq) }
    ensures counted { AfterEvents K V (TakenAreCounted K.eq) }
    ensures next { AfterSteps K V E (TakesNext K.eq) }
    ensures gives { AfterSteps K V E (TakesWhatItReturns K.eq) }
    ensures none { AfterSteps K V E (TakesNoneAtTheEnd K.eq) }
{}

/// The entry stored for a key is its last write, if nothing later writes or removes the key.
///
/// It has that write's value, weight and moment. It was last accessed at the greatest moment among
/// that one and the hits since. It is invalidated if an event since invalidated it. Its stored key
/// is that of the write that created the entry.
pub fn standing_is_the_last_write<K: Eq, V>()
    ensures stands { AfterEvents K V (LastWriteStands K.eq) }
    ensures alone { AfterEvents K V (StandsByItsLastWrite K.eq) }
    ensures nothing { AfterEvents K V (NoneStandsExactly K.eq) }
    ensures stored { AfterEvents K V (FirstWriteHasTheKey K.eq) }
    ensures stored_alone { AfterEvents K V (StandsByItsFirstWrite K.eq) }
    ensures one_place { AfterEvents K V (LastWriteIsOne K.eq) }
{}

/// A lookup returns the value of the last write, if nothing later removed the key, until the entry
/// is invalidated or its deadline comes.
///
/// If nothing is stored, it returns none. It happens at its own moment, or at the latest moment if
/// that is greater.
pub fn looks_answer_the_last_write<K: Eq, V, E>()
    ensures found { AfterSteps K V E (FindsLastWrite K.eq) }
    ensures live { (settings : Settings K V) (w : Write K V) (at : ℕ)
        → IsLiveExactly settings w at }
    ensures nothing { AfterSteps K V E (FindsNothing K.eq) }
{}

/// An entry is expired exactly if one of three times has passed.
///
/// They are its TTL since it was written, its TTI since it was last accessed, and its own lifetime
/// since it was given.
pub fn expired_where_a_life_has_ended<K, V>()
    ensures { (settings : Settings K V) (w : Write K V) (at : ℕ) → IsExpiredExactly settings w at }
{}

/// Equal keys are one key: they have the same entry, and lookups of them return the same.
pub fn equal_keys_are_one_key<K: Eq, V, E>()
    ensures standing { AfterEvents K V (EqualKeysStandAlike K.eq) }
    ensures looks { AfterSteps K V E (EqualKeysFindTheSame K.eq) }
{}

/// Each written value is removed at most once, and nothing else is ever removed.
///
/// It is removed at the first later event that writes, removes or evicts its key; there is at most
/// one. The cause is `Explicit` if the entry was invalidated, else `Expired` if its deadline had
/// come, else the event's own.
pub fn what_leaves_leaves_once<K: Eq, V>()
    ensures replaced { AfterEvents K V (WriteRemoves K.eq) }
    ensures removed { AfterEvents K V (InvalidationRemoves K.eq) }
    ensures evicted { AfterEvents K V (EvictionRemoves K.eq) }
    ensures not_evicted { AfterEvents K V (NoEvictionKeeps K.eq) }
    ensures alone { AfterEvents K V (RemovesLastWritesAlone K.eq) }
    ensures nothing { AfterEvents K V (RemovesNothingUnwritten K.eq) }
    ensures first { AcrossEvents K V (IsLeftOrEnded K.eq) }
    ensures one_place { AcrossEvents K V (FirstEndIsOne K.eq) }
    ensures looks { AfterEvents K V (RemovesNothingElse K.eq) }
{}

/// Expiration is final.
///
/// - The latest moment never decreases, and a deadline that has come stays so at each later moment.
/// - An entry that is not live stays as it is until its key is written or removed, except that it
///   may be invalidated.
/// - After a `get` that finds nothing, no lookup finds anything until the key is written.
pub fn expiry_is_final<K: Eq, V, E>()
    ensures latest { (later h : List (Event K V)) → latest h ≤ latest (later ++ h) }
    ensures deadline { (settings : Settings K V) (w : Write K V) → StaysExpired settings w }
    ensures dead { (settings : Settings K V) (w : Write K V) → StaysDead settings w }
    ensures stays { AcrossEvents K V (DeadStays K.eq) }
    ensures missed { AcrossSteps K V E (StaysMissed K.eq) }
{}

/// No sequence number is drawn twice.
///
/// Each write and each `Drawn` draws the next number. That is the first number plus the draws so
/// far, and never decreases.
pub fn numbers_never_come_again<K, V>()
    ensures counted { AfterEvents K V NumbersAreCounted }
    ensures drawn { AfterEvents K V DrawsOne }
    ensures never_falls { AcrossEvents K V NumbersNeverFall }
    ensures greater { AcrossEvents K V NumbersGrow }
{}

/// A `u64` key hashes to itself under `NumberHash`.
///
/// Hashing its eight bytes, the least significant first, gives that number, whatever the hash was
/// before.
pub fn a_number_hashes_to_itself()
    ensures { (hash number : ℕ) → hash < 2 ^ 64 → number < 2 ^ 64
        → fold number_hash hash (number_writes number) ≡ number }
{}
