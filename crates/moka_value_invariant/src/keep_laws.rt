//! The laws of the value invariant, over every legal list of accepted steps. The invariant is the
//! `keeps` of a cache's types: a relation between keys and values.
ghost use Rattle.std.specs.Prelude.{◌≡◌, List, []};
ghost use Rattle.moka_model.specs.declared.turns.Op.TheVariants as ops;
ghost use Rattle.moka_model.specs.declared.turns.Outcome.TheVariants as outcomes;
ghost use Rattle.moka_model.specs.Steps.{AcceptedStep};
ghost use Rattle.moka_model.specs.Calls.{Call};
ghost use Rattle.moka_value_invariant.specs.Keeps.{StepsKeep, CallKeeps};
ghost use Rattle.moka_value_invariant.specs.KeptLaws.{CallsStayKept, RepliesAreKept, GetIsKept, RemoveIsKept, OrInsertIsKept, BeginIsKept};
ghost use Rattle.moka_value_invariant.specs.KeptLaws.{ShownIsKept, NoticeIsKept, InsertedIsKept, ReplacedIsKept, RemovedIsKept};
ghost use Rattle.moka_value_invariant.specs.KeptLaws.{UnchangedIsKept, CollectedIsKept, FinishedIsKept, ReturnedIsKept, FoundIsKept};
ghost use Rattle.moka_value_invariant.specs.KeptLaws.{FirstIsKept, CopiesAreKept, OpeningIsKept, NextIsKept, HandedOutIsKept};

use moka_policy::policy::CacheTypes;

/// If every value that calls are given satisfies `keeps`, so does all that a history stores.
///
/// Before any call nothing is stored (`none`). After a call whose value satisfies `keeps`, if it
/// has one, all values in entries and turns still do (`next`).
pub fn what_was_handed_in_stays_kept<K: Eq, V: Clone, C: CacheTypes<K, V>, E>()
    ensures none { (none : List (AcceptedStep K V E)) → none ≡ [] → StepsKeep C.keeps none }
    ensures next { CallsStayKept E C.keeps K.eq }
{}

/// No call owes more than that its value satisfies `keeps`. If every value does so under every key,
/// no call owes anything.
pub fn no_call_owes_more<K: Eq, V: Clone, C: CacheTypes<K, V>, E>()
    ensures { ((k : K) (v : V) → C.keeps k v) → (call : Call K V E) → CallKeeps C.keeps call }
{}

/// After steps that satisfy `keeps`, each value that an accepted call returns satisfies it too
/// (`reply`). It does so with its own key and with the key that the call was given. So do its
/// clones (`copy`).
pub fn what_is_handed_out_is_kept<K: Eq, V: Clone, C: CacheTypes<K, V>, E>()
    ensures reply { RepliesAreKept E C.keeps K.eq }
    ensures copy { CopiesAreKept E V.is_clone C.keeps }
{}

/// A state's history stays one that satisfies `keeps`.
///
/// A state that could have come from no steps has such a history (`opening`). If a state has one,
/// so has the state after each call whose value satisfies `keeps` (`next`). What such a state
/// returns satisfies `keeps` (`handed_out`).
pub fn a_kept_history_goes_on<K: Eq, V: Clone, C: CacheTypes<K, V>, E>()
    ensures opening { OpeningIsKept E C.keeps K.eq V.is_clone }
    ensures next { NextIsKept E C.keeps K.eq V.is_clone }
    ensures handed_out { HandedOutIsKept E C.keeps K.eq V.is_clone }
{}

/// A value that a lookup finds for a key satisfies `keeps` with that key, even if it was written
/// under an equal one. If the lookup returns an entry, the value also satisfies it with the entry's
/// own key.
pub fn a_look_finds_a_kept_value<K: Eq, V: Clone, C: CacheTypes<K, V>, E>()
    ensures get { GetIsKept E C.keeps K.eq }
    ensures remove { RemoveIsKept E C.keeps K.eq }
    ensures or_insert { OrInsertIsKept E C.keeps K.eq }
    ensures begin { BeginIsKept E C.keeps K.eq }
    ensures compute { ShownIsKept E C.keeps K.eq }
{}

/// The value of a notice that is taken satisfies `keeps` with the key that it was stored under.
pub fn a_notice_tells_of_a_kept_value<K: Eq, V: Clone, C: CacheTypes<K, V>, E>()
    ensures { NoticeIsKept E C.keeps K.eq }
{}

/// The value that a compute returns satisfies `keeps` with the key of its turn's name.
///
/// It is the value that the compute put, the one that it removed, or the one that its begin kept
/// aside. Of the first its caller has to prove it.
pub fn a_compute_is_answered_a_kept_value<K: Eq, V: Clone, C: CacheTypes<K, V>, E>()
    ensures inserted { InsertedIsKept E C.keeps K.eq }
    ensures replaced { ReplacedIsKept E C.keeps K.eq }
    ensures removed { RemovedIsKept E C.keeps K.eq }
    ensures unchanged { UnchangedIsKept E C.keeps K.eq }
{}

/// A value that a turn is finished with satisfies `keeps` with the key of the turn's name, as its
/// caller has to prove. Then it does so with every key that it is returned for next.
///
/// That is the key of a ticket that collects it (`collected`), or a key whose lookup finds it
/// (`found`). It is also the key of the entry that the finish returns (`returned`).
pub fn a_finished_value_is_kept_under_the_tickets_key<K: Eq, V: Clone, C: CacheTypes<K, V>, E>()
    ensures collected { CollectedIsKept E C.keeps K.eq }
    ensures found { FinishedIsKept E C.keeps K.eq }
    ensures returned { ReturnedIsKept E C.keeps K.eq }
{}

/// A value that is inserted, and satisfies `keeps` with its key, does so with each key for which
/// the next lookup finds it. If nothing else was done, this needs no other premise (`first`).
pub fn an_inserted_value_is_found_as_kept<K: Eq, V: Clone, C: CacheTypes<K, V>, E>()
    ensures next { FoundIsKept E C.keeps K.eq }
    ensures first { FirstIsKept E C.keeps K.eq }
{}
