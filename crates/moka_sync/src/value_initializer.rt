//! The participants of single flight on a shared cache: callers that wait for each other's turns.
//!
//! A caller whose value another one computes sleeps until that one has ended, and gets a clone of
//! the outcome. If the other one gave up, it begins again, and computes the value itself if nobody
//! else does by then.
ghost use Rattle.std.specs.Prelude.{◌≡◌, ◌≢◌, IfOk, IfSome};
ghost use Rattle.std.specs.Arc.{arc_value};
ghost use Rattle.moka_state.specs.Begin.{FoundKeeps, FoundKeepsFor, IsNamed, IsShownKept, TakesKept};
ghost use Rattle.moka_guarded.specs.Kept.{AnswerFits, GivenKeeps};
ghost use Rattle.moka_sync.specs.ReplaceIf.{TakesKeptAgain};
ghost use Rattle.moka_single_flight.specs.Holds.{HoldsOfJoined};
ghost use Rattle.moka_sync.specs.Waiting.{IsGivenTo, IsShownTurn, IsTurnFor, asked_key};

use crate::cache::{Cache, unlock};
use crate::entry_forms::none_like;
use moka_model::entry::Entry;
use moka_model::turns::Kind;
use moka_policy::policy::{CacheTypes, Refused};
use moka_single_flight::participant::Participant;
use moka_single_flight::replies;
use moka_single_flight::replies::{Begun, Joined};
use moka_single_flight::wait::{MAX_RETRIES, wait_for};
use moka_state::answers::{Answer, BegunCompute, CollectRefused, Collected, ShownTurn};
use moka_state::handles::{Ticket, Turn};
use std::hash::Hash;
use std::marker::{Model, PhantomData};
use std::sync::{Arc, Wait};

// A caller with an initializer of some kind. It may ask to replace a live value.
#[derive(Drop)]
struct Initializer<K, V, P: FnMut(&V) -> bool> {
    key: Arc<K>,
    kind: Kind,
    replace_if: Option<P>,
    values: PhantomData<V>,
}

// A caller with an initializer, whose key is its own until its first begin finds no live value and
// shares it.
#[derive(Drop)]
struct FirstInitializer<K> {
    key: Option<Result<Arc<K>, K>>,
    kind: Kind,
}

// A caller with a compute.
#[derive(Drop)]
struct Computer<K> {
    key: Arc<K>,
    keep: bool,
}

impl<K, V, P: FnMut(&V) -> bool> Model for Initializer<K, V, P> {
    ghost use Rattle.std.specs.Prelude.{◌≢◌};
    ghost use Rattle.std.specs.Arc.{arc_value};
    ghost use Rattle.moka_model.specs.declared.turns.Kind.TheVariants.{Compute};
    ghost use Rattle.moka_sync.specs.Waiting.{InitializerData};

    ghost Value = { InitializerData K P };

    ghost view = { λ it. record {
      key = arc_value it.key;
      kind = it.kind;
      replace_if = it.replace_if;
    } };

    ghost invariant = { λ it. it.kind ≢ Compute };
}

impl<K> Model for FirstInitializer<K> {
    ghost use Rattle.std.specs.Prelude.{◌≢◌};
    ghost use Rattle.moka_model.specs.declared.turns.Kind.TheVariants.{Compute};
    ghost use Rattle.moka_sync.specs.Waiting.{FirstData, asked};

    ghost Value = { FirstData K };

    ghost view = { λ it. record {
      key = asked it.key;
      kind = it.kind;
    } };

    ghost invariant = { λ it. it.kind ≢ Compute };
}

impl<K> Model for Computer<K> {
    ghost use Rattle.std.specs.Arc.{arc_value};
    ghost use Rattle.moka_sync.specs.Waiting.{ComputerData};

    ghost Value = { ComputerData K };

    ghost view = { λ it. record { key = arc_value it.key } };
}

impl<K, V, P: FnMut(&V) -> bool> Initializer<K, V, P> {
    fn new(key: Arc<K>, kind: Kind, replace_if: Option<P>) -> Self
        requires { kind ≢ Kind.Compute }
        ensures { result ≡ record {
          key = arc_value key;
          kind = kind;
          replace_if = replace_if;
        } }
    {
        Initializer {
            key,
            kind,
            replace_if,
            values: PhantomData,
        }
    }
}

impl<
    K: Hash + Drop,
    V: Clone,
    C: CacheTypes<K, V>,
    W: Wait,
    P: FnMut(&V) -> bool + Drop,
> Participant<Cache<K, V, C, W>, Answer<K, V, C::Error>> for Initializer<K, V, P> {
    ghost use Rattle.std.specs.Prelude.{◌≡◌, ⊤, IfSome};
    ghost use Rattle.moka_sync.specs.ReplaceIf.{TakesKeptAgain};
    ghost use Rattle.moka_sync.specs.Waiting.{AsksSame, BeginReturns, CollectReturns};

    type Turn = Turn<K>;

    type Ticket = Ticket<K>;

    type Refused = Refused;

    ghost ready = { λ it. IfSome it.replace_if (TakesKeptAgain (C.keeps it.key) P.FnMut) };

    ghost begun = { λ _ old reply new. AsksSame old new × BeginReturns C.keeps old reply };

    ghost collected = { λ _ old ticket reply new. (new ≡ old)
        × CollectReturns C.keeps ticket reply };

    ghost begin_refused = { λ _ _ _ _. ⊤ };

    ghost collect_refused = { λ _ _ _ _ _. ⊤ };

    fn begin(
        &mut self,
        at: &Cache<K, V, C, W>,
    ) -> Result<Begun<Answer<K, V, C::Error>, Turn<K>, Ticket<K>>, Refused> {
        match at.begin_reusing(&self.key, self.kind, &mut self.replace_if) {
            Ok(Begun::Found(entry)) => Ok(Begun::Found(Answer::Entry(entry))),
            Ok(Begun::Run(turn)) => Ok(Begun::Run(turn)),
            Ok(Begun::Wait(ticket)) => Ok(Begun::Wait(ticket)),
            Err(cause) => Err(cause),
        }
    }

    fn collect(
        &mut self,
        at: &Cache<K, V, C, W>,
        ticket: Ticket<K>,
    ) -> Result<replies::Collected<Answer<K, V, C::Error>, Ticket<K>>, Refused> {
        match at.collect_or_sleep(ticket) {
            Ok(Some(answer)) => Ok(replies::Collected::Ready(answer)),
            Ok(None) => Ok(replies::Collected::Retry),
            Err(cause) => Err(cause),
        }
    }
}

impl<K: Hash + Drop, V: Clone, C: CacheTypes<K, V>, W: Wait> Participant<
    Cache<K, V, C, W>,
    Answer<K, V, C::Error>,
> for FirstInitializer<K> {
    ghost use Rattle.std.specs.Prelude.{◌≡◌, ⊤, IsSome};
    ghost use Rattle.moka_sync.specs.Waiting.{CollectReturns, FirstReturns};

    type Turn = Turn<K>;

    type Ticket = Ticket<K>;

    type Refused = Refused;

    ghost ready = { λ it. IsSome it.key };

    ghost begun = { λ _ old reply new. (new ≡ old) × FirstReturns C.keeps old reply };

    ghost collected = { λ _ old ticket reply new. (new ≡ old)
        × CollectReturns C.keeps ticket reply };

    ghost begin_refused = { λ _ _ _ _. ⊤ };

    ghost collect_refused = { λ _ _ _ _ _. ⊤ };

    fn begin(
        &mut self,
        at: &Cache<K, V, C, W>,
    ) -> Result<Begun<Answer<K, V, C::Error>, Turn<K>, Ticket<K>>, Refused> {
        let Some(asked) = self.key.take() else {
            unreachable!()
        };
        let (asked, begun) = match asked {
            Ok(key) => {
                let mut none = none_like(|_: &V| false);
                let begun = at.begin_reusing(&key, self.kind, &mut none);
                (Ok(key), begun)
            }
            Err(key) => at.begin_own(key, self.kind),
        };
        self.key = Some(asked);
        match begun {
            Ok(Begun::Found(entry)) => Ok(Begun::Found(Answer::Entry(entry))),
            Ok(Begun::Run(turn)) => Ok(Begun::Run(turn)),
            Ok(Begun::Wait(ticket)) => Ok(Begun::Wait(ticket)),
            Err(cause) => Err(cause),
        }
    }

    fn collect(
        &mut self,
        at: &Cache<K, V, C, W>,
        ticket: Ticket<K>,
    ) -> Result<replies::Collected<Answer<K, V, C::Error>, Ticket<K>>, Refused> {
        match at.collect_or_sleep(ticket) {
            Ok(Some(answer)) => Ok(replies::Collected::Ready(answer)),
            Ok(None) => Ok(replies::Collected::Retry),
            Err(cause) => Err(cause),
        }
    }
}

impl<K: Hash + Drop, V: Clone, C: CacheTypes<K, V>, W: Wait> Participant<Cache<K, V, C, W>, ()>
    for Computer<K> {
    ghost use Rattle.std.specs.Prelude.{◌≡◌, ⊤};
    ghost use Rattle.moka_model.specs.declared.turns.Kind.TheVariants.{Compute};
    ghost use Rattle.moka_sync.specs.Waiting.{BeginComputeReturns, CollectComputeReturns};

    type Turn = ShownTurn<K, V>;

    type Ticket = Ticket<K>;

    type Refused = Refused;

    ghost begun = { λ _ old reply new. (new ≡ old) × BeginComputeReturns C.keeps old reply };

    ghost collected = { λ _ old ticket reply new. (new ≡ old)
        × (ticket.key.kind ≡ Compute → CollectComputeReturns ticket reply) };

    ghost begin_refused = { λ _ _ _ _. ⊤ };

    ghost collect_refused = { λ _ _ _ _ _. ⊤ };

    fn begin(
        &mut self,
        at: &Cache<K, V, C, W>,
    ) -> Result<Begun<(), ShownTurn<K, V>, Ticket<K>>, Refused> {
        match at.begin_compute(&self.key, self.keep) {
            Ok(BegunCompute::Run(turn, shown)) => Ok(Begun::Run(ShownTurn { turn, shown })),
            Ok(BegunCompute::Wait(ticket)) => Ok(Begun::Wait(ticket)),
            Err(cause) => Err(cause),
        }
    }

    fn collect(
        &mut self,
        at: &Cache<K, V, C, W>,
        ticket: Ticket<K>,
    ) -> Result<replies::Collected<(), Ticket<K>>, Refused> {
        match at.collect_or_sleep(ticket) {
            Ok(Some(_)) => Ok(replies::Collected::Ready(())),
            Ok(None) => Ok(replies::Collected::Retry),
            Err(cause) => Err(cause),
        }
    }
}

impl<K: Hash + Drop, V: Clone, C: CacheTypes<K, V>, W: Wait> Cache<K, V, C, W> {
    // Begins, and leaves `replace_if` to the caller, so that a later begin can use it again.
    pub(crate) fn begin_reusing<P: FnMut(&V) -> bool + Drop>(
        &self,
        key: &Arc<K>,
        kind: Kind,
        replace_if: &mut Option<P>,
    ) -> Result<Begun<Entry<K, V>, Turn<K>, Ticket<K>>, Refused>
        requires initializer { kind ≢ Kind.Compute }
        requires asks { IfSome replace_if.old (TakesKept (C.keeps (arc_value key.now)) P.FnMut) }
        ensures named { IfOk result (IsNamed kind (arc_value key.now)) }
        ensures kept { IfOk result (FoundKeeps C.keeps) }
        ensures kept_for { IfOk result (FoundKeepsFor C.keeps (arc_value key.now)) }
        ensures left { IsShownKept (C.keeps (arc_value key.now)) P.FnMut
            replace_if.old replace_if.new }
    {
        let mut locked = self.lock();
        let begun = locked.begin(key, kind, replace_if);
        drop(unlock(locked));
        begun
    }

    // Collects a ticket, and sleeps as long as its turn is open. A waking gives the lock back, and
    // it collects again under that. Returns what the turn gave, or `None` if it gave nothing. If
    // the collect fails, spends the ticket.
    fn collect_or_sleep(&self, ticket: Ticket<K>) -> Result<Option<Answer<K, V, C::Error>>, Refused>
        ensures kept { IfOk result
            (λ given. IfSome given (GivenKeeps C.keeps (arc_value ticket.key.key))) }
        ensures fits { IfOk result (λ given. IfSome given (AnswerFits ticket.key.kind)) }
    {
        let mut ticket = ticket;
        let mut locked = self.lock();
        for _ in self.inner.waits.forever() {
            let ended = match locked.collect(ticket) {
                Ok(Collected::NotYet(same)) => {
                    ticket = same;
                    locked = self.inner.ended.wait(&self.inner.waits, locked);
                    continue;
                }
                Ok(Collected::Ready(answer)) => Ok(Some(answer)),
                Ok(Collected::Abandoned) => Ok(None),
                Ok(Collected::Ended) => Ok(None),
                Err(refused) => {
                    let CollectRefused { ticket, cause } = refused;
                    let _ = locked.leave(ticket);
                    Err(cause)
                }
            };
            drop(unlock(locked));
            return ended;
        }
        unreachable!()
    }

    // Returns the live entry or the outcome of another caller's initializer; else the turn, once
    // nobody else has it, or neither after `MAX_RETRIES` abandoned turns. Fails as a begin or a
    // collect does.
    pub(crate) fn ask<P: FnMut(&V) -> bool + Drop>(
        &self,
        key: Arc<K>,
        kind: Kind,
        replace_if: Option<P>,
    ) -> Result<Joined<Answer<K, V, C::Error>, Turn<K>>, Refused>
        requires initializer { kind ≢ Kind.Compute }
        requires shows { IfSome replace_if
            (TakesKeptAgain (C.keeps (arc_value key)) P.FnMut) }
        ensures { IfOk result (HoldsOfJoined (IsGivenTo C.keeps kind (arc_value key))
            (IsTurnFor kind (arc_value key))) }
    {
        let mut caller = Initializer::new(key, kind, replace_if);
        wait_for(&self.inner.waits, &mut caller, self, Some(MAX_RETRIES))
    }

    // Does what `ask` does, for a key that is not shared yet.
    pub(crate) fn ask_first(
        &self,
        key: K,
        kind: Kind,
    ) -> Result<Joined<Answer<K, V, C::Error>, Turn<K>>, Refused>
        requires initializer { kind ≢ Kind.Compute }
        ensures { IfOk result (HoldsOfJoined (IsGivenTo C.keeps kind key) (IsTurnFor kind key)) }
    {
        let mut caller = FirstInitializer {
            key: Some(Err(key)),
            kind,
        };
        wait_for(&self.inner.waits, &mut caller, self, Some(MAX_RETRIES))
    }

    // Looks up a key, and if it has no live value shares it and begins, all under one lock, at one
    // moment and with one hash of the key. Returns the key too, shared if it has been.
    fn begin_own(
        &self,
        key: K,
        kind: Kind,
    ) -> (
        Result<Arc<K>, K>,
        Result<Begun<Entry<K, V>, Turn<K>, Ticket<K>>, Refused>,
    )
        requires initializer { kind ≢ Kind.Compute }
        ensures key { asked_key result.0 ≡ key }
        ensures named { IfOk result.1 (IsNamed kind key) }
        ensures kept { IfOk result.1 (FoundKeeps C.keeps) }
        ensures kept_for { IfOk result.1 (FoundKeepsFor C.keeps key) }
    {
        let mut locked = self.lock();
        let state = &mut *locked;
        let now = state.moment();
        let hash = state.hash(&key);
        match state.find_acceptable_with_hash(&key, hash, none_like(|_: &V| false), now) {
            Ok(None) => {}
            Ok(Some(entry)) => return (Err(key), Ok(Begun::Found(entry))),
            Err(cause) => return (Err(key), Err(cause)),
        }
        let key = match Arc::new(self.inner.alloc, key) {
            Ok(key) => key,
            Err(failed) => return (Err(failed.value), Err(Refused::OutOfMemory)),
        };
        let Ok(shared) = key.clone() else {
            return (Ok(key), Err(Refused::OutOfMemory));
        };
        let begun = state.begin_missed(shared, hash, kind, now);
        drop(unlock(locked));
        (Ok(key), begun)
    }

    // Returns the turn of a compute, once nobody else has it. Fails as a begin or a collect does.
    pub(crate) fn ask_to_compute(&self, key: Arc<K>, keep: bool) -> Result<ShownTurn<K, V>, Refused>
        ensures { IfOk result (IsShownTurn C.keeps (arc_value key)) }
    {
        let mut caller = Computer { key, keep };
        match wait_for(&self.inner.waits, &mut caller, self, None) {
            Ok(Joined::Turn(turn)) => Ok(turn),
            Ok(Joined::Value(())) => unreachable!(),
            Ok(Joined::TooMany) => unreachable!(),
            Err(cause) => Err(cause),
        }
    }
}
