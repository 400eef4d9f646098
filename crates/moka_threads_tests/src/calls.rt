//! The calls of both shared caches, each in a function without a contract. Nothing else calls a cache,
//! so that no proof of a scene has the contracts of several calls in it.
ghost use Rattle.std.specs.Prelude.{◌≢◌};
ghost use Rattle.moka_model.specs.declared.turns.Kind.{Kind};

use crate::items::{Key, Value, reaches};
use crate::world::{Any, Whole, World, both};
use moka::common::entry::Entry;
use moka::ops::compute::Op;
use moka::policy::Refused;
use moka::sync::value_initializer::{
    Begun, BegunCompute, CollectRefused, Collected, FinishRefused, Kind, Outcome, Ticket, Turn,
};
use rand_core::SeedableRng;
use rand_xoshiro::SplitMix64;
use std::sync::Arc;

/// A call.
#[derive(Clone, Copy, Debug)]
pub(crate) enum Call {
    Get,
    ContainsKey,
    Insert,
    OrInsert,
    OrDefault,
    Invalidate,
    Remove,
    InvalidateAll,
    Tasks,
    TasksUpTo,
    EntryCount,
    Begin,
    Walk,
    With,
    WithByRef,
    WithIf,
    Optionally,
    Try,
    Compute,
    TryCompute,
    Upsert,
    SelectOrInsert,
    SelectOrDefault,
}

/// The number of the value that a call gave, or 0, or why it failed.
pub(crate) type Given = Result<u64, Refused>;

/// The entry that a compute is shown.
pub(crate) type Shown<W> = Option<Entry<Key<W>, Value<W>>>;

fn made<T: Drop>(made: Result<T, Refused>) -> Given {
    match made {
        Ok(_) => Ok(0),
        Err(cause) => Err(cause),
    }
}

impl<W: Whole> World<W> {
    pub(crate) fn look(&self, number: u64) -> Given {
        let key = Key::new(number);
        match both!(&self.cache, cache => cache.get(&key))? {
            Some(value) => Ok(value.number),
            None => Ok(0),
        }
    }

    pub(crate) fn insert(&self, key: Key<W>, value: Value<W>) -> Given {
        match both!(&self.cache, cache => cache.insert(key, value)) {
            Ok(()) => Ok(0),
            Err(refused) => Err(refused.cause),
        }
    }

    pub(crate) fn put(&self, number: u64, value: u64) -> Given {
        self.insert(Key::new(number), Value::new(value))
    }

    pub(crate) fn or_insert(&self, number: u64, value: Value<W>) -> Given {
        let key = self.shared_key(number)?;
        match both!(&self.cache, cache => cache.or_insert(&key, value)) {
            Ok(_) => Ok(0),
            Err(refused) => Err(refused.cause),
        }
    }

    pub(crate) fn erase(&self, number: u64) {
        let key = Key::new(number);
        both!(&self.cache, cache => cache.invalidate(&key));
    }

    /// Makes a call about this key, with this value if it takes one.
    pub(crate) fn make(&self, number: u64, value: Value<W>, call: Call) -> Given {
        let (at, key) = (&self.cache, Key::new(number));
        match call {
            Call::Get => return self.look(number),
            Call::Insert => return self.insert(key, value),
            Call::OrInsert => return self.or_insert(number, value),
            Call::Begin => return self.begins(number),
            Call::Walk => return both!(at, cache => self.walk(cache.iter())),
            Call::OrDefault => return made(both!(at, cache => cache.or_default(key))),
            Call::Remove => return made(both!(at, cache => cache.remove(&key))),
            Call::Invalidate => self.erase(number),
            Call::ContainsKey => drop(both!(at, cache => cache.contains_key(&key))),
            Call::InvalidateAll => both!(at, cache => cache.invalidate_all()),
            Call::Tasks => both!(at, cache => cache.run_pending_tasks()),
            Call::TasksUpTo => drop(both!(at, cache => cache.run_pending_tasks_up_to(1))),
            Call::EntryCount => drop(both!(at, cache => cache.entry_count())),
            call => return self.load(key, value, call),
        }
        Ok(0)
    }

    fn load(&self, key: Key<W>, value: Value<W>, call: Call) -> Given {
        if !matches!(call, Call::With | Call::WithByRef | Call::WithIf) {
            return self.load_or_not(key, value, call);
        }
        let at = &self.cache;
        let init = move || self.init(value);
        let given = match call {
            Call::WithByRef => both!(at, cache => cache.get_with_by_ref(&key, init))?,
            Call::WithIf => {
                let judge = move |live: &Value<W>| self.judges(live);
                both!(at, cache => cache.get_with_if(key, init, judge))?
            }
            _ => both!(at, cache => cache.get_with(key, init))?,
        };
        Ok(given.number)
    }

    /// Makes a load that may give no value. Returns its error, and how many share the error after the
    /// caller that had the turn has dropped it.
    fn load_or_not(&self, key: Key<W>, value: Value<W>, call: Call) -> Given {
        let at = &self.cache;
        match call {
            Call::Optionally => {
                let init = move || Some(self.init(value));
                made(both!(at, cache => cache.optionally_get_with(key, init)))
            }
            Call::Try => {
                let init = move || self.tries(value);
                match both!(at, cache => cache.try_get_with(key, init))? {
                    Ok(value) => Ok(value.number),
                    Err(error) => {
                        reaches(&self.rt, &self.marks.ended, 1);
                        let shared = Arc::strong_count(&error) as u64;
                        Ok(shared.wrapping_mul(100).wrapping_add(*error))
                    }
                }
            }
            call => self.select(key, value, call),
        }
    }

    fn select(&self, key: Key<W>, value: Value<W>, call: Call) -> Given {
        let at = &self.cache;
        match call {
            Call::Compute => {
                let compute = move |_: Shown<W>| Op::Put(self.init(value));
                made(both!(at, cache => cache.entry(key).and_compute_with(compute)))
            }
            Call::TryCompute => {
                let compute = move |_: Shown<W>| Ok(Op::Put(self.init(value)));
                made(both!(at, cache => cache.entry(key).and_try_compute_with(compute)))
            }
            Call::Upsert => {
                let upsert = move |shown: Shown<W>| self.upserts(shown, value);
                let entry = both!(at, cache => cache.entry(key).and_upsert_with(upsert))?;
                Ok(entry.value().number)
            }
            Call::SelectOrInsert => made(both!(at, cache => cache.entry(key).or_insert(value))),
            _ => made(both!(at, cache => cache.entry(key).or_default())),
        }
    }

    /// Begins. A live value is replaced, or is not.
    pub(crate) fn begin(
        &self,
        number: u64,
        kind: Kind,
        replaces: bool,
    ) -> Result<Begun<Key<W>, Value<W>>, Refused>
        requires { kind ≢ Kind.Compute }
    {
        let key = self.shared_key(number)?;
        let replace_if = Some(move |_: &Value<W>| replaces);
        both!(&self.cache, cache => cache.begin(&key, kind, replace_if))
    }

    /// Begins, and abandons the turn if there is one.
    fn begins(&self, number: u64) -> Given {
        match self.begin(number, Kind::With, false)? {
            Begun::Found(_) => Ok(0),
            Begun::Run(turn) => self.abandon(turn),
            Begun::Wait(ticket) => self.leave(ticket),
        }
    }

    /// Opens a turn of a kind, whatever is live.
    pub(crate) fn open(&self, number: u64, kind: Kind) -> Turn<Key<W>>
        requires { kind ≢ Kind.Compute }
    {
        match self.begin(number, kind, true) {
            Ok(Begun::Run(turn)) => turn,
            Ok(Begun::Wait(ticket)) => {
                self.leave(ticket).ok();
                panic!(&self.rt; "another has the turn")
            }
            Ok(Begun::Found(_)) | Err(_) => panic!(&self.rt; "no turn"),
        }
    }

    /// Ends a turn with an outcome, or abandons it if that fails.
    pub(crate) fn finish(&self, turn: Turn<Key<W>>, outcome: Outcome<Value<W>, Arc<u64>>) -> Given {
        if !turn.kind().accepts(&outcome) {
            return self.abandon(turn).and(Err(Refused::UnknownTurn));
        }
        match both!(&self.cache, cache => cache.finish(turn, outcome)) {
            Ok(_) => Ok(0),
            Err(
                FinishRefused {
                    turn,
                    outcome: _,
                    cause,
                },
            ) => self.abandon(turn).and(Err(cause)),
        }
    }

    pub(crate) fn abandon(&self, turn: Turn<Key<W>>) -> Given {
        made(both!(&self.cache, cache => cache.abandon(turn)))
    }

    pub(crate) fn leave(&self, ticket: Ticket<Key<W>>) -> Given {
        made(both!(&self.cache, cache => cache.leave(ticket)))
    }

    /// Collects a ticket, whose turn has to have given something.
    pub(crate) fn collect(&self, ticket: Ticket<Key<W>>) -> Given {
        match both!(&self.cache, cache => cache.collect(ticket)) {
            Ok(Collected::Ready(_)) => Ok(0),
            Ok(Collected::Abandoned | Collected::Ended) => Err(Refused::WaitsAbandoned),
            Ok(Collected::NotYet(ticket)) => self.leave(ticket).and(Err(Refused::TurnIsOpen)),
            Err(CollectRefused { ticket, cause }) => self.leave(ticket).and(Err(cause)),
        }
    }

    /// Begins a compute that saves the live value, and abandons it.
    pub(crate) fn compute_nothing(&self, number: u64) -> Given {
        let key = self.shared_key(number)?;
        match both!(&self.cache, cache => cache.begin_compute(&key, true))? {
            BegunCompute::Run(turn, Some(_)) => self.abandon(turn),
            BegunCompute::Run(turn, None) => self.abandon(turn).and(Err(Refused::UnknownTurn)),
            BegunCompute::Wait(ticket) => self.leave(ticket).and(Err(Refused::TurnIsOpen)),
        }
    }

    /// Hides nothing, by a predicate.
    pub(crate) fn hide(&self) -> Given {
        let Some(watch) = self.watch() else {
            return Err(Refused::OutOfMemory);
        };
        let mut generator = SplitMix64::seed_from_u64(7);
        let is_hidden = match &self.cache {
            Any::One(cache) => cache.invalidate_entries_if(watch, &mut generator).is_ok(),
            Any::Four(cache) => cache.invalidate_entries_if(watch).is_ok(),
        };
        assert!(&self.rt; is_hidden);
        Ok(0)
    }
}
