//! What the lock of a shared cache guards, and its calls. Each is a call of the state, at a moment
//! that the clock gives.
ghost use Rattle.std.specs.Prelude.{◌≡◌, ◌≤◌, [], length, map, option_map, IfOk, IfErr, IfSome, OnOk, OnErr};
ghost use Rattle.std.specs.Arc.{arc_value};
ghost use Rattle.std.specs.Duration.{as_nanos};
ghost use Rattle.moka_model.specs.Calls.{Get, ContainsKey, Insert, Invalidate, Remove, InvalidateAll, InvalidateIf, RunPendingTasks, RunPendingTasksUpTo, EntryCount, WeightedSize, TakeNotice, Contains, Counted, Left, Noticed};
ghost use Rattle.moka_state.specs.State.{all_writes};
ghost use Rattle.moka_state.specs.Hashes.{IsHashOf};
ghost use Rattle.moka_state.specs.Write.{WriteEnds};
ghost use Rattle.moka_table.specs.Table.{removal_of};
ghost use Rattle.moka_guarded.specs.Guarded.{GuardedData, AtClockMoment};
ghost use Rattle.moka_state.specs.Ends.{ReadsLive, ScansLive};
ghost use Rattle.moka_state.specs.Settings.{IsUsable, data_of};

use moka_model::notification::Notice;
use moka_policy::policy::{CacheTypes, Clock, Policy, Refused};
use moka_state::call_view::CallView;
use moka_state::discards::Discarded;
use moka_state::predicate_error::PredicateError;
use moka_state::state::{CacheState, InsertRefused, Settings};
use moka_state::view::StateView;
use std::alloc::Global;
use std::hash::Hash;
use std::marker::Model;
use std::sync::Arc;

/// A state, and the clock that gives the moments of its calls.
///
/// The invariant: the state has some history whose values all satisfy the cache's `keeps` with
/// their keys.
#[derive(Drop)]
pub struct GuardedState<K: Hash + Drop, V: Clone, C: CacheTypes<K, V>> {
    pub(crate) state: CacheState<K, V, C>,
    pub(crate) clock: Arc<C::Clock>,
}

/// The notices that were queued at the end of a call: the first one, and how many others.
#[derive(Drop)]
pub struct PendingNotices<K: Drop, V: Drop> {
    /// The first notice, taken from the queue.
    pub first: Option<Notice<K, V>>,
    /// How many notices are queued behind it.
    pub others: usize,
}

impl<K: Hash + Drop, V: Clone, C: CacheTypes<K, V>> Model for GuardedState<K, V, C> {
    ghost use Rattle.std.specs.Arc.{arc_value};
    ghost use Rattle.moka_expiration.specs.Behaviour.{hash_by, behaviour_by};
    ghost use Rattle.moka_expiration.specs.StateData.{estimates, view_by};
    ghost use Rattle.moka_value_invariant.specs.Keeps.{HasKeptHistory};
    ghost use Rattle.moka_guarded.specs.Guarded.{GuardedData};

    ghost Value = { GuardedData K V C.Hasher C.Weigher C.Expiry C.Frequency C.Error C.Clock };

    ghost view = { λ it. record { state = it.state; clock = arc_value it.clock } };

    ghost invariant = { λ it. HasKeptHistory C.keeps K.eq V.is_clone (view_by
        (behaviour_by
        (hash_by C.Hasher.build_hasher C.Hasher.Hasher.write C.Hasher.Hasher.finish K.hash_input)
        C.weight C.lifetimes)
        (estimates C.Frequency.noted C.Frequency.count) C.Frequency.opened it.state) };
}

impl<K: Hash + Drop, V: Clone, C: CacheTypes<K, V>> GuardedState<K, V, C> {
    /// Creates a state of these settings, with the clock that gives the moments of its calls. The state
    /// keeps what its calls no longer need until it is taken.
    ///
    /// # Errors
    ///
    /// - `OutOfMemory`: an allocation failed.
    pub fn open(
        alloc: Global,
        settings: Settings<K, V, C>,
        clock: Arc<C::Clock>,
    ) -> Result<Self, Refused>
        requires { IsUsable C.Weigher.weighs C.weight C.Expiry.gives C.lifetimes settings }
        ensures settings { IfOk result (λ it. it.state.settings ≡ data_of settings) }
        ensures clock { IfOk result (λ it. it.clock ≡ arc_value clock) }
        ensures empty { IfOk result (λ it. ⟦<C as StateView<K, V>>⟧.stands_for
            (⟦<C as StateView<K, V>>⟧.settings it.state.settings) it.state []) }
        ensures room { IfOk result (λ it. settings.initial_capacity ≤ it.state.initial_room) }
        ensures cause { IfErr result (λ cause. cause ≡ Refused.OutOfMemory) }
    {
        let mut state = CacheState::new(alloc, settings)?;
        state.defer_drops();
        Ok(GuardedState { state, clock })
    }

    /// Returns the keys and values that the last call no longer needed, to be dropped with no lock
    /// held. Changes nothing else.
    pub fn take_discarded(&mut self) -> Discarded<K, V, C::Error>
        ensures { self.new ≡ self.old }
    {
        self.state.take_discarded()
    }

    /// Returns the capacity and the lifetimes that the state was built with.
    pub fn policy(&self) -> Policy
        ensures max_capacity { result.max_capacity ≡ self.now.state.settings.max_capacity }
        ensures num_segments { result.num_segments ≡ 1 }
        ensures time_to_live { option_map as_nanos result.time_to_live
            ≡ self.now.state.settings.time_to_live }
        ensures time_to_idle { option_map as_nanos result.time_to_idle
            ≡ self.now.state.settings.time_to_idle }
    {
        self.state.policy()
    }

    /// Returns the moment that the clock gives.
    pub fn moment(&self) -> u64
        ensures { C.Clock.tells self.now.clock result }
    {
        self.clock.now()
    }

    /// Returns the hash of `key` by the state's hasher, as the calls that take a hash want it.
    pub fn hash(&self, key: &K) -> u64
        ensures { IsHashOf (⟦<C as StateView<K, V>>⟧.settings self.now.state.settings)
            key.now result }
    {
        self.state.hash(key)
    }

    /// Returns a clone of the live value for `key`, or `None`. Counts as an access.
    ///
    /// # Errors
    ///
    /// - `OutOfMemory`: cloning the value failed. Nothing has changed.
    pub fn get(&mut self, key: &K) -> Result<Option<V>, Refused>
        ensures step { AtClockMoment (C.Clock.tells self.old.clock) (λ now.
            ReadsLive ⟦<C as CallView<K, V>>⟧.spec Get key.now now self.old.state self.new.state
            result) }
        ensures kept { IfOk result (λ found. IfSome found (C.keeps key.now)) }
        ensures refused { IfErr result (λ cause.
            (cause ≡ Refused.OutOfMemory) × (self.new.state ≡ self.old.state)) }
    {
        let now = self.clock.now();
        self.state.get(key, now)
    }

    /// Returns whether `key` has a live value. Does not count as an access.
    pub fn contains_key(&self, key: &K) -> bool
        ensures { AtClockMoment (C.Clock.tells self.now.clock) (λ now.
            ⟦<C as StateView<K, V>>⟧.replies_with self.now.state
            (ContainsKey key.now now) (Contains result)) }
    {
        let now = self.clock.now();
        self.state.contains_key(key, now)
    }

    /// Inserts `value` under `key`, or overwrites the value that is stored there.
    ///
    /// # Errors
    ///
    /// As the state's `insert`: hands back the key and the value, and changes nothing.
    pub fn insert(&mut self, key: K, value: V) -> Result<(), InsertRefused<K, V>>
        requires { C.keeps key value }
        ensures { AtClockMoment (C.Clock.tells self.old.clock) (λ now. WriteEnds
            (⟦<C as StateView<K, V>>⟧.follows self.old.state (Insert key value now) self.new.state)
            self.old.state self.new.state key value result) }
    {
        let now = self.clock.now();
        self.state.insert(key, value, now)
    }

    /// Removes the entry of `key`, live or expired, if there is one.
    pub fn invalidate(&mut self, key: &K)
        ensures { AtClockMoment (C.Clock.tells self.old.clock) (λ now.
            ⟦<C as StateView<K, V>>⟧.follows self.old.state (Invalidate key.now now)
            self.new.state) }
    {
        let now = self.clock.now();
        self.state.invalidate(key, now);
    }

    /// Removes the entry of `key`, live or expired, and returns a clone of its live value.
    ///
    /// # Errors
    ///
    /// - `OutOfMemory`: cloning the value failed. Nothing has changed.
    pub fn remove(&mut self, key: &K) -> Result<Option<V>, Refused>
        ensures step { AtClockMoment (C.Clock.tells self.old.clock) (λ now.
            ReadsLive ⟦<C as CallView<K, V>>⟧.spec Remove key.now now self.old.state self.new.state
            result) }
        ensures kept { IfOk result (λ found. IfSome found (C.keeps key.now)) }
        ensures refused { IfErr result (λ cause.
            (cause ≡ Refused.OutOfMemory) × (self.new.state ≡ self.old.state)) }
    {
        let now = self.clock.now();
        self.state.remove(key, now)
    }

    /// Invalidates all entries.
    pub fn invalidate_all(&mut self)
        ensures { ⟦<C as StateView<K, V>>⟧.follows self.old.state InvalidateAll self.new.state }
    {
        self.state.invalidate_all();
    }

    /// Invalidates each entry of which `predicate` holds.
    ///
    /// # Errors
    ///
    /// - `InvalidationClosuresDisabled`: the cache was built without support for closures.
    pub fn invalidate_entries_with_arc_fun(
        &mut self,
        predicate: Arc<C::Predicate>,
    ) -> Result<(), PredicateError>
        requires tests { C.Predicate.tests (arc_value predicate) (C.test (arc_value predicate)) }
        ensures step { OnOk result (⟦<C as StateView<K, V>>⟧.follows self.old.state
            (InvalidateIf (C.test (arc_value predicate))) self.new.state) }
        ensures cause { IfErr result
            (λ cause. cause ≡ PredicateError.InvalidationClosuresDisabled) }
        ensures refused { OnErr result (self.new.state ≡ self.old.state) }
    {
        self.state.invalidate_entries_with_arc_fun(predicate)
    }

    /// Does what [`GuardedState::invalidate_entries_with_arc_fun`] does, for a predicate by reference.
    pub fn hide_where(&mut self, predicate: &C::Predicate) -> Result<(), PredicateError>
        requires tests { C.Predicate.tests predicate.now (C.test predicate.now) }
        ensures step { OnOk result (⟦<C as StateView<K, V>>⟧.follows self.old.state
            (InvalidateIf (C.test predicate.now)) self.new.state) }
        ensures cause { IfErr result
            (λ cause. cause ≡ PredicateError.InvalidationClosuresDisabled) }
        ensures refused { OnErr result (self.new.state ≡ self.old.state) }
    {
        self.state.predicate_room()?;
        self.state.hide_where(predicate);
        Ok(())
    }

    /// Runs maintenance.
    pub fn run_pending_tasks(&mut self)
        ensures { AtClockMoment (C.Clock.tells self.old.clock) (λ now.
            ⟦<C as StateView<K, V>>⟧.follows self.old.state (RunPendingTasks now) self.new.state) }
    {
        let now = self.clock.now();
        self.state.run_pending_tasks(now);
    }

    /// Runs maintenance, but evicts at most `limit` entries. Returns whether something is left to
    /// do.
    pub fn run_pending_tasks_up_to(&mut self, limit: u64) -> bool
        ensures { AtClockMoment (C.Clock.tells self.old.clock) (λ now.
            ⟦<C as StateView<K, V>>⟧.follows self.old.state
            (RunPendingTasksUpTo limit now) self.new.state
            × ⟦<C as StateView<K, V>>⟧.replies_with self.old.state
            (RunPendingTasksUpTo limit now) (Left result)) }
    {
        let now = self.clock.now();
        self.state.run_pending_tasks_up_to(limit, now)
    }

    /// Returns the number of stored entries.
    pub fn entry_count(&self) -> u64
        ensures { ⟦<C as StateView<K, V>>⟧.replies_with self.now.state EntryCount (Counted result) }
    {
        self.state.entry_count()
    }

    /// Returns the total weight of the stored entries.
    pub fn weighted_size(&self) -> u64
        ensures { ⟦<C as StateView<K, V>>⟧.replies_with self.now.state WeightedSize
            (Counted result) }
    {
        self.state.weighted_size()
    }

    /// Takes the oldest notice, or returns `None` if none is queued.
    pub fn take_notice(&mut self) -> Option<Notice<K, V>>
        ensures reply { ⟦<C as StateView<K, V>>⟧.replies_with self.old.state TakeNotice
            (Noticed (option_map removal_of result)) }
        ensures step { ⟦<C as StateView<K, V>>⟧.follows self.old.state TakeNotice self.new.state }
        ensures kept { IfSome result (λ notice. C.keeps (arc_value notice.key) notice.value) }
    {
        self.state.take_notice()
    }

    /// Takes the oldest notice, and counts those that stay queued.
    pub fn take_pending_notices(&mut self) -> PendingNotices<K, V>
        ensures first { ⟦<C as StateView<K, V>>⟧.replies_with self.old.state TakeNotice
            (Noticed (option_map removal_of result.first)) }
        ensures step { ⟦<C as StateView<K, V>>⟧.follows self.old.state TakeNotice self.new.state }
        ensures kept { IfSome result.first (λ notice. C.keeps (arc_value notice.key) notice.value) }
        ensures others { result.others ≡ length self.new.state.books.notices }
    {
        let first = self.take_notice();
        PendingNotices {
            first,
            others: self.state.notice_count(),
        }
    }

    /// Returns the stored keys, in the state's order.
    ///
    /// # Errors
    ///
    /// - `OutOfMemory`: allocating the list failed.
    pub fn keys(&self) -> Result<Vec<Arc<K>>, Refused>
        ensures keys { IfOk result (λ keys.
            map arc_value keys.items ≡ map (λ w. w.key) (all_writes self.now.state)) }
        ensures cause { IfErr result (λ cause. cause ≡ Refused.OutOfMemory) }
    {
        self.state.scan_keys()
    }

    /// Returns a clone of the live value for `key`, or `None`. Does not count as an access.
    ///
    /// # Errors
    ///
    /// - `OutOfMemory`: cloning the value failed.
    pub fn scan_get(&self, key: &K) -> Result<Option<V>, Refused>
        ensures step { AtClockMoment (C.Clock.tells self.now.clock)
            (λ now. ScansLive ⟦<C as CallView<K, V>>⟧.spec Get key.now now self.now.state result) }
        ensures kept { IfOk result (λ found. IfSome found (C.keeps key.now)) }
        ensures cause { IfErr result (λ cause. cause ≡ Refused.OutOfMemory) }
    {
        let now = self.clock.now();
        self.state.scan_get(key, now)
    }
}
