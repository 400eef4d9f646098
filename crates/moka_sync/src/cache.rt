//! The cache that threads share: a state and its clock under one lock.
ghost use Rattle.std.specs.Prelude.{◌≡◌, ◌⊎◌, ◌↔◌, [], false, true, option_map, None, Some, IfSome, IsOk, IfOk, IfErr, OnOk};
ghost use Rattle.std.specs.Arc.{arc_value};
ghost use Rattle.std.specs.Duration.{as_nanos};
ghost use Rattle.moka_state.specs.Begin.{EntryKeeps};
ghost use Rattle.moka_sync.specs.Builder.{default_settings};
ghost use Rattle.moka_sync.specs.Cache.{CacheData, IsBuilt, Shows};

use crate::builder::{CacheBuilder, Single};
use crate::mutex_with_initial::MutexWithInitial;
use crate::removal_notifier::RemovalNotifier;
use moka_guarded::guarded::{GuardedState, PendingNotices};
use moka_model::entry::Entry;
use moka_model::notification::Notice;
use moka_policy::builder_utils::BuildError;
use moka_policy::policy::{CacheTypes, Policy, Refused};
use moka_predicate_ids::predicate_id::new_predicate_id;
use moka_state::discards::Discarded;
use moka_state::or_insert::OrInsertRefused;
use moka_state::predicate_error::PredicateError;
use moka_state::predicate_id::PredicateId;
use moka_state::state::InsertRefused;
use moka_state::view::StateView;
use rand_core::Rng;
use std::alloc::{AllocError, Global};
use std::fmt::{self, Debug, Formatter, Write};
use std::hash::{Hash, RandomState};
use std::marker::Model;
use std::sync::{Arc, Condvar, MutexGuard, Wait};

/// What all clones of a cache share. The name, the policy and the support for closures are those of
/// the state that went under the lock.
#[derive(Drop)]
pub(crate) struct Inner<K: Hash + Drop, V: Clone, C: CacheTypes<K, V>, W> {
    /// The state and its clock, under the lock.
    pub locked: MutexWithInitial<GuardedState<K, V, C>>,
    /// Where callers that wait for a turn sleep until some turn has ended.
    pub ended: Condvar,
    /// The cache's name, if it has one.
    pub name: Option<String>,
    /// The capacity and the lifetimes that it was built with.
    pub policy: Policy,
    /// Whether it was built with support for closures.
    pub closures: bool,
    /// The listener, if there is one.
    pub listener: Option<Arc<RemovalNotifier<K, V, C>>>,
    /// What keys and errors are allocated from when they are shared.
    pub alloc: Global,
    /// Lets the lock and the sleepers wait.
    pub waits: W,
    ghost shows: { Shows locked.state.settings name policy },
    ghost supports: { closures ≡ locked.state.settings.supports_closures },
}

/// A cache that threads use at once: a state and its clock under one lock. A clone is the same
/// cache.
///
/// A call makes one or more steps. Each runs under the lock, at the moment that the clock gives
/// then, in nanoseconds. `W` lets the lock wait, as a `HostRuntime` does. `keeps` is the value
/// invariant of the cache's types `C`.
///
/// The weigher, the expiry, predicates, the frequency source and `replace_if` run under the lock.
/// Initializers, closures of computes and the listener run with no lock held, so they may use the
/// cache.
///
/// What a call no longer needs is dropped once the lock is released.
///
/// A failed call leaves the cache unchanged, except that loaders and computes may have recorded
/// lookups and drawn sequence numbers.
///
/// # Complexity
///
/// A call on one key visits the entries that have the key's hash. Otherwise a call costs what it
/// costs a state, and the locks.
#[derive(Drop)]
pub struct Cache<K: Hash + Drop, V: Clone, C: CacheTypes<K, V>, W> {
    pub(crate) inner: Arc<Inner<K, V, C, W>>,
}

impl<K: Hash + Drop, V: Clone, C: CacheTypes<K, V>, W> Model for Cache<K, V, C, W> {
    ghost Value = { CacheData K V C.Hasher C.Weigher C.Expiry C.Frequency C.Error C.Listener
        C.Clock };

    ghost view = { λ cache. record {
      opening = (arc_value cache.inner).locked.state;
      clock = (arc_value cache.inner).locked.clock;
      listener = option_map arc_value (arc_value cache.inner).listener;
    } };
}

impl<K: Hash + Drop, V: Clone, C: CacheTypes<K, V>, W: Drop> Clone for Cache<K, V, C, W> {
    ghost is_clone = { λ cache copy. copy ≡ cache };

    fn clone(&self) -> Result<Self, AllocError> {
        Ok(Cache {
            inner: self.inner.clone()?,
        })
    }
}

impl<K: Hash + Drop, V: Clone, C: CacheTypes<K, V>, W> Debug for Cache<K, V, C, W> {
    /// Writes the cache's name and policy. Shows no entries, so it takes no lock.
    fn fmt<O: Write>(&self, f: &mut Formatter<O>) -> fmt::Result {
        f.debug_struct("Cache")
            .field("name", &self.inner.name)
            .field("policy", &self.inner.policy)
            .finish()
    }
}

impl<K: Hash + Drop, V: Clone, C: CacheTypes<K, V>, W: Drop> Cache<K, V, C, W> {
    /// Returns a builder with no settings.
    pub fn builder() -> CacheBuilder<K, V, C, Single>
        ensures { result ≡ default_settings }
    {
        CacheBuilder::default()
    }

    /// Returns the cache's name, or `None` if it has none.
    pub fn name(&self) -> Option<&str>
        ensures { option_map (λ name. name.now) result ≡ self.now.opening.settings.name }
    {
        self.inner.name.as_deref()
    }

    /// Returns the capacity and the lifetimes that the cache was built with. The number of segments
    /// is 1.
    pub fn policy(&self) -> Policy
        ensures max_capacity { result.max_capacity ≡ self.now.opening.settings.max_capacity }
        ensures num_segments { result.num_segments ≡ 1 }
        ensures time_to_live { option_map as_nanos result.time_to_live
            ≡ self.now.opening.settings.time_to_live }
        ensures time_to_idle { option_map as_nanos result.time_to_idle
            ≡ self.now.opening.settings.time_to_idle }
    {
        self.inner.policy
    }
}

impl<K, V, C, W> Cache<K, V, C, W>
where
    K: Hash + Drop,
    V: Clone,
    C: CacheTypes<K, V, Hasher = RandomState>,
    W: Drop,
{
    /// Creates a cache of this capacity, for keys that an attacker may choose.
    ///
    /// `max_capacity` is a number of entries. `clock` gives the moments of the calls. `waits` lets
    /// the lock wait.
    ///
    /// # Errors
    ///
    /// - `OutOfMemory`: an allocation failed.
    pub fn new(
        alloc: Global,
        max_capacity: u64,
        hasher: RandomState,
        clock: C::Clock,
        waits: W,
    ) -> Result<Self, BuildError>
        ensures built { IfOk result (IsBuilt
            (record default_settings { max_capacity = Some max_capacity }) hasher clock) }
        ensures empty { IfOk result (λ cache. ⟦<C as StateView<K, V>>⟧.stands_for
            (⟦<C as StateView<K, V>>⟧.settings cache.opening.settings) cache.opening []) }
        ensures cause { IfErr result (λ cause. cause ≡ BuildError.OutOfMemory) }
    {
        CacheBuilder::new(max_capacity).build(alloc, hasher, clock, waits)
    }
}

impl<K: Hash + Drop, V: Clone, C: CacheTypes<K, V>, W: Wait> Cache<K, V, C, W> {
    /// Returns a clone of the live value for `key`, or `None`. The value satisfies `keeps` with
    /// `key`.
    ///
    /// Counts as an access. The key's hash is noted, whether there is a value or not.
    ///
    /// # Errors
    ///
    /// - `OutOfMemory`: cloning the value failed.
    pub fn get(&self, key: &K) -> Result<Option<V>, Refused>
        ensures kept { IfOk result (λ found. IfSome found (C.keeps key.now)) }
        ensures cause { IfErr result (λ cause. cause ≡ Refused.OutOfMemory) }
    {
        self.lock().get(key)
    }

    /// Returns whether `key` has a live value.
    ///
    /// Does not count as an access, records nothing, and does not allocate.
    pub fn contains_key(&self, key: &K) -> bool {
        self.lock().contains_key(key)
    }

    /// Inserts `value` under `key`, or overwrites the value that is stored there, live or expired.
    ///
    /// If 64 or more entries are pending, runs a maintenance first, up to the flush limit. Calls the
    /// listener for removed entries once the lock is released. At a capacity of 0 nothing is stored.
    ///
    /// # Errors
    ///
    /// Hands back the key and the value.
    ///
    /// - `OutOfMemory`: an allocation failed.
    /// - `NumbersUsedUp`: no sequence number is left for the write.
    ///
    /// # Complexity
    ///
    /// A maintenance visits the entries that [`Cache::run_pending_tasks`] visits.
    pub fn insert(&self, key: K, value: V) -> Result<(), InsertRefused<K, V>>
        requires { C.keeps key value }
        ensures key_back { IfErr result (λ refused. refused.key ≡ key) }
        ensures value_back { IfErr result (λ refused. refused.value ≡ value) }
        ensures cause { IfErr result (λ refused.
            (refused.cause ≡ Refused.OutOfMemory) ⊎ (refused.cause ≡ Refused.NumbersUsedUp)) }
    {
        let mut locked = self.lock();
        let done = locked.insert(key, value);
        let rest = release(locked, done.is_ok());
        self.settle(rest);
        done
    }

    /// Returns the entry of the live value for `key`. If there is none, inserts `value` and returns
    /// an entry with a clone of that value. The entry's value satisfies `keeps` with `key`.
    ///
    /// Does not wait for an open turn of the key. Calls the listener once the lock is released.
    ///
    /// # Errors
    ///
    /// Hands back the value.
    ///
    /// - `OutOfMemory`: an allocation or a clone failed.
    /// - `NumbersUsedUp`: no sequence number is left for the write.
    pub fn or_insert(&self, key: &Arc<K>, value: V) -> Result<Entry<K, V>, OrInsertRefused<V>>
        requires { C.keeps (arc_value key.now) value }
        ensures kept { IfOk result (EntryKeeps C.keeps (arc_value key.now)) }
        ensures value_back { IfErr result (λ refused. refused.value ≡ value) }
    {
        let mut locked = self.lock();
        let done = locked.or_insert(key, value);
        let rest = release(locked, done.is_ok());
        self.settle(rest);
        done
    }

    /// Removes the entry of `key`, live or expired, if there is one. Does not allocate.
    ///
    /// Calls the listener once the lock is released.
    pub fn invalidate(&self, key: &K) {
        let mut locked = self.lock();
        locked.invalidate(key);
        let rest = release(locked, true);
        self.settle(rest);
    }

    /// Removes the entry of `key`, live or expired, and returns a clone of its live value. The
    /// value satisfies `keeps` with `key`.
    ///
    /// Calls the listener once the lock is released.
    ///
    /// # Errors
    ///
    /// - `OutOfMemory`: cloning the value failed.
    pub fn remove(&self, key: &K) -> Result<Option<V>, Refused>
        ensures kept { IfOk result (λ found. IfSome found (C.keeps key.now)) }
        ensures cause { IfErr result (λ cause. cause ≡ Refused.OutOfMemory) }
    {
        let mut locked = self.lock();
        let found = locked.remove(key);
        let rest = release(locked, found.is_ok());
        self.settle(rest);
        found
    }

    /// Invalidates all entries: no lookup finds a value that was stored before. Does not allocate.
    ///
    /// Each entry is removed by a maintenance, or when its key is written or removed.
    ///
    /// # Complexity
    ///
    /// Visits every entry.
    pub fn invalidate_all(&self) {
        self.lock().invalidate_all();
    }

    /// Invalidates each entry of which `predicate` holds, and returns a new id, made of what
    /// `generator` draws.
    ///
    /// Calls the predicate once for each stored entry. Entries that are written later are not
    /// affected.
    ///
    /// # Errors
    ///
    /// - `InvalidationClosuresDisabled`: the cache was built without support for closures.
    /// - `OutOfMemory`: allocating the id's text failed. The generator has been used.
    ///
    /// # Complexity
    ///
    /// Visits every entry.
    pub fn invalidate_entries_if<G: Rng>(
        &self,
        predicate: C::Predicate,
        generator: &mut G,
    ) -> Result<PredicateId, PredicateError>
        requires tests { C.Predicate.tests predicate (C.test predicate) }
        ensures accepted { OnOk result (self.now.opening.settings.supports_closures ≡ true) }
        ensures refused { self.now.opening.settings.supports_closures ≡ false
            → IfErr result (λ cause. cause ≡ PredicateError.InvalidationClosuresDisabled) }
    {
        if !self.inner.closures {
            return Err(PredicateError::InvalidationClosuresDisabled);
        }
        let Ok(id) = new_predicate_id(self.inner.alloc, generator) else {
            return Err(PredicateError::OutOfMemory);
        };
        self.hide_where(&predicate)?;
        Ok(id)
    }

    /// Invalidates as [`Cache::invalidate_entries_if`] does, by a shared predicate and without an
    /// id. Does not allocate.
    ///
    /// # Errors
    ///
    /// - `InvalidationClosuresDisabled`: the cache was built without support for closures.
    ///
    /// # Complexity
    ///
    /// Visits every entry.
    pub fn invalidate_entries_with_arc_fun(
        &self,
        predicate: Arc<C::Predicate>,
    ) -> Result<(), PredicateError>
        requires tests { C.Predicate.tests (arc_value predicate) (C.test (arc_value predicate)) }
        ensures accepted { IsOk result ↔ (self.now.opening.settings.supports_closures ≡ true) }
        ensures cause { IfErr result
            (λ cause. cause ≡ PredicateError.InvalidationClosuresDisabled) }
    {
        if self.inner.closures {
            // The state accepts what the settings allow, but no clause says so through the lock.
            let _ = self.hide_where(&predicate);
            Ok(())
        } else {
            Err(PredicateError::InvalidationClosuresDisabled)
        }
    }

    /// Runs maintenance as a state does: evicts what is expired or invalidated, shrinks to the
    /// capacity, and admits or drops each pending entry.
    ///
    /// Calls the listener for removed entries once the lock is released.
    ///
    /// # Complexity
    ///
    /// Visits the entries that are removed, the pending ones and their victims. After a mass
    /// invalidation it also visits every resident entry.
    pub fn run_pending_tasks(&self) {
        let mut locked = self.lock();
        locked.run_pending_tasks();
        let rest = release(locked, true);
        self.settle(rest);
    }

    /// Runs maintenance, but evicts at most `limit` entries. Returns whether something is left to
    /// do.
    ///
    /// Calls the listener for removed entries once the lock is released.
    ///
    /// # Complexity
    ///
    /// Visits no more entries than [`Cache::run_pending_tasks`].
    pub fn run_pending_tasks_up_to(&self, limit: u64) -> bool {
        let mut locked = self.lock();
        let is_cut = locked.run_pending_tasks_up_to(limit);
        let rest = release(locked, true);
        self.settle(rest);
        is_cut
    }

    /// Returns the number of stored entries, with those that are pending or expired.
    pub fn entry_count(&self) -> u64 {
        self.lock().entry_count()
    }

    /// Returns the total weight of the stored entries, with those that are pending or expired. It
    /// is at most `u64::MAX`.
    pub fn weighted_size(&self) -> u64 {
        self.lock().weighted_size()
    }

    // Invalidates each entry of which a predicate holds. Returns what the state does.
    pub(crate) fn hide_where(&self, predicate: &C::Predicate) -> Result<(), PredicateError>
        requires tests { C.Predicate.tests predicate.now (C.test predicate.now) }
        ensures cause { IfErr result
            (λ cause. cause ≡ PredicateError.InvalidationClosuresDisabled) }
    {
        self.lock().hide_where(predicate)
    }

    // Locks the state and its clock, once nobody else holds the lock.
    pub(crate) fn lock(&self) -> MutexGuard<'_, GuardedState<K, V, C>> {
        self.inner.locked.lock(&self.inner.waits)
    }

    // Drops what a step no longer needed, and calls the listener, with no lock held.
    pub(crate) fn settle(&self, rest: Rest<K, V, C::Error>)
        requires { IfSome rest.pending.first
            (λ notice. C.keeps (arc_value notice.key) notice.value) }
    {
        let Rest { pending, discarded } = rest;
        drop(discarded);
        self.notify_removed(pending);
    }

    // Calls the listener with no lock held: for the first notice, and for at most `others` more.
    // Each of these is taken under the lock by itself.
    fn notify_removed(&self, pending: PendingNotices<K, V>)
        requires { IfSome pending.first (λ notice. C.keeps (arc_value notice.key) notice.value) }
    {
        let PendingNotices { first, others } = pending;
        let Some(first) = first else {
            return;
        };
        self.notify(first);
        for _ in 0..others {
            let next = self.lock().take_notice();
            let Some(notice) = next else {
                return;
            };
            self.notify(notice);
        }
    }

    // Calls the listener, if there is one.
    fn notify(&self, notice: Notice<K, V>)
        requires { C.keeps (arc_value notice.key) notice.value }
    {
        if let Some(listener) = &self.inner.listener {
            listener.notify(notice);
        }
    }
}

/// What is left to be done after a step, once the lock is released.
#[derive(Drop)]
pub(crate) struct Rest<K: Drop, V: Drop, E: Drop> {
    /// The notices to deliver.
    pub pending: PendingNotices<K, V>,
    /// What the step no longer needed, to be dropped.
    pub discarded: Discarded<K, V, E>,
}

// Releases the lock after a step that queues no notice, and returns what the step no longer needed.
pub(crate) fn unlock<K: Hash + Drop, V: Clone, C: CacheTypes<K, V>>(
    locked: MutexGuard<'_, GuardedState<K, V, C>>,
) -> Discarded<K, V, C::Error> {
    let mut locked = locked;
    locked.take_discarded()
}

// Releases the lock at the end of a step. Returns what the step no longer needed. If the step was
// accepted, takes the first notice before, and counts the others, for the call to deliver.
//
// A refused step takes no notice. It removed nothing, and its caller may still hold an open turn: a
// listener that asks for that turn's key would wait for its own caller. No notice is lost by that.
// Only an accepted step queues notices, and its call delivers as many as stood when it was done.
pub(crate) fn release<K: Hash + Drop, V: Clone, C: CacheTypes<K, V>>(
    locked: MutexGuard<'_, GuardedState<K, V, C>>,
    accepted: bool,
) -> Rest<K, V, C::Error>
    ensures refused { accepted ≡ false → result.pending.first ≡ None }
    ensures kept { IfSome result.pending.first
        (λ notice. C.keeps (arc_value notice.key) notice.value) }
{
    let mut locked = locked;
    let discarded = locked.take_discarded();
    let pending = if accepted {
        locked.take_pending_notices()
    } else {
        PendingNotices {
            first: None,
            others: 0,
        }
    };
    Rest { pending, discarded }
}

impl<K: Hash + Drop, V: Clone + Default, C: CacheTypes<K, V>, W: Wait> Cache<K, V, C, W> {
    /// Returns the entry of the live value for `key`. If there is none, inserts the default value,
    /// as [`Cache::or_insert`] does.
    ///
    /// The prover asks that every default value satisfies `keeps` with the key.
    ///
    /// # Errors
    ///
    /// Drops the key.
    ///
    /// - `OutOfMemory`: an allocation or a clone failed.
    /// - `NumbersUsedUp`: no sequence number is left for the write.
    pub fn or_default(&self, key: K) -> Result<Entry<K, V>, Refused>
        requires { (value : V) → V.is_default value → C.keeps key value }
        ensures kept { IfOk result (EntryKeeps C.keeps key) }
    {
        let mut locked = self.lock();
        let done = locked.or_default(key);
        let rest = release(locked, done.is_ok());
        self.settle(rest);
        done
    }
}
