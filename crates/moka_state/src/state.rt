//! The owned cache as a plain value, called through `&mut`: its settings, its state and its main
//! calls. Each call that depends on the time is given its moment.
ghost use Rattle.std.specs.Prelude.{◌≡◌, ◌+◌, ◌≤◌, ◌↔◌, true, false, Some, [], length, min, option_map, IsNone, IfOk, IfErr, IfSome, None, ◌∷◌};
ghost use Rattle.std.specs.Arc.{arc_value};
ghost use Rattle.std.specs.Duration.{as_nanos};
ghost use Rattle.std.specs.List.{AllByRecursion};
ghost use Rattle.moka_model.specs.Lives.{is_live};
ghost use Rattle.moka_model.specs.Events.{Maintained, latest};
ghost use Rattle.moka_model.specs.Maintenance.{total};
ghost use Rattle.moka_model.specs.Numbers.{greatest_number, flush_point};
ghost use Rattle.moka_model.specs.SizeLaws.{LimitsSome};
ghost use Rattle.moka_model.specs.Steps.{events_in};
ghost use Rattle.moka_model.specs.Calls.{Get, ContainsKey, Insert, Invalidate, RunPendingTasks, RunPendingTasksUpTo, EntryCount, WeightedSize, TakeNotice, Contains, Counted, Left, Noticed};
ghost use Rattle.moka_table.specs.Table.{removal_of};
ghost use Rattle.moka_expiration.specs.Behaviour.{hash_by};
ghost use Rattle.moka_state.specs.State.{StateData, settings_of, books_by, all_writes, IsSound};
ghost use Rattle.moka_state.specs.Write.{WriteEnds};
ghost use Rattle.moka_turns.specs.Views.{turns_of};
ghost use Rattle.moka_state.specs.Ends.{ReadsLive};
ghost use Rattle.moka_state.specs.Settings.{IsUsable, data_of};

use crate::call_view::CallView;
use crate::discards::Discards;
use moka_expiration::behaviour::Behaviour;
use moka_expiration::expiration_policy::ExpirationPolicy;
use moka_expiration::view::StateView;
use moka_expiring_rows::expiring_rows::ExpiringRows;
use moka_ghost::snapshot::SharedSnapshot;
use moka_housekeeper::housekeeper::Housekeeper;
use moka_model::notification::Notice;
use moka_policy::policy::{CacheTypes, EvictionPolicy, FrequencySource, Policy, Refused};
pub use moka_policy::refused::InsertRefused;
use moka_rows::rows::RowStore;
use moka_table::table::Table;
use moka_turns::table::TurnTable;
use std::alloc::Global;
use std::hash::Hash;
use std::marker::Model;
use std::sync::Arc;
use std::time::Duration;

/// The settings that a cache is built from.
#[derive(Drop)]
pub struct Settings<K: Eq, V: Clone, C: CacheTypes<K, V>> {
    /// The name of the cache, if it has one.
    pub name: Option<String>,
    /// How long an entry lives after its last write; `None` is no limit.
    pub time_to_live: Option<Duration>,
    /// How long an entry lives after its last access or write; `None` is no limit.
    pub time_to_idle: Option<Duration>,
    /// The bound on the total weight of the resident entries; without a weigher, on their number.
    /// `None` is no bound. Pending entries come on top: without a weigher, at most the capacity
    /// plus 64 entries are stored. With 0 nothing is stored.
    pub max_capacity: Option<u64>,
    /// For how many entries room is allocated when the cache is built.
    pub initial_capacity: usize,
    /// Which entries are evicted if the capacity is exceeded, and which pending ones are admitted.
    pub eviction_policy: EvictionPolicy,
    /// Returns the weight of each entry when it is written. Without one, each entry weighs 1, so
    /// that the capacity is a number of entries.
    pub weigher: Option<Arc<C::Weigher>>,
    /// Gives entries lifetimes of their own, beside the time to live and the time to idle: the
    /// earliest end counts. Without one, no entry has a lifetime of its own.
    pub expiry: Option<Arc<C::Expiry>>,
    /// Whether stored values can be invalidated by predicates.
    pub closures: bool,
    /// How many entries a flush may evict, at least 1; `None` is no limit. It must be `None` beside
    /// a weigher. A flush is the maintenance that a write runs first if 64 or more entries are
    /// pending. With a limit, more than 64 may be pending.
    pub flush_limit: Option<u64>,
    /// The first sequence number that a write or an opened turn draws.
    pub first_number: u64,
    /// Makes the hashers of the keys.
    pub hasher: Arc<C::Hasher>,
}

/// An owned cache over a row store `R`: a plain value that is called through `&mut`.
///
/// A moment (`now`) is a number of nanoseconds, counted from any origin. A moment before the latest
/// one counts as the latest.
///
/// A failed call leaves the cache unchanged. The exception is a loader or a compute that fails
/// after its closure ran. Its lookup is recorded, a sequence number is drawn, and its turn is
/// abandoned.
#[derive(Drop)]
pub struct State<K: Hash + Drop, V: Clone, C: CacheTypes<K, V>, R: RowStore<K, V>> {
    name: Option<String>,
    pub(crate) table: Table<K, V, R>,
    pub(crate) housekeeper: Housekeeper<C::Frequency>,
    pub(crate) latest: u64,
    pub(crate) closures: bool,
    pub(crate) flush_limit: Option<u64>,
    first_number: u64,
    pub(crate) next_number: u64,
    pub(crate) behaviour: Behaviour<K, V, C>,
    pub(crate) turns: TurnTable<K, V, C::Error>,
    pub(crate) discards: Discards<K, V>,
    pub(crate) alloc: Global,
    // The table as it was when the cache was built. Only contracts use it.
    opening: SharedSnapshot<Table<K, V, R>>,
}

/// An owned cache whose rows are in a slab, and which finds the first expired row without a walk.
///
/// # Complexity
///
/// A lookup reads at most as many rows as have the key's hash. Clause `few` of `ExpiringRows::find` says
/// so, and no call searches for a key by other means.
///
/// ```
/// type Sessions = CacheState<u64, String, Plain>;
/// ```
pub type CacheState<K, V, C> = State<K, V, C, ExpiringRows<K, V>>;

impl<K: Hash + Drop, V: Clone, C: CacheTypes<K, V>, R: RowStore<K, V>> Model for State<K, V, C, R> {
    ghost Value = { StateData K V C.Hasher C.Weigher C.Expiry C.Frequency C.Error };

    ghost view = { λ state. record {
      settings = settings_of state.name state.housekeeper.lives.time_to_live
          state.housekeeper.lives.time_to_idle state.housekeeper.max_capacity state.first_number
          state.closures state.flush_limit state.behaviour;
      books = books_by state.table state.latest state.next_number;
      source = state.housekeeper.source;
      initial_room = state.opening.value.room;
      turns = turns_of
          (hash_by C.Hasher.build_hasher C.Hasher.Hasher.write C.Hasher.Hasher.finish K.hash_input
          state.behaviour.hasher)
          state.turns;
    } };

    ghost invariant = { λ state. IsSound C.keeps
        (hash_by C.Hasher.build_hasher C.Hasher.Hasher.write C.Hasher.Hasher.finish K.hash_input
        state.behaviour.hasher)
        state.housekeeper.lives state.table
        × LimitsSome state.flush_limit };
}

impl<K: Hash + Drop, V: Clone, C: CacheTypes<K, V>, R: RowStore<K, V>> State<K, V, C, R> {
    /// Creates an empty cache. Allocates the frequency source, and room for the rows and notices of
    /// the initial capacity.
    ///
    /// The weigher and the expiry, if given, must compute what the cache's types declare. The flush
    /// limit must not be 0, and must be `None` beside a weigher.
    ///
    /// # Errors
    ///
    /// - `OutOfMemory`: an allocation failed.
    pub fn new(alloc: Global, settings: Settings<K, V, C>) -> Result<Self, Refused>
        requires { IsUsable C.Weigher.weighs C.weight C.Expiry.gives C.lifetimes settings }
        ensures settings { IfOk result (λ state. state.settings ≡ data_of settings) }
        ensures empty { IfOk result (λ state. ⟦<C as StateView<K, V>>⟧.stands_for
            (⟦<C as StateView<K, V>>⟧.settings state.settings) state []) }
        ensures room { IfOk result (λ state. settings.initial_capacity ≤ state.initial_room) }
        ensures cause { IfErr result (λ cause. cause ≡ Refused.OutOfMemory) }
    {
        let source = C::Frequency::opening(alloc)?;
        let table = match Table::with_capacity(alloc, settings.initial_capacity) {
            Ok(table) => table,
            Err(_) => return Err(Refused::OutOfMemory),
        };
        Ok(State {
            opening: SharedSnapshot::of(&table),
            name: settings.name,
            table,
            housekeeper: Housekeeper {
                lives: ExpirationPolicy {
                    time_to_live: settings.time_to_live,
                    time_to_idle: settings.time_to_idle,
                },
                max_capacity: settings.max_capacity,
                source,
            },
            latest: 0,
            closures: settings.closures,
            flush_limit: settings.flush_limit,
            first_number: settings.first_number,
            next_number: settings.first_number,
            behaviour: Behaviour::new(
                settings.eviction_policy,
                settings.hasher,
                settings.weigher,
                settings.expiry,
            ),
            turns: TurnTable::new(alloc),
            discards: Discards::new(),
            alloc,
        })
    }

    /// Returns a clone of the live value for `key`, or `None` if there is none.
    ///
    /// A hit counts as an access: it renews the time to idle, and moves a resident entry to the end
    /// of the access order. It may also give the entry a new lifetime of its own. Hit or miss, the
    /// call notes the key's hash and records the moment.
    ///
    /// # Errors
    ///
    /// - `OutOfMemory`: cloning the value failed. A miss cannot fail, and does not allocate.
    ///
    /// # Complexity
    ///
    /// In a [`CacheState`], reads no rows but those that have the key's hash.
    ///
    /// ```
    /// if let Some(line) = lines.get(&number, 0)? {
    ///     return Ok(line);
    /// }
    /// ```
    pub fn get(&mut self, key: &K, now: u64) -> Result<Option<V>, Refused>
        // Only cloning the live value can fail, and then nothing has changed.
        ensures ends { ReadsLive ⟦<C as CallView<K, V>>⟧.spec Get key.now now self.old self.new
            result }
        ensures kept { IfOk result (λ found. IfSome found (C.keeps key.now)) }
        ensures settings { self.new.settings ≡ self.old.settings }
    {
        let hash = self.hash(key);
        self.get_with_hash(key, hash, now)
    }

    /// Stores `value` under `key`: inserts a new entry, or overwrites the entry that the key has.
    ///
    /// An overwrite keeps the stored key, and queues a notice of the old value, live or expired. If
    /// 64 or more entries are pending, a flush runs first: a maintenance at the same moment, within
    /// the flush limit if there is one. If the capacity is 0, nothing is stored, and the call
    /// succeeds without allocating.
    ///
    /// # Errors
    ///
    /// A failed call hands back the key and the value.
    ///
    /// - `NumbersUsedUp`: the capacity is not 0, and no sequence number is left.
    /// - `OutOfMemory`: an allocation failed, and a sequence number is left.
    ///
    /// # Complexity
    ///
    /// In a [`CacheState`], reads no rows but those that have the key's hash, apart from a flush.
    ///
    /// ```
    /// match pages.insert(number, name, 0) {
    ///     Ok(()) => delete_removed(rt, pages),
    ///     Err(refused) => {
    ///         fs::remove_file(rt, &refused.value)?;
    ///         Err(refused.cause.into())
    ///     }
    /// }
    /// ```
    pub fn insert(&mut self, key: K, value: V, now: u64) -> Result<(), InsertRefused<K, V>>
        requires { C.keeps key value }
        ensures ends { WriteEnds
            (⟦<C as StateView<K, V>>⟧.follows self.old (Insert key value now) self.new)
            self.old self.new key value result }
        ensures settings { self.new.settings ≡ self.old.settings }
    {
        let hash = self.hash(&key);
        self.insert_with_hash(key, hash, value, now)
    }

    /// Checks whether `key` has a live value at the moment `now`. Does not count as an access, and
    /// records nothing.
    pub fn contains_key(&self, key: &K, now: u64) -> bool
        ensures reply { ⟦<C as StateView<K, V>>⟧.replies_with self.now
            (ContainsKey key.now now) (Contains result) }
        ensures stands { ⟦<C as StateView<K, V>>⟧.follows self.now
            (ContainsKey key.now now) self.now }
    {
        let hash = self.hash(key);
        self.contains_key_with_hash(key, hash, now)
    }

    /// Removes the entry of `key`, live or expired, and queues its notice. Cannot fail, and does
    /// not allocate.
    pub fn invalidate(&mut self, key: &K, now: u64)
        ensures stands { ⟦<C as StateView<K, V>>⟧.follows
            self.old (Invalidate key.now now) self.new }
        ensures settings { self.new.settings ≡ self.old.settings }
    {
        let hash = self.hash(key);
        self.invalidate_with_hash(key, hash, now);
    }

    /// Removes and returns the oldest queued notice, or returns `None` if none is queued. Notices
    /// are in the order of the removals. Does not allocate.
    ///
    /// ```
    /// while let Some(notice) = pages.take_notice() {
    ///     fs::remove_file(rt, &notice.value)?;
    ///     println!(rt; "deleted {}: {:?}", notice.value, notice.cause)?;
    /// }
    /// ```
    #[inline(always)]
    pub fn take_notice(&mut self) -> Option<Notice<K, V>>
        ensures reply { ⟦<C as StateView<K, V>>⟧.replies_with self.old TakeNotice
            (Noticed (option_map removal_of result)) }
        ensures stands { ⟦<C as StateView<K, V>>⟧.follows self.old TakeNotice self.new }
        ensures kept { IfSome result (λ notice. C.keeps (arc_value notice.key) notice.value) }

        // So a loop that takes all notices ends: each one taken leaves one fewer.
        ensures none { IsNone result ↔ (self.old.books.notices ≡ []) }
        ensures fewer { IfSome result (λ _.
            length self.old.books.notices ≡ length self.new.books.notices + 1) }
        ensures settings { self.new.settings ≡ self.old.settings }
    {
        self.table.take_notice()
    }

    /// Runs a maintenance, and queues a notice of each entry that it evicts. Cannot fail, and does
    /// not allocate.
    ///
    /// 1. It evicts the expired entries, and those marked as invalidated.
    /// 2. If the resident entries exceed the capacity, it evicts the least recently used ones.
    /// 3. It admits or evicts each pending entry, in arrival order, as the eviction policy decides.
    ///    If need be, an admitted entry takes the place of the least recently used ones, which are
    ///    evicted.
    ///
    /// # Complexity
    ///
    /// In a [`CacheState`], visits
    ///
    /// - the pending entries, and for each the resident ones that would have to be evicted for it;
    /// - the entries that are evicted;
    /// - every entry, if one may be marked as invalidated.
    ///
    /// Another row store may also walk to find the first expired row.
    ///
    /// ```
    /// sessions.run_pending_tasks(now);
    /// while let Some(notice) = sessions.take_notice() {
    ///     println!(rt;
    ///         "session {} of {}: {:?}",
    ///         notice.key, notice.value, notice.cause
    ///     )?;
    /// }
    /// ```
    pub fn run_pending_tasks(&mut self, now: u64)
        ensures stands { ⟦<C as StateView<K, V>>⟧.follows self.old (RunPendingTasks now) self.new }

        // Afterwards nothing is pending, every stored entry is live, and their weight is within the
        // capacity. Without a weigher, so is their number.
        ensures none_waits { self.new.books.orders.waiting ≡ [] }
        ensures all_live { ⟦<C as StateView<K, V>>⟧.at_each_history self.old (λ settings steps.
            AllByRecursion
            (λ w. is_live settings w (latest (Maintained None now ∷ events_in steps)) ≡ true)
            (all_writes self.new)) }
        ensures within { IfSome self.new.settings.max_capacity (λ capacity.
            total (λ w. w.policy_weight) (all_writes self.new) ≤ capacity) }
        ensures count { ⟦<C as StateView<K, V>>⟧.at_each_history self.old (λ _ _.
            self.new.settings.behaviour.weigher ≡ None →
            IfSome self.new.settings.max_capacity (λ capacity.
            length (all_writes self.new) ≤ capacity)) }
        ensures settings { self.new.settings ≡ self.old.settings }
    {
        let now = self.latest.max(now);
        self.housekeeper
            .maintain(&mut self.table, self.behaviour.policy(), now);
        self.latest = now;
    }

    /// Runs a maintenance that evicts at most `limit` entries, and returns whether a part is left
    /// to do. Cannot fail, and does not allocate.
    ///
    /// Its parts are done in the order of [`State::run_pending_tasks`]. Each eviction by itself is
    /// a part. A pending entry is a part together with the entries that are evicted for it. The
    /// call stops before the first part that would exceed the limit. If it returns false,
    /// everything is as after a whole maintenance.
    ///
    /// # Complexity
    ///
    /// Visits no more rows than a whole maintenance. The next call visits the pending entries
    /// again, and, if an entry may be marked as invalidated, the live resident ones in front.
    pub fn run_pending_tasks_up_to(&mut self, limit: u64, now: u64) -> bool
        ensures reply { ⟦<C as StateView<K, V>>⟧.replies_with self.old
            (RunPendingTasksUpTo limit now) (Left result) }
        ensures stands { ⟦<C as StateView<K, V>>⟧.follows self.old
            (RunPendingTasksUpTo limit now) self.new }

        // At most `limit` entries are evicted, and at most as many notices queued.
        ensures fewer { length (all_writes self.old) ≤ length (all_writes self.new) + limit }
        ensures noticed { length self.new.books.notices
            ≤ length self.old.books.notices + limit }

        // If no part is left to do, everything is as after a whole maintenance.
        ensures whole { result ≡ false →
            ⟦<C as StateView<K, V>>⟧.follows self.old (RunPendingTasks now) self.new }
        ensures none_waits { result ≡ false → self.new.books.orders.waiting ≡ [] }
        ensures all_live { result ≡ false →
            ⟦<C as StateView<K, V>>⟧.at_each_history self.old (λ settings steps. AllByRecursion
            (λ w. is_live settings w (latest (Maintained None now ∷ events_in steps)) ≡ true)
            (all_writes self.new)) }
        ensures within { result ≡ false → IfSome self.new.settings.max_capacity (λ capacity.
            total (λ w. w.policy_weight) (all_writes self.new) ≤ capacity) }
        ensures count { result ≡ false →
            ⟦<C as StateView<K, V>>⟧.at_each_history self.old (λ _ _.
            self.new.settings.behaviour.weigher ≡ None →
            IfSome self.new.settings.max_capacity (λ capacity.
            length (all_writes self.new) ≤ capacity)) }
        ensures settings { self.new.settings ≡ self.old.settings }
    {
        let now = self.latest.max(now);
        let policy = self.behaviour.policy();
        let is_cut = self
            .housekeeper
            .maintain_up_to(&mut self.table, policy, now, Some(limit));
        self.latest = now;
        is_cut
    }

    /// Returns the number of stored entries, pending and expired ones included. With a capacity and
    /// without a weigher, it is at most the capacity plus 64.
    pub fn entry_count(&self) -> u64
        ensures counted { result ≡ length (all_writes self.now) }
        ensures reply { ⟦<C as StateView<K, V>>⟧.replies_with self.now EntryCount (Counted result) }
        ensures stands { ⟦<C as StateView<K, V>>⟧.follows self.now EntryCount self.now }
        ensures bounded { ⟦<C as StateView<K, V>>⟧.at_each_history self.now (λ _ _.
            self.now.settings.behaviour.weigher ≡ None →
            IfSome self.now.settings.max_capacity (λ capacity.
            result ≤ capacity + flush_point)) }
    {
        self.table.len() as u64
    }

    /// Returns the total weight of the stored entries, pending and expired ones included. A greater
    /// weight than `u64::MAX` is returned as `u64::MAX`.
    pub fn weighted_size(&self) -> u64
        ensures counted { result
            ≡ min (total (λ w. w.policy_weight) (all_writes self.now)) greatest_number }
        ensures reply { ⟦<C as StateView<K, V>>⟧.replies_with self.now WeightedSize
            (Counted result) }
        ensures stands { ⟦<C as StateView<K, V>>⟧.follows self.now WeightedSize self.now }
    {
        self.table.weight()
    }

    /// Returns the name of the cache, if it has one.
    pub fn name(&self) -> Option<&str>
        ensures { option_map (λ name. name.now) result ≡ self.now.settings.name }
    {
        self.name.as_deref()
    }

    /// Returns the capacity, the time to live and the time to idle that the cache was built with.
    /// Its number of segments is 1.
    pub fn policy(&self) -> Policy
        ensures max_capacity { result.max_capacity ≡ self.now.settings.max_capacity }
        ensures num_segments { result.num_segments ≡ 1 }
        ensures time_to_live { option_map as_nanos result.time_to_live
            ≡ self.now.settings.time_to_live }
        ensures time_to_idle { option_map as_nanos result.time_to_idle
            ≡ self.now.settings.time_to_idle }
    {
        let lives = &self.housekeeper.lives;
        Policy::new(
            self.housekeeper.max_capacity,
            1,
            lives.time_to_live,
            lives.time_to_idle,
        )
    }

    // Returns the cache's allocator. The contract adds that a flush limit is not 0.
    pub(crate) fn alloc(&self) -> Global
        ensures { LimitsSome self.now.settings.flush_limit }
    {
        self.alloc
    }

    /// Returns the number of queued notices.
    #[inline(always)]
    pub fn notice_count(&self) -> usize
        ensures { result ≡ length self.now.books.notices }
    {
        self.table.notice_count()
    }
}
