//! The builder of owned and shared caches.
ghost use Rattle.std.specs.Prelude.{◌≡◌, ◌≤◌, ◌^◌, true, Some, None, [], option_map, unwrap_or, IfSome, IfOk, IfErr, OnOk};
ghost use Rattle.std.specs.Arc.{arc_value};
ghost use Rattle.std.specs.List.{AllByRecursion};
ghost use Rattle.std.specs.String.{string_bytes};
ghost use Rattle.moka_policy.specs.Policy.{is_lru};
ghost use Rattle.moka_sync.specs.Builder.{BuilderData, default_settings, segments_refused, build_refused, settings_built};
ghost use Rattle.moka_sync.specs.Cache.{IsBuilt};
ghost use Rattle.moka_segment_model.specs.Segments.{share, bits_for};
ghost use Rattle.moka_segmented.specs.SegmentedData.{data_of};
ghost use Rattle.moka_state.specs.Settings.{IsUsable};

use crate::build::cache_of;
use crate::cache::Cache;
use moka_policy::builder_utils::{BuildError, ensure_expirations, ensure_flush_limit};
use moka_policy::policy::{CacheTypes, EvictionPolicy, Expiry, Listener, Weigher};
use moka_segmented::opening::{bits_for, build_segments};
use moka_segmented::segment::SegmentedState;
use moka_segmented::segmented_view::SegmentedStateView;
use moka_state::state::{CacheState, Settings};
use moka_state::view::StateView;
use std::alloc::Global;
use std::hash::{Hash, RandomState};
use std::marker::{Model, PhantomData};
use std::sync::Arc;
use std::time::Duration;

// The greatest number of segments: at most 63 of a hash's 64 bits choose one.
const MAX_SEGMENTS: usize = 1 << 63;

/// The type parameter of a builder whose caches have one segment.
#[derive(Clone, Copy, Debug)]
pub struct Single;

/// The type parameter of a builder whose caches have several segments.
#[derive(Clone, Copy, Debug)]
pub struct Segmented;

/// Holds the settings of a cache, and builds it.
///
/// Each setting may be left out. One that is set again counts as set last. `T` is [`Single`], or
/// [`Segmented`] after [`CacheBuilder::segments`]. Of the setters only `name` allocates.
///
/// ```
/// let builder = CacheBuilder::new(10_000)
///     .time_to_live(Duration::from_secs(8 * 3_600))
///     .time_to_idle(Duration::from_secs(30 * 60));
/// Ok(builder.build_state(alloc, FoldState::default())?)
/// ```
#[derive(Drop)]
pub struct CacheBuilder<K: Hash + Drop, V: Clone, C: CacheTypes<K, V>, T> {
    name: Option<String>,
    max_capacity: Option<u64>,
    initial_capacity: usize,
    eviction_policy: EvictionPolicy,
    time_to_live: Option<Duration>,
    time_to_idle: Option<Duration>,
    weigher: Option<C::Weigher>,
    expiry: Option<C::Expiry>,
    listener: Option<C::Listener>,
    closures: bool,
    flush_limit: Option<u64>,
    first_number: u64,
    pub(crate) num_segments: usize,
    built: PhantomData<(K, V, T)>,
}

impl<K: Hash + Drop, V: Clone, C: CacheTypes<K, V>, T> Model for CacheBuilder<K, V, C, T> {
    ghost Value = { BuilderData C.Weigher C.Expiry C.Listener };

    ghost view = { λ builder. record {
      name = option_map string_bytes builder.name;
      max_capacity = builder.max_capacity;
      initial_capacity = builder.initial_capacity;
      is_lru = is_lru builder.eviction_policy;
      time_to_live = builder.time_to_live;
      time_to_idle = builder.time_to_idle;
      weigher = builder.weigher;
      expiry = builder.expiry;
      listener = builder.listener;
      closures = builder.closures;
      flush_limit = builder.flush_limit;
      first_number = builder.first_number;
      num_segments = builder.num_segments;
    } };

    ghost invariant = { λ builder.
        IfSome builder.weigher (λ weigher. C.Weigher.weighs weigher (C.weight weigher))
        × IfSome builder.expiry (λ expiry. C.Expiry.gives expiry (C.lifetimes expiry))
        × IfSome builder.listener (λ listener.
        (key : K) (value : V) → C.keeps key value → C.Listener.hears listener key value) };
}

impl<K: Hash + Drop, V: Clone, C: CacheTypes<K, V>> Default for CacheBuilder<K, V, C, Single> {
    /// Creates a builder with no settings: one segment, no bound, TinyLFU.
    fn default() -> Self
        ensures { result ≡ default_settings }
    {
        CacheBuilder {
            name: None,
            max_capacity: None,
            initial_capacity: 0,
            eviction_policy: EvictionPolicy::tiny_lfu(),
            time_to_live: None,
            time_to_idle: None,
            weigher: None,
            expiry: None,
            listener: None,
            closures: false,
            flush_limit: None,
            first_number: 0,
            num_segments: 1,
            built: PhantomData,
        }
    }
}

impl<K: Hash + Drop, V: Clone, C: CacheTypes<K, V>, T> CacheBuilder<K, V, C, T> {
    /// Sets the cache's name to a copy of `name`. Without this setting it has none.
    ///
    /// # Errors
    ///
    /// - `OutOfMemory`: copying the name failed. The builder is dropped.
    pub fn name(self, alloc: Global, name: &str) -> Result<Self, BuildError>
        ensures settings { IfOk result (λ builder. builder ≡ record self { name = Some name.now }) }
        ensures cause { IfErr result (λ cause. cause ≡ BuildError.OutOfMemory) }
    {
        let Ok(name) = String::from_str(alloc, name) else {
            return Err(BuildError::OutOfMemory);
        };
        Ok(CacheBuilder {
            name: Some(name),
            ..self
        })
    }

    /// Sets the capacity: the bound on the total weight of the resident entries. Without a weigher
    /// it is a number of entries.
    ///
    /// Pending entries do not count towards it. So without a weigher, up to 64 entries more may be
    /// stored until a maintenance. At 0 nothing is stored. Without this setting there is no bound.
    pub fn max_capacity(self, max_capacity: u64) -> Self
        ensures { result ≡ record self { max_capacity = Some max_capacity } }
    {
        CacheBuilder {
            max_capacity: Some(max_capacity),
            ..self
        }
    }

    /// Sets for how many entries building allocates room. Without this setting, for none.
    ///
    /// What calls return does not depend on it.
    pub fn initial_capacity(self, number_of_entries: usize) -> Self
        ensures { result ≡ record self { initial_capacity = number_of_entries } }
    {
        CacheBuilder {
            initial_capacity: number_of_entries,
            ..self
        }
    }

    /// Sets which entries are evicted for size, and which new ones are admitted. Without it:
    /// TinyLFU.
    ///
    /// ```
    /// let builder = CacheBuilder::new(2).eviction_policy(EvictionPolicy::lru());
    /// ```
    pub fn eviction_policy(self, policy: EvictionPolicy) -> Self
        ensures { result ≡ record self { is_lru = is_lru policy } }
    {
        CacheBuilder {
            eviction_policy: policy,
            ..self
        }
    }

    /// Sets the weigher, which weighs each entry when it is written. Without one every weight is 1.
    ///
    /// It must compute the weight that the cache's types name (`weight`).
    ///
    /// ```
    /// let builder = CacheBuilder::new(8).weigher(weigher).expire_after(expiry);
    /// ```
    pub fn weigher(self, weigher: C::Weigher) -> Self
        requires { C.Weigher.weighs weigher (C.weight weigher) }
        ensures { result ≡ record self { weigher = Some weigher } }
    {
        CacheBuilder {
            weigher: Some(weigher),
            ..self
        }
    }

    /// Sets the listener of a shared cache. It is called once for each removed entry, with no lock
    /// held.
    ///
    /// It runs in the call that removed the entry, or in another one that runs at the same time. It
    /// must accept every entry that the cache may store. Owned caches call no listener: building
    /// one drops it.
    pub fn eviction_listener(self, listener: C::Listener) -> Self
        requires { (key : K) (value : V) → C.keeps key value → C.Listener.hears listener key value }
        ensures { result ≡ record self { listener = Some listener } }
    {
        CacheBuilder {
            listener: Some(listener),
            ..self
        }
    }

    /// Sets the time to live: how long an entry lives after it was written. It is expired from its
    /// deadline on.
    ///
    /// The duration is at most 1000 years of 365 days, or building fails. Without this setting an
    /// entry's age does not matter.
    pub fn time_to_live(self, duration: Duration) -> Self
        ensures { result ≡ record self { time_to_live = Some duration } }
    {
        CacheBuilder {
            time_to_live: Some(duration),
            ..self
        }
    }

    /// Sets the time to idle: how long an entry lives after its last access or write.
    ///
    /// The duration is at most 1000 years of 365 days, or building fails. Without this setting it
    /// does not matter when an entry was used.
    pub fn time_to_idle(self, duration: Duration) -> Self
        ensures { result ≡ record self { time_to_idle = Some duration } }
    {
        CacheBuilder {
            time_to_idle: Some(duration),
            ..self
        }
    }

    /// Sets the expiry, which gives each entry a lifetime of its own, beside the time to live and
    /// the time to idle. The earliest of the three ends counts.
    ///
    /// It must compute the lifetimes that the cache's types name (`lifetimes`).
    pub fn expire_after(self, expiry: C::Expiry) -> Self
        requires { C.Expiry.gives expiry (C.lifetimes expiry) }
        ensures { result ≡ record self { expiry = Some expiry } }
    {
        CacheBuilder {
            expiry: Some(expiry),
            ..self
        }
    }

    /// Allows invalidation by predicates, which fails without this setting.
    pub fn support_invalidation_closures(self) -> Self
        ensures { result ≡ record self { closures = true } }
    {
        CacheBuilder {
            closures: true,
            ..self
        }
    }

    /// Sets the flush limit: how many entries one flush may evict. A flush is the maintenance that
    /// a write runs first if 64 or more entries are pending.
    ///
    /// The limit is at least 1, and there is no weigher beside it, or building fails. With a limit
    /// more than 64 entries may be pending. At most the capacity plus 64 are stored all the same.
    /// Without this setting a flush is a whole maintenance.
    pub fn flush_limit(self, limit: u64) -> Self
        ensures { result ≡ record self { flush_limit = Some limit } }
    {
        CacheBuilder {
            flush_limit: Some(limit),
            ..self
        }
    }

    /// Sets the first sequence number, 0 without this setting.
    ///
    /// Once all numbers up to 2^64 - 2 are drawn, no write succeeds and no turn is opened.
    pub fn first_number(self, number: u64) -> Self
        ensures { result ≡ record self { first_number = number } }
    {
        CacheBuilder {
            first_number: number,
            ..self
        }
    }
}

impl<K: Hash + Drop, V: Clone, C: CacheTypes<K, V>> CacheBuilder<K, V, C, Single> {
    /// Creates a builder with this capacity and no other setting.
    pub fn new(max_capacity: u64) -> Self
        ensures { result ≡ record default_settings { max_capacity = Some max_capacity } }
    {
        CacheBuilder::default().max_capacity(max_capacity)
    }

    /// Sets the number of segments, and returns a builder of segmented caches with all other
    /// settings.
    ///
    /// A cache gets this many segments, or the next power of two.
    ///
    /// # Errors
    ///
    /// - `NoSegments`: the number is 0.
    /// - `TooManySegments`: the number is greater than 2^63.
    pub fn segments(
        self,
        num_segments: usize,
    ) -> Result<CacheBuilder<K, V, C, Segmented>, BuildError>
        ensures settings { IfOk result
            (λ builder. builder ≡ record self { num_segments = num_segments }) }
        ensures accepted { OnOk result (segments_refused num_segments ≡ None) }
        ensures refused { IfErr result (λ cause. segments_refused num_segments ≡ Some cause) }
    {
        if num_segments == 0 {
            return Err(BuildError::NoSegments);
        }
        if num_segments > MAX_SEGMENTS {
            return Err(BuildError::TooManySegments);
        }
        let single = self;
        Ok(CacheBuilder {
            name: single.name,
            max_capacity: single.max_capacity,
            initial_capacity: single.initial_capacity,
            eviction_policy: single.eviction_policy,
            time_to_live: single.time_to_live,
            time_to_idle: single.time_to_idle,
            weigher: single.weigher,
            expiry: single.expiry,
            listener: single.listener,
            closures: single.closures,
            flush_limit: single.flush_limit,
            first_number: single.first_number,
            num_segments,
            built: PhantomData,
        })
    }

    /// Builds an empty owned cache with these settings. Drops the listener, since a state calls
    /// none.
    ///
    /// # Errors
    ///
    /// The first of these that applies:
    ///
    /// - `TimeToLiveTooLong`: the time to live is greater than 1000 years of 365 days.
    /// - `TimeToIdleTooLong`: the time to idle is greater than that.
    /// - `ZeroFlushLimit`: the flush limit is 0.
    /// - `FlushLimitWithWeigher`: both a flush limit and a weigher are set.
    /// - `OutOfMemory`: allocating the frequency source, the initial capacity or a shared setting
    ///   failed.
    pub fn build_state(
        self,
        alloc: Global,
        hasher: C::Hasher,
    ) -> Result<CacheState<K, V, C>, BuildError>
        ensures settings { IfOk result (λ state. state.settings ≡ settings_built self hasher) }
        ensures empty { IfOk result (λ state. ⟦<C as StateView<K, V>>⟧.stands_for
            (⟦<C as StateView<K, V>>⟧.settings state.settings) state []) }
        ensures room { IfOk result (λ state. self.initial_capacity ≤ state.initial_room) }
        ensures accepted { OnOk result (build_refused self ≡ None) }
        ensures refused { IfErr result (λ cause.
            cause ≡ unwrap_or (build_refused self) BuildError.OutOfMemory) }
    {
        let (state, _listener) = self.validate()?.into_state_and_listener(alloc, hasher)?;
        Ok(state)
    }

    /// Builds an empty shared cache with these settings.
    ///
    /// `hasher` hashes its keys. `clock` gives the moments of its calls. `waits` lets its lock
    /// wait.
    ///
    /// # Errors
    ///
    /// As [`CacheBuilder::build_state`].
    pub fn build_with_hasher<W: Drop>(
        self,
        alloc: Global,
        hasher: C::Hasher,
        clock: C::Clock,
        waits: W,
    ) -> Result<Cache<K, V, C, W>, BuildError>
        ensures built { IfOk result (IsBuilt self hasher clock) }
        ensures empty { IfOk result (λ cache. ⟦<C as StateView<K, V>>⟧.stands_for
            (⟦<C as StateView<K, V>>⟧.settings cache.opening.settings) cache.opening []) }
        ensures room { IfOk result (λ cache. self.initial_capacity ≤ cache.opening.initial_room) }
        ensures accepted { OnOk result (build_refused self ≡ None) }
        ensures refused { IfErr result (λ cause.
            cause ≡ unwrap_or (build_refused self) BuildError.OutOfMemory) }
    {
        let builder = self.validate()?;
        let name = copy_name(alloc, builder.name.as_deref())?;
        let parts = builder.into_parts(alloc, hasher, clock)?;
        cache_of(
            alloc,
            parts.settings,
            name,
            parts.clock,
            parts.listener,
            waits,
        )
    }

    // Builds the state, and returns the listener beside it.
    fn into_state_and_listener(
        self,
        alloc: Global,
        hasher: C::Hasher,
    ) -> Result<(CacheState<K, V, C>, Option<C::Listener>), BuildError>
        requires { build_refused self ≡ None }
        ensures settings { IfOk result (λ opened.
            opened.0.settings ≡ settings_built self hasher) }
        ensures empty { IfOk result (λ opened. ⟦<C as StateView<K, V>>⟧.stands_for
            (⟦<C as StateView<K, V>>⟧.settings opened.0.settings) opened.0 []) }
        ensures room { IfOk result (λ opened. self.initial_capacity ≤ opened.0.initial_room) }
        ensures listener { IfOk result (λ opened. opened.1 ≡ self.listener) }
        ensures hears { IfOk result (λ opened. IfSome opened.1 (λ listener.
            (key : K) (value : V) → C.keeps key value → C.Listener.hears listener key value)) }
        ensures cause { IfErr result (λ cause. cause ≡ BuildError.OutOfMemory) }
    {
        let (settings, listener) = self.into_settings(alloc, hasher)?;
        Ok((state_of(alloc, settings)?, listener))
    }
}

impl<K: Hash + Drop, V: Clone, C: CacheTypes<K, V>> CacheBuilder<K, V, C, Segmented> {
    /// Builds an empty owned cache of several segments with these settings. Drops the listener,
    /// since a state calls none.
    ///
    /// It has as many segments as were asked for, or the next power of two. Each has its share of
    /// the capacity and of the initial capacity.
    ///
    /// # Errors
    ///
    /// As [`CacheBuilder::build_state`].
    pub fn build_segmented_state(
        self,
        alloc: Global,
        hasher: C::Hasher,
    ) -> Result<SegmentedState<K, V, C>, BuildError>
        ensures settings { IfOk result (λ cache. cache.settings ≡ settings_built self hasher) }
        ensures segments { IfOk result (λ cache. cache.bits ≡ bits_for self.num_segments) }
        ensures empty { IfOk result (λ cache. ⟦<C as SegmentedStateView<K, V>>⟧.all_stand_for
            (⟦<C as SegmentedStateView<K, V>>⟧.segmented_settings cache) cache []) }
        ensures room { IfOk result (λ cache. AllByRecursion (λ state.
            share (2 ^ bits_for self.num_segments) self.initial_capacity ≤ state.initial_room)
            cache.segments) }
        ensures accepted { OnOk result (build_refused self ≡ None) }
        ensures refused { IfErr result (λ cause.
            cause ≡ unwrap_or (build_refused self) BuildError.OutOfMemory) }
    {
        let bits = bits_for(self.num_segments);
        let (settings, _listener) = self.validate()?.into_settings(alloc, hasher)?;
        match build_segments(alloc, settings, bits) {
            Ok(cache) => Ok(cache),
            Err(_) => Err(BuildError::OutOfMemory),
        }
    }
}

impl<K: Hash + Drop, V: Clone, C: CacheTypes<K, V>, T> CacheBuilder<K, V, C, T> {
    // Checks the lifetimes and the flush limit, and returns the builder unchanged.
    pub(crate) fn validate(self) -> Result<Self, BuildError>
        ensures same { IfOk result (λ builder. builder ≡ self) }
        ensures accepted { OnOk result (build_refused self ≡ None) }
        ensures refused { IfErr result (λ cause. Some cause ≡ build_refused self) }
    {
        ensure_expirations(self.time_to_live, self.time_to_idle)?;
        ensure_flush_limit(self.flush_limit, self.weigher.is_some())?;
        Ok(self)
    }

    // Makes the settings of a state, and returns the listener beside them.
    pub(crate) fn into_settings(
        self,
        alloc: Global,
        hasher: C::Hasher,
    ) -> Result<(Settings<K, V, C>, Option<C::Listener>), BuildError>
        requires { build_refused self ≡ None }
        ensures settings { IfOk result (λ settled. data_of settled.0 ≡ settings_built self hasher) }
        ensures usable { IfOk result (λ settled.
            IsUsable C.Weigher.weighs C.weight C.Expiry.gives C.lifetimes settled.0) }
        ensures room { IfOk result (λ settled.
            settled.0.initial_capacity ≡ self.initial_capacity) }
        ensures listener { IfOk result (λ settled. settled.1 ≡ self.listener) }
        ensures hears { IfOk result (λ settled. IfSome settled.1 (λ listener.
            (key : K) (value : V) → C.keeps key value → C.Listener.hears listener key value)) }
        ensures cause { IfErr result (λ cause. cause ≡ BuildError.OutOfMemory) }
    {
        let listener = self.listener;
        let settings = Settings {
            name: self.name,
            max_capacity: self.max_capacity,
            initial_capacity: self.initial_capacity,
            eviction_policy: self.eviction_policy,
            time_to_live: self.time_to_live,
            time_to_idle: self.time_to_idle,
            weigher: share_option(alloc, self.weigher)?,
            expiry: share_option(alloc, self.expiry)?,
            closures: self.closures,
            flush_limit: self.flush_limit,
            first_number: self.first_number,
            hasher: share(alloc, hasher)?,
        };
        Ok((settings, listener))
    }
}

impl<K, V, C> CacheBuilder<K, V, C, Single>
where
    K: Hash + Drop,
    V: Clone,
    C: CacheTypes<K, V, Hasher = RandomState>,
{
    /// Builds an empty shared cache as [`CacheBuilder::build_with_hasher`] does, with a random
    /// hasher: for keys that an attacker may choose.
    ///
    /// # Errors
    ///
    /// As [`CacheBuilder::build_state`].
    pub fn build<W: Drop>(
        self,
        alloc: Global,
        hasher: RandomState,
        clock: C::Clock,
        waits: W,
    ) -> Result<Cache<K, V, C, W>, BuildError>
        ensures built { IfOk result (IsBuilt self hasher clock) }
        ensures empty { IfOk result (λ cache. ⟦<C as StateView<K, V>>⟧.stands_for
            (⟦<C as StateView<K, V>>⟧.settings cache.opening.settings) cache.opening []) }
        ensures room { IfOk result (λ cache. self.initial_capacity ≤ cache.opening.initial_room) }
        ensures accepted { OnOk result (build_refused self ≡ None) }
        ensures refused { IfErr result (λ cause.
            cause ≡ unwrap_or (build_refused self) BuildError.OutOfMemory) }
    {
        self.build_with_hasher(alloc, hasher, clock, waits)
    }
}

// Creates a state with these settings. Fails only with `OutOfMemory`.
fn state_of<K: Hash + Drop, V: Clone, C: CacheTypes<K, V>>(
    alloc: Global,
    settings: Settings<K, V, C>,
) -> Result<CacheState<K, V, C>, BuildError>
    requires { IsUsable C.Weigher.weighs C.weight C.Expiry.gives C.lifetimes settings }
    ensures settings { IfOk result (λ state. state.settings ≡ data_of settings) }
    ensures empty { IfOk result (λ state. ⟦<C as StateView<K, V>>⟧.stands_for
        (⟦<C as StateView<K, V>>⟧.settings state.settings) state []) }
    ensures room { IfOk result (λ state. settings.initial_capacity ≤ state.initial_room) }
    ensures cause { IfErr result (λ cause. cause ≡ BuildError.OutOfMemory) }
{
    match CacheState::new(alloc, settings) {
        Ok(state) => Ok(state),
        Err(_) => Err(BuildError::OutOfMemory),
    }
}

// Moves a value, if there is one, into an `Arc`. Fails only with `OutOfMemory`.
fn share_option<T: Drop>(alloc: Global, value: Option<T>) -> Result<Option<Arc<T>>, BuildError>
    ensures shared { IfOk result (λ shared. option_map arc_value shared ≡ value) }
    ensures cause { IfErr result (λ cause. cause ≡ BuildError.OutOfMemory) }
{
    match value {
        Some(value) => Ok(Some(share(alloc, value)?)),
        None => Ok(None),
    }
}

// Moves a value into an `Arc`. Fails only with `OutOfMemory`.
pub(crate) fn share<T: Drop>(alloc: Global, value: T) -> Result<Arc<T>, BuildError>
    ensures shared { IfOk result (λ shared. arc_value shared ≡ value) }
    ensures cause { IfErr result (λ cause. cause ≡ BuildError.OutOfMemory) }
{
    Arc::new(alloc, value).map_err(|_| BuildError::OutOfMemory)
}

// Copies a name, if there is one. Fails only with `OutOfMemory`.
fn copy_name(alloc: Global, name: Option<&str>) -> Result<Option<String>, BuildError>
    ensures copied { IfOk result (λ copy. option_map string_bytes copy
        ≡ option_map (λ name. name.now) name.entry) }
    ensures cause { IfErr result (λ cause. cause ≡ BuildError.OutOfMemory) }
{
    match name {
        Some(name) => match String::from_str(alloc, name) {
            Ok(name) => Ok(Some(name)),
            Err(_) => Err(BuildError::OutOfMemory),
        },
        None => Ok(None),
    }
}
