//! Makes shared caches from the settings of their builder.
ghost use Rattle.std.specs.Prelude.{◌≡◌, ◌<◌, ◌≤◌, ◌^◌, [], None, length, option_map, unwrap_or, IfOk, IfErr, OnOk};
ghost use Rattle.std.specs.Arc.{arc_value};
ghost use Rattle.std.specs.List.{AllByRecursion};
ghost use Rattle.std.specs.String.{string_bytes};
ghost use Rattle.moka_segment_model.specs.Segments.{share, bits_for};
ghost use Rattle.moka_segmented.specs.SegmentedData.{data_of};
ghost use Rattle.moka_sync.specs.Builder.{build_refused, settings_built};
ghost use Rattle.moka_sync.specs.Cache.{IsMadeOf};
ghost use Rattle.moka_sync.specs.Segments.{AreMadeOf, IsBuiltInSegments, settings_of_one};
ghost use Rattle.moka_state.specs.Settings.{IsUsable};

use crate::builder::{CacheBuilder, Segmented, share};
use crate::cache::{Cache, Inner};
use crate::mutex_with_initial::MutexWithInitial;
use crate::removal_notifier::RemovalNotifier;
use crate::segment::{AllSegments, SegmentedCache};
use moka_guarded::guarded::GuardedState;
use moka_policy::builder_utils::BuildError;
use moka_policy::policy::CacheTypes;
use moka_segmented::opening::{bits_for, count_of, share_again, share_of};
use moka_state::state::Settings;
use moka_state::view::StateView;
use std::alloc::Global;
use std::hash::{Hash, RandomState};
use std::sync::{Arc, Condvar};

// Creates an empty cache of these settings, which is called by `name`. Fails only with
// `OutOfMemory`.
pub(crate) fn cache_of<K: Hash + Drop, V: Clone, C: CacheTypes<K, V>, W: Drop>(
    alloc: Global,
    settings: Settings<K, V, C>,
    name: Option<String>,
    clock: Arc<C::Clock>,
    listener: Option<Arc<RemovalNotifier<K, V, C>>>,
    waits: W,
) -> Result<Cache<K, V, C, W>, BuildError>
    requires named { option_map string_bytes name ≡ (data_of settings).name }
    requires usable { IsUsable C.Weigher.weighs C.weight C.Expiry.gives C.lifetimes settings }
    ensures made { IfOk result (IsMadeOf (data_of settings) (arc_value clock)
        (option_map arc_value listener)) }
    ensures empty { IfOk result (λ cache. ⟦<C as StateView<K, V>>⟧.stands_for
        (⟦<C as StateView<K, V>>⟧.settings cache.opening.settings) cache.opening []) }
    ensures room { IfOk result (λ cache.
        settings.initial_capacity ≤ cache.opening.initial_room) }
    ensures cause { IfErr result (λ cause. cause ≡ BuildError.OutOfMemory) }
{
    let closures = settings.closures;
    let Ok(locked) = GuardedState::open(alloc, settings, clock) else {
        return Err(BuildError::OutOfMemory);
    };
    let policy = locked.policy();
    let inner = Inner {
        locked: MutexWithInitial::new(locked),
        ended: Condvar::new(),
        name,
        policy,
        closures,
        listener,
        alloc,
        waits,
    };
    Ok(Cache {
        inner: share(alloc, inner)?,
    })
}

// What shared caches are made from: the settings, and the clock and the listener that clones and
// segments share.
#[derive(Drop)]
pub(crate) struct CacheParts<K: Hash + Drop, V: Clone, C: CacheTypes<K, V>> {
    pub(crate) settings: Settings<K, V, C>,
    pub(crate) clock: Arc<C::Clock>,
    pub(crate) listener: Option<Arc<RemovalNotifier<K, V, C>>>,
}

impl<K: Hash + Drop, V: Clone, C: CacheTypes<K, V>, T> CacheBuilder<K, V, C, T> {
    // Makes the parts of a cache with this hasher and this clock. Fails only with `OutOfMemory`.
    pub(crate) fn into_parts(
        self,
        alloc: Global,
        hasher: C::Hasher,
        clock: C::Clock,
    ) -> Result<CacheParts<K, V, C>, BuildError>
        requires { build_refused self ≡ None }
        ensures settings { IfOk result (λ parts.
            data_of parts.settings ≡ settings_built self hasher) }
        ensures usable { IfOk result (λ parts.
            IsUsable C.Weigher.weighs C.weight C.Expiry.gives C.lifetimes parts.settings) }
        ensures room { IfOk result (λ parts.
            parts.settings.initial_capacity ≡ self.initial_capacity) }
        ensures clock { IfOk result (λ parts. arc_value parts.clock ≡ clock) }
        ensures listener { IfOk result (λ parts.
            option_map arc_value parts.listener ≡ self.listener) }
        ensures cause { IfErr result (λ cause. cause ≡ BuildError.OutOfMemory) }
    {
        let clock = share(alloc, clock)?;
        let (settings, listener) = self.into_settings(alloc, hasher)?;
        let listener = RemovalNotifier::share(alloc, listener)?;
        Ok(CacheParts {
            settings,
            clock,
            listener,
        })
    }
}

impl<K: Hash + Drop, V: Clone, C: CacheTypes<K, V>> CacheBuilder<K, V, C, Segmented> {
    /// Builds an empty shared cache of several segments with these settings.
    ///
    /// It has as many segments as were asked for, or the next power of two. Each has its share of
    /// the capacity and of the initial capacity, and a frequency source of its own. `hasher` hashes
    /// the keys. `clock` gives the moments of the calls. A clone of `waits` lets each lock wait.
    ///
    /// # Errors
    ///
    /// As [`CacheBuilder::build_segmented_state`].
    pub fn build_with_hasher<W: Clone + Drop>(
        self,
        alloc: Global,
        hasher: C::Hasher,
        clock: C::Clock,
        waits: W,
    ) -> Result<SegmentedCache<K, V, C, W>, BuildError>
        ensures built { IfOk result (IsBuiltInSegments self hasher clock) }
        ensures empty { IfOk result (λ cache. AllByRecursion (λ segment.
            ⟦<C as StateView<K, V>>⟧.stands_for
            (⟦<C as StateView<K, V>>⟧.settings segment.opening.settings) segment.opening [])
            cache.segments) }
        ensures room { IfOk result (λ cache. AllByRecursion (λ segment.
            share (2 ^ bits_for self.num_segments) self.initial_capacity
            ≤ segment.opening.initial_room) cache.segments) }
        ensures accepted { OnOk result (build_refused self ≡ None) }
        ensures refused { IfErr result (λ cause.
            cause ≡ unwrap_or (build_refused self) BuildError.OutOfMemory) }
    {
        let bits = bits_for(self.num_segments);
        let builder = self.validate()?;
        let parts = builder.into_parts(alloc, hasher, clock)?;
        let segments = segments_of(
            alloc,
            &parts.settings,
            bits,
            &parts.clock,
            &parts.listener,
            &waits,
        )?;
        let inner = AllSegments {
            settings: parts.settings,
            bits,
            segments,
        };
        Ok(SegmentedCache {
            inner: share(alloc, inner)?,
        })
    }
}

impl<K, V, C> CacheBuilder<K, V, C, Segmented>
where
    K: Hash + Drop,
    V: Clone,
    C: CacheTypes<K, V, Hasher = RandomState>,
{
    /// Builds an empty shared cache of several segments as [`CacheBuilder::build_with_hasher`]
    /// does, with a random hasher: for keys that an attacker may choose.
    ///
    /// # Errors
    ///
    /// As [`CacheBuilder::build_segmented_state`].
    pub fn build<W: Clone + Drop>(
        self,
        alloc: Global,
        hasher: RandomState,
        clock: C::Clock,
        waits: W,
    ) -> Result<SegmentedCache<K, V, C, W>, BuildError>
        ensures built { IfOk result (IsBuiltInSegments self hasher clock) }
        ensures empty { IfOk result (λ cache. AllByRecursion (λ segment.
            ⟦<C as StateView<K, V>>⟧.stands_for
            (⟦<C as StateView<K, V>>⟧.settings segment.opening.settings) segment.opening [])
            cache.segments) }
        ensures room { IfOk result (λ cache. AllByRecursion (λ segment.
            share (2 ^ bits_for self.num_segments) self.initial_capacity
            ≤ segment.opening.initial_room) cache.segments) }
        ensures accepted { OnOk result (build_refused self ≡ None) }
        ensures refused { IfErr result (λ cause.
            cause ≡ unwrap_or (build_refused self) BuildError.OutOfMemory) }
    {
        self.build_with_hasher(alloc, hasher, clock, waits)
    }
}

// Creates the segments of a cache of these settings. They share one clock and one listener. Fails
// only with `OutOfMemory`.
fn segments_of<K: Hash + Drop, V: Clone, C: CacheTypes<K, V>, W: Clone + Drop>(
    alloc: Global,
    settings: &Settings<K, V, C>,
    bits: u32,
    clock: &Arc<C::Clock>,
    listener: &Option<Arc<RemovalNotifier<K, V, C>>>,
    waits: &W,
) -> Result<Vec<Cache<K, V, C, W>>, BuildError>
    requires bits { bits < 64 }
    requires usable { IsUsable C.Weigher.weighs C.weight C.Expiry.gives C.lifetimes settings.now }
    ensures count { IfOk result (λ segments. length segments.items ≡ 2 ^ bits) }
    ensures made { IfOk result (λ segments. AreMadeOf bits (data_of settings.now)
        (arc_value clock.now) (option_map arc_value listener.now) segments.items) }
    ensures empty { IfOk result (λ segments. AllByRecursion (λ segment.
        ⟦<C as StateView<K, V>>⟧.stands_for
        (⟦<C as StateView<K, V>>⟧.settings segment.opening.settings) segment.opening [])
        segments.items) }
    ensures room { IfOk result (λ segments. AllByRecursion (λ segment.
        share (2 ^ bits) settings.now.initial_capacity ≤ segment.opening.initial_room)
        segments.items) }
    ensures cause { IfErr result (λ cause. cause ≡ BuildError.OutOfMemory) }
{
    let count = count_of(bits);
    let Ok(mut segments) = Vec::with_capacity(alloc, count) else {
        return Err(BuildError::OutOfMemory);
    };
    for _ in 0..count {
        segments.push_reserved(build_segment(alloc, settings, count, clock, listener, waits)?);
    }
    Ok(segments)
}

// Creates one of `count` segments, with its share of the capacities.
fn build_segment<K: Hash + Drop, V: Clone, C: CacheTypes<K, V>, W: Clone + Drop>(
    alloc: Global,
    settings: &Settings<K, V, C>,
    count: usize,
    clock: &Arc<C::Clock>,
    listener: &Option<Arc<RemovalNotifier<K, V, C>>>,
    waits: &W,
) -> Result<Cache<K, V, C, W>, BuildError>
    requires some { 0 < count }
    requires usable { IsUsable C.Weigher.weighs C.weight C.Expiry.gives C.lifetimes settings.now }
    ensures made { IfOk result (IsMadeOf (settings_of_one count (data_of settings.now))
        (arc_value clock.now) (option_map arc_value listener.now)) }
    ensures empty { IfOk result (λ cache. ⟦<C as StateView<K, V>>⟧.stands_for
        (⟦<C as StateView<K, V>>⟧.settings cache.opening.settings) cache.opening []) }
    ensures room { IfOk result (λ cache.
        share count settings.now.initial_capacity ≤ cache.opening.initial_room) }
    ensures cause { IfErr result (λ cause. cause ≡ BuildError.OutOfMemory) }
{
    let Ok(share) = share_of(settings, count) else {
        return Err(BuildError::OutOfMemory);
    };
    let Ok(clock) = clock.clone() else {
        return Err(BuildError::OutOfMemory);
    };
    let Ok(listener) = share_again(listener) else {
        return Err(BuildError::OutOfMemory);
    };
    let Ok(waits) = waits.clone() else {
        return Err(BuildError::OutOfMemory);
    };
    cache_of(alloc, share, None, clock, listener, waits)
}
