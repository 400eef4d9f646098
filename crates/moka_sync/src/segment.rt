//! A shared cache of several segments. Each segment is a shared cache with a lock of its own.
ghost use Rattle.std.specs.Prelude.{◌≡◌, ◌⊎◌, ◌↔◌, ◌<◌, ◌^◌, [], length, true, None, option_map, unwrap_or, IsOk, IfSome, IfOk, IfErr, OnOk};
ghost use Rattle.std.specs.Arc.{arc_value};
ghost use Rattle.std.specs.Duration.{as_nanos};
ghost use Rattle.std.specs.List.{All, AllByRecursion};
ghost use Rattle.moka_segmented.specs.SegmentedData.{data_of};
ghost use Rattle.moka_state.specs.Begin.{EntryKeeps};
ghost use Rattle.moka_sync.specs.Builder.{default_settings, segments_refused};
ghost use Rattle.moka_sync.specs.Segments.{SegmentedCacheData, IsBuiltInSegments, IsSegmentOf};
ghost use Rattle.moka_iter.specs.Walks.{start};

use crate::builder::{CacheBuilder, Segmented};
use crate::cache::Cache;
use moka_iter::iter::Iter;
use moka_model::entry::Entry;
use moka_policy::builder_utils::BuildError;
use moka_policy::policy::{CacheTypes, Policy, Refused};
use moka_segmented::segment::number_of_segment;
use moka_state::or_insert::OrInsertRefused;
use moka_state::predicate_error::PredicateError;
use moka_state::state::{InsertRefused, Settings};
use moka_state::view::StateView;
use std::alloc::{AllocError, Global};
use std::fmt::{self, Debug, Formatter, Write};
use std::hash::{BuildHasher, Hash, Hasher, RandomState};
use std::marker::Model;
use std::sync::{Arc, Wait};

/// What all clones of a segmented cache share.
#[derive(Drop)]
pub(crate) struct AllSegments<K: Hash + Drop, V: Clone, C: CacheTypes<K, V>, W> {
    /// The settings of the whole.
    pub settings: Settings<K, V, C>,
    /// How many bits of a hash choose a segment: fewer than 64.
    pub bits: u32,
    /// The segments, 2^`bits` of them.
    pub segments: Vec<Cache<K, V, C, W>>,
    ghost named: { (bits < 64) × (length segments.items ≡ 2 ^ bits) },
    ghost supports: { All
        (λ segment. segment.opening.settings.supports_closures ≡ settings.closures)
        segments.items },
}

/// A shared cache of several segments with a lock each. A call on one key waits only for calls in
/// its own segment.
///
/// The highest bits of a key's hash choose its segment. Each segment has its share of the capacity.
/// A clone is the same cache.
///
/// Calls that go to all segments take one lock after another. So what other threads do meanwhile
/// may be seen in some segments and not in others. A failed call leaves the cache unchanged, except
/// that loaders and computes may have recorded lookups and drawn sequence numbers.
///
/// # Complexity
///
/// A call on one key costs what it costs the [`Cache`] that is its segment. It hashes the key once
/// more, with no lock held.
#[derive(Drop)]
pub struct SegmentedCache<K: Hash + Drop, V: Clone, C: CacheTypes<K, V>, W> {
    pub(crate) inner: Arc<AllSegments<K, V, C, W>>,
}

impl<K: Hash + Drop, V: Clone, C: CacheTypes<K, V>, W> Model for SegmentedCache<K, V, C, W> {
    ghost Value = { SegmentedCacheData K V C.Hasher C.Weigher C.Expiry C.Frequency C.Error
        C.Listener C.Clock };

    ghost view = { λ cache. record {
      bits = (arc_value cache.inner).bits;
      settings = data_of (arc_value cache.inner).settings;
      segments = (arc_value cache.inner).segments.items;
    } };
}

impl<K: Hash + Drop, V: Clone, C: CacheTypes<K, V>, W: Drop> Clone for SegmentedCache<K, V, C, W> {
    ghost is_clone = { λ cache copy. copy ≡ cache };

    fn clone(&self) -> Result<Self, AllocError> {
        Ok(SegmentedCache {
            inner: self.inner.clone()?,
        })
    }
}

impl<K: Hash + Drop, V: Clone, C: CacheTypes<K, V>, W> Debug for SegmentedCache<K, V, C, W> {
    /// Writes the cache's name and policy. Shows no entries, so it takes no lock.
    fn fmt<O: Write>(&self, f: &mut Formatter<O>) -> fmt::Result {
        f.debug_struct("SegmentedCache")
            .field("name", &self.inner.settings.name)
            .field("policy", &self.policy())
            .finish()
    }
}

impl<K: Hash + Drop, V: Clone, C: CacheTypes<K, V>, W> SegmentedCache<K, V, C, W> {
    /// Returns a builder of caches with this many segments, or the next power of two, and no other
    /// setting.
    ///
    /// # Errors
    ///
    /// - `NoSegments`: the number is 0.
    /// - `TooManySegments`: the number is greater than 2^63.
    pub fn builder(num_segments: usize) -> Result<CacheBuilder<K, V, C, Segmented>, BuildError>
        ensures settings { IfOk result
            (λ builder. builder ≡ record default_settings { num_segments = num_segments }) }
        ensures accepted { OnOk result (segments_refused num_segments ≡ None) }
        ensures refused { IfErr result (λ cause. segments_refused num_segments ≡ Some cause) }
    {
        CacheBuilder::default().segments(num_segments)
    }

    /// Returns the cache's name, or `None` if it has none.
    pub fn name(&self) -> Option<&str>
        ensures { option_map (λ name. name.now) result ≡ self.now.settings.name }
    {
        self.inner.settings.name.as_deref()
    }

    /// Returns the capacity, the lifetimes and the number of segments that the cache was built
    /// with. The number is the one that was asked for, or the next power of two.
    pub fn policy(&self) -> Policy
        ensures max_capacity { result.max_capacity ≡ self.now.settings.max_capacity }
        ensures num_segments { result.num_segments ≡ 2 ^ self.now.bits }
        ensures time_to_live { option_map as_nanos result.time_to_live
            ≡ self.now.settings.time_to_live }
        ensures time_to_idle { option_map as_nanos result.time_to_idle
            ≡ self.now.settings.time_to_idle }
    {
        let settings = &self.inner.settings;
        Policy::new(
            settings.max_capacity,
            self.inner.segments.len(),
            settings.time_to_live,
            settings.time_to_idle,
        )
    }

    // Returns the segment of a key.
    pub(crate) fn segment(&self, key: &K) -> &Cache<K, V, C, W>
        ensures { IsSegmentOf self.now.bits
            ((⟦<C as StateView<K, V>>⟧.settings self.now.settings).behaviour.hash key.now)
            self.now.segments result.now }
    {
        let mut state = self.inner.settings.hasher.build_hasher();
        key.hash(&mut state);
        &self.inner.segments[number_of_segment(self.inner.bits, state.finish())]
    }
}

impl<K, V, C, W> SegmentedCache<K, V, C, W>
where
    K: Hash + Drop,
    V: Clone,
    C: CacheTypes<K, V, Hasher = RandomState>,
    W: Clone + Drop,
{
    /// Creates a cache of this capacity and this many segments, or the next power of two, for keys
    /// that an attacker may choose.
    ///
    /// `max_capacity` is a number of entries. `clock` gives the moments of the calls. A clone of
    /// `waits` lets each lock wait.
    ///
    /// # Errors
    ///
    /// - `NoSegments`: the number of segments is 0.
    /// - `TooManySegments`: the number of segments is greater than 2^63.
    /// - `OutOfMemory`: an allocation failed.
    pub fn new(
        alloc: Global,
        max_capacity: u64,
        num_segments: usize,
        hasher: RandomState,
        clock: C::Clock,
        waits: W,
    ) -> Result<Self, BuildError>
        ensures built { IfOk result (IsBuiltInSegments
            (record default_settings
            { max_capacity = Some max_capacity; num_segments = num_segments })
            hasher clock) }
        ensures empty { IfOk result (λ cache. AllByRecursion (λ segment.
            ⟦<C as StateView<K, V>>⟧.stands_for
            (⟦<C as StateView<K, V>>⟧.settings segment.opening.settings) segment.opening [])
            cache.segments) }
        ensures accepted { OnOk result (segments_refused num_segments ≡ None) }
        ensures refused { IfErr result (λ cause.
            cause ≡ unwrap_or (segments_refused num_segments) BuildError.OutOfMemory) }
    {
        CacheBuilder::new(max_capacity)
            .segments(num_segments)?
            .build(alloc, hasher, clock, waits)
    }
}

impl<K: Hash + Drop, V: Clone, C: CacheTypes<K, V>, W: Wait> SegmentedCache<K, V, C, W> {
    /// Calls [`Cache::get`] on the segment of `key`.
    pub fn get(&self, key: &K) -> Result<Option<V>, Refused>
        ensures kept { IfOk result (λ found. IfSome found (C.keeps key.now)) }
        ensures cause { IfErr result (λ cause. cause ≡ Refused.OutOfMemory) }
    {
        self.segment(key).get(key)
    }

    /// Calls [`Cache::contains_key`] on the segment of `key`.
    pub fn contains_key(&self, key: &K) -> bool {
        self.segment(key).contains_key(key)
    }

    /// Calls [`Cache::insert`] on the segment of `key`. Each segment has its own sequence numbers.
    pub fn insert(&self, key: K, value: V) -> Result<(), InsertRefused<K, V>>
        requires { C.keeps key value }
        ensures key_back { IfErr result (λ refused. refused.key ≡ key) }
        ensures value_back { IfErr result (λ refused. refused.value ≡ value) }
        ensures cause { IfErr result (λ refused.
            (refused.cause ≡ Refused.OutOfMemory) ⊎ (refused.cause ≡ Refused.NumbersUsedUp)) }
    {
        self.segment(&key).insert(key, value)
    }

    /// Calls [`Cache::or_insert`] on the segment of `key`.
    pub fn or_insert(&self, key: &Arc<K>, value: V) -> Result<Entry<K, V>, OrInsertRefused<V>>
        requires { C.keeps (arc_value key.now) value }
        ensures kept { IfOk result (EntryKeeps C.keeps (arc_value key.now)) }
        ensures value_back { IfErr result (λ refused. refused.value ≡ value) }
    {
        self.segment(&**key).or_insert(key, value)
    }

    /// Calls [`Cache::invalidate`] on the segment of `key`.
    pub fn invalidate(&self, key: &K) {
        self.segment(key).invalidate(key);
    }

    /// Calls [`Cache::remove`] on the segment of `key`.
    pub fn remove(&self, key: &K) -> Result<Option<V>, Refused>
        ensures kept { IfOk result (λ found. IfSome found (C.keeps key.now)) }
        ensures cause { IfErr result (λ cause. cause ≡ Refused.OutOfMemory) }
    {
        self.segment(key).remove(key)
    }

    /// Calls [`Cache::invalidate_all`] on one segment after another.
    ///
    /// # Complexity
    ///
    /// Visits every entry.
    pub fn invalidate_all(&self) {
        for segment in &self.inner.segments {
            segment.invalidate_all();
        }
    }

    /// Invalidates each entry of which `predicate` holds, in one segment after another. Does not
    /// allocate.
    ///
    /// Calls the predicate once for each stored entry. What is written to a segment later is not
    /// affected.
    ///
    /// # Errors
    ///
    /// - `InvalidationClosuresDisabled`: the cache was built without support for closures.
    ///
    /// # Complexity
    ///
    /// Visits every entry.
    pub fn invalidate_entries_if(&self, predicate: C::Predicate) -> Result<(), PredicateError>
        requires tests { C.Predicate.tests predicate (C.test predicate) }
        ensures accepted { IsOk result ↔ (self.now.settings.supports_closures ≡ true) }
        ensures cause { IfErr result
            (λ cause. cause ≡ PredicateError.InvalidationClosuresDisabled) }
    {
        self.hide_where(&predicate)
    }

    /// Invalidates as [`SegmentedCache::invalidate_entries_if`] does, by a shared predicate.
    ///
    /// # Errors
    ///
    /// - `InvalidationClosuresDisabled`: the cache was built without support for closures.
    ///
    /// # Complexity
    ///
    /// Visits every entry.
    pub fn invalidate_entries_with_arc_fun(
        &self,
        predicate: Arc<C::Predicate>,
    ) -> Result<(), PredicateError>
        requires tests { C.Predicate.tests (arc_value predicate) (C.test (arc_value predicate)) }
        ensures accepted { IsOk result ↔ (self.now.settings.supports_closures ≡ true) }
        ensures cause { IfErr result
            (λ cause. cause ≡ PredicateError.InvalidationClosuresDisabled) }
    {
        self.hide_where(&predicate)
    }

    // Invalidates by a predicate by reference, in all segments or in none.
    fn hide_where(&self, predicate: &C::Predicate) -> Result<(), PredicateError>
        requires tests { C.Predicate.tests predicate.now (C.test predicate.now) }
        ensures accepted { IsOk result ↔ (self.now.settings.supports_closures ≡ true) }
        ensures cause { IfErr result
            (λ cause. cause ≡ PredicateError.InvalidationClosuresDisabled) }
    {
        if !self.inner.settings.closures {
            return Err(PredicateError::InvalidationClosuresDisabled);
        }
        for segment in &self.inner.segments {
            // A state accepts what the settings allow, but no clause says so through its lock.
            let _ = segment.hide_where(predicate);
        }
        Ok(())
    }

    /// Calls [`Cache::run_pending_tasks`] on one segment after another.
    pub fn run_pending_tasks(&self) {
        for segment in &self.inner.segments {
            segment.run_pending_tasks();
        }
    }

    /// Calls [`Cache::run_pending_tasks_up_to`] on one segment after another, each with the whole
    /// limit. Returns whether any of them left something to do.
    pub fn run_pending_tasks_up_to(&self, limit: u64) -> bool {
        let mut is_cut = false;
        for segment in &self.inner.segments {
            is_cut |= segment.run_pending_tasks_up_to(limit);
        }
        is_cut
    }

    /// Returns the number of stored entries in all segments, with those that are pending or
    /// expired. It is at most `u64::MAX`.
    pub fn entry_count(&self) -> u64 {
        let mut count: u64 = 0;
        for segment in &self.inner.segments {
            count = count.saturating_add(segment.entry_count());
        }
        count
    }

    /// Returns the total weight of the stored entries in all segments. It is at most `u64::MAX`.
    pub fn weighted_size(&self) -> u64 {
        let mut weight: u64 = 0;
        for segment in &self.inner.segments {
            weight = weight.saturating_add(segment.weighted_size());
        }
        weight
    }

    /// Returns an iterator as [`Cache::iter`] does, over one segment after another.
    pub fn iter(&self) -> Iter<'_, K, V, Cache<K, V, C, W>>
        ensures caches { result.caches ≡ self.entry.now.segments }
        ensures start { result.cursor ≡ start }
    {
        Iter::new(&self.inner.segments)
    }
}

impl<K: Hash + Drop, V: Clone + Default, C: CacheTypes<K, V>, W: Wait> SegmentedCache<K, V, C, W> {
    /// Calls [`Cache::or_default`] on the segment of `key`.
    pub fn or_default(&self, key: K) -> Result<Entry<K, V>, Refused>
        requires { (value : V) → V.is_default value → C.keeps key value }
        ensures kept { IfOk result (EntryKeeps C.keeps key) }
    {
        self.segment(&key).or_default(key)
    }
}

impl<'i, K: Hash + Drop, V: Clone, C: CacheTypes<K, V>, W: Wait> IntoIterator
    for &'i SegmentedCache<K, V, C, W> {
    ghost use Rattle.std.specs.Prelude.{◌≡◌};
    ghost use Rattle.moka_iter.specs.Walks.{start};

    type Item = Result<(Arc<K>, V), Refused>;

    type IntoIter = Iter<'i, K, V, Cache<K, V, C, W>>;

    ghost into_iter_gives = { λ cache walk. (walk.caches ≡ cache.now.segments)
        × (walk.cursor ≡ start) };

    /// Returns [`SegmentedCache::iter`].
    fn into_iter(self) -> Iter<'i, K, V, Cache<K, V, C, W>> {
        self.iter()
    }
}
