//! The owned cache of several segments. The highest bits of a key's hash choose its segment, and
//! each segment is a cache with a share of the capacity.
ghost use Rattle.std.specs.Prelude.{◌≡◌, ◌⊎◌, ◌+◌, ◌<◌, ◌^◌, ◌↔◌, true, None, length, option_map, IsNone, IsOk, IfOk, IfErr, IfSome, OnOk, OnErr, IsErrAnd};
ghost use Rattle.std.specs.Arc.{arc_value};
ghost use Rattle.std.specs.Duration.{as_nanos};
ghost use Rattle.std.specs.List.{AllByRecursion};
ghost use Rattle.moka_model.specs.Calls.{Get, ContainsKey, Insert, Invalidate, Remove, TakeNotice, Contains, Noticed, IsOutOfNumbers};
ghost use Rattle.moka_model.specs.Numbers.{stores_nothing};
ghost use Rattle.moka_model.specs.SizeLaws.{LimitsSome};
ghost use Rattle.moka_state.specs.Hashes.{IsHashOf};
ghost use Rattle.moka_table.specs.Table.{removal_of};
ghost use Rattle.moka_segment_model.specs.Segments.{segment_of, segment_of_key, first_from, share_settings, steps_in};
ghost use Rattle.moka_segmented.specs.SegmentedData.{SegmentedData, AllHashBy, data_of, has_notice, notices_queued};
ghost use Rattle.moka_segmented.specs.Ends.{ReadsLiveIn};

use crate::segmented_view::{SegmentedCallView, SegmentedStateView};
use moka_expiration::view::StateView;
use moka_expiring_rows::expiring_rows::ExpiringRows;
use moka_model::notification::Notice;
use moka_policy::policy::{CacheTypes, Policy, Refused};
use moka_rows::rows::RowStore;
use moka_state::state::{InsertRefused, Settings, State};
use std::alloc::Global;
use std::hash::{BuildHasher, Hash, Hasher};
use std::marker::Model;

/// A cache of several segments over a store of rows, called through `&mut`.
///
/// `now` is the moment of a call, in nanoseconds. A moment before the latest one of a segment
/// counts there as the latest. A failed call leaves the cache unchanged, except a loader whose
/// finish fails.
#[derive(Drop)]
pub struct Segmented<K: Hash + Drop, V: Clone, C: CacheTypes<K, V>, R: RowStore<K, V>> {
    pub(crate) settings: Settings<K, V, C>,
    pub(crate) bits: u32,
    pub(crate) segments: Vec<State<K, V, C, R>>,
    pub(crate) alloc: Global,
}

/// A cache of several segments, each a [`CacheState`](moka_state::state::CacheState) with its share
/// of the capacity. What happens in one segment does not change what another one returns.
///
/// # Complexity
///
/// A call on one key visits the entries of its segment that have the key's hash.
pub type SegmentedState<K, V, C> = Segmented<K, V, C, ExpiringRows<K, V>>;

// Where a key belongs: its hash, and the number of the segment that the hash's highest bits choose.
#[derive(Clone, Copy)]
pub(crate) struct Place {
    pub(crate) hash: u64,
    pub(crate) index: usize,
}

impl<K: Hash + Drop, V: Clone, C: CacheTypes<K, V>, R: RowStore<K, V>> Model
    for Segmented<K, V, C, R> {
    ghost Value = { SegmentedData K V C.Hasher C.Weigher C.Expiry C.Frequency C.Error };

    ghost view = { λ it. record {
      bits = it.bits;
      settings = data_of it.settings;
      segments = it.segments.items;
    } };

    ghost invariant = { λ it. (it.bits < 64) × (length it.segments.items ≡ 2 ^ it.bits)
        × LimitsSome it.settings.flush_limit
        × AllHashBy (arc_value it.settings.hasher) it.segments.items };
}

impl<K: Hash + Drop, V: Clone, C: CacheTypes<K, V>, R: RowStore<K, V>> Segmented<K, V, C, R> {
    /// Returns a clone of the live value for `key`, or `None`, in the key's segment. Counts as an
    /// access, and notes the key's hash.
    ///
    /// # Errors
    ///
    /// - `OutOfMemory`: cloning the value failed.
    pub fn get(&mut self, key: &K, now: u64) -> Result<Option<V>, Refused>
        // Only cloning the live value can fail, and then nothing has changed.
        ensures ends { ReadsLiveIn ⟦<C as SegmentedCallView<K, V>>⟧.spec Get key.now now self.old
            self.new result }
        ensures kept { IfOk result (λ found. IfSome found (C.keeps key.now)) }
        ensures settings { self.new.settings ≡ self.old.settings }
    {
        let place = self.place_of(key);
        self.segments[place.index].get_with_hash(key, place.hash, now)
    }

    /// Returns whether `key` has a live value at a moment, in its segment. Does not count as an
    /// access, and records nothing.
    pub fn contains_key(&self, key: &K, now: u64) -> bool
        ensures reply { ⟦<C as SegmentedStateView<K, V>>⟧.replies_in self.now
            (ContainsKey key.now now) (Contains result) }
        ensures stands { ⟦<C as SegmentedStateView<K, V>>⟧.follows_in self.now
            (ContainsKey key.now now) self.now }
    {
        let place = self.place_of(key);
        self.segments[place.index].contains_key_with_hash(key, place.hash, now)
    }

    /// Inserts `value` under `key` in the key's segment, or overwrites the value that is stored
    /// there. At a capacity of 0 nothing is stored, and the call succeeds without allocating.
    ///
    /// # Errors
    ///
    /// Hands back the key and the value.
    ///
    /// - `NumbersUsedUp`: a sequence number is needed, and none is left in the key's segment.
    /// - `OutOfMemory`: an allocation failed.
    ///
    /// # Complexity
    ///
    /// With 64 or more entries pending in the segment, also runs maintenance there.
    pub fn insert(&mut self, key: K, value: V, now: u64) -> Result<(), InsertRefused<K, V>>
        requires { C.keeps key value }
        ensures stands { OnOk result (⟦<C as SegmentedStateView<K, V>>⟧.follows_in self.old
            (Insert key value now) self.new) }
        ensures refused { OnErr result (self.new ≡ self.old) }
        ensures key_back { IfErr result (λ refused. refused.key ≡ key) }
        ensures value_back { IfErr result (λ refused. refused.value ≡ value) }
        ensures cause { IfErr result (λ refused. (refused.cause ≡ Refused.OutOfMemory)
            ⊎ (refused.cause ≡ Refused.NumbersUsedUp)) }
        ensures numbers { ⟦<C as SegmentedStateView<K, V>>⟧.at_each_list self.old (λ settings calls.
            IsErrAnd result (λ refused. refused.cause ≡ Refused.NumbersUsedUp)
            ↔ IsOutOfNumbers K.eq (share_settings settings)
            (steps_in C.Error K.eq settings calls (segment_of_key settings key))
            (Insert key value now)) }
        ensures nothing { ⟦<C as SegmentedStateView<K, V>>⟧.at_each_list self.old (λ settings _.
            stores_nothing settings.whole.max_capacity ≡ true → IsOk result) }
        ensures settings { self.new.settings ≡ self.old.settings }
    {
        let place = self.place_of(&key);
        self.segments[place.index].insert_with_hash(key, place.hash, value, now)
    }

    /// Removes the entry of `key`, live or expired, from its segment. The value is noticed. Does
    /// not allocate.
    pub fn invalidate(&mut self, key: &K, now: u64)
        ensures stands { ⟦<C as SegmentedStateView<K, V>>⟧.follows_in
            self.old (Invalidate key.now now) self.new }
        ensures settings { self.new.settings ≡ self.old.settings }
    {
        let place = self.place_of(key);
        self.segments[place.index].invalidate_with_hash(key, place.hash, now);
    }

    /// Removes the entry of `key`, live or expired, from its segment, and returns a clone of its
    /// live value. The value is noticed.
    ///
    /// # Errors
    ///
    /// - `OutOfMemory`: cloning the value failed.
    pub fn remove(&mut self, key: &K, now: u64) -> Result<Option<V>, Refused>
        // Only cloning the live value can fail, and then nothing has changed.
        ensures ends { ReadsLiveIn ⟦<C as SegmentedCallView<K, V>>⟧.spec Remove key.now now self.old
            self.new result }
        ensures kept { IfOk result (λ found. IfSome found (C.keeps key.now)) }
        ensures settings { self.new.settings ≡ self.old.settings }
    {
        let place = self.place_of(key);
        self.segments[place.index].remove_with_hash(key, place.hash, now)
    }

    /// Takes the oldest notice of the first segment that has one; returns `None` exactly if no
    /// segment has a notice. Does not allocate.
    pub fn take_notice(&mut self) -> Option<Notice<K, V>>
        ensures reply { ⟦<C as SegmentedStateView<K, V>>⟧.replies_in self.old TakeNotice
            (Noticed (option_map removal_of result)) }
        ensures stands { ⟦<C as SegmentedStateView<K, V>>⟧.follows_in self.old TakeNotice self.new }
        ensures kept { IfSome result (λ notice. C.keeps (arc_value notice.key) notice.value) }

        // So a loop that takes notices ends.
        ensures none { IsNone result ↔ (notices_queued self.old.segments ≡ 0) }
        ensures fewer { IfSome result (λ _.
            notices_queued self.old.segments ≡ notices_queued self.new.segments + 1) }
        ensures settings { self.new.settings ≡ self.old.settings }
    {
        match self.first_with_notice() {
            Some(index) => self.segments[index].take_notice(),
            None => None,
        }
    }

    /// Returns the cache's name, or `None` if it has none.
    pub fn name(&self) -> Option<&str>
        ensures { option_map (λ name. name.now) result ≡ self.now.settings.name }
    {
        self.settings.name.as_deref()
    }

    /// Returns the capacity, the lifetimes and the number of segments that the cache was built
    /// with. The number is the one that was asked for, or the next power of two.
    pub fn policy(&self) -> Policy
        ensures max_capacity { result.max_capacity ≡ self.now.settings.max_capacity }
        ensures num_segments { result.num_segments ≡ 2 ^ self.now.bits }
        ensures time_to_live { option_map as_nanos result.time_to_live
            ≡ self.now.settings.time_to_live }
        ensures time_to_idle { option_map as_nanos result.time_to_idle
            ≡ self.now.settings.time_to_idle }
    {
        Policy::new(
            self.settings.max_capacity,
            self.segments.len(),
            self.settings.time_to_live,
            self.settings.time_to_idle,
        )
    }

    /// Returns the segments, in order. The capacity of each is its share.
    pub fn segments(&self) -> &[State<K, V, C, R>]
        ensures { result.now ≡ self.now.segments }
    {
        &self.segments
    }

    // Returns the allocator. The contract adds that the flush limit, if there is one, is not 0.
    pub(crate) fn alloc(&self) -> Global
        ensures { LimitsSome self.now.settings.flush_limit }
    {
        self.alloc
    }

    // Returns the segment of a key, and the key's hash, which is the same in each segment.
    pub(crate) fn place_of(&self, key: &K) -> Place
        ensures is { result.index ≡ segment_of_key
            (⟦<C as SegmentedStateView<K, V>>⟧.segmented_settings self.now) key.now }
        ensures within { result.index < length self.now.segments }
        ensures hash { AllByRecursion (λ state. IsHashOf
            (⟦<C as StateView<K, V>>⟧.settings state.settings) key.now result.hash)
            self.now.segments }
    {
        let mut state = self.settings.hasher.build_hasher();
        key.hash(&mut state);
        let hash = state.finish();
        Place {
            hash,
            index: number_of_segment(self.bits, hash),
        }
    }

    // Returns the number of the first segment that has a notice.
    fn first_with_notice(&self) -> Option<usize>
        ensures { result ≡ first_from (has_notice self.now.segments) 0 (length self.now.segments) }
    {
        for index in 0..self.segments.len() {
            if self.segments[index].notice_count() > 0 {
                return Some(index);
            }
        }
        None
    }
}

/// Returns the number of a hash's segment, of `2 ^ bits` segments: the number that the hash's
/// highest bits are. `bits` is below 64.
pub fn number_of_segment(bits: u32, hash: u64) -> usize
    requires { bits < 64 }
    ensures is { result ≡ segment_of bits hash }
    ensures within { result < 2 ^ bits }
{
    if bits == 0 {
        0
    } else {
        (hash >> (64 - bits)) as usize
    }
}
