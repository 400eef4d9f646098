//! Opens the segments of a cache, each with its share of the settings.
ghost use Rattle.std.specs.Prelude.{◌≡◌, ◌<◌, ◌≤◌, ◌^◌, [], Some, None, option_map, IfOk, IfErr};
ghost use Rattle.std.specs.Arc.{arc_value};
ghost use Rattle.std.specs.List.{AllByRecursion};
ghost use Rattle.moka_segment_model.specs.Segments.{share, bits_for};
ghost use Rattle.moka_segmented.specs.SegmentedData.{data_of};
ghost use Rattle.moka_state.specs.Settings.{IsUsable};

use crate::segment::Segmented;
use crate::segmented_view::SegmentedStateView;
use moka_policy::policy::{CacheTypes, Refused};
use moka_rows::rows::RowStore;
use moka_state::state::{Settings, State};
use std::alloc::{AllocError, Global};
use std::hash::Hash;
use std::sync::Arc;

/// Opens an empty cache of `2 ^ bits` segments, each with its share of the capacity and of the
/// initial capacity.
///
/// `bits` is below 64. The weigher and the expiry have to compute what the cache's types name. The
/// flush limit is not 0, and there is no weigher beside it.
///
/// # Errors
///
/// - `OutOfMemory`: an allocation failed. Everything is dropped.
pub fn build_segments<K: Hash + Drop, V: Clone, C: CacheTypes<K, V>, R: RowStore<K, V>>(
    alloc: Global,
    settings: Settings<K, V, C>,
    bits: u32,
) -> Result<Segmented<K, V, C, R>, Refused>
    requires bits { bits < 64 }
    requires usable { IsUsable C.Weigher.weighs C.weight C.Expiry.gives C.lifetimes settings }
    ensures segments { IfOk result (λ cache. cache.bits ≡ bits) }
    ensures settings { IfOk result (λ cache. cache.settings ≡ data_of settings) }
    ensures empty { IfOk result (λ cache. ⟦<C as SegmentedStateView<K, V>>⟧.all_stand_for
        (⟦<C as SegmentedStateView<K, V>>⟧.segmented_settings cache) cache []) }
    ensures room { IfOk result (λ cache. AllByRecursion
        (λ state. share (2 ^ bits) settings.initial_capacity ≤ state.initial_room) cache.segments) }
    ensures cause { IfErr result (λ cause. cause ≡ Refused.OutOfMemory) }
{
    let count = count_of(bits);
    let Ok(mut segments) = Vec::with_capacity(alloc, count) else {
        return Err(Refused::OutOfMemory);
    };
    for _ in 0..count {
        let Ok(share) = share_of(&settings, count) else {
            return Err(Refused::OutOfMemory);
        };
        segments.push_reserved(State::new(alloc, share)?);
    }
    Ok(Segmented {
        settings,
        bits,
        segments,
        alloc,
    })
}

/// Returns how many bits of a hash choose one of so many segments: the fewest that name as many,
/// and 63 at most.
pub fn bits_for(segments: usize) -> u32
    ensures bits { result ≡ bits_for segments }
    ensures few { result < 64 }
{
    for bits in 0..63 {
        if segments <= count_of(bits) {
            return bits;
        }
    }
    63
}

/// Returns how many segments so many bits name: `2 ^ bits`. `bits` is below 64.
pub fn count_of(bits: u32) -> usize
    requires { bits < 64 }
    ensures { result ≡ 2 ^ bits }
{
    1 << bits
}

/// Makes the settings of one of `count` segments: those of the whole, without the name, and with
/// its share of both capacities.
///
/// The weigher, the expiry and the hasher are shared. `count` is at least 1.
///
/// # Errors
///
/// - `AllocError`: sharing one of these three failed.
pub fn share_of<K: Hash + Drop, V: Clone, C: CacheTypes<K, V>>(
    settings: &Settings<K, V, C>,
    count: usize,
) -> Result<Settings<K, V, C>, AllocError>
    requires some { 0 < count }
    requires usable { IsUsable C.Weigher.weighs C.weight C.Expiry.gives C.lifetimes settings.now }
    ensures share { IfOk result (λ one. data_of one ≡ record (data_of settings.now) {
      name = None;
      max_capacity = option_map (share count) settings.now.max_capacity;
    }) }
    ensures room { IfOk result (λ one.
        one.initial_capacity ≡ share count settings.now.initial_capacity) }
    ensures usable { IfOk result (IsUsable C.Weigher.weighs C.weight C.Expiry.gives C.lifetimes) }
{
    let weigher = share_again(&settings.weigher)?;
    let expiry = share_again(&settings.expiry)?;
    let hasher = settings.hasher.clone()?;
    Ok(Settings {
        name: None,
        time_to_live: settings.time_to_live,
        time_to_idle: settings.time_to_idle,
        max_capacity: share_of_capacity(settings.max_capacity, count as u64),
        initial_capacity: settings.initial_capacity.div_ceil(count),
        eviction_policy: settings.eviction_policy,
        weigher,
        expiry,
        closures: settings.closures,
        flush_limit: settings.flush_limit,
        first_number: settings.first_number,
        hasher,
    })
}

// Returns the share of a capacity, if there is one.
fn share_of_capacity(capacity: Option<u64>, count: u64) -> Option<u64>
    requires { 0 < count }
    ensures { result ≡ option_map (share count) capacity }
{
    match capacity {
        Some(whole) => Some(whole.div_ceil(count)),
        None => None,
    }
}

/// Shares an `Arc` once more, if there is one.
///
/// # Errors
///
/// - `AllocError`: sharing it failed.
pub fn share_again<T: Drop>(value: &Option<Arc<T>>) -> Result<Option<Arc<T>>, AllocError>
    ensures { IfOk result (λ copy. option_map arc_value copy ≡ option_map arc_value value.now) }
{
    match value {
        Some(value) => Ok(Some(value.clone()?)),
        None => Ok(None),
    }
}
