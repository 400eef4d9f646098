//! The calls of a cache of byte strings, for C. Each moment is handed in, in nanoseconds.
//!
//! Each call returns a number of `code`. A closed handle is refused with `CLOSED`.
ghost use Rattle.std.specs.Prelude.{◌≡◌, ◌≢◌, ◌==◌, ◌≤◌, ◌+◌, ◌↔◌, ◌∷◌, None, Some, IsNone, IsSome, IfSome, IsSomeAnd, is_some, option_map, true, false, [], length, min, take};
ghost use Rattle.std.specs.Arc.{arc_value};
ghost use Rattle.std.specs.List.{AllByRecursion};
ghost use Rattle.moka_model.specs.Lives.{is_live};
ghost use Rattle.moka_model.specs.Events.{Maintained, latest};
ghost use Rattle.moka_model.specs.Maintenance.{total};
ghost use Rattle.moka_model.specs.Numbers.{greatest_number, flush_point};
ghost use Rattle.moka_model.specs.Steps.{events_in};
ghost use Rattle.moka_model.specs.Calls.{Get, ContainsKey, Insert, Invalidate, Remove, InvalidateAll, RunPendingTasks, RunPendingTasksUpTo, EntryCount, WeightedSize, TakeNotice, Contains, Counted, Left, Noticed};
ghost use Rattle.moka_state.specs.State.{all_writes};
ghost use Rattle.moka_state.specs.Ends.{ReadsLive};
ghost use Rattle.moka_state.specs.Write.{WriteEnds};
ghost use Rattle.moka_c.specs.Buffers.{bytes_of, CopiesFound, StoresBytes};
ghost use Rattle.moka_c.specs.Codes.{written_of};
ghost use Rattle.moka_c.specs.Found.{KeepsFound};
ghost use Rattle.moka_c.specs.Handles.{OnOpen, RefusesClosed, IsDoneOnOpen};
ghost use Rattle.moka_c.specs.Notices.{bytes_noticed, HasLengths};
ghost use Rattle.moka_c.specs.Settings.{HasSettings, refused_of};

use crate::byte_strings::ByteStrings;
use crate::byte_types::ByteTypes;
use crate::code;
use crate::held_strings::HeldStrings;
use crate::key::Key;
use crate::notices::BytesNotice;
use crate::parts::Parts;
use crate::settings::CacheSettings;
use bytes::Bytes;
use moka_state::call_view::CallView;
use moka_state::view::StateView;
use std::alloc::Global;
use std::{mem, ptr};

/// A handle of a cache of byte strings. All zeros is one that is closed.
///
/// C keeps it where it is opened, and changes none of its fields.
#[repr(C)]
#[derive(Drop)]
pub struct ByteCache {
    is_open: bool,
    at: HeldStrings,
    ghost fits: { is_open ≡ is_some at.held },
}

impl ByteCache {
    // Returns a closed handle.
    fn closed(alloc: Global) -> ByteCache
        ensures { result.at.held ≡ None }
    {
        let nowhere = ptr::null_mut();
        let at = HeldStrings::empty(nowhere, alloc);
        ByteCache { is_open: false, at }
    }

    // Returns the cache of the handle.
    fn into_cache(self) -> Option<Box<ByteStrings>>
        ensures { option_map (λ cache. cache.value) result ≡ self.at.held }
    {
        let ByteCache { is_open, at } = self;
        if is_open {
            Some(at.into_parts().into_box())
        } else {
            None
        }
    }

    // Takes the cache out of the handle, which is closed then.
    fn take(&mut self, alloc: Global) -> Option<Box<ByteStrings>>
        ensures taken { option_map (λ cache. cache.value) result ≡ self.old.at.held }
        ensures none { self.new.at.held ≡ None }
    {
        mem::replace(self, ByteCache::closed(alloc)).into_cache()
    }

    // Puts a cache into the handle, which is open then.
    fn put(&mut self, cache: Box<ByteStrings>)
        ensures { self.new.at.held ≡ Some cache.value }
    {
        *self = ByteCache {
            is_open: true,
            at: HeldStrings::of_parts(Parts::of(cache)),
        };
    }
}

/// Opens a handle: creates an empty cache with these settings. The handle must be closed.
#[unsafe(no_mangle)]
pub extern "C" fn moka_c_bytes_open(
    alloc: Global,
    cache: &mut ByteCache,
    settings: &CacheSettings,
) -> u32
    ensures already { IsSome cache.old.at.held → result ≡ 5 }
    ensures kept { result ≢ 0 → cache.new.at.held ≡ cache.old.at.held }
    ensures cause { IsNone cache.old.at.held → result ≢ 0 →
        result ≡ refused_of settings.now settings.now.weighs_bytes }
    ensures settings { result ≡ 0 → IfSome cache.new.at.held (λ strings.
        HasSettings settings.now strings.cache) }
    ensures empty { result ≡ 0 → IfSome cache.new.at.held (λ strings.
        ⟦<ByteTypes as StateView<Key, Bytes>>⟧.stands_for
        (⟦<ByteTypes as StateView<Key, Bytes>>⟧.settings strings.cache.settings) strings.cache []) }
{
    if cache.is_open {
        return code::OPEN_ALREADY;
    }
    let strings = match ByteStrings::new(alloc, settings) {
        Ok(strings) => strings,
        Err(number) => return number,
    };
    match Box::new(alloc, strings) {
        Ok(strings) => {
            cache.put(strings);
            code::DONE
        }
        Err(_) => code::OUT_OF_MEMORY,
    }
}

/// Closes a handle, and frees its cache.
#[unsafe(no_mangle)]
pub extern "C" fn moka_c_bytes_close(alloc: Global, cache: &mut ByteCache) -> u32
    ensures closed { RefusesClosed cache.old.at.held cache.new.at.held result }
    ensures done { IsDoneOnOpen cache.old.at.held result }
    ensures none { cache.new.at.held ≡ None }
{
    match cache.take(alloc) {
        Some(open) => {
            drop(open);
            code::DONE
        }
        None => code::CLOSED,
    }
}

/// Looks `key` up, like `State::get`, and copies its live value to `out`. Stores the length of the
/// value in `len`. If there is no room, `moka_c_bytes_copy_value` has the value next.
#[unsafe(no_mangle)]
pub extern "C" fn moka_c_bytes_get(
    alloc: Global,
    cache: &mut ByteCache,
    key: &[u8],
    now: u64,
    out: &mut [u8],
    len: &mut usize,
) -> u32
    ensures closed { RefusesClosed cache.old.at.held cache.new.at.held result }
    ensures refused { result ≡ 2 → OnOpen (λ before after. after.cache ≡ before.cache)
        cache.old.at.held cache.new.at.held }
    ensures ends { result ≢ 2 → OnOpen (λ before after.
        IsSomeAnd (bytes_of result (take len.new out.new) after.value) (λ found.
        ReadsLive ⟦<ByteTypes as CallView<Key, Bytes>>⟧.spec Get key.now now
        before.cache after.cache found)) cache.old.at.held cache.new.at.held }
    ensures buffer { IfSome cache.new.at.held (λ after.
        StoresBytes result len.old len.new out.old out.new after.value) }
    ensures untouched { result ≡ 4 → (out.new ≡ out.old) × (len.new ≡ len.old) }
    ensures settings { OnOpen (λ before after.
        after.cache.settings ≡ before.cache.settings) cache.old.at.held cache.new.at.held }
    ensures key { OnOpen (λ before after. after.key ≡ before.key)
        cache.old.at.held cache.new.at.held }
{
    let Some(mut open) = cache.take(alloc) else {
        return code::CLOSED;
    };
    let number = open.get(key, now, out, len);
    cache.put(open);
    number
}

/// Removes the entry of `key`, like `State::remove`, and copies its live value to `out`. Stores the
/// length of the value in `len`. If there is no room, `moka_c_bytes_copy_value` has the value next.
#[unsafe(no_mangle)]
pub extern "C" fn moka_c_bytes_remove(
    alloc: Global,
    cache: &mut ByteCache,
    key: &[u8],
    now: u64,
    out: &mut [u8],
    len: &mut usize,
) -> u32
    ensures closed { RefusesClosed cache.old.at.held cache.new.at.held result }
    ensures refused { result ≡ 2 → OnOpen (λ before after. after.cache ≡ before.cache)
        cache.old.at.held cache.new.at.held }
    ensures ends { result ≢ 2 → OnOpen (λ before after.
        IsSomeAnd (bytes_of result (take len.new out.new) after.value) (λ found.
        ReadsLive ⟦<ByteTypes as CallView<Key, Bytes>>⟧.spec Remove key.now now
        before.cache after.cache found)) cache.old.at.held cache.new.at.held }
    ensures buffer { IfSome cache.new.at.held (λ after.
        StoresBytes result len.old len.new out.old out.new after.value) }
    ensures untouched { result ≡ 4 → (out.new ≡ out.old) × (len.new ≡ len.old) }
    ensures settings { OnOpen (λ before after.
        after.cache.settings ≡ before.cache.settings) cache.old.at.held cache.new.at.held }
    ensures key { OnOpen (λ before after. after.key ≡ before.key)
        cache.old.at.held cache.new.at.held }
{
    let Some(mut open) = cache.take(alloc) else {
        return code::CLOSED;
    };
    let number = open.remove(key, now, out, len);
    cache.put(open);
    number
}

/// Stores `value` under `key`, like `State::insert`.
#[unsafe(no_mangle)]
pub extern "C" fn moka_c_bytes_insert(
    alloc: Global,
    cache: &mut ByteCache,
    key: &[u8],
    value: &[u8],
    now: u64,
) -> u32
    ensures closed { RefusesClosed cache.old.at.held cache.new.at.held result }
    ensures refused { result ≡ 2 → OnOpen (λ before after. after.cache ≡ before.cache)
        cache.old.at.held cache.new.at.held }
    ensures ends { result ≢ 2 → OnOpen (λ before after.
        IsSomeAnd (written_of result key.now value.now) (λ ended. WriteEnds
        (⟦<ByteTypes as StateView<Key, Bytes>>⟧.follows before.cache
        (Insert key.now value.now now) after.cache)
        before.cache after.cache key.now value.now ended)) cache.old.at.held cache.new.at.held }
    ensures settings { OnOpen (λ before after.
        after.cache.settings ≡ before.cache.settings) cache.old.at.held cache.new.at.held }
    ensures found { OnOpen KeepsFound cache.old.at.held cache.new.at.held }
{
    let Some(mut open) = cache.take(alloc) else {
        return code::CLOSED;
    };
    let number = open.insert(key, value, now);
    cache.put(open);
    number
}

/// Returns `DONE` if `key` has a live value, and else `ABSENT`, like `State::contains_key`.
#[unsafe(no_mangle)]
pub extern "C" fn moka_c_bytes_contains_key(
    alloc: Global,
    cache: &mut ByteCache,
    key: &[u8],
    now: u64,
) -> u32
    ensures closed { RefusesClosed cache.old.at.held cache.new.at.held result }
    ensures same { OnOpen (λ before after. after.cache ≡ before.cache)
        cache.old.at.held cache.new.at.held }
    ensures reply { result ≢ 2 → IfSome cache.old.at.held (λ held.
        ⟦<ByteTypes as StateView<Key, Bytes>>⟧.replies_with held.cache
        (ContainsKey key.now now) (Contains (result == 0))) }
    ensures stands { result ≢ 2 → IfSome cache.old.at.held (λ held.
        ⟦<ByteTypes as StateView<Key, Bytes>>⟧.follows held.cache
        (ContainsKey key.now now) held.cache) }
    ensures number { IfSome cache.old.at.held (λ _. result ≤ 2) }
    ensures found { OnOpen KeepsFound cache.old.at.held cache.new.at.held }
{
    let Some(mut open) = cache.take(alloc) else {
        return code::CLOSED;
    };
    let number = open.contains_key(key, now);
    cache.put(open);
    number
}

/// Removes the entry of `key`, like `State::invalidate`.
#[unsafe(no_mangle)]
pub extern "C" fn moka_c_bytes_invalidate(
    alloc: Global,
    cache: &mut ByteCache,
    key: &[u8],
    now: u64,
) -> u32
    ensures closed { RefusesClosed cache.old.at.held cache.new.at.held result }
    ensures refused { result ≢ 0 → OnOpen (λ before after. after.cache ≡ before.cache)
        cache.old.at.held cache.new.at.held }
    ensures stands { result ≡ 0 → OnOpen (λ before after.
        ⟦<ByteTypes as StateView<Key, Bytes>>⟧.follows before.cache
        (Invalidate key.now now) after.cache)
        cache.old.at.held cache.new.at.held }
    ensures cause { result ≢ 0 → IfSome cache.old.at.held (λ _. result ≡ 2) }
    ensures settings { OnOpen (λ before after.
        after.cache.settings ≡ before.cache.settings) cache.old.at.held cache.new.at.held }
    ensures found { OnOpen KeepsFound cache.old.at.held cache.new.at.held }
{
    let Some(mut open) = cache.take(alloc) else {
        return code::CLOSED;
    };
    let number = open.invalidate(key, now);
    cache.put(open);
    number
}

/// Marks every entry as invalidated, like `State::invalidate_all`.
#[unsafe(no_mangle)]
pub extern "C" fn moka_c_bytes_invalidate_all(alloc: Global, cache: &mut ByteCache) -> u32
    ensures closed { RefusesClosed cache.old.at.held cache.new.at.held result }
    ensures done { IsDoneOnOpen cache.old.at.held result }
    ensures stands { OnOpen (λ before after.
        ⟦<ByteTypes as StateView<Key, Bytes>>⟧.follows before.cache InvalidateAll after.cache)
        cache.old.at.held cache.new.at.held }
    ensures settings { OnOpen (λ before after.
        after.cache.settings ≡ before.cache.settings) cache.old.at.held cache.new.at.held }
    ensures found { OnOpen KeepsFound cache.old.at.held cache.new.at.held }
{
    let Some(mut open) = cache.take(alloc) else {
        return code::CLOSED;
    };
    open.cache.invalidate_all();
    cache.put(open);
    code::DONE
}

/// Runs a maintenance, like `State::run_pending_tasks`.
#[unsafe(no_mangle)]
pub extern "C" fn moka_c_bytes_run_pending_tasks(
    alloc: Global,
    cache: &mut ByteCache,
    now: u64,
) -> u32
    ensures closed { RefusesClosed cache.old.at.held cache.new.at.held result }
    ensures done { IsDoneOnOpen cache.old.at.held result }
    ensures stands { OnOpen (λ before after.
        ⟦<ByteTypes as StateView<Key, Bytes>>⟧.follows before.cache
        (RunPendingTasks now) after.cache) cache.old.at.held cache.new.at.held }
    ensures none_waits { IfSome cache.new.at.held (λ held.
        held.cache.books.orders.waiting ≡ []) }
    ensures all_live { OnOpen (λ before after.
        ⟦<ByteTypes as StateView<Key, Bytes>>⟧.at_each_history before.cache (λ settings steps.
        AllByRecursion
        (λ w. is_live settings w (latest (Maintained None now ∷ events_in steps)) ≡ true)
        (all_writes after.cache))) cache.old.at.held cache.new.at.held }
    ensures within { IfSome cache.new.at.held (λ held.
        IfSome held.cache.settings.max_capacity (λ capacity.
        total (λ w. w.policy_weight) (all_writes held.cache) ≤ capacity)) }
    ensures count { OnOpen (λ before after.
        ⟦<ByteTypes as StateView<Key, Bytes>>⟧.at_each_history before.cache (λ _ _.
        after.cache.settings.behaviour.weigher ≡ None →
        IfSome after.cache.settings.max_capacity (λ capacity.
        length (all_writes after.cache) ≤ capacity))) cache.old.at.held cache.new.at.held }
    ensures settings { OnOpen (λ before after.
        after.cache.settings ≡ before.cache.settings) cache.old.at.held cache.new.at.held }
    ensures found { OnOpen KeepsFound cache.old.at.held cache.new.at.held }
{
    let Some(mut open) = cache.take(alloc) else {
        return code::CLOSED;
    };
    open.cache.run_pending_tasks(now);
    cache.put(open);
    code::DONE
}

/// Runs a maintenance that evicts at most `limit` entries, like `State::run_pending_tasks_up_to`.
/// Stores in `is_left` whether a part is left to do.
#[unsafe(no_mangle)]
pub extern "C" fn moka_c_bytes_run_pending_tasks_up_to(
    alloc: Global,
    cache: &mut ByteCache,
    limit: u64,
    now: u64,
    is_left: &mut bool,
) -> u32
    ensures closed { RefusesClosed cache.old.at.held cache.new.at.held result }
    ensures done { IsDoneOnOpen cache.old.at.held result }
    ensures reply { IfSome cache.old.at.held (λ before.
        ⟦<ByteTypes as StateView<Key, Bytes>>⟧.replies_with before.cache
        (RunPendingTasksUpTo limit now) (Left is_left.new)) }
    ensures stands { OnOpen (λ before after.
        ⟦<ByteTypes as StateView<Key, Bytes>>⟧.follows before.cache
        (RunPendingTasksUpTo limit now) after.cache)
        cache.old.at.held cache.new.at.held }
    ensures fewer { OnOpen (λ before after.
        length (all_writes before.cache) ≤ length (all_writes after.cache) + limit)
        cache.old.at.held cache.new.at.held }
    ensures noticed { OnOpen (λ before after.
        length after.cache.books.notices ≤ length before.cache.books.notices + limit)
        cache.old.at.held cache.new.at.held }
    ensures whole { is_left.new ≡ false → OnOpen (λ before after.
        ⟦<ByteTypes as StateView<Key, Bytes>>⟧.follows before.cache
        (RunPendingTasks now) after.cache) cache.old.at.held cache.new.at.held }
    ensures none_waits { is_left.new ≡ false → IfSome cache.new.at.held (λ held.
        held.cache.books.orders.waiting ≡ []) }
    ensures all_live { is_left.new ≡ false → OnOpen (λ before after.
        ⟦<ByteTypes as StateView<Key, Bytes>>⟧.at_each_history before.cache (λ settings steps.
        AllByRecursion
        (λ w. is_live settings w (latest (Maintained None now ∷ events_in steps)) ≡ true)
        (all_writes after.cache))) cache.old.at.held cache.new.at.held }
    ensures within { is_left.new ≡ false → IfSome cache.new.at.held (λ held.
        IfSome held.cache.settings.max_capacity (λ capacity.
        total (λ w. w.policy_weight) (all_writes held.cache) ≤ capacity)) }
    ensures count { is_left.new ≡ false → OnOpen (λ before after.
        ⟦<ByteTypes as StateView<Key, Bytes>>⟧.at_each_history before.cache (λ _ _.
        after.cache.settings.behaviour.weigher ≡ None →
        IfSome after.cache.settings.max_capacity (λ capacity.
        length (all_writes after.cache) ≤ capacity))) cache.old.at.held cache.new.at.held }
    ensures settings { OnOpen (λ before after.
        after.cache.settings ≡ before.cache.settings) cache.old.at.held cache.new.at.held }
    ensures found { OnOpen KeepsFound cache.old.at.held cache.new.at.held }
    ensures kept { result ≢ 0 → is_left.new ≡ is_left.old }
{
    let Some(mut open) = cache.take(alloc) else {
        return code::CLOSED;
    };
    *is_left = open.cache.run_pending_tasks_up_to(limit, now);
    cache.put(open);
    code::DONE
}

/// Stores in `count` the number of stored entries, like `State::entry_count`.
#[unsafe(no_mangle)]
pub extern "C" fn moka_c_bytes_entry_count(
    alloc: Global,
    cache: &mut ByteCache,
    count: &mut u64,
) -> u32
    ensures closed { RefusesClosed cache.old.at.held cache.new.at.held result }
    ensures done { IsDoneOnOpen cache.old.at.held result }
    ensures same { cache.new.at.held ≡ cache.old.at.held }
    ensures counted { IfSome cache.old.at.held (λ held.
        count.new ≡ length (all_writes held.cache)) }
    ensures reply { IfSome cache.old.at.held (λ held.
        ⟦<ByteTypes as StateView<Key, Bytes>>⟧.replies_with held.cache EntryCount
        (Counted count.new)) }
    ensures stands { IfSome cache.old.at.held (λ held.
        ⟦<ByteTypes as StateView<Key, Bytes>>⟧.follows held.cache EntryCount held.cache) }
    ensures bounded { IfSome cache.old.at.held (λ held.
        ⟦<ByteTypes as StateView<Key, Bytes>>⟧.at_each_history held.cache (λ _ _.
        held.cache.settings.behaviour.weigher ≡ None →
        IfSome held.cache.settings.max_capacity (λ capacity.
        count.new ≤ capacity + flush_point))) }
    ensures kept { result ≢ 0 → count.new ≡ count.old }
{
    let Some(open) = cache.take(alloc) else {
        return code::CLOSED;
    };
    *count = open.cache.entry_count();
    cache.put(open);
    code::DONE
}

/// Stores in `weight` the total weight of the stored entries, like `State::weighted_size`.
#[unsafe(no_mangle)]
pub extern "C" fn moka_c_bytes_weighted_size(
    alloc: Global,
    cache: &mut ByteCache,
    weight: &mut u64,
) -> u32
    ensures closed { RefusesClosed cache.old.at.held cache.new.at.held result }
    ensures done { IsDoneOnOpen cache.old.at.held result }
    ensures same { cache.new.at.held ≡ cache.old.at.held }
    ensures counted { IfSome cache.old.at.held (λ held. weight.new
        ≡ min (total (λ w. w.policy_weight) (all_writes held.cache)) greatest_number) }
    ensures reply { IfSome cache.old.at.held (λ held.
        ⟦<ByteTypes as StateView<Key, Bytes>>⟧.replies_with held.cache WeightedSize
        (Counted weight.new)) }
    ensures stands { IfSome cache.old.at.held (λ held.
        ⟦<ByteTypes as StateView<Key, Bytes>>⟧.follows held.cache WeightedSize held.cache) }
    ensures kept { result ≢ 0 → weight.new ≡ weight.old }
{
    let Some(open) = cache.take(alloc) else {
        return code::CLOSED;
    };
    *weight = open.cache.weighted_size();
    cache.put(open);
    code::DONE
}

/// Removes the oldest notice, like `State::take_notice`. Stores its cause in `notice`, and how long
/// its key and its value are. `moka_c_bytes_copy_key` and `moka_c_bytes_copy_value` have them next.
#[unsafe(no_mangle)]
pub extern "C" fn moka_c_bytes_take_notice(
    alloc: Global,
    cache: &mut ByteCache,
    notice: &mut BytesNotice,
) -> u32
    ensures closed { RefusesClosed cache.old.at.held cache.new.at.held result }
    ensures reply { OnOpen (λ before after. IsSomeAnd
        (bytes_noticed result notice.new.cause (option_map arc_value after.key) after.value)
        (λ noticed. ⟦<ByteTypes as StateView<Key, Bytes>>⟧.replies_with before.cache TakeNotice
        (Noticed noticed))) cache.old.at.held cache.new.at.held }
    ensures none { IfSome cache.old.at.held (λ before.
        (result ≡ 1) ↔ (before.cache.books.notices ≡ [])) }
    ensures fewer { result ≡ 0 → OnOpen (λ before after.
        length before.cache.books.notices ≡ length after.cache.books.notices + 1)
        cache.old.at.held cache.new.at.held }
    ensures lengths { result ≡ 0 → IfSome cache.new.at.held (λ after.
        HasLengths notice.new (option_map arc_value after.key) after.value) }
    ensures kept { result ≢ 0 → notice.new ≡ notice.old }
    ensures stands { OnOpen (λ before after.
        ⟦<ByteTypes as StateView<Key, Bytes>>⟧.follows before.cache TakeNotice after.cache)
        cache.old.at.held cache.new.at.held }
    ensures settings { OnOpen (λ before after.
        after.cache.settings ≡ before.cache.settings) cache.old.at.held cache.new.at.held }
{
    let Some(mut open) = cache.take(alloc) else {
        return code::CLOSED;
    };
    let number = open.take_notice(notice);
    cache.put(open);
    number
}

/// Copies to `out` the key of the notice that was taken last. Stores its length in `len`.
#[unsafe(no_mangle)]
pub extern "C" fn moka_c_bytes_copy_key(
    alloc: Global,
    cache: &mut ByteCache,
    out: &mut [u8],
    len: &mut usize,
) -> u32
    ensures closed { RefusesClosed cache.old.at.held cache.new.at.held result }
    ensures same { cache.new.at.held ≡ cache.old.at.held }
    ensures copied { IfSome cache.old.at.held (λ held.
        CopiesFound (option_map arc_value held.key) result len.old len.new out.old out.new) }
    ensures untouched { result ≡ 4 → (out.new ≡ out.old) × (len.new ≡ len.old) }
{
    let Some(open) = cache.take(alloc) else {
        return code::CLOSED;
    };
    let number = open.copy_key(out, len);
    cache.put(open);
    number
}

/// Copies to `out` the value that the last call found and had no room for, or that of the notice
/// that was taken last. Stores its length in `len`.
#[unsafe(no_mangle)]
pub extern "C" fn moka_c_bytes_copy_value(
    alloc: Global,
    cache: &mut ByteCache,
    out: &mut [u8],
    len: &mut usize,
) -> u32
    ensures closed { RefusesClosed cache.old.at.held cache.new.at.held result }
    ensures same { cache.new.at.held ≡ cache.old.at.held }
    ensures copied { IfSome cache.old.at.held (λ held.
        CopiesFound held.value result len.old len.new out.old out.new) }
    ensures untouched { result ≡ 4 → (out.new ≡ out.old) × (len.new ≡ len.old) }
{
    let Some(open) = cache.take(alloc) else {
        return code::CLOSED;
    };
    let number = open.copy_value(out, len);
    cache.put(open);
    number
}
