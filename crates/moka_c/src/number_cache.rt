//! The calls of a cache of numbers, for C. Each moment is handed in, in nanoseconds.
//!
//! Each call returns a number of `code`. A closed handle is refused with `CLOSED`.
ghost use Rattle.std.specs.Prelude.{◌≡◌, ◌≢◌, ◌==◌, ◌≤◌, ◌+◌, ◌↔◌, ◌∷◌, None, Some, IsNone, IsSome, IfSome, IsSomeAnd, is_some, option_map, true, false, [], length, min};
ghost use Rattle.std.specs.List.{AllByRecursion};
ghost use Rattle.moka_model.specs.Lives.{is_live};
ghost use Rattle.moka_model.specs.Events.{Maintained, latest};
ghost use Rattle.moka_model.specs.Maintenance.{total};
ghost use Rattle.moka_model.specs.Numbers.{greatest_number, flush_point};
ghost use Rattle.moka_model.specs.Steps.{events_in};
ghost use Rattle.moka_model.specs.Calls.{Get, ContainsKey, Insert, Invalidate, Remove, InvalidateAll, RunPendingTasks, RunPendingTasksUpTo, EntryCount, WeightedSize, TakeNotice, Contains, Counted, Left, Noticed};
ghost use Rattle.moka_state.specs.State.{all_writes};
ghost use Rattle.moka_state.specs.Ends.{ReadsLive};
ghost use Rattle.moka_state.specs.Write.{WriteEnds};
ghost use Rattle.moka_c.specs.Codes.{read_of, written_of};
ghost use Rattle.moka_c.specs.Handles.{OnOpen, RefusesClosed, IsDoneOnOpen};
ghost use Rattle.moka_c.specs.Notices.{number_noticed};
ghost use Rattle.moka_c.specs.Settings.{HasSettings, refused_of};

use crate::code;
use crate::held_numbers::HeldNumbers;
use crate::notices::NumberNotice;
use crate::numbers::Numbers;
use crate::parts::Parts;
use crate::settings::CacheSettings;
use moka_presets::ready::Plain;
use moka_state::call_view::CallView;
use moka_state::view::StateView;
use std::alloc::Global;
use std::{mem, ptr};

/// A handle of a cache of numbers. All zeros is one that is closed.
///
/// C keeps it where it is opened, and changes none of its fields.
#[repr(C)]
#[derive(Drop)]
pub struct NumberCache {
    is_open: bool,
    at: HeldNumbers,
    ghost fits: { is_open ≡ is_some at.held },
}

impl NumberCache {
    // Returns a closed handle.
    fn closed(alloc: Global) -> NumberCache
        ensures { result.at.held ≡ None }
    {
        let nowhere = ptr::null_mut();
        let at = HeldNumbers::empty(nowhere, alloc);
        NumberCache { is_open: false, at }
    }

    // Returns the cache of the handle.
    fn into_cache(self) -> Option<Box<Numbers>>
        ensures { option_map (λ cache. cache.value) result ≡ self.at.held }
    {
        let NumberCache { is_open, at } = self;
        if is_open {
            Some(at.into_parts().into_box())
        } else {
            None
        }
    }

    // Takes the cache out of the handle, which is closed then.
    fn take(&mut self, alloc: Global) -> Option<Box<Numbers>>
        ensures taken { option_map (λ cache. cache.value) result ≡ self.old.at.held }
        ensures none { self.new.at.held ≡ None }
    {
        mem::replace(self, NumberCache::closed(alloc)).into_cache()
    }

    // Puts a cache into the handle, which is open then.
    fn put(&mut self, cache: Box<Numbers>)
        ensures { self.new.at.held ≡ Some cache.value }
    {
        *self = NumberCache {
            is_open: true,
            at: HeldNumbers::of_parts(Parts::of(cache)),
        };
    }
}

/// Opens a handle: creates an empty cache with these settings. The handle must be closed.
#[unsafe(no_mangle)]
pub extern "C" fn moka_c_numbers_open(
    alloc: Global,
    cache: &mut NumberCache,
    settings: &CacheSettings,
) -> u32
    ensures already { IsSome cache.old.at.held → result ≡ 5 }
    ensures kept { result ≢ 0 → cache.new.at.held ≡ cache.old.at.held }
    ensures cause { IsNone cache.old.at.held → result ≢ 0 →
        result ≡ refused_of settings.now false }
    ensures settings { result ≡ 0 → IfSome cache.new.at.held (λ numbers.
        HasSettings settings.now numbers.cache) }
    ensures empty { result ≡ 0 → IfSome cache.new.at.held (λ numbers.
        ⟦<Plain as StateView<u64, u64>>⟧.stands_for
        (⟦<Plain as StateView<u64, u64>>⟧.settings numbers.cache.settings) numbers.cache []) }
{
    if cache.is_open {
        return code::OPEN_ALREADY;
    }
    let numbers = match Numbers::new(alloc, settings) {
        Ok(numbers) => numbers,
        Err(number) => return number,
    };
    match Box::new(alloc, numbers) {
        Ok(numbers) => {
            cache.put(numbers);
            code::DONE
        }
        Err(_) => code::OUT_OF_MEMORY,
    }
}

/// Closes a handle, and frees its cache.
#[unsafe(no_mangle)]
pub extern "C" fn moka_c_numbers_close(alloc: Global, cache: &mut NumberCache) -> u32
    ensures closed { RefusesClosed cache.old.at.held cache.new.at.held result }
    ensures done { IsDoneOnOpen cache.old.at.held result }
    ensures none { cache.new.at.held ≡ None }
{
    match cache.take(alloc) {
        Some(open) => {
            drop(open);
            code::DONE
        }
        None => code::CLOSED,
    }
}

/// Looks `key` up, like `State::get`, and stores its live value in `value`.
#[unsafe(no_mangle)]
pub extern "C" fn moka_c_numbers_get(
    alloc: Global,
    cache: &mut NumberCache,
    key: u64,
    now: u64,
    value: &mut u64,
) -> u32
    ensures closed { RefusesClosed cache.old.at.held cache.new.at.held result }
    ensures ends { OnOpen (λ before after. IsSomeAnd (read_of result value.new) (λ found.
        ReadsLive ⟦<Plain as CallView<u64, u64>>⟧.spec Get key now
        before.cache after.cache found)) cache.old.at.held cache.new.at.held }
    ensures settings { OnOpen (λ before after.
        after.cache.settings ≡ before.cache.settings) cache.old.at.held cache.new.at.held }
    ensures kept { result ≢ 0 → value.new ≡ value.old }
{
    let Some(mut open) = cache.take(alloc) else {
        return code::CLOSED;
    };
    let number = open.get(key, now, value);
    cache.put(open);
    number
}

/// Removes the entry of `key`, like `State::remove`, and stores its live value in `value`.
#[unsafe(no_mangle)]
pub extern "C" fn moka_c_numbers_remove(
    alloc: Global,
    cache: &mut NumberCache,
    key: u64,
    now: u64,
    value: &mut u64,
) -> u32
    ensures closed { RefusesClosed cache.old.at.held cache.new.at.held result }
    ensures ends { OnOpen (λ before after. IsSomeAnd (read_of result value.new) (λ found.
        ReadsLive ⟦<Plain as CallView<u64, u64>>⟧.spec Remove key now
        before.cache after.cache found)) cache.old.at.held cache.new.at.held }
    ensures settings { OnOpen (λ before after.
        after.cache.settings ≡ before.cache.settings) cache.old.at.held cache.new.at.held }
    ensures kept { result ≢ 0 → value.new ≡ value.old }
{
    let Some(mut open) = cache.take(alloc) else {
        return code::CLOSED;
    };
    let number = open.remove(key, now, value);
    cache.put(open);
    number
}

/// Stores `value` under `key`, like `State::insert`.
#[unsafe(no_mangle)]
pub extern "C" fn moka_c_numbers_insert(
    alloc: Global,
    cache: &mut NumberCache,
    key: u64,
    value: u64,
    now: u64,
) -> u32
    ensures closed { RefusesClosed cache.old.at.held cache.new.at.held result }
    ensures ends { OnOpen (λ before after. IsSomeAnd (written_of result key value) (λ ended.
        WriteEnds (⟦<Plain as StateView<u64, u64>>⟧.follows
        before.cache (Insert key value now) after.cache)
        before.cache after.cache key value ended)) cache.old.at.held cache.new.at.held }
    ensures settings { OnOpen (λ before after.
        after.cache.settings ≡ before.cache.settings) cache.old.at.held cache.new.at.held }
{
    let Some(mut open) = cache.take(alloc) else {
        return code::CLOSED;
    };
    let number = open.insert(key, value, now);
    cache.put(open);
    number
}

/// Returns `DONE` if `key` has a live value, and else `ABSENT`, like `State::contains_key`.
#[unsafe(no_mangle)]
pub extern "C" fn moka_c_numbers_contains_key(
    alloc: Global,
    cache: &mut NumberCache,
    key: u64,
    now: u64,
) -> u32
    ensures closed { RefusesClosed cache.old.at.held cache.new.at.held result }
    ensures same { cache.new.at.held ≡ cache.old.at.held }
    ensures reply { IfSome cache.old.at.held (λ held.
        ⟦<Plain as StateView<u64, u64>>⟧.replies_with held.cache
        (ContainsKey key now) (Contains (result == 0))) }
    ensures number { IfSome cache.old.at.held (λ _. result ≤ 1) }
    ensures stands { IfSome cache.old.at.held (λ held.
        ⟦<Plain as StateView<u64, u64>>⟧.follows held.cache (ContainsKey key now) held.cache) }
{
    let Some(open) = cache.take(alloc) else {
        return code::CLOSED;
    };
    let number = open.contains_key(key, now);
    cache.put(open);
    number
}

/// Removes the entry of `key`, like `State::invalidate`.
#[unsafe(no_mangle)]
pub extern "C" fn moka_c_numbers_invalidate(
    alloc: Global,
    cache: &mut NumberCache,
    key: u64,
    now: u64,
) -> u32
    ensures closed { RefusesClosed cache.old.at.held cache.new.at.held result }
    ensures done { IsDoneOnOpen cache.old.at.held result }
    ensures stands { OnOpen (λ before after.
        ⟦<Plain as StateView<u64, u64>>⟧.follows before.cache (Invalidate key now) after.cache)
        cache.old.at.held cache.new.at.held }
    ensures settings { OnOpen (λ before after.
        after.cache.settings ≡ before.cache.settings) cache.old.at.held cache.new.at.held }
{
    let Some(mut open) = cache.take(alloc) else {
        return code::CLOSED;
    };
    open.cache.invalidate(&key, now);
    cache.put(open);
    code::DONE
}

/// Marks every entry as invalidated, like `State::invalidate_all`.
#[unsafe(no_mangle)]
pub extern "C" fn moka_c_numbers_invalidate_all(alloc: Global, cache: &mut NumberCache) -> u32
    ensures closed { RefusesClosed cache.old.at.held cache.new.at.held result }
    ensures done { IsDoneOnOpen cache.old.at.held result }
    ensures stands { OnOpen (λ before after.
        ⟦<Plain as StateView<u64, u64>>⟧.follows before.cache InvalidateAll after.cache)
        cache.old.at.held cache.new.at.held }
    ensures settings { OnOpen (λ before after.
        after.cache.settings ≡ before.cache.settings) cache.old.at.held cache.new.at.held }
{
    let Some(mut open) = cache.take(alloc) else {
        return code::CLOSED;
    };
    open.cache.invalidate_all();
    cache.put(open);
    code::DONE
}

/// Runs a maintenance, like `State::run_pending_tasks`.
#[unsafe(no_mangle)]
pub extern "C" fn moka_c_numbers_run_pending_tasks(
    alloc: Global,
    cache: &mut NumberCache,
    now: u64,
) -> u32
    ensures closed { RefusesClosed cache.old.at.held cache.new.at.held result }
    ensures done { IsDoneOnOpen cache.old.at.held result }
    ensures stands { OnOpen (λ before after.
        ⟦<Plain as StateView<u64, u64>>⟧.follows before.cache
        (RunPendingTasks now) after.cache) cache.old.at.held cache.new.at.held }
    ensures none_waits { IfSome cache.new.at.held (λ held.
        held.cache.books.orders.waiting ≡ []) }
    ensures all_live { OnOpen (λ before after.
        ⟦<Plain as StateView<u64, u64>>⟧.at_each_history before.cache (λ settings steps.
        AllByRecursion
        (λ w. is_live settings w (latest (Maintained None now ∷ events_in steps)) ≡ true)
        (all_writes after.cache))) cache.old.at.held cache.new.at.held }
    ensures within { IfSome cache.new.at.held (λ held.
        IfSome held.cache.settings.max_capacity (λ capacity.
        total (λ w. w.policy_weight) (all_writes held.cache) ≤ capacity)) }
    ensures count { OnOpen (λ before after.
        ⟦<Plain as StateView<u64, u64>>⟧.at_each_history before.cache (λ _ _.
        after.cache.settings.behaviour.weigher ≡ None →
        IfSome after.cache.settings.max_capacity (λ capacity.
        length (all_writes after.cache) ≤ capacity))) cache.old.at.held cache.new.at.held }
    ensures settings { OnOpen (λ before after.
        after.cache.settings ≡ before.cache.settings) cache.old.at.held cache.new.at.held }
{
    let Some(mut open) = cache.take(alloc) else {
        return code::CLOSED;
    };
    open.cache.run_pending_tasks(now);
    cache.put(open);
    code::DONE
}

/// Runs a maintenance that evicts at most `limit` entries, like `State::run_pending_tasks_up_to`.
/// Stores in `is_left` whether a part is left to do.
#[unsafe(no_mangle)]
pub extern "C" fn moka_c_numbers_run_pending_tasks_up_to(
    alloc: Global,
    cache: &mut NumberCache,
    limit: u64,
    now: u64,
    is_left: &mut bool,
) -> u32
    ensures closed { RefusesClosed cache.old.at.held cache.new.at.held result }
    ensures done { IsDoneOnOpen cache.old.at.held result }
    ensures reply { IfSome cache.old.at.held (λ before.
        ⟦<Plain as StateView<u64, u64>>⟧.replies_with before.cache
        (RunPendingTasksUpTo limit now) (Left is_left.new)) }
    ensures stands { OnOpen (λ before after.
        ⟦<Plain as StateView<u64, u64>>⟧.follows before.cache
        (RunPendingTasksUpTo limit now) after.cache)
        cache.old.at.held cache.new.at.held }
    ensures fewer { OnOpen (λ before after.
        length (all_writes before.cache) ≤ length (all_writes after.cache) + limit)
        cache.old.at.held cache.new.at.held }
    ensures noticed { OnOpen (λ before after.
        length after.cache.books.notices ≤ length before.cache.books.notices + limit)
        cache.old.at.held cache.new.at.held }
    ensures whole { is_left.new ≡ false → OnOpen (λ before after.
        ⟦<Plain as StateView<u64, u64>>⟧.follows before.cache
        (RunPendingTasks now) after.cache) cache.old.at.held cache.new.at.held }
    ensures none_waits { is_left.new ≡ false → IfSome cache.new.at.held (λ held.
        held.cache.books.orders.waiting ≡ []) }
    ensures all_live { is_left.new ≡ false → OnOpen (λ before after.
        ⟦<Plain as StateView<u64, u64>>⟧.at_each_history before.cache (λ settings steps.
        AllByRecursion
        (λ w. is_live settings w (latest (Maintained None now ∷ events_in steps)) ≡ true)
        (all_writes after.cache))) cache.old.at.held cache.new.at.held }
    ensures within { is_left.new ≡ false → IfSome cache.new.at.held (λ held.
        IfSome held.cache.settings.max_capacity (λ capacity.
        total (λ w. w.policy_weight) (all_writes held.cache) ≤ capacity)) }
    ensures count { is_left.new ≡ false → OnOpen (λ before after.
        ⟦<Plain as StateView<u64, u64>>⟧.at_each_history before.cache (λ _ _.
        after.cache.settings.behaviour.weigher ≡ None →
        IfSome after.cache.settings.max_capacity (λ capacity.
        length (all_writes after.cache) ≤ capacity))) cache.old.at.held cache.new.at.held }
    ensures settings { OnOpen (λ before after.
        after.cache.settings ≡ before.cache.settings) cache.old.at.held cache.new.at.held }
    ensures kept { result ≢ 0 → is_left.new ≡ is_left.old }
{
    let Some(mut open) = cache.take(alloc) else {
        return code::CLOSED;
    };
    *is_left = open.cache.run_pending_tasks_up_to(limit, now);
    cache.put(open);
    code::DONE
}

/// Stores in `count` the number of stored entries, like `State::entry_count`.
#[unsafe(no_mangle)]
pub extern "C" fn moka_c_numbers_entry_count(
    alloc: Global,
    cache: &mut NumberCache,
    count: &mut u64,
) -> u32
    ensures closed { RefusesClosed cache.old.at.held cache.new.at.held result }
    ensures done { IsDoneOnOpen cache.old.at.held result }
    ensures same { cache.new.at.held ≡ cache.old.at.held }
    ensures counted { IfSome cache.old.at.held (λ held.
        count.new ≡ length (all_writes held.cache)) }
    ensures reply { IfSome cache.old.at.held (λ held.
        ⟦<Plain as StateView<u64, u64>>⟧.replies_with held.cache EntryCount
        (Counted count.new)) }
    ensures stands { IfSome cache.old.at.held (λ held.
        ⟦<Plain as StateView<u64, u64>>⟧.follows held.cache EntryCount held.cache) }
    ensures kept { result ≢ 0 → count.new ≡ count.old }
    ensures bounded { IfSome cache.old.at.held (λ held.
        ⟦<Plain as StateView<u64, u64>>⟧.at_each_history held.cache (λ _ _.
        held.cache.settings.behaviour.weigher ≡ None →
        IfSome held.cache.settings.max_capacity (λ capacity.
        count.new ≤ capacity + flush_point))) }
{
    let Some(open) = cache.take(alloc) else {
        return code::CLOSED;
    };
    *count = open.cache.entry_count();
    cache.put(open);
    code::DONE
}

/// Stores in `weight` the total weight of the stored entries, like `State::weighted_size`.
#[unsafe(no_mangle)]
pub extern "C" fn moka_c_numbers_weighted_size(
    alloc: Global,
    cache: &mut NumberCache,
    weight: &mut u64,
) -> u32
    ensures closed { RefusesClosed cache.old.at.held cache.new.at.held result }
    ensures done { IsDoneOnOpen cache.old.at.held result }
    ensures same { cache.new.at.held ≡ cache.old.at.held }
    ensures counted { IfSome cache.old.at.held (λ held. weight.new
        ≡ min (total (λ w. w.policy_weight) (all_writes held.cache)) greatest_number) }
    ensures reply { IfSome cache.old.at.held (λ held.
        ⟦<Plain as StateView<u64, u64>>⟧.replies_with held.cache WeightedSize
        (Counted weight.new)) }
    ensures stands { IfSome cache.old.at.held (λ held.
        ⟦<Plain as StateView<u64, u64>>⟧.follows held.cache WeightedSize held.cache) }
    ensures kept { result ≢ 0 → weight.new ≡ weight.old }
{
    let Some(open) = cache.take(alloc) else {
        return code::CLOSED;
    };
    *weight = open.cache.weighted_size();
    cache.put(open);
    code::DONE
}

/// Removes the oldest notice, like `State::take_notice`, and stores it in `notice`.
#[unsafe(no_mangle)]
pub extern "C" fn moka_c_numbers_take_notice(
    alloc: Global,
    cache: &mut NumberCache,
    notice: &mut NumberNotice,
) -> u32
    ensures closed { RefusesClosed cache.old.at.held cache.new.at.held result }
    ensures reply { IfSome cache.old.at.held (λ before.
        IsSomeAnd (number_noticed result notice.new) (λ noticed.
        ⟦<Plain as StateView<u64, u64>>⟧.replies_with before.cache TakeNotice
        (Noticed noticed))) }
    ensures none { IfSome cache.old.at.held (λ before.
        (result ≡ 1) ↔ (before.cache.books.notices ≡ [])) }
    ensures fewer { result ≡ 0 → OnOpen (λ before after.
        length before.cache.books.notices ≡ length after.cache.books.notices + 1)
        cache.old.at.held cache.new.at.held }
    ensures stands { OnOpen (λ before after.
        ⟦<Plain as StateView<u64, u64>>⟧.follows before.cache TakeNotice after.cache)
        cache.old.at.held cache.new.at.held }
    ensures kept { result ≢ 0 → notice.new ≡ notice.old }
    ensures settings { OnOpen (λ before after.
        after.cache.settings ≡ before.cache.settings) cache.old.at.held cache.new.at.held }
{
    let Some(mut open) = cache.take(alloc) else {
        return code::CLOSED;
    };
    let number = open.take_notice(notice);
    cache.put(open);
    number
}
