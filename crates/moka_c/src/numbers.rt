//! A cache of numbers, whose calls return the numbers of `code`.
ghost use Rattle.std.specs.Prelude.{◌≡◌, ◌≢◌, ◌==◌, ◌≤◌, ◌+◌, ◌↔◌, false, [], length, IfOk, IfErr, IsSomeAnd, OnOk};
ghost use Rattle.moka_model.specs.Calls.{Get, ContainsKey, Insert, Remove, TakeNotice, Contains, Noticed};
ghost use Rattle.moka_state.specs.Ends.{ReadsLive};
ghost use Rattle.moka_state.specs.Write.{WriteEnds};
ghost use Rattle.moka_c.specs.Codes.{read_of, written_of};
ghost use Rattle.moka_c.specs.Notices.{number_noticed};
ghost use Rattle.moka_c.specs.Settings.{HasSettings, refused_of};

use crate::code;
use crate::notices::{NumberNotice, number_of};
use crate::settings::CacheSettings;
use moka_presets::ready::{FoldState, Plain};
use moka_state::call_view::CallView;
use moka_state::state::{CacheState, Settings};
use moka_state::view::StateView;
use std::alloc::Global;
use std::sync::Arc;

/// A cache of numbers.
#[derive(Drop)]
pub struct Numbers {
    pub(crate) cache: CacheState<u64, u64, Plain>,
}

impl Numbers {
    /// Creates an empty cache with these settings. Returns the number of the error if it fails.
    pub(crate) fn new(alloc: Global, settings: &CacheSettings) -> Result<Numbers, u32>
        ensures settings { IfOk result (λ numbers. HasSettings settings.now numbers.cache) }
        ensures empty { IfOk result (λ numbers. ⟦<Plain as StateView<u64, u64>>⟧.stands_for
            (⟦<Plain as StateView<u64, u64>>⟧.settings numbers.cache.settings) numbers.cache []) }
        ensures usable { OnOk result (refused_of settings.now false ≡ 2) }
        ensures cause { IfErr result (λ number. number ≡ refused_of settings.now false) }
    {
        settings.ensure_usable(false)?;
        let Ok(hasher) = Arc::new(alloc, FoldState::default()) else {
            return Err(code::OUT_OF_MEMORY);
        };
        let settings = Settings {
            name: None,
            time_to_live: settings.time_to_live.duration(),
            time_to_idle: settings.time_to_idle.duration(),
            max_capacity: settings.max_capacity.get(),
            initial_capacity: settings.initial_capacity,
            eviction_policy: settings.eviction_policy(),
            weigher: None,
            expiry: None,
            closures: false,
            flush_limit: settings.flush_limit.get(),
            first_number: settings.first_number,
            hasher,
        };
        match CacheState::new(alloc, settings) {
            Ok(cache) => Ok(Numbers { cache }),
            Err(_) => Err(code::OUT_OF_MEMORY),
        }
    }

    /// Looks `key` up, and stores its live value in `value`.
    pub(crate) fn get(&mut self, key: u64, now: u64, value: &mut u64) -> u32
        ensures ends { IsSomeAnd (read_of result value.new) (λ found.
            ReadsLive ⟦<Plain as CallView<u64, u64>>⟧.spec Get key now
            self.old.cache self.new.cache found) }
        ensures settings { self.new.cache.settings ≡ self.old.cache.settings }
        ensures kept { result ≢ 0 → value.new ≡ value.old }
    {
        match self.cache.get(&key, now) {
            Ok(Some(found)) => {
                *value = found;
                code::DONE
            }
            Ok(None) => code::ABSENT,
            Err(_) => code::OUT_OF_MEMORY,
        }
    }

    /// Removes the entry of `key`, and stores its live value in `value`.
    pub(crate) fn remove(&mut self, key: u64, now: u64, value: &mut u64) -> u32
        ensures ends { IsSomeAnd (read_of result value.new) (λ found.
            ReadsLive ⟦<Plain as CallView<u64, u64>>⟧.spec Remove key now
            self.old.cache self.new.cache found) }
        ensures settings { self.new.cache.settings ≡ self.old.cache.settings }
        ensures kept { result ≢ 0 → value.new ≡ value.old }
    {
        match self.cache.remove(&key, now) {
            Ok(Some(found)) => {
                *value = found;
                code::DONE
            }
            Ok(None) => code::ABSENT,
            Err(_) => code::OUT_OF_MEMORY,
        }
    }

    /// Stores `value` under `key`.
    pub(crate) fn insert(&mut self, key: u64, value: u64, now: u64) -> u32
        ensures ends { IsSomeAnd (written_of result key value) (λ ended.
            WriteEnds (⟦<Plain as StateView<u64, u64>>⟧.follows
            self.old.cache (Insert key value now) self.new.cache)
            self.old.cache self.new.cache key value ended) }
        ensures settings { self.new.cache.settings ≡ self.old.cache.settings }
    {
        match self.cache.insert(key, value, now) {
            Ok(()) => code::DONE,
            Err(refused) => code::of_refused(refused.cause),
        }
    }

    /// Checks whether `key` has a live value.
    pub(crate) fn contains_key(&self, key: u64, now: u64) -> u32
        ensures reply { ⟦<Plain as StateView<u64, u64>>⟧.replies_with self.now.cache
            (ContainsKey key now) (Contains (result == 0)) }
        ensures number { result ≤ 1 }
        ensures stands { ⟦<Plain as StateView<u64, u64>>⟧.follows self.now.cache
            (ContainsKey key now) self.now.cache }
    {
        if self.cache.contains_key(&key, now) {
            code::DONE
        } else {
            code::ABSENT
        }
    }

    /// Removes the oldest notice, and stores it in `notice`.
    pub(crate) fn take_notice(&mut self, notice: &mut NumberNotice) -> u32
        ensures reply { IsSomeAnd (number_noticed result notice.new) (λ noticed.
            ⟦<Plain as StateView<u64, u64>>⟧.replies_with self.old.cache TakeNotice
            (Noticed noticed)) }
        ensures none { (result ≡ 1) ↔ (self.old.cache.books.notices ≡ []) }
        ensures fewer { result ≡ 0 → length self.old.cache.books.notices
            ≡ length self.new.cache.books.notices + 1 }
        ensures settings { self.new.cache.settings ≡ self.old.cache.settings }
        ensures stands { ⟦<Plain as StateView<u64, u64>>⟧.follows self.old.cache TakeNotice
            self.new.cache }
        ensures kept { result ≢ 0 → notice.new ≡ notice.old }
    {
        match self.cache.take_notice() {
            Some(taken) => {
                *notice = NumberNotice {
                    key: *taken.key,
                    value: taken.value,
                    cause: number_of(taken.cause),
                };
                code::DONE
            }
            None => code::ABSENT,
        }
    }
}
