//! A cache of byte strings, whose calls return the numbers of `code`.
ghost use Rattle.std.specs.Prelude.{◌≡◌, ◌≢◌, ◌==◌, ◌≤◌, ◌+◌, ◌↔◌, [], None, Some, IsSomeAnd, is_some, option_map, IfOk, IfErr, OnOk, IsErr, length, take};
ghost use Rattle.std.specs.Arc.{arc_value};
ghost use Rattle.moka_model.specs.Calls.{Get, ContainsKey, Insert, Invalidate, Remove, TakeNotice, Contains, Noticed};
ghost use Rattle.moka_state.specs.Ends.{ReadsLive};
ghost use Rattle.moka_state.specs.Write.{WriteEnds};
ghost use Rattle.moka_c.specs.Buffers.{bytes_of, CopiesFound, StoresBytes};
ghost use Rattle.moka_c.specs.Codes.{written_of};
ghost use Rattle.moka_c.specs.Found.{KeepsFound};
ghost use Rattle.moka_c.specs.Notices.{bytes_noticed, HasLengths};
ghost use Rattle.moka_c.specs.Settings.{HasSettings, refused_of};

use crate::buffers::copy_to;
use crate::byte_types::{ByBytes, ByteTypes};
use crate::code;
use crate::key::Key;
use crate::notices::{BytesNotice, number_of};
use crate::settings::CacheSettings;
use bytes::Bytes;
use moka_policy::policy::Refused;
use moka_presets::ready::FoldState;
use moka_state::call_view::CallView;
use moka_state::state::{CacheState, Settings};
use moka_state::view::StateView;
use std::alloc::{AllocError, Global};
use std::sync::Arc;

/// A cache of byte strings.
#[derive(Drop)]
pub struct ByteStrings {
    alloc: Global,
    pub(crate) cache: CacheState<Key, Bytes, ByteTypes>,
    // The key of a call that does not store it.
    asked: Key,
    // What the last call found and had no room for, or the notice that it took.
    pub(crate) key: Option<Arc<Key>>,
    pub(crate) value: Option<Bytes>,
}

impl ByteStrings {
    /// Creates an empty cache with these settings. Returns the number of the error if it fails.
    pub(crate) fn new(alloc: Global, settings: &CacheSettings) -> Result<ByteStrings, u32>
        ensures settings { IfOk result (λ strings. HasSettings settings.now strings.cache) }
        ensures empty { IfOk result (λ strings. ⟦<ByteTypes as StateView<Key, Bytes>>⟧.stands_for
            (⟦<ByteTypes as StateView<Key, Bytes>>⟧.settings strings.cache.settings)
            strings.cache []) }
        ensures usable { OnOk result (refused_of settings.now settings.now.weighs_bytes ≡ 2) }
        ensures cause { IfErr result (λ number.
            number ≡ refused_of settings.now settings.now.weighs_bytes) }
    {
        settings.ensure_usable(settings.weighs_bytes)?;
        let Ok(weigher) = weigher(alloc, settings.weighs_bytes) else {
            return Err(code::OUT_OF_MEMORY);
        };
        let Ok(hasher) = Arc::new(alloc, FoldState::default()) else {
            return Err(code::OUT_OF_MEMORY);
        };
        let settings = Settings {
            name: None,
            time_to_live: settings.time_to_live.duration(),
            time_to_idle: settings.time_to_idle.duration(),
            max_capacity: settings.max_capacity.get(),
            initial_capacity: settings.initial_capacity,
            eviction_policy: settings.eviction_policy(),
            weigher,
            expiry: None,
            closures: false,
            flush_limit: settings.flush_limit.get(),
            first_number: settings.first_number,
            hasher,
        };
        let Ok(cache) = CacheState::new(alloc, settings) else {
            return Err(code::OUT_OF_MEMORY);
        };
        Ok(ByteStrings {
            alloc,
            cache,
            asked: Key::new(alloc),
            key: None,
            value: None,
        })
    }

    /// Looks `key` up, and copies its live value to `out`. Keeps the value if there is no room.
    #[tactic(auto, using(crate::proofs::Stored::stores_nothing))]
    pub(crate) fn get(&mut self, key: &[u8], now: u64, out: &mut [u8], len: &mut usize) -> u32
        ensures refused { result ≡ 2 → self.new.cache ≡ self.old.cache }
        ensures ends { result ≢ 2 → IsSomeAnd
            (bytes_of result (take len.new out.new) self.new.value) (λ found.
            ReadsLive ⟦<ByteTypes as CallView<Key, Bytes>>⟧.spec Get key.now now
            self.old.cache self.new.cache found) }
        ensures buffer { StoresBytes result len.old len.new out.old out.new self.new.value }
        ensures settings { self.new.cache.settings ≡ self.old.cache.settings }
        ensures key { self.new.key ≡ self.old.key }
    {
        self.value = None;
        if self.asked.set(key).is_err() {
            return code::OUT_OF_MEMORY;
        }
        let found = self.cache.get(&self.asked, now);
        self.give(found, out, len)
    }

    /// Removes the entry of `key`, and copies its live value to `out`. Keeps the value if there is
    /// no room.
    #[tactic(auto, using(crate::proofs::Stored::stores_nothing))]
    pub(crate) fn remove(&mut self, key: &[u8], now: u64, out: &mut [u8], len: &mut usize) -> u32
        ensures refused { result ≡ 2 → self.new.cache ≡ self.old.cache }
        ensures ends { result ≢ 2 → IsSomeAnd
            (bytes_of result (take len.new out.new) self.new.value) (λ found.
            ReadsLive ⟦<ByteTypes as CallView<Key, Bytes>>⟧.spec Remove key.now now
            self.old.cache self.new.cache found) }
        ensures buffer { StoresBytes result len.old len.new out.old out.new self.new.value }
        ensures settings { self.new.cache.settings ≡ self.old.cache.settings }
        ensures key { self.new.key ≡ self.old.key }
    {
        self.value = None;
        if self.asked.set(key).is_err() {
            return code::OUT_OF_MEMORY;
        }
        let found = self.cache.remove(&self.asked, now);
        self.give(found, out, len)
    }

    // Copies what a lookup found to `out`, or keeps it if there is no room.
    #[tactic(auto, using(crate::proofs::Stored::stores_nothing, crate::proofs::Stored::stores_copy))]
    fn give(
        &mut self,
        found: Result<Option<Bytes>, Refused>,
        out: &mut [u8],
        len: &mut usize,
    ) -> u32
        requires { IfErr found (λ cause. cause ≡ Refused.OutOfMemory) }
        ensures cache { self.new.cache ≡ self.old.cache }
        ensures given { OnOk found
            (bytes_of result (take len.new out.new) self.new.value ≡ Some found) }
        ensures failed { IsErr found ↔ (result ≡ 2) }
        ensures buffer { StoresBytes result len.old len.new out.old out.new self.new.value }
        ensures key { self.new.key ≡ self.old.key }
    {
        match found {
            Ok(Some(value)) => {
                let number = copy_to(value.as_slice(), out, len);
                if number == code::SHORT_BUFFER {
                    self.value = Some(value);
                }
                number
            }
            Ok(None) => code::ABSENT,
            Err(_) => code::OUT_OF_MEMORY,
        }
    }

    /// Stores `value` under `key`.
    pub(crate) fn insert(&mut self, key: &[u8], value: &[u8], now: u64) -> u32
        ensures refused { result ≡ 2 → self.new.cache ≡ self.old.cache }
        ensures ends { result ≢ 2 → IsSomeAnd (written_of result key.now value.now) (λ ended.
            WriteEnds (⟦<ByteTypes as StateView<Key, Bytes>>⟧.follows
            self.old.cache (Insert key.now value.now now) self.new.cache)
            self.old.cache self.new.cache key.now value.now ended) }
        ensures settings { self.new.cache.settings ≡ self.old.cache.settings }
        ensures kept { KeepsFound self.old self.new }
    {
        let Ok(key) = Key::of(self.alloc, key) else {
            return code::OUT_OF_MEMORY;
        };
        let Ok(value) = Bytes::copy_from_slice(self.alloc, value) else {
            return code::OUT_OF_MEMORY;
        };
        match self.cache.insert(key, value, now) {
            Ok(()) => code::DONE,
            Err(refused) => code::of_refused(refused.cause),
        }
    }

    /// Checks whether `key` has a live value.
    pub(crate) fn contains_key(&mut self, key: &[u8], now: u64) -> u32
        ensures cache { self.new.cache ≡ self.old.cache }
        ensures reply { result ≢ 2 → ⟦<ByteTypes as StateView<Key, Bytes>>⟧.replies_with
            self.old.cache (ContainsKey key.now now) (Contains (result == 0)) }
        ensures stands { result ≢ 2 → ⟦<ByteTypes as StateView<Key, Bytes>>⟧.follows
            self.old.cache (ContainsKey key.now now) self.new.cache }
        ensures number { result ≤ 2 }
        ensures kept { KeepsFound self.old self.new }
    {
        if self.asked.set(key).is_err() {
            return code::OUT_OF_MEMORY;
        }
        if self.cache.contains_key(&self.asked, now) {
            code::DONE
        } else {
            code::ABSENT
        }
    }

    /// Removes the entry of `key`.
    pub(crate) fn invalidate(&mut self, key: &[u8], now: u64) -> u32
        ensures refused { result ≢ 0 → self.new.cache ≡ self.old.cache }
        ensures cause { result ≢ 0 → result ≡ 2 }
        ensures stands { result ≡ 0 → ⟦<ByteTypes as StateView<Key, Bytes>>⟧.follows
            self.old.cache (Invalidate key.now now) self.new.cache }
        ensures settings { self.new.cache.settings ≡ self.old.cache.settings }
        ensures kept { KeepsFound self.old self.new }
    {
        if self.asked.set(key).is_err() {
            return code::OUT_OF_MEMORY;
        }
        self.cache.invalidate(&self.asked, now);
        code::DONE
    }

    /// Removes the oldest notice, and keeps its key and its value. Stores how long they are.
    pub(crate) fn take_notice(&mut self, notice: &mut BytesNotice) -> u32
        ensures reply { IsSomeAnd (bytes_noticed result notice.new.cause
            (option_map arc_value self.new.key) self.new.value) (λ noticed.
            ⟦<ByteTypes as StateView<Key, Bytes>>⟧.replies_with self.old.cache TakeNotice
            (Noticed noticed)) }
        ensures none { (result ≡ 1) ↔ (self.old.cache.books.notices ≡ []) }
        ensures fewer { result ≡ 0 → length self.old.cache.books.notices
            ≡ length self.new.cache.books.notices + 1 }
        ensures stands { ⟦<ByteTypes as StateView<Key, Bytes>>⟧.follows self.old.cache TakeNotice
            self.new.cache }
        ensures lengths { result ≡ 0 →
            HasLengths notice.new (option_map arc_value self.new.key) self.new.value }
        ensures kept { result ≢ 0 → notice.new ≡ notice.old }
        ensures settings { self.new.cache.settings ≡ self.old.cache.settings }
    {
        match self.cache.take_notice() {
            Some(taken) => {
                *notice = BytesNotice {
                    key_len: taken.key.as_slice().len(),
                    value_len: taken.value.len(),
                    cause: number_of(taken.cause),
                };
                self.key = Some(taken.key);
                self.value = Some(taken.value);
                code::DONE
            }
            None => code::ABSENT,
        }
    }

    /// Copies the key that is kept to `out`.
    pub(crate) fn copy_key(&self, out: &mut [u8], len: &mut usize) -> u32
        ensures { CopiesFound (option_map arc_value self.now.key) result
            len.old len.new out.old out.new }
    {
        match &self.key {
            Some(key) => copy_to(key.as_slice(), out, len),
            None => code::ABSENT,
        }
    }

    /// Copies the value that is kept to `out`.
    pub(crate) fn copy_value(&self, out: &mut [u8], len: &mut usize) -> u32
        ensures { CopiesFound self.now.value result len.old len.new out.old out.new }
    {
        match &self.value {
            Some(value) => copy_to(value.as_slice(), out, len),
            None => code::ABSENT,
        }
    }
}

// Shares a weigher, if one is asked for.
fn weigher(alloc: Global, is_asked: bool) -> Result<Option<Arc<ByBytes>>, AllocError>
    ensures { IfOk result (λ weigher. is_some weigher ≡ is_asked) }
{
    if !is_asked {
        return Ok(None);
    }
    Ok(Some(Arc::new(alloc, ByBytes)?))
}
