//! Calls that take the hash of their key, for callers that know it already: for example from
//! choosing one of several states.
ghost use Rattle.std.specs.Prelude.{◌≡◌, ◌≢◌, ◌≤◌, if◌then◌else◌, false, None, IfOk, IfSome};
ghost use Rattle.moka_model.specs.Numbers.{greatest_number, stores_nothing};
ghost use Rattle.moka_model.specs.Calls.{Get, ContainsKey, Insert, Invalidate, Remove, Contains};
ghost use Rattle.moka_state.specs.Hashes.{IsHashOf};
ghost use Rattle.moka_state.specs.Write.{WriteEnds};
ghost use Rattle.moka_state.specs.Ends.{Commits, ReadsLive, Replaces};

use crate::call_view::CallView;
use crate::state::{InsertRefused, State};
use moka_expiration::live_value::copy_of_live;
use moka_expiration::view::StateView;
use moka_model::notification::RemovalCause;
use moka_policy::policy::{CacheTypes, FrequencySource, Refused};
use moka_rows::rows::RowStore;
use moka_table::into_arc::{IntoArc, Owned};
use moka_table::write_slot::NewValue;
use std::hash::Hash;

// Notes a lookup of a key with this hash, if `is_noted`.
fn note_if<F: FrequencySource>(source: &mut F, hash: u64, is_noted: bool)
    ensures { source.new ≡ (if is_noted then F.noted source.old hash else source.old) }
{
    if is_noted {
        source.note(hash);
    }
}

impl<K: Hash + Drop, V: Clone, C: CacheTypes<K, V>, R: RowStore<K, V>> State<K, V, C, R> {
    /// Returns the hash of `key` by the cache's hasher, as the calls that take a hash want it.
    /// Reads no row.
    #[doc(hidden)]
    #[inline(always)]
    pub fn hash(&self, key: &K) -> u64
        ensures { IsHashOf (⟦<C as StateView<K, V>>⟧.settings self.now.settings) key.now result }
    {
        self.behaviour.hash(key)
    }

    /// Works like [`State::get`], given the key's hash, as [`State::hash`] returns it. The key is
    /// not hashed again.
    ///
    /// # Errors
    ///
    /// - `OutOfMemory`: cloning the value failed. A miss cannot fail, and does not allocate.
    ///
    /// # Complexity
    ///
    /// In a `CacheState`, reads no rows but those that have the key's hash.
    #[doc(hidden)]
    pub fn get_with_hash(&mut self, key: &K, hash: u64, now: u64) -> Result<Option<V>, Refused>
        requires hash { IsHashOf (⟦<C as StateView<K, V>>⟧.settings self.old.settings)
            key.now hash }
        requires within { hash ≤ greatest_number }
        // Only cloning the live value can fail, and then nothing has changed.
        ensures ends { ReadsLive ⟦<C as CallView<K, V>>⟧.spec Get key.now now self.old self.new
            result }
        ensures kept { IfOk result (λ found. IfSome found (C.keeps key.now)) }
        ensures settings { self.new.settings ≡ self.old.settings }
    {
        let now = self.latest.max(now);
        let Some(number) = self.table.find_live(key, hash, now) else {
            self.housekeeper.source.note(hash);
            self.latest = now;
            return Ok(None);
        };
        let Ok(value) = self.table.row(number).value.clone() else {
            return Err(Refused::OutOfMemory);
        };
        self.housekeeper
            .hit(&mut self.table, number, hash, now, &self.behaviour);
        self.latest = now;
        Ok(Some(value))
    }

    /// Works like [`State::insert`], given the key's hash, as [`State::hash`] returns it. The key
    /// is not hashed again.
    ///
    /// # Errors
    ///
    /// A failed call hands back the key and the value. If the capacity is 0, the call cannot fail,
    /// and does not allocate.
    ///
    /// - `NumbersUsedUp`: the capacity is not 0, and no sequence number is left.
    /// - `OutOfMemory`: an allocation failed, and a sequence number is left.
    ///
    /// # Complexity
    ///
    /// In a `CacheState`, reads no rows but those that have the key's hash, apart from a flush.
    #[doc(hidden)]
    pub fn insert_with_hash(
        &mut self,
        key: K,
        hash: u64,
        value: V,
        now: u64,
    ) -> Result<(), InsertRefused<K, V>>
        requires hash { IsHashOf (⟦<C as StateView<K, V>>⟧.settings self.old.settings) key hash }
        requires keeps { C.keeps key value }
        ensures ends { WriteEnds
            (⟦<C as StateView<K, V>>⟧.follows self.old (Insert key value now) self.new)
            self.old self.new key value result }
        ensures settings { self.new.settings ≡ self.old.settings }
    {
        match self.write(Owned(key), hash, value, now) {
            Ok(_) => Ok(()),
            Err(InsertRefused { key, value, cause }) => Err(InsertRefused {
                key: key.0,
                value,
                cause,
            }),
        }
    }

    // Writes a value under a key that is in an `Arc` already, or moves into one, given the key's
    // hash. Returns whether it replaced a live value.
    pub(crate) fn write<S: IntoArc<K>>(
        &mut self,
        key: S,
        hash: u64,
        value: V,
        now: u64,
    ) -> Result<bool, InsertRefused<S, V>>
        requires hash { IsHashOf (⟦<C as StateView<K, V>>⟧.settings self.old.settings)
            (S.key_of key) hash }
        requires kept { C.keeps (S.key_of key) value }
        ensures ends { WriteEnds
            (⟦<C as StateView<K, V>>⟧.follows self.old (Insert (S.key_of key) value now) self.new)
            self.old self.new key value result }
        ensures replaces { IfOk result
            (Replaces ⟦<C as CallView<K, V>>⟧.spec (S.key_of key) now self.old) }
        ensures turns { self.new.turns ≡ self.old.turns }
        ensures settings { self.new.settings ≡ self.old.settings }
    {
        if self.housekeeper.max_capacity == Some(0) {
            self.latest = self.latest.max(now);
            self.table.discard_key(key.into_unused());
            self.discards.value.discard(value);
            return Ok(false);
        }
        if self.next_number == u64::MAX {
            let cause = Refused::NumbersUsedUp;
            return Err(InsertRefused { key, value, cause });
        }
        self.commit(key, hash, value, now, false)
    }

    // Does a write that draws a sequence number, and returns whether it replaced a live value. If
    // `is_noted`, it notes a lookup that found no live value first, since a flush counts on it.
    // The weigher gets the call's key, before anything changes.
    pub(crate) fn commit<S: IntoArc<K>>(
        &mut self,
        key: S,
        hash: u64,
        value: V,
        now: u64,
        is_noted: bool,
    ) -> Result<bool, InsertRefused<S, V>>
        requires hash { IsHashOf (⟦<C as StateView<K, V>>⟧.settings self.old.settings)
            (S.key_of key) hash }
        requires kept { C.keeps (S.key_of key) value }
        requires stores { stores_nothing self.old.settings.max_capacity ≡ false }
        requires number { self.old.books.next_number ≢ greatest_number }
        ensures ends { WriteEnds
            (Commits ⟦<C as CallView<K, V>>⟧.spec is_noted (S.key_of key) value now self.old
            self.new) self.old self.new key value result }
        ensures replaces { is_noted ≡ false → IfOk result
            (Replaces ⟦<C as CallView<K, V>>⟧.spec (S.key_of key) now self.old) }
        ensures turns { self.new.turns ≡ self.old.turns }
        ensures settings { self.new.settings ≡ self.old.settings }
    {
        let now = self.latest.max(now);
        let cause = Refused::OutOfMemory;
        let weight = self.behaviour.weight(key.key(), &value);
        let plan = match self.table.plan_write(key, hash, self.alloc) {
            Ok(plan) => plan,
            Err(key) => return Err(InsertRefused { key, value, cause }),
        };
        let new = NewValue {
            hash,
            value,
            weight,
            now,
        };
        note_if(&mut self.housekeeper.source, hash, is_noted);
        let is_replaced = self.housekeeper.write(
            &mut self.table,
            plan,
            new,
            &self.behaviour,
            self.flush_limit,
        );
        self.latest = now;
        self.next_number += 1;
        Ok(is_replaced)
    }

    /// Works like [`State::contains_key`], given the key's hash, as [`State::hash`] returns it. The
    /// key is not hashed again.
    #[doc(hidden)]
    pub fn contains_key_with_hash(&self, key: &K, hash: u64, now: u64) -> bool
        requires hash { IsHashOf (⟦<C as StateView<K, V>>⟧.settings self.now.settings)
            key.now hash }
        requires within { hash ≤ greatest_number }
        ensures reply { ⟦<C as StateView<K, V>>⟧.replies_with self.now
            (ContainsKey key.now now) (Contains result) }
        ensures stands { ⟦<C as StateView<K, V>>⟧.follows self.now
            (ContainsKey key.now now) self.now }
    {
        let now = self.latest.max(now);
        self.table.find_live(key, hash, now).is_some()
    }

    /// Works like [`State::invalidate`], given the key's hash, as [`State::hash`] returns it. The
    /// key is not hashed again. Does not allocate.
    #[doc(hidden)]
    pub fn invalidate_with_hash(&mut self, key: &K, hash: u64, now: u64)
        requires hash { IsHashOf (⟦<C as StateView<K, V>>⟧.settings self.old.settings)
            key.now hash }
        requires within { hash ≤ greatest_number }
        ensures stands { ⟦<C as StateView<K, V>>⟧.follows
            self.old (Invalidate key.now now) self.new }
        ensures settings { self.new.settings ≡ self.old.settings }
    {
        let now = self.latest.max(now);
        self.latest = now;
        if let Some(number) = self.table.find(key, hash) {
            let info = self.table.row(number).info();
            let cause = info.cause(now, RemovalCause::Explicit);
            self.table.evict(number, cause);
        }
    }

    /// Works like [`State::remove`], given the key's hash, as [`State::hash`] returns it. The key
    /// is not hashed again.
    ///
    /// # Errors
    ///
    /// - `OutOfMemory`: cloning the value failed. If no value is live, the call cannot fail, and
    ///   does not allocate.
    ///
    /// # Complexity
    ///
    /// In a `CacheState`, reads no rows but those that have the key's hash.
    #[doc(hidden)]
    pub fn remove_with_hash(&mut self, key: &K, hash: u64, now: u64) -> Result<Option<V>, Refused>
        requires hash { IsHashOf (⟦<C as StateView<K, V>>⟧.settings self.old.settings)
            key.now hash }
        requires within { hash ≤ greatest_number }
        // Only cloning the live value can fail, and then nothing has changed.
        ensures ends { ReadsLive ⟦<C as CallView<K, V>>⟧.spec Remove key.now now self.old self.new
            result }
        ensures kept { IfOk result (λ found. IfSome found (C.keeps key.now)) }
        ensures settings { self.new.settings ≡ self.old.settings }
    {
        let now = self.latest.max(now);
        let Some(number) = self.table.find(key, hash) else {
            self.latest = now;
            return Ok(None);
        };
        let row = self.table.row(number);
        let cause = row.info().cause(now, RemovalCause::Explicit);
        let found = copy_of_live(row, now)?;
        self.table.evict(number, cause);
        self.latest = now;
        Ok(found)
    }
}
