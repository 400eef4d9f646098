//! The calls that return the live value of a key, and write one if there is none.
ghost use Rattle.std.specs.Prelude.{◌≡◌, ◌≢◌, ◌&&◌, ◌==◌, None, false, true, not, IfOk, IfErr, OnOk, OnErr};
ghost use Rattle.std.specs.Arc.{arc_value};
ghost use Rattle.moka_model.specs.Numbers.{greatest_number, stores_nothing};
ghost use Rattle.moka_model.specs.Entries.{entry_of};
ghost use Rattle.moka_model.specs.Calls.{OrInsert, IsCopiedEntry, fresh_entry};
ghost use Rattle.moka_state.specs.Begin.{EntryKeeps};
ghost use Rattle.moka_state.specs.Hashes.{IsHashOf};
ghost use Rattle.moka_state.specs.OrInsert.{of_or_default, of_or_insert};
ghost use Rattle.moka_state.specs.Ends.{IsAbsentAt, OrInserts};

use crate::call_view::CallView;
use crate::get_with::none_like;
use crate::state::{InsertRefused, State};
use moka_expiration::view::StateView;
use moka_model::entry::Entry;
use moka_policy::policy::{CacheTypes, FrequencySource, Refused};
pub use moka_policy::refused::OrInsertRefused;
use moka_rows::rows::RowStore;
use moka_table::into_arc::UnusedKey;
use std::alloc::AllocError;
use std::hash::Hash;
use std::sync::Arc;

// Makes the entry of a value that is to be written, from a share of its key and a clone of the
// value.
fn make_fresh_entry<K: Drop, V: Clone>(key: &Arc<K>, value: &V) -> Result<Entry<K, V>, AllocError>
    ensures { IfOk result (λ entry. IsCopiedEntry V.is_clone
        (fresh_entry (arc_value key.now) value.now false) (entry_of entry)) }
{
    let key = key.clone()?;
    let value = value.clone()?;
    Ok(Entry::new(key, value, true, false))
}

impl<K: Hash + Drop, V: Clone, C: CacheTypes<K, V>, R: RowStore<K, V>> State<K, V, C, R> {
    /// Returns the entry of the live value for `key`. If there is none, stores `value`, and returns
    /// the new entry with a clone of the value.
    ///
    /// This is one recorded lookup, as [`State::get`], and on a miss one write, as
    /// [`State::insert`], at the same moment. The lookup is noted before the flush that the write
    /// may run. A new entry is fresh, and never marked as replacing. A found entry has the stored
    /// key.
    ///
    /// If the capacity is 0, nothing is stored and no sequence number is drawn, but the entry is
    /// fresh.
    ///
    /// # Errors
    ///
    /// A failed call hands back the value.
    ///
    /// - `NumbersUsedUp`: no value is live, the capacity is not 0, and no sequence number is left.
    /// - `OutOfMemory`: an allocation or a clone failed.
    ///
    /// # Complexity
    ///
    /// A hit costs a [`State::get`] and a share of the stored key. A miss costs a
    /// [`State::insert`], a share of the key and a clone of the value.
    pub fn or_insert(
        &mut self,
        key: &Arc<K>,
        value: V,
        now: u64,
    ) -> Result<Entry<K, V>, OrInsertRefused<V>>
        requires { C.keeps (arc_value key.now) value }
        ensures ends { OrInserts ⟦<C as CallView<K, V>>⟧.spec of_or_insert (arc_value key.now) value
            now self.old self.new result }
        ensures kept { IfOk result (EntryKeeps C.keeps (arc_value key.now)) }
        ensures value_back { IfErr result (λ refused. refused.value ≡ value) }
        ensures settings { self.new.settings ≡ self.old.settings }
    {
        let hash = self.hash(&**key);
        self.or_insert_with_hash(key, hash, value, now)
    }

    /// Works like [`State::or_insert`], given the key's hash, as [`State::hash`] returns it. The
    /// key is not hashed again.
    #[doc(hidden)]
    pub fn or_insert_with_hash(
        &mut self,
        key: &Arc<K>,
        hash: u64,
        value: V,
        now: u64,
    ) -> Result<Entry<K, V>, OrInsertRefused<V>>
        requires hash { IsHashOf (⟦<C as StateView<K, V>>⟧.settings self.old.settings)
            (arc_value key.now) hash }
        requires keeps { C.keeps (arc_value key.now) value }
        ensures ends { OrInserts ⟦<C as CallView<K, V>>⟧.spec of_or_insert (arc_value key.now) value
            now self.old self.new result }
        ensures kept { IfOk result (EntryKeeps C.keeps (arc_value key.now)) }
        ensures value_back { IfErr result (λ refused. refused.value ≡ value) }
        ensures settings { self.new.settings ≡ self.old.settings }
    {
        match self.acceptable_entry(&**key, hash, none_like(|_: &V| false), now) {
            Ok(Some(entry)) => {
                self.discards.value.discard(value);
                Ok(entry)
            }
            Ok(None) => self.write_missing(key, hash, value, now),
            Err(cause) => Err(OrInsertRefused { value, cause }),
        }
    }

    // Notes a lookup that found no live value, and does the write that follows it.
    fn write_missing(
        &mut self,
        key: &Arc<K>,
        hash: u64,
        value: V,
        now: u64,
    ) -> Result<Entry<K, V>, OrInsertRefused<V>>
        requires hash { IsHashOf (⟦<C as StateView<K, V>>⟧.settings self.old.settings)
            (arc_value key.now) hash }
        requires keeps { C.keeps (arc_value key.now) value }
        ensures ends { IsAbsentAt ⟦<C as CallView<K, V>>⟧.spec self.old (arc_value key.now) now
            → OrInserts ⟦<C as CallView<K, V>>⟧.spec of_or_insert (arc_value key.now) value now
            self.old self.new result }
        ensures kept { IfOk result (EntryKeeps C.keeps (arc_value key.now)) }
        ensures value_back { IfErr result (λ refused. refused.value ≡ value) }
        ensures settings { self.new.settings ≡ self.old.settings }
    {
        if self.wants_number() {
            let cause = Refused::NumbersUsedUp;
            return Err(OrInsertRefused { value, cause });
        }
        let Ok(entry) = make_fresh_entry(key, &value) else {
            let cause = Refused::OutOfMemory;
            return Err(OrInsertRefused { value, cause });
        };
        if self.housekeeper.max_capacity == Some(0) {
            self.housekeeper.source.note(hash);
            self.latest = self.latest.max(now);
            self.discards.value.discard(value);
            return Ok(entry);
        }
        match self.note_and_write(key, hash, value, now) {
            Ok(()) => Ok(entry),
            Err(refused) => {
                self.discards.entry.discard(entry);
                Err(refused)
            }
        }
    }

    // Works like `write_missing`, for an owned key, which moves into an `Arc`.
    pub(crate) fn write_default(
        &mut self,
        key: K,
        hash: u64,
        value: V,
        now: u64,
    ) -> Result<Entry<K, V>, Refused>
        requires hash { IsHashOf (⟦<C as StateView<K, V>>⟧.settings self.old.settings) key hash }
        requires keeps { C.keeps key value }
        ensures ends { IsAbsentAt ⟦<C as CallView<K, V>>⟧.spec self.old key now
            → OrInserts ⟦<C as CallView<K, V>>⟧.spec of_or_default key value now self.old self.new
            result }
        ensures kept { IfOk result (EntryKeeps C.keeps key) }
        ensures settings { self.new.settings ≡ self.old.settings }
    {
        if self.wants_number() {
            self.table.discard_key(UnusedKey::Owned(key));
            self.discards.value.discard(value);
            return Err(Refused::NumbersUsedUp);
        }
        let key = match Arc::new(self.alloc, key) {
            Ok(key) => key,
            Err(failed) => {
                self.table.discard_key(UnusedKey::Owned(failed.value));
                self.discards.value.discard(value);
                return Err(Refused::OutOfMemory);
            }
        };
        match self.write_missing(&key, hash, value, now) {
            Ok(entry) => Ok(entry),
            Err(OrInsertRefused { value, cause }) => {
                self.table.discard_key(UnusedKey::Shared(key));
                self.discards.value.discard(value);
                Err(cause)
            }
        }
    }

    // Checks whether a write would draw a sequence number and none is left.
    pub(crate) fn wants_number(&self) -> bool
        ensures { result ≡ (not (stores_nothing self.now.settings.max_capacity)
            && (self.now.books.next_number == greatest_number)) }
    {
        self.housekeeper.max_capacity != Some(0) && self.next_number == u64::MAX
    }

    // Notes a lookup that found no live value, and then writes. Allocates before anything changes.
    fn note_and_write(
        &mut self,
        key: &Arc<K>,
        hash: u64,
        value: V,
        now: u64,
    ) -> Result<(), OrInsertRefused<V>>
        requires hash { IsHashOf (⟦<C as StateView<K, V>>⟧.settings self.old.settings)
            (arc_value key.now) hash }
        requires keeps { C.keeps (arc_value key.now) value }
        requires stores { stores_nothing self.old.settings.max_capacity ≡ false }
        requires number { self.old.books.next_number ≢ greatest_number }
        ensures stands { IsAbsentAt ⟦<C as CallView<K, V>>⟧.spec self.old (arc_value key.now) now
            → OnOk result (⟦<C as StateView<K, V>>⟧.follows self.old
            (OrInsert (arc_value key.now) value now) self.new) }
        ensures refused { OnErr result (self.new ≡ self.old) }
        ensures cause { IfErr result (λ refused. refused.cause ≡ Refused.OutOfMemory) }
        ensures value_back { IfErr result (λ refused. refused.value ≡ value) }
        ensures settings { self.new.settings ≡ self.old.settings }
    {
        let cause = Refused::OutOfMemory;
        let Ok(share) = key.clone() else {
            return Err(OrInsertRefused { value, cause });
        };
        match self.commit(share, hash, value, now, true) {
            Ok(_) => Ok(()),
            Err(InsertRefused { value, .. }) => Err(OrInsertRefused { value, cause }),
        }
    }
}

impl<K: Hash + Drop, V: Clone + Default, C: CacheTypes<K, V>, R: RowStore<K, V>> State<K, V, C, R> {
    /// Returns the entry of the live value for `key`. If there is none, stores the default value,
    /// and returns the new entry with a clone of that value.
    ///
    /// Works like [`State::or_insert`], for an owned key, which moves into an `Arc` on a miss. The
    /// default value is made before the lookup. The prover asks that every default value satisfies
    /// the value invariant with the key.
    ///
    /// # Errors
    ///
    /// A failed call drops the key.
    ///
    /// - `NumbersUsedUp`: no value is live, the capacity is not 0, and no sequence number is left.
    /// - `OutOfMemory`: an allocation or a clone failed.
    pub fn or_default(&mut self, key: K, now: u64) -> Result<Entry<K, V>, Refused>
        requires { (value : V) → V.is_default value → C.keeps key value }
        ensures ends { (value : V) × V.is_default value × OrInserts ⟦<C as CallView<K, V>>⟧.spec
            of_or_default key value now self.old self.new result }
        ensures kept { IfOk result (EntryKeeps C.keeps key) }
        ensures settings { self.new.settings ≡ self.old.settings }
    {
        let hash = self.hash(&key);
        self.or_default_with_hash(key, hash, now)
    }

    /// Works like [`State::or_default`], given the key's hash, as [`State::hash`] returns it. The
    /// key is not hashed again.
    #[doc(hidden)]
    pub fn or_default_with_hash(
        &mut self,
        key: K,
        hash: u64,
        now: u64,
    ) -> Result<Entry<K, V>, Refused>
        requires hash { IsHashOf (⟦<C as StateView<K, V>>⟧.settings self.old.settings) key hash }
        requires keeps { (value : V) → V.is_default value → C.keeps key value }
        ensures ends { (value : V) × V.is_default value × OrInserts ⟦<C as CallView<K, V>>⟧.spec
            of_or_default key value now self.old self.new result }
        ensures kept { IfOk result (EntryKeeps C.keeps key) }
        ensures settings { self.new.settings ≡ self.old.settings }
    {
        let value = V::default();
        match self.acceptable_entry(&key, hash, none_like(|_: &V| false), now) {
            Ok(Some(found)) => {
                self.table.discard_key(UnusedKey::Owned(key));
                self.discards.value.discard(value);
                Ok(found)
            }
            Ok(None) => self.write_default(key, hash, value, now),
            Err(cause) => {
                self.table.discard_key(UnusedKey::Owned(key));
                self.discards.value.discard(value);
                Err(cause)
            }
        }
    }
}
