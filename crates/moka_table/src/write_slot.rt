//! The slots of writes. What a write allocates is allocated before it changes anything.
ghost use Rattle.std.specs.Prelude.{◌≡◌, ◌<◌, ℕ, true, false, IfOk, IfErr, OnOk};
ghost use Rattle.moka_table.specs.WriteSlot.{IsSlotFor, IsSlotNow, HasSlot, IsOver, IsOverPlain, IsInfoOf, Puts, IsPlanOf, Writes, is_over_live};
ghost use Rattle.moka_expiration.specs.ExpirationPolicy.{IsDated};
ghost use Rattle.moka_table.specs.Table.{entries, SameRows};
ghost use Rattle.moka_rows.specs.Rows.{written};

use crate::into_arc::{IntoArc, UnusedKey};
use crate::table::{Lookup, Table};
use moka_deferred::deferred::Deferred;
use moka_expiration::behaviour::Behaviour;
use moka_expiration::expiration_policy::ExpirationPolicy;
use moka_expiration::view::BehaviourView;
use moka_policy::policy::CacheTypes;
use moka_rows::packed::PackedEntryInfo;
use moka_rows::rows::{EntryInfo, Row, RowId, RowStore};
use std::alloc::Global;
use std::hash::Hash;
use std::sync::Arc;

/// Where a write puts its value.
#[derive(Drop)]
pub enum WriteSlot<K> {
    /// Over the value of the row with this number. `key` is the stored key.
    Occupied { number: RowId, key: Arc<K> },
    /// Into a new row, under this key.
    Vacant { key: Arc<K> },
}

/// Where a write puts its value, as found before the flush that may come first.
#[derive(Drop)]
pub enum WritePlan<K> {
    /// At this slot. No flush comes first.
    Now(WriteSlot<K>),
    /// Where the written `key` belongs after a flush. `lookup` is where its row was before.
    AfterFlush { lookup: Lookup<K>, key: Arc<K> },
}

/// A value to be written.
#[derive(Drop)]
pub struct NewValue<V> {
    /// The hash of its key.
    pub hash: u64,
    /// The value.
    pub value: V,
    /// Its weight under that key.
    pub weight: u32,
    /// When it is written, in nanoseconds.
    pub now: u64,
}

/// From this many pending rows on, a write runs a flush first.
const FLUSH_POINT: usize = 64;

impl<K: Drop> Lookup<K> {
    /// Returns the slot of a write of a key, given where its row is. A key without a row is put
    /// into an `Arc`, and a key with one is discarded.
    ///
    /// # Errors
    ///
    /// - The key itself: an allocation failed.
    #[inline(always)]
    pub fn slot<S: IntoArc<K>>(
        self,
        key: S,
        alloc: Global,
        unused: &mut Deferred<UnusedKey<K>>,
    ) -> Result<WriteSlot<K>, S>
        ensures slot { IfOk result (IsSlotFor (S.key_of key) self) }
        ensures handed_back { IfErr result (λ back. back ≡ key) }
    {
        match self {
            Lookup::Stored { number, key: own } => {
                unused.discard(key.into_unused());
                Ok(WriteSlot::Occupied { number, key: own })
            }
            Lookup::Absent => match key.into_arc(alloc) {
                Ok(key) => Ok(WriteSlot::Vacant { key }),
                Err(key) => Err(key),
            },
        }
    }
}

impl<K: Eq + Drop, V: Drop, R: RowStore<K, V>> Table<K, V, R> {
    /// Returns the slot of a write of a key that was looked up before some rows were removed. Its
    /// own row may be one of them. Discards the key if it has a row. Does not allocate.
    #[inline(always)]
    pub fn slot_now(&mut self, lookup: Lookup<K>, key: Arc<K>, hash: u64) -> WriteSlot<K>
        ensures slot { IsSlotNow K.eq hash lookup key (entries self.old) result }
        ensures same { self.new ≡ self.old }
    {
        match lookup {
            Lookup::Absent => WriteSlot::Vacant { key },
            Lookup::Stored { key: stored, .. } => match self.find(&*key, hash) {
                Some(number) => {
                    self.unused_key.discard(UnusedKey::Shared(key));
                    WriteSlot::Occupied {
                        number,
                        key: stored,
                    }
                }
                None => WriteSlot::Vacant { key },
            },
        }
    }

    /// Makes room for a write of a key, and returns its plan. All rows and notices stay as they
    /// were, also if it fails.
    ///
    /// # Errors
    ///
    /// - The key itself: an allocation failed, or the store cannot number more rows.
    #[inline(always)]
    pub fn plan_write<S: IntoArc<K>>(
        &mut self,
        key: S,
        hash: u64,
        alloc: Global,
    ) -> Result<WritePlan<K>, S>
        ensures plan { IfOk result (IsPlanOf K.eq (S.key_of key) hash self.new) }
        ensures handed_back { IfErr result (λ back. back ≡ key) }
        ensures room { OnOk result (0 < self.new.room) }
        ensures same { SameRows self.old self.new }
        ensures may_hide { self.new.may_hide ≡ self.old.may_hide }
    {
        let Ok(lookup) = self.lookup(key.key(), hash) else {
            return Err(key);
        };
        if self.waiting_len() < FLUSH_POINT {
            match lookup.slot(key, alloc, &mut self.unused_key) {
                Ok(slot) => Ok(WritePlan::Now(slot)),
                Err(key) => Err(key),
            }
        } else {
            match key.into_arc(alloc) {
                Ok(key) => Ok(WritePlan::AfterFlush { lookup, key }),
                Err(key) => Err(key),
            }
        }
    }

    /// Writes a value and its metadata to a slot, and adds a notice of the value that it
    /// replaces.
    ///
    /// It uses the room that was made and does not allocate. The value is not invalidated.
    #[inline(always)]
    pub fn put(&mut self, slot: WriteSlot<K>, hash: u64, value: V, info: EntryInfo)
        requires stored { HasSlot slot self.old }
        requires room { 0 < self.old.room }
        requires shown { info.is_hidden ≡ false }
        ensures puts { Puts slot hash value info self.old self.new }
        ensures may_hide { self.new.may_hide ≡ self.old.may_hide }
    {
        match slot {
            WriteSlot::Occupied { number, key } => self.overwrite(number, key, value, info),
            WriteSlot::Vacant { key } => self.add(Row {
                key,
                hash,
                value,
                info: PackedEntryInfo::new(info),
            }),
        }
    }
}

impl<K: Hash + Drop, V: Clone, R: RowStore<K, V>> Table<K, V, R> {
    /// Returns the metadata, with the deadline, of a value that is written to a slot at `now`, and
    /// whether the slot is over a live value. Calls the expiry for the entry's own lifetime.
    #[inline(always)]
    pub fn info_of<C: CacheTypes<K, V>>(
        &self,
        slot: &WriteSlot<K>,
        value: &V,
        weight: u32,
        now: u64,
        behaviour: &Behaviour<K, V, C>,
        lives: &ExpirationPolicy,
    ) -> (EntryInfo, bool)
        requires { HasSlot slot.now self.now }
        ensures info { IsInfoOf (⟦<C as BehaviourView<K, V>>⟧.behaviour behaviour.now)
            slot.now value.now weight now self.now result.0 }
        ensures dated { IsDated lives.now result.0 }
        ensures over { result.1 ≡ is_over_live slot.now now self.now }
    {
        let (own_life, is_over_live) = match slot {
            WriteSlot::Occupied { number, key } => {
                let was = self.row(*number).info();
                let is_live = !was.is_dead(now);
                let own_life = behaviour.life_of_overwrite(key, value, was, is_live, now);
                (own_life, is_live)
            }
            WriteSlot::Vacant { key } => (behaviour.life_of_new(key, value, now), false),
        };
        let info = EntryInfo {
            last_modified: now,
            last_accessed: now,
            own_life,
            deadline: None,
            policy_weight: weight,
            is_hidden: false,
        };
        (lives.with_deadline(info), is_over_live)
    }

    /// Returns whether a slot is over a value whose life nothing limits.
    #[inline(always)]
    fn is_over_plain<C: CacheTypes<K, V>>(
        &self,
        slot: &WriteSlot<K>,
        behaviour: &Behaviour<K, V, C>,
        lives: &ExpirationPolicy,
    ) -> bool
        requires { HasSlot slot.now self.now }
        ensures { result ≡ true → IsOverPlain behaviour.now lives.now slot.now self.now }
    {
        match slot {
            WriteSlot::Occupied { number, .. } => {
                behaviour.is_plain(lives, self.row(*number).info())
            }
            WriteSlot::Vacant { .. } => false,
        }
    }

    /// Writes a value whose life nothing limits over a stored one. Returns whether the value that it
    /// replaces was live.
    #[inline(always)]
    fn overwrite_plain(&mut self, slot: WriteSlot<K>, value: V, weight: u32, now: u64) -> bool
        requires over { IsOver slot }
        requires stored { HasSlot slot self.old }
        requires room { 0 < self.old.room }
        ensures puts { (hash : ℕ) → Puts slot hash value (written weight now) self.old self.new }
        ensures over { result ≡ is_over_live slot now self.old }
        ensures may_hide { self.new.may_hide ≡ self.old.may_hide }
    {
        match slot {
            WriteSlot::Occupied { number, key } => {
                let is_live = !self.row(number).info().is_dead(now);
                self.overwrite(number, key, value, EntryInfo::new(weight, now));
                is_live
            }
            WriteSlot::Vacant { .. } => unreachable!(),
        }
    }

    /// Writes a value over a stored one, of which a lifetime may limit either. Returns whether the
    /// old one was live.
    ///
    /// It is not inlined, so that a write of any other value stays small.
    #[inline(never)]
    fn overwrite_dated<C: CacheTypes<K, V>>(
        &mut self,
        slot: WriteSlot<K>,
        new: NewValue<V>,
        behaviour: &Behaviour<K, V, C>,
        lives: &ExpirationPolicy,
    ) -> bool
        requires stored { HasSlot slot self.old }
        requires room { 0 < self.old.room }
        ensures writes { Writes (⟦<C as BehaviourView<K, V>>⟧.behaviour behaviour.now) lives.now
            slot new self.old self.new result }
    {
        let NewValue {
            hash,
            value,
            weight,
            now,
        } = new;
        let (info, is_over_live) = self.info_of(&slot, &value, weight, now, behaviour, lives);
        self.put(slot, hash, value, info);
        is_over_live
    }

    /// Writes a value into a new row. It uses the room that was made and does not allocate.
    #[inline(always)]
    fn write_new<C: CacheTypes<K, V>>(
        &mut self,
        key: Arc<K>,
        new: NewValue<V>,
        behaviour: &Behaviour<K, V, C>,
        lives: &ExpirationPolicy,
    )
        requires room { 0 < self.old.room }
        ensures writes { Writes (⟦<C as BehaviourView<K, V>>⟧.behaviour behaviour.now) lives.now
            (WriteSlot.Vacant key) new self.old self.new false }
    {
        let info = EntryInfo {
            own_life: behaviour.life_of_new(&key, &new.value, new.now),
            ..EntryInfo::new(new.weight, new.now)
        };
        let info = lives.with_deadline(info);
        self.add(Row {
            key,
            hash: new.hash,
            value: new.value,
            info: PackedEntryInfo::new(info),
        });
    }

    /// Writes a value to a slot, and returns whether a live value was there. It uses the room
    /// that was made and does not allocate.
    #[inline(always)]
    pub fn write<C: CacheTypes<K, V>>(
        &mut self,
        slot: WriteSlot<K>,
        new: NewValue<V>,
        behaviour: &Behaviour<K, V, C>,
        lives: &ExpirationPolicy,
    ) -> bool
        requires stored { HasSlot slot self.old }
        requires room { 0 < self.old.room }
        ensures writes { Writes (⟦<C as BehaviourView<K, V>>⟧.behaviour behaviour.now) lives.now
            slot new self.old self.new result }
    {
        if self.is_over_plain(&slot, behaviour, lives) {
            return self.overwrite_plain(slot, new.value, new.weight, new.now);
        }
        match slot {
            WriteSlot::Vacant { key } => {
                self.write_new(key, new, behaviour, lives);
                false
            }
            WriteSlot::Occupied { number, key } => {
                let slot = WriteSlot::Occupied { number, key };
                self.overwrite_dated(slot, new, behaviour, lives)
            }
        }
    }
}
