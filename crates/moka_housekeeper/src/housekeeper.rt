//! What the maintenance of a cache depends on, beside its rows and its policy.
ghost use Rattle.std.specs.Prelude.{◌≡◌, ◌≤◌, ◌<◌, IsSome, IfSome, false, None};
ghost use Rattle.moka_policy.specs.Policy.{is_lru};
ghost use Rattle.moka_table.specs.Table.{entries, UsesRow};
ghost use Rattle.moka_expiration.specs.ExpirationPolicy.{AreDated};
ghost use Rattle.moka_housekeeper.specs.Maintain.{IsMaintained, IsMaintainedUpTo};
ghost use Rattle.moka_table.specs.declared.write_slot.WritePlan.TheVariants.{AfterFlush};
ghost use Rattle.moka_table.specs.WriteSlot.{HasSlot};
ghost use Rattle.moka_housekeeper.specs.Write.{HasPlan, IsSlotOf, WritesAt};
ghost use Rattle.moka_housekeeper.specs.Hit.{UsesAt};
ghost use Rattle.moka_rows.specs.Rows.{row_under, touched, plain_access};

use crate::maintain::maintain_up_to;
use moka_expiration::behaviour::Behaviour;
use moka_expiration::expiration_policy::ExpirationPolicy;
use moka_expiration::view::BehaviourView;
use moka_policy::policy::{CacheTypes, EvictionPolicy, FrequencySource};
use moka_rows::rows::{Access, RowId, RowStore};
use moka_table::table::{Lookup, Table};
use moka_table::write_slot::{NewValue, WritePlan, WriteSlot};
use std::hash::Hash;
use std::sync::Arc;

/// What a maintenance depends on, beside the rows and the policy.
#[derive(Drop)]
pub struct Housekeeper<F: FrequencySource> {
    /// The time to live and the time to idle.
    pub lives: ExpirationPolicy,
    /// The bound on the total weight of the resident rows, or `None` if there is no bound.
    pub max_capacity: Option<u64>,
    /// Estimates how often each key was looked up. It has noted the hash of each recorded lookup.
    pub source: F,
}

impl<F: FrequencySource> Housekeeper<F> {
    /// Runs a whole maintenance of a table. Does not allocate, and uses no room.
    pub fn maintain<K: Eq + Drop, V: Drop, R: RowStore<K, V>>(
        &self,
        table: &mut Table<K, V, R>,
        policy: EvictionPolicy,
        now: u64,
    )
        ensures maintained { AreDated self.now.lives (entries table.old) →
            IsMaintained self.now.lives (is_lru policy) (F.count self.now.source)
            self.now.max_capacity now table.old table.new }
        ensures room { table.old.room ≤ table.new.room }
    {
        self.maintain_up_to(table, policy, now, None);
    }

    /// Runs a maintenance of a table within a limit of removals, if there is one. Returns whether a
    /// part was left undone. Does not allocate, and uses no room.
    pub fn maintain_up_to<K: Eq + Drop, V: Drop, R: RowStore<K, V>>(
        &self,
        table: &mut Table<K, V, R>,
        policy: EvictionPolicy,
        now: u64,
        limit: Option<u64>,
    ) -> bool
        ensures maintained { AreDated self.now.lives (entries table.old) →
            IsMaintainedUpTo self.now.lives (is_lru policy) (F.count self.now.source)
            self.now.max_capacity now limit table.old table.new result }
        ensures unlimited { limit ≡ None → result ≡ false }
        ensures room { table.old.room ≤ table.new.room }
    {
        // The clause `visited` bounds this count. Nothing else reads it.
        let mut visits = 0;
        maintain_up_to(
            table,
            self.max_capacity,
            policy,
            &self.source,
            now,
            limit,
            &mut visits,
        )
    }

    /// Writes a value by its plan, and returns whether a live value was there just before.
    ///
    /// If the plan says so, a flush within `flush_limit` comes first. The write uses the room that
    /// was made, and does not allocate.
    #[inline(always)]
    pub fn write<K: Hash + Drop, V: Clone, C: CacheTypes<K, V>, R: RowStore<K, V>>(
        &self,
        table: &mut Table<K, V, R>,
        plan: WritePlan<K>,
        new: NewValue<V>,
        behaviour: &Behaviour<K, V, C>,
        flush_limit: Option<u64>,
    ) -> bool
        requires plan { HasPlan plan table.old }
        requires room { 0 < table.old.room }
        ensures { AreDated self.now.lives (entries table.old) → WritesAt K.eq
            (⟦<C as BehaviourView<K, V>>⟧.behaviour behaviour.now) self.now.lives
            (F.count self.now.source) self.now.max_capacity flush_limit plan new table.old table.new
            result }
    {
        let slot = self.slot_of(
            table,
            plan,
            new.hash,
            new.now,
            behaviour.policy(),
            flush_limit,
        );
        table.write(slot, new, behaviour, &self.lives)
    }

    /// Returns the slot of a write by its plan. If the plan says so, it runs a flush within
    /// `flush_limit` first.
    #[inline(always)]
    fn slot_of<K: Eq + Drop, V: Drop, R: RowStore<K, V>>(
        &self,
        table: &mut Table<K, V, R>,
        plan: WritePlan<K>,
        hash: u64,
        now: u64,
        policy: EvictionPolicy,
        flush_limit: Option<u64>,
    ) -> WriteSlot<K>
        requires { HasPlan plan table.old }
        ensures slot { AreDated self.now.lives (entries table.old) → IsSlotOf K.eq self.now.lives
            (is_lru policy) (F.count self.now.source) self.now.max_capacity flush_limit
            plan hash now table.old table.new result }
        ensures stored { HasSlot result table.new }
        ensures room { table.old.room ≤ table.new.room }
    {
        match plan {
            WritePlan::Now(slot) => slot,
            WritePlan::AfterFlush { lookup, key } => {
                self.slot_after_flush(table, lookup, key, hash, now, policy, flush_limit)
            }
        }
    }

    /// Runs a flush within `flush_limit`, and returns the slot of a write that follows the flush.
    ///
    /// It stands apart because few writes flush, and with it inside a write is too long to be
    /// inlined.
    #[inline(never)]
    fn slot_after_flush<K: Eq + Drop, V: Drop, R: RowStore<K, V>>(
        &self,
        table: &mut Table<K, V, R>,
        lookup: Lookup<K>,
        key: Arc<K>,
        hash: u64,
        now: u64,
        policy: EvictionPolicy,
        flush_limit: Option<u64>,
    ) -> WriteSlot<K>
        ensures slot { AreDated self.now.lives (entries table.old) → IsSlotOf K.eq self.now.lives
            (is_lru policy) (F.count self.now.source) self.now.max_capacity flush_limit
            (AfterFlush lookup key) hash now table.old table.new result }
        ensures stored { HasSlot result table.new }
        ensures room { table.old.room ≤ table.new.room }
    {
        self.maintain_up_to(table, policy, now, flush_limit);
        table.slot_now(lookup, key, hash)
    }

    /// Applies an access to a row whose value is live, and notes the hash of its key.
    ///
    /// The entry may get another lifetime of its own. Does not allocate.
    #[inline(always)]
    pub fn hit<K: Hash + Drop, V: Clone, C: CacheTypes<K, V>, R: RowStore<K, V>>(
        &mut self,
        table: &mut Table<K, V, R>,
        number: RowId,
        hash: u64,
        now: u64,
        behaviour: &Behaviour<K, V, C>,
    )
        requires { IsSome (row_under number (entries table.old)) }
        ensures used { IfSome (row_under number (entries table.old)) (λ row.
            UsesAt (⟦<C as BehaviourView<K, V>>⟧.behaviour behaviour.now) self.old.lives
            number row now table.old table.new) }
        ensures notices { table.new.notices ≡ table.old.notices }
        ensures noted { self.new.source ≡ F.noted self.old.source hash }
        ensures lives { self.new.lives ≡ self.old.lives }
        ensures max_capacity { self.new.max_capacity ≡ self.old.max_capacity }
    {
        self.source.note(hash);
        if behaviour.is_plain(&self.lives, table.row(number).info()) {
            touch_plain(table, number, now);
        } else {
            self.touch_dated(table, number, now, behaviour);
        }
    }

    /// Applies an access to a row whose value is live. The entry may get another lifetime of its
    /// own, and another deadline.
    ///
    /// It stands apart so that an access to a row without lives need not keep what this one needs.
    #[inline(never)]
    fn touch_dated<K: Hash + Drop, V: Clone, C: CacheTypes<K, V>, R: RowStore<K, V>>(
        &self,
        table: &mut Table<K, V, R>,
        number: RowId,
        now: u64,
        behaviour: &Behaviour<K, V, C>,
    )
        requires { IsSome (row_under number (entries table.old)) }
        ensures used { IfSome (row_under number (entries table.old)) (λ row.
            UsesAt (⟦<C as BehaviourView<K, V>>⟧.behaviour behaviour.now) self.now.lives
            number row now table.old table.new) }
        ensures notices { table.new.notices ≡ table.old.notices }
    {
        let row = table.row(number);
        let info = row.info();
        let own_life = behaviour.life_of_hit(row.key, row.value, info, now);
        let last_accessed = info.last_accessed.max(now);
        let touch = self.lives.touch_of(info, last_accessed, own_life);
        table.touch(number, touch);
    }
}

/// Applies an access to a row whose life nothing limits.
#[inline(always)]
fn touch_plain<K: Eq + Drop, V: Drop, R: RowStore<K, V>>(
    table: &mut Table<K, V, R>,
    number: RowId,
    now: u64,
)
    requires { IsSome (row_under number (entries table.old)) }
    ensures used { IfSome (row_under number (entries table.old)) (λ row.
        UsesRow number (touched (plain_access now row)) table.old table.new) }
    ensures notices { table.new.notices ≡ table.old.notices }
{
    let last_accessed = table.row(number).info().last_accessed.max(now);
    let touch = Access {
        last_accessed,
        own_life: None,
        deadline: None,
    };
    table.touch(number, touch);
}
