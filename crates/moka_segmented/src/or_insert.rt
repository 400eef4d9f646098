//! Calls that return the live value of a key, in its segment, or else write one.
ghost use Rattle.std.specs.Prelude.{◌≡◌, IfOk, IfErr, OnOk, OnErr};
ghost use Rattle.std.specs.Arc.{arc_value};
ghost use Rattle.moka_model.specs.Calls.{OrInsert};
ghost use Rattle.moka_state.specs.Begin.{EntryKeeps};
ghost use Rattle.moka_state.specs.OrInsert.{of_or_default, of_or_insert};
ghost use Rattle.moka_segmented.specs.Ends.{GivesAtIn};

use crate::segment::Segmented;
use crate::segmented_view::{SegmentedCallView, SegmentedStateView};
use moka_model::entry::Entry;
use moka_policy::policy::{CacheTypes, Refused};
use moka_rows::rows::RowStore;
use moka_state::or_insert::OrInsertRefused;
use std::hash::Hash;
use std::sync::Arc;

impl<K: Hash + Drop, V: Clone, C: CacheTypes<K, V>, R: RowStore<K, V>> Segmented<K, V, C, R> {
    /// Returns the live entry of `key`, in its segment. If there is none, inserts `value` and
    /// returns an entry with a clone of that value.
    ///
    /// It is one lookup, as by [`Segmented::get`], and on a miss one write, as by
    /// [`Segmented::insert`], at the same moment. The entry is fresh if it was written, and never
    /// marked as replacing. A value that is found comes with the stored key. At a capacity of 0
    /// nothing is stored, no sequence number is drawn, and the entry is fresh.
    ///
    /// # Errors
    ///
    /// Hands back the value.
    ///
    /// - `NumbersUsedUp`: a sequence number is needed, and none is left in the key's segment.
    /// - `OutOfMemory`: an allocation or a clone failed.
    ///
    /// # Complexity
    ///
    /// That of the `or_insert` of the segment's state.
    pub fn or_insert(
        &mut self,
        key: &Arc<K>,
        value: V,
        now: u64,
    ) -> Result<Entry<K, V>, OrInsertRefused<V>>
        requires { C.keeps (arc_value key.now) value }
        ensures reply { GivesAtIn ⟦<C as SegmentedCallView<K, V>>⟧.spec self.old
            (OrInsert (arc_value key.now) value now) (of_or_insert result) }
        ensures stands { OnOk result (⟦<C as SegmentedStateView<K, V>>⟧.follows_in self.old
            (OrInsert (arc_value key.now) value now) self.new) }
        ensures refused { OnErr result (self.new ≡ self.old) }
        ensures kept { IfOk result (EntryKeeps C.keeps (arc_value key.now)) }
        ensures value_back { IfErr result (λ refused. refused.value ≡ value) }
        ensures settings { self.new.settings ≡ self.old.settings }
    {
        let place = self.place_of(&**key);
        self.segments[place.index].or_insert_with_hash(key, place.hash, value, now)
    }
}

impl<K, V: Clone + Default, C: CacheTypes<K, V>, R: RowStore<K, V>> Segmented<K, V, C, R>
where
    K: Hash + Drop,
{
    /// Does what [`Segmented::or_insert`] does, with the default value, which is made before the
    /// lookup. Shares the key on a miss.
    ///
    /// The prover asks that every default value satisfies `keeps` with the key.
    ///
    /// # Errors
    ///
    /// Drops the key. As [`Segmented::or_insert`].
    pub fn or_default(&mut self, key: K, now: u64) -> Result<Entry<K, V>, Refused>
        requires { (value : V) → V.is_default value → C.keeps key value }
        ensures ends { (value : V) × V.is_default value
            × GivesAtIn ⟦<C as SegmentedCallView<K, V>>⟧.spec self.old (OrInsert key value now)
            (of_or_default result) × OnOk result (⟦<C as SegmentedStateView<K, V>>⟧.follows_in
            self.old (OrInsert key value now) self.new) }
        ensures refused { OnErr result (self.new ≡ self.old) }
        ensures kept { IfOk result (EntryKeeps C.keeps key) }
        ensures settings { self.new.settings ≡ self.old.settings }
    {
        let place = self.place_of(&key);
        self.segments[place.index].or_default_with_hash(key, place.hash, now)
    }
}
