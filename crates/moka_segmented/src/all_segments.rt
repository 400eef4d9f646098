//! The calls that go to all segments.
ghost use Rattle.std.specs.Prelude.{◌≡◌, ◌↔◌, ℕ, true, false, None, min, length, slice_get, IsOk, IfErr, IfSome, OnOk, OnErr};
ghost use Rattle.std.specs.Arc.{arc_value};
ghost use Rattle.moka_model.specs.Calls.{InvalidateAll, InvalidateIf, RunPendingTasks, RunPendingTasksUpTo, EntryCount, WeightedSize, Counted, Left};
ghost use Rattle.moka_model.specs.Numbers.{greatest_number};
ghost use Rattle.moka_segment_model.specs.Segments.{sum_below};
ghost use Rattle.moka_segmented.specs.Maintained.{AllLiveIn, WeighWithinShares, CountWithinShares, FewLeft, FewNoticed};
ghost use Rattle.moka_segmented.specs.SegmentedData.{stored_at, weight_at, notices_queued};

use crate::segment::Segmented;
use crate::segmented_view::SegmentedStateView;
use moka_policy::policy::CacheTypes;
use moka_predicate_ids::predicate_error::PredicateError;
use moka_rows::rows::RowStore;
use std::hash::Hash;
use std::sync::Arc;

impl<K: Hash + Drop, V: Clone, C: CacheTypes<K, V>, R: RowStore<K, V>> Segmented<K, V, C, R> {
    /// Invalidates all entries of all segments: no lookup finds a value that was stored before.
    /// Each is noticed once it is removed. Has no moment, and does not allocate.
    ///
    /// # Complexity
    ///
    /// Visits every entry.
    pub fn invalidate_all(&mut self)
        ensures stands { ⟦<C as SegmentedStateView<K, V>>⟧.follows_in
            self.old InvalidateAll self.new }
        ensures settings { self.new.settings ≡ self.old.settings }
    {
        for index in 0..self.segments.len() {
            self.segments[index].invalidate_all();
        }
    }

    /// Runs maintenance in each segment, in order. Does not allocate.
    ///
    /// # Complexity
    ///
    /// That of a state's `run_pending_tasks`, in each segment.
    pub fn run_pending_tasks(&mut self, now: u64)
        ensures stands { ⟦<C as SegmentedStateView<K, V>>⟧.follows_in
            self.old (RunPendingTasks now) self.new }

        // Afterwards every stored entry is live, and the weight of each segment is within its share
        // of the capacity. Without a weigher, so is the number of its entries.
        ensures all_live { ⟦<C as SegmentedStateView<K, V>>⟧.at_each_list self.old
            (λ settings calls. AllLiveIn K.eq settings calls now self.new) }
        ensures within { ⟦<C as SegmentedStateView<K, V>>⟧.at_each_list self.old (λ settings _.
            WeighWithinShares settings self.new) }
        ensures count { ⟦<C as SegmentedStateView<K, V>>⟧.at_each_list self.old (λ settings _.
            self.new.settings.behaviour.weigher ≡ None → CountWithinShares settings self.new) }
        ensures settings { self.new.settings ≡ self.old.settings }
    {
        for index in 0..self.segments.len() {
            self.segments[index].run_pending_tasks(now);
        }
    }

    /// Runs maintenance in each segment, in order, but evicts at most `limit` entries in each.
    /// Returns whether any segment left something to do. Does not allocate.
    ///
    /// # Complexity
    ///
    /// That of a state's `run_pending_tasks_up_to`, in each segment.
    pub fn run_pending_tasks_up_to(&mut self, limit: u64, now: u64) -> bool
        ensures reply { ⟦<C as SegmentedStateView<K, V>>⟧.replies_in
            self.old (RunPendingTasksUpTo limit now) (Left result) }
        ensures stands { ⟦<C as SegmentedStateView<K, V>>⟧.follows_in
            self.old (RunPendingTasksUpTo limit now) self.new }

        // In each segment at most `limit` entries are evicted, and at most as many notices queued.
        ensures fewer { FewLeft limit self.old.segments self.new.segments }
        ensures noticed { FewNoticed limit self.old.segments self.new.segments }

        // If no segment has a part left to do, everything is as after a whole maintenance.
        ensures whole { result ≡ false → ⟦<C as SegmentedStateView<K, V>>⟧.follows_in
            self.old (RunPendingTasks now) self.new }
        ensures all_live { result ≡ false → ⟦<C as SegmentedStateView<K, V>>⟧.at_each_list self.old
            (λ settings calls. AllLiveIn K.eq settings calls now self.new) }
        ensures within { result ≡ false → ⟦<C as SegmentedStateView<K, V>>⟧.at_each_list self.old
            (λ settings _. WeighWithinShares settings self.new) }
        ensures count { result ≡ false → ⟦<C as SegmentedStateView<K, V>>⟧.at_each_list self.old
            (λ settings _. self.new.settings.behaviour.weigher ≡ None
            → CountWithinShares settings self.new) }
        ensures settings { self.new.settings ≡ self.old.settings }
    {
        let mut is_left = false;
        for index in 0..self.segments.len() {
            is_left |= self.segments[index].run_pending_tasks_up_to(limit, now);
        }
        is_left
    }

    /// Returns the number of stored entries in all segments, with those that are pending or
    /// expired. It is at most `u64::MAX`.
    pub fn entry_count(&self) -> u64
        ensures counted { result ≡ min
            (sum_below (stored_at self.now.segments) (length self.now.segments)) greatest_number }
        ensures reply { ⟦<C as SegmentedStateView<K, V>>⟧.replies_in
            self.now EntryCount (Counted result) }
        ensures stands { ⟦<C as SegmentedStateView<K, V>>⟧.follows_in self.now EntryCount self.now }
    {
        let mut count: u64 = 0;
        for index in 0..self.segments.len() {
            count = count.saturating_add(self.segments[index].entry_count());
        }
        count
    }

    /// Returns the total weight of the stored entries in all segments, with those that are pending
    /// or expired. It is at most `u64::MAX`.
    pub fn weighted_size(&self) -> u64
        ensures counted { result ≡ min
            (sum_below (weight_at self.now.segments) (length self.now.segments)) greatest_number }
        ensures reply { ⟦<C as SegmentedStateView<K, V>>⟧.replies_in
            self.now WeightedSize (Counted result) }
        ensures stands { ⟦<C as SegmentedStateView<K, V>>⟧.follows_in
            self.now WeightedSize self.now }
    {
        let mut weight: u64 = 0;
        for index in 0..self.segments.len() {
            weight = weight.saturating_add(self.segments[index].weighted_size());
        }
        weight
    }

    /// Returns the number of notices in all segments that were not taken. It is at most
    /// `usize::MAX`.
    #[doc(hidden)]
    pub fn notice_count(&self) -> usize
        ensures { result ≡ min (notices_queued self.now.segments) greatest_number }
    {
        let mut count: usize = 0;
        for index in 0..self.segments.len() {
            count = count.saturating_add(self.segments[index].notice_count());
        }
        count
    }

    /// Invalidates each entry of which `predicate` holds, in all segments. Has no moment, and does
    /// not allocate.
    ///
    /// Calls the predicate once for each stored entry. Entries that are written later are not
    /// affected.
    ///
    /// # Errors
    ///
    /// - `InvalidationClosuresDisabled`: the cache was built without support for closures.
    ///
    /// # Complexity
    ///
    /// Visits every entry.
    pub fn invalidate_entries_if(&mut self, predicate: C::Predicate) -> Result<(), PredicateError>
        requires tests { C.Predicate.tests predicate (C.test predicate) }
        ensures stands { OnOk result (⟦<C as SegmentedStateView<K, V>>⟧.follows_in
            self.old (InvalidateIf (C.test predicate)) self.new) }
        ensures accepted { ⟦<C as SegmentedStateView<K, V>>⟧.at_each_list self.old (λ settings _.
            IsOk result ↔ (settings.whole.supports_closures ≡ true)) }
        ensures cause { IfErr result
            (λ cause. cause ≡ PredicateError.InvalidationClosuresDisabled) }
        ensures refused { OnErr result (self.new ≡ self.old) }
        ensures settings { self.new.settings ≡ self.old.settings }
    {
        self.check_closures_enabled()?;
        self.hide_in_all(&predicate);
        Ok(())
    }

    /// Invalidates as [`Segmented::invalidate_entries_if`] does, by a shared predicate.
    ///
    /// # Errors
    ///
    /// - `InvalidationClosuresDisabled`: the cache was built without support for closures.
    ///
    /// # Complexity
    ///
    /// Visits every entry.
    pub fn invalidate_entries_with_arc_fun(
        &mut self,
        predicate: Arc<C::Predicate>,
    ) -> Result<(), PredicateError>
        requires tests { C.Predicate.tests (arc_value predicate) (C.test (arc_value predicate)) }
        ensures stands { OnOk result (⟦<C as SegmentedStateView<K, V>>⟧.follows_in
            self.old (InvalidateIf (C.test (arc_value predicate))) self.new) }
        ensures accepted { ⟦<C as SegmentedStateView<K, V>>⟧.at_each_list self.old (λ settings _.
            IsOk result ↔ (settings.whole.supports_closures ≡ true)) }
        ensures cause { IfErr result
            (λ cause. cause ≡ PredicateError.InvalidationClosuresDisabled) }
        ensures refused { OnErr result (self.new ≡ self.old) }
        ensures settings { self.new.settings ≡ self.old.settings }
    {
        self.check_closures_enabled()?;
        self.hide_in_all(&predicate);
        Ok(())
    }

    // Checks that every segment supports closures. Changes nothing.
    fn check_closures_enabled(&mut self) -> Result<(), PredicateError>
        ensures accepted { IsOk result ↔ ((i : ℕ) → IfSome (slice_get self.old.segments i)
            (λ state. state.settings.supports_closures ≡ true)) }
        ensures cause { IfErr result
            (λ cause. cause ≡ PredicateError.InvalidationClosuresDisabled) }
        ensures same { self.new ≡ self.old }
    {
        for index in 0..self.segments.len() {
            self.segments[index].predicate_room()?;
        }
        Ok(())
    }

    // Invalidates by a predicate in all segments, each of which supports closures.
    fn hide_in_all(&mut self, predicate: &C::Predicate)
        requires tests { C.Predicate.tests predicate.now (C.test predicate.now) }
        requires supported { (i : ℕ) → IfSome (slice_get self.old.segments i)
            (λ state. state.settings.supports_closures ≡ true) }
        ensures stands { ⟦<C as SegmentedStateView<K, V>>⟧.follows_in
            self.old (InvalidateIf (C.test predicate.now)) self.new }
        ensures settings { self.new.settings ≡ self.old.settings }
    {
        for index in 0..self.segments.len() {
            self.segments[index].hide_where(predicate);
        }
    }
}
