//! Steps and runs of steps over several segments.
ghost use Rattle.std.specs.Prelude.{◌≡◌, ◌+◌, ◌≤◌, None, length, option_map, IfOk, IfErr, IfSome, OnErr};
ghost use Rattle.std.specs.List.{AllByRecursion};
ghost use Rattle.moka_model.specs.Numbers.{flush_point};
ghost use Rattle.moka_state.specs.State.{all_writes};
ghost use Rattle.moka_state.specs.Step.{call_of, StepKeeps, ReplyKeeps};
ghost use Rattle.moka_segment_model.specs.Segments.{key_in, share, segments_of};
ghost use Rattle.moka_segmented.specs.Conserved.{IsConservedIn};
ghost use Rattle.moka_segmented.specs.Step.{IsReplyIn, after_reply_in, IsRunIn, after_all_in};

use crate::segment::Segmented;
use crate::segmented_view::SegmentedStateView;
use moka_policy::policy::{CacheTypes, Refused};
use moka_rows::rows::RowStore;
use moka_state::step::{Reply, Step};
use std::collections::VecDeque;
use std::hash::Hash;

impl<K: Hash + Drop, V: Clone, C: CacheTypes<K, V>, R: RowStore<K, V>> Segmented<K, V, C, R> {
    /// Makes the call that a step describes, and returns its reply.
    ///
    /// A step of a key goes to the key's segment. One of a turn goes to the segment of its name's
    /// key. `TakeNotice` takes from the first segment that has a notice. Any other step goes to all.
    /// A failed step drops what it carried.
    pub fn step(&mut self, step: Step<K, V, C>) -> Reply<K, V, C>
        requires { StepKeeps C.keeps C.Predicate.tests C.test step }
        ensures reply { ⟦<C as SegmentedStateView<K, V>>⟧.at_each_list self.old (λ settings calls.
            IsReplyIn C.Error K.eq V.is_clone V.is_infallible settings calls
            (call_of C.test step) result) }
        ensures stands { ⟦<C as SegmentedStateView<K, V>>⟧.at_each_list self.old (λ settings calls.
            ⟦<C as SegmentedStateView<K, V>>⟧.all_stand_for settings self.new
            (after_reply_in (call_of C.test step) result calls)) }
        ensures kept { ReplyKeeps C.keeps step result }
        ensures settings { self.new.settings ≡ self.old.settings }
    {
        let place = match key_of(&step) {
            Some(key) => self.place_of(key),
            None => return self.step_of_all(step),
        };
        self.segments[place.index].step_with_hash(step, place.hash)
    }

    // Makes a step that has no key.
    fn step_of_all(&mut self, step: Step<K, V, C>) -> Reply<K, V, C>
        requires keeps { StepKeeps C.keeps C.Predicate.tests C.test step }
        requires keyless { key_in (call_of C.test step) ≡ None }
        ensures reply { ⟦<C as SegmentedStateView<K, V>>⟧.at_each_list self.old (λ settings calls.
            IsReplyIn C.Error K.eq V.is_clone V.is_infallible settings calls
            (call_of C.test step) result) }
        ensures stands { ⟦<C as SegmentedStateView<K, V>>⟧.at_each_list self.old (λ settings calls.
            ⟦<C as SegmentedStateView<K, V>>⟧.all_stand_for settings self.new
            (after_reply_in (call_of C.test step) result calls)) }
        ensures kept { ReplyKeeps C.keeps step result }
        ensures settings { self.new.settings ≡ self.old.settings }
    {
        match step {
            Step::InvalidateAll => {
                self.invalidate_all();
                Reply::Done
            }
            Step::InvalidateIf { predicate } => {
                match self.invalidate_entries_with_arc_fun(predicate) {
                    Ok(()) => Reply::Done,
                    Err(refused) => Reply::PredicateRefused(refused),
                }
            }
            Step::RunPendingTasks { now } => {
                self.run_pending_tasks(now);
                Reply::Done
            }
            Step::RunPendingTasksUpTo { limit, now } => {
                Reply::Left(self.run_pending_tasks_up_to(limit, now))
            }
            Step::EntryCount => Reply::Counted(self.entry_count()),
            Step::WeightedSize => Reply::Counted(self.weighted_size()),
            Step::TakeNotice => Reply::Noticed(self.take_notice()),
            Step::Get { .. }
            | Step::ContainsKey { .. }
            | Step::Insert { .. }
            | Step::OrInsert { .. }
            | Step::Invalidate { .. }
            | Step::Remove { .. }
            | Step::Begin { .. }
            | Step::BeginCompute { .. }
            | Step::Finish { .. }
            | Step::Abandon { .. }
            | Step::Collect { .. }
            | Step::Leave { .. } => unreachable!(),
        }
    }

    /// Makes steps in order, and returns their replies.
    ///
    /// Afterwards each segment has its own history, a filter of the list of all calls. Each reply
    /// is that of a cache with the segment's share. With a capacity and without a weigher, each
    /// segment then stores at most its share plus 64 entries.
    ///
    /// # Errors
    ///
    /// - `OutOfMemory`: allocating the list of replies failed. No step was made.
    pub fn run(&mut self, steps: Vec<Step<K, V, C>>) -> Result<Vec<Reply<K, V, C>>, Refused>
        requires { AllByRecursion (StepKeeps C.keeps C.Predicate.tests C.test) steps.items }
        ensures replies { IfOk result (λ replies.
            ⟦<C as SegmentedStateView<K, V>>⟧.at_each_list self.old (λ settings before.
            IsRunIn C.test K.eq V.is_clone V.is_infallible settings before
            steps.items replies.items)) }
        ensures stands { IfOk result (λ replies.
            ⟦<C as SegmentedStateView<K, V>>⟧.at_each_list self.old (λ settings before.
            ⟦<C as SegmentedStateView<K, V>>⟧.all_stand_for settings self.new
            (after_all_in C.test steps.items replies.items before))) }

        // Nothing is lost or doubled in any segment: each pair that was written there is stored
        // there, or its notice is queued there, or the segment gave it out, before the run or in
        // the replies.
        ensures conserved { IfOk result (λ replies.
            ⟦<C as SegmentedStateView<K, V>>⟧.at_each_list self.old (λ settings before.
            IsConservedIn K.eq C.test settings before steps.items replies.items
            self.new.segments)) }
        ensures bounded { IfOk result (λ _. ⟦<C as SegmentedStateView<K, V>>⟧.at_each_list self.old
            (λ settings _. self.new.settings.behaviour.weigher ≡ None → IfSome
            self.new.settings.max_capacity (λ capacity. AllByRecursion (λ state. length
            (all_writes state) ≤ share (segments_of settings) capacity + flush_point)
            self.new.segments))) }
        ensures refused { OnErr result (self.new ≡ self.old) }
        ensures cause { IfErr result (λ cause. cause ≡ Refused.OutOfMemory) }
        ensures settings { self.new.settings ≡ self.old.settings }
    {
        let Ok(mut replies) = Vec::with_capacity(self.alloc(), steps.len()) else {
            return Err(Refused::OutOfMemory);
        };
        let mut left = VecDeque::from_vec(steps);
        while let Some(step) = left.pop_front() {
            let reply = self.step(step);
            replies.push_reserved(reply);
        }
        Ok(replies)
    }
}

// Returns the key of a step, if it has one.
fn key_of<'a, K: Hash + Drop, V: Clone, C: CacheTypes<K, V>>(
    step: &'a Step<K, V, C>,
) -> Option<&'a K>
    ensures { option_map (λ key. key.now) result ≡ key_in (call_of C.test step.now) }
{
    match step {
        Step::Get { key, .. }
        | Step::ContainsKey { key, .. }
        | Step::Insert { key, .. }
        | Step::OrInsert { key, .. }
        | Step::Invalidate { key, .. }
        | Step::Remove { key, .. }
        | Step::Begin { key, .. }
        | Step::BeginCompute { key, .. } => Some(&**key),
        Step::Finish { name, .. }
        | Step::Abandon { name }
        | Step::Collect { name }
        | Step::Leave { name } => Some(&*name.key),
        _ => None,
    }
}
