//! Calls and their replies as data: single steps, and runs of steps.
ghost use Rattle.std.specs.Prelude.{◌≡◌, ◌+◌, ◌≤◌, ◌++◌, length, None, IfOk, IfErr, IfSome, OnErr};
ghost use Rattle.std.specs.Arc.{arc_value};
ghost use Rattle.std.specs.List.{AllByRecursion};
ghost use Rattle.moka_model.specs.Numbers.{flush_point};
ghost use Rattle.moka_model.specs.Calls.{Get, Insert, InvalidateIf, OrInsert, Remove};
ghost use Rattle.moka_model.specs.Steps.{events_in};
ghost use Rattle.moka_model.specs.Conserved.{given_out, IsConserved};
ghost use Rattle.moka_state.specs.State.{all_writes};
ghost use Rattle.moka_state.specs.Hashes.{IsHashOf, IsHashOfStep};
ghost use Rattle.moka_state.specs.Noticed.{noticed_in};
ghost use Rattle.moka_state.specs.Replies.{IsRefusal};
ghost use Rattle.moka_state.specs.Step.{call_of, StepKeeps, ReplyKeeps, IsRun, after_all};
ghost use Rattle.moka_state.specs.Ends.{GoesOn, RepliesTo};

use crate::call_view::CallView;
use crate::or_insert::OrInsertRefused;
use crate::state::{InsertRefused, State};
use moka_expiration::view::StateView;
use moka_model::comp_result::CompResult;
use moka_model::entry::Entry;
use moka_model::notification::Notice;
use moka_model::turns::{Kind, Outcome};
use moka_policy::policy::{CacheTypes, Refused};
use moka_predicate_ids::predicate_error::PredicateError;
use moka_rows::rows::RowStore;
use moka_turns::turn_name::TurnName;
use std::collections::VecDeque;
use std::hash::Hash;
use std::sync::Arc;

/// One call on a cache, with its arguments, as data. `now` is the moment of the call, in
/// nanoseconds. A turn or a ticket appears by its name.
#[derive(Drop)]
pub enum Step<K: Eq, V: Clone, C: CacheTypes<K, V>> {
    /// [`State::get`]: a recorded lookup that returns the live value.
    Get {
        key: Arc<K>,
        now: u64,
    },
    /// [`State::contains_key`]: a lookup that records nothing.
    ContainsKey {
        key: Arc<K>,
        now: u64,
    },
    /// [`State::insert`]: a write.
    Insert {
        key: Arc<K>,
        value: V,
        now: u64,
    },
    /// [`State::or_insert`]: a recorded lookup and, if it finds no value, a write.
    OrInsert {
        key: Arc<K>,
        value: V,
        now: u64,
    },
    /// [`State::invalidate`]: a removal.
    Invalidate {
        key: Arc<K>,
        now: u64,
    },
    /// [`State::remove`]: a removal that returns the live value.
    Remove {
        key: Arc<K>,
        now: u64,
    },
    /// [`State::invalidate_all`]: an invalidation of all entries.
    InvalidateAll,
    /// [`State::invalidate_entries_with_arc_fun`]: an invalidation of the entries of which a
    /// predicate holds.
    InvalidateIf {
        predicate: Arc<C::Predicate>,
    },
    /// [`State::run_pending_tasks`]: a whole maintenance.
    RunPendingTasks {
        now: u64,
    },
    /// [`State::run_pending_tasks_up_to`]: a maintenance that evicts at most `limit` entries.
    RunPendingTasksUpTo {
        limit: u64,
        now: u64,
    },
    /// [`State::entry_count`]: the number of stored entries.
    EntryCount,
    /// [`State::weighted_size`]: the total weight of the stored entries.
    WeightedSize,
    /// [`State::take_notice`]: the oldest queued notice.
    TakeNotice,
    /// [`State::begin`]: the begin of a turn. `replace` is what `replace_if` returns for any live
    /// value, or `None` without a `replace_if`.
    Begin {
        key: Arc<K>,
        kind: Kind,
        replace: Option<bool>,
        now: u64,
    },
    /// [`State::begin_compute`]: the begin of a compute. `keep` is whether a clone of the live
    /// value is saved.
    BeginCompute {
        key: Arc<K>,
        keep: bool,
        now: u64,
    },
    /// [`State::finish`]: the end of a turn with an outcome.
    Finish {
        name: TurnName<K>,
        outcome: Outcome<V, Arc<C::Error>>,
        now: u64,
    },
    /// [`State::abandon`]: the end of a turn without an outcome.
    Abandon {
        name: TurnName<K>,
    },
    /// [`State::collect`]: a ticket is exchanged for the outcome of its turn.
    Collect {
        name: TurnName<K>,
    },
    /// [`State::leave`]: a ticket is spent without the outcome of its turn.
    Leave {
        name: TurnName<K>,
    },
}

/// The result of a call, as data. A turn or a ticket appears by its name.
#[derive(Drop)]
pub enum Reply<K: Eq, V: Clone, C: CacheTypes<K, V>> {
    /// The live value that `Get` found or that `Remove` removed, if there was one.
    Found(Option<V>),
    /// Whether `ContainsKey` found a live value.
    Contains(bool),
    /// The call succeeded, and has no result.
    Done,
    /// The number of entries from `EntryCount`, or the total weight from `WeightedSize`.
    Counted(u64),
    /// Whether `RunPendingTasksUpTo` left a part to do.
    Left(bool),
    /// The notice from `TakeNotice`, if one was queued.
    Noticed(Option<Notice<K, V>>),
    /// The entry that `Begin` or `OrInsert` found, that `Finish` or `OrInsert` wrote, or that
    /// `Collect` returned.
    Entered(Entry<K, V>),
    /// `Begin` or `BeginCompute` opened this turn. A compute also gets the live entry, if there is
    /// one.
    Run(TurnName<K>, Option<Entry<K, V>>),
    /// `Begin` or `BeginCompute` has to wait for this turn.
    Wait(TurnName<K>),
    /// The turn ended without a value.
    Nothing,
    /// The turn ended with an error instead of a value.
    Failed(Arc<C::Error>),
    /// The result of a compute that `Finish` ended.
    Computed(CompResult<K, V>),
    /// The turn of `Collect` is still open.
    NotYet,
    /// The turn of `Collect` was abandoned.
    Abandoned,
    /// The turn of `Collect` was a compute, and has ended.
    Ended,
    /// The call failed, and changed nothing.
    Refused(Refused),
    /// `InvalidateIf` failed, and changed nothing.
    PredicateRefused(PredicateError),
}

impl<K: Hash + Drop, V: Clone, C: CacheTypes<K, V>, R: RowStore<K, V>> State<K, V, C, R> {
    /// Does one step, and returns the result of its call.
    ///
    /// An `or_default` is an `OrInsert` of the default value. A `Begin` of kind `Compute` is a
    /// `BeginCompute` that saves no clone.
    ///
    /// # Errors
    ///
    /// A failed step changes nothing, and what it contains is dropped. It fails as its call does,
    /// and with `UnknownTurn` if the outcome of a `Finish` does not fit the kind of its name.
    /// `OutOfMemory` is possible only for
    ///
    /// - an `Insert` (unless the capacity is 0), an `OrInsert`, a `Begin` or a `BeginCompute`;
    /// - a `Get` or a `Remove` that finds a live value whose clone can fail;
    /// - a `Finish` with a value, with an error, or with the removal of such a live value;
    /// - a `Collect` that returns a value or an error.
    pub fn step(&mut self, step: Step<K, V, C>) -> Reply<K, V, C>
        requires { StepKeeps C.keeps C.Predicate.tests C.test step }
        ensures reply { RepliesTo ⟦<C as CallView<K, V>>⟧.spec self.old (call_of C.test step)
            result }
        ensures stands { GoesOn ⟦<C as CallView<K, V>>⟧.spec self.old (call_of C.test step) result
            self.new }
        ensures kept { ReplyKeeps C.keeps step result }
        ensures refused { IsRefusal result → self.new ≡ self.old }
        ensures settings { self.new.settings ≡ self.old.settings }
    {
        let hash = self.hash_of_step(&step);
        self.step_with_hash(step, hash)
    }

    /// Works like [`State::step`], given the hash of the step's key, as [`State::hash`] returns it.
    /// The key is not hashed again, except in a step of a turn. For a step without a key, any
    /// number will do.
    #[doc(hidden)]
    pub fn step_with_hash(&mut self, step: Step<K, V, C>, hash: u64) -> Reply<K, V, C>
        requires hash { IsHashOfStep (⟦<C as StateView<K, V>>⟧.settings self.old.settings)
            step hash }
        requires keeps { StepKeeps C.keeps C.Predicate.tests C.test step }
        ensures reply { RepliesTo ⟦<C as CallView<K, V>>⟧.spec self.old (call_of C.test step)
            result }
        ensures stands { GoesOn ⟦<C as CallView<K, V>>⟧.spec self.old (call_of C.test step) result
            self.new }
        ensures kept { ReplyKeeps C.keeps step result }
        ensures refused { IsRefusal result → self.new ≡ self.old }
        ensures settings { self.new.settings ≡ self.old.settings }
    {
        match step {
            Step::Get { key, now } => self.step_get(key, hash, now),
            Step::ContainsKey { key, now } => {
                Reply::Contains(self.contains_key_with_hash(&*key, hash, now))
            }
            Step::Insert { key, value, now } => self.step_insert(key, hash, value, now),
            Step::OrInsert { key, value, now } => self.step_or_insert(key, hash, value, now),
            Step::Invalidate { key, now } => {
                self.invalidate_with_hash(&*key, hash, now);
                Reply::Done
            }
            Step::Remove { key, now } => self.step_remove(key, hash, now),
            Step::InvalidateAll => {
                self.invalidate_all();
                Reply::Done
            }
            Step::InvalidateIf { predicate } => self.step_invalidate_if(predicate),
            Step::RunPendingTasks { now } => {
                self.run_pending_tasks(now);
                Reply::Done
            }
            Step::RunPendingTasksUpTo { limit, now } => {
                Reply::Left(self.run_pending_tasks_up_to(limit, now))
            }
            Step::EntryCount => Reply::Counted(self.entry_count()),
            Step::WeightedSize => Reply::Counted(self.weighted_size()),
            Step::TakeNotice => Reply::Noticed(self.take_notice()),
            Step::Begin {
                key,
                kind,
                replace,
                now,
            } => self.step_begin(key, kind, replace, now),
            Step::BeginCompute { key, keep, now } => self.step_begin_compute(key, keep, now),
            Step::Finish { name, outcome, now } => self.step_finish(name, outcome, now),
            Step::Abandon { name } => self.step_abandon(name),
            Step::Collect { name } => self.step_collect(name),
            Step::Leave { name } => self.step_leave(name),
        }
    }

    // Does a `Get`.
    fn step_get(&mut self, key: Arc<K>, hash: u64, now: u64) -> Reply<K, V, C>
        requires hash { IsHashOf (⟦<C as StateView<K, V>>⟧.settings self.old.settings)
            (arc_value key) hash }
        ensures reply { RepliesTo ⟦<C as CallView<K, V>>⟧.spec self.old
            (Get (arc_value key) now) result }
        ensures stands { GoesOn ⟦<C as CallView<K, V>>⟧.spec self.old
            (Get (arc_value key) now) result self.new }
        ensures kept { ReplyKeeps C.keeps (Step.Get key now) result }
        ensures refused { IsRefusal result → self.new ≡ self.old }
        ensures settings { self.new.settings ≡ self.old.settings }
    {
        match self.get_with_hash(&*key, hash, now) {
            Ok(found) => Reply::Found(found),
            Err(refused) => Reply::Refused(refused),
        }
    }

    // Does an `Insert`.
    fn step_insert(&mut self, key: Arc<K>, hash: u64, value: V, now: u64) -> Reply<K, V, C>
        requires hash { IsHashOf (⟦<C as StateView<K, V>>⟧.settings self.old.settings)
            (arc_value key) hash }
        requires keeps { C.keeps (arc_value key) value }
        ensures reply { RepliesTo ⟦<C as CallView<K, V>>⟧.spec self.old
            (Insert (arc_value key) value now) result }
        ensures stands { GoesOn ⟦<C as CallView<K, V>>⟧.spec self.old
            (Insert (arc_value key) value now) result self.new }
        ensures kept { ReplyKeeps C.keeps (Step.Insert key value now) result }
        ensures refused { IsRefusal result → self.new ≡ self.old }
        ensures settings { self.new.settings ≡ self.old.settings }
    {
        match self.write(key, hash, value, now) {
            Ok(_) => Reply::Done,
            Err(InsertRefused { cause, .. }) => Reply::Refused(cause),
        }
    }

    // Does an `OrInsert`.
    fn step_or_insert(&mut self, key: Arc<K>, hash: u64, value: V, now: u64) -> Reply<K, V, C>
        requires hash { IsHashOf (⟦<C as StateView<K, V>>⟧.settings self.old.settings)
            (arc_value key) hash }
        requires keeps { C.keeps (arc_value key) value }
        ensures reply { RepliesTo ⟦<C as CallView<K, V>>⟧.spec self.old
            (OrInsert (arc_value key) value now) result }
        ensures stands { GoesOn ⟦<C as CallView<K, V>>⟧.spec self.old
            (OrInsert (arc_value key) value now) result self.new }
        ensures kept { ReplyKeeps C.keeps (Step.OrInsert key value now) result }
        ensures refused { IsRefusal result → self.new ≡ self.old }
        ensures settings { self.new.settings ≡ self.old.settings }
    {
        match self.or_insert_with_hash(&key, hash, value, now) {
            Ok(entry) => Reply::Entered(entry),
            Err(OrInsertRefused { cause, .. }) => Reply::Refused(cause),
        }
    }

    // Does a `Remove`.
    fn step_remove(&mut self, key: Arc<K>, hash: u64, now: u64) -> Reply<K, V, C>
        requires hash { IsHashOf (⟦<C as StateView<K, V>>⟧.settings self.old.settings)
            (arc_value key) hash }
        ensures reply { RepliesTo ⟦<C as CallView<K, V>>⟧.spec self.old
            (Remove (arc_value key) now) result }
        ensures stands { GoesOn ⟦<C as CallView<K, V>>⟧.spec self.old
            (Remove (arc_value key) now) result self.new }
        ensures kept { ReplyKeeps C.keeps (Step.Remove key now) result }
        ensures refused { IsRefusal result → self.new ≡ self.old }
        ensures settings { self.new.settings ≡ self.old.settings }
    {
        match self.remove_with_hash(&*key, hash, now) {
            Ok(removed) => Reply::Found(removed),
            Err(refused) => Reply::Refused(refused),
        }
    }

    // Does an `InvalidateIf`.
    fn step_invalidate_if(&mut self, predicate: Arc<C::Predicate>) -> Reply<K, V, C>
        requires tests { C.Predicate.tests (arc_value predicate) (C.test (arc_value predicate)) }
        ensures reply { RepliesTo ⟦<C as CallView<K, V>>⟧.spec self.old
            (InvalidateIf (C.test (arc_value predicate))) result }
        ensures stands { GoesOn ⟦<C as CallView<K, V>>⟧.spec self.old
            (InvalidateIf (C.test (arc_value predicate))) result self.new }
        ensures kept { ReplyKeeps C.keeps (Step.InvalidateIf predicate) result }
        ensures refused { IsRefusal result → self.new ≡ self.old }
        ensures settings { self.new.settings ≡ self.old.settings }
    {
        match self.invalidate_entries_with_arc_fun(predicate) {
            Ok(()) => Reply::Done,
            Err(refused) => Reply::PredicateRefused(refused),
        }
    }

    // Returns the hash of a step's key, or 0 if it has none.
    fn hash_of_step(&self, step: &Step<K, V, C>) -> u64
        ensures { IsHashOfStep (⟦<C as StateView<K, V>>⟧.settings self.now.settings)
            step.now result }
    {
        match step {
            Step::Get { key, .. }
            | Step::ContainsKey { key, .. }
            | Step::Insert { key, .. }
            | Step::OrInsert { key, .. }
            | Step::Invalidate { key, .. }
            | Step::Remove { key, .. }
            | Step::Begin { key, .. }
            | Step::BeginCompute { key, .. } => self.hash(&**key),
            Step::Finish { name, .. }
            | Step::Abandon { name }
            | Step::Collect { name }
            | Step::Leave { name } => self.hash(&*name.key),
            _ => 0,
        }
    }

    /// Does the steps in order, and returns their replies. Afterwards, with a capacity and without
    /// a weigher, at most the capacity plus 64 entries are stored.
    ///
    /// # Errors
    ///
    /// - `OutOfMemory`: the list of replies could not be allocated. No step was done.
    pub fn run(&mut self, steps: Vec<Step<K, V, C>>) -> Result<Vec<Reply<K, V, C>>, Refused>
        requires { AllByRecursion (StepKeeps C.keeps C.Predicate.tests C.test) steps.items }
        ensures replies { IfOk result (λ replies.
            ⟦<C as StateView<K, V>>⟧.at_each_history self.old (λ settings before.
            IsRun K.eq C.test settings V.is_clone V.is_infallible before
            steps.items replies.items)) }
        ensures stands { IfOk result (λ replies.
            ⟦<C as StateView<K, V>>⟧.at_each_history self.old (λ settings before.
            ⟦<C as StateView<K, V>>⟧.stands_for settings self.new
            (after_all K.eq C.test settings steps.items replies.items before))) }

        // Nothing is lost or doubled: each written pair is stored, or its notice is queued, or was
        // given out. That happened before the run or in its replies; with a new cache, only in its
        // replies.
        ensures conserved { IfOk result (λ replies.
            ⟦<C as StateView<K, V>>⟧.at_each_history self.old (λ settings before. IsConserved K.eq
            settings (events_in (after_all K.eq C.test settings steps.items replies.items before))
            self.new.books (given_out K.eq settings (events_in before)
            ++ noticed_in replies.items))) }
        ensures bounded { IfOk result (λ _.
            ⟦<C as StateView<K, V>>⟧.at_each_history self.old (λ _ _.
            self.new.settings.behaviour.weigher ≡ None →
            IfSome self.new.settings.max_capacity (λ capacity.
            length (all_writes self.new) ≤ capacity + flush_point))) }
        ensures refused { OnErr result (self.new ≡ self.old) }
        ensures cause { IfErr result (λ cause. cause ≡ Refused.OutOfMemory) }
        ensures settings { self.new.settings ≡ self.old.settings }
    {
        let Ok(mut replies) = Vec::with_capacity(self.alloc(), steps.len()) else {
            return Err(Refused::OutOfMemory);
        };
        let mut left = VecDeque::from_vec(steps);
        while let Some(step) = left.pop_front() {
            let reply = self.step(step);
            replies.push_reserved(reply);
        }
        Ok(replies)
    }
}
