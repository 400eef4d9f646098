//! Clones of what a step will hand out, made before the step is done.
ghost use Rattle.std.specs.Prelude.{◌≡◌, ℕ, Option, Some, None, true, false, IsTrue, IsSome, IfOk, IfSome, option_map};
ghost use Rattle.std.specs.Arc.{arc_value};
ghost use Rattle.moka_model.specs.Turns.{Name, End, found, has_ticket_as, is_open_as, is_open_for};
ghost use Rattle.moka_model.specs.Steps.{events_in, turns};
ghost use Rattle.moka_model.specs.Calls.{IsCopyOf, IsCopiedEnd, collected, live_at};
ghost use Rattle.moka_model.specs.Calls.{Collect, Finish, OrInsert, TakeNotice, entry_of};
ghost use Rattle.moka_turns.specs.Handles.{name_by};
ghost use Rattle.moka_turns.specs.Represents.{end_of};
ghost use Rattle.moka_state.specs.Finish.{outcome_of};
ghost use Rattle.moka_state.specs.HandedOut.{HandsOut, HasEntry, HasName, HidesLive, IsPairOf};
ghost use Rattle.moka_state.specs.Step.{call_of};
ghost use Rattle.moka_state.specs.Ends.{HandsOutAt};

use crate::call_view::CallView;
use crate::state::State;
use crate::step::Step;
use moka_expiration::view::StateView;
use moka_model::notification::Notice;
use moka_model::turns::{Kind, Op, Outcome};
use moka_policy::policy::{CacheTypes, Refused};
use moka_rows::rows::RowStore;
use moka_turns::table::TurnEnd;
use moka_turns::turn_key::TurnKey;
use moka_turns::turn_name::TurnName;
use std::alloc::AllocError;
use std::hash::Hash;
use std::sync::Arc;

/// Clones of what a step may hand out: a value, and the keys and the error that belong to it. Some
/// may not be needed in the end.
#[derive(Drop)]
pub(crate) struct HandedOut<K, V, E> {
    /// The value.
    pub(crate) value: Option<V>,
    /// The key of the value's entry.
    pub(crate) key: Option<Arc<K>>,
    /// The key in the name of a turn.
    pub(crate) name: Option<Arc<K>>,
    /// The error of a turn.
    pub(crate) error: Option<Arc<E>>,
    /// The notice that is taken.
    pub(crate) notice: Option<Notice<K, V>>,
}

// Makes one with only this value and its key.
fn hand_out_pair<K, V, E>(key: Arc<K>, value: Option<V>) -> HandedOut<K, V, E>
    ensures { result
        ≡ record { value = value; key = Some key; name = None; error = None; notice = None } }
{
    HandedOut {
        value,
        key: Some(key),
        name: None,
        error: None,
        notice: None,
    }
}

// Makes one with only this error.
fn hand_out_error<K, V, E>(error: Arc<E>) -> HandedOut<K, V, E>
    ensures { result
        ≡ record { value = None; key = None; name = None; error = Some error; notice = None } }
{
    HandedOut {
        value: None,
        key: None,
        name: None,
        error: Some(error),
        notice: None,
    }
}

// Makes one with only this notice, if there is one.
fn hand_out_notice<K, V, E>(notice: Option<Notice<K, V>>) -> HandedOut<K, V, E>
    ensures { result
        ≡ record { value = None; key = None; name = None; error = None; notice = notice } }
{
    HandedOut {
        value: None,
        key: None,
        name: None,
        error: None,
        notice,
    }
}

// Makes what a ticket gets from this end, if its turn has ended.
fn hand_out_end<K: Drop, V: Clone, E: Drop>(
    key: Arc<K>,
    end: Option<TurnEnd<V, E>>,
) -> HandedOut<K, V, E>
    ensures { (name : Name K) (number : ℕ) (own : Option (End V E)) → arc_value key ≡ name.key
        → IsCopiedEnd V.is_clone own (option_map end_of end)
        → HandsOut V.is_clone (collected name number own).reply result }
{
    match end {
        Some(TurnEnd::Value(value, _)) => hand_out_pair(key, Some(value)),
        Some(TurnEnd::Failed(error)) => hand_out_error(error),
        Some(TurnEnd::Nothing) | Some(TurnEnd::Computed) | Some(TurnEnd::Abandoned) | None => {
            hand_out_notice(None)
        }
    }
}

impl<K: Hash + Drop, V: Clone, C: CacheTypes<K, V>, R: RowStore<K, V>> State<K, V, C, R> {
    // Returns the stored key and a clone of the value that is live for a key. Does not count as an
    // access.
    fn live_pair(&self, key: &K, now: u64) -> Result<Option<(Arc<K>, V)>, AllocError>
        ensures { IfOk result (λ found.
            ⟦<C as StateView<K, V>>⟧.at_each_history self.now (λ settings steps.
            IsPairOf arc_value V.is_clone
            (live_at K.eq settings key.now now (events_in steps)) found)) }
    {
        let now = self.latest.max(now);
        let hash = self.behaviour.hash(key);
        let Some(number) = self.table.find(key, hash) else {
            return Ok(None);
        };
        let row = self.table.row(number);
        if row.info().is_dead(now) {
            return Ok(None);
        }
        let own = row.key.clone()?;
        let value = row.value.clone()?;
        Ok(Some((own, value)))
    }

    // Returns a clone of the value that was saved for the open turn of a name.
    fn saved_value(&self, name: &TurnName<K>) -> Result<Option<V>, AllocError>
        ensures { IfOk result (λ saved.
            ⟦<C as StateView<K, V>>⟧.at_each_history self.now (λ settings steps.
            IfSome (found (is_open_as K.eq (name_by name.now)) (turns steps))
            (λ t. IsCopyOf V.is_clone t.kept saved))) }
    {
        let hash = self.behaviour.hash(&*name.key);
        let key = name.key.clone()?;
        let key = TurnKey {
            hash,
            kind: name.kind,
            key,
        };
        self.turns.copy_saved(&key, name.number)
    }

    // Returns a clone of the end of the turn of a name, if it has ended.
    fn end_of_turn(&self, name: &TurnName<K>) -> Result<Option<TurnEnd<V, C::Error>>, AllocError>
        ensures { IfOk result (λ end.
            ⟦<C as StateView<K, V>>⟧.at_each_history self.now (λ settings steps.
            IfSome (found (has_ticket_as K.eq (name_by name.now)) (turns steps))
            (λ t. IsCopiedEnd V.is_clone t.end (option_map end_of end)))) }
    {
        let hash = self.behaviour.hash(&*name.key);
        let key = name.key.clone()?;
        let key = TurnKey {
            hash,
            kind: name.kind,
            key,
        };
        self.turns.copy_end(&key, name.number)
    }

    // Clones what a `Get` or a `Remove` returns.
    fn clones_for_lookup(&self, key: &K, now: u64) -> Result<HandedOut<K, V, C::Error>, AllocError>
        ensures { IfOk result (λ out.
            ⟦<C as StateView<K, V>>⟧.at_each_history self.now (λ settings steps.
            IsCopyOf V.is_clone
            (option_map (λ w. w.value) (live_at K.eq settings key.now now (events_in steps)))
            out.value)) }
    {
        match self.scan_get(key, now) {
            Ok(value) => Ok(HandedOut {
                value,
                key: None,
                name: None,
                error: None,
                notice: None,
            }),
            Err(_) => Err(AllocError),
        }
    }

    // Returns whether a compute of a key is open. May return false if memory is short.
    fn is_computed(&self, key: &Arc<K>) -> bool
        ensures { IsTrue result → ⟦<C as StateView<K, V>>⟧.at_each_history self.now (λ settings
            steps. IsSome
            (found (is_open_for K.eq Kind.Compute (arc_value key.now)) (turns steps))) }
    {
        let hash = self.behaviour.hash(&**key);
        let Ok(own) = key.clone() else {
            return false;
        };
        let wanted = TurnKey {
            hash,
            kind: Kind::Compute,
            key: own,
        };
        match self.turns.find(&wanted) {
            Some(_) => true,
            None => false,
        }
    }

    // Returns whether a begin may return the live entry. It does not if an initializer's caller
    // replaces the live value, or if a compute has to wait.
    fn shows_live(&self, key: &Arc<K>, kind: Kind, replace: Option<bool>) -> bool
        ensures { result ≡ false → ⟦<C as StateView<K, V>>⟧.at_each_history self.now
            (λ settings steps. HidesLive K.eq (turns steps) (arc_value key.now) kind replace) }
    {
        match kind {
            Kind::Compute => !self.is_computed(key),
            Kind::With | Kind::Optionally | Kind::Try => replace != Some(true),
        }
    }

    // Clones what a begin may return: the key in the turn's name and, if it `may_show` it, the live
    // entry.
    fn clones_for_begin(
        &self,
        key: &Arc<K>,
        may_show: bool,
        now: u64,
    ) -> Result<HandedOut<K, V, C::Error>, AllocError>
        ensures name { IfOk result (HasName (arc_value key.now)) }
        ensures entry { may_show ≡ true → IfOk result (λ out.
            ⟦<C as StateView<K, V>>⟧.at_each_history self.now (λ settings steps.
            IfSome (live_at K.eq settings (arc_value key.now) now (events_in steps))
            (λ w. HasEntry V.is_clone (entry_of w) out))) }
    {
        let name = key.clone()?;
        if !may_show {
            return Ok(HandedOut {
                value: None,
                key: None,
                name: Some(name),
                error: None,
                notice: None,
            });
        }
        match self.live_pair(&**key, now)? {
            Some((key, value)) => Ok(HandedOut {
                value: Some(value),
                key: Some(key),
                name: Some(name),
                error: None,
                notice: None,
            }),
            None => Ok(HandedOut {
                value: None,
                key: None,
                name: Some(name),
                error: None,
                notice: None,
            }),
        }
    }

    // Clones what an `OrInsert` returns: the live entry or, if there is none, the one to be
    // written.
    fn clones_for_or_insert(
        &self,
        key: &Arc<K>,
        value: &V,
        now: u64,
    ) -> Result<HandedOut<K, V, C::Error>, AllocError>
        ensures { IfOk result (HandsOutAt ⟦<C as CallView<K, V>>⟧.spec self.now
            (OrInsert (arc_value key.now) value.now now)) }
    {
        match self.live_pair(&**key, now)? {
            Some((key, value)) => Ok(hand_out_pair(key, Some(value))),
            None => {
                let key = key.clone()?;
                Ok(hand_out_pair(key, Some(value.clone()?)))
            }
        }
    }

    // Clones what a `Finish` returns.
    fn clones_for_finish(
        &self,
        name: &TurnName<K>,
        outcome: &Outcome<V, Arc<C::Error>>,
        now: u64,
    ) -> Result<HandedOut<K, V, C::Error>, AllocError>
        ensures { IfOk result (HandsOutAt ⟦<C as CallView<K, V>>⟧.spec self.now
            (Finish (name_by name.now) (outcome_of outcome.now) now)) }
    {
        let key = name.key.clone()?;
        match outcome {
            Outcome::Value(value) => Ok(hand_out_pair(key, Some(value.clone()?))),
            Outcome::Nothing => Ok(hand_out_notice(None)),
            Outcome::Failed(error) => Ok(hand_out_error(error.clone()?)),
            Outcome::Op(Op::Put(value)) => Ok(hand_out_pair(key, Some(value.clone()?))),
            Outcome::Op(Op::Remove) => match self.scan_get(&*name.key, now) {
                Ok(value) => Ok(hand_out_pair(key, value)),
                Err(_) => Err(AllocError),
            },
            Outcome::Op(Op::Nop) => Ok(hand_out_pair(key, self.saved_value(name)?)),
        }
    }

    // Clones what a `Collect` returns.
    fn clones_for_collect(
        &self,
        name: &TurnName<K>,
    ) -> Result<HandedOut<K, V, C::Error>, AllocError>
        ensures { IfOk result
            (HandsOutAt ⟦<C as CallView<K, V>>⟧.spec self.now (Collect (name_by name.now))) }
    {
        let key = name.key.clone()?;
        Ok(hand_out_end(key, self.end_of_turn(name)?))
    }

    // Clones the notice that a `TakeNotice` returns.
    fn clones_for_take_notice(&self) -> Result<HandedOut<K, V, C::Error>, AllocError>
        ensures { IfOk result (HandsOutAt ⟦<C as CallView<K, V>>⟧.spec self.now TakeNotice) }
    {
        Ok(hand_out_notice(self.table.copy_notice()?))
    }

    /// Clones what a step will hand out. A step that hands nothing out, such as a `Leave`,
    /// allocates nothing here.
    pub(crate) fn clones_for_step(
        &self,
        step: &Step<K, V, C>,
    ) -> Result<HandedOut<K, V, C::Error>, AllocError>
        ensures { IfOk result
            (HandsOutAt ⟦<C as CallView<K, V>>⟧.spec self.now (call_of C.test step.now)) }
    {
        match step {
            Step::Get { key, now } => self.clones_for_lookup(&**key, *now),
            Step::Remove { key, now } => self.clones_for_lookup(&**key, *now),
            Step::OrInsert { key, value, now } => self.clones_for_or_insert(key, value, *now),
            Step::Begin {
                key,
                kind,
                replace,
                now,
            } => {
                let may_show = self.shows_live(key, *kind, *replace);
                self.clones_for_begin(key, may_show, *now)
            }
            Step::BeginCompute { key, now, .. } => {
                let may_show = self.shows_live(key, Kind::Compute, None);
                self.clones_for_begin(key, may_show, *now)
            }
            Step::Finish { name, outcome, now } => self.clones_for_finish(name, outcome, *now),
            Step::Collect { name } => self.clones_for_collect(name),
            Step::TakeNotice => self.clones_for_take_notice(),
            Step::ContainsKey { .. }
            | Step::Insert { .. }
            | Step::Invalidate { .. }
            | Step::InvalidateAll
            | Step::InvalidateIf { .. }
            | Step::RunPendingTasks { .. }
            | Step::RunPendingTasksUpTo { .. }
            | Step::EntryCount
            | Step::WeightedSize
            | Step::Abandon { .. }
            | Step::Leave { .. } => Ok(hand_out_notice(None)),
        }
    }
}
