//! Clones of steps.
ghost use Rattle.std.specs.Prelude.{◌≡◌, IfOk};
ghost use Rattle.moka_turns.specs.Handles.{name_by};
ghost use Rattle.moka_state.specs.Recorded.{IsOfKey, IsOfTurn, IsOutcomeCopy, IsStepCopy};

use crate::step::Step;
use moka_model::turns::{Op, Outcome};
use moka_policy::policy::CacheTypes;
use moka_turns::turn_name::TurnName;
use std::alloc::AllocError;
use std::sync::Arc;

// Clones a name, which shares the key.
fn copy_name<K: Drop>(name: &TurnName<K>) -> Result<TurnName<K>, AllocError>
    ensures { IfOk result (λ copy. name_by copy ≡ name_by name.now) }
{
    let key = name.key.clone()?;
    Ok(TurnName {
        number: name.number,
        kind: name.kind,
        key,
    })
}

// Clones an outcome, which shares the error.
fn copy_outcome<V: Clone, E: Drop>(
    outcome: &Outcome<V, Arc<E>>,
) -> Result<Outcome<V, Arc<E>>, AllocError>
    ensures { IfOk result (IsOutcomeCopy V.is_clone outcome.now) }
{
    Ok(match outcome {
        Outcome::Value(value) => Outcome::Value(value.clone()?),
        Outcome::Nothing => Outcome::Nothing,
        Outcome::Failed(error) => Outcome::Failed(error.clone()?),
        Outcome::Op(Op::Put(value)) => Outcome::Op(Op::Put(value.clone()?)),
        Outcome::Op(Op::Remove) => Outcome::Op(Op::Remove),
        Outcome::Op(Op::Nop) => Outcome::Op(Op::Nop),
    })
}

// Clones a step of a key.
fn copy_step_of_key<K: Eq + Drop, V: Clone, C: CacheTypes<K, V>>(
    step: &Step<K, V, C>,
) -> Result<Step<K, V, C>, AllocError>
    requires { IsOfKey step.now }
    ensures { IfOk result (IsStepCopy V.is_clone step.now) }
{
    Ok(match step {
        Step::Get { key, now } => Step::Get {
            key: key.clone()?,
            now: *now,
        },
        Step::ContainsKey { key, now } => Step::ContainsKey {
            key: key.clone()?,
            now: *now,
        },
        Step::Insert { key, value, now } => Step::Insert {
            key: key.clone()?,
            value: value.clone()?,
            now: *now,
        },
        Step::OrInsert { key, value, now } => Step::OrInsert {
            key: key.clone()?,
            value: value.clone()?,
            now: *now,
        },
        Step::Invalidate { key, now } => Step::Invalidate {
            key: key.clone()?,
            now: *now,
        },
        Step::Remove { key, now } => Step::Remove {
            key: key.clone()?,
            now: *now,
        },
        _ => unreachable!(),
    })
}

// Clones a step of a turn.
fn copy_step_of_turn<K: Eq + Drop, V: Clone, C: CacheTypes<K, V>>(
    step: &Step<K, V, C>,
) -> Result<Step<K, V, C>, AllocError>
    requires { IsOfTurn step.now }
    ensures { IfOk result (IsStepCopy V.is_clone step.now) }
{
    Ok(match step {
        Step::Begin {
            key,
            kind,
            replace,
            now,
        } => Step::Begin {
            key: key.clone()?,
            kind: *kind,
            replace: *replace,
            now: *now,
        },
        Step::BeginCompute { key, keep, now } => Step::BeginCompute {
            key: key.clone()?,
            keep: *keep,
            now: *now,
        },
        Step::Finish { name, outcome, now } => Step::Finish {
            name: copy_name(name)?,
            outcome: copy_outcome(outcome)?,
            now: *now,
        },
        Step::Abandon { name } => Step::Abandon {
            name: copy_name(name)?,
        },
        Step::Collect { name } => Step::Collect {
            name: copy_name(name)?,
        },
        Step::Leave { name } => Step::Leave {
            name: copy_name(name)?,
        },
        _ => unreachable!(),
    })
}

/// A clone of a step has a clone of the step's value, and shares its key, its error and its
/// predicate.
impl<K: Eq + Drop, V: Clone, C: CacheTypes<K, V>> Clone for Step<K, V, C> {
    ghost is_clone = { IsStepCopy V.is_clone };

    fn clone(&self) -> Result<Self, AllocError> {
        Ok(match self {
            Step::Get { .. }
            | Step::ContainsKey { .. }
            | Step::Insert { .. }
            | Step::OrInsert { .. }
            | Step::Invalidate { .. }
            | Step::Remove { .. } => copy_step_of_key(self)?,
            Step::InvalidateAll => Step::InvalidateAll,
            Step::InvalidateIf { predicate } => Step::InvalidateIf {
                predicate: predicate.clone()?,
            },
            Step::RunPendingTasks { now } => Step::RunPendingTasks { now: *now },
            Step::RunPendingTasksUpTo { limit, now } => Step::RunPendingTasksUpTo {
                limit: *limit,
                now: *now,
            },
            Step::EntryCount => Step::EntryCount,
            Step::WeightedSize => Step::WeightedSize,
            Step::TakeNotice => Step::TakeNotice,
            _ => copy_step_of_turn(self)?,
        })
    }
}
