//! Lines whose calls are made in one run of steps.
ghost use Rattle.std.specs.Prelude.{IfOk, OnOk};
ghost use Rattle.std.specs.List.{All, AllByRecursion};
ghost use Rattle.moka_state.specs.Step.{StepKeeps};

use crate::call::{By, Call, Hide, Look, Turned};
use crate::line::Line;
use crate::returned::Returned;
use crate::steps::{OneReply, OneStep, all_step, reply_in, step_of};
use crate::types::{Key, Maker, OneOf, Types, Value};
use moka::policy::{CacheTypes, NoListener, Predicate, Refused};
use std::alloc::{AllocError, Global};
use std::collections::VecDeque;

/// The most steps that are done in one run.
const MOST: usize = 16;

/// Returns the first of these lines, up to the first that has no step of its own.
pub fn stepped(lines: &[Line]) -> &[Line] {
    let mut count = 0_usize;
    for line in lines.iter().take(MOST) {
        if line.is_other || !has_step(line.call) {
            break;
        }
        count = count.wrapping_add(1);
    }
    lines.get(..count).unwrap_or(&[])
}

// Returns whether a call has a step, which does not depend on what is stored.
fn has_step(call: Call) -> bool {
    match call {
        Call::Look(look, _) => !matches!(look, Look::ScanGet),
        Call::Write(..) | Call::Hide(Hide::Shared, ..) => true,
        Call::OfAll(all) => all_step(all, 0).is_some(),
        Call::Turn(Turned::Begin(_, by, _, unwanted)) => {
            matches!(by, By::Arc) && unwanted.is_none()
        }
        Call::Turn(turned) => !matches!(turned, Turned::IsOpen(_)),
        _ => false,
    }
}

fn add_line(maker: &Maker, line: Option<&Line>, steps: &mut Vec<OneStep>) -> Result<(), AllocError>
    requires { All (StepKeeps ⟦<Types<NoListener> as CacheTypes<Key, Value>>⟧.keeps
        ⟦<OneOf as Predicate<Key, Value>>⟧.tests
        ⟦<Types<NoListener> as CacheTypes<Key, Value>>⟧.test) steps.old.items }
    ensures { OnOk result (All (StepKeeps ⟦<Types<NoListener> as CacheTypes<Key, Value>>⟧.keeps
        ⟦<OneOf as Predicate<Key, Value>>⟧.tests
        ⟦<Types<NoListener> as CacheTypes<Key, Value>>⟧.test) steps.new.items) }
{
    let Some(line) = line else {
        return Ok(());
    };
    match step_of(maker, line.call, line.moment, Returned::None)? {
        Some(step) => Ok(steps.push(step)?),
        None => Ok(()),
    }
}

/// Creates the steps of these lines, 16 at most. (A loop would owe an invariant.)
#[tactic(auto, using(std::proofs::lemmas::List::Elements::recursion_from_All))]
pub fn steps_of(maker: &Maker, lines: &[Line]) -> Result<Vec<OneStep>, AllocError>
    ensures { IfOk result (λ steps. AllByRecursion
        (StepKeeps ⟦<Types<NoListener> as CacheTypes<Key, Value>>⟧.keeps
        ⟦<OneOf as Predicate<Key, Value>>⟧.tests
        ⟦<Types<NoListener> as CacheTypes<Key, Value>>⟧.test) steps.items) }
{
    let mut steps = Vec::with_capacity(maker.alloc, MOST)?;
    add_line(maker, lines.get(0), &mut steps)?;
    add_line(maker, lines.get(1), &mut steps)?;
    add_line(maker, lines.get(2), &mut steps)?;
    add_line(maker, lines.get(3), &mut steps)?;
    add_line(maker, lines.get(4), &mut steps)?;
    add_line(maker, lines.get(5), &mut steps)?;
    add_line(maker, lines.get(6), &mut steps)?;
    add_line(maker, lines.get(7), &mut steps)?;
    add_line(maker, lines.get(8), &mut steps)?;
    add_line(maker, lines.get(9), &mut steps)?;
    add_line(maker, lines.get(10), &mut steps)?;
    add_line(maker, lines.get(11), &mut steps)?;
    add_line(maker, lines.get(12), &mut steps)?;
    add_line(maker, lines.get(13), &mut steps)?;
    add_line(maker, lines.get(14), &mut steps)?;
    add_line(maker, lines.get(15), &mut steps)?;
    Ok(steps)
}

/// Returns the results in the replies of a run.
pub fn returned_each(
    alloc: Global,
    replies: Result<Vec<OneReply>, Refused>,
) -> Result<VecDeque<Returned>, AllocError> {
    let Ok(replies) = replies else {
        return Err(AllocError);
    };
    let mut results = VecDeque::new(alloc);
    for reply in replies {
        if results.push_back(reply_in(reply)).is_err() {
            return Err(AllocError);
        }
    }
    Ok(results)
}
