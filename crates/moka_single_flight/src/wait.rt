//! The loop that waits until there is a value or a turn.
ghost use Rattle.std.specs.Prelude.{◌≡◌, Some, IfOk, IfErr, IfSome, IfNone};
ghost use Rattle.moka_single_flight.specs.Rounds.{IsOneLess, CollectsTo, IsCollectRefused, Ends, IsRefused};

use crate::participant::Participant;
use crate::replies::{Begun, Collected, Joined};
use std::sync::Wait;

/// How many waits of one loader may give nothing before it gives up.
pub const MAX_RETRIES: u64 = 200;

/// Waits until there is a value or a turn.
///
/// It begins, and collects a ticket until the turn has ended. If the turn gave nothing, it begins
/// again. After `max_retries` such waits it gives up; with `None` it never does, as for a compute.
/// With a `max_retries` of 0 it does not even begin.
///
/// How to wait is up to the caller's `collect`. This loop holds no lock and does not allocate.
///
/// # Errors
///
/// Those of `begin` and `collect`, unchanged. They end the loop.
#[tactic(auto, using(crate::proofs::Left::fewer, crate::proofs::Left::used_up, crate::proofs::Left::all_left))]
pub fn wait_for<V, X, P: Participant<X, V>, R: Wait>(
    rt: &R,
    caller: &mut P,
    at: &X,
    max_retries: Option<u64>,
) -> Result<Joined<V, P::Turn>, P::Refused>
    requires { P.ready caller.old }
    ensures done { IfOk result (λ w. Ends (P.begun at.now) (P.collected at.now)
        max_retries caller.old w caller.new) }
    ensures refused { IfErr result (λ r. IsRefused (P.begun at.now) (P.collected at.now)
        (P.begin_refused at.now) (P.collect_refused at.now) max_retries caller.old r caller.new) }
{
    let mut left = max_retries;
    for _ in rt.forever() {
        let Some(rest) = take_retry(left) else {
            return Ok(Joined::TooMany);
        };
        left = rest;
        let ticket = match caller.begin(at)? {
            Begun::Found(value) => return Ok(Joined::Value(value)),
            Begun::Run(turn) => return Ok(Joined::Turn(turn)),
            Begun::Wait(ticket) => ticket,
        };
        if let Some(value) = collect_all(rt, caller, at, ticket)? {
            return Ok(Joined::Value(value));
        }
    }
    unreachable!()
}

// Collects until the turn has ended. Returns `None` if the turn gave this caller nothing.
fn collect_all<V, X, P: Participant<X, V>, R: Wait>(
    rt: &R,
    caller: &mut P,
    at: &X,
    ticket: P::Ticket,
) -> Result<Option<V>, P::Refused>
    requires { P.ready caller.old }
    ensures still { P.ready caller.new }
    ensures done { IfOk result (λ value. CollectsTo (P.collected at.now)
        caller.old ticket value caller.new) }
    ensures refused { IfErr result (λ r. IsCollectRefused (P.collected at.now)
        (P.collect_refused at.now) caller.old ticket r caller.new) }
{
    let mut ticket = ticket;
    for _ in rt.forever() {
        match caller.collect(at, ticket)? {
            Collected::Ready(value) => return Ok(Some(value)),
            Collected::NotYet(same) => ticket = same,
            Collected::Retry => return Ok(None),
        }
    }
    unreachable!()
}

// Takes one wait from those that are left. Returns `None` if none is left.
fn take_retry(left: Option<u64>) -> Option<Option<u64>>
    ensures some { IfSome result (λ rest. IsOneLess left rest) }
    ensures none { IfNone result (left ≡ Some 0) }
{
    match left {
        Some(0) => None,
        Some(n) => Some(Some(n - 1)),
        None => Some(None),
    }
}
