//! The loop that waits for turns, over a cache that replies as its fields say.

use moka_single_flight::participant::Participant;
use moka_single_flight::replies::{Begun, Collected, Joined};
use moka_single_flight::wait::{MAX_RETRIES, wait_for};
use std::test::Fail;

/// How a cache replies: how many turns give nothing before the last one, how often each ticket is not
/// yet ready, and the last reply.
type FakeCache = (u64, u64, &'static str);

/// A caller, which counts its begins and its collects.
#[derive(Drop)]
struct Calls {
    begins: u64,
    collects: u64,
}

/// The ticket of the begin with this number, and how often it was collected.
type Ticket = (u64, u64);

/// A failed call: a begin with this number, or a collect of its ticket, which is handed back.
type Refusal = (u64, Option<Ticket>);

impl Participant<FakeCache, u64> for Calls {
    ghost use Rattle.std.specs.Prelude.{⊤};

    type Turn = u64;

    type Ticket = Ticket;

    type Refused = Refusal;

    ghost begun = { λ _ _ _ _. ⊤ };

    ghost collected = { λ _ _ _ _ _. ⊤ };

    ghost begin_refused = { λ _ _ _ _. ⊤ };

    ghost collect_refused = { λ _ _ _ _ _. ⊤ };

    fn begin(&mut self, at: &FakeCache) -> Result<Begun<u64, u64, Ticket>, Refusal> {
        self.begins = self.begins.saturating_add(1);
        let number = self.begins;
        match at.2 {
            "found" if number > at.0 => Ok(Begun::Found(5)),
            "turn" if number > at.0 => Ok(Begun::Run(number)),
            "begin" if number > at.0 => Err((number, None)),
            _ => Ok(Begun::Wait((number, 0))),
        }
    }

    fn collect(
        &mut self,
        at: &FakeCache,
        ticket: Ticket,
    ) -> Result<Collected<u64, Ticket>, Refusal> {
        self.collects = self.collects.saturating_add(1);
        let (number, same) = (ticket.0, (ticket.0, ticket.1.saturating_add(1)));
        match at.2 {
            _ if same.1 <= at.1 => Ok(Collected::NotYet(same)),
            "collect" if number > at.0 => Err((number, Some(same))),
            "ready" if number > at.0 => Ok(Collected::Ready(5)),
            _ => Ok(Collected::Retry),
        }
    }
}

/// How the loop ended: with a value, the turn of a begin, none after too many waits, a refused begin, or a refused
/// collect, with the number of the ticket and how often it was collected.
type Ending = (&'static str, Ticket);

fn ending_of(waited: Result<Joined<u64, u64>, Refusal>) -> Ending {
    match waited {
        Ok(Joined::Value(value)) => ("value", (value, 0)),
        Ok(Joined::Turn(number)) => ("turn", (number, 0)),
        Ok(Joined::TooMany) => ("none", (0, 0)),
        Err((number, None)) => ("begin", (number, 0)),
        Err((_, Some(ticket))) => ("collect", ticket),
    }
}

/// A cache, and the greatest number of waits. Then how the loop ends, after so many begins and collects.
///
/// If no turn gives anything, the loop begins 200 times, and without a limit it goes on. A ticket that
/// is not ready counts for nothing, however often it is collected. A failed begin or collect ends the
/// loop and is returned, with the ticket as it was collected last.
const CASES: [(FakeCache, Option<u64>, Ending, (u64, u64)); 16] = [
    ((0, 0, "found"), Some(200), ("value", (5, 0)), (1, 0)),
    ((0, 0, "turn"), Some(200), ("turn", (1, 0)), (1, 0)),
    ((199, 0, "turn"), Some(200), ("turn", (200, 0)), (200, 199)),
    ((199, 0, "ready"), Some(200), ("value", (5, 0)), (200, 200)),
    ((200, 0, "turn"), Some(200), ("none", (0, 0)), (200, 200)),
    ((200, 2, "found"), Some(200), ("none", (0, 0)), (200, 600)),
    ((0, 0, "turn"), Some(0), ("none", (0, 0)), (0, 0)),
    ((300, 0, "turn"), None, ("turn", (301, 0)), (301, 300)),
    ((300, 0, "found"), None, ("value", (5, 0)), (301, 300)),
    ((300, 1, "ready"), None, ("value", (5, 0)), (301, 602)),
    ((0, 3, "ready"), Some(1), ("value", (5, 0)), (1, 4)),
    ((1, 100, "ready"), Some(2), ("value", (5, 0)), (2, 202)),
    ((0, 0, "begin"), Some(200), ("begin", (1, 0)), (1, 0)),
    ((2, 1, "begin"), None, ("begin", (3, 0)), (3, 4)),
    ((0, 0, "collect"), Some(200), ("collect", (1, 1)), (1, 1)),
    ((2, 1, "collect"), None, ("collect", (3, 2)), (3, 6)),
];

/// The loop ends as the table says, after so many begins and collects.
#[test]
fn it_ends_after_so_many_waits(rt: HostRuntime) -> Result<(), Fail> {
    assert_eq!(rt; MAX_RETRIES, 200);
    for (cache, max_retries, ending, counts) in CASES {
        let mut calls = Calls {
            begins: 0,
            collects: 0,
        };
        let ended = ending_of(wait_for(&rt, &mut calls, &cache, max_retries));
        assert_eq!(rt; ended, ending, "{cache:?}");
        assert_eq!(rt; (calls.begins, calls.collects), counts, "{cache:?}");
    }
    Ok(())
}
