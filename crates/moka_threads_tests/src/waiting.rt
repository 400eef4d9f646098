//! Callers wait for the turn of another one, wake once it ends, also where that fails, and give up
//! after 200 turns that gave them nothing.
ghost use Rattle.std.specs.Prelude.{◌≢◌};
ghost use Rattle.moka_model.specs.declared.turns.Kind.{Kind};

use crate::calls::{Call, Given};
use crate::items::{SCARCE, Value, mark, reaches, so_far};
use crate::world::{FOURTH, PLAIN, Place, SECOND, Scene, THIRD, Wanted, Whole, World, play};
use moka::policy::Refused;
use moka::sync::value_initializer::{Kind, Outcome};
use std::alloc::Global;
use std::sync::Arc;
use std::sync::atomic::Ordering;
use std::test::Fail;
use std::thread;
use std::time::Duration;

const PLACES: [Place; 5] = [(1, 0), (4, 0), (4, SECOND), (4, THIRD), (4, FOURTH)];

/// How the owner of a turn ends it.
#[derive(Clone, Copy, Debug)]
pub(crate) enum End {
    Finishes,
    Abandons,
    /// It makes the same call as the one that waits, whose end is refused memory.
    Fails,
}

const SCENES: [(Scene, Wanted); 9] = [
    (Scene::Waits(Call::With, End::Finishes), (Ok(7), 0)),
    (Scene::Waits(Call::WithByRef, End::Finishes), (Ok(7), 0)),
    (Scene::Waits(Call::WithIf, End::Finishes), (Ok(7), 0)),
    (Scene::Waits(Call::With, End::Abandons), (Ok(12), 1)),
    (Scene::Waits(Call::WithByRef, End::Abandons), (Ok(12), 1)),
    (Scene::Waits(Call::WithIf, End::Abandons), (Ok(12), 1)),
    // The error 9, which the caller and the owner of the turn share.
    (Scene::Waits(Call::Try, End::Finishes), (Ok(209), 0)),
    (Scene::WorksTogether(Call::With), (Ok(7), 1)),
    (Scene::WorksTogether(Call::Upsert), (Ok(32), 0)),
];

const REFUSED: [(Scene, Wanted); 4] = [
    (Scene::Waits(Call::With, End::Fails), (Ok(12), 1)),
    (Scene::Waits(Call::WithByRef, End::Fails), (Ok(12), 1)),
    (Scene::Waits(Call::WithIf, End::Fails), (Ok(12), 1)),
    (Scene::Waits(Call::Upsert, End::Fails), (Ok(12), 1)),
];

fn play_each<W: Whole>(rt: W, alloc: Global, scenes: &[(Scene, Wanted)]) -> Result<(), Fail> {
    for place in PLACES {
        for scene in scenes {
            play(rt, alloc, place, PLAIN, *scene)?;
        }
    }
    Ok(())
}

/// A caller that waits for a turn, in any segment, gets its value or its error. If the turn is
/// abandoned, the caller runs its own initializer. Of four callers one runs its initializer, and of
/// four that count none is lost.
#[test]
fn who_waits_is_answered(rt: HostRuntime) -> Result<(), Fail> {
    play_each(rt, rt.alloc(), &SCENES)
}

/// If the end of a loader or of a compute fails, the caller that waits for its turn wakes and runs its
/// own closure.
#[test]
fn a_refused_loader_wakes_its_waiter(rt: HostRuntime) -> Result<(), Fail> {
    play_each(rt, rt.alloc(), &REFUSED)
}

impl Call {
    /// Returns how often a loader reads the clock until it has a ticket. By reference it looks first.
    fn readings(self) -> u64 {
        if let Call::WithByRef = self { 2 } else { 1 }
    }
}

fn kind_of(call: Call) -> Kind
    ensures { result ≢ Kind.Compute }
{
    match call {
        Call::Try => Kind::Try,
        _ => Kind::With,
    }
}

impl<W: Whole> World<W> {
    /// Opens a turn, and ends it once another caller waits. Holds its error until that caller is done.
    pub(crate) fn ends(&self, call: Call, end: End) -> Given {
        if let End::Fails = end {
            let given = self.make(self.number, Value::new(SCARCE), call);
            assert_eq!(&self.rt; given, Err(Refused::OutOfMemory));
            return Ok(0);
        }
        let Ok(error) = Arc::new(self.alloc, 9) else {
            return Err(Refused::OutOfMemory);
        };
        let Ok(theirs) = error.clone() else {
            return Err(Refused::OutOfMemory);
        };
        let outcome = match call {
            Call::Try => Outcome::Failed(theirs),
            _ => Outcome::Value(Value::new(7)),
        };
        let turn = self.open(self.number, kind_of(call));
        self.sees_the_other_wait(call);
        let ended = match end {
            End::Finishes => self.finish(turn, outcome),
            _ => self.abandon(turn),
        };
        mark(&self.marks.ended);
        reaches(&self.rt, &self.marks.done, 1);
        drop(error);
        ended
    }

    /// Checks that another caller begins, with so many readings of the clock, and waits after a pause.
    pub(crate) fn sees_the_other_wait(&self, call: Call) {
        let begun = self.readings().wrapping_add(call.readings());
        mark(&self.marks.started);
        assert!(&self.rt; self.reads(begun), "the other begins");
        thread::sleep(&self.rt, Duration::from_millis(30));
        assert_eq!(&self.rt; so_far(&self.marks.done), 0, "the other waits");
    }

    /// Loads 7, or counts up to 8.
    pub(crate) fn works(&self, call: Call) -> Given {
        if let Call::With = call {
            let given = self.make(self.number, Value::new(7), call);
            assert_eq!(&self.rt; given, Ok(7));
            return given;
        }
        for _ in 0..7 {
            self.make(self.number, Value::new(1), call)?;
        }
        self.make(self.number, Value::new(1), call)
    }
}

/// How many turns of loaders are abandoned. There are two more loaders. All wait for another turn first,
/// which is abandoned too. A loader abandons its turn if no clone of its value can be made.
/// Nobody can say which loader opens the next turn. But of 201, 199 have had a turn of their own after
/// 200 abandoned ones, whichever these are, and the other two have waited for all 200.
#[derive(Clone, Copy, Debug)]
pub(crate) struct Plan {
    pub call: Call,
    failing: u64,
}

impl Plan {
    pub(crate) fn loaders(self) -> u64 {
        self.failing.wrapping_add(2)
    }

    /// Returns how often the clock was read once all loaders wait for the turn that is opened first.
    fn at_first(self) -> u64 {
        let all = self.loaders().wrapping_mul(self.call.readings());
        all.wrapping_add(2)
    }

    /// Returns that once all that are left wait for the turn of this closure, from 0. The end of each
    /// turn reads the clock, and each begin behind that.
    fn at_closure(self, closure: u64) -> u64 {
        let mut readings = self.at_first().wrapping_add(self.loaders());
        for earlier in 0..closure {
            readings = readings.wrapping_add(self.loaders().wrapping_sub(earlier));
        }
        readings
    }
}

fn gives_up<W: Whole>(rt: W, alloc: Global, locks: usize, call: Call) -> Result<(), Fail> {
    for failing in [198, 199] {
        let scene = (Scene::GivesUp(Plan { call, failing }), (Ok(0), 0));
        play(rt, alloc, (locks, 1), PLAIN, scene)?;
    }
    Ok(())
}

/// A loader that has waited for 199 abandoned turns runs its closure. One that has waited for 200 fails
/// and runs none.
#[test]
fn a_loader_gives_up_after_200_abandoned_turns(rt: HostRuntime) -> Result<(), Fail> {
    gives_up(rt, rt.alloc(), 1, Call::With)
}

#[test]
fn one_in_a_segment_gives_up(rt: HostRuntime) -> Result<(), Fail> {
    gives_up(rt, rt.alloc(), 4, Call::With)
}

#[test]
fn one_by_reference_gives_up(rt: HostRuntime) -> Result<(), Fail> {
    gives_up(rt, rt.alloc(), 1, Call::WithByRef)
}

#[test]
fn one_by_reference_in_a_segment_gives_up(rt: HostRuntime) -> Result<(), Fail> {
    gives_up(rt, rt.alloc(), 4, Call::WithByRef)
}

#[test]
fn one_that_replaces_gives_up(rt: HostRuntime) -> Result<(), Fail> {
    gives_up(rt, rt.alloc(), 1, Call::WithIf)
}

impl<W: Whole> World<W> {
    /// Loads once a turn is open. Or, as thread 0, opens it, and abandons it once all others wait.
    pub(crate) fn takes_part(&self, thread: usize, plan: Plan) -> Given {
        if thread > 0 {
            self.reads(2);
            return self.make(self.number, Value::new(12), plan.call);
        }
        let turn = self.open(self.number, Kind::With);
        let all_wait = self.reads(plan.at_first());
        let abandoned = self.abandon(turn);
        assert!(&self.rt; all_wait);
        abandoned
    }

    /// Returns the value of a closure, once all that are left wait for its turn, or once did not come.
    pub(crate) fn value_of_closure(&self, plan: Plan) -> Value<W> {
        let closure = self.marks.asks.fetch_add(1, Ordering::SeqCst);
        if so_far(&self.marks.done) == 0 && !self.reads(plan.at_closure(closure)) {
            mark(&self.marks.done);
        }
        Value::new(if closure < plan.failing { SCARCE } else { 12 })
    }

    /// Checks how many are refused their value, are given one, and give up, and the closures.
    pub(crate) fn gave_up(&self, plan: Plan, all: &[Given]) {
        let (mut refused, mut given, mut gave_up) = (0_u64, 0_u64, 0_u64);
        for one in all {
            match one {
                Ok(0) => {}
                Ok(12) => given = given.wrapping_add(1),
                Err(Refused::OutOfMemory) => refused = refused.wrapping_add(1),
                Err(Refused::WaitsAbandoned) => gave_up = gave_up.wrapping_add(1),
                other => panic!(&self.rt; "{other:?}"),
            }
        }
        let wanted = if plan.failing < 199 {
            (198, 2, 0, 199)
        } else {
            (199, 0, 2, 199)
        };
        let counts = (refused, given, gave_up, so_far(&self.marks.asks));
        assert_eq!(&self.rt; counts, wanted, "{plan:?}");
    }
}
