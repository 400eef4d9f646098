//! A thread that plays rows on a recorded cache.

use crate::act::{Act, Said, read};
use crate::calls::Called;
use crate::marks::{come, mark, nap, so_far};
use crate::scene::{Stage, text_of};
use moka_model::turns::Kind;
use moka_policy::policy::Refused;
use rand_core::{Rng, SeedableRng};
use rand_xoshiro::SplitMix64;
use std::process::Abort;
use std::rt::Clock;
use std::sync::atomic::Ordering;

/// Makes the calls of rows.
#[derive(Drop)]
pub(crate) struct Player<'a, R> {
    on: &'a Stage<R>,
    now: u64,
    /// What a failed load held: whether it is a ticket, the number of the turn, and its key.
    held: Option<(bool, u64, u64)>,
}

/// The calls that are drawn.
const DRAWN: &str =
    "get get get get get get get get get contains_key contains_key insert insert insert insert insert
    or_insert or_insert invalidate invalidate remove begin begin begin begin begin begin begin compute compute compute
    run_pending_tasks run_two_tasks entry_count weighted_size finish finish finish finish finish put put put abandon
    collect collect leave";

/// Draws a call. One that ends a turn is about one of the last turns of the pass, or an unknown one,
/// and may not fit it. Only loads ask for keys from 100 on, so none of their turns stays open.
fn draw(random: &mut SplitMix64, turns: &[(Kind, u64, u64)]) -> Act<'static> {
    let (drawn, value) = (random.next_u64(), random.next_u64() % 1000 + 1);
    let name = match value {
        0..=60 => "load",
        61..=66 => "invalidate_all",
        _ => DRAWN
            .split_whitespace()
            .nth(drawn as usize % 47)
            .unwrap_or("get"),
    };
    let begun = match value % 5 {
        _ if name == "compute" => Kind::Compute,
        0 => Kind::Optionally,
        1 => Kind::Try,
        _ => Kind::With,
    };
    let turn = turns.get(turns.len().wrapping_sub(value as usize % 8));
    let (kind, one, two) = match name {
        "finish" | "put" | "abandon" | "collect" | "leave" => match turn {
            Some(turn) => *turn,
            None => (Kind::With, u64::MAX, 0),
        },
        "load" => (Kind::With, 100 + value % 6, value),
        _ => (begun, value % 24, value),
    };
    let three = if name == "load" { 0 } else { drawn >> 32 };
    Act {
        name,
        kind,
        one,
        two,
        three,
    }
}

/// Returns whether memory was refused, for a call that is made again then.
fn is_refused(said: Said) -> bool {
    matches!(
        said,
        Said::Refused(Refused::OutOfMemory)
            | Said::Failed(Refused::OutOfMemory)
            | Said::Holds(Refused::OutOfMemory, false, _, _)
    )
}

impl<'a, R: Clock + Abort + Copy> Player<'a, R> {
    /// Creates a player.
    pub(crate) fn new(on: &'a Stage<R>) -> Self {
        let (now, held) = (0, None);
        Player { on, now, held }
    }

    /// Plays a row. Stops the test if it says something else, since the threads would not be joined
    /// otherwise.
    pub(crate) fn play<X: Called<P>, P>(&mut self, cache: &X, pass: &mut P, row: &str) {
        let said = self.act(cache, pass, read(row));
        let Some((_, wanted)) = row.split_once(" = ") else {
            return;
        };
        match text_of(self.on.alloc, &said) {
            Ok(text) => assert_eq!(self.on.rt; text.as_str(), wanted.trim(), "{row}"),
            Err(_) => assert!(self.on.rt; false, "refused twice"),
        }
    }

    fn act<X: Called<P>, P>(&mut self, cache: &X, pass: &mut P, act: Act<'_>) -> Said {
        let on = self.on;
        match act.name {
            "end_held" => return self.end_held(cache, pass),
            "write_all" => return Said::Is(self.write_all(cache, pass, act.one)),
            "random" => return Said::Is(self.random(cache, pass, act.one)),
            "sees" | "watch" => return Said::Is(self.poll(cache, pass, act)),
            "asked" => return Said::Is(come(&on.rt, &on.marks.asks, act.one)),
            "join" => return Said::Is(come(&on.rt, &on.marks.done, act.one)),
            "load_scarce" => return self.again(cache, pass, act, 1),
            "tell" => mark(&on.marks.told),
            "nap" => nap(&on.rt, act.one),
            "at" => self.now = act.one.saturating_mul(1_000_000_000),
            _ => return self.again(cache, pass, act, 20),
        }
        Said::Done
    }

    /// Makes a call, and keeps what it holds. While it is refused memory, makes it again, up to so many
    /// times, and what is held in between.
    fn again<X: Called<P>, P>(
        &mut self,
        cache: &X,
        pass: &mut P,
        act: Act<'_>,
        times: u64,
    ) -> Said {
        for clone in 1..=times {
            if self.on.refuses {
                let number = so_far(&self.on.marks.clones).saturating_add(clone);
                self.on.marks.refused_clone.store(number, Ordering::SeqCst);
            }
            let said = cache.call(pass, act, self.now);
            if let Said::Holds(_, is_ticket, number, key) = said {
                self.held = Some((is_ticket, number, key));
            }
            if !is_refused(said) || times == 1 {
                return said;
            }
            mark(&self.on.marks.refusals);
            self.end_held(cache, pass);
        }
        Said::Other
    }

    /// Makes the step that is held. It has to be done.
    fn end_held<X: Called<P>, P>(&mut self, cache: &X, pass: &mut P) -> Said {
        let Some((is_ticket, one, two)) = self.held.take() else {
            return Said::Absent;
        };
        let name = if is_ticket { "leave" } else { "abandon" };
        let said = cache.call(pass, Act::new(name, one, two), self.now);
        assert!(self.on.rt; said == Said::Done, "what was held says {said:?}");
        said
    }

    /// Writes 64 keys from a number on, and reads each. Returns whether it found each.
    fn write_all<X: Called<P>, P>(&self, cache: &X, pass: &mut P, from: u64) -> bool {
        for key in from..from.saturating_add(64) {
            let written = cache.call(pass, Act::new("insert", key, key), self.now);
            let read = cache.call(pass, Act::new("get", key, 0), self.now);
            if written != Said::Done || read != Said::Found(key) {
                return false;
            }
        }
        true
    }

    /// Makes 400 calls that are drawn. Returns whether none was refused memory, and each load given
    /// its value.
    fn random<X: Called<P>, P>(&self, cache: &X, pass: &mut P, seed: u64) -> bool {
        let mut random = SplitMix64::seed_from_u64(seed);
        let mut turns = Vec::new(self.on.alloc);
        for made in 20..420_u64 {
            let act = draw(&mut random, turns.as_slice());
            let now = made.wrapping_sub(random.next_u64() % 20);
            let said = cache.call(pass, act, now.wrapping_mul(2_000_000_000));
            let is_made = match said {
                Said::Run(number) | Said::Wait(number) => {
                    turns.push((act.kind, number, act.one)).is_ok()
                }
                Said::Given(_) => true,
                said => act.name != "load" && !is_refused(said),
            };
            if !is_made {
                return false;
            }
        }
        true
    }

    /// Counts and tells the entries of the others, again and again until they have so many or so many
    /// threads are done. Returns whether that came.
    ///
    /// A caller that waits for a turn makes two: its begin, and the collect that comes too early. It
    /// releases the lock behind that collect only by going to sleep. So it sleeps once another call
    /// finds both.
    fn poll<X: Called<P>, P>(&self, cache: &X, pass: &mut P, act: Act<'_>) -> bool {
        let on = self.on;
        for _ in 0..20_000 {
            nap(&on.rt, 1);
            let Said::Counted(others) = cache.call(pass, Act::new("others", 0, 0), 0) else {
                return false;
            };
            on.marks.told.store(others, Ordering::SeqCst);
            let count = match act.name {
                "sees" => others,
                _ => so_far(&on.marks.done),
            };
            if count >= act.one {
                return true;
            }
        }
        false
    }
}
