//! Random calls of the shared caches from threads. Each value has a number of its own. One that was
//! stored is in the cache in the end, or was reported to the listener once. No other was reported.

use crate::call::{All, Call, Look, TurnId, Turned, Walk, Write};
use crate::draws::{Draws, is_of};
use crate::hands::{Hands, let_go};
use crate::returned::{NO_MEMORY, Returned};
use crate::rules::{Rules, caches, one_cache};
use crate::run::reply;
use crate::shared::Shared;
use crate::subject::Subject;
use crate::types::Maker;
use anyhow::Result;
use moka::policy::Refused;
use std::alloc::{AllocError, Global};
use std::rt::Runtime;
use std::sync::Wait;
use std::thread;
use std::thread::Threads;
use std::time::{Duration, Instant};

/// The number of threads.
const THREADS: u64 = 8;

/// How often each thread draws what it does. Each time it draws one value at most.
const ROUNDS: u64 = 500;

/// How far a thread sets the clock forward each time, in nanoseconds.
const PACE: u64 = 80_000_000;

impl<T: Clone + Drop, W: Copy + Drop> Shared<T, W> {
    /// Returns so many other handles of the same cache, for threads, and this one.
    fn handles(self, count: u64) -> Result<Vec<Shared<T, W>>, AllocError> {
        let mut handles = Vec::new(self.maker.alloc);
        for _ in 0..count {
            handles.push(Shared {
                cache: self.cache.clone()?,
                clock: self.clock.clone()?,
                queue: self.queue.clone()?,
                waits: self.waits,
                maker: Maker::new(self.maker.alloc)?,
            })?;
        }
        handles.push(self)?;
        Ok(handles)
    }
}

/// What one thread calls and draws from, and what came of it.
#[derive(Drop)]
struct Caller<S> {
    alloc: Global,
    subject: S,
    draws: Draws,
    rules: Rules,
    /// The values that were stored, and those that the listener was called with.
    stored: Vec<u64>,
    heard: Vec<u64>,
    /// What was wrong, ten lines at most.
    wrong: Vec<String>,
}

impl<S: Subject + Drop> Caller<S> {
    fn new(alloc: Global, subject: S, rules: Rules, seed: u64, number: u64) -> Caller<S> {
        let mut of_all = Draws::new(seed, None);
        of_all.choose_keys();
        let first = number.wrapping_mul(ROUNDS);
        let mut draws = Draws::new(seed.wrapping_mul(100).wrapping_add(number), Some(first));
        draws.keys = of_all.keys;
        draws.quarter = of_all.quarter;
        Caller {
            alloc,
            subject,
            draws,
            rules,
            stored: Vec::new(alloc),
            heard: Vec::new(alloc),
            wrong: Vec::new(alloc),
        }
    }

    fn say(&mut self, call: Call, returned: Returned) -> Result<(), AllocError> {
        if self.wrong.len() < 10 {
            let text = format!(in self.alloc; "{call:?}: {returned}")?;
            self.wrong.push(text)?;
        }
        Ok(())
    }

    /// Makes a call about the key that was drawn last. Notes what it stored, and what is wrong.
    fn make(&mut self, hands: &mut Hands, call: Call) -> Result<Returned> {
        let reply = reply(&mut self.subject, hands, call)?;
        match self.draws.last.take() {
            Some(own) if stores(call, reply.returned, own) => self.stored.push(own)?,
            _ => {}
        }
        let is_wrong = matches!(reply.shown, Some(value) if !is_of(self.draws.key, value));
        if is_wrong || !is_right(self.rules, self.draws.key, reply.returned) {
            self.say(call, reply.returned)?;
        }
        self.check_lists(call, hands)?;
        Ok(reply.returned)
    }

    // Checks the pairs of a walk, which stand by rising key, and the removals that were heard.
    fn check_lists(&mut self, call: Call, hands: &Hands) -> Result<(), AllocError> {
        let mut last = None;
        for (key, value) in &hands.pairs {
            if last == Some(key.0) || !is_of(key.0, *value) {
                self.say(call, Returned::Pair(*key, *value))?;
            }
            last = Some(key.0);
        }
        for left in &hands.lefts {
            self.heard.push(left.1)?;
            if !is_of(left.0.0, left.1) {
                self.say(call, Returned::Noticed(*left))?;
            }
        }
        Ok(())
    }

    // Begins a turn, and ends it, or waits for it a little. None of the calls in between waits, so
    // nobody waits for ever.
    fn fly(&mut self, hands: &mut Hands) -> Result<Returned> {
        let key = self.draws.key();
        let (kind, begin) = self.draws.begin(key);
        match self.make(hands, Call::Turn(begin))? {
            Returned::Run(number) | Returned::Shows(number, _) => {
                self.end(hands, TurnId { kind, key, number })
            }
            Returned::Wait(number) => self.await_turn(hands, TurnId { kind, key, number }),
            found => Ok(found),
        }
    }

    fn end(&mut self, hands: &mut Hands, id: TurnId) -> Result<Returned> {
        if self.draws.one_in(4) {
            self.make(hands, Call::Look(Look::Invalidate, id.key))?;
        }
        if !self.draws.one_in(3) {
            let end = self.draws.end(id.kind);
            let ended = self.make(hands, Call::Turn(Turned::Finish(id, end)))?;
            if !matches!(ended, Returned::Refused(_)) {
                return Ok(ended);
            }
        }
        self.make(hands, Call::Turn(Turned::Abandon(id)))
    }

    // Collects a ticket a few times, and then leaves it.
    fn await_turn(&mut self, hands: &mut Hands, id: TurnId) -> Result<Returned> {
        for _ in 0..self.draws.below(4) {
            let collected = self.make(hands, Call::Turn(Turned::Collect(id)))?;
            if collected != Returned::NotYet {
                return Ok(collected);
            }
            thread::yield_now();
        }
        self.make(hands, Call::Turn(Turned::Leave(id)))
    }

    // Makes drawn calls, and such that are about one turn.
    fn make_all(&mut self, hands: &mut Hands) -> Result<()> {
        for round in 0..ROUNDS {
            let moment = round.saturating_sub(self.draws.below(40));
            self.subject.set_moment(moment.saturating_mul(PACE));
            if self.draws.one_in(6) {
                self.fly(hands)?;
            } else {
                let call = self.draws.call();
                self.make(hands, call)?;
            }
        }
        Ok(())
    }

    // Checks what is left once all threads are done, and again when all is invalidated.
    fn check(&mut self, hands: &mut Hands) -> Result<()> {
        let capacity = self.rules.max_capacity.unwrap_or(u64::MAX);
        let most = match self.rules.segments {
            Some(_) => capacity.div_ceil(4).saturating_mul(4),
            None => capacity,
        };
        for most in [most, 0] {
            self.make(hands, Call::OfAll(All::Tasks))?;
            for _ in 0..ROUNDS {
                self.make(hands, Call::Notices)?;
            }
            let size = self.make(hands, Call::OfAll(All::WeightedSize))?;
            if matches!(size, Returned::Counts(size) if size > most) {
                self.say(Call::OfAll(All::WeightedSize), size)?;
            }
            let count = self.make(hands, Call::OfAll(All::EntryCount))?;
            self.make(hands, Call::Walk(Walk::Whole))?;
            let kept = hands.pairs.len() as u64;
            if count != Returned::Counts(kept) || kept > most && !self.rules.is_weighed {
                self.say(Call::OfAll(All::EntryCount), count)?;
            }
            self.check_values(hands)?;
            self.make(hands, Call::OfAll(All::InvalidateAll))?;
        }
        Ok(())
    }

    // Checks that the values that were stored are those that were heard of and those of a walk.
    fn check_values(&mut self, hands: &Hands) -> Result<(), AllocError> {
        let mut stored = self.stored.clone()?;
        let mut found = self.heard.clone()?;
        for pair in &hands.pairs {
            found.push(pair.1)?;
        }
        stored.push(u64::MAX)?;
        found.push(u64::MAX)?;
        stored.sort_unstable();
        found.sort_unstable();
        for (stored, found) in stored.iter().zip(found.iter()) {
            if stored != found {
                let text = format!(in self.alloc; "stored: {stored}, kept or reported: {found}")?;
                return Ok(self.wrong.push(text)?);
            }
        }
        Ok(())
    }
}

/// Returns whether the result of a call with this value says that it is stored.
fn stores(call: Call, returned: Returned, own: u64) -> bool {
    match returned {
        Returned::Done => matches!(call, Call::Write(Write::Insert(_), _)),
        Returned::Some(value) => value == own,
        Returned::Entry(parts) | Returned::Became(_, parts) => parts.1 == own,
        _ => false,
    }
}

/// Returns whether a call about this key may have this result.
fn is_right(rules: Rules, key: u64, returned: Returned) -> bool {
    match returned {
        Returned::Some(value) => is_of(key, value),
        Returned::Entry(parts) | Returned::Became(_, parts) | Returned::Shows(_, Some(parts)) => {
            parts.0.0 == key && is_of(key, parts.1)
        }
        Returned::Refused(cause) => cause == Refused::NumbersUsedUp && rules.first_number > 0,
        Returned::Disabled => !rules.closures,
        Returned::Lost | Returned::NotHeld => false,
        _ => true,
    }
}

// Makes the calls of one thread.
fn run_thread<S: Subject + Drop>(mut caller: Caller<S>) -> Caller<S> {
    let mut hands = Hands::new(caller.alloc);
    let made = caller.make_all(&mut hands);
    let_go(&mut caller.subject, hands);
    if made.is_err() {
        let _ = caller.say(Call::Notices, NO_MEMORY);
    }
    caller
}

// Makes the calls of all threads, each with a handle of the cache. Prints what is wrong.
fn soak_on<R, S>(rt: &R, seed: u64, name: &str, rules: Rules, mut handles: Vec<S>) -> Result<bool>
where
    R: Runtime + AllocGlobal + Threads,
    S: Subject + Drop + Send + 'static,
{
    let Some(handle) = handles.pop() else {
        return Ok(false);
    };
    let mut last = Caller::new(rt.alloc(), handle, rules, seed, THREADS);
    let mut children = Vec::new(rt.alloc());
    for (number, handle) in handles.into_iter().enumerate() {
        let caller = Caller::new(rt.alloc(), handle, rules, seed, number as u64);
        children.push(thread::spawn(rt, move || run_thread(caller))?)?;
    }
    for child in children {
        let mut other = child.join(rt);
        last.stored.append(&mut other.stored)?;
        last.heard.append(&mut other.heard)?;
        last.wrong.append(&mut other.wrong)?;
    }
    let mut hands = Hands::new(rt.alloc());
    let checked = last.check(&mut hands);
    let_go(&mut last.subject, hands);
    checked?;
    for text in &last.wrong {
        println!(rt; "seed {seed}: {name}: {text}")?;
    }
    Ok(last.wrong.is_empty())
}

/// Makes runs with the seeds from this one on, each on a cache and on one of four segments, until so
/// many minutes have passed. Returns whether nothing was wrong.
pub fn run_soak<R>(rt: R, alloc: Global, minutes: u64, seed: u64) -> Result<bool>
where
    R: Runtime + AllocGlobal + Wait + Threads + Copy + Drop + Send + Sync + 'static,
{
    let begun = Instant::now(&rt)?;
    let mut is_right = true;
    for seed in seed..u64::MAX {
        let mut rules = Draws::new(seed, None).rules();
        // (so that 2,047 sequence numbers are left, or all)
        rules.first_number = rules.first_number >> 11 << 11;
        rules.segments = None;
        let handles = one_cache(rt, alloc, rules)?.handles(THREADS)?;
        let is_one_right = soak_on(&rt, seed, "cache", rules, handles)?;
        rules.segments = Some(4);
        let handles = caches(rt, alloc, rules)?.handles(THREADS)?;
        if soak_on(&rt, seed, "caches", rules, handles)? && is_one_right {
            println!(rt; "seed {seed} passed")?;
        } else {
            is_right = false;
        }
        if begun.elapsed(&rt)? >= Duration::from_secs(minutes.saturating_mul(60)) {
            break;
        }
    }
    Ok(is_right)
}
