//! A memoizer for two threads, with a time to live of a minute. Each result is proved to be what the
//! function computes.
//!
//! The cache's clock is set by hand: one thread sets it from the runtime's clock before its calls.

ghost use Rattle.std.specs.Prelude.{◌≡◌, IfOk};
ghost use Rattle.examples.specs.Triangle.{triangle};

use crate::memoizer::{Triangles, sum_to};
use anyhow::Result;
use moka::policy::{ManualClock, Refused};
use moka::ready::{FoldState, Keeping};
use moka::sync::{Cache, CacheBuilder};
use std::rt::Runtime;
use std::sync::{Arc, Wait};
use std::thread;
use std::thread::Threads;
use std::time::{Duration, Instant};

/// Keeps triangular numbers by their roots.
type Timed<W> = Cache<u32, u64, Keeping<Triangles, FoldState, Arc<ManualClock>>, W>;

/// Returns the sum of 1 to n: cached, or computed by this caller or by another one.
fn sum_of<W: Wait + Drop>(numbers: &Timed<W>, n: u32) -> Result<u64, Refused>
    ensures { IfOk result (λ value. value ≡ triangle n) }
{
    numbers.get_with(n, || sum_to(n))
}

// Sets the clock to the nanoseconds since `begun`. A reading that fails leaves it as it is.
fn set_clock<R: Runtime>(rt: &R, clock: &ManualClock, begun: Instant) {
    if let Ok(passed) = begun.elapsed(rt) {
        clock.set(u64::try_from(passed.as_nanos()).unwrap_or(u64::MAX));
    }
}

// Gets a sum in two threads.
fn run<R: Runtime + Wait + Threads + Copy + Send + Sync + 'static>(
    rt: &R,
    numbers: &Timed<R>,
    clock: &ManualClock,
) -> Result<()> {
    let begun = Instant::now(rt)?;
    let theirs = numbers.clone()?;
    let child = thread::spawn(rt, move || sum_of(&theirs, 10))?;
    set_clock(rt, clock, begun);
    let ours = sum_of(numbers, 10)?;
    println!(rt; "{ours} and {}", child.join(rt)?)?;
    Ok(())
}

/// Runs the example.
pub fn main<R: Runtime + AllocGlobal + Wait + Threads + Copy + Send + Sync + 'static>(
    rt: R,
) -> Result<()> {
    let (alloc, hasher) = (rt.alloc(), FoldState::default());
    let clock = Arc::new(alloc, ManualClock::new(0))?;
    let builder = CacheBuilder::new(100).time_to_live(Duration::from_secs(60));
    let numbers = builder.build_with_hasher(alloc, hasher, clock.clone()?, rt)?;
    run(&rt, &numbers, &clock)
}
