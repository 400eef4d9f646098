//! A time to live by a clock that runs. Two milliseconds after an insert, an entry with an hour to
//! live is found, and one with a millisecond is not.

use anyhow::Result;
use moka::clock::RunningClock;
use moka::ready::{FoldState, Plain};
use moka::sync::{Cache, CacheBuilder};
use std::rt::Runtime;
use std::sync::Wait;
use std::thread;
use std::time::Duration;

/// A shared cache of numbers by numbers, with a clock that runs.
type Names<R> = Cache<u64, u64, Plain<RunningClock<R>>, R>;

fn build_cache<R: Runtime + AllocGlobal + Wait + Copy>(rt: R, life: Duration) -> Result<Names<R>> {
    let clock = RunningClock::new(rt)?;
    let builder = CacheBuilder::new(100).time_to_live(life);
    Ok(builder.build_with_hasher(rt.alloc(), FoldState::default(), clock, rt)?)
}

// Returns whether an entry with this time to live is found two milliseconds after its insert.
fn is_found<R: Runtime + AllocGlobal + Wait + Copy>(rt: R, life: Duration) -> Result<bool> {
    let names = build_cache(rt, life)?;
    names.insert(1, 7)?;
    thread::sleep(&rt, Duration::from_millis(2));
    Ok(names.contains_key(&1))
}

/// Runs the example.
pub fn main<R: Runtime + AllocGlobal + Wait + Copy>(rt: R) -> Result<()> {
    println!(rt; "an hour: {}", is_found(rt, Duration::from_secs(3_600))?)?;
    println!(rt;
        "a millisecond: {}",
        is_found(rt, Duration::from_millis(1))?
    )?;
    Ok(())
}
