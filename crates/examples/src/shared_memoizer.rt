//! A memoizer for threads, with a time to live of a minute by a clock that runs. Each result is
//! proved to be what the function computes.

ghost use Rattle.std.specs.Prelude.{◌≡◌, false, IfOk};
ghost use Rattle.examples.specs.Triangle.{triangle};

use crate::memoizer::{Triangles, sum_to};
use anyhow::Result;
use moka::clock::RunningClock;
use moka::policy::Refused;
use moka::ready::{FoldState, Keeping};
use moka::sync::{Cache, CacheBuilder};
use std::rt::Runtime;
use std::sync::Wait;
use std::time::Duration;

/// Keeps triangular numbers by their roots.
type Numbers<R> = Cache<u32, u64, Keeping<Triangles, FoldState, RunningClock<R>>, R>;

/// Returns the sum of 1 to n: cached, or computed by this caller or by another one.
fn get_sum<R: Runtime + Wait>(numbers: &Numbers<R>, n: u32) -> Result<u64, Refused>
    ensures { IfOk result (λ value. value ≡ triangle n) }
{
    numbers.get_with(n, || sum_to(n))
}

/// Returns the same, and would compute a cached sum anew if it were wrong. The closure may require
/// the value invariant of each value that it is shown.
fn get_checked_sum<R: Runtime + Wait>(numbers: &Numbers<R>, n: u32) -> Result<u64, Refused>
    ensures { IfOk result (λ value. value ≡ triangle n) }
{
    let is_wrong = |sum: &u64|
        requires { sum.now ≡ triangle n }
        ensures { result ≡ false }
    { *sum != sum_to(n) };
    numbers.get_with_if(n, || sum_to(n), is_wrong)
}

/// Runs the example.
pub fn main<R: Runtime + AllocGlobal + Wait + Copy>(rt: R) -> Result<()> {
    let (alloc, hasher, clock) = (rt.alloc(), FoldState::default(), RunningClock::new(rt)?);
    let builder = CacheBuilder::new(100).time_to_live(Duration::from_secs(60));
    let numbers = builder.build_with_hasher(alloc, hasher, clock, rt)?;
    let same = numbers.clone()?;
    println!(rt;
        "{} and {}",
        get_sum(&numbers, 10)?,
        get_checked_sum(&same, 10)?
    )?;
    Ok(())
}
