//! A cache for names that come from outside. Its hasher has a secret, so nobody can pick names of one
//! hash.

use anyhow::Result;
use moka::clock::RunningClock;
use moka::ready::PlainRandom;
use moka::sync::{Cache, CacheBuilder};
use std::hash::RandomState;
use std::random::RandomSource;
use std::rt::Runtime;
use std::sync::Wait;
use std::time::Duration;

type Hosts<R> = Cache<String, u64, PlainRandom<RunningClock<R>>, R>;

/// Runs the example.
pub fn main<R: Runtime + AllocGlobal + RandomSource + Wait + Copy>(rt: R) -> Result<()> {
    let builder = CacheBuilder::new(100).time_to_live(Duration::from_secs(3_600));
    let (hasher, clock) = (RandomState::new(&rt)?, RunningClock::new(rt)?);
    let hosts: Hosts<R> = builder.build(rt.alloc(), hasher, clock, rt)?;
    let name = String::from_str(rt.alloc(), "example.org")?;
    let address = hosts.get_with_by_ref(&name, || 7)?;
    println!(rt; "{name}: {address}, {:?}", hosts.get(&name)?)?;
    Ok(())
}
