//! A first cache: a value is found until its time to live of ten seconds has passed, and not after.

// README.md copies this file as a program of its own. The root file of a program needs the next
// line.
#![tactic(auto)]

use anyhow::Result;
use moka::ready::{FoldState, Plain};
use moka::state::CacheState;
use moka::sync::CacheBuilder;
use std::alloc::Global;
use std::time::Duration;

// Inserts `name` at moment 0 and returns what `get` finds at moment `now`, in nanoseconds.
fn look_up(alloc: Global, key: u64, name: String, now: u64) -> Result<Option<String>> {
    let mut cache: CacheState<u64, String, Plain> = CacheBuilder::new(100)
        .time_to_live(Duration::from_secs(10))
        .build_state(alloc, FoldState::default())?;
    cache.insert(key, name, 0)?;
    Ok(cache.get(&key, now)?)
}

/// Runs the example.
pub fn main(rt: HostRuntime) -> Result<()> {
    for now in [9_999_999_999, 10_000_000_000] {
        let name = String::from_str(rt.alloc(), "Alice")?;
        println!(rt; "{:?}", look_up(rt.alloc(), 97, name, now)?)?;
    }
    Ok(())
}
