//! A cache with short calls: a flush limit bounds the evictions before a write, and maintenance is
//! done in slices.

use anyhow::Result;
use moka::ready::{FoldState, Plain};
use moka::state::CacheState;
use moka::sync::CacheBuilder;
use std::alloc::Global;
use std::time::Duration;

type Names = CacheState<u64, String, Plain>;

// In nanoseconds.
const SECOND: u64 = 1_000_000_000;

// Creates a cache with a time to live of a minute. A flush evicts at most two entries.
fn build_cache(alloc: Global) -> Result<Names> {
    let builder = CacheBuilder::new(1_000)
        .time_to_live(Duration::from_secs(60))
        .flush_limit(2);
    Ok(builder.build_state(alloc, FoldState::default())?)
}

// Evicts what has expired, at most four names at a time, with time for other work in between.
fn evict_in_slices(rt: &HostRuntime, names: &mut Names, now: u64) -> Result<()> {
    for _ in 0..names.entry_count() {
        if !names.run_pending_tasks_up_to(4, now) {
            break;
        }
        println!(rt; "{} are left", names.entry_count())?;
    }
    Ok(())
}

fn run(rt: &HostRuntime, names: &mut Names) -> Result<()> {
    for number in 0..10 {
        names.insert(number, String::from_str(rt.alloc(), "Alice")?, 0)?;
    }
    evict_in_slices(rt, names, 60 * SECOND)?;
    println!(rt; "{} in the end", names.entry_count())?;
    Ok(())
}

/// Runs the example.
pub fn main(rt: HostRuntime) -> Result<()> {
    run(&rt, &mut build_cache(rt.alloc())?)
}
