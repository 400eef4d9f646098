//! Four threads that share a cache of sixteen segments, each with a lock of its own.

use anyhow::Result;
use moka::policy::{ManualClock, Refused};
use moka::ready::{FoldState, Plain};
use moka::sync::{CacheBuilder, SegmentedCache};
use std::rt::Runtime;
use std::sync::Wait;
use std::thread;
use std::thread::Threads;

type Squares<W> = SegmentedCache<u64, u64, Plain, W>;

// Inserts the squares of a hundred numbers, which are another thread's for another worker.
fn fill<W: Wait + Drop>(squares: &Squares<W>, worker: u64) -> Result<(), Refused> {
    for number in 0..100_u64 {
        let root = number.saturating_mul(4).saturating_add(worker);
        squares.insert(root, root.wrapping_mul(root))?;
    }
    Ok(())
}

/// Runs the example.
pub fn main<R: Runtime + AllocGlobal + Wait + Threads + Copy + Send + Sync>(rt: R) -> Result<()> {
    let builder = CacheBuilder::new(1_000).segments(16)?;
    let (alloc, hasher, clock) = (rt.alloc(), FoldState::default(), ManualClock::new(0));
    let squares: Squares<R> = builder.build_with_hasher(alloc, hasher, clock, rt)?;
    let work = |worker: usize| fill(&squares, worker as u64);
    for filled in thread::map_indices(&rt, alloc, 4, &work)? {
        filled?;
    }
    println!(rt; "{} squares", squares.entry_count())?;
    Ok(())
}
