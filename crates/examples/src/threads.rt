//! Two threads that share a cache of four segments. Each finds what the other wrote.

use anyhow::Result;
use moka::policy::ManualClock;
use moka::ready::{FoldState, Plain};
use moka::sync::{CacheBuilder, SegmentedCache};
use std::rt::Runtime;
use std::sync::{Arc, Wait};
use std::thread;
use std::thread::Threads;

/// Squares by root.
type Squares<W> = SegmentedCache<u64, u64, Plain<Arc<ManualClock>>, W>;

// Inserts the squares of sixteen numbers, beginning with this one.
fn fill<W: Wait + Drop>(squares: &Squares<W>, first: u64) -> Result<()> {
    for root in first..first.saturating_add(16) {
        squares.insert(root, root.wrapping_mul(root))?;
    }
    Ok(())
}

// Fills the cache from two threads and prints three lookups.
fn run<R: Runtime + Wait + Threads + Copy + Send + Sync + 'static>(
    rt: &R,
    squares: &Squares<R>,
) -> Result<()> {
    let theirs = squares.clone()?;
    let child = thread::spawn(rt, move || fill(&theirs, 16))?;
    fill(squares, 0)?;
    child.join(rt)?;
    for root in [3, 20, 40] {
        println!(rt; "{root}: {:?}", squares.get(&root)?)?;
    }
    Ok(())
}

/// Runs the example. Only a program's `main` gets a runtime that can wait and start threads.
pub fn main<R: Runtime + AllocGlobal + Wait + Threads + Copy + Send + Sync + 'static>(
    rt: R,
) -> Result<()> {
    let clock = Arc::new(rt.alloc(), ManualClock::new(0))?;
    let squares = CacheBuilder::new(100)
        .segments(4)?
        .build_with_hasher(rt.alloc(), FoldState::default(), clock, rt)?;
    run(&rt, &squares)
}
