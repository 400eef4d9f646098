//! Visits counted by `and_compute_with`. The third visit of a page ends its count.

use anyhow::Result;
use moka::Entry;
use moka::ops::compute::{CompResult, Op};
use moka::policy::{ManualClock, Refused};
use moka::ready::{FoldState, Plain};
use moka::sync::{Cache, CacheBuilder};
use std::rt::Runtime;
use std::sync::Wait;

type Visits<W> = Cache<u64, u64, Plain, W>;

// Says what a visit does to the count that it finds.
fn count(found: Option<Entry<u64, u64>>) -> Op<u64> {
    match found.map(|entry| entry.into_value()) {
        None => Op::Put(1),
        Some(1) => Op::Put(2),
        Some(_) => Op::Remove,
    }
}

// Counts a visit, and returns whether the page's count goes on.
fn visit<W: Wait + Drop>(visits: &Visits<W>, page: u64) -> Result<bool, Refused> {
    match visits.entry(page).and_compute_with(count)? {
        CompResult::Inserted(_) | CompResult::ReplacedWith(_) => Ok(true),
        CompResult::Removed(_) | CompResult::Unchanged(_) | CompResult::StillNone(_) => Ok(false),
    }
}

/// Runs the example.
pub fn main<R: Runtime + AllocGlobal + Wait + Copy>(rt: R) -> Result<()> {
    let (alloc, hasher, clock) = (rt.alloc(), FoldState::default(), ManualClock::new(0));
    let counts: Visits<R> = CacheBuilder::new(100).build_with_hasher(alloc, hasher, clock, rt)?;
    for page in [7, 7, 3, 7, 7] {
        println!(rt; "page {page}: {}", visit(&counts, page)?)?;
    }
    Ok(())
}
