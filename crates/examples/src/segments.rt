//! An owned cache of several segments. Each key belongs to one of them, and each has a share of the
//! capacity.

use anyhow::Result;
use moka::ready::{FoldState, Plain};
use moka::sync::CacheBuilder;
use moka::sync::segment::SegmentedState;
use std::alloc::Global;

type Names = SegmentedState<u64, String, Plain>;

// Room for 1000 names in 8 segments: for 125 in each.
fn build_cache(alloc: Global) -> Result<Names> {
    let builder = CacheBuilder::new(1_000).segments(8)?;
    Ok(builder.build_segmented_state(alloc, FoldState::default())?)
}

// Inserts 100 names, prints the entries per segment, and invalidates one.
fn run(rt: &HostRuntime, names: &mut Names) -> Result<()> {
    for number in 0..100 {
        names.insert(number, String::from_str(rt.alloc(), "Alice")?, 0)?;
    }
    for (number, segment) in names.segments().iter().enumerate() {
        println!(rt; "segment {number}: {} names", segment.entry_count())?;
    }
    names.invalidate(&7, 0);
    names.run_pending_tasks(0);
    println!(rt;
        "{} names in all, {} left",
        names.entry_count(),
        names.notice_count()
    )?;
    Ok(())
}

/// Runs the example.
pub fn main(rt: HostRuntime) -> Result<()> {
    run(&rt, &mut build_cache(rt.alloc())?)
}
