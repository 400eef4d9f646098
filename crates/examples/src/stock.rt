//! Counts by item, in a cache with one lock and in one with four segments: how to iterate over
//! both, and how `?` returns the cause of a failed write.

use anyhow::Result;
use moka::policy::{ManualClock, Refused};
use moka::ready::{FoldState, Plain};
use moka::sync::{Cache, CacheBuilder, SegmentedCache};
use std::rt::Runtime;
use std::sync::{Arc, Wait};

/// Counts by item number.
type Stock<W> = Cache<u64, u64, Plain, W>;

/// The same in four segments.
type SegmentedStock<W> = SegmentedCache<u64, u64, Plain, W>;

// Stores a count. A failed insert hands back item and count, of which `?` keeps only the cause.
fn store<W: Wait + Drop>(stock: &Stock<W>, item: u64, count: u64) -> Result<(), Refused> {
    stock.insert(item, count)?;
    Ok(())
}

// Returns the count of an item. Stores 0 if there is none.
fn count_of<W: Wait + Drop>(stock: &Stock<W>, item: &Arc<u64>) -> Result<u64, Refused> {
    let entry = stock.or_insert(item, 0)?;
    Ok(entry.into_value())
}

// Returns the sum of all counts.
fn total<W: Wait + Drop>(stock: &Stock<W>) -> Result<u64, Refused> {
    let mut total = 0_u64;
    for pair in stock.iter() {
        let (_, count) = pair?;
        total = total.wrapping_add(count);
    }
    Ok(total)
}

// Returns the sum of all counts, segment by segment.
fn segmented_total<W: Wait + Drop>(stock: &SegmentedStock<W>) -> Result<u64, Refused> {
    let mut total = 0_u64;
    for pair in stock.iter() {
        let (_, count) = pair?;
        total = total.wrapping_add(count);
    }
    Ok(total)
}

// Stores two counts, and prints a third one and the sum.
fn show<R: Runtime + AllocGlobal + Wait>(rt: &R, stock: &Stock<R>) -> Result<()> {
    store(stock, 1, 10)?;
    store(stock, 2, 20)?;
    let unknown = Arc::new(rt.alloc(), 3)?;
    println!(rt; "item 3: {}", count_of(stock, &unknown)?)?;
    println!(rt; "in all: {}", total(stock)?)?;
    Ok(())
}

// Stores sixteen counts, and prints the sum.
fn show_segmented<R: Runtime + Wait>(rt: &R, stock: &SegmentedStock<R>) -> Result<()> {
    for item in 0..16 {
        stock.insert(item, 5)?;
    }
    println!(rt; "in all segments: {}", segmented_total(stock)?)?;
    Ok(())
}

fn run<R: Runtime + AllocGlobal + Wait + Copy>(rt: R) -> Result<()> {
    let (alloc, hasher, clock) = (rt.alloc(), FoldState::default(), ManualClock::new(0));
    let stock = CacheBuilder::new(100).build_with_hasher(alloc, hasher, clock, rt)?;
    show(&rt, &stock)
}

fn run_segmented<R: Runtime + AllocGlobal + Wait + Copy>(rt: R) -> Result<()> {
    let (alloc, hasher, clock) = (rt.alloc(), FoldState::default(), ManualClock::new(0));
    let stock = CacheBuilder::new(100)
        .segments(4)?
        .build_with_hasher(alloc, hasher, clock, rt)?;
    show_segmented(&rt, &stock)
}

/// Runs the example.
pub fn main<R: Runtime + AllocGlobal + Wait + Copy>(rt: R) -> Result<()> {
    run(rt)?;
    run_segmented(rt)
}
