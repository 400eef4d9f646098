//! A read-through cache shared by two threads. If both miss one page, one renders it and the other
//! waits.

use anyhow::Result;
use moka::Entry;
use moka::policy::{ManualClock, Refused};
use moka::ready::{FoldState, Plain};
use moka::sync::{Cache, CacheBuilder};
use std::rt::Runtime;
use std::sync::{Arc, Wait};
use std::thread;
use std::thread::Threads;

/// Pages by page number.
type Pages<W> = Cache<u64, u64, Plain<Arc<ManualClock>>, W>;

// Reads sixteen pages and returns their sum. On a miss one caller renders the page and the others
// wait.
fn read<W: Wait + Drop>(cache: &Pages<W>) -> Result<u64> {
    let mut sum = 0_u64;
    for number in 0..16 {
        let page = cache.get_with(number, || render(number))?;
        sum = sum.wrapping_add(page);
    }
    Ok(sum)
}

// Renders a page. A real program would do here what takes long.
fn render(number: u64) -> u64 {
    number.wrapping_mul(number)
}

// Counts a visit and returns the new count. No other compute of this page comes in between.
fn visit<W: Wait + Drop>(cache: &Pages<W>, page: u64) -> Result<u64, Refused> {
    let count = cache.entry(page).and_upsert_with(next_count)?;
    Ok(count.into_value())
}

// Returns the entry's count plus one, or 1 if there is no entry. The greatest `u64` stays.
fn next_count(shown: Option<Entry<u64, u64>>) -> u64 {
    match shown {
        Some(entry) => entry.value().saturating_add(1),
        None => 1,
    }
}

// Returns the sum of the cached pages. Other threads may use the cache between two steps.
fn sum_cached<W: Wait + Drop>(cache: &Pages<W>) -> Result<u64> {
    let mut sum = 0_u64;
    for pair in cache.iter() {
        let (_, page) = pair?;
        sum = sum.wrapping_add(page);
    }
    Ok(sum)
}

// Reads the pages in two threads, and then counts two visits.
fn run<R: Runtime + Wait + Threads + Copy + Send + Sync + 'static>(
    rt: &R,
    cache: &Pages<R>,
) -> Result<()> {
    let theirs = cache.clone()?;
    let child = thread::spawn(rt, move || read(&theirs))?;
    let ours = read(cache)?;
    let others = child.join(rt)?;
    println!(rt; "{ours} and {others}")?;
    visit(cache, 100)?;
    println!(rt; "visits: {}", visit(cache, 100)?)?;
    println!(rt; "cached: {}", sum_cached(cache)?)?;
    Ok(())
}

/// Runs the example. Only a program's `main` gets a runtime that can wait and start threads.
pub fn main<R: Runtime + AllocGlobal + Wait + Threads + Copy + Send + Sync + 'static>(
    rt: R,
) -> Result<()> {
    let clock = Arc::new(rt.alloc(), ManualClock::new(0))?;
    let cache = CacheBuilder::new(100).build_with_hasher(
        rt.alloc(),
        FoldState::default(),
        clock,
        rt,
    )?;
    run(&rt, &cache)
}
