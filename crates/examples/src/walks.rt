//! Iteration: by a cursor over an owned cache that may change between two calls, and by an iterator
//! over one that does not change.

use anyhow::Result;
use moka::common::iter::{Iter, ScanningGet, WalkCursor};
use moka::policy::Refused;
use moka::ready::{FoldState, Plain};
use moka::state::CacheState;
use moka::sync::CacheBuilder;
use std::alloc::Global;
use std::slice;
use std::sync::Arc;

type Names = CacheState<u64, String, Plain>;

fn build_cache(alloc: Global) -> Result<Names> {
    let mut names: Names = CacheBuilder::new(100).build_state(alloc, FoldState::default())?;
    for (number, name) in [(1, "Alice"), (2, "Bob"), (3, "Carol")] {
        names.insert(number, String::from_str(alloc, name)?, 0)?;
    }
    Ok(names)
}

// Removes all names except those of `length` bytes, in one iteration.
fn retain_by_length(names: &mut Names, length: usize, now: u64) -> Result<(), Refused> {
    let mut cursor = WalkCursor::new();
    while let Some(pair) = cursor.next(slice::from_ref(&*names), now) {
        let (number, name) = pair?;
        if name.len() != length {
            names.invalidate(&*number, now);
        }
    }
    Ok(())
}

/// A cache at one moment, in nanoseconds: what the iterator reads.
#[derive(Drop)]
struct Still<'n> {
    names: &'n Names,
    now: u64,
}

impl ScanningGet<u64, String> for Still<'_> {
    ghost stands = { λ _ _. Unit {0} };

    ghost finds = { λ _ _ _. Unit {0} };

    fn num_cht_segments(&self) -> usize {
        1
    }

    fn scanning_get(&self, key: &Arc<u64>) -> Result<Option<String>, Refused> {
        self.names.scan_get(&**key, self.now)
    }

    fn keys(&self, segment: usize) -> Result<Option<Vec<Arc<u64>>>, Refused> {
        if segment == 0 {
            Ok(Some(self.names.scan_keys()?))
        } else {
            Ok(None)
        }
    }
}

// Prints all live names.
fn print_all(rt: &HostRuntime, names: &Names, now: u64) -> Result<()> {
    let still = Still { names, now };
    for pair in Iter::new(slice::from_ref(&still)) {
        let (number, name) = pair?;
        println!(rt; "{number}: {name}")?;
    }
    Ok(())
}

fn run(rt: &HostRuntime, names: &mut Names) -> Result<()> {
    retain_by_length(names, 5, 0)?;
    print_all(rt, names, 0)
}

/// Runs the example.
pub fn main(rt: HostRuntime) -> Result<()> {
    run(&rt, &mut build_cache(rt.alloc())?)
}
