//! An initializer that may find nothing. Then nothing is stored, and the next call looks again.

use anyhow::Result;
use moka::policy::ManualClock;
use moka::ready::{FoldState, Plain};
use moka::sync::{Cache, CacheBuilder};
use std::rt::Runtime;
use std::sync::Wait;

// Returns the square root of a square of at most 100, or nothing.
fn root_of(number: u64) -> Option<u64> {
    (0..11_u64).find(|root| root.saturating_mul(*root) == number)
}

/// Runs the example.
pub fn main<R: Runtime + AllocGlobal + Wait + Copy>(rt: R) -> Result<()> {
    let (alloc, hasher, clock) = (rt.alloc(), FoldState::default(), ManualClock::new(0));
    let roots: Cache<u64, u64, Plain, R> = CacheBuilder::new(100).build_with_hasher(
        alloc, hasher, clock, rt,
    )?;
    for number in [49, 50, 49] {
        let root = roots.optionally_get_with(number, || root_of(number))?;
        println!(rt; "{number}: {root:?}, {} stored", roots.entry_count())?;
    }
    Ok(())
}
