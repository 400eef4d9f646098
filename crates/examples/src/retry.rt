//! An initializer that fails, and then succeeds. What failed is not stored, so the next call tries
//! again.

use anyhow::Result;
use moka::policy::ManualClock;
use moka::ready::{Fallible, FoldState};
use moka::sync::{Cache, CacheBuilder};
use std::rt::Runtime;
use std::sync::Wait;
use thiserror::Error;

#[derive(Clone, Copy, Debug, Error)]
enum NotLoaded {
    #[error("the shop is closed")]
    Closed,
}

type Prices<W> = Cache<u64, u64, Fallible<NotLoaded>, W>;

// Loads a price, if the shop says one.
fn load(said: Option<u64>) -> Result<u64, NotLoaded> {
    said.ok_or(NotLoaded::Closed)
}

/// Runs the example.
pub fn main<R: Runtime + AllocGlobal + Wait + Copy>(rt: R) -> Result<()> {
    let (alloc, hasher, clock) = (rt.alloc(), FoldState::default(), ManualClock::new(0));
    let prices: Prices<R> = CacheBuilder::new(100).build_with_hasher(alloc, hasher, clock, rt)?;
    for said in [None, Some(350), None] {
        match prices.try_get_with(1, || load(said))? {
            Ok(price) => println!(rt; "{price}")?,
            Err(error) => println!(rt; "{error}")?,
        }
    }
    Ok(())
}
