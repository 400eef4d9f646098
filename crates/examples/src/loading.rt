//! A shared cache with an initializer that may fail. Every caller that shared the computation gets
//! the error, and nothing is stored.

use anyhow::Result;
use moka::policy::ManualClock;
use moka::ready::{Fallible, FoldState};
use moka::sync::{Cache, CacheBuilder};
use std::rt::Runtime;
use std::sync::Wait;
use thiserror::Error;

/// Why a price could not be loaded.
#[derive(Clone, Copy, Debug, Error)]
enum NotLoaded {
    #[error("nothing has the number {0}")]
    Unknown(u64),
}

type Prices<R> = Cache<u64, u64, Fallible<NotLoaded>, R>;

// Loads the price of item `number`. A real program would do here what may fail.
fn load(number: u64) -> Result<u64, NotLoaded> {
    match number {
        1 => Ok(350),
        _ => Err(NotLoaded::Unknown(number)),
    }
}

/// Runs the example.
pub fn main<R: Runtime + AllocGlobal + Wait + Copy>(rt: R) -> Result<()> {
    let (alloc, hasher, clock) = (rt.alloc(), FoldState::default(), ManualClock::new(0));
    let prices: Prices<R> = CacheBuilder::new(100).build_with_hasher(alloc, hasher, clock, rt)?;
    for number in [1, 2] {
        match prices.try_get_with(number, || load(number))? {
            Ok(price) => println!(rt; "{number}: {price}")?,
            Err(error) => println!(rt; "{number}: {error}")?,
        }
    }
    Ok(())
}
