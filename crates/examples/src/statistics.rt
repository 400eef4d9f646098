//! The statistics of an owned cache: hits, misses, loads, and removals by cause.

use anyhow::Result;
use moka::policy::EvictionPolicy;
use moka::ready::{FoldState, Plain};
use moka::sync::CacheBuilder;
use moka_counted::counted::{Counted, CountedState};
use moka_stats::statistics::Statistics;

type Squares = CountedState<u64, u64, Plain>;

// Reads a few squares through the cache, and takes the notices.
fn run(squares: &mut Squares) -> Result<()> {
    for root in [1, 2, 1, 3, 2] {
        squares.get_with(root, || root.saturating_mul(root), 0)?;
        squares.cache.run_pending_tasks(0);
    }
    for _ in 0..squares.cache.notice_count() {
        squares.take_notice();
    }
    squares.get(&9, 0)?;
    Ok(())
}

/// Runs the example.
pub fn main(rt: HostRuntime) -> Result<()> {
    let builder = CacheBuilder::new(2).eviction_policy(EvictionPolicy::lru());
    let cache = builder.build_state(rt.alloc(), FoldState::default())?;
    let mut squares: Squares = Counted {
        cache,
        statistics: Statistics::default(),
    };
    run(&mut squares)?;
    println!(rt; "{:?}", squares.statistics)?;
    println!(rt; "{} lookups", squares.statistics.lookups())?;
    Ok(())
}
