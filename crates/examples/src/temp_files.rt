//! Temporary files, of which the last used are kept. A file is deleted when its name is removed
//! from the cache.

use anyhow::Result;
use moka::policy::EvictionPolicy;
use moka::ready::{FoldState, Plain};
use moka::state::CacheState;
use moka::sync::CacheBuilder;
use std::alloc::Global;
use std::fs;

/// File names by page number. No two files have the same name.
type Pages = CacheState<u64, String, Plain>;

fn build_cache(alloc: Global) -> Result<Pages> {
    let builder = CacheBuilder::new(2).eviction_policy(EvictionPolicy::lru());
    Ok(builder.build_state(alloc, FoldState::default())?)
}

// Writes a page into a file. If the insert fails, deletes the file at once.
fn save(rt: &HostRuntime, pages: &mut Pages, number: u64, name: String) -> Result<()> {
    fs::write(rt, &name, "a page")?;
    match pages.insert(number, name, 0) {
        Ok(()) => delete_removed(rt, pages),
        Err(refused) => {
            fs::remove_file(rt, &refused.value)?;
            Err(refused.cause.into())
        }
    }
}

// Deletes the file of each entry that was removed, whatever the cause.
fn delete_removed(rt: &HostRuntime, pages: &mut Pages) -> Result<()> {
    pages.run_pending_tasks(0);
    while let Some(notice) = pages.take_notice() {
        fs::remove_file(rt, &notice.value)?;
        println!(rt; "deleted {}: {:?}", notice.value, notice.cause)?;
    }
    Ok(())
}

// Saves four pages into a cache of two, then invalidates all of them.
fn run(rt: &HostRuntime, pages: &mut Pages) -> Result<()> {
    for (number, name) in [(1, "a.tmp"), (2, "b.tmp"), (1, "c.tmp"), (3, "d.tmp")] {
        save(rt, pages, number, String::from_str(rt.alloc(), name)?)?;
    }
    for number in 1..4 {
        pages.invalidate(&number, 0);
    }
    delete_removed(rt, pages)
}

/// Runs the example.
pub fn main(rt: HostRuntime) -> Result<()> {
    run(&rt, &mut build_cache(rt.alloc())?)
}
