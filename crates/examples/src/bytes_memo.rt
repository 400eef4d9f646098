//! Byte strings that two threads read through one cache. The initializer allocates, so it may fail.

use anyhow::Result;
use moka::policy::ManualClock;
use moka::ready::{Fallible, FoldState};
use moka::sync::{Cache, CacheBuilder};
use std::alloc::{AllocError, Global};
use std::rt::Runtime;
use std::sync::{Arc, Wait};
use std::thread;
use std::thread::Threads;

type Memo<W> = Cache<u64, Vec<u8>, Fallible<AllocError, Arc<ManualClock>>, W>;

// Returns how many bytes sixteen values have together. Each is made by one of the callers.
fn measure<W: Wait + Drop>(memo: &Memo<W>, alloc: Global) -> Result<usize> {
    let mut total = 0_usize;
    for number in 0..16 {
        let bytes = memo.try_get_with(number, || vec![in alloc; 7; 100])??;
        total = total.saturating_add(bytes.len());
    }
    Ok(total)
}

/// Runs the example.
pub fn main<R: Runtime + AllocGlobal + Wait + Threads + Copy + Send + Sync + 'static>(
    rt: R,
) -> Result<()> {
    let alloc = rt.alloc();
    let clock = Arc::new(alloc, ManualClock::new(0))?;
    let memo = CacheBuilder::new(100).build_with_hasher(alloc, FoldState::default(), clock, rt)?;
    let theirs = memo.clone()?;
    let child = thread::spawn(&rt, move || measure(&theirs, alloc))?;
    let ours = measure(&memo, alloc)?;
    println!(rt; "{ours} bytes and {} bytes", child.join(&rt)?)?;
    Ok(())
}
