//! A shared cache with a listener that is a closure. It gets each removed entry with its cause.

use anyhow::Result;
use moka::notification::RemovalCause;
use moka::policy::{EvictionPolicy, ListenBy, Listener, ManualClock};
use moka::ready::{FoldState, Listening};
use moka::sync::{Cache, CacheBuilder};
use std::rt::Runtime;
use std::sync::{Arc, Wait};

// Inserts four names into a cache of two, which notifies this listener of each removal.
fn fill<L: Listener<u64, String> + Drop, R: Runtime + AllocGlobal + Wait + Copy>(
    rt: R,
    listener: L,
) -> Result<()>
    requires { (number : _) (name : _) → L.hears listener number name }
{
    let (alloc, hasher, clock) = (rt.alloc(), FoldState::default(), ManualClock::new(0));
    let builder = CacheBuilder::new(2).eviction_policy(EvictionPolicy::lru());
    let builder = builder.eviction_listener(listener);
    let names: Cache<u64, String, Listening<L>, R> = builder.build_with_hasher(
        alloc, hasher, clock, rt,
    )?;
    for (number, name) in [(1, "Alice"), (2, "Bob"), (1, "Carol"), (3, "Dave")] {
        names.insert(number, String::from_str(rt.alloc(), name)?)?;
    }
    names.run_pending_tasks();
    Ok(())
}

/// Runs the example.
pub fn main<R: Runtime + AllocGlobal + Wait + Copy>(rt: R) -> Result<()> {
    let listener = ListenBy::new(move |number: Arc<u64>, name: String, cause: RemovalCause| {
        let _ = println!(rt; "{number}: {name}, {cause:?}");
    });
    fill(rt, listener)
}
