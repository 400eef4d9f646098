//! The history of a recorded cache, and its steps on an owned cache.

use anyhow::{Result, bail, ensure};
use moka::policy::CacheTypes;
use moka::ready::PlainRecorded;
use moka::state::{CacheState, Reply, Step};
use moka::sync::recorded::{Entries, Naming, Pass, RecordedCache};
use moka_replies::compare::is_same_reply;
use std::sync::Wait;

/// Closes the cache. Returns its history.
pub(crate) fn history<C: CacheTypes<u64, u64>, L: Naming, W: Wait + Drop>(
    cache: RecordedCache<u64, u64, C, L, W>,
    passes: Vec<Pass<u64, u64, C, L>>,
) -> Result<Entries<Step<u64, u64, C>, Reply<u64, u64, C>>> {
    let Ok((entries, _)) = cache.close(passes) else {
        bail!("a pass is missing");
    };
    Ok(entries)
}

// Makes a step. Returns whether its reply is the same as the recorded one.
fn make(
    fresh: &mut CacheState<u64, u64, PlainRecorded>,
    step: Step<u64, u64, PlainRecorded>,
    recorded: Reply<u64, u64, PlainRecorded>,
) -> bool {
    let reply = fresh.step(step);
    is_same_reply(&reply, &recorded)
}

/// Makes the steps of a history on an owned cache, and compares the replies.
pub(crate) fn replay(
    entries: Entries<Step<u64, u64, PlainRecorded>, Reply<u64, u64, PlainRecorded>>,
    mut fresh: CacheState<u64, u64, PlainRecorded>,
) -> Result<()> {
    for (_, step, reply) in entries {
        ensure!(make(&mut fresh, step, reply), "another reply");
    }
    Ok(())
}
