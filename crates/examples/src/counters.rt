//! Visits counted by page. One call counts a visit; its result is proved to be the live count plus
//! one.

ghost use Rattle.std.specs.Prelude.{◌≡◌, IfOk, option_map};
ghost use Rattle.moka_model.specs.Entries.{entry_of};
ghost use Rattle.examples.specs.Counts.{count_of, live_count, one_more_than};

use anyhow::Result;
use moka::Entry;
use moka::policy::Refused;
use moka::ready::{FoldState, Plain};
use moka::state::{CacheState, StateView};
use moka::sync::CacheBuilder;
use std::time::Duration;

/// The number of visits to each page, by page number.
type Counts = CacheState<u64, u64, Plain>;

// Counts a visit to `page` at moment `now` in nanoseconds, and returns the new count.
fn count(counts: &mut Counts, page: u64, now: u64) -> Result<u64, Refused>
    ensures { IfOk result (λ count. ⟦<Plain as StateView<u64, u64>>⟧.at_each_history counts.old
        (λ settings steps. count ≡ one_more_than (live_count settings steps page now))) }
{
    let entry = counts.entry(page, now).and_upsert_with(next_count)?;
    Ok(entry.into_value())
}

// Returns the entry's count plus one, or 1 if there is no entry. The greatest `u64` stays.
fn next_count(shown: Option<Entry<u64, u64>>) -> u64
    ensures { result ≡ one_more_than
        (count_of (option_map (λ entry. (entry_of entry).value) shown)) }
{
    match shown {
        Some(entry) => entry.value().saturating_add(1),
        None => 1,
    }
}

// In nanoseconds.
const SECOND: u64 = 1_000_000_000;

/// Runs the example. The time to live is ten seconds from the last visit, since each one writes.
pub fn main(rt: HostRuntime) -> Result<()> {
    let mut counts: Counts = CacheBuilder::new(1_000)
        .time_to_live(Duration::from_secs(10))
        .build_state(rt.alloc(), FoldState::default())?;
    run(&rt, &mut counts)
}

fn run(rt: &HostRuntime, counts: &mut Counts) -> Result<()> {
    for (page, seconds) in [(7, 0), (3, 1), (7, 9), (7, 12), (3, 12)] {
        let opened = count(counts, page, SECOND.saturating_mul(seconds))?;
        println!(rt; "page {page} at {seconds} s: {opened}")?;
    }
    Ok(())
}
