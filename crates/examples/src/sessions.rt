//! Sessions that end eight hours after login, or half an hour after their last use.

use anyhow::Result;
use moka::ready::{FoldState, Plain};
use moka::state::CacheState;
use moka::sync::CacheBuilder;
use std::alloc::Global;
use std::io;
use std::time::{Duration, Instant};

/// The user of each session, by session number.
type Sessions = CacheState<u64, String, Plain>;

// In nanoseconds.
const MINUTE: u64 = 60_000_000_000;

fn build_cache(alloc: Global) -> Result<Sessions> {
    let builder = CacheBuilder::new(10_000)
        .time_to_live(Duration::from_secs(8 * 3_600))
        .time_to_idle(Duration::from_secs(30 * 60));
    Ok(builder.build_state(alloc, FoldState::default())?)
}

// Returns the moment of a call: the nanoseconds since the program began.
fn moment(rt: &HostRuntime, begun: &Instant) -> io::Result<u64> {
    Ok(u64::try_from(begun.elapsed(rt)?.as_nanos()).unwrap_or(u64::MAX))
}

fn log_in(sessions: &mut Sessions, number: u64, user: String, now: u64) -> Result<()> {
    Ok(sessions.insert(number, user, now)?)
}

fn user_of(sessions: &mut Sessions, number: u64, now: u64) -> Result<Option<String>> {
    Ok(sessions.get(&number, now)?)
}

// Evicts what has expired, and prints why each session ended.
fn report_ended(rt: &HostRuntime, sessions: &mut Sessions, now: u64) -> Result<()> {
    sessions.run_pending_tasks(now);
    while let Some(notice) = sessions.take_notice() {
        println!(rt;
            "session {} of {}: {:?}",
            notice.key, notice.value, notice.cause
        )?;
    }
    Ok(())
}

// Passes the moments that later calls would have, so the program need not wait.
fn run(rt: &HostRuntime, sessions: &mut Sessions) -> Result<()> {
    let begun = Instant::now(rt)?;
    let login = moment(rt, &begun)?;
    log_in(sessions, 1, String::from_str(rt.alloc(), "Alice")?, login)?;
    log_in(sessions, 2, String::from_str(rt.alloc(), "Bob")?, login)?;
    for minutes in [20, 40, 60, 90] {
        let now = login.saturating_add(MINUTE.saturating_mul(minutes));
        println!(rt; "after {minutes} minutes: {:?}", user_of(sessions, 1, now)?)?;
        report_ended(rt, sessions, now)?;
    }
    Ok(())
}

/// Runs the example.
pub fn main(rt: HostRuntime) -> Result<()> {
    run(&rt, &mut build_cache(rt.alloc())?)
}
