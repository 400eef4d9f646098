//! A clock that runs.
ghost use Rattle.std.specs.Prelude.{◌≡◌, ℕ, ◌-◌, ◌≤◌, ◌^◌, max, min, MatchResult};
ghost use Rattle.std.specs.Duration.{as_nanos};

use moka_policy::policy::Clock;
use std::sync::atomic::{AtomicU64, Ordering};
use std::time::{Duration, Instant};
use std::{io, time};

/// A clock that returns how long ago it was made, in nanoseconds, by the monotonic clock of a
/// runtime.
///
/// Its moments never go back, whichever thread asks: it remembers the latest moment that it
/// returned. If the runtime's clock cannot be read, it returns that one again, so time stands still
/// meanwhile. At 2^64 - 1, after 584 years, it stands still for good.
///
/// An owned cache has no clock: pass what `now` of [`Clock`] returns as the moment of a call.
///
/// ```
/// let clock = RunningClock::new(rt)?;
/// let builder = CacheBuilder::new(100).time_to_live(life);
/// Ok(builder.build_with_hasher(rt.alloc(), FoldState::default(), clock, rt)?)
/// ```
#[derive(Drop)]
pub struct RunningClock<R> {
    runtime: R,
    begun: Instant,
    latest: AtomicU64,
}

impl<R: time::Clock + Drop> RunningClock<R> {
    /// Creates a clock that is at 0 now.
    ///
    /// # Errors
    ///
    /// - The `io::Error` of the runtime's clock, if it cannot be read.
    pub fn new(runtime: R) -> io::Result<Self> {
        let begun = Instant::now(&runtime)?;
        Ok(RunningClock {
            runtime,
            begun,
            latest: AtomicU64::new(0),
        })
    }
}

impl<R: time::Clock + Drop> Clock for RunningClock<R> {
    fn now(&self) -> u64 {
        let read = moment_of(self.begun.elapsed(&self.runtime));
        let latest = self.latest.fetch_max(read, Ordering::SeqCst);
        later_of(latest, read)
    }
}

// Returns the nanoseconds of a reading, at most 2^64 - 1, or 0 if the reading failed.
fn moment_of(read: io::Result<Duration>) -> u64
    ensures { MatchResult read (λ passed. result ≡ min (as_nanos passed) (2 ^ 64 - 1))
        (λ _. result ≡ 0) }
{
    match read {
        Ok(passed) => u64::try_from(passed.as_nanos()).unwrap_or(u64::MAX),
        Err(_) => 0,
    }
}

// Returns the later of two moments.
fn later_of(one: u64, other: u64) -> u64
    ensures { result ≡ max one other }
{
    one.max(other)
}
