//! Clocks, from which shared caches read the moments of their calls.
ghost use Rattle.std.specs.Prelude.{◌≡◌, ℕ, ⊤};
ghost use Rattle.std.specs.Arc.{arc_value};

use std::sync::Arc;
use std::sync::atomic::{AtomicU64, Ordering};

/// A source of moments. A shared cache reads it once in each step that has a moment, under its
/// lock.
pub trait Clock {
    /// Whether `now` may return this moment.
    ghost tells: { Self → ℕ → Type 0 } = { λ _ _. ⊤ };

    /// Returns the moment, in nanoseconds since an origin that the clock chooses.
    ///
    /// It may go back: a cache treats a moment before its latest one as the latest one.
    fn now(&self) -> u64
        ensures { tells self.now result };
}

/// Shares a clock, so that it can still be set after a cache was given it.
impl<C: Clock> Clock for Arc<C> {
    ghost tells = { λ clock. C.tells (arc_value clock) };

    fn now(&self) -> u64 {
        C::now(&**self)
    }
}

/// A clock whose moment changes only when it is set.
#[derive(Debug, Drop)]
pub struct ManualClock {
    moment: AtomicU64,
}

impl ManualClock {
    /// Creates a clock at this moment, in nanoseconds.
    pub fn new(moment: u64) -> Self {
        ManualClock {
            moment: AtomicU64::new(moment),
        }
    }

    /// Sets the clock to a moment, in nanoseconds. It may be an earlier one.
    pub fn set(&self, moment: u64) {
        self.moment.store(moment, Ordering::SeqCst);
    }
}

impl Clock for ManualClock {
    fn now(&self) -> u64 {
        self.moment.load(Ordering::SeqCst)
    }
}
