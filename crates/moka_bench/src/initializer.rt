//! The initializer.
use std::sync::atomic::{AtomicU64, Ordering};
use std::thread;
use std::time::{Clock, Duration};

/// Computes each key itself as its value, after a while, and counts its calls.
#[derive(Drop)]
pub(crate) struct Initializer<W> {
    call_count: AtomicU64,
    takes: Duration,
    clock: W,
}

impl<W: Clock> Initializer<W> {
    /// Creates an initializer that takes so long for each value.
    pub(crate) fn new(takes: Duration, clock: W) -> Self {
        Initializer {
            call_count: AtomicU64::new(0),
            takes,
            clock,
        }
    }

    /// Counts a call, waits, and returns the value of a key.
    pub(crate) fn value_of(&self, key: u64) -> u64 {
        self.call_count.fetch_add(1, Ordering::SeqCst);
        thread::sleep(&self.clock, self.takes);
        key
    }

    /// Returns how often it was called so far.
    pub(crate) fn call_count(&self) -> u64 {
        self.call_count.load(Ordering::SeqCst)
    }
}
