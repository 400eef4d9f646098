//! What the threads of a scene tell each other, and values whose clones can be refused.

use moka_presets::copies::CopiesCompose;
use std::alloc::AllocError;
use std::fmt::{Debug, Formatter};
use std::rt::Clock;
use std::sync::Arc;
use std::sync::atomic::{AtomicU64, Ordering};
use std::time::Duration;
use std::{fmt, thread};

/// What is counted, from 0 on, and what is told.
#[derive(Default, Drop)]
pub(crate) struct Marks {
    /// The initializers that began.
    pub asks: AtomicU64,
    /// What one thread tells the others.
    pub told: AtomicU64,
    /// The threads that have played their rows.
    pub done: AtomicU64,
    /// The loads that returned a value; that failed and held their turn; that held their ticket; and
    /// that held nothing.
    pub given: AtomicU64,
    pub held: AtomicU64,
    pub left: AtomicU64,
    pub failed: AtomicU64,
    /// The calls that were refused memory and made again.
    pub refusals: AtomicU64,
    /// The clones of values.
    pub clones: AtomicU64,
    /// The number of the clone that is refused, from 1; 0 for none.
    pub refused_clone: AtomicU64,
}

/// Adds 1 to a count.
pub(crate) fn mark(count: &AtomicU64) {
    count.fetch_add(1, Ordering::SeqCst);
}

/// Returns a count.
pub(crate) fn so_far(count: &AtomicU64) -> u64 {
    count.load(Ordering::SeqCst)
}

/// Sleeps so many milliseconds.
pub(crate) fn nap(rt: &impl Clock, milliseconds: u64) {
    thread::sleep(rt, Duration::from_millis(milliseconds));
}

/// Waits until a count has reached `wanted`, for twenty seconds or more at most. Returns whether it
/// has.
pub(crate) fn come(rt: &impl Clock, count: &AtomicU64, wanted: u64) -> bool {
    for _ in 0..20_000 {
        if so_far(count) >= wanted {
            return true;
        }
        nap(rt, 1);
    }
    false
}

/// A number. Those of a cache count their clones together; 0 has none.
#[derive(Drop)]
pub(crate) struct Scarce {
    pub number: u64,
    pub marks: Arc<Marks>,
}

impl Clone for Scarce {
    fn clone(&self) -> Result<Self, AllocError> {
        let clone = self
            .marks
            .clones
            .fetch_add(1, Ordering::SeqCst)
            .wrapping_add(1);
        if self.number == 0 || clone == so_far(&self.marks.refused_clone) {
            return Err(AllocError);
        }
        let (number, marks) = (self.number, self.marks.clone()?);
        Ok(Scarce { number, marks })
    }
}

impl CopiesCompose for Scarce {
    ghost copies_compose = { λ _ _ _ _ _. tt };
}

impl Debug for Scarce {
    fn fmt<W: fmt::Write>(&self, f: &mut Formatter<W>) -> fmt::Result {
        write!(f, "{}", self.number)
    }
}
