//! The program's workers: that they run at the same time, and what is printed where memory or a
//! write is refused.
use crate::failures::Sink;
use mokabox_threads::threads::{Ended, Gate, OpenGate, run_threads};
use std::rt::Clock;
use std::sync::atomic::{AtomicU64, Ordering};
use std::test::Fail;
use std::thread;
use std::time::Duration;

/// A gate that holds each of two workers until both have come, for about ten seconds at most.
#[derive(Drop)]
struct Meeting<R> {
    rt: R,
    came: AtomicU64,
    met: AtomicU64,
}

impl<R: Clock> Gate for Meeting<R> {
    fn enter(&self, _worker: u64) {
        self.came.fetch_add(1, Ordering::SeqCst);
        for _ in 0..10_000 {
            if self.came.load(Ordering::SeqCst) == 2 {
                self.met.fetch_add(1, Ordering::SeqCst);
                return;
            }
            thread::sleep(&self.rt, Duration::from_millis(1));
        }
    }
}

// Two workers run at the same time: one after another, they would not meet.
#[test]
fn workers_run_beside_each_other(rt: HostRuntime) -> Result<(), Fail> {
    let (came, met) = (AtomicU64::new(0), AtomicU64::new(0));
    let gate = Meeting { rt, came, met };
    run_threads(rt, rt.alloc(), 2, &gate, &mut Vec::new(rt.alloc()))?;
    assert_eq!(rt; gate.met.load(Ordering::SeqCst), 2);
    Ok(())
}

// If an allocation of the workers fails, that is printed instead of the counts.
#[test]
fn workers_are_refused_where_memory_is(rt: HostRuntime) -> Result<(), Fail> {
    // An allocation that fails before or after those of the workers changes nothing.
    let mut written = match Vec::with_capacity(rt.alloc(), 64) {
        Ok(written) => written,
        Err(_) => Vec::with_capacity(rt.alloc(), 64)?,
    };
    let line = match run_threads(rt, rt.alloc(), 2, &OpenGate, &mut written)? {
        Ended::Counted => "workers 2 present 96 absent 32\n",
        Ended::Refused => "refused 1\n",
    };
    assert_eq!(rt; written.as_slice(), line.as_bytes());
    assert_eq!(rt; Ended::Refused.code(), 1);
    Ok(())
}

// A writer that is full fails the workers, at a write or when it is flushed.
#[test]
fn a_writer_that_is_full_fails_the_workers(rt: HostRuntime) -> Result<(), Fail> {
    let line = b"workers 1 present 48 absent 16\n".as_slice();
    for room in 0..=line.len() {
        let mut sink = Sink::new(rt.alloc(), room);
        assert!(rt; run_threads(rt, rt.alloc(), 1, &OpenGate, &mut sink).is_err());
        assert_eq!(rt; sink.taken.as_slice(), &line[..room]);
    }
    Ok(())
}
