//! A table of sessions: a struct with a cache, whose listener is a type of its own.

ghost use Rattle.std.specs.Prelude.{⊤};

use anyhow::Result;
use moka::notification::RemovalCause;
use moka::policy::{Listener, ManualClock};
use moka::ready::{FoldState, Listening};
use moka::sync::{Cache, CacheBuilder};
use std::rt::Runtime;
use std::sync::atomic::{AtomicU64, Ordering};
use std::sync::{Arc, Wait};

#[derive(Drop)]
struct Counting(Arc<AtomicU64>);

impl Listener<u64, u64> for Counting {
    ghost hears = { λ _ _ _. ⊤ };

    fn removed(&self, _number: Arc<u64>, _user: u64, _cause: RemovalCause)
        requires { ⊤ }
    {
        self.0.fetch_add(1, Ordering::SeqCst);
    }
}

#[derive(Drop)]
struct Table<W> {
    sessions: Cache<u64, u64, Listening<Counting>, W>,
    ended: Arc<AtomicU64>,
}

// Logs a user in and out, and returns how many sessions have ended.
fn visit<W: Wait + Drop>(table: &Table<W>, user: u64) -> Result<u64> {
    table.sessions.insert(1, user)?;
    table.sessions.invalidate(&1);
    Ok(table.ended.load(Ordering::SeqCst))
}

/// Runs the example.
pub fn main<R: Runtime + AllocGlobal + Wait + Copy>(rt: R) -> Result<()> {
    let ended = Arc::new(rt.alloc(), AtomicU64::new(0))?;
    let builder = CacheBuilder::new(100).eviction_listener(Counting(ended.clone()?));
    let (hasher, clock) = (FoldState::default(), ManualClock::new(0));
    let sessions = builder.build_with_hasher(rt.alloc(), hasher, clock, rt)?;
    println!(rt; "{} ended", visit(&Table { sessions, ended }, 7)?)?;
    Ok(())
}
