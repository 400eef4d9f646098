//! Byte strings by weight (`byte_weigher`), in a cache with a listener: two types of one's own.

ghost use Rattle.std.specs.Prelude.{⊤};

use crate::byte_weigher::Bytes;
use anyhow::Result;
use moka::notification::RemovalCause;
use moka::policy::{Listener, ManualClock};
use moka::ready::{FoldState, WeighedListening};
use moka::sync::{Cache, CacheBuilder};
use std::rt::Runtime;
use std::sync::{Arc, Wait};

type Blobs<R> = Cache<u64, Vec<u8>, WeighedListening<Bytes, Tells<R>>, R>;

#[derive(Drop)]
struct Tells<R>(R);

impl<R: Runtime> Listener<u64, Vec<u8>> for Tells<R> {
    ghost hears = { λ _ _ _. ⊤ };

    fn removed(&self, number: Arc<u64>, blob: Vec<u8>, cause: RemovalCause)
        requires { ⊤ }
    {
        let _ = println!(self.0; "{number}: {} bytes, {cause:?}", blob.len());
    }
}

/// Runs the example.
pub fn main<R: Runtime + AllocGlobal + Wait + Copy>(rt: R) -> Result<()> {
    let builder = CacheBuilder::new(1_000)
        .weigher(Bytes)
        .eviction_listener(Tells(rt));
    let (alloc, hasher, clock) = (rt.alloc(), FoldState::default(), ManualClock::new(0));
    let blobs: Blobs<R> = builder.build_with_hasher(alloc, hasher, clock, rt)?;
    blobs.insert(1, vec![in alloc; 0; 400]?)?;
    blobs.insert(2, vec![in alloc; 0; 2_000]?)?;
    blobs.run_pending_tasks();
    Ok(())
}
