//! A cache of at most 1000 bytes, whose entries weigh as many bytes as they hold. The weigher is a
//! closure.

ghost use Rattle.std.specs.Prelude.{refl};
ghost use Rattle.examples.specs.Blobs.{bytes_in};

use anyhow::Result;
use moka::meant::{Meant, Weighs};
use moka::policy::{EvictionPolicy, WeighBy, Weigher};
use moka::ready::{FoldState, Weighed};
use moka::state::CacheState;
use moka::sync::CacheBuilder;

/// The weight that the closure computes: the length of the value in bytes.
#[derive(Drop)]
struct Bytes;

impl Weighs<u64, Vec<u8>> for Bytes {
    ghost weight = { λ _. bytes_in };

    ghost equal_keys_weigh = { λ _ _ _ _ _. refl };
}

// Inserts blobs into a cache of 1000 bytes and prints the total weight after each.
fn fill<W: Weigher<u64, Vec<u8>> + Drop>(rt: &HostRuntime, weigher: W) -> Result<()>
    requires { W.weighs weigher bytes_in }
{
    let builder = CacheBuilder::new(1_000).eviction_policy(EvictionPolicy::lru());
    let builder = builder.weigher(Meant::new(Bytes, weigher));
    let mut blobs: CacheState<u64, Vec<u8>, Weighed<Meant<Bytes, W>>> = builder.build_state(
        rt.alloc(),
        FoldState::default(),
    )?;
    for (number, size) in [(1, 400), (2, 500), (3, 300), (4, 2_000)] {
        blobs.insert(number, vec![in rt.alloc(); 0_u8; size]?, 0)?;
        blobs.run_pending_tasks(0);
        println!(rt; "{} bytes", blobs.weighted_size())?;
    }
    Ok(())
}

/// Runs the example.
pub fn main(rt: HostRuntime) -> Result<()> {
    let weigh = |_key: &u64, blob: &Vec<u8>| u32::try_from(blob.len()).unwrap_or(u32::MAX);
    fill(&rt, WeighBy::new(weigh))
}
