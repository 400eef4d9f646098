//! The same as `first`, proved: a clone of the value is found until its ten seconds have passed,
//! and not after.

ghost use Rattle.std.specs.Prelude.{◌≡◌, IfOk, Some, None, if◌then◌else◌, nat_le, option_map};
ghost use Rattle.std.specs.String.{string_bytes};

use anyhow::Result;
use moka::ready::{FoldState, Plain};
use moka::state::CacheState;
use moka::sync::CacheBuilder;
use std::alloc::Global;
use std::time::Duration;

// Inserts `name` at moment 0 and returns what `get` finds at moment `now`, in nanoseconds.
fn look_up(alloc: Global, key: u64, name: String, now: u64) -> Result<Option<String>>
    ensures { IfOk result (λ found. option_map string_bytes found
        ≡ (if nat_le 10_000_000_000 now then None else Some (string_bytes name))) }
{
    let mut cache: CacheState<u64, String, Plain> = CacheBuilder::new(100)
        .time_to_live(Duration::from_secs(10))
        .build_state(alloc, FoldState::default())?;
    cache.insert(key, name, 0)?;
    Ok(cache.get(&key, now)?)
}

/// Runs the example.
pub fn main(rt: HostRuntime) -> Result<()> {
    for now in [0, 9_999_999_999, 10_000_000_000] {
        let name = String::from_str(rt.alloc(), "Alice")?;
        println!(rt; "{now}: {:?}", look_up(rt.alloc(), 97, name, now)?)?;
    }
    Ok(())
}
