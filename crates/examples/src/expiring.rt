//! A shared cache of tokens. Each value is the token's lifetime in seconds; the expiry is made of
//! closures.

ghost use Rattle.examples.specs.Tokens.{lives_of_tokens};

use anyhow::Result;
use moka::meant::{Lives, Meant};
use moka::policy::{ExpireBy, Expiry, ManualClock};
use moka::ready::{Expiring, FoldState};
use moka::sync::{Cache, CacheBuilder};
use std::rt::Runtime;
use std::sync::{Arc, Wait};
use std::time::Duration;

/// The lifetimes that the closures compute: as many seconds as the value says.
#[derive(Drop)]
struct Says;

impl Lives<u64, u64> for Says {
    ghost lifetimes = { λ _. lives_of_tokens };
}

// Inserts tokens of 10 and 60 seconds, sets the clock to 30 seconds, and prints what is found.
fn spend<E: Expiry<u64, u64> + Drop, R: Runtime + AllocGlobal + Wait + Copy>(
    rt: R,
    expiry: E,
) -> Result<()>
    requires { E.gives expiry lives_of_tokens }
{
    let clock = Arc::new(rt.alloc(), ManualClock::new(0))?;
    let (alloc, hasher, ours) = (rt.alloc(), FoldState::default(), clock.clone()?);
    let builder = CacheBuilder::new(100).expire_after(Meant::new(Says, expiry));
    let tokens: Cache<u64, u64, Expiring<Meant<Says, E>, Arc<ManualClock>>, R> =
        builder.build_with_hasher(alloc, hasher, ours, rt)?;
    tokens.insert(1, 10)?;
    tokens.insert(2, 60)?;
    clock.set(30_000_000_000);
    println!(rt; "after 30 s: {:?}, {:?}", tokens.get(&1)?, tokens.get(&2)?)?;
    Ok(())
}

/// Runs the example.
pub fn main<R: Runtime + AllocGlobal + Wait + Copy>(rt: R) -> Result<()> {
    let create = |_: &u64, seconds: &u64, _at: u64| Some(Duration::from_secs(*seconds));
    let read = |_: &u64, _: &u64, _at: u64, rest: Option<Duration>, _written: u64| rest;
    let update = |_: &u64, _: &u64, _at: u64, rest: Option<Duration>| rest;
    spend(rt, ExpireBy::new(create, read, update))
}
