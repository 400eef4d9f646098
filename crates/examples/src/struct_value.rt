//! A struct as a value. One line of its own lets the prover conclude that a clone of a clone is a
//! clone.

ghost use Rattle.moka.specs.Copies.{composing};

use anyhow::Result;
use moka::copies::CopiesCompose;
use moka::ready::{FoldState, Plain};
use moka::state::CacheState;
use moka::sync::CacheBuilder;
use std::alloc::Global;

/// A user's session.
#[derive(Clone, Debug, Drop)]
struct Visitor {
    user: String,
    since: u64,
    team: Option<String>,
    rights: Vec<u8>,
}

impl CopiesCompose for Visitor {
    ghost copies_compose = { Prim.search composing };
}

fn create_alice(alloc: Global) -> Result<Visitor> {
    Ok(Visitor {
        user: String::from_str(alloc, "Alice")?,
        since: 7,
        team: None,
        rights: vec![in alloc; 1, 4]?,
    })
}

/// Runs the example.
pub fn main(rt: HostRuntime) -> Result<()> {
    let alice = create_alice(rt.alloc())?;
    let mut visitors: CacheState<u64, Visitor, Plain> = CacheBuilder::new(100).build_state(
        rt.alloc(),
        FoldState::default(),
    )?;
    visitors.insert(1, alice, 0)?;
    println!(rt; "{:?}", visitors.get(&1, 1)?)?;
    Ok(())
}
