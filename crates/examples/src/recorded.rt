//! A recorded cache. Two threads load one key, and an owned cache replays the history.
ghost use Rattle.std.specs.Prelude.{◌≡◌, []};

use crate::replay::{history, replay};
use anyhow::Result;
use moka::ready::{FoldState, PlainRecorded};
use moka::state::{CacheState, StateView};
use moka::sync::CacheBuilder;
use moka::sync::recorded::{Job, Naming, Opened, Pass, RecordedCache, run_both};
use std::alloc::Global;
use std::rt::Runtime;
use std::sync::ledger::Blank;
use std::sync::{Arc, Wait};
use std::thread::Threads;

type Squares<L, W> = RecordedCache<u64, u64, PlainRecorded, L, W>;

type SquaresPass<L> = Pass<u64, u64, PlainRecorded, L>;

// What each thread does. The prover takes a type with a method here, and no closure.
#[derive(Drop)]
struct Load(Global);

impl<L: Naming, W: Wait + Drop> Job<Squares<L, W>, SquaresPass<L>, Option<u64>> for Load {
    fn work(&self, squares: &Squares<L, W>, pass: &mut SquaresPass<L>) -> Option<u64> {
        let given = squares.get_with(pass, Arc::new(self.0, 9).ok()?, || 81, 0);
        given.ok()
    }
}

fn run<L: Naming + Send + Sync, W: AllocGlobal + Wait + Threads + Copy + Drop + Send + Sync>(
    rt: W,
    state: CacheState<u64, u64, PlainRecorded>,
    fresh: CacheState<u64, u64, PlainRecorded>,
    opened: Opened<u64, u64, PlainRecorded>,
    blank: Blank,
) -> Result<Option<(Option<u64>, Option<u64>)>>
    requires built { ⟦<PlainRecorded as StateView<u64, u64>>⟧.stands_for
        (⟦<PlainRecorded as StateView<u64, u64>>⟧.settings state.settings) state [] }
    requires table { (opened.table ≡ L.table) × (opened.history ≡ []) }
    requires ledger { (blank.name ≡ L.name) × (blank.parts ≡ L.parts) × (2 ≡ L.parts) }
{
    let mut passes = Vec::new(rt.alloc());
    let squares = Squares::<L, W>::new_into(rt.alloc(), state, opened, blank, 2, rt, &mut passes)?;
    let load = Load(rt.alloc());
    let loaded = run_both(&rt, &squares, passes.as_mut_slice(), &load, &load);
    replay(history(squares, passes)?, fresh)?;
    Ok(loaded)
}

/// Runs the example. The proof says which table and ledger `Brand` names.
pub fn main<R: Runtime + AllocGlobal + Wait + Threads + Copy + Send + Sync>(rt: R) -> Result<()> {
    let alloc = rt.alloc();
    let state = CacheBuilder::new(100).build_state(alloc, FoldState::default())?;
    let fresh = CacheBuilder::new(100).build_state(alloc, FoldState::default())?;
    let opened = Opened::new(alloc)?;
    let loaded = run::<std::marker::Brand, R>(rt, state, fresh, opened, Blank::new(2))?;
    println!(rt; "loaded and replayed: {loaded:?}")?;
    Ok(())
}
