//! Measures the caches beside a map and the kit's `lru`. Without arguments it prints how many of a
//! thousand lookups each of them finds, and how many initializers run if threads load one key.
#![tactic(auto)]

mod initializer;
mod load;
mod measure;
mod numbers;
mod own_lives;
mod shared;
mod subject;
mod table;
mod threads;

use std::{env, io};

fn main(rt: HostRuntime) -> io::Result<()> {
    let arguments: Vec<String> = env::args(&rt)?.skip(1).collect(rt.alloc())?;
    table::run(&rt, rt.alloc(), &arguments)
}
