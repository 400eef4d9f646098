//! Examples, one module each. `examples NAME ..` runs the named ones in that order.
#![tactic(auto)]

mod blobs;
mod blobs_heard;
mod byte_weigher;
mod bytes_memo;
mod calls;
mod clock;
mod counters;
mod expiring;
mod first;
mod found;
mod limits;
mod lines;
mod listener;
mod loading;
mod many_threads;
mod memoizer;
mod missing;
mod predicate;
mod random_hasher;
mod read_through;
mod recorded;
mod replay;
mod retry;
mod segments;
mod session_table;
mod sessions;
mod shared_memoizer;
mod statistics;
mod stock;
mod struct_value;
mod temp_files;
mod tenants;
mod threads;
mod two_threads;
mod visits;
mod walks;

use anyhow::Result;
use std::env;
use std::process::ExitCode;
use std::random::RandomSource;
use std::rt::Runtime;
use std::sync::Wait;
use std::thread::Threads;

fn main(rt: HostRuntime) -> Result<ExitCode> {
    let mut status = ExitCode::from(2);
    for name in env::args(&rt)?.skip(1) {
        println!(rt; "{name}:")?;
        if !run_owned(rt, name.as_str())? && !run_shared(rt, name.as_str())? {
            eprintln!(rt; "there is no example {name}")?;
            return Ok(ExitCode::from(2));
        }
        status = ExitCode::SUCCESS;
    }
    Ok(status)
}

// Runs an example that has no shared cache. Returns whether there is one of this name.
fn run_owned(rt: HostRuntime, name: &str) -> Result<bool> {
    match name {
        "blobs" => blobs::main(rt)?,
        "calls" => calls::main(rt)?,
        "counters" => counters::main(rt)?,
        "first" => first::main(rt)?,
        "found" => found::main(rt)?,
        "limits" => limits::main(rt)?,
        "lines" => lines::main(rt)?,
        "memoizer" => memoizer::main(rt)?,
        "segments" => segments::main(rt)?,
        "sessions" => sessions::main(rt)?,
        "statistics" => statistics::main(rt)?,
        "struct_value" => struct_value::main(rt)?,
        "temp_files" => temp_files::main(rt)?,
        "walks" => walks::main(rt)?,
        _ => return Ok(false),
    }
    Ok(true)
}

// Runs an example with a shared cache. Returns whether there is one of this name.
fn run_shared<
    R: Runtime + AllocGlobal + RandomSource + Wait + Threads + Copy + Send + Sync + 'static,
>(rt: R, name: &str) -> Result<bool> {
    match name {
        "blobs_heard" => blobs_heard::main(rt)?,
        "bytes_memo" => bytes_memo::main(rt)?,
        "clock" => clock::main(rt)?,
        "expiring" => expiring::main(rt)?,
        "listener" => listener::main(rt)?,
        "loading" => loading::main(rt)?,
        "many_threads" => many_threads::main(rt)?,
        "missing" => missing::main(rt)?,
        "predicate" => predicate::main(rt)?,
        "random_hasher" => random_hasher::main(rt)?,
        _ => return run_others(rt, name),
    }
    Ok(true)
}

fn run_others<
    R: Runtime + AllocGlobal + RandomSource + Wait + Threads + Copy + Send + Sync + 'static,
>(rt: R, name: &str) -> Result<bool> {
    match name {
        "read_through" => read_through::main(rt)?,
        "recorded" => recorded::main(rt)?,
        "retry" => retry::main(rt)?,
        "session_table" => session_table::main(rt)?,
        "shared_memoizer" => shared_memoizer::main(rt)?,
        "stock" => stock::main(rt)?,
        "tenants" => tenants::main(rt)?,
        "threads" => threads::main(rt)?,
        "two_threads" => two_threads::main(rt)?,
        "visits" => visits::main(rt)?,
        _ => return Ok(false),
    }
    Ok(true)
}
