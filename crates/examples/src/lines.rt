//! The lines of a file, each read on its first lookup and then cached.

use anyhow::{Context, Result};
use moka::ready::{FoldState, Plain};
use moka::state::CacheState;
use moka::sync::CacheBuilder;
use std::fs;
use std::sync::Arc;

/// Lines by line number, counted from 0. An `Arc` makes a hit clone a pointer and not the text.
type Lines = CacheState<usize, Arc<String>, Plain>;

// Reads one line from the file.
fn read_line(rt: &HostRuntime, number: usize) -> Result<String> {
    let text = fs::read_to_string(rt, "rivers.txt")?;
    let line = text.lines().nth(number).context("there is no such line")?;
    Ok(String::from_str(rt.alloc(), line)?)
}

// Returns a line from the cache, or reads it from the file and caches it.
fn line(rt: &HostRuntime, lines: &mut Lines, number: usize) -> Result<Arc<String>> {
    if let Some(line) = lines.get(&number, 0)? {
        return Ok(line);
    }
    let line = Arc::new(rt.alloc(), read_line(rt, number)?)?;
    println!(rt; "line {number} was read")?;
    lines.insert(number, line.clone()?, 0)?;
    Ok(line)
}

fn run(rt: &HostRuntime, lines: &mut Lines) -> Result<()> {
    for number in [2, 0, 2, 2, 0] {
        println!(rt; "{}", line(rt, lines, number)?)?;
    }
    Ok(())
}

/// Runs the example.
pub fn main(rt: HostRuntime) -> Result<()> {
    let mut lines = CacheBuilder::new(1_000).build_state(rt.alloc(), FoldState::default())?;
    run(&rt, &mut lines)
}
