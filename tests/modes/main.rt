//! Tries every kind of cache with calls that no file has, or with a request for memory refused.
//!
//!     modes random SEED LINES   draws lines, and compares the kinds with each other and with a model
//!     modes memory FILE BEHIND  refuses a request for memory to a part of a file, which standard
//!                               input names, and makes the lines of BEHIND behind it
//!     modes copy PATH           copies the program, for `scripts/refused_memory`
//!     modes soak MINUTES SEED   makes drawn calls of the shared kinds from threads
//!
//! `scripts/modes` builds it with the modules of `cases`. The status is 0 if all is right, and 1
//! otherwise. A bad argument ends the program with a message.
#![tactic(auto)]

mod draws;
mod memory;
mod model;
mod model_turns;
mod random;
mod refused;
mod soak;

use anyhow::{Context, Result};
use std::io::BufReader;
use std::process::ExitCode;
use std::rt::Runtime;
use std::sync::Wait;
use std::{env, fs, io};

fn main(rt: HostRuntime) -> Result<ExitCode> {
    let words: Vec<String> = env::args(&rt)?.skip(1).collect(rt.alloc())?;
    let is_right = match word_at(&words, 0)? {
        "random" => {
            let (seed, lines) = (number_at(&words, 1)?, number_at(&words, 2)?);
            random::run_random(rt, rt.alloc(), seed, lines)?
        }
        "memory" => run_memory(rt, word_at(&words, 1)?, word_at(&words, 2)?)?,
        "copy" => {
            fs::copy(&rt, "program", word_at(&words, 1)?)?; // (its name in the folder that `rt try` runs it in)
            true
        }
        "soak" => {
            let (minutes, seed) = (number_at(&words, 1)?, number_at(&words, 2)?);
            soak::run_soak(rt, rt.alloc(), minutes, seed)?
        }
        other => anyhow::bail!("there is no mode {other}"),
    };
    Ok(if is_right {
        ExitCode::SUCCESS
    } else {
        ExitCode::FAILURE
    })
}

fn word_at(words: &[String], place: usize) -> Result<&str> {
    Ok(words.get(place).context("an argument is missing")?.as_str())
}

fn number_at(words: &[String], place: usize) -> Result<u64> {
    Ok(word_at(words, place)?.parse::<u64>()?)
}

/// Refuses a request for memory to the part of a file that standard input names.
fn run_memory<R: Runtime + AllocGlobal + Wait + Copy + Drop>(
    rt: R,
    file: &str,
    behind: &str,
) -> Result<bool> {
    let text = fs::read_to_string(&rt, file)?;
    let behind = fs::read_to_string(&rt, behind)?;
    let command = io::read_to_string(rt.alloc(), BufReader::new(rt.alloc(), rt.reader())?)?;
    let (text, behind, command) = (text.as_str(), behind.as_str(), command.as_str());
    memory::run_memory(rt, rt.alloc(), file, text, behind, command)
}
