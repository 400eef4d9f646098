//! Workers that share a cache, and the line that is printed at their end.
ghost use Rattle.std.specs.Prelude.{◌≡◌, ◌<◌, ◌≤◌, IfOk, OnOk, Result};
ghost use Rattle.std.specs.Io.KnownBytes.{Appends};
ghost use Rattle.mokabox_threads.specs.Threads.{IsCounted, code_of, counted_line, ended_by};

use crate::worker::{Texts, count, work};
use moka::policy::{ManualClock, Refused};
use moka::ready::FoldState;
use moka::sync::CacheBuilder;
use mokabox_syntax::output_line::{OutputLine, write_line};
use std::alloc::Global;
use std::io::Write;
use std::sync::Wait;
use std::thread::Threads;
use std::{io, thread};

/// A gate that each worker passes before it writes. Tests use it to control the order of the
/// workers.
pub trait Gate {
    /// Called by a worker before its first write. The worker goes on once this returns.
    fn enter(&self, worker: u64);
}

/// A gate that is always open.
#[derive(Clone, Copy, Debug)]
pub struct OpenGate;

impl Gate for OpenGate {
    fn enter(&self, _worker: u64) {}
}

/// What was found once all workers were done.
#[derive(Clone, Copy, Debug, PartialEq, Eq)]
pub struct Counts {
    /// How many of the workers' keys were present.
    pub present: u64,
    /// How many of the workers' keys were absent.
    pub absent: u64,
}

/// How a run of workers ended, after its line was written.
#[derive(Clone, Copy, Debug, PartialEq, Eq)]
pub enum Ended {
    /// All keys were looked up.
    Counted,
    /// The cache could not be built, or a call of it failed.
    Refused,
}

impl Ended {
    /// Returns the exit status of the program.
    pub fn code(self) -> u8
        ensures { result ≡ code_of self }
    {
        match self {
            Ended::Counted => 0,
            Ended::Refused => 1,
        }
    }
}

/// Runs workers over one cache, and writes how many of their keys are present at the end.
///
/// Each runs in a thread of its own if one can be created. Worker `i`, from 0, inserts the 64 keys
/// from `64 * i` on, and looks up each after its insert. Then it invalidates every fourth of them,
/// from the first on. If the cache cannot be built or a call fails, writes that instead of the
/// counts.
///
/// # Errors
///
/// - An `Err` of the writer. A part may be written.
pub fn run_threads<R, G, W>(
    rt: R,
    alloc: Global,
    workers: u64,
    gate: &G,
    writer: &mut W,
) -> io::Result<Ended>
where
    R: Threads + Wait + Sync + Send + Copy,
    G: Gate + Sync,
    W: Write,
    requires { workers ≤ 16 }
    ensures { IfOk result (λ ended. (counted : Result Counts Refused) × IsCounted workers counted
        × (ended ≡ ended_by counted)
        × Appends (W.contents writer.old) (W.contents writer.new) (counted_line workers counted)) }
{
    let counted = run_workers(rt, alloc, workers, gate);
    write_counted(writer, workers, &counted)?;
    Ok(match counted {
        Ok(_) => Ended::Counted,
        Err(_) => Ended::Refused,
    })
}

// Runs the workers, and then counts which of their keys are present.
fn run_workers<R, G>(rt: R, alloc: Global, workers: u64, gate: &G) -> Result<Counts, Refused>
where
    R: Threads + Wait + Sync + Send + Copy,
    G: Gate + Sync,
    requires { workers ≤ 16 }
    ensures { IsCounted workers result }
{
    let texts = new_texts(alloc, rt)?;
    let done = thread::map_indices(
        &rt,
        alloc,
        workers as usize,
        &|worker| -> Result<(), Refused>
            requires { worker < 16 }
        { work(alloc, &texts, gate, worker as u64) },
    );
    let Ok(done) = done else {
        return Err(Refused::OutOfMemory);
    };
    for result in done {
        result?;
    }
    count(&texts, workers)
}

// Creates the cache that the workers share. Its clock stands still, and its entries do not expire.
fn new_texts<W: Wait + Drop>(alloc: Global, waits: W) -> Result<Texts<W>, Refused> {
    let built = CacheBuilder::new(10_000).build_with_hasher(
        alloc,
        FoldState::default(),
        ManualClock::new(0),
        waits,
    );
    built.map_err(|_| Refused::OutOfMemory)
}

// Writes the line of the counts, or of the error.
fn write_counted<W: Write>(
    writer: &mut W,
    workers: u64,
    counted: &Result<Counts, Refused>,
) -> io::Result<()>
    ensures { OnOk result (Appends (W.contents writer.old) (W.contents writer.new)
        (counted_line workers counted.now)) }
{
    match counted {
        Ok(counts) => {
            let Counts { present, absent } = counts;
            writeln!(
                writer,
                "workers {workers} present {present} absent {absent}"
            )?;
        }
        Err(cause) => write_line(writer, &OutputLine::Refused(*cause))?,
    }
    writer.flush()
}
