//! The program `mokabox`: runs a script of cache calls from standard input and prints their
//! results, or runs workers that share a cache.
#![tactic(auto)]

use mokabox_interpreter::program::run_program;
use mokabox_interpreter::script::Status;
use mokabox_threads::arguments::workers_of;
use mokabox_threads::threads::{OpenGate, run_threads};
use std::io::{BufReader, BufWriter, Write};
use std::process::ExitCode;
use std::rt::Runtime;
use std::sync::Wait;
use std::thread::Threads;
use std::{env, io};

fn main(rt: HostRuntime) -> ExitCode {
    let status = run(rt, &mut rt.stderr()).unwrap_or(Status::Failed.code());
    ExitCode::from(status)
}

// Runs the program between standard input, standard output and standard error (`reports`), and
// returns its exit status. Arguments that do not ask for workers go to `run_program`, which writes
// the usage line if it does not know them.
fn run<R: Runtime + AllocGlobal + Wait + Threads + Copy + Send + Sync, E: Write>(
    rt: R,
    reports: &mut E,
) -> io::Result<u8> {
    let arguments: Vec<String> = env::args(&rt)?.skip(1).collect(rt.alloc())?;
    let mut writer = BufWriter::new(rt.alloc(), io::writer(&rt))?;
    if let Some(workers) = workers_of(&arguments) {
        let ended = run_threads(rt, rt.alloc(), workers, &OpenGate, &mut writer)?;
        return Ok(ended.code());
    }
    let reader = BufReader::new(rt.alloc(), rt.reader())?;
    Ok(run_program(rt.alloc(), &arguments, reader, &mut writer, reports).code())
}
