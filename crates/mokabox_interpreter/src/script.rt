//! Runs a script: reads its lines, and writes the results.
ghost use Rattle.std.specs.Prelude.{◌≡◌, ◌≢◌, ℕ, List, map, IfOk, IfSome, OnOk};
ghost use Rattle.std.specs.Io.Iter.{split_byte, split_known_bytes};
ghost use Rattle.std.specs.Io.KnownBytes.{Appends};
ghost use Rattle.mokabox_syntax.specs.OutputLine.{output_text};
ghost use Rattle.mokabox_syntax.specs.Settings.{settings_by};
ghost use Rattle.mokabox_interpreter.specs.Script.{CacheSettings, Course, FirstPrints, LinesPrint, ScriptPrints, lines_of, lines_text};
ghost use Rattle.mokabox_interpreter.specs.Session.{DoesLine, IsAt};
ghost use Rattle.mokabox_interpreter.specs.Status.{code_of};

use crate::session::Session;
use mokabox_syntax::bad_line::{Reason, first_reason_of, reason_of, write_report};
use mokabox_syntax::output_line::{OutputLine, write_line};
use mokabox_syntax::settings::Settings;
use mokabox_syntax::{command, settings};
use std::alloc::Global;
use std::io;
use std::io::{BufRead, Split, Write};

/// How a run ended.
#[derive(Clone, Copy, Debug, PartialEq, Eq)]
pub enum Status {
    /// Every line was done.
    Done,
    /// A line was bad, or the cache could not be built.
    Bad,
    /// Reading or writing failed, or an allocation for the program's own lines.
    Failed,
}

impl Status {
    /// Returns the exit status of the program.
    pub fn code(self) -> u8
        ensures { result ≡ code_of self }
    {
        match self {
            Status::Done => 0,
            Status::Failed => 1,
            Status::Bad => 2,
        }
    }
}

/// Runs a script, and writes what it prints.
///
/// If it returns `Status::Failed`, the lines before may be written.
pub fn run_script<R: BufRead + Drop, W: Write>(alloc: Global, reader: R, writer: &mut W) -> Status
    ensures { result ≢ Status.Failed → IfSome (R.remaining reader) (λ input.
        (printed : List (List ℕ)) × ScriptPrints (lines_of input) printed (code_of result)
        × Appends (W.contents writer.old) (W.contents writer.new) (lines_text printed)) }
{
    run_script_with_reports(alloc, reader, writer, &mut io::sink())
}

/// Runs a script, writes what it prints, and reports its bad lines.
///
/// Writes to `reports` the number of each bad line and the reason why it is bad. Drops a report
/// that cannot be written. If it returns `Status::Failed`, the lines before may be written.
pub fn run_script_with_reports<R: BufRead + Drop, W: Write, E: Write>(
    alloc: Global,
    reader: R,
    writer: &mut W,
    reports: &mut E,
) -> Status
    ensures { result ≢ Status.Failed → IfSome (R.remaining reader) (λ input.
        (printed : List (List ℕ)) × ScriptPrints (lines_of input) printed (code_of result)
        × Appends (W.contents writer.old) (W.contents writer.new) (lines_text printed)) }
{
    match run(alloc, reader, writer, reports) {
        Ok(status) => status,
        Err(_) => Status::Failed,
    }
}

// Runs a script, and passes I/O errors on.
fn run<R: BufRead + Drop, W: Write, E: Write>(
    alloc: Global,
    reader: R,
    writer: &mut W,
    reports: &mut E,
) -> io::Result<Status>
    ensures { IfOk result (λ status. IfSome (R.remaining reader) (λ input.
        (printed : List (List ℕ)) × ScriptPrints (lines_of input) printed (code_of status)
        × Appends (W.contents writer.old) (W.contents writer.new) (lines_text printed))) }
{
    let mut lines = reader.split(alloc, b'\n');
    let Some(first) = lines.next() else {
        writer.flush()?;
        return Ok(Status::Done);
    };
    let status = begin(alloc, parse_first(&first?, reports), lines, writer, reports)?;
    writer.flush()?;
    Ok(status)
}

// Runs the lines after the first, over the cache that the first line's settings build.
fn begin<R: BufRead + Drop, W: Write, E: Write>(
    alloc: Global,
    settings: Option<Settings>,
    lines: Split<R>,
    writer: &mut W,
    reports: &mut E,
) -> io::Result<Status>
    requires { split_byte lines ≡ 10 }
    ensures { IfOk result (λ status. IfSome (split_known_bytes R.remaining lines) (λ input.
        (printed : List (List ℕ)) × FirstPrints settings (lines_of input) printed (code_of status)
        × Appends (W.contents writer.old) (W.contents writer.new) (lines_text printed))) }
{
    let Some(settings) = settings else {
        write_line(writer, &OutputLine::BadLine)?;
        return Ok(Status::Bad);
    };
    match Session::new(alloc, settings) {
        Ok(session) => {
            write_line(writer, &OutputLine::Done)?;
            let is_bad = go_on(session, lines, writer, reports)?;
            Ok(if is_bad { Status::Bad } else { Status::Done })
        }
        Err(refusal) => {
            write_line(writer, &OutputLine::NotBuilt(refusal))?;
            Ok(Status::Bad)
        }
    }
}

// Runs the lines after the first. Returns whether one of them is bad.
fn go_on<R: BufRead + Drop, W: Write, E: Write>(
    mut session: Session,
    lines: Split<R>,
    writer: &mut W,
    reports: &mut E,
) -> io::Result<bool>
    requires { split_byte lines ≡ 10 }
    ensures { IfOk result (λ bad. (settings : CacheSettings) (before : Course) →
        IsAt session.cache session.moment settings before
        → IfSome (split_known_bytes R.remaining lines) (λ input.
        (printed : List (List ℕ)) × LinesPrint settings before (lines_of input) printed bad
        × Appends (W.contents writer.old) (W.contents writer.new) (lines_text printed))) }
{
    let mut is_bad = false;
    let mut number = 1_u64;
    for line in lines {
        number = number.saturating_add(1);
        let is_bad_line = do_line(&mut session, number, &line?, writer, reports)?;
        is_bad = is_bad || is_bad_line;
    }
    Ok(is_bad)
}

// Does the command of the line with this number. Returns whether the line is bad.
fn do_line<W: Write, E: Write>(
    session: &mut Session,
    number: u64,
    line: &[u8],
    writer: &mut W,
    reports: &mut E,
) -> io::Result<bool>
    ensures { IfOk result (λ bad. DoesLine session.old.cache session.old.moment line.now bad
        session.new.cache session.new.moment (W.contents writer.old) (W.contents writer.new)) }
{
    let Some(command) = command::parse(line) else {
        write_line(writer, &OutputLine::BadLine)?;
        report(reports, number, reason_of(line));
        return Ok(true);
    };
    let outputs = session.execute(command)?;
    write_lines(writer, &outputs)?;
    Ok(false)
}

// Returns the settings of the first line, or `None` if it is bad, and reports why.
fn parse_first<E: Write>(first: &[u8], reports: &mut E) -> Option<Settings>
    ensures { result ≡ settings_by first.now }
{
    match settings::parse(first) {
        Some(settings) => Some(settings),
        None => {
            report(reports, 1, first_reason_of(first));
            None
        }
    }
}

// Reports why a line is bad. A report that cannot be written is dropped, since the script goes on
// all the same.
fn report<E: Write>(reports: &mut E, number: u64, reason: Reason) {
    let _ = write_report(reports, number, reason);
}

// Writes each output line, with its end.
fn write_lines<W: Write>(writer: &mut W, outputs: &[OutputLine]) -> io::Result<()>
    ensures { OnOk result (Appends (W.contents writer.old) (W.contents writer.new)
        (lines_text (map output_text outputs.now))) }
{
    for output in outputs {
        write_line(writer, output)?;
    }
    Ok(())
}
