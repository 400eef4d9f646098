//! What the program does, by its arguments.
ghost use Rattle.std.specs.Prelude.{◌≡◌, ◌≢◌, map, OnOk};
ghost use Rattle.std.specs.Io.KnownBytes.{Appends};
ghost use Rattle.std.specs.String.{string_bytes};
ghost use Rattle.mokabox_interpreter.specs.Program.{mode_by, usage_line, help_text, version_line, ProgramWrites};
ghost use Rattle.mokabox_interpreter.specs.Status.{code_of};

use crate::script::{Status, run_script_with_reports};
use crate::version::VERSION;
use std::alloc::Global;
use std::io;
use std::io::{BufRead, Write};

/// What `--help` prints, without the last line feed.
pub const HELP: &str = "mokabox drives a cache by a script, or by threads that share the cache.\n\
    \n\
    mokabox            reads a script from standard input, and prints its replies\n\
    mokabox threads N  runs N workers, from 1 to 16, and counts their keys\n\
    mokabox --help     prints this text\n\
    mokabox --version  prints the version\n\
    \n\
    The first line of a script is `new` with settings, such as\n\
    `new capacity=100 policy=lru ttl=10`. Each other line is a command, such as\n\
    `insert 1 one`, `get 1`, `tasks` or `notices`. docs/SCRIPT.md has them all.\n\
    Why a line is bad is said on standard error.";

/// What the arguments ask for.
#[derive(Clone, Copy, Debug, PartialEq, Eq)]
pub enum Mode {
    /// Run the script that is read.
    Script,
    /// Say how the program is used.
    Help,
    /// Say the version.
    Version,
}

/// Does what the arguments ask for. They do not include the program's own name.
///
/// If they ask for nothing known, writes how the program is called, reads nothing, and returns
/// `Status::Bad`. Reports the bad lines of a script to `reports`. If it returns `Status::Failed`, a
/// part may be written.
pub fn run_program<R: BufRead + Drop, W: Write, E: Write>(
    alloc: Global,
    arguments: &[String],
    reader: R,
    writer: &mut W,
    reports: &mut E,
) -> Status
    ensures { result ≢ Status.Failed
        → ProgramWrites (mode_by (map string_bytes arguments.now)) (R.remaining reader)
        (W.contents writer.old) (W.contents writer.new) (code_of result) }
{
    match mode_of(arguments) {
        Some(Mode::Script) => run_script_with_reports(alloc, reader, writer, reports),
        Some(Mode::Help) => match write_help(writer) {
            Ok(()) => Status::Done,
            Err(_) => Status::Failed,
        },
        Some(Mode::Version) => match write_version(writer) {
            Ok(()) => Status::Done,
            Err(_) => Status::Failed,
        },
        None => match write_usage(writer) {
            Ok(()) => Status::Bad,
            Err(_) => Status::Failed,
        },
    }
}

/// Returns what the arguments ask for, or `None` if that is nothing known.
pub fn mode_of(arguments: &[String]) -> Option<Mode>
    ensures { result ≡ mode_by (map string_bytes arguments.now) }
{
    match arguments {
        [] => Some(Mode::Script),
        [word] if word.as_str() == "--help" => Some(Mode::Help),
        [word] if word.as_str() == "--version" => Some(Mode::Version),
        _ => None,
    }
}

// Writes how the program is called.
fn write_usage<W: Write>(writer: &mut W) -> io::Result<()>
    ensures { OnOk result (Appends (W.contents writer.old) (W.contents writer.new) usage_line) }
{
    writeln!(writer, "usage: mokabox [threads N]")?;
    writer.flush()
}

// Writes how the program is called, and what it does.
fn write_help<W: Write>(writer: &mut W) -> io::Result<()>
    ensures { OnOk result (Appends (W.contents writer.old) (W.contents writer.new) help_text) }
{
    writeln!(writer, "{HELP}")?;
    writer.flush()
}

// Writes the version.
fn write_version<W: Write>(writer: &mut W) -> io::Result<()>
    ensures { OnOk result (Appends (W.contents writer.old) (W.contents writer.new) version_line) }
{
    writeln!(writer, "mokabox {VERSION}")?;
    writer.flush()
}
