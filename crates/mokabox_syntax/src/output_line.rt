//! The lines that the program prints.
ghost use Rattle.std.specs.Prelude.{◌≡◌, Some, OnOk};
ghost use Rattle.std.specs.Io.KnownBytes.{Appends};
ghost use Rattle.mokabox_syntax.specs.OutputLine.{output_text, written_line, age_text, became_text, cause_text, live_text, measure_text, pairs_text, refusal_number, replaced_text, rest_text, build_refusal_number, predicate_error_number};

use moka_model::notification::RemovalCause;
use moka_policy::builder_utils::BuildError;
use moka_policy::policy::Refused;
use moka_predicate_ids::predicate_error::PredicateError;
use std::io::Write;
use std::{fmt, io};

/// An optional number. Printed as the number or as `none`.
#[derive(Clone, Copy, Debug, PartialEq, Eq)]
pub struct Measure(pub Option<u64>);

impl fmt::Display for Measure {
    ghost output = { λ measure. Some (measure_text measure.0) };

    fn fmt<W: fmt::Write>(&self, f: &mut fmt::Formatter<W>) -> fmt::Result {
        match self.0 {
            Some(number) => write!(f, "{number}"),
            None => write!(f, "none"),
        }
    }
}

/// Keys with their values. Each pair is printed as `KEY=VALUE` after a space.
#[derive(Debug, Drop)]
pub struct Pairs(pub Vec<(u64, String)>);

impl fmt::Display for Pairs {
    ghost output = { λ pairs. Some (pairs_text pairs.0.items) };

    fn fmt<W: fmt::Write>(&self, f: &mut fmt::Formatter<W>) -> fmt::Result {
        for pair in &self.0 {
            write!(f, " {}={}", pair.0, pair.1)?;
        }
        Ok(())
    }
}

/// An optional live value. Printed as `some VALUE` or as `none`.
#[derive(Debug, Drop)]
pub struct Live(pub Option<String>);

impl fmt::Display for Live {
    ghost output = { λ live. Some (live_text live.0) };

    fn fmt<W: fmt::Write>(&self, f: &mut fmt::Formatter<W>) -> fmt::Result {
        let Some(value) = &self.0 else {
            return write!(f, "none");
        };
        write!(f, "some {value}")
    }
}

/// The result of a compute: the key, and the value if there is one.
#[derive(Debug, Drop)]
pub enum Became {
    /// There was no live value to keep or to remove.
    StillNone(u64),
    /// The compute did nothing. Has the value found when it began.
    Unchanged(u64, String),
    /// A value was put. No live value was found when the compute began.
    Inserted(u64, String),
    /// A value was put. A live value was found when the compute began.
    ReplacedWith(u64, String),
    /// This value was removed.
    Removed(u64, String),
}

impl fmt::Display for Became {
    ghost output = { λ became. Some (became_text became) };

    fn fmt<W: fmt::Write>(&self, f: &mut fmt::Formatter<W>) -> fmt::Result {
        match self {
            Became::StillNone(key) => write!(f, "still-none {key}"),
            Became::Unchanged(key, value) => write!(f, "unchanged {key} {value}"),
            Became::Inserted(key, value) => write!(f, "inserted {key} {value}"),
            Became::ReplacedWith(key, value) => write!(f, "replaced-with {key} {value}"),
            Became::Removed(key, value) => write!(f, "removed {key} {value}"),
        }
    }
}

/// One line that the program prints.
#[derive(Debug, Drop)]
pub enum OutputLine {
    /// `ok`: the step is done.
    Done,
    /// `some VALUE`: the value that was found.
    Found(String),
    /// `none`: no value was found.
    NotFound,
    /// `true` or `false`: the result of a question.
    Whether(bool),
    /// A number: a count or a weight.
    Counted(u64),
    /// `left` or `done`: whether a maintenance left something undone.
    Unfinished(bool),
    /// `refused N`: the step failed.
    Refused(Refused),
    /// `refused build N`: the cache could not be built.
    NotBuilt(BuildError),
    /// `error N`: an invalidation by values failed.
    NotHidden(PredicateError),
    /// `notice KEY VALUE CAUSE`: a removed value, with its key and the cause.
    Left(u64, String, RemovalCause),
    /// `policy ..`: the cache's capacity, its TTL and TTI in seconds, and its number of segments.
    Policy(Measure, Measure, Measure, u64),
    /// `walk ..`: the live pairs.
    Walked(Pairs),
    /// `entry ..`: a key, its value, whether the call stored that, and whether it overwrote a live
    /// value.
    Entered(u64, String, bool, bool),
    /// `run N`: a turn with this number was opened.
    Run(u64),
    /// `run N ..`: a compute with this number was opened, and is shown this live value, if there is
    /// one.
    Shown(u64, Live),
    /// `wait N`: the turn with this number has to be waited for.
    Waits(u64),
    /// `nothing`: the turn ended without a value.
    Nothing,
    /// `failed ERROR`: the turn ended with this error.
    Failed(String),
    /// The result of a compute that was finished.
    Computed(Became),
    /// `not yet`: the turn is still open.
    NotYet,
    /// `abandoned`: the turn was abandoned.
    Abandoned,
    /// `ended`: the compute has ended. Its result is only for the caller who finished it.
    Ended,
    /// `end`: there is no further notice.
    End,
    /// `bad line`: the line is neither settings nor a command.
    BadLine,
}

impl fmt::Display for OutputLine {
    ghost output = { λ line. Some (output_text line) };

    fn fmt<W: fmt::Write>(&self, f: &mut fmt::Formatter<W>) -> fmt::Result {
        match self {
            OutputLine::Done => write!(f, "ok"),
            OutputLine::Found(value) => write!(f, "some {value}"),
            OutputLine::NotFound => write!(f, "none"),
            OutputLine::Whether(is_so) => write!(f, "{is_so}"),
            OutputLine::Counted(count) => write!(f, "{count}"),
            OutputLine::Unfinished(is_left) => write!(f, "{}", rest_text(*is_left)),
            OutputLine::Refused(cause) => write!(f, "refused {}", refusal_number(*cause)),
            OutputLine::NotBuilt(cause) => {
                write!(f, "refused build {}", build_refusal_number(*cause))
            }
            OutputLine::NotHidden(cause) => write!(f, "error {}", predicate_error_number(*cause)),
            OutputLine::Left(key, value, cause) => {
                let cause = cause_text(*cause);
                write!(f, "notice {key} {value} {cause}")
            }
            OutputLine::Policy(capacity, live, idle, segments) => write!(
                f,
                "policy capacity {capacity} ttl {live} tti {idle} segments {segments}"
            ),
            OutputLine::Walked(pairs) => write!(f, "walk{pairs}"),
            OutputLine::Entered(key, value, is_fresh, is_replaced) => {
                let age = age_text(*is_fresh);
                let note = replaced_text(*is_replaced);
                write!(f, "entry {key} {value} {age}{note}")
            }
            OutputLine::Run(number) => write!(f, "run {number}"),
            OutputLine::Shown(number, live) => write!(f, "run {number} {live}"),
            OutputLine::Waits(number) => write!(f, "wait {number}"),
            OutputLine::Nothing => write!(f, "nothing"),
            OutputLine::Failed(error) => write!(f, "failed {error}"),
            OutputLine::Computed(became) => write!(f, "{became}"),
            OutputLine::NotYet => write!(f, "not yet"),
            OutputLine::Abandoned => write!(f, "abandoned"),
            OutputLine::Ended => write!(f, "ended"),
            OutputLine::End => write!(f, "end"),
            OutputLine::BadLine => write!(f, "bad line"),
        }
    }
}

/// Writes an output line, with its end.
///
/// # Errors
///
/// - An `Err` of the writer. A part of the line may be written.
pub fn write_line<W: Write>(writer: &mut W, line: &OutputLine) -> io::Result<()>
    ensures { OnOk result
        (Appends (W.contents writer.old) (W.contents writer.new) (written_line line.now)) }
{
    writeln!(writer, "{line}")
}

/// Returns the number that is printed for a failure.
fn refusal_number(refused: Refused) -> u8
    ensures { result ≡ refusal_number refused }
{
    match refused {
        Refused::OutOfMemory => 1,
        Refused::NumbersUsedUp => 2,
        Refused::UnknownTurn => 3,
        Refused::UnknownTicket => 4,
        Refused::TurnIsOpen => 5,
        Refused::WaitsAbandoned => 6,
    }
}

/// Returns the number that is printed for a failure to build.
fn build_refusal_number(refusal: BuildError) -> u8
    ensures { result ≡ build_refusal_number refusal }
{
    match refusal {
        BuildError::NoSegments => 1,
        BuildError::TooManySegments => 2,
        BuildError::TimeToLiveTooLong => 3,
        BuildError::TimeToIdleTooLong => 4,
        BuildError::OutOfMemory => 5,
        BuildError::ZeroFlushLimit => 6,
        BuildError::FlushLimitWithWeigher => 7,
    }
}

/// Returns the number that is printed for a failed invalidation by values.
fn predicate_error_number(refusal: PredicateError) -> u8
    ensures { result ≡ predicate_error_number refusal }
{
    match refusal {
        PredicateError::InvalidationClosuresDisabled => 1,
        PredicateError::OutOfMemory => 2,
    }
}

/// Returns the word that says whether a maintenance left something undone.
fn rest_text(is_left: bool) -> &'static str
    ensures { result.now ≡ rest_text is_left }
{
    if is_left { "left" } else { "done" }
}

/// Returns the word that is printed for a cause.
fn cause_text(cause: RemovalCause) -> &'static str
    ensures { result.now ≡ cause_text cause }
{
    match cause {
        RemovalCause::Expired => "Expired",
        RemovalCause::Explicit => "Explicit",
        RemovalCause::Replaced => "Replaced",
        RemovalCause::Size => "Size",
    }
}

/// Returns the word that says whether the call stored the value of an entry.
fn age_text(is_fresh: bool) -> &'static str
    ensures { result.now ≡ age_text is_fresh }
{
    if is_fresh { "fresh" } else { "old" }
}

/// Returns the suffix that says whether an entry overwrote a live value.
fn replaced_text(is_replaced: bool) -> &'static str
    ensures { result.now ≡ replaced_text is_replaced }
{
    if is_replaced { " replaced" } else { "" }
}
