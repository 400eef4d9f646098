//! Why a line of a script is bad, and how that is reported.
ghost use Rattle.std.specs.Prelude.{◌≡◌, Some, OnOk};
ghost use Rattle.std.specs.Io.KnownBytes.{Appends};
ghost use Rattle.mokabox_syntax.specs.BadLine.{reason_text, report_line};
ghost use Rattle.mokabox_syntax.specs.BadLine.{reason_by, reason_of_fields, reason_of_name};
ghost use Rattle.mokabox_syntax.specs.BadLine.{first_reason_by, first_reason_of_fields, first_reason_of_name};
ghost use Rattle.mokabox_syntax.specs.Fields.{fields_of};
ghost use Rattle.mokabox_syntax.specs.FieldsLeft.{fields_left};

use crate::fields::Fields;
use std::io::Write;
use std::{fmt, io};

// The names of all commands.
const COMMANDS: &str = "at insert or-insert get has invalidate remove invalidate-all \
    invalidate-if tasks tasks-up-to count weight notices policy walk \
    begin finish abandon collect leave";

/// Why a line of a script is bad.
#[derive(Clone, Copy, Debug, PartialEq, Eq)]
pub enum Reason {
    /// The line is not UTF-8.
    NotUtf8,
    /// The line is empty, begins or ends with a space, or has two spaces in a row.
    EmptyField,
    /// The first line does not begin with the word `new`.
    NotNew,
    /// A field of the first line is no setting, has no value that fits, or is there twice.
    NoSetting,
    /// A line after the first begins with a word that is no command.
    NoCommand,
    /// The fields after a command are not those that it takes.
    WrongFields,
}

impl fmt::Display for Reason {
    ghost output = { λ reason. Some (reason_text reason) };

    fn fmt<W: fmt::Write>(&self, f: &mut fmt::Formatter<W>) -> fmt::Result {
        match self {
            Reason::NotUtf8 => write!(f, "it is not UTF-8"),
            Reason::EmptyField => write!(f, "a field is empty"),
            Reason::NotNew => write!(f, "the first line does not begin with the word new"),
            Reason::NoSetting => write!(f, "a setting is unknown or wrong, or is there twice"),
            Reason::NoCommand => write!(f, "no command has this name"),
            Reason::WrongFields => write!(f, "these are not the fields of this command"),
        }
    }
}

/// Returns the reason why a line after the first is bad, if it is.
pub fn reason_of(line: &[u8]) -> Reason
    ensures { result ≡ reason_by line.now }
{
    match str::from_utf8(line) {
        Ok(line) => reason_of_fields(line),
        Err(_) => Reason::NotUtf8,
    }
}

/// Returns the reason why a text is no command, if it is none.
fn reason_of_fields(line: &str) -> Reason
    ensures { result ≡ reason_of_fields (fields_of line.now) }
{
    if Fields::of(line).contains("") {
        return Reason::EmptyField;
    }
    reason_of_name(Fields::of(line))
}

/// Returns the reason why fields are no command, if they are none and none of them is empty.
fn reason_of_name(mut fields: Fields<'_>) -> Reason
    ensures { result ≡ reason_of_name (fields_left fields.entry) }
{
    let Some(name) = fields.next() else {
        return Reason::NoCommand;
    };
    if Fields::of(COMMANDS).contains(name) {
        Reason::WrongFields
    } else {
        Reason::NoCommand
    }
}

/// Returns the reason why a first line is bad, if it is.
pub fn first_reason_of(line: &[u8]) -> Reason
    ensures { result ≡ first_reason_by line.now }
{
    match str::from_utf8(line) {
        Ok(line) => first_reason_of_fields(line),
        Err(_) => Reason::NotUtf8,
    }
}

/// Returns the reason why a text is no first line, if it is none.
fn first_reason_of_fields(line: &str) -> Reason
    ensures { result ≡ first_reason_of_fields (fields_of line.now) }
{
    if Fields::of(line).contains("") {
        return Reason::EmptyField;
    }
    first_reason_of_name(Fields::of(line))
}

/// Returns the reason why fields are no first line, if they are none and none of them is empty.
fn first_reason_of_name(mut fields: Fields<'_>) -> Reason
    ensures { result ≡ first_reason_of_name (fields_left fields.entry) }
{
    let Some(name) = fields.next() else {
        return Reason::NotNew;
    };
    if name == "new" {
        Reason::NoSetting
    } else {
        Reason::NotNew
    }
}

/// Writes the number of a bad line, counted from 1, and the reason, on a line of its own.
///
/// # Errors
///
/// - An `Err` of the writer. A part of the line may be written.
pub fn write_report<W: Write>(writer: &mut W, number: u64, reason: Reason) -> io::Result<()>
    ensures { OnOk result
        (Appends (W.contents writer.old) (W.contents writer.new) (report_line number reason)) }
{
    writeln!(writer, "mokabox: line {number}: {reason}")
}
