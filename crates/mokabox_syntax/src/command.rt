//! The commands of a script, and how lines are read as commands.
ghost use Rattle.std.specs.Prelude.{◌≡◌, IfSome, option_map};
ghost use Rattle.mokabox_syntax.specs.Command.{PlainCommand, plain_command, line_of, IsExpressible, begin_by, begin_of, finish_of, replace_of, turn_words, whole_words, command_of, command_by_line};
ghost use Rattle.mokabox_syntax.specs.Fields.{alone, read_by};
ghost use Rattle.mokabox_syntax.specs.FieldsLeft.{fields_left};

use crate::fields::{Fields, number};
use crate::turn::{Ending, TurnOf, next_kind, next_turn, read_ending, sole_turn};
use moka_model::turns::Kind;

/// A command: any line of a script but the first. `T` is the type of its texts.
#[derive(Clone, Copy, Debug, PartialEq, Eq)]
pub enum Command<T> {
    /// Sets the moment of all later commands, in nanoseconds.
    At(u64),
    /// Inserts a value under a key.
    Insert(u64, T),
    /// Looks up a key, and inserts this value if none is live.
    OrInsert(u64, T),
    /// Looks up a key. Counts as an access.
    Get(u64),
    /// Checks whether a key has a live value. Does not count as an access.
    Has(u64),
    /// Invalidates a key.
    Invalidate(u64),
    /// Removes a key, and prints its value.
    Remove(u64),
    /// Invalidates all entries.
    InvalidateAll,
    /// Invalidates every entry whose value is one of these texts, which are separated by single
    /// spaces.
    InvalidateIf(T),
    /// Runs maintenance.
    Tasks,
    /// Runs maintenance that evicts at most so many entries, and prints whether some is left
    /// undone.
    TasksUpTo(u64),
    /// Prints the number of stored entries.
    Count,
    /// Prints the total weight of the stored entries.
    Weight,
    /// Takes and prints all notices.
    Notices,
    /// Prints the policy of the cache.
    Policy,
    /// Prints all live pairs.
    Walk,
    /// Begins a turn of a kind for a key. The flag says whether to replace a live value; without it
    /// the value is kept. The kind is not `Compute`.
    Begin(Kind, u64, Option<bool>),
    /// Begins a compute for a key, which keeps a clone of the live value.
    BeginCompute(u64),
    /// Finishes a turn.
    Finish(TurnOf, Ending<T>),
    /// Abandons a turn.
    Abandon(TurnOf),
    /// Collects the result of another caller's turn.
    Collect(TurnOf),
    /// Gives up waiting for a turn.
    Leave(TurnOf),
}

/// Returns the command of a line, or `None` if it has none.
pub fn parse(line: &[u8]) -> Option<Command<&str>>
    // The line is the one of the returned command.
    ensures found { IfSome result
        (λ c. (line.now ≡ line_of (plain_command c)) × IsExpressible (plain_command c)) }
    // The line of a command is read as that command.
    ensures only { (c : PlainCommand) → IsExpressible c → line.now ≡ line_of c
        → option_map plain_command result ≡ Some c }
    // So the definition says which command is read.
    ensures exact { option_map plain_command result ≡ command_by_line line.now }
{
    match str::from_utf8(line) {
        Ok(line) => read(Fields::of(line)),
        Err(_) => None,
    }
}

/// Reads a command from the fields of a line.
fn read(mut fields: Fields<'_>) -> Option<Command<&str>>
    ensures { option_map plain_command result ≡ command_of (fields_left fields.entry) }
{
    let command = match fields.next()? {
        "at" => Command::At(fields.sole_number()?),
        "insert" => Command::Insert(number(fields.next()?)?, fields.sole_text()?),
        "or-insert" => Command::OrInsert(number(fields.next()?)?, fields.sole_text()?),
        "get" => Command::Get(fields.sole_number()?),
        "has" => Command::Has(fields.sole_number()?),
        "invalidate" => Command::Invalidate(fields.sole_number()?),
        "remove" => Command::Remove(fields.sole_number()?),
        word => return read_whole(word, fields),
    };
    Some(command)
}

/// Reads a command of the whole cache, or of turns, from its word and the fields after it.
#[tactic(auto, unfolding(crate::specs::Command::whole_words))]
fn read_whole<'a>(word: &str, fields: Fields<'a>) -> Option<Command<&'a str>>
    ensures { option_map plain_command result
        ≡ read_by whole_words word.now (fields_left fields.entry) }
{
    let command = match word {
        "invalidate-all" => command_alone(fields, Command::InvalidateAll)?,
        "invalidate-if" => Command::InvalidateIf(fields.texts()?),
        "tasks" => command_alone(fields, Command::Tasks)?,
        "tasks-up-to" => Command::TasksUpTo(fields.sole_number()?),
        "count" => command_alone(fields, Command::Count)?,
        "weight" => command_alone(fields, Command::Weight)?,
        "notices" => command_alone(fields, Command::Notices)?,
        "policy" => command_alone(fields, Command::Policy)?,
        "walk" => command_alone(fields, Command::Walk)?,
        word => return read_turn(word, fields),
    };
    Some(command)
}

/// Reads a command of turns from its word and the fields after it.
#[tactic(auto, unfolding(crate::specs::Command::turn_words))]
fn read_turn<'a>(word: &str, fields: Fields<'a>) -> Option<Command<&'a str>>
    ensures { option_map plain_command result
        ≡ read_by turn_words word.now (fields_left fields.entry) }
{
    let command = match word {
        "begin" => begin(fields)?,
        "finish" => finish(fields)?,
        "abandon" => Command::Abandon(sole_turn(fields)?),
        "collect" => Command::Collect(sole_turn(fields)?),
        "leave" => Command::Leave(sole_turn(fields)?),
        _ => return None,
    };
    Some(command)
}

/// Returns the command if no field is left.
fn command_alone<'a>(fields: Fields<'_>, command: Command<&'a str>) -> Option<Command<&'a str>>
    ensures { option_map plain_command result
        ≡ alone (plain_command command.entry) (fields_left fields.entry) }
{
    fields.none_left()?;
    Some(command)
}

/// Reads a command that begins a turn, from its kind on.
fn begin(mut fields: Fields<'_>) -> Option<Command<&str>>
    ensures { option_map plain_command result ≡ begin_of (fields_left fields.entry) }
{
    let kind = next_kind(&mut fields)?;
    let key = fields.next_number()?;
    begin_of_kind(kind, key, fields)
}

/// Reads a command that begins a turn, from the fields after its kind and key. A compute has none;
/// otherwise one may say whether to replace a live value.
fn begin_of_kind<'a>(kind: Kind, key: u64, mut fields: Fields<'a>) -> Option<Command<&'a str>>
    ensures { option_map plain_command result ≡ begin_by kind key (fields_left fields.entry) }
{
    if kind == Kind::Compute {
        return command_alone(fields, Command::BeginCompute(key));
    }
    match fields.next() {
        None => Some(Command::Begin(kind, key, None)),
        Some(field) => {
            fields.none_left()?;
            Some(Command::Begin(kind, key, Some(replace(field)?)))
        }
    }
}

/// Reads whether to replace a live value, or returns `None` if the field does not say it.
fn replace(field: &str) -> Option<bool>
    ensures { result ≡ replace_of field.now }
{
    match field {
        "replace=yes" => Some(true),
        "replace=no" => Some(false),
        _ => None,
    }
}

/// Reads a command that finishes a turn.
fn finish(mut fields: Fields<'_>) -> Option<Command<&str>>
    ensures { option_map plain_command result ≡ finish_of (fields_left fields.entry) }
{
    let turn = next_turn(&mut fields)?;
    Some(Command::Finish(turn, read_ending(fields)?))
}
