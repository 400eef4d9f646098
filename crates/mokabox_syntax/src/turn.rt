//! Turns as a script names them, and how it finishes them.
ghost use Rattle.std.specs.Prelude.{◌≡◌, option_map};
ghost use Rattle.mokabox_syntax.specs.Fields.{alone, first_of};
ghost use Rattle.mokabox_syntax.specs.FieldsLeft.{fields_left};
ghost use Rattle.mokabox_syntax.specs.Turn.{kind_of, turn_of, sole_turn_of, plain_ending, ending_of};

use crate::fields::Fields;
use moka_model::turns::Kind;

/// The name of a turn in a script.
#[derive(Clone, Copy, Debug, PartialEq, Eq)]
pub struct TurnOf {
    /// Its kind.
    pub kind: Kind,
    /// Its key.
    pub key: u64,
    /// Its sequence number.
    pub number: u64,
}

/// What a turn is finished with, whatever its kind. `T` is the type of the texts.
#[derive(Clone, Copy, Debug, PartialEq, Eq)]
pub enum Ending<T> {
    /// A value, which is stored.
    Value(T),
    /// No value.
    Nothing,
    /// An error.
    Failed(T),
    /// The operation of a compute that puts this value.
    Put(T),
    /// The operation of a compute that removes the value.
    Remove,
    /// The operation of a compute that does nothing.
    Nop,
}

/// Takes the first field, and returns the kind that it names, or `None`.
pub fn next_kind(fields: &mut Fields<'_>) -> Option<Kind>
    ensures { option_map (λ kind. (kind, fields_left fields.new)) result
        ≡ first_of kind_of (fields_left fields.old) }
{
    match fields.next()? {
        "with" => Some(Kind::With),
        "optionally" => Some(Kind::Optionally),
        "try" => Some(Kind::Try),
        "compute" => Some(Kind::Compute),
        _ => None,
    }
}

/// Takes the first three fields, and returns the turn that they name, or `None`.
pub fn next_turn(fields: &mut Fields<'_>) -> Option<TurnOf>
    ensures { option_map (λ turn. (turn, fields_left fields.new)) result
        ≡ turn_of (fields_left fields.old) }
{
    let kind = next_kind(fields)?;
    let key = fields.next_number()?;
    let number = fields.next_number()?;
    Some(TurnOf { kind, key, number })
}

/// Returns the turn that the only three fields left name, or `None`.
pub fn sole_turn(mut fields: Fields<'_>) -> Option<TurnOf>
    ensures { result ≡ sole_turn_of (fields_left fields.entry) }
{
    let turn = next_turn(&mut fields)?;
    fields.none_left()?;
    Some(turn)
}

/// Reads what a turn is finished with from the fields that are left.
pub fn read_ending(mut fields: Fields<'_>) -> Option<Ending<&str>>
    ensures { option_map plain_ending result ≡ ending_of (fields_left fields.entry) }
{
    let ending = match fields.next()? {
        "value" => Ending::Value(fields.sole_text()?),
        "nothing" => ending_alone(fields, Ending::Nothing)?,
        "failed" => Ending::Failed(fields.sole_text()?),
        "put" => Ending::Put(fields.sole_text()?),
        "remove" => ending_alone(fields, Ending::Remove)?,
        "nop" => ending_alone(fields, Ending::Nop)?,
        _ => return None,
    };
    Some(ending)
}

/// Returns the ending if no field is left.
fn ending_alone<'a>(fields: Fields<'_>, ending: Ending<&'a str>) -> Option<Ending<&'a str>>
    ensures { option_map plain_ending result
        ≡ alone (plain_ending ending.entry) (fields_left fields.entry) }
{
    fields.none_left()?;
    Some(ending)
}
