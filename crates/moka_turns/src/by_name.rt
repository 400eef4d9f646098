//! Turns and tickets from names, and names from them, for callers whose calls are data. No library
//! above exports this module, since it can forge a turn.
ghost use Rattle.std.specs.Prelude.{◌≡◌};
ghost use Rattle.moka_turns.specs.Handles.{turn_name, ticket_name, name_by};

use crate::handles::{Ticket, Turn};
use crate::turn_key::TurnKey;
use crate::turn_name::TurnName;

/// Creates the turn with this name. Its key has no hash yet.
pub fn turn_of<K>(name: TurnName<K>) -> Turn<K>
    ensures name { turn_name result ≡ name_by name }
    ensures kind { result.key.kind ≡ name.kind }
    ensures key { result.key.key ≡ name.key }
{
    let TurnName { number, kind, key } = name;
    Turn {
        key: TurnKey { hash: 0, kind, key },
        number,
    }
}

/// Creates a ticket of the turn with this name. Its key has no hash yet.
pub fn ticket_of<K>(name: TurnName<K>) -> Ticket<K>
    ensures { ticket_name result ≡ name_by name }
{
    let TurnName { number, kind, key } = name;
    Ticket {
        key: TurnKey { hash: 0, kind, key },
        number,
    }
}

/// Returns the name of a turn, and consumes the turn.
pub fn name_of_turn<K>(turn: Turn<K>) -> TurnName<K>
    ensures { name_by result ≡ turn_name turn }
{
    let Turn { key, number } = turn;
    let TurnKey { hash: _, kind, key } = key;
    TurnName { number, kind, key }
}

/// Returns the name of a ticket's turn, and consumes the ticket.
pub fn name_of_ticket<K>(ticket: Ticket<K>) -> TurnName<K>
    ensures { name_by result ≡ ticket_name ticket }
{
    let Ticket { key, number } = ticket;
    let TurnKey { hash: _, kind, key } = key;
    TurnName { number, kind, key }
}
