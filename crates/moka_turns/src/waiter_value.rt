//! The state of a turn as its waiters see it, and the `Debug` of turns.
use crate::table::{OpenTurn, TurnEnd};
use std::fmt::{self, Debug, Formatter};

// The state of a turn. Its `Debug` names the variant only, so a value needs none.
#[derive(Drop)]
enum WaiterValue<V> {
    // The turn is open.
    Computing,
    // It ended with this: a value or an error.
    Ready(V),
    // It ended with nothing that waiters get: with no value, or as a compute.
    ReadyNone,
    // It was abandoned.
    Abandoned,
}

impl<V> Debug for WaiterValue<V> {
    fn fmt<O: fmt::Write>(&self, f: &mut Formatter<O>) -> fmt::Result {
        f.write_str(match self {
            WaiterValue::Computing => "Computing",
            WaiterValue::Ready(_) => "Ready",
            WaiterValue::ReadyNone => "ReadyNone",
            WaiterValue::Abandoned => "Abandoned",
        })
    }
}

impl<V> Debug for OpenTurn<V> {
    /// Writes the state that waiters see.
    fn fmt<O: fmt::Write>(&self, f: &mut Formatter<O>) -> fmt::Result {
        Debug::fmt(&WaiterValue::<()>::Computing, f)
    }
}

impl<V, E> Debug for TurnEnd<V, E> {
    /// Writes the state that waiters see.
    fn fmt<O: fmt::Write>(&self, f: &mut Formatter<O>) -> fmt::Result {
        let state = match self {
            TurnEnd::Value(_, _) | TurnEnd::Failed(_) => WaiterValue::Ready(()),
            TurnEnd::Nothing | TurnEnd::Computed => WaiterValue::ReadyNone,
            TurnEnd::Abandoned => WaiterValue::Abandoned,
        };
        Debug::fmt(&state, f)
    }
}
