//! The kinds of turns (single-flight permits), and what a turn may be finished with.
ghost use Rattle.std.specs.Prelude.{◌≡◌};
ghost use Rattle.moka_model.specs.Turns.{fits};

/// Which family of calls a turn belongs to. Turns of different kinds never share a computation.
#[derive(Clone, Copy, Debug, PartialEq, Eq)]
pub enum Kind {
    /// The computation returns a value: `get_with` and its relatives.
    With,
    /// The computation returns a value or nothing: `optionally_get_with` and its relatives.
    Optionally,
    /// The computation returns a value or an error: `try_get_with` and its relatives.
    Try,
    /// The computation writes, removes or keeps the value of its key: `and_compute_with`.
    Compute,
}

/// An operation: what a compute does to the value of its key.
#[derive(Clone, Debug, PartialEq, Eq, Drop)]
pub enum Op<V> {
    /// Leaves the value unchanged.
    Nop,
    /// Writes this value.
    Put(V),
    /// Removes the value.
    Remove,
}

/// What a turn is finished with.
#[derive(Debug, Drop)]
pub enum Outcome<V, E> {
    /// A value, which is stored.
    Value(V),
    /// No value. Nothing is stored.
    Nothing,
    /// An error. Nothing is stored.
    Failed(E),
    /// The operation of a compute.
    Op(Op<V>),
}

impl Kind {
    /// Returns whether a turn of this kind may be finished with `outcome`.
    pub fn accepts<V, E>(self, outcome: &Outcome<V, E>) -> bool
        ensures { result ≡ fits self outcome.now }
    {
        match (self, outcome) {
            (Kind::With | Kind::Optionally | Kind::Try, Outcome::Value(_))
            | (Kind::Optionally, Outcome::Nothing)
            | (Kind::Try, Outcome::Failed(_))
            | (Kind::Compute, Outcome::Op(_)) => true,
            _ => false,
        }
    }
}
