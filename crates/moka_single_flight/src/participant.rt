//! Who takes part in a single flight: a caller that may have to wait for another caller's turn.
ghost use Rattle.std.specs.Prelude.{◌≡◌, IfOk, IfErr};

use crate::replies::{Begun, Collected};

/// A caller that asks an `X`, such as a cache, for the value `V` of one key. It begins, and it
/// collects the ticket if it has to wait.
///
/// Turns and tickets need not be `Drop`. The error holds what a failed call was given, and what the
/// caller still holds then.
pub trait Participant<X, V> {
    ghost use Rattle.std.specs.Prelude.{⊤, ◌≡◌, IfOk, IfErr};
    ghost use Rattle.moka_single_flight.specs.declared.replies.Begun.{Begun};
    ghost use Rattle.moka_single_flight.specs.declared.replies.Collected.{Collected};

    /// The right and the duty to end a turn.
    type Turn;

    /// The right and the duty to ask what came of a turn.
    type Ticket;

    /// Why a call failed, with what it hands back.
    type Refused;

    /// What the calls ask of the caller, such as that its closures may be called. Each call
    /// preserves it.
    ghost ready: { Self → Type 0 } = { λ _. ⊤ };

    /// What a begin may return, given the caller before it and the caller after it.
    ghost begun: { X → Self → Begun V Self.Turn Self.Ticket → Self → Type 0 };

    /// What a collect of a ticket may return.
    ghost collected: { X → Self → Self.Ticket → Collected V Self.Ticket → Self → Type 0 };

    /// How a begin may fail.
    ghost begin_refused: { X → Self → Self.Refused → Self → Type 0 };

    /// How a collect of a ticket may fail.
    ghost collect_refused: { X → Self → Self.Ticket → Self.Refused → Self → Type 0 };

    /// Asks for the value, or for the turn to compute it.
    fn begin(&mut self, at: &X) -> Result<Begun<V, Self::Turn, Self::Ticket>, Self::Refused>
        requires { ready self.old }
        ensures still { ready self.new }
        ensures done { IfOk result (λ b. begun at.now self.old b self.new) }
        ensures refused { IfErr result (λ r. begin_refused at.now self.old r self.new) };

    /// Asks what came of the turn of a ticket. If the turn is still open, waits for a change before
    /// it returns.
    fn collect(
        &mut self,
        at: &X,
        ticket: Self::Ticket,
    ) -> Result<Collected<V, Self::Ticket>, Self::Refused>
        requires { ready self.old }
        ensures still { ready self.new }
        ensures done { IfOk result (λ b. collected at.now self.old ticket b self.new) }
        ensures refused { IfErr result (λ r. collect_refused at.now self.old ticket r self.new) };
}
