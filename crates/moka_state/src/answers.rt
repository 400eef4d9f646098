//! The results of the calls of turns, and the errors that hand their arguments back.
ghost use Rattle.std.specs.Prelude.{◌≡◌, false, true, IfOk};
ghost use Rattle.std.specs.Arc.{arc_value};
ghost use Rattle.moka_model.specs.Turns.{Name};
ghost use Rattle.moka_model.specs.Calls.{reply_by};
ghost use Rattle.moka_turns.specs.Handles.{ticket_name};
ghost use Rattle.moka_turns.specs.Represents.{end_of};
ghost use Rattle.moka_turns.specs.CollectState.{IfEnded, IfNotYet};
ghost use Rattle.moka_state.specs.Begin.{IfWait};
ghost use Rattle.moka_state.specs.BegunOf.{as_begin};
ghost use Rattle.moka_state.specs.Given.{IfUnspent, collected_as, of_collected};

use moka_deferred::deferred::Deferred;
use moka_model::comp_result::CompResult;
use moka_model::entry::Entry;
use moka_model::turns::Outcome;
use moka_policy::policy::Refused;
use moka_single_flight::replies;
pub use moka_turns::handles::CollectRefused;
use moka_turns::handles::{Ticket, Turn};
use moka_turns::table::{CollectState, TurnEnd};
use std::convert::Infallible;
use std::sync::Arc;

/// The result of a begin. It cannot be dropped: a turn has to be ended, and a ticket spent.
///
/// - `Found`: an acceptable value is live, so that nothing has to be computed.
/// - `Run`: the caller has to compute the value, and to end this turn.
/// - `Wait`: another caller computes the value. This ticket is for the outcome.
pub type Begun<K, V> = replies::Begun<Entry<K, V>, Turn<K>, Ticket<K>>;

/// The result of a begin that never waits: there can be no ticket.
pub(crate) type BegunNow<K, V> = replies::Begun<Entry<K, V>, Turn<K>, Infallible>;

/// The result of the begin of a compute. It cannot be dropped: a turn has to be ended, and a ticket
/// spent.
pub enum BegunCompute<K, V> {
    /// The caller has to end this turn with what is to be done with the key's value. The entry is
    /// the live one, if there is one.
    Run(Turn<K>, Option<Entry<K, V>>),
    /// Another caller computes. This ticket is for the end of that.
    Wait(Ticket<K>),
}

/// The turn of a compute, with the live entry, if there is one.
pub struct ShownTurn<K, V> {
    /// The turn, to be ended by the caller.
    pub turn: Turn<K>,
    /// The live entry that the begin of the compute found.
    pub shown: Option<Entry<K, V>>,
}

/// The outcome of a loader's turn.
#[derive(Debug, Drop)]
pub enum Answer<K, V, E> {
    /// A value, with its key.
    Entry(Entry<K, V>),
    /// No value.
    Nothing,
    /// An error instead of a value.
    Failed(Arc<E>),
}

/// The result of a finish.
#[derive(Debug, Drop)]
pub enum Finished<K, V, E> {
    /// The outcome of a loader's turn.
    Answer(Answer<K, V, E>),
    /// The result of a compute.
    Computed(CompResult<K, V>),
}

/// The result of a collect. It cannot be dropped, since it may contain the ticket of an open turn.
pub enum Collected<K, V, E> {
    /// The turn ended with this outcome.
    Ready(Answer<K, V, E>),
    /// The turn is still open. This is the ticket, unspent.
    NotYet(Ticket<K>),
    /// The turn was abandoned.
    Abandoned,
    /// The turn was a compute, and has ended. Only the caller that ended it gets the result.
    Ended,
}

/// The error of a failed `finish`, with the turn and the outcome that it was given.
pub struct FinishRefused<K, V, E> {
    /// The turn, as it was given.
    pub turn: Turn<K>,
    /// The outcome, as it was given.
    pub outcome: Outcome<V, Arc<E>>,
    /// Why the call failed.
    pub cause: Refused,
}

/// Converts the result of a begin that may not wait, and so has no ticket.
pub(crate) fn into_begun_now<K, V>(
    begun: Result<Begun<K, V>, Refused>,
) -> Result<BegunNow<K, V>, Refused>
    requires { IfOk begun (IfWait (false ≡ true)) }
    ensures { begun ≡ as_begin result }
{
    match begun {
        Ok(Begun::Found(entry)) => Ok(BegunNow::Found(entry)),
        Ok(Begun::Run(turn)) => Ok(BegunNow::Run(turn)),
        Ok(Begun::Wait(_ticket)) => unreachable!(),
        Err(cause) => Err(cause),
    }
}

// Returns what a ticket gets from the end of its turn. An entry has the ticket's key, which is discarded
// without one.
fn collected_end<K: Drop, V, E>(
    key: Arc<K>,
    end: TurnEnd<V, E>,
    discards: &mut Deferred<Arc<K>>,
) -> Collected<K, V, E>
    ensures reply { (name : Name K) → arc_value key ≡ name.key →
        of_collected result ≡ reply_by name (end_of end) }
    ensures spent { (name : Name K) → IfUnspent (λ ticket. ticket_name ticket ≡ name) result }
{
    match end {
        TurnEnd::Value(value, is_replaced) => {
            let entry = Entry::new(key, value, false, is_replaced);
            Collected::Ready(Answer::Entry(entry))
        }
        TurnEnd::Nothing => {
            discards.discard(key);
            Collected::Ready(Answer::Nothing)
        }
        TurnEnd::Failed(error) => {
            discards.discard(key);
            Collected::Ready(Answer::Failed(error))
        }
        TurnEnd::Computed => {
            discards.discard(key);
            Collected::Ended
        }
        TurnEnd::Abandoned => {
            discards.discard(key);
            Collected::Abandoned
        }
    }
}

/// Converts what the table of turns returns for a ticket into what its caller gets.
pub(crate) fn into_collected<K: Drop, V, E>(
    found: CollectState<K, V, E>,
    discards: &mut Deferred<Arc<K>>,
) -> Collected<K, V, E>
    ensures reply { (name : Name K) → IfEnded (λ key. arc_value key ≡ name.key) found →
        of_collected result ≡ collected_as name found }
    ensures unspent { (name : Name K) → IfNotYet (λ ticket. ticket_name ticket ≡ name) found →
        IfUnspent (λ ticket. ticket_name ticket ≡ name) result }
{
    match found {
        CollectState::NotYet(ticket) => Collected::NotYet(ticket),
        CollectState::Ended(key, end) => collected_end(key, end, discards),
    }
}
