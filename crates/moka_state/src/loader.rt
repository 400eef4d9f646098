//! What the closures of loaders return, as the outcomes of turns, and what the loaders return.
ghost use Rattle.std.specs.Prelude.{◌≡◌, ◌≢◌, IfErr, IfOk};
ghost use Rattle.moka_state.specs.Finish.{Fits, outcome_of};
ghost use Rattle.moka_state.specs.Loader.{AnswerFits, IsFailure};

use crate::answers::Answer;
use moka_model::entry::Entry;
use moka_model::turns::{Kind, Outcome};
use std::alloc::{AllocError, Global};
use std::sync::Arc;

/// What the closure of a loader returns: a value (`V`), perhaps no value (`Option<V>`), or an error
/// instead of a value (`Result<V, E>`).
pub trait LoaderResult<K, V, E> {
    ghost use Rattle.std.specs.Prelude.{◌≡◌, ◌≢◌};
    ghost use Rattle.moka_model.specs.declared.turns.Kind.{Kind};
    ghost use Rattle.moka_model.specs.declared.turns.Outcome.{Outcome};
    ghost use Rattle.moka_state.specs.declared.answers.Answer.{Answer};

    /// What the loader returns: the entry of the value, if there is one, or the error in an `Arc`.
    type Loaded;

    /// The kind of the loader's turns.
    ghost kind_of: { Kind };

    /// The result of the closure, as the outcome of a turn.
    ghost outcome: { Self → Outcome V E };

    /// What the loader returns, as the outcome of a turn.
    ghost answer: { Self.Loaded → Answer K V E };

    /// Returns the kind of the loader's turns. It is not `Compute`.
    fn kind() -> Kind
        ensures is { result ≡ kind_of }
        ensures initializer { result ≢ Kind.Compute };

    /// Converts the result of the closure into the outcome of a turn of that kind.
    fn into_outcome(self) -> Outcome<V, E>
        ensures is { result ≡ outcome self }
        ensures fits { Fits E kind_of result };

    /// Converts the live entry into what the loader returns.
    fn found(entry: Entry<K, V>) -> Self::Loaded
        ensures { answer result ≡ Answer.Entry entry };

    /// Converts the outcome of a turn of that kind into what the loader returns.
    fn loaded(given: Answer<K, V, E>) -> Self::Loaded
        requires { AnswerFits kind_of given }
        ensures { answer result ≡ given };
}

/// Moves the error of an outcome, if it has one, into an `Arc`.
///
/// # Errors
///
/// - `AllocError`: the `Arc` could not be allocated. The error is dropped.
pub fn share_error<V: Drop, E: Drop>(
    alloc: Global,
    outcome: Outcome<V, E>,
) -> Result<Outcome<V, Arc<E>>, AllocError>
    ensures shared { IfOk result (λ shared. outcome_of shared ≡ outcome) }
    ensures failed { IfErr result (λ cause. IsFailure outcome) }
{
    match outcome {
        Outcome::Value(value) => Ok(Outcome::Value(value)),
        Outcome::Nothing => Ok(Outcome::Nothing),
        Outcome::Failed(error) => match Arc::new(alloc, error) {
            Ok(shared) => Ok(Outcome::Failed(shared)),
            Err(_) => Err(AllocError),
        },
        Outcome::Op(op) => Ok(Outcome::Op(op)),
    }
}

impl<K: Drop, V: Drop, E: Drop> LoaderResult<K, V, E> for V {
    ghost use Rattle.moka_model.specs.declared.turns.Kind.TheVariants.{With};
    ghost use Rattle.moka_model.specs.declared.turns.Outcome.TheVariants.{Value};
    ghost use Rattle.moka_state.specs.declared.answers.Answer.TheVariants as answers;

    type Loaded = Entry<K, V>;

    ghost kind_of = { With };

    ghost outcome = { Value };

    ghost answer = { answers.Entry };

    fn kind() -> Kind {
        Kind::With
    }

    fn into_outcome(self) -> Outcome<V, E> {
        Outcome::Value(self)
    }

    fn found(entry: Entry<K, V>) -> Entry<K, V>
        ensures { ◌≡◌ {A = Answer K V E} (answers.Entry result) (answers.Entry entry) }
    {
        entry
    }

    fn loaded(given: Answer<K, V, E>) -> Entry<K, V>
        requires { AnswerFits Kind.With given }
        ensures { answers.Entry result ≡ given }
    {
        match given {
            Answer::Entry(entry) => entry,
            Answer::Nothing => unreachable!(),
            Answer::Failed(_) => unreachable!(),
        }
    }
}

impl<K: Drop, V: Drop, E: Drop> LoaderResult<K, V, E> for Option<V> {
    ghost use Rattle.moka_model.specs.declared.turns.Kind.TheVariants.{Optionally};
    ghost use Rattle.moka_state.specs.Forms.{optional_outcome};
    ghost use Rattle.moka_state.specs.Loader.{optional_answer};

    type Loaded = Option<Entry<K, V>>;

    ghost kind_of = { Optionally };

    ghost outcome = { optional_outcome };

    ghost answer = { optional_answer };

    fn kind() -> Kind {
        Kind::Optionally
    }

    fn into_outcome(self) -> Outcome<V, E> {
        match self {
            Some(value) => Outcome::Value(value),
            None => Outcome::Nothing,
        }
    }

    fn found(entry: Entry<K, V>) -> Option<Entry<K, V>>
        ensures { optional_answer {E = E} result ≡ Answer.Entry entry }
    {
        Some(entry)
    }

    fn loaded(given: Answer<K, V, E>) -> Option<Entry<K, V>>
        requires { AnswerFits Kind.Optionally given }
        ensures { optional_answer result ≡ given }
    {
        match given {
            Answer::Entry(entry) => Some(entry),
            Answer::Nothing => None,
            Answer::Failed(_) => unreachable!(),
        }
    }
}

impl<K: Drop, V: Drop, E: Drop> LoaderResult<K, V, E> for Result<V, E> {
    ghost use Rattle.moka_model.specs.declared.turns.Kind.TheVariants.{Try};
    ghost use Rattle.moka_state.specs.Forms.{tried_outcome};
    ghost use Rattle.moka_state.specs.Loader.{tried_answer};

    type Loaded = Result<Entry<K, V>, Arc<E>>;

    ghost kind_of = { Try };

    ghost outcome = { tried_outcome };

    ghost answer = { tried_answer };

    fn kind() -> Kind {
        Kind::Try
    }

    fn into_outcome(self) -> Outcome<V, E> {
        match self {
            Ok(value) => Outcome::Value(value),
            Err(error) => Outcome::Failed(error),
        }
    }

    fn found(entry: Entry<K, V>) -> Result<Entry<K, V>, Arc<E>>
        ensures { tried_answer result ≡ Answer.Entry entry }
    {
        Ok(entry)
    }

    fn loaded(given: Answer<K, V, E>) -> Result<Entry<K, V>, Arc<E>>
        requires { AnswerFits Kind.Try given }
        ensures { tried_answer result ≡ given }
    {
        match given {
            Answer::Entry(entry) => Ok(entry),
            Answer::Nothing => unreachable!(),
            Answer::Failed(error) => Err(error),
        }
    }
}
