//! Loaders of an owned cache: each is a begin, a closure and a finish at one moment.
ghost use Rattle.std.specs.Prelude.{◌≡◌, ◌≢◌, Option, None, Some, Result, false, IfOk, IfSome};
ghost use Rattle.std.specs.Arc.{arc_value};
ghost use Rattle.moka_turns.specs.Handles.{turn_name};
ghost use Rattle.moka_state.specs.Begin.{FoundKeepsFor, IsNamed, IsSaidOf, TakesLive};
ghost use Rattle.moka_state.specs.BegunOf.{as_begin};
ghost use Rattle.moka_state.specs.Finish.{Fits, IsGiven, OutcomeKeeps, outcome_of};
ghost use Rattle.moka_state.specs.Forms.{IsOptional, IsTried, IsValue, of_end, optional_outcome, tried_outcome};
ghost use Rattle.moka_state.specs.Ends.{EndsTurnAt, LoaderBegins, LoaderBeginsAs, Loads, LoadsIf};

use crate::answers::{Answer, BegunNow, FinishRefused, Finished, into_begun_now};
use crate::call_view::CallView;
use crate::state::State;
use moka_expiration::view::StateView;
use moka_model::turns::{Kind, Outcome};
use moka_policy::policy::{CacheTypes, Refused};
use moka_rows::rows::RowStore;
use moka_turns::handles::Turn;
use std::alloc::AllocError;
use std::hash::Hash;
use std::sync::Arc;

// Returns `None`, with the type of an optional closure like this one.
pub(crate) fn none_like<F: Drop>(_closure: F) -> Option<F>
    ensures { result ≡ None }
{
    None
}

impl<K: Hash + Drop, V: Clone, C: CacheTypes<K, V>, R: RowStore<K, V>> State<K, V, C, R> {
    /// Returns a clone of the live value for `key`. If there is none, runs `init`, stores its
    /// result, and returns a clone of the result.
    ///
    /// This is a begin of kind `With` and, if that opens a turn, a finish with the result of
    /// `init`, all at one moment. `init` runs at most once, and only if a turn is opened. A hit
    /// allocates only the clone of the value.
    ///
    /// # Errors
    ///
    /// If the begin fails, the cache is unchanged. If the finish fails, the turn is abandoned.
    ///
    /// - `TurnIsOpen`: a turn of the key and of kind `With` is open, so that the call would have to
    ///   wait for it.
    /// - `NumbersUsedUp`: no sequence number is left, for the turn or for the write.
    /// - `OutOfMemory`: an allocation or a clone failed.
    ///
    /// # Complexity
    ///
    /// A hit costs a [`State::get`] and a share of the stored key. Otherwise the call costs a
    /// [`State::begin`], a [`State::finish`] and one more lookup in the table of turns.
    pub fn get_with<F: FnOnce() -> V + Drop>(
        &mut self,
        key: K,
        init: F,
        now: u64,
    ) -> Result<V, Refused>
        requires asks { F.IsAlwaysCallable init }
        requires keeps { (v : V) → F.post init v → C.keeps key v }
        ensures form { Loads ⟦<C as CallView<K, V>>⟧.spec Outcome.Value (F.post init) IsValue key
            Kind.With now self.old self.new result }
        ensures kept { IfOk result (C.keeps key) }
        ensures settings { self.new.settings ≡ self.old.settings }
    {
        match self.load(key, init, now) {
            Ok(entry) => Ok(entry.into_value()),
            Err(cause) => Err(cause),
        }
    }

    /// Returns a clone of the live value for `key`, unless `replace_if` returns true for it.
    /// Otherwise works like [`State::get_with`].
    ///
    /// A value that is to be replaced counts as absent: the lookup is a miss, and the result of
    /// `init` overwrites the value.
    ///
    /// # Errors
    ///
    /// As [`State::get_with`].
    pub fn get_with_if<F: FnOnce() -> V + Drop, P: FnMut(&V) -> bool + Drop>(
        &mut self,
        key: K,
        init: F,
        replace_if: P,
        now: u64,
    ) -> Result<V, Refused>
        requires asks { F.IsAlwaysCallable init }
        requires shows { TakesLive K.eq C.keeps ⟦<C as StateView<K, V>>⟧.settings P.FnMut
            key now self.old replace_if }
        requires keeps { (v : V) → F.post init v → C.keeps key v }
        ensures form { LoadsIf ⟦<C as CallView<K, V>>⟧.spec (IsSaidOf P.FnMut (Some replace_if))
            Outcome.Value (F.post init) IsValue key Kind.With now self.old self.new result }
        ensures kept { IfOk result (C.keeps key) }
        ensures settings { self.new.settings ≡ self.old.settings }
    {
        match self.load_if(key, init, replace_if, now) {
            Ok(entry) => Ok(entry.into_value()),
            Err(cause) => Err(cause),
        }
    }

    /// Returns a clone of the live value for `key`. If there is none, runs `init`, which may return
    /// no value: then nothing is stored, and `None` is returned.
    ///
    /// Otherwise works like [`State::get_with`]. The begin is of kind `Optionally`.
    ///
    /// # Errors
    ///
    /// As [`State::get_with`], for turns of kind `Optionally`.
    #[tactic(auto, using(crate::proofs::Loaders::optional_owes))]
    pub fn optionally_get_with<F: FnOnce() -> Option<V> + Drop>(
        &mut self,
        key: K,
        init: F,
        now: u64,
    ) -> Result<Option<V>, Refused>
        requires asks { F.IsAlwaysCallable init }
        requires keeps { (o : Option V) → F.post init o → IfSome o (C.keeps key) }
        ensures form { Loads ⟦<C as CallView<K, V>>⟧.spec optional_outcome (F.post init) IsOptional
            key Kind.Optionally now self.old self.new result }
        ensures kept { IfOk result (λ found. IfSome found (C.keeps key)) }
        ensures settings { self.new.settings ≡ self.old.settings }
    {
        match self.load(key, init, now) {
            Ok(Some(entry)) => Ok(Some(entry.into_value())),
            Ok(None) => Ok(None),
            Err(cause) => Err(cause),
        }
    }

    /// Returns a clone of the live value for `key`. If there is none, runs `init`, which may fail:
    /// then nothing is stored, and its error is returned in an `Arc`.
    ///
    /// Otherwise works like [`State::get_with`]. The begin is of kind `Try`.
    ///
    /// # Errors
    ///
    /// As [`State::get_with`], for turns of kind `Try`. Also:
    ///
    /// - `OutOfMemory`: the `Arc` of the error could not be allocated. The turn is abandoned.
    #[tactic(auto, using(crate::proofs::Loaders::tried_owes))]
    pub fn try_get_with<F: FnOnce() -> Result<V, C::Error> + Drop>(
        &mut self,
        key: K,
        init: F,
        now: u64,
    ) -> Result<Result<V, Arc<C::Error>>, Refused>
        requires asks { F.IsAlwaysCallable init }
        requires keeps { (r : Result V C.Error) → F.post init r → IfOk r (C.keeps key) }
        ensures form { Loads ⟦<C as CallView<K, V>>⟧.spec tried_outcome (F.post init) IsTried key
            Kind.Try now self.old self.new result }
        ensures kept { IfOk result (λ tried. IfOk tried (C.keeps key)) }
        ensures settings { self.new.settings ≡ self.old.settings }
    {
        match self.load(key, init, now) {
            Ok(Ok(entry)) => Ok(Ok(entry.into_value())),
            Ok(Err(error)) => Ok(Err(error)),
            Err(cause) => Err(cause),
        }
    }

    // Does the begin of a loader without waiting: fails with `TurnIsOpen` if a turn of the key and
    // the kind is open. The key moves into an `Arc` only if no acceptable value is live and no such
    // turn is open.
    pub(crate) fn begin_now_if<F: FnMut(&V) -> bool + Drop>(
        &mut self,
        key: K,
        kind: Kind,
        replace_if: Option<F>,
        now: u64,
    ) -> Result<BegunNow<K, V>, Refused>
        requires initializer { kind ≢ Kind.Compute }
        requires asks { IfSome replace_if (TakesLive K.eq C.keeps
            ⟦<C as StateView<K, V>>⟧.settings F.FnMut key now self.old) }
        ensures begins { LoaderBegins ⟦<C as CallView<K, V>>⟧.spec (IsSaidOf F.FnMut replace_if) key
            kind now false self.old self.new (as_begin result) }
        ensures named { IfOk (as_begin result) (IsNamed kind key) }
        ensures kept { IfOk (as_begin result) (FoundKeepsFor C.keeps key) }
        ensures settings { self.new.settings ≡ self.old.settings }
    {
        let hash = self.hash(&key);
        match self.acceptable_entry(&key, hash, replace_if, now) {
            Ok(Some(entry)) => Ok(BegunNow::Found(entry)),
            Ok(None) => {
                if self.has_to_refuse(&key, hash, kind, false) {
                    return Err(Refused::TurnIsOpen);
                }
                match self.share(key) {
                    Ok(shared) => into_begun_now(self.begin_turn(shared, hash, kind, now, false)),
                    Err(_) => Err(Refused::OutOfMemory),
                }
            }
            Err(cause) => Err(cause),
        }
    }

    // Works like `begin_now_if`, and accepts any live value.
    pub(crate) fn begin_now(
        &mut self,
        key: K,
        kind: Kind,
        now: u64,
    ) -> Result<BegunNow<K, V>, Refused>
        requires initializer { kind ≢ Kind.Compute }
        ensures begins { LoaderBeginsAs ⟦<C as CallView<K, V>>⟧.spec None key kind now false
            self.old self.new (as_begin result) }
        ensures named { IfOk (as_begin result) (IsNamed kind key) }
        ensures kept { IfOk (as_begin result) (FoundKeepsFor C.keeps key) }
        ensures settings { self.new.settings ≡ self.old.settings }
    {
        self.begin_now_if(key, kind, none_like(|_: &V| false), now)
    }

    // Moves a value into an `Arc`.
    pub(crate) fn share<T: Drop>(&self, value: T) -> Result<Arc<T>, AllocError>
        ensures { IfOk result (λ shared. arc_value shared ≡ value) }
    {
        match Arc::new(self.alloc, value) {
            Ok(shared) => Ok(shared),
            Err(_) => Err(AllocError),
        }
    }

    // Finishes a loader's turn with an outcome. If that fails, abandons the turn and returns the
    // cause.
    pub(crate) fn end_turn(
        &mut self,
        turn: Turn<K>,
        outcome: Outcome<V, Arc<C::Error>>,
        now: u64,
    ) -> Result<Answer<K, V, C::Error>, Refused>
        requires fits { Fits C.Error turn.key.kind (outcome_of outcome) }
        requires initializer { turn.key.kind ≢ Kind.Compute }
        requires kept { OutcomeKeeps (C.keeps (arc_value turn.key.key)) outcome }
        ensures ends { EndsTurnAt ⟦<C as CallView<K, V>>⟧.spec (turn_name turn) (outcome_of outcome)
            now (of_end result) self.old self.new }
        ensures given { IfOk result (IsGiven V.is_clone (arc_value turn.key.key) outcome) }
        ensures settings { self.new.settings ≡ self.old.settings }
    {
        let refused = match self.finish(turn, outcome, now) {
            Ok(Finished::Answer(answer)) => return Ok(answer),
            Ok(Finished::Computed(_)) => unreachable!(),
            Err(refused) => refused,
        };
        let FinishRefused {
            turn,
            outcome: _,
            cause,
        } = refused;
        let _ = self.abandon(turn);
        Err(cause)
    }
}
