//! The end of a turn with an outcome.
ghost use Rattle.std.specs.Prelude.{◌≡◌, ◌<◌, option_map, IsSome, IfOk, IfErr, OnOk, OnErr, IfSome};
ghost use Rattle.std.specs.Arc.{arc_value};
ghost use Rattle.moka_model.specs.Turns as turning;
ghost use Rattle.moka_model.specs.Turns.{Ended, moved};
ghost use Rattle.moka_model.specs.Calls.{Entered, Insert, fresh_entry};
ghost use Rattle.moka_turns.specs.Handles.{turn_name};
ghost use Rattle.moka_turns.specs.Represents.{end_of};
ghost use Rattle.moka_turns.specs.TurnTable.{open_at, AtEachChange};
ghost use Rattle.moka_turns.specs.Open.{IsOpenFor};
ghost use Rattle.moka_state.specs.Given.{of_answer};
ghost use Rattle.moka_state.specs.Finish.{Fits, IsCopiesOf, OutcomeKeeps, outcome_of};
ghost use Rattle.moka_state.specs.Hashes.{IsHashOf};
ghost use Rattle.moka_state.specs.Ends.{FinishesTurn, IsAwaitedBy, IsOpenTurn, IsUnknown, Replaces};

use crate::answers::{Answer, FinishRefused, Finished};
use crate::call_view::CallView;
use crate::compute::clone_if;
use crate::state::{InsertRefused, State};
use moka_deferred::deferred::Deferred;
use moka_expiration::view::StateView;
use moka_model::entry::Entry;
use moka_model::turns::Outcome;
use moka_policy::policy::{CacheTypes, Refused};
use moka_rows::rows::RowStore;
use moka_turns::handles::Turn;
use moka_turns::table::{TurnEnd, TurnTable};
use std::alloc::AllocError;
use std::hash::Hash;
use std::sync::Arc;

// What the end of a turn with a value needs beside the write. The caller gets a share of the key
// and a clone of the value. Waiting callers, if any, get another clone.
#[derive(Drop)]
pub(crate) struct Copies<K, V> {
    key: Arc<K>,
    reply: V,
    saved: Option<V>,
}

impl<K: Drop, V: Clone> Copies<K, V> {
    // Makes the clones for the end of a turn that `waiting` callers wait for. Discards the first one if
    // the second one fails.
    fn new(
        turn: &Turn<K>,
        value: &V,
        waiting: u64,
        discards: &mut Deferred<V>,
    ) -> Result<Self, AllocError>
        ensures { IfOk result (IsCopiesOf V.is_clone turn.now value.now waiting) }
    {
        let key = turn.shared_key()?;
        let reply = value.clone()?;
        match clone_if(value, waiting > 0) {
            Ok(saved) => Ok(Copies { key, reply, saved }),
            Err(refused) => {
                discards.discard(reply);
                Err(refused)
            }
        }
    }
}

// Returns the end of a turn that is saved for the waiting callers, if there is a value for them.
fn value_end<V, E>(saved: Option<V>, is_replaced: bool) -> Option<TurnEnd<V, E>>
    ensures { result ≡ option_map (λ value. TurnEnd.Value value is_replaced) saved }
{
    match saved {
        Some(value) => Some(TurnEnd::Value(value, is_replaced)),
        None => None,
    }
}

// Returns the end with an error that is saved for the waiting callers. May return `None` if nobody
// waits.
fn failed_end<V, E: Drop>(error: &Arc<E>, waiting: u64) -> Result<Option<TurnEnd<V, E>>, AllocError>
    ensures waited { IfOk result (λ end. 0 < waiting → IsSome end) }
    ensures saved { IfOk result (λ end. IfSome end
        (λ saved. end_of saved ≡ turning.Failed (arc_value error.now))) }
{
    if waiting == 0 {
        return Ok(None);
    }
    match error.clone() {
        Ok(shared) => Ok(Some(TurnEnd::Failed(shared))),
        Err(refused) => Err(refused),
    }
}

// Ends an open turn with a value, and returns its entry.
fn conclude<K: Eq + Drop, V: Clone, E: Drop>(
    turns: &mut TurnTable<K, V, E>,
    turn: Turn<K>,
    copies: Copies<K, V>,
    is_replaced: bool,
) -> Answer<K, V, E>
    requires { IsOpenFor turn.number copies.saved (open_at turns.old turn.key) }
    ensures entry { of_answer result
        ≡ Entered (fresh_entry (arc_value copies.key) copies.reply is_replaced) }
    ensures preserves { AtEachChange V.is_clone turn.key turns.old turns.new (λ ts After.
        (value : V) → IfSome copies.saved (V.is_clone value)
        → After (moved (Ended turn.number (turning.Value value is_replaced)) ts)) }
{
    let Copies {
        key,
        reply,
        saved,
        ..
    } = copies;
    turns.finish(turn, value_end(saved, is_replaced));
    Answer::Entry(Entry::new(key, reply, true, is_replaced))
}

// Makes the error of a failed finish with a value.
fn refusal<K, V, E>(turn: Turn<K>, value: V, cause: Refused) -> FinishRefused<K, V, E>
    ensures { result ≡ record { turn = turn; outcome = Outcome.Value value; cause = cause } }
{
    FinishRefused {
        turn,
        outcome: Outcome::Value(value),
        cause,
    }
}

impl<K: Hash + Drop, V: Clone, C: CacheTypes<K, V>, R: RowStore<K, V>> State<K, V, C, R> {
    // Finds an open turn. Returns it with the hash of its key, that hash, and how many callers wait
    // for it. Returns the turn alone if it is not open.
    fn resume(&self, turn: Turn<K>) -> Result<(Turn<K>, u64, u64), Turn<K>>
        ensures hash { IfOk result
            (λ found. IsHashOf (⟦<C as StateView<K, V>>⟧.settings self.now.settings)
            (arc_value found.0.key.key) found.0.key.hash) }
        ensures found { IfOk result (λ found. found.1 ≡ found.0.key.hash) }
        ensures name { IfOk result (λ found. turn_name found.0 ≡ turn_name turn) }
        ensures is_open { IfOk result
            (λ found. IsOpenTurn ⟦<C as CallView<K, V>>⟧.spec found.0 self.now) }
        ensures awaited { IfOk result
            (λ found. IsAwaitedBy ⟦<C as CallView<K, V>>⟧.spec found.0 found.2 self.now) }
        ensures unknown { IfErr result (λ back. (turn_name back ≡ turn_name turn)
            × IsUnknown ⟦<C as CallView<K, V>>⟧.spec (turn_name turn) self.now) }
    {
        let hash = self.hash(turn.key());
        let turn = turn.with_hash(hash);
        match self.turns.waiting_for(&turn) {
            Some(waiting) => Ok((turn, hash, waiting)),
            None => Err(turn),
        }
    }

    // Writes a value under the key of a turn, and returns whether it replaced a live value. A
    // failed write returns the value.
    pub(crate) fn write_for(
        &mut self,
        turn: &Turn<K>,
        hash: u64,
        value: V,
        now: u64,
    ) -> Result<bool, V>
        requires hash { IsHashOf (⟦<C as StateView<K, V>>⟧.settings self.old.settings)
            (arc_value turn.now.key.key) hash }
        requires kept { C.keeps (arc_value turn.now.key.key) value }
        ensures stands { OnOk result (⟦<C as StateView<K, V>>⟧.follows
            self.old (Insert (arc_value turn.now.key.key) value now) self.new) }
        ensures replaces { IfOk result
            (Replaces ⟦<C as CallView<K, V>>⟧.spec (arc_value turn.now.key.key) now self.old) }
        ensures refused { OnErr result (self.new ≡ self.old) }
        ensures value_back { IfErr result (λ back. back ≡ value) }
        ensures turns { self.new.turns ≡ self.old.turns }
        ensures settings { self.new.settings ≡ self.old.settings }
    {
        let Ok(key) = turn.shared_key() else {
            return Err(value);
        };
        match self.write(key, hash, value, now) {
            Ok(is_replaced) => Ok(is_replaced),
            Err(InsertRefused { value, .. }) => Err(value),
        }
    }

    // Ends a turn with a value. At a capacity of 0 the value is not stored.
    fn finish_with(
        &mut self,
        turn: Turn<K>,
        hash: u64,
        waiting: u64,
        value: V,
        now: u64,
    ) -> Result<Finished<K, V, C::Error>, FinishRefused<K, V, C::Error>>
        requires hash { IsHashOf (⟦<C as StateView<K, V>>⟧.settings self.old.settings)
            (arc_value turn.key.key) turn.key.hash }
        requires found { hash ≡ turn.key.hash }
        requires is_open { IsOpenTurn ⟦<C as CallView<K, V>>⟧.spec turn self.old }
        requires awaited { IsAwaitedBy ⟦<C as CallView<K, V>>⟧.spec turn waiting self.old }
        requires fits { Fits C.Error turn.key.kind (Outcome.Value value) }
        requires kept { C.keeps (arc_value turn.key.key) value }
        ensures { FinishesTurn ⟦<C as CallView<K, V>>⟧.spec turn (Outcome.Value value) now self.old
            self.new result }
    {
        if self.wants_number() {
            return Err(refusal(turn, value, Refused::NumbersUsedUp));
        }
        let Ok(copies) = Copies::new(&turn, &value, waiting, &mut self.discards.reply) else {
            return Err(refusal(turn, value, Refused::OutOfMemory));
        };
        match self.write_for(&turn, hash, value, now) {
            Ok(is_replaced) => {
                let answer = conclude(&mut self.turns, turn, copies, is_replaced);
                Ok(Finished::Answer(answer))
            }
            Err(value) => {
                self.discards.copies.discard(copies);
                Err(refusal(turn, value, Refused::OutOfMemory))
            }
        }
    }

    // Ends a turn without a value.
    fn finish_without(
        &mut self,
        turn: Turn<K>,
        now: u64,
    ) -> Result<Finished<K, V, C::Error>, FinishRefused<K, V, C::Error>>
        requires hash { IsHashOf (⟦<C as StateView<K, V>>⟧.settings self.old.settings)
            (arc_value turn.key.key) turn.key.hash }
        requires is_open { IsOpenTurn ⟦<C as CallView<K, V>>⟧.spec turn self.old }
        requires fits { Fits {V = V} C.Error turn.key.kind Outcome.Nothing }
        ensures { FinishesTurn ⟦<C as CallView<K, V>>⟧.spec turn Outcome.Nothing now self.old
            self.new result }
    {
        self.turns.finish(turn, Some(TurnEnd::Nothing));
        self.latest = self.latest.max(now);
        Ok(Finished::Answer(Answer::Nothing))
    }

    // Ends a turn with an error.
    fn finish_failed(
        &mut self,
        turn: Turn<K>,
        waiting: u64,
        error: Arc<C::Error>,
        now: u64,
    ) -> Result<Finished<K, V, C::Error>, FinishRefused<K, V, C::Error>>
        requires hash { IsHashOf (⟦<C as StateView<K, V>>⟧.settings self.old.settings)
            (arc_value turn.key.key) turn.key.hash }
        requires is_open { IsOpenTurn ⟦<C as CallView<K, V>>⟧.spec turn self.old }
        requires awaited { IsAwaitedBy ⟦<C as CallView<K, V>>⟧.spec turn waiting self.old }
        requires fits { Fits {V = V} C.Error turn.key.kind (Outcome.Failed (arc_value error)) }
        ensures { FinishesTurn ⟦<C as CallView<K, V>>⟧.spec turn (Outcome.Failed error) now self.old
            self.new result }
    {
        let Ok(end) = failed_end(&error, waiting) else {
            return Err(FinishRefused {
                turn,
                outcome: Outcome::Failed(error),
                cause: Refused::OutOfMemory,
            });
        };
        self.turns.finish(turn, end);
        self.latest = self.latest.max(now);
        Ok(Finished::Answer(Answer::Failed(error)))
    }

    /// Ends a turn with an outcome, which must fit the turn's kind, and returns the result.
    ///
    /// A value is stored as by [`State::insert`]. Its entry is fresh, and marked as replacing if a
    /// live value was stored just before the write. The outcome is saved for the waiting callers
    /// until each of them has collected it or left.
    ///
    /// A compute ends with an operation, and only its caller gets the result.
    ///
    /// - `Op::Put` stores a value in the same way. It replaces if the begin found a live value,
    ///   whatever became of that since.
    /// - `Op::Remove` removes the entry, as [`State::remove`].
    /// - `Op::Nop` returns the clone that was saved, if one was. It does not allocate.
    ///
    /// # Errors
    ///
    /// A failed call hands back the turn and the outcome.
    ///
    /// - `UnknownTurn`: the turn is no open turn of this cache.
    /// - `NumbersUsedUp`: a value is to be stored, and no sequence number is left.
    /// - `OutOfMemory`: an allocation or a clone failed. Only a value, an error or the removal of a
    ///   live value can cause it.
    ///
    /// # Complexity
    ///
    /// Costs a [`State::insert`], and two lookups in the table of turns.
    pub fn finish(
        &mut self,
        turn: Turn<K>,
        outcome: Outcome<V, Arc<C::Error>>,
        now: u64,
    ) -> Result<Finished<K, V, C::Error>, FinishRefused<K, V, C::Error>>
        requires fits { Fits C.Error turn.key.kind (outcome_of outcome) }
        requires kept { OutcomeKeeps (C.keeps (arc_value turn.key.key)) outcome }
        ensures { FinishesTurn ⟦<C as CallView<K, V>>⟧.spec turn outcome now self.old self.new
            result }
    {
        let (turn, hash, waiting) = match self.resume(turn) {
            Ok(found) => found,
            Err(turn) => {
                let cause = Refused::UnknownTurn;
                return Err(FinishRefused {
                    turn,
                    outcome,
                    cause,
                });
            }
        };
        match outcome {
            Outcome::Value(value) => self.finish_with(turn, hash, waiting, value, now),
            Outcome::Nothing => self.finish_without(turn, now),
            Outcome::Failed(error) => self.finish_failed(turn, waiting, error, now),
            Outcome::Op(op) => self.finish_op(turn, hash, op, now),
        }
    }
}
