//! Computes: one caller reads the live value of a key, and decides what is done with it.
ghost use Rattle.std.specs.Prelude.{◌≡◌, true, Some, None, if◌then◌else◌, IfOk};
ghost use Rattle.std.specs.Arc.{arc_value};
ghost use Rattle.moka_model.specs.Calls.{IsCopyOf};
ghost use Rattle.moka_table.specs.Table.{entries};
ghost use Rattle.moka_state.specs.Compute.{IfWaits, IsCompute, IsLeft, IsPut, IsRemoved, IsShown, ShownKeeps, ShownKeepsFor};
ghost use Rattle.moka_state.specs.Finish.{Fits, OutcomeKeeps};
ghost use Rattle.moka_state.specs.Hashes.{IsHashOf};
ghost use Rattle.moka_state.specs.Ends.{BeginsCompute, BeginsComputeAtOnce, FinishesTurn, IsOpenTurn};

use crate::answers::{BegunCompute, FinishRefused, Finished};
use crate::call_view::CallView;
use crate::state::State;
use moka_deferred::deferred::Deferred;
use moka_expiration::live_value::copy_of_live;
use moka_expiration::view::StateView;
use moka_model::comp_result::CompResult;
use moka_model::entry::Entry;
use moka_model::notification::RemovalCause;
use moka_model::turns::{Kind, Op, Outcome};
use moka_policy::policy::{CacheTypes, FrequencySource, Refused};
use moka_rows::rows::{RowId, RowStore};
use moka_table::table::Table;
use moka_turns::handles::Turn;
use moka_turns::turn_key::TurnKey;
use std::alloc::AllocError;
use std::hash::Hash;
use std::sync::Arc;

// What the begin of a compute finds live: the row's number, the entry for the caller, and the clone
// that is saved, if any.
#[derive(Drop)]
struct Shown<K, V> {
    number: RowId,
    entry: Entry<K, V>,
    saved: Option<V>,
}

// Clones a value if `keep` is true.
pub(crate) fn clone_if<V: Clone>(value: &V, keep: bool) -> Result<Option<V>, AllocError>
    ensures { IfOk result (IsCopyOf V.is_clone (if keep then Some value.now else None)) }
{
    if !keep {
        return Ok(None);
    }
    match value.clone() {
        Ok(copy) => Ok(Some(copy)),
        Err(refused) => Err(refused),
    }
}

// Finds what is live for a key at a moment, with a clone to save if `keep` is true. Can fail
// only if a value is live. Discards the entry if the clone fails.
fn find_live<K: Eq + Drop, V: Clone, R: RowStore<K, V>>(
    table: &Table<K, V, R>,
    key: &K,
    hash: u64,
    keep: bool,
    now: u64,
    discards: &mut Deferred<Entry<K, V>>,
) -> Result<Option<Shown<K, V>>, AllocError>
    ensures { IfOk result
        (IsShown K.eq V.is_clone keep key.now hash now (entries table.now)) }
{
    let Some(number) = table.find_live(key, hash, now) else {
        return Ok(None);
    };
    let entry = table.entry(number)?;
    match clone_if(table.row(number).value, keep) {
        Ok(saved) => Ok(Some(Shown {
            number,
            entry,
            saved,
        })),
        Err(refused) => {
            discards.discard(entry);
            Err(refused)
        }
    }
}

// Makes the result of a compute that does nothing.
fn unchanged_result<K, V>(key: Arc<K>, saved: Option<V>) -> CompResult<K, V>
    ensures { IsLeft (arc_value key) saved result }
{
    match saved {
        Some(value) => CompResult::Unchanged(Entry::new(key, value, false, false)),
        None => CompResult::StillNone(key),
    }
}

// Makes the result of a compute that removes the entry.
fn removed_result<K, V>(key: Arc<K>, found: Option<V>) -> CompResult<K, V>
    ensures { IsRemoved (arc_value key) found result }
{
    match found {
        Some(value) => CompResult::Removed(Entry::new(key, value, false, false)),
        None => CompResult::StillNone(key),
    }
}

// Makes the result of a compute that stores a value, by whether its begin found a live one.
fn put_result<K, V>(key: Arc<K>, value: V, was_shown: bool) -> CompResult<K, V>
    ensures { IsPut (arc_value key) value was_shown result }
{
    if was_shown {
        return CompResult::ReplacedWith(Entry::new(key, value, true, true));
    }
    CompResult::Inserted(Entry::new(key, value, true, false))
}

// Makes the error of a failed finish.
fn refusal<K, V, E>(turn: Turn<K>, op: Op<V>, cause: Refused) -> FinishRefused<K, V, E>
    ensures { result ≡ record { turn = turn; outcome = Outcome.Op op; cause = cause } }
{
    FinishRefused {
        turn,
        outcome: Outcome::Op(op),
        cause,
    }
}

impl<K: Hash + Drop, V: Clone, C: CacheTypes<K, V>, R: RowStore<K, V>> State<K, V, C, R> {
    /// Begins a compute of `key`.
    ///
    /// - If another compute of the key is open, returns a ticket for it. Only the moment is
    ///   recorded then.
    /// - Else opens a turn, which the caller has to end. Returns it with the live entry, if there
    ///   is one. This is a recorded lookup, as [`State::get`].
    ///
    /// With `keep`, a second clone of the live value is saved. A finish with [`Op::Nop`]
    /// returns it.
    ///
    /// # Errors
    ///
    /// - `NumbersUsedUp`: a turn would be opened, and no sequence number is left. Or the open turn
    ///   already has 2⁶⁴ - 1 unspent tickets.
    /// - `OutOfMemory`: an allocation or a clone failed.
    ///
    /// # Complexity
    ///
    /// Costs a [`State::get`], two shares of the key, a clone with `keep`, and two lookups in the
    /// table of turns.
    pub fn begin_compute(
        &mut self,
        key: &Arc<K>,
        keep: bool,
        now: u64,
    ) -> Result<BegunCompute<K, V>, Refused>
        ensures begins { BeginsCompute ⟦<C as CallView<K, V>>⟧.spec (arc_value key.now) keep now
            self.old self.new result }
        ensures named { IfOk result (IsCompute (arc_value key.now)) }
        ensures kept { IfOk result (ShownKeeps C.keeps) }
        ensures kept_for { IfOk result (ShownKeepsFor C.keeps (arc_value key.now)) }
        ensures settings { self.new.settings ≡ self.old.settings }
    {
        let hash = self.hash(&**key);
        match key.clone() {
            Ok(shared) => self.begin_computing(shared, hash, keep, now, true),
            Err(_) => Err(Refused::OutOfMemory),
        }
    }

    // Waits for the open compute of a key, or opens one. Fails with `TurnIsOpen` if it would have
    // to wait and may not.
    pub(crate) fn begin_computing(
        &mut self,
        key: Arc<K>,
        hash: u64,
        keep: bool,
        now: u64,
        may_wait: bool,
    ) -> Result<BegunCompute<K, V>, Refused>
        requires hash { IsHashOf (⟦<C as StateView<K, V>>⟧.settings self.old.settings)
            (arc_value key) hash }
        ensures begins { BeginsComputeAtOnce ⟦<C as CallView<K, V>>⟧.spec (arc_value key) keep now
            may_wait self.old self.new result }
        ensures named { IfOk result (IsCompute (arc_value key)) }
        ensures waits { IfOk result (IfWaits (may_wait ≡ true)) }
        ensures kept { IfOk result (ShownKeeps C.keeps) }
        ensures kept_for { IfOk result (ShownKeepsFor C.keeps (arc_value key)) }
        ensures settings { self.new.settings ≡ self.old.settings }
    {
        let kind = Kind::Compute;
        let wanted = TurnKey { hash, kind, key };
        let now = self.latest.max(now);
        if self.turns.is_awaitable(&wanted) {
            if !may_wait {
                return Err(Refused::TurnIsOpen);
            }
            let ticket = self.turns.wait_open(wanted)?;
            self.latest = now;
            return Ok(BegunCompute::Wait(ticket));
        }
        let next = self.next_number;
        if next == u64::MAX {
            return Err(Refused::NumbersUsedUp);
        }
        let entries = &mut self.discards.entry;
        let Ok(found) = find_live(&self.table, &*wanted.key, hash, keep, now, entries) else {
            return Err(Refused::OutOfMemory);
        };
        let Some(shown) = found else {
            let turn = self.turns.open_shown(wanted, next, false, None)?;
            self.housekeeper.source.note(hash);
            self.latest = now;
            self.next_number += 1;
            return Ok(BegunCompute::Run(turn, None));
        };
        let turn = match self.turns.open_shown(wanted, next, true, shown.saved) {
            Ok(turn) => turn,
            Err(cause) => {
                self.discards.entry.discard(shown.entry);
                return Err(cause);
            }
        };
        self.housekeeper
            .hit(&mut self.table, shown.number, hash, now, &self.behaviour);
        self.latest = now;
        self.next_number += 1;
        Ok(BegunCompute::Run(turn, Some(shown.entry)))
    }

    // Ends a compute with an operation.
    pub(crate) fn finish_op(
        &mut self,
        turn: Turn<K>,
        hash: u64,
        op: Op<V>,
        now: u64,
    ) -> Result<Finished<K, V, C::Error>, FinishRefused<K, V, C::Error>>
        requires hash { IsHashOf (⟦<C as StateView<K, V>>⟧.settings self.old.settings)
            (arc_value turn.key.key) turn.key.hash }
        requires found { hash ≡ turn.key.hash }
        requires is_open { IsOpenTurn ⟦<C as CallView<K, V>>⟧.spec turn self.old }
        requires fits { Fits C.Error turn.key.kind (Outcome.Op op) }
        requires kept { OutcomeKeeps {E = C.Error} (C.keeps (arc_value turn.key.key))
            (Outcome.Op op) }
        ensures { FinishesTurn ⟦<C as CallView<K, V>>⟧.spec turn (Outcome.Op op) now self.old
            self.new result }
    {
        match op {
            Op::Put(value) => self.finish_put(turn, hash, value, now),
            Op::Remove => self.finish_remove(turn, hash, now),
            Op::Nop => self.finish_nop(turn, now),
        }
    }

    // Ends a compute that does nothing.
    fn finish_nop(
        &mut self,
        turn: Turn<K>,
        now: u64,
    ) -> Result<Finished<K, V, C::Error>, FinishRefused<K, V, C::Error>>
        requires hash { IsHashOf (⟦<C as StateView<K, V>>⟧.settings self.old.settings)
            (arc_value turn.key.key) turn.key.hash }
        requires is_open { IsOpenTurn ⟦<C as CallView<K, V>>⟧.spec turn self.old }
        requires fits { Fits {V = V} C.Error turn.key.kind (Outcome.Op Op.Nop) }
        ensures { FinishesTurn ⟦<C as CallView<K, V>>⟧.spec turn (Outcome.Op Op.Nop) now self.old
            self.new result }
    {
        let (key, open) = self.turns.finish_computed(turn);
        self.latest = self.latest.max(now);
        Ok(Finished::Computed(unchanged_result(key, open.saved)))
    }

    // Ends a compute that removes the entry.
    fn finish_remove(
        &mut self,
        turn: Turn<K>,
        hash: u64,
        now: u64,
    ) -> Result<Finished<K, V, C::Error>, FinishRefused<K, V, C::Error>>
        requires hash { IsHashOf (⟦<C as StateView<K, V>>⟧.settings self.old.settings)
            (arc_value turn.key.key) turn.key.hash }
        requires found { hash ≡ turn.key.hash }
        requires is_open { IsOpenTurn ⟦<C as CallView<K, V>>⟧.spec turn self.old }
        requires fits { Fits {V = V} C.Error turn.key.kind (Outcome.Op Op.Remove) }
        ensures { FinishesTurn ⟦<C as CallView<K, V>>⟧.spec turn (Outcome.Op Op.Remove) now self.old
            self.new result }
    {
        let now = self.latest.max(now);
        let Some(number) = self.table.find(turn.key(), hash) else {
            let (key, open) = self.turns.finish_computed(turn);
            self.turns.discards.opened.discard(open);
            self.latest = now;
            return Ok(Finished::Computed(CompResult::StillNone(key)));
        };
        let row = self.table.row(number);
        let cause = row.info().cause(now, RemovalCause::Explicit);
        let Ok(found) = copy_of_live(row, now) else {
            return Err(refusal(turn, Op::Remove, Refused::OutOfMemory));
        };
        self.table.evict(number, cause);
        let (key, ended) = self.turns.finish_computed(turn);
        self.turns.discards.opened.discard(ended);
        self.latest = now;
        Ok(Finished::Computed(removed_result(key, found)))
    }

    // Ends a compute that puts a value. At a capacity of 0 the value is not stored.
    fn finish_put(
        &mut self,
        turn: Turn<K>,
        hash: u64,
        value: V,
        now: u64,
    ) -> Result<Finished<K, V, C::Error>, FinishRefused<K, V, C::Error>>
        requires hash { IsHashOf (⟦<C as StateView<K, V>>⟧.settings self.old.settings)
            (arc_value turn.key.key) turn.key.hash }
        requires found { hash ≡ turn.key.hash }
        requires is_open { IsOpenTurn ⟦<C as CallView<K, V>>⟧.spec turn self.old }
        requires fits { Fits C.Error turn.key.kind (Outcome.Op (Op.Put value)) }
        requires kept { C.keeps (arc_value turn.key.key) value }
        ensures { FinishesTurn ⟦<C as CallView<K, V>>⟧.spec turn (Outcome.Op (Op.Put value)) now
            self.old self.new result }
    {
        if self.wants_number() {
            return Err(refusal(turn, Op::Put(value), Refused::NumbersUsedUp));
        }
        let Ok(reply) = value.clone() else {
            return Err(refusal(turn, Op::Put(value), Refused::OutOfMemory));
        };
        match self.write_for(&turn, hash, value, now) {
            Ok(_) => {
                let (key, open) = self.turns.finish_computed(turn);
                let was_shown = open.shown;
                self.turns.discards.opened.discard(open);
                Ok(Finished::Computed(put_result(key, reply, was_shown)))
            }
            Err(value) => {
                self.discards.reply.discard(reply);
                Err(refusal(turn, Op::Put(value), Refused::OutOfMemory))
            }
        }
    }
}
