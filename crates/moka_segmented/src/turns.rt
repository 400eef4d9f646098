//! Single flight by hand, each call in the segment of the turn's key: one caller computes a value,
//! others wait for the outcome.
ghost use Rattle.std.specs.Prelude.{◌≡◌, ◌≢◌, Option, true, IfOk, IfErr, IfSome, OnOk, OnErr};
ghost use Rattle.std.specs.Arc.{arc_value};
ghost use Rattle.moka_model.specs.Calls.{Abandon, BeginCompute, Collect, Finish, Leave};
ghost use Rattle.moka_turns.specs.Handles.{turn_name, ticket_name};
ghost use Rattle.moka_state.specs.Begin.{FoundKeeps, FoundKeepsFor, IsNamed, IsSaidOf};
ghost use Rattle.moka_state.specs.Compute.{IsCompute, ShownKeeps, ShownKeepsFor};
ghost use Rattle.moka_state.specs.Finish.{Fits, IsFinished, OutcomeKeeps, outcome_of};
ghost use Rattle.moka_state.specs.Given.{IfUnspent, of_begin_compute, of_collect, of_done, of_finish};
ghost use Rattle.moka_segmented.specs.Turns.{TakesLiveIn};
ghost use Rattle.moka_segmented.specs.Ends.{GivesAtIn, LoaderBeginsIn};

use crate::segment::Segmented;
use crate::segmented_view::{SegmentedCallView, SegmentedStateView};
use moka_model::turns::{Kind, Outcome};
use moka_policy::policy::{CacheTypes, Refused};
use moka_rows::rows::RowStore;
use moka_state::answers::{
    Begun, BegunCompute, CollectRefused, Collected, FinishRefused, Finished,
};
use moka_state::handles::{Ticket, Turn};
use moka_state::view::StateView;
use std::hash::Hash;
use std::sync::Arc;

impl<K: Hash + Drop, V: Clone, C: CacheTypes<K, V>, R: RowStore<K, V>> Segmented<K, V, C, R> {
    /// Begins a computation of the value for `key`, of this kind, in the key's segment.
    ///
    /// Looks the key up, as [`Segmented::get`] does. Returns `Found` with the live entry, unless
    /// `replace_if` returns true for its value. Otherwise returns `Wait` with a ticket if a turn of
    /// this key and kind is open. Else returns `Run` with a turn, which the caller has to end.
    ///
    /// The kind is not `Compute`.
    ///
    /// # Errors
    ///
    /// - `OutOfMemory`: an allocation or a clone failed.
    /// - `NumbersUsedUp`: no sequence number is left in the segment for a turn, or the open turn
    ///   has 2^64 - 1 unspent tickets.
    ///
    /// # Complexity
    ///
    /// That of the begin of the segment's state. Hashes the key once more.
    pub fn begin<F: FnMut(&V) -> bool + Drop>(
        &mut self,
        key: &Arc<K>,
        kind: Kind,
        replace_if: Option<F>,
        now: u64,
    ) -> Result<Begun<K, V>, Refused>
        requires initializer { kind ≢ Kind.Compute }
        requires asks { IfSome replace_if (TakesLiveIn K.eq C.keeps
            ⟦<C as StateView<K, V>>⟧.settings F.FnMut (arc_value key.now) now self.old) }
        ensures begins { LoaderBeginsIn ⟦<C as SegmentedCallView<K, V>>⟧.spec
            (IsSaidOf F.FnMut replace_if) (arc_value key.now) kind now true self.old self.new
            result }
        ensures refused { OnErr result (self.new ≡ self.old) }
        ensures named { IfOk result (IsNamed kind (arc_value key.now)) }
        ensures kept { IfOk result (FoundKeeps C.keeps) }
        ensures kept_for { IfOk result (FoundKeepsFor C.keeps (arc_value key.now)) }
        ensures settings { self.new.settings ≡ self.old.settings }
    {
        let place = self.place_of(&**key);
        self.segments[place.index].begin(key, kind, replace_if, now)
    }

    /// Begins a compute of `key`, in its segment.
    ///
    /// If another compute of the key is open, returns `Wait` with a ticket, and records only the
    /// moment. Otherwise looks the key up, as by [`Segmented::get`], and returns `Run` with a turn
    /// and the live entry, if there is one. With `keep`, the cache keeps a second clone of that
    /// value.
    ///
    /// # Errors
    ///
    /// - `OutOfMemory`: an allocation or a clone failed.
    /// - `NumbersUsedUp`: no sequence number is left in the segment for a turn, or the open turn
    ///   has 2^64 - 1 unspent tickets.
    ///
    /// # Complexity
    ///
    /// That of the begin of the segment's state. Hashes the key once more.
    pub fn begin_compute(
        &mut self,
        key: &Arc<K>,
        keep: bool,
        now: u64,
    ) -> Result<BegunCompute<K, V>, Refused>
        ensures reply { GivesAtIn ⟦<C as SegmentedCallView<K, V>>⟧.spec self.old
            (BeginCompute (arc_value key.now) keep now) (of_begin_compute result) }
        ensures stands { OnOk result (⟦<C as SegmentedStateView<K, V>>⟧.follows_in self.old
            (BeginCompute (arc_value key.now) keep now) self.new) }
        ensures refused { OnErr result (self.new ≡ self.old) }
        ensures named { IfOk result (IsCompute (arc_value key.now)) }
        ensures kept { IfOk result (ShownKeeps C.keeps) }
        ensures kept_for { IfOk result (ShownKeepsFor C.keeps (arc_value key.now)) }
        ensures settings { self.new.settings ≡ self.old.settings }
    {
        let place = self.place_of(&**key);
        self.segments[place.index].begin_compute(key, keep, now)
    }

    /// Ends a turn with an outcome, in the segment of its key.
    ///
    /// A value is written as by [`Segmented::insert`]. Its entry is fresh, and marked as replacing
    /// if a value was live just before the write. The outcome is kept until each waiting caller has
    /// collected it or left. Only the caller of a compute gets what became of the value.
    ///
    /// The outcome has to fit the turn's kind. Allocates only for a value, an error, or the removal
    /// of a live value.
    ///
    /// # Errors
    ///
    /// Hands back the turn and the outcome.
    ///
    /// - `UnknownTurn`: it is no open turn of this cache.
    /// - `NumbersUsedUp`: a value is to be written and no sequence number is left in the segment.
    /// - `OutOfMemory`: an allocation or a clone failed.
    ///
    /// # Complexity
    ///
    /// That of the finish of the segment's state. Hashes the key once more.
    pub fn finish(
        &mut self,
        turn: Turn<K>,
        outcome: Outcome<V, Arc<C::Error>>,
        now: u64,
    ) -> Result<Finished<K, V, C::Error>, FinishRefused<K, V, C::Error>>
        requires fits { Fits C.Error turn.key.kind (outcome_of outcome) }
        requires kept { OutcomeKeeps (C.keeps (arc_value turn.key.key)) outcome }
        ensures reply { GivesAtIn ⟦<C as SegmentedCallView<K, V>>⟧.spec self.old
            (Finish (turn_name turn) (outcome_of outcome) now) (of_finish result) }
        ensures stands { OnOk result (⟦<C as SegmentedStateView<K, V>>⟧.follows_in self.old
            (Finish (turn_name turn) (outcome_of outcome) now) self.new) }
        ensures given { IfOk result
            (IsFinished V.is_clone (arc_value turn.key.key) outcome) }
        ensures refused { OnErr result (self.new ≡ self.old) }
        ensures turn_back { IfErr result (λ refused. turn_name refused.turn ≡ turn_name turn) }
        ensures outcome_back { IfErr result (λ refused. refused.outcome ≡ outcome) }
        ensures settings { self.new.settings ≡ self.old.settings }
    {
        let place = self.place_of(turn.key());
        self.segments[place.index].finish(turn, outcome, now)
    }

    /// Ends a turn without an outcome, in the segment of its key: the callers that wait for it find
    /// that it was abandoned. Spends the turn in any case. Does not allocate.
    ///
    /// # Errors
    ///
    /// - `UnknownTurn`: it is no open turn of this cache.
    ///
    /// # Complexity
    ///
    /// Hashes the key, and costs the call of its segment.
    pub fn abandon(&mut self, turn: Turn<K>) -> Result<(), Refused>
        ensures reply { GivesAtIn ⟦<C as SegmentedCallView<K, V>>⟧.spec self.old
            (Abandon (turn_name turn)) (of_done result) }
        ensures stands { OnOk result (⟦<C as SegmentedStateView<K, V>>⟧.follows_in self.old
            (Abandon (turn_name turn)) self.new) }
        ensures refused { OnErr result (self.new ≡ self.old) }
        ensures cause { IfErr result (λ cause. cause ≡ Refused.UnknownTurn) }
        ensures settings { self.new.settings ≡ self.old.settings }
    {
        let place = self.place_of(turn.key());
        self.segments[place.index].abandon(turn)
    }

    /// Returns what came of a ticket's turn, in the segment of its key.
    ///
    /// If the turn has ended, spends the ticket and returns a clone of the outcome. If the turn is
    /// open, returns the ticket.
    ///
    /// # Errors
    ///
    /// Hands back the ticket, unspent.
    ///
    /// - `UnknownTicket`: no turn of this cache has the ticket's name and an unspent ticket.
    /// - `OutOfMemory`: cloning the value or sharing the error failed.
    ///
    /// # Complexity
    ///
    /// Hashes the key, and costs the call of its segment.
    pub fn collect(
        &mut self,
        ticket: Ticket<K>,
    ) -> Result<Collected<K, V, C::Error>, CollectRefused<K>>
        ensures reply { GivesAtIn ⟦<C as SegmentedCallView<K, V>>⟧.spec self.old
            (Collect (ticket_name ticket)) (of_collect result) }
        ensures stands { OnOk result (⟦<C as SegmentedStateView<K, V>>⟧.follows_in self.old
            (Collect (ticket_name ticket)) self.new) }
        ensures unspent { IfOk result
            (IfUnspent (λ same. ticket_name same ≡ ticket_name ticket)) }
        ensures refused { OnErr result (self.new ≡ self.old) }
        ensures handed_back { IfErr result (λ refused.
            ticket_name refused.ticket ≡ ticket_name ticket) }
        ensures settings { self.new.settings ≡ self.old.settings }
    {
        let place = self.place_of(ticket.key());
        self.segments[place.index].collect(ticket)
    }

    /// Spends a ticket and collects nothing, in the segment of its turn's key. The ticket is spent
    /// in any case. Does not allocate.
    ///
    /// # Errors
    ///
    /// - `UnknownTicket`: no turn of this cache has the ticket's name and an unspent ticket.
    ///
    /// # Complexity
    ///
    /// Hashes the key, and costs the call of its segment.
    pub fn leave(&mut self, ticket: Ticket<K>) -> Result<(), Refused>
        ensures reply { GivesAtIn ⟦<C as SegmentedCallView<K, V>>⟧.spec self.old
            (Leave (ticket_name ticket)) (of_done result) }
        ensures stands { OnOk result (⟦<C as SegmentedStateView<K, V>>⟧.follows_in self.old
            (Leave (ticket_name ticket)) self.new) }
        ensures refused { OnErr result (self.new ≡ self.old) }
        ensures cause { IfErr result (λ cause. cause ≡ Refused.UnknownTicket) }
        ensures settings { self.new.settings ≡ self.old.settings }
    {
        let place = self.place_of(ticket.key());
        self.segments[place.index].leave(ticket)
    }
}
