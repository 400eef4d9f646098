//! The calls of turns under the lock of a shared cache, and those that return entries. Each fails
//! as the state's call does, and then changes nothing.
ghost use Rattle.std.specs.Prelude.{◌≡◌, ◌≢◌, ℕ, Bool, Option, true, IfOk, IfErr, IfSome, OnOk, OnErr};
ghost use Rattle.std.specs.Arc.{arc_value};
ghost use Rattle.moka_model.specs.Calls.{Abandon, Collect, Leave};
ghost use Rattle.moka_turns.specs.Handles.{turn_name, ticket_name};
ghost use Rattle.moka_state.specs.Begin.{EntryKeeps, FoundKeeps, FoundKeepsFor, IsAsked, IsNamed, IsSaidOf, IsShownKept, TakesLive};
ghost use Rattle.moka_state.specs.Compute.{IsCompute, ShownKeepsFor};
ghost use Rattle.moka_state.specs.Finish.{Fits, OutcomeKeeps, outcome_of};
ghost use Rattle.moka_state.specs.Given.{IfUnspent, of_collect, of_done};
ghost use Rattle.moka_state.specs.Hashes.{IsHashOf};
ghost use Rattle.moka_state.specs.OrInsert.{of_or_default, of_or_insert};
ghost use Rattle.moka_guarded.specs.Guarded.{AtClockMoment};
ghost use Rattle.moka_guarded.specs.Kept.{CollectedFits, CollectedKeeps, FinishedKeeps};
ghost use Rattle.moka_state.specs.Ends.{BeginsCompute, FinishesTurn, GivesAt, LoaderBegins, LoaderBeginsAs, LoaderBeginsByRef, Looks, Misses, OrInserts};

use crate::guarded::GuardedState;
use moka_model::entry::Entry;
use moka_model::turns::{Kind, Outcome};
use moka_policy::policy::{CacheTypes, Clock, Refused};
use moka_state::answers::{
    Begun, BegunCompute, CollectRefused, Collected, FinishRefused, Finished,
};
use moka_state::call_view::CallView;
use moka_state::handles::{Ticket, Turn};
use moka_state::or_insert::OrInsertRefused;
use moka_state::view::StateView;
use std::hash::Hash;
use std::sync::Arc;

impl<K: Hash + Drop, V: Clone, C: CacheTypes<K, V>> GuardedState<K, V, C> {
    /// Returns the live entry of `key`. If there is none, inserts `value` and returns an entry with
    /// a clone of that value. A failed call hands back the value.
    pub fn or_insert(&mut self, key: &Arc<K>, value: V) -> Result<Entry<K, V>, OrInsertRefused<V>>
        requires { C.keeps (arc_value key.now) value }
        ensures step { AtClockMoment (C.Clock.tells self.old.clock) (λ now.
            OrInserts ⟦<C as CallView<K, V>>⟧.spec of_or_insert (arc_value key.now) value now
            self.old.state self.new.state result) }
        ensures kept { IfOk result (EntryKeeps C.keeps (arc_value key.now)) }
        ensures value_back { IfErr result (λ refused. refused.value ≡ value) }
    {
        let now = self.clock.now();
        self.state.or_insert(key, value, now)
    }

    /// Returns the live entry of `key`, unless `replace_if` returns true for its value. This is the
    /// lookup of a begin: a hit counts as an access, a miss changes nothing.
    pub fn find_acceptable<F: FnMut(&V) -> bool + Drop>(
        &mut self,
        key: &K,
        replace_if: Option<F>,
    ) -> Result<Option<Entry<K, V>>, Refused>
        requires asks { (now : ℕ) → IfSome replace_if (TakesLive K.eq C.keeps
            ⟦<C as StateView<K, V>>⟧.settings F.FnMut key.now now self.old.state) }
        ensures step { AtClockMoment (C.Clock.tells self.old.clock) (λ now.
            Looks ⟦<C as CallView<K, V>>⟧.spec (IsSaidOf F.FnMut replace_if) key.now now
            self.old.state self.new.state result) }
        ensures kept { IfOk result (λ found. IfSome found (EntryKeeps C.keeps key.now)) }
    {
        let now = self.clock.now();
        let hash = self.hash(key);
        self.find_acceptable_with_hash(key, hash, replace_if, now)
    }

    /// Does what `find_acceptable` does, at a moment that the caller has read, and given the key's
    /// hash, as [`GuardedState::hash`] returns it. The key is not hashed again.
    pub fn find_acceptable_with_hash<F: FnMut(&V) -> bool + Drop>(
        &mut self,
        key: &K,
        hash: u64,
        replace_if: Option<F>,
        now: u64,
    ) -> Result<Option<Entry<K, V>>, Refused>
        requires hash { IsHashOf (⟦<C as StateView<K, V>>⟧.settings self.old.state.settings)
            key.now hash }
        requires asks { IfSome replace_if (TakesLive K.eq C.keeps
            ⟦<C as StateView<K, V>>⟧.settings F.FnMut key.now now self.old.state) }
        ensures step { Looks ⟦<C as CallView<K, V>>⟧.spec (IsSaidOf F.FnMut replace_if) key.now now
            self.old.state self.new.state result }
        ensures kept { IfOk result (λ found. IfSome found (EntryKeeps C.keeps key.now)) }
    {
        self.state.acceptable_entry(key, hash, replace_if, now)
    }

    /// Returns a ticket if a turn of the key and the kind is open, else a new turn. Neither hashes
    /// the key nor looks it up: a lookup at this moment has just found no acceptable value.
    pub fn begin_missed(
        &mut self,
        key: Arc<K>,
        hash: u64,
        kind: Kind,
        now: u64,
    ) -> Result<Begun<K, V>, Refused>
        requires hash { IsHashOf (⟦<C as StateView<K, V>>⟧.settings self.old.state.settings)
            (arc_value key) hash }
        requires initializer { kind ≢ Kind.Compute }
        requires missed { (said : Option Bool) × Misses ⟦<C as CallView<K, V>>⟧.spec
            self.old.state said (arc_value key) now }
        ensures step { (said : Option Bool) → Misses ⟦<C as CallView<K, V>>⟧.spec self.old.state
            said (arc_value key) now → LoaderBeginsAs ⟦<C as CallView<K, V>>⟧.spec said
            (arc_value key) kind now true self.old.state self.new.state result }
        ensures named { IfOk result (IsNamed kind (arc_value key)) }
        ensures kept { IfOk result (FoundKeeps C.keeps) }
        ensures kept_for { IfOk result (FoundKeepsFor C.keeps (arc_value key)) }
    {
        self.state.begin_turn(key, hash, kind, now, true)
    }

    /// Returns the live entry of `key` if it is acceptable. Otherwise returns a ticket if a turn of
    /// the key and the kind is open, else a new turn. Leaves `replace_if` to the caller.
    pub fn begin<F: FnMut(&V) -> bool + Drop>(
        &mut self,
        key: &Arc<K>,
        kind: Kind,
        replace_if: &mut Option<F>,
    ) -> Result<Begun<K, V>, Refused>
        requires initializer { kind ≢ Kind.Compute }
        requires asks { (now : ℕ) → IfSome replace_if.old (TakesLive K.eq C.keeps
            ⟦<C as StateView<K, V>>⟧.settings F.FnMut (arc_value key.now) now self.old.state) }
        ensures step { AtClockMoment (C.Clock.tells self.old.clock) (λ now.
            LoaderBegins ⟦<C as CallView<K, V>>⟧.spec (IsSaidOf F.FnMut replace_if.old)
            (arc_value key.now) kind now true self.old.state self.new.state result) }
        ensures named { IfOk result (IsNamed kind (arc_value key.now)) }
        ensures kept { IfOk result (FoundKeeps C.keeps) }
        ensures kept_for { IfOk result (FoundKeepsFor C.keeps (arc_value key.now)) }
        ensures left { IsShownKept (C.keeps (arc_value key.now)) F.FnMut
            replace_if.old replace_if.new }
    {
        let now = self.clock.now();
        self.begin_at(key, kind, replace_if, now)
    }

    /// Does what `begin` does, at a moment that the caller has read.
    pub fn begin_at<F: FnMut(&V) -> bool + Drop>(
        &mut self,
        key: &Arc<K>,
        kind: Kind,
        replace_if: &mut Option<F>,
        now: u64,
    ) -> Result<Begun<K, V>, Refused>
        requires initializer { kind ≢ Kind.Compute }
        requires asks { IfSome replace_if.old (TakesLive K.eq C.keeps
            ⟦<C as StateView<K, V>>⟧.settings F.FnMut (arc_value key.now) now self.old.state) }
        ensures step { LoaderBegins ⟦<C as CallView<K, V>>⟧.spec (IsSaidOf F.FnMut replace_if.old)
            (arc_value key.now) kind now true self.old.state self.new.state result }
        ensures named { IfOk result (IsNamed kind (arc_value key.now)) }
        ensures kept { IfOk result (FoundKeeps C.keeps) }
        ensures kept_for { IfOk result (FoundKeepsFor C.keeps (arc_value key.now)) }
        ensures left { IsShownKept (C.keeps (arc_value key.now)) F.FnMut
            replace_if.old replace_if.new }
    {
        self.state.begin_reusing(key, kind, replace_if, now)
    }

    /// Begins a compute of `key`: returns a turn, or a ticket if another compute of the key is
    /// open.
    pub fn begin_compute(&mut self, key: &Arc<K>, keep: bool) -> Result<BegunCompute<K, V>, Refused>
        ensures step { AtClockMoment (C.Clock.tells self.old.clock) (λ now.
            BeginsCompute ⟦<C as CallView<K, V>>⟧.spec (arc_value key.now) keep now self.old.state
            self.new.state result) }
        ensures named { IfOk result (IsCompute (arc_value key.now)) }
        ensures kept { IfOk result (ShownKeepsFor C.keeps (arc_value key.now)) }
    {
        let now = self.clock.now();
        self.state.begin_compute(key, keep, now)
    }

    /// Ends a turn with an outcome. A failed call hands back the turn and the outcome.
    pub fn finish(
        &mut self,
        turn: Turn<K>,
        outcome: Outcome<V, Arc<C::Error>>,
    ) -> Result<Finished<K, V, C::Error>, FinishRefused<K, V, C::Error>>
        requires fits { Fits C.Error turn.key.kind (outcome_of outcome) }
        requires kept { OutcomeKeeps (C.keeps (arc_value turn.key.key)) outcome }
        ensures step { AtClockMoment (C.Clock.tells self.old.clock) (λ now.
            FinishesTurn ⟦<C as CallView<K, V>>⟧.spec turn outcome now self.old.state self.new.state
            result) }
        ensures kept { IfOk result (FinishedKeeps C.keeps (arc_value turn.key.key)) }
    {
        let now = self.clock.now();
        self.state.finish(turn, outcome, now)
    }

    /// Ends a turn without an outcome. The turn is spent in any case.
    pub fn abandon(&mut self, turn: Turn<K>) -> Result<(), Refused>
        ensures reply { GivesAt ⟦<C as CallView<K, V>>⟧.spec self.old.state
            (Abandon (turn_name turn)) (of_done result) }
        ensures step { OnOk result (⟦<C as StateView<K, V>>⟧.follows self.old.state
            (Abandon (turn_name turn)) self.new.state) }
        ensures refused { OnErr result (self.new.state ≡ self.old.state) }
        ensures cause { IfErr result (λ cause. cause ≡ Refused.UnknownTurn) }
    {
        self.state.abandon(turn)
    }

    /// Spends a ticket and collects nothing. The ticket is spent in any case.
    pub fn leave(&mut self, ticket: Ticket<K>) -> Result<(), Refused>
        ensures reply { GivesAt ⟦<C as CallView<K, V>>⟧.spec self.old.state
            (Leave (ticket_name ticket)) (of_done result) }
        ensures step { OnOk result (⟦<C as StateView<K, V>>⟧.follows self.old.state
            (Leave (ticket_name ticket)) self.new.state) }
        ensures refused { OnErr result (self.new.state ≡ self.old.state) }
        ensures cause { IfErr result (λ cause. cause ≡ Refused.UnknownTicket) }
    {
        self.state.leave(ticket)
    }

    /// Returns what came of a ticket's turn, or the ticket if the turn is open. A failed call hands
    /// back the ticket.
    pub fn collect(
        &mut self,
        ticket: Ticket<K>,
    ) -> Result<Collected<K, V, C::Error>, CollectRefused<K>>
        ensures reply { GivesAt ⟦<C as CallView<K, V>>⟧.spec self.old.state
            (Collect (ticket_name ticket)) (of_collect result) }
        ensures step { OnOk result (⟦<C as StateView<K, V>>⟧.follows self.old.state
            (Collect (ticket_name ticket)) self.new.state) }
        ensures unspent { IfOk result
            (IfUnspent (λ same. ticket_name same ≡ ticket_name ticket)) }
        ensures kept { IfOk result (CollectedKeeps C.keeps (arc_value ticket.key.key)) }
        ensures fits { IfOk result (CollectedFits ticket.key.kind) }
        ensures refused { OnErr result (self.new.state ≡ self.old.state) }
        ensures handed_back { IfErr result (λ refused.
            ticket_name refused.ticket ≡ ticket_name ticket) }
    {
        self.state.collect(ticket)
    }
}

impl<K: Hash + Clone + Drop, V: Clone, C: CacheTypes<K, V>> GuardedState<K, V, C> {
    /// Does what [`GuardedState::begin`] does, for a key by reference.
    pub fn begin_by_ref<F: FnMut(&V) -> bool + Drop>(
        &mut self,
        key: &K,
        kind: Kind,
        replace_if: Option<F>,
    ) -> Result<Begun<K, V>, Refused>
        requires copies { (a b : K) → K.is_clone a b → K.eq a b ≡ true }
        requires initializer { kind ≢ Kind.Compute }
        requires asks { (now : ℕ) → IfSome replace_if (TakesLive K.eq C.keeps
            ⟦<C as StateView<K, V>>⟧.settings F.FnMut key.now now self.old.state) }
        ensures step { AtClockMoment (C.Clock.tells self.old.clock) (λ now.
            LoaderBeginsByRef ⟦<C as CallView<K, V>>⟧.spec (IsAsked K.eq K.is_clone key.now)
            (IsSaidOf F.FnMut replace_if) kind now true self.old.state self.new.state result) }
        ensures kept { IfOk result (FoundKeeps C.keeps) }
        ensures kept_for { IfOk result (FoundKeepsFor C.keeps key.now) }
    {
        let now = self.clock.now();
        self.state.begin_by_ref(key, kind, replace_if, now)
    }
}

impl<K: Hash + Drop, V: Clone + Default, C: CacheTypes<K, V>> GuardedState<K, V, C> {
    /// Does what [`GuardedState::or_insert`] does, with the default value. A failed call drops the key.
    pub fn or_default(&mut self, key: K) -> Result<Entry<K, V>, Refused>
        requires { (value : V) → V.is_default value → C.keeps key value }
        ensures step { AtClockMoment (C.Clock.tells self.old.clock) (λ now. (value : V)
            × V.is_default value × OrInserts ⟦<C as CallView<K, V>>⟧.spec of_or_default key value
            now self.old.state self.new.state result) }
        ensures kept { IfOk result (EntryKeeps C.keeps key) }
    {
        let now = self.clock.now();
        self.state.or_default(key, now)
    }
}
