//! Single flight by hand on a shared cache: one caller computes the value of a key, others wait for
//! the outcome.
ghost use Rattle.std.specs.Prelude.{◌≡◌, ◌≢◌, true, IfOk, IfErr, IfSome};
ghost use Rattle.std.specs.Arc.{arc_value};
ghost use Rattle.moka_turns.specs.Handles.{turn_name, ticket_name};
ghost use Rattle.moka_state.specs.Begin.{FoundKeeps, FoundKeepsFor, IsAsked, IsNamed, TakesKept};
ghost use Rattle.moka_state.specs.Compute.{IsCompute, ShownKeepsFor};
ghost use Rattle.moka_state.specs.Finish.{Fits, IsFinished, OutcomeKeeps, outcome_of};
ghost use Rattle.moka_state.specs.Given.{IfUnspent};
ghost use Rattle.moka_guarded.specs.Kept.{CollectedFits, CollectedKeeps, FinishedKeeps};

use crate::cache::{Cache, release, unlock};
use moka_model::turns::{Kind, Outcome};
use moka_policy::policy::{CacheTypes, Refused};
use moka_state::answers::{
    Begun, BegunCompute, CollectRefused, Collected, FinishRefused, Finished,
};
use moka_state::handles::{Ticket, Turn};
use std::hash::Hash;
use std::sync::{Arc, Wait};

impl<K: Hash + Drop, V: Clone, C: CacheTypes<K, V>, W: Wait> Cache<K, V, C, W> {
    /// Begins a computation of the value for `key`, of this kind.
    ///
    /// Looks the key up, as [`Cache::get`] does. Returns `Found` with the live entry, unless
    /// `replace_if` returns true for its value. Otherwise returns `Wait` with a ticket if a turn of
    /// this key and kind is open. Else returns `Run` with a turn, which the caller has to end.
    /// `replace_if` runs under the lock, at most once. Never waits for a turn.
    ///
    /// The kind is not `Compute`. The prover asks that `replace_if` may be called once, at a value
    /// that satisfies `keeps` with `key`.
    ///
    /// # Errors
    ///
    /// - `OutOfMemory`: an allocation or a clone failed.
    /// - `NumbersUsedUp`: no sequence number is left, or the open turn has 2^64 - 1 unspent
    ///   tickets.
    pub fn begin<F: FnMut(&V) -> bool + Drop>(
        &self,
        key: &Arc<K>,
        kind: Kind,
        replace_if: Option<F>,
    ) -> Result<Begun<K, V>, Refused>
        requires initializer { kind ≢ Kind.Compute }
        requires asks { IfSome replace_if (TakesKept (C.keeps (arc_value key.now)) F.FnMut) }
        ensures named { IfOk result (IsNamed kind (arc_value key.now)) }
        ensures kept { IfOk result (FoundKeeps C.keeps) }
        ensures kept_for { IfOk result (FoundKeepsFor C.keeps (arc_value key.now)) }
    {
        let mut replace_if = replace_if;
        self.begin_reusing(key, kind, &mut replace_if)
    }

    /// Begins a compute of `key`.
    ///
    /// Returns `Wait` with a ticket if another compute of the key is open. Otherwise returns `Run`
    /// with a turn and the live entry, if there is one. With `keep`, the cache keeps a clone of the
    /// live value, which `Op::Nop` returns. Never waits for a turn.
    ///
    /// # Errors
    ///
    /// - `OutOfMemory`: an allocation or a clone failed.
    /// - `NumbersUsedUp`: no sequence number is left, or the open turn has 2^64 - 1 unspent
    ///   tickets.
    pub fn begin_compute(&self, key: &Arc<K>, keep: bool) -> Result<BegunCompute<K, V>, Refused>
        ensures named { IfOk result (IsCompute (arc_value key.now)) }
        ensures kept { IfOk result (ShownKeepsFor C.keeps (arc_value key.now)) }
    {
        let mut locked = self.lock();
        let begun = locked.begin_compute(key, keep);
        drop(unlock(locked));
        begun
    }

    /// Ends a turn with an outcome, and wakes the callers that wait for it. Stores a value as
    /// [`Cache::insert`] does. Calls the listener once the lock is released.
    ///
    /// Returns the entry, nothing or the error, or the result of the compute. The outcome has to
    /// fit the turn's kind. A value that is written has to satisfy `keeps` with the turn's key. So
    /// does every value that is returned.
    ///
    /// # Errors
    ///
    /// Hands back the turn and the outcome.
    ///
    /// - `UnknownTurn`: it is no open turn of this cache.
    /// - `NumbersUsedUp`: no sequence number is left for the write.
    /// - `OutOfMemory`: an allocation or a clone failed.
    pub fn finish(
        &self,
        turn: Turn<K>,
        outcome: Outcome<V, Arc<C::Error>>,
    ) -> Result<Finished<K, V, C::Error>, FinishRefused<K, V, C::Error>>
        requires fits { Fits C.Error turn.key.kind (outcome_of outcome) }
        requires kept { OutcomeKeeps (C.keeps (arc_value turn.key.key)) outcome }
        ensures given { IfOk result
            (IsFinished V.is_clone (arc_value turn.key.key) outcome) }
        ensures kept { IfOk result (FinishedKeeps C.keeps (arc_value turn.key.key)) }
        ensures turn_back { IfErr result (λ refused. turn_name refused.turn ≡ turn_name turn) }
        ensures outcome_back { IfErr result (λ refused. refused.outcome ≡ outcome) }
    {
        let mut locked = self.lock();
        let done = locked.finish(turn, outcome);
        let rest = release(locked, done.is_ok());
        self.inner.ended.notify_all();
        self.settle(rest);
        done
    }

    /// Ends a turn without an outcome, and wakes the callers that wait for it: their `collect`
    /// returns `Abandoned`. Spends the turn in any case. Does not allocate.
    ///
    /// # Errors
    ///
    /// - `UnknownTurn`: it is no open turn of this cache.
    pub fn abandon(&self, turn: Turn<K>) -> Result<(), Refused>
        ensures cause { IfErr result (λ cause. cause ≡ Refused.UnknownTurn) }
    {
        let mut locked = self.lock();
        let done = locked.abandon(turn);
        let discarded = unlock(locked);
        self.inner.ended.notify_all();
        drop(discarded);
        done
    }

    /// Spends a ticket and collects nothing. The ticket is spent in any case. Does not allocate.
    ///
    /// # Errors
    ///
    /// - `UnknownTicket`: no turn of this cache has the ticket's name and an unspent ticket.
    pub fn leave(&self, ticket: Ticket<K>) -> Result<(), Refused>
        ensures cause { IfErr result (λ cause. cause ≡ Refused.UnknownTicket) }
    {
        let mut locked = self.lock();
        let done = locked.leave(ticket);
        drop(unlock(locked));
        done
    }

    /// Returns what came of a ticket's turn. Never waits for a turn.
    ///
    /// If the turn has ended, spends the ticket and returns a clone of the outcome. Its value
    /// satisfies `keeps` with the ticket's key. If the turn is open, returns the ticket.
    ///
    /// # Errors
    ///
    /// Hands back the ticket.
    ///
    /// - `UnknownTicket`: no turn of this cache has the ticket's name and an unspent ticket.
    /// - `OutOfMemory`: cloning the value or sharing the error failed.
    pub fn collect(&self, ticket: Ticket<K>) -> Result<Collected<K, V, C::Error>, CollectRefused<K>>
        ensures unspent { IfOk result
            (IfUnspent (λ same. ticket_name same ≡ ticket_name ticket)) }
        ensures kept { IfOk result (CollectedKeeps C.keeps (arc_value ticket.key.key)) }
        ensures fits { IfOk result (CollectedFits ticket.key.kind) }
        ensures handed_back { IfErr result (λ refused.
            ticket_name refused.ticket ≡ ticket_name ticket) }
    {
        let mut locked = self.lock();
        let collected = locked.collect(ticket);
        drop(unlock(locked));
        collected
    }
}

impl<K: Hash + Clone + Drop, V: Clone, C: CacheTypes<K, V>, W: Wait> Cache<K, V, C, W> {
    /// Does what [`Cache::begin`] does, for a key by reference. Clones the key if no acceptable
    /// value is live. The turn or the ticket is of this kind, and its key equals `key`.
    ///
    /// The prover asks that a clone of a key equals it.
    ///
    /// # Errors
    ///
    /// As [`Cache::begin`].
    pub fn begin_by_ref<F: FnMut(&V) -> bool + Drop>(
        &self,
        key: &K,
        kind: Kind,
        replace_if: Option<F>,
    ) -> Result<Begun<K, V>, Refused>
        requires copies { (a b : K) → K.is_clone a b → K.eq a b ≡ true }
        requires initializer { kind ≢ Kind.Compute }
        requires asks { IfSome replace_if (TakesKept (C.keeps key.now) F.FnMut) }
        ensures named { (asked : K) × IsAsked K.eq K.is_clone key.now asked
            × IfOk result (IsNamed kind asked) }
        ensures kept { IfOk result (FoundKeeps C.keeps) }
        ensures kept_for { IfOk result (FoundKeepsFor C.keeps key.now) }
    {
        let mut replace_if = replace_if;
        let mut locked = self.lock();
        let begun = locked.begin_by_ref(key, kind, replace_if.as_mut());
        drop(unlock(locked));
        begun
    }
}
