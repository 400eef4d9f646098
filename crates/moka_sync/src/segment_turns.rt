//! Single flight by hand on a shared cache of several segments, each call in the segment of its
//! key.
ghost use Rattle.std.specs.Prelude.{◌≡◌, ◌≢◌, true, IfOk, IfErr, IfSome};
ghost use Rattle.std.specs.Arc.{arc_value};
ghost use Rattle.moka_turns.specs.Handles.{turn_name, ticket_name};
ghost use Rattle.moka_state.specs.Begin.{FoundKeeps, FoundKeepsFor, IsAsked, IsNamed, TakesKept};
ghost use Rattle.moka_state.specs.Compute.{IsCompute, ShownKeepsFor};
ghost use Rattle.moka_state.specs.Finish.{Fits, IsFinished, OutcomeKeeps, outcome_of};
ghost use Rattle.moka_state.specs.Given.{IfUnspent};
ghost use Rattle.moka_guarded.specs.Kept.{CollectedFits, CollectedKeeps, FinishedKeeps};

use crate::segment::SegmentedCache;
use moka_model::turns::{Kind, Outcome};
use moka_policy::policy::{CacheTypes, Refused};
use moka_state::answers::{
    Begun, BegunCompute, CollectRefused, Collected, FinishRefused, Finished,
};
use moka_state::handles::{Ticket, Turn};
use std::hash::Hash;
use std::sync::{Arc, Wait};

impl<K: Hash + Drop, V: Clone, C: CacheTypes<K, V>, W: Wait> SegmentedCache<K, V, C, W> {
    /// Calls [`Cache::begin`](crate::cache::Cache::begin) on the segment of `key`.
    pub fn begin<F: FnMut(&V) -> bool + Drop>(
        &self,
        key: &Arc<K>,
        kind: Kind,
        replace_if: Option<F>,
    ) -> Result<Begun<K, V>, Refused>
        requires initializer { kind ≢ Kind.Compute }
        requires asks { IfSome replace_if (TakesKept (C.keeps (arc_value key.now)) F.FnMut) }
        ensures named { IfOk result (IsNamed kind (arc_value key.now)) }
        ensures kept { IfOk result (FoundKeeps C.keeps) }
        ensures kept_for { IfOk result (FoundKeepsFor C.keeps (arc_value key.now)) }
    {
        self.segment(&**key).begin(key, kind, replace_if)
    }

    /// Calls [`Cache::begin_compute`](crate::cache::Cache::begin_compute) on the segment of `key`.
    pub fn begin_compute(&self, key: &Arc<K>, keep: bool) -> Result<BegunCompute<K, V>, Refused>
        ensures named { IfOk result (IsCompute (arc_value key.now)) }
        ensures kept { IfOk result (ShownKeepsFor C.keeps (arc_value key.now)) }
    {
        self.segment(&**key).begin_compute(key, keep)
    }

    /// Calls [`Cache::finish`](crate::cache::Cache::finish) on the segment of the turn's key.
    pub fn finish(
        &self,
        turn: Turn<K>,
        outcome: Outcome<V, Arc<C::Error>>,
    ) -> Result<Finished<K, V, C::Error>, FinishRefused<K, V, C::Error>>
        requires fits { Fits C.Error turn.key.kind (outcome_of outcome) }
        requires kept { OutcomeKeeps (C.keeps (arc_value turn.key.key)) outcome }
        ensures given { IfOk result
            (IsFinished V.is_clone (arc_value turn.key.key) outcome) }
        ensures kept { IfOk result (FinishedKeeps C.keeps (arc_value turn.key.key)) }
        ensures turn_back { IfErr result (λ refused. turn_name refused.turn ≡ turn_name turn) }
        ensures outcome_back { IfErr result (λ refused. refused.outcome ≡ outcome) }
    {
        self.segment(turn.key()).finish(turn, outcome)
    }

    /// Calls [`Cache::abandon`](crate::cache::Cache::abandon) on the segment of the turn's key.
    pub fn abandon(&self, turn: Turn<K>) -> Result<(), Refused>
        ensures cause { IfErr result (λ cause. cause ≡ Refused.UnknownTurn) }
    {
        self.segment(turn.key()).abandon(turn)
    }

    /// Calls [`Cache::leave`](crate::cache::Cache::leave) on the segment of the ticket's key.
    pub fn leave(&self, ticket: Ticket<K>) -> Result<(), Refused>
        ensures cause { IfErr result (λ cause. cause ≡ Refused.UnknownTicket) }
    {
        self.segment(ticket.key()).leave(ticket)
    }

    /// Calls [`Cache::collect`](crate::cache::Cache::collect) on the segment of the ticket's key.
    pub fn collect(&self, ticket: Ticket<K>) -> Result<Collected<K, V, C::Error>, CollectRefused<K>>
        ensures unspent { IfOk result
            (IfUnspent (λ same. ticket_name same ≡ ticket_name ticket)) }
        ensures kept { IfOk result (CollectedKeeps C.keeps (arc_value ticket.key.key)) }
        ensures fits { IfOk result (CollectedFits ticket.key.kind) }
        ensures handed_back { IfErr result (λ refused.
            ticket_name refused.ticket ≡ ticket_name ticket) }
    {
        self.segment(ticket.key()).collect(ticket)
    }
}

impl<K: Hash + Clone + Drop, V: Clone, C: CacheTypes<K, V>, W: Wait> SegmentedCache<K, V, C, W> {
    /// Calls [`Cache::begin_by_ref`](crate::cache::Cache::begin_by_ref) on the segment of `key`.
    ///
    /// The prover asks that a clone of a key equals it.
    pub fn begin_by_ref<F: FnMut(&V) -> bool + Drop>(
        &self,
        key: &K,
        kind: Kind,
        replace_if: Option<F>,
    ) -> Result<Begun<K, V>, Refused>
        requires copies { (a b : K) → K.is_clone a b → K.eq a b ≡ true }
        requires initializer { kind ≢ Kind.Compute }
        requires asks { IfSome replace_if (TakesKept (C.keeps key.now) F.FnMut) }
        ensures named { (asked : K) × IsAsked K.eq K.is_clone key.now asked
            × IfOk result (IsNamed kind asked) }
        ensures kept { IfOk result (FoundKeeps C.keeps) }
        ensures kept_for { IfOk result (FoundKeepsFor C.keeps key.now) }
    {
        self.segment(key).begin_by_ref(key, kind, replace_if)
    }
}
