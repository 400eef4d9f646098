//! The calls of turns as steps, in which a turn or a ticket appears by its name.
ghost use Rattle.std.specs.Prelude.{◌≡◌, ◌≢◌, Bool, false, is_some, unwrap_or, IfOk, OnOk, OnErr};
ghost use Rattle.std.specs.Arc.{arc_value};
ghost use Rattle.std.specs.Fn.{CalledAt};
ghost use Rattle.moka_model.specs.Calls.{Abandon, Begin, BeginCompute, Collect, Finish, Leave};
ghost use Rattle.moka_model.specs.Steps.{turns};
ghost use Rattle.moka_model.specs.Turns.{found, is_open_as};
ghost use Rattle.moka_turns.specs.Handles.{name_by};
ghost use Rattle.moka_state.specs.Begin.{FoundKeeps};
ghost use Rattle.moka_state.specs.Finish.{OutcomeKeeps, outcome_of};
ghost use Rattle.moka_state.specs.Given.{of_begin};
ghost use Rattle.moka_state.specs.Replies.{HasNoNotice, IsRefusal, ReplyEntryKeeps};
ghost use Rattle.moka_state.specs.Ends.{GivesAt, GoesOn, RepliesTo};

use crate::answers::Begun;
use crate::call_view::CallView;
use crate::state::State;
use crate::step::Reply;
use crate::turn_replies::{begin_reply, collect_reply, compute_reply, done_reply, finish_reply};
use moka_expiration::view::StateView;
use moka_model::turns::{Kind, Outcome};
use moka_policy::policy::{CacheTypes, Refused};
use moka_rows::rows::RowStore;
use moka_turns::by_name::{ticket_of, turn_of};
use moka_turns::turn_key::TurnKey;
use moka_turns::turn_name::TurnName;
use std::hash::Hash;
use std::sync::Arc;

impl<K: Hash + Drop, V: Clone, C: CacheTypes<K, V>, R: RowStore<K, V>> State<K, V, C, R> {
    // Does a begin with a `replace_if` that returns `replace` for any value, or without it for
    // `None`.
    fn begin_for_step<F: FnMut(&V) -> bool + Drop>(
        &mut self,
        key: &Arc<K>,
        kind: Kind,
        replace: Option<bool>,
        replace_if: F,
        now: u64,
    ) -> Result<Begun<K, V>, Refused>
        requires initializer { kind ≢ Kind.Compute }
        requires asks { F.IsAlwaysCallable replace_if }
        requires says { (value : V) (said : Bool) (left : F)
            → CalledAt F.FnMut replace_if value said left → said ≡ unwrap_or replace false }
        ensures reply { GivesAt ⟦<C as CallView<K, V>>⟧.spec self.old
            (Begin (arc_value key.now) kind replace now) (of_begin result) }
        ensures stands { OnOk result (⟦<C as StateView<K, V>>⟧.follows self.old
            (Begin (arc_value key.now) kind replace now) self.new) }
        ensures refused { OnErr result (self.new ≡ self.old) }
        ensures kept { IfOk result (FoundKeeps C.keeps) }
        ensures settings { self.new.settings ≡ self.old.settings }
    {
        match replace {
            Some(_) => self.begin(key, kind, Some(replace_if), now),
            None => self.begin(key, kind, None::<F>, now),
        }
    }

    /// Does a `Begin`. One of kind `Compute` saves no clone.
    pub(crate) fn step_begin(
        &mut self,
        key: Arc<K>,
        kind: Kind,
        replace: Option<bool>,
        now: u64,
    ) -> Reply<K, V, C>
        ensures reply { RepliesTo ⟦<C as CallView<K, V>>⟧.spec self.old
            (Begin (arc_value key) kind replace now) result }
        ensures stands { GoesOn ⟦<C as CallView<K, V>>⟧.spec self.old
            (Begin (arc_value key) kind replace now) result self.new }
        ensures kept { ReplyEntryKeeps C.keeps result }
        ensures refused { IsRefusal result → self.new ≡ self.old }
        ensures settings { self.new.settings ≡ self.old.settings }
    {
        if kind == Kind::Compute {
            return compute_reply(self.begin_compute(&key, false, now));
        }
        let replaces = replace.unwrap_or(false);
        begin_reply(self.begin_for_step(&key, kind, replace, |_: &V| replaces, now))
    }

    /// Does a `BeginCompute`.
    pub(crate) fn step_begin_compute(&mut self, key: Arc<K>, keep: bool, now: u64) -> Reply<K, V, C>
        ensures reply { RepliesTo ⟦<C as CallView<K, V>>⟧.spec self.old
            (BeginCompute (arc_value key) keep now) result }
        ensures stands { GoesOn ⟦<C as CallView<K, V>>⟧.spec self.old
            (BeginCompute (arc_value key) keep now) result self.new }
        ensures kept { ReplyEntryKeeps C.keeps result }
        ensures refused { IsRefusal result → self.new ≡ self.old }
        ensures settings { self.new.settings ≡ self.old.settings }
    {
        compute_reply(self.begin_compute(&key, keep, now))
    }

    /// Does a `Finish`. Fails with `UnknownTurn` if the outcome does not fit the kind of the name.
    pub(crate) fn step_finish(
        &mut self,
        name: TurnName<K>,
        outcome: Outcome<V, Arc<C::Error>>,
        now: u64,
    ) -> Reply<K, V, C>
        requires { OutcomeKeeps (C.keeps (arc_value name.key)) outcome }
        ensures reply { RepliesTo ⟦<C as CallView<K, V>>⟧.spec self.old
            (Finish (name_by name) (outcome_of outcome) now) result }
        ensures stands { GoesOn ⟦<C as CallView<K, V>>⟧.spec self.old
            (Finish (name_by name) (outcome_of outcome) now) result self.new }
        ensures no_notice { HasNoNotice result }
        ensures refused { IsRefusal result → self.new ≡ self.old }
        ensures settings { self.new.settings ≡ self.old.settings }
    {
        if !name.kind.accepts(&outcome) {
            return Reply::Refused(Refused::UnknownTurn);
        }
        finish_reply(self.finish(turn_of(name), outcome, now))
    }

    /// Does an `Abandon`.
    pub(crate) fn step_abandon(&mut self, name: TurnName<K>) -> Reply<K, V, C>
        ensures reply { RepliesTo ⟦<C as CallView<K, V>>⟧.spec self.old (Abandon (name_by name))
            result }
        ensures stands { GoesOn ⟦<C as CallView<K, V>>⟧.spec self.old (Abandon (name_by name))
            result self.new }
        ensures no_notice { HasNoNotice result }
        ensures refused { IsRefusal result → self.new ≡ self.old }
        ensures settings { self.new.settings ≡ self.old.settings }
    {
        done_reply(self.abandon(turn_of(name)))
    }

    /// Does a `Collect`. If the turn is open, the ticket stays unspent, and a later step may name
    /// it again.
    pub(crate) fn step_collect(&mut self, name: TurnName<K>) -> Reply<K, V, C>
        ensures reply { RepliesTo ⟦<C as CallView<K, V>>⟧.spec self.old (Collect (name_by name))
            result }
        ensures stands { GoesOn ⟦<C as CallView<K, V>>⟧.spec self.old (Collect (name_by name))
            result self.new }
        ensures no_notice { HasNoNotice result }
        ensures refused { IsRefusal result → self.new ≡ self.old }
        ensures settings { self.new.settings ≡ self.old.settings }
    {
        collect_reply(self.collect(ticket_of(name)))
    }

    /// Does a `Leave`.
    pub(crate) fn step_leave(&mut self, name: TurnName<K>) -> Reply<K, V, C>
        ensures reply { RepliesTo ⟦<C as CallView<K, V>>⟧.spec self.old (Leave (name_by name))
            result }
        ensures stands { GoesOn ⟦<C as CallView<K, V>>⟧.spec self.old (Leave (name_by name)) result
            self.new }
        ensures no_notice { HasNoNotice result }
        ensures refused { IsRefusal result → self.new ≡ self.old }
        ensures settings { self.new.settings ≡ self.old.settings }
    {
        done_reply(self.leave(ticket_of(name)))
    }

    /// Returns whether the turn of a name is open. Changes nothing, and is no step.
    ///
    /// # Complexity
    ///
    /// One lookup in the table of turns.
    pub fn is_open(&self, name: TurnName<K>) -> bool
        ensures { ⟦<C as StateView<K, V>>⟧.at_each_history self.now (λ settings steps.
            result ≡ is_some (found (is_open_as K.eq (name_by name)) (turns steps))) }
    {
        let hash = self.behaviour.hash(&*name.key);
        let TurnName { number, kind, key } = name;
        let wanted = TurnKey { hash, kind, key };
        let Some(row) = self.turns.find(&wanted) else {
            return false;
        };
        if row.number != number {
            return false;
        }
        true
    }
}
