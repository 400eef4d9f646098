//! Single flight by hand: one caller computes a value for a key, while others wait for the outcome.
//! These calls abandon a turn, and spend a ticket.
ghost use Rattle.std.specs.Prelude.{◌≡◌, IfOk, IfErr, OnOk, OnErr};
ghost use Rattle.moka_model.specs.Calls.{Abandon, Collect, Leave};
ghost use Rattle.moka_turns.specs.Handles.{turn_name, ticket_name};
ghost use Rattle.moka_state.specs.Given.{IfUnspent, of_done, of_collect};
ghost use Rattle.moka_state.specs.Ends.{GivesAt};

use crate::answers::{CollectRefused, Collected, into_collected};
use crate::call_view::CallView;
use crate::state::State;
use moka_expiration::view::StateView;
use moka_policy::policy::{CacheTypes, Refused};
use moka_rows::rows::RowStore;
use moka_turns::handles::{Ticket, Turn};
use std::hash::Hash;

impl<K: Hash + Drop, V: Clone, C: CacheTypes<K, V>, R: RowStore<K, V>> State<K, V, C, R> {
    /// Ends a turn without an outcome. The callers that wait for it find it abandoned. Does not
    /// allocate.
    ///
    /// The turn is spent, even if the call fails.
    ///
    /// # Errors
    ///
    /// - `UnknownTurn`: the turn is no open turn of this cache.
    ///
    /// # Complexity
    ///
    /// Costs a fixed number of lookups in the table of turns.
    pub fn abandon(&mut self, turn: Turn<K>) -> Result<(), Refused>
        ensures reply { GivesAt ⟦<C as CallView<K, V>>⟧.spec self.old (Abandon (turn_name turn))
            (of_done result) }
        ensures stands { OnOk result (⟦<C as StateView<K, V>>⟧.follows self.old
            (Abandon (turn_name turn)) self.new) }
        ensures refused { OnErr result (self.new ≡ self.old) }
        ensures cause { IfErr result (λ cause. cause ≡ Refused.UnknownTurn) }
        ensures settings { self.new.settings ≡ self.old.settings }
    {
        let hash = self.behaviour.hash(turn.key());
        if !self.turns.abandon(turn.with_hash(hash)) {
            return Err(Refused::UnknownTurn);
        }
        Ok(())
    }

    /// Spends a ticket without collecting the outcome of its turn. Does not allocate.
    ///
    /// The ticket is spent, even if the call fails.
    ///
    /// # Errors
    ///
    /// - `UnknownTicket`: this cache has no turn of the ticket's name with an unspent ticket.
    ///
    /// # Complexity
    ///
    /// Costs a fixed number of lookups in the table of turns.
    pub fn leave(&mut self, ticket: Ticket<K>) -> Result<(), Refused>
        ensures reply { GivesAt ⟦<C as CallView<K, V>>⟧.spec self.old (Leave (ticket_name ticket))
            (of_done result) }
        ensures stands { OnOk result (⟦<C as StateView<K, V>>⟧.follows self.old
            (Leave (ticket_name ticket)) self.new) }
        ensures refused { OnErr result (self.new ≡ self.old) }
        ensures cause { IfErr result (λ cause. cause ≡ Refused.UnknownTicket) }
        ensures settings { self.new.settings ≡ self.old.settings }
    {
        let hash = self.behaviour.hash(ticket.key());
        if !self.turns.leave(ticket.with_hash(hash)) {
            return Err(Refused::UnknownTicket);
        }
        Ok(())
    }

    /// Spends the ticket of an ended turn, and returns a clone of the turn's outcome. If the turn
    /// is open, returns the ticket unspent.
    ///
    /// # Errors
    ///
    /// A failed call hands back the ticket, unspent.
    ///
    /// - `UnknownTicket`: this cache has no turn of the ticket's name with an unspent ticket.
    /// - `OutOfMemory`: cloning the value or sharing the error failed.
    ///
    /// # Complexity
    ///
    /// Costs a fixed number of lookups in the table of turns, and the clone.
    pub fn collect(
        &mut self,
        ticket: Ticket<K>,
    ) -> Result<Collected<K, V, C::Error>, CollectRefused<K>>
        ensures reply { GivesAt ⟦<C as CallView<K, V>>⟧.spec self.old (Collect (ticket_name ticket))
            (of_collect result) }
        ensures stands { OnOk result (⟦<C as StateView<K, V>>⟧.follows self.old
            (Collect (ticket_name ticket)) self.new) }
        ensures unspent { IfOk result
            (IfUnspent (λ same. ticket_name same ≡ ticket_name ticket)) }
        ensures refused { OnErr result (self.new ≡ self.old) }
        ensures handed_back { IfErr result (λ refused.
            ticket_name refused.ticket ≡ ticket_name ticket) }
        ensures settings { self.new.settings ≡ self.old.settings }
    {
        let hash = self.behaviour.hash(ticket.key());
        let found = match self.turns.collect(ticket.with_hash(hash)) {
            Ok(found) => found,
            Err(refused) => return Err(refused),
        };
        Ok(into_collected(found, &mut self.discards.key))
    }
}
