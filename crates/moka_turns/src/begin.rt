//! The begin of a turn in a table of turns.
ghost use Rattle.std.specs.Prelude.{◌≡◌, ◌≢◌, ℕ, Bool, true, None, IsSome, is_some, IfOk, IfErr, OnOk, OnErr};
ghost use Rattle.std.specs.Arc.{arc_value};
ghost use Rattle.moka_model.specs.Numbers.{greatest_number};
ghost use Rattle.moka_turns.specs.Handles.{turn_name};
ghost use Rattle.moka_turns.specs.Represents.{name_of};
ghost use Rattle.moka_turns.specs.TurnTable.{open_at, AtEachChange, OpensTurn, SameTurns};
ghost use Rattle.moka_turns.specs.Begun.{IfRun, IfWait, IsNamed, as_waiting};
ghost use Rattle.moka_turns.specs.Calls.{Begins};

use crate::handles::{Ticket, Turn};
use crate::table::{OpenTurn, TurnTable};
use crate::turn_key::TurnKey;
use moka_policy::policy::Refused;

/// The result of beginning a turn.
pub enum TurnBegun<K> {
    /// The turn was opened. The caller has to end it.
    Run(Turn<K>),
    /// A turn of that kind and key is open already. The caller has to wait for it.
    Wait(Ticket<K>),
}

impl<K: Eq + Drop, V: Clone, E: Drop> TurnTable<K, V, E> {
    /// Returns a ticket of the open turn of a kind and key, or opens a turn with this sequence
    /// number.
    ///
    /// `may_wait` is whether the caller may wait for an open turn. Waiting does not allocate. A
    /// failed call leaves every turn as it was.
    ///
    /// # Errors
    ///
    /// - `TurnIsOpen`: a turn is open, and the caller may not wait for it.
    /// - `NumbersUsedUp`: `number` is the greatest one, or the open turn has as many unspent
    ///   tickets as can be counted.
    /// - `OutOfMemory`: an allocation failed.
    pub fn begin(
        &mut self,
        key: TurnKey<K>,
        number: u64,
        may_wait: bool,
    ) -> Result<TurnBegun<K>, Refused>
        ensures begins { AtEachChange V.is_clone key self.old self.new
            (Begins K.eq key number may_wait result) }
        ensures number { IfOk result (IfRun (number ≢ greatest_number)) }
        ensures named { IfOk result (IsNamed key.kind (arc_value key.key)) }
        ensures waits { IfOk result (IfWait (may_wait ≡ true)) }
        ensures unchanged { OnErr result (SameTurns self.old self.new) }
    {
        if self.is_awaitable(&key) {
            return self.wait_for(key, may_wait);
        }
        if number == u64::MAX {
            self.discards.key.discard(key);
            return Err(Refused::NumbersUsedUp);
        }
        self.open(key, number)
    }

    /// Returns whether a turn of a kind and key is open.
    pub fn is_awaitable(&self, key: &TurnKey<K>) -> bool
        ensures { result ≡ is_some (open_at self.now key.now) }
    {
        match self.find(key) {
            Some(_) => true,
            None => false,
        }
    }

    // Returns a ticket of the open turn of a kind and key, if the caller may wait.
    fn wait_for(&mut self, key: TurnKey<K>, may_wait: bool) -> Result<TurnBegun<K>, Refused>
        requires { IsSome (open_at self.old key) }
        ensures begins { (number : ℕ) → AtEachChange V.is_clone key self.old self.new
            (Begins K.eq key number may_wait result) }
        ensures number { (number : ℕ) → IfOk result (IfRun (number ≢ greatest_number)) }
        ensures named { IfOk result (IsNamed key.kind (arc_value key.key)) }
        ensures waits { IfOk result (IfWait (may_wait ≡ true)) }
        ensures unchanged { OnErr result (SameTurns self.old self.new) }
    {
        if !may_wait {
            return Err(Refused::TurnIsOpen);
        }
        match self.wait_open(key) {
            Ok(ticket) => Ok(TurnBegun::Wait(ticket)),
            Err(cause) => Err(cause),
        }
    }

    /// Returns a ticket of the open turn of a kind and key. There has to be one. Does not allocate.
    ///
    /// # Errors
    ///
    /// - `NumbersUsedUp`: the turn has as many unspent tickets as can be counted. Every turn stays
    ///   as it was.
    pub fn wait_open(&mut self, key: TurnKey<K>) -> Result<Ticket<K>, Refused>
        requires { IsSome (open_at self.old key) }
        ensures begins { (number : ℕ) → AtEachChange V.is_clone key self.old self.new
            (Begins K.eq key number true (as_waiting result)) }
        ensures named { IfOk result (λ ticket. (ticket.key.kind ≡ key.kind)
            × (arc_value ticket.key.key ≡ arc_value key.key)) }
        ensures unchanged { OnErr result (SameTurns self.old self.new) }
    {
        match self.wait(&key) {
            Some(number) => Ok(Ticket { key, number }),
            None => {
                self.discards.key.discard(key);
                Err(Refused::NumbersUsedUp)
            }
        }
    }

    // Opens a turn of a kind and key with this number.
    fn open(&mut self, key: TurnKey<K>, number: u64) -> Result<TurnBegun<K>, Refused>
        requires absent { open_at self.old key ≡ None }
        requires number { number ≢ greatest_number }
        ensures begins { (may_wait : Bool) → AtEachChange V.is_clone key self.old self.new
            (Begins K.eq key number may_wait result) }
        ensures named { IfOk result (IsNamed key.kind (arc_value key.key)) }
        ensures waits { (may_wait : Bool) → IfOk result (IfWait (may_wait ≡ true)) }
        ensures unchanged { OnErr result (SameTurns self.old self.new) }
    {
        let Ok(turn) = self.open_shown(key, number, false, None) else {
            return Err(Refused::OutOfMemory);
        };
        Ok(TurnBegun::Run(turn))
    }

    /// Opens a turn of a kind and key with this sequence number. None of that kind and key may be
    /// open.
    ///
    /// `shown` is whether the turn's lookup found a live value. `saved` is the saved clone of
    /// that value, if one was saved.
    ///
    /// # Errors
    ///
    /// - `OutOfMemory`: an allocation failed. Every turn stays as it was.
    pub fn open_shown(
        &mut self,
        key: TurnKey<K>,
        number: u64,
        shown: bool,
        saved: Option<V>,
    ) -> Result<Turn<K>, Refused>
        requires { open_at self.old key ≡ None }
        ensures opens { OnOk result
            (OpensTurn V.is_clone key number shown saved self.old self.new) }
        ensures name { IfOk result (λ turn. turn_name turn ≡ name_of key number) }
        ensures cause { IfErr result (λ cause. cause ≡ Refused.OutOfMemory) }
        ensures unchanged { OnErr result (SameTurns self.old self.new) }
    {
        let turn = OpenTurn {
            number,
            shown,
            saved,
            unspent: 0,
        };
        let Ok(()) = self.reserve() else {
            self.discards.key.discard(key);
            self.discards.opened.discard(turn);
            return Err(Refused::OutOfMemory);
        };
        let Ok(shared) = key.key.clone() else {
            self.discards.key.discard(key);
            self.discards.opened.discard(turn);
            return Err(Refused::OutOfMemory);
        };
        let own = TurnKey {
            hash: key.hash,
            kind: key.kind,
            key: shared,
        };
        self.add(key, turn);
        Ok(Turn { key: own, number })
    }
}
