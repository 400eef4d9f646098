//! The table of turns: the open ones by kind and key, and the ended ones with unspent tickets by
//! number.
ghost use Rattle.std.specs.Prelude.{◌≡◌, ℕ, ◌-◌, ◌<◌, ◌≤◌, ◌^◌, ◌==◌, false, Some, None};
ghost use Rattle.std.specs.Prelude.{IsSome, IfSome, IfNone, IfOk, IfErr, OnOk, MatchOption, is_some, option_copied, if◌then◌else◌};
ghost use Rattle.indexmap.specs.IndexMap.{spare, index_map_len};
ghost use Rattle.std.specs.Arc.{arc_value};
ghost use Rattle.moka_model.specs.Calls.{IsCopyOf};
ghost use Rattle.moka_turns.specs.Represents.{end_of};
ghost use Rattle.moka_turns.specs.CollectState.{IfNotYet, IfEnded, IsUnspent, IsEndClone, TakesCopy};
ghost use Rattle.moka_turns.specs.Open.{IsOpenAs, IsOpenWith, IsOpenFor};
ghost use Rattle.moka_turns.specs.TurnKey.{IsKeyOf};
ghost use Rattle.moka_turns.specs.Table.{is_awaited_as, is_of, one_less, retained_ended};

use crate::discards::TurnDiscards;
use crate::handles::{CollectRefused, Ticket, Turn};
use crate::turn_key::{TurnKey, TurnQuery};
use indexmap::IndexMap;
use moka_index::identity_hasher::IdentityHasher;
use moka_model::turns::Kind;
use moka_policy::policy::Refused;
use std::alloc::{AllocError, Global};
use std::hash::BuildHasherDefault;
use std::sync::Arc;

/// An open turn.
#[derive(Drop)]
pub struct OpenTurn<V> {
    /// Its sequence number.
    pub number: u64,
    /// Whether its lookup found a live value.
    pub shown: bool,
    /// The saved clone of that value, if one was saved.
    pub saved: Option<V>,
    /// How many of its tickets are unspent.
    pub unspent: u64,
}

/// What a turn ended with.
#[derive(Drop)]
pub enum TurnEnd<V, E> {
    /// A value, and whether it was written over a live one.
    Value(V, bool),
    /// No value.
    Nothing,
    /// An error in place of a value.
    Failed(Arc<E>),
    /// It was a compute. Its result belongs to its caller only.
    Computed,
    /// It was abandoned, without an outcome.
    Abandoned,
}

/// An ended turn with unspent tickets.
#[derive(Drop)]
pub struct EndedTurn<K, V, E> {
    /// Its kind and its key.
    pub key: TurnKey<K>,
    /// What it ended with.
    pub end: TurnEnd<V, E>,
    /// How many of its tickets are unspent.
    pub unspent: u64,
}

type Open<K, V> = IndexMap<TurnKey<K>, OpenTurn<V>, BuildHasherDefault<IdentityHasher>>;

type Ended<K, V, E> = IndexMap<u64, EndedTurn<K, V, E>, BuildHasherDefault<IdentityHasher>>;

/// The result of collecting a ticket.
pub enum CollectState<K, V, E> {
    /// The turn is open. This is the ticket, unspent.
    NotYet(Ticket<K>),
    /// The turn has ended. These are the ticket's key, and a clone of what the turn ended with.
    Ended(Arc<K>, TurnEnd<V, E>),
}

/// The turns that a cache stores. An open or ended one is found by its hash, without visiting
/// others.
///
/// Each open turn has the room that it needs once it has ended. So the table grows in `reserve`
/// only. Other calls may clone a value.
#[derive(Drop)]
pub struct TurnTable<K: Eq + Drop, V: Drop, E: Drop> {
    opened: Open<K, V>,
    ended: Ended<K, V, E>,
    /// What calls no longer need.
    pub discards: TurnDiscards<K, V, E>,
    ghost room: { index_map_len opened ≤ spare ended },
}

impl<K: Eq + Drop, V: Drop, E: Drop> TurnTable<K, V, E> {
    ghost use Rattle.moka_turns.specs.TurnTable.{open_at, opened_key, ended_at, HasNoTurns, HasRoom, SameOpen, SameEnded, SameTurns, UpdatesOpen, RetainsEnded, SpendsOpen, SpendsEnded};

    /// Creates a table without turns. Does not allocate.
    pub fn new(alloc: Global) -> Self
        ensures opened { (key : TurnKey K) → open_at result key ≡ None }
        ensures ended { (number : ℕ) → ended_at result number ≡ None }
        ensures nothing { HasNoTurns result }
    {
        TurnTable {
            opened: IndexMap::with_hasher(alloc, BuildHasherDefault::new()),
            ended: IndexMap::with_hasher(alloc, BuildHasherDefault::new()),
            discards: TurnDiscards::new(),
        }
    }

    /// Returns the open turn of a kind and key, if there is one.
    pub fn find(&self, key: &TurnKey<K>) -> Option<&OpenTurn<V>>
        ensures { option_copied result ≡ open_at self.now key.now }
    {
        self.opened.get(key)
    }

    /// Returns whether a turn is open whose kind and key are these. `hash` has to be the hash with
    /// which its key was given.
    ///
    /// Needs no shared key, and so does not allocate.
    pub fn has_open(&self, hash: u64, kind: Kind, key: &K) -> bool
        ensures { (own : TurnKey K) → IsKeyOf hash kind key.now own
            → result ≡ is_some (open_at self.now own) }
    {
        self.opened.contains_key(&TurnQuery { hash, kind, key })
    }

    /// Returns the ended turn with this number, if there is one.
    pub fn ended(&self, number: u64) -> Option<&EndedTurn<K, V, E>>
        ensures { option_copied result ≡ ended_at self.now number }
    {
        self.ended.get(&number)
    }

    /// Makes room for one more turn. Every turn stays as it was, also if it fails.
    ///
    /// # Errors
    ///
    /// - `AllocError`: an allocation failed.
    pub fn reserve(&mut self) -> Result<(), AllocError>
        ensures room { OnOk result (HasRoom self.new) }
        ensures same { SameTurns self.old self.new }
    {
        self.ended.reserve(self.opened.len() + 1)?;
        self.opened.reserve(1)
    }

    /// Ends the open turn of a kind and key, and returns it. There has to be one.
    ///
    /// While it has unspent tickets, the turn is retained with its end, under the key with which it
    /// was opened. Without an end it is not retained. Does not allocate.
    pub fn end(&mut self, key: &TurnKey<K>, end: Option<TurnEnd<V, E>>) -> OpenTurn<V>
        requires { IsSome (open_at self.old key.now) }
        ensures turn { Some result ≡ open_at self.old key.now }
        ensures opened { UpdatesOpen self.old self.new key.now None }
        ensures own { IsSome (opened_key self.old key.now) }
        ensures waited_for { 0 < result.unspent
            → RetainsEnded self.old self.new key.now end result }
        ensures alone { result.unspent ≡ 0 → SameEnded self.old self.new }
    {
        let Some((own, turn)) = self.opened.swap_remove_entry(key) else {
            unreachable!()
        };
        if let Some(end) = end {
            if turn.unspent > 0 {
                let ended = EndedTurn {
                    key: own,
                    end,
                    unspent: turn.unspent,
                };
                match self.ended.insert(turn.number, ended) {
                    Ok(_) => {}
                    Err(_) => unreachable!(),
                }
            }
        }
        turn
    }

    /// Spends a ticket of the open turn of a kind and key. Does not allocate.
    pub fn leave_open(&mut self, key: &TurnKey<K>)
        requires { IfSome (open_at self.old key.now) (λ turn. 0 < turn.unspent) }
        ensures spent { SpendsOpen self.old self.new key.now }
        ensures ended { SameEnded self.old self.new }
    {
        if let Some(turn) = self.opened.get_mut(key) {
            turn.unspent -= 1;
        }
    }

    /// Spends a ticket of an ended turn. If it was the last one, removes the turn and returns it.
    /// Does not allocate.
    pub fn leave_ended(&mut self, number: u64) -> Option<EndedTurn<K, V, E>>
        requires { IsSome (ended_at self.old number) }
        ensures spent { SpendsEnded self.old self.new number }
        ensures last { IfSome result (λ turn. ended_at self.old number ≡ Some turn) }
        ensures opened { SameOpen self.old self.new }
    {
        if self.is_last(number) {
            return self.ended.swap_remove(&number);
        }
        if let Some(ended) = self.ended.get_mut(&number) {
            ended.unspent -= 1;
        }
        None
    }

    // Spends a ticket of an ended turn, and discards the turn if it was the last one.
    fn spend_ended(&mut self, number: u64)
        requires { IsSome (ended_at self.old number) }
        ensures spent { SpendsEnded self.old self.new number }
        ensures opened { SameOpen self.old self.new }
    {
        if let Some(ended) = self.leave_ended(number) {
            self.discards.ended.discard(ended);
        }
    }

    // Returns whether an ended turn has at most one unspent ticket.
    fn is_last(&self, number: u64) -> bool
        ensures { IfSome (ended_at self.now number) (λ turn.
            retained_ended (one_less turn) ≡ (if result then None else Some (one_less turn))) }
    {
        match self.ended.get(&number) {
            Some(turn) => turn.unspent <= 1,
            None => true,
        }
    }

    // Returns whether the open turn of a kind and key has this number and an unspent ticket.
    fn is_awaited(&self, key: &TurnKey<K>, number: u64) -> bool
        ensures { MatchOption (open_at self.now key.now) (result ≡ false)
            (λ turn. result ≡ is_awaited_as number turn) }
    {
        match self.opened.get(key) {
            Some(turn) => turn.number == number && turn.unspent >= 1,
            None => false,
        }
    }

    // Returns whether the ended turn with this number is of a kind and key.
    fn is_ended_for(&self, key: &TurnKey<K>, number: u64) -> bool
        ensures { MatchOption (ended_at self.now number) (result ≡ false)
            (λ turn. result ≡ is_of K.eq key.now turn) }
    {
        match self.ended.get(&number) {
            Some(turn) => turn.key.kind == key.kind && *turn.key.key == *key.key,
            None => false,
        }
    }

    // Returns whether the open turn of a kind and key has this number.
    fn is_open(&self, key: &TurnKey<K>, number: u64) -> bool
        ensures { MatchOption (open_at self.now key.now) (result ≡ false)
            (λ turn. result ≡ (turn.number == number)) }
    {
        match self.opened.get(key) {
            Some(turn) => turn.number == number,
            None => false,
        }
    }
}

impl<K: Eq + Drop, V: Clone, E: Drop> TurnTable<K, V, E> {
    ghost use Rattle.moka_turns.specs.TurnTable.{open_at, ended_at, HasRoom, SameEnded, SameTurns, UpdatesOpen, AtEachTable, AtEachChange, OpensTurn};
    ghost use Rattle.moka_turns.specs.Calls.{Abandons, GivesTicket, Leaves, Collects, CopiesEnd, CopiesSaved, Finishes, FinishesCompute, FindsOpen};

    /// Adds an open turn. Its room has to be made before. Does not allocate.
    pub fn add(&mut self, key: TurnKey<K>, turn: OpenTurn<V>)
        requires absent { open_at self.old key ≡ None }
        requires room { HasRoom self.old }
        ensures opened { UpdatesOpen self.old self.new key (Some turn) }
        ensures ended { SameEnded self.old self.new }
        ensures represents { turn.unspent ≡ 0
            → OpensTurn V.is_clone key turn.number turn.shown turn.saved self.old self.new }
    {
        match self.opened.insert(key, turn) {
            Ok(_) => {}
            Err(_) => unreachable!(),
        }
    }

    /// Ends a turn without an outcome, and returns whether it was an open turn of this table.
    ///
    /// Consumes the turn in either case. Does not allocate.
    pub fn abandon(&mut self, turn: Turn<K>) -> bool
        ensures abandons { AtEachChange V.is_clone turn.key self.old self.new
            (Abandons K.eq turn result) }
        ensures unchanged { result ≡ false → SameTurns self.old self.new }
    {
        let Turn { key, number } = turn;
        if !self.is_open(&key, number) {
            self.discards.key.discard(key);
            return false;
        }
        let ended = self.end(&key, Some(TurnEnd::Abandoned));
        self.discards.key.discard(key);
        self.discards.opened.discard(ended);
        true
    }

    /// Gives out one more ticket of the open turn of a kind and key, and returns the turn's number.
    ///
    /// Returns `None` if its tickets are as many as can be counted; then nothing has changed. Does
    /// not allocate.
    pub fn wait(&mut self, key: &TurnKey<K>) -> Option<u64>
        requires { IsSome (open_at self.old key.now) }
        ensures represents { IfSome result (λ number.
            AtEachChange V.is_clone key.now self.old self.new (GivesTicket number)) }
        ensures number { IfSome result (λ number. IfSome (open_at self.old key.now) (λ turn.
            (turn.number ≡ number) × (turn.unspent < 2 ^ 64 - 1))) }
        ensures full { IfNone result (IfSome (open_at self.old key.now) (λ turn.
            turn.unspent ≡ 2 ^ 64 - 1)) }
        ensures unchanged { IfNone result (SameTurns self.old self.new) }
        ensures ended { SameEnded self.old self.new }
    {
        let turn = self.opened.get_mut(key)?;
        if turn.unspent == u64::MAX {
            return None;
        }
        turn.unspent += 1;
        Some(turn.number)
    }

    /// Spends a ticket, and returns whether a turn of this table had its name and an unspent
    /// ticket.
    ///
    /// Consumes the ticket in either case. Does not allocate.
    pub fn leave(&mut self, ticket: Ticket<K>) -> bool
        ensures leaves { AtEachChange V.is_clone ticket.key self.old self.new
            (Leaves K.eq ticket result) }
        ensures unchanged { result ≡ false → SameTurns self.old self.new }
    {
        let Ticket { key, number } = ticket;
        if self.is_awaited(&key, number) {
            self.leave_open(&key);
            self.discards.key.discard(key);
            return true;
        }
        if self.is_ended_for(&key, number) {
            self.spend_ended(number);
            self.discards.key.discard(key);
            return true;
        }
        self.discards.key.discard(key);
        false
    }

    // Returns a clone of what an ended turn ended with.
    fn copy_of(&self, number: u64) -> Result<TurnEnd<V, E>, AllocError>
        requires { IsSome (ended_at self.now number) }
        ensures copy { IfOk result (λ copy. IfSome (ended_at self.now number) (λ turn.
            IsEndClone V.is_clone turn.end copy)) }
        ensures refused { IfErr result (λ _. IfSome (ended_at self.now number) (λ turn.
            TakesCopy V.is_infallible (Some (end_of turn.end)))) }
    {
        match self.ended.get(&number) {
            Some(turn) => turn.end.copy(),
            None => unreachable!(),
        }
    }

    /// Returns a clone of what the turn with this key and number ended with. Returns `None` if the
    /// turn is open, or if no turn with an unspent ticket has this key and number.
    ///
    /// # Errors
    ///
    /// - `AllocError`: an allocation failed.
    pub fn copy_end(
        &self,
        key: &TurnKey<K>,
        number: u64,
    ) -> Result<Option<TurnEnd<V, E>>, AllocError>
        ensures { IfOk result (λ copy. AtEachTable V.is_clone key.now self.now
            (λ _. CopiesEnd K.eq V.is_clone key.now number copy)) }
    {
        if self.is_awaited(key, number) {
            return Ok(None);
        }
        if !self.is_ended_for(key, number) {
            return Ok(None);
        }
        match self.copy_of(number) {
            Ok(end) => Ok(Some(end)),
            Err(refused) => Err(refused),
        }
    }

    /// Returns a clone of the saved value of the open turn with this key and number.
    /// Returns `None` if there is no such turn or no such value.
    ///
    /// # Errors
    ///
    /// - `AllocError`: an allocation failed.
    pub fn copy_saved(&self, key: &TurnKey<K>, number: u64) -> Result<Option<V>, AllocError>
        ensures { IfOk result (λ copy. AtEachTable V.is_clone key.now self.now
            (λ _. CopiesSaved K.eq V.is_clone key.now number copy)) }
    {
        let Some(row) = self.opened.get(key) else {
            return Ok(None);
        };
        if row.number != number {
            return Ok(None);
        }
        row.copy_saved()
    }

    /// Spends a ticket of an ended turn, and returns a clone of what the turn ended with.
    ///
    /// Returns the ticket unspent if the turn is open. A failed call changes nothing, and hands
    /// back the ticket.
    ///
    /// # Errors
    ///
    /// - `UnknownTicket`: no turn of this table has the ticket's name and an unspent ticket.
    /// - `OutOfMemory`: cloning what the turn ended with failed.
    pub fn collect(&mut self, ticket: Ticket<K>) -> Result<CollectState<K, V, E>, CollectRefused<K>>
        ensures collects { AtEachChange V.is_clone ticket.key self.old self.new
            (Collects K.eq V.is_clone V.is_infallible ticket result) }
        ensures ticket_back { IfErr result (λ refused. refused.ticket ≡ ticket) }
        ensures unspent { IfOk result (λ told. IfNotYet (λ same. same ≡ ticket) told) }
        ensures key { IfOk result (λ told.
            IfEnded (λ own. arc_value own ≡ arc_value ticket.key.key) told) }
        ensures unchanged { IsUnspent result → SameTurns self.old self.new }
    {
        if self.is_awaited(&ticket.key, ticket.number) {
            return Ok(CollectState::NotYet(ticket));
        }
        if !self.is_ended_for(&ticket.key, ticket.number) {
            let cause = Refused::UnknownTicket;
            return Err(CollectRefused { ticket, cause });
        }
        let Ok(end) = self.copy_of(ticket.number) else {
            let cause = Refused::OutOfMemory;
            return Err(CollectRefused { ticket, cause });
        };
        let Ticket { key, number } = ticket;
        self.spend_ended(number);
        let TurnKey { key, .. } = key;
        Ok(CollectState::Ended(key, end))
    }

    /// Returns how many tickets of a turn are unspent, or `None` if it is no open turn of this
    /// table.
    pub fn waiting_for(&self, turn: &Turn<K>) -> Option<u64>
        ensures there { IfSome result (λ waiting.
            IsOpenWith turn.now.number waiting (open_at self.now turn.now.key)) }
        ensures tells { AtEachTable V.is_clone turn.now.key self.now
            (λ _. FindsOpen K.eq turn.now result) }
    {
        match self.opened.get(&turn.key) {
            Some(row) if row.number == turn.number => Some(row.unspent),
            _ => None,
        }
    }

    /// Ends an open turn, and returns its entry in the table. Does not allocate.
    ///
    /// `end` is retained for the callers that wait. It may be `None` only if no ticket is unspent.
    pub fn finish(&mut self, turn: Turn<K>, end: Option<TurnEnd<V, E>>) -> OpenTurn<V>
        requires { IsOpenFor turn.number end (open_at self.old turn.key) }
        ensures turn { Some result ≡ open_at self.old turn.key }
        ensures finishes { AtEachChange V.is_clone turn.key self.old self.new
            (Finishes V.is_clone turn end) }
    {
        let Turn { key, number: _ } = turn;
        let opened = self.end(&key, end);
        self.discards.key.discard(key);
        opened
    }

    /// Ends the open turn of a compute, and returns its key and its entry in the table.
    ///
    /// The callers that wait learn only that it has ended. Does not allocate.
    pub fn finish_computed(&mut self, turn: Turn<K>) -> (Arc<K>, OpenTurn<V>)
        requires { IsOpenAs turn.number (open_at self.old turn.key) }
        ensures key { result.0 ≡ turn.key.key }
        ensures finishes { AtEachChange V.is_clone turn.key self.old self.new
            (FinishesCompute K.eq V.is_clone turn result.1) }
    {
        let Turn { key, number: _ } = turn;
        let row = self.end(&key, Some(TurnEnd::Computed));
        let TurnKey { key, .. } = key;
        (key, row)
    }
}

impl<V: Clone> OpenTurn<V> {
    // Returns a clone of the saved value, if one was saved. Fails only if cloning it does.
    fn copy_saved(&self) -> Result<Option<V>, AllocError>
        ensures { IfOk result (IsCopyOf V.is_clone self.now.saved) }
    {
        match &self.saved {
            Some(value) => match value.clone() {
                Ok(copy) => Ok(Some(copy)),
                Err(refused) => Err(refused),
            },
            None => Ok(None),
        }
    }
}

impl<V: Clone, E: Drop> TurnEnd<V, E> {
    /// Returns a clone.
    ///
    /// # Errors
    ///
    /// - `AllocError`: an allocation failed. Only for an error, or a value whose clone can fail.
    pub fn copy(&self) -> Result<TurnEnd<V, E>, AllocError>
        ensures copy { IfOk result (IsEndClone V.is_clone self.now) }
        ensures refused { IfErr result (λ _.
            TakesCopy V.is_infallible (Some (end_of self.now))) }
    {
        Ok(match self {
            TurnEnd::Value(value, replaced) => TurnEnd::Value(value.clone()?, *replaced),
            TurnEnd::Nothing => TurnEnd::Nothing,
            TurnEnd::Failed(error) => TurnEnd::Failed(error.clone()?),
            TurnEnd::Computed => TurnEnd::Computed,
            TurnEnd::Abandoned => TurnEnd::Abandoned,
        })
    }
}
