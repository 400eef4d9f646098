//! What the calls of a table of turns no longer need: the keys of spent handles, and ended turns.
ghost use Rattle.std.specs.Prelude.{◌≡◌};

use crate::table::{EndedTurn, OpenTurn};
use crate::turn_key::TurnKey;
use moka_deferred::deferred::Deferred;

/// What a call of a table no longer needs. Each slot gets at most one item in a call.
#[derive(Drop)]
pub struct TurnDiscards<K: Drop, V: Drop, E: Drop> {
    /// The key of a spent handle, or of a begin that failed.
    pub key: Deferred<TurnKey<K>>,
    /// A turn that was ended, or could not be opened, with the value that it saved.
    pub opened: Deferred<OpenTurn<V>>,
    /// An ended turn whose last ticket was spent.
    pub ended: Deferred<EndedTurn<K, V, E>>,
}

/// What was discarded by a table of turns, to be dropped.
#[derive(Drop)]
pub struct DiscardedTurns<K, V, E> {
    /// The key of a handle or of a begin.
    pub key: Option<TurnKey<K>>,
    /// A turn that was open, or could not be opened.
    pub opened: Option<OpenTurn<V>>,
    /// An ended turn.
    pub ended: Option<EndedTurn<K, V, E>>,
}

impl<K: Drop, V: Drop, E: Drop> TurnDiscards<K, V, E> {
    /// Creates slots that drop each item at once. Does not allocate.
    pub fn new() -> Self {
        TurnDiscards {
            key: Deferred::new(),
            opened: Deferred::new(),
            ended: Deferred::new(),
        }
    }

    /// Keeps items from now on.
    pub fn defer(&mut self) {
        self.key.defer();
        self.opened.defer();
        self.ended.defer();
    }

    /// Returns the items that are kept. The slots are empty then.
    #[inline(always)]
    pub fn take(&mut self) -> DiscardedTurns<K, V, E>
        ensures key { result.key ≡ self.old.key.item }
        ensures opened { result.opened ≡ self.old.opened.item }
        ensures ended { result.ended ≡ self.old.ended.item }
    {
        DiscardedTurns {
            key: self.key.take(),
            opened: self.opened.take(),
            ended: self.ended.take(),
        }
    }
}
