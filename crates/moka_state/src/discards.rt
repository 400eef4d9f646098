//! What the calls of a state no longer need. An owned cache drops it at once; a shared one drops it
//! with no lock held.
ghost use Rattle.std.specs.Prelude.{◌≡◌};

use crate::finish::Copies;
use crate::state::State;
use moka_deferred::deferred::Deferred;
use moka_model::entry::Entry;
use moka_policy::policy::CacheTypes;
use moka_rows::rows::RowStore;
use moka_table::into_arc::UnusedKey;
use moka_turns::discards::DiscardedTurns;
use std::hash::Hash;
use std::sync::Arc;

/// What a call of a state no longer needs, beside what its table and its turns do not. Each slot
/// gets at most one item in a call.
#[derive(Drop)]
pub(crate) struct Discards<K: Drop, V: Drop> {
    /// A value that was not stored.
    pub value: Deferred<V>,
    /// A clone of a value, made by a call that failed.
    pub reply: Deferred<V>,
    /// An entry, made by a call that failed.
    pub entry: Deferred<Entry<K, V>>,
    /// The clones of a finish that failed.
    pub copies: Deferred<Copies<K, V>>,
    /// The key of a ticket that got no entry.
    pub key: Deferred<Arc<K>>,
}

/// What the last call of a state no longer needed, to be dropped.
#[derive(Drop)]
pub struct Discarded<K: Drop, V: Drop, E: Drop> {
    unused_key: Option<UnusedKey<K>>,
    value: Option<V>,
    reply: Option<V>,
    entry: Option<Entry<K, V>>,
    copies: Option<Copies<K, V>>,
    key: Option<Arc<K>>,
    turns: DiscardedTurns<K, V, E>,
}

impl<K: Drop, V: Drop> Discards<K, V> {
    // Creates slots that drop each item at once. Does not allocate.
    pub(crate) fn new() -> Self {
        Discards {
            value: Deferred::new(),
            reply: Deferred::new(),
            entry: Deferred::new(),
            copies: Deferred::new(),
            key: Deferred::new(),
        }
    }

    // Keeps items from now on.
    fn defer(&mut self) {
        self.value.defer();
        self.reply.defer();
        self.entry.defer();
        self.copies.defer();
        self.key.defer();
    }
}

impl<K: Hash + Drop, V: Clone, C: CacheTypes<K, V>, R: RowStore<K, V>> State<K, V, C, R> {
    /// Keeps keys and values that calls no longer need until [`State::take_discarded`] takes them.
    /// Changes nothing else.
    ///
    /// It is for a state under a lock. Without it, a call drops what it does not need at once. What a
    /// call discards takes the place of what an earlier one did.
    pub fn defer_drops(&mut self)
        ensures { self.new ≡ self.old }
    {
        self.table.defer();
        self.turns.discards.defer();
        self.discards.defer();
    }

    /// Returns the keys and values that the last call no longer needed, to be dropped. Changes
    /// nothing else, and does not allocate.
    ///
    /// It returns none if [`State::defer_drops`] was not called.
    #[inline(always)]
    pub fn take_discarded(&mut self) -> Discarded<K, V, C::Error>
        ensures { self.new ≡ self.old }
    {
        Discarded {
            unused_key: self.table.take_unused_key(),
            value: self.discards.value.take(),
            reply: self.discards.reply.take(),
            entry: self.discards.entry.take(),
            copies: self.discards.copies.take(),
            key: self.discards.key.take(),
            turns: self.turns.discards.take(),
        }
    }
}
