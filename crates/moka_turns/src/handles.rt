//! What a caller holds of a turn. Neither handle can be dropped: one call consumes each.
ghost use Rattle.std.specs.Prelude.{◌≡◌, IfOk};
ghost use Rattle.std.specs.Arc.{arc_value};
ghost use Rattle.moka_turns.specs.Represents.{name_of};

use crate::turn_key::TurnKey;
use moka_model::turns::Kind;
use moka_policy::policy::Refused;
use std::alloc::AllocError;
use std::sync::Arc;

/// The right and the duty to end a turn: the single-flight permit. Dropping one does not compile.
pub struct Turn<K> {
    pub(crate) key: TurnKey<K>,
    pub(crate) number: u64,
}

/// The right to the result of someone else's turn. It has to be collected or left; dropping one
/// does not compile.
pub struct Ticket<K> {
    pub(crate) key: TurnKey<K>,
    pub(crate) number: u64,
}

/// A failed `collect`.
pub struct CollectRefused<K> {
    /// The ticket, as it was given.
    pub ticket: Ticket<K>,
    /// Why the call failed.
    pub cause: Refused,
}

impl<K> Turn<K> {
    /// Returns the sequence number of the turn.
    pub fn number(&self) -> u64
        ensures { result ≡ self.now.number }
    {
        self.number
    }

    /// Returns the kind of the turn.
    pub fn kind(&self) -> Kind
        ensures { result ≡ self.now.key.kind }
    {
        self.key.kind
    }

    /// Returns the key of the turn.
    pub fn key(&self) -> &K
        ensures { result.now ≡ arc_value self.now.key.key }
    {
        &*self.key.key
    }

    /// Returns the same turn with this hash of its key, by which it is found.
    #[doc(hidden)]
    pub fn with_hash(self, hash: u64) -> Turn<K>
        ensures hash { result.key.hash ≡ hash }
        ensures name { name_of result.key result.number ≡ name_of self.key self.number }
    {
        let Turn { key, number } = self;
        let TurnKey { hash: _, kind, key } = key;
        Turn {
            key: TurnKey { hash, kind, key },
            number,
        }
    }
}

impl<K: Drop> Turn<K> {
    /// Returns the key of the turn, shared.
    ///
    /// # Errors
    ///
    /// - `AllocError`: an allocation failed.
    #[doc(hidden)]
    pub fn shared_key(&self) -> Result<Arc<K>, AllocError>
        ensures { IfOk result (λ key. arc_value key ≡ arc_value self.now.key.key) }
    {
        self.key.key.clone()
    }
}

impl<K> Ticket<K> {
    /// Returns the sequence number of the ticket's turn.
    pub fn number(&self) -> u64
        ensures { result ≡ self.now.number }
    {
        self.number
    }

    /// Returns the kind of the ticket's turn.
    pub fn kind(&self) -> Kind
        ensures { result ≡ self.now.key.kind }
    {
        self.key.kind
    }

    /// Returns the key of the ticket's turn.
    pub fn key(&self) -> &K
        ensures { result.now ≡ arc_value self.now.key.key }
    {
        &*self.key.key
    }

    /// Returns the same ticket with this hash of its key, by which its turn is found.
    #[doc(hidden)]
    pub fn with_hash(self, hash: u64) -> Ticket<K>
        ensures hash { result.key.hash ≡ hash }
        ensures name { name_of result.key result.number ≡ name_of self.key self.number }
    {
        let Ticket { key, number } = self;
        let TurnKey { hash: _, kind, key } = key;
        Ticket {
            key: TurnKey { hash, kind, key },
            number,
        }
    }
}
