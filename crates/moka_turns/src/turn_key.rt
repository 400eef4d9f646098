//! The key by which a table finds an open turn.
use indexmap::Equivalent;
use moka_model::turns::Kind;
use std::hash::{Hash, Hasher};
use std::sync::Arc;

/// A kind and a key, hashed by the key's hash.
#[derive(PartialEq, Eq, Drop)]
pub struct TurnKey<K> {
    /// The hash of the key.
    pub hash: u64,
    /// The kind.
    pub kind: Kind,
    /// The key.
    pub key: Arc<K>,
}

impl<K: Eq> Hash for TurnKey<K> {
    ghost use Rattle.std.specs.Hash as fed;
    ghost use Rattle.std.specs.Cmp.Rules.{hashing};
    ghost use Rattle.std.proofs.Common.{rules};

    ghost hash_input = { λ key. fed.u64 key.hash };

    ghost respects_eq = { Prim.search (hashing, rules) };

    fn hash<H: Hasher>(&self, state: &mut H) {
        state.write_u64(self.hash);
    }
}

/// A hash, a kind and a key by reference: what finds the open turn of a [`TurnKey`] with the same
/// hash, the same kind and an equal key.
#[derive(PartialEq, Eq, Drop)]
pub struct TurnQuery<'a, K> {
    /// The hash of the key.
    pub hash: u64,
    /// The kind.
    pub kind: Kind,
    /// The key.
    pub key: &'a K,
}

impl<'a, K: Eq> Hash for TurnQuery<'a, K> {
    ghost use Rattle.std.specs.Hash as fed;
    ghost use Rattle.std.specs.Cmp.Rules.{hashing};
    ghost use Rattle.std.proofs.Common.{rules};

    ghost hash_input = { λ query. fed.u64 query.hash };

    ghost respects_eq = { Prim.search (hashing, rules) };

    fn hash<H: Hasher>(&self, state: &mut H) {
        let hash = self.hash;
        state.write_u64(hash);
    }
}

impl<'a, K: Eq> Equivalent<TurnKey<K>> for &TurnQuery<'a, K> {
    ghost use Rattle.std.specs.Hash as fed;
    ghost use Rattle.std.specs.Cmp.Rules.{hashing};
    ghost use Rattle.std.proofs.Common.{rules};
    ghost use Rattle.moka_turns.specs.TurnKey.{asked-alike, is_asked_by};

    ghost equivalent = { λ query. is_asked_by K.eq query.now };

    ghost respects_hash = { Prim.search (hashing, rules) };

    ghost respects_eq = { λ query. asked-alike K.eq K.Eq.laws query.now };

    fn equivalent(&self, key: &TurnKey<K>) -> bool {
        self.hash == key.hash && self.kind == key.kind && *self.key == *key.key
    }
}
