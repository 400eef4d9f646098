//! Byte strings as keys.
ghost use Rattle.std.specs.Prelude.{◌≡◌, [], nat_eq, IfOk, OnOk};
ghost use Rattle.std.specs.Hash as fed;
ghost use Rattle.std.specs.Cmp.Lexicographic.{pointwise, nat_list_eq_equiv};
ghost use Rattle.std.specs.Cmp.{partial_equiv_from_equiv};
ghost use Rattle.std.specs.Cmp.Rules.{hashing};
ghost use Rattle.std.proofs.Common.{rules};

use std::alloc::{AllocError, Global};
use std::hash::{Hash, Hasher};
use std::marker::Model;

/// A byte string. Contracts see its bytes.
#[derive(Drop)]
pub struct Key {
    bytes: Vec<u8>,
}

impl Model for Key {
    ghost use Rattle.std.specs.Prelude.{ℕ, List};

    ghost Value = { List ℕ };

    ghost view = { λ key. key.bytes.items };
}

impl Key {
    /// Creates an empty byte string. Does not allocate.
    pub fn new(alloc: Global) -> Key
        ensures { result ≡ [] }
    {
        Key {
            bytes: Vec::new(alloc),
        }
    }

    /// Creates a copy of these bytes.
    ///
    /// # Errors
    ///
    /// - `AllocError`: an allocation failed.
    pub fn of(alloc: Global, bytes: &[u8]) -> Result<Key, AllocError>
        ensures { IfOk result (λ key. key ≡ bytes.now) }
    {
        Ok(Key {
            bytes: Vec::from_slice(alloc, bytes)?,
        })
    }

    /// Puts these bytes in the place of its own. Allocates only if they are longer than any before.
    ///
    /// # Errors
    ///
    /// - `AllocError`: an allocation failed. The byte string is then empty.
    pub fn set(&mut self, bytes: &[u8]) -> Result<(), AllocError>
        ensures { OnOk result (self.new ≡ bytes.now) }
    {
        self.bytes.clear();
        self.bytes.extend_from_slice(bytes)
    }

    /// Returns its bytes.
    pub fn as_slice(&self) -> &[u8]
        ensures { result.now ≡ self.now }
    {
        self.bytes.as_slice()
    }
}

impl PartialEq for Key {
    ghost eq = { pointwise nat_eq };

    ghost laws = { partial_equiv_from_equiv nat_list_eq_equiv };

    fn eq(&self, other: &Self) -> bool {
        self.as_slice() == other.as_slice()
    }
}

impl Eq for Key {
    ghost laws = { nat_list_eq_equiv };
}

impl Hash for Key {
    ghost hash_input = { fed.slice fed.u8 };

    ghost respects_eq = { Prim.search (hashing, rules) };

    fn hash<H: Hasher>(&self, state: &mut H) {
        self.as_slice().hash(state);
    }
}
