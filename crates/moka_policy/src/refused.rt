//! The errors of writes that hand back what they were given.
//!
//! They are in the crate of [`Refused`], so that `?` converts them in a program that lists `moka`
//! alone.
ghost use Rattle.std.specs.Prelude.{◌≡◌};

use crate::policy::Refused;
use thiserror::Error;

/// The error of a failed `insert`, with the key and the value that it was given.
#[derive(Debug, Drop, Error)]
#[error("insert failed ({cause}) and changed nothing: key and value are handed back, to try again with \
     more memory, or with another cache if its numbers are used up")]
pub struct InsertRefused<K, V> {
    /// The key, as it was given.
    pub key: K,
    /// The value, as it was given.
    pub value: V,
    /// Why the call failed.
    pub cause: Refused,
}

impl<K: Drop, V: Drop> From<InsertRefused<K, V>> for Refused {
    ghost from_gives = { λ refused cause. cause ≡ refused.cause };

    fn from(refused: InsertRefused<K, V>) -> Refused {
        refused.cause
    }
}

/// The error of a failed `or_insert`, with the value that it was given.
#[derive(Debug, Drop, Error)]
#[error("or_insert failed ({cause}) and changed nothing: the value is handed back, to try again with \
     more memory, or with another cache if its numbers are used up")]
pub struct OrInsertRefused<V> {
    /// The value, as it was given.
    pub value: V,
    /// Why the call failed.
    pub cause: Refused,
}

impl<V: Drop> From<OrInsertRefused<V>> for Refused {
    ghost from_gives = { λ refused cause. cause ≡ refused.cause };

    fn from(failed: OrInsertRefused<V>) -> Refused {
        failed.cause
    }
}
