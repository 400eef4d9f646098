//! The result of a compute.
ghost use Rattle.std.specs.Prelude.{◌≡◌, IsSome, Some};
ghost use Rattle.moka_model.specs.CompResults.{entry_in};

use crate::entry::Entry;
use std::sync::Arc;

/// What a compute did to its key, with the entry concerned.
///
/// The variants carry clones of the value. `into_entry` and `unwrap` extract the entry.
#[derive(Debug, Drop)]
pub enum CompResult<K, V> {
    /// There was no live value to keep or to remove. Holds the key.
    StillNone(Arc<K>),
    /// The operation was `Nop`. Holds the value found when the compute began.
    Unchanged(Entry<K, V>),
    /// A value was put. No live value was found when the compute began.
    Inserted(Entry<K, V>),
    /// A value was put. A live value was found when the compute began.
    ReplacedWith(Entry<K, V>),
    /// A live value was removed. Holds the removed value.
    Removed(Entry<K, V>),
}

impl<K: Drop, V> CompResult<K, V> {
    /// Returns the entry of the result, or `None` for `StillNone`.
    pub fn into_entry(self) -> Option<Entry<K, V>>
        ensures { result ≡ entry_in self }
    {
        match self {
            CompResult::StillNone(_) => None,
            CompResult::Unchanged(entry)
            | CompResult::Inserted(entry)
            | CompResult::ReplacedWith(entry)
            | CompResult::Removed(entry) => Some(entry),
        }
    }

    /// Returns the entry of the result. Requires a result other than `StillNone`.
    pub fn unwrap(self) -> Entry<K, V>
        requires { IsSome (entry_in self) }
        ensures { Some result ≡ entry_in self }
    {
        match self {
            CompResult::StillNone(_) => unreachable!(),
            CompResult::Unchanged(entry)
            | CompResult::Inserted(entry)
            | CompResult::ReplacedWith(entry)
            | CompResult::Removed(entry) => entry,
        }
    }
}
