//! Removal notifications.
ghost use Rattle.std.specs.Prelude.{◌≡◌};
ghost use Rattle.moka_model.specs.Removals.{is_evicting};

use std::sync::Arc;

/// Why an entry was removed.
#[derive(Clone, Copy, Debug, PartialEq, Eq)]
pub enum RemovalCause {
    /// The entry had passed its time to live, its time to idle or its own lifetime.
    Expired,
    /// A caller invalidated or removed the entry.
    Explicit,
    /// The value was overwritten.
    Replaced,
    /// The entry was evicted, or not admitted, to keep the cache within its capacity.
    Size,
}

impl RemovalCause {
    /// Returns whether the cache evicted the entry itself: the cause is `Expired` or `Size`.
    pub fn was_evicted(&self) -> bool
        ensures { result ≡ is_evicting self.now }
    {
        match self {
            RemovalCause::Expired | RemovalCause::Size => true,
            RemovalCause::Explicit | RemovalCause::Replaced => false,
        }
    }
}

/// A removal notification: the removed value, the key it was stored under, and the cause.
#[derive(Debug, Drop)]
pub struct Notice<K, V> {
    /// The stored key: the key object of the insert that created the entry. Overwrites keep it.
    pub key: Arc<K>,
    /// The removed value.
    pub value: V,
    /// Why the value was removed.
    pub cause: RemovalCause,
}
