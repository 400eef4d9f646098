//! What a recorded cache was built with.
use std::collections::LinkedList;
use std::marker::Model;

/// What a recorded cache was built with, as contracts see the settings of its state. Exists only in
/// proofs.
pub struct Built<H, W, X> {
    /// The name.
    pub name: Option<LinkedList<u8>>,
    /// The time to live, in nanoseconds.
    pub time_to_live: Option<u64>,
    /// The time to idle, in nanoseconds.
    pub time_to_idle: Option<u64>,
    /// The bound on the total weight.
    pub max_capacity: Option<u64>,
    /// The first sequence number.
    pub first_number: u64,
    /// Whether values can be invalidated by predicates.
    pub supports_closures: bool,
    /// How many entries a flush may evict.
    pub flush_limit: Option<u64>,
    /// Whether the policy is LRU.
    pub is_lru: bool,
    /// The hasher.
    pub hasher: H,
    /// The weigher.
    pub weigher: Option<W>,
    /// The expiry.
    pub expiry: Option<X>,
}

impl<H, W, X> Model for Built<H, W, X> {
    ghost use Rattle.moka_expiration.specs.StateData.{SettingsData};

    ghost Value = { SettingsData H W X };

    ghost view = { λ built. record {
      name = built.name;
      time_to_live = built.time_to_live;
      time_to_idle = built.time_to_idle;
      max_capacity = built.max_capacity;
      first_number = built.first_number;
      supports_closures = built.supports_closures;
      flush_limit = built.flush_limit;
      behaviour = record {
        is_lru = built.is_lru;
        hasher = built.hasher;
        weigher = built.weigher;
        expiry = built.expiry;
      };
    } };
}
