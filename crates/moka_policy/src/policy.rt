//! The types that a cache is made of, the hasher of number keys, and the errors of a cache's calls.
ghost use Rattle.std.specs.Prelude.{◌≡◌, ℕ, Bool, true, false, not};
ghost use Rattle.moka_model.specs.Lives.{Lifetimes};
ghost use Rattle.moka_policy.specs.NumberHash.{number_hash};
ghost use Rattle.moka_policy.specs.Policy.{is_lru, policy_with};

pub use crate::clock::{Clock, ManualClock};
pub use crate::expiry::{ExpireBy, Expiry, NoExpiry};
pub use crate::frequency::{CountTable, FrequencySource};
pub use crate::listener::{ListenBy, Listener, NoListener};
pub use crate::predicate::{HoldsIf, NoPredicate, Predicate};
pub use crate::weigher::{NoWeigher, WeighBy, Weigher};
use std::hash::{BuildHasher, Hasher};
use std::time::Duration;
use thiserror::Error;

/// The types of one kind of cache, and the value invariant between its keys and values.
pub trait CacheTypes<K: Eq, V: Clone> {
    /// Builds the hasher of the cache's keys.
    type Hasher: BuildHasher + Drop;

    /// Weighs the entries, if the cache is given a weigher.
    type Weigher: Weigher<K, V> + Drop;

    /// Gives entries lifetimes of their own, if the cache is given an expiry.
    type Expiry: Expiry<K, V> + Drop;

    /// Selects the stored entries that a mass invalidation invalidates.
    type Predicate: Predicate<K, V> + Drop;

    /// Estimates how often each key was looked up.
    type Frequency: FrequencySource;

    /// Receives the removals of a shared cache, if the cache is given a listener.
    type Listener: Listener<K, V> + Drop;

    /// Returns the moments of the calls of a shared cache.
    type Clock: Clock + Drop;

    /// The error with which computing a value may fail.
    type Error: Drop;

    /// The weight of a key with a value, as the cache's weigher computes it.
    ghost weight: { Self.Weigher → K → V → ℕ };

    /// Equal keys have the same weight with the same value.
    ghost equal_keys_weigh: { (weigher : Self.Weigher) (a b : K) (v : V) → K.eq a b ≡ true
        → weight weigher a v ≡ weight weigher b v };

    /// The lifetimes of single entries, as the cache's expiry computes them.
    ghost lifetimes: { Self.Expiry → Lifetimes K V };

    /// The test of keys and values that a predicate computes.
    ghost test: { Self.Predicate → K → V → Bool };

    /// The value invariant: holds of each key and value that the cache stores. Every writer must
    /// prove it.
    ghost keeps: { K → V → Type 0 };

    /// The value invariant does not distinguish equal keys.
    ghost equal_keys_keep: { (a b : K) (v : V) → K.eq a b ≡ true → keeps a v → keeps b v };

    /// The value invariant holds of each clone of a value of which it holds.
    ghost copies_keep: { (k : K) (v w : V) → V.is_clone v w → keeps k v → keeps k w };

    /// A clone of a clone is a clone.
    ghost copies_compose: { (u v w : V) → V.is_clone u v → V.is_clone v w → V.is_clone u w };
}

/// Why a step failed. A failed step leaves the cache unchanged.
#[derive(Clone, Copy, Debug, PartialEq, Eq, Error)]
pub enum Refused {
    /// An allocation failed: for growing the cache or for a clone.
    #[error("OutOfMemory")]
    OutOfMemory,
    /// No sequence number is left for the step to draw. Or it would have waited for a turn that
    /// already has as many waiting callers as can be counted.
    #[error("NumbersUsedUp")]
    NumbersUsedUp,
    /// No open turn has the given name, or the outcome does not fit its kind.
    #[error("UnknownTurn")]
    UnknownTurn,
    /// No turn with the given name has an unspent ticket.
    #[error("UnknownTicket")]
    UnknownTicket,
    /// A turn of the key is open, so the call would have to wait for it.
    #[error("TurnIsOpen")]
    TurnIsOpen,
    /// The call waited for as many turns of other callers as it may, and each was abandoned.
    #[error("WaitsAbandoned")]
    WaitsAbandoned,
}

/// Which entries are evicted when a cache exceeds its capacity, and which pending ones are
/// admitted. An entry heavier than the capacity is never admitted.
///
/// The default is [`EvictionPolicy::tiny_lfu`].
#[derive(Clone, Copy, Debug)]
pub struct EvictionPolicy {
    kind: Kind,
}

#[derive(Clone, Copy, Debug)]
enum Kind {
    Lru,
    TinyLfu,
}

impl EvictionPolicy {
    /// Creates the policy that evicts the least recently used entries and admits each pending one.
    pub fn lru() -> Self
        ensures { is_lru result ≡ true }
    {
        EvictionPolicy { kind: Kind::Lru }
    }

    /// Creates the policy that admits a pending entry only if it is more frequent than its victims.
    ///
    /// It is admitted if it has no victims, or if its frequency is greater than the sum of theirs.
    /// Then the victims are evicted: the least recently used entries, as many as make room for it.
    /// The cache's frequency source estimates the frequencies.
    pub fn tiny_lfu() -> Self
        ensures { is_lru result ≡ false }
    {
        EvictionPolicy {
            kind: Kind::TinyLfu,
        }
    }

    /// Returns whether this is [`EvictionPolicy::tiny_lfu`].
    #[inline(always)]
    pub fn is_tiny_lfu(&self) -> bool
        ensures { result ≡ not (is_lru self.now) }
    {
        match self.kind {
            Kind::Lru => false,
            Kind::TinyLfu => true,
        }
    }
}

impl Default for EvictionPolicy {
    fn default() -> Self
        ensures { is_lru result ≡ false }
    {
        EvictionPolicy::tiny_lfu()
    }
}

/// The capacity, the number of segments and the times that a cache was built with.
#[derive(Clone, Copy, Debug, PartialEq, Eq)]
pub struct Policy {
    max_capacity: Option<u64>,
    num_segments: usize,
    time_to_live: Option<Duration>,
    time_to_idle: Option<Duration>,
}

impl Policy {
    /// Creates a policy of these four settings.
    pub fn new(
        max_capacity: Option<u64>,
        num_segments: usize,
        time_to_live: Option<Duration>,
        time_to_idle: Option<Duration>,
    ) -> Self
        ensures { result ≡ policy_with max_capacity num_segments time_to_live time_to_idle }
    {
        Policy {
            max_capacity,
            num_segments,
            time_to_live,
            time_to_idle,
        }
    }

    /// Returns the bound on the total weight of the resident entries, or `None` if there is no
    /// bound.
    pub fn max_capacity(&self) -> Option<u64>
        ensures { result ≡ self.now.max_capacity }
    {
        self.max_capacity
    }

    /// Returns the number of segments of the cache.
    pub fn num_segments(&self) -> usize
        ensures { result ≡ self.now.num_segments }
    {
        self.num_segments
    }

    /// Returns how long an entry lives after it was written, or `None` if that has no limit.
    pub fn time_to_live(&self) -> Option<Duration>
        ensures { result ≡ self.now.time_to_live }
    {
        self.time_to_live
    }

    /// Returns how long an entry lives after its last access or write, or `None` if that has no
    /// limit.
    pub fn time_to_idle(&self) -> Option<Duration>
        ensures { result ≡ self.now.time_to_idle }
    {
        self.time_to_idle
    }
}

/// A hasher that hashes a `u64` key to that number.
///
/// Each byte `b` that is written sets the hash to `hash / 256 + b * 2^56`. So the eight bytes of a
/// number, the least significant first, leave the number.
#[derive(Clone, Copy, Debug, Default, PartialEq, Eq)]
pub struct NumberHash {
    hash: u64,
}

impl Hasher for NumberHash {
    ghost write = { λ hasher bytes. record { hash = number_hash hasher.hash bytes } };

    ghost finish = { λ hasher. hasher.hash };

    fn finish(&self) -> u64 {
        self.hash
    }

    fn write(&mut self, bytes: &[u8]) {
        for byte in bytes {
            self.hash = self.hash / 256 + (u64::from(*byte) << 56);
        }
    }
}
