//! The settings of a cache, as C gives them.
ghost use Rattle.std.specs.Prelude.{◌≡◌, ◌≢◌, false, Some, IsSome, IfErr, OnOk, option_map};
ghost use Rattle.std.specs.Duration.{as_nanos};
ghost use Rattle.moka_policy.specs.Policy.{is_lru};
ghost use Rattle.moka_c.specs.Settings.{limit_of, is_lru_of, refused_of};

use crate::code;
use moka_policy::builder_utils::{BuildError, ensure_flush_limit};
use moka_policy::policy::EvictionPolicy;
use std::time::Duration;

/// A number that may be left out.
#[repr(C)]
#[derive(Clone, Copy)]
pub struct Limit {
    /// Whether there is a number.
    pub is_set: bool,
    /// The number, if there is one.
    pub value: u64,
}

impl Limit {
    // Returns the number.
    pub(crate) fn get(self) -> Option<u64>
        ensures { result ≡ limit_of self }
    {
        if self.is_set { Some(self.value) } else { None }
    }

    // Returns the time that the number says in nanoseconds.
    pub(crate) fn duration(self) -> Option<Duration>
        ensures { option_map as_nanos result ≡ limit_of self }
    {
        match self.get() {
            Some(nanos) => Some(Duration::from_nanos(nanos)),
            None => None,
        }
    }
}

/// The settings of a cache.
#[repr(C)]
#[derive(Clone, Copy)]
pub struct CacheSettings {
    /// The bound on the total weight of the resident entries; without a weigher, on their number.
    pub max_capacity: Limit,
    /// How long an entry lives after its last write, in nanoseconds.
    pub time_to_live: Limit,
    /// How long an entry lives after its last access or write, in nanoseconds.
    pub time_to_idle: Limit,
    /// How many entries a flush may evict: at least 1, and none beside a weigher.
    pub flush_limit: Limit,
    /// For how many entries room is allocated when the cache is opened.
    pub initial_capacity: usize,
    /// The first sequence number that a write draws.
    pub first_number: u64,
    /// The eviction policy: 0 is TinyLFU, 1 is LRU.
    pub policy: u32,
    /// Whether an entry weighs as many bytes as its key and its value have. Without, it weighs 1.
    pub weighs_bytes: bool,
}

impl CacheSettings {
    // Returns the eviction policy.
    pub(crate) fn eviction_policy(&self) -> EvictionPolicy
        ensures { is_lru result ≡ is_lru_of self.now }
    {
        if self.policy == 1 {
            EvictionPolicy::lru()
        } else {
            EvictionPolicy::tiny_lfu()
        }
    }

    // Checks the policy's number, and the flush limit. Returns the number of the error.
    pub(crate) fn ensure_usable(&self, has_weigher: bool) -> Result<(), u32>
        ensures cause { IfErr result (λ number. number ≡ refused_of self.now has_weigher) }
        ensures usable { OnOk result (refused_of self.now has_weigher ≡ 2) }
        ensures limits { OnOk result (limit_of self.now.flush_limit ≢ Some 0) }
        ensures unweighed { OnOk result
            (IsSome (limit_of self.now.flush_limit) → has_weigher ≡ false) }
    {
        if 1 < self.policy {
            return Err(code::UNKNOWN_POLICY);
        }
        match ensure_flush_limit(self.flush_limit.get(), has_weigher) {
            Ok(()) => Ok(()),
            Err(BuildError::ZeroFlushLimit) => Err(code::ZERO_FLUSH_LIMIT),
            Err(_) => Err(code::FLUSH_LIMIT_WITH_WEIGHER),
        }
    }
}
