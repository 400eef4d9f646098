//! What is counted of the calls of a cache.
ghost use Rattle.std.specs.Prelude.{◌≡◌, ◌+◌};
ghost use Rattle.moka_stats.specs.Statistics.{after_load, after_lookup, after_removal, nothing_counted, one_more};

use moka_model::notification::RemovalCause;

/// Counts of what the calls of a cache returned. Each stops at `u64::MAX`.
///
/// A call that failed and changed nothing counts nothing.
#[derive(Clone, Copy, Debug, PartialEq, Eq)]
pub struct Statistics {
    /// Recorded lookups that returned a live value.
    pub hits: u64,
    /// Recorded lookups that did not: no value was live, or the caller turned it down.
    pub misses: u64,
    /// Initializers that gave a value.
    pub loads: u64,
    /// Initializers that failed or gave nothing, or whose value could not be stored.
    pub failed_loads: u64,
    /// Entries that were removed because they had expired.
    pub expired: u64,
    /// Entries that were invalidated or removed.
    pub explicit: u64,
    /// Values that were overwritten.
    pub replaced: u64,
    /// Entries that were evicted for size, or not admitted.
    pub size: u64,
}

impl Default for Statistics {
    /// Returns counts of 0.
    fn default() -> Self
        ensures { result ≡ nothing_counted }
    {
        Statistics {
            hits: 0,
            misses: 0,
            loads: 0,
            failed_loads: 0,
            expired: 0,
            explicit: 0,
            replaced: 0,
            size: 0,
        }
    }
}

impl Statistics {
    /// Counts a recorded lookup, by whether it returned a live value.
    pub fn record_lookup(&mut self, is_hit: bool)
        ensures { self.new ≡ after_lookup is_hit self.old }
    {
        if is_hit {
            self.hits = one_more(self.hits);
        } else {
            self.misses = one_more(self.misses);
        }
    }

    /// Counts an initializer that ran, by whether its value was stored.
    pub fn record_load(&mut self, is_stored: bool)
        ensures { self.new ≡ after_load is_stored self.old }
    {
        if is_stored {
            self.loads = one_more(self.loads);
        } else {
            self.failed_loads = one_more(self.failed_loads);
        }
    }

    /// Counts a removal, by its cause.
    pub fn record_removal(&mut self, cause: RemovalCause)
        ensures { self.new ≡ after_removal cause self.old }
    {
        match cause {
            RemovalCause::Expired => self.expired = one_more(self.expired),
            RemovalCause::Explicit => self.explicit = one_more(self.explicit),
            RemovalCause::Replaced => self.replaced = one_more(self.replaced),
            RemovalCause::Size => self.size = one_more(self.size),
        }
    }

    /// Returns how many recorded lookups were counted.
    pub fn lookups(&self) -> u128
        ensures { result ≡ self.now.hits + self.now.misses }
    {
        u128::from(self.hits) + u128::from(self.misses)
    }

    /// Returns how many entries the cache evicted itself: the expired ones, and those for size.
    pub fn evictions(&self) -> u128
        ensures { result ≡ self.now.expired + self.now.size }
    {
        u128::from(self.expired) + u128::from(self.size)
    }
}

// Returns the next count. The greatest one stays.
fn one_more(count: u64) -> u64
    ensures { result ≡ one_more count }
{
    if count < u64::MAX { count + 1 } else { count }
}
