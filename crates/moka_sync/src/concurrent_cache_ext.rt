//! What both shared caches have in common beside their calls.

use crate::cache::Cache;
use crate::segment::SegmentedCache;
use moka_policy::policy::CacheTypes;
use std::hash::Hash;
use std::sync::Wait;

/// Runs the maintenance of a shared cache.
pub trait ConcurrentCacheExt<K, V> {
    /// Calls the cache's `run_pending_tasks`.
    fn sync(&self);
}

impl<K: Hash + Drop, V: Clone, C: CacheTypes<K, V>, W: Wait> ConcurrentCacheExt<K, V>
    for Cache<K, V, C, W> {
    fn sync(&self) {
        self.run_pending_tasks();
    }
}

impl<K: Hash + Drop, V: Clone, C: CacheTypes<K, V>, W: Wait> ConcurrentCacheExt<K, V>
    for SegmentedCache<K, V, C, W> {
    fn sync(&self) {
        self.run_pending_tasks();
    }
}
