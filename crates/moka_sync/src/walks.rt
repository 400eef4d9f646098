//! Iteration over a shared cache. It holds no lock between two steps.
ghost use Rattle.std.specs.Prelude.{◌≡◌, ◌∷◌, []};
ghost use Rattle.moka_iter.specs.Walks.{start};

use crate::cache::Cache;
use moka_iter::iter::{Iter, ScanningGet};
use moka_policy::policy::{CacheTypes, Refused};
use std::hash::Hash;
use std::slice;
use std::sync::{Arc, Wait};

impl<K: Hash + Drop, V: Clone, C: CacheTypes<K, V>, W: Wait> ScanningGet<K, V>
    for Cache<K, V, C, W> {
    ghost use Rattle.std.specs.Prelude.{⊤, IfOk, IfSome};

    ghost stands = { λ _ _. ⊤ };

    ghost finds = { λ _ key result. IfOk result (λ found. IfSome found (C.keeps key)) };

    fn num_cht_segments(&self) -> usize {
        1
    }

    fn scanning_get(&self, key: &Arc<K>) -> Result<Option<V>, Refused> {
        self.lock().scan_get(&**key)
    }

    fn keys(&self, segment: usize) -> Result<Option<Vec<Arc<K>>>, Refused> {
        if segment != 0 {
            return Ok(None);
        }
        Ok(Some(self.lock().keys()?))
    }
}

impl<K: Hash + Drop, V: Clone, C: CacheTypes<K, V>, W: Wait> Cache<K, V, C, W> {
    /// Returns an iterator over the live pairs, each key at most once, in no order.
    ///
    /// It takes the lock at each step, and holds none between two steps, so the cache may be used
    /// meanwhile. A key that is live from the start to the end is yielded, or an `Err` if its value
    /// cannot be cloned. One that is written later may be yielded or not. Does not count as an
    /// access. Each value satisfies `keeps` with its key; no clause says which keys come.
    ///
    /// # Errors
    ///
    /// A step yields one `Err`, and the iteration goes on:
    ///
    /// - `OutOfMemory`: allocating the list of keys or cloning a value failed.
    ///
    /// ```
    /// for pair in cache.iter() {
    ///     let (_, page) = pair?;
    ///     sum = sum.wrapping_add(page);
    /// }
    /// ```
    pub fn iter(&self) -> Iter<'_, K, V, Cache<K, V, C, W>>
        ensures caches { result.caches ≡ self.entry.now ∷ [] }
        ensures start { result.cursor ≡ start }
    {
        Iter::new(slice::from_ref(self))
    }
}

impl<'i, K: Hash + Drop, V: Clone, C: CacheTypes<K, V>, W: Wait> IntoIterator
    for &'i Cache<K, V, C, W> {
    ghost use Rattle.std.specs.Prelude.{◌≡◌, ◌∷◌, []};
    ghost use Rattle.moka_iter.specs.Walks.{start};

    type Item = Result<(Arc<K>, V), Refused>;

    type IntoIter = Iter<'i, K, V, Cache<K, V, C, W>>;

    ghost into_iter_gives = { λ cache walk. (walk.caches ≡ cache.now ∷ [])
        × (walk.cursor ≡ start) };

    /// Returns [`Cache::iter`].
    fn into_iter(self) -> Iter<'i, K, V, Cache<K, V, C, W>> {
        self.iter()
    }
}
