//! Loaders and selectors of a shared cache of several segments, each in the segment of its key.
//! Closures run with no lock held.
ghost use Rattle.std.specs.Prelude.{◌≡◌, Option, Result, true, IfOk, IfSome};
ghost use Rattle.moka_sync.specs.ReplaceIf.{TakesKeptAgain};

use crate::entry_selector::{OwnedKeyEntrySelector, RefKeyEntrySelector};
use crate::segment::SegmentedCache;
use moka_policy::policy::{CacheTypes, Refused};
use std::hash::Hash;
use std::sync::{Arc, Wait};

impl<K: Hash + Drop, V: Clone, C: CacheTypes<K, V>, W: Wait> SegmentedCache<K, V, C, W> {
    /// Calls [`Cache::entry`](crate::cache::Cache::entry) on the segment of `key`.
    pub fn entry(&self, key: K) -> OwnedKeyEntrySelector<'_, K, V, C, W>
        ensures { result.key ≡ key }
    {
        self.segment(&key).entry(key)
    }

    /// Calls [`Cache::get_with`](crate::cache::Cache::get_with) on the segment of `key`. `init` may
    /// use every segment.
    pub fn get_with<F: FnOnce() -> V + Drop>(&self, key: K, init: F) -> Result<V, Refused>
        requires asks { F.IsAlwaysCallable init }
        requires keeps { (v : V) → F.post init v → C.keeps key v }
        ensures kept { IfOk result (C.keeps key) }
    {
        self.segment(&key).get_with(key, init)
    }

    /// Calls [`SegmentedCache::get_with`], by its older name.
    #[deprecated(note = "replaced by `get_with`")]
    pub fn get_or_insert_with<F: FnOnce() -> V + Drop>(&self, key: K, init: F) -> Result<V, Refused>
        requires asks { F.IsAlwaysCallable init }
        requires keeps { (v : V) → F.post init v → C.keeps key v }
        ensures kept { IfOk result (C.keeps key) }
    {
        self.get_with(key, init)
    }

    /// Calls [`Cache::get_with_if`](crate::cache::Cache::get_with_if) on the segment of `key`.
    ///
    /// `entry` and `or_insert_with_if` do the same.
    pub fn get_with_if<F: FnOnce() -> V + Drop, P: FnMut(&V) -> bool + Drop>(
        &self,
        key: K,
        init: F,
        replace_if: P,
    ) -> Result<V, Refused>
        requires asks { F.IsAlwaysCallable init }
        requires shows { TakesKeptAgain (C.keeps key) P.FnMut replace_if }
        requires keeps { (v : V) → F.post init v → C.keeps key v }
        ensures kept { IfOk result (C.keeps key) }
    {
        self.segment(&key).get_with_if(key, init, replace_if)
    }

    /// Calls [`Cache::optionally_get_with`](crate::cache::Cache::optionally_get_with) on the
    /// segment of `key`.
    pub fn optionally_get_with<F: FnOnce() -> Option<V> + Drop>(
        &self,
        key: K,
        init: F,
    ) -> Result<Option<V>, Refused>
        requires asks { F.IsAlwaysCallable init }
        requires keeps { (o : Option V) → F.post init o → IfSome o (C.keeps key) }
        ensures kept { IfOk result (λ found. IfSome found (C.keeps key)) }
    {
        self.segment(&key).optionally_get_with(key, init)
    }

    /// Calls [`Cache::try_get_with`](crate::cache::Cache::try_get_with) on the segment of `key`.
    pub fn try_get_with<F: FnOnce() -> Result<V, C::Error> + Drop>(
        &self,
        key: K,
        init: F,
    ) -> Result<Result<V, Arc<C::Error>>, Refused>
        requires asks { F.IsAlwaysCallable init }
        requires keeps { (r : Result V C.Error) → F.post init r → IfOk r (C.keeps key) }
        ensures kept { IfOk result (λ tried. IfOk tried (C.keeps key)) }
    {
        self.segment(&key).try_get_with(key, init)
    }

    /// Calls [`SegmentedCache::try_get_with`], by its older name.
    #[deprecated(note = "replaced by `try_get_with`")]
    pub fn get_or_try_insert_with<F: FnOnce() -> Result<V, C::Error> + Drop>(
        &self,
        key: K,
        init: F,
    ) -> Result<Result<V, Arc<C::Error>>, Refused>
        requires asks { F.IsAlwaysCallable init }
        requires keeps { (r : Result V C.Error) → F.post init r → IfOk r (C.keeps key) }
        ensures kept { IfOk result (λ tried. IfOk tried (C.keeps key)) }
    {
        self.try_get_with(key, init)
    }
}

impl<K: Hash + Clone + Drop, V: Clone, C: CacheTypes<K, V>, W: Wait> SegmentedCache<K, V, C, W> {
    /// Calls [`Cache::entry_by_ref`](crate::cache::Cache::entry_by_ref) on the segment of `key`.
    pub fn entry_by_ref<'a>(&'a self, key: &'a K) -> RefKeyEntrySelector<'a, K, V, C, W>
        ensures { result.key.now ≡ key.entry.now }
    {
        self.segment(key).entry_by_ref(key)
    }

    /// Calls [`Cache::get_with_by_ref`](crate::cache::Cache::get_with_by_ref) on the segment of
    /// `key`.
    pub fn get_with_by_ref<F: FnOnce() -> V + Drop>(&self, key: &K, init: F) -> Result<V, Refused>
        requires copies { (a b : K) → K.is_clone a b → K.eq a b ≡ true }
        requires asks { F.IsAlwaysCallable init }
        requires keeps { (v : V) → F.post init v → C.keeps key.now v }
        ensures kept { IfOk result (C.keeps key.now) }
    {
        self.segment(key).get_with_by_ref(key, init)
    }

    /// Calls [`Cache::optionally_get_with_by_ref`](crate::cache::Cache::optionally_get_with_by_ref)
    /// on the segment of `key`.
    pub fn optionally_get_with_by_ref<F: FnOnce() -> Option<V> + Drop>(
        &self,
        key: &K,
        init: F,
    ) -> Result<Option<V>, Refused>
        requires copies { (a b : K) → K.is_clone a b → K.eq a b ≡ true }
        requires asks { F.IsAlwaysCallable init }
        requires keeps { (o : Option V) → F.post init o → IfSome o (C.keeps key.now) }
        ensures kept { IfOk result (λ found. IfSome found (C.keeps key.now)) }
    {
        self.segment(key).optionally_get_with_by_ref(key, init)
    }

    /// Calls [`Cache::try_get_with_by_ref`](crate::cache::Cache::try_get_with_by_ref) on the
    /// segment of `key`.
    pub fn try_get_with_by_ref<F: FnOnce() -> Result<V, C::Error> + Drop>(
        &self,
        key: &K,
        init: F,
    ) -> Result<Result<V, Arc<C::Error>>, Refused>
        requires copies { (a b : K) → K.is_clone a b → K.eq a b ≡ true }
        requires asks { F.IsAlwaysCallable init }
        requires keeps { (r : Result V C.Error) → F.post init r → IfOk r (C.keeps key.now) }
        ensures kept { IfOk result (λ tried. IfOk tried (C.keeps key.now)) }
    {
        self.segment(key).try_get_with_by_ref(key, init)
    }
}
