//! Loaders of a shared cache: they return the live value, or run a closure and store its result.
//! Concurrent calls for one key and kind are coalesced: one runs its closure, the others wait for
//! the outcome.
ghost use Rattle.std.specs.Prelude.{◌≡◌, Option, Result, true, IfOk, IfSome};
ghost use Rattle.moka_sync.specs.ReplaceIf.{TakesKeptAgain};

use crate::cache::Cache;
use crate::entry_forms::none_like;
use moka_policy::policy::{CacheTypes, Refused};
use std::hash::Hash;
use std::sync::{Arc, Wait};

impl<K: Hash + Drop, V: Clone, C: CacheTypes<K, V>, W: Wait> Cache<K, V, C, W> {
    /// Returns a clone of the live value for `key`. If there is none, runs `init`, inserts its
    /// result and returns a clone of that.
    ///
    /// If another caller is computing the key, sleeps until that has ended, and returns a clone of
    /// its value. If that was abandoned, begins again. `init` runs at most once, with no lock held.
    /// A hit costs a `get`, and allocates only the clone.
    ///
    /// The prover asks that every result of `init` satisfies `keeps` with `key`. So does what is
    /// returned.
    ///
    /// # Errors
    ///
    /// If storing the result fails, drops it and abandons the turn.
    ///
    /// - `OutOfMemory`: an allocation or a clone failed.
    /// - `NumbersUsedUp`: no sequence number is left, or the open turn has 2^64 - 1 unspent
    ///   tickets.
    /// - `WaitsAbandoned`: the call waited for 200 turns, and each was abandoned.
    /// - `UnknownTurn`, `UnknownTicket`: somebody else has spent the call's turn or ticket.
    ///
    /// ```
    /// let page = cache.get_with(number, || render(number))?;
    /// ```
    pub fn get_with<F: FnOnce() -> V + Drop>(&self, key: K, init: F) -> Result<V, Refused>
        requires asks { F.IsAlwaysCallable init }
        requires keeps { (v : V) → F.post init v → C.keeps key v }
        ensures kept { IfOk result (C.keeps key) }
    {
        let entry = self.load(key, init)?;
        Ok(entry.into_value())
    }

    /// Does what [`Cache::get_with`] does, but treats a live value as absent if `replace_if`
    /// returns true for it.
    ///
    /// `replace_if` runs under the lock, and may run more than once: once in each begin, at the live
    /// value. The prover asks that it may be called at each value that satisfies `keeps` with `key`,
    /// and again after each such call. A hit allocates for the key too.
    ///
    /// Deprecated: `entry` and `or_insert_with_if` do the same.
    ///
    /// # Errors
    ///
    /// As [`Cache::get_with`].
    #[deprecated(note = "replaced by `entry` and `or_insert_with_if`")]
    pub fn get_with_if<F: FnOnce() -> V + Drop, P: FnMut(&V) -> bool + Drop>(
        &self,
        key: K,
        init: F,
        replace_if: P,
    ) -> Result<V, Refused>
        requires asks { F.IsAlwaysCallable init }
        requires shows { TakesKeptAgain (C.keeps key) P.FnMut replace_if }
        requires keeps { (v : V) → F.post init v → C.keeps key v }
        ensures kept { IfOk result (C.keeps key) }
    {
        let entry = self.load_if(key, init, replace_if)?;
        Ok(entry.into_value())
    }

    /// Does what [`Cache::get_with`] does, for an `init` that may return `None`. Then it stores
    /// nothing and returns `None`.
    ///
    /// # Errors
    ///
    /// As [`Cache::get_with`].
    #[tactic(auto, using(moka_state::proofs::Loaders::optional_owes))]
    pub fn optionally_get_with<F: FnOnce() -> Option<V> + Drop>(
        &self,
        key: K,
        init: F,
    ) -> Result<Option<V>, Refused>
        requires asks { F.IsAlwaysCallable init }
        requires keeps { (o : Option V) → F.post init o → IfSome o (C.keeps key) }
        ensures kept { IfOk result (λ found. IfSome found (C.keeps key)) }
    {
        match self.load(key, init)? {
            Some(entry) => Ok(Some(entry.into_value())),
            None => Ok(None),
        }
    }

    /// Does what [`Cache::get_with`] does, for an `init` that may fail. Then it stores nothing and
    /// returns the error in an `Arc`, as do all calls that waited for it.
    ///
    /// # Errors
    ///
    /// The outer error is the cache's own: as [`Cache::get_with`], and
    ///
    /// - `OutOfMemory`: allocating the `Arc` failed. The turn is abandoned.
    #[tactic(auto, using(moka_state::proofs::Loaders::tried_owes))]
    pub fn try_get_with<F: FnOnce() -> Result<V, C::Error> + Drop>(
        &self,
        key: K,
        init: F,
    ) -> Result<Result<V, Arc<C::Error>>, Refused>
        requires asks { F.IsAlwaysCallable init }
        requires keeps { (r : Result V C.Error) → F.post init r → IfOk r (C.keeps key) }
        ensures kept { IfOk result (λ tried. IfOk tried (C.keeps key)) }
    {
        match self.load(key, init)? {
            Ok(entry) => Ok(Ok(entry.into_value())),
            Err(error) => Ok(Err(error)),
        }
    }
}

impl<K: Hash + Clone + Drop, V: Clone, C: CacheTypes<K, V>, W: Wait> Cache<K, V, C, W> {
    /// Does what [`Cache::get_with`] does, for a key by reference. Clones the key on a miss.
    ///
    /// The prover asks that a clone of a key equals it.
    ///
    /// # Errors
    ///
    /// As [`Cache::get_with`].
    pub fn get_with_by_ref<F: FnOnce() -> V + Drop>(&self, key: &K, init: F) -> Result<V, Refused>
        requires copies { (a b : K) → K.is_clone a b → K.eq a b ≡ true }
        requires asks { F.IsAlwaysCallable init }
        requires keeps { (v : V) → F.post init v → C.keeps key.now v }
        ensures kept { IfOk result (C.keeps key.now) }
    {
        let entry = self.load_by_ref(key, init)?;
        Ok(entry.into_value())
    }

    /// Does what [`Cache::optionally_get_with`] does, for a key by reference. Clones the key on a
    /// miss.
    ///
    /// The prover asks that a clone of a key equals it.
    ///
    /// # Errors
    ///
    /// As [`Cache::get_with`].
    #[tactic(auto, using(moka_state::proofs::Loaders::optional_owes))]
    pub fn optionally_get_with_by_ref<F: FnOnce() -> Option<V> + Drop>(
        &self,
        key: &K,
        init: F,
    ) -> Result<Option<V>, Refused>
        requires copies { (a b : K) → K.is_clone a b → K.eq a b ≡ true }
        requires asks { F.IsAlwaysCallable init }
        requires keeps { (o : Option V) → F.post init o → IfSome o (C.keeps key.now) }
        ensures kept { IfOk result (λ found. IfSome found (C.keeps key.now)) }
    {
        match self.load_by_ref(key, init)? {
            Some(entry) => Ok(Some(entry.into_value())),
            None => Ok(None),
        }
    }

    /// Does what [`Cache::try_get_with`] does, for a key by reference. Clones the key on a miss.
    ///
    /// The prover asks that a clone of a key equals it.
    ///
    /// # Errors
    ///
    /// As [`Cache::try_get_with`].
    #[tactic(auto, using(moka_state::proofs::Loaders::tried_owes))]
    pub fn try_get_with_by_ref<F: FnOnce() -> Result<V, C::Error> + Drop>(
        &self,
        key: &K,
        init: F,
    ) -> Result<Result<V, Arc<C::Error>>, Refused>
        requires copies { (a b : K) → K.is_clone a b → K.eq a b ≡ true }
        requires asks { F.IsAlwaysCallable init }
        requires keeps { (r : Result V C.Error) → F.post init r → IfOk r (C.keeps key.now) }
        ensures kept { IfOk result (λ tried. IfOk tried (C.keeps key.now)) }
    {
        match self.load_by_ref(key, init)? {
            Ok(entry) => Ok(Ok(entry.into_value())),
            Err(error) => Ok(Err(error)),
        }
    }
}
