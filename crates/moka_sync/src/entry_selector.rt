//! Selectors of a shared cache: a key, for one call. Closures run with no lock held.
ghost use Rattle.std.specs.Prelude.{◌≡◌, Option, Result, true, IfOk, IfSome};
ghost use Rattle.std.specs.Arc.{arc_value};
ghost use Rattle.moka_state.specs.Begin.{EntryKeeps};
ghost use Rattle.moka_state.specs.Finish.{OutcomeKeeps};
ghost use Rattle.moka_guarded.specs.Kept.{ResultKeeps};
ghost use Rattle.moka_sync.specs.ReplaceIf.{TakesKeptAgain};

use crate::cache::Cache;
use moka_model::comp_result::CompResult;
use moka_model::entry::Entry;
use moka_model::turns::{Op, Outcome};
use moka_policy::policy::{CacheTypes, Refused};
use std::hash::Hash;
use std::sync::{Arc, Wait};

/// A key of a shared cache, for exactly one call. [`Cache::entry`] makes it. Nothing is looked up
/// before that call.
pub struct OwnedKeyEntrySelector<'a, K: Hash + Drop, V: Clone, C: CacheTypes<K, V>, W> {
    cache: &'a Cache<K, V, C, W>,
    key: K,
}

/// A key by reference of a shared cache, for exactly one call. [`Cache::entry_by_ref`] makes it.
///
/// `or_insert_with_if` and the computes always clone the key. The other calls clone it only on a
/// miss. The prover asks of each call that a clone of a key equals it.
pub struct RefKeyEntrySelector<'a, K: Hash + Drop, V: Clone, C: CacheTypes<K, V>, W> {
    cache: &'a Cache<K, V, C, W>,
    key: &'a K,
}

impl<K: Hash + Drop, V: Clone, C: CacheTypes<K, V>, W: Wait> Cache<K, V, C, W> {
    /// Selects a key, for one call.
    ///
    /// ```
    /// let count = cache.entry(page).and_upsert_with(next_count)?;
    /// ```
    pub fn entry(&self, key: K) -> OwnedKeyEntrySelector<'_, K, V, C, W>
        ensures { result.key ≡ key }
    {
        OwnedKeyEntrySelector { cache: self, key }
    }
}

impl<K: Hash + Clone + Drop, V: Clone, C: CacheTypes<K, V>, W: Wait> Cache<K, V, C, W> {
    /// Selects a key by reference, for one call.
    pub fn entry_by_ref<'a>(&'a self, key: &'a K) -> RefKeyEntrySelector<'a, K, V, C, W>
        ensures { result.key.now ≡ key.entry.now }
    {
        RefKeyEntrySelector { cache: self, key }
    }
}

impl<'a, K: Hash + Drop, V: Clone, C: CacheTypes<K, V>, W: Wait> OwnedKeyEntrySelector<
    'a,
    K,
    V,
    C,
    W,
> {
    /// Returns the live entry of the key. If there is none, inserts `value` and returns its entry.
    ///
    /// Runs no closure, opens no turn, and does not wait for an open one. A hit allocates only the
    /// clone of the value.
    ///
    /// # Errors
    ///
    /// Drops the key and the value. As [`Cache::or_insert`].
    pub fn or_insert(self, value: V) -> Result<Entry<K, V>, Refused>
        requires keeps { C.keeps self.key value }
        ensures kept { IfOk result (EntryKeeps C.keeps self.entry.key) }
    {
        let OwnedKeyEntrySelector { cache, key } = self;
        if let Some(found) = cache.find_live(&key)? {
            return Ok(found);
        }
        let key = cache.share(key)?;
        match cache.or_insert(&key, value) {
            Ok(entry) => Ok(entry),
            Err(refused) => Err(refused.cause),
        }
    }

    /// Returns the live entry of the key. If there is none, runs `init` and inserts its result, as
    /// [`Cache::get_with`] does.
    ///
    /// # Errors
    ///
    /// As [`Cache::get_with`].
    pub fn or_insert_with<F: FnOnce() -> V + Drop>(self, init: F) -> Result<Entry<K, V>, Refused>
        requires asks { F.IsAlwaysCallable init }
        requires keeps { (v : V) → F.post init v → C.keeps self.key v }
        ensures kept { IfOk result (EntryKeeps C.keeps self.entry.key) }
    {
        let OwnedKeyEntrySelector { cache, key } = self;
        cache.load(key, init)
    }

    /// Does what [`OwnedKeyEntrySelector::or_insert_with`] does, but treats a live value as absent
    /// if `replace_if` returns true for it, as [`Cache::get_with_if`] does.
    ///
    /// # Errors
    ///
    /// As [`Cache::get_with`].
    pub fn or_insert_with_if<F: FnOnce() -> V + Drop, P: FnMut(&V) -> bool + Drop>(
        self,
        init: F,
        replace_if: P,
    ) -> Result<Entry<K, V>, Refused>
        requires asks { F.IsAlwaysCallable init }
        requires shows { TakesKeptAgain (C.keeps self.key) P.FnMut replace_if }
        requires keeps { (v : V) → F.post init v → C.keeps self.key v }
        ensures kept { IfOk result (EntryKeeps C.keeps self.entry.key) }
    {
        let OwnedKeyEntrySelector { cache, key } = self;
        cache.load_if(key, init, replace_if)
    }

    /// Does what [`OwnedKeyEntrySelector::or_insert_with`] does, for an `init` that may return
    /// `None`, as [`Cache::optionally_get_with`] does.
    ///
    /// # Errors
    ///
    /// As [`Cache::get_with`].
    #[tactic(auto, using(moka_state::proofs::Loaders::optional_owes))]
    pub fn or_optionally_insert_with<F: FnOnce() -> Option<V> + Drop>(
        self,
        init: F,
    ) -> Result<Option<Entry<K, V>>, Refused>
        requires asks { F.IsAlwaysCallable init }
        requires keeps { (o : Option V) → F.post init o → IfSome o (C.keeps self.key) }
        ensures kept { IfOk result (λ found. IfSome found (EntryKeeps C.keeps self.entry.key)) }
    {
        let OwnedKeyEntrySelector { cache, key } = self;
        cache.load(key, init)
    }

    /// Does what [`OwnedKeyEntrySelector::or_insert_with`] does, for an `init` that may fail, as
    /// [`Cache::try_get_with`] does.
    ///
    /// # Errors
    ///
    /// As [`Cache::try_get_with`].
    #[tactic(auto, using(moka_state::proofs::Loaders::tried_owes))]
    pub fn or_try_insert_with<F: FnOnce() -> Result<V, C::Error> + Drop>(
        self,
        init: F,
    ) -> Result<Result<Entry<K, V>, Arc<C::Error>>, Refused>
        requires asks { F.IsAlwaysCallable init }
        requires keeps { (r : Result V C.Error) → F.post init r → IfOk r (C.keeps self.key) }
        ensures kept { IfOk result (λ tried. IfOk tried (EntryKeeps C.keeps self.entry.key)) }
    {
        let OwnedKeyEntrySelector { cache, key } = self;
        cache.load(key, init)
    }

    /// Calls `f` with the live entry of the key, if there is one, and does what it returns.
    ///
    /// `Op::Put` stores a value, `Op::Remove` removes the entry, `Op::Nop` changes nothing. While
    /// another caller computes the key, waits for its own turn. `f` runs at most once, with no lock
    /// held. The prover asks that `f` accepts every entry whose value satisfies `keeps`, and that
    /// each value which it puts does.
    ///
    /// # Errors
    ///
    /// If the finish fails, abandons the turn.
    ///
    /// - `OutOfMemory`: an allocation or a clone failed.
    /// - `NumbersUsedUp`: no sequence number is left, or the open turn has 2^64 - 1 unspent
    ///   tickets.
    /// - `UnknownTurn`, `UnknownTicket`: somebody else has spent the call's turn or ticket.
    pub fn and_compute_with<F: FnOnce(Option<Entry<K, V>>) -> Op<V> + Drop>(
        self,
        f: F,
    ) -> Result<CompResult<K, V>, Refused>
        requires asks { (shown : Option (Entry K V))
            → IfSome shown (EntryKeeps C.keeps self.key) → F.pre f shown }
        requires keeps { (shown : Option (Entry K V)) (op : Op V)
            → IfSome shown (EntryKeeps C.keeps self.key) → F.post f shown op
            → OutcomeKeeps {E = C.Error} (C.keeps self.key) (Outcome.Op op) }
        ensures kept { IfOk result (ResultKeeps C.keeps self.entry.key) }
    {
        let OwnedKeyEntrySelector { cache, key } = self;
        let key = cache.share(key)?;
        cache.compute_with(key, f)
    }

    /// Does what [`OwnedKeyEntrySelector::and_compute_with`] does, for an `f` that may fail. Then
    /// it abandons the turn, leaves the entry as it is, and returns the error of `f`.
    ///
    /// # Errors
    ///
    /// The outer error is the cache's own: as [`OwnedKeyEntrySelector::and_compute_with`].
    pub fn and_try_compute_with<F: FnOnce(Option<Entry<K, V>>) -> Result<Op<V>, C::Error> + Drop>(
        self,
        f: F,
    ) -> Result<Result<CompResult<K, V>, C::Error>, Refused>
        requires asks { (shown : Option (Entry K V))
            → IfSome shown (EntryKeeps C.keeps self.key) → F.pre f shown }
        requires keeps { (shown : Option (Entry K V)) (said : Result (Op V) C.Error)
            → IfSome shown (EntryKeeps C.keeps self.key) → F.post f shown said
            → IfOk said (λ op. OutcomeKeeps {E = C.Error} (C.keeps self.key) (Outcome.Op op)) }
        ensures kept { IfOk result (λ tried. IfOk tried (ResultKeeps C.keeps self.entry.key)) }
    {
        let OwnedKeyEntrySelector { cache, key } = self;
        let key = cache.share(key)?;
        cache.try_compute_with(key, f)
    }

    /// Does what [`OwnedKeyEntrySelector::and_compute_with`] does, for an `f` that always returns a
    /// value. Stores that, and returns its entry.
    ///
    /// # Errors
    ///
    /// As [`OwnedKeyEntrySelector::and_compute_with`].
    pub fn and_upsert_with<F: FnOnce(Option<Entry<K, V>>) -> V + Drop>(
        self,
        f: F,
    ) -> Result<Entry<K, V>, Refused>
        requires asks { (shown : Option (Entry K V))
            → IfSome shown (EntryKeeps C.keeps self.key) → F.pre f shown }
        requires keeps { (shown : Option (Entry K V)) (v : V)
            → IfSome shown (EntryKeeps C.keeps self.key) → F.post f shown v → C.keeps self.key v }
        ensures kept { IfOk result (EntryKeeps C.keeps self.entry.key) }
    {
        let OwnedKeyEntrySelector { cache, key } = self;
        let key = cache.share(key)?;
        cache.upsert_with(key, f)
    }
}

impl<'a, K: Hash + Drop, V: Clone + Default, C: CacheTypes<K, V>, W: Wait> OwnedKeyEntrySelector<
    'a,
    K,
    V,
    C,
    W,
> {
    /// Does what [`OwnedKeyEntrySelector::or_insert`] does, with the default value.
    ///
    /// The prover asks that every default value satisfies `keeps` with the key.
    ///
    /// # Errors
    ///
    /// As [`Cache::or_default`].
    pub fn or_default(self) -> Result<Entry<K, V>, Refused>
        requires keeps { (value : V) → V.is_default value → C.keeps self.key value }
        ensures kept { IfOk result (EntryKeeps C.keeps self.entry.key) }
    {
        let OwnedKeyEntrySelector { cache, key } = self;
        cache.or_default(key)
    }
}

impl<'a, K: Hash + Clone + Drop, V: Clone, C: CacheTypes<K, V>, W: Wait> RefKeyEntrySelector<
    'a,
    K,
    V,
    C,
    W,
> {
    /// Does what [`OwnedKeyEntrySelector::or_insert`] does.
    pub fn or_insert(self, value: V) -> Result<Entry<K, V>, Refused>
        requires copies { (a b : K) → K.is_clone a b → K.eq a b ≡ true }
        requires keeps { C.keeps self.key.now value }
        ensures kept { IfOk result (EntryKeeps C.keeps self.entry.key.now) }
    {
        let RefKeyEntrySelector { cache, key } = self;
        if let Some(found) = cache.find_live(key)? {
            return Ok(found);
        }
        let key = cache.share_copy(key)?;
        match cache.or_insert(&key, value) {
            Ok(entry) => Ok(entry),
            Err(refused) => Err(refused.cause),
        }
    }

    /// Does what [`OwnedKeyEntrySelector::or_insert_with`] does.
    pub fn or_insert_with<F: FnOnce() -> V + Drop>(self, init: F) -> Result<Entry<K, V>, Refused>
        requires copies { (a b : K) → K.is_clone a b → K.eq a b ≡ true }
        requires asks { F.IsAlwaysCallable init }
        requires keeps { (v : V) → F.post init v → C.keeps self.key.now v }
        ensures kept { IfOk result (EntryKeeps C.keeps self.entry.key.now) }
    {
        let RefKeyEntrySelector { cache, key } = self;
        cache.load_by_ref(key, init)
    }

    /// Does what [`OwnedKeyEntrySelector::or_insert_with_if`] does.
    pub fn or_insert_with_if<F: FnOnce() -> V + Drop, P: FnMut(&V) -> bool + Drop>(
        self,
        init: F,
        replace_if: P,
    ) -> Result<Entry<K, V>, Refused>
        requires copies { (a b : K) → K.is_clone a b → K.eq a b ≡ true }
        requires asks { F.IsAlwaysCallable init }
        requires shows { TakesKeptAgain (C.keeps self.key.now) P.FnMut replace_if }
        requires keeps { (v : V) → F.post init v → C.keeps self.key.now v }
        ensures kept { IfOk result (EntryKeeps C.keeps self.entry.key.now) }
    {
        let RefKeyEntrySelector { cache, key } = self;
        cache.load_if_by_ref(key, init, replace_if)
    }

    /// Does what [`OwnedKeyEntrySelector::or_optionally_insert_with`] does.
    #[tactic(auto, using(moka_state::proofs::Loaders::optional_owes))]
    pub fn or_optionally_insert_with<F: FnOnce() -> Option<V> + Drop>(
        self,
        init: F,
    ) -> Result<Option<Entry<K, V>>, Refused>
        requires copies { (a b : K) → K.is_clone a b → K.eq a b ≡ true }
        requires asks { F.IsAlwaysCallable init }
        requires keeps { (o : Option V) → F.post init o → IfSome o (C.keeps self.key.now) }
        ensures kept { IfOk result (λ found. IfSome found (EntryKeeps C.keeps self.entry.key.now)) }
    {
        let RefKeyEntrySelector { cache, key } = self;
        cache.load_by_ref(key, init)
    }

    /// Does what [`OwnedKeyEntrySelector::or_try_insert_with`] does.
    #[tactic(auto, using(moka_state::proofs::Loaders::tried_owes))]
    pub fn or_try_insert_with<F: FnOnce() -> Result<V, C::Error> + Drop>(
        self,
        init: F,
    ) -> Result<Result<Entry<K, V>, Arc<C::Error>>, Refused>
        requires copies { (a b : K) → K.is_clone a b → K.eq a b ≡ true }
        requires asks { F.IsAlwaysCallable init }
        requires keeps { (r : Result V C.Error) → F.post init r → IfOk r (C.keeps self.key.now) }
        ensures kept { IfOk result (λ tried. IfOk tried (EntryKeeps C.keeps self.entry.key.now)) }
    {
        let RefKeyEntrySelector { cache, key } = self;
        cache.load_by_ref(key, init)
    }

    /// Does what [`OwnedKeyEntrySelector::and_compute_with`] does.
    pub fn and_compute_with<F: FnOnce(Option<Entry<K, V>>) -> Op<V> + Drop>(
        self,
        f: F,
    ) -> Result<CompResult<K, V>, Refused>
        requires copies { (a b : K) → K.is_clone a b → K.eq a b ≡ true }
        requires asks { (shown : Option (Entry K V))
            → IfSome shown (EntryKeeps C.keeps self.key.now) → F.pre f shown }
        requires keeps { (shown : Option (Entry K V)) (op : Op V)
            → IfSome shown (EntryKeeps C.keeps self.key.now) → F.post f shown op
            → OutcomeKeeps {E = C.Error} (C.keeps self.key.now) (Outcome.Op op) }
        ensures kept { IfOk result (ResultKeeps C.keeps self.entry.key.now) }
    {
        let RefKeyEntrySelector { cache, key } = self;
        let key = cache.share_copy(key)?;
        cache.compute_with(key, f)
    }

    /// Does what [`OwnedKeyEntrySelector::and_try_compute_with`] does.
    pub fn and_try_compute_with<F: FnOnce(Option<Entry<K, V>>) -> Result<Op<V>, C::Error> + Drop>(
        self,
        f: F,
    ) -> Result<Result<CompResult<K, V>, C::Error>, Refused>
        requires copies { (a b : K) → K.is_clone a b → K.eq a b ≡ true }
        requires asks { (shown : Option (Entry K V))
            → IfSome shown (EntryKeeps C.keeps self.key.now) → F.pre f shown }
        requires keeps { (shown : Option (Entry K V)) (said : Result (Op V) C.Error)
            → IfSome shown (EntryKeeps C.keeps self.key.now) → F.post f shown said
            → IfOk said (λ op. OutcomeKeeps {E = C.Error} (C.keeps self.key.now) (Outcome.Op op)) }
        ensures kept { IfOk result (λ tried. IfOk tried (ResultKeeps C.keeps self.entry.key.now)) }
    {
        let RefKeyEntrySelector { cache, key } = self;
        let key = cache.share_copy(key)?;
        cache.try_compute_with(key, f)
    }

    /// Does what [`OwnedKeyEntrySelector::and_upsert_with`] does.
    pub fn and_upsert_with<F: FnOnce(Option<Entry<K, V>>) -> V + Drop>(
        self,
        f: F,
    ) -> Result<Entry<K, V>, Refused>
        requires copies { (a b : K) → K.is_clone a b → K.eq a b ≡ true }
        requires asks { (shown : Option (Entry K V))
            → IfSome shown (EntryKeeps C.keeps self.key.now) → F.pre f shown }
        requires keeps { (shown : Option (Entry K V)) (v : V)
            → IfSome shown (EntryKeeps C.keeps self.key.now) → F.post f shown v
            → C.keeps self.key.now v }
        ensures kept { IfOk result (EntryKeeps C.keeps self.entry.key.now) }
    {
        let RefKeyEntrySelector { cache, key } = self;
        let key = cache.share_copy(key)?;
        cache.upsert_with(key, f)
    }
}

impl<
    'a,
    K: Hash + Clone + Drop,
    V: Clone + Default,
    C: CacheTypes<K, V>,
    W: Wait,
> RefKeyEntrySelector<'a, K, V, C, W> {
    /// Does what [`OwnedKeyEntrySelector::or_default`] does.
    pub fn or_default(self) -> Result<Entry<K, V>, Refused>
        requires copies { (a b : K) → K.is_clone a b → K.eq a b ≡ true }
        requires keeps { (value : V) → V.is_default value → C.keeps self.key.now value }
        ensures kept { IfOk result (EntryKeeps C.keeps self.entry.key.now) }
    {
        let RefKeyEntrySelector { cache, key } = self;
        if let Some(found) = cache.find_live(key)? {
            return Ok(found);
        }
        match key.clone() {
            Ok(copy) => cache.or_default(copy),
            Err(_) => Err(Refused::OutOfMemory),
        }
    }
}
