//! Loaders, each in the segment of its key: a begin, the closure and a finish at one moment.
ghost use Rattle.std.specs.Prelude.{◌≡◌, Option, Some, Result, IfOk, IfSome};
ghost use Rattle.moka_state.specs.Begin.{IsSaidOf};
ghost use Rattle.moka_state.specs.Forms.{IsOptional, IsTried, IsValue, optional_outcome, tried_outcome};
ghost use Rattle.moka_segmented.specs.Turns.{TakesLiveIn};
ghost use Rattle.moka_segmented.specs.Ends.{LoadsIfIn, LoadsIn};

use crate::segment::Segmented;
use crate::segmented_view::SegmentedCallView;
use moka_model::turns::{Kind, Outcome};
use moka_policy::policy::{CacheTypes, Refused};
use moka_rows::rows::RowStore;
use moka_state::view::StateView;
use std::hash::Hash;
use std::sync::Arc;

impl<K: Hash + Drop, V: Clone, C: CacheTypes<K, V>, R: RowStore<K, V>> Segmented<K, V, C, R> {
    /// Returns a clone of the live value for `key`, in its segment. If there is none, runs `init`,
    /// inserts its result and returns a clone of that.
    ///
    /// It is a begin of the kind `With` and, if that opens a turn, a finish with what `init`
    /// returned, at one moment. `init` runs only if a turn is opened, and once.
    ///
    /// # Errors
    ///
    /// If the finish fails, the turn is abandoned; the begin stays recorded. Otherwise a failed
    /// call leaves the cache unchanged.
    ///
    /// - `TurnIsOpen`: a turn of the key and the kind is open, so the call would have to wait.
    /// - Those of [`Segmented::begin`] and [`Segmented::finish`].
    ///
    /// # Complexity
    ///
    /// Visits the entries that have the key's hash, and hashes the key once more than the segment's
    /// state. With 64 or more entries pending, a miss also runs a maintenance of the segment.
    pub fn get_with<F: FnOnce() -> V + Drop>(
        &mut self,
        key: K,
        init: F,
        now: u64,
    ) -> Result<V, Refused>
        requires asks { F.IsAlwaysCallable init }
        requires keeps { (v : V) → F.post init v → C.keeps key v }
        ensures form { LoadsIn ⟦<C as SegmentedCallView<K, V>>⟧.spec Outcome.Value (F.post init)
            IsValue key Kind.With now self.old self.new result }
        ensures kept { IfOk result (C.keeps key) }
        ensures settings { self.new.settings ≡ self.old.settings }
    {
        let place = self.place_of(&key);
        self.segments[place.index].get_with(key, init, now)
    }

    /// Calls [`Segmented::get_with`], by its older name.
    #[deprecated(note = "replaced by `get_with`")]
    pub fn get_or_insert_with<F: FnOnce() -> V + Drop>(
        &mut self,
        key: K,
        init: F,
        now: u64,
    ) -> Result<V, Refused>
        requires asks { F.IsAlwaysCallable init }
        requires keeps { (v : V) → F.post init v → C.keeps key v }
        ensures form { LoadsIn ⟦<C as SegmentedCallView<K, V>>⟧.spec Outcome.Value (F.post init)
            IsValue key Kind.With now self.old self.new result }
        ensures kept { IfOk result (C.keeps key) }
        ensures settings { self.new.settings ≡ self.old.settings }
    {
        self.get_with(key, init, now)
    }

    /// Does what [`Segmented::get_with`] does, but treats a live value as absent if `replace_if`
    /// returns true for it. The lookup is then a miss, and the result of `init` overwrites the
    /// value.
    pub fn get_with_if<F: FnOnce() -> V + Drop, P: FnMut(&V) -> bool + Drop>(
        &mut self,
        key: K,
        init: F,
        replace_if: P,
        now: u64,
    ) -> Result<V, Refused>
        requires asks { F.IsAlwaysCallable init }
        requires shows { TakesLiveIn K.eq C.keeps ⟦<C as StateView<K, V>>⟧.settings P.FnMut
            key now self.old replace_if }
        requires keeps { (v : V) → F.post init v → C.keeps key v }
        ensures form { LoadsIfIn ⟦<C as SegmentedCallView<K, V>>⟧.spec
            (IsSaidOf P.FnMut (Some replace_if)) Outcome.Value (F.post init) IsValue key Kind.With
            now self.old self.new result }
        ensures kept { IfOk result (C.keeps key) }
        ensures settings { self.new.settings ≡ self.old.settings }
    {
        let place = self.place_of(&key);
        self.segments[place.index].get_with_if(key, init, replace_if, now)
    }

    /// Does what [`Segmented::get_with`] does, for an `init` that may return `None`. Then it stores
    /// nothing and returns `None`. Its begin is of the kind `Optionally`.
    pub fn optionally_get_with<F: FnOnce() -> Option<V> + Drop>(
        &mut self,
        key: K,
        init: F,
        now: u64,
    ) -> Result<Option<V>, Refused>
        requires asks { F.IsAlwaysCallable init }
        requires keeps { (o : Option V) → F.post init o → IfSome o (C.keeps key) }
        ensures form { LoadsIn ⟦<C as SegmentedCallView<K, V>>⟧.spec optional_outcome (F.post init)
            IsOptional key Kind.Optionally now self.old self.new result }
        ensures kept { IfOk result (λ found. IfSome found (C.keeps key)) }
        ensures settings { self.new.settings ≡ self.old.settings }
    {
        let place = self.place_of(&key);
        self.segments[place.index].optionally_get_with(key, init, now)
    }

    /// Does what [`Segmented::get_with`] does, for an `init` that may fail. Then it stores nothing
    /// and returns the error in an `Arc`. Its begin is of the kind `Try`.
    ///
    /// # Errors
    ///
    /// The outer error is the cache's own: as [`Segmented::get_with`], and
    ///
    /// - `OutOfMemory`: allocating the `Arc` of the error failed. The turn is abandoned.
    pub fn try_get_with<F: FnOnce() -> Result<V, C::Error> + Drop>(
        &mut self,
        key: K,
        init: F,
        now: u64,
    ) -> Result<Result<V, Arc<C::Error>>, Refused>
        requires asks { F.IsAlwaysCallable init }
        requires keeps { (r : Result V C.Error) → F.post init r → IfOk r (C.keeps key) }
        ensures form { LoadsIn ⟦<C as SegmentedCallView<K, V>>⟧.spec tried_outcome (F.post init)
            IsTried key Kind.Try now self.old self.new result }
        ensures kept { IfOk result (λ tried. IfOk tried (C.keeps key)) }
        ensures settings { self.new.settings ≡ self.old.settings }
    {
        let place = self.place_of(&key);
        self.segments[place.index].try_get_with(key, init, now)
    }

    /// Calls [`Segmented::try_get_with`], by its older name.
    ///
    /// # Errors
    ///
    /// As [`Segmented::try_get_with`].
    #[deprecated(note = "replaced by `try_get_with`")]
    pub fn get_or_try_insert_with<F: FnOnce() -> Result<V, C::Error> + Drop>(
        &mut self,
        key: K,
        init: F,
        now: u64,
    ) -> Result<Result<V, Arc<C::Error>>, Refused>
        requires asks { F.IsAlwaysCallable init }
        requires keeps { (r : Result V C.Error) → F.post init r → IfOk r (C.keeps key) }
        ensures form { LoadsIn ⟦<C as SegmentedCallView<K, V>>⟧.spec tried_outcome (F.post init)
            IsTried key Kind.Try now self.old self.new result }
        ensures kept { IfOk result (λ tried. IfOk tried (C.keeps key)) }
        ensures settings { self.new.settings ≡ self.old.settings }
    {
        self.try_get_with(key, init, now)
    }
}
