//! The begin of a turn and the loaders for a key by reference, each in the segment of the key.
ghost use Rattle.std.specs.Prelude.{◌≡◌, ◌≢◌, Option, Result, true, IfOk, IfSome, OnErr};
ghost use Rattle.moka_state.specs.Begin.{FoundKeeps, FoundKeepsFor, IsAsked, IsSaidOf};
ghost use Rattle.moka_state.specs.Forms.{IsOptional, IsTried, IsValue, optional_outcome, tried_outcome};
ghost use Rattle.moka_segmented.specs.Turns.{TakesLiveIn};
ghost use Rattle.moka_segmented.specs.Ends.{LoaderBeginsByRefIn, LoadsIn};

use crate::segment::Segmented;
use crate::segmented_view::SegmentedCallView;
use moka_model::turns::{Kind, Outcome};
use moka_policy::policy::{CacheTypes, Refused};
use moka_rows::rows::RowStore;
use moka_state::answers::Begun;
use moka_state::view::StateView;
use std::hash::Hash;
use std::sync::Arc;

impl<K: Hash + Clone + Drop, V: Clone, C: CacheTypes<K, V>, R: RowStore<K, V>> Segmented<
    K,
    V,
    C,
    R,
> {
    /// Does what [`Segmented::begin`] does, for a key by reference.
    ///
    /// If no acceptable value is live, clones the key. The turn or the ticket is of that clone,
    /// which has the same segment. The prover asks that a clone of a key equals it.
    ///
    /// # Errors
    ///
    /// As [`Segmented::begin`], and
    ///
    /// - `OutOfMemory`: cloning the key failed.
    pub fn begin_by_ref<F: FnMut(&V) -> bool + Drop>(
        &mut self,
        key: &K,
        kind: Kind,
        replace_if: Option<F>,
        now: u64,
    ) -> Result<Begun<K, V>, Refused>
        requires copies { (a b : K) → K.is_clone a b → K.eq a b ≡ true }
        requires initializer { kind ≢ Kind.Compute }
        requires asks { IfSome replace_if (TakesLiveIn K.eq C.keeps
            ⟦<C as StateView<K, V>>⟧.settings F.FnMut key.now now self.old) }
        ensures begins { LoaderBeginsByRefIn ⟦<C as SegmentedCallView<K, V>>⟧.spec
            (IsAsked K.eq K.is_clone key.now) (IsSaidOf F.FnMut replace_if) kind now true self.old
            self.new result }
        ensures refused { OnErr result (self.new ≡ self.old) }
        ensures kept { IfOk result (FoundKeeps C.keeps) }
        ensures kept_for { IfOk result (FoundKeepsFor C.keeps key.now) }
        ensures settings { self.new.settings ≡ self.old.settings }
    {
        let place = self.place_of(key);
        self.segments[place.index].begin_by_ref(key, kind, replace_if, now)
    }

    /// Does what [`Segmented::get_with`] does, for a key by reference. Clones the key on a miss,
    /// and stores the value under the clone, in the same segment.
    ///
    /// The prover asks that a clone of a key equals it.
    ///
    /// # Errors
    ///
    /// As [`Segmented::get_with`], and
    ///
    /// - `OutOfMemory`: cloning the key failed.
    pub fn get_with_by_ref<F: FnOnce() -> V + Drop>(
        &mut self,
        key: &K,
        init: F,
        now: u64,
    ) -> Result<V, Refused>
        requires copies { (a b : K) → K.is_clone a b → K.eq a b ≡ true }
        requires asks { F.IsAlwaysCallable init }
        requires keeps { (v : V) → F.post init v → C.keeps key.now v }
        ensures form { (asked : K) × IsAsked K.eq K.is_clone key.now asked
            × LoadsIn ⟦<C as SegmentedCallView<K, V>>⟧.spec Outcome.Value (F.post init) IsValue
            asked Kind.With now self.old self.new result }
        ensures kept { IfOk result (C.keeps key.now) }
        ensures settings { self.new.settings ≡ self.old.settings }
    {
        let place = self.place_of(key);
        self.segments[place.index].get_with_by_ref(key, init, now)
    }

    /// Does what [`Segmented::optionally_get_with`] does, for a key by reference, as
    /// [`Segmented::get_with_by_ref`].
    pub fn optionally_get_with_by_ref<F: FnOnce() -> Option<V> + Drop>(
        &mut self,
        key: &K,
        init: F,
        now: u64,
    ) -> Result<Option<V>, Refused>
        requires copies { (a b : K) → K.is_clone a b → K.eq a b ≡ true }
        requires asks { F.IsAlwaysCallable init }
        requires keeps { (o : Option V) → F.post init o → IfSome o (C.keeps key.now) }
        ensures form { (asked : K) × IsAsked K.eq K.is_clone key.now asked
            × LoadsIn ⟦<C as SegmentedCallView<K, V>>⟧.spec optional_outcome (F.post init)
            IsOptional asked Kind.Optionally now self.old self.new result }
        ensures kept { IfOk result (λ found. IfSome found (C.keeps key.now)) }
        ensures settings { self.new.settings ≡ self.old.settings }
    {
        let place = self.place_of(key);
        self.segments[place.index].optionally_get_with_by_ref(key, init, now)
    }

    /// Does what [`Segmented::try_get_with`] does, for a key by reference, as
    /// [`Segmented::get_with_by_ref`].
    pub fn try_get_with_by_ref<F: FnOnce() -> Result<V, C::Error> + Drop>(
        &mut self,
        key: &K,
        init: F,
        now: u64,
    ) -> Result<Result<V, Arc<C::Error>>, Refused>
        requires copies { (a b : K) → K.is_clone a b → K.eq a b ≡ true }
        requires asks { F.IsAlwaysCallable init }
        requires keeps { (r : Result V C.Error) → F.post init r → IfOk r (C.keeps key.now) }
        ensures form { (asked : K) × IsAsked K.eq K.is_clone key.now asked
            × LoadsIn ⟦<C as SegmentedCallView<K, V>>⟧.spec tried_outcome (F.post init) IsTried
            asked Kind.Try now self.old self.new result }
        ensures kept { IfOk result (λ tried. IfOk tried (C.keeps key.now)) }
        ensures settings { self.new.settings ≡ self.old.settings }
    {
        let place = self.place_of(key);
        self.segments[place.index].try_get_with_by_ref(key, init, now)
    }
}
