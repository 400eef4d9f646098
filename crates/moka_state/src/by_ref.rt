//! Loaders for a key by reference, which they clone on a miss only.
ghost use Rattle.std.specs.Prelude.{◌≡◌, ◌≢◌, Option, None, Result, false, true, IfOk, IfSome};
ghost use Rattle.moka_state.specs.Begin.{FoundKeepsFor, IsAsked, IsNamed};
ghost use Rattle.moka_state.specs.BegunOf.{as_begin};
ghost use Rattle.moka_state.specs.Forms.{IsOptional, IsTried, IsValue, optional_outcome, tried_outcome};
ghost use Rattle.moka_state.specs.Finish.{OutcomeKeeps};
ghost use Rattle.moka_state.specs.Loader.{ValueKeeps, of_loaded};
ghost use Rattle.moka_state.specs.Ends.{LoaderBeginsAs, Loads, LoadsEntry};

use crate::answers::{BegunNow, into_begun_now};
use crate::call_view::CallView;
use crate::get_with::none_like;
use crate::loader::LoaderResult;
use crate::state::State;
use moka_model::turns::{Kind, Outcome};
use moka_policy::policy::{CacheTypes, Refused};
use moka_rows::rows::RowStore;
use std::hash::Hash;
use std::sync::Arc;

impl<K: Hash + Clone + Drop, V: Clone, C: CacheTypes<K, V>, R: RowStore<K, V>> State<K, V, C, R> {
    /// Works like [`State::get_with`], for a key by reference. A miss clones the key, and a new
    /// entry is stored under the clone. A hit does not clone it.
    ///
    /// The prover asks that a clone of a key equals it.
    ///
    /// # Errors
    ///
    /// As [`State::get_with`]. Also:
    ///
    /// - `OutOfMemory`: cloning the key failed.
    pub fn get_with_by_ref<F: FnOnce() -> V + Drop>(
        &mut self,
        key: &K,
        init: F,
        now: u64,
    ) -> Result<V, Refused>
        requires copies { (a b : K) → K.is_clone a b → K.eq a b ≡ true }
        requires asks { F.IsAlwaysCallable init }
        requires keeps { (v : V) → F.post init v → C.keeps key.now v }
        ensures form { (asked : K) × IsAsked K.eq K.is_clone key.now asked
            × Loads ⟦<C as CallView<K, V>>⟧.spec Outcome.Value (F.post init) IsValue asked Kind.With
            now self.old self.new result }
        ensures kept { IfOk result (C.keeps key.now) }
        ensures settings { self.new.settings ≡ self.old.settings }
    {
        match self.load_by_ref(key, init, now) {
            Ok(entry) => Ok(entry.into_value()),
            Err(cause) => Err(cause),
        }
    }

    /// Works like [`State::optionally_get_with`], for a key by reference, as
    /// [`State::get_with_by_ref`].
    #[tactic(auto, using(crate::proofs::Loaders::optional_owes))]
    pub fn optionally_get_with_by_ref<F: FnOnce() -> Option<V> + Drop>(
        &mut self,
        key: &K,
        init: F,
        now: u64,
    ) -> Result<Option<V>, Refused>
        requires copies { (a b : K) → K.is_clone a b → K.eq a b ≡ true }
        requires asks { F.IsAlwaysCallable init }
        requires keeps { (o : Option V) → F.post init o → IfSome o (C.keeps key.now) }
        ensures form { (asked : K) × IsAsked K.eq K.is_clone key.now asked
            × Loads ⟦<C as CallView<K, V>>⟧.spec optional_outcome (F.post init) IsOptional asked
            Kind.Optionally now self.old self.new result }
        ensures kept { IfOk result (λ found. IfSome found (C.keeps key.now)) }
        ensures settings { self.new.settings ≡ self.old.settings }
    {
        match self.load_by_ref(key, init, now) {
            Ok(Some(entry)) => Ok(Some(entry.into_value())),
            Ok(None) => Ok(None),
            Err(cause) => Err(cause),
        }
    }

    /// Works like [`State::try_get_with`], for a key by reference, as [`State::get_with_by_ref`].
    #[tactic(auto, using(crate::proofs::Loaders::tried_owes))]
    pub fn try_get_with_by_ref<F: FnOnce() -> Result<V, C::Error> + Drop>(
        &mut self,
        key: &K,
        init: F,
        now: u64,
    ) -> Result<Result<V, Arc<C::Error>>, Refused>
        requires copies { (a b : K) → K.is_clone a b → K.eq a b ≡ true }
        requires asks { F.IsAlwaysCallable init }
        requires keeps { (r : Result V C.Error) → F.post init r → IfOk r (C.keeps key.now) }
        ensures form { (asked : K) × IsAsked K.eq K.is_clone key.now asked
            × Loads ⟦<C as CallView<K, V>>⟧.spec tried_outcome (F.post init) IsTried asked Kind.Try
            now self.old self.new result }
        ensures kept { IfOk result (λ tried. IfOk tried (C.keeps key.now)) }
        ensures settings { self.new.settings ≡ self.old.settings }
    {
        match self.load_by_ref(key, init, now) {
            Ok(Ok(entry)) => Ok(Ok(entry.into_value())),
            Ok(Err(error)) => Ok(Err(error)),
            Err(cause) => Err(cause),
        }
    }

    // Works like `load`, for a key by reference, which is cloned on a miss.
    fn load_by_ref<G: LoaderResult<K, V, C::Error>, F: FnOnce() -> G + Drop>(
        &mut self,
        key: &K,
        init: F,
        now: u64,
    ) -> Result<G::Loaded, Refused>
        requires copies { (a b : K) → K.is_clone a b → K.eq a b ≡ true }
        requires asks { F.IsAlwaysCallable init }
        requires keeps { (given : G) → F.post init given
            → OutcomeKeeps (C.keeps key.now) (G.outcome given) }
        ensures form { (asked : K) × IsAsked K.eq K.is_clone key.now asked
            × LoadsEntry ⟦<C as CallView<K, V>>⟧.spec G.outcome (F.post init) asked G.kind_of now
            self.old self.new (of_loaded G.answer result) }
        ensures kept { IfOk result (λ loaded. ValueKeeps (C.keeps key.now) (G.answer loaded)) }
        ensures settings { self.new.settings ≡ self.old.settings }
    {
        let begun = self.begin_now_by_ref(key, G::kind(), now)?;
        match begun {
            BegunNow::Found(entry) => Ok(G::found(entry)),
            BegunNow::Run(turn) => self.end_with(turn, init(), now),
        }
    }

    // Does the begin of a loader by reference, which accepts any live value and never waits.
    fn begin_now_by_ref(&mut self, key: &K, kind: Kind, now: u64) -> Result<BegunNow<K, V>, Refused>
        requires copies { (a b : K) → K.is_clone a b → K.eq a b ≡ true }
        requires initializer { kind ≢ Kind.Compute }
        ensures begins { (asked : K) × IsAsked K.eq K.is_clone key.now asked
            × LoaderBeginsAs ⟦<C as CallView<K, V>>⟧.spec None asked kind now false self.old
            self.new (as_begin result) × IfOk (as_begin result) (IsNamed kind asked) }
        ensures kept { IfOk (as_begin result) (FoundKeepsFor C.keeps key.now) }
        ensures settings { self.new.settings ≡ self.old.settings }
    {
        into_begun_now(self.begin_borrowed(key, kind, none_like(|_: &V| false), now, false))
    }
}
