//! Loaders that return entries, for an owned key.
ghost use Rattle.std.specs.Prelude.{◌≡◌, ◌≢◌, Option, Some, Result, IfOk, IfSome};
ghost use Rattle.std.specs.Arc.{arc_value};
ghost use Rattle.moka_model.specs.Entries.{entry_of};
ghost use Rattle.moka_turns.specs.Handles.{turn_name};
ghost use Rattle.moka_state.specs.Begin.{EntryKeeps, IsSaidOf, TakesLive};
ghost use Rattle.moka_state.specs.EntryForms.{of_optional, of_tried};
ghost use Rattle.moka_state.specs.Finish.{Fits, OutcomeKeeps};
ghost use Rattle.moka_state.specs.Forms.{optional_outcome, tried_outcome};
ghost use Rattle.moka_state.specs.Loader.{ValueKeeps, of_loaded};
ghost use Rattle.moka_state.specs.OrInsert.{of_or_default as of_entry};
ghost use Rattle.moka_state.specs.Ends.{EndsOpenTurn, LoadsEntry, LoadsEntryIf, OrInserts};

use crate::answers::BegunNow;
use crate::call_view::CallView;
use crate::get_with::none_like;
use crate::loader::{LoaderResult, share_error};
use crate::state::State;
use moka_expiration::view::StateView;
use moka_model::entry::Entry;
use moka_model::turns::{Kind, Outcome};
use moka_policy::policy::{CacheTypes, Refused};
use moka_rows::rows::RowStore;
use moka_turns::handles::Turn;
use std::hash::Hash;
use std::sync::Arc;

impl<K: Hash + Drop, V: Clone, C: CacheTypes<K, V>, R: RowStore<K, V>> State<K, V, C, R> {
    /// Works like `or_insert`, for an owned key, which moves into an `Arc` on a miss. A failed call
    /// drops the key and the value.
    #[doc(hidden)]
    pub fn entry_or_insert(&mut self, key: K, value: V, now: u64) -> Result<Entry<K, V>, Refused>
        requires { C.keeps key value }
        ensures ends { OrInserts ⟦<C as CallView<K, V>>⟧.spec of_entry key value now self.old
            self.new result }
        ensures kept { IfOk result (EntryKeeps C.keeps key) }
        ensures settings { self.new.settings ≡ self.old.settings }
    {
        let hash = self.hash(&key);
        match self.acceptable_entry(&key, hash, none_like(|_: &V| false), now) {
            Ok(Some(found)) => Ok(found),
            Ok(None) => self.write_default(key, hash, value, now),
            Err(cause) => Err(cause),
        }
    }

    /// Works like `get_with`, and returns the entry.
    #[doc(hidden)]
    pub fn entry_or_insert_with<F: FnOnce() -> V + Drop>(
        &mut self,
        key: K,
        init: F,
        now: u64,
    ) -> Result<Entry<K, V>, Refused>
        requires asks { F.IsAlwaysCallable init }
        requires keeps { (v : V) → F.post init v → C.keeps key v }
        ensures form { LoadsEntry ⟦<C as CallView<K, V>>⟧.spec Outcome.Value (F.post init) key
            Kind.With now self.old self.new (of_entry result) }
        ensures kept { IfOk result (λ entry. C.keeps key (entry_of entry).value) }
        ensures settings { self.new.settings ≡ self.old.settings }
    {
        self.load(key, init, now)
    }

    /// Works like `get_with_if`, and returns the entry.
    #[doc(hidden)]
    pub fn entry_or_insert_with_if<F: FnOnce() -> V + Drop, P: FnMut(&V) -> bool + Drop>(
        &mut self,
        key: K,
        init: F,
        replace_if: P,
        now: u64,
    ) -> Result<Entry<K, V>, Refused>
        requires asks { F.IsAlwaysCallable init }
        requires shows { TakesLive K.eq C.keeps ⟦<C as StateView<K, V>>⟧.settings P.FnMut
            key now self.old replace_if }
        requires keeps { (v : V) → F.post init v → C.keeps key v }
        ensures form { LoadsEntryIf ⟦<C as CallView<K, V>>⟧.spec
            (IsSaidOf P.FnMut (Some replace_if)) Outcome.Value (F.post init) key Kind.With now
            self.old self.new (of_entry result) }
        ensures kept { IfOk result (λ entry. C.keeps key (entry_of entry).value) }
        ensures settings { self.new.settings ≡ self.old.settings }
    {
        self.load_if(key, init, replace_if, now)
    }

    /// Works like `optionally_get_with`, and returns the entry.
    #[doc(hidden)]
    #[tactic(auto, using(crate::proofs::Loaders::optional_owes))]
    pub fn entry_or_optionally_insert_with<F: FnOnce() -> Option<V> + Drop>(
        &mut self,
        key: K,
        init: F,
        now: u64,
    ) -> Result<Option<Entry<K, V>>, Refused>
        requires asks { F.IsAlwaysCallable init }
        requires keeps { (o : Option V) → F.post init o → IfSome o (C.keeps key) }
        ensures form { LoadsEntry ⟦<C as CallView<K, V>>⟧.spec optional_outcome (F.post init) key
            Kind.Optionally now self.old self.new (of_optional result) }
        ensures kept { IfOk result
            (λ found. IfSome found (λ entry. C.keeps key (entry_of entry).value)) }
        ensures settings { self.new.settings ≡ self.old.settings }
    {
        self.load(key, init, now)
    }

    /// Works like `try_get_with`, and returns the entry.
    #[doc(hidden)]
    #[tactic(auto, using(crate::proofs::Loaders::tried_owes))]
    pub fn entry_or_try_insert_with<F: FnOnce() -> Result<V, C::Error> + Drop>(
        &mut self,
        key: K,
        init: F,
        now: u64,
    ) -> Result<Result<Entry<K, V>, Arc<C::Error>>, Refused>
        requires asks { F.IsAlwaysCallable init }
        requires keeps { (r : Result V C.Error) → F.post init r → IfOk r (C.keeps key) }
        ensures form { LoadsEntry ⟦<C as CallView<K, V>>⟧.spec tried_outcome (F.post init) key
            Kind.Try now self.old self.new (of_tried result) }
        ensures kept { IfOk result
            (λ tried. IfOk tried (λ entry. C.keeps key (entry_of entry).value)) }
        ensures settings { self.new.settings ≡ self.old.settings }
    {
        self.load(key, init, now)
    }

    // Returns what comes of a loader: the entry of the live value for `key`, or else of what `init`
    // returns. Works like `get_with` and its relatives, by the type of that.
    pub(crate) fn load<G: LoaderResult<K, V, C::Error>, F: FnOnce() -> G + Drop>(
        &mut self,
        key: K,
        init: F,
        now: u64,
    ) -> Result<G::Loaded, Refused>
        requires asks { F.IsAlwaysCallable init }
        requires keeps { (given : G) → F.post init given
            → OutcomeKeeps (C.keeps key) (G.outcome given) }
        ensures form { LoadsEntry ⟦<C as CallView<K, V>>⟧.spec G.outcome (F.post init) key G.kind_of
            now self.old self.new (of_loaded G.answer result) }
        ensures kept { IfOk result (λ loaded. ValueKeeps (C.keeps key) (G.answer loaded)) }
        ensures settings { self.new.settings ≡ self.old.settings }
    {
        let begun = self.begin_now(key, G::kind(), now)?;
        match begun {
            BegunNow::Found(entry) => Ok(G::found(entry)),
            BegunNow::Run(turn) => self.end_with(turn, init(), now),
        }
    }

    // Works like `load`, but treats a live value as absent if `replace_if` returns true for it.
    pub(crate) fn load_if<
        G: LoaderResult<K, V, C::Error>,
        F: FnOnce() -> G + Drop,
        P: FnMut(&V) -> bool + Drop,
    >(&mut self, key: K, init: F, replace_if: P, now: u64) -> Result<G::Loaded, Refused>
        requires asks { F.IsAlwaysCallable init }
        requires shows { TakesLive K.eq C.keeps ⟦<C as StateView<K, V>>⟧.settings P.FnMut
            key now self.old replace_if }
        requires keeps { (given : G) → F.post init given
            → OutcomeKeeps (C.keeps key) (G.outcome given) }
        ensures form { LoadsEntryIf ⟦<C as CallView<K, V>>⟧.spec
            (IsSaidOf P.FnMut (Some replace_if)) G.outcome (F.post init) key G.kind_of now self.old
            self.new (of_loaded G.answer result) }
        ensures kept { IfOk result (λ loaded. ValueKeeps (C.keeps key) (G.answer loaded)) }
        ensures settings { self.new.settings ≡ self.old.settings }
    {
        let begun = self.begin_now_if(key, G::kind(), Some(replace_if), now)?;
        match begun {
            BegunNow::Found(entry) => Ok(G::found(entry)),
            BegunNow::Run(turn) => self.end_with(turn, init(), now),
        }
    }

    // Finishes a loader's turn with what a closure returned. If that fails, or the `Arc` of an error
    // cannot be allocated, abandons the turn. Clause `ends` describes the end of an open turn only.
    pub(crate) fn end_with<G: LoaderResult<K, V, C::Error>>(
        &mut self,
        turn: Turn<K>,
        given: G,
        now: u64,
    ) -> Result<G::Loaded, Refused>
        requires kind { turn.key.kind ≡ G.kind_of }
        requires initializer { turn.key.kind ≢ Kind.Compute }
        requires kept { OutcomeKeeps (C.keeps (arc_value turn.key.key)) (G.outcome given) }
        ensures fits { Fits C.Error G.kind_of (G.outcome given) }
        ensures ends { EndsOpenTurn ⟦<C as CallView<K, V>>⟧.spec (turn_name turn) (G.outcome given)
            now (of_loaded G.answer result) self.old self.new }
        ensures kept { IfOk result
            (λ loaded. ValueKeeps (C.keeps (arc_value turn.key.key)) (G.answer loaded)) }
        ensures settings { self.new.settings ≡ self.old.settings }
    {
        let outcome = match share_error(self.alloc, given.into_outcome()) {
            Ok(outcome) => outcome,
            Err(_) => {
                let _ = self.abandon(turn);
                return Err(Refused::OutOfMemory);
            }
        };
        match self.end_turn(turn, outcome, now) {
            Ok(answer) => Ok(G::loaded(answer)),
            Err(cause) => Err(cause),
        }
    }
}
