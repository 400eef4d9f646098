//! Loaders with a closure, which return entries. The closure runs with no lock held.
ghost use Rattle.std.specs.Prelude.{◌≡◌, ◌≢◌, None, true, IfOk, IfSome};
ghost use Rattle.std.specs.Arc.{arc_value};
ghost use Rattle.moka_state.specs.Begin.{EntryKeeps};
ghost use Rattle.moka_state.specs.Finish.{Fits, OutcomeKeeps, outcome_of};
ghost use Rattle.moka_state.specs.Loader.{AnswerFits, GivenKeeps};
ghost use Rattle.moka_sync.specs.ReplaceIf.{TakesKeptAgain};

use crate::cache::Cache;
use moka_model::entry::Entry;
use moka_model::turns::{Kind, Outcome};
use moka_policy::policy::{CacheTypes, Refused};
use moka_single_flight::replies::Joined;
use moka_state::answers::{Answer, FinishRefused, Finished};
use moka_state::handles::Turn;
use moka_state::loader::{LoaderResult, share_error};
use std::hash::Hash;
use std::sync::{Arc, Wait};

// Returns `None`, in place of a closure of this type.
pub(crate) fn none_like<F: Drop>(_closure: F) -> Option<F>
    ensures { result ≡ None }
{
    None
}

impl<K: Hash + Drop, V: Clone, C: CacheTypes<K, V>, W: Wait> Cache<K, V, C, W> {
    // Returns the live entry of a key. A hit allocates only the clone and shares the key; a miss changes
    // nothing.
    pub(crate) fn find_live(&self, key: &K) -> Result<Option<Entry<K, V>>, Refused>
        ensures { IfOk result (λ found. IfSome found (EntryKeeps C.keeps key.now)) }
    {
        self.lock().find_acceptable(key, none_like(|_: &V| false))
    }

    // Moves a value into an `Arc`. Fails only with `OutOfMemory`.
    pub(crate) fn share<T: Drop>(&self, value: T) -> Result<Arc<T>, Refused>
        ensures { IfOk result (λ shared. arc_value shared ≡ value) }
    {
        match Arc::new(self.inner.alloc, value) {
            Ok(shared) => Ok(shared),
            Err(_) => Err(Refused::OutOfMemory),
        }
    }

    // Returns the live entry of a key, or else what comes of what the closure returns.
    pub(crate) fn load<G: LoaderResult<K, V, C::Error>, F: FnOnce() -> G + Drop>(
        &self,
        key: K,
        init: F,
    ) -> Result<G::Loaded, Refused>
        requires asks { F.IsAlwaysCallable init }
        requires keeps { (given : G) → F.post init given
            → OutcomeKeeps (C.keeps key) (G.outcome given) }
        ensures { IfOk result (λ loaded. GivenKeeps C.keeps key (G.answer loaded)) }
    {
        match self.ask_first(key, G::kind())? {
            Joined::Value(answer) => Ok(G::loaded(answer)),
            Joined::Turn(turn) => self.end_with(turn, init()),
            Joined::TooMany => Err(Refused::WaitsAbandoned),
        }
    }

    // Does what `load` does, but `replace_if` may ask to replace a live value. Shares the key
    // first, on a hit too.
    pub(crate) fn load_if<
        G: LoaderResult<K, V, C::Error>,
        F: FnOnce() -> G + Drop,
        P: FnMut(&V) -> bool + Drop,
    >(&self, key: K, init: F, replace_if: P) -> Result<G::Loaded, Refused>
        requires asks { F.IsAlwaysCallable init }
        requires shows { TakesKeptAgain (C.keeps key) P.FnMut replace_if }
        requires keeps { (given : G) → F.post init given
            → OutcomeKeeps (C.keeps key) (G.outcome given) }
        ensures { IfOk result (λ loaded. GivenKeeps C.keeps key (G.answer loaded)) }
    {
        let key = self.share(key)?;
        self.load_shared(key, init, Some(replace_if))
    }

    // Does what `load` does, for a shared key, and with `replace_if` if there is one. Looks the key
    // up only in the begin.
    fn load_shared<
        G: LoaderResult<K, V, C::Error>,
        F: FnOnce() -> G + Drop,
        P: FnMut(&V) -> bool + Drop,
    >(&self, key: Arc<K>, init: F, replace_if: Option<P>) -> Result<G::Loaded, Refused>
        requires asks { F.IsAlwaysCallable init }
        requires shows { IfSome replace_if (TakesKeptAgain (C.keeps (arc_value key)) P.FnMut) }
        requires keeps { (given : G) → F.post init given
            → OutcomeKeeps (C.keeps (arc_value key)) (G.outcome given) }
        ensures { IfOk result (λ loaded. GivenKeeps C.keeps (arc_value key) (G.answer loaded)) }
    {
        match self.ask(key, G::kind(), replace_if)? {
            Joined::Value(answer) => Ok(G::loaded(answer)),
            Joined::Turn(turn) => self.end_with(turn, init()),
            Joined::TooMany => Err(Refused::WaitsAbandoned),
        }
    }

    // Ends a turn with what a closure returned. If that fails, abandons the turn.
    fn end_with<G: LoaderResult<K, V, C::Error>>(
        &self,
        turn: Turn<K>,
        given: G,
    ) -> Result<G::Loaded, Refused>
        requires kind { turn.key.kind ≡ G.kind_of }
        requires initializer { turn.key.kind ≢ Kind.Compute }
        requires kept { OutcomeKeeps (C.keeps (arc_value turn.key.key)) (G.outcome given) }
        ensures { IfOk result
            (λ loaded. GivenKeeps C.keeps (arc_value turn.key.key) (G.answer loaded)) }
    {
        let Ok(outcome) = share_error(self.inner.alloc, given.into_outcome()) else {
            let _ = self.abandon(turn);
            return Err(Refused::OutOfMemory);
        };
        match self.end_turn(turn, outcome) {
            Ok(answer) => Ok(G::loaded(answer)),
            Err(cause) => Err(cause),
        }
    }

    // Ends a turn with an outcome. If that fails, abandons the turn.
    fn end_turn(
        &self,
        turn: Turn<K>,
        outcome: Outcome<V, Arc<C::Error>>,
    ) -> Result<Answer<K, V, C::Error>, Refused>
        requires fits { Fits C.Error turn.key.kind (outcome_of outcome) }
        requires initializer { turn.key.kind ≢ Kind.Compute }
        requires kept { OutcomeKeeps (C.keeps (arc_value turn.key.key)) outcome }
        ensures fits { IfOk result (AnswerFits turn.key.kind) }
        ensures kept { IfOk result (GivenKeeps C.keeps (arc_value turn.key.key)) }
    {
        let refused = match self.finish(turn, outcome) {
            Ok(Finished::Answer(answer)) => return Ok(answer),
            Ok(Finished::Computed(_)) => unreachable!(),
            Err(refused) => refused,
        };
        let FinishRefused {
            turn,
            outcome: _,
            cause,
        } = refused;
        let _ = self.abandon(turn);
        Err(cause)
    }
}

impl<K: Hash + Clone + Drop, V: Clone, C: CacheTypes<K, V>, W: Wait> Cache<K, V, C, W> {
    // Clones a key into an `Arc`. Fails only with `OutOfMemory`.
    pub(crate) fn share_copy(&self, key: &K) -> Result<Arc<K>, Refused>
        ensures { IfOk result (λ shared. K.is_clone key.now (arc_value shared)) }
    {
        match key.clone() {
            Ok(copy) => self.share(copy),
            Err(_) => Err(Refused::OutOfMemory),
        }
    }

    // Does what `load` does, for a key by reference.
    pub(crate) fn load_by_ref<G: LoaderResult<K, V, C::Error>, F: FnOnce() -> G + Drop>(
        &self,
        key: &K,
        init: F,
    ) -> Result<G::Loaded, Refused>
        requires copies { (a b : K) → K.is_clone a b → K.eq a b ≡ true }
        requires asks { F.IsAlwaysCallable init }
        requires keeps { (given : G) → F.post init given
            → OutcomeKeeps (C.keeps key.now) (G.outcome given) }
        ensures { IfOk result (λ loaded. GivenKeeps C.keeps key.now (G.answer loaded)) }
    {
        if let Some(found) = self.find_live(key)? {
            return Ok(G::found(found));
        }
        let copy = self.share_copy(key)?;
        self.load_shared(copy, init, none_like(|_: &V| false))
    }

    // Does what `load_if` does, for a key by reference.
    pub(crate) fn load_if_by_ref<
        G: LoaderResult<K, V, C::Error>,
        F: FnOnce() -> G + Drop,
        P: FnMut(&V) -> bool + Drop,
    >(&self, key: &K, init: F, replace_if: P) -> Result<G::Loaded, Refused>
        requires copies { (a b : K) → K.is_clone a b → K.eq a b ≡ true }
        requires asks { F.IsAlwaysCallable init }
        requires shows { TakesKeptAgain (C.keeps key.now) P.FnMut replace_if }
        requires keeps { (given : G) → F.post init given
            → OutcomeKeeps (C.keeps key.now) (G.outcome given) }
        ensures { IfOk result (λ loaded. GivenKeeps C.keeps key.now (G.answer loaded)) }
    {
        let copy = self.share_copy(key)?;
        self.load_shared(copy, init, Some(replace_if))
    }
}
