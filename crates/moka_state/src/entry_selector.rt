//! Selectors of an owned cache: a key and a moment, for exactly one call.
ghost use Rattle.std.specs.Prelude.{◌≡◌, Option, Some, Result, false, true, IfErr, IfOk, IfSome};
ghost use Rattle.std.specs.Borrow.{sem, RestsIfErr};
ghost use Rattle.moka_model.specs.Entries.{entry_of};
ghost use Rattle.moka_state.specs.contracts.state.State.{the_row};
ghost use Rattle.moka_state.specs.Begin.{EntryKeeps, IsSaidOf, TakesLive};
ghost use Rattle.moka_state.specs.ComputeForms.{IsErrorOf, IsUpserted, of_computing, of_trying, unless_failed};
ghost use Rattle.moka_state.specs.EntryForms.{of_optional, of_tried};
ghost use Rattle.moka_state.specs.Finish.{OutcomeKeeps};
ghost use Rattle.moka_state.specs.Forms.{optional_outcome, tried_outcome};
ghost use Rattle.moka_state.specs.OrInsert.{of_or_default as of_entry};
ghost use Rattle.moka_state.specs.Ends.{Computes, LoadsEntry, LoadsEntryIf, OrInserts, Tries, Upserts};

use crate::call_view::CallView;
use crate::state::State;
use moka_expiration::view::StateView;
use moka_model::comp_result::CompResult;
use moka_model::entry::Entry;
use moka_model::turns::{Kind, Op, Outcome};
use moka_policy::policy::{CacheTypes, Refused};
use moka_rows::rows::RowStore;
use std::hash::Hash;
use std::sync::Arc;

/// A key and a moment, for exactly one call on an owned cache.
///
/// [`State::entry`] and [`State::entry_by_ref`] make one. It holds the cache's `&mut` until that
/// call, and cannot be dropped.
pub struct StateEntrySelector<
    'a,
    K: Hash + Drop,
    V: Clone,
    C: CacheTypes<K, V>,
    R: RowStore<K, V>,
> {
    state: &'a mut State<K, V, C, R>,
    key: K,
    at: u64,
}

impl<K: Hash + Drop, V: Clone, C: CacheTypes<K, V>, R: RowStore<K, V>> State<K, V, C, R> {
    /// Returns a selector of `key`, for a call at the moment `now`. No lookup is done yet.
    pub fn entry(&mut self, key: K, now: u64) -> StateEntrySelector<'_, K, V, C, R>
        ensures same_reference { result.state.ghost_name ≡ self.entry.ghost_name }
        ensures state { result.state.now ≡ self.entry.now }
        ensures key { result.key ≡ key }
        ensures moment { result.at ≡ now }
    {
        StateEntrySelector {
            state: self,
            key,
            at: now,
        }
    }
}

impl<K: Hash + Clone + Drop, V: Clone, C: CacheTypes<K, V>, R: RowStore<K, V>> State<K, V, C, R> {
    /// Returns a selector of a clone of `key`, as [`State::entry`].
    ///
    /// # Errors
    ///
    /// - `OutOfMemory`: cloning the key failed. The cache is unchanged.
    pub fn entry_by_ref(
        &mut self,
        key: &K,
        now: u64,
    ) -> Result<StateEntrySelector<'_, K, V, C, R>, Refused>
        ensures* refused { sem 𝓛 (RestsIfErr (the_row K.row V.row C.row R.row
            C.Hasher.row C.Weigher.row C.Expiry.row C.Predicate.row C.Frequency.row
            C.Listener.row C.Clock.row C.Error.row C.Hasher.Hasher.row
            K.PartialEq (record { hash_input = K.hash_input }) (record {}) V.Clone
            C.CacheTypes C.Hasher.BuildHasher C.Hasher.Hasher.Hasher C.Weigher.Weigher
            C.Expiry.Expiry C.Predicate.Predicate C.Frequency.FrequencySource
            C.Listener.Listener C.Clock.Clock R.RowStore)
            self.entry (λ made. made.state.ghost_name) result (λ left. left ≡ self.old)) }
        ensures same_reference { IfOk result
            (λ made. made.state.ghost_name ≡ self.entry.ghost_name) }
        ensures state { IfOk result (λ made. made.state.now ≡ self.entry.now) }
        ensures copy { IfOk result (λ made. K.is_clone key.now made.key) }
        ensures moment { IfOk result (λ made. made.at ≡ now) }
        ensures cause { IfErr result (λ cause. cause ≡ Refused.OutOfMemory) }
    {
        match key.clone() {
            Ok(copy) => Ok(self.entry(copy, now)),
            Err(_) => Err(Refused::OutOfMemory),
        }
    }
}

impl<'a, K: Hash + Drop, V: Clone, C: CacheTypes<K, V>, R: RowStore<K, V>> StateEntrySelector<
    'a,
    K,
    V,
    C,
    R,
> {
    /// Returns the entry of the key's live value. If there is none, stores `value`, and returns the
    /// new entry with a clone of the value, as [`State::or_insert`].
    ///
    /// Runs no closure and opens no turn. An open turn of the key makes no difference.
    ///
    /// # Errors
    ///
    /// A failed call drops the key and the value, and changes nothing.
    ///
    /// - `NumbersUsedUp`: no value is live, the capacity is not 0, and no sequence number is left.
    /// - `OutOfMemory`: an allocation or a clone failed.
    pub fn or_insert(self, value: V) -> Result<Entry<K, V>, Refused>
        requires { C.keeps self.key value }
        ensures ends { OrInserts ⟦<C as CallView<K, V>>⟧.spec of_entry self.entry.key value
            self.entry.at self.entry.state.now self.exit.0.now result }
        ensures kept { IfOk result (EntryKeeps C.keeps self.entry.key) }
        ensures settings { self.exit.0.now.settings ≡ self.entry.state.now.settings }
    {
        let StateEntrySelector { state, key, at } = self;
        state.entry_or_insert(key, value, at)
    }

    /// Returns the entry of the key's live value. If there is none, runs `init`, stores its result,
    /// and returns the new entry with a clone of the result, as [`State::get_with`].
    ///
    /// `init` runs at most once, and only if a turn is opened. A hit allocates only the clone of
    /// the value.
    ///
    /// # Errors
    ///
    /// If the begin fails, the cache is unchanged. If the finish fails, the turn is abandoned.
    ///
    /// - `TurnIsOpen`: a turn of the key and of kind `With` is open.
    /// - `NumbersUsedUp`: no sequence number is left, for the turn or for the write.
    /// - `OutOfMemory`: an allocation or a clone failed.
    pub fn or_insert_with<F: FnOnce() -> V + Drop>(self, init: F) -> Result<Entry<K, V>, Refused>
        requires asks { F.IsAlwaysCallable init }
        requires keeps { (v : V) → F.post init v → C.keeps self.key v }
        ensures form { LoadsEntry ⟦<C as CallView<K, V>>⟧.spec Outcome.Value (F.post init)
            self.entry.key Kind.With self.entry.at self.entry.state.now self.exit.0.now
            (of_entry result) }
        ensures kept { IfOk result (λ entry. C.keeps self.entry.key (entry_of entry).value) }
        ensures settings { self.exit.0.now.settings ≡ self.entry.state.now.settings }
    {
        let StateEntrySelector { state, key, at } = self;
        state.entry_or_insert_with(key, init, at)
    }

    /// Returns the entry of the key's live value, unless `replace_if` returns true for it.
    /// Otherwise works like [`StateEntrySelector::or_insert_with`], as [`State::get_with_if`].
    ///
    /// # Errors
    ///
    /// As [`StateEntrySelector::or_insert_with`].
    pub fn or_insert_with_if<F: FnOnce() -> V + Drop, P: FnMut(&V) -> bool + Drop>(
        self,
        init: F,
        replace_if: P,
    ) -> Result<Entry<K, V>, Refused>
        requires asks { F.IsAlwaysCallable init }
        requires shows { TakesLive K.eq C.keeps ⟦<C as StateView<K, V>>⟧.settings P.FnMut
            self.key self.at self.state.now replace_if }
        requires keeps { (v : V) → F.post init v → C.keeps self.key v }
        ensures form { LoadsEntryIf ⟦<C as CallView<K, V>>⟧.spec
            (IsSaidOf P.FnMut (Some replace_if)) Outcome.Value (F.post init) self.entry.key
            Kind.With self.entry.at self.entry.state.now self.exit.0.now (of_entry result) }
        ensures kept { IfOk result (λ entry. C.keeps self.entry.key (entry_of entry).value) }
        ensures settings { self.exit.0.now.settings ≡ self.entry.state.now.settings }
    {
        let StateEntrySelector { state, key, at } = self;
        state.entry_or_insert_with_if(key, init, replace_if, at)
    }

    /// Returns the entry of the key's live value. If there is none, runs `init`, which may return
    /// no value: then nothing is stored, and `None` is returned, as [`State::optionally_get_with`].
    ///
    /// # Errors
    ///
    /// As [`StateEntrySelector::or_insert_with`], for turns of kind `Optionally`.
    pub fn or_optionally_insert_with<F: FnOnce() -> Option<V> + Drop>(
        self,
        init: F,
    ) -> Result<Option<Entry<K, V>>, Refused>
        requires asks { F.IsAlwaysCallable init }
        requires keeps { (o : Option V) → F.post init o → IfSome o (C.keeps self.key) }
        ensures form { LoadsEntry ⟦<C as CallView<K, V>>⟧.spec optional_outcome (F.post init)
            self.entry.key Kind.Optionally self.entry.at self.entry.state.now self.exit.0.now
            (of_optional result) }
        ensures kept { IfOk result
            (λ found. IfSome found (λ entry. C.keeps self.entry.key (entry_of entry).value)) }
        ensures settings { self.exit.0.now.settings ≡ self.entry.state.now.settings }
    {
        let StateEntrySelector { state, key, at } = self;
        state.entry_or_optionally_insert_with(key, init, at)
    }

    /// Returns the entry of the key's live value. If there is none, runs `init`, which may fail:
    /// then nothing is stored, and its error is returned in an `Arc`, as [`State::try_get_with`].
    ///
    /// # Errors
    ///
    /// As [`StateEntrySelector::or_insert_with`], for turns of kind `Try`. Also:
    ///
    /// - `OutOfMemory`: the `Arc` of the error could not be allocated. The turn is abandoned.
    pub fn or_try_insert_with<F: FnOnce() -> Result<V, C::Error> + Drop>(
        self,
        init: F,
    ) -> Result<Result<Entry<K, V>, Arc<C::Error>>, Refused>
        requires asks { F.IsAlwaysCallable init }
        requires keeps { (r : Result V C.Error) → F.post init r → IfOk r (C.keeps self.key) }
        ensures form { LoadsEntry ⟦<C as CallView<K, V>>⟧.spec tried_outcome (F.post init)
            self.entry.key Kind.Try self.entry.at self.entry.state.now self.exit.0.now
            (of_tried result) }
        ensures kept { IfOk result
            (λ tried. IfOk tried (λ entry. C.keeps self.entry.key (entry_of entry).value)) }
        ensures settings { self.exit.0.now.settings ≡ self.entry.state.now.settings }
    {
        let StateEntrySelector { state, key, at } = self;
        state.entry_or_try_insert_with(key, init, at)
    }

    /// Runs `f` on the entry of the key's live value, if there is one, and does what it returns.
    /// `Op::Put` stores a value, `Op::Remove` removes the entry, and `Op::Nop` leaves it.
    ///
    /// This is a compute: its begin, `f`, and its finish, all at one moment. `f` runs at most once,
    /// and only if the turn is opened. The begin saves a clone of the live value, which
    /// `Op::Nop` returns.
    ///
    /// The prover asks that `f` accepts any entry whose value satisfies the value invariant. It
    /// also asks that a value that `f` then puts satisfies it.
    ///
    /// # Errors
    ///
    /// If the begin fails, `f` does not run, and the cache is unchanged. If the finish fails, the
    /// turn is abandoned.
    ///
    /// - `TurnIsOpen`: a compute of the key is open, so that the call would have to wait for it.
    /// - `NumbersUsedUp`: no sequence number is left, for the turn or for the write.
    /// - `OutOfMemory`: an allocation or a clone failed.
    ///
    /// # Complexity
    ///
    /// Costs one [`State::begin_compute`] and one [`State::finish`].
    pub fn and_compute_with<F: FnOnce(Option<Entry<K, V>>) -> Op<V> + Drop>(
        self,
        f: F,
    ) -> Result<CompResult<K, V>, Refused>
        requires asks { (shown : Option (Entry K V))
            → IfSome shown (EntryKeeps C.keeps self.key) → F.pre f shown }
        requires keeps { (shown : Option (Entry K V)) (op : Op V)
            → IfSome shown (EntryKeeps C.keeps self.key) → F.post f shown op
            → OutcomeKeeps {E = C.Error} (C.keeps self.key) (Outcome.Op op) }
        ensures form { Computes ⟦<C as CallView<K, V>>⟧.spec Some (F.post f) self.entry.key true
            self.entry.at self.entry.state.now self.exit.0.now (of_computing result) }
        ensures settings { self.exit.0.now.settings ≡ self.entry.state.now.settings }
    {
        let StateEntrySelector { state, key, at } = self;
        state.compute_with(key, f, at)
    }

    /// Runs `f` on the entry of the key's live value, if there is one, and stores the value that it
    /// returns. Returns the new entry, with a clone of that value.
    ///
    /// Works like [`StateEntrySelector::and_compute_with`] with an `Op::Put`, but saves no clone of
    /// the live value.
    ///
    /// # Errors
    ///
    /// As [`StateEntrySelector::and_compute_with`].
    pub fn and_upsert_with<F: FnOnce(Option<Entry<K, V>>) -> V + Drop>(
        self,
        f: F,
    ) -> Result<Entry<K, V>, Refused>
        requires asks { (shown : Option (Entry K V))
            → IfSome shown (EntryKeeps C.keeps self.key) → F.pre f shown }
        requires keeps { (shown : Option (Entry K V)) (v : V)
            → IfSome shown (EntryKeeps C.keeps self.key) → F.post f shown v → C.keeps self.key v }
        ensures form { Upserts ⟦<C as CallView<K, V>>⟧.spec (λ v. Some (Op.Put v)) (F.post f)
            IsUpserted self.entry.key false self.entry.at self.entry.state.now self.exit.0.now
            result }
        ensures kept { IfOk result (λ entry. C.keeps self.entry.key (entry_of entry).value) }
        ensures settings { self.exit.0.now.settings ≡ self.entry.state.now.settings }
    {
        let StateEntrySelector { state, key, at } = self;
        state.upsert_with(key, f, at)
    }

    /// Runs `f` on the entry of the key's live value, if there is one, and does what it returns. If
    /// `f` fails, the turn is abandoned, the value stays, and the error of `f` is returned.
    ///
    /// Otherwise works like [`StateEntrySelector::and_compute_with`].
    ///
    /// # Errors
    ///
    /// As [`StateEntrySelector::and_compute_with`].
    pub fn and_try_compute_with<F: FnOnce(Option<Entry<K, V>>) -> Result<Op<V>, C::Error> + Drop>(
        self,
        f: F,
    ) -> Result<Result<CompResult<K, V>, C::Error>, Refused>
        requires asks { (shown : Option (Entry K V))
            → IfSome shown (EntryKeeps C.keeps self.key) → F.pre f shown }
        requires keeps { (shown : Option (Entry K V)) (said : Result (Op V) C.Error)
            → IfSome shown (EntryKeeps C.keeps self.key) → F.post f shown said
            → IfOk said (λ op. OutcomeKeeps {E = C.Error} (C.keeps self.key) (Outcome.Op op)) }
        ensures form { Tries ⟦<C as CallView<K, V>>⟧.spec unless_failed (F.post f)
            (λ given. IsErrorOf given result) self.entry.key true self.entry.at self.entry.state.now
            self.exit.0.now (of_trying result) }
        ensures settings { self.exit.0.now.settings ≡ self.entry.state.now.settings }
    {
        let StateEntrySelector { state, key, at } = self;
        state.try_compute_with(key, f, at)
    }
}

impl<
    'a,
    K: Hash + Drop,
    V: Clone + Default,
    C: CacheTypes<K, V>,
    R: RowStore<K, V>,
> StateEntrySelector<'a, K, V, C, R> {
    /// Returns the entry of the key's live value. If there is none, stores the default value, and
    /// returns the new entry with a clone of that value, as [`State::or_default`].
    ///
    /// The prover asks that every default value satisfies the value invariant with the key.
    ///
    /// # Errors
    ///
    /// As [`StateEntrySelector::or_insert`].
    pub fn or_default(self) -> Result<Entry<K, V>, Refused>
        requires { (value : V) → V.is_default value → C.keeps self.key value }
        ensures ends { (value : V) × V.is_default value × OrInserts ⟦<C as CallView<K, V>>⟧.spec
            of_entry self.entry.key value self.entry.at self.entry.state.now self.exit.0.now
            result }
        ensures kept { IfOk result (EntryKeeps C.keeps self.entry.key) }
        ensures settings { self.exit.0.now.settings ≡ self.entry.state.now.settings }
    {
        let StateEntrySelector { state, key, at } = self;
        state.or_default(key, at)
    }
}
