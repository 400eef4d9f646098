//! The begin of a turn: it finds a live value, waits for an open turn, or opens one.
ghost use Rattle.std.specs.Prelude.{◌≡◌, ◌≢◌, Bool, Option, None, true, IfOk, IfSome, OnErr};
ghost use Rattle.std.specs.Arc.{arc_value};
ghost use Rattle.moka_state.specs.Begin.{EntryKeeps, FoundKeeps, FoundKeepsFor, IfWait, IsAsked, IsNamed, IsSaidOf, IsShownKept, TakesLive};
ghost use Rattle.moka_state.specs.Hashes.{IsHashOf};
ghost use Rattle.moka_state.specs.Ends.{HasToRefuse, IsLiveAt, LoaderBegins, LoaderBeginsAs, LoaderBeginsByRef, Looks, Misses};

use crate::answers::Begun;
use crate::call_view::CallView;
use crate::state::State;
use moka_expiration::view::StateView;
use moka_model::entry::Entry;
use moka_model::turns::Kind;
use moka_policy::policy::{CacheTypes, FrequencySource, Refused};
use moka_rows::rows::RowStore;
use moka_turns::begin::TurnBegun;
use moka_turns::turn_key::TurnKey;
use std::alloc::AllocError;
use std::hash::Hash;
use std::sync::Arc;

impl<K: Hash + Drop, V: Clone, C: CacheTypes<K, V>, R: RowStore<K, V>> State<K, V, C, R> {
    /// Begins to compute a value for `key`, as a loader of this kind, which must not be `Compute`.
    ///
    /// - Returns the live entry as `Begun::Found`, unless `replace_if` returns true for its value.
    /// - Else, if a turn of the key and the kind is open, returns a ticket for it as `Begun::Wait`.
    /// - Else opens a turn, which the caller has to end, and returns it as `Begun::Run`.
    ///
    /// In each case this is a recorded lookup, as [`State::get`]. A value that is to be replaced
    /// counts as absent.
    ///
    /// # Errors
    ///
    /// - `NumbersUsedUp`: a turn would be opened, and no sequence number is left. Or the open turn
    ///   already has 2⁶⁴ - 1 unspent tickets.
    /// - `OutOfMemory`: an allocation or a clone failed.
    ///
    /// # Complexity
    ///
    /// A hit costs a [`State::get`] and a share of the stored key. Otherwise two lookups in the
    /// table of turns come on top.
    pub fn begin<F: FnMut(&V) -> bool + Drop>(
        &mut self,
        key: &Arc<K>,
        kind: Kind,
        replace_if: Option<F>,
        now: u64,
    ) -> Result<Begun<K, V>, Refused>
        requires initializer { kind ≢ Kind.Compute }
        requires asks { IfSome replace_if (TakesLive K.eq C.keeps
            ⟦<C as StateView<K, V>>⟧.settings F.FnMut (arc_value key.now) now self.old) }
        ensures begins { LoaderBegins ⟦<C as CallView<K, V>>⟧.spec (IsSaidOf F.FnMut replace_if)
            (arc_value key.now) kind now true self.old self.new result }
        ensures named { IfOk result (IsNamed kind (arc_value key.now)) }
        ensures kept { IfOk result (FoundKeeps C.keeps) }
        ensures kept_for { IfOk result (FoundKeepsFor C.keeps (arc_value key.now)) }
        ensures settings { self.new.settings ≡ self.old.settings }
    {
        let mut replace_if = replace_if;
        self.begin_reusing(key, kind, &mut replace_if, now)
    }

    /// Works like [`State::begin`], and leaves `replace_if` to the caller, for a later begin. It was
    /// called at most once, at a value that satisfies `keeps` with `key`.
    ///
    /// # Errors
    ///
    /// As [`State::begin`].
    pub fn begin_reusing<F: FnMut(&V) -> bool + Drop>(
        &mut self,
        key: &Arc<K>,
        kind: Kind,
        replace_if: &mut Option<F>,
        now: u64,
    ) -> Result<Begun<K, V>, Refused>
        requires initializer { kind ≢ Kind.Compute }
        requires asks { IfSome replace_if.old (TakesLive K.eq C.keeps
            ⟦<C as StateView<K, V>>⟧.settings F.FnMut (arc_value key.now) now self.old) }
        ensures begins { LoaderBegins ⟦<C as CallView<K, V>>⟧.spec (IsSaidOf F.FnMut replace_if.old)
            (arc_value key.now) kind now true self.old self.new result }
        ensures named { IfOk result (IsNamed kind (arc_value key.now)) }
        ensures kept { IfOk result (FoundKeeps C.keeps) }
        ensures kept_for { IfOk result (FoundKeepsFor C.keeps (arc_value key.now)) }
        ensures left { IsShownKept (C.keeps (arc_value key.now)) F.FnMut
            replace_if.old replace_if.new }
        ensures settings { self.new.settings ≡ self.old.settings }
    {
        let hash = self.hash(&**key);
        match self.find_acceptable_entry(&**key, hash, replace_if, now) {
            Ok(Some(entry)) => Ok(Begun::Found(entry)),
            Ok(None) => match key.clone() {
                Ok(shared) => self.begin_turn(shared, hash, kind, now, true),
                Err(_) => Err(Refused::OutOfMemory),
            },
            Err(cause) => Err(cause),
        }
    }

    /// Returns the entry of the live value for `key`, or `None` if there is none or `replace_if`
    /// returns true for it.
    ///
    /// This is the lookup of [`State::begin`], for a key by reference and its hash, as
    /// [`State::hash`] returns it. A hit counts as an access, as in a begin of any kind. A miss
    /// changes nothing and is no step: a begin is meant to follow it.
    ///
    /// # Errors
    ///
    /// - `OutOfMemory`: a value is live, and cloning it failed. The cache is unchanged.
    ///
    /// # Complexity
    ///
    /// Costs a [`State::get`], without hashing the key, and a share of the stored key.
    #[doc(hidden)]
    pub fn acceptable_entry<F: FnMut(&V) -> bool + Drop>(
        &mut self,
        key: &K,
        hash: u64,
        replace_if: Option<F>,
        now: u64,
    ) -> Result<Option<Entry<K, V>>, Refused>
        requires hash { IsHashOf (⟦<C as StateView<K, V>>⟧.settings self.old.settings)
            key.now hash }
        requires asks { IfSome replace_if (TakesLive K.eq C.keeps
            ⟦<C as StateView<K, V>>⟧.settings F.FnMut key.now now self.old) }
        ensures looks { Looks ⟦<C as CallView<K, V>>⟧.spec (IsSaidOf F.FnMut replace_if) key.now now
            self.old self.new result }
        ensures live { OnErr result (IsLiveAt ⟦<C as CallView<K, V>>⟧.spec self.old key.now now) }
        ensures kept { IfOk result (λ found. IfSome found (EntryKeeps C.keeps key.now)) }
        ensures settings { self.new.settings ≡ self.old.settings }
    {
        let mut replace_if = replace_if;
        self.find_acceptable_entry(key, hash, &mut replace_if, now)
    }

    // Works like `acceptable_entry`, and leaves `replace_if` to the caller.
    pub(crate) fn find_acceptable_entry<F: FnMut(&V) -> bool + Drop>(
        &mut self,
        key: &K,
        hash: u64,
        replace_if: &mut Option<F>,
        now: u64,
    ) -> Result<Option<Entry<K, V>>, Refused>
        requires hash { IsHashOf (⟦<C as StateView<K, V>>⟧.settings self.old.settings)
            key.now hash }
        requires asks { IfSome replace_if.old (TakesLive K.eq C.keeps
            ⟦<C as StateView<K, V>>⟧.settings F.FnMut key.now now self.old) }
        ensures looks { Looks ⟦<C as CallView<K, V>>⟧.spec (IsSaidOf F.FnMut replace_if.old) key.now
            now self.old self.new result }
        ensures live { OnErr result (IsLiveAt ⟦<C as CallView<K, V>>⟧.spec self.old key.now now) }
        ensures kept { IfOk result (λ found. IfSome found (EntryKeeps C.keeps key.now)) }
        ensures left { IsShownKept (C.keeps key.now) F.FnMut replace_if.old replace_if.new }
        ensures settings { self.new.settings ≡ self.old.settings }
    {
        let now = self.latest.max(now);
        let Some(number) = self.table.find_acceptable(key, hash, replace_if, now) else {
            return Ok(None);
        };
        let Ok(entry) = self.table.entry(number) else {
            return Err(Refused::OutOfMemory);
        };
        self.housekeeper
            .hit(&mut self.table, number, hash, now, &self.behaviour);
        self.latest = now;
        Ok(Some(entry))
    }

    // Returns whether a begin has to fail with `TurnIsOpen`: it may not wait, and a turn of the key
    // and the kind is open.
    pub(crate) fn has_to_refuse(&self, key: &K, hash: u64, kind: Kind, may_wait: bool) -> bool
        requires { IsHashOf (⟦<C as StateView<K, V>>⟧.settings self.now.settings) key.now hash }
        ensures { HasToRefuse ⟦<C as CallView<K, V>>⟧.spec kind key.now may_wait self.now result }
    {
        if may_wait {
            return false;
        }
        self.turns.has_open(hash, kind, key)
    }

    /// Waits for the open turn of a key and a kind, or opens one, given the key's hash, as
    /// [`State::hash`] returns it. The key is neither hashed nor looked up among the entries.
    ///
    /// This is what a begin does after a lookup that found no acceptable value, such as
    /// [`State::acceptable_entry`].
    ///
    /// # Errors
    ///
    /// As [`State::begin`]. Also:
    ///
    /// - `TurnIsOpen`: it would have to wait, and `may_wait` is false.
    #[doc(hidden)]
    pub fn begin_turn(
        &mut self,
        key: Arc<K>,
        hash: u64,
        kind: Kind,
        now: u64,
        may_wait: bool,
    ) -> Result<Begun<K, V>, Refused>
        requires hash { IsHashOf (⟦<C as StateView<K, V>>⟧.settings self.old.settings)
            (arc_value key) hash }
        requires initializer { kind ≢ Kind.Compute }
        ensures begins { (said : Option Bool) → Misses ⟦<C as CallView<K, V>>⟧.spec self.old said
            (arc_value key) now → LoaderBeginsAs ⟦<C as CallView<K, V>>⟧.spec said (arc_value key)
            kind now may_wait self.old self.new result }
        ensures named { IfOk result (IsNamed kind (arc_value key)) }
        ensures waits { IfOk result (IfWait (may_wait ≡ true)) }
        ensures kept { IfOk result (FoundKeeps C.keeps) }
        ensures kept_for { (q : K) → IfOk result (FoundKeepsFor C.keeps q) }
        ensures settings { self.new.settings ≡ self.old.settings }
    {
        let now = self.latest.max(now);
        let wanted = TurnKey { hash, kind, key };
        let begun = self.turns.begin(wanted, self.next_number, may_wait)?;
        self.housekeeper.source.note(hash);
        self.latest = now;
        match begun {
            TurnBegun::Wait(ticket) => Ok(Begun::Wait(ticket)),
            TurnBegun::Run(turn) => {
                self.next_number += 1;
                Ok(Begun::Run(turn))
            }
        }
    }
}

impl<K: Hash + Clone + Drop, V: Clone, C: CacheTypes<K, V>, R: RowStore<K, V>> State<K, V, C, R> {
    /// Works like [`State::begin`], for a key by reference. The key is cloned only if no acceptable
    /// value is found; the turn or the ticket has the clone.
    ///
    /// The prover asks that a clone of a key equals it.
    ///
    /// # Errors
    ///
    /// As [`State::begin`]. Also:
    ///
    /// - `OutOfMemory`: the key could not be cloned into an `Arc`.
    pub fn begin_by_ref<F: FnMut(&V) -> bool + Drop>(
        &mut self,
        key: &K,
        kind: Kind,
        replace_if: Option<F>,
        now: u64,
    ) -> Result<Begun<K, V>, Refused>
        requires copies { (a b : K) → K.is_clone a b → K.eq a b ≡ true }
        requires initializer { kind ≢ Kind.Compute }
        requires asks { IfSome replace_if (TakesLive K.eq C.keeps
            ⟦<C as StateView<K, V>>⟧.settings F.FnMut key.now now self.old) }
        ensures begins { LoaderBeginsByRef ⟦<C as CallView<K, V>>⟧.spec
            (IsAsked K.eq K.is_clone key.now) (IsSaidOf F.FnMut replace_if) kind now true self.old
            self.new result }
        ensures kept { IfOk result (FoundKeeps C.keeps) }
        ensures kept_for { IfOk result (FoundKeepsFor C.keeps key.now) }
        ensures settings { self.new.settings ≡ self.old.settings }
    {
        self.begin_borrowed(key, kind, replace_if, now, true)
    }

    // Works like `begin_by_ref`, but fails with `TurnIsOpen` if it would have to wait and may not.
    // Then it does not clone the key.
    pub(crate) fn begin_borrowed<F: FnMut(&V) -> bool + Drop>(
        &mut self,
        key: &K,
        kind: Kind,
        replace_if: Option<F>,
        now: u64,
        may_wait: bool,
    ) -> Result<Begun<K, V>, Refused>
        requires copies { (a b : K) → K.is_clone a b → K.eq a b ≡ true }
        requires initializer { kind ≢ Kind.Compute }
        requires asks { IfSome replace_if (TakesLive K.eq C.keeps
            ⟦<C as StateView<K, V>>⟧.settings F.FnMut key.now now self.old) }
        ensures begins { LoaderBeginsByRef ⟦<C as CallView<K, V>>⟧.spec
            (IsAsked K.eq K.is_clone key.now) (IsSaidOf F.FnMut replace_if) kind now may_wait
            self.old self.new result }
        ensures waits { IfOk result (IfWait (may_wait ≡ true)) }
        ensures kept { IfOk result (FoundKeeps C.keeps) }
        ensures kept_for { IfOk result (FoundKeepsFor C.keeps key.now) }
        ensures settings { self.new.settings ≡ self.old.settings }
    {
        let hash = self.hash(key);
        match self.acceptable_entry(key, hash, replace_if, now) {
            Ok(Some(entry)) => Ok(Begun::Found(entry)),
            Ok(None) => {
                if self.has_to_refuse(key, hash, kind, may_wait) {
                    return Err(Refused::TurnIsOpen);
                }
                match self.share_copy(key) {
                    Ok(copy) => self.begin_turn(copy, hash, kind, now, may_wait),
                    Err(_) => Err(Refused::OutOfMemory),
                }
            }
            Err(cause) => Err(cause),
        }
    }

    // Clones a key into an `Arc`.
    pub(crate) fn share_copy(&self, key: &K) -> Result<Arc<K>, AllocError>
        ensures { IfOk result (λ shared. K.is_clone key.now (arc_value shared)) }
    {
        let copy = key.clone()?;
        match Arc::new(self.alloc, copy) {
            Ok(shared) => Ok(shared),
            Err(_) => Err(AllocError),
        }
    }
}
