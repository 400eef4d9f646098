//! The calls that invalidate the entries of which a predicate holds.
ghost use Rattle.std.specs.Prelude.{◌≡◌, ◌↔◌, true, false, if◌then◌else◌, IsOk, IfOk, IfErr, OnOk, OnErr};
ghost use Rattle.std.specs.Arc.{arc_value};
ghost use Rattle.std.specs.String.{string_bytes};
ghost use Rattle.moka_model.specs.Calls.{InvalidateIf};
ghost use Rattle.moka_predicate_ids.specs.PredicateId.{id_by, stream_after_id, IsIdText};

use crate::state::State;
use moka_expiration::view::StateView;
use moka_policy::policy::CacheTypes;
use moka_predicate_ids::predicate_error::PredicateError;
use moka_predicate_ids::predicate_id::{PredicateId, new_predicate_id};
use moka_rows::rows::RowStore;
use rand_core::Rng;
use std::hash::Hash;
use std::sync::Arc;

impl<K: Hash + Drop, V: Clone, C: CacheTypes<K, V>, R: RowStore<K, V>> State<K, V, C, R> {
    /// Marks every stored entry of which `predicate` holds as invalidated, and returns a new id.
    ///
    /// The predicate gets the stored key and the value. A marked value is not found any more. Its
    /// entry is removed, and its notice queued, by a later maintenance, or when its key is written
    /// or removed. What is written later is not affected. The call has no moment. The id is made of
    /// what the generator draws.
    ///
    /// # Errors
    ///
    /// A failed call marks nothing.
    ///
    /// - `InvalidationClosuresDisabled`: the cache was built without support for closures. The
    ///   generator is not used.
    /// - `OutOfMemory`: the id's text could not be allocated. The generator has been used.
    ///
    /// # Complexity
    ///
    /// Visits every entry, and runs the predicate once on each.
    pub fn invalidate_entries_if<G: Rng>(
        &mut self,
        predicate: C::Predicate,
        generator: &mut G,
    ) -> Result<PredicateId, PredicateError>
        requires tests { C.Predicate.tests predicate (C.test predicate) }
        ensures stands { OnOk result (⟦<C as StateView<K, V>>⟧.follows
            self.old (InvalidateIf (C.test predicate)) self.new) }
        ensures id { IfOk result (λ id. string_bytes id ≡ id_by (G.stream generator.old)) }
        ensures form { IfOk result (λ id. IsIdText (string_bytes id)) }
        ensures drawn { self.old.settings.supports_closures ≡ true →
            G.stream generator.new ≡ stream_after_id (G.stream generator.old) }

        // Fails with `InvalidationClosuresDisabled` exactly if closures are not supported. A failed
        // call changes nothing.
        ensures accepted { OnOk result (self.old.settings.supports_closures ≡ true) }
        ensures cause { IfErr result (λ cause. cause ≡ (if self.old.settings.supports_closures
            then PredicateError.OutOfMemory else PredicateError.InvalidationClosuresDisabled)) }
        ensures refused { OnErr result (self.new ≡ self.old) }
        ensures undrawn { self.old.settings.supports_closures ≡ false →
            generator.new ≡ generator.old }
        ensures settings { self.new.settings ≡ self.old.settings }
    {
        self.predicate_room()?; // If it fails, nothing is drawn.
        let Ok(id) = new_predicate_id(self.alloc(), generator) else {
            return Err(PredicateError::OutOfMemory);
        };
        self.hide_where(&predicate);
        Ok(id)
    }

    /// Works like [`State::invalidate_entries_if`], for a predicate in an `Arc`, and without an id.
    /// Does not allocate.
    ///
    /// # Errors
    ///
    /// - `InvalidationClosuresDisabled`: the cache was built without support for closures.
    pub fn invalidate_entries_with_arc_fun(
        &mut self,
        predicate: Arc<C::Predicate>,
    ) -> Result<(), PredicateError>
        requires tests { C.Predicate.tests (arc_value predicate) (C.test (arc_value predicate)) }
        ensures stands { OnOk result (⟦<C as StateView<K, V>>⟧.follows
            self.old (InvalidateIf (C.test (arc_value predicate))) self.new) }
        ensures accepted { IsOk result ↔ (self.old.settings.supports_closures ≡ true) }
        ensures cause { IfErr result
            (λ cause. cause ≡ PredicateError.InvalidationClosuresDisabled) }
        ensures refused { OnErr result (self.new ≡ self.old) }
        ensures settings { self.new.settings ≡ self.old.settings }
    {
        self.predicate_room()?; // If it fails, nothing is hidden.
        self.hide_where(&predicate);
        Ok(())
    }

    /// Checks whether a predicate would be accepted. A predicate needs no room in the cache, so
    /// none is made. Changes nothing, and is no step.
    ///
    /// # Errors
    ///
    /// - `InvalidationClosuresDisabled`: the cache was built without support for closures.
    pub fn predicate_room(&mut self) -> Result<(), PredicateError>
        ensures accepted { IsOk result ↔ (self.old.settings.supports_closures ≡ true) }
        ensures cause { IfErr result
            (λ cause. cause ≡ PredicateError.InvalidationClosuresDisabled) }
        ensures same { self.new ≡ self.old }
    {
        if self.closures {
            Ok(())
        } else {
            Err(PredicateError::InvalidationClosuresDisabled)
        }
    }

    /// Marks every stored entry of which `predicate` holds as invalidated, like
    /// [`State::invalidate_entries_if`]. Cannot fail, and does not allocate.
    ///
    /// Closures must be supported, which [`State::predicate_room`] checks.
    #[doc(hidden)]
    pub fn hide_where(&mut self, predicate: &C::Predicate)
        requires tests { C.Predicate.tests predicate.now (C.test predicate.now) }
        requires supported { self.old.settings.supports_closures ≡ true }
        ensures stands { ⟦<C as StateView<K, V>>⟧.follows
            self.old (InvalidateIf (C.test predicate.now)) self.new }
        ensures settings { self.new.settings ≡ self.old.settings }
    {
        let mut visits = 0;
        self.table.hide_where(predicate, &mut visits);
    }
}
