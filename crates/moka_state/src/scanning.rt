//! What iteration reads of a cache. These calls change nothing, and are no steps.
ghost use Rattle.std.specs.Prelude.{◌≡◌, None, map, IfOk, IfErr, IfSome};
ghost use Rattle.std.specs.Arc.{arc_value};
ghost use Rattle.moka_model.specs.Calls.{Get};
ghost use Rattle.moka_state.specs.State.{all_writes};
ghost use Rattle.moka_state.specs.Ends.{ScansLive};

use crate::call_view::CallView;
use crate::state::State;
use moka_expiration::live_value::copy_of_live;
use moka_policy::policy::{CacheTypes, Refused};
use moka_rows::rows::RowStore;
use std::hash::Hash;
use std::sync::Arc;

impl<K: Hash + Drop, V: Clone, C: CacheTypes<K, V>, R: RowStore<K, V>> State<K, V, C, R> {
    /// Returns the key of each stored entry, live or not, once. The keys are shared, not cloned.
    ///
    /// # Errors
    ///
    /// - `OutOfMemory`: the list of keys could not be allocated.
    ///
    /// # Complexity
    ///
    /// Visits every entry once.
    pub fn scan_keys(&self) -> Result<Vec<Arc<K>>, Refused>
        ensures keys { IfOk result (λ keys.
            map arc_value keys.items ≡ map (λ w. w.key) (all_writes self.now)) }
        ensures cause { IfErr result (λ cause. cause ≡ Refused.OutOfMemory) }
    {
        let mut visits = 0;
        match self.table.keys(self.alloc(), &mut visits) {
            Ok(keys) => Ok(keys),
            Err(_) => Err(Refused::OutOfMemory),
        }
    }

    /// Returns what [`State::get`] would: a clone of the live value for `key`, or `None`. Does not
    /// count as an access, notes no hash, and records no moment.
    ///
    /// # Errors
    ///
    /// - `OutOfMemory`: cloning the value failed. If no value is live, the call cannot fail, and
    ///   does not allocate.
    ///
    /// # Complexity
    ///
    /// In a `CacheState`, reads no rows but those that have the key's hash.
    pub fn scan_get(&self, key: &K, now: u64) -> Result<Option<V>, Refused>
        // Only cloning the live value can fail.
        ensures ends { ScansLive ⟦<C as CallView<K, V>>⟧.spec Get key.now now self.now result }
        ensures kept { IfOk result (λ found. IfSome found (C.keeps key.now)) }
    {
        let now = self.latest.max(now);
        let hash = self.behaviour.hash(key);
        let Some(number) = self.table.find(key, hash) else {
            return Ok(None);
        };
        let found = copy_of_live(self.table.row(number), now)?;
        Ok(found)
    }
}
