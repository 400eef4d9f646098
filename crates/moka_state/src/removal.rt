//! Two calls that remove at the caller's wish and do more than [`State::invalidate`]: one returns
//! what it removes, the other removes everything.
ghost use Rattle.std.specs.Prelude.{◌≡◌, IfOk, IfSome};
ghost use Rattle.moka_model.specs.Calls.{Remove, InvalidateAll};
ghost use Rattle.moka_state.specs.Ends.{ReadsLive};

use crate::call_view::CallView;
use crate::state::State;
use moka_expiration::view::StateView;
use moka_policy::policy::{CacheTypes, Refused};
use moka_rows::rows::RowStore;
use std::hash::Hash;

impl<K: Hash + Drop, V: Clone, C: CacheTypes<K, V>, R: RowStore<K, V>> State<K, V, C, R> {
    /// Removes the entry of `key`, live or expired, and queues its notice. Returns a clone of the
    /// value if it was live, else `None`.
    ///
    /// # Errors
    ///
    /// - `OutOfMemory`: cloning the value failed. If no value is live, the call cannot fail, and
    ///   does not allocate.
    ///
    /// # Complexity
    ///
    /// In a `CacheState`, reads no rows but those that have the key's hash.
    pub fn remove(&mut self, key: &K, now: u64) -> Result<Option<V>, Refused>
        // Only cloning the live value can fail, and then nothing has changed.
        ensures ends { ReadsLive ⟦<C as CallView<K, V>>⟧.spec Remove key.now now self.old self.new
            result }
        ensures kept { IfOk result (λ found. IfSome found (C.keeps key.now)) }
        ensures settings { self.new.settings ≡ self.old.settings }
    {
        let hash = self.hash(key);
        self.remove_with_hash(key, hash, now)
    }

    /// Marks every stored entry as invalidated: none of their values is found any more. Cannot
    /// fail, and does not allocate.
    ///
    /// An entry is removed, and its notice queued, by a later maintenance, or when its key is
    /// written or removed. The call has no moment.
    ///
    /// # Complexity
    ///
    /// Visits every entry.
    pub fn invalidate_all(&mut self)
        ensures stands { ⟦<C as StateView<K, V>>⟧.follows self.old InvalidateAll self.new }
        ensures settings { self.new.settings ≡ self.old.settings }
    {
        let mut visits = 0;
        self.table.hide_all(&mut visits);
    }
}
