//! An owned cache beside the counts of what its calls returned.
ghost use Rattle.std.specs.Prelude.{◌≡◌, ◌⊎◌, Result, Option, is_some, not, option_map, IfOk, IfErr, IfSome, OnOk, OnErr, true, false};
ghost use Rattle.std.specs.Arc.{arc_value};
ghost use Rattle.moka_model.specs.Calls.{Get, TakeNotice, Noticed};
ghost use Rattle.moka_model.specs.Entries.{entry_of};
ghost use Rattle.moka_table.specs.Table.{removal_of};
ghost use Rattle.moka_state.specs.Begin.{EntryKeeps};
ghost use Rattle.moka_state.specs.Ends.{ReadsLive};
ghost use Rattle.moka_stats.specs.Statistics.{after_lookup, after_removal, after_loader};

use moka_expiration::view::StateView;
use moka_model::entry::Entry;
use moka_model::notification::Notice;
use moka_policy::policy::{CacheTypes, Refused};
use moka_rows::rows::RowStore;
use moka_state::call_view::CallView;
use moka_state::expiring_rows::ExpiringRows;
use moka_state::or_insert::OrInsertRefused;
use moka_state::state::State;
use moka_stats::statistics::Statistics;
use std::hash::Hash;
use std::sync::Arc;

/// An owned cache with the counts of what its calls returned.
///
/// Only the calls here are counted. Make all others, such as `insert` and `run_pending_tasks`, on
/// the field `cache`: they look nothing up. A `get` or a loader that is called there is not
/// counted.
///
/// Removals are counted when their notices are taken, by [`Counted::take_notice`].
#[derive(Drop)]
pub struct Counted<K: Hash + Drop, V: Clone, C: CacheTypes<K, V>, R: RowStore<K, V>> {
    /// The cache.
    pub cache: State<K, V, C, R>,
    /// What was counted so far.
    pub statistics: Statistics,
}

/// A [`Counted`] cache whose rows are those of a `CacheState`.
pub type CountedState<K, V, C> = Counted<K, V, C, ExpiringRows<K, V>>;

impl<K: Hash + Drop, V: Clone, C: CacheTypes<K, V>, R: RowStore<K, V>> Counted<K, V, C, R> {
    /// Calls [`State::get`], and counts a hit or a miss.
    pub fn get(&mut self, key: &K, now: u64) -> Result<Option<V>, Refused>
        ensures ends { ReadsLive ⟦<C as CallView<K, V>>⟧.spec Get key.now now self.old.cache
            self.new.cache result }
        ensures kept { IfOk result (λ found. IfSome found (C.keeps key.now)) }
        ensures counted { IfOk result (λ found.
            self.new.statistics ≡ after_lookup (is_some found) self.old.statistics) }
        ensures uncounted { OnErr result (self.new.statistics ≡ self.old.statistics) }
    {
        match self.cache.get(key, now) {
            Ok(found) => {
                self.statistics.record_lookup(found.is_some());
                Ok(found)
            }
            Err(cause) => Err(cause),
        }
    }

    /// Calls [`State::or_insert`], and counts a hit, or a miss if it wrote the value.
    pub fn or_insert(
        &mut self,
        key: &Arc<K>,
        value: V,
        now: u64,
    ) -> Result<Entry<K, V>, OrInsertRefused<V>>
        requires { C.keeps (arc_value key.now) value }
        ensures kept { IfOk result (EntryKeeps C.keeps (arc_value key.now)) }
        ensures value_back { IfErr result (λ refused. refused.value ≡ value) }
        ensures counted { IfOk result (λ entry. self.new.statistics
            ≡ after_lookup (not (entry_of entry).fresh) self.old.statistics) }
        ensures uncounted { OnErr result (self.new.statistics ≡ self.old.statistics) }
    {
        match self.cache.or_insert(key, value, now) {
            Ok(entry) => {
                self.statistics.record_lookup(!entry.is_fresh());
                Ok(entry)
            }
            Err(refused) => Err(refused),
        }
    }

    /// Calls [`State::get_with`], and counts a hit, or a miss and a load if `init` ran.
    pub fn get_with<F: FnOnce() -> V + Drop>(
        &mut self,
        key: K,
        init: F,
        now: u64,
    ) -> Result<V, Refused>
        requires asks { F.IsAlwaysCallable init }
        requires keeps { (v : V) → F.post init v → C.keeps key v }
        ensures kept { IfOk result (C.keeps key) }
        ensures counted { OnOk result
            ((self.new.statistics ≡ after_loader false true self.old.statistics)
            ⊎ (self.new.statistics ≡ after_loader true true self.old.statistics)) }
    {
        let mut has_run = false;
        let result = self.cache.get_with(
            key,
            || {
                has_run = true;
                init()
            },
            now,
        );
        self.note_loader(has_run, result.is_ok(), result.is_ok());
        result
    }

    /// Calls [`State::optionally_get_with`], and counts a hit, or a miss and a load if `init` ran: a
    /// failed one if it gave nothing.
    pub fn optionally_get_with<F: FnOnce() -> Option<V> + Drop>(
        &mut self,
        key: K,
        init: F,
        now: u64,
    ) -> Result<Option<V>, Refused>
        requires asks { F.IsAlwaysCallable init }
        requires keeps { (o : Option V) → F.post init o → IfSome o (C.keeps key) }
        ensures kept { IfOk result (λ found. IfSome found (C.keeps key)) }
    {
        let mut has_run = false;
        let result = self.cache.optionally_get_with(
            key,
            || {
                has_run = true;
                init()
            },
            now,
        );
        self.note_loader(has_run, result.is_ok(), matches!(&result, Ok(Some(_))));
        result
    }

    /// Calls [`State::try_get_with`], and counts a hit, or a miss and a load if `init` ran: a failed
    /// one if it failed.
    pub fn try_get_with<F: FnOnce() -> Result<V, C::Error> + Drop>(
        &mut self,
        key: K,
        init: F,
        now: u64,
    ) -> Result<Result<V, Arc<C::Error>>, Refused>
        requires asks { F.IsAlwaysCallable init }
        requires keeps { (r : Result V C.Error) → F.post init r → IfOk r (C.keeps key) }
        ensures kept { IfOk result (λ tried. IfOk tried (C.keeps key)) }
    {
        let mut has_run = false;
        let result = self.cache.try_get_with(
            key,
            || {
                has_run = true;
                init()
            },
            now,
        );
        self.note_loader(has_run, result.is_ok(), matches!(&result, Ok(Ok(_))));
        result
    }

    // Counts what a loader did. A call that failed before its initializer ran did nothing; one that
    // failed after it has recorded its lookup.
    fn note_loader(&mut self, has_run: bool, is_done: bool, is_stored: bool)
        ensures cache { self.new.cache ≡ self.old.cache }
        ensures counted { is_done ≡ true → self.new.statistics
            ≡ after_loader has_run is_stored self.old.statistics }
        ensures uncounted { (is_done ≡ false) → (has_run ≡ false)
            → self.new.statistics ≡ self.old.statistics }
    {
        if has_run {
            self.statistics.record_lookup(false);
            self.statistics.record_load(is_stored);
        } else if is_done {
            self.statistics.record_lookup(true);
        }
    }

    /// Calls [`State::take_notice`], and counts the removal by its cause.
    pub fn take_notice(&mut self) -> Option<Notice<K, V>>
        ensures reply { ⟦<C as StateView<K, V>>⟧.replies_with self.old.cache TakeNotice
            (Noticed (option_map removal_of result)) }
        ensures stands { ⟦<C as StateView<K, V>>⟧.follows self.old.cache TakeNotice
            self.new.cache }
        ensures kept { IfSome result (λ notice. C.keeps (arc_value notice.key) notice.value) }
        ensures counted { IfSome result (λ notice. self.new.statistics
            ≡ after_removal notice.cause self.old.statistics) }
    {
        match self.cache.take_notice() {
            Some(notice) => {
                self.statistics.record_removal(notice.cause);
                Some(notice)
            }
            None => None,
        }
    }
}
