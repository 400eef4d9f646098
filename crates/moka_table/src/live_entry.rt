//! Lookups of live values: which of them are acceptable to the caller, and what they return.
ghost use Rattle.std.specs.Prelude.{◌≡◌, Bool, Option, IsSome, IfSome, IfOk, option_map, slice_get};
ghost use Rattle.std.specs.Fn.{TakesAt};
ghost use Rattle.moka_model.specs.Entries.{entry_of};
ghost use Rattle.moka_rows.specs.Rows.{row_under};
ghost use Rattle.moka_table.specs.LiveEntry.{Accepts, FindsLive, IsCalledOnce, IsSaid, IsEntryOfRow, LeavesShown, TakesLiveRow, is_yes};
ghost use Rattle.moka_table.specs.Notices.{IsNoticeOf};
ghost use Rattle.moka_table.specs.Table.{entries, removal_of};

use crate::table::Table;
use moka_model::entry::Entry;
use moka_model::notification::Notice;
use moka_rows::rows::{RowId, RowStore};
use std::alloc::AllocError;

// Returns whether there is a closure and it asks to replace the value.
fn asks_to_replace<V, F: FnMut(&V) -> bool + Drop>(value: &V, replace_if: &mut Option<F>) -> bool
    requires { IfSome replace_if.old (λ f. TakesAt F.FnMut f value.now) }
    ensures says { (said : Option Bool) × IsSaid F.FnMut replace_if.old value.now said
        × (result ≡ is_yes said) }
    ensures left { IsCalledOnce F.FnMut replace_if.old value.now replace_if.new }
{
    match replace_if {
        Some(replace_if) => replace_if(value),
        None => false,
    }
}

impl<K: Eq + Drop, V: Clone, R: RowStore<K, V>> Table<K, V, R> {
    /// Returns the number of a key's row if its value is live at `now`.
    #[inline(always)]
    pub fn find_live(&self, key: &K, hash: u64, now: u64) -> Option<RowId>
        ensures { FindsLive K.eq key.now hash now (entries self.now) result }
    {
        let number = self.find(key, hash)?;
        let row = self.row(number);
        if row.info().is_dead(now) {
            return None;
        }
        Some(number)
    }

    /// Returns the number of a key's row if its value is live at `now` and acceptable.
    ///
    /// A value is acceptable unless `replace_if` returns `true` for it. `replace_if` is called at
    /// most once, and only with the live value. The caller may call it again later.
    pub fn find_acceptable<F: FnMut(&V) -> bool + Drop>(
        &self,
        key: &K,
        hash: u64,
        replace_if: &mut Option<F>,
        now: u64,
    ) -> Option<RowId>
        requires { IfSome replace_if.old
            (TakesLiveRow K.eq F.FnMut key.now hash now (entries self.now)) }
        ensures accepts { (said : Option Bool) × Accepts K.eq F.FnMut replace_if.old key.now
            hash now (entries self.now) said result }
        ensures left { LeavesShown K.eq F.FnMut key.now hash now (entries self.now)
            replace_if.old replace_if.new }
    {
        let number = self.find_live(key, hash, now)?;
        if asks_to_replace(self.row(number).value, replace_if) {
            return None;
        }
        Some(number)
    }

    /// Returns an entry of a row: the stored key, and a clone of the value.
    ///
    /// # Errors
    ///
    /// - `AllocError`: an allocation failed.
    pub fn entry(&self, number: RowId) -> Result<Entry<K, V>, AllocError>
        requires { IsSome (row_under number (entries self.now)) }
        ensures { IfOk result (λ entry. IfSome (row_under number (entries self.now)) (λ row.
            IsEntryOfRow V.is_clone row (entry_of entry))) }
    {
        let row = self.row(number);
        let key = row.key.clone()?;
        let value = row.value.clone()?;
        Ok(Entry::new(key, value, false, false))
    }

    /// Returns a clone of the notice that is taken next, if there is one.
    ///
    /// # Errors
    ///
    /// - `AllocError`: an allocation failed.
    pub fn copy_notice(&self) -> Result<Option<Notice<K, V>>, AllocError>
        ensures { IfOk result (IsNoticeOf V.is_clone
            (option_map removal_of (slice_get self.now.notices 0))) }
    {
        let Some(notice) = self.first_notice() else {
            return Ok(None);
        };
        let key = notice.key.clone()?;
        let value = notice.value.clone()?;
        let cause = notice.cause;
        Ok(Some(Notice { key, value, cause }))
    }
}
