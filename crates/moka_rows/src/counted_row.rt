//! Rows as a store keeps them, and as a lookup in lists is lent them.
ghost use Rattle.std.specs.Prelude.{◌≡◌, ◌∷◌, ◌+◌, ◌-◌, ◌<◌, ◌^◌, drop, length};
ghost use Rattle.moka_rows.specs.Rows.{touched, overwritten, hidden};

use crate::rows::{Access, EntryInfo, Row, RowId};
use std::marker::Model;

/// A row in a store.
///
/// A contract sees the row itself. `read_counted` is for a lookup, and counts the row. The other
/// calls are for a row whose number is known already. A lookup is lent no `CountedRow`, so it cannot
/// use them.
#[derive(Drop)]
pub struct CountedRow<R> {
    row: R,
}

impl<R> Model for CountedRow<R> {
    ghost Value = { R };

    ghost view = { λ s. s.row };
}

impl<R> CountedRow<R> {
    /// Wraps a row for a store.
    #[inline(always)]
    pub fn new(row: R) -> Self
        ensures { result ≡ row }
    {
        CountedRow { row }
    }

    /// Returns the row to a lookup, and adds 1 to `reads`.
    #[inline(always)]
    pub fn read_counted(&self, reads: &mut u64) -> &R
        requires { reads.old < 2 ^ 64 - 1 }
        ensures row { result.now ≡ self.now }
        ensures counted { reads.new ≡ reads.old + 1 }
    {
        *reads += 1;
        &self.row
    }

    /// Returns the row, whose number is known already.
    #[inline(always)]
    pub fn row(&self) -> &R
        ensures { result.now ≡ self.now }
    {
        &self.row
    }

    /// Returns the row itself, for its removal from the store.
    #[inline(always)]
    pub fn into_row(self) -> R
        ensures { result ≡ self }
    {
        self.row
    }
}

impl<K, V> CountedRow<Row<K, V>> {
    /// Applies an access to the row, and returns the metadata before it.
    #[inline(always)]
    pub fn touch(&mut self, touch: Access) -> EntryInfo
        ensures before { result ≡ self.old.info }
        ensures after { self.new ≡ touched touch self.old }
    {
        self.row.touch(touch)
    }

    /// Replaces the value and its metadata, and returns the old ones.
    #[inline(always)]
    pub fn overwrite(&mut self, value: V, info: EntryInfo) -> (V, EntryInfo)
        ensures value { result.0 ≡ self.old.value }
        ensures info { result.1 ≡ self.old.info }
        ensures after { self.new ≡ overwritten value info self.old }
    {
        self.row.overwrite(value, info)
    }

    /// Marks the row invalidated.
    #[inline(always)]
    pub fn hide(&mut self)
        ensures { self.new ≡ hidden self.old }
    {
        self.row.hide();
    }
}

/// A list of rows with their numbers as a lookup is lent it.
///
/// A row is reached by `read_counted` alone, which counts it.
#[derive(Drop)]
pub(crate) struct CountedList<'a, R> {
    rows: &'a [(RowId, CountedRow<R>)],
}

impl<'a, R> CountedList<'a, R> {
    /// Wraps a list for a lookup.
    #[inline(always)]
    pub fn new(rows: &'a [(RowId, CountedRow<R>)]) -> Self
        ensures { result.rows.now ≡ rows.entry.now }
    {
        CountedList { rows }
    }

    /// Returns how many rows there are.
    #[inline(always)]
    pub fn len(&self) -> usize
        ensures { result ≡ length self.now.rows.now }
    {
        self.rows.len()
    }

    /// Returns the row at an index with its number, and adds 1 to `reads`.
    #[inline(always)]
    pub fn read_counted(&self, place: usize, reads: &mut u64) -> (RowId, &R)
        requires within { place < length self.now.rows.now }
        requires fits { reads.old < 2 ^ 64 - 1 }
        ensures row { drop place self.now.rows.now
            ≡ (result.0, result.1.now) ∷ drop (place + 1) self.now.rows.now }
        ensures counted { reads.new ≡ reads.old + 1 }
    {
        let (number, row) = &self.rows[place];
        (*number, row.read_counted(reads))
    }
}
