//! A lookup in two lists.
//!
//! It is lent the rows as `CountedList`, so it reaches a row by the counted call alone.
ghost use Rattle.std.specs.Prelude.{◌≡◌, ◌+◌, ◌<◌, ◌≤◌, ◌^◌, ◌++◌, length, IfNone, OnSome};
ghost use Rattle.moka_rows.specs.Rows.{is_row_of};
ghost use Rattle.moka_rows.specs.Numbers.{number_where};

use crate::counted_row::CountedList;
use crate::rows::{Row, RowId};

/// Returns the number of the first of these rows with the key. Adds 1 to `reads` for each row it
/// reads.
fn number_of<K: Eq, V>(
    rows: CountedList<'_, Row<K, V>>,
    key: &K,
    hash: u64,
    reads: &mut u64,
) -> Option<RowId>
    requires { reads.old + length rows.rows.now < 2 ^ 64 }
    ensures number { result ≡ number_where (is_row_of K.eq key.now hash) rows.entry.rows.now }
    ensures at_most { reads.new ≤ reads.old + length rows.entry.rows.now }
    ensures at_least { OnSome result (reads.old < reads.new) }
    ensures all { IfNone result (reads.new ≡ reads.old + length rows.entry.rows.now) }
{
    for place in 0..rows.len() {
        let (number, row) = rows.read_counted(place, reads);
        if row.hash == hash && *row.key == *key {
            return Some(number);
        }
    }
    None
}

/// Returns the number of the first row with the key, among the resident rows and then among the
/// pending ones. Adds 1 to `reads` for each row it reads.
pub(crate) fn find_row<K: Eq, V>(
    admitted: CountedList<'_, Row<K, V>>,
    waiting: CountedList<'_, Row<K, V>>,
    key: &K,
    hash: u64,
    reads: &mut u64,
) -> Option<RowId>
    requires begins { reads.old ≡ 0 }
    requires fits { length admitted.rows.now + length waiting.rows.now < 2 ^ 64 }
    ensures number { result ≡ number_where (is_row_of K.eq key.now hash)
        (admitted.entry.rows.now ++ waiting.entry.rows.now) }
    ensures at_most { reads.new ≤ length (admitted.entry.rows.now ++ waiting.entry.rows.now) }
    ensures at_least { OnSome result (0 < reads.new) }
{
    if let Some(number) = number_of(admitted, key, hash, reads) {
        return Some(number);
    }
    number_of(waiting, key, hash, reads)
}
