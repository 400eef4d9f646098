//! A lookup in a slab.
//!
//! It is lent the rows as `CountedRows`, so it reaches a row by the counted call alone.
ghost use Rattle.std.specs.Prelude.{◌≡◌, ◌<◌, ◌≤◌, ◌==◌, length, filter};
ghost use Rattle.std.specs.Prelude.{IsSome, IfSome, IfNone, OnSome};
ghost use Rattle.moka_rows.specs.Rows.{row_under, IsRowOf, NoneIsRowOf};
ghost use Rattle.moka_slab.specs.Store.{rows_of};

use crate::slab_rows::CountedRows;
use moka_rows::rows::RowId;

/// Returns the number of the row with a key. Reads no more rows than have the key's hash.
#[inline(always)]
pub(crate) fn find_row<K: Eq, V>(
    rows: CountedRows<'_, K, V>,
    key: &K,
    hash: u64,
    reads: &mut u64,
) -> Option<RowId>
    requires { reads.old ≡ 0 }
    ensures found { IfSome result (λ number.
        IfSome (row_under number (rows_of rows.entry.store.now)) (IsRowOf K.eq key.now hash)) }
    ensures stored { IfSome result
        (λ number. IsSome (row_under number (rows_of rows.entry.store.now))) }
    ensures absent { IfNone result (NoneIsRowOf K.eq key.now hash (rows_of rows.entry.store.now)) }
    ensures counted { reads.new ≤ length (rows_of rows.entry.store.now) }
    ensures read { OnSome result (0 < reads.new) }
    ensures few { reads.new
        ≤ length (filter (λ p. p.1.hash == hash) (rows_of rows.entry.store.now)) }
{
    let mut at = rows.first(hash);
    while let Some(number) = at {
        let row = rows.read_counted(number, reads);
        if **row.key() == *key {
            return Some(number);
        }
        at = rows.next_in_chain(number);
    }
    None
}
