//! The keys of a table, for walks over a cache.
ghost use Rattle.std.specs.Prelude.{◌≡◌, ◌+◌, ◌≤◌, ◌++◌, length, map, IfOk, OnOk};
ghost use Rattle.std.specs.Arc.{arc_value};
ghost use Rattle.moka_table.specs.Table.{entries, keys_of};

use crate::table::Table;
use moka_rows::rows::RowStore;
use std::alloc::{AllocError, Global};
use std::sync::Arc;

impl<K: Eq + Drop, V: Drop, R: RowStore<K, V>> Table<K, V, R> {
    /// Returns the key of each row, shared and once. The resident rows come first, in access order,
    /// and then the pending ones.
    ///
    /// # Errors
    ///
    /// - `AllocError`: an allocation failed.
    ///
    /// # Complexity
    ///
    /// Visits each row. `visits` counts the steps.
    pub fn keys(&self, alloc: Global, visits: &mut u128) -> Result<Vec<Arc<K>>, AllocError>
        ensures keys { IfOk result (λ keys. map arc_value keys.items ≡ keys_of (entries self.now)) }
        ensures visited { visits.new ≤ visits.old + length (entries self.now) }
    {
        let mut keys = Vec::with_capacity(alloc, self.len())?;
        add_admitted(self, &mut keys, visits)?;
        add_waiting(self, &mut keys, visits)?;
        Ok(keys)
    }
}

/// Appends the keys of the resident rows.
fn add_admitted<K: Eq + Drop, V: Drop, R: RowStore<K, V>>(
    table: &Table<K, V, R>,
    keys: &mut Vec<Arc<K>>,
    visits: &mut u128,
) -> Result<(), AllocError>
    ensures keys { OnOk result
        (map arc_value keys.new.items
        ≡ map arc_value keys.old.items ++ keys_of table.now.admitted) }
    ensures visited { visits.new ≤ visits.old + length table.now.admitted }
{
    let mut cursor = table.first_admitted();
    while let Some(number) = cursor {
        let key = table.row(number).key.clone()?;
        keys.push(key)?;
        cursor = table.next(number, visits);
    }
    Ok(())
}

/// Appends the keys of the pending rows.
fn add_waiting<K: Eq + Drop, V: Drop, R: RowStore<K, V>>(
    table: &Table<K, V, R>,
    keys: &mut Vec<Arc<K>>,
    visits: &mut u128,
) -> Result<(), AllocError>
    ensures keys { OnOk result
        (map arc_value keys.new.items ≡ map arc_value keys.old.items ++ keys_of table.now.waiting) }
    ensures visited { visits.new ≤ visits.old + length table.now.waiting }
{
    let mut cursor = table.first_waiting();
    while let Some(number) = cursor {
        let key = table.row(number).key.clone()?;
        keys.push(key)?;
        cursor = table.next(number, visits);
    }
    Ok(())
}
