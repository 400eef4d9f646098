//! Mass invalidation of a table: a walk that marks the rows of which a predicate holds.
ghost use Rattle.std.specs.Prelude.{◌≡◌, ◌+◌, ◌≤◌, Bool, true, if◌then◌else◌, length, IsSome, IfSome};
ghost use Rattle.std.specs.Arc.{arc_value};
ghost use Rattle.moka_rows.specs.Rows.{row_under, with_row, hidden};
ghost use Rattle.moka_table.specs.Table.{entries, hidden_where, all_hidden};

use crate::table::Table;
use moka_policy::policy::Predicate;
use moka_rows::rows::{RowId, RowStore};

/// A predicate that holds of each key and value.
struct Always;

impl<K, V> Predicate<K, V> for Always {
    ghost tests = { λ _ test. test ≡ (λ _ _. true) };

    fn holds(&self, _key: &K, _value: &V) -> bool {
        true
    }
}

impl<K: Eq + Drop, V: Drop, R: RowStore<K, V>> Table<K, V, R> {
    /// Marks every row invalidated, in its place. Does not allocate, and uses no room.
    ///
    /// # Complexity
    ///
    /// Visits each row. `visits` counts the steps.
    pub fn hide_all(&mut self, visits: &mut u128)
        ensures admitted { self.new.admitted ≡ all_hidden self.old.admitted }
        ensures waiting { self.new.waiting ≡ all_hidden self.old.waiting }
        ensures notices { self.new.notices ≡ self.old.notices }
        ensures room { self.old.room ≤ self.new.room }
        ensures visited { visits.new ≤ visits.old + length (entries self.old) }
    {
        self.hide_where(&Always, visits);
    }

    /// Marks each row invalidated of whose key and value a predicate holds, in its place.
    ///
    /// A row that is invalidated already stays so. Calls the predicate once for each row. Does not
    /// allocate, and uses no room.
    ///
    /// # Complexity
    ///
    /// Visits each row. `visits` counts the steps.
    pub fn hide_where<P: Predicate<K, V>>(&mut self, predicate: &P, visits: &mut u128)
        requires tests { (test : K → V → Bool) × P.tests predicate.now test }
        ensures admitted { (test : K → V → Bool) → P.tests predicate.now test →
            self.new.admitted ≡ hidden_where test self.old.admitted }
        ensures waiting { (test : K → V → Bool) → P.tests predicate.now test →
            self.new.waiting ≡ hidden_where test self.old.waiting }
        ensures notices { self.new.notices ≡ self.old.notices }
        ensures room { self.old.room ≤ self.new.room }
        ensures visited { visits.new ≤ visits.old + length (entries self.old) }
    {
        hide_admitted(self, predicate, visits);
        hide_waiting(self, predicate, visits);
    }
}

/// Marks the resident rows invalidated of which a predicate holds.
fn hide_admitted<K: Eq + Drop, V: Drop, R: RowStore<K, V>, P: Predicate<K, V>>(
    table: &mut Table<K, V, R>,
    predicate: &P,
    visits: &mut u128,
)
    requires tests { (test : K → V → Bool) × P.tests predicate.now test }
    ensures admitted { (test : K → V → Bool) → P.tests predicate.now test →
        table.new.admitted ≡ hidden_where test table.old.admitted }
    ensures waiting { table.new.waiting ≡ table.old.waiting }
    ensures notices { table.new.notices ≡ table.old.notices }
    ensures room { table.old.room ≤ table.new.room }
    ensures visited { visits.new ≤ visits.old + length table.old.admitted }
{
    let mut cursor = table.first_admitted();
    while let Some(number) = cursor {
        cursor = table.next(number, visits);
        hide_if(table, number, predicate);
    }
}

/// Marks the pending rows invalidated of which a predicate holds.
fn hide_waiting<K: Eq + Drop, V: Drop, R: RowStore<K, V>, P: Predicate<K, V>>(
    table: &mut Table<K, V, R>,
    predicate: &P,
    visits: &mut u128,
)
    requires tests { (test : K → V → Bool) × P.tests predicate.now test }
    ensures admitted { table.new.admitted ≡ table.old.admitted }
    ensures waiting { (test : K → V → Bool) → P.tests predicate.now test →
        table.new.waiting ≡ hidden_where test table.old.waiting }
    ensures notices { table.new.notices ≡ table.old.notices }
    ensures room { table.old.room ≤ table.new.room }
    ensures visited { visits.new ≤ visits.old + length table.old.waiting }
{
    let mut cursor = table.first_waiting();
    while let Some(number) = cursor {
        cursor = table.next(number, visits);
        hide_if(table, number, predicate);
    }
}

/// Marks a row invalidated if a predicate holds of its key and value.
fn hide_if<K: Eq + Drop, V: Drop, R: RowStore<K, V>, P: Predicate<K, V>>(
    table: &mut Table<K, V, R>,
    number: RowId,
    predicate: &P,
)
    requires stored { IsSome (row_under number (entries table.old)) }
    requires tests { (test : K → V → Bool) × P.tests predicate.now test }
    ensures admitted { (test : K → V → Bool) → P.tests predicate.now test →
        IfSome (row_under number (entries table.old)) (λ row. table.new.admitted
        ≡ (if test (arc_value row.key) row.value then with_row number hidden table.old.admitted
        else table.old.admitted)) }
    ensures waiting { (test : K → V → Bool) → P.tests predicate.now test →
        IfSome (row_under number (entries table.old)) (λ row. table.new.waiting
        ≡ (if test (arc_value row.key) row.value then with_row number hidden table.old.waiting
        else table.old.waiting)) }
    ensures notices { table.new.notices ≡ table.old.notices }
    ensures room { table.old.room ≤ table.new.room }
{
    let row = table.row(number);
    if predicate.holds(row.key, row.value) {
        table.hide(number);
    }
}
