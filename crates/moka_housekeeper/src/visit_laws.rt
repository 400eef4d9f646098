//! Laws about the number of steps of a maintenance, for every table.
ghost use Rattle.std.specs.Prelude.{◌≡◌, ℕ, ◌+◌, ◌*◌, ◌≤◌, Bool, true, false, Option, [], length};
ghost use Rattle.moka_model.specs.Maintenance.{fits, front};
ghost use Rattle.moka_rows.specs.Rows.{living_at};
ghost use Rattle.moka_table.specs.Table.{Contents, entries, weight_of};
ghost use Rattle.moka_housekeeper.specs.Visits.{visits_sweeping, visits_of};

/// A maintenance that has nothing to do takes no step from row to row, however many rows are
/// stored.
///
/// That is so if no row is pending, none may be invalidated, and the live rows are within the
/// capacity.
pub fn nothing_to_do_takes_no_step<K, V>()
    ensures { (is_lru : Bool) (frequency_of : ℕ → ℕ) (capacity : Option ℕ) (at : ℕ)
        (table : Contents K V) → table.waiting ≡ [] → table.may_hide ≡ false
        → fits weight_of capacity 0 (living_at at table.admitted) ≡ true
        → visits_of is_lru frequency_of capacity at table ≡ 0 }
{}

/// A maintenance takes at most this many steps from row to row:
///
/// - one for each resident row, if a row may be invalidated;
/// - one for each pending row;
/// - one for each row that is evicted since it is over the capacity;
/// - for each pending row, twice the number of all rows.
pub fn steps_are_for_rows_that_wait_or_leave<K, V>()
    ensures { (is_lru : Bool) (frequency_of : ℕ → ℕ) (capacity : Option ℕ) (at : ℕ)
        (table : Contents K V) → visits_of is_lru frequency_of capacity at table
        ≤ visits_sweeping table
        + length table.waiting + front weight_of capacity 0 (living_at at table.admitted)
        + length table.waiting * (2 * length (entries table)) }
{}
