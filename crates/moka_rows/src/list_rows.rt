//! The plain row store: two lists, searched from the front.
ghost use Rattle.std.specs.Prelude.{◌≡◌, ◌+◌, ◌<◌, ◌≤◌};
ghost use Rattle.std.specs.Prelude.{[], ◌∷◌, ◌++◌, drop, vec_len, vec_capacity};
ghost use Rattle.std.specs.Prelude.{IsSome, MatchOption};
ghost use Rattle.moka_rows.specs.Rows.{row_under, first_number, expired_at};
ghost use Rattle.moka_rows.specs.Numbers.{IsNumbered, IsPlaceOf, IsPlaceIn};

use crate::counted_row::{CountedList, CountedRow};
use crate::lookup::find_row;
use crate::rows::{Access, EntryInfo, Order, Previous, Row, RowId, RowRef, RowStore};
use crate::visits::step;
use std::alloc::{AllocError, Global};

/// Where a row is: at an index of the resident or of the pending rows.
enum Place {
    Admitted(usize),
    Waiting(usize),
}

/// A row store of two lists, one for each order. Row numbers are given out in turn.
///
/// The list of resident rows has capacity for all rows, so that admitting one does not allocate.
///
/// # Complexity
///
/// Each call on a row searches for it from the front: linear in the number of rows. `add` takes
/// constant time.
#[derive(Drop)]
pub struct ListRows<K, V> {
    waiting: Vec<(RowId, CountedRow<Row<K, V>>)>,
    admitted: Vec<(RowId, CountedRow<Row<K, V>>)>,
    next: RowId,
    ghost numbered: { IsNumbered next (admitted.items ++ waiting.items) },
    ghost can_admit: { vec_len admitted + vec_len waiting ≤ vec_capacity admitted },
}

/// Returns the index of the first row with this number.
fn place_of<K, V>(rows: &[(RowId, CountedRow<Row<K, V>>)], number: RowId) -> Option<usize>
    ensures { MatchOption result
        (row_under number rows.now ≡ None) (λ place. IsPlaceOf number rows.now place) }
{
    for (place, entry) in rows.iter().enumerate() {
        if entry.0 == number {
            return Some(place);
        }
    }
    None
}

/// Returns the number of the first of these rows whose deadline has come at `now`.
fn find_expired<K, V>(rows: &[(RowId, CountedRow<Row<K, V>>)], now: u64) -> Option<RowId>
    ensures { result ≡ first_number (expired_at now rows.now) }
{
    for (number, counted_row) in rows {
        if counted_row.row().info().is_expired(now) {
            return Some(*number);
        }
    }
    None
}

/// Returns the number of the row at an index, or `None` past the end.
fn number_at<K, V>(rows: &[(RowId, CountedRow<Row<K, V>>)], place: usize) -> Option<RowId>
    ensures { result ≡ first_number (drop place rows.now) }
{
    let (number, _) = rows.get(place)?;
    Some(*number)
}

#[tactic(auto, using(crate::proofs::RowLemmas::joins))]
impl<K, V> ListRows<K, V> {
    /// Returns where the row with this number is.
    fn place(&self, number: RowId) -> Place
        requires { IsSome (row_under number (self.now.admitted.items ++ self.now.waiting.items)) }
        ensures { IsPlaceIn number self.now.admitted.items self.now.waiting.items result }
    {
        if let Some(place) = place_of(&self.admitted, number) {
            return Place::Admitted(place);
        }
        match place_of(&self.waiting, number) {
            Some(place) => Place::Waiting(place),
            None => unreachable!(),
        }
    }
}

impl<K: Eq + Drop, V: Drop> RowStore<K, V> for ListRows<K, V> {
    ghost use Rattle.moka_rows.specs.Lists.{rows_of, room_of};

    ghost waiting = { λ s. s.waiting.items };

    ghost admitted = { λ s. s.admitted.items };

    ghost room = { room_of };

    fn new(alloc: Global) -> Self {
        ListRows {
            waiting: Vec::new(alloc),
            admitted: Vec::new(alloc),
            next: 0,
        }
    }

    fn len(&self) -> usize {
        self.admitted.len() + self.waiting.len()
    }

    fn find(&self, key: &K, hash: u64, reads: &mut u64) -> Option<RowId> {
        let admitted = CountedList::new(&self.admitted);
        let waiting = CountedList::new(&self.waiting);
        find_row(admitted, waiting, key, hash, reads)
    }

    fn row(&self, number: RowId) -> RowRef<'_, K, V> {
        match self.place(number) {
            Place::Admitted(place) => self.admitted[place].1.row().lend(),
            Place::Waiting(place) => self.waiting[place].1.row().lend(),
        }
    }

    fn hash(&self, number: RowId) -> u64 {
        self.row(number).hash
    }

    fn numbers_differ(&self) {
        // Read, so that the clause `few` knows that it has 32 bits.
        let _next = self.next;
    }

    fn is_admitted(&self, number: RowId) -> bool {
        match self.place(number) {
            Place::Admitted(_) => true,
            Place::Waiting(_) => false,
        }
    }

    /// Returns `true`: no row is asked for its deadline.
    fn has_deadlines(&self) -> bool {
        true
    }

    fn room(&self) -> usize {
        let admitted = self.admitted.capacity() - self.admitted.len() - self.waiting.len();
        let waiting = self.waiting.capacity() - self.waiting.len();
        admitted.min(waiting).min((RowId::MAX - self.next) as usize)
    }

    /// Makes room for `more` more rows. No number is ever given out twice.
    ///
    /// # Errors
    ///
    /// - `AllocError`: an allocation failed, or fewer than `more` numbers are left. The latter
    ///   takes 2^32 rows.
    fn reserve(&mut self, more: usize) -> Result<(), AllocError> {
        if ((RowId::MAX - self.next) as usize) < more {
            return Err(AllocError);
        }
        let waiting = self.waiting.len().checked_add(more).ok_or(AllocError)?;
        self.admitted.reserve(waiting)?;
        self.waiting.reserve(more)
    }

    fn add(&mut self, row: Row<K, V>) -> RowId
        requires { 0 < room_of self.old }
        ensures fresh { row_under result (rows_of self.old) ≡ None }
        ensures waiting { self.new.waiting.items ≡ self.old.waiting.items ++ (result, row) ∷ [] }
        ensures admitted { self.new.admitted.items ≡ self.old.admitted.items }
        ensures room { room_of self.old ≤ room_of self.new + 1 }
    {
        let number = self.next;
        self.waiting.push_reserved((number, CountedRow::new(row)));
        self.next += 1;
        number
    }

    fn touch(&mut self, number: RowId, touch: Access) -> (EntryInfo, Order) {
        match self.place(number) {
            Place::Admitted(place) => {
                let (_, mut used) = self.admitted.remove(place);
                let before = used.touch(touch);
                self.admitted.push_reserved((number, used));
                (before, Order::Admitted)
            }
            Place::Waiting(place) => {
                let before = self.waiting[place].1.touch(touch);
                (before, Order::Waiting)
            }
        }
    }

    fn overwrite(&mut self, number: RowId, value: V, info: EntryInfo) -> Previous<V> {
        match self.place(number) {
            Place::Admitted(place) => {
                let (_, mut row) = self.admitted.remove(place);
                let (value, info) = row.overwrite(value, info);
                self.admitted.push_reserved((number, row));
                let order = Order::Admitted;
                Previous { value, info, order }
            }
            Place::Waiting(place) => {
                let (value, info) = self.waiting[place].1.overwrite(value, info);
                let order = Order::Waiting;
                Previous { value, info, order }
            }
        }
    }

    fn hide(&mut self, number: RowId) {
        match self.place(number) {
            Place::Admitted(place) => self.admitted[place].1.hide(),
            Place::Waiting(place) => self.waiting[place].1.hide(),
        }
    }

    fn waiting_len(&self) -> usize {
        self.waiting.len()
    }

    fn first_admitted(&self) -> Option<RowId> {
        number_at(&self.admitted, 0)
    }

    fn first_expired(&self, now: u64) -> Option<RowId> {
        find_expired(&self.admitted, now)
    }

    fn first_waiting(&self) -> Option<RowId> {
        number_at(&self.waiting, 0)
    }

    fn next(&self, number: RowId, visits: &mut u128) -> Option<RowId> {
        step(visits);
        match self.place(number) {
            Place::Admitted(place) => number_at(&self.admitted, place + 1),
            Place::Waiting(place) => number_at(&self.waiting, place + 1),
        }
    }

    fn admit(&mut self, number: RowId) {
        match place_of(&self.waiting, number) {
            Some(place) => {
                let (_, newest) = self.waiting.remove(place);
                self.admitted.push_reserved((number, newest));
            }
            None => unreachable!(),
        }
    }

    fn remove(&mut self, number: RowId) -> (Row<K, V>, Order) {
        match self.place(number) {
            Place::Admitted(place) => {
                let (_, row) = self.admitted.remove(place);
                (row.into_row(), Order::Admitted)
            }
            Place::Waiting(place) => {
                let (_, row) = self.waiting.remove(place);
                (row.into_row(), Order::Waiting)
            }
        }
    }

    fn take_first_admitted(&mut self) -> Option<Row<K, V>> {
        let number = self.first_admitted()?;
        let (row, _) = self.remove(number);
        Some(row)
    }
}
