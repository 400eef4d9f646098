//! A row store that also stores the deadlines of its resident rows, in access order.
ghost use Rattle.std.specs.Prelude.{◌≡◌, suc, true, false, ◌+◌, ◌<◌, ◌≤◌, ◌==◌, if◌then◌else◌};
ghost use Rattle.std.specs.Prelude.{[], ◌∷◌, ◌++◌, length, filter, None};
ghost use Rattle.std.specs.Prelude.{IsSome, IfSome, IfNone, OnSome, OnOk};
ghost use Rattle.std.specs.List.{AllByRecursion};
ghost use Rattle.std.proofs.Props.{props};
ghost use Rattle.moka_rows.specs.Rows.{row_under, IsRowOf, NoneIsRowOf};
ghost use Rattle.moka_expiry_index.specs.ExpiryIndex.{order_of, known_of, PreservesRoom};
ghost use Rattle.moka_expiry_index.specs.ExpiryIndex.{room_of as deadlines_room};
ghost use Rattle.moka_slab.specs.Store.{admitted_in, waiting_in};
ghost use Rattle.moka_expiring_rows.specs.RowDeadlines.{deadline_in, deadlines_in, CanStand};
ghost use Rattle.moka_expiring_rows.specs.RowDeadlines.{without_deadline, is_of_admitted};
ghost use Rattle.moka_expiring_rows.specs.RowDeadlines.{HasPlace, IsNoted};

use moka_expiry_index::expiry_index::ExpiryIndex;
use moka_rows::rows::{Access, EntryInfo, Order, Previous, Row, RowId, RowRef, RowStore};
use moka_slab::slab_rows::{FIRST, SlabRows};
use std::alloc::{AllocError, Global};

/// A row store in a slab that finds the first expired row without a walk.
///
/// The deadlines of the resident rows are stored in an order of their own, in access order. A row
/// without a deadline has no place there.
///
/// `reserve` makes the room for the deadlines: for those of the first rows, and for those of all
/// rows once one has had a deadline. A deadline for which there is no room makes the order
/// incomplete. Then `first_expired` walks over the resident rows, until the next `reserve` lists
/// all deadlines anew.
///
/// # Complexity
///
/// Each call costs what it costs of the slab. If a row has a deadline, logarithmic time is added on
/// average. `first_expired` takes logarithmic time while the order is complete, except at the last
/// moment, 2^64 - 1.
#[derive(Drop)]
pub struct ExpiringRows<K, V> {
    rows: SlabRows<K, V>,
    deadlines: ExpiryIndex,
    // Whether the deadlines of all resident rows are in the order.
    is_whole: bool,
    // Whether a row has had a deadline. Then there has to be room for those of all rows.
    has_deadlines: bool,
    // All numbers that were given out are below this one. At least the slab's first number, so that
    // room for so many rows more is room for their numbers.
    top: usize,
    ghost listed: { is_whole ≡ true → order_of deadlines ≡ deadlines_in (admitted_in rows) },
    ghost noted: { AllByRecursion (IsNoted has_deadlines top)
        (admitted_in rows ++ waiting_in rows) } by { Prim.hlevel props },
    ghost whole: { has_deadlines ≡ false → is_whole ≡ true },
    ghost begun: { 2 ≤ top },
}

/// Appends the deadline of a row, if it has one. Returns whether the order is still whole.
#[inline(always)]
fn enlist(deadlines: &mut ExpiryIndex, is_whole: bool, number: RowId, deadline: Option<u64>) -> bool
    ensures listed { result ≡ true → (is_whole ≡ true)
        × (order_of deadlines.new ≡ order_of deadlines.old ++ deadline_in number deadline) }
    ensures whole { is_whole ≡ true
        → CanStand number deadline
        (known_of deadlines.old) (deadlines_room deadlines.old) (order_of deadlines.old)
        → result ≡ true }
    ensures preserves { PreservesRoom deadlines.old deadlines.new }
{
    match (deadline, number.checked_add(1)) {
        (None, _) => is_whole,
        (Some(deadline), Some(place)) => is_whole && deadlines.push(place, deadline),
        (Some(_), None) => false,
    }
}

/// Removes the deadline of a row, if it has one. Returns whether the order is still whole.
#[inline(always)]
fn delist(deadlines: &mut ExpiryIndex, is_whole: bool, number: RowId, deadline: Option<u64>) -> bool
    ensures listed { result ≡ true → (is_whole ≡ true)
        × (order_of deadlines.new ≡ without_deadline number deadline (order_of deadlines.old)) }
    ensures whole { is_whole ≡ true
        → HasPlace number deadline (known_of deadlines.old) → result ≡ true }
    ensures preserves { PreservesRoom deadlines.old deadlines.new }
{
    match (deadline, number.checked_add(1)) {
        (None, _) => is_whole,
        (Some(_), Some(place)) => {
            deadlines.remove(place);
            is_whole
        }
        (Some(_), None) => false,
    }
}

/// Moves a row to the end of the order, with its new deadline. Returns whether the order is still
/// whole.
#[inline(always)]
fn relist(
    deadlines: &mut ExpiryIndex,
    is_whole: bool,
    number: RowId,
    before: Option<u64>,
    after: Option<u64>,
) -> bool
    ensures listed { result ≡ true → (is_whole ≡ true)
        × (order_of deadlines.new
        ≡ without_deadline number before (order_of deadlines.old) ++ deadline_in number after) }
    ensures whole { is_whole ≡ true → HasPlace number before (known_of deadlines.old)
        → CanStand number after (known_of deadlines.old) (deadlines_room deadlines.old)
        (without_deadline number before (order_of deadlines.old))
        → result ≡ true }
    ensures preserves { PreservesRoom deadlines.old deadlines.new }
{
    let is_whole = delist(deadlines, is_whole, number, before);
    enlist(deadlines, is_whole, number, after)
}

/// Lists the deadlines of all resident rows anew, and returns whether there was room for them.
/// Visits each resident row.
fn list_all<K: Eq + Drop, V: Drop, R: RowStore<K, V>>(rows: &R, deadlines: &mut ExpiryIndex) -> bool
    ensures listed { result ≡ true → order_of deadlines.new ≡ deadlines_in (R.admitted rows.now) }
    ensures whole { AllByRecursion (λ p. suc p.0 < known_of deadlines.old) (R.admitted rows.now)
        → length (R.admitted rows.now) ≤ deadlines_room deadlines.old → result ≡ true }
    ensures preserves { PreservesRoom deadlines.old deadlines.new }
{
    deadlines.clear();
    let mut is_whole = true;
    // This is no maintenance: nothing reads this count.
    let mut visits = 0;
    let mut cursor = rows.first_admitted();
    while let Some(number) = cursor {
        let deadline = rows.row(number).info().deadline;
        is_whole = enlist(deadlines, is_whole, number, deadline);
        cursor = rows.next(number, &mut visits);
    }
    is_whole
}

/// Returns the deadline of a row if the row is resident, and else `None`.
#[inline(always)]
fn deadline_if_admitted(order: Order, deadline: Option<u64>) -> Option<u64>
    ensures { result ≡ (if is_of_admitted order then deadline else None) }
{
    match order {
        Order::Admitted => deadline,
        Order::Waiting => None,
    }
}

impl<K: Eq + Drop, V: Drop> RowStore<K, V> for ExpiringRows<K, V> {
    ghost use Rattle.moka_expiring_rows.specs.Ready.{admitted_of, waiting_of, rows_in, room_of};
    ghost use Rattle.moka_expiring_rows.specs.Ready.{WantsRoom, IsReady};

    ghost waiting = { waiting_of };

    ghost admitted = { admitted_of };

    ghost room = { room_of };

    fn new(alloc: Global) -> Self {
        ExpiringRows {
            rows: SlabRows::new(alloc),
            deadlines: ExpiryIndex::new(alloc),
            is_whole: true,
            has_deadlines: false,
            // So that `reserve` counts places from the first number that a row can get.
            top: FIRST as usize,
        }
    }

    #[inline(always)]
    fn len(&self) -> usize {
        self.rows.len()
    }

    /// Returns the number of the row with a key. Reads no more rows than have the key's hash.
    #[inline(always)]
    fn find(&self, key: &K, hash: u64, reads: &mut u64) -> Option<RowId>
        requires { reads.old ≡ 0 }
        ensures found { IfSome result
            (λ number. IfSome (row_under number (rows_in self.now)) (IsRowOf K.eq key.now hash)) }
        ensures stored { IfSome result (λ number. IsSome (row_under number (rows_in self.now))) }
        ensures absent { IfNone result (NoneIsRowOf K.eq key.now hash (rows_in self.now)) }
        ensures counted { reads.new ≤ length (rows_in self.now) }
        ensures read { OnSome result (0 < reads.new) }
        ensures few { reads.new ≤ length (filter (λ p. p.1.hash == hash) (rows_in self.now)) }
    {
        self.rows.find(key, hash, reads)
    }

    #[inline(always)]
    fn row(&self, number: RowId) -> RowRef<'_, K, V> {
        self.rows.row(number)
    }

    #[inline(always)]
    fn hash(&self, number: RowId) -> u64 {
        self.rows.hash(number)
    }

    fn numbers_differ(&self) {
        self.rows.numbers_differ();
    }

    #[inline(always)]
    fn is_admitted(&self, number: RowId) -> bool {
        self.rows.is_admitted(number)
    }

    /// Returns whether a row has had a deadline.
    #[inline(always)]
    fn has_deadlines(&self) -> bool {
        self.has_deadlines
    }

    /// Returns how many rows can be added without an allocation, at least. Once a row has had a
    /// deadline, these are rows whose deadlines have room too.
    fn room(&self) -> usize
        ensures room { result ≤ room_of self.now }
        ensures ready { 0 < result → self.now.has_deadlines ≡ true
            → (self.now.is_whole ≡ true) × IsReady result self.now }
    {
        let room = self.rows.room();
        if !self.has_deadlines {
            return room;
        }
        let count = self.rows.len();
        let (known, places) = (self.deadlines.known(), self.deadlines.room());
        if !self.is_whole || known <= self.top || places < count {
            return 0;
        }
        room.min(known - self.top - 1).min(places - count)
    }

    /// Makes room for this many more rows. It makes room for the deadlines of all rows if a row has
    /// had one, or if there is no row yet. Then it also lists them anew, if the order is not whole.
    ///
    /// # Errors
    ///
    /// - `AllocError`: an allocation failed, a row number has more than 32 bits, or more than 2^32
    ///   slots are needed.
    fn reserve(&mut self, more: usize) -> Result<(), AllocError>
        ensures room { OnOk result (more ≤ room_of self.new) }
        ensures more { OnOk result (room_of self.old ≤ room_of self.new) }
        ensures waiting { waiting_of self.new ≡ waiting_of self.old }
        ensures admitted { admitted_of self.new ≡ admitted_of self.old }
        ensures whole { OnOk result (self.new.is_whole ≡ true) }
        ensures ready { OnOk result (WantsRoom self.new → IsReady more self.new) }
    {
        self.rows.reserve(more)?;
        let count = self.rows.len();
        if self.has_deadlines || count == 0 {
            let count = count.checked_add(more).ok_or(AllocError)?;
            let top = self.top.checked_add(more).ok_or(AllocError)?;
            self.deadlines.reserve(top, count)?;
            if !self.is_whole {
                self.is_whole = list_all(&self.rows, &mut self.deadlines);
            }
        }
        Ok(())
    }

    #[inline(always)]
    fn add(&mut self, row: Row<K, V>) -> RowId
        requires { 0 < room_of self.old }
        ensures fresh { row_under result (rows_in self.old) ≡ None }
        ensures waiting { waiting_of self.new ≡ waiting_of self.old ++ (result, row) ∷ [] }
        ensures admitted { admitted_of self.new ≡ admitted_of self.old }
        ensures room { room_of self.old ≤ room_of self.new + 1 }
    {
        self.has_deadlines |= row.info().deadline.is_some();
        let number = self.rows.add(row);
        self.top = self.top.max(number as usize + 1);
        number
    }

    /// Applies an access to a row, and returns the row's metadata before it and the row's order.
    /// If no deadline is listed and this access gives none, only the slab changes.
    #[inline(always)]
    fn touch(&mut self, number: RowId, touch: Access) -> (EntryInfo, Order) {
        let (info, order) = self.rows.touch(number, touch);
        if touch.deadline.is_none() && self.deadlines.is_unused() {
            return (info, order);
        }
        let before = deadline_if_admitted(order, info.deadline);
        let after = deadline_if_admitted(order, touch.deadline);
        self.is_whole = relist(&mut self.deadlines, self.is_whole, number, before, after);
        self.has_deadlines |= touch.deadline.is_some();
        (info, order)
    }

    #[inline(always)]
    fn overwrite(&mut self, number: RowId, value: V, info: EntryInfo) -> Previous<V> {
        let taken = self.rows.overwrite(number, value, info);
        if info.deadline.is_none() && self.deadlines.is_unused() {
            return taken;
        }
        let before = deadline_if_admitted(taken.order, taken.info.deadline);
        let after = deadline_if_admitted(taken.order, info.deadline);
        self.is_whole = relist(&mut self.deadlines, self.is_whole, number, before, after);
        self.has_deadlines |= info.deadline.is_some();
        taken
    }

    /// Marks a row invalidated. Its deadline keeps its place in the order.
    #[inline(always)]
    fn hide(&mut self, number: RowId) {
        self.rows.hide(number);
    }

    #[inline(always)]
    fn waiting_len(&self) -> usize {
        self.rows.waiting_len()
    }

    #[inline(always)]
    fn first_admitted(&self) -> Option<RowId> {
        self.rows.first_admitted()
    }

    /// Returns the number of the first expired resident row, in access order. Takes logarithmic
    /// time if the deadlines of all resident rows are in the order, except at the last moment, 2^64
    /// - 1.
    #[inline(always)]
    fn first_expired(&self, now: u64) -> Option<RowId> {
        if self.is_whole {
            match self.deadlines.first_due(now) {
                Some(place) => Some(place - 1),
                None => None,
            }
        } else {
            self.rows.first_expired(now)
        }
    }

    #[inline(always)]
    fn first_waiting(&self) -> Option<RowId> {
        self.rows.first_waiting()
    }

    #[inline(always)]
    fn next(&self, number: RowId, visits: &mut u128) -> Option<RowId> {
        self.rows.next(number, visits)
    }

    #[inline(always)]
    fn admit(&mut self, number: RowId) {
        self.rows.admit(number);
        // If no row has had a deadline, this one has none.
        if self.has_deadlines {
            let deadline = self.rows.row(number).info().deadline;
            self.is_whole = enlist(&mut self.deadlines, self.is_whole, number, deadline);
        }
    }

    #[inline(always)]
    fn remove(&mut self, number: RowId) -> (Row<K, V>, Order) {
        let (row, order) = self.rows.remove(number);
        if self.deadlines.is_unused() {
            return (row, order);
        }
        let before = deadline_if_admitted(order, row.info().deadline);
        self.is_whole = delist(&mut self.deadlines, self.is_whole, number, before);
        (row, order)
    }

    #[inline(always)]
    fn take_first_admitted(&mut self) -> Option<Row<K, V>> {
        let number = self.rows.first_admitted()?;
        let (row, _) = self.remove(number);
        Some(row)
    }
}
