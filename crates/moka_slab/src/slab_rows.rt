//! The row store of the caches: rows in a slab, and links between their numbers.
ghost use Rattle.std.specs.Prelude.{◌≡◌, ◌⊎◌, ℕ, ◌+◌, ◌-◌, ◌^◌, ◌<◌, ◌≤◌, ◌==◌};
ghost use Rattle.std.specs.Prelude.{[], ◌∷◌, ◌++◌, length, filter};
ghost use Rattle.std.specs.Prelude.{IsSome, IfSome, IfNone, OnSome, OnOk, Some, None};
ghost use Rattle.std.specs.Prelude.{◌≢◌, slice_get, vec_capacity};
ghost use Rattle.std.proofs.Props.{props};
ghost use Rattle.moka_rows.specs.declared.rows.EntryInfo.{EntryInfo};
ghost use Rattle.moka_rows.specs.Rows.{row_under, first_number, expired_at, IsRowOf, NoneIsRowOf};
ghost use Rattle.moka_index.specs.RowIndex.{IsLinked};
ghost use Rattle.moka_slab.specs.declared.slab_row.Lives.{Lives};
ghost use Rattle.moka_slab.specs.Lives.{HasLives, AreLived};
ghost use Rattle.moka_slab.specs.NumberedRows.{row_at, order_of};
ghost use Rattle.moka_slab.specs.Tied.{IsTied};

use crate::lookup::find_row;
use crate::slab_row::{Lives, SlabRow};
use moka_index::row_index::RowIndex;
use moka_rows::packed::PackedEntryInfo;
use moka_rows::rows::{Access, EntryInfo, Order, OwnLife, Previous, Row, RowId, RowRef, RowStore};
use moka_rows::visits::step;
use slab::Slab;
use std::alloc::{AllocError, Global};

/// The number of the row with the slab's first key. No row has a lower one.
pub const FIRST: RowId = 2;

/// A row store in a slab. The rows are linked by their numbers, in two orders, and to the next row
/// with the same hash.
///
/// The numbers of removed rows are given out again. A *life* is a deadline or a lifetime of a row's
/// own. The lives stand beside the slab, so a row without one takes less memory.
///
/// # Complexity
///
/// Every call takes constant time except these:
///
/// - `find` reads the rows with one hash.
/// - `remove` and `take_first_admitted` follow the links of the rows with one hash.
/// - `reserve` may have to grow.
/// - `first_expired` walks over the resident rows.
/// - A call that gives a row a life may fill the places of lives before it. Each place is filled
///   once.
///
/// `reserve` makes room for a life of each row that the slab has room for. Until a row has a life,
/// that room takes addresses and no memory.
#[derive(Drop)]
pub struct SlabRows<K, V> {
    rows: Slab<SlabRow<K, V>>,
    // The lives of the rows, up to the last row that has had one. There is room for those of each.
    lives: Vec<Lives>,
    links: RowIndex,
    ghost tied: { IsTied rows links },
    ghost lived: { AreLived rows lives.items (vec_capacity lives) } by { Prim.hlevel props },
}

/// Returns the order of a row, given whether it is resident.
#[inline(always)]
fn order(is_admitted: bool) -> Order
    ensures { result ≡ order_of is_admitted }
{
    if is_admitted {
        Order::Admitted
    } else {
        Order::Waiting
    }
}

/// Returns the slab's key of the row with this number.
#[inline(always)]
fn key_of(number: RowId) -> usize
    requires { 2 ≤ number }
    ensures { result ≡ number - 2 }
{
    (number - FIRST) as usize
}

/// Returns the number of the row with this key of the slab.
#[inline(always)]
fn number_of(key: usize) -> RowId
    requires { key + 2 < 2 ^ 32 }
    ensures { result ≡ key + 2 }
{
    key as RowId + FIRST
}

/// Makes room for the lives of rows at this many places. All lives stay as they were, also if it
/// fails.
///
/// # Errors
///
/// - `AllocError`: an allocation failed.
fn reserve_lives(lives: &mut Vec<Lives>, places: usize) -> Result<(), AllocError>
    ensures room { OnOk result (places ≤ vec_capacity lives.new) }
    ensures items { lives.new.items ≡ lives.old.items }
    ensures capacity { vec_capacity lives.old ≤ vec_capacity lives.new }
{
    if lives.capacity() >= places {
        return Ok(());
    }
    if lives.is_empty() {
        // No life is copied, so this memory stays untouched.
        *lives = Vec::with_capacity(*lives.allocator(), places)?;
        return Ok(());
    }
    lives.reserve_exact(places - lives.len())
}

/// Writes the lives of a row to its place, if it has one. Does not allocate.
#[inline(always)]
fn put_lives(lives: &mut Vec<Lives>, place: usize, deadline: Option<u64>, own_life: Option<OwnLife>)
    requires { place < vec_capacity lives.old }
    ensures put { (info : EntryInfo) → info.deadline ≡ deadline → info.own_life ≡ own_life
        → HasLives lives.new.items place info }
    ensures others { (k : ℕ) (info : EntryInfo) → k ≢ place → HasLives lives.old.items k info
        → HasLives lives.new.items k info }
    ensures capacity { vec_capacity lives.new ≡ vec_capacity lives.old }
{
    if deadline.is_some() || own_life.is_some() {
        put(lives, place, Lives::of(deadline, own_life));
    }
}

/// Writes lives to a place. The places before it that were never written get the same.
#[inline(never)]
fn put(lives: &mut Vec<Lives>, place: usize, new: Lives)
    requires { place < vec_capacity lives.old }
    ensures put { slice_get lives.new.items place ≡ Some new }
    ensures others { (k : ℕ) (l : Lives) → k ≢ place → slice_get lives.old.items k ≡ Some l
        → slice_get lives.new.items k ≡ Some l }
    ensures capacity { vec_capacity lives.new ≡ vec_capacity lives.old }
{
    while lives.len() <= place {
        lives.push_reserved(new);
    }
    lives[place] = new;
}

impl<K, V> SlabRows<K, V> {
    ghost use Rattle.moka_slab.specs.Store.{admitted_in};

    /// Returns the row with this number.
    #[inline(always)]
    fn slab_row(&self, number: RowId) -> &SlabRow<K, V>
        requires { IsLinked self.now.links number }
        ensures { row_at self.now.rows number ≡ Some result.now }
    {
        &self.rows[key_of(number)]
    }

    /// Returns the metadata of the row with this number.
    #[inline(always)]
    fn info(&self, number: RowId) -> EntryInfo
        requires { IsLinked self.now.links number }
        ensures { IfSome (row_at self.now.rows number) (λ row. result ≡ row.info) }
    {
        self.slab_row(number).info(&self.lives, key_of(number))
    }

    /// Returns the first resident row whose deadline has come at `now`, found by a walk over them.
    fn walk_to_expired(&self, now: u64) -> Option<RowId>
        ensures { result ≡ first_number (expired_at now (admitted_in self.now)) }
    {
        let links = &self.links;
        let mut cursor = links.first_admitted();
        for _ in 0..links.admitted_len() {
            match cursor {
                Some(at) => {
                    if self.info(at).is_expired(now) {
                        return cursor;
                    }
                    cursor = links.next(at);
                }
                None => unreachable!(),
            }
        }
        None
    }
}

/// The rows of a store as a lookup is lent them.
///
/// A row is reached by `read_counted` alone, which counts it.
#[derive(Drop)]
pub(crate) struct CountedRows<'a, K, V> {
    store: &'a SlabRows<K, V>,
}

impl<'a, K, V> CountedRows<'a, K, V> {
    ghost use Rattle.moka_index.specs.RowIndex.{first_at, same_at};

    /// Returns the number of the first row with a hash, if there is one.
    #[inline(always)]
    pub fn first(&self, hash: u64) -> Option<RowId>
        ensures { result ≡ first_at self.now.store.now.links hash }
    {
        self.store.links.first(hash)
    }

    /// Returns the number of the next row with the same hash, if there is one.
    #[inline(always)]
    pub fn next_in_chain(&self, number: RowId) -> Option<RowId>
        requires { IsLinked self.now.store.now.links number }
        ensures { result ≡ same_at self.now.store.now.links number }
    {
        self.store.links.next_in_chain(number)
    }

    /// Returns the row with this number, and adds 1 to `reads`.
    #[inline(always)]
    pub fn read_counted(&self, number: RowId, reads: &mut u64) -> &SlabRow<K, V>
        requires linked { IsLinked self.now.store.now.links number }
        requires fits { reads.old < 2 ^ 64 - 1 }
        ensures row { row_at self.now.store.now.rows number ≡ Some result.now }
        ensures counted { reads.new ≡ reads.old + 1 }
    {
        *reads += 1;
        self.store.slab_row(number)
    }
}

impl<K: Eq + Drop, V: Drop> RowStore<K, V> for SlabRows<K, V> {
    ghost use Rattle.moka_slab.specs.Store.{admitted_in, waiting_in, rows_of, room_of};

    ghost waiting = { waiting_in };

    ghost admitted = { admitted_in };

    ghost room = { room_of };

    fn new(alloc: Global) -> Self {
        SlabRows {
            rows: Slab::new(alloc),
            lives: Vec::new(alloc),
            links: RowIndex::new(alloc),
        }
    }

    #[inline(always)]
    fn len(&self) -> usize {
        self.links.admitted_len() + self.links.waiting_len()
    }

    /// Returns the number of the row with a key. Reads no more rows than have the key's hash.
    #[inline(always)]
    fn find(&self, key: &K, hash: u64, reads: &mut u64) -> Option<RowId>
        requires { reads.old ≡ 0 }
        ensures found { IfSome result
            (λ number. IfSome (row_under number (rows_of self.now)) (IsRowOf K.eq key.now hash)) }
        ensures stored { IfSome result (λ number. IsSome (row_under number (rows_of self.now))) }
        ensures absent { IfNone result (NoneIsRowOf K.eq key.now hash (rows_of self.now)) }
        ensures counted { reads.new ≤ length (rows_of self.now) }
        ensures read { OnSome result (0 < reads.new) }
        ensures few { reads.new ≤ length (filter (λ p. p.1.hash == hash) (rows_of self.now)) }
    {
        find_row(CountedRows { store: self }, key, hash, reads)
    }

    #[inline(always)]
    fn row(&self, number: RowId) -> RowRef<'_, K, V> {
        let row = self.slab_row(number);
        RowRef {
            key: row.key(),
            hash: self.hash(number),
            value: row.value(),
            info: self.info(number),
        }
    }

    #[inline(always)]
    fn hash(&self, number: RowId) -> u64 {
        self.links.hash(number)
    }

    fn numbers_differ(&self) {}

    #[inline(always)]
    fn is_admitted(&self, number: RowId) -> bool {
        self.links.is_admitted(number)
    }

    /// Returns `true`: a row is not asked for its deadline.
    #[inline(always)]
    fn has_deadlines(&self) -> bool {
        true
    }

    fn room(&self) -> usize {
        let places = self.rows.capacity();
        let (numbers, spare) = self.links.room();
        if self.lives.capacity() < places || numbers.saturating_sub(FIRST as usize) < places {
            return 0;
        }
        (places - self.rows.len()).min(spare)
    }

    /// Makes room for this many more rows.
    ///
    /// # Errors
    ///
    /// - `AllocError`: an allocation failed, or the slab has so many places that row numbers could
    ///   pass 32 bits.
    fn reserve(&mut self, more: usize) -> Result<(), AllocError> {
        self.rows.reserve(more)?;
        let places = self.rows.capacity();
        reserve_lives(&mut self.lives, places)?;
        match places.checked_add(FIRST as usize) {
            Some(numbers) => self.links.reserve(numbers, more),
            None => Err(AllocError),
        }
    }

    #[inline(always)]
    fn add(&mut self, row: Row<K, V>) -> RowId
        requires { 0 < room_of self.old }
        ensures fresh { row_under result (rows_of self.old) ≡ None }
        ensures waiting { waiting_in self.new ≡ waiting_in self.old ++ (result, row) ∷ [] }
        ensures admitted { admitted_in self.new ≡ admitted_in self.old }
        ensures room { room_of self.old ≤ room_of self.new + 1 }
    {
        let hash = row.hash;
        let info = row.info();
        let key = self.rows.insert_reserved(SlabRow::new(row));
        let number = number_of(key);
        self.links.add(number, hash);
        put_lives(&mut self.lives, key, info.deadline, info.own_life);
        number
    }

    #[inline(always)]
    fn touch(&mut self, number: RowId, touch: Access) -> (EntryInfo, Order) {
        let info = self.info(number);
        let key = key_of(number);
        self.rows[key].touch(touch);
        put_lives(&mut self.lives, key, touch.deadline, touch.own_life);
        let is_admitted = self.links.touch(number);
        (info, order(is_admitted))
    }

    #[inline(always)]
    fn overwrite(&mut self, number: RowId, value: V, info: EntryInfo) -> Previous<V> {
        let was = self.info(number);
        let key = key_of(number);
        let value = self.rows[key].overwrite(value, info);
        put_lives(&mut self.lives, key, info.deadline, info.own_life);
        let order = order(self.links.touch(number));
        Previous {
            value,
            info: was,
            order,
        }
    }

    #[inline(always)]
    fn hide(&mut self, number: RowId) {
        self.rows[key_of(number)].hide();
    }

    #[inline(always)]
    fn waiting_len(&self) -> usize {
        self.links.waiting_len()
    }

    #[inline(always)]
    fn first_admitted(&self) -> Option<RowId> {
        self.links.first_admitted()
    }

    fn first_expired(&self, now: u64) -> Option<RowId> {
        self.walk_to_expired(now)
    }

    #[inline(always)]
    fn first_waiting(&self) -> Option<RowId> {
        self.links.first_waiting()
    }

    #[inline(always)]
    fn next(&self, number: RowId, visits: &mut u128) -> Option<RowId> {
        step(visits);
        self.links.next(number)
    }

    #[inline(always)]
    fn admit(&mut self, number: RowId) {
        self.links.admit(number);
    }

    #[inline(always)]
    fn remove(&mut self, number: RowId) -> (Row<K, V>, Order) {
        let info = self.info(number);
        let hash = self.hash(number);
        let order = order(self.links.remove(number));
        let (key, value) = self.rows.remove(key_of(number)).into_key_and_value();
        let info = PackedEntryInfo::new(info);
        let row = Row {
            key,
            hash,
            value,
            info,
        };
        (row, order)
    }

    #[inline(always)]
    fn take_first_admitted(&mut self) -> Option<Row<K, V>> {
        let number = self.first_admitted()?;
        let (row, _) = self.remove(number);
        Some(row)
    }
}
