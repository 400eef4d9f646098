//! The rows of a cache with a queue of notices, which has room for one more notice for each row.
ghost use Rattle.std.specs.Prelude.{◌≡◌, ℕ, ◌+◌, ◌-◌, ◌<◌, ◌≤◌, ◌^◌, true, false, List, [], ◌∷◌, ◌++◌, length, min, slice_get, option_copied, IsSome, IfSome, IfNone, IfOk, OnOk, OnErr, Some, None, MatchOption};
ghost use Rattle.std.specs.Option.{option_to_list};
ghost use Rattle.std.specs.VecDeque.{deque_len, deque_capacity};
ghost use Rattle.moka_model.specs.Maintenance.{total};
ghost use Rattle.moka_rows.specs.Rows.{row_under, with_row, without_row, other, touched, overwritten, hidden, cause_at, first_number, number_after, expired_at, IsRowOf, NoneIsRowOf, NumbersDiffer, AreUndated};
ghost use Rattle.moka_rows.specs.Visits.{one_more};
ghost use Rattle.moka_table.specs.Lookup.{IsLookupOf};
ghost use Rattle.moka_table.specs.Table.{Contents, entries, weight_of, weight_in, AreShown, SameRows, UsesRow, TakesRow, Notifies, EvictsOne, IsConsistent};

use crate::into_arc::UnusedKey;
use moka_deferred::deferred::Deferred;
use moka_model::notification::{Notice, RemovalCause};
use moka_rows::rows::{Access, EntryInfo, Order, Previous, Row, RowId, RowRef, RowStore};
use std::alloc::{AllocError, Global};
use std::collections::VecDeque;
use std::marker::Model;
use std::mem;
use std::sync::Arc;

/// Where the row of a key is.
#[derive(Drop)]
pub enum Lookup<K> {
    /// In the row with this number. `key` is the stored key.
    Stored { number: RowId, key: Arc<K> },
    /// Nowhere.
    Absent,
}

/// The total weight of the rows of each order.
#[derive(Clone, Copy)]
struct Weights {
    admitted: u64,
    waiting: u64,
}

impl Weights {
    /// Returns the weights after a row of an order changed its weight from `before` to `after`.
    #[inline(always)]
    fn with_weight(self, order: Order, before: u32, after: u32) -> Weights
        requires before { before ≤ weight_in order self }
        requires fits { weight_in order self + after < 2 ^ 64 }
        ensures changed { weight_in order result + before ≡ weight_in order self + after }
        ensures others { weight_in (other order) result ≡ weight_in (other order) self }
    {
        if before == after {
            return self;
        }
        match order {
            Order::Admitted => Weights {
                admitted: self.admitted - u64::from(before) + u64::from(after),
                ..self
            },
            Order::Waiting => Weights {
                waiting: self.waiting - u64::from(before) + u64::from(after),
                ..self
            },
        }
    }
}

/// A store of rows, and the notices of removed values in the order of their removal.
///
/// Each row has room for its notice from the start, so that a removal does not allocate.
#[derive(Drop)]
pub struct Table<K: Eq + Drop, V: Drop, R: RowStore<K, V>> {
    rows: R,
    notices: VecDeque<Notice<K, V>>,
    weights: Weights,
    may_hide: bool,
    // For at least how many more rows and notices there is room.
    sure: usize,
    // The key of a write that was not stored, since its row has an equal one.
    pub(crate) unused_key: Deferred<UnusedKey<K>>,
}

/// For how many rows room is made at once, if there is none.
const AT_ONCE: usize = 16;

/// For how many rows room is counted, at most. After as many writes it is counted again.
const AT_MOST: usize = 64;

impl<K: Eq + Drop, V: Drop, R: RowStore<K, V>> Model for Table<K, V, R> {
    ghost Value = { Contents K V };

    ghost view = { λ table. record {
      admitted = R.admitted table.rows;
      waiting = R.waiting table.rows;
      notices = table.notices.items;
      may_hide = table.may_hide;
      room = table.sure;
    } };

    ghost invariant = { λ table. IsConsistent (R.admitted table.rows) (R.waiting table.rows)
        table.weights
        table.may_hide (deque_len table.notices + table.sure) (deque_capacity table.notices)
        × (table.sure ≤ R.room table.rows) };
}

impl<K: Eq + Drop, V: Drop, R: RowStore<K, V>> Table<K, V, R> {
    /// Creates a table without rows and notices. Does not allocate.
    pub fn new(alloc: Global) -> Self
        ensures rows { entries result ≡ [] }
        ensures notices { result.notices ≡ [] }
        ensures may_hide { result.may_hide ≡ false }
    {
        Table {
            rows: R::new(alloc),
            notices: VecDeque::new(alloc),
            weights: Weights {
                admitted: 0,
                waiting: 0,
            },
            may_hide: false,
            sure: 0,
            unused_key: Deferred::new(),
        }
    }

    /// Creates a table without rows and notices, with room for `capacity` rows.
    ///
    /// # Errors
    ///
    /// - `AllocError`: an allocation failed, or the store cannot number so many rows.
    pub fn with_capacity(alloc: Global, capacity: usize) -> Result<Self, AllocError>
        ensures rows { IfOk result (λ table. entries table ≡ []) }
        ensures notices { IfOk result (λ table. table.notices ≡ []) }
        ensures room { IfOk result (λ table. capacity ≤ table.room) }
    {
        let mut table = Table::new(alloc);
        table.reserve(capacity)?;
        Ok(table)
    }

    /// Keeps keys that writes no longer need until they are taken.
    pub fn defer(&mut self)
        ensures { self.new ≡ self.old }
    {
        self.unused_key.defer();
    }

    /// Discards a key that a write does not need.
    #[inline(always)]
    pub fn discard_key(&mut self, key: UnusedKey<K>)
        ensures { self.new ≡ self.old }
    {
        self.unused_key.discard(key);
    }

    /// Returns the key that the last write did not need, if it is kept.
    #[inline(always)]
    pub fn take_unused_key(&mut self) -> Option<UnusedKey<K>>
        ensures { self.new ≡ self.old }
    {
        self.unused_key.take()
    }

    /// Returns the notice that is taken next, if there is one.
    pub fn first_notice(&self) -> Option<&Notice<K, V>>
        ensures { option_copied result ≡ slice_get self.now.notices 0 }
    {
        self.notices.front()
    }

    /// Returns how many notices have not been taken.
    #[inline(always)]
    pub fn notice_count(&self) -> usize
        ensures { result ≡ length self.now.notices }
    {
        self.notices.len()
    }

    /// Returns the number of the row with a key, given the key's hash.
    #[inline(always)]
    pub fn find(&self, key: &K, hash: u64) -> Option<RowId>
        ensures found { IfSome result
            (λ number. IfSome (row_under number (entries self.now)) (IsRowOf K.eq key.now hash)) }
        ensures stored { IfSome result (λ number. IsSome (row_under number (entries self.now))) }
        ensures absent { IfNone result (NoneIsRowOf K.eq key.now hash (entries self.now)) }
    {
        let mut reads = 0;
        self.rows.find(key, hash, &mut reads)
    }

    /// Returns the row with this number.
    #[inline(always)]
    pub fn row(&self, number: RowId) -> RowRef<'_, K, V>
        requires { IsSome (row_under number (entries self.now)) }
        ensures { row_under number (entries self.now) ≡ Some result }
    {
        self.rows.row(number)
    }

    /// Returns the hash of the row with this number. Does not read the row if the store has the
    /// hash elsewhere.
    #[inline(always)]
    pub fn hash(&self, number: RowId) -> u64
        requires { IsSome (row_under number (entries self.now)) }
        ensures { IfSome (row_under number (entries self.now)) (λ row. result ≡ row.hash) }
    {
        self.rows.hash(number)
    }

    /// Returns how many rows there are.
    #[inline(always)]
    pub fn len(&self) -> usize
        ensures { result ≡ length (entries self.now) }
    {
        self.rows.len()
    }

    /// Returns how many rows are resident.
    #[inline(always)]
    pub fn admitted_len(&self) -> usize
        ensures { result ≡ length self.now.admitted }
    {
        self.rows.len() - self.waiting_len()
    }

    /// Returns how many rows are pending.
    #[inline(always)]
    pub fn waiting_len(&self) -> usize
        ensures { result ≡ length self.now.waiting }
    {
        self.rows.waiting_len()
    }

    /// Returns the total weight of the resident rows. Takes constant time.
    #[inline(always)]
    pub fn admitted_weight(&self) -> u64
        ensures { result ≡ total weight_of self.now.admitted }
    {
        self.weights.admitted
    }

    /// Returns the total weight of all rows. Takes constant time.
    #[inline(always)]
    pub fn weight(&self) -> u64
        ensures { result ≡ total weight_of (entries self.now) }
    {
        self.rows.numbers_differ();
        self.weights.admitted + self.weights.waiting
    }

    /// Returns the number of the least recently used resident row, if there is one.
    #[inline(always)]
    pub fn first_admitted(&self) -> Option<RowId>
        ensures { result ≡ first_number self.now.admitted }
    {
        self.rows.first_admitted()
    }

    /// Returns the number of the first resident row, in access order, whose deadline has come at
    /// `now`. No two rows have the same number.
    #[inline(always)]
    pub fn first_expired(&self, now: u64) -> Option<RowId>
        ensures first { result ≡ first_number (expired_at now self.now.admitted) }
        ensures apart { NumbersDiffer (entries self.now) }
    {
        self.rows.numbers_differ();
        self.rows.first_expired(now)
    }

    /// Returns the number of the row that has been pending longest. No two rows have the same
    /// number.
    #[inline(always)]
    pub fn first_waiting(&self) -> Option<RowId>
        ensures first { result ≡ first_number self.now.waiting }
        ensures apart { NumbersDiffer (entries self.now) }
    {
        self.rows.first_waiting()
    }

    /// Returns the number of the next row in the order of this row, if there is one. No two rows
    /// have the same number. Counts one step in `visits`.
    #[inline(always)]
    pub fn next(&self, number: RowId, visits: &mut u128) -> Option<RowId>
        requires { IsSome (row_under number (entries self.now)) }
        ensures behind { MatchOption (row_under number self.now.admitted)
            (result ≡ number_after number self.now.waiting)
            (λ _. result ≡ number_after number self.now.admitted) }
        ensures visited { visits.new ≡ one_more visits.old }
        ensures apart { NumbersDiffer (entries self.now) }
    {
        self.rows.next(number, visits)
    }

    /// Makes room for this many more rows and notices. All rows and notices stay as they were, also
    /// if it fails.
    ///
    /// # Errors
    ///
    /// - `AllocError`: an allocation failed, or the store cannot number so many rows.
    pub fn reserve(&mut self, more: usize) -> Result<(), AllocError>
        ensures room { OnOk result (more ≤ self.new.room) }
        ensures more { OnOk result (self.old.room ≤ self.new.room) }
        ensures same { SameRows self.old self.new }
        ensures may_hide { self.new.may_hide ≡ self.old.may_hide }
    {
        let rows = self.rows.len().checked_add(more).ok_or(AllocError)?;
        self.notices.reserve(rows)?;
        let sure = self.sure.max(more);
        // If this fails, the store's contract says nothing of the room that is left.
        self.sure = 0;
        self.rows.reserve(more)?;
        self.sure = sure;
        Ok(())
    }

    /// Counts the room that there is, and makes more if there is none. All rows and notices stay as
    /// they were, also if it fails. An empty queue of notices begins anew.
    ///
    /// # Errors
    ///
    /// - `AllocError`: an allocation failed, or the store cannot number more rows.
    #[inline(never)]
    fn look_for_room(&mut self) -> Result<(), AllocError>
        requires { self.old.room ≡ 0 }
        ensures room { OnOk result (0 < self.new.room) }
        ensures same { SameRows self.old self.new }
        ensures may_hide { self.new.may_hide ≡ self.old.may_hide }
    {
        if self.notices.is_empty() {
            self.begin_notices_anew();
        }
        let stored = self.len() + self.notice_count();
        let places = self.notices.capacity() - stored;
        let room = self.rows.room().min(places);
        if places == 0 {
            // A queue that begins at the front of its memory doubles it when it grows.
            self.begin_notices_anew();
            return self.reserve(AT_ONCE);
        }
        if room == 0 {
            // The store may have lost room without being full. For one row more it need not grow.
            return self.reserve(1);
        }
        self.sure = room.min(AT_MOST);
        Ok(())
    }

    /// Makes room for a write of a key, and returns where its row is. All rows and notices stay as
    /// they were, also if it fails.
    ///
    /// # Errors
    ///
    /// - `AllocError`: an allocation failed, or the store cannot number more rows.
    #[inline(always)]
    pub fn lookup(&mut self, key: &K, hash: u64) -> Result<Lookup<K>, AllocError>
        ensures lookup { IfOk result (IsLookupOf K.eq key.now hash (entries self.new)) }
        ensures room { OnOk result (0 < self.new.room) }
        ensures more { OnOk result (self.old.room ≤ self.new.room) }
        ensures same { SameRows self.old self.new }
        ensures may_hide { self.new.may_hide ≡ self.old.may_hide }
    {
        if self.sure == 0 {
            self.look_for_room()?;
        }
        match self.find(key, hash) {
            None => Ok(Lookup::Absent),
            Some(number) => {
                let key = self.row(number).key.clone()?;
                Ok(Lookup::Stored { number, key })
            }
        }
    }

    /// Adds a row as the last pending one. It is not invalidated. Uses the room of one row.
    #[inline(always)]
    pub fn add(&mut self, row: Row<K, V>)
        requires room { 0 < self.old.room }
        requires shown { row.info.is_hidden ≡ false }
        ensures admitted { self.new.admitted ≡ self.old.admitted }
        ensures waiting { (number : ℕ) ×
            (self.new.waiting ≡ self.old.waiting ++ (number, row) ∷ []) }
        ensures notices { self.new.notices ≡ self.old.notices }
        ensures room { self.old.room ≤ self.new.room + 1 }
        ensures may_hide { self.new.may_hide ≡ self.old.may_hide }
    {
        self.rows.numbers_differ();
        self.weights.waiting += u64::from(row.info().policy_weight);
        self.rows.add(row);
        self.sure -= 1;
    }

    /// Applies an access to a row. Keeps the weight, the moment of the last write and the mark
    /// `is_hidden`.
    #[inline(always)]
    pub fn touch(&mut self, number: RowId, touch: Access)
        requires { IsSome (row_under number (entries self.old)) }
        ensures rows { UsesRow number (touched touch) self.old self.new }
        ensures notices { self.new.notices ≡ self.old.notices }
        ensures may_hide { self.new.may_hide ≡ self.old.may_hide }
    {
        self.rows.touch(number, touch);
    }

    /// Replaces the value of a row by one that is not invalidated, and adds a notice of the old
    /// one.
    ///
    /// The notice has the given key. Its cause is `Explicit` if the old value was invalidated. Else
    /// it is `Expired` if the old deadline had come when the new value was written, and else
    /// `Replaced`.
    #[inline(always)]
    pub fn overwrite(&mut self, number: RowId, key: Arc<K>, value: V, info: EntryInfo)
        requires stored { IsSome (row_under number (entries self.old)) }
        requires room { 0 < self.old.room }
        requires shown { info.is_hidden ≡ false }
        ensures rows { UsesRow number (overwritten value info) self.old self.new }
        ensures notices { Notifies number (λ _. key)
            (λ row. cause_at RemovalCause.Replaced row.info info.last_modified) self.old self.new }
        ensures may_hide { self.new.may_hide ≡ self.old.may_hide }
    {
        self.rows.numbers_differ();
        let before = self.rows.overwrite(number, value, info);
        let (was, weight) = (before.info, info.policy_weight);
        self.weights = self
            .weights
            .with_weight(before.order, was.policy_weight, weight);
        let replaced = Notice {
            key,
            value: before.value,
            cause: was.cause(info.last_modified, RemovalCause::Replaced),
        };
        self.sure -= 1;
        match self.notices.push_back(replaced) {
            Ok(()) => {}
            Err(_) => unreachable!(),
        }
    }

    /// Marks a row invalidated, in its place. Does not allocate, and uses no room.
    pub fn hide(&mut self, number: RowId)
        requires { IsSome (row_under number (entries self.old)) }
        ensures admitted { self.new.admitted ≡ with_row number hidden self.old.admitted }
        ensures waiting { self.new.waiting ≡ with_row number hidden self.old.waiting }
        ensures notices { self.new.notices ≡ self.old.notices }
        ensures room { self.old.room ≤ self.new.room }
        ensures may_hide { self.new.may_hide ≡ true }
    {
        self.may_hide = true;
        self.rows.hide(number);
    }

    /// Returns whether a row may be invalidated. If not, none is. Takes constant time.
    #[inline(always)]
    pub fn may_hide(&self) -> bool
        ensures may_hide { result ≡ self.now.may_hide }
        ensures shown { result ≡ false → AreShown (entries self.now) }
    {
        self.may_hide
    }

    /// Returns whether a row may be invalidated or have a deadline. If not, no row is or has. Takes
    /// constant time.
    #[inline(always)]
    pub fn may_be_dead(&self) -> bool
        ensures { result ≡ false
            → AreShown (entries self.now) × AreUndated (entries self.now) }
    {
        self.may_hide() || self.rows.has_deadlines()
    }

    /// Records that no row is invalidated. Changes no row.
    #[inline(always)]
    pub fn clear_may_hide(&mut self)
        requires { AreShown (entries self.old) }
        ensures same { SameRows self.old self.new }
        ensures room { self.new.room ≡ self.old.room }
        ensures may_hide { self.new.may_hide ≡ false }
    {
        self.may_hide = false;
    }

    /// Makes a pending row resident, as the most recently used. Does not allocate, and uses no
    /// room.
    #[inline(always)]
    pub fn admit(&mut self, number: RowId)
        requires { IsSome (row_under number self.old.waiting) }
        ensures waiting { self.new.waiting ≡ without_row number self.old.waiting }
        ensures admitted { IfSome (row_under number self.old.waiting)
            (λ row. self.new.admitted ≡ self.old.admitted ++ (number, row) ∷ []) }
        ensures notices { self.new.notices ≡ self.old.notices }
        ensures room { self.old.room ≤ self.new.room }
        ensures may_hide { self.new.may_hide ≡ self.old.may_hide }
    {
        self.rows.numbers_differ();
        let weight = u64::from(self.rows.row(number).info().policy_weight);
        self.rows.admit(number);
        self.weights.waiting -= weight;
        self.weights.admitted += weight;
    }

    /// Removes a row, and adds a notice with this cause. Does not allocate, and uses no room.
    #[inline(always)]
    pub fn evict(&mut self, number: RowId, cause: RemovalCause)
        requires { IsSome (row_under number (entries self.old)) }
        ensures rows { TakesRow number self.old self.new }
        ensures notices { Notifies number (λ row. row.key) (λ _. cause) self.old self.new }
        ensures room { self.old.room ≤ self.new.room }
        ensures may_hide { self.new.may_hide ≡ self.old.may_hide }
    {
        let (row, order) = self.rows.remove(number);
        self.weights = self.weights.with_weight(order, row.info().policy_weight, 0);
        let Row { key, value, .. } = row;
        match self.notices.push_back(Notice { key, value, cause }) {
            Ok(()) => {}
            Err(_) => unreachable!(),
        }
    }

    /// Removes the least recently used resident row, and adds a notice with this cause. Does not
    /// allocate, and uses no room.
    #[inline(always)]
    pub fn evict_first(&mut self, cause: RemovalCause)
        requires { 0 < length self.old.admitted }
        ensures evicted { (first : ℕ × Row K V) × EvictsOne cause first self.old self.new }
        ensures room { self.old.room ≤ self.new.room }
        ensures may_hide { self.new.may_hide ≡ self.old.may_hide }
    {
        let Some(row) = self.rows.take_first_admitted() else {
            unreachable!()
        };
        let weight = row.info().policy_weight;
        self.weights = self.weights.with_weight(Order::Admitted, weight, 0);
        let Row { key, value, .. } = row;
        let notice = Notice { key, value, cause };
        match self.notices.push_back(notice) {
            Ok(()) => {}
            Err(_) => unreachable!(),
        }
    }

    /// Removes and returns the first notice, if there is one.
    #[inline(always)]
    pub fn take_notice(&mut self) -> Option<Notice<K, V>>
        ensures notices { self.old.notices ≡ option_to_list result ++ self.new.notices }
        ensures none { IfNone result (self.old.notices ≡ []) }
        ensures admitted { self.new.admitted ≡ self.old.admitted }
        ensures waiting { self.new.waiting ≡ self.old.waiting }
        ensures may_hide { self.new.may_hide ≡ self.old.may_hide }
    {
        self.notices.pop_front()
    }

    /// Moves the notices to the front of their memory. Does not allocate.
    #[inline(never)]
    fn begin_notices_anew(&mut self)
        ensures { self.new ≡ self.old }
    {
        let alloc = *self.notices.allocator();
        let notices = mem::replace(&mut self.notices, VecDeque::new(alloc));
        self.notices = VecDeque::from_vec(notices.into_vec());
    }
}
