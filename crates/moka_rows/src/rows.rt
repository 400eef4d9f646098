//! The rows of a cache, and the trait of stores of rows.
//!
//! A row is a stored key with its value. A number identifies it as long as it is stored. A store
//! keeps two orders of rows: the pending ones (`waiting`) in arrival order, and the resident ones
//! (`admitted`) in access order.
ghost use Rattle.std.specs.Prelude.{◌≡◌, true, false, ◌||◌, ℕ, ◌+◌, ◌<◌, ◌≤◌, ◌^◌};
ghost use Rattle.std.specs.Prelude.{List, [], ◌∷◌, ◌++◌, length};
ghost use Rattle.std.specs.Prelude.{IsSome, IfSome, IfNone, OnOk, OnSome, Some, None, MatchOption};
ghost use Rattle.moka_model.specs.Lives.{has_come};
ghost use Rattle.moka_rows.specs.Rows.{row_under, with_row, without_row, first_number};
ghost use Rattle.moka_rows.specs.Rows.{written, used_at, touched, overwritten, hidden, cause_at};
ghost use Rattle.moka_rows.specs.Rows.{number_after, expired_at};
ghost use Rattle.moka_rows.specs.Rows.{IsOrderOf, AccessesRow, RemovesRow, TakesFirst};
ghost use Rattle.moka_rows.specs.Rows.{IsRowOf, NoneIsRowOf, NumbersDiffer, AreUndated};
ghost use Rattle.moka_rows.specs.Visits.{one_more};

use crate::packed::PackedEntryInfo;
use moka_model::notification::RemovalCause;
use std::alloc::{AllocError, Global};
use std::marker::Model;
use std::mem;
use std::sync::Arc;
use std::time::Duration;

/// Identifies a row while it is stored: a row number. Links between rows have this width too, so a
/// store has no more than 2^32 numbers.
pub type RowId = u32;

/// A lifetime that an entry has of its own.
#[derive(Clone, Copy, Debug, PartialEq, Eq)]
pub struct OwnLife {
    /// The moment from which it counts, in nanoseconds.
    pub from: u64,
    /// Its length.
    pub life: Duration,
}

/// The metadata of a row's value.
#[derive(Clone, Copy, Debug, PartialEq, Eq)]
pub struct EntryInfo {
    /// When the value was written, in nanoseconds.
    pub last_modified: u64,
    /// When it was written or last accessed, in nanoseconds.
    pub last_accessed: u64,
    /// The entry's own lifetime, if it has one.
    pub own_life: Option<OwnLife>,
    /// The moment from which the value is expired, in nanoseconds. Without one it never expires. A
    /// deadline past the last moment never comes, so `None` is stored for it.
    pub deadline: Option<u64>,
    /// The weight of the entry.
    pub policy_weight: u32,
    /// Whether a mass invalidation has invalidated it.
    pub is_hidden: bool,
}

/// What an access changes in an `EntryInfo`.
#[doc(hidden)]
#[derive(Clone, Copy, Debug, PartialEq, Eq)]
pub struct Access {
    /// When the access was, in nanoseconds.
    pub last_accessed: u64,
    /// The entry's own lifetime from then on, if it has one.
    pub own_life: Option<OwnLife>,
    /// The moment from which the value is expired, in nanoseconds. Without one it never expires. A
    /// deadline past the last moment never comes, so `None` is stored for it.
    pub deadline: Option<u64>,
}

impl EntryInfo {
    /// Returns the metadata of a value that is written at `now` and never expires.
    #[inline(always)]
    pub fn new(policy_weight: u32, now: u64) -> EntryInfo
        ensures { result ≡ written policy_weight now }
    {
        EntryInfo {
            last_modified: now,
            last_accessed: now,
            own_life: None,
            deadline: None,
            policy_weight,
            is_hidden: false,
        }
    }

    /// Returns whether the value is expired at `now`: it is from its deadline on.
    #[inline(always)]
    pub fn is_expired(self, now: u64) -> bool
        ensures { result ≡ has_come self.deadline now }
    {
        match self.deadline {
            None => false,
            Some(deadline) => deadline <= now,
        }
    }

    /// Returns whether the value is invalidated, or expired at `now`.
    #[inline(always)]
    pub fn is_dead(self, now: u64) -> bool
        ensures { result ≡ (self.is_hidden || has_come self.deadline now) }
    {
        self.is_hidden || self.is_expired(now)
    }

    /// Returns the cause of a removal of the value at `now`. It is `Explicit` if the value is
    /// invalidated, else `Expired` if its deadline has come, and else `own`.
    #[inline(always)]
    pub fn cause(self, now: u64, own: RemovalCause) -> RemovalCause
        ensures { result ≡ cause_at own self now }
    {
        if self.is_hidden {
            RemovalCause::Explicit
        } else if self.is_expired(now) {
            RemovalCause::Expired
        } else {
            own
        }
    }

    /// Returns the metadata after an access.
    #[inline(always)]
    pub fn with_access(self, touch: Access) -> EntryInfo
        ensures { result ≡ used_at touch self }
    {
        EntryInfo {
            last_accessed: touch.last_accessed,
            own_life: touch.own_life,
            deadline: touch.deadline,
            ..self
        }
    }
}

/// One of the two orders of rows.
#[doc(hidden)]
#[derive(Clone, Copy, Debug, PartialEq, Eq)]
pub enum Order {
    /// The resident rows, in access order.
    Admitted,
    /// The pending rows, in arrival order.
    Waiting,
}

/// What an overwrite replaced in a row.
#[doc(hidden)]
#[derive(Debug, Drop)]
pub struct Previous<V> {
    /// The old value.
    pub value: V,
    /// The metadata of the old value.
    pub info: EntryInfo,
    /// The order of the row, before the overwrite and after it.
    pub order: Order,
}

/// One stored key with its value.
#[doc(hidden)]
#[derive(Drop)]
pub struct Row<K, V> {
    /// The stored key: the one of the write that inserted the entry.
    pub key: Arc<K>,
    /// The hash of the key.
    pub hash: u64,
    /// The value of the last write.
    pub value: V,
    /// The metadata of that value.
    pub info: PackedEntryInfo,
}

impl<K, V> Row<K, V> {
    /// Lends the row.
    #[inline(always)]
    pub fn lend(&self) -> RowRef<'_, K, V>
        ensures { result ≡ self.now }
    {
        RowRef {
            key: &self.key,
            hash: self.hash,
            value: &self.value,
            info: self.info(),
        }
    }

    /// Returns the metadata of the value.
    #[inline(always)]
    pub fn info(&self) -> EntryInfo
        ensures { result ≡ self.now.info }
    {
        self.info.info()
    }

    /// Applies an access, and returns the metadata before it. Keeps the weight, the moment of the
    /// last write and the mark `is_hidden`.
    #[inline(always)]
    pub fn touch(&mut self, touch: Access) -> EntryInfo
        ensures before { result ≡ self.old.info }
        ensures after { self.new ≡ touched touch self.old }
    {
        let before = self.info();
        self.info.touch(touch);
        before
    }

    /// Marks the row invalidated. Everything else stays.
    #[inline(always)]
    pub fn hide(&mut self)
        ensures { self.new ≡ hidden self.old }
    {
        self.info.hide();
    }

    /// Replaces the value and its metadata, and returns the old ones.
    #[inline(always)]
    pub fn overwrite(&mut self, value: V, info: EntryInfo) -> (V, EntryInfo)
        ensures value { result.0 ≡ self.old.value }
        ensures info { result.1 ≡ self.old.info }
        ensures after { self.new ≡ overwritten value info self.old }
    {
        let before = mem::replace(&mut self.info, PackedEntryInfo::new(info));
        (mem::replace(&mut self.value, value), before.info())
    }
}

/// A row that a store lends. A contract sees the row.
#[doc(hidden)]
#[derive(Drop)]
pub struct RowRef<'a, K, V> {
    /// The stored key.
    pub key: &'a Arc<K>,
    /// The hash of the key.
    pub hash: u64,
    /// The value of the last write.
    pub value: &'a V,
    /// The metadata of that value.
    pub info: EntryInfo,
}

impl<'a, K, V> Model for RowRef<'a, K, V> {
    ghost use Rattle.moka_rows.specs.declared.rows.Row.{Row};

    ghost Value = { Row K V };

    ghost view = { λ row. record {
      key = row.key.now;
      hash = row.hash;
      value = row.value.now;
      info = row.info;
    } };
}

impl<'a, K, V> RowRef<'a, K, V> {
    /// Returns the metadata of the value.
    #[inline(always)]
    pub fn info(&self) -> EntryInfo
        ensures { result ≡ self.now.info }
    {
        self.info
    }
}

/// A store of rows in two orders, by which a cache keeps its entries.
pub trait RowStore<K: Eq, V>: Drop {
    ghost use Rattle.moka_rows.specs.declared.rows.Row.{Row};

    /// The pending rows with their numbers, in arrival order.
    ghost waiting: { Self → List (ℕ × Row K V) };

    /// The resident rows with their numbers, the least recently used first.
    ghost admitted: { Self → List (ℕ × Row K V) };

    /// How many rows can be added without an allocation.
    ghost room: { Self → ℕ };

    /// Creates a store without rows. Does not allocate.
    fn new(alloc: Global) -> Self
        ensures waiting { waiting result ≡ [] }
        ensures admitted { admitted result ≡ [] };

    /// Returns how many rows there are in both orders.
    fn len(&self) -> usize
        ensures { result ≡ length (admitted self.now ++ waiting self.now) };

    /// Returns the number of the row with a key, given the key's hash.
    ///
    /// Adds 1 to `reads` for each row that it reads: at least 1 if it finds a row, and at most 1
    /// for each row of the store. `reads` is 0 before.
    fn find(&self, key: &K, hash: u64, reads: &mut u64) -> Option<RowId>
        requires { reads.old ≡ 0 }
        ensures found { IfSome result (λ number.
            IfSome (row_under number (admitted self.now ++ waiting self.now))
            (IsRowOf K.eq key.now hash)) }
        ensures stored { IfSome result
            (λ number. IsSome (row_under number (admitted self.now ++ waiting self.now))) }
        ensures absent { IfNone result
            (NoneIsRowOf K.eq key.now hash (admitted self.now ++ waiting self.now)) }
        ensures counted { reads.new ≤ length (admitted self.now ++ waiting self.now) }
        ensures read { OnSome result (0 < reads.new) };

    /// Returns the row with this number. No two rows have the same number.
    fn row(&self, number: RowId) -> RowRef<'_, K, V>
        requires { IsSome (row_under number (admitted self.now ++ waiting self.now)) }
        ensures row { row_under number (admitted self.now ++ waiting self.now) ≡ Some result }
        ensures apart { NumbersDiffer (admitted self.now ++ waiting self.now) };

    /// Returns the hash of the row with this number. It comes from the row's link, if reading that
    /// is cheaper than reading the row.
    fn hash(&self, number: RowId) -> u64
        requires { IsSome (row_under number (admitted self.now ++ waiting self.now)) }
        ensures { IfSome (row_under number (admitted self.now ++ waiting self.now))
            (λ row. result ≡ row.hash) };

    /// Does nothing. Its contract says that no two rows have the same number, and that there are
    /// fewer rows than numbers.
    fn numbers_differ(&self)
        ensures apart { NumbersDiffer (admitted self.now ++ waiting self.now) }
        ensures few { length (admitted self.now ++ waiting self.now) < 2 ^ 32 };

    /// Returns whether the row with this number is resident.
    fn is_admitted(&self, number: RowId) -> bool
        requires { IsSome (row_under number (admitted self.now ++ waiting self.now)) }
        ensures { MatchOption (row_under number (admitted self.now))
            (result ≡ false) (λ _. result ≡ true) };

    /// Returns whether a row may have a deadline. If not, none has.
    fn has_deadlines(&self) -> bool
        ensures { result ≡ false → AreUndated (admitted self.now ++ waiting self.now) };

    /// Returns how many rows can be added without an allocation, at least.
    fn room(&self) -> usize
        ensures { result ≤ room self.now };

    /// Makes room for this many more rows. Every row stays as it was, also if the call fails.
    ///
    /// # Errors
    ///
    /// - `AllocError`: an allocation failed, or the store cannot number so many rows.
    fn reserve(&mut self, more: usize) -> Result<(), AllocError>
        ensures room { OnOk result (more ≤ room self.new) }
        ensures more { OnOk result (room self.old ≤ room self.new) }
        ensures waiting { waiting self.new ≡ waiting self.old }
        ensures admitted { admitted self.new ≡ admitted self.old };

    /// Adds a row as the last pending one, and returns its number. No stored row has that number.
    /// Uses the room of one row.
    fn add(&mut self, row: Row<K, V>) -> RowId
        requires { 0 < room self.old }
        ensures fresh { row_under result (admitted self.old ++ waiting self.old) ≡ None }
        ensures waiting { waiting self.new ≡ waiting self.old ++ (result, row) ∷ [] }
        ensures admitted { admitted self.new ≡ admitted self.old }
        ensures room { room self.old ≤ room self.new + 1 };

    /// Applies an access to a row, and returns the row's metadata before it and the row's order.
    /// A resident row becomes the most recently used; a pending one keeps its place.
    ///
    /// Keeps the weight, the moment of the last write and the mark `is_hidden`. Uses no room.
    fn touch(&mut self, number: RowId, touch: Access) -> (EntryInfo, Order)
        requires { IsSome (row_under number (admitted self.old ++ waiting self.old)) }
        ensures before { IfSome (row_under number (admitted self.old ++ waiting self.old))
            (λ row. result.0 ≡ row.info) }
        ensures order { IsOrderOf number (admitted self.old) result.1 }
        ensures after { AccessesRow number (touched touch)
            (admitted self.old) (waiting self.old) (admitted self.new) (waiting self.new) }
        ensures room { room self.old ≤ room self.new };

    /// Replaces the value of a row and its metadata, and returns what was there before. Uses no
    /// room.
    ///
    /// It is an access: a resident row becomes the most recently used, and a pending one keeps its
    /// place.
    fn overwrite(&mut self, number: RowId, value: V, info: EntryInfo) -> Previous<V>
        requires { IsSome (row_under number (admitted self.old ++ waiting self.old)) }
        ensures before { IfSome (row_under number (admitted self.old ++ waiting self.old))
            (λ row. (result.value ≡ row.value) × (result.info ≡ row.info)) }
        ensures order { IsOrderOf number (admitted self.old) result.order }
        ensures after { AccessesRow number (overwritten value info)
            (admitted self.old) (waiting self.old) (admitted self.new) (waiting self.new) }
        ensures room { room self.old ≤ room self.new };

    /// Marks a row invalidated. The row keeps its place. Does not allocate, and uses no room.
    fn hide(&mut self, number: RowId)
        requires { IsSome (row_under number (admitted self.old ++ waiting self.old)) }
        ensures admitted { admitted self.new ≡ with_row number hidden (admitted self.old) }
        ensures waiting { waiting self.new ≡ with_row number hidden (waiting self.old) }
        ensures room { room self.old ≤ room self.new };

    /// Returns how many rows are pending.
    fn waiting_len(&self) -> usize
        ensures { result ≡ length (waiting self.now) };

    /// Returns the number of the least recently used resident row, if there is one.
    fn first_admitted(&self) -> Option<RowId>
        ensures { result ≡ first_number (admitted self.now) };

    /// Returns the number of the first resident row, in access order, whose deadline has come at
    /// `now`.
    fn first_expired(&self, now: u64) -> Option<RowId>
        ensures { result ≡ first_number (expired_at now (admitted self.now)) };

    /// Returns the number of the row that has been pending longest. No two rows have the same
    /// number.
    fn first_waiting(&self) -> Option<RowId>
        ensures first { result ≡ first_number (waiting self.now) }
        ensures apart { NumbersDiffer (admitted self.now ++ waiting self.now) };

    /// Returns the number of the next row in the order of this row, if there is one.
    ///
    /// Counts one step in `visits`. No two rows have the same number.
    fn next(&self, number: RowId, visits: &mut u128) -> Option<RowId>
        requires { IsSome (row_under number (admitted self.now ++ waiting self.now)) }
        ensures behind { MatchOption (row_under number (admitted self.now))
            (result ≡ number_after number (waiting self.now))
            (λ _. result ≡ number_after number (admitted self.now)) }
        ensures visited { visits.new ≡ one_more visits.old }
        ensures apart { NumbersDiffer (admitted self.now ++ waiting self.now) };

    /// Makes a pending row resident, as the most recently used. Does not allocate.
    fn admit(&mut self, number: RowId)
        requires { IsSome (row_under number (waiting self.old)) }
        ensures waiting { waiting self.new ≡ without_row number (waiting self.old) }
        ensures admitted { IfSome (row_under number (waiting self.old))
            (λ row. admitted self.new ≡ admitted self.old ++ (number, row) ∷ []) }
        ensures room { room self.old ≤ room self.new };

    /// Removes a row, and returns it with its order. Uses no room.
    fn remove(&mut self, number: RowId) -> (Row<K, V>, Order)
        requires { IsSome (row_under number (admitted self.old ++ waiting self.old)) }
        ensures row { row_under number (admitted self.old ++ waiting self.old) ≡ Some result.0 }
        ensures order { IsOrderOf number (admitted self.old) result.1 }
        ensures rest { RemovesRow number
            (admitted self.old) (waiting self.old) (admitted self.new) (waiting self.new) }
        ensures room { room self.old ≤ room self.new };

    /// Removes and returns the least recently used resident row, if there is one. Uses no room.
    fn take_first_admitted(&mut self) -> Option<Row<K, V>>
        ensures admitted { TakesFirst result (admitted self.old) (admitted self.new) }
        ensures waiting { waiting self.new ≡ waiting self.old }
        ensures room { room self.old ≤ room self.new };
}
