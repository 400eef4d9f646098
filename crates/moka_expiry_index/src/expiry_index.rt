//! An order of numbers with deadlines, and the first number in it that is due.
ghost use Rattle.std.specs.Prelude.{◌≡◌, ◌≢◌, ℕ, ◌+◌, ◌*◌, ◌/◌, ◌^◌, ◌<◌, ◌≤◌, [], ◌∷◌, ◌++◌, true, false, length, filter, OnOk, OnErr, None, MatchOption, vec_len, vec_capacity, slice_index};
ghost use Rattle.moka_rows.specs.Rows.{row_under, without_row, first_number};
ghost use Rattle.moka_expiry_index.specs.MinTree.{AreLeast, leaf, leftmost, never};
ghost use Rattle.moka_expiry_index.specs.Slots.{IsTree, AreSlots, listed, is_due};

use crate::min_tree::{self, NEVER, clear_from, first_within, rebuild, set_leaf};
use moka_rows::rows::RowId;
use std::alloc::{AllocError, Global};

/// How many numbers there are, at most, since each has 32 bits.
const MOST_NUMBERS: usize = 1 << 32;

/// Numbers in an order, each with a deadline.
///
/// Each number has a slot, after the slots of all numbers that came before. A number that is
/// removed leaves its slot empty. Once all slots are used up, the empty ones are closed. A tree of
/// least deadlines is stored over the slots. Only `reserve` allocates.
///
/// # Complexity
///
/// Finding the first number that is due takes time logarithmic in the number of slots. So does
/// adding or removing a number, apart from closing slots. Each slot is moved once in as many calls
/// as there are slots, on average.
#[derive(Drop)]
pub struct ExpiryIndex {
    // The number in each slot, and 0 in an empty one.
    numbers: Vec<RowId>,
    // The tree. Its leaves are the deadlines of the slots, `NEVER` for an empty one.
    nodes: Vec<u64>,
    // The number of slots: 0, or `2^height`.
    size: usize,
    height: usize,
    // The slot of each number that has one.
    places: Vec<u32>,
    ghost tree: { IsTree nodes size height },
    ghost slots: { AreSlots (slice_index numbers.items) (leaf nodes.items size)
        (slice_index places.items) (vec_len numbers) size (vec_len places) },
    ghost few: { vec_len numbers ≤ size },
    ghost space: { size ≤ vec_capacity numbers },
    ghost narrow: { size ≤ 2 ^ 32 },
    ghost short: { vec_len places ≤ 2 ^ 32 },
}

/// Moves the numbers in the slots to the front, in the same order, and returns how many there are.
fn close_gaps(
    numbers: &mut Vec<RowId>,
    nodes: &mut Vec<u64>,
    size: usize,
    places: &mut Vec<u32>,
) -> usize
    requires long { vec_len nodes.old ≡ 2 * size }
    requires few { vec_len numbers.old ≤ size }
    requires narrow { size ≤ 2 ^ 32 }
    requires slots { AreSlots (slice_index numbers.old.items) (leaf nodes.old.items size)
        (slice_index places.old.items) (vec_len numbers.old) size (vec_len places.old) }
    ensures long { vec_len nodes.new ≡ 2 * size }
    ensures numbers { vec_len numbers.new ≡ vec_len numbers.old }
    ensures capacity { vec_capacity numbers.new ≡ vec_capacity numbers.old }
    ensures places { vec_len places.new ≡ vec_len places.old }
    ensures few { result ≤ vec_len numbers.old }
    ensures same { listed (slice_index numbers.new.items) (leaf nodes.new.items size) result
        ≡ listed (slice_index numbers.old.items) (leaf nodes.old.items size) (vec_len numbers.old) }
    ensures full { (i : ℕ) → i < result → slice_index numbers.new.items i ≢ 0 }
    ensures known { (i : ℕ) → i < result → slice_index numbers.new.items i < vec_len places.old }
    ensures placed { (i : ℕ) → i < result →
        slice_index places.new.items (slice_index numbers.new.items i) ≡ i }
{
    let mut retained = 0;
    for place in 0..numbers.len() {
        let number = numbers[place];
        if number != 0 {
            numbers[retained] = number;
            nodes[size + retained] = nodes[size + place];
            places[number as usize] = retained as u32;
            retained += 1;
        }
    }
    retained
}

/// Returns the first number in the slots whose deadline has come, found by a walk over the slots.
fn walk_to_due(numbers: &[RowId], nodes: &[u64], size: usize, now: u64) -> Option<RowId>
    requires long { length nodes.now ≡ 2 * size }
    requires few { length numbers.now ≤ size }
    ensures { result ≡ first_number (filter (is_due now)
        (listed (slice_index numbers.now) (leaf nodes.now size) (length numbers.now))) }
{
    for place in 0..numbers.len() {
        let number = numbers[place];
        let deadline = nodes[size + place];
        if number != 0 && deadline <= now {
            return Some(number);
        }
    }
    None
}

/// Returns the first number in the slots whose deadline has come. `now` is before the last moment.
fn first_due_in(
    numbers: &[RowId],
    nodes: &[u64],
    size: usize,
    height: usize,
    now: u64,
) -> Option<RowId>
    requires early { now < never }
    requires least { AreLeast nodes.now size }
    requires long { length nodes.now ≡ 2 * size }
    requires high { size ≡ leftmost height 1 }
    requires few { length numbers.now ≤ size }
    requires cleared { (i : ℕ) → i < length numbers.now → slice_index numbers.now i ≡ 0 →
        leaf nodes.now size i ≡ never }
    requires behind { (i : ℕ) → length numbers.now ≤ i → i < size →
        leaf nodes.now size i ≡ never }
    ensures { result ≡ first_number (filter (is_due now)
        (listed (slice_index numbers.now) (leaf nodes.now size) (length numbers.now))) }
{
    let place = first_within(nodes, size, height, now)?;
    Some(numbers[place])
}

impl ExpiryIndex {
    ghost use Rattle.moka_expiry_index.specs.ExpiryIndex.{order_of, known_of, room_of, IsSlotOf, PreservesRoom};

    /// Creates an order without numbers. Does not allocate.
    pub fn new(alloc: Global) -> Self
        ensures { order_of result ≡ [] }
    {
        ExpiryIndex {
            numbers: Vec::new(alloc),
            nodes: Vec::new(alloc),
            size: 0,
            height: 0,
            places: Vec::new(alloc),
        }
    }

    /// Returns the number below which each number has a place.
    pub fn known(&self) -> usize
        ensures { result ≡ known_of self.now }
    {
        self.places.len()
    }

    /// Returns for how many numbers there is room.
    pub fn room(&self) -> usize
        ensures { result ≡ room_of self.now }
    {
        self.size / 2
    }

    /// Returns whether no slot is used up. Then there is no number in the order.
    #[inline(always)]
    pub fn is_unused(&self) -> bool
        ensures { result ≡ true → order_of self.now ≡ [] }
    {
        self.numbers.len() == 0
    }

    /// Returns the first number in the order whose deadline has come at `now`, a moment in
    /// nanoseconds. At the last moment, 2^64 - 1, it visits each slot.
    #[inline(always)]
    pub fn first_due(&self, now: u64) -> Option<RowId>
        ensures { result ≡ first_number (filter (is_due now) (order_of self.now)) }
    {
        if self.numbers.is_empty() {
            return None;
        }
        if now == NEVER {
            return walk_to_due(&self.numbers, &self.nodes, self.size, now);
        }
        first_due_in(&self.numbers, &self.nodes, self.size, self.height, now)
    }

    /// Makes room for `count` numbers in all, none of them greater than `number`. The order stays
    /// as it was, also if it fails.
    ///
    /// # Errors
    ///
    /// - `AllocError`: an allocation failed, or `number` has more than 32 bits, or there would be
    ///   more than 2^32 slots.
    pub fn reserve(&mut self, number: usize, count: usize) -> Result<(), AllocError>
        ensures known { OnOk result (number < known_of self.new) }
        ensures room { OnOk result (count ≤ room_of self.new) }
        ensures order { order_of self.new ≡ order_of self.old }
        ensures preserves { PreservesRoom self.old self.new }
    {
        self.know(number)?;
        while self.size / 2 < count {
            self.widen()?;
        }
        Ok(())
    }

    /// Makes a place for a number.
    fn know(&mut self, number: usize) -> Result<(), AllocError>
        ensures known { OnOk result (number < known_of self.new) }
        ensures order { order_of self.new ≡ order_of self.old }
        ensures preserves { PreservesRoom self.old self.new }
    {
        if number < self.places.len() {
            return Ok(());
        }
        if number > RowId::MAX as usize {
            return Err(AllocError);
        }
        self.places.reserve(number + 1 - self.places.len())?;
        // As many as there is memory for. So numbers that come one by one are seldom new.
        let known = self.places.capacity().min(MOST_NUMBERS);
        self.places.resize(known, 0)
    }

    /// Doubles the number of slots. Visits each slot.
    fn widen(&mut self) -> Result<(), AllocError>
        ensures wider { OnOk result (self.old.size < self.new.size) }
        ensures order { order_of self.new ≡ order_of self.old }
        ensures preserves { PreservesRoom self.old self.new }
    {
        if self.size > 1 << 31 {
            return Err(AllocError);
        }
        let (wider, height) = if self.size == 0 {
            (2, 1)
        } else {
            (2 * self.size, self.height + 1)
        };
        self.numbers.reserve(wider - self.numbers.len())?;
        min_tree::widen(&mut self.nodes, self.size, wider)?;
        self.size = wider;
        self.height = height;
        Ok(())
    }

    /// Returns the slot of a number, if it has one.
    fn slot(&self, number: RowId) -> Option<usize>
        ensures { MatchOption result (row_under number (order_of self.now) ≡ None)
            (IsSlotOf self.now number) }
    {
        if number == 0 || number as usize >= self.places.len() {
            return None;
        }
        let place = self.places[number as usize] as usize;
        if place >= self.numbers.len() {
            return None;
        }
        if self.numbers[place] == number {
            Some(place)
        } else {
            None
        }
    }

    /// Appends a number with its deadline, and returns whether it did. Does not allocate.
    ///
    /// It does not if the number is in the order already, or if there is no room for it.
    pub fn push(&mut self, number: RowId, deadline: u64) -> bool
        ensures pushed { result ≡ true →
            order_of self.new ≡ order_of self.old ++ (number, deadline) ∷ [] }
        ensures refused { result ≡ false → order_of self.new ≡ order_of self.old }
        ensures room { 0 < number → number < known_of self.old →
            row_under number (order_of self.old) ≡ None →
            length (order_of self.old) < room_of self.old → result ≡ true }
        ensures preserves { PreservesRoom self.old self.new }
    {
        if number == 0 || number as usize >= self.places.len() {
            return false;
        }
        if let Some(_stood) = self.slot(number) {
            return false;
        }
        if self.numbers.len() == self.size {
            self.compact();
        }
        let has_room = self.numbers.len() < self.size;
        if has_room {
            self.put(number, deadline);
        }
        has_room
    }

    /// Puts a number into the first slot that is not used up.
    fn put(&mut self, number: RowId, deadline: u64)
        requires some { 0 < number }
        requires known { number < known_of self.old }
        requires absent { row_under number (order_of self.old) ≡ None }
        requires space { vec_len self.old.numbers < self.old.size }
        ensures order { order_of self.new ≡ order_of self.old ++ (number, deadline) ∷ [] }
        ensures preserves { PreservesRoom self.old self.new }
    {
        let place = self.numbers.len();
        self.numbers.push_reserved(number);
        self.places[number as usize] = place as u32;
        set_leaf(&mut self.nodes, self.size, place, deadline);
    }

    /// Removes a number, if it is in the order. Does not allocate.
    pub fn remove(&mut self, number: RowId)
        ensures order { order_of self.new ≡ without_row number (order_of self.old) }
        ensures preserves { PreservesRoom self.old self.new }
    {
        if let Some(place) = self.slot(number) {
            self.numbers[place] = 0;
            set_leaf(&mut self.nodes, self.size, place, NEVER);
        }
    }

    /// Removes all numbers. Visits each slot, and does not allocate.
    pub fn clear(&mut self)
        ensures order { order_of self.new ≡ [] }
        ensures preserves { PreservesRoom self.old self.new }
    {
        self.numbers.clear();
        clear_from(&mut self.nodes, self.size, 0);
        rebuild(&mut self.nodes, self.size);
    }

    /// Closes the empty slots. Visits each slot.
    fn compact(&mut self)
        ensures order { order_of self.new ≡ order_of self.old }
        ensures full { vec_len self.new.numbers ≡ length (order_of self.old) }
        ensures size { self.new.size ≡ self.old.size }
        ensures preserves { PreservesRoom self.old self.new }
    {
        let retained = close_gaps(
            &mut self.numbers,
            &mut self.nodes,
            self.size,
            &mut self.places,
        );
        self.numbers.truncate(retained);
        clear_from(&mut self.nodes, self.size, retained);
        rebuild(&mut self.nodes, self.size);
    }
}
