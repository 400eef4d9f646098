//! The rows of a cache by their numbers: in two orders, and in a chain for each hash.
ghost use Rattle.std.specs.Prelude.{◌≡◌, ◌≢◌, ◌⊎◌, ℕ, ◌+◌, ◌<◌, ◌≤◌};
ghost use Rattle.std.specs.Prelude.{[], ◌∷◌, ◌++◌, true, false, length, OnOk, Some};
ghost use Rattle.moka_index.specs.Paths.{IsAmong, IsChain, without, first_of, number_behind};
ghost use Rattle.moka_index.specs.Deques.{hash_in, same_in, places_in, Stands, PreservesDeques};
ghost use Rattle.moka_index.specs.Chains.{IsIndexed, chain_in};
ghost use Rattle.moka_index.specs.BucketHeads.{first_in};
ghost use Rattle.indexmap.specs.IndexMap.{spare};

use crate::bucket_heads::{
    self, BucketHeads, change_first, drop_first, find_bucket, put_first, reserve_twice,
};
use crate::deques::{Deques, Queue};
use indexmap::IndexMap;
use moka_rows::rows::RowId;
use std::alloc::{AllocError, Global};
use std::hash::BuildHasherDefault;

/// Numbers in two orders, the pending and the resident ones, and in a chain for each hash.
///
/// A number is the index of a node. The first two nodes are the ends of the orders, so numbers
/// begin at 2. Each has 32 bits.
///
/// # Complexity
///
/// Every call takes constant time except two. `reserve` may have to grow. `remove` follows the
/// links of the numbers with one hash.
#[derive(Drop)]
pub struct RowIndex {
    orders: Deques,
    bucket_heads: BucketHeads,
    ghost indexed: { IsIndexed orders bucket_heads },
}

/// Removes a number from the chain of its hash.
#[inline(always)]
fn unchain(orders: &mut Deques, bucket_heads: &mut BucketHeads, number: RowId)
    requires stands { Stands orders.old number }
    requires indexed { IsIndexed orders.old bucket_heads.old }
    ensures preserves { PreservesDeques orders.old orders.new }
    ensures hash { (k : ℕ) → hash_in orders.new k ≡ hash_in orders.old k }
    ensures linked { (h : ℕ) → IsChain (same_in orders.new)
        (first_in bucket_heads.new h) (without number (chain_in orders.old bucket_heads.old h)) }
    ensures room { spare bucket_heads.old ≤ spare bucket_heads.new }
{
    let hash = orders.hash(number);
    let same = orders.chain_link(number);
    let Some((place, first)) = find_bucket(bucket_heads, hash) else {
        unreachable!()
    };
    if first != number {
        let before = orders.predecessor(first, number);
        orders.set_same(before, hash, same);
    } else if same < 2 {
        drop_first(bucket_heads, place, hash, first);
    } else {
        change_first(bucket_heads, place, hash, first, same);
    }
}

impl RowIndex {
    ghost use Rattle.moka_index.specs.RowIndex.{admitted_of, waiting_of, IsLinked, hash_at};
    ghost use Rattle.moka_index.specs.RowIndex.{first_at, same_at};
    ghost use Rattle.moka_index.specs.RowIndex.{places_of, spare_of, hashes_of, PreservesRoom};
    ghost use Rattle.moka_index.specs.BucketHeads.{twice_of};

    /// Creates links without numbers. Does not allocate.
    pub fn new(alloc: Global) -> Self
        ensures admitted { admitted_of result ≡ [] }
        ensures waiting { waiting_of result ≡ [] }
    {
        RowIndex {
            orders: Deques::new(alloc),
            bucket_heads: IndexMap::with_hasher(alloc, BuildHasherDefault::new()),
        }
    }

    /// Returns how many numbers are resident.
    #[inline(always)]
    pub fn admitted_len(&self) -> usize
        ensures { result ≡ length (admitted_of self.now) }
    {
        self.orders.lens().0
    }

    /// Returns how many numbers are pending.
    #[inline(always)]
    pub fn waiting_len(&self) -> usize
        ensures { result ≡ length (waiting_of self.now) }
    {
        self.orders.lens().1
    }

    /// Returns the least recently used resident number, if there is one.
    #[inline(always)]
    pub fn first_admitted(&self) -> Option<RowId>
        ensures { result ≡ first_of (admitted_of self.now) }
    {
        self.orders.first(Queue::Admitted)
    }

    /// Returns the number that has been pending longest, if there is one.
    #[inline(always)]
    pub fn first_waiting(&self) -> Option<RowId>
        ensures { result ≡ first_of (waiting_of self.now) }
    {
        self.orders.first(Queue::Waiting)
    }

    /// Returns the next number in the order of this one, if there is one.
    #[inline(always)]
    pub fn next(&self, number: RowId) -> Option<RowId>
        requires { IsLinked self.now number }
        ensures admitted { IsAmong number (admitted_of self.now)
            → result ≡ number_behind number (admitted_of self.now) }
        ensures waiting { IsAmong number (waiting_of self.now)
            → result ≡ number_behind number (waiting_of self.now) }
    {
        self.orders.next(number)
    }

    /// Returns whether a number is resident.
    #[inline(always)]
    pub fn is_admitted(&self, number: RowId) -> bool
        requires { IsLinked self.now number }
        ensures admitted { IsAmong number (admitted_of self.now) → result ≡ true }
        ensures waiting { IsAmong number (waiting_of self.now) → result ≡ false }
    {
        self.orders.is_admitted(number)
    }

    /// Returns the hash of a number.
    #[inline(always)]
    pub fn hash(&self, number: RowId) -> u64
        requires { IsLinked self.now number }
        ensures { result ≡ hash_at self.now number }
    {
        self.orders.hash(number)
    }

    /// Returns the first number of a hash, if it has one.
    #[inline(always)]
    pub fn first(&self, hash: u64) -> Option<RowId>
        ensures { result ≡ first_at self.now hash }
    {
        bucket_heads::first(&self.bucket_heads, hash)
    }

    /// Returns the next number with the same hash, if there is one.
    #[inline(always)]
    pub fn next_in_chain(&self, number: RowId) -> Option<RowId>
        requires { IsLinked self.now number }
        ensures { result ≡ same_at self.now number }
    {
        self.orders.next_in_chain(number)
    }

    /// Makes places for all numbers below `places`, and room for the hashes of `more` more numbers.
    /// The orders and the hashes stay as they were, also if it fails.
    ///
    /// With new places it makes room for twice as many hashes as there are places. So the index finds
    /// room again without an allocation, as long as there are no more places.
    ///
    /// # Errors
    ///
    /// - `AllocError`: an allocation failed, or `places` has more than 32 bits.
    pub fn reserve(&mut self, places: usize, more: usize) -> Result<(), AllocError>
        ensures made { OnOk result (places ≤ places_of self.new) }
        ensures spare { OnOk result (more ≤ spare_of self.new) }
        ensures twice { OnOk result (places_of self.old < places
            → twice_of places ≤ hashes_of self.new + spare_of self.new) }
        ensures admitted { admitted_of self.new ≡ admitted_of self.old }
        ensures waiting { waiting_of self.new ≡ waiting_of self.old }
        ensures preserves { PreservesRoom self.old self.new }
    {
        reserve_twice(&mut self.bucket_heads, self.orders.places(), places)?;
        self.orders.reserve(places)?;
        self.bucket_heads.reserve(more)
    }

    /// Returns for how many places there is room, and for how many more hashes.
    pub fn room(&self) -> (usize, usize)
        ensures places { result.0 ≤ places_of self.now }
        ensures spare { result.1 ≤ spare_of self.now }
    {
        let spare = self.bucket_heads.capacity() - self.bucket_heads.len();
        (self.orders.places(), spare)
    }

    /// Appends a new number to the pending ones, and puts it before all others with its hash. Does
    /// not allocate, and uses the room of at most one hash.
    #[inline(always)]
    pub fn add(&mut self, number: RowId, hash: u64)
        requires above { 2 ≤ number }
        requires within { number < places_of self.old }
        requires room { 0 < spare_of self.old }
        requires absent { IsLinked self.old number → ⊥ }
        ensures admitted { admitted_of self.new ≡ admitted_of self.old }
        ensures waiting { waiting_of self.new ≡ waiting_of self.old ++ number ∷ [] }
        ensures hashed { hash_at self.new number ≡ hash }
        ensures others { (k : ℕ) → k ≢ number → hash_at self.new k ≡ hash_at self.old k }
        ensures places { places_of self.new ≡ places_of self.old }
        ensures spare { spare_of self.old ≤ spare_of self.new + 1 }
    {
        let same = put_first(&mut self.bucket_heads, hash, number);
        self.orders.set_same(number, hash, same);
        self.orders.push_back(number, Queue::Waiting);
    }

    /// Appends a number to the resident ones, after removing it from its order.
    #[inline(always)]
    pub fn admit(&mut self, number: RowId)
        requires { IsLinked self.old number }
        ensures admitted { admitted_of self.new
            ≡ without number (admitted_of self.old) ++ number ∷ [] }
        ensures waiting { waiting_of self.new ≡ without number (waiting_of self.old) }
        ensures preserves { PreservesRoom self.old self.new }
    {
        self.orders.unlink(number);
        self.orders.push_back(number, Queue::Admitted);
    }

    /// Moves a resident number after all other resident ones; a pending one keeps its place.
    /// Returns whether the number is resident.
    ///
    /// No link changes if the number is the last already.
    #[inline(always)]
    pub fn touch(&mut self, number: RowId) -> bool
        requires { IsLinked self.old number }
        ensures admitted { IsAmong number (admitted_of self.old) → (result ≡ true)
            × (admitted_of self.new ≡ without number (admitted_of self.old) ++ number ∷ []) }
        ensures waits { IsAmong number (waiting_of self.old) → (result ≡ false)
            × (admitted_of self.new ≡ admitted_of self.old) }
        ensures waiting { waiting_of self.new ≡ waiting_of self.old }
        ensures preserves { PreservesRoom self.old self.new }
    {
        let is_admitted = self.is_admitted(number);
        if is_admitted && self.next(number).is_some() {
            self.move_last(number);
        }
        is_admitted
    }

    // Moves a resident number after all other resident ones.
    #[inline(always)]
    fn move_last(&mut self, number: RowId)
        requires { IsAmong number (admitted_of self.old) }
        ensures admitted { admitted_of self.new
            ≡ without number (admitted_of self.old) ++ number ∷ [] }
        ensures waiting { waiting_of self.new ≡ without number (waiting_of self.old) }
        ensures preserves { PreservesRoom self.old self.new }
    {
        self.orders.move_last(number);
    }

    /// Removes a number from its order and from the chain of its hash. Returns whether it was
    /// resident.
    #[inline(always)]
    pub fn remove(&mut self, number: RowId) -> bool
        requires { IsLinked self.old number }
        ensures was_admitted { IsAmong number (admitted_of self.old) → result ≡ true }
        ensures was_waiting { IsAmong number (waiting_of self.old) → result ≡ false }
        ensures admitted { admitted_of self.new ≡ without number (admitted_of self.old) }
        ensures waiting { waiting_of self.new ≡ without number (waiting_of self.old) }
        ensures preserves { PreservesRoom self.old self.new }
    {
        unchain(&mut self.orders, &mut self.bucket_heads, number);
        let was_admitted = self.orders.unlink(number);
        was_admitted
    }
}
