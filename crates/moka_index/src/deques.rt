//! Two orders of numbers: the pending ones and the resident ones.
ghost use Rattle.std.specs.Prelude.{◌≡◌, ◌≢◌, ◌⊎◌, ℕ, ◌+◌, ◌<◌, ◌≤◌, ◌^◌};
ghost use Rattle.std.specs.Prelude.{[], ◌∷◌, ◌++◌, true, false, length, OnOk, Some};
ghost use Rattle.moka_index.specs.Paths.{IsAmong, without, first_of, number_behind};
ghost use Rattle.moka_index.specs.Nodes.{row_of};
ghost use Rattle.moka_index.specs.Rings.{order, IsRinged};

use crate::nodes::{
    Node, first, grow, link_before, read, relink, row, set_order, set_same, unlink,
};
use moka_rows::rows::RowId;
use std::alloc::{AllocError, Global};

/// The node that is the end of the resident numbers.
const ADMITTED: RowId = 0;

/// The node that is the end of the pending numbers.
const WAITING: RowId = 1;

/// One of the two orders.
#[derive(Clone, Copy)]
pub enum Queue {
    /// The resident numbers, in access order.
    Admitted,
    /// The pending numbers, in arrival order.
    Waiting,
}

impl Queue {
    ghost use Rattle.moka_index.specs.Deques.{end_of, is_of_admitted};

    /// Returns the node that is the end of the queue.
    #[inline(always)]
    fn end(self) -> RowId
        ensures { result ≡ end_of self }
    {
        match self {
            Queue::Admitted => ADMITTED,
            Queue::Waiting => WAITING,
        }
    }

    /// Returns whether the queue is that of the resident numbers.
    #[inline(always)]
    fn is_of_admitted(self) -> bool
        ensures { result ≡ is_of_admitted self }
    {
        match self {
            Queue::Admitted => true,
            Queue::Waiting => false,
        }
    }
}

/// Two orders of numbers, each a ring of nodes with an end of its own.
#[derive(Drop)]
pub struct Deques {
    nodes: Vec<Node>,
    admitted_len: usize,
    waiting_len: usize,
    ghost ringed: { IsRinged nodes.items
        (order nodes.items 0 admitted_len) (order nodes.items 1 waiting_len) },
}

impl Deques {
    ghost use Rattle.moka_index.specs.Deques.{admitted_in, waiting_in, queue_in, other, Stands};
    ghost use Rattle.moka_index.specs.Deques.{IsUnlinked, hash_in, same_in, places_in, chain_from};
    ghost use Rattle.moka_index.specs.Deques.{EndsFrom, LeadsTo, PreservesHashes, PreservesDeques};

    /// Creates two orders without numbers. Does not allocate.
    pub fn new(alloc: Global) -> Self
        ensures admitted { admitted_in result ≡ [] }
        ensures waiting { waiting_in result ≡ [] }
    {
        Deques {
            nodes: Vec::new(alloc),
            admitted_len: 0,
            waiting_len: 0,
        }
    }

    /// Returns how many numbers are resident, and how many are pending.
    #[inline(always)]
    pub fn lens(&self) -> (usize, usize)
        ensures admitted { result.0 ≡ length (admitted_in self.now) }
        ensures waiting { result.1 ≡ length (waiting_in self.now) }
    {
        (self.admitted_len, self.waiting_len)
    }

    /// Returns the first number of a queue, if there is one.
    #[inline(always)]
    pub fn first(&self, queue: Queue) -> Option<RowId>
        ensures { result ≡ first_of (queue_in self.now queue) }
    {
        first(&self.nodes, queue.end())
    }

    /// Returns the number after one that is in an order, if there is one.
    #[inline(always)]
    pub fn next(&self, number: RowId) -> Option<RowId>
        requires { Stands self.now number }
        ensures admitted { IsAmong number (admitted_in self.now)
            → result ≡ number_behind number (admitted_in self.now) }
        ensures waiting { IsAmong number (waiting_in self.now)
            → result ≡ number_behind number (waiting_in self.now) }
    {
        row(read(&self.nodes, number).next)
    }

    /// Returns the hash of a number.
    #[inline(always)]
    pub fn hash(&self, number: RowId) -> u64
        requires { number < places_in self.now }
        ensures { result ≡ hash_in self.now number }
    {
        read(&self.nodes, number).hash
    }

    /// Returns the next number with the same hash, if there is one.
    #[inline(always)]
    pub fn next_in_chain(&self, number: RowId) -> Option<RowId>
        requires { number < places_in self.now }
        ensures { result ≡ same_in self.now number }
    {
        row(read(&self.nodes, number).same)
    }

    /// Returns the link to the next number with the same hash. It is below 2 if there is none.
    #[inline(always)]
    pub fn chain_link(&self, number: RowId) -> RowId
        requires { number < places_in self.now }
        ensures { row_of result ≡ same_in self.now number }
    {
        let node = read(&self.nodes, number);
        node.same
    }

    /// Returns how many nodes there are.
    #[inline(always)]
    pub fn places(&self) -> usize
        ensures { result ≡ places_in self.now }
    {
        self.nodes.len()
    }

    /// Makes the nodes of all numbers below `places`. The orders and the hashes stay as they were,
    /// also if it fails.
    ///
    /// # Errors
    ///
    /// - `AllocError`: an allocation failed, or `places` has more than 32 bits.
    pub fn reserve(&mut self, places: usize) -> Result<(), AllocError>
        ensures made { OnOk result (places ≤ places_in self.new) }
        ensures admitted { admitted_in self.new ≡ admitted_in self.old }
        ensures waiting { waiting_in self.new ≡ waiting_in self.old }
        ensures same { (k : ℕ) → same_in self.new k ≡ same_in self.old k }
        ensures hash { (k : ℕ) → hash_in self.new k ≡ hash_in self.old k }
        ensures places { places_in self.old ≤ places_in self.new }
    {
        if places > RowId::MAX as usize {
            return Err(AllocError);
        }
        grow(&mut self.nodes, places)
    }

    /// Sets the hash of a number, and the next number with that hash.
    #[inline(always)]
    pub fn set_same(&mut self, number: RowId, hash: u64, same: RowId)
        requires { number < places_in self.old }
        ensures preserves { PreservesDeques self.old self.new }
        ensures changed { same_in self.new number ≡ row_of same }
        ensures hashed { hash_in self.new number ≡ hash }
        ensures others { (k : ℕ) → k ≢ number → same_in self.new k ≡ same_in self.old k }
        ensures others_hashed { (k : ℕ) → k ≢ number → hash_in self.new k ≡ hash_in self.old k }
    {
        set_same(&mut self.nodes, number, hash, same);
    }

    /// Returns whether a number that is in an order is resident.
    #[inline(always)]
    pub fn is_admitted(&self, number: RowId) -> bool
        requires { Stands self.now number }
        ensures admitted { IsAmong number (admitted_in self.now) → result ≡ true }
        ensures waiting { IsAmong number (waiting_in self.now) → result ≡ false }
    {
        read(&self.nodes, number).is_admitted
    }

    /// Returns the number that links to this one in the chain from `first`. This one is not
    /// `first`. Visits the chain up to it.
    #[inline(always)]
    pub fn predecessor(&self, first: RowId, number: RowId) -> RowId
        requires linked { EndsFrom self.now first }
        requires places { (k : ℕ) → IsAmong k (chain_from self.now (Some first))
            → k < places_in self.now }
        requires within { IsAmong number (chain_from self.now (Some first)) }
        requires later { first ≢ number }
        ensures { LeadsTo (chain_from self.now (Some first)) result number }
    {
        let mut at = first;
        let mut next = self.chain_link(at);
        while next != number {
            at = next;
            next = self.chain_link(at);
        }
        at
    }

    /// Removes a number from its order, and returns whether it was resident.
    #[inline(always)]
    pub fn unlink(&mut self, number: RowId) -> bool
        requires { Stands self.old number }
        ensures was_admitted { IsAmong number (admitted_in self.old) → result ≡ true }
        ensures was_waiting { IsAmong number (waiting_in self.old) → result ≡ false }
        ensures admitted { admitted_in self.new ≡ without number (admitted_in self.old) }
        ensures waiting { waiting_in self.new ≡ without number (waiting_in self.old) }
        ensures preserves { PreservesHashes self.old self.new }
    {
        let is_admitted = self.is_admitted(number);
        unlink(&mut self.nodes, number);
        if is_admitted {
            self.admitted_len -= 1;
        } else {
            self.waiting_len -= 1;
        }
        is_admitted
    }

    /// Moves a resident number after all other resident ones.
    #[inline(always)]
    pub fn move_last(&mut self, number: RowId)
        requires { IsAmong number (admitted_in self.old) }
        ensures admitted { admitted_in self.new
            ≡ without number (admitted_in self.old) ++ number ∷ [] }
        ensures waiting { waiting_in self.new ≡ without number (waiting_in self.old) }
        ensures preserves { PreservesHashes self.old self.new }
    {
        relink(&mut self.nodes, number, ADMITTED);
    }

    /// Appends a number that is in no order to a queue.
    #[inline(always)]
    pub fn push_back(&mut self, number: RowId, queue: Queue)
        requires above { 2 ≤ number }
        requires within { number < places_in self.old }
        requires absent { IsUnlinked self.old number }
        ensures pushed { queue_in self.new queue ≡ queue_in self.old queue ++ number ∷ [] }
        ensures other { queue_in self.new (other queue) ≡ queue_in self.old (other queue) }
        ensures preserves { PreservesHashes self.old self.new }
    {
        set_order(&mut self.nodes, number, queue.is_of_admitted());
        link_before(&mut self.nodes, number, queue.end());
        match queue {
            Queue::Admitted => self.admitted_len += 1,
            Queue::Waiting => self.waiting_len += 1,
        }
    }
}
