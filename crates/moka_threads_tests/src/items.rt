//! The keys, the values and the policies of the caches under test, and counts by which the threads of
//! a test wait for each other.
ghost use Rattle.std.specs.Prelude.{◌≡◌, false, nat_eq, refl, true};
ghost use Rattle.moka_model.specs.Lives.{no_lifetimes};
ghost use Rattle.std.proofs.Common.{rules};
ghost use Rattle.std.specs.Cmp.Rules.{comparing, hashing};
ghost use Rattle.std.specs.Ordering.{on};
ghost use Rattle.std.specs.Hash as fed;

use moka::notification::RemovalCause;
use moka::policy::{CacheTypes, CountTable, Listener, NoExpiry, NoWeigher, NumberHash, Predicate};
use std::alloc::AllocError;
use std::hash::{BuildHasherDefault, Hash, Hasher};
use std::marker::PhantomData;
use std::rt::Clock;
use std::sync::Arc;
use std::sync::atomic::{AtomicU64, Ordering};
use std::thread;
use std::time::Duration;

/// Counts that go up, each from 0.
#[derive(Default, Drop)]
pub(crate) struct Marks {
    /// The threads that run without a lock, and those of them that saw that another thread did its
    /// work meanwhile.
    pub inside: AtomicU64,
    pub in_time: AtomicU64,
    /// What others wait for: turns that are open, turns whose end was made, or steps of an iteration.
    pub started: AtomicU64,
    pub ended: AtomicU64,
    /// The threads, or the writes between two steps, that are done.
    pub done: AtomicU64,
    /// The calls of initializers.
    pub asks: AtomicU64,
    /// The key that an iteration came to.
    pub key: AtomicU64,
    /// The moment of the clock, and how often it was read.
    pub moment: AtomicU64,
    pub readings: AtomicU64,
}

pub(crate) fn mark(count: &AtomicU64) {
    count.fetch_add(1, Ordering::SeqCst);
}

pub(crate) fn so_far(count: &AtomicU64) -> u64 {
    count.load(Ordering::SeqCst)
}

/// Waits until a count has reached `wanted`, for about ten seconds at most. Returns whether it has.
pub(crate) fn reaches(rt: &impl Clock, count: &AtomicU64, wanted: u64) -> bool {
    for _ in 0..10_000 {
        if so_far(count) >= wanted {
            return true;
        }
        thread::sleep(rt, Duration::from_millis(1));
    }
    false
}

/// Counts itself as inside, and waits until another thread is done.
pub(crate) fn inside_until_done(rt: &impl Clock, marks: &Marks) {
    mark(&marks.inside);
    if reaches(rt, &marks.done, 1) {
        mark(&marks.in_time);
    }
}

/// When it is dropped, it waits until another thread is done.
pub(crate) struct Watch<W: Clock + Drop> {
    pub marks: Arc<Marks>,
    pub rt: W,
}

impl<W: Clock + Drop> Drop for Watch<W> {
    fn drop(self) {
        inside_until_done(&self.rt, &self.marks);
        let Watch { marks: _, rt: _ } = self;
    }
}

/// A key, which hashes to its number. It may have a watch, which is dropped with it.
#[derive(Drop)]
pub(crate) struct Key<W: Clock + Drop> {
    pub number: u64,
    pub watch: Option<Watch<W>>,
}

impl<W: Clock + Drop> Key<W> {
    /// Creates a key without a watch.
    pub(crate) fn new(number: u64) -> Self {
        let watch = None;
        Key { number, watch }
    }
}

impl<W: Clock + Drop> PartialEq for Key<W> {
    ghost eq = { on (λ key. key.number) nat_eq };

    ghost laws = { Prim.search (comparing, rules) };

    fn eq(&self, other: &Key<W>) -> bool {
        self.number == other.number
    }
}

impl<W: Clock + Drop> Eq for Key<W> {
    ghost laws = { Prim.search (comparing, rules) };
}

impl<W: Clock + Drop> Hash for Key<W> {
    ghost hash_input = { λ key. fed.u64 key.number };

    ghost respects_eq = { Prim.search (hashing, rules) };

    fn hash<H: Hasher>(&self, state: &mut H) {
        self.number.hash(state);
    }
}

impl<W: Clock + Drop> Clone for Key<W> {
    ghost is_clone = { λ key copy. nat_eq key.number copy.number ≡ true };

    fn clone(&self) -> Result<Self, AllocError> {
        let (number, watch) = (self.number, None);
        Ok(Key { number, watch })
    }
}

/// The number of a value of which no clone can be made, as if no memory were left.
pub(crate) const SCARCE: u64 = u64::MAX;

/// A value. It may have a watch, which is dropped with it.
#[derive(Drop)]
pub(crate) struct Value<W: Clock + Drop> {
    pub number: u64,
    pub watch: Option<Watch<W>>,
}

impl<W: Clock + Drop> Value<W> {
    /// Creates a value without a watch.
    pub(crate) fn new(number: u64) -> Self {
        let watch = None;
        Value { number, watch }
    }
}

impl<W: Clock + Drop> Default for Value<W> {
    fn default() -> Self {
        Value::new(0)
    }
}

impl<W: Clock + Copy + Drop> Clone for Value<W> {
    fn clone(&self) -> Result<Self, AllocError> {
        if self.number == SCARCE {
            return Err(AllocError);
        }
        let mut copy = Value::new(self.number);
        if let Some(Watch { marks, rt }) = &self.watch {
            let (marks, rt) = (marks.clone()?, *rt);
            copy.watch = Some(Watch { marks, rt });
        }
        Ok(copy)
    }
}

/// As a predicate it holds of nothing.
impl<W: Clock + Drop> Predicate<Key<W>, Value<W>> for Watch<W> {
    ghost tests = { λ _ test. test ≡ (λ _ _. false) };

    fn holds(&self, _key: &Key<W>, _value: &Value<W>) -> bool {
        false
    }
}

impl<W: Clock + Drop> Listener<Key<W>, Value<W>> for Watch<W> {
    ghost use Rattle.std.specs.Prelude.{⊤};

    ghost hears = { λ _ _ _. ⊤ };

    fn removed(&self, _key: Arc<Key<W>>, _value: Value<W>, _cause: RemovalCause)
        requires { ⊤ }
    {
        inside_until_done(&self.rt, &self.marks);
    }
}

/// As a clock they count its readings, which are made under the lock of a cache. So what has read it for a
/// begin has begun before anybody else gets the lock.
impl moka::policy::Clock for Marks {
    fn now(&self) -> u64 {
        mark(&self.readings);
        so_far(&self.moment)
    }
}

pub(crate) type NumberHasher = BuildHasherDefault<NumberHash>;

/// The types of the caches. The frequency source is small, so that it is made quickly.
pub(crate) struct Types<W>(PhantomData<W>);

impl<W: Clock + Copy + Drop> CacheTypes<Key<W>, Value<W>> for Types<W> {
    type Hasher = NumberHasher;

    type Weigher = NoWeigher;

    type Expiry = NoExpiry;

    type Predicate = Watch<W>;

    type Frequency = CountTable<6>;

    type Listener = Watch<W>;

    type Clock = Arc<Marks>;

    type Error = u64;

    ghost weight = { λ _ _ _. 1 };

    ghost equal_keys_weigh = { λ _ _ _ _ _. refl };

    ghost lifetimes = { λ _. no_lifetimes };

    ghost test = { λ _ _ _. false };

    ghost keeps = { λ _ _. Unit {0} };

    ghost equal_keys_keep = { λ _ _ _ _ _. tt };

    ghost copies_keep = { λ _ _ _ _ _. tt };

    ghost copies_compose = { λ _ _ _ _ _. tt };
}
