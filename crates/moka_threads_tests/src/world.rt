//! The caches under test, what the threads of a scene share beside them, and scenes.

use crate::beside::{Busy, STORED};
use crate::calls::{Call, Given, Shown};
use crate::items::{
    Key, Marks, NumberHasher, SCARCE, Types, Value, Watch, inside_until_done, mark, reaches, so_far,
};
use crate::waiting::{End, Plan};
use moka::policy::{EvictionPolicy, Refused};
use moka::sync::builder::Single;
use moka::sync::{Cache, CacheBuilder, SegmentedCache};
use std::alloc::{AllocError, Global};
use std::process::Abort;
use std::rt::Clock;
use std::sync::atomic::{AtomicU64, Ordering};
use std::sync::{Arc, Wait};
use std::test::Fail;
use std::thread;
use std::thread::Threads;
use std::time::Duration;

/// What the runtime of a test has.
pub(crate) trait Whole: Wait + Clock + Threads + Abort + Copy + Drop + Send + Sync {}

impl<R: Wait + Clock + Threads + Abort + Copy + Drop + Send + Sync> Whole for R {}

/// A shared cache with one lock.
pub(crate) type OneLock<W> = Cache<Key<W>, Value<W>, Types<W>, W>;

/// A cache with one lock, or with four segments, which the two highest bits of a key choose.
#[derive(Drop)]
pub(crate) enum Any<W: Wait + Clock + Copy + Drop> {
    One(OneLock<W>),
    Four(SegmentedCache<Key<W>, Value<W>, Types<W>, W>),
}

/// Makes a call that both caches have.
macro_rules! both {
    ($any:expr, $cache:ident => $call:expr) => {
        match $any {
            Any::One($cache) => $call,
            Any::Four($cache) => $call,
        }
    };
}

pub(crate) use both;

/// A number of locks, and the key that a scene is about.
pub(crate) type Place = (usize, u64);

pub(crate) const BOTH: [usize; 2] = [1, 4];

pub(crate) const PLAIN: Mode = Mode::Capacity(100);

/// The first keys of the other segments.
pub(crate) const SECOND: u64 = 1 << 62;

pub(crate) const THIRD: u64 = 1 << 63;

pub(crate) const FOURTH: u64 = THIRD | SECOND;

/// What a cache has beside a capacity of 100 and a time to live of one second.
#[derive(Clone, Copy, Debug)]
pub(crate) enum Mode {
    Capacity(u64),
    /// The closures of its calls wait until another thread is done.
    Waits,
    /// The slow listener, and this first sequence number.
    Listens(u64),
}

/// What the last thread of a scene is given, and how many closures are counted.
pub(crate) type Wanted = (Given, u64);

/// What the threads of a scene do with a cache.
#[derive(Clone, Copy, Debug)]
pub(crate) enum Scene {
    /// One looks a key up while the other is busy.
    Answers(Busy),
    /// One makes a call that fails while the other is in the listener.
    LeavesNotice(Call),
    /// One makes a call, whose key is live, if so. It is given how often that reads the clock.
    Reads(Call, bool),
    /// One iterates while the other writes.
    Walks,
    /// One loads a key of which the other has the turn.
    Waits(Call, End),
    /// Four load or count.
    WorksTogether(Call),
    /// Many load a key, and most of their turns are abandoned.
    GivesUp(Plan),
}

#[derive(Drop)]
pub(crate) struct World<W: Wait + Clock + Copy + Drop> {
    pub cache: Any<W>,
    pub mode: Mode,
    pub scene: Scene,
    pub number: u64,
    pub marks: Arc<Marks>,
    pub alloc: Global,
    pub rt: W,
}

type Builder<W> = CacheBuilder<Key<W>, Value<W>, Types<W>, Single>;

fn builder<W: Whole>(rt: W, mode: Mode, marks: &Arc<Marks>) -> Result<Builder<W>, AllocError> {
    let capacity = match mode {
        Mode::Capacity(capacity) => capacity,
        _ => 100,
    };
    let builder: Builder<W> = CacheBuilder::new(capacity)
        .eviction_policy(EvictionPolicy::lru())
        .time_to_live(Duration::from_secs(1))
        .support_invalidation_closures();
    if let Mode::Listens(first) = mode {
        let marks = marks.clone()?;
        let builder = builder.first_number(first);
        return Ok(builder.eviction_listener(Watch { marks, rt }));
    }
    Ok(builder)
}

fn build<W: Whole>(
    rt: W,
    alloc: Global,
    (locks, mode): (usize, Mode),
    marks: &Arc<Marks>,
) -> Result<Any<W>, Fail> {
    let (clock, builder) = (marks.clone()?, builder(rt, mode, marks)?);
    let hasher = NumberHasher::default();
    if locks == 1 {
        return Ok(Any::One(builder.build_with_hasher(alloc, hasher, clock, rt)?));
    }
    let builder = builder.segments(locks)?;
    Ok(Any::Four(builder.build_with_hasher(alloc, hasher, clock, rt)?))
}

/// Builds a cache at moment 0, and plays a scene on it.
pub(crate) fn play<W: Whole>(
    rt: W,
    alloc: Global,
    (locks, number): Place,
    mode: Mode,
    (scene, wanted): (Scene, Wanted),
) -> Result<(), Fail> {
    let mut given = vec![in alloc; Ok(0); scene.threads()]?;
    let marks = Arc::new(alloc, Marks::default())?;
    let cache = build(rt, alloc, (locks, mode), &marks)?;
    let world = World {
        cache,
        mode,
        scene,
        number,
        marks,
        alloc,
        rt,
    };
    let prepared = world.prepares();
    act_all(&rt, given.as_mut_slice(), &world);
    world.checks(prepared, given.as_slice(), wanted);
    Ok(())
}

/// What threads do at once.
pub(crate) trait Acts {
    /// Does what one thread does.
    fn act(&self, thread: usize) -> Given;
}

/// Does what each thread does, each in a thread of its own. The world is a bare parameter: the kit's
/// borrow checker gives no proof of one whose parts are known.
fn act_all<R: Threads + Sync, A: Acts + Sync>(rt: &R, given: &mut [Given], world: &A) {
    let threads = given.len().max(1);
    let acts = move |thread: usize, slot: &mut Given| *slot = world.act(thread);
    thread::for_each_mut(rt, given, threads, &acts);
}

impl Scene {
    fn threads(self) -> usize {
        match self {
            Scene::Reads(..) => 1,
            Scene::WorksTogether(_) => 4,
            Scene::GivesUp(plan) => plan.loaders().wrapping_add(1) as usize,
            _ => 2,
        }
    }
}

impl<W: Whole> Acts for World<W> {
    fn act(&self, thread: usize) -> Given {
        let (number, marks) = (self.number, &*self.marks);
        match (self.scene, thread) {
            (Scene::Answers(busy), 0) => self.is_busy(busy),
            (Scene::Answers(_), _) => self.makes_once(&marks.inside, number, 0, Call::Get),
            (Scene::LeavesNotice(_), 0) => self.make(1, Value::new(11), Call::Tasks),
            (Scene::LeavesNotice(call), _) => self.makes_once(&marks.inside, 3, 30, call),
            (Scene::Reads(call, _), _) => self.counts_readings(call),
            (Scene::Walks, 0) => self.make(1, Value::new(11), Call::Walk),
            (Scene::Walks, _) => self.writes(),
            (Scene::Waits(call, end), 0) => self.ends(call, end),
            (Scene::Waits(call, _), _) => self.makes_once(&marks.started, number, 12, call),
            (Scene::WorksTogether(call), _) => self.works(call),
            (Scene::GivesUp(plan), thread) => self.takes_part(thread, plan),
        }
    }
}

impl<W: Whole> World<W> {
    pub(crate) fn readings(&self) -> u64 {
        so_far(&self.marks.readings)
    }

    /// Waits until the clock was read so often. Returns whether it was.
    pub(crate) fn reads(&self, wanted: u64) -> bool {
        reaches(&self.rt, &self.marks.readings, wanted)
    }

    pub(crate) fn shared_key(&self, number: u64) -> Result<Arc<Key<W>>, Refused> {
        match Arc::new(self.alloc, Key::new(number)) {
            Ok(key) => Ok(key),
            Err(_) => Err(Refused::OutOfMemory),
        }
    }
}

impl<W: Whole> World<W> {
    /// Stores what a scene finds.
    fn prepares(&self) -> Given {
        match self.scene {
            Scene::Answers(Busy::Calls(call)) => {
                self.puts_ten(1, call)?;
                self.put(self.number, 20)
            }
            Scene::LeavesNotice(call) => {
                self.put(2, 20)?;
                self.puts_ten(1, call)
            }
            Scene::Walks => {
                for key in STORED {
                    self.put(key, 10)?;
                }
                Ok(0)
            }
            Scene::Waits(call, _) => self.puts_ten(self.number, call),
            Scene::GivesUp(plan) => self.puts_ten(self.number, plan.call),
            Scene::Reads(_, true) => self.put(1, 11),
            _ => Ok(0),
        }
    }

    /// Inserts the value 10, which expires before a call unless that is to replace it.
    fn puts_ten(&self, number: u64, call: Call) -> Given {
        let given = self.put(number, 10);
        if !matches!(call, Call::WithIf) {
            self.marks.moment.store(1_000_000_000, Ordering::SeqCst);
        }
        given
    }

    /// Makes a call once a thread is counted, and says that it is done. Meanwhile one thread at most
    /// runs without a lock: a listener hears of no second notice.
    fn makes_once(&self, count: &AtomicU64, number: u64, value: u64, call: Call) -> Given {
        reaches(&self.rt, count, 1);
        let given = self.make(number, Value::new(value), call);
        assert!(&self.rt; so_far(&self.marks.inside) <= 1, "{call:?}");
        mark(&self.marks.done);
        given
    }

    /// Checks what the threads were given, how many closures were counted, and that what ran beside
    /// another thread saw it go on.
    fn checks(&self, prepared: Given, given: &[Given], wanted: Wanted) {
        let (rt, scene) = (&self.rt, self.scene);
        let (inside, asks) = (so_far(&self.marks.inside), so_far(&self.marks.asks));
        let in_time = so_far(&self.marks.in_time);
        assert_eq!(rt; prepared, Ok(0), "{scene:?}");
        assert_eq!(rt; in_time, inside, "the lock was free: {scene:?}");
        if let Scene::GivesUp(plan) = scene {
            return self.gave_up(plan, given);
        }
        let has_run = match scene {
            Scene::Answers(_) => inside > 0,
            Scene::LeavesNotice(_) => inside == 2,
            _ => inside == 0,
        };
        let (first, last) = match (scene, given) {
            (Scene::WorksTogether(_), _) => (Ok(0), self.look(self.number)),
            (_, [one]) => (Ok(0), *one),
            (_, [first, last]) => (*first, *last),
            _ => (Err(Refused::UnknownTurn), Ok(0)),
        };
        assert!(rt; first.is_ok() && has_run, "{first:?}, {inside}: {scene:?}");
        assert_eq!(rt; (last, asks), wanted, "{scene:?}");
    }

    /// Is the body of each initializer, and of each compute but one that counts.
    pub(crate) fn init(&self, value: Value<W>) -> Value<W> {
        if let Mode::Waits = self.mode {
            inside_until_done(&self.rt, &self.marks);
        }
        match self.scene {
            Scene::GivesUp(plan) => return self.value_of_closure(plan),
            Scene::Waits(call, _) if value.number == SCARCE => self.sees_the_other_wait(call),
            Scene::Waits(..) => mark(&self.marks.asks),
            Scene::WorksTogether(_) => {
                mark(&self.marks.asks);
                self.reads(4);
            }
            _ => {}
        }
        value
    }

    /// Is the body of an initializer that may fail.
    pub(crate) fn tries(&self, value: Value<W>) -> Result<Value<W>, u64> {
        let value = self.init(value);
        match self.scene {
            Scene::Waits(..) => Err(5),
            _ => Ok(value),
        }
    }

    /// Is the body of an upsert. Where threads work together it counts.
    pub(crate) fn upserts(&self, shown: Shown<W>, value: Value<W>) -> Value<W> {
        let Scene::WorksTogether(_) = self.scene else {
            return self.init(value);
        };
        match shown {
            Some(entry) => Value::new(entry.value().number.wrapping_add(1)),
            None => value,
        }
    }

    /// Is the body of a `replace_if`. It turns down the value 10.
    pub(crate) fn judges(&self, live: &Value<W>) -> bool {
        if let Mode::Waits = self.mode {
            inside_until_done(&self.rt, &self.marks);
        }
        live.number == 10
    }
}
