//! The caches that are measured, behind one trait.
ghost use Rattle.std.specs.Prelude.{◌≡◌, true, refl};
ghost use Rattle.std.proofs.Math.Path.{◌∙◌};
ghost use Rattle.moka_bench.specs.OwnLives.{same_lives};

use crate::load::{Call, Life, Load};
use crate::own_lives::SameLives;
use moka::ops::compute::Op;
use moka::policy::{
    CacheTypes, EvictionPolicy, FrequencySource, ManualClock, NoListener, NoWeigher, Predicate,
};
use moka::state::{ExpiringRows, Reply, RowStore, Settings, State, Step};
use moka::sync::value_initializer::Kind as Turning;
use std::alloc::{AllocError, Global};
use std::convert::Infallible;
use std::hash::{BuildHasher, BuildHasherDefault, FoldHasher};
use std::sync::Arc;
use std::time::Duration;

/// A cache of numbers that is measured. Each call of a load has its own moment.
pub(crate) trait Subject: Drop {
    /// Looks a key up. Returns whether it was found.
    fn look_up(&mut self, key: u64, now: u64) -> Result<bool, AllocError>;

    /// Inserts a key.
    fn insert(&mut self, key: u64, now: u64) -> Result<(), AllocError>;

    /// Runs the maintenance that the writes so far left to do, if a cache has any.
    fn settle(&mut self, _now: u64) {}

    /// Opens so many turns of keys that no load has, if a cache has turns.
    fn open(&mut self, _turns: u64) -> Result<(), AllocError> {
        Ok(())
    }

    /// Makes this call about a key, or about all keys. A cache without such calls looks the key up,
    /// and inserts it if it is not found.
    fn call(&mut self, _call: Call, key: u64, now: u64) -> Result<(), AllocError> {
        if !self.look_up(key, now)? {
            self.insert(key, now)?;
        }
        Ok(())
    }
}

/// A cache that a measurement creates anew.
pub(crate) trait Create<W>: Subject {
    /// Creates an empty cache with the capacity of a load, and with this policy if it has one.
    /// `waits` waits for its lock.
    fn create(
        alloc: Global,
        load: &Load,
        policy: EvictionPolicy,
        waits: W,
    ) -> Result<Self, AllocError>;
}

/// Holds of each value.
#[derive(Drop)]
pub(crate) struct Everything;

impl Predicate<u64, u64> for Everything {
    ghost tests = { λ _ test. test ≡ (λ _ _. true) };

    fn holds(&self, _key: &u64, _value: &u64) -> bool {
        true
    }
}

/// The kit's fast hasher.
pub(crate) type Fold = BuildHasherDefault<FoldHasher>;

/// The types of a measured cache: its hasher and its frequency source.
pub(crate) struct Types<H, F>(H, F);

impl<H: BuildHasher + Drop, F: FrequencySource> CacheTypes<u64, u64> for Types<H, F> {
    type Hasher = H;

    type Weigher = NoWeigher;

    type Expiry = SameLives;

    type Predicate = Everything;

    type Frequency = F;

    type Listener = NoListener;

    type Clock = ManualClock;

    type Error = Infallible;

    ghost weight = { λ _ _ _. 1 };

    ghost equal_keys_weigh = { λ _ _ _ _ _. refl };

    ghost lifetimes = { λ given. same_lives given.nanos };

    ghost test = { λ _ _ _. true };

    ghost keeps = { λ _ _. Unit {0} };

    ghost equal_keys_keep = { λ _ _ _ _ _. tt };

    ghost copies_keep = { λ _ _ _ _ _. tt };

    ghost copies_compose = { λ _ _ _ a b. b ∙ a };
}

/// A cache of this library. Its calls are written over any row store, since a call over the store
/// itself is slow to prove.
#[derive(Drop)]
pub(crate) struct OurRows<H: BuildHasher + Drop, F: FrequencySource, R: RowStore<u64, u64>> {
    alloc: Global,
    cache: State<u64, u64, Types<H, F>, R>,
}

/// The same over the store of a `CacheState`.
pub(crate) type Ours<H, F> = OurRows<H, F, ExpiringRows<u64, u64>>;

impl<H: BuildHasher + Drop, F: FrequencySource, R: RowStore<u64, u64>> OurRows<H, F, R> {
    fn drop_notices(&mut self) {
        for _ in 0..self.cache.notice_count() {
            self.cache.take_notice();
        }
    }

    /// Opens the turn of a key.
    fn open_turn(&mut self, key: u64) -> Result<(), AllocError> {
        let step = Step::Begin {
            key: Arc::new(self.alloc, key)?,
            kind: Turning::With,
            replace: None,
            now: 0,
        };
        match self.cache.step(step) {
            Reply::Run(_, _) => Ok(()),
            _ => Err(AllocError),
        }
    }

    fn get_and_insert(&mut self, key: u64, now: u64) -> bool {
        self.cache.get(&key, now).is_ok() && self.cache.insert(key, key, now).is_ok()
    }

    fn upsert_with(&mut self, key: u64, now: u64) -> bool {
        let selector = self.cache.entry(key, now);
        selector.and_upsert_with(move |_| key).is_ok()
    }

    fn compute_with(&mut self, key: u64, now: u64) -> bool {
        let selector = self.cache.entry(key, now);
        selector.and_compute_with(move |_| Op::Put(key)).is_ok()
    }

    fn invalidate_all(&mut self) -> bool {
        self.cache.invalidate_all();
        true
    }

    fn invalidate_if(&mut self) -> bool {
        match Arc::new(self.alloc, Everything) {
            Ok(predicate) => self
                .cache
                .invalidate_entries_with_arc_fun(predicate)
                .is_ok(),
            Err(_) => false,
        }
    }

    /// Invalidates all entries, and runs the maintenance behind it.
    fn clear(&mut self, now: u64) -> bool {
        self.cache.invalidate_all();
        self.cache.run_pending_tasks(now);
        true
    }

    /// Iterates over all pairs.
    fn walk(&mut self, now: u64) -> bool {
        let Ok(keys) = self.cache.scan_keys() else {
            return false;
        };
        for key in keys {
            if self.cache.scan_get(&*key, now).is_err() {
                return false;
            }
        }
        true
    }
}

impl<H: BuildHasher + Default + Drop, F: FrequencySource, R: RowStore<u64, u64>, W: Drop> Create<W>
    for OurRows<H, F, R> {
    fn create(
        alloc: Global,
        load: &Load,
        eviction_policy: EvictionPolicy,
        _waits: W,
    ) -> Result<Self, AllocError> {
        let (mut time_to_live, mut time_to_idle, mut expiry) = (None, None, None);
        match load.life {
            Life::Endless => {}
            Life::ToLive(calls) => time_to_live = Some(Duration::from_nanos(calls)),
            Life::ToIdle(calls) => time_to_idle = Some(Duration::from_nanos(calls)),
            Life::Own(nanos) => expiry = Some(Arc::new(alloc, SameLives { nanos })?),
        }
        let settings = Settings {
            name: None,
            initial_capacity: load.initial_capacity,
            time_to_live,
            time_to_idle,
            max_capacity: Some(u64::from(load.room())),
            eviction_policy,
            weigher: None,
            expiry,
            closures: true,
            flush_limit: load.checked_flush_limit(),
            first_number: 0,
            hasher: Arc::new(alloc, H::default())?,
        };
        match State::new(alloc, settings) {
            Ok(cache) => Ok(OurRows { alloc, cache }),
            Err(_) => Err(AllocError),
        }
    }
}

impl<H: BuildHasher + Default + Drop, F: FrequencySource, R: RowStore<u64, u64>> Subject
    for OurRows<H, F, R> {
    fn look_up(&mut self, key: u64, now: u64) -> Result<bool, AllocError> {
        match self.cache.get(&key, now) {
            Ok(found) => Ok(found.is_some()),
            Err(_) => Err(AllocError),
        }
    }

    fn insert(&mut self, key: u64, now: u64) -> Result<(), AllocError> {
        if self.cache.insert(key, key, now).is_err() {
            return Err(AllocError);
        }
        self.drop_notices();
        Ok(())
    }

    fn settle(&mut self, now: u64) {
        self.cache.run_pending_tasks(now);
    }

    fn open(&mut self, turns: u64) -> Result<(), AllocError> {
        for turn in 0..turns {
            self.open_turn(u64::MAX - turn)?;
        }
        Ok(())
    }

    fn call(&mut self, call: Call, key: u64, now: u64) -> Result<(), AllocError> {
        let is_done = match call {
            Call::GetWith => self.cache.get_with(key, || key, now).is_ok(),
            Call::OrInsert => self.cache.entry(key, now).or_insert(key).is_ok(),
            Call::GetAndInsert => self.get_and_insert(key, now),
            Call::UpsertWith => self.upsert_with(key, now),
            Call::ComputeWith => self.compute_with(key, now),
            Call::Invalidate => {
                self.cache.invalidate(&key, now);
                true
            }
            Call::Remove => self.cache.remove(&key, now).is_ok(),
            Call::InvalidateAll => self.invalidate_all(),
            Call::InvalidateIf => self.invalidate_if(),
            Call::Clear => self.clear(now),
            Call::Walk => self.walk(now),
        };
        self.drop_notices();
        if is_done { Ok(()) } else { Err(AllocError) }
    }
}

/// No cache: a lookup finds its key, and an insert does nothing.
#[derive(Drop)]
pub(crate) struct Nothing;

impl<W: Drop> Create<W> for Nothing {
    fn create(
        _alloc: Global,
        _load: &Load,
        _policy: EvictionPolicy,
        _waits: W,
    ) -> Result<Self, AllocError> {
        Ok(Nothing)
    }
}

impl Subject for Nothing {
    fn look_up(&mut self, _key: u64, _now: u64) -> Result<bool, AllocError> {
        Ok(true)
    }

    fn insert(&mut self, _key: u64, _now: u64) -> Result<(), AllocError> {
        Ok(())
    }
}
