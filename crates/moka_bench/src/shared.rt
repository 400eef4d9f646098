//! Caches that threads can share: those of this library, and other maps under one lock.
use crate::initializer::Initializer;
use crate::load::Load;
use crate::subject::{Create, Fold, Subject};
use lru::LruCache;
use moka::policy::{EvictionPolicy, ManualClock};
use moka::ready::Plain;
use moka::sync::{Cache, CacheBuilder, SegmentedCache};
use std::alloc::{AllocError, Global};
use std::collections::HashMap;
use std::hash::BuildHasher;
use std::num::NonZeroUsize;
use std::sync::{Mutex, Wait};
use std::time::Clock;

/// A cache of numbers that threads can share.
pub(crate) trait Shared: Drop {
    /// Looks a key up. Returns whether it was found.
    fn look_up(&self, key: u64) -> Result<bool, AllocError>;

    /// Inserts a key.
    fn insert(&self, key: u64) -> Result<(), AllocError>;
}

/// A shared cache that a measurement creates anew. `W` waits for its lock.
pub(crate) trait Share<W>: Shared {
    /// Creates an empty cache, which evicts the least recently used entry if it has a bound.
    fn create_shared(alloc: Global, load: &Load, waits: W) -> Result<Self, AllocError>;

    /// Returns the value of a key. If it is not found, the initializer computes it, and it is
    /// stored. A cache without loaders inserts a key that it does not find.
    fn get_with(&self, key: u64, _initializer: &Initializer<W>) -> Result<u64, AllocError> {
        if !self.look_up(key)? {
            self.insert(key)?;
        }
        Ok(key)
    }
}

/// A shared cache that one thread uses alone.
#[derive(Drop)]
pub(crate) struct Unshared<S: Drop> {
    /// The cache.
    pub cache: S,
}

impl<S: Share<W>, W> Create<W> for Unshared<S> {
    fn create(
        alloc: Global,
        load: &Load,
        _policy: EvictionPolicy,
        waits: W,
    ) -> Result<Self, AllocError> {
        let cache = S::create_shared(alloc, load, waits)?;
        Ok(Unshared { cache })
    }
}

impl<S: Shared> Subject for Unshared<S> {
    fn look_up(&mut self, key: u64, _now: u64) -> Result<bool, AllocError> {
        self.cache.look_up(key)
    }

    fn insert(&mut self, key: u64, _now: u64) -> Result<(), AllocError> {
        self.cache.insert(key)
    }
}

/// A map without a bound, under one lock.
#[derive(Drop)]
pub(crate) struct LockedMap<W: Drop> {
    map: Mutex<HashMap<u64, u64, Fold>>,
    waits: W,
}

impl<W: Wait + Drop> Shared for LockedMap<W> {
    fn look_up(&self, key: u64) -> Result<bool, AllocError> {
        Ok(self.map.lock(&self.waits).get(&key).is_some())
    }

    fn insert(&self, key: u64) -> Result<(), AllocError> {
        match self.map.lock(&self.waits).insert(key, key) {
            Ok(_) => Ok(()),
            Err(_) => Err(AllocError),
        }
    }
}

impl<W: Wait + Clock + Drop> Share<W> for LockedMap<W> {
    fn create_shared(alloc: Global, _load: &Load, waits: W) -> Result<Self, AllocError> {
        let map = Mutex::new(HashMap::with_hasher(alloc, Fold::default()));
        Ok(LockedMap { map, waits })
    }
}

/// The kit's `lru` under the kit's lock, as a program without this library would use it.
#[derive(Drop)]
pub(crate) struct LockedLru<H: BuildHasher + Drop, W: Drop> {
    cache: Mutex<LruCache<u64, u64, H>>,
    waits: W,
}

impl<H: BuildHasher + Default + Drop, W: Wait + Drop> Shared for LockedLru<H, W> {
    fn look_up(&self, key: u64) -> Result<bool, AllocError> {
        Ok(self.cache.lock(&self.waits).get(&key).is_some())
    }

    fn insert(&self, key: u64) -> Result<(), AllocError> {
        self.cache.lock(&self.waits).put(key, key)?;
        Ok(())
    }
}

impl<H: BuildHasher + Default + Drop, W: Wait + Clock + Drop> Share<W> for LockedLru<H, W> {
    fn create_shared(alloc: Global, load: &Load, waits: W) -> Result<Self, AllocError> {
        let capacity = NonZeroUsize::new(load.room() as usize).ok_or(AllocError)?;
        let cache = Mutex::new(LruCache::with_hasher(alloc, capacity, H::default())?);
        Ok(LockedLru { cache, waits })
    }
}

/// The shared cache with one lock.
#[derive(Drop)]
pub(crate) struct OneLock<W: Drop> {
    cache: Cache<u64, u64, Plain, W>,
}

impl<W: Wait + Clock + Drop> Shared for OneLock<W> {
    fn look_up(&self, key: u64) -> Result<bool, AllocError> {
        match self.cache.get(&key) {
            Ok(found) => Ok(found.is_some()),
            Err(_) => Err(AllocError),
        }
    }

    fn insert(&self, key: u64) -> Result<(), AllocError> {
        match self.cache.insert(key, key) {
            Ok(_) => Ok(()),
            Err(_) => Err(AllocError),
        }
    }
}

impl<W: Wait + Clock + Drop> Share<W> for OneLock<W> {
    fn create_shared(alloc: Global, load: &Load, waits: W) -> Result<Self, AllocError> {
        let builder = CacheBuilder::new(u64::from(load.room()));
        let builder = builder.eviction_policy(EvictionPolicy::lru());
        match builder.build_with_hasher(alloc, Fold::default(), ManualClock::new(0), waits) {
            Ok(cache) => Ok(OneLock { cache }),
            Err(_) => Err(AllocError),
        }
    }

    fn get_with(&self, key: u64, initializer: &Initializer<W>) -> Result<u64, AllocError> {
        match self.cache.get_with(key, || initializer.value_of(key)) {
            Ok(value) => Ok(value),
            Err(_) => Err(AllocError),
        }
    }
}

/// The shared cache with sixteen segments, each with its own lock.
#[derive(Drop)]
pub(crate) struct Segments<W: Drop> {
    cache: SegmentedCache<u64, u64, Plain, W>,
}

impl<W: Wait + Clock + Clone + Drop> Shared for Segments<W> {
    fn look_up(&self, key: u64) -> Result<bool, AllocError> {
        match self.cache.get(&key) {
            Ok(found) => Ok(found.is_some()),
            Err(_) => Err(AllocError),
        }
    }

    fn insert(&self, key: u64) -> Result<(), AllocError> {
        match self.cache.insert(key, key) {
            Ok(_) => Ok(()),
            Err(_) => Err(AllocError),
        }
    }
}

impl<W: Wait + Clock + Clone + Drop> Share<W> for Segments<W> {
    fn create_shared(alloc: Global, load: &Load, waits: W) -> Result<Self, AllocError> {
        let builder = CacheBuilder::new(u64::from(load.room()));
        let Ok(builder) = builder.eviction_policy(EvictionPolicy::lru()).segments(16) else {
            return Err(AllocError);
        };
        match builder.build_with_hasher(alloc, Fold::default(), ManualClock::new(0), waits) {
            Ok(cache) => Ok(Segments { cache }),
            Err(_) => Err(AllocError),
        }
    }

    fn get_with(&self, key: u64, initializer: &Initializer<W>) -> Result<u64, AllocError> {
        match self.cache.get_with(key, || initializer.value_of(key)) {
            Ok(value) => Ok(value),
            Err(_) => Err(AllocError),
        }
    }
}
