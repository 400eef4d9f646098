//! Measures one cache on one load.
use crate::load::{Kind, Load};
use crate::shared::{LockedLru, LockedMap, OneLock, Segments, Unshared};
use crate::subject::{Create, Fold, Nothing, Ours, Subject};
use crate::threads::time_threads;
use moka::policy::{CountTable, EvictionPolicy, FrequencySketch};
use moka::ready::NoFrequency;
use std::alloc::{AllocError, Global};
use std::hash::{BuildHasher, BuildHasherDefault, DefaultHasher};
use std::io;
use std::sync::Wait;
use std::thread::Threads;
use std::time::{Clock, Instant};

/// The cache that is measured.
#[derive(Clone, Copy)]
pub(crate) enum Which {
    /// The kit's `lru`, under one lock.
    Theirs,
    /// A map without a bound, under one lock, with `FoldHasher`.
    Map,
    /// Ours, with LRU.
    Lru,
    /// Ours, with TinyLFU by a table of `2^20` counters.
    Table,
    /// Ours, with TinyLFU by a sketch that has about twice as many counters in a row as entries
    /// fit.
    Sketch,
    /// Ours, shared and under one lock, with LRU and `FoldHasher`.
    OneLock,
    /// The same with sixteen segments, each under a lock.
    Segments,
    /// No cache, to measure the loop by itself.
    Nothing,
}

/// The hasher: SipHash with fixed keys, or the kit's fast one.
#[derive(Clone, Copy)]
pub(crate) enum Hashing {
    Sip,
    Fold,
}

/// SipHash with fixed keys.
type Sip = BuildHasherDefault<DefaultHasher>;

/// The result of a run.
#[derive(Clone, Copy)]
pub(crate) struct Outcome {
    /// The time of the measured calls, in nanoseconds.
    pub nanos: u64,
    /// How many of the measured calls found their key.
    pub hits: u64,
}

/// Creates a cache and runs a load on it, by so many threads, or by no other thread than this.
pub(crate) fn measure_load<R: Wait + Clock + Threads + Copy + Send + Sync>(
    rt: &R,
    alloc: Global,
    which: Which,
    hashing: Hashing,
    threads: usize,
    load: &Load,
    keys: &[u64],
) -> io::Result<Outcome> {
    if threads > 0 {
        return measure_by_threads(rt, alloc, which, threads, load, keys);
    }
    match hashing {
        Hashing::Sip => measure_with_hasher::<Sip, R>(rt, alloc, which, load, keys),
        Hashing::Fold => measure_with_hasher::<Fold, R>(rt, alloc, which, load, keys),
    }
}

/// Does so by threads, on a cache with `FoldHasher`. One that cannot be shared is not measured.
fn measure_by_threads<R: Wait + Clock + Threads + Copy + Send + Sync>(
    rt: &R,
    alloc: Global,
    which: Which,
    threads: usize,
    load: &Load,
    keys: &[u64],
) -> io::Result<Outcome> {
    match which {
        Which::Theirs => time_threads::<LockedLru<Fold, R>, R>(rt, alloc, threads, load, keys),
        Which::Map => time_threads::<LockedMap<R>, R>(rt, alloc, threads, load, keys),
        Which::OneLock => time_threads::<OneLock<R>, R>(rt, alloc, threads, load, keys),
        Which::Segments => time_threads::<Segments<R>, R>(rt, alloc, threads, load, keys),
        _ => Ok(Outcome { nanos: 0, hits: 0 }),
    }
}

fn measure_with_hasher<H: BuildHasher + Default + Drop, R: Wait + Clock + Copy>(
    rt: &R,
    alloc: Global,
    which: Which,
    load: &Load,
    keys: &[u64],
) -> io::Result<Outcome> {
    let (lru, tiny_lfu) = (EvictionPolicy::lru(), EvictionPolicy::tiny_lfu());
    match which {
        Which::Theirs => time_load::<Unshared<LockedLru<H, R>>, R>(rt, alloc, lru, load, keys),
        Which::Map => time_load::<Unshared<LockedMap<R>>, R>(rt, alloc, lru, load, keys),
        Which::OneLock => time_load::<Unshared<OneLock<R>>, R>(rt, alloc, lru, load, keys),
        Which::Segments => time_load::<Unshared<Segments<R>>, R>(rt, alloc, lru, load, keys),
        Which::Lru => time_load::<Ours<H, NoFrequency>, R>(rt, alloc, lru, load, keys),
        Which::Table => time_load::<Ours<H, CountTable<20>>, R>(rt, alloc, tiny_lfu, load, keys),
        Which::Sketch => measure_sketch::<H, R>(rt, alloc, load, keys),
        Which::Nothing => time_load::<Nothing, R>(rt, alloc, lru, load, keys),
    }
}

/// Does so with a sketch of the size that suits the capacity.
fn measure_sketch<H: BuildHasher + Default + Drop, R: Wait + Clock + Copy>(
    rt: &R,
    alloc: Global,
    load: &Load,
    keys: &[u64],
) -> io::Result<Outcome> {
    let policy = EvictionPolicy::tiny_lfu();
    match load.capacity {
        0..=1_000 => time_load::<Ours<H, FrequencySketch<11>>, R>(rt, alloc, policy, load, keys),
        1_001..=10_000 => time_load::<Ours<H, FrequencySketch<14>>, R>(
            rt, alloc, policy, load, keys,
        ),
        10_001..=100_000 => time_load::<Ours<H, FrequencySketch<18>>, R>(
            rt, alloc, policy, load, keys,
        ),
        _ => time_load::<Ours<H, FrequencySketch<20>>, R>(rt, alloc, policy, load, keys),
    }
}

/// Creates a cache, runs a load on it, and times the second half. The first half brings the cache
/// to a steady state.
pub(crate) fn time_load<S: Create<R>, R: Clock + Copy>(
    rt: &R,
    alloc: Global,
    policy: EvictionPolicy,
    load: &Load,
    keys: &[u64],
) -> io::Result<Outcome> {
    let mut subject = S::create(alloc, load, policy, *rt)?;
    time_load_on(rt, &mut subject, load, keys)
}

fn time_load_on<S: Subject>(
    rt: &impl Clock,
    subject: &mut S,
    load: &Load,
    keys: &[u64],
) -> io::Result<Outcome> {
    let (before, measured) = keys.split_at(keys.len() / 2);
    prepare(subject, load, before)?;
    let begun = Instant::now(rt)?;
    let hits = hits_of(subject, load.kind, measured, before.len())?;
    let nanos = nanos_since(rt, begun)?;
    Ok(Outcome { nanos, hits })
}

/// Creates a cache with LRU, and brings it to the state in which a load begins. Times each call of
/// the load, and returns the nanoseconds, sorted.
pub(crate) fn time_each<R: Wait + Clock + Copy>(
    rt: &R,
    alloc: Global,
    hashing: Hashing,
    load: &Load,
    keys: &[u64],
) -> io::Result<Vec<u64>> {
    match hashing {
        Hashing::Sip => time_each_of::<Ours<BuildHasherDefault<DefaultHasher>, NoFrequency>, R>(
            rt, alloc, load, keys,
        ),
        Hashing::Fold => time_each_of::<Ours<Fold, NoFrequency>, R>(rt, alloc, load, keys),
    }
}

fn time_each_of<S: Create<R>, R: Clock + Copy>(
    rt: &R,
    alloc: Global,
    load: &Load,
    keys: &[u64],
) -> io::Result<Vec<u64>> {
    let mut subject = S::create(alloc, load, EvictionPolicy::lru(), *rt)?;
    time_each_on(rt, alloc, &mut subject, load, keys)
}

fn time_each_on<S: Subject>(
    rt: &impl Clock,
    alloc: Global,
    subject: &mut S,
    load: &Load,
    keys: &[u64],
) -> io::Result<Vec<u64>> {
    prepare(subject, load, &[])?;
    let mut nanos = Vec::with_capacity(alloc, keys.len())?;
    for (now, key) in keys.iter().enumerate() {
        let begun = Instant::now(rt)?;
        hits_of(subject, load.kind, &[*key], now)?;
        nanos.push(nanos_since(rt, begun)?)?;
    }
    nanos.sort_unstable();
    Ok(nanos)
}

/// Returns the nanoseconds since a moment.
pub(crate) fn nanos_since(clock: &impl Clock, begun: Instant) -> io::Result<u64> {
    let took = begun.elapsed(clock)?.as_nanos();
    Ok(u64::try_from(took).unwrap_or(u64::MAX))
}

/// Brings a cache to a steady state: inserts the keys of the loads that need them, and runs the
/// first half.
pub(crate) fn prepare<S: Subject>(
    subject: &mut S,
    load: &Load,
    before: &[u64],
) -> Result<(), AllocError> {
    subject.open(load.open_turns)?;
    if !matches!(
        load.kind,
        Kind::Look | Kind::Insert | Kind::Miss | Kind::New(_)
    ) {
        for key in 0..load.capacity {
            subject.insert(u64::from(key), 0)?;
        }
        subject.settle(0);
    }
    if !matches!(load.kind, Kind::Once(_) | Kind::Gone(_)) {
        hits_of(subject, load.kind, before, 0)?;
    }
    Ok(())
}

/// Runs keys of a load, each at its own moment, from `first` on. Returns how many of the lookups
/// found their key.
fn hits_of<S: Subject>(
    subject: &mut S,
    kind: Kind,
    keys: &[u64],
    first: usize,
) -> Result<u64, AllocError> {
    if let Kind::Once(call) = kind {
        subject.call(call, 0, first as u64)?;
        return Ok(0);
    }
    let mut hits = 0_u64;
    for (place, key) in keys.iter().enumerate() {
        if is_hit(subject, kind, *key, first.wrapping_add(place) as u64)? {
            hits = hits.wrapping_add(1);
        }
    }
    Ok(hits)
}

/// Runs a key of a load. Returns whether it was looked up and found.
fn is_hit<S: Subject>(subject: &mut S, kind: Kind, key: u64, now: u64) -> Result<bool, AllocError> {
    if let Kind::Known(call) | Kind::New(call) | Kind::Gone(call) = kind {
        subject.call(call, key, now)?;
        return Ok(false);
    }
    if matches!(kind, Kind::Look | Kind::Hit | Kind::Miss) && subject.look_up(key, now)? {
        return Ok(true);
    }
    if kind != Kind::Hit {
        subject.insert(key, now)?;
    }
    Ok(false)
}
