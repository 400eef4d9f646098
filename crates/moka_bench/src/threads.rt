//! Measures one load on what threads share.
use crate::initializer::Initializer;
use crate::load::{Call, Kind, Load, SMALL};
use crate::measure::{Outcome, nanos_since, prepare};
use crate::shared::{Share, Shared, Unshared};
use crate::subject::Create;
use moka::policy::EvictionPolicy;
use std::alloc::{AllocError, Global};
use std::sync::Wait;
use std::thread::Threads;
use std::time::{Clock, Duration, Instant};
use std::{io, thread};

/// Creates a shared cache and runs a load on it. Times the second half, of which each thread runs
/// a part. One thread alone runs the first half, which brings the cache to a steady state.
pub(crate) fn time_threads<S: Share<R> + Sync, R: Wait + Clock + Threads + Copy + Send + Sync>(
    rt: &R,
    alloc: Global,
    threads: usize,
    load: &Load,
    keys: &[u64],
) -> io::Result<Outcome> {
    let mut subject = Unshared::<S>::create(alloc, load, EvictionPolicy::lru(), *rt)?;
    let (before, measured) = keys.split_at(keys.len() / 2);
    prepare(&mut subject, load, before)?;
    time_threads_on(rt, alloc, &subject.cache, threads, load.kind, measured)
}

fn time_threads_on<S: Share<R> + Sync, R: Clock + Threads + Copy + Sync>(
    rt: &R,
    alloc: Global,
    cache: &S,
    threads: usize,
    kind: Kind,
    keys: &[u64],
) -> io::Result<Outcome> {
    let initializer = Initializer::new(Duration::ZERO, *rt);
    let begun = Instant::now(rt)?;
    let found = run_by_threads(rt, alloc, cache, threads, kind, keys, &initializer)?;
    let nanos = nanos_since(rt, begun)?;
    // A value that an initializer computed was not found.
    let hits = found.saturating_sub(initializer.call_count());
    Ok(Outcome { nanos, hits })
}

/// Runs the keys, a part of them in each of the threads. Returns how many were found.
fn run_by_threads<S: Share<R> + Sync, R: Threads + Sync>(
    rt: &R,
    alloc: Global,
    cache: &S,
    threads: usize,
    kind: Kind,
    keys: &[u64],
    initializer: &Initializer<R>,
) -> Result<u64, AllocError> {
    let parts = thread::map_indices(
        rt,
        alloc,
        threads,
        &|index| match part_of(keys, index, threads) {
            Some(part) => found_of(cache, kind, part, initializer),
            None => Ok(0),
        },
    )?;
    let mut found = 0_u64;
    for part in parts {
        found = found.wrapping_add(part?);
    }
    Ok(found)
}

/// Returns the keys that one of so many threads runs.
fn part_of(keys: &[u64], index: usize, threads: usize) -> Option<&[u64]> {
    let len = keys.len().checked_div(threads)?;
    let first = len.wrapping_mul(index);
    keys.get(first..first.wrapping_add(len))
}

/// Runs the keys one after another. Returns how many lookups found their key, or how many loads
/// returned the right value.
fn found_of<S: Share<R>, R>(
    cache: &S,
    kind: Kind,
    keys: &[u64],
    initializer: &Initializer<R>,
) -> Result<u64, AllocError> {
    let mut found = 0_u64;
    for key in keys {
        let is_found = match kind {
            Kind::Known(_) => cache.get_with(*key, initializer)? == *key,
            _ => look_up_or_insert(cache, *key)?,
        };
        if is_found {
            found = found.wrapping_add(1);
        }
    }
    Ok(found)
}

fn look_up_or_insert<S: Shared>(cache: &S, key: u64) -> Result<bool, AllocError> {
    let is_found = cache.look_up(key)?;
    if !is_found {
        cache.insert(key)?;
    }
    Ok(is_found)
}

/// The keys that threads load at once, one each.
const ONE_KEY: [u64; 16] = [7; 16];

/// Returns how many initializers run if sixteen threads load one key at once, whose value takes a
/// millisecond to compute.
pub(crate) fn count_initializers<
    S: Share<R> + Sync,
    R: Wait + Clock + Threads + Copy + Send + Sync,
>(rt: &R, alloc: Global) -> io::Result<u64> {
    let cache = S::create_shared(alloc, &SMALL, *rt)?;
    count_initializers_on(rt, alloc, &cache)
}

fn count_initializers_on<S: Share<R> + Sync, R: Clock + Threads + Copy + Sync>(
    rt: &R,
    alloc: Global,
    cache: &S,
) -> io::Result<u64> {
    let initializer = Initializer::new(Duration::from_millis(1), *rt);
    let kind = Kind::Known(Call::GetWith);
    run_by_threads(
        rt,
        alloc,
        cache,
        ONE_KEY.len(),
        kind,
        &ONE_KEY,
        &initializer,
    )?;
    Ok(initializer.call_count())
}
