//! What no file of cases says of a builder and of predicate ids.

use moka::common::builder_utils::BuildError;
use moka::policy::{ManualClock, Policy, Refused};
use moka::ready::{FoldState, Plain, PlainRandom};
use moka::state::InsertRefused;
use moka::sync::builder::Single;
use moka::sync::{Cache, CacheBuilder, SegmentedCache};
use moka_predicate_ids::predicate_id::new_predicate_id;
use rand_core::SeedableRng;
use rand_xoshiro::SplitMix64;
use std::hash::RandomState;
use std::test::Fail;

type Shared = Cache<u64, u64, PlainRandom, HostRuntime>;

type Segments = SegmentedCache<u64, u64, PlainRandom, HostRuntime>;

/// The last of two settings counts.
#[test]
fn the_last_setting_counts(rt: HostRuntime) -> Result<(), Fail> {
    let builder: CacheBuilder<u64, u64, Plain, Single> = CacheBuilder::new(200);
    let builder = builder.max_capacity(300).max_capacity(400);
    let state = builder.build_state(rt.alloc(), FoldState::default())?;
    assert_eq!(rt; state.policy(), Policy::new(Some(400), 1, None, None));
    Ok(())
}

/// A failed insert says that key and value are handed back.
#[test]
fn a_refused_insert_says_what_it_hands_back(rt: HostRuntime) -> Result<(), Fail> {
    let refused = InsertRefused {
        key: 1_u64,
        value: 2_u64,
        cause: Refused::NumbersUsedUp,
    };
    assert_eq!(rt;
        format!(in rt.alloc(); "{refused}")?.as_str(),
        "insert failed (NumbersUsedUp) and changed nothing: key and value are handed back, to try again with \
         more memory, or with another cache if its numbers are used up"
    );
    assert_eq!(rt; Refused::from(refused), Refused::NumbersUsedUp);
    Ok(())
}

/// A cache made by `Cache::new` has the given capacity, and stores values.
#[test]
fn a_new_cache_stores_values(rt: HostRuntime) -> Result<(), Fail> {
    let (keys, clock) = (RandomState::new(&rt)?, ManualClock::new(0));
    let cache: Shared = Cache::new(rt.alloc(), 100, keys, clock, rt)?;
    assert_eq!(rt; cache.policy(), Policy::new(Some(100), 1, None, None));
    assert_eq!(rt; cache.name(), None);
    cache.insert(97, 7)?;
    assert_eq!(rt; cache.get(&97)?, Some(7));
    Ok(())
}

/// A build with random keys fails with `OutOfMemory` where memory is lacking, here for 2^40 entries or
/// for 2^62 segments, and can be repeated. `SegmentedCache::new` takes the next power of two.
#[test]
fn a_build_is_repeated_where_memory_was_refused(rt: HostRuntime) -> Result<(), Fail> {
    let alloc = rt.alloc();
    let refused = Some(BuildError::OutOfMemory);
    for (entries, cause) in [(1 << 40, refused), (100, None)] {
        let (keys, clock) = (RandomState::new(&rt)?, ManualClock::new(0));
        let builder = CacheBuilder::new(100).initial_capacity(entries);
        let built: Result<Shared, BuildError> = builder.build(alloc, keys, clock, rt);
        assert_eq!(rt; built.err(), cause);
        let (keys, clock) = (RandomState::new(&rt)?, ManualClock::new(0));
        let builder = CacheBuilder::new(100)
            .initial_capacity(entries)
            .segments(4)?;
        let built: Result<Segments, BuildError> = builder.build(alloc, keys, clock, rt);
        assert_eq!(rt; built.err(), cause);
    }
    for (segments, cause) in [(1 << 62, refused), (5, None)] {
        let (keys, clock) = (RandomState::new(&rt)?, ManualClock::new(0));
        match Segments::new(alloc, 100, segments, keys, clock, rt) {
            Ok(cache) => assert_eq!(rt; (cache.policy().num_segments(), cause), (8, None)),
            Err(error) => assert_eq!(rt; Some(error), cause),
        }
    }
    Ok(())
}

/// Ids of predicates begin with each hexadecimal digit.
#[test]
fn ids_begin_with_each_digit(rt: HostRuntime) -> Result<(), Fail> {
    let mut generator = SplitMix64::seed_from_u64(7);
    let mut digits = 0_u64;
    for _ in 0..400 {
        let id = new_predicate_id(rt.alloc(), &mut generator)?;
        let digit = id.as_str().chars().next().unwrap_or(' ').to_digit(16);
        digits |= 1_u64.wrapping_shl(digit.unwrap_or(16));
    }
    assert_eq!(rt; digits, 0xffff);
    Ok(())
}
