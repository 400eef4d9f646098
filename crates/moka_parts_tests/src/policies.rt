//! The types of policies: closures of the caller, each called by the trait by which a cache calls it,
//! the running clock, and what stands where nothing is chosen.
ghost use Rattle.std.specs.Prelude.{◌≡◌, ◌==◌, refl};
ghost use Rattle.moka_parts_tests.specs.Lifetimes.{in_seconds};

use moka_model::notification::RemovalCause;
use moka_policy::policy::{
    Clock, EvictionPolicy, ExpireBy, Expiry, HoldsIf, NoExpiry, NoPredicate, NoWeigher, NumberHash,
    Predicate, WeighBy, Weigher,
};
use moka_presets::clock::RunningClock;
use moka_presets::meant::{Lives, Meant, Tests, Weighs};
use moka_presets::ready::{SteadyExpiry, SteadyPredicate, SteadyWeigher};
use std::hash::Hasher;
use std::process::Abort;
use std::sync::Arc;
use std::sync::atomic::{AtomicU64, Ordering};
use std::test::Fail;
use std::time::Duration;
use std::{io, time};

/// What the closures compute: the value as its weight, whether a value equals this one, and a
/// lifetime of as many seconds as the value.
#[derive(Clone, Copy)]
struct Says(u64);

impl Weighs<u64, u32> for Says {
    ghost weight = { λ _ _ value. value };

    ghost equal_keys_weigh = { λ _ _ _ _ _. refl };
}

impl Tests<u64, u64> for Says {
    ghost test = { λ says _ value. value == says.0 };
}

impl Lives<u64, u64> for Says {
    ghost lifetimes = { λ _. in_seconds };
}

fn weighs<W: SteadyWeigher<u64, u32>>(rt: &impl Abort, weigher: &W, weight: u32)
    requires { W.weighs weigher.now (W.weight weigher.now) }
{
    assert_eq!(rt; weigher.weigh(&1, &7), weight);
}

fn holds<P: SteadyPredicate<u64, u64>>(rt: &impl Abort, predicate: &P, of_three: bool)
    requires { P.tests predicate.now (P.test predicate.now) }
{
    assert_eq!(rt; predicate.holds(&1, &3), of_three);
    assert!(rt; !predicate.holds(&1, &4));
}

/// Checks the lifetimes after a creation, an access and an update. The last two have 3 seconds left.
fn gives<E: SteadyExpiry<u64, u64>>(rt: &impl Abort, expiry: &E, lives: [Option<Duration>; 3])
    requires { E.gives expiry.now (E.lifetimes expiry.now) }
{
    let rest = Some(Duration::from_secs(3));
    let given = [
        expiry.expire_after_create(&1, &7, 0),
        expiry.expire_after_read(&1, &7, 1, rest, 0),
        expiry.expire_after_update(&1, &7, 2, rest),
    ];
    assert_eq!(rt; given, lives);
}

/// Closures in a `Meant` weigh, test and give lifetimes, each called once a time. Without a weigher each
/// entry weighs 1, no predicate holds of nothing, and without an expiry the rest stays.
#[test]
fn closures_weigh_test_and_give_lifetimes(rt: HostRuntime) -> Result<(), Fail> {
    let calls = Arc::new(rt.alloc(), AtomicU64::new(0))?;
    let (weighed, tested, created) = (calls.clone()?, calls.clone()?, calls.clone()?);
    let (read, updated) = (calls.clone()?, calls.clone()?);
    let weigher = WeighBy::new(move |_key: &u64, value: &u32| {
        weighed.fetch_add(1, Ordering::SeqCst);
        *value
    });
    let limit = 3;
    let predicate = HoldsIf::new(move |_key: &u64, value: &u64| {
        tested.fetch_add(10, Ordering::SeqCst);
        *value == limit
    });
    let expiry = ExpireBy::new(
        move |_key: &u64, value: &u64, _at: u64| {
            created.fetch_add(100, Ordering::SeqCst);
            Some(Duration::from_secs(*value))
        },
        move |_key: &u64, _value: &u64, _at: u64, rest: Option<Duration>, _written_at: u64| {
            read.fetch_add(1_000, Ordering::SeqCst);
            rest
        },
        move |_key: &u64, _value: &u64, _at: u64, _rest: Option<Duration>| {
            updated.fetch_add(10_000, Ordering::SeqCst);
            None
        },
    );
    let (life, rest) = (Some(Duration::from_secs(7)), Some(Duration::from_secs(3)));
    weighs(&rt, &Meant::new(Says(limit), weigher), 7);
    weighs(&rt, &NoWeigher, 1);
    holds(&rt, &Meant::new(Says(limit), predicate), true);
    holds(&rt, &NoPredicate, false);
    gives(&rt, &Meant::new(Says(limit), expiry), [life, rest, None]);
    gives(&rt, &NoExpiry, [None, rest, rest]);
    assert_eq!(rt; calls.load(Ordering::SeqCst), 11_121);
    Ok(())
}

/// The default policy is TinyLFU, a number hashes to itself, and `Expired` and `Size` are evictions.
#[test]
fn the_rest_is_as_it_says(rt: HostRuntime) -> Result<(), Fail> {
    assert!(rt; EvictionPolicy::default().is_tiny_lfu());
    assert!(rt; EvictionPolicy::tiny_lfu().is_tiny_lfu());
    assert!(rt; !EvictionPolicy::lru().is_tiny_lfu());
    assert_eq!(rt; NumberHash::default().finish(), 0);
    for number in [0, 1, 256, 2_305_843_009_213_693_952, u64::MAX] {
        let mut hasher = NumberHash::default();
        hasher.write(number.to_le_bytes().as_slice());
        assert_eq!(rt; hasher.finish(), number);
    }
    for (cause, is_eviction, name) in [
        (RemovalCause::Expired, true, "Expired"),
        (RemovalCause::Explicit, false, "Explicit"),
        (RemovalCause::Replaced, false, "Replaced"),
        (RemovalCause::Size, true, "Size"),
    ] {
        assert_eq!(rt; cause.was_evicted(), is_eviction);
        assert_eq!(rt; format!(in rt.alloc(); "{cause:?}")?.as_str(), name);
    }
    Ok(())
}

/// A runtime's clock that reads so many seconds, and fails at `u64::MAX`.
#[derive(Drop)]
struct FakeClock {
    seconds: Arc<AtomicU64>,
}

impl time::Clock for FakeClock {
    fn monotonic(&self) -> io::Result<Duration> {
        match self.seconds.load(Ordering::SeqCst) {
            u64::MAX => Err(io::Error::other("the clock is not there")),
            seconds => Ok(Duration::from_secs(seconds)),
        }
    }

    fn since_1970(&self) -> io::Result<Duration> {
        self.monotonic()
    }
}

/// A reading in seconds, and the moment that the clock returns then, in nanoseconds. It was made at
/// 100 seconds.
const READINGS: [(u64, u64); 7] = [
    (100, 0),
    (105, 5_000_000_000),
    (103, 5_000_000_000),
    (u64::MAX, 5_000_000_000),
    (106, 6_000_000_000),
    (20_000_000_000, u64::MAX),
    (107, u64::MAX),
];

/// Moments never go back, a failed reading gives the latest one again, and `u64::MAX` is the last. A
/// clock is not made where nothing can be read.
#[test]
fn the_moments_of_a_clock_never_go_back(rt: HostRuntime) -> Result<(), Fail> {
    let seconds = Arc::new(rt.alloc(), AtomicU64::new(100))?;
    let clock = RunningClock::new(FakeClock {
        seconds: seconds.clone()?,
    })?;
    for (read, moment) in READINGS {
        seconds.store(read, Ordering::SeqCst);
        assert_eq!(rt; clock.now(), moment, "at {read}");
    }
    seconds.store(u64::MAX, Ordering::SeqCst);
    assert!(rt; RunningClock::new(FakeClock { seconds }).is_err());
    Ok(())
}
