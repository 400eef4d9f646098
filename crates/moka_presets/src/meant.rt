//! Weighers, predicates and expiries that call closures, with a type beside them that says what the
//! closures compute. The ready-made types need that.
ghost use Rattle.std.specs.Prelude.{◌≡◌, ℕ, Bool, true};
ghost use Rattle.moka_model.specs.Lives.{Lifetimes};

use crate::ready::{SteadyExpiry, SteadyPredicate, SteadyWeigher};
use moka_policy::policy::{Expiry, Predicate, Weigher};
use std::time::Duration;

/// Says which weight a weigher returns.
pub trait Weighs<K: Eq, V> {
    /// The weight of a key with a value.
    ghost weight: { Self → K → V → ℕ };

    /// Equal keys weigh alike.
    ghost equal_keys_weigh: { (says : Self) (a b : K) (v : V) → K.eq a b ≡ true
        → weight says a v ≡ weight says b v };
}

/// Says which test a predicate computes.
pub trait Tests<K, V> {
    /// The test of a key and a value.
    ghost test: { Self → K → V → Bool };
}

/// Says which lifetimes an expiry returns.
pub trait Lives<K, V> {
    /// The lifetimes that it returns.
    ghost lifetimes: { Self → Lifetimes K V };
}

/// A weigher, a predicate or an expiry, with an `M` that says what it computes.
///
/// So a closure can be passed to a cache, as a `WeighBy`, a `HoldsIf` or an `ExpireBy`. Whoever
/// passes it has to prove that it computes what the `M` says.
///
/// ```
/// impl Weighs<u64, Vec<u8>> for Bytes {
///     ghost weight = { λ _. bytes_in };
///
///     ghost equal_keys_weigh = { λ _ _ _ _ _. refl };
/// }
///
/// let builder = builder.weigher(Meant::new(Bytes, weigher));
/// let mut blobs: CacheState<u64, Vec<u8>, Weighed<Meant<Bytes, W>>> = builder.build_state(
///     rt.alloc(),
///     FoldState::default(),
/// )?;
/// ```
///
/// `W` is a parameter of the function, which requires that `weigher` computes `bytes_in`.
#[derive(Clone, Copy, Debug)]
pub struct Meant<M, A> {
    meaning: M,
    closure: A,
}

impl<M, A> Meant<M, A> {
    /// Creates one from its meaning and from what computes that.
    pub fn new(meaning: M, closure: A) -> Self
        ensures meaning { result.meaning ≡ meaning }
        ensures closure { result.closure ≡ closure }
    {
        Meant { meaning, closure }
    }
}

impl<K, V, M, A: Weigher<K, V>> Weigher<K, V> for Meant<M, A> {
    ghost weighs = { λ meant. A.weighs meant.closure };

    fn weigh(&self, key: &K, value: &V) -> u32 {
        self.closure.weigh(key, value)
    }
}

impl<K: Eq, V, M: Weighs<K, V>, A: Weigher<K, V>> SteadyWeigher<K, V> for Meant<M, A> {
    ghost weight = { λ meant. M.weight meant.meaning };

    ghost equal_keys_weigh = { λ meant. M.equal_keys_weigh meant.meaning };
}

impl<K, V, M, A: Predicate<K, V>> Predicate<K, V> for Meant<M, A> {
    ghost tests = { λ meant. A.tests meant.closure };

    fn holds(&self, key: &K, value: &V) -> bool {
        self.closure.holds(key, value)
    }
}

impl<K, V, M: Tests<K, V>, A: Predicate<K, V>> SteadyPredicate<K, V> for Meant<M, A> {
    ghost test = { λ meant. M.test meant.meaning };
}

impl<K, V, M, A: Expiry<K, V>> Expiry<K, V> for Meant<M, A> {
    ghost gives = { λ meant. A.gives meant.closure };

    fn expire_after_create(&self, key: &K, value: &V, created_at: u64) -> Option<Duration> {
        self.closure.expire_after_create(key, value, created_at)
    }

    fn expire_after_read(
        &self,
        key: &K,
        value: &V,
        read_at: u64,
        rest: Option<Duration>,
        written_at: u64,
    ) -> Option<Duration> {
        self.closure
            .expire_after_read(key, value, read_at, rest, written_at)
    }

    fn expire_after_update(
        &self,
        key: &K,
        value: &V,
        updated_at: u64,
        rest: Option<Duration>,
    ) -> Option<Duration> {
        self.closure
            .expire_after_update(key, value, updated_at, rest)
    }
}

impl<K, V, M: Lives<K, V>, A: Expiry<K, V>> SteadyExpiry<K, V> for Meant<M, A> {
    ghost lifetimes = { λ meant. M.lifetimes meant.meaning };
}
