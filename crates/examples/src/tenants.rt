//! Logins, of which a predicate invalidates those of one tenant. An iteration shows what is left.

ghost use Rattle.std.specs.Prelude.{◌≡◌};
ghost use Rattle.examples.specs.Tenants.{of_tenant};

use anyhow::Result;
use moka::policy::{ManualClock, Predicate};
use moka::ready::{FoldState, Hiding, SteadyPredicate};
use moka::sync::{Cache, CacheBuilder};
use rand_core::SeedableRng;
use rand_xoshiro::Xoshiro256PlusPlus;
use std::rt::Runtime;
use std::sync::Wait;

#[derive(Drop)]
struct OfTenant(u64);

impl Predicate<(u64, u64), u64> for OfTenant {
    ghost tests = { λ of test. test ≡ of_tenant of.0 };

    fn holds(&self, key: &(u64, u64), _value: &u64) -> bool {
        key.0 == self.0
    }
}

impl SteadyPredicate<(u64, u64), u64> for OfTenant {
    ghost test = { λ of. of_tenant of.0 };
}

type Logins<W> = Cache<(u64, u64), u64, Hiding<OfTenant>, W>;

/// Runs the example. A real program takes the seed from outside, so that no two ids are equal.
pub fn main<R: Runtime + AllocGlobal + Wait + Copy>(rt: R) -> Result<()> {
    let builder = CacheBuilder::new(100).support_invalidation_closures();
    let (hasher, clock) = (FoldState::default(), ManualClock::new(0));
    let logins: Logins<R> = builder.build_with_hasher(rt.alloc(), hasher, clock, rt)?;
    logins.insert((1, 7), 0)?;
    logins.insert((2, 7), 0)?;
    let mut random = Xoshiro256PlusPlus::seed_from_u64(7);
    logins.invalidate_entries_if(OfTenant(1), &mut random)?;
    for pair in logins.iter() {
        println!(rt; "{:?} is left", pair?.0)?;
    }
    Ok(())
}
