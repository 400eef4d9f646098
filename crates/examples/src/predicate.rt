//! A shared cache in which a closure invalidates all entries of one tenant at once.

ghost use Rattle.examples.specs.Tenants.{of_tenant};

use anyhow::Result;
use moka::meant::{Meant, Tests};
use moka::policy::{HoldsIf, ManualClock, Predicate};
use moka::ready::{FoldState, Hiding};
use moka::sync::{Cache, CacheBuilder};
use std::rt::Runtime;
use std::sync::{Arc, Wait};

/// What the closure returns: whether a key belongs to this tenant.
#[derive(Drop)]
struct OfTenant(u64);

impl Tests<(u64, u64), u64> for OfTenant {
    ghost test = { λ of. of_tenant of.0 };
}

type Theirs<P> = Meant<OfTenant, P>;

// Stores one login of each of two tenants, invalidates those of one, and prints what is left.
fn log_out<P: Predicate<(u64, u64), u64> + Drop, R: Runtime + AllocGlobal + Wait + Copy>(
    rt: R,
    theirs: Theirs<P>,
) -> Result<()>
    requires { P.tests theirs.closure (of_tenant theirs.meaning.0) }
{
    let (alloc, hasher, clock) = (rt.alloc(), FoldState::default(), ManualClock::new(0));
    let builder = CacheBuilder::new(100).support_invalidation_closures();
    let logins: Cache<(u64, u64), u64, Hiding<Theirs<P>>, R> = builder.build_with_hasher(
        alloc, hasher, clock, rt,
    )?;
    logins.insert((1, 7), 0)?;
    logins.insert((2, 7), 0)?;
    logins.invalidate_entries_with_arc_fun(Arc::new(rt.alloc(), theirs)?)?;
    for key in [(1, 7), (2, 7)] {
        println!(rt; "{key:?}: {}", logins.contains_key(&key))?;
    }
    Ok(())
}

/// Runs the example.
pub fn main<R: Runtime + AllocGlobal + Wait + Copy>(rt: R) -> Result<()> {
    let tenant = 1;
    let theirs = HoldsIf::new(move |key: &(u64, u64), _value: &u64| key.0 == tenant);
    log_out(rt, Meant::new(OfTenant(tenant), theirs))
}
