//! A memoizer. Each result is proved to be what the function computes, cached or not.

ghost use Rattle.std.specs.Prelude.{◌≡◌, false, IfOk};
ghost use Rattle.std.proofs.Math.Path.{◌∙◌, ap};
ghost use Rattle.std.proofs.lemmas.Bool.{eqb-true};
ghost use Rattle.examples.specs.Triangle.{triangle};

use moka::common::builder_utils::BuildError;
use moka::policy::Refused;
use moka::ready::{FoldState, Keeping, Keeps};
use moka::state::CacheState;
use moka::sync::CacheBuilder;
use std::io;
use thiserror::Error;

/// The value invariant: each value is the triangular number of its key.
pub(crate) struct Triangles;

impl Keeps<u32, u64> for Triangles {
    ghost keeps = { λ n value. value ≡ triangle n };

    ghost equal_keys_keep = { λ a b value same kept. kept ∙ ap triangle (eqb-true a b same) };

    ghost copies_keep = { λ n value copy is_copy kept. is_copy ∙ kept };
}

/// Returns the sum of the numbers from 1 to `n`, from the cache or computed and cached.
fn get_sum(cache: &mut CacheState<u32, u64, Keeping<Triangles>>, n: u32) -> Result<u64, Refused>
    ensures { IfOk result (λ value. value ≡ triangle n) }
{
    cache.get_with(n, || sum_to(n), 0)
}

// Returns the sum of the numbers from 1 to `n`: the function that is memoized.
pub(crate) fn sum_to(n: u32) -> u64
    ensures { result ≡ triangle n }
{
    let n = u64::from(n);
    n * (n + 1) / 2
}

/// Returns the same, and would compute a cached sum anew if it were wrong. The closure may require
/// the value invariant of the value that it is shown, so it is proved that no sum is.
fn get_checked_sum(
    cache: &mut CacheState<u32, u64, Keeping<Triangles>>,
    n: u32,
) -> Result<u64, Refused>
    ensures { IfOk result (λ value. value ≡ triangle n) }
{
    let is_wrong = |sum: &u64|
        requires { sum.now ≡ triangle n }
        ensures { result ≡ false }
    { *sum != sum_to(n) };
    cache.get_with_if(n, || sum_to(n), is_wrong, 0)
}

/// Why the example failed.
#[derive(Debug, Drop, Error)]
pub(crate) enum Failed {
    #[error("the cache was not built: {0}")]
    NotBuilt(#[from] BuildError),
    #[error("a step was refused: {0}")]
    Refused(#[from] Refused),
    #[error("nothing was written: {0}")]
    NotWritten(#[from] io::Error),
}

/// Runs the example.
pub fn main(rt: HostRuntime) -> Result<(), Failed> {
    let mut cache = CacheBuilder::new(1_000).build_state(rt.alloc(), FoldState::default())?;
    run(&rt, &mut cache)
}

fn run(
    rt: &HostRuntime,
    cache: &mut CacheState<u32, u64, Keeping<Triangles>>,
) -> Result<(), Failed> {
    for n in [10, 4, 10] {
        println!(rt; "{n}: {}", get_sum(cache, n)?)?;
    }
    println!(rt; "checked: {}", get_checked_sum(cache, 10)?)?;
    Ok(())
}
