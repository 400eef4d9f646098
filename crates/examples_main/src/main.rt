//! A memoizer that two threads share, with a time to live of a minute by a clock that runs. Each
//! result is proved to be what the function computes.
#![tactic(auto)]

ghost use Rattle.std.specs.Prelude.{◌≡◌, ◌*◌, IfOk};
ghost use Rattle.std.proofs.Math.Path.{◌∙◌, ap};
ghost use Rattle.std.proofs.lemmas.Bool.{eqb-true};

use anyhow::Result;
use moka::clock::RunningClock;
use moka::policy::Refused;
use moka::ready::{FoldState, Keeping, Keeps};
use moka::sync::{Cache, CacheBuilder};
use std::rt::Runtime;
use std::sync::Wait;
use std::thread;
use std::time::Duration;

/// The value invariant: each value is the square of its key.
struct Squares;

impl Keeps<u32, u64> for Squares {
    ghost keeps = { λ n value. value ≡ n * n };

    ghost equal_keys_keep = { λ a b value same kept. kept ∙ ap (λ m. m * m) (eqb-true a b same) };

    ghost copies_keep = { λ n value copy is_copy kept. is_copy ∙ kept };
}

/// Squares by their roots.
type Memo<R> = Cache<u32, u64, Keeping<Squares, FoldState, RunningClock<R>>, R>;

// Returns the square of `n`: the function that is memoized.
fn square(n: u32) -> u64
    ensures { result ≡ n * n }
{
    let n = u64::from(n);
    n * n
}

/// Returns the square of `n`: cached, or computed by this caller or by another one.
fn get_square<R: Runtime + Wait>(memo: &Memo<R>, n: u32) -> Result<u64, Refused>
    ensures { IfOk result (λ value. value ≡ n * n) }
{
    memo.get_with(n, || square(n))
}

// With a running clock only `main`, which has the runtime itself, starts threads.
fn main(rt: HostRuntime) -> Result<()> {
    let (alloc, hasher, clock) = (rt.alloc(), FoldState::default(), RunningClock::new(rt)?);
    let builder = CacheBuilder::new(100).time_to_live(Duration::from_secs(60));
    let memo: Memo<HostRuntime> = builder.build_with_hasher(alloc, hasher, clock, rt)?;
    let theirs = memo.clone()?;
    let child = thread::spawn(&rt, move || get_square(&theirs, 7))?;
    let ours = get_square(&memo, 7)?;
    println!(rt; "{ours} and {}", child.join(&rt)?)?;
    Ok(())
}
