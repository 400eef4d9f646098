//! A job, and two threads that do one each.
ghost use Rattle.std.specs.Prelude.{◌≡◌, ℕ, ◌<◌, ◌↔◌, IsSome, length};

use std::thread;
use std::thread::Threads;

/// What one thread does with a shared value, and with a part that it alone may change.
///
/// It is a type with a method, and no closure: the kit's borrow checker gives no proof of a closure
/// that borrows a recorded cache and a pass.
pub trait Job<X, P, A> {
    /// Does it, and returns its result.
    fn work(&self, shared: &X, part: &mut P) -> A;
}

/// Does two jobs at once, in two threads: `one` with the first part, `other` with the second.
/// Returns both results once both threads are done, or `None` if there are no two parts.
///
/// The types are bare parameters: the kit's borrow checker gives no proof of a `join` whose shared
/// value may cross threads by a bound on a part of its type.
pub fn run_both<R, X, P, A, B, J, K>(
    rt: &R,
    shared: &X,
    parts: &mut [P],
    one: &J,
    other: &K,
) -> Option<(A, B)>
where
    R: Threads,
    X: Sync,
    P: Send,
    A: Send + Drop,
    B: Send + Drop,
    J: Job<X, P, A> + Sync,
    K: Job<X, P, B> + Sync,
    ensures { IsSome result ↔ (1 < length parts.old) }
{
    let (first, rest) = parts.split_first_mut()?;
    let second = rest.first_mut()?;
    Some(join_both(rt, shared, first, second, one, other))
}

fn join_both<R, X, P, A, B, J, K>(
    rt: &R,
    shared: &X,
    first: &mut P,
    second: &mut P,
    one: &J,
    other: &K,
) -> (A, B)
where
    R: Threads,
    X: Sync,
    P: Send,
    A: Send + Drop,
    B: Send + Drop,
    J: Job<X, P, A> + Sync,
    K: Job<X, P, B> + Sync,
{
    thread::join(
        rt,
        || one.work(shared, first),
        || other.work(shared, second),
    )
}
