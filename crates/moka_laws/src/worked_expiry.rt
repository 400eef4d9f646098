//! Worked cases of an expiry made of closures: each closure gets the right arguments, in the right
//! places.
ghost use Rattle.std.specs.Prelude.{ℕ, Some, None, option_map};
ghost use Rattle.std.specs.Duration.{as_nanos};
ghost use Rattle.moka_model.specs.Lives.{Lifetimes};
ghost use Rattle.moka_laws.specs.WorkedExpiry.{by_moments, by_rest};
ghost use Rattle.moka_laws.specs.WorkedExpiry.{AreLives};

use moka_policy::expiry::{ExpireBy, Expiry};
use std::time::Duration;

/// Returns the lifetimes for a creation at 3, for a lookup at 10 of a value written at 4, and for
/// an update at 8.
///
/// The old lifetime has `rest` left. Moments are nanoseconds.
fn lives<E: Expiry<u64, u64>>(
    expiry: &E,
    rest: Option<Duration>,
) -> (Option<Duration>, Option<Duration>, Option<Duration>)
    requires { (lives : Lifetimes ℕ ℕ) × E.gives expiry.now lives }
    ensures { (lives : Lifetimes ℕ ℕ) → E.gives expiry.now lives
        → AreLives result (lives.created 1 2 3) (lives.read 1 2 10 (option_map as_nanos rest) 4)
        (lives.updated 1 2 8 (option_map as_nanos rest)) }
{
    (
        expiry.expire_after_create(&1, &2, 3),
        expiry.expire_after_read(&1, &2, 10, rest, 4),
        expiry.expire_after_update(&1, &2, 8, rest),
    )
}

/// Returns lifetimes computed from moments.
///
/// A creation at 3 and an update at 8 give as many nanoseconds. A lookup at 10 gives the 6 ns since
/// the write at 4.
pub fn closures_are_told_the_moments() -> (Option<Duration>, Option<Duration>, Option<Duration>)
    ensures { AreLives result (Some 3) (Some 6) (Some 8) }
{
    let by_moments = ExpireBy::new(
        |_key: &u64, _value: &u64, created_at: u64| Some(Duration::from_nanos(created_at)),
        |_key: &u64, _value: &u64, read_at: u64, _rest: Option<Duration>, written_at: u64| {
            Some(Duration::from_nanos(read_at.saturating_sub(written_at)))
        },
        |_key: &u64, _value: &u64, updated_at: u64, _rest: Option<Duration>| {
            Some(Duration::from_nanos(updated_at))
        },
    );
    lives(&by_moments, None)
}

/// Returns lifetimes computed from the rest: the 5 ns that are left stay after a lookup and after
/// an update.
pub fn closures_are_told_the_rest() -> (Option<Duration>, Option<Duration>, Option<Duration>)
    ensures { AreLives result None (Some 5) (Some 5) }
{
    let by_rest = ExpireBy::new(
        |_key: &u64, _value: &u64, _created_at: u64| None,
        |_key: &u64, _value: &u64, _read_at: u64, rest: Option<Duration>, _written_at: u64| rest,
        |_key: &u64, _value: &u64, _updated_at: u64, rest: Option<Duration>| rest,
    );
    lives(&by_rest, Some(Duration::from_nanos(5)))
}
