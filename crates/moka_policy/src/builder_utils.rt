//! The errors of cache builders, and the checks of their settings.
ghost use Rattle.std.specs.Prelude.{◌≡◌, Some, None, option_map, OnOk, IfErr};
ghost use Rattle.std.specs.Duration.{as_nanos};
ghost use Rattle.moka_policy.specs.Building.{longest_life, is_too_long, too_long_of, flush_refused_of};

use std::time::Duration;
use thiserror::Error;

/// The error of a cache builder: why it built no cache.
#[derive(Clone, Copy, Debug, PartialEq, Eq, Error)]
pub enum BuildError {
    /// The number of segments is 0.
    #[error("NoSegments")]
    NoSegments,
    /// The number of segments is greater than 2^63.
    #[error("TooManySegments")]
    TooManySegments,
    /// The time to live is longer than 1000 years of 365 days.
    #[error("TimeToLiveTooLong")]
    TimeToLiveTooLong,
    /// The time to idle is longer than 1000 years of 365 days.
    #[error("TimeToIdleTooLong")]
    TimeToIdleTooLong,
    /// An allocation failed.
    #[error("OutOfMemory")]
    OutOfMemory,
    /// The flush limit is 0.
    #[error("ZeroFlushLimit")]
    ZeroFlushLimit,
    /// Both a flush limit and a weigher are set.
    #[error("FlushLimitWithWeigher")]
    FlushLimitWithWeigher,
}

// The longest time to live or to idle: 1000 years of 365 days, in nanoseconds.
const LONGEST_LIFE: u128 = 1_000 * 365 * 24 * 3_600 * 1_000_000_000;

/// Checks that neither the time to live nor the time to idle is longer than 1000 years of 365 days.
/// Exactly that long is allowed, and so is `None`.
///
/// # Errors
///
/// - `TimeToLiveTooLong`: the time to live is longer. Also returned if both are.
/// - `TimeToIdleTooLong`: only the time to idle is longer.
pub fn ensure_expirations(
    time_to_live: Option<Duration>,
    time_to_idle: Option<Duration>,
) -> Result<(), BuildError>
    ensures accepted { OnOk result
        (too_long_of (option_map as_nanos time_to_live) (option_map as_nanos time_to_idle) ≡ None) }
    ensures refused { IfErr result (λ cause.
        too_long_of (option_map as_nanos time_to_live) (option_map as_nanos time_to_idle)
        ≡ Some cause) }
{
    if is_too_long(time_to_live) {
        return Err(BuildError::TimeToLiveTooLong);
    }
    if is_too_long(time_to_idle) {
        return Err(BuildError::TimeToIdleTooLong);
    }
    Ok(())
}

/// Checks that a flush limit, in entries, is not 0, and that none is set beside a weigher.
/// `has_weigher` is whether a weigher is set.
///
/// # Errors
///
/// - `ZeroFlushLimit`: the limit is 0, with or without a weigher.
/// - `FlushLimitWithWeigher`: the limit is not 0, and a weigher is set.
pub fn ensure_flush_limit(flush_limit: Option<u64>, has_weigher: bool) -> Result<(), BuildError>
    ensures accepted { OnOk result (flush_refused_of flush_limit has_weigher ≡ None) }
    ensures refused { IfErr result
        (λ cause. flush_refused_of flush_limit has_weigher ≡ Some cause) }
{
    match flush_limit {
        Some(0) => Err(BuildError::ZeroFlushLimit),
        Some(_) if has_weigher => Err(BuildError::FlushLimitWithWeigher),
        _ => Ok(()),
    }
}

// Returns whether a time to live or to idle is longer than the longest one.
fn is_too_long(life: Option<Duration>) -> bool
    ensures { result ≡ is_too_long (option_map as_nanos life) }
{
    match life {
        Some(life) => life.as_nanos() > LONGEST_LIFE,
        None => false,
    }
}
