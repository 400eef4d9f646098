//! The numbers that calls return to C.
ghost use Rattle.std.specs.Prelude.{◌≡◌};
ghost use Rattle.moka_c.specs.Codes.{number_of};

use moka_policy::policy::Refused;

/// The call is done. A lookup has found a live value.
pub const DONE: u32 = 0;

/// No value is live for the key, or no notice is queued.
pub const ABSENT: u32 = 1;

/// An allocation failed. The cache is unchanged.
pub const OUT_OF_MEMORY: u32 = 2;

/// No sequence number is left. The cache is unchanged.
pub const NUMBERS_USED_UP: u32 = 3;

/// The handle has no cache: none was opened, or it is closed again.
pub const CLOSED: u32 = 4;

/// The handle that is to be opened has a cache already.
pub const OPEN_ALREADY: u32 = 5;

/// The buffer is shorter than the bytes.
pub const SHORT_BUFFER: u32 = 6;

/// The flush limit is 0.
pub const ZERO_FLUSH_LIMIT: u32 = 7;

/// Both a flush limit and a weigher are set.
pub const FLUSH_LIMIT_WITH_WEIGHER: u32 = 8;

/// The number of the eviction policy names none.
pub const UNKNOWN_POLICY: u32 = 9;

/// Returns the number of the cause of a failed call.
pub(crate) fn of_refused(cause: Refused) -> u32
    ensures { result ≡ number_of cause }
{
    match cause {
        Refused::NumbersUsedUp => NUMBERS_USED_UP,
        _ => OUT_OF_MEMORY,
    }
}
