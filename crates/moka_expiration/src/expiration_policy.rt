//! How long a value lives.
ghost use Rattle.std.specs.Prelude.{◌≡◌, option_map};
ghost use Rattle.std.specs.Duration.{as_nanos};
ghost use Rattle.moka_model.specs.Lives.{ends_at, earlier, own_end, rest, given};
ghost use Rattle.moka_rows.specs.Rows.{used_at};
ghost use Rattle.moka_expiration.specs.ExpirationPolicy.{deadline_of, within_moments, own_life, dated, IsDated};

use moka_rows::rows::{Access, EntryInfo, OwnLife};
use std::time::Duration;

/// The time to live and the time to idle of a cache.
#[derive(Clone, Copy, Debug)]
pub struct ExpirationPolicy {
    /// How long a value lives after it was written.
    pub time_to_live: Option<Duration>,
    /// How long a value lives after its last access or write.
    pub time_to_idle: Option<Duration>,
}

impl ExpirationPolicy {
    /// Returns the moment from which a value with this metadata is expired, in nanoseconds.
    ///
    /// It is the earliest end of the time to live, the time to idle and the entry's own lifetime.
    /// It is `None` without any of them. A moment past the last one, `u64::MAX`, never comes and is
    /// `None` too.
    #[inline(always)]
    pub fn deadline(&self, info: EntryInfo) -> Option<u64>
        ensures { result ≡ within_moments (deadline_of self.now info) }
    {
        let shared = earlier_of(
            ends_at(self.time_to_live, info.last_modified),
            ends_at(self.time_to_idle, info.last_accessed),
        );
        within_moments(earlier_of(shared, own_end(info.own_life)))
    }

    /// Returns the metadata with its deadline.
    #[inline(always)]
    pub fn with_deadline(&self, info: EntryInfo) -> EntryInfo
        ensures { result ≡ dated self.now info }
    {
        EntryInfo {
            deadline: self.deadline(info),
            ..info
        }
    }

    /// Returns the access of a value at a moment, with its own lifetime and its deadline from then
    /// on.
    #[inline(always)]
    pub fn touch_of(&self, info: EntryInfo, last_accessed: u64, own_life: Option<OwnLife>) -> Access
        ensures accessed { result.last_accessed ≡ last_accessed }
        ensures own { result.own_life ≡ own_life }
        ensures dated { IsDated self.now (used_at result info) }
    {
        let touch = Access {
            last_accessed,
            own_life,
            deadline: None,
        };
        let deadline = self.deadline(info.with_access(touch));
        Access { deadline, ..touch }
    }
}

// Returns the end of a life that begins at a moment: their sum. It fits, since a life has less than
// 2^94 nanoseconds.
#[inline(always)]
fn ends_at(life: Option<Duration>, from: u64) -> Option<u128>
    ensures { result ≡ ends_at (option_map as_nanos life) from }
{
    match life {
        None => None,
        Some(life) => Some(u128::from(from) + life.as_nanos()),
    }
}

// Returns the end of an entry's own lifetime.
#[inline(always)]
fn own_end(own: Option<OwnLife>) -> Option<u128>
    ensures { result ≡ own_end (option_map own_life own) }
{
    match own {
        None => None,
        Some(own) => ends_at(Some(own.life), own.from),
    }
}

/// Returns what is left at `now` of an entry's own lifetime: nothing if it has ended.
#[inline(always)]
pub fn rest(own: Option<OwnLife>, now: u64) -> Option<Duration>
    ensures { option_map as_nanos result ≡ rest (option_map own_life own) now }
{
    match own {
        None => None,
        Some(own) => {
            let lived = Duration::from_nanos(now.saturating_sub(own.from));
            Some(own.life.saturating_sub(lived))
        }
    }
}

/// Returns an own lifetime that counts from `now`.
#[inline(always)]
pub fn own_life_from(life: Option<Duration>, now: u64) -> Option<OwnLife>
    ensures { option_map own_life result ≡ given (option_map as_nanos life) now }
{
    match life {
        None => None,
        Some(life) => Some(OwnLife { from: now, life }),
    }
}

/// Returns a deadline, or `None` if it is past the last moment.
#[inline(always)]
fn within_moments(deadline: Option<u128>) -> Option<u64>
    ensures { result ≡ within_moments deadline }
{
    match deadline {
        None => None,
        Some(deadline) => u64::try_from(deadline).ok(),
    }
}

/// Returns the earlier of two deadlines, or the only one.
#[inline(always)]
fn earlier_of(a: Option<u128>, b: Option<u128>) -> Option<u128>
    ensures { result ≡ earlier a b }
{
    match (a, b) {
        (Some(a), Some(b)) => Some(a.min(b)),
        (Some(a), None) => Some(a),
        (None, b) => b,
    }
}
