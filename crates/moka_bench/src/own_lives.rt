//! An expiry that gives each entry the same lifetime.
ghost use Rattle.std.specs.Prelude.{◌≡◌};
ghost use Rattle.moka_bench.specs.OwnLives.{same_lives};

use moka::policy::Expiry;
use std::time::Duration;

/// Gives each entry so many nanoseconds after each write.
#[derive(Drop)]
pub(crate) struct SameLives {
    /// The lifetime in nanoseconds.
    pub nanos: u64,
}

impl Expiry<u64, u64> for SameLives {
    ghost gives = { λ given lives. lives ≡ same_lives given.nanos };

    fn expire_after_create(&self, _key: &u64, _value: &u64, _at: u64) -> Option<Duration> {
        Some(Duration::from_nanos(self.nanos))
    }

    fn expire_after_read(
        &self,
        _key: &u64,
        _value: &u64,
        _at: u64,
        rest: Option<Duration>,
        _written_at: u64,
    ) -> Option<Duration> {
        rest
    }

    fn expire_after_update(
        &self,
        _key: &u64,
        _value: &u64,
        _at: u64,
        _rest: Option<Duration>,
    ) -> Option<Duration> {
        Some(Duration::from_nanos(self.nanos))
    }
}
