//! Expiries, which give single entries lifetimes of their own.
ghost use Rattle.std.specs.Prelude.{◌≡◌, ℕ, option_map};
ghost use Rattle.std.specs.Duration.{as_nanos};
ghost use Rattle.moka_model.specs.Lives.{Lifetimes, no_lifetimes};
ghost use Rattle.moka_policy.specs.Policy.{IsCreating, IsReading, IsUpdating};

use std::time::Duration;

/// Gives single entries of a cache lifetimes of their own.
///
/// A cache calls it after three events: a write where no live value was, an access by a recorded
/// lookup, and a write over a live value. It is called after no other event.
///
/// The result replaces the entry's own lifetime, and counts from the moment of the event. `None` is
/// a lifetime without an end. The key is the stored one, and the value is the one after the event.
/// Moments are in nanoseconds.
///
/// An expiry without a rule for an event can return `None` after a creation and `rest` after the
/// other two. Returning `rest` leaves the entry's own lifetime as it was. [`NoExpiry`] does so.
///
/// ```
/// impl Expiry<u64, String> for OneMinute {
///     ghost gives = { λ _ lives. lives ≡ a_minute };
///
///     fn expire_after_create(&self, _key: &u64, _name: &String, _at: u64) -> Option<Duration> {
///         Some(Duration::from_secs(60))
///     }
/// ```
pub trait Expiry<K, V> {
    /// Whether this expiry computes these lifetimes: the methods return what these functions
    /// return.
    ghost gives: { Self → Lifetimes K V → Type 0 };

    /// Returns the lifetime of a value that was written at `created_at` where no live value was.
    fn expire_after_create(&self, key: &K, value: &V, created_at: u64) -> Option<Duration>
        requires { (lives : Lifetimes K V) × gives self.now lives }
        ensures { (lives : Lifetimes K V) → gives self.now lives
            → option_map as_nanos result ≡ lives.created key.now value.now created_at };

    /// Returns the lifetime of a value that a recorded lookup found at `read_at`.
    ///
    /// `rest` is what is left of the entry's own lifetime. `written_at` is when the value was
    /// written.
    fn expire_after_read(
        &self,
        key: &K,
        value: &V,
        read_at: u64,
        rest: Option<Duration>,
        written_at: u64,
    ) -> Option<Duration>
        requires { (lives : Lifetimes K V) × gives self.now lives }
        ensures { (lives : Lifetimes K V) → gives self.now lives
            → option_map as_nanos result
            ≡ lives.read key.now value.now read_at (option_map as_nanos rest) written_at };

    /// Returns the lifetime of a value that was written at `updated_at` over a live value.
    ///
    /// `rest` is what was left of the own lifetime of the value before.
    fn expire_after_update(
        &self,
        key: &K,
        value: &V,
        updated_at: u64,
        rest: Option<Duration>,
    ) -> Option<Duration>
        requires { (lives : Lifetimes K V) × gives self.now lives }
        ensures { (lives : Lifetimes K V) → gives self.now lives
            → option_map as_nanos result
            ≡ lives.updated key.now value.now updated_at (option_map as_nanos rest) };
}

/// An expiry that gives no entry a lifetime: the type of a cache's expiry if none is set.
#[derive(Clone, Copy, Debug, Default)]
pub struct NoExpiry;

impl<K, V> Expiry<K, V> for NoExpiry {
    ghost gives = { λ _ lives. lives ≡ no_lifetimes };

    fn expire_after_create(&self, _key: &K, _value: &V, _created_at: u64) -> Option<Duration> {
        None
    }

    fn expire_after_read(
        &self,
        _key: &K,
        _value: &V,
        _read_at: u64,
        remaining: Option<Duration>,
        _written_at: u64,
    ) -> Option<Duration> {
        remaining
    }

    fn expire_after_update(
        &self,
        _key: &K,
        _value: &V,
        _updated_at: u64,
        left: Option<Duration>,
    ) -> Option<Duration> {
        left
    }
}

/// An expiry that calls three closures. They take the arguments of the methods of [`Expiry`].
#[derive(Clone, Copy, Debug)]
pub struct ExpireBy<C, R, U> {
    create: C,
    read: R,
    update: U,
}

impl<C, R, U> ExpireBy<C, R, U> {
    /// Creates an expiry that calls `create` after a creation, `read` after a recorded lookup, and
    /// `update` after an update.
    pub fn new(create: C, read: R, update: U) -> Self
        ensures create { result.create ≡ create }
        ensures read { result.read ≡ read }
        ensures update { result.update ≡ update }
    {
        ExpireBy {
            create,
            read,
            update,
        }
    }
}

impl<K, V, C, R, U> Expiry<K, V> for ExpireBy<C, R, U>
where
    C: Fn(&K, &V, u64) -> Option<Duration>,
    R: Fn(&K, &V, u64, Option<Duration>, u64) -> Option<Duration>,
    U: Fn(&K, &V, u64, Option<Duration>) -> Option<Duration>,
{
    ghost gives = { λ by lives.
        IsCreating (λ key. key.now) (λ value. value.now) (C.pre by.create) (C.post by.create)
        lives.created
        × IsReading (λ key. key.now) (λ value. value.now) (R.pre by.read) (R.post by.read)
        lives.read
        × IsUpdating (λ key. key.now) (λ value. value.now) (U.pre by.update) (U.post by.update)
        lives.updated };

    fn expire_after_create(&self, key: &K, value: &V, created_at: u64) -> Option<Duration> {
        (self.create)(key, value, created_at)
    }

    fn expire_after_read(
        &self,
        key: &K,
        value: &V,
        read_at: u64,
        rest: Option<Duration>,
        written_at: u64,
    ) -> Option<Duration> {
        (self.read)(key, value, read_at, rest, written_at)
    }

    fn expire_after_update(
        &self,
        key: &K,
        value: &V,
        updated_at: u64,
        rest: Option<Duration>,
    ) -> Option<Duration> {
        (self.update)(key, value, updated_at, rest)
    }
}
