//! The ready-made types.
ghost use Rattle.std.specs.Prelude.{◌≡◌, ℕ, Bool, true, false, refl};
ghost use Rattle.moka_model.specs.Lives.{Lifetimes, no_lifetimes};

pub use crate::clock::RunningClock;
use crate::copies::CopiesCompose;
pub use crate::frequency::NoFrequency;
pub use crate::recorded::PlainRecorded;
use moka_policy::policy::{
    CacheTypes, Clock, Expiry, Listener, ManualClock, NoExpiry, NoListener, NoPredicate, NoWeigher,
    Predicate, Weigher,
};
use moka_sketch::frequency_sketch::FrequencySketch;
use std::convert::Infallible;
use std::hash::{BuildHasher, BuildHasherDefault, FoldHasher, RandomState};
use std::marker::PhantomData;

/// A weigher whose value determines what it returns.
pub trait SteadyWeigher<K: Eq, V>: Weigher<K, V> {
    /// The weight that it returns for a key and a value.
    ghost weight: { Self → K → V → ℕ };

    /// Equal keys weigh alike.
    ghost equal_keys_weigh: { (weigher : Self) (a b : K) (v : V) → K.eq a b ≡ true
        → weight weigher a v ≡ weight weigher b v };
}

impl<K: Eq, V> SteadyWeigher<K, V> for NoWeigher {
    ghost weight = { λ _ _ _. 1 };

    ghost equal_keys_weigh = { λ _ _ _ _ _. refl };
}

/// An expiry whose value determines what it returns.
pub trait SteadyExpiry<K, V>: Expiry<K, V> {
    /// The lifetimes that it returns.
    ghost lifetimes: { Self → Lifetimes K V };
}

impl<K, V> SteadyExpiry<K, V> for NoExpiry {
    ghost lifetimes = { λ _. no_lifetimes };
}

/// A predicate whose value determines what it returns.
pub trait SteadyPredicate<K, V>: Predicate<K, V> {
    /// The test that it computes.
    ghost test: { Self → K → V → Bool };
}

impl<K, V> SteadyPredicate<K, V> for NoPredicate {
    ghost test = { λ _ _ _. false };
}

/// The types of a cache of any keys and values, without a value invariant. Its frequency source is
/// a sketch of 256 KiB.
///
/// - `S`: the hasher.
/// - `W`: the weigher.
/// - `E`: the expiry.
/// - `T`: the clock of a shared cache.
/// - `P`: the predicate of mass invalidations.
/// - `F`: the error of initializers that may fail.
/// - `L`: the listener of a shared cache.
pub struct ReadyTypes<
    S,
    W = NoWeigher,
    E = NoExpiry,
    T = ManualClock,
    P = NoPredicate,
    F = Infallible,
    L = NoListener,
> {
    types: PhantomData<(S, W, E, T, P, F, L)>,
}

impl<K, V, S, W, E, T, P, F, L> CacheTypes<K, V> for ReadyTypes<S, W, E, T, P, F, L>
where
    K: Eq + Drop,
    V: CopiesCompose,
    S: BuildHasher + Drop,
    W: SteadyWeigher<K, V> + Drop,
    E: SteadyExpiry<K, V> + Drop,
    T: Clock + Drop,
    P: SteadyPredicate<K, V> + Drop,
    F: Drop,
    L: Listener<K, V> + Drop,
{
    type Hasher = S;

    type Weigher = W;

    type Expiry = E;

    type Predicate = P;

    type Frequency = FrequencySketch<16>;

    type Listener = L;

    type Clock = T;

    type Error = F;

    ghost weight = { W.weight };

    ghost equal_keys_weigh = { W.equal_keys_weigh };

    ghost lifetimes = { E.lifetimes };

    ghost test = { P.test };

    ghost keeps = { λ _ _. Unit {0} };

    ghost equal_keys_keep = { λ _ _ _ _ _. tt };

    ghost copies_keep = { λ _ _ _ _ _. tt };

    ghost copies_compose = { V.copies_compose };
}

/// Makes the hashers of keys that no attacker picks.
///
/// It is always the same. So whoever picks the keys can give them all one hash, and then each call
/// visits them all.
pub type FoldState = BuildHasherDefault<FoldHasher>;

/// A cache without a weigher or an expiry, for keys that no attacker picks.
///
/// ```
/// type Sessions = CacheState<u64, String, Plain>;
/// ```
pub type Plain<T = ManualClock> = ReadyTypes<FoldState, NoWeigher, NoExpiry, T>;

/// A cache without a weigher or an expiry, for keys that an attacker may pick.
pub type PlainRandom<T = ManualClock> = ReadyTypes<RandomState, NoWeigher, NoExpiry, T>;

/// A cache with a weigher, for keys that no attacker picks.
pub type Weighed<W, T = ManualClock> = ReadyTypes<FoldState, W, NoExpiry, T>;

/// A cache with an expiry, for keys that no attacker picks.
pub type Expiring<E, T = ManualClock> = ReadyTypes<FoldState, NoWeigher, E, T>;

/// A cache with a weigher and an expiry, for keys that no attacker picks.
pub type WeighedExpiring<W, E, T = ManualClock> = ReadyTypes<FoldState, W, E, T>;

/// A cache whose mass invalidations use a predicate, for keys that no attacker picks.
pub type Hiding<P, T = ManualClock> = ReadyTypes<FoldState, NoWeigher, NoExpiry, T, P>;

/// A cache without a weigher or an expiry, whose initializers may fail with an `F`, for keys that
/// no attacker picks.
pub type Fallible<F, T = ManualClock> = ReadyTypes<
    FoldState,
    NoWeigher,
    NoExpiry,
    T,
    NoPredicate,
    F,
>;

/// A cache without a weigher or an expiry, which calls an `L` for removed entries if it is shared,
/// for keys that no attacker picks.
///
/// A closure's type has no name. So a function that builds such a cache is generic over `L`, and
/// requires that the listener accepts each key with each value.
///
/// ```
/// let builder = builder.eviction_listener(listener);
/// let names: Cache<u64, String, Listening<L>, R> = builder.build_with_hasher(
///     alloc, hasher, clock, rt,
/// )?;
/// ```
pub type Listening<L, T = ManualClock> = ReadyTypes<
    FoldState,
    NoWeigher,
    NoExpiry,
    T,
    NoPredicate,
    Infallible,
    L,
>;

/// A cache with a weigher, which calls an `L` for removed entries if it is shared, for keys that no
/// attacker picks.
pub type WeighedListening<W, L, T = ManualClock> = ReadyTypes<
    FoldState,
    W,
    NoExpiry,
    T,
    NoPredicate,
    Infallible,
    L,
>;

/// A cache with an expiry, which calls an `L` for removed entries if it is shared, for keys that no
/// attacker picks.
pub type ExpiringListening<E, L, T = ManualClock> = ReadyTypes<
    FoldState,
    NoWeigher,
    E,
    T,
    NoPredicate,
    Infallible,
    L,
>;

/// A value invariant: a relation between the keys and the values of a cache. Writers have to prove
/// it, readers get it.
///
/// ```
/// impl Keeps<u32, u64> for Triangles {
///     ghost keeps = { λ n value. value ≡ triangle n };
///
///     ghost equal_keys_keep = { λ a b value same kept. kept ∙ ap triangle (eqb-true a b same) };
///
///     ghost copies_keep = { λ n value copy is_copy kept. is_copy ∙ kept };
/// }
/// ```
pub trait Keeps<K: Eq, V: Clone> {
    /// The relation.
    ghost keeps: { K → V → Type 0 };

    /// The relation does not distinguish equal keys.
    ghost equal_keys_keep: { (a b : K) (v : V) → K.eq a b ≡ true → keeps a v → keeps b v };

    /// The relation does not distinguish a value from its clones.
    ghost copies_keep: { (k : K) (v w : V) → V.is_clone v w → keeps k v → keeps k w };
}

/// The types of a cache with the value invariant of an `R`.
///
/// - `S`: the hasher. Its default is for keys that no attacker picks.
/// - `T`: the clock of a shared cache.
/// - `L`: the listener of a shared cache.
/// - `F`: the error of initializers that may fail.
/// - `W`: the weigher.
/// - `E`: the expiry.
/// - `P`: the predicate of mass invalidations.
///
/// ```
/// type Numbers<R> = Cache<u32, u64, Keeping<Triangles, FoldState, RunningClock<R>>, R>;
/// ```
pub struct Keeping<
    R,
    S = FoldState,
    T = ManualClock,
    L = NoListener,
    F = Infallible,
    W = NoWeigher,
    E = NoExpiry,
    P = NoPredicate,
> {
    types: PhantomData<(R, S, T, L, F, W, E, P)>,
}

impl<K, V, R, S, T, L, F, W, E, P> CacheTypes<K, V> for Keeping<R, S, T, L, F, W, E, P>
where
    K: Eq + Drop,
    V: CopiesCompose,
    R: Keeps<K, V>,
    S: BuildHasher + Drop,
    T: Clock + Drop,
    L: Listener<K, V> + Drop,
    F: Drop,
    W: SteadyWeigher<K, V> + Drop,
    E: SteadyExpiry<K, V> + Drop,
    P: SteadyPredicate<K, V> + Drop,
{
    type Hasher = S;

    type Weigher = W;

    type Expiry = E;

    type Predicate = P;

    type Frequency = FrequencySketch<16>;

    type Listener = L;

    type Clock = T;

    type Error = F;

    ghost weight = { W.weight };

    ghost equal_keys_weigh = { W.equal_keys_weigh };

    ghost lifetimes = { E.lifetimes };

    ghost test = { P.test };

    ghost keeps = { R.keeps };

    ghost equal_keys_keep = { R.equal_keys_keep };

    ghost copies_keep = { R.copies_keep };

    ghost copies_compose = { V.copies_compose };
}
