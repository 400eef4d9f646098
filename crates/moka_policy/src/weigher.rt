//! Weighers, which compute the weights of entries.
ghost use Rattle.std.specs.Prelude.{◌≡◌, ℕ};
ghost use Rattle.moka_policy.specs.Policy.{IsWeighing};

/// Weighs the entries of a cache.
///
/// ```
/// impl Weigher<u64, String> for ByLength {
///     ghost weighs = { λ _ weight. weight ≡ length_of };
///
///     fn weigh(&self, _key: &u64, name: &String) -> u32 {
///         u32::try_from(name.len()).unwrap_or(u32::MAX)
///     }
/// }
/// ```
pub trait Weigher<K, V> {
    /// Whether this weigher computes this weight for each key and value.
    ghost weighs: { Self → (K → V → ℕ) → Type 0 };

    /// Returns the weight of a value under a key. It is called once for each write, and the cache
    /// keeps the result.
    fn weigh(&self, key: &K, value: &V) -> u32
        requires { (weight : K → V → ℕ) × weighs self.now weight }
        ensures { (weight : K → V → ℕ) → weighs self.now weight
            → result ≡ weight key.now value.now };
}

/// A weigher that calls a closure.
///
/// ```
/// WeighBy::new(|_key: &u64, name: &String| u32::try_from(name.len()).unwrap_or(u32::MAX)),
/// ```
#[derive(Clone, Copy, Debug)]
pub struct WeighBy<F> {
    weigh: F,
}

impl<F> WeighBy<F> {
    /// Creates a weigher that calls this closure.
    pub fn new(weigh: F) -> Self
        ensures { result.weigh ≡ weigh }
    {
        WeighBy { weigh }
    }
}

impl<K, V, F: Fn(&K, &V) -> u32> Weigher<K, V> for WeighBy<F> {
    ghost weighs = { λ by weight. IsWeighing (λ key. key.now) (λ value. value.now) (F.pre by.weigh)
        (F.post by.weigh) weight };

    fn weigh(&self, key: &K, value: &V) -> u32 {
        (self.weigh)(key, value)
    }
}

/// A weigher that returns 1 for each entry: the type of a cache's weigher if none is set.
#[derive(Clone, Copy, Debug, Default)]
pub struct NoWeigher;

impl<K, V> Weigher<K, V> for NoWeigher {
    ghost weighs = { λ _ weight. weight ≡ (λ _ _. 1) };

    fn weigh(&self, _key: &K, _value: &V) -> u32 {
        1
    }
}
