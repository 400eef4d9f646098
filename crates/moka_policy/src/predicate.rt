//! Predicates, which select the entries that a mass invalidation invalidates.
ghost use Rattle.std.specs.Prelude.{◌≡◌, Bool, false};
ghost use Rattle.moka_policy.specs.Policy.{IsTesting};

/// Selects the stored entries that a mass invalidation invalidates.
pub trait Predicate<K, V> {
    /// Whether this predicate computes this test of keys and values.
    ghost tests: { Self → (K → V → Bool) → Type 0 };

    /// Returns whether the predicate holds of a stored key and its value.
    ///
    /// It is called once for each entry that is stored when the invalidation comes.
    fn holds(&self, key: &K, value: &V) -> bool
        requires { (test : K → V → Bool) × tests self.now test }
        ensures { (test : K → V → Bool) → tests self.now test → result ≡ test key.now value.now };
}

/// A predicate that calls a closure.
#[derive(Clone, Copy, Debug)]
pub struct HoldsIf<F> {
    holds: F,
}

impl<F> HoldsIf<F> {
    /// Creates a predicate that calls this closure.
    pub fn new(holds: F) -> Self
        ensures { result.holds ≡ holds }
    {
        HoldsIf { holds }
    }
}

impl<K, V, F: Fn(&K, &V) -> bool> Predicate<K, V> for HoldsIf<F> {
    ghost tests = { λ by test. IsTesting (λ key. key.now) (λ value. value.now) (F.pre by.holds)
        (F.post by.holds) test };

    fn holds(&self, key: &K, value: &V) -> bool {
        (self.holds)(key, value)
    }
}

/// A predicate that holds of nothing: the type of a cache's predicates if it has none.
#[derive(Clone, Copy, Debug, Default)]
pub struct NoPredicate;

impl<K, V> Predicate<K, V> for NoPredicate {
    ghost tests = { λ _ test. test ≡ (λ _ _. false) };

    fn holds(&self, _key: &K, _value: &V) -> bool {
        false
    }
}
