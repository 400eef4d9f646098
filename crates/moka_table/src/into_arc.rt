//! Keys on their way into a cache, which shares each stored key by an `Arc`.
ghost use Rattle.std.specs.Prelude.{◌≡◌, IsOk, IfOk, IfErr};
ghost use Rattle.std.specs.Arc.{arc_value};

use std::alloc::Global;
use std::sync::Arc;

/// A key that a write no longer needs, to be dropped.
#[derive(Drop)]
pub enum UnusedKey<K> {
    /// A key that is not in an `Arc`.
    Owned(K),
    /// A key in an `Arc`.
    Shared(Arc<K>),
}

/// A key that can be put into an `Arc`.
pub trait IntoArc<K>: Drop {
    /// The key itself.
    ghost key_of: { Self → K };

    /// Returns the key by reference.
    fn key(&self) -> &K
        ensures { result.now ≡ key_of self.now };

    /// Puts the key into an `Arc`.
    ///
    /// # Errors
    ///
    /// - The key itself: an allocation failed.
    fn into_arc(self, alloc: Global) -> Result<Arc<K>, Self>
        ensures shared { IfOk result (λ shared. arc_value shared ≡ key_of self) }
        ensures handed_back { IfErr result (λ key. key ≡ self) };

    /// Returns the key as one that is not needed.
    fn into_unused(self) -> UnusedKey<K>;
}

/// A key that is not in an `Arc` yet.
#[derive(Drop)]
pub struct Owned<K>(pub K);

impl<K: Drop> IntoArc<K> for Owned<K> {
    ghost key_of = { λ owned. owned.0 };

    #[inline(always)]
    fn key(&self) -> &K {
        &self.0
    }

    #[inline(always)]
    fn into_arc(self, alloc: Global) -> Result<Arc<K>, Self> {
        let Owned(key) = self;
        match Arc::new(alloc, key) {
            Ok(shared) => Ok(shared),
            Err(failed) => Err(Owned(failed.value)),
        }
    }

    #[inline(always)]
    fn into_unused(self) -> UnusedKey<K> {
        let Owned(key) = self;
        UnusedKey::Owned(key)
    }
}

impl<K: Drop> IntoArc<K> for Arc<K> {
    ghost key_of = { λ shared. arc_value shared };

    #[inline(always)]
    fn key(&self) -> &K {
        &**self
    }

    /// Returns the key, which is in an `Arc` already. Never fails, and does not allocate.
    #[inline(always)]
    fn into_arc(self, _alloc: Global) -> Result<Arc<K>, Self>
        ensures shared { IfOk result (λ shared. arc_value shared ≡ arc_value self) }
        ensures handed_back { IfErr result (λ key. key ≡ self) }
        ensures succeeds { IsOk result }
    {
        Ok(self)
    }

    #[inline(always)]
    fn into_unused(self) -> UnusedKey<K> {
        UnusedKey::Shared(self)
    }
}
