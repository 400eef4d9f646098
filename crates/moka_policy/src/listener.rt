//! Listeners, the callbacks of shared caches for removals.
ghost use Rattle.std.specs.Prelude.{◌≡◌, ⊤};
ghost use Rattle.std.specs.Arc.{arc_value};
ghost use Rattle.std.specs.declared.alloc.Global.{Global};
ghost use Rattle.std.specs.declared.sync.Arc.{Arc};
ghost use Rattle.moka_model.specs.declared.notification.RemovalCause.{RemovalCause};

use moka_model::notification::RemovalCause;
use std::sync::Arc;

/// The callback of a shared cache for removals.
pub trait Listener<K, V> {
    /// Whether the listener may be called with this key and value.
    ghost hears: { Self → K → V → Type 0 };

    /// Receives one removal: the stored key, its value and the cause.
    fn removed(&self, key: Arc<K>, value: V, cause: RemovalCause)
        requires { hears self.now (arc_value key) value };
}

/// A listener that calls a closure.
#[derive(Clone, Copy, Debug)]
pub struct ListenBy<F> {
    listen: F,
}

impl<F> ListenBy<F> {
    /// Creates a listener that calls this closure.
    pub fn new(listen: F) -> Self
        ensures { result.listen ≡ listen }
    {
        ListenBy { listen }
    }
}

impl<K, V, F: Fn(Arc<K>, V, RemovalCause)> Listener<K, V> for ListenBy<F> {
    ghost hears = { λ by key value. (shared : Arc K Global) (cause : RemovalCause)
        → arc_value shared ≡ key → F.pre by.listen shared value cause };

    // Calls the closure with exactly these arguments.
    fn removed(&self, key: Arc<K>, value: V, cause: RemovalCause)
        requires { (shared : Arc K Global) (cause : RemovalCause) → arc_value shared ≡ arc_value key
            → F.pre self.now.listen shared value cause }
        ensures { F.post self.now.listen key value cause result }
    {
        (self.listen)(key, value, cause)
    }
}

/// A listener that does nothing: the type of a cache's listener if none is set.
#[derive(Clone, Copy, Debug, Default)]
pub struct NoListener;

impl<K: Drop, V: Drop> Listener<K, V> for NoListener {
    ghost hears = { λ _ _ _. ⊤ };

    fn removed(&self, _key: Arc<K>, _value: V, _cause: RemovalCause)
        requires { ⊤ }
    {}
}
