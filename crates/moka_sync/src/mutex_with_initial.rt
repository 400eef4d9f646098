//! A mutex whose initial value contracts see.
ghost use Rattle.std.specs.Prelude.{◌≡◌};

use moka_ghost::snapshot::SharedSnapshot;
use std::marker::Model;
use std::sync::{Mutex, MutexGuard, Wait};

/// A mutex. Contracts see its initial value: the value as it was when the mutex was made. What is
/// under the lock later they do not know.
#[derive(Drop)]
pub(crate) struct MutexWithInitial<T> {
    mutex: Mutex<T>,
    initial: SharedSnapshot<T>,
}

impl<T> Model for MutexWithInitial<T> {
    ghost Value = { T };

    ghost view = { λ mutex. mutex.initial.value };
}

impl<T> MutexWithInitial<T> {
    // Puts a value under a lock. It takes any type, so no other value at hand here could go under
    // the lock.
    pub(crate) fn new(value: T) -> Self
        ensures { result ≡ value }
    {
        MutexWithInitial {
            initial: SharedSnapshot::of(&value),
            mutex: Mutex::new(value),
        }
    }

    // Locks the value, once nobody else holds the lock.
    pub(crate) fn lock<W: Wait>(&self, waits: &W) -> MutexGuard<'_, T> {
        self.mutex.lock(waits)
    }
}
