//! A value that only clauses read.
ghost use Rattle.std.specs.Prelude.{◌≡◌};
ghost use base.Fml.{ftrue};

use std::marker::{Model, PhantomData, Send, Sync};

/// What a value was when the snapshot was made, as clauses see it. It has no bytes and owns
/// nothing, so any thread may have it, whatever the value's type.
///
/// It is `std::snapshot::Snapshot` with the proofs of `Send` and `Sync` at hand. For a type with a
/// field of `std`'s snapshot the prover has no such proof, nor for any type around it. It searches
/// for one through all their fields, anew in each program that sends such a value to a thread.
pub struct SharedSnapshot<T> {
    marker: PhantomData<T>,
    /// What the value was.
    pub ghost value: { T },
}

impl<T> Model for SharedSnapshot<T> {
    ghost also_owns = { λ _. ftrue };
}

unsafe impl<T> Send for SharedSnapshot<T> {}

unsafe impl<T> Sync for SharedSnapshot<T> {}

impl<T> Drop for SharedSnapshot<T> {
    fn drop(self) {
        let Self { marker: _ } = self;
    }
}

impl<T> SharedSnapshot<T> {
    /// Creates a snapshot of what a value is now. Copies nothing, and takes no time.
    pub fn of(value: &T) -> Self
        ensures { result.value ≡ value.now }
    {
        let _ = value;
        SharedSnapshot {
            marker: PhantomData,
        }
    }
}
