//! The errors of a mass invalidation by a predicate.
use thiserror::Error;

/// Why a mass invalidation by a predicate failed. It has invalidated nothing then.
#[derive(Clone, Copy, Debug, PartialEq, Eq, Error)]
pub enum PredicateError {
    /// The cache was built without support for invalidation closures. The random generator was not
    /// used.
    #[error("InvalidationClosuresDisabled")]
    InvalidationClosuresDisabled,
    /// Allocating the id's text failed. The random generator may have been used.
    #[error("OutOfMemory")]
    OutOfMemory,
}
