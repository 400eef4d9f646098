//! The types that a cache is made of: its policy, weigher, expiry, predicate, frequency source,
//! listener, clock and hasher of numbers. Also the errors of cache builders and of writes.
#![tactic(auto)]

pub mod builder_utils;
pub mod clock;
pub mod expiry;
pub mod frequency;
pub mod listener;
pub mod policy;
pub mod predicate;
pub mod refused;
pub mod weigher;
