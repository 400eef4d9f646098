//! Owned caches that count what their calls return. A cache that is not counted costs nothing more.
#![tactic(auto)]

pub mod counted;

pub use moka_stats::statistics;
