//! Statistics of a cache: hits, misses, loads and removals by cause, counted from what its calls
//! return; and the law that hits and misses together are the recorded lookups.
#![tactic(auto)]

pub mod stat_laws;
pub mod statistics;
