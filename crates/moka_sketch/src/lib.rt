//! A sketch that estimates how often hashes were noted, and distinguishes them better than a table
//! of counters.
#![tactic(auto)]

pub mod frequency_sketch;
