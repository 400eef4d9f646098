//! Ready-made types of caches: with them a cache of plain values needs no line for the prover.
#![tactic(auto)]

pub mod clock;
pub mod copies;
pub mod frequency;
pub mod meant;
pub mod ready;
pub mod recorded;
