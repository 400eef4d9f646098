//! The definitions of a cache of several segments, and their laws. This crate has no code.
#![tactic(auto)]

pub mod segment_laws;
#[doc(hidden)]
pub mod worked_segments;
