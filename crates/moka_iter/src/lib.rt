//! Walks over the segments of a cache: iteration, one pair a call.
#![tactic(auto)]

pub mod iter;
pub mod position;
pub mod walk_laws;
