//! Jobs that threads do at once with a shared value, each with a part of its own.
#![tactic(auto)]

pub mod job;
