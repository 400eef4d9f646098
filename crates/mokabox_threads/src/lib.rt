//! The workers part of the program `mokabox`: threads that share a cache, each with keys of its
//! own.
#![tactic(auto)]

pub mod arguments;
pub mod threads;
mod worker;
