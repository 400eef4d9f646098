//! Iteration over states that are passed in anew at each call.
#![tactic(auto)]

pub mod cursor;
