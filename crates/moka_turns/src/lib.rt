//! Turns, which make single flight: one caller computes a value for a key, and others wait for its
//! result.
#![tactic(auto)]

pub mod begin;
pub mod by_name;
pub mod discards;
pub mod handles;
pub mod table;
pub mod turn_key;
pub mod turn_name;
mod waiter_value;
