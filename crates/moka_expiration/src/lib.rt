//! The behaviour of a cache, and what the data that it stores means to the specification.
#![tactic(auto)]

pub mod behaviour;
pub mod expiration_policy;
pub mod live_value;
pub mod view;
