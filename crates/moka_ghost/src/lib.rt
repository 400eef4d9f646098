//! What a value was, for contracts only, in a type that threads may share.
#![tactic(auto)]

pub mod snapshot;
