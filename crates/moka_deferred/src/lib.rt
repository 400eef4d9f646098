//! What a step no longer needs, kept until it can be dropped with no lock held.
#![tactic(auto)]

pub mod deferred;
