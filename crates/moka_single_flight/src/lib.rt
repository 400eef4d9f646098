//! The loop of a call that waits for another caller's turn.
#![tactic(auto)]

pub mod participant;
pub mod replies;
pub mod wait;
