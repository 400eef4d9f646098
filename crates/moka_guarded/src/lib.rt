//! What the lock of a shared cache guards: a state with its clock, and their calls.
#![tactic(auto)]

pub mod guarded;
mod guarded_turns;
