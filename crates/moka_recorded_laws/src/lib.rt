//! Laws of runs of steps and of closed histories.
//!
//! A law is the contract of a function without code, so that the prover checks it.
#![tactic(auto)]

pub mod get_laws;
pub mod history_laws;
pub mod legal_laws;
pub mod run_laws;
