//! Laws: theorems about the definitions, in the terms of a cache, and worked cases.
//!
//! A law is the contract of a function without code, so that the prover checks it. So is a worked
//! case, unless it calls closures.
#![tactic(auto)]

pub mod admission_laws;
pub mod call_laws;
pub mod frequency_laws;
pub mod hiding_laws;
pub mod laws;
pub mod maintenance_laws;
pub mod order_laws;
pub mod own_life_laws;
pub mod size_laws;
pub mod sketch_laws;
pub mod turn_laws;
#[doc(hidden)]
pub mod worked;
#[doc(hidden)]
pub mod worked_admission;
#[doc(hidden)]
pub mod worked_building;
#[doc(hidden)]
pub mod worked_calls;
#[doc(hidden)]
pub mod worked_expiry;
#[doc(hidden)]
pub mod worked_frequency;
#[doc(hidden)]
pub mod worked_maintenance;
#[doc(hidden)]
pub mod worked_size;
#[doc(hidden)]
pub mod worked_sketch;
#[doc(hidden)]
pub mod worked_turns;
