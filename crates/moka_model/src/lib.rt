//! The specification of a cache: definitions over its history, cited by every contract (`specs/`).
//!
//! Also the public types that the definitions name, and the lemmas that the crates above use
//! (`proofs/Callers.antt`).
#![tactic(auto)]

pub mod comp_result;
pub mod entry;
pub mod notification;
pub mod turns;
