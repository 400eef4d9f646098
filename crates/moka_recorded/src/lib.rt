//! The recorded cache: a shared cache that keeps the history of its steps.
#![tactic(auto)]

mod ask;
pub mod built;
mod get_with;
pub mod named;
pub mod recorded_cache;
pub mod recorded_state;
pub mod refused;

pub use moka_recording::{naming, receipt};
