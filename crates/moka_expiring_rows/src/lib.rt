//! A row store that finds the first expired row without a walk.
#![tactic(auto)]

pub mod expiring_rows;
