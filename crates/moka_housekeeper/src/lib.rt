//! The maintenance of a cache: what it evicts, and what it admits.
#![tactic(auto)]

pub mod housekeeper;
pub mod maintain;
pub mod visit_laws;
