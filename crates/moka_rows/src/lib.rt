//! The rows of a cache: the trait of row stores, and one plain store.
#![tactic(auto)]

pub mod counted_row;
pub mod list_rows;
mod lookup;
pub mod packed;
pub mod rows;
pub mod visits;
