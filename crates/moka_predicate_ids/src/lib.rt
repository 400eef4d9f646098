//! What a mass invalidation by a predicate returns: its id, or an error.
#![tactic(auto)]

pub mod predicate_error;
pub mod predicate_id;
#[doc(hidden)]
pub mod worked_ids;
