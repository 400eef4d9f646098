//! The table of a cache: its rows with the queue of notices, and the slots of writes.
#![tactic(auto)]

pub mod into_arc;
pub mod invalidation;
pub mod live_entry;
pub mod scanning;
pub mod table;
pub mod write_slot;
