//! Two doubly linked lists of rows, the pending and the resident ones, in one arena, and an index
//! of the rows by hash. The index has a chain for each hash, over the same arena.
#![tactic(auto)]

mod bucket_heads;
pub mod deques;
pub mod identity_hasher;
mod nodes;
pub mod row_index;
