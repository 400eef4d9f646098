//! The owned cache: its state, its calls, its selectors and its steps.
#![tactic(auto)]

mod again;
pub mod answers;
pub mod begin;
pub mod by_hash;
pub mod by_ref;
pub mod call_view;
pub mod compute;
mod compute_forms;
pub mod discards;
mod entry_forms;
pub mod entry_selector;
pub mod finish;
pub mod get_with;
mod handed_out;
pub mod invalidation;
pub mod loader;
pub mod or_insert;
mod recorded;
pub mod removal;
pub mod scanning;
pub mod state;
pub mod step;
mod step_copy;
mod step_text;
mod turn_replies;
mod turn_step;
pub mod value_initializer;

pub use moka_expiration::view;
pub use moka_expiring_rows::expiring_rows;
pub use moka_predicate_ids::{predicate_error, predicate_id};
pub use moka_rows::{list_rows, packed, rows};
pub use moka_slab::slab_rows;
pub use moka_turns::{handles, turn_name};
