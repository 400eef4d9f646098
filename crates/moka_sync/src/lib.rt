//! Caches that threads share, and the builder of all caches.
#![tactic(auto)]

mod build;
pub mod builder;
pub mod cache;
mod compute_forms;
pub mod concurrent_cache_ext;
mod entry_forms;
pub mod entry_selector;
mod get_with;
mod mutex_with_initial;
mod removal_notifier;
pub mod segment;
mod segment_forms;
mod segment_turns;
mod turns;
mod value_initializer;
mod walks;
#[doc(hidden)]
pub mod worked_builder;
