//! The owned cache of several segments: its segments, its calls, and runs of steps.
#![tactic(auto)]

pub mod all_segments;
pub mod by_ref;
pub mod entry_selector;
pub mod get_with;
pub mod opening;
pub mod or_insert;
pub mod segment;
pub mod segmented_view;
pub mod step;
pub mod turns;
