//! The owned cache for C: calls of a cache that C holds by a handle.
#![tactic(auto)]

mod buffers;
pub mod byte_cache;
pub mod byte_strings;
pub mod byte_types;
pub mod code;
pub mod held_numbers;
pub mod held_strings;
pub mod key;
pub mod notices;
pub mod number_cache;
pub mod numbers;
pub mod parts;
pub mod settings;
