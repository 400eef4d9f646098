//! Comparison of replies. No cache uses it.
#![tactic(auto)]

pub mod compare;
pub mod reply_laws;
