//! Laws of replies: theorems about what calls return, and worked cases.
//!
//! They say which calls find the same, what a count is, of what a caller gets a clone, and which
//! calls may run out of memory. Each is the contract of a function without code.
#![tactic(auto)]

pub mod memory_laws;
pub mod notice_laws;
pub mod reply_laws;
pub mod worked_replies;
