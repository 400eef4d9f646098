//! The value invariant of a history: if every value that calls are given satisfies it, so does
//! every value that they return. This crate has its definitions, its laws, and the lemmas that
//! upper crates use (`proofs/Callers.antt`). Each law is the contract of a function without code.
#![tactic(auto)]

pub mod keep_laws;
