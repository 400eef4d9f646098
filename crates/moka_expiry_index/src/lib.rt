//! An order of numbers with deadlines, and the first number in it whose deadline has come.
#![tactic(auto)]

pub mod expiry_index;
mod min_tree;
