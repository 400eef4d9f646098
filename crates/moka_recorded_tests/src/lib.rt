//! The tests of the recorded cache: its receipts, its history, its errors, how its callers wait for
//! each other, and what a refused request leaves.
//!
//! A test is a scene: rows of calls with what their replies say. Behind each scene the cache is
//! closed, and an owned cache is given the steps of its history.
#![tactic(auto)]

#[cfg(test)]
mod act;
#[cfg(test)]
mod calls;
#[cfg(test)]
mod marks;
#[cfg(test)]
mod player;
#[cfg(test)]
mod scene;
#[cfg(test)]
mod tests;
