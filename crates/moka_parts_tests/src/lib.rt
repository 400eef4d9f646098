//! The tests of pieces that are no cache: the row stores, the loop that waits for turns, what a builder
//! refuses, the types of policies and values, and printed text.
#![tactic(auto)]

#[cfg(test)]
mod building;
#[cfg(test)]
mod frequencies;
#[cfg(test)]
mod policies;
#[cfg(test)]
mod single_flight;
#[cfg(test)]
mod step_text;
#[cfg(test)]
mod stores;
#[cfg(test)]
mod values;
