//! What no case of `mokabox` shows: readers and writers that fail, memory that is refused, and
//! threads that meet. All else of the program is in its `cases/`.
#![tactic(auto)]

#[cfg(test)]
mod failures;
#[cfg(test)]
mod workers;
