//! The tests of the shared caches that need threads: what runs under a lock, who waits for whom and
//! wakes, and when a loader gives up. Most run on a cache with one lock and on one of four segments.
#![tactic(auto)]

#[cfg(test)]
mod beside;
#[cfg(test)]
mod calls;
#[cfg(test)]
mod items;
#[cfg(test)]
mod waiting;
#[cfg(test)]
mod world;
