//! The row store of a cache, in which most calls take constant time.
#![tactic(auto)]

mod lookup;
mod slab_row;
pub mod slab_rows;
