//! The version of this repository.

/// The version: what the file `VERSION` at the top of the repository says.
pub const VERSION: &str = "0.1.0";
