//! The script part of the program `mokabox`: runs a script of cache calls and prints their results.
//!
//! It has everything but the creation of its reader and its writer.
#![tactic(auto)]

mod one_of;
pub mod program;
pub mod script;
mod session;
pub mod version;
