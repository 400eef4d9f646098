//! The lines of a script, read as settings and commands, and the lines that the program prints.
#![tactic(auto)]

pub mod bad_line;
pub mod command;
pub mod fields;
pub mod output_line;
pub mod settings;
pub mod turn;
