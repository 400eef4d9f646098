//! A machine that threads share, with the history of its steps: receipts that prove what each
//! thread did.
#![tactic(auto)]

pub mod guarded_machine;
pub mod law;
pub mod machine;
pub mod naming;
pub mod opened;
pub mod pass;
pub mod receipt;
pub mod recorded;
mod witness;
