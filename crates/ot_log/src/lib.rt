//! The writer of proof logs: the theorems of a run as records in the primitive rules of higher-order logic.
#![tactic(auto)]

mod defining;
mod theorems;
mod worklist;
mod writer;
mod writing;

pub use writing::{LogRefusal, write_log};
