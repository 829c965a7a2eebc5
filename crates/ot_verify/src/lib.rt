//! The check of a proof log.
#![tactic(auto)]

mod checking;
mod fault;
mod finding;
mod lists;
mod log;
mod operand;
mod operands;
mod reader;
mod records;
mod token;

pub use checking::{Verified, verify};
pub use fault::{LogFault, VerifiedText, VerifyFault};
