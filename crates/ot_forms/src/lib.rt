//! The forms of readable text, what a line of them stands for, and why a line is refused; and the laws of these
//! definitions.
#![tactic(auto)]

mod fault;
mod laws;

pub use fault::TextFault;
pub use laws::{one_reading, reads_back, words_differ};
