//! The lines of an article, and the words that they hold.
#![tactic(auto)]

mod fault;
mod laws;
mod lines;
mod piece;
mod words;

pub use fault::ScanFault;
pub use laws::earlier_limit;
pub use lines::{Line, Lines};
pub use words::{Word, WordFault, command};
