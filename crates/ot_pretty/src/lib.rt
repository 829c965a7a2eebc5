//! The readable text of a theorem under a notation, and the symbols of a run.
#![tactic(auto)]

mod laws;
mod nodes;
mod search;
mod sequents;
mod summary;
mod symbols;
mod table;
mod terms;
mod types;
mod words;

pub use laws::reads_back;
pub use ot_text::PrintFault;
pub use sequents::readable_text;
pub use summary::{readable_summary, run_notation};
pub use symbols::run_symbols;
