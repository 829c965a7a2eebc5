//! The printed texts of what a kernel has: types, terms and sequents, and the summary of a run; and the law that a text
//! names one thing.
#![tactic(auto)]

mod definitions;
mod laws;
pub mod nodes;
mod sequents;
mod summary;
mod table;
mod terms;
mod types;

pub use laws::one_text;
pub use ot_text::PrintFault;
pub use sequents::sequent_text;
pub use summary::summary_text;
pub use table::InKernel;
pub use terms::term_text;
pub use types::type_text;
