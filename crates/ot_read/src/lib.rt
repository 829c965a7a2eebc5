//! The lines of a readable text: the sequents that they stand for, or the first refusal, and the texts that are
//! printed of them.
#![tactic(auto)]

mod laws;
mod lines;
mod printing;

pub use laws::as_the_forms_say;
pub use lines::{LineRefusal, read_lines};
pub use printing::sequents_text;
