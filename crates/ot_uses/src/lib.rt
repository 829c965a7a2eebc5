//! What each theorem of a run rests on: the assumptions and the definitions that its origin leads to.
#![tactic(auto)]

mod finding;
mod laws;
mod text;

pub use finding::{leads_of, uses};
pub use laws::{run_soundness_law, uses_law};
pub use text::uses_text;
