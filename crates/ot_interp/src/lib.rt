//! Interpretations, which rename constants and type operators.
#![tactic(auto)]

mod interp;
mod laws;
mod pairs;

pub use interp::Interp;
pub use laws::after_law;
