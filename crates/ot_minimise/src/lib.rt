//! The minimised article of a run: its exports, behind the definitions that they need. But for numbers it makes nothing
//! twice in the same way.
#![tactic(auto)]

mod minimising;

pub use minimising::{minimise, roots_of};
