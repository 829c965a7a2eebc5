//! Matching of patterns with the terms of a kernel.
#![tactic(auto)]

mod find;
mod laws;
mod names;
mod terms;
mod types;

pub use find::{Match, find_match};
pub use laws::match_law;
