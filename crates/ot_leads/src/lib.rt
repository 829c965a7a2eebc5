//! What the steps of a trace lead to: for each step at once, as sets that share parts.
#![tactic(auto)]

mod closing;
mod column;
mod finding;
mod meeting;
mod rising;

pub use finding::{Leads, Uses, find_leads};
