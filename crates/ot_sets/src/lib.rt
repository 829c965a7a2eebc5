//! Sets of numbers that differ little from one another: each part of a set once, and what came of two sets remembered.
#![tactic(auto)]

mod adding;
mod joining;
mod table;

pub use table::{SetId, Sets};
