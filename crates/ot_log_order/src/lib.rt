//! Terms in the order of the bytes of their printed texts.
#![tactic(auto)]

mod comparing;
mod pieces;
mod sorting;

pub use sorting::sorted_by_text;
