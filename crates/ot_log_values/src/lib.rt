//! The names, variables, types and terms that the steps of a trace made, and the elements of their lists, as numbers
//! of a node table.
#![tactic(auto)]

mod lists;
mod maps;
mod steps;
mod values;

pub use lists::names;
pub use steps::{elements, name};
pub use values::Values;
