//! The records of theorems and of definitions in a proof log, by the words of an article that make them, over a table
//! of names, types and terms.
#![tactic(auto)]

mod definitions;
mod lists;
mod words;

pub use definitions::{write_constant, write_constants, write_type_operator};
pub use lists::{write_axiom, write_subst};
pub use words::{Made, write_abs_thm, write_of_one_term, write_of_theorems, write_symmetric};
