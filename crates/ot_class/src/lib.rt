//! The table of alpha classes over the table of types. Two terms differ at most in the names of their binders exactly
//! where their classes are one, and a class is made from those of a term's parts: no term is walked.
#![tactic(auto)]

mod id;
mod node;
mod table;

pub use id::ClassId;
pub use ot_lists::Key;
pub use table::Classes;
