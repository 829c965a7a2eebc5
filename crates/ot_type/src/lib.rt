//! The table of types: a type is a number, and two numbers are equal exactly where the types are.
#![tactic(auto)]

mod fault;
mod node;
mod subst;
mod table;

pub use fault::TableFault;
pub use node::TypeNode;
pub use subst::TypeSubst;
pub use table::{TypeId, Types};
