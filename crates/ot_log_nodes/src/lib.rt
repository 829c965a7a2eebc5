//! Names, types and nameless terms in one table, each once: equal ones have equal numbers.
#![tactic(auto)]

mod node;
mod table;

pub use node::{NameId, TermId, TermNode, TypeId, TypeNode, VariableNode};
pub use table::{Change, DEPTH_LIMIT, Done, Nodes, Typed, Typings};
