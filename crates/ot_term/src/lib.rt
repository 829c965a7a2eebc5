//! The table of terms over the table of types. Each term has a number that it keeps, and two numbers are equal exactly
//! where the named trees are. Each term is well typed and within the nesting limit.
#![tactic(auto)]

mod collect;
mod nodes;
mod steps;
mod table;
mod term;

pub use nodes::Nodes;
pub use steps::Steps;
pub use table::Terms;
pub use term::{Symbol, SymbolKind, TermFault, TermId, TermNode, VarKey};
