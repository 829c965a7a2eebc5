//! The kernel: it owns names, types and terms, and holds theorems of higher-order logic, each derivable.
#![tactic(auto)]

mod axioms;
mod candidates;
mod defining;
mod definition;
mod definitions;
mod discharge;
mod equations;
mod fault;
mod hypotheses;
mod instances;
mod kernel;
mod key;
mod membership;
mod open_types;
mod pairs;
mod places;
mod rules;
mod theorem;
mod type_operators;
mod within;

pub use candidates::Candidates;
pub use definition::Definition;
pub use fault::RuleFault;
pub use kernel::Kernel;
pub use open_types::Type5;
pub use places::Places;
pub use theorem::ThmId;
