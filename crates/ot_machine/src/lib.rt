//! The stack machine: it runs the commands of articles over a kernel.
#![tactic(auto)]

mod context;
mod definition_lists;
mod element;
mod exports;
mod fault;
mod laws;
mod lists;
mod machine;
mod makers;
mod object;
mod parts;
mod places;
mod rows;
mod session;
mod steps;
mod stores;
mod substitutions;

pub use context::{Context, Given};
pub use fault::{ArticleFault, Fault};
pub use laws::{axiom_law, fresh_law, lines_law, results_law, run_law, stays_law, step_law};
pub use machine::{Export, Machine};
pub use session::Session;
