//! The table of steps: an origin is a number, and two numbers are equal exactly where the origins
//! are.
#![tactic(auto)]

mod counting;
mod operands;
mod reaching;
mod step;
mod trace;

pub use counting::uses;
pub use operands::Operands;
pub use reaching::reach;
pub use step::Step;
pub use trace::{StepId, Trace};
