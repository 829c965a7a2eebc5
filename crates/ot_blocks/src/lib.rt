//! The blocks of a theory file before they run: the faults of their structure, the order in which
//! they run, and the paths of the files that they name.
#![tactic(auto)]

mod fault;
mod laws;
mod paths;
mod structure;
mod walk;

pub use fault::{PlanFault, StructureFault};
pub use laws::{one_full_name, order_law, plan_law};
pub use paths::{article_path, is_package, name_part, package_path};
pub use structure::{Plan, plan_blocks};
