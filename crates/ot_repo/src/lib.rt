//! The packages that a theory file requires, by its `requires:` tags and the list of installed
//! packages.
#![tactic(auto)]

mod fault;
mod index;
mod laws;
mod names;
mod packages;
mod reading;
mod requirements;
mod walk;

pub use fault::RepoFault;
pub use laws::required_law;
pub use packages::required;
