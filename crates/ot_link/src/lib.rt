//! The run of theory files: blocks in their order, articles in contexts, packages inside packages.
#![tactic(auto)]

mod article;
mod blocks;
mod exports;
mod fault;
mod laws;
mod linking;
mod reading;
mod renaming;
mod setting;
mod showing;

pub use article::run_alone;
pub use fault::LinkFault;
pub use laws::ends_law;
pub use linking::{link, link_theory};
pub use reading::{read_theory, theory_in};
pub use showing::shown;
