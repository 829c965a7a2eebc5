//! The words of the command line, and the commands that they write.
#![tactic(auto)]

mod arguments;
mod command;
mod count;
mod sections;
mod settings;
mod verb;

pub use command::{Command, Usage, is_theory, one_reading};
pub use sections::Sections;
