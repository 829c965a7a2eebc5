//! The plain data of articles, and the definitions that everything above speaks of.
#![tactic(auto)]

mod command;
mod kind;
mod limits;
mod memory;
mod name;
mod names;
mod tree;

pub use command::Cmd;
pub use kind::Kind;
pub use limits::{DEPTH_LIMIT, INDEX_LIMIT, Limits, TEXT_LIMIT};
pub use memory::Memory;
pub use name::{Name, NameFault, one_answer, one_name, one_spelling};
pub use names::{NameId, Names};
pub use tree::{Tm, Ty};
