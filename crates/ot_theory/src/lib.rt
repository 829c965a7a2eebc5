//! The grammar of theory files.
#![tactic(auto)]

mod fault;
mod forms;
mod interpretation;
mod keys;
mod laws;
mod lines;
mod quoted;
mod reading;
mod statement;
mod symbols;
mod theory;
mod values;

pub use fault::{TheoryError, TheoryFault};
pub use interpretation::{SymbolWord, quoted_name, split_interpret};
pub use keys::{Key, key_of};
pub use laws::{one_interpretation, one_path, places};
pub use lines::{Line, next_line};
pub use theory::{Block, Tag, Theory, parse};
