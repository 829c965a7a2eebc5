//! Readable text: the notation of a run, and sequents and terms that are read back from text.
#![tactic(auto)]

mod bases;
mod halt;
mod measured;
mod names;
mod notation;
mod parts;
mod plain;
mod readable;
mod reader;
mod refusal;
mod spelling;
mod symbols;
mod terms;
mod trees;
mod types;
mod values;
mod words;

pub use names::{base_of, is_bare};
pub use notation::{Notation, WordKind};
pub use ot_forms::TextFault;
pub use ot_text::PrintFault as PlainFault;
pub use plain::plain_text;
pub use readable::Readable;
pub use reader::{read_sequent, read_term};
pub use refusal::ReadRefusal;
pub use words::is_operator;
