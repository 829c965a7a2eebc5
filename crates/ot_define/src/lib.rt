//! The conditions under which constants and type operators may be defined, and the symbols of a run so far.
#![tactic(auto)]

mod constants;
mod fault;
mod lists;
mod premise;
mod sets;
mod signature;
mod symbols;
mod types;

pub use fault::DefineFault;
pub use signature::Signature;
pub use symbols::{constant_symbol, constant_symbols, type_symbols};
