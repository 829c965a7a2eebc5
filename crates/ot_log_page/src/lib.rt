//! A proof log that is written, by numbers of names, types and terms.
#![tactic(auto)]

mod derive;
mod expand;
mod operand;
mod sheet;

pub use derive::{is_lower_lemma, prove_hyp, sym, trans};
pub use expand::{write_of_term, write_of_two, write_prove_hyp, write_sym, write_trans};
pub use operand::Operand;
pub use sheet::Sheet;
