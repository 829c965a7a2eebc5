//! The printed texts of types, terms and sequents, the law that a text names one of them, and a page on which a text
//! is put: items by a table, the front of a sequent, the sections of a summary.
#![tactic(auto)]

mod fault;
mod gather;
mod hyps;
mod laws;
mod page;
mod printable;
mod sections;
mod separated;
mod types;

pub use fault::PrintFault;
pub use gather::{add_text, gathered};
pub use hyps::{put_hypotheses, put_hyps};
pub use laws::one_text;
pub use page::Page;
pub use printable::{Printable, append};
pub use sections::{put_indented, put_section, put_sorted_section};
pub use separated::put_separated;
pub use types::{TypeForm, Types, is_arrow, is_text, put_name, put_type, put_typed};
