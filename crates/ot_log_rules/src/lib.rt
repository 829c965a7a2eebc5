//! The steps of a proof log over a table of names, types and nameless terms: the sequent that each case of a derivation
//! gives, and what definitions are asked for and give.
#![tactic(auto)]

mod abstraction;
mod conditions;
mod defining;
mod definition;
mod kept;
mod parts;
mod put;
mod rules;
mod sets;
mod shapes;
mod signature;
mod statement;
mod typing;

pub use abstraction::abs_thm;
pub use defining::{constant, constants, type_operator};
pub use definition::{Accepted, Definition};
pub use kept::{Kept, assumption, copied};
pub use put::subst;
pub use rules::{app_thm, assume, beta_conv, deduct_antisym, eq_mp, refl};
pub use shapes::{Sides, as_equation};
pub use signature::Signature;
pub use statement::{Statement, StepFault, minus, union};
pub use typing::{are_statements_within, is_statement_within};
