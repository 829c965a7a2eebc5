//! Substitution and beta on named terms. The results are those of the definitions on nameless forms, where nothing is
//! ever renamed; here a binder is renamed where it clashes.
#![tactic(auto)]

mod applying;
mod clash;
mod fault;
mod fresh;
mod images;
mod placed;
mod renamed;
mod results;
mod subst;
mod walk;

pub use applying::{apply, beta};
pub use fault::SubstFault;
pub use results::Results;
pub use subst::Subst;
