//! The search for a pattern: the exports whose conclusion it matches, and their text.
//!
//! The sources of a search are run one after another, each in a session of its own, and only the text of their
//! matches is kept. So a program begins a `Search` once it has the pattern, hands it each source's kernel and exports
//! in the order in which they are to be printed, lets go of that source's session, and ends with `Search::finish`,
//! which puts the count in front. A source whose session has to be there before the search begins, as the one whose
//! notation the pattern is read with, stays until its turn comes. A search that has no more room, or no more memory,
//! does nothing more and says so at the end alone, so what a later source's run is refused for comes first.
#![tactic(auto)]

mod laws;
mod lines;
mod search;

pub use laws::find_law;
pub use ot_text::PrintFault;
pub use search::Search;
