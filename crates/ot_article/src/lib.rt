//! What a written article does when it is run alone.
#![tactic(auto)]

mod laws;

pub use laws::{minimised_law, written_article_law};
