//! The written article.
#![tactic(auto)]

mod laws;

pub use laws::{needed_set_law, renamed_article_law, same_origin_law, stored_enough_law};
