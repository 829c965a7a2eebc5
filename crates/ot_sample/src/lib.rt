//! The sample article, as small or large as is wanted.
#![tactic(auto)]

mod laws;
mod sample;

pub use laws::sample_lines;
pub use sample::sample_article;
