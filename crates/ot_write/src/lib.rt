//! The written article: origins as lines, up to a limit.
#![tactic(auto)]

mod article;
mod lines;
mod roots;
mod text;
mod writer;

pub use article::{needed_steps, write_article};
pub use roots::Roots;
pub use text::WriteRefusal;
