//! Lists of variables without repetition, each with a number that it keeps, and how two of them are joined. Lists that
//! differ in one variable share most of their parts.
#![tactic(auto)]

mod joining;
mod list;
mod map;
mod sequence;

pub use joining::{Joined, join};
pub use list::{Key, Lists};
pub use map::{MapId, Maps};
pub use sequence::ListId;
