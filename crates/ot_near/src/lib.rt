//! A table of nodes that refer to nodes by number: each node once, in the order in which they came.
//!
//! The hash table keeps a node near the greatest number that it refers to, which is mostly a young one, so what it reads
//! of memory was read not long ago. A number with many users has its further users far from it, all over the table, so
//! that none of them waits for the others.
#![tactic(auto)]

mod key;
mod place;
mod table;

pub use key::KeyHasher;
pub use place::Refers;
pub use table::NearMap;
