//! The printed texts of types, nameless terms, sequents and definitions by their numbers in a table,
//! and the summary of what a proof log proves. No part of the kernel is used.
//!
//! The printers put a text on a page, piece by piece, and read nothing once the page takes no more:
//! a term that shares its parts costs no more than the limit on its text. They go as deep as types
//! and terms are nested.
#![tactic(auto)]

mod definitions;
mod sequents;
mod summary;
mod table;
mod terms;
mod types;

pub use ot_text::PrintFault;
pub use summary::summary_text;
