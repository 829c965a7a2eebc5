//! The lines of a text file, as articles and theory files have them: cut after each newline, and
//! trimmed.
#![tactic(auto)]

mod piece;

pub use piece::{
    is_blank, is_passed_over, is_skipped, near_len, one_cut, piece_len, trimmed, trimmed_back,
    trimmed_front, without_last,
};
