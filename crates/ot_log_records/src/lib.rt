//! The records of a proof log, by what they name: their order and their text.
#![tactic(auto)]
