//! Worked rows of the crates that know no kernel: their public calls, tried against values from
//! outside. These are the formats' own examples, or worked by hand. The crate is tests alone: it has no code of its
//! own.
#![tactic(auto)]

#[cfg(test)]
mod args;
#[cfg(test)]
mod blocks;
#[cfg(test)]
mod interp;
#[cfg(test)]
mod lines;
#[cfg(test)]
mod logic;
#[cfg(test)]
mod nodes;
#[cfg(test)]
mod parse;
#[cfg(test)]
mod records;
#[cfg(test)]
mod sample;
#[cfg(test)]
mod scan;
#[cfg(test)]
mod theory;
#[cfg(test)]
mod trace;
#[cfg(test)]
mod verify;
