//! Worked rows of the tables, of the kernel, and of what stands on it or on files: their public calls, tried against
//! values from outside. These are the formats' own examples, or worked by hand. The crate is tests alone: it has no
//! code of its own.
#![tactic(auto)]

#[cfg(test)]
mod alpha;
#[cfg(test)]
mod building;
#[cfg(test)]
mod folder;
#[cfg(test)]
mod fresh;
#[cfg(test)]
mod io;
#[cfg(test)]
mod limits;
#[cfg(test)]
mod link;
#[cfg(test)]
mod matching;
#[cfg(test)]
mod operators;
#[cfg(test)]
mod pretty;
#[cfg(test)]
mod print;
#[cfg(test)]
mod repo;
#[cfg(test)]
mod rules;
#[cfg(test)]
mod subst;
#[cfg(test)]
mod terms;
#[cfg(test)]
mod types;
