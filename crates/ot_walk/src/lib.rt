//! A walk, depth first: its definition, and its laws.
#![tactic(auto)]
