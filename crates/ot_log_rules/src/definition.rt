//! Definitions by the numbers of names and terms.
use crate::statement::Statement;
use ot_log_nodes::{NameId, TermId, VariableNode};

/// An accepted definition.
#[derive(Drop)]
pub enum Definition {
    /// A constant for a term.
    Constant {
        name: NameId,
        term: TermId,
    },
    /// Constants for the variables of a theorem, pair by pair.
    Constants {
        pairs: Vec<(NameId, VariableNode)>,
        premise: Statement,
    },
    /// A type operator over these variables, with the constants between it and the type that it is taken from.
    TypeOperator {
        name: NameId,
        abs: NameId,
        rep: NameId,
        vars: Vec<NameId>,
        premise: Statement,
    },
}

/// A definition that was accepted, and its theorems in order.
#[derive(Drop)]
pub struct Accepted {
    pub definition: Definition,
    pub theorems: Vec<Statement>,
}
