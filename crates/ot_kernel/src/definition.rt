//! Definitions by number.
use crate::theorem::ThmId;
use ot_logic::NameId;
use ot_term::VarKey;

/// An accepted definition: its symbols, its premise and its theorems.
#[derive(Drop)]
pub enum Definition {
    /// A constant, with the theorem that it equals its term.
    Con {
        name: NameId,
        th: ThmId,
    },
    /// Constants for the variables of a theorem, pair by pair.
    List {
        names: Vec<NameId>,
        vars: Vec<VarKey>,
        premise: ThmId,
        th: ThmId,
    },
    /// A type operator over these variables, with the constants between it and the type that it is taken from.
    TyOp {
        name: NameId,
        abs: NameId,
        rep: NameId,
        vars: Vec<NameId>,
        premise: ThmId,
        abs_th: ThmId,
        rep_th: ThmId,
    },
}
