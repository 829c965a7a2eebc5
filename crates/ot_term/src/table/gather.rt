//! The type variables and the symbols of a term.
ghost use Rattle.std.specs.Prelude.{◌≡◌, ◌<◌, ◌++◌, length, map, IfOk, OnOk};
ghost use Rattle.std.specs.List.{All, flat_map};
ghost use Rattle.ot_logic.specs.Hol.{symbols_tm, vars_tm};
ghost use Rattle.ot_logic.specs.NamedTerms.{nameless};
ghost use Rattle.ot_logic.specs.Lists.{AreDistinct, IsSameSet};
ghost use Rattle.ot_logic.specs.Naming.{numbers};
ghost use Rattle.ot_type.specs.TypeTable.{type_at};
ghost use Rattle.ot_term.specs.Symbols.{symbol_of, constant_of, operator_of, variable_name};

use crate::collect::distinct;
use crate::table::Terms;
use crate::term::{Symbol, SymbolKind, TermId, TermNode};
use ot_logic::{Memory, NameId};
use ot_type::{TypeId, TypeNode, Types};
use std::alloc::Global;

impl Terms {
    ghost use Rattle.ot_term.specs.TermTable.{term_at};

    /// The names of the type variables of a term, each once. A subterm or a type that is shared is looked at once.
    pub fn type_vars(&self, alloc: Global, id: TermId) -> Result<Vec<NameId>, Memory>
        requires { id < length self.now.terms }
        ensures names { IfOk result (λ names. IsSameSet names.items
            (vars_tm numbers (nameless numbers (term_at self.now.terms id)))) }
        ensures once { IfOk result (λ names. AreDistinct names.items) }
    {
        let terms = self.subterms(alloc, id)?;
        let types = self.types_in(alloc, terms.as_slice())?;
        variable_names(alloc, self.types(), types.as_slice())
    }

    /// The constants and the type operators of a term, each once, type operators inside types too. A subterm or a type
    /// that is shared is looked at once.
    pub fn symbols(&self, alloc: Global, id: TermId) -> Result<Vec<Symbol>, Memory>
        requires { id < length self.now.terms }
        ensures symbols { IfOk result (λ symbols. IsSameSet (map symbol_of symbols.items)
            (symbols_tm numbers (nameless numbers (term_at self.now.terms id)))) }
        ensures once { IfOk result (λ symbols. AreDistinct symbols.items) }
    {
        let terms = self.subterms(alloc, id)?;
        let types = self.types_in(alloc, terms.as_slice())?;
        let mut symbols = Vec::new(alloc);
        self.add_constants(terms.as_slice(), &mut symbols)?;
        add_operators(self.types(), types.as_slice(), &mut symbols)?;
        distinct(alloc, symbols.as_slice())
    }

    /// Adds the symbol of each constant among the terms.
    fn add_constants(&self, ids: &[TermId], symbols: &mut Vec<Symbol>) -> Result<(), Memory>
        requires { All (λ i. i < length self.now.terms) ids.now }
        ensures { OnOk result (symbols.new.items ≡ symbols.old.items
            ++ flat_map (λ i. constant_of (term_at self.now.terms i)) ids.now) }
    {
        for id in ids {
            if let TermNode::Const(name, _) = *self.node(*id) {
                symbols.push(Symbol {
                    kind: SymbolKind::Con,
                    name,
                })?;
            }
        }
        Ok(())
    }
}

/// The names of those types that are variables.
fn variable_names(alloc: Global, types: &Types, ids: &[TypeId]) -> Result<Vec<NameId>, Memory>
    requires { All (λ i. i < length types.now) ids.now }
    ensures { IfOk result (λ names. names.items ≡ flat_map (λ i. variable_name (type_at types.now i)) ids.now) }
{
    let mut names = Vec::new(alloc);
    for id in ids {
        if let TypeNode::Var(name) = types.node(*id) {
            names.push(*name)?;
        }
    }
    Ok(names)
}

/// Adds the symbol of the operator of each type that has one.
fn add_operators(types: &Types, ids: &[TypeId], symbols: &mut Vec<Symbol>) -> Result<(), Memory>
    requires { All (λ i. i < length types.now) ids.now }
    ensures { OnOk result
        (symbols.new.items ≡ symbols.old.items ++ flat_map (λ i. operator_of (type_at types.now i)) ids.now) }
{
    for id in ids {
        if let TypeNode::Op(name, _) = types.node(*id) {
            symbols.push(Symbol {
                kind: SymbolKind::TyOp,
                name: *name,
            })?;
        }
    }
    Ok(())
}
