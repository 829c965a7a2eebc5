ghost use Rattle.std.specs.Prelude.{◌≡◌, ◌||◌, [], not, IfOk, OnOk};
ghost use Rattle.ot_theory.specs.Interpretations.{Symbol, same_symbol};
ghost use Rattle.ot_theory.specs.Reading.{has_symbol, HoldsSymbols};

use crate::interpretation::SymbolWord;
use ot_logic::{Memory, Name};
use std::alloc::Global;
use std::collections::HashSet;

/// Symbols, each a kind and a name.
#[derive(Drop)]
pub(crate) struct Symbols {
    constants: HashSet<Name>,
    type_operators: HashSet<Name>,
}

impl Symbols {
    pub fn new(alloc: Global) -> Symbols
        ensures { HoldsSymbols result [] }
    {
        Symbols {
            constants: HashSet::new(alloc),
            type_operators: HashSet::new(alloc),
        }
    }

    /// Adds a symbol, and answers whether it is new.
    pub fn add(&mut self, kind: SymbolWord, name: Name) -> Result<bool, Memory>
        ensures added { IfOk result (λ added. added ≡ not (has_symbol self.old (kind, name))) }
        ensures holds { OnOk result ((other : Symbol) →
            has_symbol self.new other ≡ (same_symbol (kind, name) other || has_symbol self.old other)) }
    {
        let added = match kind {
            SymbolWord::Con => self.constants.insert(name)?,
            SymbolWord::TyOp => self.type_operators.insert(name)?,
        };
        Ok(added)
    }
}
