//! The symbols of a run so far, and the checks of symbols against them.
ghost use Rattle.std.specs.Prelude.{◌≡◌, ◌<◌, ◌||◌, ◌++◌, [], length, map, OnOk, OnErr};
ghost use Rattle.std.specs.List.{All, find};
ghost use Rattle.ot_logic.specs.Faults.{Primitive, SymbolInUse};
ghost use Rattle.ot_logic.specs.Hol.{primitives, symbols_of};
ghost use Rattle.ot_logic.specs.Naming.{numbers};
ghost use Rattle.ot_term.specs.Symbols.{symbol_of};
ghost use Rattle.ot_laws.specs.Conditions.{checked_symbols, is_among, refuse_defined, refuse_first};
ghost use Rattle.ot_define.specs.Answers.{Checks, sequent_at};

use crate::fault::DefineFault;
use crate::premise::symbols_in;
use crate::sets::add_all;
use indexmap::IndexSet;
use ot_logic::{Memory, NameId};
use ot_term::{Symbol, SymbolKind, TermId, Terms};
use std::alloc::Global;
use std::marker::Model;

/// The symbols that were defined so far, and those that occur in the definitions.
#[derive(Drop)]
pub struct Signature {
    defined: IndexSet<Symbol>,
    used: IndexSet<Symbol>,
}

impl Model for Signature {
    ghost use Rattle.ot_define.specs.Signature.{Symbols, coded_symbols};

    ghost Value = { Symbols };

    ghost coded = { coded_symbols };

    ghost use Rattle.std.specs.Prelude.{map};
    ghost use Rattle.ot_term.specs.Symbols.{symbol_of};

    ghost view = { λ s. record { defined = map symbol_of s.defined.keys; used = map symbol_of s.used.keys } };
}

impl Signature {
    ghost use Rattle.ot_define.specs.Signature.{with_symbols};

    /// The signature before the first definition.
    pub fn new(alloc: Global) -> Signature
        ensures { result ≡ record { defined = []; used = [] } }
    {
        Signature {
            defined: IndexSet::new(alloc),
            used: IndexSet::new(alloc),
        }
    }

    /// Records the symbols that a definition defines, and those that occur in it. After running out of memory all is as
    /// before.
    pub fn add(&mut self, defined: &[Symbol], used: &[Symbol]) -> Result<(), Memory>
        ensures ok { OnOk result
            (self.new ≡ record {
              defined = with_symbols self.old.defined (map symbol_of defined.now);
              used =
                  with_symbols self.old.used (map symbol_of used.now);
            }) }
        ensures err { OnErr result (self.new ≡ self.old) }
    {
        let before = self.defined.len();
        add_all(&mut self.defined, defined)?;
        if let Err(refused) = add_all(&mut self.used, used) {
            self.defined.truncate(before);
            return Err(refused);
        }
        Ok(())
    }

    /// Whether the symbols may be defined from a premise of these terms.
    pub(crate) fn check_symbols(
        &self,
        alloc: Global,
        terms: &Terms,
        hyps: &[TermId],
        concl: TermId,
        symbols: &[Symbol],
    ) -> Result<(), DefineFault>
        requires hyps { All (λ i. i < length terms.now.terms) hyps.now }
        requires concl { concl < length terms.now.terms }
        ensures { Checks result
            (checked_symbols numbers self.now.defined self.now.used
            (symbols_of numbers (sequent_at terms.now.terms hyps.now concl)) (map symbol_of symbols.now)) }
    {
        refuse_primitive(symbols)?;
        self.refuse_defined(alloc, symbols)?;
        let premise = symbols_in(alloc, terms, hyps, concl)?;
        self.refuse_used(&premise, symbols)
    }

    /// Refuses the first of the symbols that is defined, or stands before.
    fn refuse_defined(&self, alloc: Global, symbols: &[Symbol]) -> Result<(), DefineFault>
        ensures { Checks result (refuse_defined numbers self.now.defined (map symbol_of symbols.now)) }
    {
        let mut before = IndexSet::new(alloc);
        for symbol in symbols {
            if self.is_taken(&before, symbol) {
                return Err(DefineFault::AlreadyDefined(*symbol));
            }
            before.insert(*symbol)?;
        }
        Ok(())
    }

    /// Whether the symbol stands before, or is defined.
    fn is_taken(&self, before: &IndexSet<Symbol>, symbol: &Symbol) -> bool
        ensures { result
            ≡ is_among numbers (symbol_of symbol.now) (map symbol_of before.now.keys ++ self.now.defined) }
    {
        has_symbol(before, symbol) || has_symbol(&self.defined, symbol)
    }

    /// Refuses the first of the symbols that occurs in the premise, or in a definition.
    fn refuse_used(&self, premise: &IndexSet<Symbol>, symbols: &[Symbol]) -> Result<(), DefineFault>
        ensures { Checks result
            (refuse_first numbers SymbolInUse (λ s. is_among numbers s (map symbol_of premise.now.keys)
            || is_among numbers s self.now.used) (map symbol_of symbols.now)) }
    {
        match self.first_used(premise, symbols) {
            Some(symbol) => Err(DefineFault::SymbolInUse(symbol)),
            None => Ok(()),
        }
    }

    /// The first of the symbols that occurs in the premise, or in a definition.
    fn first_used(&self, premise: &IndexSet<Symbol>, symbols: &[Symbol]) -> Option<Symbol>
        ensures { result ≡ find (λ s. is_among numbers (symbol_of s) (map symbol_of premise.now.keys)
            || is_among numbers (symbol_of s) self.now.used) symbols.now }
    {
        symbols
            .iter()
            .copied()
            .find(|symbol| self.is_used(premise, symbol))
    }

    /// Whether the symbol occurs in the premise, or in a definition.
    fn is_used(&self, premise: &IndexSet<Symbol>, symbol: &Symbol) -> bool
        ensures { result ≡ (is_among numbers (symbol_of symbol.now) (map symbol_of premise.now.keys)
            || is_among numbers (symbol_of symbol.now) self.now.used) }
    {
        has_symbol(premise, symbol) || has_symbol(&self.used, symbol)
    }
}

/// Whether the symbol is in the set.
fn has_symbol(symbols: &IndexSet<Symbol>, symbol: &Symbol) -> bool
    ensures { result ≡ is_among numbers (symbol_of symbol.now) (map symbol_of symbols.now.keys) }
{
    symbols.contains(symbol)
}

/// Refuses the first of the symbols that has a meaning of its own.
fn refuse_primitive(symbols: &[Symbol]) -> Result<(), DefineFault>
    ensures { Checks result
        (refuse_first numbers Primitive (λ s. is_among numbers s (primitives numbers)) (map symbol_of symbols.now)) }
{
    match first_primitive(symbols) {
        Some(symbol) => Err(DefineFault::Primitive(symbol)),
        None => Ok(()),
    }
}

/// The first of the symbols that has a meaning of its own.
fn first_primitive(symbols: &[Symbol]) -> Option<Symbol>
    ensures { result ≡ find (λ s. is_among numbers (symbol_of s) (primitives numbers)) symbols.now }
{
    symbols.iter().copied().find(|symbol| is_primitive(*symbol))
}

/// Whether the symbol has a meaning of its own.
fn is_primitive(symbol: Symbol) -> bool
    ensures { result ≡ is_among numbers (symbol_of symbol) (primitives numbers) }
{
    match symbol.kind {
        SymbolKind::TyOp => symbol.name == NameId::ARROW || symbol.name == NameId::BOOL,
        SymbolKind::Con => symbol.name == NameId::EQUALS,
    }
}
