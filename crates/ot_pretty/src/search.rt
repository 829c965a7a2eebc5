//! A search for the symbols of terms: a term or a type that is shared is looked at once.
ghost use Rattle.std.specs.Prelude.{◌≡◌, ◌<◌, [], map, length, IfOk, OnOk};
ghost use Rattle.std.specs.List.{All};
ghost use Rattle.ot_logic.specs.Lists.{AreDistinct, IsSameSet};
ghost use Rattle.ot_logic.specs.Naming.{names};
ghost use Rattle.ot_logic.specs.Hol.{symbols_tm, symbols_ty};
ghost use Rattle.ot_kernel.specs.State.{type_at, term_at};
ghost use Rattle.ot_pretty.specs.Run.{named_symbol};
ghost use Rattle.ot_pretty.specs.Found.{term_symbols, IsSearch, FindsSymbols, Reaches, AddsSymbol};
ghost use Rattle.ot_pretty.specs.Found.{AddsType, AddsTerm, AddsTypes, AddsTerms};

use indexmap::IndexSet;
use ot_kernel::Kernel;
use ot_logic::{Memory, NameId};
use ot_term::{Symbol, SymbolKind, TermId, TermNode};
use ot_type::{TypeId, TypeNode};
use ot_view::{term_node, type_node};
use std::alloc::Global;
use std::collections::BTreeSet;

/// The terms and the types that are still to be looked at, and the symbols so far.
#[derive(Drop)]
pub(crate) struct Search {
    terms: BTreeSet<TermId>,
    types: BTreeSet<TypeId>,
    symbols: IndexSet<Symbol>,
}

/// The symbols of terms, each once.
pub(crate) fn found_symbols(
    alloc: Global,
    kernel: &Kernel,
    ids: &[TermId],
) -> Result<Vec<Symbol>, Memory>
    requires { All (λ i. i < length kernel.now.terms) ids.now }
    ensures symbols { IfOk result
        (λ v. IsSameSet (map (named_symbol kernel.now) v.items) (term_symbols kernel.now ids.now)) }
    ensures inside { IfOk result (λ v. All (λ x. x.name < length kernel.now.names) v.items) }
    ensures once { IfOk result (λ v. AreDistinct v.items) }
{
    let mut search = Search {
        terms: BTreeSet::new(alloc),
        types: BTreeSet::new(alloc),
        symbols: IndexSet::new(alloc),
    };
    search.add_terms(ids)?;
    search.look_at_terms(kernel)?;
    search.look_at_types(kernel)?;
    listed(alloc, &search.symbols)
}

/// The items of a set, in its order.
fn listed(alloc: Global, symbols: &IndexSet<Symbol>) -> Result<Vec<Symbol>, Memory>
    ensures { IfOk result (λ v. v.items ≡ symbols.now.keys) }
{
    Ok(symbols.iter().copied().collect(alloc)?)
}

impl Search {
    /// Looks at the terms, the greatest number first.
    fn look_at_terms(&mut self, kernel: &Kernel) -> Result<(), Memory>
        requires { IsSearch kernel.now self.old }
        ensures reaches { OnOk result (Reaches kernel.now self.old self.new) }
        ensures none { OnOk result (self.new.terms.keys ≡ []) }
    {
        while let Some(id) = self.terms.pop_last() {
            self.look_at_term(kernel, id)?;
        }
        Ok(())
    }

    /// Looks at the types, the greatest number first.
    fn look_at_types(&mut self, kernel: &Kernel) -> Result<(), Memory>
        requires search { IsSearch kernel.now self.old }
        requires no_terms { self.old.terms.keys ≡ [] }
        ensures reaches { OnOk result (Reaches kernel.now self.old self.new) }
        ensures no_terms { OnOk result (self.new.terms.keys ≡ []) }
        ensures none { OnOk result (self.new.types.keys ≡ []) }
    {
        while let Some(id) = self.types.pop_last() {
            self.look_at_type(kernel, id)?;
        }
        Ok(())
    }

    /// Adds the symbol of a term, its types and the terms in it.
    fn look_at_term(&mut self, kernel: &Kernel, id: TermId) -> Result<(), Memory>
        requires { id < length kernel.now.terms }
        ensures { OnOk result (FindsSymbols kernel.now id (length kernel.now.types) self.old self.new
            (symbols_tm names (term_at kernel.now id))) }
    {
        match *term_node(kernel, id) {
            TermNode::Var(v) => self.add_type(v.ty),
            TermNode::Const(name, ty) => {
                self.add_symbol(SymbolKind::Con, name)?;
                self.add_type(ty)
            }
            TermNode::App(f, x) => {
                self.add_term(f)?;
                self.add_term(x)
            }
            TermNode::Abs(v, body) => {
                self.add_type(v.ty)?;
                self.add_term(body)
            }
        }
    }

    /// Adds the operator of a type and its arguments.
    fn look_at_type(&mut self, kernel: &Kernel, id: TypeId) -> Result<(), Memory>
        requires { id < length kernel.now.types }
        ensures { OnOk result (FindsSymbols kernel.now 0 id self.old self.new (symbols_ty names (type_at kernel.now id))) }
    {
        match type_node(kernel, id) {
            TypeNode::Var(_) => Ok(()),
            TypeNode::Op(name, args) => {
                self.add_symbol(SymbolKind::TyOp, *name)?;
                self.add_types(args.as_slice())
            }
        }
    }

    /// Terms more.
    fn add_terms(&mut self, ids: &[TermId]) -> Result<(), Memory>
        ensures { OnOk result (AddsTerms self.old self.new ids.now) }
    {
        for id in ids {
            self.add_term(*id)?;
        }
        Ok(())
    }

    /// Types more.
    fn add_types(&mut self, ids: &[TypeId]) -> Result<(), Memory>
        ensures { OnOk result (AddsTypes self.old self.new ids.now) }
    {
        for id in ids {
            self.add_type(*id)?;
        }
        Ok(())
    }

    /// A term more.
    fn add_term(&mut self, id: TermId) -> Result<(), Memory>
        ensures { OnOk result (AddsTerm self.old self.new id) }
    {
        self.terms.insert(id)?;
        Ok(())
    }

    /// A type more.
    fn add_type(&mut self, id: TypeId) -> Result<(), Memory>
        ensures { OnOk result (AddsType self.old self.new id) }
    {
        self.types.insert(id)?;
        Ok(())
    }

    /// A symbol more.
    fn add_symbol(&mut self, kind: SymbolKind, name: NameId) -> Result<(), Memory>
        ensures { OnOk result (AddsSymbol self.old self.new kind name) }
    {
        self.symbols.insert(Symbol { kind, name })?;
        Ok(())
    }
}
