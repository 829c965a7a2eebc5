//! The symbols of a run.
ghost use Rattle.std.specs.Prelude.{◌≡◌, ◌<◌, map, length, IfOk, OnOk};
ghost use Rattle.std.specs.List.{All, flat_map};
ghost use Rattle.ot_logic.specs.Lists.{AreDistinct, IsSameSet};
ghost use Rattle.ot_logic.specs.Names.{Name as NameValue};
ghost use Rattle.ot_logic.specs.Naming.{names};
ghost use Rattle.ot_logic.specs.Hol.{symbols_of, symbols_in, symbols_all, used};
ghost use Rattle.ot_kernel.specs.State.{terms_at, theorem_at};
ghost use Rattle.ot_kernel.specs.Definitions.{definition_at, IsHeld};
ghost use Rattle.ot_parse.specs.Symbols.{symbol_of};
ghost use Rattle.ot_pretty.specs.Run.{symbols_of_run, HasMoreTerms, named_symbol, symbol_named};

use crate::search::found_symbols;
use ot_kernel::{Definition, Kernel, ThmId};
use ot_logic::{Memory, Name};
use ot_parse::WordKind;
use ot_term::{Symbol, SymbolKind, TermId};
use std::alloc::{AllocError, Global};

/// The symbols of a run that exports these theorems, each once: those that occur in its assumptions, in the exports,
/// or in a premise or a theorem of its definitions.
pub fn run_symbols(
    alloc: Global,
    kernel: &Kernel,
    theorems: &[ThmId],
) -> Result<Vec<(WordKind, Name)>, Memory>
    requires { All (λ th. th < length kernel.now.theorems) theorems.now }
    ensures symbols { IfOk result (λ v. IsSameSet (map symbol_of v.items)
        (symbols_of_run kernel.now.assumptions (map (theorem_at kernel.now) theorems.now) kernel.now.definitions)) }
    ensures once { IfOk result (λ v. AreDistinct (map symbol_of v.items)) }
{
    let mut roots = Vec::new(alloc);
    add_theorems(kernel, kernel.assumptions(), &mut roots)?;
    add_theorems(kernel, theorems, &mut roots)?;
    add_definitions(kernel, &mut roots)?;
    named_symbols(alloc, kernel, roots.as_slice())
}

/// Adds the terms of theorems.
fn add_theorems(
    kernel: &Kernel,
    theorems: &[ThmId],
    roots: &mut Vec<TermId>,
) -> Result<(), AllocError>
    requires { All (λ th. th < length kernel.now.theorems) theorems.now }
    ensures { OnOk result
        (HasMoreTerms kernel.now roots.old.items roots.new.items
        (symbols_in names (map (theorem_at kernel.now) theorems.now))) }
{
    for th in theorems {
        add_theorem(kernel, *th, roots)?;
    }
    Ok(())
}

/// Adds the terms of a theorem.
fn add_theorem(kernel: &Kernel, th: ThmId, roots: &mut Vec<TermId>) -> Result<(), AllocError>
    requires { th < length kernel.now.theorems }
    ensures { OnOk result
        (HasMoreTerms kernel.now roots.old.items roots.new.items (symbols_of names (theorem_at kernel.now th))) }
{
    roots.extend_from_slice(kernel.hyps(th))?;
    roots.push(kernel.concl(th))?;
    Ok(())
}

/// Adds the terms of the premises and the theorems of the definitions.
fn add_definitions(kernel: &Kernel, roots: &mut Vec<TermId>) -> Result<(), AllocError>
    ensures { OnOk result
        (HasMoreTerms kernel.now roots.old.items roots.new.items (flat_map (used names) kernel.now.definitions)) }
{
    let definitions = kernel.definitions();
    for definition in definitions {
        add_definition(kernel, definition, roots)?;
    }
    Ok(())
}

/// Adds the terms of a definition's premise and of its theorems. The term that a constant is defined by stands in its
/// theorem.
fn add_definition(
    kernel: &Kernel,
    definition: &Definition,
    roots: &mut Vec<TermId>,
) -> Result<(), AllocError>
    requires { IsHeld kernel.now definition.now }
    ensures { OnOk result
        (HasMoreTerms kernel.now roots.old.items roots.new.items (used names (definition_at kernel.now definition.now))) }
{
    match definition {
        Definition::Con { th, .. } => add_theorem(kernel, *th, roots),
        Definition::List { premise, th, .. } => add_theorems(kernel, &[*premise, *th], roots),
        Definition::TyOp {
            premise,
            abs_th,
            rep_th,
            ..
        } => add_theorems(kernel, &[*premise, *abs_th, *rep_th], roots),
    }
}

/// The symbols of terms with their names, each once.
fn named_symbols(
    alloc: Global,
    kernel: &Kernel,
    ids: &[TermId],
) -> Result<Vec<(WordKind, Name)>, Memory>
    requires { All (λ i. i < length kernel.now.terms) ids.now }
    ensures symbols { IfOk result
        (λ v. IsSameSet (map symbol_of v.items) (symbols_all names (terms_at kernel.now ids.now))) }
    ensures once { IfOk result (λ v. AreDistinct (map symbol_of v.items)) }
{
    kernel.sound();
    let symbols = found_symbols(alloc, kernel, ids)?;
    with_names(alloc, kernel, symbols.as_slice())
}

/// Symbols with the names of their numbers.
fn with_names(
    alloc: Global,
    kernel: &Kernel,
    symbols: &[Symbol],
) -> Result<Vec<(WordKind, Name)>, Memory>
    requires { All (λ x. x.name < length kernel.now.names) symbols.now }
    ensures { IfOk result (λ v. map symbol_of v.items ≡ map (named_symbol kernel.now) symbols.now) }
{
    let mut named = Vec::new(alloc);
    for symbol in symbols {
        named.push(with_name(alloc, kernel, *symbol)?)?;
    }
    Ok(named)
}

/// A symbol with its name.
fn with_name(alloc: Global, kernel: &Kernel, symbol: Symbol) -> Result<(WordKind, Name), Memory>
    requires { symbol.name < length kernel.now.names }
    ensures { IfOk result (λ named. symbol_of named ≡ named_symbol kernel.now symbol) }
{
    let name = kernel.names().get(symbol.name).copy(alloc)?;
    Ok((kind_of(symbol.kind), name))
}

/// What a symbol's word is the word of.
fn kind_of(kind: SymbolKind) -> WordKind
    ensures { (n : NameValue) → symbol_of (result, n) ≡ symbol_named kind n }
{
    match kind {
        SymbolKind::Con => WordKind::Con,
        SymbolKind::TyOp => WordKind::TyOp,
    }
}
