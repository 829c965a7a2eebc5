//! What is asked of the terms of a definition.
ghost use Rattle.std.specs.Prelude.{◌≡◌, ◌<◌, ◌++◌, if◌then◌else◌, map, length, Ok, Err, IfOk, OnOk};
ghost use Rattle.std.specs.List.{All};
ghost use Rattle.ot_logic.specs.Faults.{NotClosed, TypeVarEscapes};
ghost use Rattle.ot_logic.specs.Lists.{IsSameSet};
ghost use Rattle.ot_logic.specs.Hol.{symbols_tm, symbols_of};
ghost use Rattle.ot_logic.specs.Naming.{numbers};
ghost use Rattle.ot_logic.specs.Answers.{unless};
ghost use Rattle.ot_term.specs.TermTable.{variable_of};
ghost use Rattle.ot_term.specs.Symbols.{symbol_of};
ghost use Rattle.ot_laws.specs.Conditions.{is_closed_but, keeps_type_vars};
ghost use Rattle.ot_define.specs.Answers.{Checks, tm_at, sequent_at};

use crate::fault::DefineFault;
use crate::sets::{add_all, are_among};
use indexmap::IndexSet;
use ot_logic::Memory;
use ot_term::{Symbol, TermId, Terms, VarKey};
use std::alloc::Global;

/// The symbols of a premise.
pub(crate) fn symbols_in(
    alloc: Global,
    terms: &Terms,
    hyps: &[TermId],
    concl: TermId,
) -> Result<IndexSet<Symbol>, Memory>
    requires hyps { All (λ i. i < length terms.now.terms) hyps.now }
    requires concl { concl < length terms.now.terms }
    ensures { IfOk result
        (λ symbols. IsSameSet (map symbol_of symbols.keys)
        (symbols_of numbers (sequent_at terms.now.terms hyps.now concl))) }
{
    let mut symbols = IndexSet::new(alloc);
    for hyp in hyps {
        add_symbols(alloc, terms, *hyp, &mut symbols)?;
    }
    add_symbols(alloc, terms, concl, &mut symbols)?;
    Ok(symbols)
}

/// Adds the symbols of a term.
fn add_symbols(
    alloc: Global,
    terms: &Terms,
    t: TermId,
    symbols: &mut IndexSet<Symbol>,
) -> Result<(), Memory>
    requires { t < length terms.now.terms }
    ensures { OnOk result
        (IsSameSet (map symbol_of symbols.new.keys)
        (map symbol_of symbols.old.keys ++ symbols_tm numbers (tm_at terms.now.terms t))) }
{
    let more = terms.symbols(alloc, t)?;
    add_all(symbols, more.as_slice())
}

/// Refuses a term in which another variable than these is free.
pub(crate) fn check_closed_but(
    alloc: Global,
    terms: &Terms,
    vars: &[VarKey],
    t: TermId,
) -> Result<(), DefineFault>
    requires vars { All (λ v. v.ty < length terms.now.types) vars.now }
    requires t { t < length terms.now.terms }
    ensures { Checks result
        (unless NotClosed
        (is_closed_but numbers (map (variable_of terms.now.types) vars.now) (tm_at terms.now.terms t))) }
{
    // Each type has one number.
    let _types = terms.types();
    let free = terms.free_vars(alloc, t)?;
    let closed = are_among(alloc, free.as_slice(), vars)?;
    pass_if(closed, DefineFault::NotClosed)
}

/// Refuses a term with a type variable that its type lacks.
pub(crate) fn check_type_vars(alloc: Global, terms: &Terms, t: TermId) -> Result<(), DefineFault>
    requires { t < length terms.now.terms }
    ensures { Checks result (unless TypeVarEscapes (keeps_type_vars numbers (tm_at terms.now.terms t))) }
{
    let all = terms.type_vars(alloc, t)?;
    let own = terms.types().vars(alloc, terms.type_of(t))?;
    let kept = are_among(alloc, all.as_slice(), own.as_slice())?;
    pass_if(kept, DefineFault::TypeVarEscapes)
}

/// Goes on where the test holds.
pub(crate) fn pass_if(holds: bool, fault: DefineFault) -> Result<(), DefineFault>
    ensures { result ≡ (if holds then Ok tt else Err fault) }
{
    if holds { Ok(()) } else { Err(fault) }
}
