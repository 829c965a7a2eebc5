//! Substitution and beta.
ghost use Rattle.std.specs.Prelude.{◌≡◌, ◌≢◌, ◌<◌, ◌≤◌, ◌+◌, [], suc, Some, None, Err, IfOk, length, false};
ghost use Rattle.ot_logic.specs.Trees.{Tm};
ghost use Rattle.ot_logic.specs.Hol.{is_shallow};
ghost use Rattle.ot_logic.specs.NamedTerms.{nameless, size, HasNoClash};
ghost use Rattle.ot_logic.specs.Naming.{numbers, IsNameTable};
ghost use Rattle.ot_term.specs.TermTable.{term_at};
ghost use Rattle.ot_subst.specs.Substitution.{type_part, variable_part, substituted, IsSubstOf};
ghost use Rattle.ot_subst.specs.Walk.{HasForm, NamesBelow, IsLater};
ghost use Rattle.ot_subst.specs.Memory.{CountsParts};
ghost use Rattle.ot_subst.specs.Beta.{contracted, HasNoBetaClash};

use crate::clash::Work;
use crate::fault::SubstFault;
use crate::renamed::Renamed;
use crate::results::Results;
use crate::subst::Subst;
use crate::walk::walk;
use ot_logic::Names;
use ot_term::{Nodes, Steps, TermId, TermNode};
use ot_type::{TableFault, TypeSubst};
use std::alloc::Global;

/// The term with the substitution put in.
fn substitute<N: Nodes<L>, L>(
    alloc: Global,
    terms: &mut N,
    names: &mut Names,
    results: &mut Results,
    s: &Subst,
    t: TermId,
    steps: &mut Steps<L>,
) -> Result<TermId, TableFault>
    requires inside { t < length (N.table terms.old).terms }
    requires subst { IsSubstOf (N.table terms.old) s.now }
    requires below { NamesBelow (length names.old) (N.table terms.old) }
    ensures ok { IfOk result
        (λ id. HasForm (N.table terms.new) id
        (substituted (N.table terms.old) s.now (nameless numbers (term_at (N.table terms.old).terms t)))) }
    ensures nesting { result ≡ Err TableFault.Nesting → is_shallow numbers
        (substituted (N.table terms.old) s.now (nameless numbers (term_at (N.table terms.old).terms t))) ≡ false }
    ensures counted { HasNoClash numbers (type_part (N.table terms.old) s.now)
        (variable_part (N.table terms.old) s.now) (term_at (N.table terms.old).terms t)
        → CountsParts (N.table terms.old) [] steps.old steps.new (term_at (N.table terms.old).terms t) (suc t) }
    ensures later { IsLater names.old names.new (N.table terms.old) (N.table terms.new) }
    ensures name_table { IsNameTable names.new }
{
    // What holds of each table of names, and of each table of terms.
    let _count = names.count();
    let _ty = terms.type_of(t);
    if s.types().is_empty() && terms.is_closed(t) {
        return Ok(t);
    }
    let renamed = Renamed::Outermost;
    let work = Work {
        alloc,
        subst: s,
        renamed: &renamed,
    };
    results.clear();
    walk(&work, terms, names, results, t, steps)
}

/// The term with the substitution put in: its nameless form is the substitution on the nameless form of `t`.
///
/// The numbers of `t` and of the substitution are of this table, each term of the substitution has its variable's type,
/// and the names of the table are those of `names`. A binder that clashes with the substitution takes another name;
/// which one is open. `Nesting` exactly where the result would pass the nesting limit; never `NotRedex`. Where no binder
/// clashes, no more steps are taken than the term has distinct subterms. Names and terms that are there keep their
/// numbers, and there may be more of them, after a refusal too.
pub fn apply<N: Nodes<L>, L>(
    alloc: Global,
    terms: &mut N,
    names: &mut Names,
    results: &mut Results,
    s: &Subst,
    t: TermId,
    steps: &mut Steps<L>,
) -> Result<TermId, SubstFault>
    requires inside { t < length (N.table terms.old).terms }
    requires subst { IsSubstOf (N.table terms.old) s.now }
    requires below { NamesBelow (length names.old) (N.table terms.old) }
    ensures ok { IfOk result
        (λ id. HasForm (N.table terms.new) id
        (substituted (N.table terms.old) s.now (nameless numbers (term_at (N.table terms.old).terms t)))) }
    ensures nesting { result ≡ Err SubstFault.Nesting → is_shallow numbers
        (substituted (N.table terms.old) s.now (nameless numbers (term_at (N.table terms.old).terms t))) ≡ false }
    ensures redex { result ≢ Err SubstFault.NotRedex }

    ensures steps { HasNoClash numbers (type_part (N.table terms.old) s.now) (variable_part (N.table terms.old) s.now)
        (term_at (N.table terms.old).terms t)
        → steps.new ≤ steps.old + size numbers (term_at (N.table terms.old).terms t) }

    ensures later { IsLater names.old names.new (N.table terms.old) (N.table terms.new) }
    ensures name_table { IsNameTable names.new }
    ensures fits { IsSubstOf (N.table terms.new) s.now }
{
    Ok(substitute(alloc, terms, names, results, s, t, steps)?)
}

/// The body of an abstraction with the argument put in for the variable.
///
/// The number of `t` is of this table, and the names of the table are those of `names`. `NotRedex` exactly where `t`
/// is no abstraction applied to a term, `Nesting` exactly where it is one and the result would pass the nesting
/// limit. Where no binder of the body clashes with the argument, no more steps are taken than the term has distinct
/// subterms. Names and terms that are there keep their numbers, and there may be more of them, after a refusal too.
pub fn beta<N: Nodes<L>, L>(
    alloc: Global,
    terms: &mut N,
    names: &mut Names,
    results: &mut Results,
    t: TermId,
    steps: &mut Steps<L>,
) -> Result<TermId, SubstFault>
    requires inside { t < length (N.table terms.old).terms }
    requires below { NamesBelow (length names.old) (N.table terms.old) }
    ensures ok { IfOk result
        (λ id. (x : Tm _) × (contracted (nameless numbers (term_at (N.table terms.old).terms t)) ≡ Some x)
        × HasForm (N.table terms.new) id x) }
    ensures not_redex { result ≡ Err SubstFault.NotRedex
        → contracted (nameless numbers (term_at (N.table terms.old).terms t)) ≡ None }
    ensures nesting { result ≡ Err SubstFault.Nesting → (x : Tm _)
        × (contracted (nameless numbers (term_at (N.table terms.old).terms t)) ≡ Some x)
        × (is_shallow numbers x ≡ false) }

    ensures steps { HasNoBetaClash (term_at (N.table terms.old).terms t) → steps.new ≤ steps.old
        + size numbers (term_at (N.table terms.old).terms t) }

    ensures later { IsLater names.old names.new (N.table terms.old) (N.table terms.new) }
    ensures name_table { IsNameTable names.new }
{
    // What holds of each table of names.
    let _count = names.count();
    let TermNode::App(f, x) = terms.take(t, steps) else {
        return Err(SubstFault::NotRedex);
    };
    let TermNode::Abs(v, body) = terms.take(f, steps) else {
        return Err(SubstFault::NotRedex);
    };
    // Where the variable itself is put in, nothing changes.
    if terms.is_var(x, &v) {
        return Ok(body);
    }
    let mut s = Subst::new(alloc, TypeSubst::new(alloc));
    s.insert(v, x)?;
    Ok(substitute(alloc, terms, names, results, &s, body, steps)?)
}
