//! The rules on equations, over the table of terms.
ghost use Rattle.std.specs.Prelude.{◌≡◌, ℕ, ◌<◌, [], None, length, IfOk, IfErr};
ghost use Rattle.ot_logic.specs.Trees.{Ty};
ghost use Rattle.ot_logic.specs.Hol.{type_in, as_equation};
ghost use Rattle.ot_logic.specs.Naming.{numbers};
ghost use Rattle.ot_logic.specs.Rules.{app_rule, abs_rule, refl_rule, eq_mp_rule};
ghost use Rattle.ot_logic.specs.Rules.{abs_thm_rule, app_thm_rule, sym_rule, trans_rule};
ghost use Rattle.ot_term.specs.TermTable.{variable_of, IsTermTable};
ghost use Rattle.ot_kernel.specs.declared.fault.RuleFault.TheVariants.{NotEquation};
ghost use Rattle.ot_kernel.specs.Numbered.{tm_at, numbered_sequent, Derives, IsGrown, IsGrownBy};
ghost use Rattle.ot_kernel.specs.Equating.{equation_rule, IsMadeTerm, AreSides, GivesOuter};
ghost use Rattle.ot_kernel.specs.Spelled.{IsInside};

use crate::fault::RuleFault;
use crate::hypotheses::{is_free_in_some, union};
use crate::theorem::{Hypotheses, Theorem};
use ot_alpha::alpha_eq;
use ot_term::{TermId, Terms, VarKey};
use std::alloc::Global;

/// The equation of two terms of one type.
pub(crate) fn equate(terms: &mut Terms, a: TermId, b: TermId) -> Result<TermId, RuleFault>
    requires a { a < length terms.old.terms }
    requires b { b < length terms.old.terms }
    requires typed { type_in numbers [] (tm_at terms.old.terms a) ≡ type_in numbers [] (tm_at terms.old.terms b) }
    ensures makes { IsMadeTerm result (equation_rule numbers (tm_at terms.old.terms a) (tm_at terms.old.terms b)) terms.new.terms }
    ensures grown { IsGrown terms.old terms.new }
{
    Ok(terms.eq(a, b)?)
}

/// The sides of an equation, which are of one type.
fn sides(terms: &Terms, id: TermId) -> Result<(TermId, TermId), RuleFault>
    requires { id < length terms.now.terms }
    ensures ok { IfOk result (λ p. (ty : Ty ℕ) × AreSides terms.now.terms id ty p.0 p.1) }
    ensures err { IfErr result (λ e. (e ≡ NotEquation) × (as_equation numbers (tm_at terms.now.terms id) ≡ None)) }
    ensures table { IsTermTable terms.now }
{
    // Each term of the table is typed and within the limit.
    let _types = terms.types();
    match terms.as_eq(id) {
        Some(found) => Ok(found),
        None => Err(RuleFault::NotEquation),
    }
}

/// The application of a function to an argument.
pub(crate) fn apply(terms: &mut Terms, f: TermId, x: TermId) -> Result<TermId, RuleFault>
    requires f { f < length terms.old.terms }
    requires x { x < length terms.old.terms }
    ensures makes { IsMadeTerm result (app_rule numbers (tm_at terms.old.terms f) (tm_at terms.old.terms x)) terms.new.terms }
    ensures grown { IsGrown terms.old terms.new }
{
    Ok(terms.app(f, x)?)
}

/// The abstraction of a variable.
pub(crate) fn abstract_from(terms: &mut Terms, v: &VarKey, t: TermId) -> Result<TermId, RuleFault>
    requires ty { v.now.ty < length terms.old.types }
    requires t { t < length terms.old.terms }
    ensures makes { IsMadeTerm result (abs_rule numbers (variable_of terms.old.types v.now) (tm_at terms.old.terms t))
        terms.new.terms }
    ensures grown { IsGrownBy v.now.name terms.old terms.new }
{
    Ok(terms.abs(*v, t)?)
}

/// t = t.
pub(crate) fn refl(terms: &mut Terms, t: TermId) -> Result<Theorem, RuleFault>
    requires { t < length terms.old.terms }
    ensures derives { Derives result (refl_rule numbers (tm_at terms.old.terms t)) terms.new.terms }
    ensures grown { IsGrown terms.old terms.new }
{
    let concl = equate(terms, t, t)?;
    Ok(Theorem {
        hyps: Hypotheses::none(),
        concl,
    })
}

/// From G |- t = u, u = t.
pub(crate) fn sym(alloc: Global, terms: &mut Terms, th: &Theorem) -> Result<Theorem, RuleFault>
    requires { IsInside (length terms.old.terms) th.now }
    ensures derives { Derives result (sym_rule numbers (numbered_sequent terms.old.terms th.now)) terms.new.terms }
    ensures grown { IsGrown terms.old terms.new }
{
    // Each term of the table is typed and within the limit.
    let _types = terms.types();
    let (t, u) = sides(terms, th.concl)?;
    let concl = equate(terms, u, t)?;
    let hyps = Hypotheses::from_slice(alloc, &th.hyps)?;
    Ok(Theorem { hyps, concl })
}

/// From G |- p = q and D |- p, q.
pub(crate) fn eq_mp(
    alloc: Global,
    terms: &Terms,
    lower: &Theorem,
    top: &Theorem,
) -> Result<Theorem, RuleFault>
    requires lower { IsInside (length terms.now.terms) lower.now }
    requires top { IsInside (length terms.now.terms) top.now }
    ensures derives { Derives result (eq_mp_rule numbers (numbered_sequent terms.now.terms lower.now)
        (numbered_sequent terms.now.terms top.now)) terms.now.terms }
{
    let (p, q) = sides(terms, lower.concl)?;
    if !alpha_eq(terms, p, top.concl) {
        return Err(RuleFault::NotAlphaEqual);
    }
    let hyps = union(alloc, terms, &lower.hyps, &top.hyps)?;
    Ok(Theorem { hyps, concl: q })
}

/// From G |- t = u, with v free in no member of G, the equation of the abstractions of v.
pub(crate) fn abs_thm(
    alloc: Global,
    terms: &mut Terms,
    v: VarKey,
    th: &Theorem,
) -> Result<Theorem, RuleFault>
    requires ty { v.ty < length terms.old.types }
    requires inside { IsInside (length terms.old.terms) th.now }
    ensures derives { Derives result (abs_thm_rule numbers (variable_of terms.old.types v)
        (numbered_sequent terms.old.terms th.now)) terms.new.terms }
    ensures grown { IsGrownBy v.name terms.old terms.new }
{
    // Each term of the table is typed and within the limit.
    let _types = terms.types();
    let (t, u) = sides(terms, th.concl)?;
    if is_free_in_some(alloc, terms, v, &th.hyps)? {
        return Err(RuleFault::VarFreeInHyps);
    }
    let left = abstract_from(terms, &v, t)?;
    let right = abstract_from(terms, &v, u)?;
    let concl = equate(terms, left, right)?;
    let hyps = Hypotheses::from_slice(alloc, &th.hyps)?;
    Ok(Theorem { hyps, concl })
}

/// From G |- f = g and D |- x = y, f x = g y.
pub(crate) fn app_thm(
    alloc: Global,
    terms: &mut Terms,
    lower: &Theorem,
    top: &Theorem,
) -> Result<Theorem, RuleFault>
    requires lower { IsInside (length terms.old.terms) lower.now }
    requires top { IsInside (length terms.old.terms) top.now }
    ensures derives { Derives result (app_thm_rule numbers (numbered_sequent terms.old.terms lower.now)
        (numbered_sequent terms.old.terms top.now)) terms.new.terms }
    ensures grown { IsGrown terms.old terms.new }
{
    // Each term of the table is typed and within the limit.
    let _types = terms.types();
    let (f, g) = sides(terms, lower.concl)?;
    let (x, y) = sides(terms, top.concl)?;
    let hyps = union(alloc, terms, &lower.hyps, &top.hyps)?;
    let left = apply(terms, f, x)?;
    let right = apply(terms, g, y)?;
    let concl = equate(terms, left, right)?;
    Ok(Theorem { hyps, concl })
}

/// From two equations with one side in common, that of their other sides.
pub(crate) fn trans(
    alloc: Global,
    terms: &mut Terms,
    lower: &Theorem,
    top: &Theorem,
) -> Result<Theorem, RuleFault>
    requires lower { IsInside (length terms.old.terms) lower.now }
    requires top { IsInside (length terms.old.terms) top.now }
    ensures derives { Derives result (trans_rule numbers (numbered_sequent terms.old.terms lower.now)
        (numbered_sequent terms.old.terms top.now)) terms.new.terms }
    ensures grown { IsGrown terms.old terms.new }
{
    // Each term of the table is typed and within the limit.
    let _types = terms.types();
    let (left, right) = outer_sides(terms, lower, top)?;
    let hyps = union(alloc, terms, &lower.hyps, &top.hyps)?;
    let concl = equate(terms, left, right)?;
    Ok(Theorem { hyps, concl })
}

/// The sides that two equations with one side in common don't share. The inner sides are compared first.
fn outer_sides(terms: &Terms, lower: &Theorem, top: &Theorem) -> Result<(TermId, TermId), RuleFault>
    requires lower { IsInside (length terms.now.terms) lower.now }
    requires top { IsInside (length terms.now.terms) top.now }
    ensures { GivesOuter result terms.now.terms lower.now top.now }
{
    let (a, b) = sides(terms, lower.concl)?;
    let (c, d) = sides(terms, top.concl)?;
    if alpha_eq(terms, b, c) {
        return Ok((a, d));
    }
    if alpha_eq(terms, d, a) {
        return Ok((c, b));
    }
    Err(RuleFault::NotAlphaEqual)
}
