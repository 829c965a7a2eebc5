//! The rules that put terms in for variables, over the tables of names and terms.
ghost use Rattle.std.specs.Prelude.{◌≡◌, ◌<◌, map, length, IfOk, IfErr};
ghost use Rattle.std.specs.List.{All};
ghost use Rattle.ot_logic.specs.Trees.{Tm};
ghost use Rattle.ot_logic.specs.Naming.{numbers, IsNameTable};
ghost use Rattle.ot_logic.specs.Rules.{beta_conv_rule, subst_rule};
ghost use Rattle.ot_subst.specs.Substitution.{type_part, variable_part, substituted, IsSubstOf};
ghost use Rattle.ot_subst.specs.Walk.{NamesBelow, IsLater};
ghost use Rattle.ot_kernel.specs.Answers.{RefusesRule};
ghost use Rattle.ot_kernel.specs.Numbered.{tm_at, tms_at, numbered_sequent, Derives};
ghost use Rattle.ot_kernel.specs.Spelled.{IsInside};

use crate::equations::equate;
use crate::fault::RuleFault;
use crate::hypotheses::once_each;
use crate::theorem::{Hypotheses, Theorem};
use ot_logic::Names;
use ot_subst::{Results, Subst, apply, beta};
use ot_term::{Steps, TermId, Terms};
use smallvec::SmallVec;
use std::alloc::Global;

/// What a count of steps is over: here nothing asks for the count.
#[derive(Drop)]
pub(crate) struct Ledger;

/// (\v. t) u = t with u for v.
pub(crate) fn beta_conv(
    alloc: Global,
    terms: &mut Terms,
    names: &mut Names,
    results: &mut Results,
    t: TermId,
) -> Result<Theorem, RuleFault>
    requires inside { t < length terms.old.terms }
    requires below { NamesBelow (length names.old) terms.old }
    ensures derives { Derives result (beta_conv_rule numbers (tm_at terms.old.terms t)) terms.new.terms }
    ensures later { IsLater names.old names.new terms.old terms.new }
    ensures name_table { IsNameTable names.new }
{
    let mut steps = Steps::new(Ledger);
    let contracted = beta(alloc, terms, names, results, t, &mut steps)?;
    let concl = equate(terms, t, contracted)?;
    Ok(Theorem {
        hyps: Hypotheses::none(),
        concl,
    })
}

/// The theorem with the substitution put into each of its terms.
pub(crate) fn subst(
    alloc: Global,
    terms: &mut Terms,
    names: &mut Names,
    results: &mut Results,
    s: &Subst,
    th: &Theorem,
) -> Result<Theorem, RuleFault>
    requires inside { IsInside (length terms.old.terms) th.now }
    requires subst { IsSubstOf terms.old s.now }
    requires below { NamesBelow (length names.old) terms.old }
    ensures derives { Derives result (subst_rule numbers (type_part terms.old s.now) (variable_part terms.old s.now)
        (numbered_sequent terms.old.terms th.now)) terms.new.terms }
    ensures later { IsLater names.old names.new terms.old terms.new }
    ensures name_table { IsNameTable names.new }
{
    let mut steps = Steps::new(Ledger);
    let hyps = images(alloc, terms, names, results, s, &th.hyps, &mut steps)?;
    let hyps = once_each(alloc, terms, hyps.as_slice())?;
    let concl = apply(alloc, terms, names, results, s, th.concl, &mut steps)?;
    Ok(Theorem { hyps, concl })
}

/// The terms with the substitution put in, in their order. Refused where no theorem with these hypotheses has an image.
fn images(
    alloc: Global,
    terms: &mut Terms,
    names: &mut Names,
    results: &mut Results,
    s: &Subst,
    ids: &[TermId],
    steps: &mut Steps<Ledger>,
) -> Result<SmallVec<TermId, 2>, RuleFault>
    requires inside { All (λ i. i < length terms.old.terms) ids.now }
    requires subst { IsSubstOf terms.old s.now }
    requires below { NamesBelow (length names.old) terms.old }
    ensures images { IfOk result (λ v. tms_at terms.new.terms v.items
        ≡ map (substituted terms.old s.now) (tms_at terms.old.terms ids.now)) }
    ensures within { IfOk result (λ v. All (λ i. i < length terms.new.terms) v.items) }
    ensures refuses { IfErr result (λ e. (concl : Tm _)
        → RefusesRule e (subst_rule numbers (type_part terms.old s.now) (variable_part terms.old s.now)
        (record { hyps = tms_at terms.old.terms ids.now; concl = concl }))) }
    ensures later { IsLater names.old names.new terms.old terms.new }
    ensures name_table { IsNameTable names.new }
    ensures fits { IsSubstOf terms.new s.now }
{
    // Each term of the table is typed and within the limit.
    let _types = terms.types();
    let _count = names.count();
    let mut images = SmallVec::new(alloc);
    for id in ids {
        images.push(apply(alloc, terms, names, results, s, *id, steps)?)?;
    }
    Ok(images)
}
