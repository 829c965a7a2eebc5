//! The rules that discharge hypotheses, over the table of terms.
ghost use Rattle.std.specs.Prelude.{◌≡◌, ◌<◌, ◌&&◌, not, length, IfOk};
ghost use Rattle.ot_logic.specs.Hol.{is_in, IsSequent};
ghost use Rattle.ot_logic.specs.Naming.{numbers};
ghost use Rattle.ot_logic.specs.Rules.{deduct_antisym_rule, prove_hyp_rule, proved_hyp};
ghost use Rattle.ot_kernel.specs.Numbered.{tm_at, tms_at, numbered_sequent, Derives, IsGrown};
ghost use Rattle.ot_kernel.specs.Spelled.{IsInside};

use crate::equations::equate;
use crate::fault::RuleFault;
use crate::hypotheses::{minus, union};
use crate::membership::has_term;
use crate::theorem::Theorem;
use ot_logic::Memory;
use ot_term::Terms;
use std::alloc::Global;

/// From G |- p and D |- q, p = q, without q in G and p in D.
pub(crate) fn deduct_antisym(
    alloc: Global,
    terms: &mut Terms,
    lower: &Theorem,
    top: &Theorem,
) -> Result<Theorem, RuleFault>
    requires lower { IsInside (length terms.old.terms) lower.now }
    requires top { IsInside (length terms.old.terms) top.now }
    requires lower_sequent { IsSequent numbers (numbered_sequent terms.old.terms lower.now) }
    requires top_sequent { IsSequent numbers (numbered_sequent terms.old.terms top.now) }
    ensures derives { Derives result (deduct_antisym_rule numbers (numbered_sequent terms.old.terms lower.now)
        (numbered_sequent terms.old.terms top.now)) terms.new.terms }
    ensures grown { IsGrown terms.old terms.new }
{
    // Each term of the table is typed and within the limit.
    let _types = terms.types();
    let lower_hyps = minus(alloc, terms, top.concl, &lower.hyps)?;
    let top_hyps = minus(alloc, terms, lower.concl, &top.hyps)?;
    let hyps = union(alloc, terms, &lower_hyps, &top_hyps)?;
    let concl = equate(terms, lower.concl, top.concl)?;
    Ok(Theorem { hyps, concl })
}

/// The other theorem without the lemma's conclusion among its hypotheses, which the lemma's take the place of.
pub(crate) fn prove_hyp(
    alloc: Global,
    terms: &Terms,
    lower: &Theorem,
    top: &Theorem,
) -> Result<Theorem, RuleFault>
    requires lower { IsInside (length terms.now.terms) lower.now }
    requires top { IsInside (length terms.now.terms) top.now }
    ensures derives { Derives result (prove_hyp_rule numbers (numbered_sequent terms.now.terms lower.now)
        (numbered_sequent terms.now.terms top.now)) terms.now.terms }
{
    if is_lemma(terms, lower, top) {
        Ok(proved_hyp(alloc, terms, lower, top)?)
    } else {
        Ok(proved_hyp(alloc, terms, top, lower)?)
    }
}

/// Whether the lower theorem alone is a lemma for the other.
fn is_lemma(terms: &Terms, lower: &Theorem, top: &Theorem) -> bool
    requires lower { IsInside (length terms.now.terms) lower.now }
    requires top { IsInside (length terms.now.terms) top.now }
    ensures { result
        ≡ (not (is_in numbers (tm_at terms.now.terms top.now.concl) (tms_at terms.now.terms lower.now.hyps))
        && is_in numbers (tm_at terms.now.terms lower.now.concl) (tms_at terms.now.terms top.now.hyps)) }
{
    if has_term(terms, &lower.hyps, top.concl) {
        return false;
    }
    has_term(terms, &top.hyps, lower.concl)
}

/// The other theorem with the lemma's hypotheses in the place of the lemma's conclusion.
fn proved_hyp(
    alloc: Global,
    terms: &Terms,
    lemma: &Theorem,
    other: &Theorem,
) -> Result<Theorem, Memory>
    requires lemma { IsInside (length terms.now.terms) lemma.now }
    requires other { IsInside (length terms.now.terms) other.now }
    ensures inside { IfOk result (IsInside (length terms.now.terms)) }
    ensures sequent { IfOk result (λ th. numbered_sequent terms.now.terms th ≡ proved_hyp numbers
        (numbered_sequent terms.now.terms lemma.now) (numbered_sequent terms.now.terms other.now)) }
{
    let left = minus(alloc, terms, lemma.concl, &other.hyps)?;
    let hyps = union(alloc, terms, &lemma.hyps, &left)?;
    Ok(Theorem {
        hyps,
        concl: other.concl,
    })
}
