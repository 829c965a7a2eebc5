//! Which theorems are of a sequent or stronger, and which terms can stand in a sequent.
ghost use Rattle.std.specs.Prelude.{◌≡◌, ◌<◌, ◌&&◌, length, IfOk};
ghost use Rattle.std.specs.List.{All, list_all};
ghost use Rattle.ot_logic.specs.Hol.{bool_ty, is_in, all_in, same_tm};
ghost use Rattle.ot_logic.specs.Naming.{names, numbers};
ghost use Rattle.ot_logic.specs.Rules.{has_type};
ghost use Rattle.ot_kernel.specs.Numbered.{tm_at, tms_at};
ghost use Rattle.ot_kernel.specs.State.{term_at, terms_at, theorem_at, Keeps, SameTheorems};
ghost use Rattle.ot_kernel.specs.Spelled.{IsInside};

use crate::hypotheses::has_terms;
use crate::kernel::Kernel;
use crate::membership::has_term;
use crate::theorem::{Theorem, ThmId};
use ot_alpha::alpha_eq;
use ot_logic::Memory;
use ot_term::{TermId, Terms};
use std::alloc::Global;

impl Kernel {
    /// Whether a theorem has this conclusion, and each of its hypotheses is among these, up to the names of binders.
    pub fn is_within(&self, th: ThmId, hyps: &[TermId], concl: TermId) -> bool
        requires th { th < length self.now.theorems }
        requires hyps { All (λ i. i < length self.now.terms) hyps.now }
        requires concl { concl < length self.now.terms }
        ensures { result ≡ (all_in names (theorem_at self.now th).hyps (terms_at self.now hyps.now)
            && same_tm names (theorem_at self.now th).concl (term_at self.now concl)) }
    {
        is_within(self.alloc, &self.terms, &self.theorems[th.0], hyps, concl)
    }

    /// Whether a term is a hypothesis of a theorem, up to the names of binders.
    pub fn has_hyp(&self, th: ThmId, t: TermId) -> bool
        requires th { th < length self.now.theorems }
        requires t { t < length self.now.terms }
        ensures { result ≡ is_in names (term_at self.now t) (theorem_at self.now th).hyps }
    {
        has_hyp(&self.terms, &self.theorems[th.0], t)
    }

    /// Whether these are all propositions. Every number stands for what it stood for.
    pub fn are_propositions(&mut self, ts: &[TermId]) -> Result<bool, Memory>
        requires { All (λ i. i < length self.old.terms) ts.now }
        ensures are { IfOk result
            (λ b. b ≡ list_all (λ t. has_type names t (bool_ty names)) (terms_at self.old ts.now)) }
        ensures keeps { Keeps self.old self.new }
        ensures same { SameTheorems self.old self.new }
    {
        let boolean = self.boolean()?;
        Ok(self.have_type(ts, boolean))
    }
}

/// Whether this is the conclusion of a theorem, and each of its hypotheses is among these.
fn is_within(alloc: Global, terms: &Terms, th: &Theorem, hyps: &[TermId], concl: TermId) -> bool
    requires inside { IsInside (length terms.now.terms) th.now }
    requires hyps { All (λ i. i < length terms.now.terms) hyps.now }
    requires concl { concl < length terms.now.terms }
    ensures { result ≡ (all_in numbers (tms_at terms.now.terms th.now.hyps) (tms_at terms.now.terms hyps.now)
        && same_tm numbers (tm_at terms.now.terms th.now.concl) (tm_at terms.now.terms concl)) }
{
    if !alpha_eq(terms, th.concl, concl) {
        return false;
    }
    has_terms(alloc, terms, hyps, &th.hyps)
}

/// Whether a term is a hypothesis of a theorem.
fn has_hyp(terms: &Terms, th: &Theorem, t: TermId) -> bool
    requires inside { IsInside (length terms.now.terms) th.now }
    requires t { t < length terms.now.terms }
    ensures { result ≡ is_in numbers (tm_at terms.now.terms t) (tms_at terms.now.terms th.now.hyps) }
{
    has_term(terms, &th.hyps, t)
}
