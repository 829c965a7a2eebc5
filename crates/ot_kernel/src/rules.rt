//! The rules by which theorems are made. Each gives the sequent of its rule, or its one refusal.
ghost use Rattle.std.specs.Prelude.{◌<◌, length};
ghost use Rattle.ot_logic.specs.Naming.{names};
ghost use Rattle.ot_logic.specs.Rules.{refl_rule, eq_mp_rule, abs_thm_rule, app_thm_rule, deduct_antisym_rule};
ghost use Rattle.ot_logic.specs.Rules.{beta_conv_rule, subst_rule, sym_rule, trans_rule, prove_hyp_rule};
ghost use Rattle.ot_kernel.specs.State.{variable_at, term_at, theorem_at, Keeps, SameBasis};
ghost use Rattle.ot_kernel.specs.Answers.{Concludes};
ghost use Rattle.ot_kernel.specs.Pairs.{type_pairs, term_pairs, IsSubstIn};

use crate::fault::RuleFault;
use crate::kernel::Kernel;
use crate::theorem::ThmId;
use crate::{discharge, equations, instances};
use ot_subst::Subst;
use ot_term::{TermId, VarKey};

impl Kernel {
    /// t = t. `Nesting` where it would pass the limit.
    pub fn refl(&mut self, t: TermId) -> Result<ThmId, RuleFault>
        requires { t < length self.old.terms }
        ensures concludes { Concludes result (refl_rule names (term_at self.old t)) self.old self.new }
        ensures keeps { Keeps self.old self.new }
        ensures same { SameBasis self.old self.new }
    {
        let theorem = equations::refl(&mut self.terms, t);
        self.derived(theorem)
    }

    /// From G |- p = q (lower) and D |- p (top), q under both. The first refusal counts: `NotEquation`,
    /// `NotAlphaEqual`.
    pub fn eq_mp(&mut self, lower: ThmId, top: ThmId) -> Result<ThmId, RuleFault>
        requires lower { lower < length self.old.theorems }
        requires top { top < length self.old.theorems }
        ensures concludes { Concludes result (eq_mp_rule names (theorem_at self.old lower) (theorem_at self.old top))
            self.old self.new }
        ensures keeps { Keeps self.old self.new }
        ensures same { SameBasis self.old self.new }
    {
        let theorem = equations::eq_mp(
            self.alloc,
            &self.terms,
            &self.theorems[lower.0],
            &self.theorems[top.0],
        );
        self.derived(theorem)
    }

    /// From G |- t = u, the equation of the abstractions of v. The first refusal counts: `NotEquation`, `VarFreeInHyps`
    /// where v is free in a member of G, `Nesting`.
    pub fn abs_thm(&mut self, v: VarKey, th: ThmId) -> Result<ThmId, RuleFault>
        requires name { v.name < length self.old.names }
        requires ty { v.ty < length self.old.types }
        requires th { th < length self.old.theorems }
        ensures concludes { Concludes result (abs_thm_rule names (variable_at self.old v) (theorem_at self.old th))
            self.old self.new }
        ensures keeps { Keeps self.old self.new }
        ensures same { SameBasis self.old self.new }
    {
        let theorem = equations::abs_thm(self.alloc, &mut self.terms, v, &self.theorems[th.0]);
        self.derived(theorem)
    }

    /// From G |- f = g (lower) and D |- x = y (top), f x = g y under both. The first refusal counts: `NotEquation`,
    /// `NotFunction`, `ArgumentType`, `Nesting`.
    pub fn app_thm(&mut self, lower: ThmId, top: ThmId) -> Result<ThmId, RuleFault>
        requires lower { lower < length self.old.theorems }
        requires top { top < length self.old.theorems }
        ensures concludes { Concludes result (app_thm_rule names (theorem_at self.old lower) (theorem_at self.old top)) self.old
            self.new }
        ensures keeps { Keeps self.old self.new }
        ensures same { SameBasis self.old self.new }
    {
        let theorem = equations::app_thm(
            self.alloc,
            &mut self.terms,
            &self.theorems[lower.0],
            &self.theorems[top.0],
        );
        self.derived(theorem)
    }

    /// From G |- p (lower) and D |- q (top), p = q under G without q and D without p. `Nesting` where it would pass the
    /// limit.
    pub fn deduct_antisym(&mut self, lower: ThmId, top: ThmId) -> Result<ThmId, RuleFault>
        requires lower { lower < length self.old.theorems }
        requires top { top < length self.old.theorems }
        ensures concludes { Concludes result (deduct_antisym_rule names (theorem_at self.old lower) (theorem_at self.old top))
            self.old self.new }
        ensures keeps { Keeps self.old self.new }
        ensures same { SameBasis self.old self.new }
    {
        let theorem = discharge::deduct_antisym(
            self.alloc,
            &mut self.terms,
            &self.theorems[lower.0],
            &self.theorems[top.0],
        );
        self.derived(theorem)
    }

    /// (\v. t) u = t with u for v. The first refusal counts: `NotRedex`, `Nesting`.
    pub fn beta_conv(&mut self, t: TermId) -> Result<ThmId, RuleFault>
        requires { t < length self.old.terms }
        ensures concludes { Concludes result (beta_conv_rule names (term_at self.old t)) self.old self.new }
        ensures keeps { Keeps self.old self.new }
        ensures same { SameBasis self.old self.new }
    {
        let theorem = instances::beta_conv(
            self.alloc,
            &mut self.terms,
            &mut self.names,
            &mut self.results,
            t,
        );
        self.derived(theorem)
    }

    /// The theorem with the substitution put into its hypotheses and its conclusion. `Nesting` where it would pass
    /// the limit.
    pub fn subst(&mut self, s: &Subst, th: ThmId) -> Result<ThmId, RuleFault>
        requires subst { IsSubstIn self.old s.now }
        requires th { th < length self.old.theorems }
        ensures concludes { Concludes result (subst_rule names (type_pairs self.old s.now.types) (term_pairs self.old s.now)
            (theorem_at self.old th)) self.old self.new }
        ensures keeps { Keeps self.old self.new }
        ensures same { SameBasis self.old self.new }
    {
        let theorem = instances::subst(
            self.alloc,
            &mut self.terms,
            &mut self.names,
            &mut self.results,
            s,
            &self.theorems[th.0],
        );
        self.derived(theorem)
    }

    /// From G |- t = u, u = t. The first refusal counts: `NotEquation`, `Nesting`.
    pub fn sym(&mut self, th: ThmId) -> Result<ThmId, RuleFault>
        requires { th < length self.old.theorems }
        ensures concludes { Concludes result (sym_rule names (theorem_at self.old th)) self.old self.new }
        ensures keeps { Keeps self.old self.new }
        ensures same { SameBasis self.old self.new }
    {
        let theorem = equations::sym(self.alloc, &mut self.terms, &self.theorems[th.0]);
        self.derived(theorem)
    }

    /// From G |- a = b (lower) and D |- c = d (top), under both: a = d where b is c, else c = b where d is a. The first
    /// refusal counts: `NotEquation`, `NotAlphaEqual`.
    pub fn trans(&mut self, lower: ThmId, top: ThmId) -> Result<ThmId, RuleFault>
        requires lower { lower < length self.old.theorems }
        requires top { top < length self.old.theorems }
        ensures concludes { Concludes result (trans_rule names (theorem_at self.old lower) (theorem_at self.old top))
            self.old self.new }
        ensures keeps { Keeps self.old self.new }
        ensures same { SameBasis self.old self.new }
    {
        let theorem = equations::trans(
            self.alloc,
            &mut self.terms,
            &self.theorems[lower.0],
            &self.theorems[top.0],
        );
        self.derived(theorem)
    }

    /// From a lemma L |- a and another theorem M |- b, b under L and M without a. The lemma is the top theorem, but the
    /// lower one where its conclusion alone is a hypothesis of the other.
    pub fn prove_hyp(&mut self, lower: ThmId, top: ThmId) -> Result<ThmId, RuleFault>
        requires lower { lower < length self.old.theorems }
        requires top { top < length self.old.theorems }
        ensures concludes { Concludes result (prove_hyp_rule names (theorem_at self.old lower) (theorem_at self.old top)) self.old
            self.new }
        ensures keeps { Keeps self.old self.new }
        ensures same { SameBasis self.old self.new }
    {
        let theorem = discharge::prove_hyp(
            self.alloc,
            &self.terms,
            &self.theorems[lower.0],
            &self.theorems[top.0],
        );
        self.derived(theorem)
    }
}
