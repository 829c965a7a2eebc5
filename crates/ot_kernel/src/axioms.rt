//! Assumptions: sequents that are taken as they are.
ghost use Rattle.std.specs.Prelude.{◌≡◌, ◌<◌, ◌≤◌, map, length, take, find, None};
ghost use Rattle.std.specs.Prelude.{false, IfOk, IfErr, IfSome, OnOk, OnErr};
ghost use Rattle.std.specs.List.{All, list_all};
ghost use Rattle.std.specs.Option.{option_map};
ghost use Rattle.ot_logic.specs.Hol.{same_sequent};
ghost use Rattle.ot_logic.specs.Naming.{names};
ghost use Rattle.ot_logic.specs.Rules.{has_type};
ghost use Rattle.ot_kernel.specs.State.{type_at, term_at, terms_at, sequent_at, theorem_at, Keeps};
ghost use Rattle.ot_kernel.specs.Spelled.{sequent_of, IsInside};
ghost use Rattle.ot_kernel.specs.Axioms.{axiom_rule};
ghost use Rattle.ot_kernel.specs.Answers.{Assumes};
ghost use Rattle.ot_kernel.specs.Supposed.{IsProposed, IsSupposed, supposing};
ghost use Rattle.ot_logic.specs.RanOut.{ran_out};

use crate::fault::RuleFault;
use crate::hypotheses::once_each;
use crate::kernel::Kernel;
use crate::key::key_of;
use crate::theorem::{Theorem, ThmId};
use ot_logic::Memory;
use ot_term::TermId;
use ot_type::TypeId;

impl Kernel {
    /// The assumption of a sequent, which is added at the end of the assumptions where none of them is that sequent.
    /// The hypotheses are a set. `NotBool` where the conclusion or a hypothesis isn't of the type of propositions.
    pub fn axiom(&mut self, hyps: &[TermId], concl: TermId) -> Result<ThmId, RuleFault>
        requires hyps { All (λ i. i < length self.old.terms) hyps.now }
        requires concl { concl < length self.old.terms }
        ensures assumes { Assumes result (axiom_rule (terms_at self.old hyps.now) (term_at self.old concl)) self.old self.new }
        ensures keeps { Keeps self.old self.new }
    {
        let boolean = self.boolean()?;
        if !self.has_type(concl, boolean) || !self.have_type(hyps, boolean) {
            return Err(RuleFault::NotBool);
        }
        let hyps = once_each(self.alloc, &self.terms, hyps)?;
        self.supposed(Theorem { hyps, concl })
    }

    /// Whether terms are all of a type.
    pub(crate) fn have_type(&self, ts: &[TermId], ty: TypeId) -> bool
        requires ts { All (λ i. i < length self.now.terms) ts.now }
        requires ty { ty < length self.now.types }
        ensures { result ≡ list_all (λ t. has_type names t (type_at self.now ty)) (terms_at self.now ts.now) }
    {
        for t in ts {
            if !self.has_type(*t, ty) {
                return false;
            }
        }
        true
    }

    /// The assumption of a sequent of propositions, a new one where none is this sequent.
    fn supposed(&mut self, theorem: Theorem) -> Result<ThmId, RuleFault>
        requires { IsProposed self.old theorem }
        ensures ok { IfOk result (λ id. IsSupposed id (sequent_of self.old.terms theorem) self.old self.new) }
        ensures err { IfErr result (λ e. (self.new ≡ self.old) × (e ≡ RuleFault.Memory ran_out)) }
    {
        if let Some(known) = self.assumption_of(&theorem) {
            return Ok(known);
        }
        self.suppose(theorem)
    }

    /// The first assumption that is this sequent.
    fn assumption_of(&self, theorem: &Theorem) -> Option<ThmId>
        requires { IsInside (length self.now.terms) theorem.now }
        ensures within { IfSome result (λ id. id < length self.now.theorems) }
        ensures first { option_map (theorem_at self.now) result
            ≡ find (λ r. same_sequent names r (sequent_of self.now.terms theorem.now)) self.now.assumptions }
    {
        let from = self.first_place(&theorem.hyps, theorem.concl);
        self.first_same(&self.assumptions()[from..], theorem)
    }

    /// The first of these theorems that is this sequent.
    fn first_same(&self, among: &[ThmId], theorem: &Theorem) -> Option<ThmId>
        requires among { All (λ i. i < length self.now.theorems) among.now }
        requires theorem { IsInside (length self.now.terms) theorem.now }
        ensures within { IfSome result (λ id. id < length self.now.theorems) }
        ensures first { option_map (theorem_at self.now) result
            ≡ find (λ r. same_sequent names r (sequent_of self.now.terms theorem.now))
            (map (theorem_at self.now) among.now) }
    {
        for id in among {
            if self.same(*id, &theorem.hyps, theorem.concl) {
                return Some(*id);
            }
        }
        None
    }

    /// A place among the assumptions, or their end, before which none is this sequent.
    ///
    /// Its key takes memory: without that the answer is the first place.
    pub fn first_place(&self, hyps: &[TermId], concl: TermId) -> usize
        requires hyps { All (λ i. i < length self.now.terms) hyps.now }
        requires concl { concl < length self.now.terms }
        ensures within { result ≤ length self.now.assumptions }
        ensures none { All (λ r. same_sequent names r (sequent_at self.now hyps.now concl) ≡ false)
            (take result self.now.assumptions) }
    {
        let Ok(key) = key_of(self.alloc, &self.terms, hyps, concl) else {
            return 0;
        };
        match self.places.get(&key) {
            Some(place) => place,
            None => self.assumptions.len(),
        }
    }

    /// A sequent of propositions as a new assumption, whose theorem takes the next place.
    fn suppose(&mut self, theorem: Theorem) -> Result<ThmId, RuleFault>
        requires proposed { IsProposed self.old theorem }
        requires new { find (λ r. same_sequent names r (sequent_of self.old.terms theorem)) self.old.assumptions
            ≡ None }
        ensures ok { IfOk result (λ id. (id ≡ length self.old.theorems)
            × (self.new ≡ supposing self.old (sequent_of self.old.terms theorem))) }
        ensures err { IfErr result (λ e. (self.new ≡ self.old) × (e ≡ RuleFault.Memory ran_out)) }
    {
        let key = key_of(self.alloc, &self.terms, &theorem.hyps, theorem.concl)?;
        let place = self.assumptions.len();
        self.places.note(key, place)?;
        let id = ThmId(self.theorems.len());
        self.theorems.push(theorem)?;
        if let Err(refused) = self.assumptions.push(id) {
            let _ = self.theorems.pop();
            return Err(RuleFault::from(refused));
        }
        Ok(id)
    }

    /// The numbers of the assumptions, in their order.
    pub fn assumptions(&self) -> &[ThmId]
        ensures sequents { map (theorem_at self.now) result.now ≡ self.now.assumptions }
        ensures numbered { All (λ i. i < length self.now.theorems) result.now }
    {
        &self.assumptions
    }
}
