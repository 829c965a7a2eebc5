//! What the run takes for a sequent that an article states as an axiom.
ghost use Rattle.std.specs.Prelude.{◌≡◌, ◌<◌, ◌≤◌, length, map, None, Ok, Err};
ghost use Rattle.std.specs.Prelude.{IfOk, IfSome, MatchBool, vec_len};
ghost use Rattle.std.specs.List.{All};
ghost use Rattle.std.specs.Option.{option_map};
ghost use Rattle.ot_logic.specs.Faults.{NotBool};
ghost use Rattle.ot_logic.specs.Hol.{once_each};
ghost use Rattle.ot_logic.specs.Naming.{names};
ghost use Rattle.ot_logic.specs.declared.command.Cmd.TheVariants as words;
ghost use Rattle.ot_kernel.specs.Axioms.{axiom_rule};
ghost use Rattle.ot_kernel.specs.State.{term_at};
ghost use Rattle.ot_trace.specs.Origins.{Make};
ghost use Rattle.ot_machine.specs.Places.{top, origins_of};
ghost use Rattle.ot_machine.specs.Rows.{given_as, theorem_entry};
ghost use Rattle.ot_machine.specs.Discharge.{given_for};
ghost use Rattle.ot_machine.specs.Assumptions.{assumed_new, used};
ghost use Rattle.ot_machine.specs.Meaning.{article_of, origin_of, run_of, IsRun, IsOf};
ghost use Rattle.ot_machine.specs.Stays.{Stays, GrowsBeside};
ghost use Rattle.ot_machine.specs.Contexts.{given_of, context_of, IsContextOf};
ghost use Rattle.ot_machine.specs.Answers.{Makes};

use crate::context::{Context, Given};
use crate::fault::Fault;
use crate::machine::Machine;
use crate::session::Session;
use ot_logic::{Cmd, Memory};
use ot_term::TermId;
use ot_trace::StepId;

impl Session {
    /// What is used for hypotheses, whose list has this step, and a conclusion: the first theorem of the context with
    /// this conclusion and hypotheses among these, derived with the others; else the assumption of the sequent, which
    /// the run has from then on. The command's operands stand on the top of the stack.
    pub(crate) fn axiom(
        &mut self,
        machine: &Machine,
        context: &Context<'_>,
        hyps: &[TermId],
        list_step: StepId,
        concl: TermId,
    ) -> Result<Given, Fault>
        requires of { IsOf self.old machine.now }
        requires context { IsContextOf self.old context.now }
        requires hyps { All (λ t. t < length self.old.kernel.terms) hyps.now }
        requires list_step { list_step < length self.old.trace }
        requires concl { concl < length self.old.kernel.terms }
        requires there { 2 ≤ vec_len machine.now.stack }
        ensures made { Makes self.new.kernel (λ g. (theorem_entry (given_of self.new g), run_of self.new)) result
            (used (context_of self.old context.now) (map (term_at self.old.kernel) hyps.now)
            (term_at self.old.kernel concl) (origin_of self.old list_step)
            (origins_of (top 2 (article_of self.old machine.now).stack)) (run_of self.old)) }
        ensures theorem { IfOk result (λ g. g.th < length self.new.kernel.theorems) }
        ensures step { IfOk result (λ g. g.step < length self.new.trace) }
        ensures adds { GrowsBeside result self.old self.new }
    {
        let proper = self.is_proper(hyps, concl)?;
        if !proper {
            return Err(Fault::NotBool);
        }
        self.proper_axiom(machine, context, hyps, list_step, concl)
    }

    /// Whether these are all propositions.
    fn is_proper(&mut self, hyps: &[TermId], concl: TermId) -> Result<bool, Memory>
        requires run { IsRun self.old }
        requires hyps { All (λ t. t < length self.old.kernel.terms) hyps.now }
        requires concl { concl < length self.old.kernel.terms }
        ensures proper { IfOk result (λ b. let hs = map (term_at self.old.kernel) hyps.now in let p = term_at self.old.kernel
            concl in
            MatchBool b (axiom_rule hs p ≡ Ok (record { hyps = once_each names hs; concl = p }))
            (axiom_rule hs p ≡ Err NotBool)) }
        ensures stays { Stays self.old self.new }
    {
        let proposed = self.kernel.is_proposition(concl)?;
        if !proposed {
            return Ok(false);
        }
        Ok(self.kernel.are_propositions(hyps)?)
    }

    /// The same, for propositions.
    fn proper_axiom(
        &mut self,
        machine: &Machine,
        context: &Context<'_>,
        hyps: &[TermId],
        list_step: StepId,
        concl: TermId,
    ) -> Result<Given, Fault>
        requires of { IsOf self.old machine.now }
        requires context { IsContextOf self.old context.now }
        requires hyps { All (λ t. t < length self.old.kernel.terms) hyps.now }
        requires list_step { list_step < length self.old.trace }
        requires concl { concl < length self.old.kernel.terms }
        requires there { 2 ≤ vec_len machine.now.stack }
        requires proper { let hs = map (term_at self.old.kernel) hyps.now in let p = term_at self.old.kernel concl in
            axiom_rule hs p ≡ Ok (record { hyps = once_each names hs; concl = p }) }
        ensures made { Makes self.new.kernel (λ g. (theorem_entry (given_of self.new g), run_of self.new)) result
            (used (context_of self.old context.now) (map (term_at self.old.kernel) hyps.now)
            (term_at self.old.kernel concl) (origin_of self.old list_step)
            (origins_of (top 2 (article_of self.old machine.now).stack)) (run_of self.old)) }
        ensures theorem { IfOk result (λ g. g.th < length self.new.kernel.theorems) }
        ensures step { IfOk result (λ g. g.step < length self.new.trace) }
        ensures adds { GrowsBeside result self.old self.new }
    {
        if let Some(given) = self.given_for(context, hyps, concl) {
            return self.weakened(given, hyps, list_step);
        }
        if let Some(given) = self.assumed(hyps, concl) {
            return Ok(given);
        }
        self.assume_stated(machine, hyps, concl)
    }

    /// The first assumption of the run that is this sequent.
    fn assumed(&self, hyps: &[TermId], concl: TermId) -> Option<Given>
        requires run { IsRun self.now }
        requires hyps { All (λ t. t < length self.now.kernel.terms) hyps.now }
        requires concl { concl < length self.now.kernel.terms }
        ensures theorem { IfSome result (λ g. g.th < length self.now.kernel.theorems) }
        ensures step { IfSome result (λ g. g.step < length self.now.trace) }
        ensures first { option_map (given_of self.now) result
            ≡ given_as (record {
              hyps = map (term_at self.now.kernel) hyps.now;
              concl = term_at self.now.kernel
                  concl;
            }) (run_of self.now).assumptions }
    {
        let theorems = self.kernel.assumptions();
        for place in self.kernel.first_place(hyps, concl)..theorems.len() {
            let given = Given {
                th: theorems[place],
                step: self.assumption_steps[place],
            };
            if self.kernel.same(given.th, hyps, concl) {
                return Some(given);
            }
        }
        None
    }

    /// The assumption of a sequent that is none of the run yet, made of the operands on the top of the stack.
    fn assume_stated(
        &mut self,
        machine: &Machine,
        hyps: &[TermId],
        concl: TermId,
    ) -> Result<Given, Fault>
        requires of { IsOf self.old machine.now }
        requires hyps { All (λ t. t < length self.old.kernel.terms) hyps.now }
        requires concl { concl < length self.old.kernel.terms }
        requires there { 2 ≤ vec_len machine.now.stack }
        requires new { None
            ≡ given_as (record {
              hyps = map (term_at self.old.kernel) hyps.now;
              concl = term_at self.old.kernel
                  concl;
            }) (run_of self.old).assumptions }
        ensures made { Makes self.new.kernel (λ g. (theorem_entry (given_of self.new g), run_of self.new)) result
            (assumed_new (map (term_at self.old.kernel) hyps.now) (term_at self.old.kernel concl)
            (Make words.Axiom (origins_of (top 2 (article_of self.old machine.now).stack))) (run_of self.old)) }
        ensures theorem { IfOk result (λ g. g.th < length self.new.kernel.theorems) }
        ensures step { IfOk result (λ g. g.step < length self.new.trace) }
        ensures adds { GrowsBeside result self.old self.new }
    {
        let upper = self.operand_at(machine, 0)?;
        let lower = self.operand_at(machine, 1)?;
        let step = self.made_of(Cmd::Axiom, &[lower, upper])?;
        self.assume_new(hyps, concl, step)
    }

    /// The assumption of a sequent that is none of the run yet, with its step.
    fn assume_new(&mut self, hyps: &[TermId], concl: TermId, step: StepId) -> Result<Given, Fault>
        requires run { IsRun self.old }
        requires hyps { All (λ t. t < length self.old.kernel.terms) hyps.now }
        requires concl { concl < length self.old.kernel.terms }
        requires step { step < length self.old.trace }
        requires new { None
            ≡ given_as (record {
              hyps = map (term_at self.old.kernel) hyps.now;
              concl = term_at self.old.kernel
                  concl;
            }) (run_of self.old).assumptions }
        ensures made { Makes self.new.kernel (λ g. (theorem_entry (given_of self.new g), run_of self.new)) result
            (assumed_new (map (term_at self.old.kernel) hyps.now) (term_at self.old.kernel concl)
            (origin_of self.old step) (run_of self.old)) }
        ensures theorem { IfOk result (λ g. g.th < length self.new.kernel.theorems) }
        ensures step { IfOk result (λ g. g.step < length self.new.trace) }
        ensures adds { GrowsBeside result self.old self.new }
    {
        self.assumption_steps.push(step)?;
        match self.kernel.axiom(hyps, concl) {
            Ok(th) => Ok(Given { th, step }),
            Err(fault) => {
                let _ = self.assumption_steps.pop();
                Err(Fault::from(fault))
            }
        }
    }
}
