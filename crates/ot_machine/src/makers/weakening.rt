//! A theorem of the context in the place of an axiom: the first with its conclusion and with hypotheses among its own,
//! derived with the others. Kernel and trace grow; the run stands for what it stood for.
ghost use Rattle.std.specs.Prelude.{◌≡◌, ◌<◌, Result, length, map, IfOk, IfSome};
ghost use Rattle.std.specs.List.{All};
ghost use Rattle.std.specs.Option.{option_map};
ghost use Rattle.ot_logic.specs.Names.{Name};
ghost use Rattle.ot_logic.specs.Trees.{Sequent};
ghost use Rattle.ot_logic.specs.Faults.{Fault as StatedFault};
ghost use Rattle.ot_kernel.specs.State.{State, term_at, theorem_at};
ghost use Rattle.ot_kernel.specs.Answers.{Concludes};
ghost use Rattle.ot_trace.specs.Origins.{Make, from_list};
ghost use Rattle.ot_machine.specs.Objects.{term};
ghost use Rattle.ot_machine.specs.Rows.{theorem_entry};
ghost use Rattle.ot_machine.specs.Discharge.{given_for, adding, weakened};
ghost use Rattle.ot_machine.specs.Assumptions.{term_entries, supposing};
ghost use Rattle.ot_machine.specs.Meaning.{origin_of, IsRun};
ghost use Rattle.ot_machine.specs.Stays.{Stays};
ghost use Rattle.ot_machine.specs.Contexts.{given_of, context_of, IsContextOf};
ghost use Rattle.ot_machine.specs.Answers.{Makes};

use crate::context::{Context, Given};
use crate::fault::Fault;
use crate::session::Session;
use ot_kernel::{RuleFault, ThmId};
use ot_logic::Cmd;
use ot_term::TermId;
use ot_trace::StepId;

impl Session {
    /// The first theorem of the context with this conclusion and with hypotheses among these.
    pub(crate) fn given_for(
        &self,
        context: &Context<'_>,
        hyps: &[TermId],
        concl: TermId,
    ) -> Option<Given>
        requires context { IsContextOf self.now context.now }
        requires hyps { All (λ t. t < length self.now.kernel.terms) hyps.now }
        requires concl { concl < length self.now.kernel.terms }
        ensures theorem { IfSome result (λ g. g.th < length self.now.kernel.theorems) }
        ensures step { IfSome result (λ g. g.step < length self.now.trace) }
        ensures first { option_map (given_of self.now) result
            ≡ given_for (record {
              hyps = map (term_at self.now.kernel) hyps.now;
              concl = term_at self.now.kernel
                  concl;
            }) (context_of self.now context.now).theorems }
    {
        let place = self.kernel.first_within(context.candidates, hyps, concl);
        self.first_given(&context.theorems[place..], hyps, concl)
    }

    /// The first of these theorems with this conclusion and with hypotheses among these.
    fn first_given(&self, theorems: &[Given], hyps: &[TermId], concl: TermId) -> Option<Given>
        requires theorems { All (λ g. g.th < length self.now.kernel.theorems) theorems.now }
        requires steps { All (λ g. g.step < length self.now.trace) theorems.now }
        requires hyps { All (λ t. t < length self.now.kernel.terms) hyps.now }
        requires concl { concl < length self.now.kernel.terms }
        ensures theorem { IfSome result (λ g. g.th < length self.now.kernel.theorems) }
        ensures step { IfSome result (λ g. g.step < length self.now.trace) }
        ensures first { option_map (given_of self.now) result
            ≡ given_for (record {
              hyps = map (term_at self.now.kernel) hyps.now;
              concl = term_at self.now.kernel
                  concl;
            }) (map (given_of self.now) theorems.now) }
    {
        for given in theorems {
            if self.kernel.is_within(given.th, hyps, concl) {
                return Some(*given);
            }
        }
        None
    }

    /// A theorem with each of these terms among its hypotheses. Their list has this step.
    pub(crate) fn weakened(
        &mut self,
        given: Given,
        hyps: &[TermId],
        list_step: StepId,
    ) -> Result<Given, Fault>
        requires run { IsRun self.old }
        requires theorem { given.th < length self.old.kernel.theorems }
        requires step { given.step < length self.old.trace }
        requires hyps { All (λ t. t < length self.old.kernel.terms) hyps.now }
        requires list_step { list_step < length self.old.trace }
        ensures made { Makes self.new.kernel (λ g. theorem_entry (given_of self.new g)) result
            (weakened (term_entries (map (term_at self.old.kernel) hyps.now) (origin_of self.old list_step))
            (theorem_entry (given_of self.old given))) }
        ensures theorem { IfOk result (λ g. g.th < length self.new.kernel.theorems) }
        ensures step { IfOk result (λ g. g.step < length self.new.trace) }
        ensures stays { Stays self.old self.new }
    {
        let mut weaker = given;
        let mut rest = list_step;
        for hyp in hyps {
            let step = self.operand_of(rest, 0);
            weaker = self.with_hypothesis(weaker, *hyp, step)?;
            rest = self.operand_of(rest, 1);
        }
        Ok(weaker)
    }

    /// A theorem with a term among its hypotheses.
    fn with_hypothesis(&mut self, given: Given, hyp: TermId, step: StepId) -> Result<Given, Fault>
        requires run { IsRun self.old }
        requires theorem { given.th < length self.old.kernel.theorems }
        requires given_step { given.step < length self.old.trace }
        requires hyp { hyp < length self.old.kernel.terms }
        requires step { step < length self.old.trace }
        ensures made { Makes self.new.kernel (λ g. theorem_entry (given_of self.new g)) result
            (supposing (record { object = term (term_at self.old.kernel hyp); origin = origin_of self.old step })
            (theorem_entry (given_of self.old given))) }
        ensures theorem { IfOk result (λ g. g.th < length self.new.kernel.theorems) }
        ensures given_step { IfOk result (λ g. g.step < length self.new.trace) }
        ensures stays { Stays self.old self.new }
    {
        if self.kernel.has_hyp(given.th, hyp) {
            return Ok(given);
        }
        self.adding(given, hyp, step)
    }

    /// A theorem with one hypothesis more: from hyp |- hyp and the theorem, their equation, and by it the theorem
    /// again.
    fn adding(&mut self, given: Given, hyp: TermId, step: StepId) -> Result<Given, Fault>
        requires run { IsRun self.old }
        requires theorem { given.th < length self.old.kernel.theorems }
        requires given_step { given.step < length self.old.trace }
        requires hyp { hyp < length self.old.kernel.terms }
        requires step { step < length self.old.trace }
        ensures made { Makes self.new.kernel (λ g. theorem_entry (given_of self.new g)) result
            (adding (theorem_entry (given_of self.old given))
            (record { object = term (term_at self.old.kernel hyp); origin = origin_of self.old step })) }
        ensures theorem { IfOk result (λ g. g.th < length self.new.kernel.theorems) }
        ensures given_step { IfOk result (λ g. g.step < length self.new.trace) }
        ensures stays { Stays self.old self.new }
    {
        let answer = self.kernel.assume(hyp);
        let assumed = self.concluded(answer, Cmd::Assume, &[step])?;
        let answer = self.kernel.deduct_antisym(assumed.th, given.th);
        let equation = self.concluded(answer, Cmd::DeductAntisym, &[assumed.step, given.step])?;
        let answer = self.kernel.eq_mp(equation.th, assumed.th);
        self.concluded(answer, Cmd::EqMp, &[equation.step, assumed.step])
    }

    /// What a rule gave, with the step that a word makes of those of its operands.
    fn concluded(
        &mut self,
        answer: Result<ThmId, RuleFault>,
        word: Cmd,
        operands: &[StepId],
    ) -> Result<Given, Fault>
        requires run { IsRun self.old }
        requires operands { All (λ i. i < length self.old.trace) operands.now }
        ensures made { (k : State) (stated : Result (Sequent Name) (StatedFault Name))
            → Concludes answer stated k self.old.kernel
            → Makes self.new.kernel (λ g. theorem_at self.new.kernel g.th) result stated }
        ensures origin { IfOk result
            (λ g. origin_of self.new g.step ≡ Make word (from_list (map (origin_of self.old) operands.now))) }
        ensures theorem { (k : State) (stated : Result (Sequent Name) (StatedFault Name))
            → Concludes answer stated k self.old.kernel → IfOk result (λ g. g.th < length self.new.kernel.theorems) }
        ensures step { IfOk result (λ g. g.step < length self.new.trace) }
        ensures stays { Stays self.old self.new }
    {
        let th = ruled(answer)?;
        let step = self.made_of(word, operands)?;
        Ok(Given { th, step })
    }
}

/// What a rule gave, with the machine's fault for its refusal.
fn ruled(answer: Result<ThmId, RuleFault>) -> Result<ThmId, Fault>
    ensures made { (k l : State) (stated : Result (Sequent Name) (StatedFault Name)) → Concludes answer stated k l
        → Makes l (theorem_at l) result stated }
    ensures inside { (k l : State) (stated : Result (Sequent Name) (StatedFault Name)) → Concludes answer stated k l
        → IfOk result (λ th. th < length l.theorems) }
{
    match answer {
        Ok(theorem) => Ok(theorem),
        Err(fault) => Err(Fault::from(fault)),
    }
}
