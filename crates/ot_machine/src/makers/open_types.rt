//! The two theorems of a type operator in an article of version 5, with the steps that derive them from its definition.
ghost use Rattle.std.specs.Prelude.{◌≡◌, ◌<◌, [], length, IfOk};
ghost use Rattle.ot_logic.specs.Naming.{names};
ghost use Rattle.ot_logic.specs.declared.command.Cmd.TheVariants as words;
ghost use Rattle.ot_kernel.specs.State.{name_at, theorem_at};
ghost use Rattle.ot_trace.specs.Origins.{Named, make_two, type_op_origin};
ghost use Rattle.ot_machine.specs.Defining.{open_defined, stated, origin_by, operator_theorems};
ghost use Rattle.ot_machine.specs.Defining.{AreOperandsIn, IsOperatorOf};
ghost use Rattle.ot_machine.specs.Rows.{type_defining, origin_at};
ghost use Rattle.ot_machine.specs.Version5.{app};
ghost use Rattle.ot_machine.specs.OpenTypes.{fun_origin, bool_origin, constant_at, variable_at, term_of, redex};
ghost use Rattle.ot_machine.specs.OpenTypes.{composed, outcome_at, reduced, returned_origin, opened_origin};
ghost use Rattle.ot_machine.specs.OpenTypes.{AreConstants, first_origin, second_origin, open_entries};
ghost use Rattle.ot_machine.specs.Meaning.{article_of, origin_of, run_of, IsRun, Traces};
ghost use Rattle.ot_machine.specs.Stays.{Stays, GrowsBeside, MakesStep};
ghost use Rattle.ot_machine.specs.Answers.{Makes};

use crate::fault::Fault;
use crate::machine::Machine;
use crate::makers::canonical::Known;
use crate::makers::definitions::DefinedOperator;
use crate::session::Session;
use ot_kernel::ThmId;
use ot_logic::{Cmd, Memory, NameId};
use ot_term::TermNode;
use ot_trace::StepId;
use ot_view::{term_node, type_of};
use std::alloc::Global;

/// The steps of the two constants of a type operator, and of the equality of its old type, as terms.
#[derive(Clone, Copy)]
pub(crate) struct OpenConstants {
    pub abs: StepId,
    pub rep: StepId,
    pub equality: StepId,
}

impl Session {
    /// The step of the type that an operator makes of the types in the list of a step.
    fn operated_step(&mut self, op: NameId, list: StepId) -> Result<StepId, Memory>
        requires run { IsRun self.old }
        requires op { op < length self.old.kernel.names }
        requires list { list < length self.old.trace }
        ensures { MakesStep result
            (make_two words.OpType (type_op_origin (Named (name_at self.old.kernel op))) (origin_of self.old list))
            self.old self.new }
    {
        let (_, symbol) = self.symbol_steps(Cmd::TypeOp, op)?;
        Ok(self.made_of(Cmd::OpType, &[symbol, list])?)
    }

    /// The step of a function type.
    fn function_step(&mut self, from: StepId, to: StepId) -> Result<StepId, Memory>
        requires run { IsRun self.old }
        requires from { from < length self.old.trace }
        requires to { to < length self.old.trace }
        ensures { MakesStep result
            (fun_origin (origin_of self.old from) (origin_of self.old to))
            self.old self.new }
    {
        self.kernel.sound();
        let nil = self.made_of(Cmd::Nil, &[])?;
        let last = self.made_of(Cmd::Cons, &[to, nil])?;
        let both = self.made_of(Cmd::Cons, &[from, last])?;
        Ok(self.operated_step(NameId::ARROW, both)?)
    }

    /// The step of the type of propositions.
    fn boolean_step(&mut self) -> Result<StepId, Memory>
        requires run { IsRun self.old }
        ensures { MakesStep result bool_origin self.old self.new }
    {
        self.kernel.sound();
        let nil = self.made_of(Cmd::Nil, &[])?;
        Ok(self.operated_step(NameId::BOOL, nil)?)
    }

    /// The step of the equality of a type, as a term.
    fn equality_step(&mut self, ty: StepId) -> Result<StepId, Memory>
        requires run { IsRun self.old }
        requires ty { ty < length self.old.trace }
        ensures { MakesStep result
            (constant_at names.equals (fun_origin (origin_of self.old ty) (fun_origin
            (origin_of self.old ty) bool_origin)))
            self.old self.new }
    {
        self.kernel.sound();
        let truth = self.boolean_step()?;
        let test = self.function_step(ty, truth)?;
        let whole = self.function_step(ty, test)?;
        Ok(self.constant_step(NameId::EQUALS, whole)?)
    }

    /// The steps of the constants between an old and a new type, and of the equality of the old one.
    fn constants_between(
        &mut self,
        abs: NameId,
        rep: NameId,
        old: StepId,
        new: StepId,
    ) -> Result<OpenConstants, Memory>
        requires run { IsRun self.old }
        requires abs { abs < length self.old.kernel.names }
        requires rep { rep < length self.old.kernel.names }
        requires old { old < length self.old.trace }
        requires new { new < length self.old.trace }
        ensures made { IfOk result
            (AreConstants self.old self.new (name_at self.old.kernel abs) (name_at self.old.kernel rep) old new) }
        ensures kept { Traces self.old self.new }
    {
        let to = self.function_step(old, new)?;
        let to_new = self.constant_step(abs, to)?;
        let from = self.function_step(new, old)?;
        let to_old = self.constant_step(rep, from)?;
        let equality = self.equality_step(old)?;
        Ok(OpenConstants {
            abs: to_new,
            rep: to_old,
            equality,
        })
    }

    /// The steps of the variable of a name at the type of a step, and of it as a term.
    fn variable_steps(&mut self, name: NameId, ty: StepId) -> Result<(StepId, StepId), Memory>
        requires run { IsRun self.old }
        requires name { name < length self.old.kernel.names }
        requires ty { ty < length self.old.trace }
        ensures variable { IfOk result (λ p. origin_of self.new p.0
            ≡ variable_at (name_at self.old.kernel name) (origin_of self.old ty)) }
        ensures term { IfOk result (λ p. origin_of self.new p.1
            ≡ term_of (variable_at (name_at self.old.kernel name) (origin_of self.old ty))) }
        ensures variable_step { IfOk result (λ p. p.0 < length self.new.trace) }
        ensures term_step { IfOk result (λ p. p.1 < length self.new.trace) }
        ensures kept { Traces self.old self.new }
    {
        let variable = self.variable_step(name, ty)?;
        let term = self.made_of(Cmd::VarTerm, &[variable])?;
        Ok((variable, term))
    }

    /// The step of the application of an abstraction.
    fn redex_step(
        &mut self,
        variable: StepId,
        body: StepId,
        argument: StepId,
    ) -> Result<StepId, Memory>
        requires run { IsRun self.old }
        requires variable { variable < length self.old.trace }
        requires body { body < length self.old.trace }
        requires argument { argument < length self.old.trace }
        ensures { MakesStep result
            (redex (origin_of self.old variable) (origin_of self.old body) (origin_of self.old argument))
            self.old self.new }
    {
        let function = self.made_of(Cmd::AbsTerm, &[variable, body])?;
        Ok(self.made_of(Cmd::AppTerm, &[function, argument])?)
    }

    /// The step of one function after another, at an argument.
    fn composed_step(
        &mut self,
        outer: StepId,
        inner: StepId,
        argument: StepId,
    ) -> Result<StepId, Memory>
        requires run { IsRun self.old }
        requires outer { outer < length self.old.trace }
        requires inner { inner < length self.old.trace }
        requires argument { argument < length self.old.trace }
        ensures { MakesStep result
            (composed (origin_of self.old outer) (origin_of self.old inner) (origin_of self.old argument))
            self.old self.new }
    {
        let value = self.made_of(Cmd::AppTerm, &[inner, argument])?;
        Ok(self.made_of(Cmd::AppTerm, &[outer, value])?)
    }

    /// The step of the theorem at a place of a definition, applied to a term.
    fn outcome_at_step(
        &mut self,
        place: u8,
        definition: StepId,
        argument: StepId,
    ) -> Result<StepId, Memory>
        requires run { IsRun self.old }
        requires definition { definition < length self.old.trace }
        requires argument { argument < length self.old.trace }
        ensures { MakesStep result
            (outcome_at place (origin_of self.old definition) (origin_of self.old argument))
            self.old self.new }
    {
        let theorem = self.outcome_step(place, definition)?;
        let same = self.made_of(Cmd::Refl, &[argument])?;
        Ok(self.made_of(Cmd::AppThm, &[theorem, same])?)
    }

    /// The step of the theorem that two redexes reduce to one term, from that of their equation.
    fn reduced_step(
        &mut self,
        left: StepId,
        theorem: StepId,
        right: StepId,
    ) -> Result<StepId, Memory>
        requires run { IsRun self.old }
        requires left { left < length self.old.trace }
        requires theorem { theorem < length self.old.trace }
        requires right { right < length self.old.trace }
        ensures { MakesStep result
            (reduced (origin_of self.old left) (origin_of self.old theorem) (origin_of self.old right))
            self.old self.new }
    {
        let conversion = self.made_of(Cmd::BetaConv, &[left])?;
        let turned = self.made_of(Cmd::Sym, &[conversion])?;
        let start = self.made_of(Cmd::Trans, &[turned, theorem])?;
        let end = self.made_of(Cmd::BetaConv, &[right])?;
        Ok(self.made_of(Cmd::Trans, &[start, end])?)
    }

    /// The step of the theorem that a value of the new type comes back.
    fn returned_step(
        &mut self,
        definition: StepId,
        abs: StepId,
        rep: StepId,
        new: StepId,
    ) -> Result<StepId, Memory>
        requires run { IsRun self.old }
        requires definition { definition < length self.old.trace }
        requires abs { abs < length self.old.trace }
        requires rep { rep < length self.old.trace }
        requires new { new < length self.old.trace }
        ensures { MakesStep result
            (returned_origin (origin_of self.old definition) (origin_of self.old abs) (origin_of self.old rep)
            (origin_of self.old new))
            self.old self.new }
    {
        self.kernel.sound();
        let (variable, a) = self.variable_steps(NameId::A, new)?;
        let round = self.composed_step(abs, rep, a)?;
        let left = self.redex_step(variable, round, a)?;
        let theorem = self.outcome_at_step(1, definition, a)?;
        let right = self.redex_step(variable, a, a)?;
        Ok(self.reduced_step(left, theorem, right)?)
    }

    /// The step of rep (abs r) = r.
    fn equation_step(&mut self, constants: OpenConstants, r: StepId) -> Result<StepId, Memory>
        requires run { IsRun self.old }
        requires abs { constants.abs < length self.old.trace }
        requires rep { constants.rep < length self.old.trace }
        requires equality { constants.equality < length self.old.trace }
        requires r { r < length self.old.trace }
        ensures { MakesStep result
            (app (app (origin_of self.old constants.equality) (composed (origin_of self.old constants.rep)
            (origin_of self.old constants.abs) (origin_of self.old r))) (origin_of self.old r))
            self.old self.new }
    {
        let round = self.composed_step(constants.rep, constants.abs, r)?;
        let left = self.made_of(Cmd::AppTerm, &[constants.equality, round])?;
        Ok(self.made_of(Cmd::AppTerm, &[left, r])?)
    }

    /// The step of the theorem that the predicate holds just where a value of the old type comes back.
    fn opened_step(
        &mut self,
        definition: StepId,
        constants: OpenConstants,
        predicate: StepId,
        old: StepId,
    ) -> Result<StepId, Memory>
        requires run { IsRun self.old }
        requires definition { definition < length self.old.trace }
        requires abs { constants.abs < length self.old.trace }
        requires rep { constants.rep < length self.old.trace }
        requires equality { constants.equality < length self.old.trace }
        requires predicate { predicate < length self.old.trace }
        requires old { old < length self.old.trace }
        ensures { MakesStep result
            (opened_origin (origin_of self.old definition) (origin_of self.old constants.abs)
            (origin_of self.old constants.rep) (origin_of self.old constants.equality)
            (origin_of self.old predicate) (origin_of self.old old))
            self.old self.new }
    {
        self.kernel.sound();
        let (variable, r) = self.variable_steps(NameId::R, old)?;
        let claim = self.made_of(Cmd::AppTerm, &[predicate, r])?;
        let left = self.redex_step(variable, claim, r)?;
        let equation = self.equation_step(constants, r)?;
        let right = self.redex_step(variable, equation, r)?;
        let theorem = self.outcome_at_step(2, definition, r)?;
        let turned = self.made_of(Cmd::Sym, &[theorem])?;
        Ok(self.reduced_step(left, turned, right)?)
    }

    /// The steps of the two theorems that follow from a definition of a type operator, before it is accepted. A
    /// definition by what is no application has none, and isn't accepted.
    fn open_steps(
        &mut self,
        alloc: Global,
        name: NameId,
        abs: NameId,
        rep: NameId,
        variables: &[NameId],
        premise: ThmId,
        definition: StepId,
    ) -> Result<(StepId, StepId), Memory>
        requires run { IsRun self.old }
        requires operands { AreOperandsIn self.old.kernel name abs rep variables.now premise }
        requires definition { definition < length self.old.trace }
        ensures first { IfOk result (λ p. origin_of self.new p.0
            ≡ origin_by first_origin self.old.kernel name abs rep variables.now premise (origin_of self.old definition)) }
        ensures second { IfOk result (λ p. origin_of self.new p.1
            ≡ origin_by second_origin self.old.kernel name abs rep variables.now premise (origin_of self.old definition)) }
        ensures first_step { IfOk result (λ p. p.0 < length self.new.trace) }
        ensures second_step { IfOk result (λ p. p.1 < length self.new.trace) }
        ensures kept { Stays self.old self.new }
    {
        match *term_node(&self.kernel, self.kernel.concl(premise)) {
            TermNode::App(p, t) => {
                let mut known = Known::new(alloc);
                let ty = type_of(&self.kernel, t);
                let predicate = self.term_origin(alloc, 0, &[], p, &mut known)?;
                let old = self.type_origin(alloc, ty, &mut known.types)?;
                let list = self.symbol_list_step(Cmd::VarType, variables)?;
                let new = self.operated_step(name, list)?;
                let constants = self.constants_between(abs, rep, old, new)?;
                let first = self.returned_step(definition, constants.abs, constants.rep, new)?;
                let second = self.opened_step(definition, constants, predicate, old)?;
                Ok((first, second))
            }
            _ => Ok((definition, definition)),
        }
    }

    /// The two theorems that follow from a definition of a type operator, which is accepted with its step.
    fn accept_open_type(
        &mut self,
        name: NameId,
        abs: NameId,
        rep: NameId,
        variables: &[NameId],
        premise: ThmId,
        definition: StepId,
    ) -> Result<(ThmId, ThmId), Fault>
        requires run { IsRun self.old }
        requires operands { AreOperandsIn self.old.kernel name abs rep variables.now premise }
        requires definition { definition < length self.old.trace }
        ensures made { Makes self.new.kernel (λ p. (
          open_entries
              (origin_by first_origin self.old.kernel name abs rep variables.now premise (origin_of self.old definition))
              (origin_by second_origin self.old.kernel name abs rep variables.now premise (origin_of self.old definition))
              (theorem_at self.new.kernel p.0) (theorem_at self.new.kernel p.1),
          run_of self.new,
        )) result
            (stated open_defined self.old.kernel name abs rep variables.now premise
            (origin_of self.old definition) (run_of self.old)) }
        ensures first { IfOk result (λ p. p.0 < length self.new.kernel.theorems) }
        ensures second { IfOk result (λ p. p.1 < length self.new.kernel.theorems) }
        ensures adds { GrowsBeside result self.old self.new }
    {
        self.kernel.sound();
        self.definition_steps.push(definition)?;
        match self
            .kernel
            .define_type_5(name, abs, rep, variables, premise)
        {
            Ok(theorems) => Ok((theorems.abs_open, theorems.rep_open)),
            Err(fault) => {
                let _ = self.definition_steps.pop();
                Err(Fault::from(fault))
            }
        }
    }

    /// In an article of version 5: equations for variables, in the place of abstractions.
    pub(crate) fn open_type_definition(
        &mut self,
        machine: &Machine,
        name: NameId,
        abs: NameId,
        rep: NameId,
        variables: &[NameId],
        list_step: StepId,
        premise: ThmId,
        premise_step: StepId,
    ) -> Result<DefinedOperator, Fault>
        requires run { IsRun self.old }
        requires operands { AreOperandsIn self.old.kernel name abs rep variables.now premise }
        requires list_step { list_step < length self.old.trace }
        requires list_origin { origin_of self.old list_step ≡ origin_at 1 (article_of self.old machine.now).stack }
        requires premise_step { premise_step < length self.old.trace }
        requires premise_origin { origin_of self.old premise_step ≡ origin_at 0 (article_of self.old machine.now).stack }
        ensures made { Makes self.new.kernel (λ d. (operator_theorems self.new d, run_of self.new)) result
            (stated open_defined self.old.kernel name abs rep variables.now premise
            (type_defining (name_at self.old.kernel name) (name_at self.old.kernel abs) (name_at self.old.kernel rep)
            (article_of self.old machine.now).stack) (run_of self.old)) }
        ensures operator { IfOk result (IsOperatorOf self.old self.new name abs rep) }
        ensures adds { GrowsBeside result self.old self.new }
    {
        let steps = self.type_defining(name, abs, rep, list_step, premise_step)?;
        let (abs_rep_step, rep_abs_step) = self.open_steps(
            machine.alloc,
            name,
            abs,
            rep,
            variables,
            premise,
            steps.definition,
        )?;
        let (abs_rep, rep_abs) = self.accept_open_type(
            name,
            abs,
            rep,
            variables,
            premise,
            steps.definition,
        )?;
        Ok(DefinedOperator {
            op: steps.op,
            abs: steps.abs,
            rep: steps.rep,
            abs_rep,
            abs_rep_step,
            rep_abs,
            rep_abs_step,
        })
    }
}
