//! Definitions that the kernel accepts for a machine of this session, with their steps. Each names its symbols, so
//! numbers keep their names.
ghost use Rattle.std.specs.Prelude.{◌≡◌, ◌<◌, ◌∷◌, [], length, map, IfOk};
ghost use Rattle.std.specs.List.{All};
ghost use Rattle.ot_logic.specs.Naming.{names};
ghost use Rattle.ot_kernel.specs.State.{name_at, variable_at, term_at, theorem_at};
ghost use Rattle.ot_kernel.specs.Defining.{const_definition, list_definition};
ghost use Rattle.ot_logic.specs.declared.command.Cmd.TheVariants as words;
ghost use Rattle.ot_interp.specs.Interpretation.{renamed};
ghost use Rattle.ot_trace.specs.Origins.{Named, Define, from_list, constant_origin, renamed_pairs};
ghost use Rattle.ot_machine.specs.Objects.{theorem};
ghost use Rattle.ot_machine.specs.Rows.{defined, const_defining, list_defining};
ghost use Rattle.ot_machine.specs.Rows.{type_defining, origin_at};
ghost use Rattle.ot_machine.specs.Defining.{closed_defined, defined_in, stated, operator_theorems};
ghost use Rattle.ot_machine.specs.Defining.{AreOperandsIn, AreOperatorSteps, IsOperatorOf};
ghost use Rattle.ot_machine.specs.Contexts.{context_of, IsContextOf};
ghost use Rattle.ot_machine.specs.Meaning.{article_of, origin_of, run_of, version_of, IsRun, Traces};
ghost use Rattle.ot_machine.specs.Stays.{GrowsBeside, MakesStep};
ghost use Rattle.ot_machine.specs.Answers.{Makes};

use crate::context::Context;
use crate::fault::Fault;
use crate::machine::{Machine, Version};
use crate::session::Session;
use ot_kernel::ThmId;
use ot_logic::{Cmd, Memory, NameId};
use ot_term::{TermId, VarKey};
use ot_trace::StepId;
use std::alloc::Global;

/// A constant that was defined: its step, and its theorem with the step of that.
#[derive(Clone, Copy)]
pub(crate) struct DefinedConstant {
    pub symbol: StepId,
    pub theorem: ThmId,
    pub step: StepId,
}

/// A type operator that was defined: the steps of the operator and of the two constants, and the two theorems with
/// their steps.
#[derive(Clone, Copy)]
pub(crate) struct DefinedOperator {
    pub op: StepId,
    pub abs: StepId,
    pub rep: StepId,
    pub abs_rep: ThmId,
    pub abs_rep_step: StepId,
    pub rep_abs: ThmId,
    pub rep_abs_step: StepId,
}

/// The steps of a type operator, of its two constants, and of its definition.
#[derive(Clone, Copy)]
pub(crate) struct OperatorSteps {
    pub op: StepId,
    pub abs: StepId,
    pub rep: StepId,
    pub definition: StepId,
}

impl Session {
    /// The theorem of a constant that is defined as the term on the top of the stack. The run has the definition from
    /// then on.
    pub(crate) fn constant_definition(
        &mut self,
        machine: &Machine,
        name: NameId,
        term: TermId,
        term_step: StepId,
    ) -> Result<DefinedConstant, Fault>
        requires run { IsRun self.old }
        requires name { name < length self.old.kernel.names }
        requires term { term < length self.old.kernel.terms }
        requires term_step { term_step < length self.old.trace }
        requires origin { origin_of self.old term_step ≡ origin_at 0 (article_of self.old machine.now).stack }
        ensures made { Makes self.new.kernel
            (λ d. (
              record {
                object = theorem (theorem_at self.new.kernel d.theorem);
                origin = origin_of self.new
                    d.step;
              } ∷ [],
              run_of self.new,
            )) result
            (defined (λ ds. const_definition names ds (name_at self.old.kernel name) (term_at self.old.kernel term))
            (const_defining (name_at self.old.kernel name) (article_of self.old machine.now).stack)
            (run_of self.old)) }
        ensures symbol { IfOk result (λ d. origin_of self.new d.symbol
            ≡ constant_origin (Named (name_at self.old.kernel name))) }
        ensures name { name_at self.new.kernel name ≡ name_at self.old.kernel name }
        ensures inside { name < length self.new.kernel.names }
        ensures symbol_step { IfOk result (λ d. d.symbol < length self.new.trace) }
        ensures theorem { IfOk result (λ d. d.theorem < length self.new.kernel.theorems) }
        ensures step { IfOk result (λ d. d.step < length self.new.trace) }
        ensures adds { GrowsBeside result self.old self.new }
    {
        let (symbol, definition) = self.constant_defining(name, term_step)?;
        let step = self.outcome_step(1, definition)?;
        let theorem = self.accept_constant(name, term, definition)?;
        Ok(DefinedConstant {
            symbol,
            theorem,
            step,
        })
    }

    /// The steps of a constant and of its definition by the term of a step.
    fn constant_defining(
        &mut self,
        name: NameId,
        term_step: StepId,
    ) -> Result<(StepId, StepId), Memory>
        requires run { IsRun self.old }
        requires name { name < length self.old.kernel.names }
        requires term_step { term_step < length self.old.trace }
        ensures symbol { IfOk result (λ p. origin_of self.new p.0 ≡ constant_origin (Named (name_at self.old.kernel name))) }
        ensures definition { IfOk result (λ p. origin_of self.new p.1 ≡ Define words.DefineConst
            (from_list (Named (name_at self.old.kernel name) ∷ origin_of self.old term_step ∷ []))) }
        ensures symbol_step { IfOk result (λ p. p.0 < length self.new.trace) }
        ensures definition_step { IfOk result (λ p. p.1 < length self.new.trace) }
        ensures kept { Traces self.old self.new }
    {
        let (name_step, symbol) = self.symbol_steps(Cmd::Const, name)?;
        let definition = self.defining_step(Cmd::DefineConst, &[name_step, term_step], &[symbol])?;
        Ok((symbol, definition))
    }

    /// The theorem of constants that are defined for the variables of the theorem on the top of the stack, with its
    /// step. Below it stands the list of their names and variables. The run has the definition from then on.
    pub(crate) fn list_definition(
        &mut self,
        machine: &Machine,
        context: &Context<'_>,
        constants: &[NameId],
        variables: &[VarKey],
        list_step: StepId,
        premise: ThmId,
        premise_step: StepId,
    ) -> Result<(ThmId, StepId), Fault>
        requires run { IsRun self.old }
        requires context { IsContextOf self.old context.now }
        requires constants { All (λ n. n < length self.old.kernel.names) constants.now }
        requires variables { All (λ v. (v.name < length self.old.kernel.names) × (v.ty < length self.old.kernel.types))
            variables.now }
        requires pairs { length constants.now ≡ length variables.now }
        requires premise { premise < length self.old.kernel.theorems }
        requires list_step { list_step < length self.old.trace }
        requires list_origin { origin_of self.old list_step ≡ origin_at 1 (article_of self.old machine.now).stack }
        requires premise_step { premise_step < length self.old.trace }
        requires premise_origin { origin_of self.old premise_step ≡ origin_at 0 (article_of self.old machine.now).stack }
        ensures made { Makes self.new.kernel
            (λ d. (
              record { object = theorem (theorem_at self.new.kernel d.0); origin = origin_of self.new d.1 }
                  ∷ [],
              run_of self.new,
            )) result
            (defined (λ ds. list_definition names ds (map (name_at self.old.kernel) constants.now)
            (map (variable_at self.old.kernel) variables.now) (theorem_at self.old.kernel premise))
            (list_defining (context_of self.old context.now) (article_of self.old machine.now).stack)
            (run_of self.old)) }
        ensures theorem { IfOk result (λ d. d.0 < length self.new.kernel.theorems) }
        ensures step { IfOk result (λ d. d.1 < length self.new.trace) }
        ensures adds { GrowsBeside result self.old self.new }
    {
        let definition = self.list_defining(machine.alloc, context, list_step, premise_step)?;
        let step = self.outcome_step(1, definition)?;
        let theorem = self.accept_list(constants, variables, premise, definition)?;
        Ok((theorem, step))
    }

    /// The step of the definition of a list of constants by a list of their names and variables and a theorem.
    fn list_defining(
        &mut self,
        alloc: Global,
        context: &Context<'_>,
        list_step: StepId,
        premise_step: StepId,
    ) -> Result<StepId, Memory>
        requires run { IsRun self.old }
        requires context { IsContextOf self.old context.now }
        requires list_step { list_step < length self.old.trace }
        requires premise_step { premise_step < length self.old.trace }
        ensures { MakesStep result
            (Define words.DefineConstList (from_list (renamed_pairs (renamed names
            (context_of self.old context.now).interpretation.constants)
            (origin_of self.old list_step) ∷ origin_of self.old premise_step ∷ [])))
            self.old self.new }
    {
        let (list, symbols) = self.renamed_list(alloc, context, list_step)?;
        Ok(self.defining_step(Cmd::DefineConstList, &[list, premise_step], &symbols)?)
    }

    /// The two theorems of a type operator that is taken from a type, and of the constants between the two types, by
    /// the theorem on the top of the stack and the list of type variables below it. The run has the definition from
    /// then on. The theorems are those of an article of this version.
    pub(crate) fn type_definition(
        &mut self,
        machine: &Machine,
        version: Version,
        name: NameId,
        abs: NameId,
        rep: NameId,
        variables: &[NameId],
        list_step: StepId,
        premise: ThmId,
        premise_step: StepId,
    ) -> Result<DefinedOperator, Fault>
        requires run { IsRun self.old }
        requires operands { AreOperandsIn self.old.kernel name abs rep variables.now premise }
        requires list_step { list_step < length self.old.trace }
        requires list_origin { origin_of self.old list_step ≡ origin_at 1 (article_of self.old machine.now).stack }
        requires premise_step { premise_step < length self.old.trace }
        requires premise_origin { origin_of self.old premise_step ≡ origin_at 0 (article_of self.old machine.now).stack }
        ensures made { Makes self.new.kernel (λ d. (operator_theorems self.new d, run_of self.new)) result
            (stated (defined_in (version_of version)) self.old.kernel name abs rep variables.now premise
            (type_defining (name_at self.old.kernel name) (name_at self.old.kernel abs) (name_at self.old.kernel rep)
            (article_of self.old machine.now).stack) (run_of self.old)) }
        ensures operator { IfOk result (IsOperatorOf self.old self.new name abs rep) }
        ensures adds { GrowsBeside result self.old self.new }
    {
        match version {
            Version::Six => self.closed_type_definition(
                machine,
                name,
                abs,
                rep,
                variables,
                list_step,
                premise,
                premise_step,
            ),
            Version::Open | Version::Five => self.open_type_definition(
                machine,
                name,
                abs,
                rep,
                variables,
                list_step,
                premise,
                premise_step,
            ),
        }
    }

    /// In an article of version 6: equations of abstractions.
    fn closed_type_definition(
        &mut self,
        machine: &Machine,
        name: NameId,
        abs: NameId,
        rep: NameId,
        variables: &[NameId],
        list_step: StepId,
        premise: ThmId,
        premise_step: StepId,
    ) -> Result<DefinedOperator, Fault>
        requires run { IsRun self.old }
        requires operands { AreOperandsIn self.old.kernel name abs rep variables.now premise }
        requires list_step { list_step < length self.old.trace }
        requires list_origin { origin_of self.old list_step ≡ origin_at 1 (article_of self.old machine.now).stack }
        requires premise_step { premise_step < length self.old.trace }
        requires premise_origin { origin_of self.old premise_step ≡ origin_at 0 (article_of self.old machine.now).stack }
        ensures made { Makes self.new.kernel (λ d. (operator_theorems self.new d, run_of self.new)) result
            (stated closed_defined self.old.kernel name abs rep variables.now premise
            (type_defining (name_at self.old.kernel name) (name_at self.old.kernel abs) (name_at self.old.kernel rep)
            (article_of self.old machine.now).stack) (run_of self.old)) }
        ensures operator { IfOk result (IsOperatorOf self.old self.new name abs rep) }
        ensures adds { GrowsBeside result self.old self.new }
    {
        let steps = self.type_defining(name, abs, rep, list_step, premise_step)?;
        let abs_rep_step = self.outcome_step(1, steps.definition)?;
        let rep_abs_step = self.outcome_step(2, steps.definition)?;
        let (abs_rep, rep_abs) = self.accept_type(
            name,
            abs,
            rep,
            variables,
            premise,
            steps.definition,
        )?;
        Ok(DefinedOperator {
            op: steps.op,
            abs: steps.abs,
            rep: steps.rep,
            abs_rep,
            abs_rep_step,
            rep_abs,
            rep_abs_step,
        })
    }

    /// The steps of a type operator, of its two constants, and of its definition by a list of type variables and a
    /// theorem.
    pub(crate) fn type_defining(
        &mut self,
        name: NameId,
        abs: NameId,
        rep: NameId,
        list_step: StepId,
        premise_step: StepId,
    ) -> Result<OperatorSteps, Memory>
        requires run { IsRun self.old }
        requires name { name < length self.old.kernel.names }
        requires abs { abs < length self.old.kernel.names }
        requires rep { rep < length self.old.kernel.names }
        requires list_step { list_step < length self.old.trace }
        requires premise_step { premise_step < length self.old.trace }
        ensures made { IfOk result (AreOperatorSteps self.old self.new name abs rep list_step premise_step) }
        ensures kept { Traces self.old self.new }
    {
        let (name_step, op) = self.symbol_steps(Cmd::TypeOp, name)?;
        let (abs_name, abs) = self.symbol_steps(Cmd::Const, abs)?;
        let (rep_name, rep) = self.symbol_steps(Cmd::Const, rep)?;
        let definition = self.defining_step(
            Cmd::DefineTypeOp,
            &[name_step, abs_name, rep_name, list_step, premise_step],
            &[op, abs, rep],
        )?;
        Ok(OperatorSteps {
            op,
            abs,
            rep,
            definition,
        })
    }
}
