//! Definitions that the kernel accepts for this session. Each has its step from then on; after a refusal
//! the run is as before.
ghost use Rattle.std.specs.Prelude.{◌≡◌, ◌<◌, ◌∷◌, [], length, map, IfOk};
ghost use Rattle.std.specs.List.{All};
ghost use Rattle.ot_logic.specs.Naming.{names};
ghost use Rattle.ot_kernel.specs.State.{name_at, variable_at, term_at, theorem_at};
ghost use Rattle.ot_kernel.specs.Defining.{const_definition, list_definition};
ghost use Rattle.ot_machine.specs.Rows.{defined, theorem_entries};
ghost use Rattle.ot_machine.specs.Defining.{closed_defined, stated, AreOperandsIn};
ghost use Rattle.ot_machine.specs.Meaning.{origin_of, run_of, IsRun};
ghost use Rattle.ot_machine.specs.Stays.{GrowsBeside};
ghost use Rattle.ot_machine.specs.Answers.{Makes};

use crate::fault::Fault;
use crate::session::Session;
use ot_kernel::ThmId;
use ot_logic::NameId;
use ot_term::{TermId, VarKey};
use ot_trace::StepId;

impl Session {
    /// The theorem of a constant that is defined as a term.
    pub(crate) fn accept_constant(
        &mut self,
        name: NameId,
        term: TermId,
        definition: StepId,
    ) -> Result<ThmId, Fault>
        requires run { IsRun self.old }
        requires name { name < length self.old.kernel.names }
        requires term { term < length self.old.kernel.terms }
        requires definition { definition < length self.old.trace }
        ensures made { Makes self.new.kernel
            (λ th. (
              theorem_entries (origin_of self.old definition) 0 (theorem_at self.new.kernel th ∷ []),
              run_of
                  self.new,
            )) result
            (defined (λ ds. const_definition names ds (name_at self.old.kernel name) (term_at self.old.kernel term))
            (origin_of self.old definition) (run_of self.old)) }
        ensures theorem { IfOk result (λ th. th < length self.new.kernel.theorems) }
        ensures adds { GrowsBeside result self.old self.new }
    {
        self.definition_steps.push(definition)?;
        match self.kernel.define_const(name, term) {
            Ok(theorem) => Ok(theorem),
            Err(fault) => {
                let _ = self.definition_steps.pop();
                Err(Fault::from(fault))
            }
        }
    }

    /// The theorem of constants that are defined for the variables of a theorem.
    pub(crate) fn accept_list(
        &mut self,
        constants: &[NameId],
        variables: &[VarKey],
        premise: ThmId,
        definition: StepId,
    ) -> Result<ThmId, Fault>
        requires run { IsRun self.old }
        requires constants { All (λ n. n < length self.old.kernel.names) constants.now }
        requires variables { All (λ v. (v.name < length self.old.kernel.names) × (v.ty < length self.old.kernel.types))
            variables.now }
        requires pairs { length constants.now ≡ length variables.now }
        requires premise { premise < length self.old.kernel.theorems }
        requires definition { definition < length self.old.trace }
        ensures made { Makes self.new.kernel
            (λ th. (
              theorem_entries (origin_of self.old definition) 0 (theorem_at self.new.kernel th ∷ []),
              run_of
                  self.new,
            )) result
            (defined (λ ds. list_definition names ds (map (name_at self.old.kernel) constants.now)
            (map (variable_at self.old.kernel) variables.now) (theorem_at self.old.kernel premise))
            (origin_of self.old definition) (run_of self.old)) }
        ensures theorem { IfOk result (λ th. th < length self.new.kernel.theorems) }
        ensures adds { GrowsBeside result self.old self.new }
    {
        self.definition_steps.push(definition)?;
        match self.kernel.define_list(constants, variables, premise) {
            Ok(theorem) => Ok(theorem),
            Err(fault) => {
                let _ = self.definition_steps.pop();
                Err(Fault::from(fault))
            }
        }
    }

    /// The two theorems of a type operator that is taken from a type, and of the constants between the two types.
    pub(crate) fn accept_type(
        &mut self,
        name: NameId,
        abs: NameId,
        rep: NameId,
        variables: &[NameId],
        premise: ThmId,
        definition: StepId,
    ) -> Result<(ThmId, ThmId), Fault>
        requires run { IsRun self.old }
        requires operands { AreOperandsIn self.old.kernel name abs rep variables.now premise }
        requires definition { definition < length self.old.trace }
        ensures made { Makes self.new.kernel
            (λ p. (
              theorem_entries (origin_of self.old definition) 0
                  (theorem_at self.new.kernel p.0 ∷ theorem_at self.new.kernel p.1 ∷ []),
              run_of self.new,
            )) result
            (stated closed_defined self.old.kernel name abs rep variables.now premise
            (origin_of self.old definition) (run_of self.old)) }
        ensures first { IfOk result (λ p. p.0 < length self.new.kernel.theorems) }
        ensures second { IfOk result (λ p. p.1 < length self.new.kernel.theorems) }
        ensures adds { GrowsBeside result self.old self.new }
    {
        self.definition_steps.push(definition)?;
        match self.kernel.define_type(name, abs, rep, variables, premise) {
            Ok(theorems) => Ok(theorems),
            Err(fault) => {
                let _ = self.definition_steps.pop();
                Err(Fault::from(fault))
            }
        }
    }
}
