//! How what stands on the stack was made: its steps in the trace of this session, and what a word makes of them.
ghost use Rattle.std.specs.Prelude.{◌≡◌, ◌<◌, ◌≤◌, Result, length, map, IfOk, IfErr, vec_len};
ghost use Rattle.std.specs.List.{All};
ghost use Rattle.ot_logic.specs.Names.{Name};
ghost use Rattle.ot_logic.specs.Trees.{Sequent};
ghost use Rattle.ot_logic.specs.Faults.{Fault as StatedFault};
ghost use Rattle.ot_logic.specs.declared.command.Cmd.TheVariants as words;
ghost use Rattle.ot_kernel.specs.State.{name_at};
ghost use Rattle.ot_trace.specs.Origins.{Number, Named, Make, Define, Outcome, MoreOrigins};
ghost use Rattle.ot_trace.specs.Origins.{NoOrigins, from_list, make_one, operand, symbols};
ghost use Rattle.ot_trace.specs.Trace.{origin_at as number_origin, origins_at};
ghost use Rattle.ot_machine.specs.Meaning.{origin_of, origin_or, article_of};
ghost use Rattle.ot_machine.specs.Meaning.{IsRun, IsOf, IsIn, IsNumber, HasStep, Traces};
ghost use Rattle.ot_machine.specs.Stays.{MakesStep, ReplacesTop};
ghost use Rattle.ot_machine.specs.Places.{top, origins_of};
ghost use Rattle.ot_machine.specs.Rows.{origin_at};
ghost use Rattle.ot_machine.specs.RenamedLists.{list_onto};
ghost use Rattle.ot_machine.specs.Step.{on_stack};
ghost use Rattle.ot_machine.specs.Concluding.{GivesTheorem, concluding};
ghost use Rattle.ot_machine.specs.Answers.{TakesRow};

use crate::fault::Fault;
use crate::machine::Machine;
use crate::object::Object;
use crate::session::Session;
use ot_kernel::{RuleFault, ThmId};
use ot_logic::{Cmd, Memory, NameId};
use ot_trace::{Step, StepId};

impl Session {
    /// The step that stands beside an object that is no number.
    pub(crate) fn step_of(&self, object: Object, step: Option<StepId>) -> StepId
        requires inside { HasStep self.now.trace object step }
        requires made { IsNumber object → ⊥ }
        ensures origin { origin_of self.now result ≡ origin_or self.now object step }
        ensures inside { result < length self.now.trace }
    {
        match step {
            Some(step) => step,
            None => unreachable!(),
        }
    }

    /// The step of what stands at a place; a number that has none gets one.
    #[inline(always)]
    pub(crate) fn operand_at(&mut self, machine: &Machine, place: usize) -> Result<StepId, Memory>
        requires of { IsOf self.old machine.now }
        requires there { place < vec_len machine.now.stack }
        ensures { MakesStep result
            (origin_at place (article_of self.old machine.now).stack)
            self.old self.new }
    {
        match self.step_on(machine, place) {
            Ok(step) => Ok(step),
            Err(number) => self.number_step(number),
        }
    }

    /// The step of what stands at a place; of a number that has none, the number.
    #[inline(always)]
    fn step_on(&self, machine: &Machine, place: usize) -> Result<StepId, i64>
        requires of { IsOf self.now machine.now }
        requires there { place < vec_len machine.now.stack }
        ensures made { IfOk result
            (λ i. origin_of self.now i ≡ origin_at place (article_of self.now machine.now).stack) }
        ensures inside { IfOk result (λ i. i < length self.now.trace) }
        ensures number { IfErr result (λ k. Number k ≡ origin_at place (article_of self.now machine.now).stack) }
    {
        let entry = self.entry_inside(machine, place);
        match entry.step {
            Some(step) => Ok(step),
            None => match entry.object {
                Object::Number(number) => Err(number),
                _ => unreachable!(),
            },
        }
    }

    /// The step of a number.
    fn number_step(&mut self, number: i64) -> Result<StepId, Memory>
        requires run { IsRun self.old }
        ensures { MakesStep result (Number number) self.old self.new }
    {
        Ok(self.trace.add(Step::Number(number))?)
    }

    /// The step of a name.
    pub(crate) fn name_step(&mut self, name: NameId) -> Result<StepId, Memory>
        requires run { IsRun self.old }
        requires inside { name < length self.old.kernel.names }
        ensures number { IfOk result (λ i. number_origin self.new.trace i ≡ Named name) }
        ensures made { IfOk result (λ i. origin_of self.new i ≡ Named (name_at self.old.kernel name)) }
        ensures inside { IfOk result (λ i. i < length self.new.trace) }
        ensures kept { Traces self.old self.new }
    {
        Ok(self.trace.add(Step::Name(name))?)
    }

    /// The step of the theorem at a place of a definition, counted from 1.
    pub(crate) fn outcome_step(&mut self, place: u8, definition: StepId) -> Result<StepId, Memory>
        requires run { IsRun self.old }
        requires inside { definition < length self.old.trace }
        ensures { MakesStep result (Outcome place (origin_of self.old definition)) self.old self.new }
    {
        Ok(self.trace.add(Step::Outcome(place, definition))?)
    }

    /// The step of what a word makes of the objects of these steps, the lowest first.
    #[inline(always)]
    pub(crate) fn made_of(&mut self, word: Cmd, operands: &[StepId]) -> Result<StepId, Memory>
        requires run { IsRun self.old }
        requires inside { All (λ i. i < length self.old.trace) operands.now }
        ensures number { IfOk result
            (λ i. number_origin self.new.trace i ≡ Make word (origins_at self.old.trace operands.now)) }
        ensures made { IfOk result
            (λ i. origin_of self.new i ≡ Make word (from_list (map (origin_of self.old) operands.now))) }
        ensures inside { IfOk result (λ i. i < length self.new.trace) }
        ensures kept { Traces self.old self.new }
    {
        Ok(self.trace.make(word, operands)?)
    }

    /// The steps of a name and of the symbol that a word makes of it.
    pub(crate) fn symbol_steps(
        &mut self,
        word: Cmd,
        name: NameId,
    ) -> Result<(StepId, StepId), Memory>
        requires run { IsRun self.old }
        requires inside { name < length self.old.kernel.names }
        ensures name { IfOk result (λ p. number_origin self.new.trace p.0 ≡ Named name) }
        ensures symbol { IfOk result (λ p. number_origin self.new.trace p.1 ≡ make_one word (Named name)) }
        ensures name_step { IfOk result (λ p. p.0 < length self.new.trace) }
        ensures symbol_step { IfOk result (λ p. p.1 < length self.new.trace) }
        ensures kept { Traces self.old self.new }
    {
        let operand = self.name_step(name)?;
        let symbol = self.made_of(word, &[operand])?;
        Ok((operand, symbol))
    }

    /// The step of the list of the symbols that a word makes of these names.
    pub(crate) fn symbol_list_step(&mut self, word: Cmd, names: &[NameId]) -> Result<StepId, Memory>
        requires run { IsRun self.old }
        requires inside { All (λ n. n < length self.old.kernel.names) names.now }
        ensures { MakesStep result
            (list_onto (map (λ n. make_one word (Named (name_at self.old.kernel n))) names.now)
            (Make words.Nil NoOrigins))
            self.old self.new }
    {
        let mut list = self.made_of(Cmd::Nil, &[])?;
        let mut rest = names;
        'symbols: while let Some((name, front)) = rest.split_last() {
            let (_, head) = self.symbol_steps(word, *name)?;
            list = self.made_of(Cmd::Cons, &[head, list])?;
            rest = front;
        }
        Ok(list)
    }

    /// The step of a definition by a word and the objects of these steps, the lowest first. `defined` are the steps
    /// of the symbols that these name.
    pub(crate) fn defining_step(
        &mut self,
        word: Cmd,
        operands: &[StepId],
        defined: &[StepId],
    ) -> Result<StepId, Memory>
        requires run { IsRun self.old }
        requires inside { All (λ i. i < length self.old.trace) operands.now }
        requires defined { All (λ i. i < length self.old.trace) defined.now }
        requires symbols { map (number_origin self.old.trace) defined.now
            ≡ symbols (Define word (origins_at self.old.trace operands.now)) }
        ensures { MakesStep result
            (Define word (from_list (map (origin_of self.old) operands.now)))
            self.old self.new }
    {
        Ok(self.trace.define(word, operands, defined)?)
    }

    /// The step of an operand of a step, 0 the lowest; the step itself where it has none there.
    pub(crate) fn operand_of(&self, step: StepId, place: usize) -> StepId
        requires inside { step < length self.now.trace }
        ensures operand { origin_of self.now result ≡ operand place (origin_of self.now step) }
        ensures inside { result < length self.now.trace }
    {
        self.trace.operand(step, place)
    }

    /// What a word makes of the top one, in its place.
    #[inline(always)]
    pub(crate) fn make_one(
        &mut self,
        machine: &mut Machine,
        word: Cmd,
        object: Object,
    ) -> Result<(), Memory>
        requires of { IsOf self.old machine.old }
        requires inside { IsIn self.old.kernel (length machine.old.cells.items) object }
        requires there { 1 ≤ vec_len machine.old.stack }
        ensures { ReplacesTop result 1 object (Make word (origins_of (top 1 (article_of self.old machine.old).stack)))
            self.old machine.old self.new machine.new }
    {
        let operand = self.operand_at(machine, 0)?;
        let step = self.made_of(word, &[operand])?;
        self.replace(machine, 1, object, Some(step));
        Ok(())
    }

    /// What a word makes of the top two, in their place.
    #[inline(always)]
    pub(crate) fn make_two(
        &mut self,
        machine: &mut Machine,
        word: Cmd,
        object: Object,
    ) -> Result<(), Memory>
        requires of { IsOf self.old machine.old }
        requires inside { IsIn self.old.kernel (length machine.old.cells.items) object }
        requires there { 2 ≤ vec_len machine.old.stack }
        ensures { ReplacesTop result 2 object (Make word (origins_of (top 2 (article_of self.old machine.old).stack)))
            self.old machine.old self.new machine.new }
    {
        let upper = self.operand_at(machine, 0)?;
        let lower = self.operand_at(machine, 1)?;
        let step = self.made_of(word, &[lower, upper])?;
        self.replace(machine, 2, object, Some(step));
        Ok(())
    }

    /// What a rule made of the top one, in its place.
    #[inline(always)]
    pub(crate) fn conclude_one(
        &mut self,
        machine: &mut Machine,
        word: Cmd,
        answer: Result<ThmId, RuleFault>,
    ) -> Result<(), Fault>
        requires of { IsOf self.old machine.old }
        requires inside { IfOk answer (λ th. th < length self.old.kernel.theorems) }
        requires there { 1 ≤ vec_len machine.old.stack }
        ensures { (stated : Result (Sequent Name) (StatedFault Name)) → GivesTheorem self.old.kernel answer stated
            → TakesRow result (on_stack (concluding 1 word stated)) self.old machine.old self.new machine.new }
    {
        match answer {
            Ok(theorem) => Ok(self.make_one(machine, word, Object::Theorem(theorem))?),
            Err(fault) => Err(Fault::from(fault)),
        }
    }

    /// What a rule made of the top two, in their place.
    #[inline(always)]
    pub(crate) fn conclude_two(
        &mut self,
        machine: &mut Machine,
        word: Cmd,
        answer: Result<ThmId, RuleFault>,
    ) -> Result<(), Fault>
        requires of { IsOf self.old machine.old }
        requires inside { IfOk answer (λ th. th < length self.old.kernel.theorems) }
        requires there { 2 ≤ vec_len machine.old.stack }
        ensures { (stated : Result (Sequent Name) (StatedFault Name)) → GivesTheorem self.old.kernel answer stated
            → TakesRow result (on_stack (concluding 2 word stated)) self.old machine.old self.new machine.new }
    {
        match answer {
            Ok(theorem) => Ok(self.make_two(machine, word, Object::Theorem(theorem))?),
            Err(fault) => Err(Fault::from(fault)),
        }
    }

    /// What a word makes of a symbol's name, in the place of the top one.
    pub(crate) fn make_symbol(
        &mut self,
        machine: &mut Machine,
        word: Cmd,
        name: NameId,
        object: Object,
    ) -> Result<(), Memory>
        requires of { IsOf self.old machine.old }
        requires inside { IsIn self.old.kernel (length machine.old.cells.items) object }
        requires name { name < length self.old.kernel.names }
        requires there { 1 ≤ vec_len machine.old.stack }
        ensures { ReplacesTop result 1 object (Make word (MoreOrigins (Named (name_at self.old.kernel name)) NoOrigins)) self.old machine.old
            self.new machine.new }
    {
        let operand = self.name_step(name)?;
        let step = self.made_of(word, &[operand])?;
        self.replace(machine, 1, object, Some(step));
        Ok(())
    }
}
