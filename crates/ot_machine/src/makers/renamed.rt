//! The list of names and variables of a definition, with the names as the context reads them: its steps in the trace
//! of this session, along its cons tree.
ghost use Rattle.std.specs.Prelude.{◌≡◌, ◌<◌, ℕ, [], length, map, IfOk, IfSome, IfNone};
ghost use Rattle.std.specs.List.{All};
ghost use Rattle.ot_logic.specs.Names.{Name};
ghost use Rattle.ot_logic.specs.Naming.{names};
ghost use Rattle.ot_logic.specs.declared.command.Cmd.TheVariants as words;
ghost use Rattle.ot_interp.specs.Interpretation.{renamed};
ghost use Rattle.ot_kernel.specs.State.{name_at};
ghost use Rattle.ot_trace.specs.Origins.{elements, operand, constant_origin, make_two, renamed_first, renamed_pairs};
ghost use Rattle.ot_trace.specs.Trace.{origin_at};
ghost use Rattle.ot_machine.specs.Contexts.{context_of, IsContextOf};
ghost use Rattle.ot_machine.specs.Meaning.{origin_of, IsRun, Traces};
ghost use Rattle.ot_machine.specs.Stays.{MakesStep};
ghost use Rattle.ot_machine.specs.RenamedLists.{cons_numbers, list_onto, read_by, BeginsWith};

use crate::context::Context;
use crate::session::Session;
use ot_logic::{Cmd, Memory, NameId};
use ot_trace::{Step, StepId};
use std::alloc::Global;

impl Session {
    /// The step of a list of lists, each under another name at its begin, and the steps of the constants of these
    /// names.
    pub(crate) fn renamed_list(
        &mut self,
        alloc: Global,
        context: &Context<'_>,
        list: StepId,
    ) -> Result<(StepId, Vec<StepId>), Memory>
        requires run { IsRun self.old }
        requires context { IsContextOf self.old context.now }
        requires list { list < length self.old.trace }
        ensures made { IfOk result (λ p. origin_of self.new p.0
            ≡ renamed_pairs (renamed names (context_of self.old context.now).interpretation.constants)
            (origin_of self.old list)) }
        ensures symbols { IfOk result (λ p. map (origin_at self.new.trace) p.1.items
            ≡ map (λ pair. constant_origin (operand 0 pair)) (elements (origin_at self.new.trace p.0))) }
        ensures list_step { IfOk result (λ p. p.0 < length self.new.trace) }
        ensures symbol_steps { IfOk result (λ p. All (λ i. i < length self.new.trace) p.1.items) }
        ensures kept { Traces self.old self.new }
    {
        let (found, end) = self.elements_of(alloc, list)?;
        let pairs = self.renamed_each(alloc, context, &found)?;
        let list = self.list_step(&pairs, end)?;
        let symbols = self.symbols_of(alloc, &pairs)?;
        Ok((list, symbols))
    }

    /// The steps of the elements of a list, and the step at the end of its cons tree.
    fn elements_of(&self, alloc: Global, list: StepId) -> Result<(Vec<StepId>, StepId), Memory>
        requires { list < length self.now.trace }
        ensures read { IfOk result (λ p. origin_at self.now.trace list
            ≡ list_onto (map (origin_at self.now.trace) p.0.items) (origin_at self.now.trace p.1)) }
        ensures end { IfOk result (λ p. elements (origin_at self.now.trace p.1) ≡ []) }
        ensures inside { IfOk result (λ p. All (λ i. i < length self.now.trace) p.0.items) }
        ensures end_inside { IfOk result (λ p. p.1 < length self.now.trace) }
    {
        let mut found = Vec::new(alloc);
        let mut rest = list;
        'elements: while let Some(parts) = self.cons_parts(rest) {
            found.push(parts.0)?;
            rest = parts.1;
        }
        Ok((found, rest))
    }

    /// The steps of the head and the tail of what `cons` made of two.
    fn cons_parts(&self, list: StepId) -> Option<(StepId, StepId)>
        requires { list < length self.now.trace }
        ensures some { IfSome result (λ p. origin_at self.now.trace list
            ≡ make_two words.Cons (origin_at self.now.trace p.0) (origin_at self.now.trace p.1)) }
        ensures head { IfSome result (λ p. p.0 < list) }
        ensures tail { IfSome result (λ p. p.1 < list) }
        ensures none { IfNone result (elements (origin_at self.now.trace list) ≡ []) }
    {
        let operands = cons_operands(self.trace.step(list));
        if operands.len() == 2 {
            Some((operands[0], operands[1]))
        } else {
            None
        }
    }

    /// The steps of these lists, each under another name at its begin.
    fn renamed_each(
        &mut self,
        alloc: Global,
        context: &Context<'_>,
        pairs: &[StepId],
    ) -> Result<Vec<StepId>, Memory>
        requires run { IsRun self.old }
        requires context { IsContextOf self.old context.now }
        requires inside { All (λ i. i < length self.old.trace) pairs.now }
        ensures made { IfOk result (λ v. map (origin_of self.new) v.items
            ≡ map (λ i. renamed_first (read_by self.old context.now) (origin_of self.old i)) pairs.now) }
        ensures inside { IfOk result (λ v. All (λ i. i < length self.new.trace) v.items) }
        ensures kept { Traces self.old self.new }
    {
        let mut steps = Vec::new(alloc);
        for pair in pairs {
            let step = self.renamed_begin(alloc, context, *pair)?;
            steps.push(step)?;
        }
        Ok(steps)
    }

    /// The step of a list under another name at its begin; of anything else, its own.
    fn renamed_begin(
        &mut self,
        alloc: Global,
        context: &Context<'_>,
        pair: StepId,
    ) -> Result<StepId, Memory>
        requires run { IsRun self.old }
        requires context { IsContextOf self.old context.now }
        requires inside { pair < length self.old.trace }
        ensures { MakesStep result
            (renamed_first (read_by self.old context.now) (origin_of self.old pair))
            self.old self.new }
    {
        match self.begin_of(pair) {
            Some(name) => {
                let named = self.constant_named(context, name);
                self.begun_with(alloc, pair, named)
            }
            None => Ok(pair),
        }
    }

    /// The name that a list begins with.
    fn begin_of(&self, pair: StepId) -> Option<NameId>
        requires run { IsRun self.now }
        requires inside { pair < length self.now.trace }
        ensures some { IfSome result (λ n. BeginsWith (origin_at self.now.trace pair) n) }
        ensures name { IfSome result (λ n. n < length self.now.kernel.names) }
        ensures none { IfNone result ((f : Name → Name) → renamed_first f (origin_of self.now pair)
            ≡ origin_of self.now pair) }
    {
        let operands = cons_operands(self.trace.step(pair));
        if operands.is_empty() {
            return None;
        }
        match self.trace.step(operands[0]) {
            Step::Name(name) => Some(*name),
            _ => None,
        }
    }

    /// The step of a list that begins with a name, with this one in its place.
    fn begun_with(&mut self, alloc: Global, pair: StepId, name: NameId) -> Result<StepId, Memory>
        requires run { IsRun self.old }
        requires inside { pair < length self.old.trace }
        requires begun { (n : ℕ) × BeginsWith (origin_at self.old.trace pair) n }
        requires name { name < length self.old.kernel.names }
        ensures { MakesStep result
            (renamed_first (λ n. name_at self.old.kernel name) (origin_of self.old pair))
            self.old self.new }
    {
        let begin = self.name_step(name)?;
        let parts = cons_operands(self.trace.step(pair));
        let mut operands = Vec::from_slice(alloc, parts)?;
        operands[0] = begin;
        self.made_of(Cmd::Cons, &operands)
    }

    /// The step of the list of these elements before those of a list.
    fn list_step(&mut self, found: &[StepId], end: StepId) -> Result<StepId, Memory>
        requires run { IsRun self.old }
        requires inside { All (λ i. i < length self.old.trace) found.now }
        requires end { end < length self.old.trace }
        ensures made { IfOk result (λ i. origin_at self.new.trace i
            ≡ list_onto (map (origin_at self.old.trace) found.now) (origin_at self.old.trace end)) }
        ensures inside { IfOk result (λ i. i < length self.new.trace) }
        ensures kept { Traces self.old self.new }
    {
        let mut list = end;
        let mut rest = found;
        'elements: while let Some((element, front)) = rest.split_last() {
            list = self.made_of(Cmd::Cons, &[*element, list])?;
            rest = front;
        }
        Ok(list)
    }

    /// The steps of the constants that these lists begin with.
    fn symbols_of(&mut self, alloc: Global, pairs: &[StepId]) -> Result<Vec<StepId>, Memory>
        requires run { IsRun self.old }
        requires inside { All (λ i. i < length self.old.trace) pairs.now }
        ensures made { IfOk result (λ v. map (origin_at self.new.trace) v.items
            ≡ map (λ i. constant_origin (operand 0 (origin_at self.old.trace i))) pairs.now) }
        ensures inside { IfOk result (λ v. All (λ i. i < length self.new.trace) v.items) }
        ensures kept { Traces self.old self.new }
    {
        let mut symbols = Vec::new(alloc);
        for pair in pairs {
            let name = self.trace.operand(*pair, 0);
            let symbol = self.made_of(Cmd::Const, &[name])?;
            symbols.push(symbol)?;
        }
        Ok(symbols)
    }
}

/// The operands of what `cons` made; none of anything else.
fn cons_operands(step: &Step) -> &[StepId]
    ensures { result.now ≡ cons_numbers step.now }
{
    match step {
        Step::Make(Cmd::Cons, _) => step.operands(),
        _ => &[],
    }
}
