ghost use Rattle.std.specs.Prelude.{◌≡◌, ℕ, true, Some, List, [], ◌∷◌, ◌<◌, length, IfOk, OnOk};
ghost use Rattle.std.specs.List.{All};
ghost use Rattle.ot_logic.specs.Lists.{IsMember};
ghost use Rattle.ot_trace.specs.Reach.{MarksReached};
ghost use Rattle.ot_trace.specs.Walk.{Visits, AreDefiners, Notes, IsNoted, IsPartNumber, StepLeadsTo, symbol_numbers};
ghost use Rattle.ot_trace.specs.Trace.{IsBelow};

use crate::step::Step;
use crate::trace::{StepId, Trace};
use indexmap::IndexMap;
use ot_logic::Memory;
use std::alloc::Global;

/// The marks of the steps that the roots lead to, among these definitions: a step leads to its
/// operands, a theorem to its definition, and a symbol to each of its definitions.
///
/// The answer has one mark for each step of the trace. `Memory` is the only error.
pub fn reach(
    alloc: Global,
    trace: &Trace,
    roots: &[StepId],
    definitions: &[StepId],
) -> Result<Vec<bool>, Memory>
    requires roots { All (λ i. i < length trace.now) roots.now }
    requires definitions { All (λ i. i < length trace.now) definitions.now }
    ensures { IfOk result (λ marks. MarksReached trace.now roots.now definitions.now marks.items) }
{
    let definers = find_definers(alloc, trace, definitions)?;
    let mut walk = Walk {
        marks: vec![in alloc; false; trace.count()]?,
        pending: Vec::new(alloc),
    };
    walk.visit_all(roots)?;
    while let Some(id) = walk.pending.pop() {
        walk.follow(trace, &definers, id)?;
    }
    Ok(walk.marks)
}

/// The steps that were met, and those of them that were not followed yet.
#[derive(Drop)]
struct Walk {
    marks: Vec<bool>,
    pending: Vec<StepId>,
}

impl Walk {
    /// Meets all that the step leads to, by the definitions of symbols.
    fn follow(&mut self, trace: &Trace, definers: &Definers, id: StepId) -> Result<(), Memory>
        requires id { id < length trace.now }
        requires marks { length self.old.marks.items ≡ length trace.now }
        requires definers { (s d : ℕ) → IsNoted definers.now.first.entries definers.now.further.items s d → d
            < length trace.now }
        ensures { OnOk result
            ((ds : List ℕ) → AreDefiners trace.now ds definers.now.first.entries definers.now.further.items
            → Visits (StepLeadsTo trace.now ds id) self.old.marks.items self.old.pending.items self.new.marks.items
            self.new.pending.items) }
    {
        self.visit_parts(trace.step(id))?;
        self.visit_definers(definers, id)
    }

    /// Meets the operands of a step, or the definition of a theorem.
    fn visit_parts(&mut self, step: &Step) -> Result<(), Memory>
        requires { IsBelow (length self.old.marks.items) step.now }
        ensures { OnOk result (Visits (IsPartNumber step.now) self.old.marks.items self.old.pending.items
            self.new.marks.items self.new.pending.items) }
    {
        match step {
            Step::Number(_) | Step::Name(_) => Ok(()),
            Step::Make(_, operands) => self.visit_all(operands.as_slice()),
            Step::Define(_, operands, _) => self.visit_all(operands.as_slice()),
            Step::Outcome(_, definition) => self.visit(*definition),
        }
    }

    /// Meets the definitions of a symbol.
    fn visit_definers(&mut self, definers: &Definers, symbol: StepId) -> Result<(), Memory>
        requires { (s d : ℕ) → IsNoted definers.now.first.entries definers.now.further.items s d → d
            < length self.old.marks.items }
        ensures { OnOk result (Visits (λ i. IsNoted definers.now.first.entries definers.now.further.items symbol i)
            self.old.marks.items self.old.pending.items self.new.marks.items self.new.pending.items) }
    {
        self.visit_first(definers.first.get(&symbol).copied())?;
        self.visit_further(definers.further.as_slice(), symbol)
    }

    /// Meets a step, if there is one.
    fn visit_first(&mut self, id: Option<StepId>) -> Result<(), Memory>
        requires { (i : ℕ) → id ≡ Some i → i < length self.old.marks.items }
        ensures { OnOk result (Visits (λ i. id ≡ Some i) self.old.marks.items self.old.pending.items
            self.new.marks.items self.new.pending.items) }
    {
        match id {
            Some(id) => self.visit(id),
            None => Ok(()),
        }
    }

    /// Meets the definitions that these pairs have for a symbol.
    fn visit_further(&mut self, pairs: &[(StepId, StepId)], symbol: StepId) -> Result<(), Memory>
        requires { (s d : ℕ) → IsMember (s, d) pairs.now → d < length self.old.marks.items }
        ensures { OnOk result
            (Visits (λ i. IsMember (symbol, i) pairs.now) self.old.marks.items self.old.pending.items
            self.new.marks.items self.new.pending.items) }
    {
        for pair in pairs {
            self.visit_where(pair.0 == symbol, pair.1)?;
        }
        Ok(())
    }

    /// Meets a step, where it is asked for.
    fn visit_where(&mut self, is_asked: bool, id: StepId) -> Result<(), Memory>
        requires { id < length self.old.marks.items }
        ensures { OnOk result (Visits (λ i. (is_asked ≡ true) × (i ≡ id)) self.old.marks.items self.old.pending.items
            self.new.marks.items self.new.pending.items) }
    {
        if is_asked { self.visit(id) } else { Ok(()) }
    }

    /// Meets each of the steps.
    fn visit_all(&mut self, ids: &[StepId]) -> Result<(), Memory>
        requires { All (λ i. i < length self.old.marks.items) ids.now }
        ensures { OnOk result (Visits (λ i. IsMember i ids.now) self.old.marks.items self.old.pending.items
            self.new.marks.items self.new.pending.items) }
    {
        for id in ids {
            self.visit(*id)?;
        }
        Ok(())
    }

    /// Meets a step: it is marked, and waits where it was not.
    fn visit(&mut self, id: StepId) -> Result<(), Memory>
        requires { id < length self.old.marks.items }
        ensures { OnOk result (Visits (λ i. i ≡ id) self.old.marks.items self.old.pending.items self.new.marks.items
            self.new.pending.items) }
    {
        if !self.marks[id.0 as usize] {
            self.pending.push(id)?;
            self.marks[id.0 as usize] = true;
        }
        Ok(())
    }
}

/// The definitions of symbols: the first one of each, and further ones, of which the definitions of
/// a run have none.
#[derive(Drop)]
struct Definers {
    first: IndexMap<StepId, StepId>,
    further: Vec<(StepId, StepId)>,
}

/// The definitions of each symbol, among these.
fn find_definers(alloc: Global, trace: &Trace, definitions: &[StepId]) -> Result<Definers, Memory>
    requires { All (λ i. i < length trace.now) definitions.now }
    ensures { IfOk result (λ found. AreDefiners trace.now definitions.now found.first.entries found.further.items) }
{
    let mut found = Definers {
        first: IndexMap::new(alloc),
        further: Vec::new(alloc),
    };
    for id in definitions {
        found.note_step(trace.step(*id), *id)?;
    }
    Ok(found)
}

impl Definers {
    /// Notes the symbols of a step that is a definition.
    fn note_step(&mut self, step: &Step, id: StepId) -> Result<(), Memory>
        ensures { OnOk result (Notes (symbol_numbers step.now) id self.old.first.entries self.old.further.items
            self.new.first.entries self.new.further.items) }
    {
        match step {
            Step::Number(_) | Step::Name(_) | Step::Make(_, _) | Step::Outcome(_, _) => Ok(()),
            Step::Define(_, _, symbols) => self.note_all(symbols.as_slice(), id),
        }
    }

    /// Notes the symbols of a definition.
    fn note_all(&mut self, symbols: &[StepId], definition: StepId) -> Result<(), Memory>
        ensures { OnOk result (Notes symbols.now definition self.old.first.entries self.old.further.items
            self.new.first.entries self.new.further.items) }
    {
        for symbol in symbols {
            self.note(*symbol, definition)?;
        }
        Ok(())
    }

    /// Notes a symbol of a definition.
    fn note(&mut self, symbol: StepId, definition: StepId) -> Result<(), Memory>
        ensures { OnOk result (Notes (symbol ∷ []) definition self.old.first.entries self.old.further.items
            self.new.first.entries self.new.further.items) }
    {
        match self.first.get(&symbol) {
            Some(first) => {
                if *first != definition {
                    self.further.push((symbol, definition))?;
                }
            }
            None => {
                self.first.insert(symbol, definition)?;
            }
        }
        Ok(())
    }
}
