//! For each step of a trace a set of places.
ghost use Rattle.std.specs.Prelude.{◌≡◌, ◌↔◌, ℕ, ◌<◌, Some, length, slice_get, slice_index, IfOk, OnOk};
ghost use Rattle.std.specs.List.{All};
ghost use Rattle.std.specs.List.Sorted.{IsStrictlyIncreasing};
ghost use Rattle.ot_logic.specs.Lists.{IsMember};
ghost use Rattle.ot_sets.specs.Table.{Has};
ghost use Rattle.ot_trace.specs.Trace.{IsBelow};
ghost use Rattle.ot_trace.specs.Walk.{symbol_numbers, IsPartNumber};

use crate::rising::rising;
use ot_logic::Memory;
use ot_sets::{SetId, Sets};
use ot_trace::{Step, StepId, Trace};
use std::alloc::Global;

/// For each step of a trace a set of places.
#[derive(Drop)]
pub(crate) struct Column {
    pub(crate) sets: Sets,
    pub(crate) of: Vec<SetId>,
    pub(crate) empty: SetId,
}

impl Column {
    ghost use Rattle.ot_leads.specs.Columns.{HasPlace, IsColumn, Gains, HasPart, PassesUp};
    ghost use Rattle.ot_leads.specs.Leads.{IsDefined, IsGiven};

    /// Empty sets for so many steps, of places below a bound.
    pub(crate) fn new(alloc: Global, count: usize, bound: usize) -> Result<Column, Memory>
        ensures { IfOk result (λ c. IsColumn count c × ((i p : ℕ) → i < count → HasPlace c i p → ⊥)) }
    {
        let mut sets = Sets::new(alloc, bound);
        let empty = sets.empty()?;
        let of = vec![in alloc; empty; count]?;
        Ok(Column { sets, of, empty })
    }

    /// The places of a set in rising order, each once.
    pub(crate) fn places(&self, alloc: Global, set: SetId) -> Result<Vec<usize>, Memory>
        requires column { IsColumn (length self.now.of.items) self.now }
        requires set { set < length self.now.sets }
        ensures rises { IfOk result (λ places. IsStrictlyIncreasing places.items) }
        ensures all { IfOk result (λ places. (p : ℕ) → IsMember p places.items ↔ Has self.now.sets set p) }
    {
        let mut places = Vec::new(alloc);
        self.sets.push_added(self.empty, set, &mut places)?;
        Ok(rising(places))
    }

    /// Puts a place into the set of a step.
    pub(crate) fn note(&mut self, step: StepId, place: usize) -> Result<(), Memory>
        requires column { IsColumn (length self.old.of.items) self.old }
        requires step { step < length self.old.of.items }
        ensures { OnOk result (Gains (length self.old.of.items) self.old self.new
            (λ i p. (i ≡ step) × (p ≡ place))) }
    {
        let single = self.sets.single(place)?;
        self.of[step.index()] = self.sets.join(self.of[step.index()], single)?;
        Ok(())
    }

    /// Puts each place of a list into the set of the step that stands there.
    pub(crate) fn note_places(&mut self, steps: &[StepId]) -> Result<(), Memory>
        requires column { IsColumn (length self.old.of.items) self.old }
        requires steps { All (λ i. i < length self.old.of.items) steps.now }
        ensures { OnOk result (Gains (length self.old.of.items) self.old self.new (IsGiven steps.now)) }
    {
        for (place, step) in steps.iter().enumerate() {
            self.note(*step, place)?;
        }
        Ok(())
    }

    /// Puts these places of definitions into the sets of the definitions, and into those of their symbols.
    pub(crate) fn note_definitions(
        &mut self,
        trace: &Trace,
        definitions: &[StepId],
        places: &[usize],
    ) -> Result<(), Memory>
        requires trace { length self.old.of.items ≡ length trace.now }
        requires column { IsColumn (length trace.now) self.old }
        requires definitions { All (λ i. i < length trace.now) definitions.now }
        requires places { All (λ p. p < length definitions.now) places.now }
        ensures { OnOk result (Gains (length trace.now) self.old self.new
            (λ i p. IsMember p places.now × IsDefined trace.now (slice_index definitions.now p) i)) }
    {
        for place in places {
            self.note_definition(trace, definitions[*place], *place)?;
        }
        Ok(())
    }

    /// Puts a place into the set of a definition, and into those of its symbols.
    fn note_definition(
        &mut self,
        trace: &Trace,
        definition: StepId,
        place: usize,
    ) -> Result<(), Memory>
        requires trace { length self.old.of.items ≡ length trace.now }
        requires column { IsColumn (length trace.now) self.old }
        requires definition { definition < length trace.now }
        ensures { OnOk result (Gains (length trace.now) self.old self.new
            (λ i p. (p ≡ place) × IsDefined trace.now definition i)) }
    {
        self.note(definition, place)?;
        self.note_symbols(trace.step(definition), place)
    }

    /// Puts a place into the sets of the symbols of a step.
    fn note_symbols(&mut self, step: &Step, place: usize) -> Result<(), Memory>
        requires column { IsColumn (length self.old.of.items) self.old }
        requires step { IsBelow (length self.old.of.items) step.now }
        ensures { OnOk result (Gains (length self.old.of.items) self.old self.new
            (λ i p. IsMember i (symbol_numbers step.now) × (p ≡ place))) }
    {
        match step {
            Step::Number(_) | Step::Name(_) | Step::Make(_, _) | Step::Outcome(_, _) => Ok(()),
            Step::Define(_, _, symbols) => self.note_all(symbols.as_slice(), place),
        }
    }

    /// Puts a place into the sets of these steps.
    fn note_all(&mut self, steps: &[StepId], place: usize) -> Result<(), Memory>
        requires column { IsColumn (length self.old.of.items) self.old }
        requires steps { All (λ i. i < length self.old.of.items) steps.now }
        ensures { OnOk result (Gains (length self.old.of.items) self.old self.new
            (λ i p. IsMember i steps.now × (p ≡ place))) }
    {
        for step in steps {
            self.note(*step, place)?;
        }
        Ok(())
    }

    /// Passes the set of each step on to the steps that it is a part of. The steps stand at their numbers.
    pub(crate) fn pass_up(&mut self, trace: &Trace, steps: &[Option<StepId>]) -> Result<(), Memory>
        requires trace { length self.old.of.items ≡ length trace.now }
        requires column { IsColumn (length trace.now) self.old }
        requires length_is { length steps.now ≡ length trace.now }
        requires own { (i j : ℕ) → slice_get steps.now i ≡ Some (Some j) → j ≡ i }
        ensures { OnOk result (PassesUp trace.now steps.now self.old self.new) }
    {
        // Each step stands above its parts.
        let _count = trace.count();
        for step in steps {
            match step {
                Some(step) => self.gather(trace, *step)?,
                None => {}
            }
        }
        Ok(())
    }

    /// Joins the sets of the parts of a step to its own.
    fn gather(&mut self, trace: &Trace, id: StepId) -> Result<(), Memory>
        requires trace { length self.old.of.items ≡ length trace.now }
        requires column { IsColumn (length trace.now) self.old }
        requires id { id < length trace.now }
        ensures { OnOk result (Gains (length trace.now) self.old self.new
            (λ i p. (i ≡ id) × (j : ℕ) × HasPart trace.now id j × HasPlace self.old j p)) }
    {
        self.join_parts(trace.step(id), id)
    }

    /// Joins the sets of the parts that a step names to that of its number.
    fn join_parts(&mut self, step: &Step, id: StepId) -> Result<(), Memory>
        requires column { IsColumn (length self.old.of.items) self.old }
        requires id { id < length self.old.of.items }
        requires step { IsBelow id step.now }
        ensures { OnOk result (Gains (length self.old.of.items) self.old self.new
            (λ i p. (i ≡ id) × (j : ℕ) × IsPartNumber step.now j × HasPlace self.old j p)) }
    {
        match step {
            Step::Number(_) | Step::Name(_) => Ok(()),
            Step::Make(_, operands) => self.join_all(operands.as_slice(), id),
            Step::Define(_, operands, _) => self.join_all(operands.as_slice(), id),
            Step::Outcome(_, definition) => self.join(*definition, id),
        }
    }

    /// Joins the sets of these steps to that of another.
    fn join_all(&mut self, parts: &[StepId], id: StepId) -> Result<(), Memory>
        requires column { IsColumn (length self.old.of.items) self.old }
        requires id { id < length self.old.of.items }
        requires parts { All (λ i. i < id) parts.now }
        ensures { OnOk result (Gains (length self.old.of.items) self.old self.new
            (λ i p. (i ≡ id) × (j : ℕ) × IsMember j parts.now × HasPlace self.old j p)) }
    {
        for part in parts {
            self.join(*part, id)?;
        }
        Ok(())
    }

    /// Joins the set of a step to that of another.
    fn join(&mut self, part: StepId, id: StepId) -> Result<(), Memory>
        requires column { IsColumn (length self.old.of.items) self.old }
        requires id { id < length self.old.of.items }
        requires part { part < length self.old.of.items }
        ensures { OnOk result (Gains (length self.old.of.items) self.old self.new
            (λ i p. (i ≡ id) × HasPlace self.old part p)) }
    {
        self.of[id.index()] = self.sets.join(self.of[id.index()], self.of[part.index()])?;
        Ok(())
    }
}
