//! What a step leads to, by the definitions that it leads to.
ghost use Rattle.std.specs.Prelude.{◌≡◌, [], ◌∷◌, ℕ, ◌<◌, List, length, IfOk, OnOk, slice_index};
ghost use Rattle.std.specs.List.{All};
ghost use Rattle.ot_leads.specs.Closing.{AreColumns, ArePut, BothStay, Closes, HasNoted, IsFoundIn, Takes};
ghost use Rattle.ot_leads.specs.Columns.{HasPlace};
ghost use Rattle.ot_leads.specs.Found.{AreUses};
ghost use Rattle.ot_leads.specs.Leads.{AreLeads};

use crate::finding::{Leads, Uses};
use indexmap::IndexSet;
use ot_logic::Memory;
use ot_sets::{SetId, Sets};
use ot_trace::{StepId, Trace};
use std::alloc::Global;

impl Leads {
    /// What a root leads to, by its parts and by the definitions of theorems and symbols. The definitions are those of
    /// the table, and the root is one of its roots. `Memory` is the only error.
    pub fn uses(
        &mut self,
        alloc: Global,
        trace: &Trace,
        definitions: &[StepId],
        root: StepId,
    ) -> Result<Uses, Memory>
        requires { (gs : List ℕ) × AreLeads trace.now (root ∷ []) gs definitions.now self.old }
        ensures uses { IfOk result (λ uses. (gs : List ℕ)
            → AreLeads trace.now (root ∷ []) gs definitions.now self.old
            → AreUses trace.now gs definitions.now root uses) }
        ensures stays { (roots gs : List ℕ) → AreLeads trace.now roots gs definitions.now self.old
            → AreLeads trace.now roots gs definitions.now self.new }
    {
        // Each origin has one number.
        let _count = trace.count();
        let found = self.close(alloc, definitions, root)?;
        Ok(Uses {
            assumptions: self.assumptions.places(alloc, found.assumptions)?,
            definitions: self.definitions.places(alloc, found.definitions)?,
        })
    }

    /// What a root leads to.
    fn close(
        &mut self,
        alloc: Global,
        definitions: &[StepId],
        root: StepId,
    ) -> Result<Found, Memory>
        requires root { root < length self.old.definitions.of.items }
        requires columns { AreColumns (length self.old.definitions.of.items) self.old }
        requires definitions { All (λ i. i < length self.old.definitions.of.items) definitions.now }
        requires places { (i p : ℕ) → i < length self.old.definitions.of.items → HasPlace self.old.definitions i p
            → p < length definitions.now }
        ensures found { IfOk result (Closes self.old self.new definitions.now root) }
        ensures stay { BothStay self.old self.new }
    {
        let mut found = Found {
            assumptions: self.assumptions.empty,
            definitions: self.definitions.empty,
            places: IndexSet::new(alloc),
        };
        found.take(alloc, self, root)?;
        let mut next = 0;
        while next < found.places.len() {
            found.follow(alloc, self, definitions, next)?;
            next += 1;
        }
        Ok(found)
    }
}

/// What was found of a step.
#[derive(Drop)]
struct Found {
    assumptions: SetId,
    definitions: SetId,
    // Those of the definitions, as they were found.
    places: IndexSet<usize>,
}

impl Found {
    /// Follows the definition that was found at a place.
    fn follow(
        &mut self,
        alloc: Global,
        leads: &mut Leads,
        definitions: &[StepId],
        next: usize,
    ) -> Result<(), Memory>
        requires next { next < length self.old.places.keys }
        requires columns { AreColumns (length leads.old.definitions.of.items) leads.old }
        requires found { IsFoundIn leads.old self.old }
        requires places { All (λ p. p < length definitions.now) self.old.places.keys }
        requires definitions { All (λ i. i < length leads.old.definitions.of.items) definitions.now }
        ensures ok { OnOk result (Takes leads.old leads.new self.old self.new
            (slice_index definitions.now (slice_index self.old.places.keys next))) }
        ensures stay { BothStay leads.old leads.new }
    {
        match self.places.get_index(next).copied() {
            Some(place) => self.take(alloc, leads, definitions[place]),
            None => Ok(()),
        }
    }

    /// Takes what the parts of a step lead to.
    fn take(&mut self, alloc: Global, leads: &mut Leads, step: StepId) -> Result<(), Memory>
        requires columns { AreColumns (length leads.old.definitions.of.items) leads.old }
        requires found { IsFoundIn leads.old self.old }
        requires step { step < length leads.old.definitions.of.items }
        ensures ok { OnOk result (Takes leads.old leads.new self.old self.new step) }
        ensures stay { BothStay leads.old leads.new }
    {
        self.assumptions = leads
            .assumptions
            .sets
            .join(self.assumptions, leads.assumptions.of[step.index()])?;
        let known = self.definitions;
        self.definitions = leads
            .definitions
            .sets
            .join(known, leads.definitions.of[step.index()])?;
        self.note_added(alloc, &leads.definitions.sets, known)
    }

    /// Notes the definitions that came to those that were known.
    fn note_added(&mut self, alloc: Global, sets: &Sets, known: SetId) -> Result<(), Memory>
        requires known { known < length sets.now }
        requires definitions { self.old.definitions < length sets.now }
        ensures assumptions { self.new.assumptions ≡ self.old.assumptions }
        ensures definitions { self.new.definitions ≡ self.old.definitions }
        ensures ok { OnOk result (HasNoted sets.now known self.old.definitions self.old.places.keys
            self.new.places.keys) }
    {
        let mut added = Vec::new(alloc);
        sets.push_added(known, self.definitions, &mut added)?;
        put_all(&mut self.places, &added)
    }
}

/// Puts each of these numbers into a set, where it isn't there.
fn put_all(set: &mut IndexSet<usize>, numbers: &[usize]) -> Result<(), Memory>
    ensures { OnOk result (ArePut set.old.keys numbers.now set.new.keys) }
{
    for number in numbers {
        set.insert(*number)?;
    }
    Ok(())
}
