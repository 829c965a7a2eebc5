ghost use Rattle.std.specs.Prelude.{◌≡◌, ℕ, ◌<◌, ◌++◌, ◌∷◌, [], ◌⊎◌, ◌≢◌, Some};
ghost use Rattle.std.specs.Prelude.{slice_get, length, IfOk, OnOk, OnErr, IfSome, IfNone};
ghost use Rattle.indexmap.specs.IndexMap.{index_map_len, index_of};
ghost use Rattle.ot_logic.specs.Table.{IsInjective};

mod making;

use crate::step::Step;
use ot_logic::Memory;
use ot_near::NearMap;
use std::alloc::Global;
use std::marker::Model;

/// The number of a step in its trace.
#[derive(Clone, Copy, Default, PartialEq, Eq, PartialOrd, Ord, Hash)]
pub struct StepId(pub(crate) u32);

impl Model for StepId {
    ghost use Rattle.std.specs.Prelude.{ℕ};

    ghost Value = { ℕ };

    ghost view = { λ n. n.0 };

    ghost inverse = { λ n. record { 0 = n } };
}

impl StepId {
    /// The place in a list that has an element for each step.
    pub fn index(self) -> usize
        ensures { result ≡ self }
    {
        self.0 as usize
    }
}

/// The origins of objects, each once: how an object was made, as a tree of the commands of the
/// OpenTheory article format.
///
/// Two numbers are equal exactly where the origins are, and each number keeps its origin after every
/// call, refused or not. A call that takes a number has the condition that it is one of this trace.
#[derive(Drop)]
pub struct Trace {
    steps: NearMap<Step, ()>,
}

impl Model for Trace {
    ghost use Rattle.std.specs.Prelude.{ℕ, List};
    ghost use Rattle.std.specs.Coded.{coded_list, coded_ℕ};
    ghost use Rattle.ot_trace.specs.Origins.{Origin};
    ghost use Rattle.ot_trace.specs.OriginCodes.{coded_origin};

    ghost Value = { List (Origin ℕ) };

    ghost coded = { coded_list (coded_origin coded_ℕ) };

    ghost use Rattle.ot_trace.specs.Trace.{origins, IsTrace};

    ghost view = { λ t. origins t.steps.entries };

    ghost use Rattle.std.specs.Prelude.{length, ◌≤◌, ◌^◌};

    ghost invariant = { λ t. IsTrace t.steps.entries (origins t.steps.entries)
        × (length t.steps.entries ≤ 2 ^ 32) };
}

impl Trace {
    ghost use Rattle.ot_trace.specs.Trace.{origin_of, IsBelow, HasSymbols, IsStepTable};

    /// The trace with no steps.
    pub fn new(alloc: Global) -> Trace
        ensures { result ≡ [] }
    {
        Trace {
            steps: NearMap::new(alloc),
        }
    }

    /// The number of a step, which is added where it is new.
    ///
    /// The numbers in the step are of this trace, and the symbols of a definition are those that its
    /// operands name. After running out of memory the trace is as before.
    pub fn add(&mut self, step: Step) -> Result<StepId, Memory>
        requires inside { IsBelow (length self.old) step }
        requires symbols { HasSymbols self.old step }
        ensures ok { IfOk result (λ id. slice_get self.new id ≡ Some (origin_of self.old step)) }
        ensures grown { OnOk result ((self.new ≡ self.old) ⊎ (self.new ≡ self.old ++ origin_of self.old step ∷ [])) }
        ensures err { OnErr result (self.new ≡ self.old) }
        ensures once { IsInjective self.new }
    {
        Memory::unless_full(self.steps.len())?;
        let (index, _) = self.steps.insert_full(step, ())?;
        Ok(StepId(index as u32))
    }

    /// The step of a number. The numbers in it are lower.
    pub fn step(&self, id: StepId) -> &Step
        requires { id < length self.now }
        ensures origin { slice_get self.now id ≡ Some (origin_of self.now result.now) }
        ensures below { IsBelow id result.now }
        ensures symbols { HasSymbols self.now result.now }
        ensures once { IsInjective self.now }
    {
        self.step_at(id.index())
    }

    /// The step at a place.
    pub(crate) fn step_at(&self, place: usize) -> &Step
        requires { place < length self.now }
        ensures origin { slice_get self.now place ≡ Some (origin_of self.now result.now) }
        ensures below { IsBelow place result.now }
        ensures symbols { HasSymbols self.now result.now }
        ensures once { IsInjective self.now }
    {
        match self.steps.get_index(place) {
            Some((step, _)) => step,
            None => unreachable!(),
        }
    }

    /// The number of a step, or `None` exactly where the trace hasn't its origin.
    ///
    /// The step is one that `add` takes. One that owns a list is looked for step by step.
    pub fn find(&self, step: &Step) -> Option<StepId>
        requires inside { IsBelow (length self.now) step.now }
        requires symbols { HasSymbols self.now step.now }
        ensures some { IfSome result (λ id. slice_get self.now id ≡ Some (origin_of self.now step.now)) }
        ensures none { IfNone result ((i : ℕ) → slice_get self.now i ≢ Some (origin_of self.now step.now)) }
    {
        match place_of(&self.steps, step) {
            Some(index) => Some(StepId(index as u32)),
            None => None,
        }
    }

    /// How many steps there are.
    pub fn count(&self) -> usize
        ensures count { result ≡ length self.now }
        ensures table { IsStepTable self.now }
    {
        self.steps.len()
    }
}

/// The place of a step in the table.
fn place_of(steps: &NearMap<Step, ()>, step: &Step) -> Option<usize>
    ensures index { result ≡ index_of ⟦<Step as PartialEq>⟧.eq steps.now step.now }
    ensures within { IfSome result (λ i. i < index_map_len steps.now) }
{
    match step.copied() {
        Some(copy) => steps.find(copy),
        None => steps.walk_to(step),
    }
}
