//! The steps that others have as parts.
ghost use Rattle.std.specs.Prelude.{◌≡◌, ◌<◌, length, IfOk, OnOk};
ghost use Rattle.std.specs.List.{All};
ghost use Rattle.ot_logic.specs.Lists.{IsMember};
ghost use Rattle.ot_trace.specs.Trace.{IsBelow};
ghost use Rattle.ot_trace.specs.Walk.{IsPartNumber};
ghost use Rattle.ot_leads.specs.Columns.{HasParts};
ghost use Rattle.ot_leads.specs.Meeting.{Meets};

use ot_logic::Memory;
use ot_trace::{Step, StepId, Trace};
use std::alloc::Global;

/// These steps and all their parts, each at its number.
pub(crate) fn with_parts(
    alloc: Global,
    trace: &Trace,
    roots: &[StepId],
    definitions: &[StepId],
) -> Result<Vec<Option<StepId>>, Memory>
    requires roots { All (λ i. i < length trace.now) roots.now }
    requires definitions { All (λ i. i < length trace.now) definitions.now }
    ensures { IfOk result (λ met. HasParts trace.now roots.now definitions.now met.items) }
{
    let mut walk = Walk {
        met: vec![in alloc; None; trace.count()]?,
        pending: Vec::new(alloc),
    };
    walk.meet_all(roots)?;
    walk.meet_all(definitions)?;
    while let Some(id) = walk.pending.pop() {
        walk.meet_parts(trace.step(id))?;
    }
    Ok(walk.met)
}

/// The steps that were met, each at its number, and those of them whose parts weren't met yet.
#[derive(Drop)]
struct Walk {
    met: Vec<Option<StepId>>,
    pending: Vec<StepId>,
}

impl Walk {
    /// Meets the parts of a step.
    fn meet_parts(&mut self, step: &Step) -> Result<(), Memory>
        requires { IsBelow (length self.old.met.items) step.now }
        ensures { OnOk result (Meets (IsPartNumber step.now) self.old.met.items self.old.pending.items
            self.new.met.items self.new.pending.items) }
    {
        match step {
            Step::Number(_) | Step::Name(_) => Ok(()),
            Step::Make(_, operands) => self.meet_all(operands.as_slice()),
            Step::Define(_, operands, _) => self.meet_all(operands.as_slice()),
            Step::Outcome(_, definition) => self.meet(*definition),
        }
    }

    /// Meets each of these steps.
    fn meet_all(&mut self, ids: &[StepId]) -> Result<(), Memory>
        requires { All (λ i. i < length self.old.met.items) ids.now }
        ensures { OnOk result (Meets (λ i. IsMember i ids.now) self.old.met.items self.old.pending.items
            self.new.met.items self.new.pending.items) }
    {
        for id in ids {
            self.meet(*id)?;
        }
        Ok(())
    }

    /// Meets a step.
    fn meet(&mut self, id: StepId) -> Result<(), Memory>
        requires { id < length self.old.met.items }
        ensures { OnOk result (Meets (λ i. i ≡ id) self.old.met.items self.old.pending.items self.new.met.items
            self.new.pending.items) }
    {
        if self.met[id.index()].is_none() {
            self.pending.push(id)?;
            self.met[id.index()] = Some(id);
        }
        Ok(())
    }
}
