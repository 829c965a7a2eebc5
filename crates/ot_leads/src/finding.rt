//! What the steps of a trace lead to.
ghost use Rattle.std.specs.Prelude.{◌≡◌, ℕ, ◌<◌, Some, length, slice_get, IfOk};
ghost use Rattle.std.specs.List.{All};
ghost use Rattle.ot_leads.specs.Leads.{AreLeads, IsGiven, IsMade, IsSpread};

use crate::column::Column;
use crate::meeting::with_parts;
use crate::rising::first_places;
use ot_logic::Memory;
use ot_trace::{StepId, Trace};
use std::alloc::Global;

/// What a step leads to: places in a list of assumptions and in a list of definitions, in rising order.
#[derive(Drop)]
pub struct Uses {
    pub assumptions: Vec<usize>,
    pub definitions: Vec<usize>,
}

/// For each step the places of the assumptions and of the definitions that are among its parts, or define a symbol
/// among them.
#[derive(Drop)]
pub struct Leads {
    pub(crate) assumptions: Column,
    pub(crate) definitions: Column,
}

/// What the parts of these roots and of the definitions lead to.
pub fn find_leads(
    alloc: Global,
    trace: &Trace,
    roots: &[StepId],
    assumptions: &[StepId],
    definitions: &[StepId],
) -> Result<Leads, Memory>
    requires roots { All (λ i. i < length trace.now) roots.now }
    requires assumptions { All (λ i. i < length trace.now) assumptions.now }
    requires definitions { All (λ i. i < length trace.now) definitions.now }
    ensures { IfOk result (AreLeads trace.now roots.now assumptions.now definitions.now) }
{
    let steps = with_parts(alloc, trace, roots, definitions)?;
    Ok(Leads {
        assumptions: assumption_column(alloc, trace, steps.as_slice(), assumptions)?,
        definitions: definition_column(alloc, trace, steps.as_slice(), definitions)?,
    })
}

/// The places of the assumptions that steps lead to by their parts.
fn assumption_column(
    alloc: Global,
    trace: &Trace,
    steps: &[Option<StepId>],
    assumptions: &[StepId],
) -> Result<Column, Memory>
    requires length_is { length steps.now ≡ length trace.now }
    requires own { (i j : ℕ) → slice_get steps.now i ≡ Some (Some j) → j ≡ i }
    requires assumptions { All (λ i. i < length trace.now) assumptions.now }
    ensures { IfOk result (IsSpread trace.now steps.now (IsGiven assumptions.now)) }
{
    let mut column = Column::new(alloc, trace.count(), assumptions.len())?;
    column.note_places(assumptions)?;
    column.pass_up(trace, steps)?;
    Ok(column)
}

/// The first places of the definitions that steps lead to by their parts, and by a symbol that is defined.
fn definition_column(
    alloc: Global,
    trace: &Trace,
    steps: &[Option<StepId>],
    definitions: &[StepId],
) -> Result<Column, Memory>
    requires length_is { length steps.now ≡ length trace.now }
    requires own { (i j : ℕ) → slice_get steps.now i ≡ Some (Some j) → j ≡ i }
    requires definitions { All (λ i. i < length trace.now) definitions.now }
    ensures { IfOk result (IsSpread trace.now steps.now (IsMade trace.now definitions.now)) }
{
    let mut column = Column::new(alloc, trace.count(), definitions.len())?;
    let firsts = first_places(alloc, trace.count(), definitions)?;
    column.note_definitions(trace, definitions, &firsts)?;
    column.pass_up(trace, steps)?;
    Ok(column)
}
