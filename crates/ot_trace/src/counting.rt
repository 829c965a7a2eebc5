ghost use Rattle.std.specs.Prelude.{◌≡◌, ℕ, ◌<◌, cond, List, [], ◌∷◌, ◌++◌, length, IfOk};
ghost use Rattle.std.specs.List.{All};
ghost use Rattle.ot_trace.specs.Tally.{IsTallied};
ghost use Rattle.ot_trace.specs.Trace.{operand_numbers};
ghost use Rattle.ot_trace.specs.Uses.{AreCounts};

use crate::step::Step;
use crate::trace::{StepId, Trace};
use ot_logic::Memory;
use std::alloc::Global;

/// How often each step is used: as one of the roots, or as an operand of a marked step.
///
/// The answer has one number for each step of the trace: 0 where it has no use, 1 where it has one,
/// and 2 where it has more. `Memory` is the only error.
pub fn uses(
    alloc: Global,
    trace: &Trace,
    roots: &[StepId],
    marks: &[bool],
) -> Result<Vec<u8>, Memory>
    requires roots { All (λ i. i < length trace.now) roots.now }
    requires marks { length marks.now ≡ length trace.now }
    ensures { IfOk result (λ counts. AreCounts trace.now roots.now marks.now counts.items) }
{
    let mut counts = vec![in alloc; 0; trace.count()]?;
    tally_all(&mut counts, roots);
    for index in 0..marks.len() {
        tally_where(&mut counts, marks[index], trace.step_at(index));
    }
    Ok(counts)
}

/// Counts the operands of a step, where it is marked.
fn tally_where(counts: &mut Vec<u8>, is_marked: bool, step: &Step)
    requires { All (λ i. i < length counts.old.items) (operand_numbers step.now) }
    ensures length { length counts.new.items ≡ length counts.old.items }
    ensures tally { (is : List ℕ) → IsTallied is counts.old.items
        → IsTallied (is ++ cond is_marked (operand_numbers step.now) []) counts.new.items }
{
    if is_marked {
        tally_all(counts, step.operands());
    }
}

/// Counts each of the steps.
fn tally_all(counts: &mut Vec<u8>, ids: &[StepId])
    requires { All (λ i. i < length counts.old.items) ids.now }
    ensures length { length counts.new.items ≡ length counts.old.items }
    ensures tally { (is : List ℕ) → IsTallied is counts.old.items → IsTallied (is ++ ids.now) counts.new.items }
{
    for id in ids {
        tally(counts, *id);
    }
}

/// Counts one use.
fn tally(counts: &mut Vec<u8>, id: StepId)
    requires { id < length counts.old.items }
    ensures length { length counts.new.items ≡ length counts.old.items }
    ensures tally { (is : List ℕ) → IsTallied is counts.old.items → IsTallied (is ++ id ∷ []) counts.new.items }
{
    if counts[id.0 as usize] < 2 {
        counts[id.0 as usize] += 1;
    }
}
