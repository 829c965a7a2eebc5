ghost use Rattle.std.specs.Prelude.{◌≡◌, ◌∷◌, ◌<◌, [], ℕ, List, length, IfOk};
ghost use Rattle.std.specs.List.{All};
ghost use Rattle.ot_machine.specs.Meaning.{origin_of, run_of, IsExportIn, IsRun};
ghost use Rattle.ot_uses.specs.Ready.{theorem_steps, IsReady};
ghost use Rattle.ot_uses.specs.Used.{assumption_places, definition_places};

use ot_leads::{Leads, Uses, find_leads};
use ot_logic::Memory;
use ot_machine::{Export, Session};
use ot_trace::StepId;
use std::alloc::Global;

/// What the steps of the session's trace lead to that the theorems of these exports have as parts.
///
/// The trace is walked once. `Memory` is the only error.
pub fn leads_of(alloc: Global, session: &Session, exports: &[Export]) -> Result<Leads, Memory>
    requires run { IsRun session.now }
    requires exports { All (IsExportIn session.now) exports.now }
    ensures { IfOk result (IsReady session.now (theorem_steps exports.now)) }
{
    let mut roots = Vec::new(alloc);
    for export in exports {
        roots.push(export.theorem)?;
    }
    find_leads(
        alloc,
        session.trace(),
        &roots,
        session.assumption_steps(),
        session.definition_steps(),
    )
}

/// What the theorem rests on whose step is the root: the definitions whose theorems or symbols are among its parts or
/// among the operands of such a definition, and the assumptions whose `axiom` commands are. Of several definitions
/// with one origin the first alone is named.
///
/// The root is a step of the session's trace, and is ready. `Memory` is the only error.
pub fn uses(
    alloc: Global,
    session: &Session,
    leads: &mut Leads,
    root: StepId,
) -> Result<Uses, Memory>
    requires run { IsRun session.now }
    requires root { root < length session.now.trace }
    requires ready { IsReady session.now (root ∷ []) leads.old }
    ensures assumptions { IfOk result (λ used. used.assumptions.items
        ≡ assumption_places (run_of session.now) (origin_of session.now root)) }
    ensures definitions { IfOk result (λ used. used.definitions.items
        ≡ definition_places (run_of session.now) (origin_of session.now root)) }
    ensures ready { (roots : List ℕ) → IsReady session.now roots leads.old → IsReady session.now roots leads.new }
{
    // Each name has one number, and each origin one step.
    session.kernel().sound();
    let trace = session.trace();
    let _count = trace.count();
    let used = leads.uses(alloc, trace, session.definition_steps(), root)?;
    Ok(used)
}
