//! The readable text of a run.
ghost use Rattle.std.specs.Prelude.{◌≡◌, true, List, length, nat_le, IfOk, IfErr, OnOk, ℕ};
ghost use Rattle.ot_logic.specs.Limits.{summary_limit};
ghost use Rattle.std.specs.List.{All};
ghost use Rattle.ot_link.specs.Answers.{NamesSymbolIn};
ghost use Rattle.ot_machine.specs.Meaning.{IsRun, IsExportIn};
ghost use Rattle.ot_program.specs.Tasks.{ShowReadable};
ghost use Rattle.ot_program.specs.ShowReadable.{readable, AreReadBack};
ghost use Rattle.ot_program.specs.Texts.{large_line};
ghost use Rattle.ot_program.specs.Endings.{noted_from, noted_end_of};
ghost use Rattle.ot_program.specs.Verdicts.{IsVerdictOf, IsPrinted};

use crate::noted::NotedRun;
use crate::report::{Verdict, accepted, proved, stopped, theorems_of, too_large};
use ot_link::LinkFault;
use ot_logic::{Limits, Memory};
use ot_machine::Session;
use ot_pretty::{PrintFault, readable_summary};
use std::alloc::Global;

/// The verdict on an input that was run so and is shown in readable form, with the session that the run left.
pub fn readable_verdict(
    alloc: Global,
    path: &str,
    session: &Session,
    ran: Result<NotedRun, LinkFault>,
) -> Result<Verdict, Memory>
    requires session { IsRun session.now }
    requires exports { IfOk ran (λ r. All (IsExportIn session.now) r.exports.items) }
    requires symbols { IfErr ran (NamesSymbolIn session.now.kernel) }
    ensures { (packages : List ℕ)
        → IfOk result (IsVerdictOf (ShowReadable packages path.now) (noted_end_of session.now ran)) }
{
    match ran {
        Ok(noted) => {
            proved(session, &noted.exports);
            summary(alloc, path, session, &noted)
        }
        Err(stop) => stopped(alloc, session.kernel(), stop),
    }
}

/// A run's assumptions and theorems in readable form, or the line for a text that is too large.
fn summary(alloc: Global, path: &str, session: &Session, run: &NotedRun) -> Result<Verdict, Memory>
    requires session { IsRun session.now }
    requires exports { All (IsExportIn session.now) run.now.exports.items }
    ensures ends { IfOk result (IsPrinted summary_limit
        (readable (noted_from run.now.names.items session.now run.now.exports.items)) (large_line path.now)) }
    ensures read_back { OnOk result
        (nat_le (length (readable (noted_from run.now.names.items session.now run.now.exports.items))) summary_limit
        ≡ true
        → AreReadBack (noted_from run.now.names.items session.now run.now.exports.items)) }
{
    let theorems = theorems_of(alloc, &run.exports)?;
    let limit = Limits::standard().summary_bytes;
    let mut text = Vec::new(alloc);
    match readable_summary(
        alloc,
        session.kernel(),
        &run.names,
        &theorems,
        limit,
        &mut text,
    ) {
        Ok(()) => Ok(accepted(text)),
        Err(PrintFault::TooLarge) => too_large(alloc, path),
        Err(PrintFault::Memory(memory)) => Err(memory),
    }
}
