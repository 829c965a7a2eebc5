//! The run of an input, with the namespaces that it shows.
ghost use Rattle.std.specs.Prelude.{◌≡◌, true, IfOk, IfErr, IfSome};
ghost use Rattle.std.specs.List.{All};
ghost use Rattle.ot_io.specs.Causes.{CountRose};
ghost use Rattle.ot_io.specs.Keeping.{KeepsSource};
ghost use Rattle.ot_io.specs.Readings.{HasReadFiles};
ghost use Rattle.ot_link.specs.Answers.{NamesSymbolIn, Comes, HasCause as HasLinkCause};
ghost use Rattle.ot_machine.specs.Meaning.{run_of, IsRun, IsExportIn};
ghost use Rattle.ot_machine.specs.States.{fresh_run};
ghost use Rattle.ot_program.specs.World.{HasReadWorld, EachTold, is_standard};
ghost use Rattle.ot_program.specs.Tasks.{ShowReadable};
ghost use Rattle.ot_program.specs.Runs.{limits};
ghost use Rattle.ot_program.specs.Command.{LeavesOther, LastInput};
ghost use Rattle.ot_program.specs.Answer.{FileFailed, ClosesFiles};
ghost use Rattle.ot_program.specs.Endings.{noted_of, noted_end_of, theory_noted, HasTaskEnd};
ghost use Rattle.ot_program.specs.Verdicts.{IsLawfulEnds};

use crate::input::run_input;
use crate::task::{Job, View};
use ot_args::is_theory;
use ot_io::{Files, Source};
use ot_link::{LinkFault, link_theory, read_theory, shown, theory_in};
use ot_logic::{Limits, Name};
use ot_machine::{Export, Session};
use std::alloc::Global;

/// The exports of a run, with the namespaces that its input shows.
#[derive(Drop)]
pub struct NotedRun {
    pub names: Vec<Name>,
    pub exports: Vec<Export>,
}

/// Runs an input, up to its first fault, with the namespaces that it shows: those of a theory file's tags, and of an
/// article none. A theory file is read once. The session is fresh.
pub fn run_noted<F: Files, S: Source>(
    alloc: Global,
    session: &mut Session,
    packages: &str,
    path: &str,
    files: &mut F,
    input: &mut S,
) -> Result<NotedRun, LinkFault>
    requires session { IsRun session.old }
    requires fresh { run_of session.old ≡ fresh_run }
    ensures ran { EachTold (is_standard path.now ≡ true) (F.folder files.old)
        (λ told. HasReadWorld told (S.left input.old) (S.left input.new)
        (λ May. IfSome (noted_end_of session.new result) (λ e. HasTaskEnd (ShowReadable packages.now path.now)
        (CountRose (S.faults input.old) (S.faults input.new))
        (FileFailed (F.at files.new) (F.faults files.old) (F.faults files.new))
        (CountRose (F.misses files.old) (F.misses files.new)) e May))) }
    ensures session { IsRun session.new }
    ensures exports { IfOk result (λ r. All (IsExportIn session.new) r.exports.items) }
    ensures lawful { IfOk result (λ r. IsLawfulEnds session.new r.exports.items) }
    ensures symbols { IfErr result (NamesSymbolIn session.new.kernel) }
    ensures files { ClosesFiles F.folder F.faults F.misses F.left files.old files.new }
    ensures source { KeepsSource S.folder S.faults S.misses S.at input.old input.new }
    ensures other { LeavesOther path.now files.old files.new input.old input.new }
    ensures at { IfSome (noted_end_of session.new result)
        (λ _. LastInput path.now (F.folder files.old) (F.at files.new)) }
{
    if is_theory(path) {
        run_shown(alloc, session, packages, path, files)
    } else {
        let job = Job {
            packages,
            path,
            view: View::Counts,
        };
        match run_input(alloc, session, job, files, input) {
            Ok(exports) => {
                let names = Vec::new(alloc);
                Ok(NotedRun { names, exports })
            }
            Err(stop) => Err(stop),
        }
    }
}

/// Reads a theory file, once, gives what it shows, and runs it.
fn run_shown<F: Files>(
    alloc: Global,
    session: &mut Session,
    packages: &str,
    path: &str,
    files: &mut F,
) -> Result<NotedRun, LinkFault>
    requires session { IsRun session.old }
    requires fresh { run_of session.old ≡ fresh_run }
    ensures comes { HasReadFiles (F.folder files.old) (λ folder. Comes session.new.kernel (noted_of session.new) result
        (theory_noted (record { folder = folder; packages = packages.now; limits = limits }) path.now)) }
    ensures session { IsRun session.new }
    ensures exports { IfOk result (λ r. All (IsExportIn session.new) r.exports.items) }
    ensures lawful { IfOk result (λ r. IsLawfulEnds session.new r.exports.items) }
    ensures symbols { IfErr result (NamesSymbolIn session.new.kernel) }
    ensures cause { IfErr result (λ e. HasLinkCause e (F.misses files.old)
        (F.misses files.new) (F.faults files.old) (F.faults files.new) (F.at files.new)) }
    ensures files { ClosesFiles F.folder F.faults F.misses F.left files.old files.new }
{
    let limits = Limits::standard();
    let text = read_theory(alloc, files, path, &limits)?;
    let theory = theory_in(alloc, path, &text)?;
    let names = shown(alloc, &theory.tags)?;
    let exports = link_theory(alloc, session, files, path, &theory, packages, &limits)?;
    Ok(NotedRun { names, exports })
}
