ghost use Rattle.std.specs.Prelude.{◌≡◌, [], Some, IsOk, IfOk, IfErr, IfSome, true};
ghost use Rattle.ot_io.specs.Causes.{CountRose};
ghost use Rattle.ot_io.specs.Folder.{path_asked};
ghost use Rattle.ot_io.specs.Keeping.{KeepsSource};
ghost use Rattle.ot_io.specs.Reading.{HasRead};
ghost use Rattle.ot_io.specs.Readings.{HasReadFiles};
ghost use Rattle.ot_link.specs.Blocks.{article_end};
ghost use Rattle.ot_link.specs.Answers.{AreExportsIn, NamesSymbolIn};
ghost use Rattle.ot_machine.specs.States.{fresh_run};
ghost use Rattle.ot_machine.specs.Meaning.{run_of, IsRun};
ghost use Rattle.ot_program.specs.World.{HasReadWorld, HasReadFolder, EachTold, is_standard};
ghost use Rattle.ot_program.specs.Runs.{outcome, article_run};
ghost use Rattle.ot_program.specs.Command.{LeavesOther, IsAnswer};
ghost use Rattle.ot_program.specs.Answer.{FileFailed, ClosesFiles};
ghost use Rattle.ot_program.specs.Endings.{end_of, HasTaskEnd, HasOwnCause, HasTheoryEnd};
ghost use Rattle.ot_program.specs.Tasks.{job_task, command};
ghost use Rattle.ot_program.specs.Verdicts.{IsLawfulEnds};

use crate::task::Job;
use ot_args::is_theory;
use ot_io::{Files, OpenFault, Source};
use ot_link::{LinkFault, link, run_alone};
use ot_logic::{Limits, Memory};
use ot_machine::{Export, Session};
use std::alloc::Global;

/// The name of standard input.
pub const STANDARD: &str = "-";

/// A fresh session, in a box: what owns a box has one part to let go of, and a session has many.
pub fn fresh_session(alloc: Global) -> Result<Box<Session>, Memory>
    ensures run { IfOk result (λ s. run_of s.value ≡ fresh_run) }
    ensures is_run { IfOk result (λ s. IsRun s.value) }
{
    Ok(Box::new(alloc, Session::new(alloc)?)?)
}

/// Runs the input of a job, up to its first fault, and gives its exports: `-` is an article on `input`, a name that
/// ends in `.thy` a theory file over packages in a folder, and any other name an article file. The session is fresh.
pub fn run_input<F: Files, S: Source>(
    alloc: Global,
    session: &mut Session,
    job: Job<'_>,
    files: &mut F,
    input: &mut S,
) -> Result<Vec<Export>, LinkFault>
    requires session { IsRun session.old }
    requires fresh { run_of session.old ≡ fresh_run }
    ensures ran { EachTold (is_standard job.entry.path.now ≡ true) (F.folder files.old)
        (λ told. HasReadWorld told (S.left input.old) (S.left input.new)
        (λ May. IfSome (end_of session.new result) (λ e. HasTaskEnd (job_task job.entry)
        (CountRose (S.faults input.old) (S.faults input.new))
        (FileFailed (F.at files.new) (F.faults files.old) (F.faults files.new))
        (CountRose (F.misses files.old) (F.misses files.new)) e May))) }
    ensures session { IsRun session.new }
    ensures exports { IfOk result (AreExportsIn session.new) }
    ensures lawful { IfOk result (λ exports. IsLawfulEnds session.new exports.items) }
    ensures symbols { IfErr result (NamesSymbolIn session.new.kernel) }
    ensures files { ClosesFiles F.folder F.faults F.misses F.left files.old files.new }
    ensures source { KeepsSource S.folder S.faults S.misses S.at input.old input.new }
    ensures other { LeavesOther job.entry.path.now files.old files.new input.old input.new }
    ensures at { IfSome (end_of session.new result)
        (λ _. (command (job_task job.entry)).Last (F.folder files.old) (F.at files.new)) }
{
    let path = job.path;
    if path == STANDARD {
        run_article_from(alloc, session, path, input)
    } else if is_theory(path) {
        run_theory_file(alloc, session, job.packages, path, files)
    } else {
        run_article_file(alloc, session, path, files)
    }
}

/// Runs a theory file over packages in a folder, with the limits of the program.
pub fn run_theory_file<F: Files>(
    alloc: Global,
    session: &mut Session,
    packages: &str,
    path: &str,
    files: &mut F,
) -> Result<Vec<Export>, LinkFault>
    requires session { IsRun session.old }
    requires fresh { run_of session.old ≡ fresh_run }
    ensures ran { HasReadFolder (F.folder files.old) (λ May. IfSome (end_of session.new result)
        (λ e. HasTheoryEnd packages.now path.now
        (FileFailed (F.at files.new) (F.faults files.old) (F.faults files.new))
        (CountRose (F.misses files.old) (F.misses files.new)) e May)) }
    ensures session { IsRun session.new }
    ensures exports { IfOk result (AreExportsIn session.new) }
    ensures lawful { IfOk result (λ exports. IsLawfulEnds session.new exports.items) }
    ensures symbols { IfErr result (NamesSymbolIn session.new.kernel) }
    ensures files { ClosesFiles F.folder F.faults F.misses F.left files.old files.new }
    ensures closed { F.left files.new ≡ Some [] }
{
    let limits = Limits::standard();
    link(alloc, session, files, path, packages, &limits)
}

/// Opens the file of a path, runs its article and closes it.
fn run_article_file<F: Files>(
    alloc: Global,
    session: &mut Session,
    path: &str,
    files: &mut F,
) -> Result<Vec<Export>, LinkFault>
    requires session { IsRun session.old }
    requires fresh { run_of session.old ≡ fresh_run }
    ensures ran { HasReadFiles (F.folder files.old) (λ folder.
        IfSome (end_of session.new result) (IsAnswer (article_run path.now folder).answer)) }
    ensures session { IsRun session.new }
    ensures exports { IfOk result (AreExportsIn session.new) }
    ensures lawful { IfOk result (λ exports. IsLawfulEnds session.new exports.items) }
    ensures symbols { IfErr result (NamesSymbolIn session.new.kernel) }
    ensures cause { IfSome (end_of session.new result)
        (HasOwnCause path.now (CountRose (F.faults files.old) (F.faults files.new))
        (CountRose (F.misses files.old) (F.misses files.new))) }
    ensures files { ClosesFiles F.folder F.faults F.misses F.left files.old files.new }
    ensures at { IfSome (end_of session.new result) (λ _. F.at files.new ≡ path_asked (F.folder files.old) path.now) }
{
    match files.open_file(path) {
        Ok(()) => {
            let ran = run_article_from(alloc, session, path, files);
            files.close();
            ran
        }
        Err(OpenFault::Missing) => {
            let path = String::from_str(alloc, path)?;
            Err(LinkFault::NoFile { path })
        }
        Err(OpenFault::Failed) => {
            let path = String::from_str(alloc, path)?;
            Err(LinkFault::ReadFault { path })
        }
    }
}

/// Runs the article that a source has left, under the name of this path, in the empty context: its symbols have the
/// names that it gives them, and no theorem comes from elsewhere.
pub fn run_article_from<S: Source>(
    alloc: Global,
    session: &mut Session,
    path: &str,
    source: &mut S,
) -> Result<Vec<Export>, LinkFault>
    requires session { IsRun session.old }
    requires fresh { run_of session.old ≡ fresh_run }
    ensures ran { HasRead (S.left source.old) (S.left source.new) (IsOk result) (λ bytes rest.
        IfSome (end_of session.new result) (IsAnswer (article_end path.now (outcome bytes)))) }
    ensures session { IsRun session.new }
    ensures exports { IfOk result (AreExportsIn session.new) }
    ensures lawful { IfOk result (λ exports. IsLawfulEnds session.new exports.items) }
    ensures symbols { IfErr result (NamesSymbolIn session.new.kernel) }
    ensures cause { IfSome (end_of session.new result)
        (HasOwnCause path.now (CountRose (S.faults source.old) (S.faults source.new)) ⊥) }
    ensures source { KeepsSource S.folder S.faults S.misses S.at source.old source.new }
{
    let limits = Limits::standard();
    let path = String::from_str(alloc, path)?;
    run_alone(alloc, session, source, path, &limits)
}
