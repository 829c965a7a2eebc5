//! Articles as they are run in a context.
ghost use Rattle.std.specs.Prelude.{◌≡◌, ◌≢◌, ◌≤◌, ◌^◌, ℕ, Err, IfOk, IfErr, IsOk, string_bytes};
ghost use Rattle.ot_io.specs.Causes.{CountRose};
ghost use Rattle.ot_io.specs.Keeping.{KeepsSource, KeepsFiles};
ghost use Rattle.ot_io.specs.Reading.{HasRead};
ghost use Rattle.ot_io.specs.Readings.{HasReadFiles};
ghost use Rattle.ot_scan.specs.Lines.{lines_of};
ghost use Rattle.ot_machine.specs.States.{fresh_article, fresh_run, no_context};
ghost use Rattle.ot_machine.specs.Meaning.{run_of, IsRun};
ghost use Rattle.ot_machine.specs.Contexts.{context_of};
ghost use Rattle.ot_machine.specs.Run.{run};
ghost use Rattle.ot_machine.specs.Answers.{NamesSymbolIn as NamesSymbolInArticle};
ghost use Rattle.ot_link.specs.Blocks.{article_end, run_article};
ghost use Rattle.ot_link.specs.Stops.{answered_by};
ghost use Rattle.ot_link.specs.Answers.{AreWithin, setting_of, Comes, ran_of, EndsAs, AreExportsIn};
ghost use Rattle.ot_link.specs.Answers.{NamesSymbolIn, HasCause, IsOfArticle, HasFailed};
ghost use Rattle.ot_link.specs.Lawful.{IsLawfulSession, AreLawfulOnce, IsReady, LeavesExports};
ghost use Rattle.ot_logic.specs.RanOut.{ran_out};

use crate::fault::LinkFault;
use crate::setting::Setting;
use ot_interp::Interp;
use ot_io::{Files, OpenFault, Source};
use ot_kernel::Candidates;
use ot_logic::{Limits, Memory};
use ot_machine::{ArticleFault, Context, Export, Fault, Machine, Session, fresh_law, lines_law};
use std::alloc::Global;

/// Opens the article of a path, runs it, and gives its exports.
pub(crate) fn open_article<F: Files>(
    setting: Setting<'_>,
    session: &mut Session,
    files: &mut F,
    context: &Context<'_>,
    path: String,
) -> Result<Vec<Export>, LinkFault>
    requires ready { IsReady session.old context.now }
    requires limit { setting.limits.now.article_bytes ≤ 2 ^ 32 }
    ensures comes { HasReadFiles (F.folder files.old) (λ folder. Comes session.new.kernel (ran_of session.new) result
        (run_article (setting_of folder setting.entry) (string_bytes path) (context_of session.old context.now)
        (run_of session.old))) }
    ensures left { LeavesExports NamesSymbolIn result session.old session.new }
    ensures cause { IfErr result (λ e. HasCause e (F.misses files.old) (F.misses files.new) (F.faults files.old)
        (F.faults files.new) (F.at files.new)) }
    ensures kept { KeepsFiles F.folder F.faults F.misses files.old files.new }
{
    match files.open_file(&path) {
        Ok(()) => run_named(setting, session, files, context, path),
        Err(OpenFault::Missing) => Err(LinkFault::NoFile { path }),
        Err(OpenFault::Failed) => Err(LinkFault::ReadFault { path }),
    }
}

/// Runs the article of a path that a source has left by itself, and gives its exports: its symbols have the names
/// that it gives them, and no theorem comes from elsewhere. The session is fresh, and the limits are at most those of
/// the program.
///
/// Some bytes of the source were read, to its end where the answer is Ok; the answer is that of the run over these bytes
/// and any that may follow them. A source that is known had just these bytes in front.
///
/// - `Article`: the first fault of the article, with this path and its line.
/// - `ReadFault`: only where the source failed in this call.
/// - `Memory`: may come at any point. No other fault is answered.
///
/// Each assumption, definition and export is what its origin makes, and each name in an origin is one that a line can
/// say.
pub fn run_alone<S: Source>(
    alloc: Global,
    session: &mut Session,
    source: &mut S,
    path: String,
    limits: &Limits,
) -> Result<Vec<Export>, LinkFault>
    requires session { IsRun session.old }
    requires fresh { run_of session.old ≡ fresh_run }
    requires limits { AreWithin limits.now }
    ensures reads { HasRead (S.left source.old) (S.left source.new) (IsOk result)
        (λ bytes rest. Comes session.new.kernel (ran_of session.new) result
        (answered_by (string_bytes path)
        (article_end (string_bytes path)
        (run no_context (lines_of limits.now.article_bytes bytes)
        (record { article = fresh_article; run = fresh_run }))))) }
    ensures own { IfErr result (IsOfArticle (string_bytes path)) }
    ensures session { IsRun session.new }
    ensures lawful { IsLawfulSession session.new }
    ensures lawful_exports { IfOk result (λ exports. AreLawfulOnce session.new exports.items) }
    ensures exports { IfOk result (AreExportsIn session.new) }
    ensures symbols { IfErr result (NamesSymbolIn session.new.kernel) }
    ensures cause { IfErr result (λ e. HasFailed e (S.faults source.old) (S.faults source.new)) }
    ensures kept { KeepsSource S.folder S.faults S.misses S.at source.old source.new }
{
    fresh_law();
    let interp = Interp::new(alloc);
    let candidates = Candidates::none(alloc);
    let context = Context {
        interp: &interp,
        theorems: &[],
        candidates: &candidates,
    };
    let setting = Setting {
        alloc,
        packages: "",
        limits,
    };
    run_named(setting, session, source, &context, path)
}

/// Runs the article of a path that a source has left, and gives its exports.
fn run_named<S: Source>(
    setting: Setting<'_>,
    session: &mut Session,
    source: &mut S,
    context: &Context<'_>,
    path: String,
) -> Result<Vec<Export>, LinkFault>
    requires ready { IsReady session.old context.now }
    requires limit { setting.limits.now.article_bytes ≤ 2 ^ 32 }
    ensures ends { HasRead (S.left source.old) (S.left source.new) (IsOk result)
        (λ bytes rest. Comes session.new.kernel (ran_of session.new) result
        (answered_by (string_bytes path)
        (article_end (string_bytes path)
        (run (context_of session.old context.now) (lines_of setting.entry.limits.now.article_bytes bytes)
        (record { article = fresh_article; run = run_of session.old }))))) }
    ensures own { IfErr result (IsOfArticle (string_bytes path)) }
    ensures left { LeavesExports NamesSymbolIn result session.old session.new }
    ensures cause { IfErr result (λ e. HasFailed e (S.faults source.old) (S.faults source.new)) }
    ensures kept { KeepsSource S.folder S.faults S.misses S.at source.old source.new }
{
    match article_exports(setting, session, source, context) {
        Ok(exports) => Ok(exports),
        Err(ArticleFault::At { line, fault }) => Err(LinkFault::Article { path, line, fault }),
        Err(ArticleFault::ReadFault) => Err(LinkFault::ReadFault { path }),
        Err(ArticleFault::Memory(memory)) => Err(LinkFault::Memory(memory)),
    }
}

/// Runs the article that a source has left, and gives its exports.
fn article_exports<S: Source>(
    setting: Setting<'_>,
    session: &mut Session,
    source: &mut S,
    context: &Context<'_>,
) -> Result<Vec<Export>, ArticleFault>
    requires ready { IsReady session.old context.now }
    requires limit { setting.limits.now.article_bytes ≤ 2 ^ 32 }
    ensures ends { HasRead (S.left source.old) (S.left source.new) (IsOk result)
        (λ bytes rest. EndsAs session.new result
        (run (context_of session.old context.now) (lines_of setting.entry.limits.now.article_bytes bytes)
        (record { article = fresh_article; run = run_of session.old }))) }
    ensures left { LeavesExports NamesSymbolInArticle result session.old session.new }
    ensures apart { (line : ℕ) → result ≢ Err (ArticleFault.At line (Fault.Memory ran_out)) }
    ensures cause { result ≡ Err ArticleFault.ReadFault → CountRose (S.faults source.old) (S.faults source.new) }
    ensures kept { KeepsSource S.folder S.faults S.misses S.at source.old source.new }
{
    fresh_law();
    lines_law();
    let mut machine = Machine::new(setting.alloc);
    match machine.run_article(session, context, source, setting.limits.article_bytes) {
        Ok(()) => Ok(machine.into_exports()),
        Err(fault) => Err(fault),
    }
}
