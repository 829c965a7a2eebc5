ghost use Rattle.std.specs.Prelude.{◌≡◌, ◌++◌, true, false, [], map};
ghost use Rattle.std.specs.Prelude.{IfOk, IfErr, IfSome, IfNone, IsSomeAnd, OnOk};
ghost use Rattle.std.specs.List.{All};
ghost use Rattle.ot_logic.specs.Limits.{summary_limit, written_limit};
ghost use Rattle.ot_link.specs.Answers.{AreExportsIn, NamesSymbolIn};
ghost use Rattle.ot_machine.specs.Meaning.{IsRun, IsExportIn};
ghost use Rattle.ot_print.specs.Laws.{TextsNameOne};
ghost use Rattle.ot_logic.specs.Naming.{names};
ghost use Rattle.ot_logic.specs.Hol.{Accepted as AcceptedLists};
ghost use Rattle.ot_sample.specs.Sample.{sample};
ghost use Rattle.ot_program.specs.Tasks.{RunSample, job_task};
ghost use Rattle.ot_program.specs.Command.{run_lists, IsProved};
ghost use Rattle.ot_program.specs.RunInput.{line_of_counts, summary, uses, article_text, article_fits, log_text};
ghost use Rattle.ot_program.specs.RunInput.{log_fits, run_fits, IsRewritten, IsLogged, IsPromisedIn, AreSupported};
ghost use Rattle.ot_program.specs.Samples.{sample_front, sample_back, line_count};
ghost use Rattle.ot_program.specs.Texts.{large_line, large_article_line, large_log_line, missing_line, read_fault_line};
ghost use Rattle.ot_program.specs.Endings.{ran_from, AreCounts, end_at, end_of};
ghost use Rattle.ot_program.specs.Verdicts.{IsVerdictOf, IsStopVerdict, IsSaid, IsPrinted, EndsAs, IsLawfulEnds};

use crate::sample::SAMPLE;
use crate::status::Status;
use crate::task::{Job, View};
use crate::texts::{fault_line, line_at, line_of, structure_fault_text, theory_fault_text};
use ot_args::Sections;
use ot_kernel::{Kernel, ThmId};
use ot_laws::growth_law;
use ot_link::LinkFault;
use ot_log::{LogRefusal, write_log};
use ot_logic::{Limits, Memory};
use ot_machine::{Export, Session};
use ot_minimise::minimise;
use ot_print::{PrintFault, one_text, summary_text};
use ot_uses::{uses_law, uses_text};
use ot_write::WriteRefusal;
use std::alloc::{AllocError, Global};

/// How a command ends, with the text that says it: for the output where it is accepted, else for the error sink.
#[derive(Drop)]
pub struct Verdict {
    pub status: Status,
    pub text: Vec<u8>,
}

/// The verdict on a job whose input was run so, with the session that the run left.
pub fn verdict_on(
    alloc: Global,
    job: Job<'_>,
    session: &Session,
    ran: Result<Vec<Export>, LinkFault>,
) -> Result<Verdict, Memory>
    requires session { IsRun session.now }
    requires exports { IfOk ran (AreExportsIn session.now) }
    requires lawful { IfOk ran (λ exports. IsLawfulEnds session.now exports.items) }
    requires symbols { IfErr ran (NamesSymbolIn session.now.kernel) }
    ensures { IfOk result (IsVerdictOf (job_task job.entry) (end_of session.now ran)) }
{
    match ran {
        Ok(exports) => {
            proved(session, &exports);
            ended(alloc, job, session, &exports)
        }
        Err(stop) => stopped(alloc, session.kernel(), stop),
    }
}

/// A law: each theorem of these exports is derivable from the session's assumptions under its definitions, and these
/// are accepted; and a text names one thing.
pub fn proved(session: &Session, exports: &[Export])
    requires session { IsRun session.now }
    requires exports { All (IsExportIn session.now) exports.now }
    ensures proved { IsProved (run_lists (ran_from session.now exports.now)) }
    ensures one_text { TextsNameOne }
{
    session.kernel().sound();
    one_text();
}

/// The verdict on a run that stopped. Running out of memory has a line of its own.
pub fn stopped(alloc: Global, kernel: &Kernel, stop: LinkFault) -> Result<Verdict, Memory>
    requires { NamesSymbolIn kernel.now stop }
    ensures { IfOk result (λ v. IsSomeAnd (end_at kernel.now stop) (IsStopVerdict v)) }
{
    match stop {
        LinkFault::Article { path, line, fault } => {
            Ok(refused(fault_line(alloc, kernel, &path, line, fault)?))
        }
        LinkFault::Theory { path, line, fault } => {
            Ok(refused(line_at(alloc, &path, line, theory_fault_text(fault))?))
        }
        LinkFault::Structure { path, line, fault } => {
            Ok(refused(line_at(alloc, &path, line, structure_fault_text(fault))?))
        }
        LinkFault::TheoryTooLarge { path } => {
            Ok(refused(line_of(alloc, &path, "theory longer than 1048576 bytes")?))
        }
        LinkFault::NoFile { path } => missing(alloc, &path),
        LinkFault::ReadFault { path } => failed(alloc, &path),
        LinkFault::Memory(memory) => Err(memory),
    }
}

/// That the input is accepted, with this text for the output.
pub fn accepted(text: Vec<u8>) -> Verdict
    ensures { IsSaid result Status.Accepted text.items }
{
    Verdict {
        status: Status::Accepted,
        text,
    }
}

/// That the rules refuse the input, with this line.
pub fn refused(line: Vec<u8>) -> Verdict
    ensures { IsSaid result Status.Refused line.items }
{
    Verdict {
        status: Status::Refused,
        text: line,
    }
}

/// That the file of a path isn't there.
pub fn missing(alloc: Global, path: &str) -> Result<Verdict, Memory>
    ensures { IfOk result (λ v. IsSaid v Status.NoFile (missing_line path.now)) }
{
    Ok(Verdict {
        status: Status::NoFile,
        text: line_of(alloc, path, "no such file")?,
    })
}

/// That the input of a path failed.
pub fn failed(alloc: Global, path: &str) -> Result<Verdict, Memory>
    ensures { IfOk result (λ v. IsSaid v Status.ReadFault (read_fault_line path.now)) }
{
    Ok(Verdict {
        status: Status::ReadFault,
        text: line_of(alloc, path, "read fault")?,
    })
}

/// That the summary of the input of a path, or what its theorems rest on, is too large.
pub fn too_large(alloc: Global, path: &str) -> Result<Verdict, Memory>
    ensures { IfOk result (λ v. IsSaid v Status.Refused (large_line path.now)) }
{
    let line = line_of(alloc, path, "summary larger than 67108864 bytes")?;
    Ok(refused(line))
}

/// The verdict on a job whose input was run to its end, with these exports.
fn ended(
    alloc: Global,
    job: Job<'_>,
    session: &Session,
    exports: &[Export],
) -> Result<Verdict, Memory>
    requires session { IsRun session.now }
    requires exports { All (IsExportIn session.now) exports.now }
    requires lawful { IsLawfulEnds session.now exports.now }
    ensures ends { IfOk result (EndsAs (job_task job.entry) (ran_from session.now exports.now)) }
    ensures promised { OnOk result (let r = ran_from session.now exports.now in
        run_fits job.entry.view r ≡ true → IsPromisedIn job.entry.view r) }
{
    match job.view {
        View::Counts => Ok(accepted(count_line(alloc, counts_of(session, exports))?)),
        View::Summary(sections) => summary(alloc, job.path, sections, session, exports),
        View::Uses => uses(alloc, job.path, session, exports),
        View::Article => written(alloc, job.path, session, exports),
        View::Log => logged(alloc, job.path, session, exports),
    }
}

/// How many theorems, assumptions and definitions a run ended with.
#[derive(Clone, Copy)]
pub struct Counts {
    pub theorems: usize,
    pub assumptions: usize,
    pub definitions: usize,
}

/// The counts of a run with these exports.
fn counts_of(session: &Session, exports: &[Export]) -> Counts
    requires { IsRun session.now }
    ensures { AreCounts (ran_from session.now exports.now) result }
{
    let kernel = session.kernel();
    Counts {
        theorems: exports.len(),
        assumptions: kernel.assumptions().len(),
        definitions: kernel.definitions().len(),
    }
}

/// The line for these counts.
fn count_line(alloc: Global, counts: Counts) -> Result<Vec<u8>, Memory>
    ensures { IfOk result
        (λ line. line.items ≡ line_of_counts counts.theorems counts.assumptions counts.definitions) }
{
    let Counts {
        theorems,
        assumptions,
        definitions,
    } = counts;
    let line = format!(in alloc;
        "accepted: {theorems} theorems, {assumptions} assumptions, {definitions} definitions\n"
    )?;
    Ok(line.into_bytes())
}

/// The sections of a run's summary, or the line for a summary that is too large.
fn summary(
    alloc: Global,
    path: &str,
    sections: Sections,
    session: &Session,
    exports: &[Export],
) -> Result<Verdict, Memory>
    requires session { IsRun session.now }
    requires exports { All (IsExportIn session.now) exports.now }
    ensures { IfOk result
        (IsPrinted summary_limit (summary sections (ran_from session.now exports.now)) (large_line path.now)) }
{
    let theorems = theorems_of(alloc, exports)?;
    let limit = Limits::standard().summary_bytes;
    let mut text = Vec::new(alloc);
    match summary_text(
        alloc,
        session.kernel(),
        &theorems,
        sections,
        limit,
        &mut text,
    ) {
        Ok(()) => Ok(accepted(text)),
        Err(PrintFault::TooLarge) => too_large(alloc, path),
        Err(PrintFault::Memory(memory)) => Err(memory),
    }
}

/// What each theorem of a run rests on, or the line for a text that is too large.
fn uses(alloc: Global, path: &str, session: &Session, exports: &[Export]) -> Result<Verdict, Memory>
    requires session { IsRun session.now }
    requires exports { All (IsExportIn session.now) exports.now }
    requires lawful { IsLawfulEnds session.now exports.now }
    ensures ends { IfOk result (IsPrinted summary_limit (uses (ran_from session.now exports.now)) (large_line path.now)) }
    ensures supported { OnOk result (AreSupported (ran_from session.now exports.now)) }
{
    uses_law();
    let limit = Limits::standard().summary_bytes;
    let mut text = Vec::new(alloc);
    match uses_text(alloc, session, exports, limit, &mut text) {
        Ok(()) => Ok(accepted(text)),
        Err(PrintFault::TooLarge) => Ok(too_large(alloc, path)?),
        Err(PrintFault::Memory(memory)) => Err(memory),
    }
}

/// The written article of a run's exports, or the line for one that is too large.
fn written(
    alloc: Global,
    path: &str,
    session: &Session,
    exports: &[Export],
) -> Result<Verdict, Memory>
    requires session { IsRun session.now }
    requires exports { All (IsExportIn session.now) exports.now }
    requires lawful { IsLawfulEnds session.now exports.now }
    ensures ends { IfOk result
        (IsPrinted written_limit (article_text (ran_from session.now exports.now)) (large_article_line path.now)) }
    ensures rewritten { OnOk result (let r = ran_from session.now exports.now in article_fits r ≡ true → IsRewritten r) }
{
    match article_of(alloc, session, exports)? {
        Some(text) => Ok(accepted(text)),
        None => large_article(alloc, path),
    }
}

/// The written article of a run's exports, where it is within the limit.
fn article_of(
    alloc: Global,
    session: &Session,
    exports: &[Export],
) -> Result<Option<Vec<u8>>, Memory>
    requires session { IsRun session.now }
    requires exports { All (IsExportIn session.now) exports.now }
    requires lawful { IsLawfulEnds session.now exports.now }
    ensures rewritten { OnOk result (let r = ran_from session.now exports.now in article_fits r ≡ true → IsRewritten r) }
    ensures some { IfOk result (λ o. IfSome o (λ text. (article_fits (ran_from session.now exports.now) ≡ true)
        × (text.items ≡ article_text (ran_from session.now exports.now)))) }
    ensures none { IfOk result (λ o. IfNone o (article_fits (ran_from session.now exports.now) ≡ false)) }
{
    let limit = Limits::standard().written_bytes;
    let mut text = Vec::new(alloc);
    match minimise(alloc, session, exports, limit, &mut text) {
        Ok(()) => Ok(Some(text)),
        Err(WriteRefusal::TooLarge) => Ok(None),
        Err(WriteRefusal::Memory(memory)) => Err(memory),
    }
}

/// That the written article of the input of a path is too large.
fn large_article(alloc: Global, path: &str) -> Result<Verdict, Memory>
    ensures { IfOk result (λ v. IsSaid v Status.Refused (large_article_line path.now)) }
{
    let line = line_of(alloc, path, "written article larger than 4294967296 bytes")?;
    Ok(refused(line))
}

/// The proof log of a run's exports, or the line for one that is too large.
fn logged(
    alloc: Global,
    path: &str,
    session: &Session,
    exports: &[Export],
) -> Result<Verdict, Memory>
    requires session { IsRun session.now }
    requires exports { All (IsExportIn session.now) exports.now }
    requires lawful { IsLawfulEnds session.now exports.now }
    ensures ends { IfOk result
        (IsPrinted written_limit (log_text (ran_from session.now exports.now)) (large_log_line path.now)) }
    ensures logged { OnOk result (let r = ran_from session.now exports.now in log_fits r ≡ true → IsLogged r) }
{
    let limit = Limits::standard().written_bytes;
    let mut text = Vec::new(alloc);
    match write_log(alloc, session, exports, limit, &mut text) {
        Ok(()) => Ok(accepted(text)),
        Err(LogRefusal::TooLarge) => Ok(large_log(alloc, path)?),
        Err(LogRefusal::Memory(memory)) => Err(memory),
    }
}

/// That the proof log of the input of a path is too large.
fn large_log(alloc: Global, path: &str) -> Result<Verdict, Memory>
    ensures { IfOk result (λ v. IsSaid v Status.Refused (large_log_line path.now)) }
{
    let line = line_of(alloc, path, "proof log larger than 4294967296 bytes")?;
    Ok(refused(line))
}

/// The verdict on a sample that was made: its text.
pub fn made_verdict(text: Vec<u8>) -> Verdict
    ensures said { IsSaid result Status.Accepted text.items }
    ensures one_text { TextsNameOne }
    ensures none { AcceptedLists names [] [] }
{
    growth_law();
    one_text();
    accepted(text)
}

/// The verdict on the sample of a size, whose article `made` was run so.
pub fn sample_verdict(
    alloc: Global,
    size: u64,
    made: &[u8],
    session: &Session,
    ran: Result<Vec<Export>, LinkFault>,
) -> Result<Verdict, Memory>
    requires session { IsRun session.now }
    requires made { made.now ≡ sample size }
    requires exports { IfOk ran (AreExportsIn session.now) }
    requires lawful { IfOk ran (λ exports. IsLawfulEnds session.now exports.items) }
    requires symbols { IfErr ran (NamesSymbolIn session.now.kernel) }
    ensures { IfOk result (IsVerdictOf (RunSample size) (end_of session.now ran)) }
{
    match ran {
        Ok(exports) => {
            proved(session, &exports);
            sampled(alloc, size, made, session, &exports)
        }
        Err(fault) => stopped(alloc, session.kernel(), fault),
    }
}

/// The report on the sample of a size, or the line for a written article that is too large.
fn sampled(
    alloc: Global,
    size: u64,
    made: &[u8],
    session: &Session,
    exports: &[Export],
) -> Result<Verdict, Memory>
    requires session { IsRun session.now }
    requires made { made.now ≡ sample size }
    requires exports { All (IsExportIn session.now) exports.now }
    requires lawful { IsLawfulEnds session.now exports.now }
    ensures ends { IfOk result (EndsAs (RunSample size) (ran_from session.now exports.now)) }
    ensures rewritten { OnOk result (let r = ran_from session.now exports.now in article_fits r ≡ true → IsRewritten r) }
{
    match article_of(alloc, session, exports)? {
        Some(text) => {
            let counts = counts_of(session, exports);
            let line = sample_line(alloc, size, line_count(made), counts, line_count(&text))?;
            Ok(accepted(line))
        }
        None => large_article(alloc, SAMPLE),
    }
}

/// How many newlines a text has.
fn line_count(text: &[u8]) -> usize
    ensures { result ≡ line_count text.now }
{
    text.iter().filter(|b| **b == b'\n').count()
}

/// The line for a sample of a size: how many lines its article has, its counts, and how many lines its written
/// article has.
fn sample_line(
    alloc: Global,
    size: u64,
    lines: usize,
    counts: Counts,
    minimised: usize,
) -> Result<Vec<u8>, Memory>
    ensures { IfOk result (λ line. line.items
        ≡ sample_front size lines counts.theorems ++ sample_back counts.assumptions counts.definitions minimised) }
{
    let mut line = sample_front(alloc, size, lines, counts.theorems)?;
    let back = sample_back(alloc, counts.assumptions, counts.definitions, minimised)?;
    line.extend_from_slice(&back)?;
    Ok(line)
}

/// Its front, up to the theorems.
fn sample_front(alloc: Global, size: u64, lines: usize, theorems: usize) -> Result<Vec<u8>, Memory>
    ensures { IfOk result (λ line. line.items ≡ sample_front size lines theorems) }
{
    let line = format!(in alloc; "sample {size}: {lines} lines, {theorems} theorems, ")?;
    Ok(line.into_bytes())
}

/// What is behind them.
fn sample_back(
    alloc: Global,
    assumptions: usize,
    definitions: usize,
    minimised: usize,
) -> Result<Vec<u8>, Memory>
    ensures { IfOk result (λ line. line.items ≡ sample_back assumptions definitions minimised) }
{
    let line = format!(in alloc;
        "{assumptions} assumptions, {definitions} definitions; minimised {minimised} lines\n"
    )?;
    Ok(line.into_bytes())
}

/// The numbers of the theorems that are exported, in order.
pub fn theorems_of(alloc: Global, exports: &[Export]) -> Result<Vec<ThmId>, AllocError>
    ensures { IfOk result (λ theorems. theorems.items ≡ map (λ e. e.th) exports.now) }
{
    exports.iter().map(|export| export.th).collect(alloc)
}
