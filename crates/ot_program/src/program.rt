ghost use Rattle.std.specs.Prelude.{◌≡◌, ◌≢◌, ◌↔◌, ◌⊎◌, ◌≤◌, None, IfOk, IfSome, OnOk, OnErr};
ghost use Rattle.std.specs.Io.KnownBytes.{Appends};
ghost use Rattle.ot_io.specs.Causes.{CountRose, HasCause};
ghost use Rattle.ot_io.specs.Keeping.{KeepsSource};
ghost use Rattle.ot_io.specs.Sinks.{FlushesAll, AppendsFront};
ghost use Rattle.ot_args.specs.Grammar.{texts_of, command_of};
ghost use Rattle.ot_program.specs.World.{HasReadWorld, EachTold};
ghost use Rattle.ot_machine.specs.Meaning.{run_of, IsRun};
ghost use Rattle.ot_machine.specs.States.{fresh_run};
ghost use Rattle.ot_program.specs.Tasks.{task_of, ShowReadable, task_value, job_task, IsSized, command};
ghost use Rattle.ot_program.specs.Answer.{IsAnswered, Outputs, SaysWhy, WritesLine, FileFailed, NoFileIsAsked};
ghost use Rattle.ot_program.specs.Answer.{LeavesUnasked, ClosesFiles};
ghost use Rattle.ot_program.specs.Verdicts.{IsTaskVerdict, Ends, said_line};

use crate::finding::{Query, run_finding};
use crate::input::{fresh_session, run_input};
use crate::log::{check_log, log_verdict};
use crate::noted::run_noted;
use crate::readable::readable_verdict;
use crate::reading::run_reading;
use crate::report::{Verdict, verdict_on};
use crate::sample::{make_sample, run_sample};
use crate::status::Status;
use crate::task::{Job, Task, read_task};
use crate::texts::{OUT_OF_MEMORY, USAGE, WRITE_FAULT};
use ot_args::Usage;
use ot_io::{Files, Sink, Source, WriteFault, write_whole};
use ot_logic::Memory;
use ot_machine::Session;
use std::alloc::Global;

/// All that the program does with the command's words, without the program's name. `check` runs an input and
/// reports how many theorems, assumptions and definitions it has; `info` reports which, with `--readable` in a form
/// that reads back, and with `--uses` what each theorem rests on. `-` is an article on `input`, a name that ends in
/// `.thy` a theory file over packages in a folder, and any other name an article file. `read` runs an input, and
/// prints the sequents that the lines of a readable text stand for. `find` runs an input and the packages that it
/// requires, and prints those of their exports whose conclusion a pattern matches. `link` and `minimise` run an
/// input and write an article of its exports that has what they need and nothing else, and `prove` writes a proof
/// log of them. `sample` makes an article of a size, runs it and rewrites it, or with `--article` prints it.
/// `verify` checks a proof log, on `input` for `-` and else in a file, and reports what it proves. The text is made
/// whole, then written to `out` and flushed; each status but `Accepted` has its line on `err`. Whether `err` takes
/// it changes no status.
///
/// - `Accepted`: the run or the log ended, and all of the text was written and flushed.
/// - `Refused`: the run stopped, at the first fault and its line by the article format or the theory file format,
///   in the file that the line names; or the log has a fault, the first at that line; or a line of the readable
///   text is refused, the first at that line and column, or the text has more than 1,048,576 bytes; or what a
///   theory file requires is refused, or a pattern, at its column; or what would be printed has more than
///   67,108,864 bytes, or the written article or the proof log more than 4,294,967,296.
/// - `Usage`: exactly for words that are no command. It takes no memory and reads nothing.
/// - `NoFile`: only where a file was missing in this call.
/// - `ReadFault`: only where what the command reads failed in this call: `input` for `-`, else `files`, at a file
///   that the command needs; the readable text is always a file.
/// - `WriteFault`: only where the input is accepted and `out` failed in this call; a front of the text was written.
/// - `Memory`: may come at any point before the text is made; then no more memory is taken.
pub fn run<F: Files, S: Source, O: Sink, E: Sink>(
    alloc: Global,
    words: &[String],
    files: &mut F,
    input: &mut S,
    out: &mut O,
    err: &mut E,
) -> Status
    // Status 2 comes exactly for words that are no command.
    ensures usage { (result ≡ Status.Usage) ↔ (command_of (texts_of words.now) ≡ None) }

    // Of files and input something was read, with which what is told agrees; where no file is asked for, any folder may be
    // taken for the one that is told. For each world in which it may have been read the status and the texts are those of
    // the stated answer, unless a device fails or memory runs out. What is printed is a report on a run or a log, in each
    // such world the stated one, whose theorems are derivable from its assumptions under its definitions; with status 0 it
    // is flushed, with 5 a front of it is written, with any other nothing. What is said is nothing with status 0, and else
    // the status's line: of 1 that of a fault or of a text that is too large, of 3 and 4 a path's. The device that 3, 4 or
    // 5 blames counted it in this call.
    ensures answered { EachTold (NoFileIsAsked (task_of (texts_of words.now))) (F.folder files.old)
        (λ told. HasReadWorld told (S.left input.old) (S.left input.new)
        (IsAnswered (texts_of words.now) result (record {
          input = CountRose (S.faults input.old) (S.faults input.new);
          file = FileFailed (F.at files.new) (F.faults files.old) (F.faults files.new);
          files = CountRose (F.faults files.old) (F.faults files.new);
          missing = CountRose (F.misses files.old) (F.misses files.new);
          output = CountRose (O.faults out.old) (O.faults out.new);
        }) O.written O.flushed out.old out.new E.written E.faults err.old err.new)) }
    // With 3 and 4 the path asked for last is the one that the words name, where that is an article's, a log's or a text's.
    ensures at { (result ≡ Status.NoFile) ⊎ (result ≡ Status.ReadFault)
        → IfSome (task_of (texts_of words.now)) (λ t. (command t).Last (F.folder files.old) (F.at files.new)) }

    // What the words don't ask for is left alone, counts never fall, and no file that was opened stays open.
    ensures other { LeavesUnasked (task_of (texts_of words.now)) files.old files.new input.old input.new }
    ensures files { ClosesFiles F.folder F.faults F.misses F.left files.old files.new }
    ensures source { KeepsSource S.folder S.faults S.misses S.at input.old input.new }
    ensures sinks { (O.faults out.old ≤ O.faults out.new) × (E.faults err.old ≤ E.faults err.new) }
{
    match read_task(words) {
        Ok(task) => match run_task(alloc, task, files, input) {
            Ok(verdict) => finish(out, err, &verdict),
            Err(_) => {
                say(err, OUT_OF_MEMORY);
                Status::Memory
            }
        },
        Err(Usage) => {
            say(err, USAGE);
            Status::Usage
        }
    }
}

/// Runs an input or a sample in a fresh session, makes a sample, or checks a log, and makes the text that reports the
/// result.
fn run_task<F: Files, S: Source>(
    alloc: Global,
    task: Task<'_>,
    files: &mut F,
    input: &mut S,
) -> Result<Verdict, Memory>
    requires { IsSized (task_value task) }
    ensures verdict { EachTold ((command (task_value task.entry)).AsksNoFile) (F.folder files.old)
        (λ told. HasReadWorld told (S.left input.old) (S.left input.new)
        (λ May. IfOk result (λ v. IsTaskVerdict (task_value task.entry)
        (CountRose (S.faults input.old) (S.faults input.new))
        (FileFailed (F.at files.new) (F.faults files.old) (F.faults files.new))
        (CountRose (F.misses files.old) (F.misses files.new)) v May))) }
    ensures at { IfOk result (λ _. (command (task_value task.entry)).Last (F.folder files.old) (F.at files.new)) }
    ensures files { ClosesFiles F.folder F.faults F.misses F.left files.old files.new }
    ensures source { KeepsSource S.folder S.faults S.misses S.at input.old input.new }
    ensures other { (command (task_value task.entry)).Leaves files.old files.new input.old input.new }
{
    match task {
        Task::RunInput(job) => {
            let mut session = fresh_session(alloc)?;
            job_in(alloc, &mut session, job, files, input)
        }
        Task::RunSample(size) => run_sample(alloc, size),
        Task::MakeSample(size) => make_sample(alloc, size),
        Task::CheckLog(path) => {
            let checked = check_log(alloc, path, files, input);
            log_verdict(alloc, path, checked)
        }
        Task::ShowReadable { packages, path } => {
            let mut session = fresh_session(alloc)?;
            readable_in(alloc, &mut session, packages, path, files, input)
        }
        Task::ReadLines {
            packages,
            path,
            text,
        } => run_reading(alloc, packages, path, text, files, input),
        Task::FindPattern {
            packages,
            pattern,
            path,
        } => {
            let query = Query {
                packages,
                pattern,
                path,
            };
            run_finding(alloc, query, files, input)
        }
    }
}

/// Runs an input in a fresh session, and makes the text that reports its result.
fn job_in<F: Files, S: Source>(
    alloc: Global,
    session: &mut Session,
    job: Job<'_>,
    files: &mut F,
    input: &mut S,
) -> Result<Verdict, Memory>
    requires session { IsRun session.old }
    requires fresh { run_of session.old ≡ fresh_run }
    ensures verdict { EachTold ((command (job_task job.entry)).AsksNoFile) (F.folder files.old)
        (λ told. HasReadWorld told (S.left input.old) (S.left input.new)
        (λ May. IfOk result (λ v. IsTaskVerdict (job_task job.entry)
        (CountRose (S.faults input.old) (S.faults input.new))
        (FileFailed (F.at files.new) (F.faults files.old) (F.faults files.new))
        (CountRose (F.misses files.old) (F.misses files.new)) v May))) }
    ensures at { IfOk result (λ _. (command (job_task job.entry)).Last (F.folder files.old) (F.at files.new)) }
    ensures files { ClosesFiles F.folder F.faults F.misses F.left files.old files.new }
    ensures source { KeepsSource S.folder S.faults S.misses S.at input.old input.new }
    ensures other { (command (job_task job.entry)).Leaves files.old files.new input.old input.new }
{
    let ran = run_input(alloc, session, job, files, input);
    verdict_on(alloc, job, session, ran)
}

/// Runs an input in a fresh session, and makes its text in readable form.
fn readable_in<F: Files, S: Source>(
    alloc: Global,
    session: &mut Session,
    packages: &str,
    path: &str,
    files: &mut F,
    input: &mut S,
) -> Result<Verdict, Memory>
    requires session { IsRun session.old }
    requires fresh { run_of session.old ≡ fresh_run }
    ensures verdict { EachTold ((command (ShowReadable packages.now path.now)).AsksNoFile) (F.folder files.old)
        (λ told. HasReadWorld told (S.left input.old) (S.left input.new)
        (λ May. IfOk result (λ v. IsTaskVerdict (ShowReadable packages.now path.now)
        (CountRose (S.faults input.old) (S.faults input.new))
        (FileFailed (F.at files.new) (F.faults files.old) (F.faults files.new))
        (CountRose (F.misses files.old) (F.misses files.new)) v May))) }
    ensures at { IfOk result
        (λ _. (command (ShowReadable packages.now path.now)).Last (F.folder files.old) (F.at files.new)) }
    ensures files { ClosesFiles F.folder F.faults F.misses F.left files.old files.new }
    ensures source { KeepsSource S.folder S.faults S.misses S.at input.old input.new }
    ensures other { (command (ShowReadable packages.now path.now)).Leaves files.old files.new input.old input.new }
{
    let ran = run_noted(alloc, session, packages, path, files, input);
    readable_verdict(alloc, path, session, ran)
}

/// Writes a verdict, and says how the program ends.
fn finish<O: Sink, E: Sink>(out: &mut O, err: &mut E, verdict: &Verdict) -> Status
    requires { verdict.now.status ≢ Status.WriteFault }
    ensures ends { Ends verdict.now.status result }
    ensures outputs { Outputs result O.written O.flushed out.old out.new (λ text. text ≡ verdict.now.text.items) }
    ensures says { SaysWhy result E.written E.faults err.old err.new
        (λ line. line ≡ said_line result verdict.now.text.items) }
    ensures write { result ≡ Status.WriteFault → CountRose (O.faults out.old) (O.faults out.new) }
    ensures sinks { (O.faults out.old ≤ O.faults out.new) × (E.faults err.old ≤ E.faults err.new) }
{
    match verdict.status {
        Status::Accepted => match print(out, &verdict.text) {
            Ok(()) => Status::Accepted,
            Err(WriteFault) => {
                say(err, WRITE_FAULT);
                Status::WriteFault
            }
        },
        status => {
            say(err, &verdict.text);
            status
        }
    }
}

/// Writes and flushes a text.
fn print<O: Sink>(out: &mut O, text: &[u8]) -> Result<(), WriteFault>
    ensures all { OnOk result (Appends (O.written out.old) (O.written out.new) text.now) }
    ensures flushed { OnOk result
        (FlushesAll (O.flushed out.old) (O.written out.new) (O.flushed out.new)) }
    ensures front { OnErr result (AppendsFront (O.written out.old) (O.written out.new) text.now) }
    ensures cause { HasCause (O.faults out.old) (O.faults out.new) result }
{
    write_whole(out, text)?;
    match out.flush() {
        Ok(()) => Ok(()),
        Err(_) => Err(WriteFault),
    }
}

/// Writes a line to the error sink. Whether that works changes nothing else.
fn say<E: Sink>(err: &mut E, line: &[u8])
    ensures line { WritesLine E.written E.faults err.old err.new line.now }
    ensures later { E.faults err.old ≤ E.faults err.new }
{
    let _ = write_whole(err, line);
}
