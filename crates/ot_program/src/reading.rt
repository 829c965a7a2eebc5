//! The lines of a readable text, read under the notation of a run.
ghost use Rattle.std.specs.Prelude.{◌≡◌, ℕ, List, Ok, map, IfOk, IfErr, IfSome};
ghost use Rattle.std.specs.List.{All};
ghost use Rattle.ot_logic.specs.Limits.{summary_limit};
ghost use Rattle.ot_io.specs.Causes.{CountRose};
ghost use Rattle.ot_io.specs.Folder.{path_asked};
ghost use Rattle.ot_io.specs.Keeping.{KeepsFiles, KeepsSource};
ghost use Rattle.ot_io.specs.Readings.{HasReadFiles};
ghost use Rattle.ot_machine.specs.Meaning.{run_of, IsRun, IsExportIn};
ghost use Rattle.ot_machine.specs.States.{fresh_run};
ghost use Rattle.ot_parse.specs.Plain.{sequent_of};
ghost use Rattle.ot_theory.specs.Lines.{lines_of};
ghost use Rattle.ot_read.specs.Laws.{StandFor};
ghost use Rattle.ot_read.specs.Lines.{lines_read, sequent_lines, IsLineRefusal};
ghost use Rattle.ot_program.specs.World.{HasReadWorld};
ghost use Rattle.ot_program.specs.Tasks.{ReadLines, command};
ghost use Rattle.ot_program.specs.Runs.{notation};
ghost use Rattle.ot_program.specs.ReadLines.{read_in, text_in};
ghost use Rattle.ot_program.specs.Texts.{large_line};
ghost use Rattle.ot_program.specs.Answer.{FileFailed, ClosesFiles};
ghost use Rattle.ot_program.specs.Endings.{noted_of, read_end_of, IsTextRefusal, IsTextCause, IsLineCause};
ghost use Rattle.ot_program.specs.Command.{IsAnswer};
ghost use Rattle.ot_program.specs.Verdicts.{IsVerdictOf, IsPrinted, IsTaskVerdict};

use crate::input::fresh_session;
use crate::noted::{NotedRun, run_noted};
use crate::report::{
    Verdict, accepted, failed, missing, proved, refused, stopped, theorems_of, too_large,
};
use crate::texts::{column_line, line_of};
use ot_io::{FileFault, Files, Source, read_file};
use ot_logic::{Limits, Memory, TEXT_LIMIT};
use ot_machine::Session;
use ot_parse::{PlainFault, Readable, TextFault};
use ot_pretty::run_notation;
use ot_read::{LineRefusal, as_the_forms_say, read_lines, sequents_text};
use std::alloc::Global;

/// The bytes of a text, with the sequents that its lines stand for.
#[derive(Drop)]
pub struct LinesRead {
    pub bytes: Vec<u8>,
    pub sequents: Vec<Readable>,
}

/// Why the lines of a text aren't read.
#[derive(Clone, Copy)]
pub enum ReadingRefusal {
    /// The first line that is refused, and its column, both from 1.
    At {
        line: u64,
        column: u64,
        fault: TextFault,
    },
    /// The text has more than 1,048,576 bytes.
    TooLarge,
    /// There is no such file.
    NoFile,
    /// The file failed.
    ReadFault,
    /// There was too little memory.
    Memory(Memory),
}

/// Runs an input in a fresh session, reads the lines of the text of a path under the notation of the run, and makes
/// the printed texts of the sequents that they stand for.
pub fn run_reading<F: Files, S: Source>(
    alloc: Global,
    packages: &str,
    path: &str,
    text: &str,
    files: &mut F,
    input: &mut S,
) -> Result<Verdict, Memory>
    ensures verdict { HasReadWorld (F.folder files.old) (S.left input.old) (S.left input.new)
        (λ May. IfOk result (λ v. IsTaskVerdict (ReadLines packages.now path.now text.now)
        (CountRose (S.faults input.old) (S.faults input.new))
        (FileFailed (F.at files.new) (F.faults files.old) (F.faults files.new))
        (CountRose (F.misses files.old) (F.misses files.new)) v May)) }
    ensures at { IfOk result
        (λ _. (command (ReadLines packages.now path.now text.now)).Last (F.folder files.old) (F.at files.new)) }
    ensures files { ClosesFiles F.folder F.faults F.misses F.left files.old files.new }
    ensures source { KeepsSource S.folder S.faults S.misses S.at input.old input.new }
    ensures other { (command (ReadLines packages.now path.now text.now)).Leaves files.old files.new input.old input.new }
{
    let mut session = fresh_session(alloc)?;
    reading_in(alloc, &mut session, packages, path, text, files, input)
}

/// The same, in a fresh session.
fn reading_in<F: Files, S: Source>(
    alloc: Global,
    session: &mut Session,
    packages: &str,
    path: &str,
    text: &str,
    files: &mut F,
    input: &mut S,
) -> Result<Verdict, Memory>
    requires session { IsRun session.old }
    requires fresh { run_of session.old ≡ fresh_run }
    ensures verdict { HasReadWorld (F.folder files.old) (S.left input.old) (S.left input.new)
        (λ May. IfOk result (λ v. IsTaskVerdict (ReadLines packages.now path.now text.now)
        (CountRose (S.faults input.old) (S.faults input.new))
        (FileFailed (F.at files.new) (F.faults files.old) (F.faults files.new))
        (CountRose (F.misses files.old) (F.misses files.new)) v May)) }
    ensures at { IfOk result
        (λ _. (command (ReadLines packages.now path.now text.now)).Last (F.folder files.old) (F.at files.new)) }
    ensures files { ClosesFiles F.folder F.faults F.misses F.left files.old files.new }
    ensures source { KeepsSource S.folder S.faults S.misses S.at input.old input.new }
    ensures other { (command (ReadLines packages.now path.now text.now)).Leaves files.old files.new input.old input.new }
{
    match run_noted(alloc, session, packages, path, files, input) {
        Ok(noted) => {
            let read = read_text(alloc, session, &noted, text, files);
            reading_verdict(alloc, path, text, session, &noted, read)
        }
        Err(stop) => stopped(alloc, session.kernel(), stop),
    }
}

/// Reads the lines of the text of a path under the notation of a run, up to the first that is refused.
fn read_text<F: Files>(
    alloc: Global,
    session: &Session,
    run: &NotedRun,
    text: &str,
    files: &mut F,
) -> Result<LinesRead, ReadingRefusal>
    requires session { IsRun session.now }
    requires exports { All (IsExportIn session.now) run.now.exports.items }
    ensures read { HasReadFiles (F.folder files.old) (λ folder.
        IfSome (read_end_of text.now (noted_of session.now run.now) result)
        (IsAnswer (read_in (noted_of session.now run.now) text.now folder))) }
    ensures stand { IfOk result (λ r. StandFor (notation (noted_of session.now run.now))
        (lines_of r.bytes.items) (map sequent_of r.sequents.items)) }
    ensures cause { IfErr result
        (λ e. IsTextCause e (FileFailed (F.at files.new) (F.faults files.old) (F.faults files.new) text.now)
        (CountRose (F.misses files.old) (F.misses files.new))) }
    ensures files { ClosesFiles F.folder F.faults F.misses F.left files.old files.new }
    ensures at { F.at files.new ≡ path_asked (F.folder files.old) text.now }
{
    let bytes = bytes_of(alloc, text, files)?;
    match read_bytes(alloc, session, run, &bytes) {
        Ok(sequents) => Ok(LinesRead { bytes, sequents }),
        Err(
            LineRefusal::At {
                line,
                column,
                fault,
            },
        ) => Err(ReadingRefusal::At {
            line,
            column,
            fault,
        }),
        Err(LineRefusal::Memory(memory)) => Err(ReadingRefusal::Memory(memory)),
    }
}

/// The bytes of the text of a path, which are within the limit.
fn bytes_of<F: Files>(alloc: Global, text: &str, files: &mut F) -> Result<Vec<u8>, ReadingRefusal>
    ensures read { HasReadFiles (F.folder files.old) (λ folder.
        IfOk result (λ bytes. text_in text.now folder ≡ Ok bytes.items)
        × IfErr result (IsTextRefusal (text_in text.now folder))) }
    ensures cause { IfErr result
        (λ e. IsTextCause e (FileFailed (F.at files.new) (F.faults files.old) (F.faults files.new) text.now)
        (CountRose (F.misses files.old) (F.misses files.new))) }
    ensures files { ClosesFiles F.folder F.faults F.misses F.left files.old files.new }
    ensures at { F.at files.new ≡ path_asked (F.folder files.old) text.now }
{
    let read = opened_bytes(alloc, text, files);
    files.close();
    read
}

/// The same, where the file stays open.
fn opened_bytes<F: Files>(
    alloc: Global,
    text: &str,
    files: &mut F,
) -> Result<Vec<u8>, ReadingRefusal>
    ensures read { HasReadFiles (F.folder files.old) (λ folder.
        IfOk result (λ bytes. text_in text.now folder ≡ Ok bytes.items)
        × IfErr result (IsTextRefusal (text_in text.now folder))) }
    ensures cause { IfErr result
        (λ e. IsTextCause e (FileFailed (F.at files.new) (F.faults files.old) (F.faults files.new) text.now)
        (CountRose (F.misses files.old) (F.misses files.new))) }
    ensures kept { KeepsFiles F.folder F.faults F.misses files.old files.new }
    ensures at { F.at files.new ≡ path_asked (F.folder files.old) text.now }
{
    match read_file(alloc, files, text, TEXT_LIMIT) {
        Ok(bytes) => Ok(bytes),
        Err(FileFault::Missing) => Err(ReadingRefusal::NoFile),
        Err(FileFault::TooLarge) => Err(ReadingRefusal::TooLarge),
        Err(FileFault::Failed) => Err(ReadingRefusal::ReadFault),
        Err(FileFault::Memory(memory)) => Err(ReadingRefusal::Memory(memory)),
    }
}

/// The sequents that the lines of a text stand for under the notation of a run.
fn read_bytes(
    alloc: Global,
    session: &Session,
    run: &NotedRun,
    text: &[u8],
) -> Result<Vec<Readable>, LineRefusal>
    requires session { IsRun session.now }
    requires exports { All (IsExportIn session.now) run.now.exports.items }
    ensures ok { IfOk result (λ read. lines_read (notation (noted_of session.now run.now)) (lines_of text.now)
        ≡ Ok (map sequent_of read.items)) }
    ensures stand { IfOk result (λ read. StandFor (notation (noted_of session.now run.now))
        (lines_of text.now) (map sequent_of read.items)) }
    ensures refused { IfErr result
        (IsLineRefusal (lines_read (notation (noted_of session.now run.now)) (lines_of text.now))) }
    ensures first { IfErr result IsLineCause }
{
    let theorems = theorems_of(alloc, &run.exports)?;
    let notation = run_notation(alloc, session.kernel(), &run.names, &theorems)?;
    notation.sound();
    as_the_forms_say();
    read_lines(alloc, &notation, text)
}

/// The verdict on the text of a path that was read so, under the notation of the run of an input.
fn reading_verdict(
    alloc: Global,
    path: &str,
    text: &str,
    session: &Session,
    run: &NotedRun,
    read: Result<LinesRead, ReadingRefusal>,
) -> Result<Verdict, Memory>
    requires session { IsRun session.now }
    requires exports { All (IsExportIn session.now) run.now.exports.items }
    requires stand { IfOk read (λ r. StandFor (notation (noted_of session.now run.now))
        (lines_of r.bytes.items) (map sequent_of r.sequents.items)) }
    ensures { (packages : List ℕ)
        → IfOk result (IsVerdictOf (ReadLines packages path.now text.now)
        (read_end_of text.now (noted_of session.now run.now) read)) }
{
    match read {
        Ok(lines) => {
            proved(session, &run.exports);
            printed(alloc, path, &lines.sequents)
        }
        Err(
            ReadingRefusal::At {
                line,
                column,
                fault,
            },
        ) => Ok(refused(column_line(alloc, text, line, column, fault)?)),
        Err(ReadingRefusal::TooLarge) => {
            Ok(refused(line_of(alloc, text, "text longer than 1048576 bytes")?))
        }
        Err(ReadingRefusal::NoFile) => missing(alloc, text),
        Err(ReadingRefusal::ReadFault) => failed(alloc, text),
        Err(ReadingRefusal::Memory(memory)) => Err(memory),
    }
}

/// The printed texts of sequents that were read, or the line for a text that is too large.
fn printed(alloc: Global, path: &str, sequents: &[Readable]) -> Result<Verdict, Memory>
    ensures { IfOk result (IsPrinted summary_limit (sequent_lines (map sequent_of sequents.now)) (large_line path.now)) }
{
    match sequents_text(alloc, sequents, Limits::standard().summary_bytes) {
        Ok(text) => Ok(accepted(text)),
        Err(PlainFault::TooLarge) => too_large(alloc, path),
        Err(PlainFault::Memory(memory)) => Err(memory),
    }
}
