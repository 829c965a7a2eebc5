//! The check of the log of a path, and what is said of it.
ghost use Rattle.std.specs.Prelude.{◌≡◌, ℕ, List, IsOk, IfOk, IfSome, true};
ghost use Rattle.ot_io.specs.Causes.{CountRose};
ghost use Rattle.ot_io.specs.Folder.{path_asked};
ghost use Rattle.ot_io.specs.Keeping.{KeepsSource};
ghost use Rattle.ot_io.specs.Reading.{HasRead};
ghost use Rattle.ot_io.specs.Readings.{HasReadFiles};
ghost use Rattle.ot_verify.specs.Verifying.{AreProved};
ghost use Rattle.ot_program.specs.World.{HasReadWorld, EachTold, is_standard};
ghost use Rattle.ot_program.specs.Tasks.{CheckLog, command};
ghost use Rattle.ot_program.specs.Command.{LeavesOther, IsAnswer, HasCause};
ghost use Rattle.ot_program.specs.CheckLog.{check_bytes, check_file, log_status, log_end_of};
ghost use Rattle.ot_program.specs.Answer.{FileFailed, ClosesFiles};
ghost use Rattle.ot_program.specs.Endings.{HasTaskEnd};
ghost use Rattle.ot_program.specs.Verdicts.{IsVerdictOf, EndsAs};

use crate::input::STANDARD;
use crate::report::{Verdict, accepted, failed, missing, refused, too_large};
use crate::texts::{line_at, log_fault_text};
use ot_io::{Files, OpenFault, Source};
use ot_logic::{Limits, Memory};
use ot_print::one_text;
use ot_verify::{LogFault, Verified, VerifiedText, VerifyFault, verify};
use std::alloc::Global;

/// Why the log of a path isn't accepted.
#[derive(Clone, Copy)]
pub enum LogRefusal {
    /// It is refused at this line.
    At { line: u64, fault: LogFault },
    /// There is no such file.
    NoFile,
    /// The input failed.
    ReadFault,
    /// There was too little memory.
    Memory(Memory),
}

/// Checks the log of a path, up to its first fault: `-` is a log on `input`, any other name a log file's.
pub fn check_log<F: Files, S: Source>(
    alloc: Global,
    path: &str,
    files: &mut F,
    input: &mut S,
) -> Result<Verified, LogRefusal>
    ensures checked { EachTold (is_standard path.now ≡ true) (F.folder files.old)
        (λ told. HasReadWorld told (S.left input.old) (S.left input.new)
        (λ May. IfSome (log_end_of path.now result) (λ e. HasTaskEnd (CheckLog path.now)
        (CountRose (S.faults input.old) (S.faults input.new))
        (FileFailed (F.at files.new) (F.faults files.old) (F.faults files.new))
        (CountRose (F.misses files.old) (F.misses files.new)) e May))) }
    ensures proved { IfOk result AreProved }
    ensures files { ClosesFiles F.folder F.faults F.misses F.left files.old files.new }
    ensures source { KeepsSource S.folder S.faults S.misses S.at input.old input.new }
    ensures other { LeavesOther path.now files.old files.new input.old input.new }
    ensures at { IfSome (log_end_of path.now result)
        (λ _. (command (CheckLog path.now)).Last (F.folder files.old) (F.at files.new)) }
{
    if path == STANDARD {
        check_source(alloc, input)
    } else {
        check_file(alloc, path, files)
    }
}

/// Opens the file of a path, checks its log and closes it.
fn check_file<F: Files>(alloc: Global, path: &str, files: &mut F) -> Result<Verified, LogRefusal>
    ensures checked { HasReadFiles (F.folder files.old) (λ folder.
        IfSome (log_end_of path.now result) (IsAnswer (check_file path.now folder))) }
    ensures proved { IfOk result AreProved }
    ensures cause { IfSome (log_end_of path.now result)
        (HasCause log_status (λ stop. Unit {0}) (λ failed. CountRose (F.faults files.old) (F.faults files.new))
        (CountRose (F.misses files.old) (F.misses files.new))) }
    ensures files { ClosesFiles F.folder F.faults F.misses F.left files.old files.new }
    ensures at { F.at files.new ≡ path_asked (F.folder files.old) path.now }
{
    match files.open_file(path) {
        Ok(()) => {
            let checked = check_source(alloc, files);
            files.close();
            checked
        }
        Err(OpenFault::Missing) => Err(LogRefusal::NoFile),
        Err(OpenFault::Failed) => Err(LogRefusal::ReadFault),
    }
}

/// Checks the log that a source has left, whatever its path.
fn check_source<S: Source>(alloc: Global, source: &mut S) -> Result<Verified, LogRefusal>
    ensures checked { HasRead (S.left source.old) (S.left source.new) (IsOk result) (λ bytes rest.
        (path : List ℕ) → IfSome (log_end_of path result) (IsAnswer (check_bytes bytes))) }
    ensures proved { IfOk result AreProved }
    ensures cause { (path : List ℕ)
        → IfSome (log_end_of path result) (HasCause log_status (λ stop. Unit {0})
        (λ failed. CountRose (S.faults source.old) (S.faults source.new)) ⊥) }
    ensures source { KeepsSource S.folder S.faults S.misses S.at source.old source.new }
{
    let limit = Limits::standard().article_bytes;
    match verify(alloc, source, limit) {
        Ok(verified) => Ok(verified),
        Err(VerifyFault::At { line, fault }) => Err(LogRefusal::At { line, fault }),
        Err(VerifyFault::ReadFault) => Err(LogRefusal::ReadFault),
        Err(VerifyFault::Memory(memory)) => Err(LogRefusal::Memory(memory)),
    }
}

/// The verdict on the log of a path that was checked so.
pub fn log_verdict(
    alloc: Global,
    path: &str,
    checked: Result<Verified, LogRefusal>,
) -> Result<Verdict, Memory>
    requires { IfOk checked AreProved }
    ensures { IfOk result (IsVerdictOf (CheckLog path.now) (log_end_of path.now checked)) }
{
    match checked {
        Ok(verified) => {
            one_text();
            log_summary(alloc, path, &verified)
        }
        Err(LogRefusal::At { line, fault }) => {
            Ok(refused(line_at(alloc, path, line, log_fault_text(fault))?))
        }
        Err(LogRefusal::NoFile) => missing(alloc, path),
        Err(LogRefusal::ReadFault) => failed(alloc, path),
        Err(LogRefusal::Memory(memory)) => Err(memory),
    }
}

/// The summary of what a log proves, or the line for a summary that is too large.
fn log_summary(alloc: Global, path: &str, verified: &Verified) -> Result<Verdict, Memory>
    ensures { IfOk result (EndsAs (CheckLog path.now) verified.now) }
{
    let max = Limits::standard().summary_bytes;
    let mut text = Vec::new(alloc);
    match verified.text(alloc, max, &mut text) {
        Ok(()) => Ok(accepted(text)),
        Err(VerifiedText::TooLarge) => too_large(alloc, path),
        Err(VerifiedText::Memory(memory)) => Err(memory),
    }
}
