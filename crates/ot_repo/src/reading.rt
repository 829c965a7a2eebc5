//! The files that are read.
ghost use Rattle.std.specs.Prelude.{◌≡◌, List, IfErr};
ghost use Rattle.ot_logic.specs.Limits.{index_limit};
ghost use Rattle.ot_io.specs.Readings.{HasReadFiles};
ghost use Rattle.ot_io.specs.Keeping.{KeepsFiles};
ghost use Rattle.ot_theory.specs.Theory.{theory};
ghost use Rattle.ot_theory.specs.Answers.{theory_of};
ghost use Rattle.ot_repo.specs.Required.{TheoryTooLarge, IndexTooLarge, text_at, in_file};
ghost use Rattle.ot_repo.specs.Answers.{FailsAt, IsAsStated, HasCause, IsOfContent};
ghost use Rattle.std.specs.Option.{option_map};
ghost use Rattle.ot_repo.specs.Reading.{sized_at};

use crate::fault::RepoFault;
use ot_io::{FileFault, Files, read_file};
use ot_logic::INDEX_LIMIT;
use ot_theory::{Theory, TheoryError, parse};
use std::alloc::Global;

/// The text of a theory file, which is within this limit.
pub(crate) fn theory_text<F: Files>(
    alloc: Global,
    files: &mut F,
    path: &str,
    max_bytes: usize,
) -> Result<Vec<u8>, RepoFault>
    ensures text { HasReadFiles (F.folder files.old) (λ folder. IsAsStated (λ text. text.items) result
        (text_at folder max_bytes (TheoryTooLarge path.now) path.now)) }
    ensures cause { IfErr result (λ e. HasCause e (F.misses files.old) (F.misses files.new)
        (F.faults files.old) (F.faults files.new) (F.at files.new)) }
    ensures kept { KeepsFiles F.folder F.faults F.misses files.old files.new }
    ensures failure { IfErr result (FailsAt (λ failed. failed ≡ path.now)) }
{
    match file_text(alloc, files, path, max_bytes)? {
        Some(text) => Ok(text),
        None => {
            let path = String::from_str(alloc, path)?;
            Err(RepoFault::TheoryTooLarge { path })
        }
    }
}

/// The text of the list of installed packages, which is within its limit.
pub(crate) fn index_text<F: Files>(
    alloc: Global,
    files: &mut F,
    path: &str,
) -> Result<Vec<u8>, RepoFault>
    ensures text { HasReadFiles (F.folder files.old) (λ folder. IsAsStated (λ text. text.items) result
        (text_at folder index_limit (IndexTooLarge path.now) path.now)) }
    ensures cause { IfErr result (λ e. HasCause e (F.misses files.old) (F.misses files.new)
        (F.faults files.old) (F.faults files.new) (F.at files.new)) }
    ensures kept { KeepsFiles F.folder F.faults F.misses files.old files.new }
    ensures failure { IfErr result (FailsAt (λ failed. failed ≡ path.now)) }
{
    match file_text(alloc, files, path, INDEX_LIMIT)? {
        Some(text) => Ok(text),
        None => {
            let path = String::from_str(alloc, path)?;
            Err(RepoFault::IndexTooLarge { path })
        }
    }
}

/// The bytes of a file, where it has no more than so many.
fn file_text<F: Files>(
    alloc: Global,
    files: &mut F,
    path: &str,
    max_bytes: usize,
) -> Result<Option<Vec<u8>>, RepoFault>
    ensures text { HasReadFiles (F.folder files.old) (λ folder.
        IsAsStated (option_map (λ text. text.items)) result (sized_at folder max_bytes path.now)) }
    ensures cause { IfErr result (λ e. HasCause e (F.misses files.old) (F.misses files.new)
        (F.faults files.old) (F.faults files.new) (F.at files.new)) }
    ensures kept { KeepsFiles F.folder F.faults F.misses files.old files.new }
    ensures failure { IfErr result (FailsAt (λ failed. failed ≡ path.now)) }
{
    match read_file(alloc, files, path, max_bytes) {
        Ok(text) => Ok(Some(text)),
        Err(FileFault::TooLarge) => Ok(None),
        Err(FileFault::Missing) => {
            let path = String::from_str(alloc, path)?;
            Err(RepoFault::NoFile { path })
        }
        Err(FileFault::Failed) => {
            let path = String::from_str(alloc, path)?;
            Err(RepoFault::ReadFault { path })
        }
        Err(FileFault::Memory(memory)) => Err(RepoFault::Memory(memory)),
    }
}

/// The theory file that a text is.
pub(crate) fn theory_in<'a>(
    alloc: Global,
    path: &str,
    text: &'a [u8],
) -> Result<Theory<'a>, RepoFault>
    ensures theory { IsAsStated theory_of result (in_file path.now (theory text.now)) }
    ensures inside { IfErr result IsOfContent }
{
    match parse(alloc, text) {
        Ok(theory) => Ok(theory),
        Err(TheoryError::At { line, fault }) => {
            let path = String::from_str(alloc, path)?;
            Err(RepoFault::Theory { path, line, fault })
        }
        Err(TheoryError::Memory(memory)) => Err(RepoFault::Memory(memory)),
    }
}
