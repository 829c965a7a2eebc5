//! The walk over required packages.
ghost use Rattle.std.specs.Prelude.{◌≡◌, Some, length, IfOk, IfErr, IfSome};
ghost use Rattle.std.specs.Option.{option_map};
ghost use Rattle.std.specs.Str.{bytes_eq};
ghost use Rattle.std.specs.String.{string_bytes};
ghost use Rattle.ot_io.specs.Readings.{HasReadFiles};
ghost use Rattle.ot_io.specs.Keeping.{KeepsFiles};
ghost use Rattle.ot_walk.specs.Walk.{walk_from};
ghost use Rattle.ot_repo.specs.Required.{edges_of, walked};
ghost use Rattle.ot_repo.specs.Answers.{ArePackages, IsAsStated, IsAnswer, names_of, HasCause, IsOfContent};
ghost use Rattle.ot_repo.specs.Reading.{listed_in, IsIndex, IsReachedFile, edge_at};
ghost use Rattle.ot_repo.specs.Reading.{edges_left, AreListed, mark_in, next_at};

use crate::fault::RepoFault;
use crate::index::Index;
use crate::names::name_text;
use crate::requirements::{File, Requirement, Setting, package_file};
use ot_io::Files;
use std::alloc::Global;
use std::collections::HashMap;

/// How far the walk is with a package that it has met.
#[derive(Clone, Copy)]
pub(crate) enum Mark {
    Open,
    Done,
}

/// A file whose walk waits until that of a package is done.
#[derive(Drop)]
pub(crate) struct Waiting<'a> {
    pub file: File<'a>,
    /// The full name of the package.
    pub full: &'a [u8],
}

/// The packages that a theory file requires, each once, behind those that its own file requires.
pub(crate) fn walk<'a, F: Files>(
    setting: Setting<'_>,
    files: &mut F,
    index: &Index<'a>,
    first: File<'a>,
) -> Result<Vec<String>, RepoFault>
    requires index { IsIndex index.now }
    requires first { AreListed (listed_in index.now) first.left.items }
    ensures order { HasReadFiles (F.folder files.old) (λ folder.
        let edges = edges_of folder setting.entry.max_bytes setting.entry.packages.now (listed_in index.now) in
        IsAnswer names_of (IsReachedFile edges (edges_left first.entry) setting.entry.packages.now) result
        (walked (walk_from bytes_eq edges (length (listed_in index.now)) (edges_left first.entry)))) }
    ensures full { IfOk result (λ names. ArePackages (names_of names)) }
    ensures cause { IfErr result (λ e. HasCause e (F.misses files.old) (F.misses files.new)
        (F.faults files.old) (F.faults files.new) (F.at files.new)) }
    ensures kept { KeepsFiles F.folder F.faults F.misses files.old files.new }
{
    let alloc = setting.alloc;
    let mut marks: HashMap<&'a [u8], Mark> = HashMap::new(alloc);
    let mut done = Vec::new(alloc);
    // The files below the current one, each of which waits for the one above it.
    let mut below: Vec<Waiting<'a>> = Vec::new(alloc);
    let mut file = first;
    'walk: loop {
        match file.left.pop() {
            Some(requirement) => {
                if let Some(full) = next_package(alloc, &marks, &file.path, requirement)? {
                    let above = package_file(setting, files, index, full)?;
                    marks.insert(full, Mark::Open)?;
                    below.push(Waiting { file, full })?;
                    file = above;
                }
            }
            None => match below.pop() {
                Some(waiting) => {
                    marks.insert(waiting.full, Mark::Done)?;
                    done.push(name_text(alloc, waiting.full)?)?;
                    file = waiting.file;
                }
                None => return Ok(done),
            },
        }
    }
}

/// The package that is walked next for a tag of the file of this path, if it isn't done.
fn next_package<'a>(
    alloc: Global,
    marks: &HashMap<&'a [u8], Mark>,
    path: &str,
    requirement: Requirement<'a>,
) -> Result<Option<&'a [u8]>, RepoFault>
    ensures next { IsAsStated (option_map (λ full. full.now)) result
        (next_at (mark_in marks.now) (edge_at path.now requirement.entry)) }
    ensures own { IfOk result (λ next. IfSome next (λ full. requirement.entry.full ≡ Some full)) }
    ensures inside { IfErr result IsOfContent }
{
    let line = requirement.line;
    let Some(full) = requirement.full else {
        let path = String::from_str(alloc, path)?;
        return Err(RepoFault::NotInstalled { path, line });
    };
    match marks.get(full) {
        None => Ok(Some(full)),
        Some(Mark::Done) => Ok(None),
        Some(Mark::Open) => {
            let path = String::from_str(alloc, path)?;
            Err(RepoFault::RequiresCycle { path, line })
        }
    }
}
