ghost use Rattle.std.specs.Prelude.{◌≡◌, [], Some, IfOk, IfErr};
ghost use Rattle.std.specs.List.{list_any, filter};
ghost use Rattle.std.specs.String.{string_bytes};
ghost use Rattle.ot_io.specs.Readings.{HasReadFiles};
ghost use Rattle.ot_io.specs.Keeping.{KeepsFiles};
ghost use Rattle.ot_theory.specs.Answers.{tag_of, tags_of};
ghost use Rattle.ot_repo.specs.Required.{required, required_over, is_requirement, index_path};
ghost use Rattle.ot_repo.specs.Laws.{IsWalked};
ghost use Rattle.ot_repo.specs.Reading.{IsTagFile};
ghost use Rattle.ot_repo.specs.Answers.{ArePackages, IsAnswer, names_of, HasCause};

use crate::fault::RepoFault;
use crate::index::Index;
use crate::reading::{index_text, theory_in, theory_text};
use crate::requirements::{File, Setting, is_requirement, requirements_of};
use crate::walk::walk;
use ot_io::Files;
use ot_logic::{Limits, Memory};
use ot_theory::Tag;
use std::alloc::Global;

/// The full names of the packages that a theory file requires, each once, behind those that its own
/// file requires. By the theory file format each `requires:` tag names a package. The file
/// `installed` in the folder `packages` lists full names, one a line; a value picks the line that
/// equals it, or else the last line that has it as its name. A package `NAME-VERSION` is the file
/// `NAME.thy` in the folder of that full name in `packages`. The walk goes depth first, over tags in
/// the order of lines. `installed` is read where the theory file has such a tag, before the value of
/// the first one. It may have 1,048,576 bytes, and a theory file as many as the limits say.
///
/// Files were read, each of them missing, whole, or a front of it; the answer is that of the walk in
/// every folder that agrees with this. A folder that is known does.
///
/// - `Theory`, `TheoryTooLarge`, `IndexTooLarge`, `BadIndex`, `NotInstalled`, `RequiresCycle`: exactly
///   where the walk stops so, with the path of the file and the line.
/// - `NoFile`: only where a file was missing in this call, and exactly where the walk needs it and
///   stops there.
/// - `ReadFault`: only where the files failed in this call, at the path that was asked for last, which is
///   one that the walk needs.
/// - `Memory`: may come at any point.
///
/// No file is left open.
pub fn required<F: Files>(
    alloc: Global,
    files: &mut F,
    theory_path: &str,
    packages: &str,
    limits: &Limits,
) -> Result<Vec<String>, RepoFault>
    ensures reads { HasReadFiles (F.folder files.old) (λ folder. IsAnswer names_of
        (IsWalked folder limits.now.theory_bytes packages.now theory_path.now) result
        (required folder limits.now.theory_bytes packages.now theory_path.now)) }
    ensures full { IfOk result (λ names. ArePackages (names_of names)) }
    ensures cause { IfErr result (λ e. HasCause e (F.misses files.old) (F.misses files.new)
        (F.faults files.old) (F.faults files.new) (F.at files.new)) }
    ensures kept { KeepsFiles F.folder F.faults F.misses files.old files.new }
    ensures closed { F.left files.new ≡ Some [] }
{
    let setting = Setting {
        alloc,
        packages,
        max_bytes: limits.theory_bytes,
    };
    let result = required_by(setting, files, theory_path);
    files.close();
    result
}

/// The packages that the theory file of a path requires.
fn required_by<F: Files>(
    setting: Setting<'_>,
    files: &mut F,
    path: &str,
) -> Result<Vec<String>, RepoFault>
    ensures required { HasReadFiles (F.folder files.old) (λ folder. IsAnswer names_of
        (IsWalked folder setting.entry.max_bytes setting.entry.packages.now path.now) result
        (required folder setting.entry.max_bytes setting.entry.packages.now path.now)) }
    ensures full { IfOk result (λ names. ArePackages (names_of names)) }
    ensures cause { IfErr result (λ e. HasCause e (F.misses files.old) (F.misses files.new)
        (F.faults files.old) (F.faults files.new) (F.at files.new)) }
    ensures kept { KeepsFiles F.folder F.faults F.misses files.old files.new }
{
    let text = theory_text(setting.alloc, files, path, setting.max_bytes)?;
    let theory = theory_in(setting.alloc, path, &text)?;
    if has_requirement(&theory.tags) {
        required_over(setting, files, path, &theory.tags)
    } else {
        Ok(Vec::new(setting.alloc))
    }
}

fn has_requirement(tags: &[Tag<'_>]) -> bool
    ensures { result ≡ list_any (λ tag. is_requirement (tag_of tag)) tags.now }
{
    tags.iter().any(|tag| is_requirement(tag))
}

/// The packages that the tags of the theory file of a path require, by the list of those installed.
fn required_over<F: Files>(
    setting: Setting<'_>,
    files: &mut F,
    path: &str,
    tags: &[Tag<'_>],
) -> Result<Vec<String>, RepoFault>
    ensures required { HasReadFiles (F.folder files.old) (λ folder. IsAnswer names_of
        (IsTagFile folder setting.entry.max_bytes setting.entry.packages.now
        (filter is_requirement (tags_of tags.now))) result
        (required_over folder setting.entry.max_bytes setting.entry.packages.now path.now
        (filter is_requirement (tags_of tags.now)))) }
    ensures full { IfOk result (λ names. ArePackages (names_of names)) }
    ensures cause { IfErr result (λ e. HasCause e (F.misses files.old) (F.misses files.new)
        (F.faults files.old) (F.faults files.new) (F.at files.new)) }
    ensures kept { KeepsFiles F.folder F.faults F.misses files.old files.new }
{
    let alloc = setting.alloc;
    let index_path = index_path(alloc, setting.packages)?;
    let text = index_text(alloc, files, &index_path)?;
    let index = Index::read(alloc, &index_path, &text)?;
    let left = requirements_of(alloc, &index, tags)?;
    let path = String::from_str(alloc, path)?;
    walk(setting, files, &index, File { path, left })
}

/// The path of the list of installed packages.
fn index_path(alloc: Global, packages: &str) -> Result<String, Memory>
    ensures { IfOk result (λ path. string_bytes path ≡ index_path packages.now) }
{
    Ok(format!(in alloc; "{packages}/installed")?)
}
