//! The tags of a theory file that name packages.
ghost use Rattle.std.specs.Prelude.{◌≡◌, ℕ, List, true, map, codes, reverse, IfOk, IfErr, string_bytes};
ghost use Rattle.std.specs.List.{filter};
ghost use Rattle.std.specs.Str.{bytes_eq};
ghost use Rattle.ot_io.specs.Readings.{HasReadFiles};
ghost use Rattle.ot_io.specs.Keeping.{KeepsFiles};
ghost use Rattle.ot_theory.specs.Answers.{tag_of, tags_of};
ghost use Rattle.ot_blocks.specs.Paths.{is_package, package_path};
ghost use Rattle.ot_logic.specs.Lists.{IsMember};
ghost use Rattle.ot_repo.specs.Required.{is_requirement, edge_of, edges_of};
ghost use Rattle.ot_repo.specs.Answers.{FailsAt, IsAsStated, HasCause};
ghost use Rattle.ot_repo.specs.Reading.{listed_in, IsIndex, edge_at, edges_left, AreListed};

use crate::fault::RepoFault;
use crate::index::Index;
use crate::reading::{theory_in, theory_text};
use ot_blocks::package_path;
use ot_io::Files;
use ot_logic::Memory;
use ot_theory::Tag;
use std::alloc::Global;

/// A tag that names a package.
#[derive(Clone, Copy)]
pub(crate) struct Requirement<'a> {
    /// The number of its line.
    pub line: u64,
    /// The full name that its value picks, if it picks one.
    pub full: Option<&'a [u8]>,
}

/// A theory file that is walked.
#[derive(Drop)]
pub(crate) struct File<'a> {
    pub path: String,
    /// The tags that are left, the next one last.
    pub left: Vec<Requirement<'a>>,
}

/// What stays the same through a walk.
#[derive(Clone, Copy)]
pub(crate) struct Setting<'x> {
    pub alloc: Global,
    /// The folder of packages.
    pub packages: &'x str,
    /// The most bytes that a theory file may have.
    pub max_bytes: usize,
}

/// Whether a tag names a package.
pub(crate) fn is_requirement(tag: &Tag<'_>) -> bool
    ensures { result ≡ is_requirement (tag_of tag.now) }
{
    tag.key == b"requires".as_slice()
}

/// The tags among these that name packages, the first one last.
pub(crate) fn requirements_of<'a>(
    alloc: Global,
    index: &Index<'a>,
    tags: &[Tag<'_>],
) -> Result<Vec<Requirement<'a>>, Memory>
    requires { IsIndex index.now }
    ensures edges { IfOk result (λ rs. (path : List ℕ) → map (edge_at path) (reverse rs.items)
        ≡ map (edge_of (listed_in index.now) path) (filter is_requirement (tags_of tags.now))) }
    ensures listed { IfOk result (λ rs. AreListed (listed_in index.now) rs.items) }
{
    let mut found = Vec::new(alloc);
    'each: for tag in tags {
        if is_requirement(tag) {
            let requirement = Requirement {
                line: tag.line,
                full: index.pick(tag.value),
            };
            found.push(requirement)?;
        }
    }
    found.reverse();
    Ok(found)
}

/// The theory file of a package.
pub(crate) fn package_file<'a, F: Files>(
    setting: Setting<'_>,
    files: &mut F,
    index: &Index<'a>,
    full: &[u8],
) -> Result<File<'a>, RepoFault>
    requires index { IsIndex index.now }
    requires full { is_package full.now ≡ true }
    ensures edges { HasReadFiles (F.folder files.old) (λ folder. IsAsStated edges_left result
        (edges_of folder setting.entry.max_bytes setting.entry.packages.now
        (listed_in index.now) full.now)) }
    ensures listed { IfOk result (λ file. AreListed (listed_in index.now) file.left.items) }
    ensures cause { IfErr result (λ e. HasCause e (F.misses files.old) (F.misses files.new)
        (F.faults files.old) (F.faults files.new) (F.at files.new)) }
    ensures kept { KeepsFiles F.folder F.faults F.misses files.old files.new }
    ensures failure { IfErr result (FailsAt (λ failed. failed ≡ package_path setting.entry.packages.now full.now)) }
{
    let alloc = setting.alloc;
    let path = package_path(alloc, setting.packages, full)?;
    let text = theory_text(alloc, files, &path, setting.max_bytes)?;
    let theory = theory_in(alloc, &path, &text)?;
    let left = requirements_of(alloc, index, &theory.tags)?;
    Ok(File { path, left })
}
