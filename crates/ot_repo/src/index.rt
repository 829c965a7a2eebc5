//! The list of installed packages.
ghost use Rattle.std.specs.Prelude.{◌≡◌, IfOk, IfErr, true, map, List, ℕ};
ghost use Rattle.std.specs.Option.{option_map};
ghost use Rattle.ot_theory.specs.Lines.{lines_of};
ghost use Rattle.ot_blocks.specs.Paths.{is_package};
ghost use Rattle.ot_repo.specs.Required.{names_of, picked, picked_by_name};
ghost use Rattle.ot_repo.specs.Answers.{ArePackages, IsAsStated, IsOfContent};
ghost use Rattle.ot_repo.specs.Reading.{texts_of, listed_in, IsIndex, value_in};

use crate::fault::RepoFault;
use ot_blocks::{is_package, name_part};
use ot_logic::Memory;
use ot_theory::next_line;
use std::alloc::Global;
use std::collections::HashMap;

/// The list of installed packages.
#[derive(Drop)]
pub(crate) struct Index<'a> {
    /// The full names, in the order of their lines.
    names: Vec<&'a [u8]>,
    /// The full name that a value picks.
    picks: HashMap<&'a [u8], &'a [u8]>,
}

impl<'a> Index<'a> {
    /// The list that the file of this path has.
    pub fn read(alloc: Global, path: &str, text: &'a [u8]) -> Result<Index<'a>, RepoFault>
        ensures names { IsAsStated listed_in result (names_of path.now (lines_of text.now)) }
        ensures index { IfOk result IsIndex }
        ensures inside { IfErr result IsOfContent }
    {
        let names = full_names(alloc, path, text)?;
        let picks = picks_of(alloc, &names)?;
        Ok(Index { names, picks })
    }

    /// The full name that a value picks: itself, where it is listed, or else the last one that has
    /// it as its name.
    pub fn pick(&self, value: &[u8]) -> Option<&'a [u8]>
        requires { IsIndex self.now }
        ensures { option_map (λ full. full.now) result ≡ picked (listed_in self.now) value.now }
    {
        self.picks.get(value).copied()
    }
}

/// The full names in the lines of a text.
fn full_names<'a>(alloc: Global, path: &str, text: &'a [u8]) -> Result<Vec<&'a [u8]>, RepoFault>
    ensures names { IsAsStated (λ names. texts_of names.items) result
        (names_of path.now (lines_of text.now)) }
    ensures full { IfOk result (λ names. ArePackages (texts_of names.items)) }
    ensures inside { IfErr result IsOfContent }
{
    let mut names = Vec::new(alloc);
    let mut at = 0;
    let mut number = 0;
    'lines: while let Some(line) = next_line(text, &mut at, &mut number) {
        if !is_package(line.text) {
            let path = String::from_str(alloc, path)?;
            return Err(RepoFault::BadIndex {
                path,
                line: line.number,
            });
        }
        names.push(line.text)?;
    }
    Ok(names)
}

/// What each value picks among full names.
fn picks_of<'a>(alloc: Global, names: &[&'a [u8]]) -> Result<HashMap<&'a [u8], &'a [u8]>, Memory>
    ensures { IfOk result (λ picks. (value : List ℕ)
        → value_in picks value ≡ picked (texts_of names.now) value) }
{
    let mut picks = last_of_each_name(alloc, names)?;
    'each: for full in names {
        picks.insert(*full, *full)?;
    }
    Ok(picks)
}

/// The last full name of each name.
fn last_of_each_name<'a>(
    alloc: Global,
    names: &[&'a [u8]],
) -> Result<HashMap<&'a [u8], &'a [u8]>, Memory>
    ensures { IfOk result (λ picks. (value : List ℕ)
        → value_in picks value ≡ picked_by_name (texts_of names.now) value) }
{
    let mut picks = HashMap::new(alloc);
    'each: for full in names {
        picks.insert(name_part(full), *full)?;
    }
    Ok(picks)
}
