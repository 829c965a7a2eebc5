//! A search among the exports of several sources.
ghost use Rattle.std.specs.Prelude.{◌≡◌, ◌<◌, ◌+◌, ◌++◌, List, [], codes, length, map, OnOk, OnErr, Err};
ghost use Rattle.std.specs.List.{All};
ghost use Rattle.ot_logic.specs.Naming.{names};
ghost use Rattle.ot_logic.specs.PlainTrees.{term_of_tree};
ghost use Rattle.ot_kernel.specs.State.{theorem_at};
ghost use Rattle.ot_text.specs.Pages.{IsPut, printed, Appended};
ghost use Rattle.ot_text.specs.Texts.{number_text};
ghost use Rattle.ot_match.specs.Matching.{matched};
ghost use Rattle.ot_match.specs.Found.{types_of, terms_of, IsMatchIn};
ghost use Rattle.ot_find.specs.Matches.{Found, found, matches_in};
ghost use Rattle.ot_find.specs.Texts.{found_text, find_text, HasFound};

use crate::lines::{InMatch, put_pairs};
use ot_kernel::{Kernel, ThmId};
use ot_logic::{Memory, Tm};
use ot_match::{Match, find_match};
use ot_print::InKernel;
use ot_text::{Page, PrintFault, Printable};
use std::alloc::Global;

/// The matches that were found so far: their text, and how many they are.
#[derive(Drop)]
pub struct Search {
    // The text of the matches.
    page: Page,
    // How many there are, as long as the page isn't stopped.
    count: usize,
    // How many bytes the whole text may have.
    max: usize,
}

impl Search {
    /// A search that has found nothing, for a text of at most `max` bytes.
    pub fn new(alloc: Global, max: usize) -> Search
        ensures found { HasFound result [] }
        ensures max { result.max ≡ max }
    {
        let page = Page::new(alloc, max);
        Search {
            page,
            count: 0,
            max,
        }
    }

    /// Goes on with a source: finds those of its theorems, in order, whose conclusion the pattern matches.
    pub fn add(
        &mut self,
        alloc: Global,
        kernel: &Kernel,
        source: &[u8],
        theorems: &[ThmId],
        pattern: &Tm,
    )
        requires { All (λ th. th < length kernel.now.theorems) theorems.now }
        ensures found { (fs : List Found) → HasFound self.old fs
            → HasFound self.new (fs
            ++ matches_in (term_of_tree pattern.now) source.now (map (theorem_at kernel.now) theorems.now)) }
        ensures max { self.new.max ≡ self.old.max }
    {
        for th in theorems {
            self.add_theorem(alloc, kernel, source, *th, pattern);
        }
    }

    /// A theorem, if the pattern matches its conclusion.
    fn add_theorem(
        &mut self,
        alloc: Global,
        kernel: &Kernel,
        source: &[u8],
        th: ThmId,
        pattern: &Tm,
    )
        requires { th < length kernel.now.theorems }
        ensures found { (fs : List Found) → HasFound self.old fs
            → HasFound self.new (fs
            ++ found source.now (theorem_at kernel.now th)
            (matched names (term_of_tree pattern.now) (theorem_at kernel.now th).concl)) }
        ensures max { self.new.max ≡ self.old.max }
    {
        if self.page.is_stopped() {
            return;
        }
        match find_match(alloc, kernel, pattern, kernel.concl(th)) {
            Ok(Some(maps)) => {
                put_found(&mut self.page, alloc, kernel, source, th, &maps);
                self.count = one_more(self.count, self.max);
            }
            Ok(None) => {}
            Err(memory) => self.page.stop(PrintFault::Memory(memory)),
        }
    }

    /// Appends how many matches were found, and for each its source, its sequent, and what stands for the pattern's
    /// variables: the types and then the terms, both in the order of the bytes of their lines. `TooLarge` exactly where
    /// the text has more than the search's limit. After a refusal `out` is as it was.
    pub fn finish(self, alloc: Global, out: &mut Vec<u8>) -> Result<(), PrintFault>
        ensures ok { (fs : List Found) → HasFound self fs
            → OnOk result (Appended (find_text fs) self.max out.old.items out.new.items) }
        ensures too_large { (fs : List Found) → HasFound self fs → result ≡ Err PrintFault.TooLarge
            → self.max < length (find_text fs) }
        ensures err { OnErr result (out.new.items ≡ out.old.items) }
    {
        let mut matches = Vec::new(alloc);
        self.page.finish(&mut matches)?;
        append_counted(alloc, self.count, matches.as_slice(), self.max, out)
    }
}

/// One match more. Each has bytes of its own in the text, so there are never more than the text's limit.
fn one_more(count: usize, max: usize) -> usize
    ensures { count < max → result ≡ count + 1 }
{
    if count < max { count + 1 } else { count }
}

/// Appends how many matches there are, and their text.
fn append_counted(
    alloc: Global,
    count: usize,
    matches: &[u8],
    max: usize,
    out: &mut Vec<u8>,
) -> Result<(), PrintFault>
    ensures ok { OnOk result (Appended (codes "matches: " ++ number_text count ++ codes "\n" ++ matches.now)
        max out.old.items out.new.items) }
    ensures too_large { result ≡ Err PrintFault.TooLarge
        → max < length (codes "matches: " ++ number_text count ++ codes "\n" ++ matches.now) }
    ensures err { OnErr result (out.new.items ≡ out.old.items) }
{
    let mut page = Page::new(alloc, max);
    page.put(b"matches: ");
    page.put_number(count);
    page.put(b"\n");
    page.put(matches);
    page.finish(out)
}

/// A match: its source and its sequent, and what stands for the pattern's variables.
fn put_found(
    page: &mut Page,
    alloc: Global,
    kernel: &Kernel,
    source: &[u8],
    th: ThmId,
    maps: &Match,
)
    requires th { th < length kernel.now.theorems }
    requires maps { IsMatchIn kernel.now maps.now }
    ensures { IsPut (found_text (record {
      source = source.now;
      sequent = theorem_at kernel.now th;
      types = types_of kernel.now maps.now.types.items;
      vars = terms_of kernel.now maps.now.vars.items;
    }))
        (printed page.old) (printed page.new) }
{
    page.put(b"  ");
    page.put(source);
    page.put(b": ");
    th.put(page, alloc, &InKernel { kernel });
    page.put(b"\n");
    put_pairs(page, alloc, &InMatch { kernel }, &maps.types);
    put_pairs(page, alloc, &InMatch { kernel }, &maps.vars);
}
