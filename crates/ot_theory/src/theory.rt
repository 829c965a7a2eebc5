ghost use Rattle.std.specs.Prelude.{◌≡◌, IfOk};
ghost use Rattle.ot_theory.specs.Theory.{theory};
ghost use Rattle.ot_theory.specs.Sound.{IsSound};
ghost use Rattle.ot_theory.specs.Answers.{Parses, theory_of};

use crate::fault::{TheoryError, refused};
use crate::lines::next_line;
use crate::reading::Reading;
use std::alloc::Global;

/// A statement, which outside a block is a tag.
#[derive(Clone, Copy)]
pub struct Tag<'a> {
    /// The number of its line, counted from 1.
    pub line: u64,
    pub key: &'a [u8],
    /// Without blanks at its ends.
    pub value: &'a [u8],
}

/// A block.
#[derive(Drop)]
pub struct Block<'a> {
    /// The number of the line that opens it.
    pub line: u64,
    pub name: &'a [u8],
    /// In the order of their lines.
    pub statements: Vec<Tag<'a>>,
}

/// A theory file. Its slices are parts of the file's text.
#[derive(Drop)]
pub struct Theory<'a> {
    /// The statements outside the blocks, in the order of their lines.
    pub tags: Vec<Tag<'a>>,
    /// In the order of their lines.
    pub blocks: Vec<Block<'a>>,
}

/// The theory file that a text is, by the theory file format. `At` comes exactly with the first fault
/// in the order of lines and its line; where the last block isn't closed, with the line that opens it,
/// and where `main` is missing, with that of the last line. Of each theory there is a block `main`, no
/// two blocks have one name, a block has one `article:` or `package:` at most and no two `interpret:`
/// for one symbol, and in the blocks the value of each `import:` is an identifier, that of each
/// `article:` a quoted path, and that of each `interpret:` can be split, and no value has a newline.
pub fn parse(alloc: Global, text: &[u8]) -> Result<Theory<'_>, TheoryError>
    ensures theory { Parses result (theory text.now) }
    ensures sound { IfOk result (λ t. IsSound (theory_of t)) }
{
    read(alloc, text)
}

fn read(alloc: Global, text: &[u8]) -> Result<Theory<'_>, TheoryError>
    ensures { Parses result (theory text.now) }
{
    let mut reading = Reading::new(alloc);
    let mut current = None;
    let mut at = 0;
    let mut number = 0;
    'lines: while let Some(line) = next_line(text, &mut at, &mut number) {
        match reading.read_line(alloc, current, line) {
            Ok(next) => current = next,
            Err(refusal) => return Err(refused(line.number, refusal)),
        }
    }
    reading.finish(current, number)
}
