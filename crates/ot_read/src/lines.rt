//! The sequents that the lines of a text stand for.
ghost use Rattle.std.specs.Prelude.{◌≡◌, Ok, map, IfOk, IfErr};
ghost use Rattle.ot_parse.specs.Plain.{sequent_of};
ghost use Rattle.ot_theory.specs.Lines.{lines_of};
ghost use Rattle.ot_logic.specs.RanOut.{ran_out};
ghost use Rattle.ot_read.specs.declared.lines.LineRefusal.TheVariants.{Memory as OutOfMemory};
ghost use Rattle.ot_read.specs.Lines.{line_read, at_line, lines_read, IsLineRefusal};

use crate::laws::as_the_forms_say;
use ot_logic::Memory;
use ot_parse::{Notation, ReadRefusal, Readable, TextFault, read_sequent};
use ot_theory::next_line;
use std::alloc::{AllocError, AllocFailed, Global};

/// Why the lines of a text aren't read.
#[derive(Clone, Copy)]
pub enum LineRefusal {
    /// The first line that is refused, by its number, and its column, both from 1.
    At {
        line: u64,
        column: u64,
        fault: TextFault,
    },
    /// Memory ran out.
    Memory(Memory),
}

impl From<Memory> for LineRefusal {
    ghost from_gives = { λ _ f. f ≡ OutOfMemory ran_out };

    fn from(memory: Memory) -> LineRefusal {
        LineRefusal::Memory(memory)
    }
}

impl From<AllocError> for LineRefusal {
    ghost from_gives = { λ _ f. f ≡ OutOfMemory ran_out };

    fn from(refused: AllocError) -> LineRefusal {
        LineRefusal::Memory(Memory::from(refused))
    }
}

impl<T: Drop> From<AllocFailed<T>> for LineRefusal {
    ghost from_gives = { λ _ f. f ≡ OutOfMemory ran_out };

    fn from(refused: AllocFailed<T>) -> LineRefusal {
        LineRefusal::Memory(Memory::from(refused))
    }
}

/// The sequents that the lines of a text stand for under this notation, in order. Lines end at a line feed, are
/// trimmed, and are passed over where they are empty or begin with `#`. The first line that is refused counts, with
/// the refusal of [`read_sequent`].
pub fn read_lines(
    alloc: Global,
    notation: &Notation,
    text: &[u8],
) -> Result<Vec<Readable>, LineRefusal>
    ensures ok { IfOk result (λ read. lines_read notation.now (lines_of text.now) ≡ Ok (map sequent_of read.items)) }
    ensures refused { IfErr result (IsLineRefusal (lines_read notation.now (lines_of text.now))) }
{
    let mut read = Vec::new(alloc);
    let mut at = 0;
    let mut number = 0;
    'lines: while let Some(line) = next_line(text, &mut at, &mut number) {
        let sequent = line_at(alloc, notation, line.number, line.text)?;
        read.push(sequent)?;
    }
    Ok(read)
}

/// The sequent that the line with this number stands for.
fn line_at(
    alloc: Global,
    notation: &Notation,
    number: u64,
    text: &[u8],
) -> Result<Readable, LineRefusal>
    ensures ok { IfOk result (λ read. line_read notation.now text.now ≡ Ok (sequent_of read)) }
    ensures refused { IfErr result (IsLineRefusal (at_line number (line_read notation.now text.now))) }
{
    notation.sound();
    as_the_forms_say();
    match read_sequent(alloc, notation, text) {
        Ok(sequent) => Ok(sequent),
        Err(ReadRefusal::At { column, fault }) => Err(LineRefusal::At {
            line: number,
            column,
            fault,
        }),
        Err(ReadRefusal::Memory(memory)) => Err(LineRefusal::Memory(memory)),
    }
}
