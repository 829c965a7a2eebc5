ghost use Rattle.std.specs.Prelude.{◌≡◌};
ghost use Rattle.ot_theory.specs.Reading.{error_at};
ghost use Rattle.ot_theory.specs.declared.fault.Refusal.TheVariants as refusals;
ghost use Rattle.ot_logic.specs.RanOut.{ran_out};

use ot_logic::Memory as NoMemory;
use std::alloc::AllocFailed;

/// What is wrong with a line of a theory file, by the theory file format.
#[derive(Clone, Copy, PartialEq, Eq)]
pub enum TheoryFault {
    /// No statement, opening or closing; or an `import:` of no identifier, or an `article:` of no
    /// quoted path.
    BadLine,
    /// A closing outside the blocks, an opening in a block, or a block that isn't closed.
    BadBlock,
    /// The opening of a block that was there.
    DuplicateBlock,
    /// A second `article:` or `package:` in a block.
    TwoSources,
    /// There is no block `main`.
    NoMain,
    /// An `interpret:` of another form.
    BadInterpret,
    /// A second `interpret:` in a block for one kind and one name.
    DuplicateInterpret,
}

/// Why a text gave no theory.
#[derive(Clone, Copy, PartialEq, Eq)]
pub enum TheoryError {
    /// The first fault. Lines are counted from 1; line 0 is that of an empty text.
    At { line: u64, fault: TheoryFault },
    Memory(NoMemory),
}

/// Why a line was refused.
#[derive(Clone, Copy)]
pub(crate) enum Refusal {
    Fault(TheoryFault),
    Memory(NoMemory),
}

impl<T: Drop> From<AllocFailed<T>> for Refusal {
    ghost from_gives = { λ _ r. r ≡ refusals.Memory ran_out };

    fn from(refused: AllocFailed<T>) -> Refusal {
        Refusal::Memory(NoMemory::from(refused))
    }
}

impl From<NoMemory> for Refusal {
    ghost from_gives = { λ _ r. r ≡ refusals.Memory ran_out };

    fn from(memory: NoMemory) -> Refusal {
        Refusal::Memory(memory)
    }
}

/// The error of a refusal at a line.
pub(crate) fn refused(line: u64, refusal: Refusal) -> TheoryError
    ensures { result ≡ error_at line refusal }
{
    match refusal {
        Refusal::Fault(fault) => TheoryError::At { line, fault },
        Refusal::Memory(memory) => TheoryError::Memory(memory),
    }
}
