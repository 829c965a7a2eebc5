ghost use Rattle.ot_logic.specs.RanOut.{ran_out};

use ot_blocks::StructureFault;
use ot_logic::Memory as NoMemory;
use ot_machine::Fault;
use ot_theory::TheoryFault;
use std::alloc::{AllocError, AllocFailed};

/// Why a link isn't run to its end. A path is that of the file at fault.
#[derive(Drop)]
pub enum LinkFault {
    /// The first fault of an article, which is never running out of memory.
    Article {
        path: String,
        line: u64,
        fault: Fault,
    },
    /// The first fault of a theory file's grammar.
    Theory {
        path: String,
        line: u64,
        fault: TheoryFault,
    },
    /// The first fault of what the blocks of a theory file ask for.
    Structure {
        path: String,
        line: u64,
        fault: StructureFault,
    },
    /// A theory file has more bytes than the limit.
    TheoryTooLarge {
        path: String,
    },
    /// There is no such file.
    NoFile {
        path: String,
    },
    /// The file could not be read.
    ReadFault {
        path: String,
    },
    Memory(NoMemory),
}

impl From<NoMemory> for LinkFault {
    ghost use Rattle.std.specs.Prelude.{◌≡◌};
    ghost use Rattle.ot_link.specs.declared.fault.LinkFault.TheVariants.{Memory};

    ghost from_gives = { λ _ r. r ≡ Memory ran_out };

    fn from(memory: NoMemory) -> LinkFault {
        LinkFault::Memory(memory)
    }
}

impl From<AllocError> for LinkFault {
    ghost use Rattle.std.specs.Prelude.{◌≡◌};
    ghost use Rattle.ot_link.specs.declared.fault.LinkFault.TheVariants.{Memory};

    ghost from_gives = { λ _ r. r ≡ Memory ran_out };

    fn from(refused: AllocError) -> LinkFault {
        LinkFault::Memory(NoMemory::from(refused))
    }
}

impl<T: Drop> From<AllocFailed<T>> for LinkFault {
    ghost use Rattle.std.specs.Prelude.{◌≡◌};
    ghost use Rattle.ot_link.specs.declared.fault.LinkFault.TheVariants.{Memory};

    ghost from_gives = { λ _ r. r ≡ Memory ran_out };

    fn from(refused: AllocFailed<T>) -> LinkFault {
        LinkFault::Memory(NoMemory::from(refused))
    }
}
