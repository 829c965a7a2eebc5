ghost use Rattle.ot_logic.specs.RanOut.{ran_out};

use ot_logic::Memory;
use std::alloc::{AllocError, AllocFailed};

/// Why a table has no number for a type or a term.
#[derive(Clone, Copy, Debug, PartialEq, Eq)]
pub enum TableFault {
    /// The type or the term would be nested deeper than 4,096.
    Nesting,
    /// Memory ran out.
    Memory(Memory),
}

impl From<Memory> for TableFault {
    ghost use Rattle.std.specs.Prelude.{◌≡◌};
    ghost use Rattle.ot_type.specs.declared.fault.TableFault.TheVariants.{Memory};

    ghost from_gives = { λ _ r. r ≡ Memory ran_out };

    fn from(memory: Memory) -> TableFault {
        TableFault::Memory(memory)
    }
}

impl<T: Drop> From<AllocFailed<T>> for TableFault {
    ghost use Rattle.std.specs.Prelude.{◌≡◌};
    ghost use Rattle.ot_type.specs.declared.fault.TableFault.TheVariants.{Memory};

    ghost from_gives = { λ _ r. r ≡ Memory ran_out };

    fn from(refused: AllocFailed<T>) -> TableFault {
        TableFault::Memory(Memory::from(refused))
    }
}

impl From<AllocError> for TableFault {
    ghost use Rattle.std.specs.Prelude.{◌≡◌};
    ghost use Rattle.ot_type.specs.declared.fault.TableFault.TheVariants.{Memory};

    ghost from_gives = { λ _ r. r ≡ Memory ran_out };

    fn from(refused: AllocError) -> TableFault {
        TableFault::Memory(Memory::from(refused))
    }
}
