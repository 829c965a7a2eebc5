ghost use Rattle.std.specs.Prelude.{◌≡◌};
ghost use Rattle.ot_text.specs.declared.fault.PrintFault.TheVariants.{Memory as OutOfMemory};
ghost use Rattle.ot_logic.specs.RanOut.{ran_out};

use ot_logic::Memory;
use std::alloc::AllocFailed;

/// Why there is no text.
#[derive(Clone, Copy, Debug, PartialEq, Eq)]
pub enum PrintFault {
    /// The text has more bytes than the limit allows.
    TooLarge,
    /// Memory ran out.
    Memory(Memory),
}

impl<T: Drop> From<AllocFailed<T>> for PrintFault {
    ghost from_gives = { λ _ e. e ≡ OutOfMemory ran_out };

    fn from(refused: AllocFailed<T>) -> PrintFault {
        PrintFault::Memory(Memory::from(refused))
    }
}
