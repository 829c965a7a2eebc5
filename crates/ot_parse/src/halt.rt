ghost use Rattle.std.specs.Prelude.{◌≡◌};
ghost use Rattle.ot_parse.specs.declared.halt.Halt.TheVariants.{Memory as OutOfMemory};
ghost use Rattle.ot_logic.specs.RanOut.{ran_out};

use ot_logic::Memory;
use std::alloc::{AllocError, AllocFailed};

/// Why reading stops, with the bytes from there on.
#[derive(Clone, Copy, Debug)]
pub(crate) enum Halt<'a> {
    /// No text of the forms goes on with the next byte.
    Syntax(&'a [u8]),
    /// The next byte opens one parenthesis or brace too many.
    TooManyOpen(&'a [u8]),
    Memory(Memory),
}

impl From<AllocError> for Halt<'_> {
    ghost from_gives = { λ _ e. e ≡ OutOfMemory ran_out };

    fn from(refused: AllocError) -> Self {
        Halt::Memory(Memory::from(refused))
    }
}

impl<T: Drop> From<AllocFailed<T>> for Halt<'_> {
    ghost from_gives = { λ _ e. e ≡ OutOfMemory ran_out };

    fn from(refused: AllocFailed<T>) -> Self {
        Halt::Memory(Memory::from(refused))
    }
}

impl From<Memory> for Halt<'_> {
    ghost from_gives = { λ _ e. e ≡ OutOfMemory ran_out };

    fn from(memory: Memory) -> Self {
        Halt::Memory(memory)
    }
}
