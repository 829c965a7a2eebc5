ghost use Rattle.std.specs.Prelude.{◌≡◌};
ghost use Rattle.ot_verify.specs.declared.fault.VerifyFault.TheVariants.{Memory as OutOfMemory};
ghost use Rattle.ot_logic.specs.RanOut.{ran_out};

use ot_logic::Memory;
use std::alloc::{AllocError, AllocFailed};

/// Why a log is refused.
#[derive(Clone, Copy, PartialEq, Eq)]
pub enum LogFault {
    LineTooLong,
    LogTooLong,
    BadToken,
    BadHeader,
    UnknownRecord,
    BadReference,
    BadStep,
    LogNesting,
    LogEnds,
}

/// Why a log isn't accepted.
#[derive(Clone, Copy)]
pub enum VerifyFault {
    /// The log is refused at this line.
    At { line: u64, fault: LogFault },
    /// The source failed.
    ReadFault,
    /// There was too little memory.
    Memory(Memory),
}

/// Why there is no text of what a log proves.
#[derive(Clone, Copy, PartialEq, Eq)]
pub enum VerifiedText {
    /// The text has more bytes than the limit allows.
    TooLarge,
    /// There was too little memory.
    Memory(Memory),
}

impl From<Memory> for VerifyFault {
    ghost from_gives = { λ _ f. f ≡ OutOfMemory ran_out };

    fn from(memory: Memory) -> VerifyFault {
        VerifyFault::Memory(memory)
    }
}

impl From<AllocError> for VerifyFault {
    ghost from_gives = { λ _ f. f ≡ OutOfMemory ran_out };

    fn from(refused: AllocError) -> VerifyFault {
        VerifyFault::Memory(Memory::from(refused))
    }
}

impl<T: Drop> From<AllocFailed<T>> for VerifyFault {
    ghost from_gives = { λ _ f. f ≡ OutOfMemory ran_out };

    fn from(refused: AllocFailed<T>) -> VerifyFault {
        VerifyFault::Memory(Memory::from(refused))
    }
}
