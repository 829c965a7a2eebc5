//! Why a definition is refused.
ghost use Rattle.std.specs.Prelude.{◌≡◌};
ghost use Rattle.ot_define.specs.declared.fault.DefineFault.TheVariants.{Memory as OutOfMemory};
ghost use Rattle.ot_logic.specs.RanOut.{ran_out};

use ot_logic::Memory;
use ot_term::Symbol;
use std::alloc::{AllocError, AllocFailed};

/// Why a definition is refused, by the rules of the article format.
#[derive(Clone, Copy, Debug, PartialEq, Eq)]
pub enum DefineFault {
    /// A name or a variable stands twice, or the hypotheses do not give each variable exactly one term.
    BadDefinitionList,
    /// The theorem has hypotheses.
    HypothesesPresent,
    /// The conclusion is no application.
    NotApplication,
    /// A name stands twice, or a type variable of the predicate is not listed.
    BadTypeVars,
    /// The symbol has a meaning of its own.
    Primitive(Symbol),
    /// The symbol was defined before, or stands twice.
    AlreadyDefined(Symbol),
    /// The symbol occurs in the premise, or in an earlier definition.
    SymbolInUse(Symbol),
    /// A variable is free.
    NotClosed,
    /// A type variable of the term is not in its type.
    TypeVarEscapes,
    /// Memory ran out.
    Memory(Memory),
}

impl From<Memory> for DefineFault {
    ghost from_gives = { λ _ r. r ≡ OutOfMemory ran_out };

    fn from(memory: Memory) -> DefineFault {
        DefineFault::Memory(memory)
    }
}

impl<T: Drop> From<AllocFailed<T>> for DefineFault {
    ghost from_gives = { λ _ r. r ≡ OutOfMemory ran_out };

    fn from(refused: AllocFailed<T>) -> DefineFault {
        DefineFault::Memory(Memory::from(refused))
    }
}

impl From<AllocError> for DefineFault {
    ghost from_gives = { λ _ r. r ≡ OutOfMemory ran_out };

    fn from(refused: AllocError) -> DefineFault {
        DefineFault::Memory(Memory::from(refused))
    }
}
