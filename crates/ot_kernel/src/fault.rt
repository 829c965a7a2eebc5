ghost use Rattle.std.specs.Prelude.{◌≡◌};
ghost use Rattle.ot_kernel.specs.declared.fault.RuleFault.TheVariants.{Memory as OutOfMemory};
ghost use Rattle.ot_kernel.specs.Refusals.{of_define, of_table, of_term, of_subst};
ghost use Rattle.ot_logic.specs.RanOut.{ran_out};

use ot_define::DefineFault;
use ot_logic::Memory;
use ot_subst::SubstFault;
use ot_term::TermFault;
use ot_type::TableFault;
use std::alloc::{AllocError, AllocFailed};

/// Why a rule gives no theorem.
#[derive(Clone, Copy, Debug, PartialEq, Eq)]
pub enum RuleFault {
    /// The term isn't of the type of propositions.
    NotBool,
    /// The conclusion is no equation.
    NotEquation,
    /// Two terms differ, not only in the names of binders.
    NotAlphaEqual,
    /// The sides of the equation are no functions.
    NotFunction,
    /// The argument has another type than the function takes.
    ArgumentType,
    /// The variable is free in a hypothesis.
    VarFreeInHyps,
    /// The term is no abstraction applied to a term.
    NotRedex,
    /// The theorem would pass the nesting limit.
    Nesting,
    /// The definition is refused.
    Define(DefineFault),
    /// Memory ran out.
    Memory(Memory),
}

impl From<Memory> for RuleFault {
    ghost from_gives = { λ _ r. r ≡ OutOfMemory ran_out };

    fn from(memory: Memory) -> RuleFault {
        RuleFault::Memory(memory)
    }
}

impl<T: Drop> From<AllocFailed<T>> for RuleFault {
    ghost from_gives = { λ _ r. r ≡ OutOfMemory ran_out };

    fn from(refused: AllocFailed<T>) -> RuleFault {
        RuleFault::Memory(Memory::from(refused))
    }
}

impl From<AllocError> for RuleFault {
    ghost from_gives = { λ _ r. r ≡ OutOfMemory ran_out };

    fn from(refused: AllocError) -> RuleFault {
        RuleFault::Memory(Memory::from(refused))
    }
}

impl From<TableFault> for RuleFault {
    ghost from_gives = { λ e r. r ≡ of_table e };

    fn from(fault: TableFault) -> RuleFault {
        match fault {
            TableFault::Nesting => RuleFault::Nesting,
            TableFault::Memory(memory) => RuleFault::Memory(memory),
        }
    }
}

impl From<TermFault> for RuleFault {
    ghost from_gives = { λ e r. r ≡ of_term e };

    fn from(fault: TermFault) -> RuleFault {
        match fault {
            TermFault::NotFunction => RuleFault::NotFunction,
            TermFault::ArgumentType => RuleFault::ArgumentType,
            TermFault::Nesting => RuleFault::Nesting,
            TermFault::Memory(memory) => RuleFault::Memory(memory),
        }
    }
}

impl From<SubstFault> for RuleFault {
    ghost from_gives = { λ e r. r ≡ of_subst e };

    fn from(fault: SubstFault) -> RuleFault {
        match fault {
            SubstFault::Nesting => RuleFault::Nesting,
            SubstFault::NotRedex => RuleFault::NotRedex,
            SubstFault::Memory(memory) => RuleFault::Memory(memory),
        }
    }
}

impl From<DefineFault> for RuleFault {
    ghost from_gives = { λ e r. r ≡ of_define e };

    fn from(fault: DefineFault) -> RuleFault {
        match fault {
            DefineFault::Memory(memory) => RuleFault::Memory(memory),
            _ => RuleFault::Define(fault),
        }
    }
}
