//! Why a substitution is not put in.
ghost use Rattle.ot_logic.specs.RanOut.{ran_out};

use ot_logic::Memory;
use ot_type::TableFault;

/// Why there is no result of a substitution or of beta.
#[derive(Clone, Copy, Debug, PartialEq, Eq)]
pub enum SubstFault {
    /// The result would pass the nesting limit.
    Nesting,
    /// The term is no abstraction applied to a term.
    NotRedex,
    /// Memory ran out.
    Memory(Memory),
}

impl From<Memory> for SubstFault {
    ghost use Rattle.std.specs.Prelude.{◌≡◌};
    ghost use Rattle.ot_subst.specs.declared.fault.SubstFault.TheVariants.{Memory};

    ghost from_gives = { λ _ r. r ≡ Memory ran_out };

    fn from(memory: Memory) -> SubstFault {
        SubstFault::Memory(memory)
    }
}

impl From<TableFault> for SubstFault {
    ghost use Rattle.std.specs.Prelude.{◌≡◌};
    ghost use Rattle.ot_subst.specs.Fault.{subst_fault};

    ghost from_gives = { λ refused r. r ≡ subst_fault refused };

    fn from(refused: TableFault) -> SubstFault {
        match refused {
            TableFault::Nesting => SubstFault::Nesting,
            TableFault::Memory(memory) => SubstFault::Memory(memory),
        }
    }
}
