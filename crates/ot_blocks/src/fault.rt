ghost use Rattle.ot_logic.specs.RanOut.{ran_out};

use ot_logic::Memory;
use std::alloc::{AllocError, AllocFailed};

/// What is wrong with the blocks of a theory file, by the theory file format.
#[derive(Clone, Copy, PartialEq, Eq)]
pub enum StructureFault {
    /// An `import:` of a block that isn't there.
    UnknownImport,
    /// A `package:` whose value is no package's full name.
    BadPackageName,
    /// An import that leads back to a block on the way to it.
    ImportCycle,
    /// A `package:` that names a package which is being run.
    PackageCycle,
    /// A `package:` in too many packages, each named in the one before.
    PackageDepth,
}

/// Why blocks have no plan.
#[derive(Clone, Copy, PartialEq, Eq)]
pub enum PlanFault {
    /// The first fault, and its line.
    At { line: u64, fault: StructureFault },
    Memory(Memory),
}

impl From<AllocError> for PlanFault {
    ghost use Rattle.std.specs.Prelude.{◌≡◌};
    ghost use Rattle.ot_blocks.specs.declared.fault.PlanFault.TheVariants.{Memory};

    ghost from_gives = { λ _ r. r ≡ Memory ran_out };

    fn from(refused: AllocError) -> PlanFault {
        PlanFault::Memory(Memory::from(refused))
    }
}

impl<T: Drop> From<AllocFailed<T>> for PlanFault {
    ghost use Rattle.std.specs.Prelude.{◌≡◌};
    ghost use Rattle.ot_blocks.specs.declared.fault.PlanFault.TheVariants.{Memory};

    ghost from_gives = { λ _ r. r ≡ Memory ran_out };

    fn from(refused: AllocFailed<T>) -> PlanFault {
        PlanFault::Memory(Memory::from(refused))
    }
}
