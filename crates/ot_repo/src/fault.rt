ghost use Rattle.ot_logic.specs.RanOut.{ran_out};

use ot_logic::Memory as NoMemory;
use ot_theory::TheoryFault;
use std::alloc::{AllocError, AllocFailed};

/// Why the required packages aren't found. A path is that of the file at fault.
#[derive(Drop)]
pub enum RepoFault {
    /// The first fault of a theory file's grammar.
    Theory {
        path: String,
        line: u64,
        fault: TheoryFault,
    },
    /// A theory file has more bytes than the limit.
    TheoryTooLarge {
        path: String,
    },
    /// The list of installed packages has more than 1,048,576 bytes.
    IndexTooLarge {
        path: String,
    },
    /// A line of the list of installed packages is no package's full name.
    BadIndex {
        path: String,
        line: u64,
    },
    /// A `requires:` tag that no installed package answers to.
    NotInstalled {
        path: String,
        line: u64,
    },
    /// A `requires:` tag that leads back to a package on the way to it.
    RequiresCycle {
        path: String,
        line: u64,
    },
    /// There is no such file.
    NoFile {
        path: String,
    },
    /// The file could not be read.
    ReadFault {
        path: String,
    },
    Memory(NoMemory),
}

impl From<NoMemory> for RepoFault {
    ghost use Rattle.std.specs.Prelude.{◌≡◌};
    ghost use Rattle.ot_repo.specs.declared.fault.RepoFault.TheVariants.{Memory};

    ghost from_gives = { λ _ r. r ≡ Memory ran_out };

    fn from(memory: NoMemory) -> RepoFault {
        RepoFault::Memory(memory)
    }
}

impl From<AllocError> for RepoFault {
    ghost use Rattle.std.specs.Prelude.{◌≡◌};
    ghost use Rattle.ot_repo.specs.declared.fault.RepoFault.TheVariants.{Memory};

    ghost from_gives = { λ _ r. r ≡ Memory ran_out };

    fn from(refused: AllocError) -> RepoFault {
        RepoFault::Memory(NoMemory::from(refused))
    }
}

impl<T: Drop> From<AllocFailed<T>> for RepoFault {
    ghost use Rattle.std.specs.Prelude.{◌≡◌};
    ghost use Rattle.ot_repo.specs.declared.fault.RepoFault.TheVariants.{Memory};

    ghost from_gives = { λ _ r. r ≡ Memory ran_out };

    fn from(refused: AllocFailed<T>) -> RepoFault {
        RepoFault::Memory(NoMemory::from(refused))
    }
}
