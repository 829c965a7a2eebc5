ghost use Rattle.std.specs.Prelude.{◌≡◌};
ghost use Rattle.ot_machine.specs.declared.fault.Fault.TheVariants.{Memory as OutOfMemory};
ghost use Rattle.ot_machine.specs.Conversions.{table_fault, term_fault, define_fault};
ghost use Rattle.ot_machine.specs.Conversions.{rule_fault, word_fault, article_fault, refusal};
ghost use Rattle.ot_logic.specs.RanOut.{ran_out};

use ot_define::DefineFault;
use ot_kernel::RuleFault;
use ot_logic::{Kind, Memory};
use ot_scan::{ScanFault, WordFault};
use ot_term::{Symbol, TermFault};
use ot_type::TableFault;
use std::alloc::{AllocError, AllocFailed};

/// Why a command is refused, by the rules of the article format.
#[derive(Clone, Copy, PartialEq, Eq)]
pub enum Fault {
    LineTooLong,
    ArticleTooLong,
    UnknownCommand,
    BadName,
    BadNumber,
    NumberRange,
    VersionUnsupported(i64),
    VersionLate,
    StackEmpty,
    /// The kind that is wanted, and the kind that was found.
    WrongKind(Kind, Kind),
    NoEntry(i64),
    EmptyList,
    NotFunction,
    ArgumentType,
    NotBool,
    NotEquation,
    NotAlphaEqual,
    VarFreeInHyps,
    NotRedex,
    BadSubst,
    /// A list of names and variables that is none, or that the premise doesn't fit.
    BadDefinitionList,
    HypothesesPresent,
    NotApplication,
    BadTypeVars,
    Primitive(Symbol),
    AlreadyDefined(Symbol),
    SymbolInUse(Symbol),
    NotClosed,
    TypeVarEscapes,
    ExportMismatch,
    Nesting,
    Memory(Memory),
}

impl From<Memory> for Fault {
    ghost from_gives = { λ _ f. f ≡ OutOfMemory ran_out };

    fn from(memory: Memory) -> Fault {
        Fault::Memory(memory)
    }
}

impl From<AllocError> for Fault {
    ghost from_gives = { λ _ f. f ≡ OutOfMemory ran_out };

    fn from(refused: AllocError) -> Fault {
        Fault::Memory(Memory::from(refused))
    }
}

impl<T: Drop> From<AllocFailed<T>> for Fault {
    ghost from_gives = { λ _ f. f ≡ OutOfMemory ran_out };

    fn from(refused: AllocFailed<T>) -> Fault {
        Fault::Memory(Memory::from(refused))
    }
}

impl From<TableFault> for Fault {
    ghost from_gives = { λ e f. f ≡ table_fault e };

    fn from(fault: TableFault) -> Fault {
        match fault {
            TableFault::Nesting => Fault::Nesting,
            TableFault::Memory(memory) => Fault::Memory(memory),
        }
    }
}

impl From<TermFault> for Fault {
    ghost from_gives = { λ e f. f ≡ term_fault e };

    fn from(fault: TermFault) -> Fault {
        match fault {
            TermFault::NotFunction => Fault::NotFunction,
            TermFault::ArgumentType => Fault::ArgumentType,
            TermFault::Nesting => Fault::Nesting,
            TermFault::Memory(memory) => Fault::Memory(memory),
        }
    }
}

impl From<DefineFault> for Fault {
    ghost from_gives = { λ e f. f ≡ define_fault e };

    fn from(fault: DefineFault) -> Fault {
        match fault {
            DefineFault::BadDefinitionList => Fault::BadDefinitionList,
            DefineFault::HypothesesPresent => Fault::HypothesesPresent,
            DefineFault::NotApplication => Fault::NotApplication,
            DefineFault::BadTypeVars => Fault::BadTypeVars,
            DefineFault::Primitive(symbol) => Fault::Primitive(symbol),
            DefineFault::AlreadyDefined(symbol) => Fault::AlreadyDefined(symbol),
            DefineFault::SymbolInUse(symbol) => Fault::SymbolInUse(symbol),
            DefineFault::NotClosed => Fault::NotClosed,
            DefineFault::TypeVarEscapes => Fault::TypeVarEscapes,
            DefineFault::Memory(memory) => Fault::Memory(memory),
        }
    }
}

impl From<RuleFault> for Fault {
    ghost from_gives = { λ e f. f ≡ rule_fault e };

    fn from(fault: RuleFault) -> Fault {
        match fault {
            RuleFault::NotBool => Fault::NotBool,
            RuleFault::NotEquation => Fault::NotEquation,
            RuleFault::NotAlphaEqual => Fault::NotAlphaEqual,
            RuleFault::NotFunction => Fault::NotFunction,
            RuleFault::ArgumentType => Fault::ArgumentType,
            RuleFault::VarFreeInHyps => Fault::VarFreeInHyps,
            RuleFault::NotRedex => Fault::NotRedex,
            RuleFault::Nesting => Fault::Nesting,
            RuleFault::Define(fault) => fault.into(),
            RuleFault::Memory(memory) => Fault::Memory(memory),
        }
    }
}

impl From<WordFault> for Fault {
    ghost from_gives = { λ e f. f ≡ word_fault e };

    fn from(fault: WordFault) -> Fault {
        match fault {
            WordFault::UnknownCommand => Fault::UnknownCommand,
            WordFault::BadName => Fault::BadName,
            WordFault::BadNumber => Fault::BadNumber,
            WordFault::NumberRange => Fault::NumberRange,
        }
    }
}

/// How the run of an article ends that isn't accepted.
#[derive(Clone, Copy)]
pub enum ArticleFault {
    /// The first fault, with its line. It is never running out of memory.
    At { line: u64, fault: Fault },
    /// The source failed in this call.
    ReadFault,
    Memory(Memory),
}

impl From<ScanFault> for ArticleFault {
    ghost from_gives = { λ e r. r ≡ article_fault e };

    fn from(fault: ScanFault) -> ArticleFault {
        match fault {
            ScanFault::LineTooLong(line) => ArticleFault::At {
                line,
                fault: Fault::LineTooLong,
            },
            ScanFault::ArticleTooLong(line) => ArticleFault::At {
                line,
                fault: Fault::ArticleTooLong,
            },
            ScanFault::ReadFault => ArticleFault::ReadFault,
        }
    }
}

/// The fault of a line; running out of memory has no line.
pub fn refusal(line: u64, fault: Fault) -> ArticleFault
    ensures { result ≡ refusal line fault }
{
    match fault {
        Fault::Memory(memory) => ArticleFault::Memory(memory),
        fault => ArticleFault::At { line, fault },
    }
}
