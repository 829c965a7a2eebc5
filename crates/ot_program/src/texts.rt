ghost use Rattle.std.specs.Prelude.{◌≡◌, ◌≢◌, ◌<◌, ◌++◌, length, IfOk, IsSomeAnd, OnOk, codes};
ghost use Rattle.std.specs.Fmt.{signed_decimal};
ghost use Rattle.ot_logic.specs.Renamed.{map_symbol};
ghost use Rattle.ot_logic.specs.RanOut.{ran_out};
ghost use Rattle.ot_kernel.specs.State.{name_at};
ghost use Rattle.ot_term.specs.Symbols.{symbol_of};
ghost use Rattle.ot_machine.specs.Faults.{fault_of};
ghost use Rattle.ot_machine.specs.Answers.{IsSymbolIn};
ghost use Rattle.ot_verify.specs.Taking.{fault_of as log_fault_of};
ghost use Rattle.ot_program.specs.Texts.{kind_text, symbol_text, fault_text, theory_fault_text, structure_fault_text};
ghost use Rattle.ot_program.specs.Texts.{log_fault_text, reading_fault_text, column_line, line_of, line_at, fault_line};
ghost use Rattle.ot_program.specs.Wording.{kind_word, line_start};

use ot_blocks::StructureFault;
use ot_kernel::Kernel;
use ot_logic::{Kind, Memory};
use ot_machine::Fault;
use ot_parse::TextFault;
use ot_term::{Symbol, SymbolKind};
use ot_theory::TheoryFault;
use ot_verify::LogFault;
use std::alloc::Global;

/// The line for words that are no command.
pub const USAGE: &[u8] =
    b"usage: opentheory check|info|link|minimise [--packages DIR] INPUT; info also takes --assumptions --definitions \
      --theorems; opentheory sample [--article] N; opentheory info --uses INPUT; opentheory info --readable INPUT; \
      opentheory read INPUT TEXT; opentheory prove INPUT; opentheory verify LOG; opentheory find PATTERN INPUT\n";

/// The line for an output that failed.
pub const WRITE_FAULT: &[u8] = b"opentheory: write fault\n";

/// The line for running out of memory.
pub const OUT_OF_MEMORY: &[u8] = b"opentheory: out of memory\n";

/// The line for a text about a path.
pub fn line_of(alloc: Global, path: &str, text: &str) -> Result<Vec<u8>, Memory>
    ensures { IfOk result (λ line. line.items ≡ line_of path.now text.now) }
{
    let line = format!(in alloc; "opentheory: {path}: {text}\n")?;
    Ok(line.into_bytes())
}

/// The line for a text about a line of the file of a path.
pub fn line_at(alloc: Global, path: &str, number: u64, text: &str) -> Result<Vec<u8>, Memory>
    ensures { IfOk result (λ line. line.items ≡ line_at path.now number text.now) }
{
    let line = format!(in alloc; "opentheory: {path}:{number}: {text}\n")?;
    Ok(line.into_bytes())
}

/// The text of a fault in the grammar of a theory file.
pub fn theory_fault_text(fault: TheoryFault) -> &'static str
    ensures { result.now ≡ theory_fault_text fault }
{
    match fault {
        TheoryFault::BadLine => "bad line",
        TheoryFault::BadBlock => "bad block",
        TheoryFault::DuplicateBlock => "duplicate block",
        TheoryFault::TwoSources => "second article or package",
        TheoryFault::NoMain => "no block main",
        TheoryFault::BadInterpret => "bad interpretation",
        TheoryFault::DuplicateInterpret => "duplicate interpretation",
    }
}

/// The text of a fault in what the blocks of a theory file ask for.
pub fn structure_fault_text(fault: StructureFault) -> &'static str
    ensures { result.now ≡ structure_fault_text fault }
{
    match fault {
        StructureFault::UnknownImport => "unknown import",
        StructureFault::BadPackageName => "bad package name",
        StructureFault::ImportCycle => "import cycle",
        StructureFault::PackageCycle => "package cycle",
        StructureFault::PackageDepth => "packages nested deeper than 16",
    }
}

/// The text of a fault in a proof log.
pub fn log_fault_text(fault: LogFault) -> &'static str
    ensures { result.now ≡ log_fault_text (log_fault_of fault) }
{
    match fault {
        LogFault::LineTooLong => "line longer than 65535 bytes",
        LogFault::LogTooLong => "log longer than 4294967296 bytes",
        LogFault::BadToken => "bad token",
        LogFault::BadHeader => "bad log header",
        LogFault::UnknownRecord => "unknown record",
        LogFault::BadReference => "no such number",
        LogFault::BadStep => "step does not follow",
        LogFault::LogNesting => "nested deeper than 4128",
        LogFault::LogEnds => "log ends early",
    }
}

/// The text of a fault in a line of readable text.
fn reading_fault_text(fault: TextFault) -> &'static str
    ensures { result.now ≡ reading_fault_text fault }
{
    match fault {
        TextFault::Syntax => "cannot be read",
        TextFault::TooManyOpen => "too many open",
        TextFault::Unbound => "unbound name",
        TextFault::UnknownOperator => "unknown operator",
        TextFault::BadTypes => "types do not fit",
        TextFault::TooDeep => "nested deeper than 4096",
    }
}

/// The line for such a fault at a column of a line of the text of a path.
pub fn column_line(
    alloc: Global,
    path: &str,
    number: u64,
    column: u64,
    fault: TextFault,
) -> Result<Vec<u8>, Memory>
    ensures { IfOk result (λ line. line.items ≡ column_line path.now number column fault) }
{
    let text = reading_fault_text(fault);
    let line = format!(in alloc; "opentheory: {path}:{number}:{column}: {text}\n")?;
    Ok(line.into_bytes())
}

/// The line for a fault at a line of the article of a path. The kernel has the name of its symbol.
pub fn fault_line(
    alloc: Global,
    kernel: &Kernel,
    path: &str,
    number: u64,
    fault: Fault,
) -> Result<Vec<u8>, Memory>
    requires symbol { IsSymbolIn kernel.now fault }
    requires apart { fault ≢ Fault.Memory ran_out }
    ensures { IfOk result (λ line. IsSomeAnd (fault_of (name_at kernel.now) fault)
        (λ f. line.items ≡ fault_line path.now number f)) }
{
    let mut line = line_start(alloc, path, number)?;
    add_fault(alloc, kernel, fault, &mut line)?;
    add_text(&mut line, "\n")?;
    Ok(line)
}

/// What stands before the text of a fault at a line.
fn line_start(alloc: Global, path: &str, number: u64) -> Result<Vec<u8>, Memory>
    ensures { IfOk result (λ start. start.items ≡ line_start path.now number) }
{
    let start = format!(in alloc; "opentheory: {path}:{number}: ")?;
    Ok(start.into_bytes())
}

/// How a kind of object is called.
fn kind_text(kind: Kind) -> &'static str
    ensures { result.now ≡ kind_text kind }
{
    match kind {
        Kind::Num => "number",
        Kind::Name => "name",
        Kind::List => "list",
        Kind::TyOp => "type operator",
        Kind::Ty => "type",
        Kind::Con => "constant",
        Kind::Var => "variable",
        Kind::Tm => "term",
        Kind::Thm => "theorem",
    }
}

/// Appends the text of a fault. Running out of memory is no fault of an article.
fn add_fault(alloc: Global, kernel: &Kernel, fault: Fault, out: &mut Vec<u8>) -> Result<(), Memory>
    requires symbol { IsSymbolIn kernel.now fault }
    requires apart { fault ≢ Fault.Memory ran_out }
    ensures { OnOk result
        (IsSomeAnd (fault_of (name_at kernel.now) fault) (λ f. out.new.items ≡ out.old.items ++ fault_text f)) }
{
    match fault {
        Fault::LineTooLong => add_text(out, "line longer than 65535 bytes"),
        Fault::ArticleTooLong => add_text(out, "article longer than 4294967296 bytes"),
        Fault::UnknownCommand => add_text(out, "unknown command"),
        Fault::BadName => add_text(out, "bad name"),
        Fault::BadNumber => add_text(out, "bad number"),
        Fault::NumberRange => add_text(out, "number out of range"),
        Fault::VersionUnsupported(k) => add_number(alloc, "version ", k, " unsupported", out),
        Fault::VersionLate => add_text(out, "version command in a wrong place"),
        Fault::StackEmpty => add_text(out, "stack empty"),
        Fault::WrongKind(wanted, found) => add_kinds(wanted, found, out),
        Fault::NoEntry(k) => add_number(alloc, "no entry ", k, "", out),
        Fault::EmptyList => add_text(out, "empty list"),
        Fault::NotFunction => add_text(out, "not a function"),
        Fault::ArgumentType => add_text(out, "argument of another type"),
        Fault::NotBool => add_text(out, "not of type bool"),
        Fault::NotEquation => add_text(out, "not an equation"),
        Fault::NotAlphaEqual => add_text(out, "terms differ"),
        Fault::VarFreeInHyps => add_text(out, "variable free in a hypothesis"),
        Fault::NotRedex => add_text(out, "not a beta redex"),
        Fault::BadSubst => add_text(out, "bad substitution list"),
        Fault::ExportMismatch => add_text(out, "theorem differs from the stated sequent"),
        Fault::Primitive(symbol) => add_about(kernel, "primitive symbol ", symbol, "", out),
        Fault::AlreadyDefined(symbol) => add_about(kernel, "", symbol, " is defined already", out),
        Fault::SymbolInUse(symbol) => add_about(kernel, "", symbol, " is in use", out),
        Fault::NotClosed => add_text(out, "free variable in a definition"),
        Fault::TypeVarEscapes => add_text(out, "type variable not in the type of the constant"),
        Fault::BadDefinitionList => add_text(out, "definition list and hypotheses disagree"),
        Fault::HypothesesPresent => add_text(out, "theorem has hypotheses"),
        Fault::NotApplication => add_text(out, "conclusion is not an application"),
        Fault::BadTypeVars => add_text(out, "bad type variable list"),
        Fault::Nesting => add_text(out, "nested deeper than 4096"),
        Fault::Memory(_) => unreachable!(),
    }
}

/// Appends a number between two texts.
fn add_number(
    alloc: Global,
    before: &str,
    number: i64,
    after: &str,
    out: &mut Vec<u8>,
) -> Result<(), Memory>
    ensures { OnOk result (out.new.items ≡ out.old.items ++ (before.now ++ signed_decimal number ++ after.now)) }
{
    let text = format!(in alloc; "{before}{number}{after}")?;
    add_text(out, text.as_str())
}

/// Appends a symbol between two texts.
fn add_about(
    kernel: &Kernel,
    before: &str,
    symbol: Symbol,
    after: &str,
    out: &mut Vec<u8>,
) -> Result<(), Memory>
    requires { symbol.name < length kernel.now.names }
    ensures { OnOk result (out.new.items
        ≡ out.old.items
        ++ (before.now ++ symbol_text (map_symbol (name_at kernel.now) (symbol_of symbol)) ++ after.now)) }
{
    add_text(out, before)?;
    add_symbol(kernel, symbol, out)?;
    add_text(out, after)
}

/// Appends that another kind is wanted than was found.
fn add_kinds(wanted: Kind, found: Kind, out: &mut Vec<u8>) -> Result<(), Memory>
    ensures { OnOk result (out.new.items
        ≡ out.old.items ++ (codes "wanted " ++ kind_text wanted ++ codes ", found " ++ kind_text found)) }
{
    add_text(out, "wanted ")?;
    add_text(out, kind_text(wanted))?;
    add_text(out, ", found ")?;
    add_text(out, kind_text(found))
}

/// Appends a symbol: which of the two it is, and how its name is spelled.
fn add_symbol(kernel: &Kernel, symbol: Symbol, out: &mut Vec<u8>) -> Result<(), Memory>
    requires { symbol.name < length kernel.now.names }
    ensures { OnOk result
        (out.new.items ≡ out.old.items ++ symbol_text (map_symbol (name_at kernel.now) (symbol_of symbol))) }
{
    add_text(out, kind_word(symbol.kind))?;
    kernel.names().get(symbol.name).spell(out)
}

/// The word for constants or for type operators, and a space.
fn kind_word(kind: SymbolKind) -> &'static str
    ensures { result.now ≡ kind_word kind }
{
    match kind {
        SymbolKind::Con => "const ",
        SymbolKind::TyOp => "type ",
    }
}

/// Appends a text.
fn add_text(out: &mut Vec<u8>, text: &str) -> Result<(), Memory>
    ensures { OnOk result (out.new.items ≡ out.old.items ++ text.now) }
{
    out.extend_from_slice(text.as_bytes())?;
    Ok(())
}
