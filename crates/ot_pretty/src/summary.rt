//! The readable summary of a run.
ghost use Rattle.std.specs.Prelude.{◌≡◌, ◌<◌, length, map, IfOk, OnOk, OnErr, Err};
ghost use Rattle.std.specs.List.{All};
ghost use Rattle.ot_kernel.specs.State.{theorem_at};
ghost use Rattle.ot_text.specs.Pages.{IsPut, printed, Appended};
ghost use Rattle.ot_pretty.specs.Summary.{ReadBack, hidden_at, summary_at, IsHiddenAt};

use crate::laws::each_reads_back;
use crate::symbols::run_symbols;
use crate::table::InNotation;
use ot_kernel::{Kernel, ThmId};
use ot_logic::{Memory, Name};
use ot_parse::Notation;
use ot_text::{Page, PrintFault, put_section, put_sorted_section};
use std::alloc::Global;

/// Appends the readable summary of a run that exports these theorems, where these namespaces are shown: the
/// assumptions, in the order of the bytes of their texts, and the theorems, in the order given. The notation is that
/// of the run's symbols.
/// `TooLarge` exactly where the summary has more than `max` bytes. After a refusal `out` is as it was. Each text
/// reads back as the sequent that it was printed for.
pub fn readable_summary(
    alloc: Global,
    kernel: &Kernel,
    shown: &[Name],
    theorems: &[ThmId],
    max: usize,
    out: &mut Vec<u8>,
) -> Result<(), PrintFault>
    requires { All (λ th. th < length kernel.now.theorems) theorems.now }
    ensures ok { OnOk result
        (Appended (summary_at kernel.now (hidden_at kernel.now shown.now theorems.now) theorems.now) max out.old.items
        out.new.items) }
    ensures too_large { result ≡ Err PrintFault.TooLarge
        → max < length (summary_at kernel.now (hidden_at kernel.now shown.now theorems.now) theorems.now) }
    ensures err { OnErr result (out.new.items ≡ out.old.items) }
    ensures reads_back { OnOk result (ReadBack (hidden_at kernel.now shown.now theorems.now) kernel.now.assumptions
        (map (theorem_at kernel.now) theorems.now)) }
{
    match run_notation(alloc, kernel, shown, theorems) {
        Ok(notation) => {
            notation.sound();
            each_reads_back(kernel, kernel.assumptions());
            each_reads_back(kernel, theorems);
            summary_text(alloc, kernel, &notation, theorems, max, out)
        }
        Err(memory) => Err(PrintFault::Memory(memory)),
    }
}

/// The notation of a run that exports these theorems, where these namespaces are shown: it hides those of the run's
/// symbols that may be written short.
pub fn run_notation(
    alloc: Global,
    kernel: &Kernel,
    shown: &[Name],
    theorems: &[ThmId],
) -> Result<Notation, Memory>
    requires { All (λ th. th < length kernel.now.theorems) theorems.now }
    ensures { IfOk result (IsHiddenAt kernel.now shown.now theorems.now) }
{
    let symbols = run_symbols(alloc, kernel, theorems)?;
    Notation::new(alloc, shown, symbols.as_slice())
}

/// Appends the summary under a notation.
fn summary_text(
    alloc: Global,
    kernel: &Kernel,
    notation: &Notation,
    theorems: &[ThmId],
    max: usize,
    out: &mut Vec<u8>,
) -> Result<(), PrintFault>
    requires { All (λ th. th < length kernel.now.theorems) theorems.now }
    ensures ok { OnOk result
        (Appended (summary_at kernel.now notation.now theorems.now) max out.old.items out.new.items) }
    ensures too_large { result ≡ Err PrintFault.TooLarge → max < length (summary_at kernel.now notation.now theorems.now) }
    ensures err { OnErr result (out.new.items ≡ out.old.items) }
{
    let mut page = Page::new(alloc, max);
    put_summary(&mut page, alloc, kernel, notation, theorems);
    page.finish(out)
}

/// Both sections.
fn put_summary(
    page: &mut Page,
    alloc: Global,
    kernel: &Kernel,
    notation: &Notation,
    theorems: &[ThmId],
)
    requires { All (λ th. th < length kernel.now.theorems) theorems.now }
    ensures { IsPut (summary_at kernel.now notation.now theorems.now) (printed page.old) (printed page.new) }
{
    let table = InNotation { kernel, notation };
    put_sorted_section(
        page,
        alloc,
        &table,
        true,
        b"assumptions",
        kernel.assumptions(),
    );
    put_section(page, alloc, &table, true, b"theorems", theorems);
}
