//! The summary of a run.
ghost use Rattle.std.specs.Prelude.{◌≡◌, ◌<◌, length, map, OnOk, OnErr, Err};
ghost use Rattle.std.specs.List.{All};
ghost use Rattle.ot_kernel.specs.State.{theorem_at};
ghost use Rattle.ot_print.specs.Texts.{summary_text as text_of};
ghost use Rattle.ot_text.specs.Pages.{IsPut, printed, Appended};

use crate::table::InKernel;
use ot_args::Sections;
use ot_kernel::{Kernel, ThmId};
use ot_text::{Page, PrintFault, put_section, put_sorted_section};
use std::alloc::Global;

/// Appends the summary of a kernel's assumptions and definitions and of these theorems, with the sections that are
/// asked for. Assumptions come in the order of the bytes of their texts, definitions in the order in which they were
/// accepted, theorems in the order given. `TooLarge` exactly where the summary has more than `max` bytes. After a
/// refusal `out` is as it was.
pub fn summary_text(
    alloc: Global,
    kernel: &Kernel,
    theorems: &[ThmId],
    sections: Sections,
    max: usize,
    out: &mut Vec<u8>,
) -> Result<(), PrintFault>
    requires { All (λ i. i < length kernel.now.theorems) theorems.now }
    ensures ok { OnOk result
        (Appended (text_of sections kernel.now.assumptions kernel.now.definitions
        (map (theorem_at kernel.now) theorems.now)) max out.old.items out.new.items) }
    ensures too_large { result ≡ Err PrintFault.TooLarge → max < length
        (text_of sections kernel.now.assumptions kernel.now.definitions (map (theorem_at kernel.now) theorems.now)) }
    ensures err { OnErr result (out.new.items ≡ out.old.items) }
{
    let mut page = Page::new(alloc, max);
    put_summary(&mut page, alloc, kernel, theorems, sections);
    page.finish(out)
}

/// The sections that are asked for.
fn put_summary(
    page: &mut Page,
    alloc: Global,
    kernel: &Kernel,
    theorems: &[ThmId],
    sections: Sections,
)
    requires { All (λ i. i < length kernel.now.theorems) theorems.now }
    ensures { IsPut (text_of sections kernel.now.assumptions kernel.now.definitions
        (map (theorem_at kernel.now) theorems.now)) (printed page.old) (printed page.new) }
{
    let table = InKernel { kernel };
    put_sorted_section(
        page,
        alloc,
        &table,
        sections.assumptions,
        b"assumptions",
        kernel.assumptions(),
    );
    put_section(
        page,
        alloc,
        &table,
        sections.definitions,
        b"definitions",
        kernel.definitions(),
    );
    put_section(
        page,
        alloc,
        &table,
        sections.theorems,
        b"theorems",
        theorems,
    );
}
