//! The readable texts of theorems.
ghost use Rattle.std.specs.Prelude.{◌≡◌, ◌<◌, length, OnOk, OnErr, Err};
ghost use Rattle.ot_kernel.specs.State.{theorem_at};
ghost use Rattle.ot_forms.specs.Printing.{readable_text as text_of};
ghost use Rattle.ot_text.specs.Pages.{IsPut, printed, Appended};

use crate::table::InNotation;
use crate::terms::put_whole;
use ot_kernel::{Kernel, ThmId};
use ot_parse::Notation;
use ot_text::{Page, PrintFault, append, put_hypotheses};
use std::alloc::Global;

/// Appends the readable text of a theorem's sequent under a notation. `TooLarge` exactly where it has more than `max`
/// bytes. After a refusal `out` is as it was.
pub fn readable_text(
    alloc: Global,
    kernel: &Kernel,
    notation: &Notation,
    th: ThmId,
    max: usize,
    out: &mut Vec<u8>,
) -> Result<(), PrintFault>
    requires { th < length kernel.now.theorems }
    ensures ok { OnOk result
        (Appended (text_of notation.now (theorem_at kernel.now th)) max out.old.items out.new.items) }
    ensures too_large { result ≡ Err PrintFault.TooLarge → max < length (text_of notation.now (theorem_at kernel.now th)) }
    ensures err { OnErr result (out.new.items ≡ out.old.items) }
{
    append(alloc, &InNotation { kernel, notation }, &th, max, out)
}

/// A theorem's sequent. The texts of the hypotheses together cost no more than the limit.
pub(crate) fn put_sequent(
    page: &mut Page,
    alloc: Global,
    kernel: &Kernel,
    notation: &Notation,
    th: ThmId,
)
    requires { th < length kernel.now.theorems }
    ensures { IsPut (text_of notation.now (theorem_at kernel.now th)) (printed page.old) (printed page.new) }
{
    put_hypotheses(
        page,
        alloc,
        &InNotation { kernel, notation },
        kernel.hyps(th),
    );
    put_whole(page, kernel, notation, kernel.concl(th));
}
