//! The texts of sequents.
ghost use Rattle.std.specs.Prelude.{◌≡◌, ◌<◌, length, OnOk, OnErr, Err};
ghost use Rattle.ot_kernel.specs.State.{theorem_at};
ghost use Rattle.ot_text.specs.Texts.{sequent_text as text_of};
ghost use Rattle.ot_text.specs.Pages.{IsPut, printed, Appended};

use crate::table::InKernel;
use crate::terms::put_whole;
use ot_kernel::{Kernel, ThmId};
use ot_text::{Page, PrintFault, Printable, append, put_hypotheses};
use std::alloc::Global;

/// Appends the text of a theorem's sequent. `TooLarge` exactly where it has more than `max` bytes. After a refusal
/// `out` is as it was.
pub fn sequent_text(
    alloc: Global,
    kernel: &Kernel,
    th: ThmId,
    max: usize,
    out: &mut Vec<u8>,
) -> Result<(), PrintFault>
    requires { th < length kernel.now.theorems }
    ensures ok { OnOk result (Appended (text_of (theorem_at kernel.now th)) max out.old.items out.new.items) }
    ensures too_large { result ≡ Err PrintFault.TooLarge → max < length (text_of (theorem_at kernel.now th)) }
    ensures err { OnErr result (out.new.items ≡ out.old.items) }
{
    append(alloc, &InKernel { kernel }, &th, max, out)
}

impl Printable<InKernel<'_>> for ThmId {
    ghost is_inside = { λ t th. th < length t.kernel.now.theorems };

    ghost text = { λ t th. text_of (theorem_at t.kernel.now th) };

    fn put(&self, page: &mut Page, alloc: Global, table: &InKernel<'_>) {
        put_sequent(page, alloc, table.kernel, *self);
    }
}

/// A theorem's sequent. The texts of the hypotheses together cost no more than the limit.
pub(crate) fn put_sequent(page: &mut Page, alloc: Global, kernel: &Kernel, th: ThmId)
    requires { th < length kernel.now.theorems }
    ensures { IsPut (text_of (theorem_at kernel.now th)) (printed page.old) (printed page.new) }
{
    put_hypotheses(page, alloc, &InKernel { kernel }, kernel.hyps(th));
    put_whole(page, kernel, kernel.concl(th));
}
