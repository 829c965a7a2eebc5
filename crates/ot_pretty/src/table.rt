//! What has a readable text under a notation.
ghost use Rattle.std.specs.Prelude.{◌<◌, length};
ghost use Rattle.ot_kernel.specs.State.{theorem_at};
ghost use Rattle.ot_forms.specs.Printing.{readable_text};
ghost use Rattle.ot_pretty.specs.Under.{readable_at};

use crate::sequents::put_sequent;
use crate::terms::put_whole;
use ot_kernel::{Kernel, ThmId};
use ot_parse::Notation;
use ot_term::TermId;
use ot_text::{Page, Printable};
use std::alloc::Global;

/// The kernel whose numbers are printed, and the notation under which they are.
#[derive(Clone, Copy)]
pub(crate) struct InNotation<'a> {
    pub(crate) kernel: &'a Kernel,
    pub(crate) notation: &'a Notation,
}

impl Printable<InNotation<'_>> for TermId {
    ghost is_inside = { λ t id. id < length t.kernel.now.terms };

    ghost text = { λ t id. readable_at t.notation.now t.kernel.now id };

    fn put(&self, page: &mut Page, _alloc: Global, table: &InNotation<'_>) {
        put_whole(page, table.kernel, table.notation, *self);
    }
}

impl Printable<InNotation<'_>> for ThmId {
    ghost is_inside = { λ t th. th < length t.kernel.now.theorems };

    ghost text = { λ t th. readable_text t.notation.now (theorem_at t.kernel.now th) };

    fn put(&self, page: &mut Page, alloc: Global, table: &InNotation<'_>) {
        put_sequent(page, alloc, table.kernel, table.notation, *self);
    }
}
