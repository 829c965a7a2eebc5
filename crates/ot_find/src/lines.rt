//! The lines that say what stands for the variables of a pattern.
ghost use Rattle.std.specs.Prelude.{◌<◌, length, map};
ghost use Rattle.std.specs.List.{All};
ghost use Rattle.ot_kernel.specs.State.{type_at, term_at};
ghost use Rattle.ot_text.specs.Pages.{IsPut, printed};
ghost use Rattle.ot_text.specs.Texts.{ascending, name_text};
ghost use Rattle.ot_text.specs.Sections.{indented_text};
ghost use Rattle.ot_find.specs.Texts.{type_line, variable_line};

use ot_kernel::Kernel;
use ot_logic::Name;
use ot_print::InKernel;
use ot_term::TermId;
use ot_text::{Page, Printable, gathered, put_indented};
use ot_type::TypeId;
use std::alloc::Global;

/// The kernel of whose numbers a match is.
#[derive(Clone, Copy)]
pub(crate) struct InMatch<'a> {
    pub(crate) kernel: &'a Kernel,
}

/// A type variable of a pattern, and what stands for it.
impl Printable<InMatch<'_>> for (Name, TypeId) {
    ghost is_inside = { λ t p. p.1 < length t.kernel.now.types };

    ghost text = { λ t p. type_line (p.0, type_at t.kernel.now p.1) };

    fn put(&self, page: &mut Page, alloc: Global, table: &InMatch<'_>) {
        let kernel = InKernel {
            kernel: table.kernel,
        };
        page.put(b"type '");
        put_name(page, &self.0);
        page.put(b" := ");
        self.1.put(page, alloc, &kernel);
    }
}

/// A variable of a pattern, with its type after the types, and what stands for it.
impl Printable<InMatch<'_>> for (Name, TypeId, TermId) {
    ghost is_inside = { λ t p. (p.1 < length t.kernel.now.types) × (p.2 < length t.kernel.now.terms) };

    ghost text = { λ t p. variable_line (
      record { name = p.0; ty = type_at t.kernel.now p.1 },
      term_at t.kernel.now p.2,
    ) };

    fn put(&self, page: &mut Page, alloc: Global, table: &InMatch<'_>) {
        let kernel = InKernel {
            kernel: table.kernel,
        };
        put_name(page, &self.0);
        page.put(b":");
        self.1.put(page, alloc, &kernel);
        page.put(b" := ");
        self.2.put(page, alloc, &kernel);
    }
}

/// What stands for variables of one kind. The lines together cost no more than the limit.
pub(crate) fn put_pairs<Table, T: Printable<Table>>(
    page: &mut Page,
    alloc: Global,
    table: &Table,
    pairs: &[T],
)
    requires { All (T.is_inside table.now) pairs.now }
    ensures { IsPut (indented_text (ascending (map (T.text table.now) pairs.now))) (printed page.old)
        (printed page.new) }
{
    if page.is_stopped() {
        return;
    }
    match gathered(alloc, table, pairs, page.room()) {
        Ok(lines) => put_indented(page, &lines),
        Err(fault) => page.stop(fault),
    }
}

/// The spelling of a name.
fn put_name(page: &mut Page, name: &Name)
    ensures { IsPut (name_text name.now) (printed page.old) (printed page.new) }
{
    // A name has a component.
    let _components = name.components();
    page.put_name(name);
}
