//! The texts of terms.
ghost use Rattle.std.specs.Prelude.{◌≡◌, ◌<◌, ◌+◌, ◌^◌, ◌++◌, codes, length, OnOk, OnErr, Err};
ghost use Rattle.ot_logic.specs.Naming.{names};
ghost use Rattle.ot_logic.specs.NamedTerms.{nameless_in, at_place, place as place_of};
ghost use Rattle.ot_kernel.specs.State.{name_at, type_at, variable_at, named_at, term_at};
ghost use Rattle.ot_text.specs.Texts.{name_text, ty_text, tm_text};
ghost use Rattle.ot_view.specs.Nodes.{IsKey};
ghost use Rattle.ot_view.specs.Binders.{binders_at, AreKeys};
ghost use Rattle.ot_text.specs.Pages.{IsPut, printed, Appended};

use crate::nodes::equation_sides;
use crate::table::InKernel;
use ot_kernel::Kernel;
use ot_logic::NameId;
use ot_term::{TermId, TermNode, VarKey};
use ot_text::{Page, PrintFault, Printable, append, put_type};
use ot_type::TypeId;
use ot_view::{Binders, place, term_node};
use std::alloc::Global;

/// Appends the text of a term. `TooLarge` exactly where it has more than `max` bytes. After a refusal `out` is as it
/// was.
pub fn term_text(
    alloc: Global,
    kernel: &Kernel,
    id: TermId,
    max: usize,
    out: &mut Vec<u8>,
) -> Result<(), PrintFault>
    requires { id < length kernel.now.terms }
    ensures ok { OnOk result (Appended (tm_text (term_at kernel.now id)) max out.old.items out.new.items) }
    ensures too_large { result ≡ Err PrintFault.TooLarge → max < length (tm_text (term_at kernel.now id)) }
    ensures err { OnErr result (out.new.items ≡ out.old.items) }
{
    append(alloc, &InKernel { kernel }, &id, max, out)
}

impl Printable<InKernel<'_>> for TermId {
    ghost is_inside = { λ t id. id < length t.kernel.now.terms };

    ghost text = { λ t id. tm_text (term_at t.kernel.now id) };

    fn put(&self, page: &mut Page, _alloc: Global, table: &InKernel<'_>) {
        put_whole(page, table.kernel, *self);
    }
}

/// A term that stands under no binder.
pub(crate) fn put_whole(page: &mut Page, kernel: &Kernel, id: TermId)
    requires { id < length kernel.now.terms }
    ensures { IsPut (tm_text (term_at kernel.now id)) (printed page.old) (printed page.new) }
{
    put_term(page, kernel, &Binders::Outermost, id);
}

/// A term. Nothing is read once the page takes no more, so a term costs no more than the limit.
fn put_term(page: &mut Page, kernel: &Kernel, binders: &Binders<'_>, id: TermId)
    requires inside { id < length kernel.now.terms }
    requires binders { AreKeys kernel.now binders.now }
    requires fits { length (binders_at kernel.now binders.now) + id < 2 ^ 64 }
    ensures { IsPut (tm_text (nameless_in names (binders_at kernel.now binders.now) (named_at kernel.now.terms id)))
        (printed page.old) (printed page.new) }
{
    if page.is_stopped() {
        return;
    }
    if let Some((left, right)) = equation_sides(kernel, id) {
        page.put(b"(");
        put_term(page, kernel, binders, left);
        page.put(b" = ");
        put_term(page, kernel, binders, right);
        page.put(b")");
        return;
    }
    match term_node(kernel, id) {
        TermNode::Var(v) => put_variable(page, kernel, binders, v),
        TermNode::Const(name, ty) => {
            page.put(b"@");
            put_typed(page, kernel, *name, *ty);
        }
        TermNode::App(f, x) => {
            page.put(b"(");
            put_term(page, kernel, binders, *f);
            page.put(b" ");
            put_term(page, kernel, binders, *x);
            page.put(b")");
        }
        TermNode::Abs(v, body) => {
            page.put(b"(\\");
            put_type(page, &InKernel { kernel }, &v.ty);
            page.put(b". ");
            let inner = Binders::Inside(v, &*binders);
            put_term(page, kernel, &inner, *body);
            page.put(b")");
        }
    }
}

/// A variable under binders: its place, or its name and type.
fn put_variable(page: &mut Page, kernel: &Kernel, binders: &Binders<'_>, v: &VarKey)
    requires key { IsKey kernel.now v.now }
    requires binders { AreKeys kernel.now binders.now }
    requires fits { length (binders_at kernel.now binders.now) < 2 ^ 64 }
    ensures { IsPut
        (tm_text (at_place names (variable_at kernel.now v.now)
        (place_of names (binders_at kernel.now binders.now) (variable_at kernel.now v.now)))) (printed page.old)
        (printed page.new) }
{
    match place(kernel, binders, v) {
        Some(number) => {
            page.put(b"#");
            page.put_number(number);
        }
        None => put_typed(page, kernel, v.name, v.ty),
    }
}

/// A name and a type.
pub(crate) fn put_typed(page: &mut Page, kernel: &Kernel, name: NameId, ty: TypeId)
    requires name { name < length kernel.now.names }
    requires ty { ty < length kernel.now.types }
    ensures { IsPut (name_text (name_at kernel.now name) ++ codes ":" ++ ty_text (type_at kernel.now ty))
        (printed page.old) (printed page.new) }
{
    ot_text::put_typed(page, &InKernel { kernel }, kernel.names().get(name), &ty);
}
