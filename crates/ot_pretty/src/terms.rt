//! The readable texts of terms.
ghost use Rattle.std.specs.Prelude.{◌≡◌, ◌<◌, ◌+◌, ◌^◌, length};
ghost use Rattle.ot_kernel.specs.State.{name_at, type_at};
ghost use Rattle.ot_forms.specs.Words.{base};
ghost use Rattle.ot_forms.specs.Forms.{FreeAs, ConAs, term_text};
ghost use Rattle.ot_forms.specs.Printing.{binder_name};
ghost use Rattle.ot_view.specs.Nodes.{IsKey};
ghost use Rattle.ot_view.specs.Binders.{binders_at, AreKeys};
ghost use Rattle.ot_text.specs.Pages.{IsPut, printed};
ghost use Rattle.ot_pretty.specs.Spines.{text_at, front_text, spine_text};
ghost use Rattle.ot_pretty.specs.Under.{bound_term, bound_variable, readable_at};

use crate::nodes::relation_parts;
use crate::types::put_type;
use crate::words::{put_symbol, put_variable};
use ot_kernel::Kernel;
use ot_logic::NameId;
use ot_parse::{Notation, WordKind, base_of};
use ot_print::nodes::equation_sides;
use ot_term::{TermId, TermNode, VarKey};
use ot_text::Page;
use ot_type::TypeId;
use ot_view::{Binders, place, term_node};

/// A term that stands under no binder.
pub(crate) fn put_whole(page: &mut Page, kernel: &Kernel, notation: &Notation, id: TermId)
    requires { id < length kernel.now.terms }
    ensures { IsPut (readable_at notation.now kernel.now id) (printed page.old) (printed page.new) }
{
    put_term(page, kernel, notation, &Binders::Outermost, 0, id);
}

/// A term with so many binders around it. Nothing is read once the page takes no more, so a term costs no more than
/// the limit.
#[cycle(terms_text)]
fn put_term(
    page: &mut Page,
    kernel: &Kernel,
    notation: &Notation,
    binders: &Binders<'_>,
    depth: usize,
    id: TermId,
)
    requires inside { id < length kernel.now.terms }
    requires binders { AreKeys kernel.now binders.now }
    requires depth { depth ≡ length (binders_at kernel.now binders.now) }
    requires fits { depth + id < 2 ^ 64 }
    ensures { IsPut (text_at notation.now depth (bound_term kernel.now binders.now id)) (printed page.old)
        (printed page.new) }
{
    if page.is_stopped() {
        return;
    }
    if let Some((left, right)) = equation_sides(kernel, id) {
        page.put(b"(");
        put_term(page, kernel, notation, binders, depth, left);
        page.put(b" = ");
        put_term(page, kernel, notation, binders, depth, right);
        page.put(b")");
        return;
    }
    match term_node(kernel, id) {
        TermNode::Var(v) => put_leaf(page, kernel, notation, binders, depth, v),
        TermNode::Const(name, ty) => put_constant(page, kernel, notation, *name, *ty),
        TermNode::App(f, x) => {
            page.put(b"(");
            put_front(page, kernel, notation, binders, depth, *f);
            put_term(page, kernel, notation, binders, depth, *x);
            page.put(b")");
        }
        TermNode::Abs(v, body) => {
            page.put(b"(\\");
            put_binder(page, depth);
            page.put(b" : ");
            put_type(page, kernel, notation, v.ty);
            page.put(b" . ");
            let inner = Binders::Inside(v, &*binders);
            put_term(page, kernel, notation, &inner, depth + 1, *body);
            page.put(b")");
        }
    }
}

/// What stands before a function's argument: the left side and the operator of a relation, or the function with its
/// other arguments.
#[cycle(terms_text)]
fn put_front(
    page: &mut Page,
    kernel: &Kernel,
    notation: &Notation,
    binders: &Binders<'_>,
    depth: usize,
    id: TermId,
)
    requires inside { id < length kernel.now.terms }
    requires binders { AreKeys kernel.now binders.now }
    requires depth { depth ≡ length (binders_at kernel.now binders.now) }
    requires fits { depth + id < 2 ^ 64 }
    ensures { IsPut (front_text notation.now depth (bound_term kernel.now binders.now id)) (printed page.old)
        (printed page.new) }
{
    if let Some((name, left)) = relation_parts(kernel, notation, id) {
        put_term(page, kernel, notation, binders, depth, left);
        page.put(b" ");
        put_base(page, kernel, name);
        page.put(b" ");
        return;
    }
    put_spine(page, kernel, notation, binders, depth, id);
    page.put(b" ");
}

/// A function and its arguments, a space before each argument.
#[cycle(terms_text)]
fn put_spine(
    page: &mut Page,
    kernel: &Kernel,
    notation: &Notation,
    binders: &Binders<'_>,
    depth: usize,
    id: TermId,
)
    requires inside { id < length kernel.now.terms }
    requires binders { AreKeys kernel.now binders.now }
    requires depth { depth ≡ length (binders_at kernel.now binders.now) }
    requires fits { depth + id < 2 ^ 64 }
    ensures { IsPut (spine_text notation.now depth (bound_term kernel.now binders.now id)) (printed page.old)
        (printed page.new) }
{
    if page.is_stopped() {
        return;
    }
    match term_node(kernel, id) {
        TermNode::App(f, x) => {
            put_spine(page, kernel, notation, binders, depth, *f);
            page.put(b" ");
            put_term(page, kernel, notation, binders, depth, *x);
        }
        TermNode::Var(_) | TermNode::Const(_, _) | TermNode::Abs(_, _) => {
            put_term(page, kernel, notation, binders, depth, id)
        }
    }
}

/// A variable with so many binders around it: the name of its binder, or its own name and type.
fn put_leaf(
    page: &mut Page,
    kernel: &Kernel,
    notation: &Notation,
    binders: &Binders<'_>,
    depth: usize,
    v: &VarKey,
)
    requires key { IsKey kernel.now v.now }
    requires binders { AreKeys kernel.now binders.now }
    requires depth { depth ≡ length (binders_at kernel.now binders.now) }
    ensures { IsPut (text_at notation.now depth (bound_variable kernel.now binders.now v.now)) (printed page.old)
        (printed page.new) }
{
    match place(kernel, binders, v) {
        Some(number) => put_binder(page, depth - 1 - number),
        None => put_free(page, kernel, notation, v),
    }
}

/// The name of the binder with so many binders around it.
fn put_binder(page: &mut Page, number: usize)
    ensures { IsPut (binder_name number) (printed page.old) (printed page.new) }
{
    page.put(b"x");
    page.put_number(number);
}

/// A free variable.
fn put_free(page: &mut Page, kernel: &Kernel, notation: &Notation, v: &VarKey)
    requires { IsKey kernel.now v.now }
    ensures { IsPut (term_text notation.now (FreeAs (name_at kernel.now v.now.name) (type_at kernel.now v.now.ty)))
        (printed page.old) (printed page.new) }
{
    page.put(b"(");
    put_variable(page, kernel, v.name);
    page.put(b" : ");
    put_type(page, kernel, notation, v.ty);
    page.put(b")");
}

/// A constant.
fn put_constant(page: &mut Page, kernel: &Kernel, notation: &Notation, name: NameId, ty: TypeId)
    requires name { name < length kernel.now.names }
    requires ty { ty < length kernel.now.types }
    ensures { IsPut (term_text notation.now (ConAs (name_at kernel.now name) (type_at kernel.now ty)))
        (printed page.old) (printed page.new) }
{
    page.put(b"{");
    put_symbol(page, kernel, notation, WordKind::Con, name);
    page.put(b" : ");
    put_type(page, kernel, notation, ty);
    page.put(b"}");
}

/// The base name of a name.
fn put_base(page: &mut Page, kernel: &Kernel, name: NameId)
    requires { name < length kernel.now.names }
    ensures { IsPut (base (name_at kernel.now name)) (printed page.old) (printed page.new) }
{
    page.put(base_of(kernel.names().get(name)));
}
