//! The readable texts of types.
ghost use Rattle.std.specs.Prelude.{◌≡◌, ◌<◌, length};
ghost use Rattle.std.specs.List.{All};
ghost use Rattle.ot_kernel.specs.State.{type_at, types_at};
ghost use Rattle.ot_forms.specs.Forms.{type_text, types_text};
ghost use Rattle.ot_text.specs.Pages.{IsPut, printed};

use crate::words::{put_symbol, put_variable};
use ot_kernel::Kernel;
use ot_parse::{Notation, WordKind};
use ot_print::nodes::function_parts;
use ot_text::Page;
use ot_type::{TypeId, TypeNode};
use ot_view::type_node;

/// A type. Nothing is read once the page takes no more, so a type costs no more than the limit.
#[cycle(types_text)]
pub(crate) fn put_type(page: &mut Page, kernel: &Kernel, notation: &Notation, id: TypeId)
    requires { id < length kernel.now.types }
    ensures { IsPut (type_text notation.now (type_at kernel.now id)) (printed page.old) (printed page.new) }
{
    if page.is_stopped() {
        return;
    }
    if let Some((from, to)) = function_parts(kernel, id) {
        page.put(b"(");
        put_type(page, kernel, notation, from);
        page.put(b" -> ");
        put_type(page, kernel, notation, to);
        page.put(b")");
        return;
    }
    match type_node(kernel, id) {
        TypeNode::Var(name) => {
            page.put(b"'");
            put_variable(page, kernel, *name);
        }
        TypeNode::Op(name, args) if args.is_empty() => {
            put_symbol(page, kernel, notation, WordKind::TyOp, *name)
        }
        TypeNode::Op(name, args) => {
            page.put(b"(");
            put_symbol(page, kernel, notation, WordKind::TyOp, *name);
            put_types(page, kernel, notation, args.as_slice(), id);
            page.put(b")");
        }
    }
}

/// Types that are below a bound, a space before each.
#[cycle(types_text)]
fn put_types(page: &mut Page, kernel: &Kernel, notation: &Notation, ids: &[TypeId], bound: TypeId)
    requires bound { bound < length kernel.now.types }
    requires below { All (λ i. i < bound) ids.now }
    ensures { IsPut (types_text notation.now (types_at kernel.now ids.now)) (printed page.old) (printed page.new) }
{
    for id in ids {
        page.put(b" ");
        put_type(page, kernel, notation, *id);
    }
}
