//! The texts of terms.
ghost use Rattle.std.specs.Prelude.{◌++◌, codes};
ghost use Rattle.ot_log_nodes.specs.Items.{HasName, HasType, HasTerm, name_at, type_at, term_at};
ghost use Rattle.ot_text.specs.Texts.{name_text, ty_text, tm_text};
ghost use Rattle.ot_text.specs.Pages.{IsPut, printed};

use crate::table::InNodes;
use ot_log_nodes::{NameId, Nodes, TermId, TermNode, TypeId};
use ot_log_rules::as_equation;
use ot_text::{Page, Printable, put_type};
use std::alloc::Global;

impl Printable<InNodes<'_>> for TermId {
    ghost is_inside = { λ t id. HasTerm t.nodes.now id };

    ghost text = { λ t id. tm_text (term_at t.nodes.now id) };

    fn put(&self, page: &mut Page, _alloc: Global, table: &InNodes<'_>) {
        put_term(page, table.nodes, *self);
    }
}

/// A term. Nothing is read once the page takes no more, so a term costs no more than the limit.
pub(crate) fn put_term(page: &mut Page, nodes: &Nodes, id: TermId)
    requires { HasTerm nodes.now id }
    ensures { IsPut (tm_text (term_at nodes.now id)) (printed page.old) (printed page.new) }
{
    if page.is_stopped() {
        return;
    }
    if let Some(sides) = as_equation(nodes, id) {
        page.put(b"(");
        put_term(page, nodes, sides.left);
        page.put(b" = ");
        put_term(page, nodes, sides.right);
        page.put(b")");
        return;
    }
    match nodes.term_node(id) {
        TermNode::Free(v) => put_typed(page, nodes, v.name, v.ty),
        TermNode::Const(name, ty) => {
            page.put(b"@");
            put_typed(page, nodes, name, ty);
        }
        TermNode::Bound(place) => {
            page.put(b"#");
            page.put_number(place as usize);
        }
        TermNode::App(f, x) => {
            page.put(b"(");
            put_term(page, nodes, f);
            page.put(b" ");
            put_term(page, nodes, x);
            page.put(b")");
        }
        TermNode::Abs(ty, body) => {
            page.put(b"(\\");
            put_type(page, &InNodes { nodes }, &ty);
            page.put(b". ");
            put_term(page, nodes, body);
            page.put(b")");
        }
    }
}

/// A name and a type.
pub(crate) fn put_typed(page: &mut Page, nodes: &Nodes, name: NameId, ty: TypeId)
    requires name { HasName nodes.now name }
    requires ty { HasType nodes.now ty }
    ensures { IsPut (name_text (name_at nodes.now name) ++ codes ":" ++ ty_text (type_at nodes.now
        ty)) (printed page.old) (printed page.new) }
{
    ot_text::put_typed(page, &InNodes { nodes }, nodes.name_of(name), &ty);
}
