//! The texts of types.
ghost use Rattle.ot_log_nodes.specs.Items.{HasName, HasType, name_at, type_at};
ghost use Rattle.ot_text.specs.Texts.{name_text};
ghost use Rattle.ot_text.specs.Pages.{IsPut, printed};

use crate::table::InNodes;
use ot_log_nodes::{NameId, Nodes, TypeId, TypeNode};
use ot_text::{Page, Printable, TypeForm, Types};
use std::alloc::Global;

impl Types for InNodes<'_> {
    type Type = TypeId;

    ghost has_type = { λ t id. HasType t.nodes.now id };

    ghost type_at = { λ t id. type_at t.nodes.now id };

    fn type_form<'a>(&'a self, ty: &'a TypeId) -> TypeForm<'a, TypeId> {
        match self.nodes.type_node(*ty) {
            TypeNode::Var(name) => TypeForm::Variable(self.nodes.name_of(*name)),
            TypeNode::Op(name, args) => {
                TypeForm::Operator(self.nodes.name_of(*name), args.as_slice())
            }
        }
    }
}

impl Printable<InNodes<'_>> for NameId {
    ghost is_inside = { λ t n. HasName t.nodes.now n };

    ghost text = { λ t n. name_text (name_at t.nodes.now n) };

    fn put(&self, page: &mut Page, _alloc: Global, table: &InNodes<'_>) {
        put_name(page, table.nodes, *self);
    }
}

/// The spelling of a name.
pub(crate) fn put_name(page: &mut Page, nodes: &Nodes, name: NameId)
    requires { HasName nodes.now name }
    ensures { IsPut (name_text (name_at nodes.now name)) (printed page.old) (printed page.new) }
{
    ot_text::put_name(page, nodes.name_of(name));
}
