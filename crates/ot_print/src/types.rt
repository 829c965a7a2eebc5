//! The texts of types.
ghost use Rattle.std.specs.Prelude.{◌≡◌, ◌<◌, length, OnOk, OnErr, Err};
ghost use Rattle.ot_kernel.specs.State.{type_at};
ghost use Rattle.ot_text.specs.Texts.{ty_text};
ghost use Rattle.ot_text.specs.Pages.{Appended};

use crate::table::InKernel;
use ot_kernel::Kernel;
use ot_text::{Page, PrintFault, Printable, TypeForm, Types, append, put_type};
use ot_type::{TypeId, TypeNode};
use ot_view::type_node;
use std::alloc::Global;

/// Appends the text of a type. `TooLarge` exactly where it has more than `max` bytes. After a refusal `out` is as it
/// was.
pub fn type_text(
    kernel: &Kernel,
    id: TypeId,
    max: usize,
    out: &mut Vec<u8>,
) -> Result<(), PrintFault>
    requires { id < length kernel.now.types }
    ensures ok { OnOk result (Appended (ty_text (type_at kernel.now id)) max out.old.items out.new.items) }
    ensures too_large { result ≡ Err PrintFault.TooLarge → max < length (ty_text (type_at kernel.now id)) }
    ensures err { OnErr result (out.new.items ≡ out.old.items) }
{
    append(*out.allocator(), &InKernel { kernel }, &id, max, out)
}

impl Printable<InKernel<'_>> for TypeId {
    ghost is_inside = { λ t id. id < length t.kernel.now.types };

    ghost text = { λ t id. ty_text (type_at t.kernel.now id) };

    fn put(&self, page: &mut Page, _alloc: Global, table: &InKernel<'_>) {
        put_type(page, table, self);
    }
}

impl Types for InKernel<'_> {
    type Type = TypeId;

    ghost has_type = { λ t id. id < length t.kernel.now.types };

    ghost type_at = { λ t id. type_at t.kernel.now id };

    fn type_form<'a>(&'a self, ty: &'a TypeId) -> TypeForm<'a, TypeId> {
        let names = self.kernel.names();
        match type_node(self.kernel, *ty) {
            TypeNode::Var(name) => TypeForm::Variable(names.get(*name)),
            TypeNode::Op(name, args) => TypeForm::Operator(names.get(*name), args.as_slice()),
        }
    }
}
