//! The spelling of a kernel's names, and the parts of its function types and of its equations.
ghost use Rattle.std.specs.Prelude.{◌≡◌, ◌<◌, List, false, length, IfNone, IfSome};
ghost use Rattle.ot_logic.specs.Names.{Name};
ghost use Rattle.ot_logic.specs.Naming.{names};
ghost use Rattle.ot_logic.specs.Trees.{Ty, Variable};
ghost use Rattle.ot_logic.specs.Hol.{fun_ty};
ghost use Rattle.ot_logic.specs.NamedTerms.{nameless_in};
ghost use Rattle.ot_kernel.specs.State.{name_at, type_at, named_at};
ghost use Rattle.ot_text.specs.Texts.{name_text, is_function, is_equation};
ghost use Rattle.ot_print.specs.Equations.{equation_of};
ghost use Rattle.ot_text.specs.Pages.{IsPut, printed};

use crate::table::InKernel;
use ot_kernel::Kernel;
use ot_logic::NameId;
use ot_term::TermId;
use ot_text::{Page, Printable};
use ot_type::TypeId;
use std::alloc::Global;

impl Printable<InKernel<'_>> for NameId {
    ghost is_inside = { λ t n. n < length t.kernel.now.names };

    ghost text = { λ t n. name_text (name_at t.kernel.now n) };

    fn put(&self, page: &mut Page, _alloc: Global, table: &InKernel<'_>) {
        put_name(page, table.kernel, *self);
    }
}

/// The spelling of a name.
pub(crate) fn put_name(page: &mut Page, kernel: &Kernel, name: NameId)
    requires { name < length kernel.now.names }
    ensures { IsPut (name_text (name_at kernel.now name)) (printed page.old) (printed page.new) }
{
    ot_text::put_name(page, kernel.names().get(name));
}

/// The argument type and the result type of a function type of the kernel, which have lower numbers; none exactly
/// where the type is no function type.
pub fn function_parts(kernel: &Kernel, id: TypeId) -> Option<(TypeId, TypeId)>
    requires { id < length kernel.now.types }
    ensures none { IfNone result (is_function names (type_at kernel.now id) ≡ false) }
    ensures parts { IfSome result (λ p. type_at kernel.now id
        ≡ fun_ty names (type_at kernel.now p.0) (type_at kernel.now p.1)) }
    ensures below { IfSome result (λ p. (p.0 < id) × (p.1 < id)) }
{
    kernel.sound();
    kernel.terms().types().as_fun(id)
}

/// The two sides of an equation of the kernel, which have lower numbers; none exactly where the term is no equation.
pub fn equation_sides(kernel: &Kernel, id: TermId) -> Option<(TermId, TermId)>
    requires { id < length kernel.now.terms }
    ensures none { IfNone result ((e : List (Variable Name))
        → is_equation names (nameless_in names e (named_at kernel.now.terms id)) ≡ false) }
    ensures sides { IfSome result (λ p. (ty : Ty Name)
        × (named_at kernel.now.terms id ≡ equation_of ty (named_at kernel.now.terms p.0)
        (named_at kernel.now.terms p.1))) }
    ensures below { IfSome result (λ p. (p.0 < id) × (p.1 < id)) }
{
    kernel.sound();
    kernel.terms().as_eq(id)
}
