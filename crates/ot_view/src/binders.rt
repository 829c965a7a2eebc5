//! The binders around a term.
ghost use Rattle.std.specs.Prelude.{◌≡◌, ◌<◌, ◌^◌, length, IfSome};
ghost use Rattle.ot_logic.specs.Naming.{names};
ghost use Rattle.ot_logic.specs.NamedTerms.{place as place_of};
ghost use Rattle.ot_kernel.specs.State.{variable_at};
ghost use Rattle.ot_view.specs.Nodes.{IsKey};
ghost use Rattle.ot_view.specs.Binders.{binders_at, AreKeys};

use crate::same_variable;
use ot_kernel::Kernel;
use ot_term::VarKey;

/// The binders around a term, the innermost first.
#[derive(Clone, Copy)]
pub enum Binders<'a> {
    Outermost,
    /// The innermost one, and those around it.
    Inside(&'a VarKey, &'a Binders<'a>),
}

/// The place of a variable among binders, the innermost one's being 0: none exactly where no binder binds it.
pub fn place(kernel: &Kernel, binders: &Binders<'_>, v: &VarKey) -> Option<usize>
    requires key { IsKey kernel.now v.now }
    requires binders { AreKeys kernel.now binders.now }
    requires fits { length (binders_at kernel.now binders.now) < 2 ^ 64 }
    ensures place { result ≡ place_of names (binders_at kernel.now binders.now) (variable_at kernel.now v.now) }
    ensures below { IfSome result (λ k. k < length (binders_at kernel.now binders.now)) }
{
    match binders {
        Binders::Outermost => None,
        Binders::Inside(w, around) => {
            if same_variable(kernel, v, w) {
                return Some(0);
            }
            match place(kernel, around, v) {
                Some(number) => Some(number + 1),
                None => None,
            }
        }
    }
}
