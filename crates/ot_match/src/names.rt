//! Comparison of names.
ghost use Rattle.std.specs.Prelude.{◌≡◌, ◌<◌, length};
ghost use Rattle.ot_logic.specs.Names.{same_name};
ghost use Rattle.ot_kernel.specs.State.{name_at};

use ot_kernel::Kernel;
use ot_logic::{Name, NameId};

/// Whether two names are one.
pub(crate) fn is_same_name(left: &Name, right: &Name) -> bool
    ensures { result ≡ same_name left.now right.now }
{
    *left == *right
}

/// Whether a number of a name stands for this name.
pub(crate) fn is_name(kernel: &Kernel, name: &Name, id: NameId) -> bool
    requires { id < length kernel.now.names }
    ensures { result ≡ same_name name.now (name_at kernel.now id) }
{
    is_same_name(name, kernel.names().get(id))
}
