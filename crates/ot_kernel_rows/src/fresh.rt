//! Tables, kernels and sessions with nothing in them. Each comes in a box, so that the proof of whoever owns it doesn't
//! let go of each of its parts.
ghost use Rattle.std.specs.Prelude.{◌≡◌, [], IfOk};
ghost use Rattle.ot_logic.specs.Naming.{first_names};
ghost use Rattle.ot_machine.specs.Meaning.{run_of, IsRun};
ghost use Rattle.ot_machine.specs.States.{fresh_run};

use ot_kernel::Kernel;
use ot_logic::Memory;
use ot_machine::Session;
use ot_term::Terms;
use ot_type::Types;
use std::alloc::Global;

pub(crate) fn fresh_types(alloc: Global) -> Result<Box<Types>, Memory>
    ensures { IfOk result (λ types. types.value ≡ []) }
{
    Ok(Box::new(alloc, Types::new(alloc))?)
}

pub(crate) fn fresh_terms(alloc: Global) -> Result<Box<Terms>, Memory>
    ensures { IfOk result (λ terms. terms.value ≡ record { types = []; terms = []; classes = [] }) }
{
    Ok(Box::new(alloc, Terms::new(alloc))?)
}

/// With the first names.
pub(crate) fn fresh_kernel(alloc: Global) -> Result<Box<Kernel>, Memory>
    ensures { IfOk result (λ kernel. kernel.value.names ≡ first_names) }
{
    Ok(Box::new(alloc, Kernel::new(alloc)?)?)
}

pub(crate) fn fresh_session(alloc: Global) -> Result<Box<Session>, Memory>
    ensures run { IfOk result (λ session. run_of session.value ≡ fresh_run) }
    ensures is_run { IfOk result (λ session. IsRun session.value) }
{
    Ok(Box::new(alloc, Session::new(alloc)?)?)
}
