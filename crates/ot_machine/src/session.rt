ghost use Rattle.std.specs.Prelude.{◌≡◌, Some, slice_get, IfOk};
ghost use Rattle.ot_kernel.specs.State.{SameTheorems};
ghost use Rattle.ot_machine.specs.States.{fresh_run};
ghost use Rattle.ot_machine.specs.Meaning.{run_of, IsRun, Grows};

use ot_kernel::Kernel;
use ot_logic::{Memory, Name, NameId};
use ot_trace::{StepId, Trace};
use std::alloc::Global;

/// What goes on through a whole run: one kernel for all its articles, how everything was made, and the steps of the
/// assumptions and of the definitions, each in its order.
#[derive(Drop)]
pub struct Session {
    pub(crate) kernel: Kernel,
    pub(crate) trace: Trace,
    pub(crate) assumption_steps: Vec<StepId>,
    pub(crate) definition_steps: Vec<StepId>,
}

impl Session {
    /// A session before its first article.
    pub fn new(alloc: Global) -> Result<Session, Memory>
        ensures run { IfOk result (λ s. run_of s ≡ fresh_run) }
        ensures is_run { IfOk result IsRun }
    {
        Ok(Session {
            kernel: Kernel::new(alloc)?,
            trace: Trace::new(alloc),
            assumption_steps: Vec::new(alloc),
            definition_steps: Vec::new(alloc),
        })
    }

    /// The number of a name. Every number stands for what it stood for, and the run is as before.
    pub fn intern(&mut self, name: Name) -> Result<NameId, Memory>
        requires { IsRun self.old }
        ensures ok { IfOk result (λ id. slice_get self.new.kernel.names id ≡ Some name) }
        ensures grown { Grows self.old self.new }
        ensures same { SameTheorems self.old.kernel self.new.kernel }
        ensures run { run_of self.new ≡ run_of self.old }
        ensures is_run { IsRun self.new }
    {
        self.kernel.intern(name)
    }

    /// The kernel that holds the theorems of the run.
    pub fn kernel(&self) -> &Kernel
        ensures { result.now ≡ self.now.kernel }
    {
        &self.kernel
    }

    /// How everything in the run was made.
    pub fn trace(&self) -> &Trace
        ensures { result.now ≡ self.now.trace }
    {
        &self.trace
    }

    /// The steps of the assumptions of the run, in their order.
    pub fn assumption_steps(&self) -> &[StepId]
        ensures { result.now ≡ self.now.assumption_steps.items }
    {
        &self.assumption_steps
    }

    /// The steps of the definitions of the run, in their order.
    pub fn definition_steps(&self) -> &[StepId]
        ensures { result.now ≡ self.now.definition_steps.items }
    {
        &self.definition_steps
    }
}
