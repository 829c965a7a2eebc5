//! The parts of lists of a machine of this session that a command reads as a whole.
ghost use Rattle.std.specs.Prelude.{◌≡◌, ◌<◌, ℕ, Some, length, IfOk};
ghost use Rattle.ot_logic.specs.Names.{Name};
ghost use Rattle.ot_kernel.specs.State.{State, name_at, variable_at};
ghost use Rattle.ot_machine.specs.Faults.{fault_of};
ghost use Rattle.ot_machine.specs.Objects.{Lists};
ghost use Rattle.ot_machine.specs.Parts.{or_bad, two_of, bad_list};
ghost use Rattle.ot_machine.specs.Places.{as_list, as_name, as_variable};
ghost use Rattle.ot_machine.specs.Meaning.{object_of, list_at, lists_of, IsOf, IsIn, IsListIn};
ghost use Rattle.ot_machine.specs.Answers.{Makes, IsHead, IsSymbolIn};

use crate::fault::Fault;
use crate::machine::Machine;
use crate::object::{List, Object};
use crate::session::Session;
use ot_logic::NameId;
use ot_term::VarKey;

/// What a list that is read as a whole has to be.
#[derive(Clone, Copy)]
pub(crate) enum ListForm {
    Substitution,
    Definition,
}

impl ListForm {
    /// The fault of a list that doesn't fit.
    pub(crate) fn bad(self) -> Fault
        ensures named { (read : ℕ → Name) → fault_of read result ≡ Some (bad_list self) }
        ensures symbol { (k : State) → IsSymbolIn k result }
    {
        match self {
            ListForm::Substitution => Fault::BadSubst,
            ListForm::Definition => Fault::BadDefinitionList,
        }
    }
}

impl Session {
    /// The two objects of a list.
    pub(crate) fn two_of(
        &self,
        machine: &Machine,
        list: List,
        form: ListForm,
    ) -> Result<(Object, Object), Fault>
        requires of { IsOf self.now machine.now }
        requires inside { IsListIn (length machine.now.cells.items) list }
        ensures read { Makes self.now.kernel
            (λ p. (
              object_of self.now.kernel (lists_of self.now machine.now) p.0,
              object_of self.now.kernel
                  (lists_of self.now machine.now) p.1,
            )) result
            (two_of (bad_list form) (list_at (lists_of self.now machine.now) list)) }
        ensures first { IfOk result (λ p. IsIn self.now.kernel (length machine.now.cells.items) p.0) }
        ensures second { IfOk result (λ p. IsIn self.now.kernel (length machine.now.cells.items) p.1) }
    {
        let Some((one, rest)) = self.first(machine, list) else {
            return Err(form.bad());
        };
        let Some((other, rest)) = self.first(machine, rest) else {
            return Err(form.bad());
        };
        match self.first(machine, rest) {
            Some(_) => Err(form.bad()),
            None => Ok((one, other)),
        }
    }

    /// The first object of a list, and the rest.
    pub(crate) fn first(&self, machine: &Machine, list: List) -> Option<(Object, List)>
        requires of { IsOf self.now machine.now }
        requires inside { IsListIn (length machine.now.cells.items) list }
        ensures { IsHead self.now.kernel machine.now.cells.items list result }
    {
        match list {
            List::Nil => None,
            List::Cell(place) => {
                let cell = &machine.cells[place as usize];
                Some((cell.head, cell.tail))
            }
        }
    }

    /// An object that has to be a list.
    pub(crate) fn list_in(&self, object: Object, form: ListForm) -> Result<List, Fault>
        ensures read { (cs : Lists) → Makes self.now.kernel (list_at cs) result
            (or_bad (bad_list form) (as_list (object_of self.now.kernel cs object))) }
        ensures inside { (n : ℕ) → IsIn self.now.kernel n object → IfOk result (IsListIn n) }
    {
        match object {
            Object::List(list) => Ok(list),
            _ => Err(form.bad()),
        }
    }

    /// An object that has to be a name.
    pub(crate) fn name_in(&self, object: Object, form: ListForm) -> Result<NameId, Fault>
        ensures read { (cs : Lists) → Makes self.now.kernel (name_at self.now.kernel) result
            (or_bad (bad_list form) (as_name (object_of self.now.kernel cs object))) }
        ensures inside { (n : ℕ) → IsIn self.now.kernel n object → IfOk result (λ i. i < length self.now.kernel.names) }
    {
        match object {
            Object::Name(name) => Ok(name),
            _ => Err(form.bad()),
        }
    }

    /// An object that has to be a variable.
    pub(crate) fn variable_in(&self, object: Object, form: ListForm) -> Result<VarKey, Fault>
        ensures read { (cs : Lists) → Makes self.now.kernel (variable_at self.now.kernel) result
            (or_bad (bad_list form)
            (as_variable (object_of self.now.kernel cs object))) }
        ensures name { (n : ℕ) → IsIn self.now.kernel n object → IfOk result (λ v. v.name < length self.now.kernel.names) }
        ensures ty { (n : ℕ) → IsIn self.now.kernel n object → IfOk result (λ v. v.ty < length self.now.kernel.types) }
    {
        match object {
            Object::Var(variable) => Ok(variable),
            _ => Err(form.bad()),
        }
    }
}
