//! What stands on the stack of a machine of this session, and of which kind. 0 is the top.
ghost use Rattle.std.specs.Prelude.{◌≡◌, ◌<◌, ℕ, length, Ok, IfOk, OnOk, vec_len};
ghost use Rattle.ot_kernel.specs.State.{name_at, type_at, variable_at, term_at, theorem_at};
ghost use Rattle.ot_machine.specs.Meaning.{object_of, origin_of, entry_of, list_at, lists_of};
ghost use Rattle.ot_machine.specs.Meaning.{article_of, IsNumber, IsOf, IsIn, IsEntryIn, IsListIn};
ghost use Rattle.ot_machine.specs.Objects.{Lists};
ghost use Rattle.ot_machine.specs.Rows.{origin_at};
ghost use Rattle.ot_machine.specs.Places.{as_term, as_theorem, entry_at, list_entry, object_at};
ghost use Rattle.ot_machine.specs.Places.{number_on, name_on, list_on, type_op_on, type_on};
ghost use Rattle.ot_machine.specs.Places.{constant_on, variable_on, term_on, theorem_on};
ghost use Rattle.ot_machine.specs.Answers.{Makes};

use crate::fault::Fault;
use crate::machine::Machine;
use crate::object::{Entry, List, Object};
use crate::session::Session;
use ot_kernel::ThmId;
use ot_logic::{Kind, NameId};
use ot_term::{TermId, VarKey};
use ot_trace::StepId;
use ot_type::TypeId;

impl Session {
    /// What stands at a place.
    #[inline(always)]
    pub(crate) fn entry_at(&self, machine: &Machine, place: usize) -> Result<Entry, Fault>
        requires { IsOf self.now machine.now }
        ensures found { Makes self.now.kernel (entry_of self.now (lists_of self.now machine.now)) result
            (entry_at place (article_of self.now machine.now).stack) }
        ensures inside { IfOk result (IsEntryIn self.now (length machine.now.cells.items)) }
    {
        if place < machine.stack.len() {
            Ok(self.entry_inside(machine, place))
        } else {
            Err(Fault::StackEmpty)
        }
    }

    /// What stands at a place of the stack.
    pub(crate) fn entry_inside(&self, machine: &Machine, place: usize) -> Entry
        requires of { IsOf self.now machine.now }
        requires there { place < vec_len machine.now.stack }
        ensures found { entry_at place (article_of self.now machine.now).stack
            ≡ Ok (entry_of self.now (lists_of self.now machine.now) result) }
        ensures inside { IsEntryIn self.now (length machine.now.cells.items) result }
    {
        machine.stack[machine.stack.len() - 1 - place]
    }

    /// The object at a place.
    #[inline(always)]
    pub(crate) fn object_at(&self, machine: &Machine, place: usize) -> Result<Object, Fault>
        requires { IsOf self.now machine.now }
        ensures found { Makes self.now.kernel (object_of self.now.kernel (lists_of self.now machine.now)) result
            (object_at place (article_of self.now machine.now).stack) }
        ensures inside { IfOk result (IsIn self.now.kernel (length machine.now.cells.items)) }
    {
        if place < machine.stack.len() {
            Ok(self.entry_inside(machine, place).object)
        } else {
            Err(Fault::StackEmpty)
        }
    }

    /// The number at a place.
    #[inline(always)]
    pub(crate) fn number_on(&self, machine: &Machine, place: usize) -> Result<i64, Fault>
        requires { IsOf self.now machine.now }
        ensures { Makes self.now.kernel (λ n. n) result (number_on place (article_of self.now machine.now).stack) }
    {
        match self.object_at(machine, place)? {
            Object::Number(number) => Ok(number),
            other => Err(Fault::WrongKind(Kind::Num, other.kind())),
        }
    }

    /// The name at a place.
    pub(crate) fn name_on(&self, machine: &Machine, place: usize) -> Result<NameId, Fault>
        requires { IsOf self.now machine.now }
        ensures found { Makes self.now.kernel (name_at self.now.kernel) result
            (name_on place (article_of self.now machine.now).stack) }
        ensures inside { IfOk result (λ n. n < length self.now.kernel.names) }
    {
        match self.object_at(machine, place)? {
            Object::Name(name) => Ok(name),
            other => Err(Fault::WrongKind(Kind::Name, other.kind())),
        }
    }

    /// The list at a place.
    #[inline(always)]
    pub(crate) fn list_on(&self, machine: &Machine, place: usize) -> Result<List, Fault>
        requires { IsOf self.now machine.now }
        ensures found { Makes self.now.kernel (list_at (lists_of self.now machine.now)) result
            (list_on place (article_of self.now machine.now).stack) }
        ensures inside { IfOk result (IsListIn (length machine.now.cells.items)) }
    {
        match self.object_at(machine, place)? {
            Object::List(list) => Ok(list),
            other => Err(Fault::WrongKind(Kind::List, other.kind())),
        }
    }

    /// The list at a place, and its step.
    pub(crate) fn list_entry(
        &self,
        machine: &Machine,
        place: usize,
    ) -> Result<(List, StepId), Fault>
        requires { IsOf self.now machine.now }
        ensures found { Makes self.now.kernel (λ p. list_at (lists_of self.now machine.now) p.0) result
            (list_on place (article_of self.now machine.now).stack) }
        ensures entry { Makes self.now.kernel (λ p. (list_at (lists_of self.now machine.now) p.0, origin_of self.now p.1))
            result (list_entry place (article_of self.now machine.now).stack) }
        ensures origin { IfOk result (λ p. origin_of self.now p.1 ≡ origin_at place (article_of self.now machine.now).stack) }
        ensures inside { IfOk result (λ p. IsListIn (length machine.now.cells.items) p.0) }
        ensures step { IfOk result (λ p. p.1 < length self.now.trace) }
    {
        let entry = self.entry_at(machine, place)?;
        let step = entry.step;
        match entry.object {
            Object::List(list) => Ok((list, self.step_of(entry.object, step))),
            other => Err(Fault::WrongKind(Kind::List, other.kind())),
        }
    }

    /// The type operator at a place.
    pub(crate) fn type_op_on(&self, machine: &Machine, place: usize) -> Result<NameId, Fault>
        requires { IsOf self.now machine.now }
        ensures found { Makes self.now.kernel (name_at self.now.kernel) result
            (type_op_on place (article_of self.now machine.now).stack) }
        ensures inside { IfOk result (λ n. n < length self.now.kernel.names) }
    {
        match self.object_at(machine, place)? {
            Object::TypeOp(name) => Ok(name),
            other => Err(Fault::WrongKind(Kind::TyOp, other.kind())),
        }
    }

    /// The type at a place.
    pub(crate) fn type_on(&self, machine: &Machine, place: usize) -> Result<TypeId, Fault>
        requires { IsOf self.now machine.now }
        ensures found { Makes self.now.kernel (type_at self.now.kernel) result
            (type_on place (article_of self.now machine.now).stack) }
        ensures inside { IfOk result (λ t. t < length self.now.kernel.types) }
    {
        match self.object_at(machine, place)? {
            Object::Type(ty) => Ok(ty),
            other => Err(Fault::WrongKind(Kind::Ty, other.kind())),
        }
    }

    /// The constant at a place.
    pub(crate) fn constant_on(&self, machine: &Machine, place: usize) -> Result<NameId, Fault>
        requires { IsOf self.now machine.now }
        ensures found { Makes self.now.kernel (name_at self.now.kernel) result
            (constant_on place (article_of self.now machine.now).stack) }
        ensures inside { IfOk result (λ n. n < length self.now.kernel.names) }
    {
        match self.object_at(machine, place)? {
            Object::Const(name) => Ok(name),
            other => Err(Fault::WrongKind(Kind::Con, other.kind())),
        }
    }

    /// The variable at a place.
    pub(crate) fn variable_on(&self, machine: &Machine, place: usize) -> Result<VarKey, Fault>
        requires { IsOf self.now machine.now }
        ensures found { Makes self.now.kernel (variable_at self.now.kernel) result
            (variable_on place (article_of self.now machine.now).stack) }
        ensures name { IfOk result (λ v. v.name < length self.now.kernel.names) }
        ensures ty { IfOk result (λ v. v.ty < length self.now.kernel.types) }
    {
        match self.object_at(machine, place)? {
            Object::Var(variable) => Ok(variable),
            other => Err(Fault::WrongKind(Kind::Var, other.kind())),
        }
    }

    /// The term at a place.
    pub(crate) fn term_on(&self, machine: &Machine, place: usize) -> Result<TermId, Fault>
        requires { IsOf self.now machine.now }
        ensures found { Makes self.now.kernel (term_at self.now.kernel) result
            (term_on place (article_of self.now machine.now).stack) }
        ensures inside { IfOk result (λ t. t < length self.now.kernel.terms) }
    {
        match self.object_at(machine, place)? {
            Object::Term(term) => Ok(term),
            other => Err(Fault::WrongKind(Kind::Tm, other.kind())),
        }
    }

    /// The theorem at a place.
    pub(crate) fn theorem_on(&self, machine: &Machine, place: usize) -> Result<ThmId, Fault>
        requires { IsOf self.now machine.now }
        ensures found { Makes self.now.kernel (theorem_at self.now.kernel) result
            (theorem_on place (article_of self.now machine.now).stack) }
        ensures inside { IfOk result (λ th. th < length self.now.kernel.theorems) }
    {
        match self.object_at(machine, place)? {
            Object::Theorem(theorem) => Ok(theorem),
            other => Err(Fault::WrongKind(Kind::Thm, other.kind())),
        }
    }

    /// The term at a place, and its step.
    pub(crate) fn term_entry(
        &self,
        machine: &Machine,
        place: usize,
    ) -> Result<(TermId, StepId), Fault>
        requires { IsOf self.now machine.now }
        ensures found { Makes self.now.kernel (λ p. term_at self.now.kernel p.0) result
            (term_on place (article_of self.now machine.now).stack) }
        ensures origin { IfOk result (λ p. origin_of self.now p.1 ≡ origin_at place (article_of self.now machine.now).stack) }
        ensures inside { IfOk result (λ p. p.0 < length self.now.kernel.terms) }
        ensures step { IfOk result (λ p. p.1 < length self.now.trace) }
    {
        let entry = self.entry_at(machine, place)?;
        let step = entry.step;
        let term = self.term_of(entry.object)?;
        Ok((term, self.step_of(entry.object, step)))
    }

    /// The theorem at a place, and its step.
    pub(crate) fn theorem_entry(
        &self,
        machine: &Machine,
        place: usize,
    ) -> Result<(ThmId, StepId), Fault>
        requires { IsOf self.now machine.now }
        ensures found { Makes self.now.kernel (λ p. theorem_at self.now.kernel p.0) result
            (theorem_on place (article_of self.now machine.now).stack) }
        ensures origin { IfOk result (λ p. origin_of self.now p.1 ≡ origin_at place (article_of self.now machine.now).stack) }
        ensures inside { IfOk result (λ p. p.0 < length self.now.kernel.theorems) }
        ensures step { IfOk result (λ p. p.1 < length self.now.trace) }
    {
        let entry = self.entry_at(machine, place)?;
        let step = entry.step;
        let theorem = self.theorem_of(entry.object)?;
        Ok((theorem, self.step_of(entry.object, step)))
    }

    /// An object that has to be a term.
    fn term_of(&self, object: Object) -> Result<TermId, Fault>
        ensures found { (cs : Lists) → Makes self.now.kernel (term_at self.now.kernel) result
            (as_term (object_of self.now.kernel cs object)) }
        ensures made { OnOk result (IsNumber object → ⊥) }
        ensures inside { (n : ℕ) → IsIn self.now.kernel n object → IfOk result (λ t. t < length self.now.kernel.terms) }
    {
        match object {
            Object::Term(term) => Ok(term),
            other => Err(Fault::WrongKind(Kind::Tm, other.kind())),
        }
    }

    /// An object that has to be a theorem.
    fn theorem_of(&self, object: Object) -> Result<ThmId, Fault>
        ensures found { (cs : Lists) → Makes self.now.kernel (theorem_at self.now.kernel) result
            (as_theorem (object_of self.now.kernel cs object)) }
        ensures made { OnOk result (IsNumber object → ⊥) }
        ensures inside { (n : ℕ) → IsIn self.now.kernel n object → IfOk result (λ th. th < length self.now.kernel.theorems) }
    {
        match object {
            Object::Theorem(theorem) => Ok(theorem),
            other => Err(Fault::WrongKind(Kind::Thm, other.kind())),
        }
    }
}
