//! The maps of a substitution, read from a list of a machine of this session.
ghost use Rattle.std.specs.Prelude.{◌≡◌, ◌<◌, ℕ, [], length, IfOk};
ghost use Rattle.ot_kernel.specs.State.{name_at, type_at, variable_at, term_at};
ghost use Rattle.ot_kernel.specs.Pairs.{type_pairs, term_pairs, AreTypePairs, IsSubstIn};
ghost use Rattle.ot_logic.specs.Faults.{BadSubst};
ghost use Rattle.ot_machine.specs.Objects.{Lists};
ghost use Rattle.ot_machine.specs.Parts.{or_bad};
ghost use Rattle.ot_machine.specs.Places.{as_type, as_term};
ghost use Rattle.ot_machine.specs.Substitutions.{type_pair, term_pair, types_onto, terms_onto, maps_of};
ghost use Rattle.ot_machine.specs.Meaning.{object_of, list_at, lists_of, IsOf, IsIn, IsListIn};
ghost use Rattle.ot_machine.specs.Answers.{Makes};

use crate::fault::Fault;
use crate::machine::Machine;
use crate::object::{List, Object};
use crate::parts::ListForm;
use crate::session::Session;
use ot_logic::NameId;
use ot_subst::Subst;
use ot_term::{TermId, VarKey};
use ot_type::{TypeId, TypeSubst};
use std::alloc::Global;

impl Session {
    /// The maps of a list.
    pub(crate) fn maps_of(
        &self,
        alloc: Global,
        machine: &Machine,
        list: List,
    ) -> Result<Subst, Fault>
        requires of { IsOf self.now machine.now }
        requires inside { IsListIn (length machine.now.cells.items) list }
        ensures read { Makes self.now.kernel (λ s. (type_pairs self.now.kernel s.types, term_pairs self.now.kernel s))
            result (maps_of (list_at (lists_of self.now machine.now) list)) }
        ensures inside { IfOk result (IsSubstIn self.now.kernel) }
    {
        let (types, terms) = self.two_of(machine, list, ListForm::Substitution)?;
        let types = self.list_in(types, ListForm::Substitution)?;
        let terms = self.list_in(terms, ListForm::Substitution)?;
        let types = self.types_onto(alloc, machine, types)?;
        self.terms_onto(alloc, machine, types, terms)
    }

    /// The types of names.
    fn types_onto(&self, alloc: Global, machine: &Machine, list: List) -> Result<TypeSubst, Fault>
        requires of { IsOf self.now machine.now }
        requires inside { IsListIn (length machine.now.cells.items) list }
        ensures read { Makes self.now.kernel (type_pairs self.now.kernel) result
            (types_onto [] (list_at (lists_of self.now machine.now) list)) }
        ensures inside { IfOk result (AreTypePairs self.now.kernel) }
    {
        let mut types = TypeSubst::new(alloc);
        let mut rest = list;
        'pairs: while let Some((pair, tail)) = self.first(machine, rest) {
            let (name, ty) = self.type_pair(machine, pair)?;
            self.kernel.add_type(&mut types, name, ty)?;
            rest = tail;
        }
        Ok(types)
    }

    /// The terms of variables, with the types of names.
    fn terms_onto(
        &self,
        alloc: Global,
        machine: &Machine,
        types: TypeSubst,
        list: List,
    ) -> Result<Subst, Fault>
        requires of { IsOf self.now machine.now }
        requires types { AreTypePairs self.now.kernel types }
        requires inside { IsListIn (length machine.now.cells.items) list }
        ensures read { Makes self.now.kernel (term_pairs self.now.kernel) result
            (terms_onto [] (list_at (lists_of self.now machine.now) list)) }
        ensures types { IfOk result (λ s. s.types ≡ types) }
        ensures inside { IfOk result (IsSubstIn self.now.kernel) }
    {
        let mut maps = Subst::new(alloc, types);
        let mut rest = list;
        'pairs: while let Some((pair, tail)) = self.first(machine, rest) {
            let (variable, term) = self.term_pair(machine, pair)?;
            if !self.kernel.add_term(&mut maps, variable, term)? {
                return Err(Fault::BadSubst);
            }
            rest = tail;
        }
        Ok(maps)
    }

    /// A name and a type.
    fn type_pair(&self, machine: &Machine, pair: Object) -> Result<(NameId, TypeId), Fault>
        requires of { IsOf self.now machine.now }
        requires inside { IsIn self.now.kernel (length machine.now.cells.items) pair }
        ensures read { Makes self.now.kernel (λ p. (name_at self.now.kernel p.0, type_at self.now.kernel p.1)) result
            (type_pair (object_of self.now.kernel (lists_of self.now machine.now) pair)) }
        ensures name { IfOk result (λ p. p.0 < length self.now.kernel.names) }
        ensures ty { IfOk result (λ p. p.1 < length self.now.kernel.types) }
    {
        let list = self.list_in(pair, ListForm::Substitution)?;
        let (name, ty) = self.two_of(machine, list, ListForm::Substitution)?;
        let name = self.name_in(name, ListForm::Substitution)?;
        let ty = self.type_in(ty)?;
        Ok((name, ty))
    }

    /// A variable and a term.
    fn term_pair(&self, machine: &Machine, pair: Object) -> Result<(VarKey, TermId), Fault>
        requires of { IsOf self.now machine.now }
        requires inside { IsIn self.now.kernel (length machine.now.cells.items) pair }
        ensures read { Makes self.now.kernel (λ p. (variable_at self.now.kernel p.0, term_at self.now.kernel p.1))
            result (term_pair (object_of self.now.kernel (lists_of self.now machine.now) pair)) }
        ensures name { IfOk result (λ p. p.0.name < length self.now.kernel.names) }
        ensures ty { IfOk result (λ p. p.0.ty < length self.now.kernel.types) }
        ensures term { IfOk result (λ p. p.1 < length self.now.kernel.terms) }
    {
        let list = self.list_in(pair, ListForm::Substitution)?;
        let (variable, term) = self.two_of(machine, list, ListForm::Substitution)?;
        let variable = self.variable_in(variable, ListForm::Substitution)?;
        let term = self.term_in(term)?;
        Ok((variable, term))
    }

    /// An object that has to be a type.
    fn type_in(&self, object: Object) -> Result<TypeId, Fault>
        ensures read { (cs : Lists) → Makes self.now.kernel (type_at self.now.kernel) result
            (or_bad BadSubst (as_type (object_of self.now.kernel cs object))) }
        ensures inside { (n : ℕ) → IsIn self.now.kernel n object → IfOk result (λ t. t < length self.now.kernel.types) }
    {
        match object {
            Object::Type(ty) => Ok(ty),
            _ => Err(Fault::BadSubst),
        }
    }

    /// An object that has to be a term.
    fn term_in(&self, object: Object) -> Result<TermId, Fault>
        ensures read { (cs : Lists) → Makes self.now.kernel (term_at self.now.kernel) result
            (or_bad BadSubst (as_term (object_of self.now.kernel cs object))) }
        ensures inside { (n : ℕ) → IsIn self.now.kernel n object → IfOk result (λ t. t < length self.now.kernel.terms) }
    {
        match object {
            Object::Term(term) => Ok(term),
            _ => Err(Fault::BadSubst),
        }
    }
}
