//! How the subterms of a term are found, and the types that stand in them. What is shared is looked at once: a number's
//! parts have lower numbers, so the greatest number that is left is taken each time.
ghost use Rattle.std.specs.Prelude.{◌≡◌, ℕ, ◌<◌, None, Some, length, IfOk, OnOk, MatchOption};
ghost use Rattle.std.specs.List.{All};
ghost use Rattle.ot_type.specs.TypeTable.{type_at};
ghost use Rattle.ot_type.specs.Subtypes.{IsSubtype};

use crate::collect::add_all;
use crate::table::Terms;
use crate::term::{TermId, TermNode};
use ot_logic::Memory;
use ot_type::{TypeId, TypeNode};
use std::alloc::Global;
use std::collections::BTreeSet;

impl Terms {
    ghost use Rattle.ot_term.specs.TermTable.{term_at};
    ghost use Rattle.ot_term.specs.Walk.{AddsParts, AreFound, IsInsideSome};
    ghost use Rattle.ot_term.specs.Gather.{IsSubterm, own_type, AreOwnTypes, IsMentioned};

    /// The numbers of a term and of all its subterms, each once, the greatest first.
    pub(super) fn subterms(&self, alloc: Global, id: TermId) -> Result<Vec<TermId>, Memory>
        requires { id < length self.now.terms }
        ensures { IfOk result (λ ids. AreFound (term_at self.now.terms) (length self.now.terms)
            (λ u. IsSubterm u (term_at self.now.terms id)) ids.items) }
    {
        let mut found = Vec::new(alloc);
        let mut pending = BTreeSet::new(alloc);
        pending.insert(id)?;
        while let Some(next) = pending.pop_last() {
            self.add_parts(next, &mut pending)?;
            found.push(next)?;
        }
        Ok(found)
    }

    /// Adds the parts of a term.
    fn add_parts(&self, id: TermId, pending: &mut BTreeSet<TermId>) -> Result<(), Memory>
        requires { id < length self.now.terms }
        ensures { OnOk result (AddsParts (term_at self.now.terms) IsSubterm id pending.old.keys pending.new.keys) }
    {
        match *self.node(id) {
            TermNode::App(f, x) => add_all(pending, &[f, x]),
            TermNode::Abs(_, body) => add_all(pending, &[body]),
            TermNode::Var(_) | TermNode::Const(_, _) => Ok(()),
        }
    }

    /// The numbers of the types that stand in the terms, and of all types inside these, each once, the greatest first.
    pub(super) fn types_in(&self, alloc: Global, ids: &[TermId]) -> Result<Vec<TypeId>, Memory>
        requires { All (λ i. i < length self.now.terms) ids.now }
        ensures { IfOk result (λ types. AreFound (type_at self.now.types) (length self.now.types)
            (IsMentioned self.now ids.now) types.items) }
    {
        let pending = self.own_types(alloc, ids)?;
        self.subtypes(alloc, pending)
    }

    /// The numbers of the types of variables, constants and binders among the terms.
    fn own_types(&self, alloc: Global, ids: &[TermId]) -> Result<BTreeSet<TypeId>, Memory>
        requires { All (λ i. i < length self.now.terms) ids.now }
        ensures { IfOk result (λ types. AreOwnTypes self.now ids.now types.keys) }
    {
        let mut types = BTreeSet::new(alloc);
        for id in ids {
            if let Some(ty) = self.own_type(*id) {
                types.insert(ty)?;
            }
        }
        Ok(types)
    }

    /// The type of a variable, a constant or a binder.
    fn own_type(&self, id: TermId) -> Option<TypeId>
        requires { id < length self.now.terms }
        ensures { MatchOption result (own_type (term_at self.now.terms id) ≡ None)
            (λ ty. (ty < length self.now.types)
            × (own_type (term_at self.now.terms id) ≡ Some (type_at self.now.types ty))) }
    {
        match *self.node(id) {
            TermNode::Var(v) => Some(v.ty),
            TermNode::Const(_, ty) => Some(ty),
            TermNode::App(_, _) => None,
            TermNode::Abs(v, _) => Some(v.ty),
        }
    }

    /// The numbers of types and of all types inside them, each once, the greatest first.
    fn subtypes(&self, alloc: Global, mut pending: BTreeSet<TypeId>) -> Result<Vec<TypeId>, Memory>
        requires { All (λ k. k < length self.now.types) pending.keys }
        ensures { IfOk result (λ types. AreFound (type_at self.now.types) (length self.now.types)
            (IsInsideSome (type_at self.now.types) IsSubtype pending.keys) types.items) }
    {
        let mut found = Vec::new(alloc);
        while let Some(next) = pending.pop_last() {
            self.add_arguments(next, &mut pending)?;
            found.push(next)?;
        }
        Ok(found)
    }

    /// Adds the arguments of a type.
    fn add_arguments(&self, id: TypeId, pending: &mut BTreeSet<TypeId>) -> Result<(), Memory>
        requires { id < length self.now.types }
        ensures { OnOk result (AddsParts (type_at self.now.types) IsSubtype id pending.old.keys pending.new.keys) }
    {
        match self.types.node(id) {
            TypeNode::Var(_) => Ok(()),
            TypeNode::Op(_, args) => add_all(pending, args.as_slice()),
        }
    }
}
