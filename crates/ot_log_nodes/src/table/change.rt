//! A change of a nameless term throughout: a variable closed, a place opened, or a substitution.
//! Parts that are shared are worked on once at each depth, and those that the change leaves as they
//! are once for all depths.
ghost use Rattle.std.specs.Prelude.{◌≡◌, ◌<◌, ◌+◌, ◌^◌, List, Some, IfOk, OnOk};
ghost use Rattle.std.specs.Bool.{OnTrue};
ghost use Rattle.std.specs.Map.{lookup};
ghost use Rattle.ot_logic.specs.Table.{Extends};
ghost use Rattle.ot_logic.specs.Trees.{Free};
ghost use Rattle.ot_log_nodes.specs.Items.{Item, IsTerm, term_at};
ghost use Rattle.ot_log_nodes.specs.Changing.{changed, changing, opened_at, inner_of};

use crate::node::{NameId, TermId, TermNode, TypeId, TypeNode, VariableNode};
use crate::table::Nodes;
use indexmap::IndexMap;
use ot_logic::Memory;
use smallvec::SmallVec;
use std::alloc::Global;

/// What is done to a term throughout.
#[derive(Drop)]
pub enum Change {
    /// A variable becomes the place of an abstraction around.
    Close(VariableNode),
    /// A term without open places takes the place of the abstraction around.
    Open(TermId),
    /// Types take the places of type variables, then terms those of variables.
    Put {
        types: IndexMap<NameId, TypeId>,
        terms: IndexMap<VariableNode, TermId>,
    },
}

/// A term under some abstractions.
#[derive(Clone, Copy, PartialEq, Eq, Hash)]
pub(crate) struct Place {
    depth: u64,
    id: TermId,
}

/// What is remembered of the types and terms that a change worked on. A term without the variable
/// that is closed stands at depth 0, wherever it was met.
#[derive(Drop)]
pub struct Done {
    types: IndexMap<TypeId, TypeId>,
    terms: IndexMap<Place, TermId>,
}

impl Done {
    ghost use Rattle.std.specs.Prelude.{List};
    ghost use Rattle.ot_log_nodes.specs.Items.{Item};
    ghost use Rattle.ot_log_nodes.specs.Changing.{Changing, IsDone, same_place};

    /// Nothing was worked on.
    pub fn new(alloc: Global) -> Done
        ensures { (ts : List Item) (c : Changing) → IsDone ts c result }
    {
        Done {
            types: IndexMap::new(alloc),
            terms: IndexMap::new(alloc),
        }
    }

    /// Whether it is known that the term stays as it is at depth 0.
    fn stays(&self, id: TermId) -> bool
        ensures { OnTrue result (lookup (same_place (record {
          depth = 0;
          id = id;
        })) self.now.terms.entries ≡ Some id) }
    {
        match self.terms.get(&Place { depth: 0, id }) {
            Some(known) => *known == id,
            None => false,
        }
    }
}

impl Nodes {
    ghost use Rattle.ot_log_nodes.specs.Items.{IsType, IsTerm, HasType, HasTerm, type_at, term_at};
    ghost use Rattle.ot_log_nodes.specs.Changing.{changed, retyped, changing, variable_at, HasVariable, HasChange, IsDone};

    /// A term, changed throughout. What is remembered serves further terms under the same change.
    pub fn change(&mut self, change: &Change, done: &mut Done, id: TermId) -> Result<TermId, Memory>
        requires id { HasTerm self.old id }
        requires change { HasChange self.old change.now }
        requires done { IsDone self.old (changing self.old change.now) done.old }
        ensures ok { IfOk result (λ r. IsTerm self.new r (changed (changing self.old change.now) 0
            (term_at self.old id))) }
        ensures extends { Extends self.old self.new }
        ensures done { OnOk result (IsDone self.new (changing self.new change.now) done.new) }
        ensures change { OnOk result (HasChange self.new change.now) }
    {
        self.change_at(change, done, 0, id)
    }

    /// A term under so many abstractions of the whole, changed.
    #[cycle(change)]
    fn change_at(
        &mut self,
        change: &Change,
        done: &mut Done,
        depth: u64,
        id: TermId,
    ) -> Result<TermId, Memory>
        requires id { HasTerm self.old id }
        requires change { HasChange self.old change.now }
        requires done { IsDone self.old (changing self.old change.now) done.old }
        requires room { depth + id < 2 ^ 64 }
        ensures ok { IfOk result (λ r. IsTerm self.new r (changed (changing self.old change.now)
            depth (term_at self.old id))) }
        ensures extends { Extends self.old self.new }
        ensures done { OnOk result (IsDone self.new (changing self.new change.now) done.new) }
        ensures change { OnOk result (HasChange self.new change.now) }
    {
        if self.is_kept(change, done, depth, id) {
            return Ok(id);
        }
        if let Some(known) = done.terms.get(&Place { depth, id }) {
            return Ok(*known);
        }
        let changed = self.change_node(change, done, depth, id)?;
        let at = kept_at(change, depth, id, changed);
        done.terms.insert(Place { depth: at, id }, changed)?;
        Ok(changed)
    }

    /// The same, by its node.
    #[cycle(change)]
    fn change_node(
        &mut self,
        change: &Change,
        done: &mut Done,
        depth: u64,
        id: TermId,
    ) -> Result<TermId, Memory>
        requires id { HasTerm self.old id }
        requires change { HasChange self.old change.now }
        requires done { IsDone self.old (changing self.old change.now) done.old }
        requires room { depth + id < 2 ^ 64 }
        ensures ok { IfOk result (λ r. IsTerm self.new r (changed (changing self.old change.now)
            depth (term_at self.old id))) }
        ensures extends { Extends self.old self.new }
        ensures done { OnOk result (IsDone self.new (changing self.new change.now) done.new) }
        ensures change { OnOk result (HasChange self.new change.now) }
    {
        match self.term_node(id) {
            TermNode::Free(v) => self.change_free(change, done, depth, id, v),
            TermNode::Const(name, ty) => {
                let ty = self.retype(change, done, ty)?;
                self.constant(name, ty)
            }
            TermNode::Bound(place) => Ok(opened(change, depth, place, id)),
            TermNode::App(f, x) => {
                let f = self.change_at(change, done, depth, f)?;
                let x = self.change_at(change, done, depth, x)?;
                self.app(f, x)
            }
            TermNode::Abs(ty, body) => {
                let ty = self.retype(change, done, ty)?;
                let body = self.change_at(change, done, inner(change, depth), body)?;
                self.abs(ty, body)
            }
        }
    }

    /// A free variable, changed.
    fn change_free(
        &mut self,
        change: &Change,
        done: &mut Done,
        depth: u64,
        id: TermId,
        v: VariableNode,
    ) -> Result<TermId, Memory>
        requires id { IsTerm self.old id (Free (variable_at self.old v)) }
        requires v { HasVariable self.old v }
        requires change { HasChange self.old change.now }
        requires done { IsDone self.old (changing self.old change.now) done.old }
        ensures ok { IfOk result (λ r. IsTerm self.new r (changed (changing self.old change.now)
            depth (Free (variable_at self.old v)))) }
        ensures extends { Extends self.old self.new }
        ensures done { OnOk result (IsDone self.new (changing self.new change.now) done.new) }
        ensures change { OnOk result (HasChange self.new change.now) }
    {
        match change {
            Change::Close(w) => {
                self.primitives();
                if v == *w {
                    return self.bound(depth);
                }
                Ok(id)
            }
            Change::Open(_) => Ok(id),
            Change::Put { types, terms } => {
                let ty = self.inst(types, &mut done.types, v.ty)?;
                self.primitives();
                match terms.get(&VariableNode { name: v.name, ty }) {
                    Some(term) => Ok(*term),
                    None => self.free(v.name, ty),
                }
            }
        }
    }

    /// A type in a changed term.
    fn retype(&mut self, change: &Change, done: &mut Done, ty: TypeId) -> Result<TypeId, Memory>
        requires ty { HasType self.old ty }
        requires change { HasChange self.old change.now }
        requires done { IsDone self.old (changing self.old change.now) done.old }
        ensures ok { IfOk result (λ r. IsType self.new r (retyped (changing self.old change.now)
            (type_at self.old ty))) }
        ensures extends { Extends self.old self.new }
        ensures done { OnOk result (IsDone self.new (changing self.new change.now) done.new) }
        ensures change { OnOk result (HasChange self.new change.now) }
    {
        match change {
            Change::Close(_) => Ok(ty),
            Change::Open(_) => Ok(ty),
            Change::Put {
                types,
                terms: _terms,
            } => self.inst(types, &mut done.types, ty),
        }
    }

    /// Whether the change leaves the term as it is: it has no free variable, or not the one that is
    /// closed, as is known; or no place that leads so far out.
    fn is_kept(&self, change: &Change, done: &Done, depth: u64, id: TermId) -> bool
        requires id { HasTerm self.now id }
        requires done { IsDone self.now (changing self.now change.now) done.now }
        ensures { OnTrue result (changed (changing self.now change.now) depth (term_at self.now id)
            ≡ term_at self.now id) }
    {
        match change {
            Change::Close(_) => {
                if self.has_free(id) {
                    done.stays(id)
                } else {
                    true
                }
            }
            Change::Open(_) => self.loose(id) <= depth,
            Change::Put { .. } => false,
        }
    }
}

/// The depth at which a changed term is remembered: one that closing leaves as it is stays so at
/// every depth.
fn kept_at(change: &Change, depth: u64, id: TermId, made: TermId) -> u64
    ensures { (ts : List Item) → IsTerm ts made (changed (changing ts change.now) depth (term_at ts
        id)) → IsTerm ts made (changed (changing ts change.now) result (term_at ts id)) }
{
    match change {
        Change::Close(_) => { if made == id { 0 } else { depth } }
        Change::Open(_) => depth,
        Change::Put { .. } => depth,
    }
}

/// The place of an abstraction, changed under so many of them.
fn opened(change: &Change, depth: u64, place: u64, id: TermId) -> TermId
    ensures { result ≡ opened_at change.now depth place id }
{
    match change {
        Change::Close(_) => id,
        Change::Open(term) => { if place == depth { *term } else { id } }
        Change::Put { .. } => id,
    }
}

/// How many abstractions stand around the body of one.
fn inner(change: &Change, depth: u64) -> u64
    requires { depth + 1 < 2 ^ 64 }
    ensures { result ≡ inner_of change.now depth }
{
    match change {
        Change::Close(_) => depth + 1,
        Change::Open(_) => depth + 1,
        Change::Put { .. } => depth,
    }
}
