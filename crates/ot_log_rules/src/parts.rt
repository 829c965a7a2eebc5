//! What occurs in types and terms. A part that is shared is gone over once.
ghost use Rattle.std.specs.Prelude.{◌≡◌, ◌<◌, List, [], ◌∷◌, map, OnOk, IfOk};
ghost use Rattle.std.specs.List.{All};
ghost use Rattle.ot_log_nodes.specs.Items.{HasType, HasTerm, type_at, term_at, types_at};
ghost use Rattle.ot_log_rules.specs.Parts.{marks_ty, marks_all, marks_tm, marks_each, marks_sequent};
ghost use Rattle.ot_log_rules.specs.Parts.{marks_sequents, HasMark, mark_at, IsGoneOver, Gathers, IsOf};
ghost use Rattle.ot_log_rules.specs.Statements.{terms_at, sequent_at, HasStatement};

use crate::statement::Statement;
use indexmap::IndexSet;
use ot_log_nodes::{NameId, Nodes, TermId, TermNode, TypeId, TypeNode, VariableNode};
use ot_logic::Memory;
use std::alloc::Global;

/// What may occur in a type or a term.
#[derive(Clone, Copy, PartialEq, Eq, Hash)]
pub enum Mark {
    /// A type variable.
    TypeVar(NameId),
    /// A type operator.
    Operator(NameId),
    /// A constant, at any type.
    Constant(NameId),
    /// A free variable.
    Variable(VariableNode),
}

/// What occurs in the types and terms that were gone over.
#[derive(Drop)]
pub(crate) struct Parts {
    pub(crate) marks: IndexSet<Mark>,
    types: IndexSet<TypeId>,
    terms: IndexSet<TermId>,
}

impl Parts {
    ghost use Rattle.ot_log_nodes.specs.Items.{Item};

    /// Nothing was gone over.
    pub(crate) fn new(alloc: Global) -> Parts
        ensures gone { (ts : List Item) → IsGoneOver ts result }
        ensures none { result.marks.keys ≡ [] }
    {
        Parts {
            marks: IndexSet::new(alloc),
            types: IndexSet::new(alloc),
            terms: IndexSet::new(alloc),
        }
    }

    /// Adds what occurs.
    fn add_mark(&mut self, nodes: &Nodes, mark: Mark) -> Result<(), Memory>
        requires mark { HasMark nodes.now mark }
        requires gone { IsGoneOver nodes.now self.old }
        ensures { OnOk result (Gathers nodes.now (mark_at nodes.now mark ∷ []) self.old self.new) }
    {
        // The table is asked for by the contract alone.
        let _nodes = nodes;
        self.marks.insert(mark)?;
        Ok(())
    }

    /// Goes over a term.
    #[cycle(terms)]
    pub(crate) fn add_term(&mut self, nodes: &Nodes, id: TermId) -> Result<(), Memory>
        requires id { HasTerm nodes.now id }
        requires gone { IsGoneOver nodes.now self.old }
        ensures { OnOk result (Gathers nodes.now (marks_tm (term_at nodes.now id)) self.old self.new) }
    {
        if self.terms.contains(&id) {
            return Ok(());
        }
        self.add_node(nodes, id)?;
        self.terms.insert(id)?;
        Ok(())
    }

    /// The same, by its node.
    #[cycle(terms)]
    fn add_node(&mut self, nodes: &Nodes, id: TermId) -> Result<(), Memory>
        requires id { HasTerm nodes.now id }
        requires gone { IsGoneOver nodes.now self.old }
        ensures { OnOk result (Gathers nodes.now (marks_tm (term_at nodes.now id)) self.old self.new) }
    {
        match nodes.term_node(id) {
            TermNode::Free(variable) => {
                let ty = variable.ty;
                self.add_mark(nodes, Mark::Variable(variable))?;
                self.add_type(nodes, ty)
            }
            TermNode::Const(name, ty) => {
                self.add_mark(nodes, Mark::Constant(name))?;
                self.add_type(nodes, ty)
            }
            TermNode::Bound(_) => Ok(()),
            TermNode::App(f, x) => {
                self.add_term(nodes, f)?;
                self.add_term(nodes, x)
            }
            TermNode::Abs(ty, body) => {
                self.add_type(nodes, ty)?;
                self.add_term(nodes, body)
            }
        }
    }

    /// Goes over the terms of a sequent.
    pub(crate) fn add_statement(
        &mut self,
        nodes: &Nodes,
        statement: &Statement,
    ) -> Result<(), Memory>
        requires has { HasStatement nodes.now statement.now }
        requires gone { IsGoneOver nodes.now self.old }
        ensures { OnOk result
            (Gathers nodes.now (marks_sequent (sequent_at nodes.now statement.now)) self.old self.new) }
    {
        self.add_terms(nodes, &statement.hyps)?;
        self.add_term(nodes, statement.concl)
    }

    /// Goes over terms.
    fn add_terms(&mut self, nodes: &Nodes, ids: &[TermId]) -> Result<(), Memory>
        requires ids { All (HasTerm nodes.now) ids.now }
        requires gone { IsGoneOver nodes.now self.old }
        ensures { OnOk result (Gathers nodes.now (marks_each (terms_at nodes.now ids.now)) self.old self.new) }
    {
        for id in ids {
            self.add_term(nodes, *id)?;
        }
        Ok(())
    }

    /// Goes over the terms of sequents.
    pub(crate) fn add_statements(
        &mut self,
        nodes: &Nodes,
        statements: &[Statement],
    ) -> Result<(), Memory>
        requires has { All (HasStatement nodes.now) statements.now }
        requires gone { IsGoneOver nodes.now self.old }
        ensures { OnOk result
            (Gathers nodes.now (marks_sequents (map (sequent_at nodes.now) statements.now)) self.old self.new) }
    {
        for statement in statements {
            self.add_statement(nodes, statement)?;
        }
        Ok(())
    }

    /// Goes over a type.
    #[cycle(types)]
    pub(crate) fn add_type(&mut self, nodes: &Nodes, id: TypeId) -> Result<(), Memory>
        requires id { HasType nodes.now id }
        requires gone { IsGoneOver nodes.now self.old }
        ensures { OnOk result (Gathers nodes.now (marks_ty (type_at nodes.now id)) self.old self.new) }
    {
        if self.types.contains(&id) {
            return Ok(());
        }
        self.add_type_node(nodes, id)?;
        self.types.insert(id)?;
        Ok(())
    }

    /// The same, by its node.
    #[cycle(types)]
    fn add_type_node(&mut self, nodes: &Nodes, id: TypeId) -> Result<(), Memory>
        requires id { HasType nodes.now id }
        requires gone { IsGoneOver nodes.now self.old }
        ensures { OnOk result (Gathers nodes.now (marks_ty (type_at nodes.now id)) self.old self.new) }
    {
        match nodes.type_node(id) {
            TypeNode::Var(name) => self.add_mark(nodes, Mark::TypeVar(*name)),
            TypeNode::Op(name, args) => {
                self.add_mark(nodes, Mark::Operator(*name))?;
                self.add_types(nodes, id, args.as_slice())
            }
        }
    }

    /// Goes over the arguments of a type, which have lower numbers.
    #[cycle(types)]
    fn add_types(&mut self, nodes: &Nodes, above: TypeId, ids: &[TypeId]) -> Result<(), Memory>
        requires ids { All (HasType nodes.now) ids.now }
        requires below { All (λ i. i < above) ids.now }
        requires gone { IsGoneOver nodes.now self.old }
        ensures { OnOk result (Gathers nodes.now (marks_all (types_at nodes.now ids.now)) self.old self.new) }
    {
        for id in ids {
            self.add_type(nodes, *id)?;
        }
        Ok(())
    }
}

/// What occurs in a term.
pub(crate) fn marks_in(nodes: &Nodes, id: TermId) -> Result<Parts, Memory>
    requires { HasTerm nodes.now id }
    ensures { IfOk result (IsOf nodes.now (marks_tm (term_at nodes.now id))) }
{
    let mut parts = Parts::new(nodes.allocator());
    parts.add_term(nodes, id)?;
    Ok(parts)
}

/// What occurs in a sequent.
pub(crate) fn marks_of(nodes: &Nodes, statement: &Statement) -> Result<Parts, Memory>
    requires { HasStatement nodes.now statement.now }
    ensures { IfOk result (IsOf nodes.now (marks_sequent (sequent_at nodes.now statement.now))) }
{
    let mut parts = Parts::new(nodes.allocator());
    parts.add_statement(nodes, statement)?;
    Ok(parts)
}

/// What occurs in a type.
pub(crate) fn marks_of_type(nodes: &Nodes, id: TypeId) -> Result<Parts, Memory>
    requires { HasType nodes.now id }
    ensures { IfOk result (IsOf nodes.now (marks_ty (type_at nodes.now id))) }
{
    let mut parts = Parts::new(nodes.allocator());
    parts.add_type(nodes, id)?;
    Ok(parts)
}
