//! Variables, types and terms.
ghost use Rattle.std.specs.Prelude.{◌≡◌, ◌<◌, ℕ, List, length, IfOk};
ghost use Rattle.ot_logic.specs.Naming.{names};
ghost use Rattle.ot_logic.specs.Table.{Extends};
ghost use Rattle.ot_logic.specs.Trees.{Abs};
ghost use Rattle.ot_logic.specs.Hol.{close};
ghost use Rattle.ot_log_nodes.specs.Items.{Item, IsTerm, HasTerm, type_at, term_at};
ghost use Rattle.ot_log_nodes.specs.Changing.{variable_at, HasVariable};
ghost use Rattle.ot_machine.specs.Meaning.{IsRun, origin_of};
ghost use Rattle.ot_machine.specs.Places.{as_type, as_variable, as_term, as_each};
ghost use Rattle.ot_machine.specs.declared.session.Session.{Session as Run};
ghost use Rattle.ot_log_values.specs.Steps.{Reads, of_list, IsVariableOf, IsTypeOf, IsTermOf};
ghost use Rattle.ot_log_values.specs.Lists.{AreTypesOf};
ghost use Rattle.ot_log_values.specs.Known.{AreKnown};

use crate::steps::{constant, elements, making, name, one, two, type_operator};
use indexmap::IndexMap;
use ot_log_nodes::{Change, Done, Nodes, TermId, TypeId, VariableNode};
use ot_logic::{Cmd, Memory};
use ot_machine::Session;
use ot_trace::StepId;
use std::alloc::Global;

/// The types and terms that were found of steps: what is shared is worked on once. What is known of a node table
/// stays known while that grows.
///
/// Each call takes a step of the session's trace that made such an object. It fails only where memory runs out.
#[derive(Drop)]
pub struct Values {
    pub(crate) types: IndexMap<StepId, TypeId>,
    pub(crate) terms: IndexMap<StepId, TermId>,
}

impl Values {
    /// Nothing is found.
    pub fn new(alloc: Global) -> Values
        ensures { (s : Run) (ts : List Item) → AreKnown s ts result }
    {
        Values {
            types: IndexMap::new(alloc),
            terms: IndexMap::new(alloc),
        }
    }

    /// The variable of a step.
    pub fn variable(
        &mut self,
        nodes: &mut Nodes,
        session: &Session,
        id: StepId,
    ) -> Result<VariableNode, Memory>
        requires run { IsRun session.now }
        requires id { id < length session.now.trace }
        requires known { AreKnown session.now nodes.old self.old }
        requires value { Reads as_variable (origin_of session.now id) }
        ensures made { IfOk result (IsVariableOf session.now nodes.new id) }
        ensures extends { Extends nodes.old nodes.new }
        ensures known { AreKnown session.now nodes.new self.new }
    {
        let (word, operands) = making(session, id);
        match word {
            Cmd::Var => {
                let (spelled, ty) = two(operands);
                let name = name(nodes, session, spelled)?;
                let ty = self.ty(nodes, session, ty)?;
                Ok(VariableNode { name, ty })
            }
            _ => unreachable!(),
        }
    }

    /// The type of a step.
    #[cycle(ty)]
    pub fn ty(&mut self, nodes: &mut Nodes, session: &Session, id: StepId) -> Result<TypeId, Memory>
        requires run { IsRun session.now }
        requires id { id < length session.now.trace }
        requires known { AreKnown session.now nodes.old self.old }
        requires value { Reads as_type (origin_of session.now id) }
        ensures made { IfOk result (IsTypeOf session.now nodes.new id) }
        ensures extends { Extends nodes.old nodes.new }
        ensures known { AreKnown session.now nodes.new self.new }
    {
        if let Some(known) = self.types.get(&id) {
            return Ok(*known);
        }
        let ty = self.new_type(nodes, session, id)?;
        self.types.insert(id, ty)?;
        Ok(ty)
    }

    /// The same, by the word that made it.
    #[cycle(ty)]
    fn new_type(
        &mut self,
        nodes: &mut Nodes,
        session: &Session,
        id: StepId,
    ) -> Result<TypeId, Memory>
        requires run { IsRun session.now }
        requires id { id < length session.now.trace }
        requires known { AreKnown session.now nodes.old self.old }
        requires value { Reads as_type (origin_of session.now id) }
        ensures made { IfOk result (IsTypeOf session.now nodes.new id) }
        ensures extends { Extends nodes.old nodes.new }
        ensures known { AreKnown session.now nodes.new self.new }
    {
        let (word, operands) = making(session, id);
        match word {
            Cmd::VarType => {
                let spelled = one(operands);
                let name = name(nodes, session, spelled)?;
                nodes.type_var(name)
            }
            Cmd::OpType => {
                let (operator, list) = two(operands);
                let name = type_operator(nodes, session, operator)?;
                let args = self.types(nodes, session, list)?;
                nodes.type_op(name, &args)
            }
            _ => unreachable!(),
        }
    }

    /// The types of a list.
    #[cycle(ty)]
    fn types(
        &mut self,
        nodes: &mut Nodes,
        session: &Session,
        list: StepId,
    ) -> Result<Vec<TypeId>, Memory>
        requires run { IsRun session.now }
        requires list { list < length session.now.trace }
        requires known { AreKnown session.now nodes.old self.old }
        requires value { Reads (of_list (as_each as_type)) (origin_of session.now list) }
        ensures made { IfOk result (λ ids. AreTypesOf session.now nodes.new list ids.items) }
        ensures extends { Extends nodes.old nodes.new }
        ensures known { AreKnown session.now nodes.new self.new }
    {
        let alloc = nodes.allocator();
        let steps = elements(alloc, session, list)?;
        let mut found = Vec::new(alloc);
        for step in &steps {
            let ty = self.ty(nodes, session, *step)?;
            found.push(ty)?;
        }
        Ok(found)
    }

    /// The term of a step.
    #[cycle(term)]
    pub fn term(
        &mut self,
        nodes: &mut Nodes,
        session: &Session,
        id: StepId,
    ) -> Result<TermId, Memory>
        requires run { IsRun session.now }
        requires id { id < length session.now.trace }
        requires known { AreKnown session.now nodes.old self.old }
        requires value { Reads as_term (origin_of session.now id) }
        ensures made { IfOk result (IsTermOf session.now nodes.new id) }
        ensures extends { Extends nodes.old nodes.new }
        ensures known { AreKnown session.now nodes.new self.new }
    {
        if let Some(known) = self.terms.get(&id) {
            return Ok(*known);
        }
        let term = self.new_term(nodes, session, id)?;
        self.terms.insert(id, term)?;
        Ok(term)
    }

    /// The same, by the word that made it.
    #[cycle(term)]
    fn new_term(
        &mut self,
        nodes: &mut Nodes,
        session: &Session,
        id: StepId,
    ) -> Result<TermId, Memory>
        requires run { IsRun session.now }
        requires id { id < length session.now.trace }
        requires known { AreKnown session.now nodes.old self.old }
        requires value { Reads as_term (origin_of session.now id) }
        ensures made { IfOk result (IsTermOf session.now nodes.new id) }
        ensures extends { Extends nodes.old nodes.new }
        ensures known { AreKnown session.now nodes.new self.new }
    {
        let (word, operands) = making(session, id);
        match word {
            Cmd::VarTerm => {
                let variable = one(operands);
                let v = self.variable(nodes, session, variable)?;
                nodes.free(v.name, v.ty)
            }
            Cmd::ConstTerm => {
                let (symbol, ty) = two(operands);
                let name = constant(nodes, session, symbol)?;
                let ty = self.ty(nodes, session, ty)?;
                nodes.constant(name, ty)
            }
            Cmd::AppTerm => {
                let (function, argument) = two(operands);
                let f = self.term(nodes, session, function)?;
                let x = self.term(nodes, session, argument)?;
                nodes.app(f, x)
            }
            Cmd::AbsTerm => {
                let (variable, body) = two(operands);
                let v = self.variable(nodes, session, variable)?;
                let body = self.term(nodes, session, body)?;
                abstraction(nodes, v, body)
            }
            _ => unreachable!(),
        }
    }
}

/// The abstraction of a term over a variable.
fn abstraction(nodes: &mut Nodes, v: VariableNode, body: TermId) -> Result<TermId, Memory>
    requires v { HasVariable nodes.old v }
    requires body { HasTerm nodes.old body }
    ensures ok { IfOk result (λ id. IsTerm nodes.new id (let w = variable_at nodes.old v in
        Abs w.ty (close names w (term_at nodes.old body)))) }
    ensures extends { Extends nodes.old nodes.new }
{
    let ty = v.ty;
    let change = Change::Close(v);
    let mut done = Done::new(nodes.allocator());
    let closed = nodes.change(&change, &mut done, body)?;
    nodes.abs(ty, closed)
}
