//! The elements of lists of names, of terms, and of pairs.
ghost use Rattle.std.specs.Prelude.{◌≡◌, ◌<◌, List, Result, length, IfOk};
ghost use Rattle.ot_logic.specs.Faults.{Fault};
ghost use Rattle.ot_logic.specs.Names.{Name};
ghost use Rattle.ot_logic.specs.Table.{Extends};
ghost use Rattle.ot_logic.specs.Trees.{Ty, Variable, Tm};
ghost use Rattle.ot_log_nodes.specs.Items.{Item, HasTerm, term_at};
ghost use Rattle.ot_machine.specs.DefinitionLists.{definition_pair};
ghost use Rattle.ot_machine.specs.Meaning.{IsRun, origin_of};
ghost use Rattle.ot_machine.specs.Objects.{Object};
ghost use Rattle.ot_machine.specs.Places.{as_name, as_term, as_each};
ghost use Rattle.ot_machine.specs.Substitutions.{type_pair, term_pair};
ghost use Rattle.ot_log_values.specs.Steps.{Reads, of_list};
ghost use Rattle.ot_log_values.specs.Lists.{AreEachOf, AreNamesOf, AreTermsOf, ArePairsOf, HasPair, pair_at};
ghost use Rattle.ot_log_values.specs.Reading.{IsOneOf, HasTypePair, type_pair_at, HasTermPair, term_pair_at, Stays};
ghost use Rattle.ot_log_values.specs.Staying.{term-still, pair-still, type_pair-still, term_pair-still};
ghost use Rattle.ot_log_values.specs.Known.{AreKnown};

use crate::steps::{elements, name, two_elements};
use crate::values::Values;
use ot_log_nodes::{NameId, Nodes, TermId, TypeId, VariableNode};
use ot_logic::Memory;
use ot_machine::Session;
use ot_trace::StepId;

/// The names of the list of a step. It fails only where memory runs out.
pub fn names(nodes: &mut Nodes, session: &Session, list: StepId) -> Result<Vec<NameId>, Memory>
    requires run { IsRun session.now }
    requires list { list < length session.now.trace }
    requires value { Reads (of_list (as_each as_name)) (origin_of session.now list) }
    ensures made { IfOk result (λ ids. AreNamesOf session.now nodes.new list ids.items) }
    ensures extends { Extends nodes.old nodes.new }
{
    let alloc = nodes.allocator();
    let steps = elements(alloc, session, list)?;
    let mut found = Vec::new(alloc);
    for step in &steps {
        let id = name(nodes, session, *step)?;
        found.push(id)?;
    }
    Ok(found)
}

/// What the elements of a list are read as.
pub(crate) trait Element: Copy {
    /// What one stands for.
    ghost Value: { Type 0 };

    /// Whether a table has its numbers.
    ghost is_in: { List Item → Self → Type 0 };

    /// What it stands for in a table.
    ghost value_at: { List Item → Self → Value };

    /// How an object is read.
    ghost as_one: { Object → Result Value (Fault Name) };

    /// It stands for the same in a table that grew.
    ghost still: { Stays is_in value_at };

    /// What the object of a step is read as.
    fn read(
        values: &mut Values,
        nodes: &mut Nodes,
        session: &Session,
        step: StepId,
    ) -> Result<Self, Memory>
        requires run { IsRun session.now }
        requires step { step < length session.now.trace }
        requires known { AreKnown session.now nodes.old values.old }
        requires value { Reads as_one (origin_of session.now step) }
        ensures made { IfOk result (IsOneOf is_in value_at as_one session.now nodes.new step) }
        ensures extends { Extends nodes.old nodes.new }
        ensures known { AreKnown session.now nodes.new values.new };
}

impl Element for TermId {
    ghost Value = { Tm Name };

    ghost is_in = { HasTerm };

    ghost value_at = { term_at };

    ghost as_one = { as_term };

    ghost still = { term-still };

    fn read(
        values: &mut Values,
        nodes: &mut Nodes,
        session: &Session,
        step: StepId,
    ) -> Result<TermId, Memory> {
        values.term(nodes, session, step)
    }
}

// The name and the variable of a list of the two.
impl Element for (NameId, VariableNode) {
    ghost Value = { Name × Variable Name };

    ghost is_in = { HasPair };

    ghost value_at = { pair_at };

    ghost as_one = { definition_pair };

    ghost still = { pair-still };

    fn read(
        values: &mut Values,
        nodes: &mut Nodes,
        session: &Session,
        step: StepId,
    ) -> Result<(NameId, VariableNode), Memory> {
        let (spelled, variable) = two_elements(nodes.allocator(), session, step)?;
        let name = name(nodes, session, spelled)?;
        let variable = values.variable(nodes, session, variable)?;
        Ok((name, variable))
    }
}

// The name and the type of a list of the two.
impl Element for (NameId, TypeId) {
    ghost Value = { Name × Ty Name };

    ghost is_in = { HasTypePair };

    ghost value_at = { type_pair_at };

    ghost as_one = { type_pair };

    ghost still = { type_pair-still };

    fn read(
        values: &mut Values,
        nodes: &mut Nodes,
        session: &Session,
        step: StepId,
    ) -> Result<(NameId, TypeId), Memory> {
        let (spelled, ty) = two_elements(nodes.allocator(), session, step)?;
        let name = name(nodes, session, spelled)?;
        let ty = values.ty(nodes, session, ty)?;
        Ok((name, ty))
    }
}

// The variable and the term of a list of the two.
impl Element for (VariableNode, TermId) {
    ghost Value = { Variable Name × Tm Name };

    ghost is_in = { HasTermPair };

    ghost value_at = { term_pair_at };

    ghost as_one = { term_pair };

    ghost still = { term_pair-still };

    fn read(
        values: &mut Values,
        nodes: &mut Nodes,
        session: &Session,
        step: StepId,
    ) -> Result<(VariableNode, TermId), Memory> {
        let (first, second) = two_elements(nodes.allocator(), session, step)?;
        let variable = values.variable(nodes, session, first)?;
        let term = values.term(nodes, session, second)?;
        Ok((variable, term))
    }
}

impl Values {
    /// The terms of the list of a step.
    pub fn terms(
        &mut self,
        nodes: &mut Nodes,
        session: &Session,
        list: StepId,
    ) -> Result<Vec<TermId>, Memory>
        requires run { IsRun session.now }
        requires list { list < length session.now.trace }
        requires known { AreKnown session.now nodes.old self.old }
        requires value { Reads (of_list (as_each as_term)) (origin_of session.now list) }
        ensures made { IfOk result (λ ids. AreTermsOf session.now nodes.new list ids.items) }
        ensures extends { Extends nodes.old nodes.new }
        ensures known { AreKnown session.now nodes.new self.new }
    {
        self.each_of(nodes, session, list)
    }

    /// The names and variables of the list of a step, which has a list of the two for each constant that is defined.
    pub fn pairs(
        &mut self,
        nodes: &mut Nodes,
        session: &Session,
        list: StepId,
    ) -> Result<Vec<(NameId, VariableNode)>, Memory>
        requires run { IsRun session.now }
        requires list { list < length session.now.trace }
        requires known { AreKnown session.now nodes.old self.old }
        requires value { Reads (of_list (as_each definition_pair)) (origin_of session.now list) }
        ensures made { IfOk result (λ ps. ArePairsOf session.now nodes.new list ps.items) }
        ensures extends { Extends nodes.old nodes.new }
        ensures known { AreKnown session.now nodes.new self.new }
    {
        self.each_of(nodes, session, list)
    }

    /// The elements of the list of a step.
    pub(crate) fn each_of<E: Element>(
        &mut self,
        nodes: &mut Nodes,
        session: &Session,
        list: StepId,
    ) -> Result<Vec<E>, Memory>
        requires run { IsRun session.now }
        requires list { list < length session.now.trace }
        requires known { AreKnown session.now nodes.old self.old }
        requires value { Reads (of_list (as_each E.as_one)) (origin_of session.now list) }
        ensures made { IfOk result
            (λ xs. AreEachOf E.is_in E.value_at E.as_one session.now nodes.new list xs.items) }
        ensures extends { Extends nodes.old nodes.new }
        ensures known { AreKnown session.now nodes.new self.new }
    {
        let alloc = nodes.allocator();
        let steps = elements(alloc, session, list)?;
        let mut found = Vec::new(alloc);
        for step in &steps {
            let element = E::read(self, nodes, session, *step)?;
            found.push(element)?;
        }
        Ok(found)
    }
}
