//! How a step was made; its name; and the steps of a list's elements.
ghost use Rattle.std.specs.Prelude.{◌≡◌, ◌<◌, [], ◌∷◌, length, map, IfOk};
ghost use Rattle.std.specs.List.{All};
ghost use Rattle.ot_logic.specs.Table.{Extends};
ghost use Rattle.ot_logic.specs.declared.command.Cmd.TheVariants as words;
ghost use Rattle.ot_log_nodes.specs.Items.{IsTerm, HasTerm, type_at, term_at};
ghost use Rattle.ot_machine.specs.Meaning.{origin_of, IsRun};
ghost use Rattle.ot_machine.specs.Places.{as_name, as_list, as_type_op, as_constant};
ghost use Rattle.ot_log_values.specs.Steps.{Reads, IsMake, IsPair, IsNameOf, IsSymbolOf, IsMadeOf};
ghost use Rattle.ot_log_values.specs.Lists.{AreElementsOf};

use ot_log_nodes::{NameId, Nodes};
use ot_logic::{Cmd, Memory};
use ot_machine::Session;
use ot_trace::{Step, StepId};
use std::alloc::Global;

/// The word that made a step, and its operands, which stand before the step.
pub(crate) fn making(session: &Session, id: StepId) -> (Cmd, &[StepId])
    requires id { id < length session.now.trace }
    requires make { IsMake (origin_of session.now id) }
    ensures made { IsMadeOf session.now result.0 result.1.now id }
    ensures below { All (λ i. i < id) result.1.now }
{
    match session.trace().step(id) {
        Step::Make(word, operands) => (*word, operands.as_slice()),
        _ => unreachable!(),
    }
}

/// The one operand.
pub(crate) fn one(operands: &[StepId]) -> StepId
    requires { length operands.now ≡ 1 }
    ensures { operands.now ≡ result ∷ [] }
{
    match operands {
        [operand] => *operand,
        _ => unreachable!(),
    }
}

/// The two operands.
pub(crate) fn two(operands: &[StepId]) -> (StepId, StepId)
    requires { length operands.now ≡ 2 }
    ensures { operands.now ≡ result.0 ∷ result.1 ∷ [] }
{
    match operands {
        [lower, upper] => (*lower, *upper),
        _ => unreachable!(),
    }
}

/// The number of the name of a step. It fails only where memory runs out.
pub fn name(nodes: &mut Nodes, session: &Session, id: StepId) -> Result<NameId, Memory>
    requires run { IsRun session.now }
    requires id { id < length session.now.trace }
    requires value { Reads as_name (origin_of session.now id) }
    ensures made { IfOk result (IsNameOf session.now nodes.new id) }
    ensures extends { Extends nodes.old nodes.new }
{
    match session.trace().step(id) {
        Step::Name(name) => {
            let name = session.kernel().names().get(*name).copy(nodes.allocator())?;
            nodes.name(name)
        }
        _ => unreachable!(),
    }
}

/// The number of the name of a type operator.
pub(crate) fn type_operator(
    nodes: &mut Nodes,
    session: &Session,
    id: StepId,
) -> Result<NameId, Memory>
    requires run { IsRun session.now }
    requires id { id < length session.now.trace }
    requires value { Reads as_type_op (origin_of session.now id) }
    ensures made { IfOk result (IsSymbolOf session.now nodes.new words.TypeOp id) }
    ensures extends { Extends nodes.old nodes.new }
{
    let (word, operands) = making(session, id);
    match word {
        Cmd::TypeOp => {
            let spelled = one(operands);
            name(nodes, session, spelled)
        }
        _ => unreachable!(),
    }
}

/// The number of the name of a constant.
pub(crate) fn constant(nodes: &mut Nodes, session: &Session, id: StepId) -> Result<NameId, Memory>
    requires run { IsRun session.now }
    requires id { id < length session.now.trace }
    requires value { Reads as_constant (origin_of session.now id) }
    ensures made { IfOk result (IsSymbolOf session.now nodes.new words.Const id) }
    ensures extends { Extends nodes.old nodes.new }
{
    let (word, operands) = making(session, id);
    match word {
        Cmd::Const => {
            let spelled = one(operands);
            name(nodes, session, spelled)
        }
        _ => unreachable!(),
    }
}

/// The steps of the elements of the list of a step, along its cons tree. It fails only where memory runs out.
pub fn elements(alloc: Global, session: &Session, list: StepId) -> Result<Vec<StepId>, Memory>
    requires list { list < length session.now.trace }
    requires value { Reads as_list (origin_of session.now list) }
    ensures made { IfOk result
        (λ is. AreElementsOf (origin_of session.now list) (map (origin_of session.now) is.items)) }
    ensures below { IfOk result (λ is. All (λ i. i < list) is.items) }
{
    let mut found = Vec::new(alloc);
    let mut rest = list;
    'cells: loop {
        let (word, operands) = making(session, rest);
        match word {
            Cmd::Nil => return Ok(found),
            Cmd::Cons => {
                let (head, tail) = two(operands);
                found.push(head)?;
                rest = tail;
            }
            _ => unreachable!(),
        }
    }
}

/// The steps of the two elements of the list of a step.
pub(crate) fn two_elements(
    alloc: Global,
    session: &Session,
    list: StepId,
) -> Result<(StepId, StepId), Memory>
    requires list { list < length session.now.trace }
    requires pair { IsPair (origin_of session.now list) }
    ensures made { IfOk result (λ p. AreElementsOf (origin_of session.now list)
        (origin_of session.now p.0 ∷ origin_of session.now p.1 ∷ [])) }
    ensures first { IfOk result (λ p. p.0 < list) }
    ensures second { IfOk result (λ p. p.1 < list) }
{
    let found = elements(alloc, session, list)?;
    let (first, second) = two(&found);
    Ok((first, second))
}
