//! What the numbers that records name stand for.
ghost use Rattle.std.specs.Prelude.{◌≡◌, ◌↔◌, ℕ, IsTrue};
ghost use Rattle.std.specs.List.{All};
ghost use Rattle.ot_log_nodes.specs.Items.{HasName};
ghost use Rattle.ot_verify.specs.Finding.{Finds, FindsEach, IsFoundVariable, IsFoundTypePair};
ghost use Rattle.ot_verify.specs.Finding.{IsFoundTermPair, IsFoundConstantPair};
ghost use Rattle.ot_verify.specs.Asking.{IsAt};

use crate::log::{Refusal, at};
use crate::operand::{ConstantPair, NamedType, TermPair};
use ot_log_nodes::{NameId, Nodes, TermId, TypeId, VariableNode};
use std::alloc::Global;

/// The items at these places.
pub(crate) fn each_at<T: Copy>(
    alloc: Global,
    items: &[T],
    places: &[usize],
) -> Result<Vec<T>, Refusal>
    ensures { FindsEach (IsAt items.now) result places.now }
{
    let mut found = Vec::new(alloc);
    for place in places {
        match at(items, *place) {
            Ok(item) => found.push(*item)?,
            Err(_) => return Err(Refusal::NoSuch),
        }
    }
    Ok(found)
}

/// Whether each is the number of a name.
pub(crate) fn are_names(nodes: &Nodes, ids: &[NameId]) -> bool
    ensures { IsTrue result ↔ All (HasName nodes.now) ids.now }
{
    ids.iter().all(|id| nodes.has_name(*id))
}

/// The variable of a name and the number of a type.
pub(crate) fn variable_at(nodes: &Nodes, types: &[TypeId], named: NamedType) -> Option<VariableNode>
    ensures { Finds (IsFoundVariable nodes.now types.now) result named }
{
    if !nodes.has_name(named.name) {
        return None;
    }
    let ty = types.get(named.ty)?;
    Some(VariableNode {
        name: named.name,
        ty: *ty,
    })
}

/// Names and types.
pub(crate) fn type_pairs_at(
    alloc: Global,
    nodes: &Nodes,
    types: &[TypeId],
    pairs: &[NamedType],
) -> Result<Vec<(NameId, TypeId)>, Refusal>
    ensures { FindsEach (IsFoundTypePair nodes.now types.now) result pairs.now }
{
    let mut found = Vec::new(alloc);
    for pair in pairs {
        match variable_at(nodes, types, *pair) {
            Some(variable) => found.push((variable.name, variable.ty))?,
            None => return Err(Refusal::NoSuch),
        }
    }
    Ok(found)
}

/// Variables and terms.
pub(crate) fn term_pairs_at(
    alloc: Global,
    nodes: &Nodes,
    types: &[TypeId],
    terms: &[TermId],
    pairs: &[TermPair],
) -> Result<Vec<(VariableNode, TermId)>, Refusal>
    ensures { FindsEach (IsFoundTermPair nodes.now types.now terms.now) result pairs.now }
{
    let mut found = Vec::new(alloc);
    for pair in pairs {
        match term_pair_at(nodes, types, terms, *pair) {
            Some(pair) => found.push(pair)?,
            None => return Err(Refusal::NoSuch),
        }
    }
    Ok(found)
}

/// A variable and a term.
fn term_pair_at(
    nodes: &Nodes,
    types: &[TypeId],
    terms: &[TermId],
    pair: TermPair,
) -> Option<(VariableNode, TermId)>
    ensures { Finds (IsFoundTermPair nodes.now types.now terms.now) result pair }
{
    let variable = variable_at(nodes, types, pair.variable)?;
    let term = terms.get(pair.term)?;
    Some((variable, *term))
}

/// Constants and variables.
pub(crate) fn constant_pairs_at(
    alloc: Global,
    nodes: &Nodes,
    types: &[TypeId],
    pairs: &[ConstantPair],
) -> Result<Vec<(NameId, VariableNode)>, Refusal>
    ensures { FindsEach (IsFoundConstantPair nodes.now types.now) result pairs.now }
{
    let mut found = Vec::new(alloc);
    for pair in pairs {
        match constant_pair_at(nodes, types, *pair) {
            Some(pair) => found.push(pair)?,
            None => return Err(Refusal::NoSuch),
        }
    }
    Ok(found)
}

/// The name of a constant and a variable.
fn constant_pair_at(
    nodes: &Nodes,
    types: &[TypeId],
    pair: ConstantPair,
) -> Option<(NameId, VariableNode)>
    ensures { Finds (IsFoundConstantPair nodes.now types.now) result pair }
{
    if !nodes.has_name(pair.constant) {
        return None;
    }
    let variable = variable_at(nodes, types, pair.variable)?;
    Some((pair.constant, variable))
}
