//! Types that are matched.
ghost use Rattle.std.specs.Prelude.{◌≡◌, ◌<◌, length, map, IfOk, OnOk};
ghost use Rattle.std.specs.List.{All};
ghost use Rattle.std.specs.Map.{lookup};
ghost use Rattle.ot_logic.specs.Names.{same_name};
ghost use Rattle.ot_logic.specs.Naming.{names};
ghost use Rattle.ot_kernel.specs.State.{type_at, types_at};
ghost use Rattle.ot_match.specs.Walk.{put_type, walk_type, walk_types};
ghost use Rattle.ot_logic.specs.PlainTrees.{type_of_tree, tys_of};
ghost use Rattle.ot_match.specs.Found.{types_of, AreTypesIn};
ghost use Rattle.ot_match.specs.Steps.{answered};

use crate::names::{is_name, is_same_name};
use ot_kernel::Kernel;
use ot_logic::{Memory, Name, Ty};
use ot_type::{TypeId, TypeNode};
use ot_view::{same_type, type_node};
use std::alloc::Global;

/// The type that a name has.
fn held_type(types: &[(Name, TypeId)], name: &Name) -> Option<TypeId>
    ensures { result ≡ lookup (same_name name.now) types.now }
{
    'each: for pair in types {
        if is_same_name(name, &pair.0) {
            return Some(pair.1);
        }
    }
    None
}

/// Lets a type variable become this type, if it has become no other one.
fn put_type(
    alloc: Global,
    kernel: &Kernel,
    name: &Name,
    id: TypeId,
    types: &mut Vec<(Name, TypeId)>,
) -> Result<bool, Memory>
    requires id { id < length kernel.now.types }
    requires types { AreTypesIn kernel.now types.old.items }
    ensures put { IfOk result
        (λ b. put_type names name.now (type_at kernel.now id) (types_of kernel.now types.old.items)
        ≡ answered b (types_of kernel.now types.new.items)) }
    ensures inside { OnOk result (AreTypesIn kernel.now types.new.items) }
{
    match held_type(types, name) {
        Some(held) => Ok(same_type(kernel, id, held)),
        None => {
            let name = name.copy(alloc)?;
            types.push((name, id))?;
            Ok(true)
        }
    }
}

/// Matches a type.
#[cycle(types)]
#[tactic(auto, using(ot_logic::proofs::PlainTrees::type_steps))]
pub(crate) fn match_type(
    alloc: Global,
    kernel: &Kernel,
    pattern: &Ty,
    id: TypeId,
    types: &mut Vec<(Name, TypeId)>,
) -> Result<bool, Memory>
    requires id { id < length kernel.now.types }
    requires types { AreTypesIn kernel.now types.old.items }
    ensures walk { IfOk result (λ b. walk_type names (type_of_tree pattern.now) (type_at kernel.now id)
        (types_of kernel.now types.old.items)
        ≡ answered b (types_of kernel.now types.new.items)) }
    ensures inside { OnOk result (AreTypesIn kernel.now types.new.items) }
{
    match (pattern, type_node(kernel, id)) {
        (Ty::Var(name), _) => put_type(alloc, kernel, name, id, types),
        (Ty::Op(_, _), TypeNode::Var(_)) => Ok(false),
        (Ty::Op(name, patterns), TypeNode::Op(operator, ids)) => {
            if !is_name(kernel, name, *operator) {
                return Ok(false);
            }
            match_types(alloc, kernel, patterns, ids, types)
        }
    }
}

/// Matches types in a row.
#[cycle(types)]
fn match_types(
    alloc: Global,
    kernel: &Kernel,
    patterns: &Vec<Ty>,
    ids: &[TypeId],
    types: &mut Vec<(Name, TypeId)>,
) -> Result<bool, Memory>
    requires ids { All (λ i. i < length kernel.now.types) ids.now }
    requires types { AreTypesIn kernel.now types.old.items }
    ensures walk { IfOk result (λ b. walk_types names (tys_of (map type_of_tree patterns.now.items))
        (types_at kernel.now ids.now) (types_of kernel.now types.old.items)
        ≡ answered b (types_of kernel.now types.new.items)) }
    ensures inside { OnOk result (AreTypesIn kernel.now types.new.items) }
{
    if patterns.len() != ids.len() {
        return Ok(false);
    }
    for (i, pattern) in patterns.iter().enumerate() {
        if !match_type(alloc, kernel, pattern, ids[i], types)? {
            return Ok(false);
        }
    }
    Ok(true)
}
