//! Terms up to the names of bound variables.
ghost use Rattle.std.specs.Prelude.{◌<◌, ◌≤◌, length, IfOk};

use crate::building::{abs, doubled, type_fun, type_var, var};
use crate::fresh::fresh_terms;
use ot_alpha::alpha_eq;
use ot_logic::NameId;
use ot_term::{TermFault, TermId, Terms};
use ot_type::{TableFault, TypeId};
use std::alloc::Global;
use std::test::Fail;

/// Two abstractions over a variable, all of one type.
fn nested(terms: &mut Terms, ty: TypeId, names: [NameId; 3]) -> Result<TermId, TableFault>
    requires { ty < length terms.old.types }
    ensures id { IfOk result (λ id. id < length terms.new.terms) }
    ensures types { length terms.old.types ≤ length terms.new.types }
    ensures terms { length terms.old.terms ≤ length terms.new.terms }
{
    let [outer, inner, name] = names;
    let body = var(terms, name, ty)?;
    let part = abs(terms, inner, ty, body)?;
    abs(terms, outer, ty, part)
}

fn are_same(terms: &mut Terms, left: [NameId; 3], right: [NameId; 3]) -> Result<bool, TableFault> {
    let ty = type_var(terms, NameId::A)?;
    let a = nested(terms, ty, left)?;
    let b = nested(terms, ty, right)?;
    Ok(alpha_eq(terms, a, b))
}

/// Each row has a table of its own. It is made here, so that no refusal has to drop it.
fn compare(alloc: Global, left: [NameId; 3], right: [NameId; 3]) -> Result<bool, TableFault> {
    let mut terms = fresh_terms(alloc)?;
    are_same(&mut terms, left, right)
}

#[test]
fn names_of_bound_variables(rt: HostRuntime) -> Result<(), Fail> {
    let (x, y, z) = (NameId::A, NameId::R, NameId::BOOL);
    let table = [
        ([x, y, x], [x, y, x], true),
        ([x, y, x], [y, x, y], true),
        ([x, y, y], [y, x, y], false),
        ([x, x, x], [y, x, x], true),
        ([x, x, x], [x, y, x], false),
        ([x, y, z], [y, x, z], true),
        ([x, y, z], [x, y, y], false),
        ([x, y, z], [y, z, z], false),
    ];
    for (left, right, same) in table {
        assert!(rt; compare(rt.alloc(), left, right)? == same);
    }
    Ok(())
}

/// f D D for D a hundred times, from the variable on, under an abstraction of the variable.
fn abstracted(
    terms: &mut Terms,
    names: (NameId, NameId),
    binary: TypeId,
    ty: TypeId,
) -> Result<TermId, TermFault>
    requires binary { binary < length terms.old.types }
    requires ty { ty < length terms.old.types }
    ensures id { IfOk result (λ id. id < length terms.new.terms) }
    ensures types { length terms.old.types ≤ length terms.new.types }
    ensures terms { length terms.old.terms ≤ length terms.new.terms }
{
    let (f, x) = names;
    let function = var(terms, f, binary)?;
    let start = var(terms, x, ty)?;
    let last = doubled(terms, 100, function, start)?;
    Ok(abs(terms, x, ty, last)?)
}

fn are_same_doubled(
    terms: &mut Terms,
    left: (NameId, NameId),
    right: (NameId, NameId),
) -> Result<(bool, bool), TermFault> {
    let ty = type_var(terms, NameId::A)?;
    let unary = type_fun(terms, ty, ty)?;
    let binary = type_fun(terms, ty, unary)?;
    let a = abstracted(terms, left, binary, ty)?;
    let b = abstracted(terms, right, binary, ty)?;
    Ok((a == b, alpha_eq(terms, a, b)))
}

fn compare_doubled(
    alloc: Global,
    left: (NameId, NameId),
    right: (NameId, NameId),
) -> Result<(bool, bool), TermFault> {
    let mut terms = fresh_terms(alloc)?;
    are_same_doubled(&mut terms, left, right)
}

/// Terms of 2^101 nodes, each part of which stands there twice.
#[test]
fn shared_parts(rt: HostRuntime) -> Result<(), Fail> {
    let (f, g, x, y) = (NameId::EQUALS, NameId::BOOL, NameId::A, NameId::R);
    assert!(rt; compare_doubled(rt.alloc(), (f, x), (f, x))? == (true, true));
    assert!(rt; compare_doubled(rt.alloc(), (f, x), (f, y))? == (false, true));
    assert!(rt; compare_doubled(rt.alloc(), (f, x), (g, x))? == (false, false));
    Ok(())
}
