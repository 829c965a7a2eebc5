//! The table of types.
ghost use Rattle.std.specs.Prelude.{◌<◌, ◌≤◌, length, IfOk};
ghost use Rattle.std.specs.List.{All};

use crate::building::compare;
use crate::fresh::fresh_types;
use ot_logic::{Memory, NameId};
use ot_type::{TableFault, TypeId, TypeNode, TypeSubst, Types};
use std::alloc::Global;
use std::process::Abort;
use std::test::Fail;

/// These calls say no more of the table's own than that numbers are of the table and stay so: that
/// keeps the proofs of rows short.
#[tactic(auto, using(std::proofs::lemmas::Option::slice_get_within))]
fn type_var(types: &mut Types, name: NameId) -> Result<TypeId, Memory>
    ensures id { IfOk result (λ id. id < length types.new) }
    ensures types { length types.old ≤ length types.new }
{
    types.var(name)
}

#[tactic(auto, using(std::proofs::lemmas::Option::slice_get_within))]
fn boolean(types: &mut Types) -> Result<TypeId, Memory>
    ensures id { IfOk result (λ id. id < length types.new) }
    ensures types { length types.old ≤ length types.new }
{
    types.boolean()
}

#[tactic(auto, using(std::proofs::lemmas::Option::slice_get_within))]
fn fun(types: &mut Types, a: TypeId, b: TypeId) -> Result<TypeId, TableFault>
    requires a { a < length types.old }
    requires b { b < length types.old }
    ensures id { IfOk result (λ id. id < length types.new) }
    ensures types { length types.old ≤ length types.new }
{
    types.fun(a, b)
}

#[tactic(auto, using(std::proofs::lemmas::Option::slice_get_within))]
fn operator(types: &mut Types, name: NameId) -> Result<TypeId, TableFault>
    ensures id { IfOk result (λ id. id < length types.new) }
    ensures types { length types.old ≤ length types.new }
{
    types.op(name, &[])
}

#[tactic(auto, using(std::proofs::lemmas::Option::slice_get_within))]
fn single(types: &mut Types, name: NameId, arg: TypeId) -> Result<TypeId, TableFault>
    requires { arg < length types.old }
    ensures id { IfOk result (λ id. id < length types.new) }
    ensures types { length types.old ≤ length types.new }
{
    types.op(name, &[arg])
}

/// The instance with `x` in the place of `a`, and `y` in the place of `r`.
fn inst(
    alloc: Global,
    types: &mut Types,
    x: TypeId,
    y: TypeId,
    id: TypeId,
) -> Result<TypeId, TableFault>
    requires x { x < length types.old }
    requires y { y < length types.old }
    requires id { id < length types.old }
    ensures { length types.old ≤ length types.new }
{
    let s = pairs(alloc, types, x, y)?;
    types.inst(&s, id)
}

/// Of two pairs for `a` the first counts.
fn pairs(alloc: Global, types: &Types, x: TypeId, y: TypeId) -> Result<TypeSubst, Memory>
    requires x { x < length types.now }
    requires y { y < length types.now }
    ensures { IfOk result (λ s. All (λ p. p.1 < length types.now) s) }
{
    // The table is asked for by the contract alone.
    let _ = types;
    let mut s = TypeSubst::new(alloc);
    s.add(NameId::A, x)?;
    s.add(NameId::R, y)?;
    s.add(NameId::A, y)?;
    Ok(s)
}

/// a, r, bool, a -> r, r -> a, the operator `->` with one argument, and the operator `a` without
/// any.
#[derive(Clone, Copy)]
struct Seven {
    a: TypeId,
    r: TypeId,
    truth: TypeId,
    there: TypeId,
    back: TypeId,
    one: TypeId,
    named_a: TypeId,
}

fn listed(s: &Seven) -> [TypeId; 7] {
    [s.a, s.r, s.truth, s.there, s.back, s.one, s.named_a]
}

fn make_seven(types: &mut Types) -> Result<Seven, TableFault>
    ensures a { IfOk result (λ s. s.a < length types.new) }
    ensures r { IfOk result (λ s. s.r < length types.new) }
    ensures truth { IfOk result (λ s. s.truth < length types.new) }
    ensures there { IfOk result (λ s. s.there < length types.new) }
    ensures back { IfOk result (λ s. s.back < length types.new) }
    ensures one { IfOk result (λ s. s.one < length types.new) }
    ensures named_a { IfOk result (λ s. s.named_a < length types.new) }
    ensures types { length types.old ≤ length types.new }
{
    let a = type_var(types, NameId::A)?;
    let r = type_var(types, NameId::R)?;
    let truth = boolean(types)?;
    let there = fun(types, a, r)?;
    let back = fun(types, r, a)?;
    let one = single(types, NameId::ARROW, a)?;
    let named_a = operator(types, NameId::A)?;
    Ok(Seven {
        a,
        r,
        truth,
        there,
        back,
        one,
        named_a,
    })
}

/// The node is `->` with these two arguments.
fn check_node(rt: &impl Abort, types: &Types, id: TypeId, a: TypeId, r: TypeId)
    requires { id < length types.now }
{
    if let TypeNode::Op(name, args) = types.node(id) {
        assert!(rt; *name == NameId::ARROW);
        assert!(rt; args.as_slice() == [a, r].as_slice());
    } else {
        panic!(rt; "a variable");
    }
}

fn check_parts(rt: &impl Abort, types: &Types, s: &Seven)
    requires a { s.now.a < length types.now }
    requires there { s.now.there < length types.now }
    requires one { s.now.one < length types.now }
    requires named_a { s.now.named_a < length types.now }
{
    check_node(rt, types, s.there, s.a, s.r);
    assert!(rt; types.as_fun(s.there) == Some((s.a, s.r)));
    assert!(rt; types.as_fun(s.a) == None);
    assert!(rt; types.as_fun(s.one) == None);
    assert!(rt; types.as_fun(s.named_a) == None);
}

fn check_instances(
    rt: &impl Abort,
    alloc: Global,
    types: &mut Types,
    s: &Seven,
) -> Result<(), TableFault>
    requires a { s.now.a < length types.old }
    requires r { s.now.r < length types.old }
    requires truth { s.now.truth < length types.old }
    requires there { s.now.there < length types.old }
    requires one { s.now.one < length types.old }
    requires named_a { s.now.named_a < length types.old }
{
    assert!(rt; inst(alloc, types, s.r, s.a, s.there)? == s.back);
    assert!(rt; inst(alloc, types, s.truth, s.a, s.named_a)? == s.named_a);
    let wanted = single(types, NameId::ARROW, s.there)?;
    assert!(rt; inst(alloc, types, s.there, s.a, s.one)? == wanted);
    Ok(())
}

fn check_equal(rt: &impl Abort, alloc: Global, types: &mut Types) -> Result<(), Fail> {
    let first = make_seven(types)?;
    let again = make_seven(types)?;
    compare(rt, &listed(&first), &listed(&again));
    check_parts(rt, types, &first);
    Ok(check_instances(rt, alloc, types, &first)?)
}

#[test]
fn equal_numbers_for_equal_types(rt: HostRuntime) -> Result<(), Fail> {
    let mut types = fresh_types(rt.alloc())?;
    check_equal(&rt, rt.alloc(), &mut types)
}

/// The type, doubled so often.
fn doubled(types: &mut Types, times: u32, id: TypeId) -> Result<TypeId, TableFault>
    requires { id < length types.old }
    ensures id { IfOk result (λ id. id < length types.new) }
    ensures types { length types.old ≤ length types.new }
{
    let mut last = id;
    for _ in 0..times {
        last = fun(types, last, last)?;
    }
    Ok(last)
}

/// The type as the one argument of `=`, so often.
fn nested(types: &mut Types, times: u32, id: TypeId) -> Result<TypeId, TableFault>
    requires { id < length types.old }
    ensures id { IfOk result (λ id. id < length types.new) }
    ensures types { length types.old ≤ length types.new }
{
    let mut last = id;
    for _ in 0..times {
        last = single(types, NameId::EQUALS, last)?;
    }
    Ok(last)
}

fn check_shared(rt: &impl Abort, alloc: Global, types: &mut Types) -> Result<(), Fail> {
    let a = type_var(types, NameId::A)?;
    let truth = boolean(types)?;
    let shared = doubled(types, 1000, a)?;
    let wanted = doubled(types, 1000, truth)?;
    assert!(rt; inst(alloc, types, truth, a, shared)? == wanted);
    assert!(rt; types.vars(alloc, shared)?.as_slice() == [NameId::A].as_slice());
    assert!(rt; types.vars(alloc, wanted)?.is_empty());
    Ok(())
}

/// What is refused adds no type: the next one has the number that it has in a table where nothing
/// was refused.
fn check_deep(
    rt: &impl Abort,
    alloc: Global,
    types: &mut Types,
    other: &mut Types,
) -> Result<(), Fail> {
    let other_a = type_var(other, NameId::A)?;
    nested(other, 4095, other_a)?;
    let a = type_var(types, NameId::A)?;
    let deep = nested(types, 4095, a)?;
    let refused = single(types, NameId::EQUALS, deep);
    assert!(rt; refused == Err(TableFault::Nesting));
    assert!(rt; boolean(types)? == boolean(other)?);
    let truth = boolean(types)?;
    inst(alloc, types, truth, a, deep)?;
    let pair = fun(types, truth, truth)?;
    let refused = inst(alloc, types, pair, a, deep);
    assert!(rt; refused == Err(TableFault::Nesting));
    Ok(())
}

#[test]
fn shared_types(rt: HostRuntime) -> Result<(), Fail> {
    let alloc = rt.alloc();
    let mut types = fresh_types(alloc)?;
    check_shared(&rt, alloc, &mut types)
}

#[test]
fn deep_types(rt: HostRuntime) -> Result<(), Fail> {
    let alloc = rt.alloc();
    let mut types = fresh_types(alloc)?;
    let mut other = fresh_types(alloc)?;
    check_deep(&rt, alloc, &mut types, &mut other)
}
