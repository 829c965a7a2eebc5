//! Interpretations, one after another.
use ot_interp::Interp;
use ot_logic::{Memory, NameId};
use std::alloc::Global;
use std::process::Abort;
use std::test::Fail;

type Pair = (NameId, NameId);

fn single(alloc: Global, pair: Pair, is_type: bool) -> Result<Interp, Memory> {
    let mut interp = Interp::new(alloc);
    if is_type {
        interp.add_type_op(pair.0, pair.1)?;
    } else {
        interp.add_constant(pair.0, pair.1)?;
    }
    Ok(interp)
}

/// What a name becomes as a constant and as a type operator, by two interpretations that hold one
/// pair each.
fn by_both(
    alloc: Global,
    inner: Pair,
    outer: Pair,
    name: NameId,
    is_type: bool,
) -> Result<[NameId; 2], Memory> {
    let inner = single(alloc, inner, is_type)?;
    let outer = single(alloc, outer, is_type)?;
    let both = inner.after(alloc, &outer)?;
    Ok([both.constant(name), both.type_op(name)])
}

/// What a name becomes by both pairs, and by no pair.
fn check_row(
    rt: &impl Abort,
    alloc: Global,
    inner: Pair,
    outer: Pair,
    name: NameId,
    wanted: NameId,
) -> Result<(), Fail> {
    assert!(rt; by_both(alloc, inner, outer, name, false)? == [wanted, name]);
    assert!(rt; by_both(alloc, inner, outer, name, true)? == [name, wanted]);
    Ok(())
}

fn check_identity(rt: &impl Abort, identity: &Interp, name: NameId) {
    assert!(rt; [identity.constant(name), identity.type_op(name)] == [name; 2]);
}

#[test]
fn one_after_another(rt: HostRuntime) -> Result<(), Fail> {
    const A: NameId = NameId::A;
    const R: NameId = NameId::R;
    const BOOL: NameId = NameId::BOOL;
    const EQUALS: NameId = NameId::EQUALS;
    let alloc = rt.alloc();
    check_row(&rt, alloc, (A, R), (R, BOOL), A, BOOL)?;
    check_row(&rt, alloc, (A, R), (R, BOOL), R, BOOL)?;
    check_row(&rt, alloc, (A, R), (R, BOOL), EQUALS, EQUALS)?;
    check_row(&rt, alloc, (R, BOOL), (A, R), A, R)?;
    check_row(&rt, alloc, (A, R), (A, EQUALS), A, R)?;
    check_row(&rt, alloc, (A, R), (R, A), A, A)?;
    check_row(&rt, alloc, (A, R), (R, A), R, A)?;
    Ok(())
}

#[test]
fn identity(rt: HostRuntime) {
    check_identity(&rt, &Interp::new(rt.alloc()), NameId::A);
}
