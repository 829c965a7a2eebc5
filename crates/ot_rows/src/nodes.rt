//! Types and terms, worked by hand.
use ot_log_nodes::{Change, Done, NameId, Nodes, TermId, TypeId, Typings, VariableNode};
use ot_logic::{Memory, Name};
use std::alloc::Global;
use std::process::Abort;
use std::test::Fail;

#[test]
fn table(rt: HostRuntime) -> Result<(), Fail> {
    let alloc = rt.alloc();
    let mut nodes = Nodes::new(alloc)?;
    types(&rt, alloc, &mut nodes)?;
    terms(&rt, alloc, &mut nodes)
}

fn types(rt: &impl Abort, alloc: Global, nodes: &mut Nodes) -> Result<(), Fail> {
    let (letter, a) = variable(rt, alloc, nodes)?;
    assert!(rt; variable(rt, alloc, nodes)?.0 == letter);
    let boolean = nodes.boolean()?;
    let predicate = fun(rt, nodes, a, boolean)?;
    assert!(rt; fun(rt, nodes, a, boolean)? == predicate);
    assert!(rt; fun(rt, nodes, boolean, a)? != predicate);
    assert!(rt; nodes.has_type(predicate));
    assert!(rt; nodes.as_fun(predicate) == Some((a, boolean)));
    assert!(rt; nodes.type_depth(predicate) == 2);
    assert!(rt; nodes.has_type(boolean));
    assert!(rt; nodes.as_fun(boolean) == None);
    Ok(())
}

fn terms(rt: &impl Abort, alloc: Global, nodes: &mut Nodes) -> Result<(), Fail> {
    let (letter, a) = variable(rt, alloc, nodes)?;
    let boolean = nodes.boolean()?;
    let predicate = fun(rt, nodes, a, boolean)?;
    let x = free(rt, nodes, letter, a)?;
    let p = free(rt, nodes, letter, predicate)?;
    let applied = app(rt, nodes, p, x)?;
    assert!(rt; typed(rt, alloc, nodes, applied)? == Some(boolean));
    let turned = app(rt, nodes, x, p)?;
    assert!(rt; typed(rt, alloc, nodes, turned)? == None);
    // The variable of that name and type alone is closed; then the place is opened again.
    let closed = close(rt, alloc, nodes, letter, a, applied)?;
    let place = nodes.bound(0)?;
    assert!(rt; closed == app(rt, nodes, p, place)?);
    assert!(rt; open(rt, alloc, nodes, x, closed)? == applied);
    assert!(rt; typed(rt, alloc, nodes, closed)? == None);
    let whole = abs(rt, nodes, a, closed)?;
    assert!(rt; typed(rt, alloc, nodes, whole)? == Some(predicate));
    assert!(rt; nodes.has_term(whole));
    assert!(rt; nodes.term_depth(whole) == 3);
    assert!(rt; nodes.loose(whole) == 0);
    assert!(rt; nodes.has_free(whole));
    Ok(())
}

/// The type variable of the name `A`, with the number of the name.
fn variable(rt: &impl Abort, alloc: Global, nodes: &mut Nodes) -> Result<(NameId, TypeId), Memory> {
    let letter = nodes.name(Name::of_text(alloc, b"A")?)?;
    assert!(rt; nodes.has_name(letter));
    Ok((letter, nodes.type_var(letter)?))
}

fn fun(rt: &impl Abort, nodes: &mut Nodes, a: TypeId, b: TypeId) -> Result<TypeId, Memory> {
    assert!(rt; nodes.has_type(a));
    assert!(rt; nodes.has_type(b));
    nodes.fun(a, b)
}

fn free(rt: &impl Abort, nodes: &mut Nodes, name: NameId, ty: TypeId) -> Result<TermId, Memory> {
    assert!(rt; nodes.has_name(name));
    assert!(rt; nodes.has_type(ty));
    nodes.free(name, ty)
}

fn app(rt: &impl Abort, nodes: &mut Nodes, f: TermId, x: TermId) -> Result<TermId, Memory> {
    assert!(rt; nodes.has_term(f));
    assert!(rt; nodes.has_term(x));
    nodes.app(f, x)
}

fn abs(rt: &impl Abort, nodes: &mut Nodes, ty: TypeId, body: TermId) -> Result<TermId, Memory> {
    assert!(rt; nodes.has_type(ty));
    assert!(rt; nodes.has_term(body));
    nodes.abs(ty, body)
}

fn close(
    rt: &impl Abort,
    alloc: Global,
    nodes: &mut Nodes,
    name: NameId,
    ty: TypeId,
    id: TermId,
) -> Result<TermId, Memory> {
    assert!(rt; nodes.has_name(name));
    assert!(rt; nodes.has_type(ty));
    assert!(rt; nodes.has_term(id));
    let change = Change::Close(VariableNode { name, ty });
    let mut done = Done::new(alloc);
    nodes.change(&change, &mut done, id)
}

fn open(
    rt: &impl Abort,
    alloc: Global,
    nodes: &mut Nodes,
    term: TermId,
    id: TermId,
) -> Result<TermId, Memory> {
    assert!(rt; nodes.has_term(term));
    assert!(rt; nodes.has_term(id));
    let change = Change::Open(term);
    let mut done = Done::new(alloc);
    nodes.change(&change, &mut done, id)
}

/// The type of a term, where it has one.
fn typed(
    rt: &impl Abort,
    alloc: Global,
    nodes: &mut Nodes,
    id: TermId,
) -> Result<Option<TypeId>, Memory> {
    assert!(rt; nodes.has_term(id));
    let mut typings = Typings::new(alloc);
    let typing = nodes.typing(&mut typings, id)?;
    Ok(typing.map(|typed| typed.ty))
}
