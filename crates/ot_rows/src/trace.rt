//! The steps of articles' objects.
ghost use Rattle.std.specs.Prelude.{◌↔◌, ◌<◌, length, IsTrue};

use ot_logic::{Cmd, Memory, NameId};
use ot_trace::{Step, StepId, Trace, reach, uses};
use std::alloc::Global;
use std::process::Abort;
use std::test::Fail;

fn has(trace: &Trace, id: StepId) -> bool
    ensures { IsTrue result ↔ (id < length trace.now) }
{
    id.index() < trace.count()
}

/// A name, its constant, the empty list, the definition of the constant over name and list, and its
/// theorem.
fn definition(rt: &impl Abort, trace: &mut Trace, name: NameId) -> Result<[StepId; 5], Memory> {
    let name = trace.add(Step::Name(name))?;
    let constant = trace.make(Cmd::Const, &[name])?;
    let nil = trace.make(Cmd::Nil, &[])?;
    assert!(rt; has(trace, name));
    assert!(rt; has(trace, constant));
    let definition = trace.define(Cmd::DefineConst, &[name, nil], &[constant])?;
    let theorem = trace.add(Step::Outcome(1, definition))?;
    Ok([name, constant, nil, definition, theorem])
}

fn operand(rt: &impl Abort, trace: &Trace, id: StepId, place: usize) -> StepId {
    assert!(rt; has(trace, id));
    trace.operand(id, place)
}

fn has_operands(rt: &impl Abort, trace: &Trace, id: StepId, wanted: &[StepId]) -> bool {
    assert!(rt; has(trace, id));
    trace.step(id).operands() == wanted
}

/// The theorem of a definition, by its place.
fn outcome(rt: &impl Abort, trace: &Trace, place: u8, definition: StepId) -> Option<StepId> {
    assert!(rt; has(trace, definition));
    trace.find(&Step::Outcome(place, definition))
}

fn check_steps(rt: &impl Abort, trace: &Trace, ids: [StepId; 5]) {
    let [name, _, nil, definition, theorem] = ids;
    assert!(rt; has(trace, name));
    assert!(rt; operand(rt, trace, definition, 0) == name);
    assert!(rt; operand(rt, trace, definition, 1) == nil);
    assert!(rt; operand(rt, trace, theorem, 0) == theorem);
    assert!(rt; has_operands(rt, trace, definition, &[name, nil]));
    assert!(rt; outcome(rt, trace, 1, definition) == Some(theorem));
    assert!(rt; outcome(rt, trace, 2, definition) == None);
}

/// What the root leads to, and how often each step is used.
fn check_walk(
    rt: &impl Abort,
    alloc: Global,
    trace: &Trace,
    definition: StepId,
    root: StepId,
    marked: [bool; 5],
    used: [u8; 5],
) -> Result<(), Memory> {
    assert!(rt; has(trace, definition));
    assert!(rt; has(trace, root));
    let marks = reach(alloc, trace, &[root], &[definition])?;
    assert!(rt; marks.as_slice() == marked.as_slice());
    let counts = uses(alloc, trace, &[root], marks.as_slice())?;
    assert!(rt; counts.as_slice() == used.as_slice());
    Ok(())
}

/// A definition takes its operands along, a theorem its definition, and a constant too.
fn check(rt: &impl Abort, alloc: Global, trace: &mut Trace) -> Result<(), Fail> {
    let first = definition(rt, trace, NameId::A)?;
    let again = definition(rt, trace, NameId::A)?;
    assert!(rt; again == first);
    assert!(rt; trace.count() == 5);
    check_steps(rt, trace, first);
    let [_, constant, _, definition, theorem] = first;
    check_walk(
        rt,
        alloc,
        trace,
        definition,
        theorem,
        [true, false, true, true, true],
        [1, 0, 1, 0, 1],
    )?;
    check_walk(
        rt,
        alloc,
        trace,
        definition,
        constant,
        [true, true, true, true, false],
        [2, 1, 1, 0, 0],
    )?;
    Ok(())
}

#[test]
fn a_constant_and_its_definition(rt: HostRuntime) -> Result<(), Fail> {
    let alloc = rt.alloc();
    let mut trace = Trace::new(alloc);
    check(&rt, alloc, &mut trace)
}
