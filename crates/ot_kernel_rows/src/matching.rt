//! Patterns against the terms of a kernel.
ghost use Rattle.std.specs.Prelude.{◌≡◌, ◌<◌, ◌≤◌, length, IfOk};

use crate::building::key;
use crate::fresh::fresh_kernel;
use ot_kernel::Kernel;
use ot_logic::{Memory, Name, NameId, Tm, Ty};
use ot_match::{Match, find_match};
use ot_term::{TermFault, TermId};
use ot_type::TypeId;
use std::alloc::{AllocError, Global};
use std::process::Abort;
use std::test::Fail;

fn boolean(alloc: Global) -> Result<Ty, AllocError> {
    Ok(Ty::Op(Name::of_text(alloc, b"bool")?, Vec::new(alloc)))
}

fn type_variable(alloc: Global, name: &[u8]) -> Result<Ty, AllocError> {
    Ok(Ty::Var(Name::of_text(alloc, name)?))
}

fn arrow(alloc: Global, from: Ty, to: Ty) -> Result<Ty, AllocError> {
    let mut ends = Vec::new(alloc);
    ends.push(from)?;
    ends.push(to)?;
    Ok(Ty::Op(Name::of_text(alloc, b"->")?, ends))
}

fn variable(alloc: Global, name: &[u8], ty: Ty) -> Result<Tm, AllocError> {
    Ok(Tm::Free(Name::of_text(alloc, name)?, ty))
}

fn abstraction(alloc: Global, ty: Ty, body: Tm) -> Result<Tm, AllocError> {
    Ok(Tm::Abs(ty, Box::new(alloc, body)?))
}

fn application(alloc: Global, function: Tm, argument: Tm) -> Result<Tm, AllocError> {
    Ok(Tm::App(Box::new(alloc, function)?, Box::new(alloc, argument)?))
}

/// No more than one part is owned where the next may be refused, so that few refusals have to drop any.
fn unary(alloc: Global) -> Result<Ty, AllocError> {
    let result = type_variable(alloc, b"A")?;
    arrow(alloc, type_variable(alloc, b"A")?, result)
}

fn binary(alloc: Global) -> Result<Ty, AllocError> {
    let result = unary(alloc)?;
    arrow(alloc, type_variable(alloc, b"A")?, result)
}

/// A free variable of type A.
fn letter(alloc: Global, name: &[u8]) -> Result<Tm, AllocError> {
    variable(alloc, name, type_variable(alloc, b"A")?)
}

/// A free variable of type A -> A -> A of one of type A.
fn of_one(alloc: Global, argument: &[u8]) -> Result<Tm, AllocError> {
    let function = variable(alloc, b"g", binary(alloc)?)?;
    application(alloc, function, letter(alloc, argument)?)
}

/// The same of two.
fn of_two(alloc: Global, left: &[u8], right: &[u8]) -> Result<Tm, AllocError> {
    let part = of_one(alloc, left)?;
    application(alloc, part, letter(alloc, right)?)
}

/// How many types and terms the match has, if there is one.
fn counts(found: &Option<Match>) -> Option<(usize, usize)> {
    match found {
        Some(found) => Some((found.types.len(), found.vars.len())),
        None => None,
    }
}

fn matches(
    alloc: Global,
    kernel: &Kernel,
    pattern: &Tm,
    target: TermId,
) -> Result<Option<(usize, usize)>, Memory>
    requires { target < length kernel.now.terms }
{
    let found = find_match(alloc, kernel, pattern, target)?;
    Ok(counts(&found))
}

#[test]
fn variables_and_binders(rt: HostRuntime) -> Result<(), Fail> {
    let mut kernel = fresh_kernel(rt.alloc())?;
    check_places(&rt, rt.alloc(), &mut kernel)
}

#[tactic(auto, using(std::proofs::lemmas::Option::slice_get_within))]
fn check_places(rt: &impl Abort, alloc: Global, kernel: &mut Kernel) -> Result<(), Fail>
    requires { length kernel.old.names ≡ 5 }
{
    let ty = kernel.type_op(NameId::BOOL, &[])?;
    let a = kernel.var(key(NameId::A, ty))?;
    let identity = kernel.abs(key(NameId::A, ty), a)?;
    let patterns = make_patterns(alloc)?;
    check_patterns(rt, alloc, kernel, &patterns, a, identity)
}

/// Any term, an abstraction whose body is a variable, and the identity of any type.
#[derive(Drop)]
struct Patterns {
    any: Tm,
    inner: Tm,
    same: Tm,
}

fn make_any(alloc: Global) -> Result<Tm, AllocError> {
    letter(alloc, b"x")
}

fn make_inner(alloc: Global) -> Result<Tm, AllocError> {
    let body = variable(alloc, b"x", boolean(alloc)?)?;
    let ty = boolean(alloc)?;
    abstraction(alloc, ty, body)
}

fn make_same(alloc: Global) -> Result<Tm, AllocError> {
    abstraction(alloc, type_variable(alloc, b"A")?, Tm::Bound(0))
}

fn make_patterns(alloc: Global) -> Result<Patterns, AllocError> {
    let any = make_any(alloc)?;
    let inner = make_inner(alloc)?;
    let same = make_same(alloc)?;
    Ok(Patterns { any, inner, same })
}

fn check_patterns(
    rt: &impl Abort,
    alloc: Global,
    kernel: &Kernel,
    patterns: &Patterns,
    a: TermId,
    identity: TermId,
) -> Result<(), Fail>
    requires a { a < length kernel.now.terms }
    requires identity { identity < length kernel.now.terms }
{
    assert!(rt; matches(alloc, kernel, &patterns.any, a)? == Some((1, 1)));
    assert!(rt; matches(alloc, kernel, &patterns.any, identity)? == Some((1, 1)));
    // A variable takes no bound place.
    assert!(rt; matches(alloc, kernel, &patterns.inner, identity)? == None);
    assert!(rt; matches(alloc, kernel, &patterns.same, identity)? == Some((1, 0)));
    assert!(rt; matches(alloc, kernel, &patterns.same, a)? == None);
    Ok(())
}

/// The identity of a type, its bound variable of this name.
#[tactic(auto, using(std::proofs::lemmas::Option::slice_get_within))]
fn identity(kernel: &mut Kernel, name: NameId, ty: TypeId) -> Result<TermId, Fail>
    requires name { name < length kernel.old.names }
    requires ty { ty < length kernel.old.types }
    ensures id { IfOk result (λ id. id < length kernel.new.terms) }
    ensures names { length kernel.old.names ≤ length kernel.new.names }
    ensures types { length kernel.old.types ≤ length kernel.new.types }
    ensures terms { length kernel.old.terms ≤ length kernel.new.terms }
{
    let body = kernel.var(key(name, ty))?;
    Ok(kernel.abs(key(name, ty), body)?)
}

/// f D D for D a hundred times, from this term on.
#[tactic(auto, using(std::proofs::lemmas::Option::slice_get_within))]
fn doubled(kernel: &mut Kernel, f: TermId, start: TermId) -> Result<TermId, TermFault>
    requires f { f < length kernel.old.terms }
    requires start { start < length kernel.old.terms }
    ensures id { IfOk result (λ id. id < length kernel.new.terms) }
    ensures names { length kernel.old.names ≤ length kernel.new.names }
    ensures types { length kernel.old.types ≤ length kernel.new.types }
    ensures terms { length kernel.old.terms ≤ length kernel.new.terms }
{
    let mut last = start;
    for _ in 0..100 {
        let left = kernel.app(f, last)?;
        last = kernel.app(left, last)?;
    }
    Ok(last)
}

/// The type of a function of two arguments of a type.
#[tactic(auto, using(std::proofs::lemmas::Option::slice_get_within))]
fn function_type(kernel: &mut Kernel, ty: TypeId) -> Result<TypeId, Fail>
    requires names { 5 ≤ length kernel.old.names }
    requires ty { ty < length kernel.old.types }
    ensures within { IfOk result (λ r. r < length kernel.new.types) }
    ensures names { length kernel.old.names ≤ length kernel.new.names }
    ensures types { length kernel.old.types ≤ length kernel.new.types }
    ensures terms { length kernel.old.terms ≤ length kernel.new.terms }
{
    let unary = kernel.type_op(NameId::ARROW, &[ty, ty])?;
    Ok(kernel.type_op(NameId::ARROW, &[ty, unary])?)
}

#[test]
fn shared_parts(rt: HostRuntime) -> Result<(), Fail> {
    let mut kernel = fresh_kernel(rt.alloc())?;
    check_shared(&rt, rt.alloc(), &mut kernel)
}

/// Terms of more than 2^100 nodes, each part of which stands there twice.
#[tactic(auto, using(std::proofs::lemmas::Option::slice_get_within))]
fn check_shared(rt: &impl Abort, alloc: Global, kernel: &mut Kernel) -> Result<(), Fail>
    requires { length kernel.old.names ≡ 5 }
{
    let truth = kernel.type_op(NameId::BOOL, &[])?;
    let ty = kernel.type_op(NameId::ARROW, &[truth, truth])?;
    let binary = function_type(kernel, ty)?;
    let f = kernel.var(key(NameId::EQUALS, binary))?;
    let start = identity(kernel, NameId::A, truth)?;
    let left = doubled(kernel, f, start)?;
    let renamed = identity(kernel, NameId::R, truth)?;
    let right = doubled(kernel, f, renamed)?;
    let part = kernel.app(f, left)?;
    let alike = kernel.app(part, right)?;
    let apart = kernel.app(part, start)?;
    check_of_two(rt, alloc, kernel, alike, apart)?;
    let bound = kernel.abs(key(NameId::EQUALS, binary), alike)?;
    let kept = kernel.abs(key(NameId::A, ty), alike)?;
    check_around(rt, alloc, kernel, bound, kept)
}

fn check_of_two(
    rt: &impl Abort,
    alloc: Global,
    kernel: &Kernel,
    alike: TermId,
    apart: TermId,
) -> Result<(), Fail>
    requires alike { alike < length kernel.now.terms }
    requires apart { apart < length kernel.now.terms }
{
    let one = of_two(alloc, b"y", b"y")?;
    assert!(rt; matches(alloc, kernel, &one, alike)? == Some((1, 2)));
    assert!(rt; matches(alloc, kernel, &one, apart)? == None);
    let two = of_two(alloc, b"y", b"z")?;
    assert!(rt; matches(alloc, kernel, &two, alike)? == Some((1, 3)));
    assert!(rt; matches(alloc, kernel, &two, apart)? == Some((1, 3)));
    Ok(())
}

/// An abstraction of any type whose body is a variable.
fn make_around(alloc: Global) -> Result<Tm, AllocError> {
    let body = variable(alloc, b"y", type_variable(alloc, b"A")?)?;
    let ty = type_variable(alloc, b"B")?;
    abstraction(alloc, ty, body)
}

fn check_around(
    rt: &impl Abort,
    alloc: Global,
    kernel: &Kernel,
    bound: TermId,
    kept: TermId,
) -> Result<(), Fail>
    requires bound { bound < length kernel.now.terms }
    requires kept { kept < length kernel.now.terms }
{
    let around = make_around(alloc)?;
    assert!(rt; matches(alloc, kernel, &around, bound)? == None);
    assert!(rt; matches(alloc, kernel, &around, kept)? == Some((2, 1)));
    Ok(())
}
