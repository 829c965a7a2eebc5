//! The table of terms.
ghost use Rattle.std.specs.Prelude.{◌<◌, ◌≤◌, length, IfOk};

use crate::building::{
    abs, app, compare, constant, doubled, key, type_bool, type_fun, type_var, var,
};
use crate::fresh::fresh_terms;
use ot_logic::NameId;
use ot_term::{Symbol, SymbolKind, TermFault, TermId, Terms, VarKey};
use ot_type::{TableFault, TypeId};
use std::alloc::Global;
use std::process::Abort;
use std::test::Fail;

/// Types: a, r, bool, a -> a, a -> (a -> a) and a -> (r -> bool).
#[derive(Clone, Copy)]
struct Sorts {
    a: TypeId,
    r: TypeId,
    truth: TypeId,
    unary: TypeId,
    binary: TypeId,
    mixed: TypeId,
}

fn make_sorts(terms: &mut Terms) -> Result<Sorts, TableFault>
    ensures a { IfOk result (λ s. s.a < length terms.new.types) }
    ensures r { IfOk result (λ s. s.r < length terms.new.types) }
    ensures truth { IfOk result (λ s. s.truth < length terms.new.types) }
    ensures unary { IfOk result (λ s. s.unary < length terms.new.types) }
    ensures binary { IfOk result (λ s. s.binary < length terms.new.types) }
    ensures mixed { IfOk result (λ s. s.mixed < length terms.new.types) }
{
    let a = type_var(terms, NameId::A)?;
    let r = type_var(terms, NameId::R)?;
    let truth = type_bool(terms)?;
    let unary = type_fun(terms, a, a)?;
    let binary = type_fun(terms, a, unary)?;
    let test = type_fun(terms, r, truth)?;
    let mixed = type_fun(terms, a, test)?;
    Ok(Sorts {
        a,
        r,
        truth,
        unary,
        binary,
        mixed,
    })
}

#[tactic(auto, using(std::proofs::lemmas::Option::slice_get_within))]
fn equation(terms: &mut Terms, a: TermId, b: TermId) -> Result<TermId, TermFault>
    requires a { a < length terms.old.terms }
    requires b { b < length terms.old.terms }
    ensures id { IfOk result (λ id. id < length terms.new.terms) }
    ensures types { length terms.old.types ≤ length terms.new.types }
    ensures terms { length terms.old.terms ≤ length terms.new.terms }
{
    terms.eq(a, b)
}

/// Twelve terms: x : a, y : a, x : bool, f : a -> a, g : a -> (a -> a), the constant `a` at a and at
/// bool, `=` at a -> (a -> bool), f x, g x, \x. f x and \y. f y.
#[derive(Clone, Copy)]
struct Twelve {
    x: TermId,
    y: TermId,
    other_x: TermId,
    f: TermId,
    g: TermId,
    c: TermId,
    other_c: TermId,
    test: TermId,
    fx: TermId,
    gx: TermId,
    over_x: TermId,
    over_y: TermId,
}

fn listed(t: &Twelve) -> [TermId; 12] {
    [
        t.x, t.y, t.other_x, t.f, t.g, t.c, t.other_c, t.test, t.fx, t.gx, t.over_x, t.over_y,
    ]
}

fn make_twelve(terms: &mut Terms, s: &Sorts) -> Result<Twelve, TermFault>
    requires a { s.now.a < length terms.old.types }
    requires truth { s.now.truth < length terms.old.types }
    requires unary { s.now.unary < length terms.old.types }
    requires binary { s.now.binary < length terms.old.types }
    requires mixed { s.now.mixed < length terms.old.types }
    ensures x { IfOk result (λ t. t.x < length terms.new.terms) }
    ensures y { IfOk result (λ t. t.y < length terms.new.terms) }
    ensures other_x { IfOk result (λ t. t.other_x < length terms.new.terms) }
    ensures f { IfOk result (λ t. t.f < length terms.new.terms) }
    ensures c { IfOk result (λ t. t.c < length terms.new.terms) }
    ensures test { IfOk result (λ t. t.test < length terms.new.terms) }
    ensures gx { IfOk result (λ t. t.gx < length terms.new.terms) }
    ensures over_x { IfOk result (λ t. t.over_x < length terms.new.terms) }
    ensures types { length terms.old.types ≤ length terms.new.types }
    ensures terms { length terms.old.terms ≤ length terms.new.terms }
{
    let x = var(terms, NameId::A, s.a)?;
    let y = var(terms, NameId::R, s.a)?;
    let other_x = var(terms, NameId::A, s.truth)?;
    let f = var(terms, NameId::A, s.unary)?;
    let g = var(terms, NameId::R, s.binary)?;
    let c = constant(terms, NameId::A, s.a)?;
    let other_c = constant(terms, NameId::A, s.truth)?;
    let test = constant(terms, NameId::EQUALS, s.mixed)?;
    let fx = app(terms, f, x)?;
    let gx = app(terms, g, x)?;
    let fy = app(terms, f, y)?;
    let over_x = abs(terms, NameId::A, s.a, fx)?;
    let over_y = abs(terms, NameId::R, s.a, fy)?;
    Ok(Twelve {
        x,
        y,
        other_x,
        f,
        g,
        c,
        other_c,
        test,
        fx,
        gx,
        over_x,
        over_y,
    })
}

fn refuses(rt: &impl Abort, terms: &mut Terms, f: TermId, x: TermId, refused: TermFault)
    requires f { f < length terms.old.terms }
    requires x { x < length terms.old.terms }
    ensures types { length terms.old.types ≤ length terms.new.types }
    ensures terms { length terms.old.terms ≤ length terms.new.terms }
{
    assert!(rt; app(terms, f, x) == Err(refused));
}

fn check_refusals(rt: &impl Abort, terms: &mut Terms, t: &Twelve)
    requires x { t.now.x < length terms.old.terms }
    requires y { t.now.y < length terms.old.terms }
    requires other_x { t.now.other_x < length terms.old.terms }
    requires f { t.now.f < length terms.old.terms }
    requires c { t.now.c < length terms.old.terms }
    requires gx { t.now.gx < length terms.old.terms }
    requires over_x { t.now.over_x < length terms.old.terms }
    ensures types { length terms.old.types ≤ length terms.new.types }
    ensures terms { length terms.old.terms ≤ length terms.new.terms }
{
    refuses(rt, terms, t.x, t.y, TermFault::NotFunction);
    refuses(rt, terms, t.x, t.other_x, TermFault::NotFunction);
    refuses(rt, terms, t.c, t.c, TermFault::NotFunction);
    refuses(rt, terms, t.f, t.other_x, TermFault::ArgumentType);
    refuses(rt, terms, t.gx, t.f, TermFault::ArgumentType);
    refuses(rt, terms, t.over_x, t.other_x, TermFault::ArgumentType);
}

fn check_equations(
    rt: &impl Abort,
    terms: &mut Terms,
    s: &Sorts,
    t: &Twelve,
) -> Result<(), TermFault>
    requires r { s.now.r < length terms.old.types }
    requires truth { s.now.truth < length terms.old.types }
    requires binary { s.now.binary < length terms.old.types }
    requires x { t.now.x < length terms.old.terms }
    requires y { t.now.y < length terms.old.terms }
    requires other_x { t.now.other_x < length terms.old.terms }
    requires test { t.now.test < length terms.old.terms }
    ensures types { length terms.old.types ≤ length terms.new.types }
    ensures terms { length terms.old.terms ≤ length terms.new.terms }
{
    let equal = equation(terms, t.x, t.y)?;
    assert!(rt; terms.as_eq(equal) == Some((t.x, t.y)));
    assert!(rt; equation(terms, t.x, t.other_x) == Err(TermFault::ArgumentType));
    let z = var(terms, NameId::A, s.r)?;
    let partly = app(terms, t.test, t.x)?;
    let mixed = app(terms, partly, z)?;
    let at_bool = constant(terms, NameId::EQUALS, s.truth)?;
    let no_test = constant(terms, NameId::EQUALS, s.binary)?;
    let left = app(terms, no_test, t.x)?;
    let no_equation = app(terms, left, t.y)?;
    assert!(rt; terms.as_eq(t.x) == None);
    assert!(rt; terms.as_eq(t.test) == None);
    assert!(rt; terms.as_eq(partly) == None);
    assert!(rt; terms.as_eq(mixed) == None);
    assert!(rt; terms.as_eq(at_bool) == None);
    assert!(rt; terms.as_eq(no_test) == None);
    assert!(rt; terms.as_eq(left) == None);
    assert!(rt; terms.as_eq(no_equation) == None);
    Ok(())
}

/// The free variables of a term.
fn check_vars(
    rt: &impl Abort,
    alloc: Global,
    terms: &Terms,
    id: TermId,
    wanted: &[VarKey],
) -> Result<(), TermFault>
    requires { id < length terms.now.terms }
{
    assert!(rt; terms.free_vars(alloc, id)?.as_slice() == wanted);
    Ok(())
}

/// \x. x y has y free, and \x : a. x : bool is left with its x.
fn check_free(
    rt: &impl Abort,
    alloc: Global,
    terms: &mut Terms,
    s: &Sorts,
    t: &Twelve,
) -> Result<(), TermFault>
    requires a { s.now.a < length terms.old.types }
    requires unary { s.now.unary < length terms.old.types }
    requires y { t.now.y < length terms.old.terms }
    requires other_x { t.now.other_x < length terms.old.terms }
    requires f { t.now.f < length terms.old.terms }
    requires over_x { t.now.over_x < length terms.old.terms }
    ensures types { length terms.old.types ≤ length terms.new.types }
    ensures terms { length terms.old.terms ≤ length terms.new.terms }
{
    let body = app(terms, t.f, t.y)?;
    let applied = abs(terms, NameId::A, s.unary, body)?;
    let kept = abs(terms, NameId::A, s.a, t.other_x)?;
    check_vars(rt, alloc, terms, applied, &[key(NameId::R, s.a)])?;
    check_vars(rt, alloc, terms, kept, &[key(NameId::A, s.truth)])?;
    check_vars(rt, alloc, terms, t.over_x, &[key(NameId::A, s.unary)])?;
    assert!(rt; terms.is_free(alloc, &key(NameId::R, s.a), applied)?);
    assert!(rt; !terms.is_free(alloc, &key(NameId::A, s.a), kept)?);
    check_kept(rt, alloc, terms, s, kept)
}

fn check_kept(
    rt: &impl Abort,
    alloc: Global,
    terms: &Terms,
    s: &Sorts,
    kept: TermId,
) -> Result<(), TermFault>
    requires { kept < length terms.now.terms }
{
    assert!(rt;
        terms.free_named(alloc, NameId::A, kept)?.as_slice() == [key(NameId::A, s.truth)].as_slice()
    );
    assert!(rt; terms.type_vars(alloc, kept)?.as_slice() == [NameId::A].as_slice());
    Ok(())
}

fn check_table(rt: &impl Abort, alloc: Global, terms: &mut Terms) -> Result<(), Fail> {
    let s = make_sorts(terms)?;
    let first = make_twelve(terms, &s)?;
    let again = make_twelve(terms, &s)?;
    compare(rt, &listed(&first), &listed(&again));
    check_equations(rt, terms, &s, &first)?;
    Ok(check_free(rt, alloc, terms, &s, &first)?)
}

#[test]
fn equal_numbers_for_equal_terms(rt: HostRuntime) -> Result<(), Fail> {
    let mut terms = fresh_terms(rt.alloc())?;
    check_table(&rt, rt.alloc(), &mut terms)
}

/// f t for t, so often.
fn nested(terms: &mut Terms, times: u32, f: TermId, start: TermId) -> Result<TermId, TermFault>
    requires f { f < length terms.old.terms }
    requires start { start < length terms.old.terms }
    ensures id { IfOk result (λ id. id < length terms.new.terms) }
    ensures types { length terms.old.types ≤ length terms.new.types }
    ensures terms { length terms.old.terms ≤ length terms.new.terms }
{
    let mut last = start;
    for _ in 0..times {
        last = app(terms, f, last)?;
    }
    Ok(last)
}

fn check_shared(rt: &impl Abort, alloc: Global, terms: &mut Terms) -> Result<(), Fail> {
    let s = make_sorts(terms)?;
    let c = constant(terms, NameId::A, s.a)?;
    let g = var(terms, NameId::R, s.binary)?;
    let shared = doubled(terms, 1000, g, c)?;
    check_vars(rt, alloc, terms, shared, &[key(NameId::R, s.binary)])?;
    assert!(rt; terms.type_vars(alloc, shared)?.as_slice() == [NameId::A].as_slice());
    let wanted = [
        Symbol {
            kind: SymbolKind::Con,
            name: NameId::A,
        },
        Symbol {
            kind: SymbolKind::TyOp,
            name: NameId::ARROW,
        },
    ];
    assert!(rt; terms.symbols(alloc, shared)?.as_slice() == wanted.as_slice());
    Ok(())
}

#[test]
fn shared_terms(rt: HostRuntime) -> Result<(), Fail> {
    let mut terms = fresh_terms(rt.alloc())?;
    check_shared(&rt, rt.alloc(), &mut terms)
}

/// A term as deep as terms may be, its function and its variable.
#[derive(Clone, Copy)]
struct Deep {
    f: TermId,
    x: TermId,
    deep: TermId,
}

fn make_deep(terms: &mut Terms, s: &Sorts) -> Result<Deep, TermFault>
    requires a { s.now.a < length terms.old.types }
    requires unary { s.now.unary < length terms.old.types }
    ensures f { IfOk result (λ d. d.f < length terms.new.terms) }
    ensures x { IfOk result (λ d. d.x < length terms.new.terms) }
    ensures deep { IfOk result (λ d. d.deep < length terms.new.terms) }
    ensures types { length terms.old.types ≤ length terms.new.types }
    ensures terms { length terms.old.terms ≤ length terms.new.terms }
{
    let x = var(terms, NameId::A, s.a)?;
    let f = var(terms, NameId::R, s.unary)?;
    let deep = nested(terms, 4095, f, x)?;
    Ok(Deep { f, x, deep })
}

/// What is refused adds no term: the next one has the number that it has in a table where nothing
/// was refused.
fn check_deep(
    rt: &impl Abort,
    alloc: Global,
    terms: &mut Terms,
    other: &mut Terms,
) -> Result<(), Fail> {
    let s = make_sorts(other)?;
    make_deep(other, &s)?;
    let next = var(other, NameId::BOOL, s.a)?;
    let s = make_sorts(terms)?;
    let Deep { f, x, deep } = make_deep(terms, &s)?;
    assert!(rt; terms.free_vars(alloc, deep)?.len() == 2);
    assert!(rt; app(terms, f, deep) == Err(TermFault::Nesting));
    assert!(rt; abs(terms, NameId::A, s.a, deep) == Err(TableFault::Nesting));
    assert!(rt; var(terms, NameId::BOOL, s.a)? == next);
    assert!(rt; equation(terms, deep, x) == Err(TermFault::Nesting));
    Ok(())
}

#[test]
fn deep_terms(rt: HostRuntime) -> Result<(), Fail> {
    let mut terms = fresh_terms(rt.alloc())?;
    let mut other = fresh_terms(rt.alloc())?;
    check_deep(&rt, rt.alloc(), &mut terms, &mut other)
}

/// The same for applications that are refused for their types.
fn check_refused(rt: &impl Abort, terms: &mut Terms, other: &mut Terms) -> Result<(), Fail> {
    let s = make_sorts(other)?;
    make_twelve(other, &s)?;
    let next = var(other, NameId::BOOL, s.a)?;
    let s = make_sorts(terms)?;
    let t = make_twelve(terms, &s)?;
    check_refusals(rt, terms, &t);
    assert!(rt; var(terms, NameId::BOOL, s.a)? == next);
    Ok(())
}

#[test]
fn refused_terms(rt: HostRuntime) -> Result<(), Fail> {
    let mut terms = fresh_terms(rt.alloc())?;
    let mut other = fresh_terms(rt.alloc())?;
    check_refused(&rt, &mut terms, &mut other)
}
