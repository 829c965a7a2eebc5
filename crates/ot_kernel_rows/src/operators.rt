//! Type operators, from a premise |- p t: their theorems and each refusal are worked by hand.
ghost use Rattle.std.specs.Prelude.{◌≡◌, ◌<◌, ◌≤◌, length, IfOk};
ghost use Rattle.std.specs.List.{All};

use crate::building::key;
use crate::fresh::fresh_kernel;
use crate::rules::{con, equated, shows};
use ot_define::DefineFault;
use ot_kernel::{Kernel, RuleFault, ThmId};
use ot_logic::NameId;
use ot_term::{Symbol, SymbolKind, TermId};
use ot_type::TypeId;
use std::process::Abort;
use std::test::Fail;

/// A type variable, a predicate p on it, and propositions: p t, v t for a variable v, and a variable.
#[derive(Clone, Copy)]
struct Premise {
    truth: TypeId,
    ty: TypeId,
    test: TypeId,
    p: TermId,
    holds: TermId,
    open: TermId,
    lone: TermId,
}

#[tactic(auto, using(std::proofs::lemmas::Option::slice_get_within))]
fn make_premise(kernel: &mut Kernel) -> Result<Premise, Fail>
    requires { 5 ≤ length kernel.old.names }
    ensures truth { IfOk result (λ t. t.truth < length kernel.new.types) }
    ensures ty { IfOk result (λ t. t.ty < length kernel.new.types) }
    ensures test { IfOk result (λ t. t.test < length kernel.new.types) }
    ensures p { IfOk result (λ t. t.p < length kernel.new.terms) }
    ensures holds { IfOk result (λ t. t.holds < length kernel.new.terms) }
    ensures open { IfOk result (λ t. t.open < length kernel.new.terms) }
    ensures lone { IfOk result (λ t. t.lone < length kernel.new.terms) }
    ensures names { length kernel.old.names ≤ length kernel.new.names }
{
    let truth = kernel.type_op(NameId::BOOL, &[])?;
    let ty = kernel.type_var(NameId::A)?;
    let test = kernel.type_op(NameId::ARROW, &[ty, truth])?;
    let p = kernel.constant(NameId::BOOL, test)?;
    let v = kernel.var(key(NameId::R, test))?;
    let t = kernel.var(key(NameId::BOOL, ty))?;
    let holds = kernel.app(p, t)?;
    let open = kernel.app(v, t)?;
    let lone = kernel.var(key(NameId::R, truth))?;
    Ok(Premise {
        truth,
        ty,
        test,
        p,
        holds,
        open,
        lone,
    })
}

/// With `a` the name of the type operator and of `abs`, and `r` that of `rep`: the new type, `a` and `r` as variables
/// of it and of the old one, abs (rep a), rep (abs r) = r, and p r.
#[derive(Clone, Copy)]
struct Sides {
    new: TypeId,
    a: TermId,
    there: TermId,
    is_back: TermId,
    p_r: TermId,
}

#[tactic(auto, using(std::proofs::lemmas::Option::slice_get_within))]
fn make_sides(kernel: &mut Kernel, ty: TypeId, p: TermId) -> Result<Sides, Fail>
    requires named { 5 ≤ length kernel.old.names }
    requires ty { ty < length kernel.old.types }
    requires p { p < length kernel.old.terms }
    ensures new { IfOk result (λ s. s.new < length kernel.new.types) }
    ensures a { IfOk result (λ s. s.a < length kernel.new.terms) }
    ensures there { IfOk result (λ s. s.there < length kernel.new.terms) }
    ensures is_back { IfOk result (λ s. s.is_back < length kernel.new.terms) }
    ensures p_r { IfOk result (λ s. s.p_r < length kernel.new.terms) }
    ensures names { length kernel.old.names ≤ length kernel.new.names }
    ensures types { length kernel.old.types ≤ length kernel.new.types }
    ensures terms { length kernel.old.terms ≤ length kernel.new.terms }
{
    let new = kernel.type_op(NameId::A, &[ty])?;
    let to = kernel.type_op(NameId::ARROW, &[ty, new])?;
    let from = kernel.type_op(NameId::ARROW, &[new, ty])?;
    let abs = kernel.constant(NameId::A, to)?;
    let rep = kernel.constant(NameId::R, from)?;
    let a = kernel.var(key(NameId::A, new))?;
    let r = kernel.var(key(NameId::R, ty))?;
    let from_a = kernel.app(rep, a)?;
    let there = kernel.app(abs, from_a)?;
    let to_r = kernel.app(abs, r)?;
    let back = kernel.app(rep, to_r)?;
    let is_back = equated(kernel, ty, back, r)?;
    let p_r = kernel.app(p, r)?;
    Ok(Sides {
        new,
        a,
        there,
        is_back,
        p_r,
    })
}

/// (\a. abs (rep a)) = (\a. a), and (\r. rep (abs r) = r) = (\r. p r).
#[tactic(auto, using(std::proofs::lemmas::Option::slice_get_within))]
fn make_closed(kernel: &mut Kernel, t: &Premise, s: &Sides) -> Result<(TermId, TermId), Fail>
    requires named { 5 ≤ length kernel.old.names }
    requires ty { t.now.ty < length kernel.old.types }
    requires test { t.now.test < length kernel.old.types }
    requires new { s.now.new < length kernel.old.types }
    requires a { s.now.a < length kernel.old.terms }
    requires there { s.now.there < length kernel.old.terms }
    requires is_back { s.now.is_back < length kernel.old.terms }
    requires p_r { s.now.p_r < length kernel.old.terms }
    ensures first { IfOk result (λ both. both.0 < length kernel.new.terms) }
    ensures second { IfOk result (λ both. both.1 < length kernel.new.terms) }
    ensures names { length kernel.old.names ≤ length kernel.new.names }
    ensures types { length kernel.old.types ≤ length kernel.new.types }
    ensures terms { length kernel.old.terms ≤ length kernel.new.terms }
{
    let unary = kernel.type_op(NameId::ARROW, &[s.new, s.new])?;
    let round = kernel.abs(key(NameId::A, s.new), s.there)?;
    let identity = kernel.abs(key(NameId::A, s.new), s.a)?;
    let first = equated(kernel, unary, round, identity)?;
    let returns = kernel.abs(key(NameId::R, t.ty), s.is_back)?;
    let holds = kernel.abs(key(NameId::R, t.ty), s.p_r)?;
    let second = equated(kernel, t.test, returns, holds)?;
    Ok((first, second))
}

/// abs (rep a) = a, and p r = (rep (abs r) = r).
#[tactic(auto, using(std::proofs::lemmas::Option::slice_get_within))]
fn make_open(kernel: &mut Kernel, t: &Premise, s: &Sides) -> Result<(TermId, TermId), Fail>
    requires named { 5 ≤ length kernel.old.names }
    requires truth { t.now.truth < length kernel.old.types }
    requires new { s.now.new < length kernel.old.types }
    requires a { s.now.a < length kernel.old.terms }
    requires there { s.now.there < length kernel.old.terms }
    requires is_back { s.now.is_back < length kernel.old.terms }
    requires p_r { s.now.p_r < length kernel.old.terms }
    ensures first { IfOk result (λ both. both.0 < length kernel.new.terms) }
    ensures second { IfOk result (λ both. both.1 < length kernel.new.terms) }
    ensures names { length kernel.old.names ≤ length kernel.new.names }
    ensures terms { length kernel.old.terms ≤ length kernel.new.terms }
{
    let first = equated(kernel, s.new, s.there, s.a)?;
    let second = equated(kernel, t.truth, s.p_r, s.is_back)?;
    Ok((first, second))
}

/// The refusal of a type operator by `define_type`, or by `define_type_5`.
#[tactic(auto, using(std::proofs::lemmas::Option::slice_get_within))]
fn refusal(
    kernel: &mut Kernel,
    open: bool,
    operator: NameId,
    rep: NameId,
    vars: &[NameId],
    th: ThmId,
) -> Option<RuleFault>
    requires named { 5 ≤ length kernel.old.names }
    requires operator { operator < length kernel.old.names }
    requires rep { rep < length kernel.old.names }
    requires vars { All (λ n. n < length kernel.old.names) vars.now }
    requires th { th < length kernel.old.theorems }
    ensures names { length kernel.old.names ≤ length kernel.new.names }
    ensures terms { length kernel.old.terms ≤ length kernel.new.terms }
    ensures theorems { length kernel.old.theorems ≤ length kernel.new.theorems }
{
    if open {
        match kernel.define_type_5(operator, NameId::A, rep, vars, th) {
            Ok(_) => None,
            Err(fault) => Some(fault),
        }
    } else {
        match kernel.define_type(operator, NameId::A, rep, vars, th) {
            Ok(_) => None,
            Err(fault) => Some(fault),
        }
    }
}

fn op(name: NameId) -> Symbol {
    Symbol {
        kind: SymbolKind::TyOp,
        name,
    }
}

/// What is refused for its premise: a hypothesis, no application, a free variable.
#[tactic(auto, using(std::proofs::lemmas::Option::slice_get_within))]
fn check_premises(
    rt: &impl Abort,
    kernel: &mut Kernel,
    open: bool,
    t: &Premise,
) -> Result<(), RuleFault>
    requires named { 5 ≤ length kernel.old.names }
    requires holds { t.now.holds < length kernel.old.terms }
    requires open { t.now.open < length kernel.old.terms }
    requires lone { t.now.lone < length kernel.old.terms }
    ensures names { length kernel.old.names ≤ length kernel.new.names }
    ensures terms { length kernel.old.terms ≤ length kernel.new.terms }
{
    let assumed = kernel.assume(t.holds)?;
    let fault = refusal(kernel, open, NameId::A, NameId::R, &[NameId::A], assumed);
    assert!(rt; fault == Some(RuleFault::Define(DefineFault::HypothesesPresent)));
    let lone = kernel.axiom(&[], t.lone)?;
    let fault = refusal(kernel, open, NameId::A, NameId::R, &[NameId::A], lone);
    assert!(rt; fault == Some(RuleFault::Define(DefineFault::NotApplication)));
    let free = kernel.axiom(&[], t.open)?;
    let fault = refusal(kernel, open, NameId::A, NameId::R, &[NameId::A], free);
    assert!(rt; fault == Some(RuleFault::Define(DefineFault::NotClosed)));
    Ok(())
}

/// What is refused for its type variables, one missing or one twice, or for its symbols: primitive, twice, in use.
#[tactic(auto, using(std::proofs::lemmas::Option::slice_get_within))]
fn check_symbols(rt: &impl Abort, kernel: &mut Kernel, open: bool, th: ThmId)
    requires named { 5 ≤ length kernel.old.names }
    requires th { th < length kernel.old.theorems }
    ensures names { length kernel.old.names ≤ length kernel.new.names }
    ensures terms { length kernel.old.terms ≤ length kernel.new.terms }
    ensures theorems { length kernel.old.theorems ≤ length kernel.new.theorems }
{
    let fault = refusal(kernel, open, NameId::A, NameId::R, &[], th);
    assert!(rt; fault == Some(RuleFault::Define(DefineFault::BadTypeVars)));
    let fault = refusal(
        kernel,
        open,
        NameId::A,
        NameId::R,
        &[NameId::A, NameId::A],
        th,
    );
    assert!(rt; fault == Some(RuleFault::Define(DefineFault::BadTypeVars)));
    let fault = refusal(kernel, open, NameId::ARROW, NameId::R, &[NameId::A], th);
    assert!(rt; fault == Some(RuleFault::Define(DefineFault::Primitive(op(NameId::ARROW)))));
    let fault = refusal(kernel, open, NameId::A, NameId::A, &[NameId::A], th);
    assert!(rt; fault == Some(RuleFault::Define(DefineFault::AlreadyDefined(con(NameId::A)))));
    let fault = refusal(kernel, open, NameId::A, NameId::BOOL, &[NameId::A], th);
    assert!(rt; fault == Some(RuleFault::Define(DefineFault::SymbolInUse(con(NameId::BOOL)))));
}

/// The refusals, then the two theorems, and the operator once more.
#[tactic(auto, using(std::proofs::lemmas::Option::slice_get_within))]
fn check_operators(
    rt: &impl Abort,
    kernel: &mut Kernel,
    t: &Premise,
    closed: &(TermId, TermId),
) -> Result<(), RuleFault>
    requires named { 5 ≤ length kernel.old.names }
    requires holds { t.now.holds < length kernel.old.terms }
    requires open { t.now.open < length kernel.old.terms }
    requires lone { t.now.lone < length kernel.old.terms }
    requires first { closed.now.0 < length kernel.old.terms }
    requires second { closed.now.1 < length kernel.old.terms }
{
    check_premises(rt, kernel, false, t)?;
    let given = kernel.axiom(&[], t.holds)?;
    check_symbols(rt, kernel, false, given);
    let (first, second) = kernel.define_type(NameId::A, NameId::A, NameId::R, &[NameId::A], given)?;
    shows(rt, kernel, first, &[], closed.0);
    shows(rt, kernel, second, &[], closed.1);
    let fault = refusal(kernel, false, NameId::A, NameId::R, &[NameId::A], given);
    assert!(rt; fault == Some(RuleFault::Define(DefineFault::AlreadyDefined(op(NameId::A)))));
    Ok(())
}

/// The refusals, then the four theorems.
#[tactic(auto, using(std::proofs::lemmas::Option::slice_get_within))]
fn check_open_operators(
    rt: &impl Abort,
    kernel: &mut Kernel,
    t: &Premise,
    closed: &(TermId, TermId),
    open: &(TermId, TermId),
) -> Result<(), RuleFault>
    requires named { 5 ≤ length kernel.old.names }
    requires holds { t.now.holds < length kernel.old.terms }
    requires open { t.now.open < length kernel.old.terms }
    requires lone { t.now.lone < length kernel.old.terms }
    requires first { closed.now.0 < length kernel.old.terms }
    requires second { closed.now.1 < length kernel.old.terms }
    requires third { open.now.0 < length kernel.old.terms }
    requires fourth { open.now.1 < length kernel.old.terms }
{
    check_premises(rt, kernel, true, t)?;
    let given = kernel.axiom(&[], t.holds)?;
    check_symbols(rt, kernel, true, given);
    let made = kernel.define_type_5(NameId::A, NameId::A, NameId::R, &[NameId::A], given)?;
    shows(rt, kernel, made.abs_th, &[], closed.0);
    shows(rt, kernel, made.rep_th, &[], closed.1);
    shows(rt, kernel, made.abs_open, &[], open.0);
    shows(rt, kernel, made.rep_open, &[], open.1);
    Ok(())
}

#[test]
fn operators(rt: HostRuntime) -> Result<(), Fail> {
    let mut kernel = fresh_kernel(rt.alloc())?;
    let t = make_premise(&mut kernel)?;
    let s = make_sides(&mut kernel, t.ty, t.p)?;
    let closed = make_closed(&mut kernel, &t, &s)?;
    assert!(rt; check_operators(&rt, &mut kernel, &t, &closed).is_ok());
    Ok(())
}

#[test]
fn open_operators(rt: HostRuntime) -> Result<(), Fail> {
    let mut kernel = fresh_kernel(rt.alloc())?;
    let t = make_premise(&mut kernel)?;
    let s = make_sides(&mut kernel, t.ty, t.p)?;
    let closed = make_closed(&mut kernel, &t, &s)?;
    let open = make_open(&mut kernel, &t, &s)?;
    assert!(rt; check_open_operators(&rt, &mut kernel, &t, &closed, &open).is_ok());
    Ok(())
}
