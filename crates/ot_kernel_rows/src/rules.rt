//! The rules and the definitions of the kernel by `hyps`, `concl` and `same`: each theorem is worked by hand.
ghost use Rattle.std.specs.Prelude.{◌≡◌, ◌<◌, ◌≤◌, length, IfOk};
ghost use Rattle.std.specs.List.{All};

use crate::building::key;
use crate::fresh::fresh_kernel;
use ot_define::DefineFault;
use ot_kernel::{Kernel, RuleFault, ThmId};
use ot_logic::NameId;
use ot_subst::Subst;
use ot_term::{Symbol, SymbolKind, TermId};
use ot_type::{TypeId, TypeSubst};
use std::alloc::Global;
use std::process::Abort;
use std::test::Fail;

/// a = b, of two terms of this type.
#[tactic(auto, using(std::proofs::lemmas::Option::slice_get_within))]
pub(crate) fn equated(kernel: &mut Kernel, ty: TypeId, a: TermId, b: TermId) -> Result<TermId, Fail>
    requires named { 5 ≤ length kernel.old.names }
    requires ty { ty < length kernel.old.types }
    requires a { a < length kernel.old.terms }
    requires b { b < length kernel.old.terms }
    ensures id { IfOk result (λ id. id < length kernel.new.terms) }
    ensures names { length kernel.old.names ≤ length kernel.new.names }
    ensures types { length kernel.old.types ≤ length kernel.new.types }
    ensures terms { length kernel.old.terms ≤ length kernel.new.terms }
{
    let truth = kernel.type_op(NameId::BOOL, &[])?;
    let test = kernel.type_op(NameId::ARROW, &[ty, truth])?;
    let relation = kernel.type_op(NameId::ARROW, &[ty, test])?;
    let equals = kernel.constant(NameId::EQUALS, relation)?;
    let part = kernel.app(equals, a)?;
    Ok(kernel.app(part, b)?)
}

/// A theorem has these hypotheses and this conclusion.
pub(crate) fn shows(rt: &impl Abort, kernel: &Kernel, th: ThmId, hyps: &[TermId], concl: TermId)
    requires th { th < length kernel.now.theorems }
    requires hyps { All (λ i. i < length kernel.now.terms) hyps.now }
    requires concl { concl < length kernel.now.terms }
{
    assert!(rt; kernel.same(th, hyps, concl));
    assert!(rt; kernel.hyps(th) == hyps);
    assert!(rt; kernel.concl(th) == concl);
}

/// Whether each rule was applied.
fn is_done(done: Result<(), RuleFault>) -> bool {
    done.is_ok()
}

fn refusal(made: Result<ThmId, RuleFault>) -> Option<RuleFault> {
    match made {
        Ok(_) => None,
        Err(fault) => Some(fault),
    }
}

/// Propositions p, q and s, and equations between them.
#[derive(Clone, Copy)]
struct Props {
    truth: TypeId,
    p: TermId,
    q: TermId,
    p_is_p: TermId,
    p_is_q: TermId,
    q_is_p: TermId,
    q_is_s: TermId,
    p_is_s: TermId,
}

#[tactic(auto, using(std::proofs::lemmas::Option::slice_get_within))]
fn make_props(kernel: &mut Kernel) -> Result<Props, Fail>
    requires { 5 ≤ length kernel.old.names }
    ensures truth { IfOk result (λ t. t.truth < length kernel.new.types) }
    ensures p { IfOk result (λ t. t.p < length kernel.new.terms) }
    ensures q { IfOk result (λ t. t.q < length kernel.new.terms) }
    ensures p_is_p { IfOk result (λ t. t.p_is_p < length kernel.new.terms) }
    ensures p_is_q { IfOk result (λ t. t.p_is_q < length kernel.new.terms) }
    ensures q_is_p { IfOk result (λ t. t.q_is_p < length kernel.new.terms) }
    ensures q_is_s { IfOk result (λ t. t.q_is_s < length kernel.new.terms) }
    ensures p_is_s { IfOk result (λ t. t.p_is_s < length kernel.new.terms) }
    ensures names { length kernel.old.names ≤ length kernel.new.names }
{
    let truth = kernel.type_op(NameId::BOOL, &[])?;
    let p = kernel.var(key(NameId::A, truth))?;
    let q = kernel.var(key(NameId::R, truth))?;
    let s = kernel.var(key(NameId::BOOL, truth))?;
    let p_is_p = equated(kernel, truth, p, p)?;
    let p_is_q = equated(kernel, truth, p, q)?;
    let q_is_p = equated(kernel, truth, q, p)?;
    let q_is_s = equated(kernel, truth, q, s)?;
    let p_is_s = equated(kernel, truth, p, s)?;
    Ok(Props {
        truth,
        p,
        q,
        p_is_p,
        p_is_q,
        q_is_p,
        q_is_s,
        p_is_s,
    })
}

/// `refl`, `assume`, `eq_mp`, `sym` and `trans`.
fn check_equations(rt: &impl Abort, kernel: &mut Kernel, t: &Props) -> Result<(), RuleFault>
    requires p { t.now.p < length kernel.old.terms }
    requires q { t.now.q < length kernel.old.terms }
    requires p_is_p { t.now.p_is_p < length kernel.old.terms }
    requires p_is_q { t.now.p_is_q < length kernel.old.terms }
    requires q_is_p { t.now.q_is_p < length kernel.old.terms }
    requires q_is_s { t.now.q_is_s < length kernel.old.terms }
    requires p_is_s { t.now.p_is_s < length kernel.old.terms }
{
    let same = kernel.refl(t.p)?;
    shows(rt, kernel, same, &[], t.p_is_p);
    let given = kernel.assume(t.p_is_q)?;
    shows(rt, kernel, given, &[t.p_is_q], t.p_is_q);
    let premise = kernel.assume(t.p)?;
    let used = kernel.eq_mp(given, premise)?;
    shows(rt, kernel, used, &[t.p_is_q, t.p], t.q);
    let turned = kernel.sym(given)?;
    shows(rt, kernel, turned, &[t.p_is_q], t.q_is_p);
    let next = kernel.assume(t.q_is_s)?;
    let joined = kernel.trans(given, next)?;
    shows(rt, kernel, joined, &[t.p_is_q, t.q_is_s], t.p_is_s);
    let apart = kernel.trans(given, given);
    assert!(rt; refusal(apart) == Some(RuleFault::NotAlphaEqual));
    Ok(())
}

/// `deduct_antisym`, `axiom` and `prove_hyp`.
fn check_hypotheses(rt: &impl Abort, kernel: &mut Kernel, t: &Props) -> Result<(), RuleFault>
    requires p { t.now.p < length kernel.old.terms }
    requires q { t.now.q < length kernel.old.terms }
    requires p_is_p { t.now.p_is_p < length kernel.old.terms }
    requires p_is_q { t.now.p_is_q < length kernel.old.terms }
{
    let lower = kernel.assume(t.p)?;
    let top = kernel.assume(t.q)?;
    let both = kernel.deduct_antisym(lower, top)?;
    shows(rt, kernel, both, &[t.p, t.q], t.p_is_q);
    let none = kernel.deduct_antisym(lower, lower)?;
    shows(rt, kernel, none, &[], t.p_is_p);
    let taken = kernel.axiom(&[t.q], t.p)?;
    shows(rt, kernel, taken, &[t.q], t.p);
    let proved = kernel.prove_hyp(taken, lower)?;
    shows(rt, kernel, proved, &[t.q], t.p);
    assert!(rt; kernel.assumptions().len() == 1);
    Ok(())
}

#[test]
fn equations(rt: HostRuntime) -> Result<(), Fail> {
    let mut kernel = fresh_kernel(rt.alloc())?;
    let t = make_props(&mut kernel)?;
    assert!(rt; is_done(check_equations(&rt, &mut kernel, &t)));
    Ok(())
}

#[test]
fn hypotheses(rt: HostRuntime) -> Result<(), Fail> {
    let mut kernel = fresh_kernel(rt.alloc())?;
    let t = make_props(&mut kernel)?;
    assert!(rt; is_done(check_hypotheses(&rt, &mut kernel, &t)));
    Ok(())
}

/// A function f on propositions, and what is made of it: f p = f q, \p. q = \p. q, (\p. p) q and its equation.
#[derive(Clone, Copy)]
struct Made {
    f: TermId,
    f_is: TermId,
    over_is: TermId,
    redex: TermId,
    redex_is: TermId,
}

#[tactic(auto, using(std::proofs::lemmas::Option::slice_get_within))]
fn make_made(kernel: &mut Kernel, t: &Props) -> Result<Made, Fail>
    requires named { 5 ≤ length kernel.old.names }
    requires truth { t.now.truth < length kernel.old.types }
    requires p { t.now.p < length kernel.old.terms }
    requires q { t.now.q < length kernel.old.terms }
    ensures f { IfOk result (λ m. m.f < length kernel.new.terms) }
    ensures f_is { IfOk result (λ m. m.f_is < length kernel.new.terms) }
    ensures over_is { IfOk result (λ m. m.over_is < length kernel.new.terms) }
    ensures redex { IfOk result (λ m. m.redex < length kernel.new.terms) }
    ensures redex_is { IfOk result (λ m. m.redex_is < length kernel.new.terms) }
    ensures names { length kernel.old.names ≤ length kernel.new.names }
    ensures types { length kernel.old.types ≤ length kernel.new.types }
    ensures terms { length kernel.old.terms ≤ length kernel.new.terms }
{
    let unary = kernel.type_op(NameId::ARROW, &[t.truth, t.truth])?;
    let f = kernel.var(key(NameId::A, unary))?;
    let left = kernel.app(f, t.p)?;
    let right = kernel.app(f, t.q)?;
    let f_is = equated(kernel, t.truth, left, right)?;
    let over = kernel.abs(key(NameId::A, t.truth), t.q)?;
    let over_is = equated(kernel, unary, over, over)?;
    let identity = kernel.abs(key(NameId::A, t.truth), t.p)?;
    let redex = kernel.app(identity, t.q)?;
    let redex_is = equated(kernel, t.truth, redex, t.q)?;
    Ok(Made {
        f,
        f_is,
        over_is,
        redex,
        redex_is,
    })
}

/// `app_thm`, `abs_thm` and `beta_conv`.
fn check_functions(
    rt: &impl Abort,
    kernel: &mut Kernel,
    t: &Props,
    m: &Made,
) -> Result<(), RuleFault>
    requires named { 5 ≤ length kernel.old.names }
    requires truth { t.now.truth < length kernel.old.types }
    requires q { t.now.q < length kernel.old.terms }
    requires p_is_q { t.now.p_is_q < length kernel.old.terms }
    requires f { m.now.f < length kernel.old.terms }
    requires f_is { m.now.f_is < length kernel.old.terms }
    requires over_is { m.now.over_is < length kernel.old.terms }
    requires redex { m.now.redex < length kernel.old.terms }
    requires redex_is { m.now.redex_is < length kernel.old.terms }
{
    let same = kernel.refl(m.f)?;
    let given = kernel.assume(t.p_is_q)?;
    let applied = kernel.app_thm(same, given)?;
    shows(rt, kernel, applied, &[t.p_is_q], m.f_is);
    let other = kernel.refl(t.q)?;
    let over = kernel.abs_thm(key(NameId::A, t.truth), other)?;
    shows(rt, kernel, over, &[], m.over_is);
    let free = kernel.abs_thm(key(NameId::A, t.truth), given);
    assert!(rt; refusal(free) == Some(RuleFault::VarFreeInHyps));
    let reduced = kernel.beta_conv(m.redex)?;
    shows(rt, kernel, reduced, &[], m.redex_is);
    let other = kernel.beta_conv(m.f);
    assert!(rt; refusal(other) == Some(RuleFault::NotRedex));
    Ok(())
}

#[test]
fn functions(rt: HostRuntime) -> Result<(), Fail> {
    let mut kernel = fresh_kernel(rt.alloc())?;
    let t = make_props(&mut kernel)?;
    let m = make_made(&mut kernel, &t)?;
    assert!(rt; is_done(check_functions(&rt, &mut kernel, &t, &m)));
    Ok(())
}

#[test]
fn instances(rt: HostRuntime) -> Result<(), Fail> {
    let mut kernel = fresh_kernel(rt.alloc())?;
    let t = make_props(&mut kernel)?;
    check_instance(&rt, rt.alloc(), &mut kernel, &t)
}

#[test]
fn definitions(rt: HostRuntime) -> Result<(), Fail> {
    let mut kernel = fresh_kernel(rt.alloc())?;
    check_definitions(&rt, &mut kernel)
}

/// `subst`: x = x of a type variable, with bool for that.
#[tactic(auto, using(std::proofs::lemmas::Option::slice_get_within))]
fn check_instance(
    rt: &impl Abort,
    alloc: Global,
    kernel: &mut Kernel,
    t: &Props,
) -> Result<(), Fail>
    requires named { 5 ≤ length kernel.old.names }
    requires truth { t.now.truth < length kernel.old.types }
    requires p_is_p { t.now.p_is_p < length kernel.old.terms }
{
    let ty = kernel.type_var(NameId::R)?;
    let x = kernel.var(key(NameId::A, ty))?;
    let same = kernel.refl(x)?;
    let mut types = TypeSubst::new(alloc);
    types.add(NameId::R, t.truth)?;
    let instance = kernel.subst(&Subst::new(alloc, types), same)?;
    shows(rt, kernel, instance, &[], t.p_is_p);
    Ok(())
}

/// Constants of type bool under these names: `a` for `bool`, and `r` for the variable `r` that equals `a`.
#[tactic(auto, using(std::proofs::lemmas::Option::slice_get_within))]
fn check_definitions(rt: &impl Abort, kernel: &mut Kernel) -> Result<(), Fail>
    requires { 5 ≤ length kernel.old.names }
{
    let truth = kernel.type_op(NameId::BOOL, &[])?;
    let k = kernel.constant(NameId::BOOL, truth)?;
    let a = kernel.constant(NameId::A, truth)?;
    let r = kernel.constant(NameId::R, truth)?;
    let v = kernel.var(key(NameId::R, truth))?;
    let a_is_k = equated(kernel, truth, a, k)?;
    let v_is_a = equated(kernel, truth, v, a)?;
    let r_is_a = equated(kernel, truth, r, a)?;
    let defined = kernel.define_const(NameId::A, k)?;
    shows(rt, kernel, defined, &[], a_is_k);
    let given = kernel.assume(v_is_a)?;
    let listed = kernel.define_list(&[NameId::R], &[key(NameId::R, truth)], given)?;
    shows(rt, kernel, listed, &[], r_is_a);
    check_refused_definitions(rt, kernel, k, a)
}

pub(crate) fn con(name: NameId) -> Symbol {
    Symbol {
        kind: SymbolKind::Con,
        name,
    }
}

/// Further constants over those definitions: one that is defined, the equality, and one that an earlier definition has.
fn check_refused_definitions(
    rt: &impl Abort,
    kernel: &mut Kernel,
    k: TermId,
    a: TermId,
) -> Result<(), Fail>
    requires names { 5 ≤ length kernel.old.names }
    requires k { k < length kernel.old.terms }
    requires a { a < length kernel.old.terms }
{
    let again = kernel.define_const(NameId::A, k);
    let fault = DefineFault::AlreadyDefined(con(NameId::A));
    assert!(rt; refusal(again) == Some(RuleFault::Define(fault)));
    let fixed = kernel.define_const(NameId::EQUALS, k);
    let fault = DefineFault::Primitive(con(NameId::EQUALS));
    assert!(rt; refusal(fixed) == Some(RuleFault::Define(fault)));
    let used = kernel.define_const(NameId::BOOL, a);
    let fault = DefineFault::SymbolInUse(con(NameId::BOOL));
    assert!(rt; refusal(used) == Some(RuleFault::Define(fault)));
    Ok(())
}
