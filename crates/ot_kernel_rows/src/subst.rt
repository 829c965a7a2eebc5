//! Substitution and beta.
ghost use Rattle.std.specs.Prelude.{◌≡◌, ◌<◌, length, IfOk};
ghost use Rattle.ot_subst.specs.Substitution.{IsSubstOf};
ghost use Rattle.ot_subst.specs.Walk.{NamesBelow};

use crate::building::key;
use crate::fresh::fresh_terms;
use ot_logic::{Memory, NameId, Names};
use ot_subst::{Results, Subst, SubstFault, apply, beta};
use ot_term::{Steps, TermId, TermNode, Terms};
use ot_type::{TableFault, TypeId, TypeSubst};
use std::alloc::Global;
use std::process::Abort;
use std::test::Fail;

/// A ledger of the tests' own.
#[derive(Clone, Copy)]
struct Ledger;

/// The variables x and y, of one type, and `\y. x`.
#[derive(Clone, Copy)]
struct Parts {
    ty: TypeId,
    x: TermId,
    y: TermId,
    over_y: TermId,
}

#[tactic(auto, using(std::proofs::lemmas::Option::slice_get_within))]
fn make_parts(terms: &mut Terms) -> Result<Parts, TableFault>
    requires { NamesBelow 5 terms.old }
    ensures ty { IfOk result (λ p. p.ty < length terms.new.types) }
    ensures x { IfOk result (λ p. p.x < length terms.new.terms) }
    ensures y { IfOk result (λ p. p.y < length terms.new.terms) }
    ensures over_y { IfOk result (λ p. p.over_y < length terms.new.terms) }
    ensures names { NamesBelow 5 terms.new }
{
    let ty = terms.type_var(NameId::A)?;
    let x = terms.var(key(NameId::A, ty))?;
    let y = terms.var(key(NameId::R, ty))?;
    let over_y = terms.abs(key(NameId::R, ty), x)?;
    Ok(Parts { ty, x, y, over_y })
}

/// Whether the term is an abstraction with this type and this body from a variable of another name
/// than `y`.
fn is_over_another(terms: &Terms, id: TermId, ty: TypeId, body: TermId) -> bool
    requires { id < length terms.now.terms }
{
    match *terms.node(id) {
        TermNode::Abs(v, inside) => v.name != NameId::R && v.ty == ty && inside == body,
        _ => false,
    }
}

/// y put in for x: `\y. x` takes another binder.
#[tactic(auto, using(std::proofs::lemmas::Option::slice_get_within))]
fn check_name(
    rt: &impl Abort,
    alloc: Global,
    terms: &mut Terms,
    names: &mut Names,
    results: &mut Results,
) -> Result<(), Fail>
    requires terms { NamesBelow 5 terms.old }
    requires names { length names.old ≡ 5 }
{
    let p = make_parts(terms)?;
    let mut s = Subst::new(alloc, TypeSubst::new(alloc));
    assert!(rt; terms.type_of(p.y) == p.ty);
    s.add(terms, key(NameId::A, p.ty), p.y)?;
    let id = apply(
        alloc,
        terms,
        names,
        results,
        &s,
        p.over_y,
        &mut Steps::new(Ledger),
    )?;
    assert!(rt; is_over_another(terms, id, p.ty, p.y));
    Ok(())
}

/// `(\x. \y. x) y`, and a variable.
#[tactic(auto, using(std::proofs::lemmas::Option::slice_get_within))]
fn check_beta(
    rt: &impl Abort,
    alloc: Global,
    terms: &mut Terms,
    names: &mut Names,
    results: &mut Results,
) -> Result<(), Fail>
    requires terms { NamesBelow 5 terms.old }
    requires names { length names.old ≡ 5 }
{
    let p = make_parts(terms)?;
    let f = terms.abs(key(NameId::A, p.ty), p.over_y)?;
    let t = terms.app(f, p.y)?;
    let mut steps = Steps::new(Ledger);
    let id = beta(alloc, terms, names, results, t, &mut steps)?;
    assert!(rt; is_over_another(terms, id, p.ty, p.y));
    assert!(rt; steps.count() == 4);
    let refused = beta(alloc, terms, names, results, p.y, &mut steps);
    assert!(rt; refused == Err(SubstFault::NotRedex));
    Ok(())
}

/// The substitution of one type.
fn for_type(alloc: Global, terms: &Terms, name: NameId, ty: TypeId) -> Result<Subst, Memory>
    requires { ty < length terms.now.types }
    ensures { IfOk result (IsSubstOf terms.now) }
{
    // The table is asked for by the contract alone.
    let _ = terms;
    let mut types = TypeSubst::new(alloc);
    types.add(name, ty)?;
    Ok(Subst::new(alloc, types))
}

/// `bool` put in for the type of the body in `\x. x`, a body that has another x than the binder: the
/// body's x stays free.
#[tactic(auto, using(std::proofs::lemmas::Option::slice_get_within))]
fn check_type(
    rt: &impl Abort,
    alloc: Global,
    terms: &mut Terms,
    names: &mut Names,
    results: &mut Results,
) -> Result<(), Fail>
    requires terms { NamesBelow 5 terms.old }
    requires names { length names.old ≡ 5 }
{
    let ty = terms.type_var(NameId::A)?;
    let truth = terms.type_bool()?;
    let x = terms.var(key(NameId::R, ty))?;
    let free = terms.var(key(NameId::R, truth))?;
    let t = terms.abs(key(NameId::R, truth), x)?;
    let s = for_type(alloc, terms, NameId::A, truth)?;
    let id = apply(alloc, terms, names, results, &s, t, &mut Steps::new(Ledger))?;
    assert!(rt; is_over_another(terms, id, truth, free));
    Ok(())
}

/// Each check has tables of its own. They are made here, so that no refusal in a check has to drop
/// them.
fn named(rt: &impl Abort, alloc: Global) -> Result<(), Fail> {
    let mut names = Names::new(alloc)?;
    let mut terms = fresh_terms(alloc)?;
    let mut results = Results::new(alloc);
    check_name(rt, alloc, &mut terms, &mut names, &mut results)
}

fn contracted(rt: &impl Abort, alloc: Global) -> Result<(), Fail> {
    let mut names = Names::new(alloc)?;
    let mut terms = fresh_terms(alloc)?;
    let mut results = Results::new(alloc);
    check_beta(rt, alloc, &mut terms, &mut names, &mut results)
}

fn typed(rt: &impl Abort, alloc: Global) -> Result<(), Fail> {
    let mut names = Names::new(alloc)?;
    let mut terms = fresh_terms(alloc)?;
    let mut results = Results::new(alloc);
    check_type(rt, alloc, &mut terms, &mut names, &mut results)
}

#[test]
fn terms_put_in(rt: HostRuntime) -> Result<(), Fail> {
    let alloc = rt.alloc();
    named(&rt, alloc)?;
    contracted(&rt, alloc)?;
    typed(&rt, alloc)?;
    Ok(())
}
