//! The theorems of definitions, over the tables of names and terms.
ghost use Rattle.std.specs.Prelude.{◌≡◌, ℕ, ◌<◌, ◌∷◌, [], map, length, IfOk, IfErr};
ghost use Rattle.std.specs.List.{All};
ghost use Rattle.ot_logic.specs.Lists.{AreDistinct};
ghost use Rattle.ot_logic.specs.Trees.{TyOp, TyVar, Free, Con, App};
ghost use Rattle.ot_logic.specs.Hol.{fun_ty, bool_ty, HasType, type_in, type_of, equation, sequent_of};
ghost use Rattle.ot_logic.specs.Hol.{IsClosed, tys_of_vars, type_theorems, subst_tm, constants_for};
ghost use Rattle.ot_logic.specs.Naming.{numbers, IsNameTable};
ghost use Rattle.ot_logic.specs.Rules.{within_limit};
ghost use Rattle.ot_type.specs.TypeTable.{type_at, types_at};
ghost use Rattle.ot_term.specs.TermTable.{variable_of, IsGrownTo};
ghost use Rattle.ot_subst.specs.Substitution.{variable_part, IsSubstOf};
ghost use Rattle.ot_subst.specs.Walk.{NamesBelow, IsLater};
ghost use Rattle.ot_kernel.specs.declared.fault.RuleFault.TheVariants.{Memory as OutOfMemory};
ghost use Rattle.ot_kernel.specs.Numbered.{tm_at, numbered_sequent, Derives, IsGrownBy};
ghost use Rattle.ot_kernel.specs.Equating.{limited, IsMadeTerm};
ghost use Rattle.ot_kernel.specs.Spelled.{IsInside};
ghost use Rattle.ot_kernel.specs.Defining.{zipped};
ghost use Rattle.ot_kernel.specs.Opening.{beta_over};
ghost use Rattle.ot_kernel.specs.Proved.{bound_of_names, IsNumberOf, equal_functions};
ghost use Rattle.ot_kernel.specs.Proved.{trip, TurnsBack, MakesTrip, DerivesBoth};
ghost use Rattle.ot_logic.specs.RanOut.{ran_out};

use crate::equations::{abstract_from, apply, equate};
use crate::fault::RuleFault;
use crate::instances::Ledger;
use crate::theorem::{Hypotheses, Theorem};
use ot_logic::{Memory, NameId, Names};
use ot_subst::{Results, Subst};
use ot_term::{Steps, TermId, Terms, VarKey};
use ot_type::{TypeId, TypeSubst};
use std::alloc::Global;

/// The theorem of a constant: it equals its term.
pub(crate) fn const_theorem(
    terms: &mut Terms,
    name: NameId,
    t: TermId,
) -> Result<Theorem, RuleFault>
    requires inside { t < length terms.old.terms }
    ensures derives { Derives result (within_limit numbers
        (sequent_of numbers (equation numbers (type_of numbers (tm_at terms.old.terms t))
        (Con name (type_of numbers (tm_at terms.old.terms t))) (tm_at terms.old.terms t)))) terms.new.terms }
    ensures grown { IsGrownBy name terms.old terms.new }
{
    let ty = terms.type_of(t);
    let constant = terms.constant(name, ty)?;
    let concl = equate(terms, constant, t)?;
    Ok(Theorem {
        hyps: Hypotheses::none(),
        concl,
    })
}

/// The theorems of a type over type variables, which is taken from the elements of another type that fulfil a predicate.
pub(crate) fn type_theorems(
    alloc: Global,
    terms: &mut Terms,
    op: NameId,
    abs: NameId,
    rep: NameId,
    vars: &[NameId],
    p: TermId,
    u: TypeId,
) -> Result<(Theorem, Theorem), RuleFault>
    requires p { p < length terms.old.terms }
    requires u { u < length terms.old.types }
    requires typed { HasType numbers (tm_at terms.old.terms p) (fun_ty numbers (type_at terms.old.types u) (bool_ty numbers)) }
    requires closed { IsClosed numbers (tm_at terms.old.terms p) }
    ensures derives { DerivesBoth result (type_theorems numbers (TyOp op (tys_of_vars numbers vars.now))
        (type_at terms.old.types u) abs rep (tm_at terms.old.terms p)) terms.new.terms }
    ensures grown { IsGrownTo (bound_of_names (4 ∷ op ∷ abs ∷ rep ∷ vars.now)) terms.old terms.new }
{
    let ty = new_type(alloc, terms, op, vars)?;
    let abs = constant_between(terms, abs, u, ty)?;
    let rep = constant_between(terms, rep, ty, u)?;
    let first = abs_theorem(
        terms,
        &VarKey {
            name: NameId::A,
            ty,
        },
        abs,
        rep,
    )?;
    let second = rep_theorem(
        terms,
        &VarKey {
            name: NameId::R,
            ty: u,
        },
        abs,
        rep,
        p,
    )?;
    Ok((first, second))
}

/// The type of an operator over type variables, which is never nested too deep.
pub(crate) fn new_type(
    alloc: Global,
    terms: &mut Terms,
    op: NameId,
    vars: &[NameId],
) -> Result<TypeId, RuleFault>
    ensures ok { IfOk result (IsNumberOf terms.new.types (TyOp op (tys_of_vars numbers vars.now))) }
    ensures err { IfErr result (λ e. e ≡ OutOfMemory ran_out) }
    ensures grown { IsGrownTo (bound_of_names (op ∷ vars.now)) terms.old terms.new }
{
    let args = type_variables(alloc, terms, vars)?;
    Ok(terms.type_op(op, &args)?)
}

/// The type variables of these names.
fn type_variables(alloc: Global, terms: &mut Terms, vars: &[NameId]) -> Result<Vec<TypeId>, Memory>
    ensures types { IfOk result (λ v. types_at terms.new.types v.items ≡ tys_of_vars numbers vars.now) }
    ensures within { IfOk result (λ v. All (λ i. i < length terms.new.types) v.items) }
    ensures grown { IsGrownTo (bound_of_names vars.now) terms.old terms.new }
{
    // Each term of the table is typed and within the limit.
    let _types = terms.types();
    let mut types = Vec::new(alloc);
    for name in vars {
        types.push(terms.type_var(*name)?)?;
    }
    Ok(types)
}

/// The constant of this name from one type to another.
pub(crate) fn constant_between(
    terms: &mut Terms,
    name: NameId,
    from: TypeId,
    to: TypeId,
) -> Result<TermId, RuleFault>
    requires from { from < length terms.old.types }
    requires to { to < length terms.old.types }
    ensures makes { IsMadeTerm result (limited numbers
        (Con name (fun_ty numbers (type_at terms.old.types from) (type_at terms.old.types to)))) terms.new.terms }
    ensures grown { IsGrownTo (bound_of_names (0 ∷ name ∷ [])) terms.old terms.new }
{
    let ty = terms.type_fun(from, to)?;
    Ok(terms.constant(name, ty)?)
}

/// |- (\v. abs (rep v)) = (\v. v).
fn abs_theorem(
    terms: &mut Terms,
    v: &VarKey,
    abs: TermId,
    rep: TermId,
) -> Result<Theorem, RuleFault>
    requires ty { v.now.ty < length terms.old.types }
    requires abs { abs < length terms.old.terms }
    requires rep { rep < length terms.old.terms }
    requires typed { TurnsBack (type_at terms.old.types v.now.ty) (tm_at terms.old.terms rep) (tm_at terms.old.terms abs) }
    ensures derives { Derives result (within_limit numbers
        (equal_functions (variable_of terms.old.types v.now) (type_at terms.old.types v.now.ty)
        (trip (tm_at terms.old.terms rep) (tm_at terms.old.terms abs) (variable_of terms.old.types v.now))
        (Free (variable_of terms.old.types v.now)))) terms.new.terms }
    ensures grown { IsGrownBy v.now.name terms.old terms.new }
{
    let (x, image) = round_trip(terms, v, rep, abs)?;
    equal_functions(terms, v, image, x)
}

/// |- (\v. rep (abs v) = v) = (\v. p v).
fn rep_theorem(
    terms: &mut Terms,
    v: &VarKey,
    abs: TermId,
    rep: TermId,
    p: TermId,
) -> Result<Theorem, RuleFault>
    requires ty { v.now.ty < length terms.old.types }
    requires abs { abs < length terms.old.terms }
    requires rep { rep < length terms.old.terms }
    requires p { p < length terms.old.terms }
    requires typed { TurnsBack (type_at terms.old.types v.now.ty) (tm_at terms.old.terms abs) (tm_at terms.old.terms rep) }
    requires predicate { HasType numbers (tm_at terms.old.terms p)
        (fun_ty numbers (type_at terms.old.types v.now.ty) (bool_ty numbers)) }
    ensures derives { Derives result (within_limit numbers (equal_functions (variable_of terms.old.types v.now) (bool_ty numbers)
        (equation numbers (type_at terms.old.types v.now.ty)
        (trip (tm_at terms.old.terms abs) (tm_at terms.old.terms rep) (variable_of terms.old.types v.now))
        (Free (variable_of terms.old.types v.now)))
        (App (tm_at terms.old.terms p) (Free (variable_of terms.old.types v.now))))) terms.new.terms }
    ensures grown { IsGrownBy v.now.name terms.old terms.new }
{
    let (x, image) = round_trip(terms, v, abs, rep)?;
    let same = equate(terms, image, x)?;
    let holds = apply(terms, p, x)?;
    equal_functions(terms, v, same, holds)
}

/// A variable, and g (f v).
pub(crate) fn round_trip(
    terms: &mut Terms,
    v: &VarKey,
    f: TermId,
    g: TermId,
) -> Result<(TermId, TermId), RuleFault>
    requires ty { v.now.ty < length terms.old.types }
    requires f { f < length terms.old.terms }
    requires g { g < length terms.old.terms }
    requires typed { TurnsBack (type_at terms.old.types v.now.ty) (tm_at terms.old.terms f) (tm_at terms.old.terms g) }
    ensures makes { MakesTrip result (tm_at terms.old.terms f) (tm_at terms.old.terms g)
        (variable_of terms.old.types v.now) terms.new.terms }
    ensures grown { IsGrownBy v.now.name terms.old terms.new }
{
    let x = terms.var(*v)?;
    let there = terms.app(f, x)?;
    let back = terms.app(g, there)?;
    Ok((x, back))
}

/// |- (\v. a) = (\v. b), where a and b are of one type.
fn equal_functions(
    terms: &mut Terms,
    v: &VarKey,
    a: TermId,
    b: TermId,
) -> Result<Theorem, RuleFault>
    requires ty { v.now.ty < length terms.old.types }
    requires a { a < length terms.old.terms }
    requires b { b < length terms.old.terms }
    requires typed { type_in numbers [] (tm_at terms.old.terms a) ≡ type_in numbers [] (tm_at terms.old.terms b) }
    ensures derives { Derives result (within_limit numbers
        (equal_functions (variable_of terms.old.types v.now) (type_of numbers (tm_at terms.old.terms a))
        (tm_at terms.old.terms a) (tm_at terms.old.terms b))) terms.new.terms }
    ensures grown { IsGrownBy v.now.name terms.old terms.new }
{
    // Each term of the table is typed and within the limit.
    let _types = terms.types();
    let left = abstract_from(terms, v, a)?;
    let right = abstract_from(terms, v, b)?;
    let concl = equate(terms, left, right)?;
    Ok(Theorem {
        hyps: Hypotheses::none(),
        concl,
    })
}

/// The theorem of a list of constants: the premise's conclusion with each constant in the place of its variable.
pub(crate) fn list_theorem(
    alloc: Global,
    terms: &mut Terms,
    names: &mut Names,
    cs: &[NameId],
    vars: &[VarKey],
    th: &Theorem,
) -> Result<Theorem, RuleFault>
    requires many { length cs.now ≡ length vars.now }
    requires vars { All (λ v. v.ty < length terms.old.types) vars.now }
    requires cs { All (λ n. n < length names.old) cs.now }
    requires distinct { AreDistinct (map (variable_of terms.old.types) vars.now) }
    requires inside { IsInside (length terms.old.terms) th.now }
    requires below { NamesBelow (length names.old) terms.old }
    ensures ok { IfOk result (λ new. IsInside (length terms.new.terms) new × (numbered_sequent terms.new.terms new
        ≡ sequent_of numbers
        (subst_tm numbers []
        (constants_for numbers (zipped numbers cs.now (map (variable_of terms.old.types) vars.now)))
        (tm_at terms.old.terms th.now.concl)))) }
    ensures err { IfErr result (λ e. e ≡ OutOfMemory ran_out) }
    ensures later { IsLater names.old names.new terms.old terms.new }
    ensures name_table { IsNameTable names.new }
{
    // What holds of each table of names.
    let _count = names.count();
    let mut steps = Steps::new(Ledger);
    let s = constants(alloc, terms, cs, vars)?;
    let mut results = Results::hashed(alloc);
    let concl = ot_subst::apply(alloc, terms, names, &mut results, &s, th.concl, &mut steps)?;
    Ok(Theorem {
        hyps: Hypotheses::none(),
        concl,
    })
}

/// A constant for each of these variables, as a substitution.
fn constants(
    alloc: Global,
    terms: &mut Terms,
    cs: &[NameId],
    vars: &[VarKey],
) -> Result<Subst, Memory>
    requires many { length cs.now ≡ length vars.now }
    requires vars { All (λ v. v.ty < length terms.old.types) vars.now }
    requires distinct { AreDistinct (map (variable_of terms.old.types) vars.now) }
    ensures types { IfOk result (λ s. s.types ≡ []) }
    ensures terms { IfOk result (λ s. variable_part terms.new s
        ≡ constants_for numbers (zipped numbers cs.now (map (variable_of terms.old.types) vars.now))) }
    ensures fits { IfOk result (λ s. IsSubstOf terms.new s) }
    ensures grown { IsGrownTo (bound_of_names cs.now) terms.old terms.new }
{
    // Each term of the table is typed and within the limit.
    let _types = terms.types();
    let mut s = Subst::new(alloc, TypeSubst::new(alloc));
    for (name, v) in cs.iter().zip(vars) {
        let constant = terms.constant(*name, v.ty)?;
        s.add(terms, *v, constant)?;
    }
    Ok(s)
}

/// |- (\v. p v) v = p v.
pub(crate) fn beta_theorem(terms: &mut Terms, v: &VarKey, p: TermId) -> Result<Theorem, RuleFault>
    requires ty { v.now.ty < length terms.old.types }
    requires p { p < length terms.old.terms }
    requires predicate { HasType numbers (tm_at terms.old.terms p)
        (fun_ty numbers (type_at terms.old.types v.now.ty) (bool_ty numbers)) }
    requires closed { IsClosed numbers (tm_at terms.old.terms p) }
    ensures derives { Derives result (within_limit numbers
        (sequent_of numbers (beta_over numbers (variable_of terms.old.types v.now) (tm_at terms.old.terms p))))
        terms.new.terms }
    ensures grown { IsGrownBy v.now.name terms.old terms.new }
{
    let x = terms.var(*v)?;
    let holds = apply(terms, p, x)?;
    let function = abstract_from(terms, v, holds)?;
    let redex = apply(terms, function, x)?;
    let concl = equate(terms, redex, holds)?;
    Ok(Theorem {
        hyps: Hypotheses::none(),
        concl,
    })
}
