//! The check of a list of constants.
ghost use Rattle.std.specs.Prelude.{◌≡◌, ℕ, ◌<◌, ◌&&◌, ◌==◌, List, [], ◌∷◌, ◌++◌, map, length};
ghost use Rattle.std.specs.Prelude.{IfOk, IfSome, OnOk};
ghost use Rattle.std.specs.List.{All, list_all};
ghost use Rattle.std.specs.Option.{option_map};
ghost use Rattle.ot_logic.specs.Faults.{BadDefinitionList, NotClosed, TypeVarEscapes};
ghost use Rattle.ot_logic.specs.Trees.{ConSymbol};
ghost use Rattle.ot_logic.specs.Hol.{as_equation, same_var, symbols_of};
ghost use Rattle.ot_logic.specs.Naming.{numbers};
ghost use Rattle.ot_logic.specs.Answers.{unless};
ghost use Rattle.ot_term.specs.TermTable.{variable_of};
ghost use Rattle.ot_laws.specs.Conditions.{are_distinct, checked_list, checked_symbols};
ghost use Rattle.ot_laws.specs.Conditions.{is_closed, keeps_type_vars, terms_given};
ghost use Rattle.ot_define.specs.Answers.{Checks, checked_given, tm_at, sequent_at};
ghost use Rattle.ot_define.specs.Given.{Keeps, as_variable, gives, only_kept};

use crate::fault::DefineFault;
use crate::premise::{check_closed_but, check_type_vars, pass_if};
use crate::sets::are_distinct;
use crate::signature::Signature;
use crate::symbols::constant_symbols;
use indexmap::IndexMap;
use ot_logic::{Memory, NameId};
use ot_term::{TermId, TermNode, Terms, VarKey};
use std::alloc::Global;

impl Signature {
    /// Whether constants of these names may be defined for the variables, which the hypotheses of a theorem give their
    /// terms. There are as many names as variables.
    ///
    /// The first refusal counts: `BadDefinitionList`, `Primitive`, `AlreadyDefined`, `SymbolInUse`, `NotClosed`,
    /// `TypeVarEscapes`. Each goes over all names or pairs before the next.
    pub fn check_list(
        &self,
        alloc: Global,
        terms: &Terms,
        names: &[NameId],
        vars: &[VarKey],
        hyps: &[TermId],
        concl: TermId,
    ) -> Result<(), DefineFault>
        requires pairs { length names.now ≡ length vars.now }
        requires vars { All (λ v. v.ty < length terms.now.types) vars.now }
        requires hyps { All (λ i. i < length terms.now.terms) hyps.now }
        requires concl { concl < length terms.now.terms }
        ensures { Checks result (checked_list numbers self.now.defined self.now.used names.now
            (map (variable_of terms.now.types) vars.now) (sequent_at terms.now.terms hyps.now concl)) }
    {
        check_pairs(alloc, terms, names, vars, hyps)?;
        let Some(given) = terms_given(alloc, terms, vars, hyps)? else {
            return Err(DefineFault::BadDefinitionList);
        };
        self.check_constants(alloc, terms, names, hyps, concl)?;
        check_given(alloc, terms, vars, given.as_slice(), concl)
    }

    /// Whether the symbols of constants may be defined from a premise of these terms.
    fn check_constants(
        &self,
        alloc: Global,
        terms: &Terms,
        names: &[NameId],
        hyps: &[TermId],
        concl: TermId,
    ) -> Result<(), DefineFault>
        requires hyps { All (λ i. i < length terms.now.terms) hyps.now }
        requires concl { concl < length terms.now.terms }
        ensures { Checks result
            (checked_symbols numbers self.now.defined self.now.used
            (symbols_of numbers (sequent_at terms.now.terms hyps.now concl)) (map ConSymbol names.now)) }
    {
        let symbols = constant_symbols(alloc, names)?;
        self.check_symbols(alloc, terms, hyps, concl, symbols.as_slice())
    }
}

/// Refuses pairs and hypotheses by their numbers, and where a name or a variable stands twice.
fn check_pairs(
    alloc: Global,
    terms: &Terms,
    names: &[NameId],
    vars: &[VarKey],
    hyps: &[TermId],
) -> Result<(), DefineFault>
    requires { All (λ v. v.ty < length terms.now.types) vars.now }
    ensures { Checks result
        (unless BadDefinitionList (are_distinct numbers.same names.now && are_distinct (same_var numbers)
        (map (variable_of terms.now.types) vars.now) && (length hyps.now == length vars.now))) }
{
    let paired = are_pairs(alloc, terms, names, vars, hyps)?;
    pass_if(paired, DefineFault::BadDefinitionList)
}

/// Refuses terms of constants, and a conclusion with another free variable than these.
fn check_given(
    alloc: Global,
    terms: &Terms,
    vars: &[VarKey],
    given: &[TermId],
    concl: TermId,
) -> Result<(), DefineFault>
    requires vars { All (λ v. v.ty < length terms.now.types) vars.now }
    requires given { All (λ i. i < length terms.now.terms) given.now }
    requires concl { concl < length terms.now.terms }
    ensures { Checks result (checked_given numbers (map (variable_of terms.now.types) vars.now)
        (map (tm_at terms.now.terms) given.now) (tm_at terms.now.terms concl)) }
{
    check_all_closed(alloc, terms, given)?;
    check_closed_but(alloc, terms, vars, concl)?;
    check_all_type_vars(alloc, terms, given)
}

/// Whether no name and no variable stands twice, and there are as many hypotheses as variables.
fn are_pairs(
    alloc: Global,
    terms: &Terms,
    names: &[NameId],
    vars: &[VarKey],
    hyps: &[TermId],
) -> Result<bool, Memory>
    requires { All (λ v. v.ty < length terms.now.types) vars.now }
    ensures { IfOk result
        (λ b. b ≡ (are_distinct numbers.same names.now && are_distinct (same_var numbers)
        (map (variable_of terms.now.types) vars.now) && (length hyps.now == length vars.now))) }
{
    // Each type has one number.
    let _types = terms.types();
    let names_differ = are_distinct(alloc, names)?;
    let vars_differ = are_distinct(alloc, vars)?;
    let as_many = hyps.len() == vars.len();
    Ok(names_differ & vars_differ & as_many)
}

/// The terms of the variables, in their order, where the hypotheses give each exactly one.
fn terms_given(
    alloc: Global,
    terms: &Terms,
    vars: &[VarKey],
    hyps: &[TermId],
) -> Result<Option<Vec<TermId>>, Memory>
    requires vars { All (λ v. v.ty < length terms.now.types) vars.now }
    requires hyps { All (λ i. i < length terms.now.terms) hyps.now }
    ensures given { IfOk result (λ found. option_map (λ ts. map (tm_at terms.now.terms) ts.items) found
        ≡ terms_given numbers (map (tm_at terms.now.terms) hyps.now) (map (variable_of terms.now.types) vars.now)) }
    ensures inside { IfOk result (λ found. IfSome found (λ ts. All (λ i. i < length terms.now.terms) ts.items)) }
{
    let all = all_given(alloc, terms, hyps)?;
    let mut given = Vec::new(alloc);
    for v in vars {
        let Some(t) = only_given(&all, v) else {
            return Ok(None);
        };
        given.push(t)?;
    }
    Ok(Some(given))
}

/// The term of a variable that is given exactly one.
fn only_given(all: &IndexMap<VarKey, Option<TermId>>, v: &VarKey) -> Option<TermId>
    ensures { result ≡ only_kept all.now.entries v.now }
{
    match all.get(v) {
        Some(only) => *only,
        None => None,
    }
}

/// What hypotheses give each variable: its term, or none for one that is given two.
fn all_given(
    alloc: Global,
    terms: &Terms,
    hyps: &[TermId],
) -> Result<IndexMap<VarKey, Option<TermId>>, Memory>
    requires { All (λ i. i < length terms.now.terms) hyps.now }
    ensures { IfOk result (λ all. Keeps terms.now.types terms.now.terms hyps.now all.entries) }
{
    let mut all = IndexMap::new(alloc);
    for hyp in hyps {
        add_given(terms, *hyp, &mut all)?;
    }
    Ok(all)
}

/// Adds what a hypothesis gives a variable.
fn add_given(
    terms: &Terms,
    hyp: TermId,
    all: &mut IndexMap<VarKey, Option<TermId>>,
) -> Result<(), Memory>
    requires { hyp < length terms.now.terms }
    ensures { OnOk result ((before : List ℕ) → Keeps terms.now.types terms.now.terms before all.old.entries
        → Keeps terms.now.types terms.now.terms (before ++ hyp ∷ []) all.new.entries) }
{
    // Each type has one number.
    let _types = terms.types();
    let Some((v, t)) = given_by(terms, hyp) else {
        return Ok(());
    };
    if all.insert(v, Some(t))?.is_none() {
        return Ok(());
    }
    // Two terms are none.
    all.insert(v, None)?;
    Ok(())
}

/// The variable that a hypothesis gives a term, with the term.
fn given_by(terms: &Terms, hyp: TermId) -> Option<(VarKey, TermId)>
    requires { hyp < length terms.now.terms }
    ensures given { option_map (λ p. (variable_of terms.now.types p.0, tm_at terms.now.terms p.1)) result
        ≡ gives (as_equation numbers (tm_at terms.now.terms hyp)) }
    ensures inside { IfSome result (λ p. (p.0.ty < length terms.now.types) × (p.1 < length terms.now.terms)) }
{
    let Some(sides) = terms.as_eq(hyp) else {
        return None;
    };
    let Some(v) = as_variable(terms, sides.0) else {
        return None;
    };
    Some((v, sides.1))
}

/// The variable that the term is.
fn as_variable(terms: &Terms, t: TermId) -> Option<VarKey>
    requires { t < length terms.now.terms }
    ensures var { option_map (variable_of terms.now.types) result ≡ as_variable (tm_at terms.now.terms t) }
    ensures inside { IfSome result (λ v. v.ty < length terms.now.types) }
{
    match terms.node(t) {
        TermNode::Var(v) => Some(*v),
        _ => None,
    }
}

/// Refuses terms of which one has a free variable.
fn check_all_closed(alloc: Global, terms: &Terms, ts: &[TermId]) -> Result<(), DefineFault>
    requires { All (λ i. i < length terms.now.terms) ts.now }
    ensures { Checks result (unless NotClosed (list_all (is_closed numbers) (map (tm_at terms.now.terms) ts.now))) }
{
    for t in ts {
        check_closed_but(alloc, terms, &[], *t)?;
    }
    Ok(())
}

/// Refuses terms of which one has a type variable that its type lacks.
fn check_all_type_vars(alloc: Global, terms: &Terms, ts: &[TermId]) -> Result<(), DefineFault>
    requires { All (λ i. i < length terms.now.terms) ts.now }
    ensures { Checks result
        (unless TypeVarEscapes (list_all (keeps_type_vars numbers) (map (tm_at terms.now.terms) ts.now))) }
{
    for t in ts {
        check_type_vars(alloc, terms, *t)?;
    }
    Ok(())
}
