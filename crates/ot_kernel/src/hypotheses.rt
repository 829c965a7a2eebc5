//! Hypotheses as sets: terms that differ at most in the names of binders count as one.
ghost use Rattle.std.specs.Prelude.{◌≡◌, ◌<◌, ◌++◌, ◌∷◌, [], length, if◌then◌else◌, IfOk, IfSome, OnOk};
ghost use Rattle.std.specs.List.{All};
ghost use Rattle.ot_logic.specs.Hol.{is_in, all_in, is_free_in_some, minus, union, once_each};
ghost use Rattle.ot_logic.specs.Naming.{numbers};
ghost use Rattle.ot_term.specs.TermTable.{variable_of};
ghost use Rattle.ot_kernel.specs.Numbered.{tm_at, tms_at};
ghost use Rattle.ot_kernel.specs.Classes.{AreClassesOf};

use crate::membership::{add_term, classes_at_hand, classes_of_many, classes_of_none, is_among};
use crate::theorem::Hypotheses;
use indexmap::IndexSet;
use ot_alpha::alpha_eq;
use ot_class::ClassId;
use ot_logic::Memory;
use ot_term::{TermId, Terms, VarKey};
use std::alloc::Global;

/// Whether all the terms are among these.
pub(crate) fn has_terms(alloc: Global, terms: &Terms, among: &[TermId], ts: &[TermId]) -> bool
    requires among { All (λ i. i < length terms.now.terms) among.now }
    requires ts { All (λ i. i < length terms.now.terms) ts.now }
    ensures { result ≡ all_in numbers (tms_at terms.now.terms ts.now) (tms_at terms.now.terms among.now) }
{
    // Without memory each is sought one by one.
    let classes = classes_at_hand(alloc, terms, among, ts.len());
    for t in ts {
        if !is_among(terms, among, &classes, *t) {
            return false;
        }
    }
    true
}

/// Those of the first list, and then those of the second that the first lacks.
pub(crate) fn union(
    alloc: Global,
    terms: &Terms,
    g: &[TermId],
    h: &[TermId],
) -> Result<Hypotheses, Memory>
    requires g { All (λ i. i < length terms.now.terms) g.now }
    requires h { All (λ i. i < length terms.now.terms) h.now }
    ensures union { IfOk result (λ v. tms_at terms.now.terms v ≡ union numbers (tms_at terms.now.terms g.now)
        (tms_at terms.now.terms h.now)) }
    ensures inside { IfOk result (λ v. All (λ i. i < length terms.now.terms) v) }
{
    // Most theorems have no hypotheses.
    if h.is_empty() {
        return Hypotheses::from_slice(alloc, g);
    }
    if g.is_empty() {
        return Hypotheses::from_slice(alloc, h);
    }
    let classes = classes_of_many(alloc, terms, g, h.len())?;
    let mut all = Vec::from_slice(alloc, g)?;
    for t in h {
        push_lacking(terms, g, &classes, *t, &mut all)?;
    }
    Hypotheses::of(alloc, all)
}

/// The list without a term.
pub(crate) fn minus(
    alloc: Global,
    terms: &Terms,
    t: TermId,
    g: &[TermId],
) -> Result<Vec<TermId>, Memory>
    requires t { t < length terms.now.terms }
    requires g { All (λ i. i < length terms.now.terms) g.now }
    ensures minus { IfOk result (λ v. tms_at terms.now.terms v.items
        ≡ minus numbers (tm_at terms.now.terms t) (tms_at terms.now.terms g.now)) }
    ensures inside { IfOk result (λ v. All (λ i. i < length terms.now.terms) v.items) }
{
    let mut left = Vec::new(alloc);
    for u in g {
        if !alpha_eq(terms, *u, t) {
            left.push(*u)?;
        }
    }
    Ok(left)
}

/// The members of a list, each once, at its last place.
pub(crate) fn once_each(alloc: Global, terms: &Terms, g: &[TermId]) -> Result<Hypotheses, Memory>
    requires { All (λ i. i < length terms.now.terms) g.now }
    ensures once { IfOk result
        (λ v. tms_at terms.now.terms v ≡ once_each numbers (tms_at terms.now.terms g.now)) }
    ensures inside { IfOk result (λ v. All (λ i. i < length terms.now.terms) v) }
{
    // Fewer than two are each there once.
    if g.len() < 2 {
        return Hypotheses::from_slice(alloc, g);
    }
    let mut later = classes_of_none(alloc, g.len());
    let mut once = Vec::new(alloc);
    for i in (0..g.len()).rev() {
        let t = g[i];
        push_lacking(terms, &g[i + 1..], &later, t, &mut once)?;
        add_term(terms, &mut later, t)?;
    }
    once.reverse();
    Hypotheses::of(alloc, once)
}

/// Puts a term at the end of a list, where it isn't among these.
fn push_lacking(
    terms: &Terms,
    among: &[TermId],
    classes: &Option<IndexSet<ClassId>>,
    t: TermId,
    list: &mut Vec<TermId>,
) -> Result<(), Memory>
    requires among { All (λ i. i < length terms.now.terms) among.now }
    requires classes { IfSome classes.now (λ s. AreClassesOf terms.now (tms_at terms.now.terms among.now) s.keys) }
    requires t { t < length terms.now.terms }
    ensures { OnOk result
        (list.new.items ≡ (if is_in numbers (tm_at terms.now.terms t) (tms_at terms.now.terms among.now)
        then list.old.items else list.old.items ++ t ∷ [])) }
{
    if is_among(terms, among, classes, t) {
        return Ok(());
    }
    list.push(t)?;
    Ok(())
}

/// Whether a variable is free in one of the terms.
pub(crate) fn is_free_in_some(
    alloc: Global,
    terms: &Terms,
    v: VarKey,
    among: &[TermId],
) -> Result<bool, Memory>
    requires ty { v.ty < length terms.now.types }
    requires among { All (λ i. i < length terms.now.terms) among.now }
    ensures { IfOk result
        (λ b. b ≡ is_free_in_some numbers (variable_of terms.now.types v) (tms_at terms.now.terms among.now)) }
{
    for t in among {
        if terms.is_free(alloc, &v, *t)? {
            return Ok(true);
        }
    }
    Ok(false)
}
