//! Whether terms are among others, up to the names of binders: one by one where these are few, by their alpha classes
//! where they are many.
ghost use Rattle.std.specs.Prelude.{◌≡◌, ◌<◌, ◌∷◌, [], ℕ, List, length, IfOk, IfSome, OnOk};
ghost use Rattle.std.specs.List.{All};
ghost use Rattle.ot_logic.specs.Trees.{Tm};
ghost use Rattle.ot_logic.specs.Hol.{is_in};
ghost use Rattle.ot_logic.specs.Naming.{numbers};
ghost use Rattle.ot_kernel.specs.Numbered.{tm_at, tms_at};
ghost use Rattle.ot_kernel.specs.Classes.{AreClassesOf, AddsClass};

use indexmap::IndexSet;
use ot_alpha::alpha_eq;
use ot_class::ClassId;
use ot_logic::Memory;
use ot_term::{TermId, Terms};
use std::alloc::Global;

/// Among so many terms, or for so many, a scan for each is short.
const FEW: usize = 8;

/// Whether a term is among these.
pub(crate) fn has_term(terms: &Terms, among: &[TermId], t: TermId) -> bool
    requires among { All (λ i. i < length terms.now.terms) among.now }
    requires t { t < length terms.now.terms }
    ensures { result ≡ is_in numbers (tm_at terms.now.terms t) (tms_at terms.now.terms among.now) }
{
    for u in among {
        if alpha_eq(terms, *u, t) {
            return true;
        }
    }
    false
}

/// Whether a term is among these, of which the classes may be known.
pub(crate) fn is_among(
    terms: &Terms,
    among: &[TermId],
    classes: &Option<IndexSet<ClassId>>,
    t: TermId,
) -> bool
    requires among { All (λ i. i < length terms.now.terms) among.now }
    requires classes { IfSome classes.now (λ s. AreClassesOf terms.now (tms_at terms.now.terms among.now) s.keys) }
    requires t { t < length terms.now.terms }
    ensures { result ≡ is_in numbers (tm_at terms.now.terms t) (tms_at terms.now.terms among.now) }
{
    match classes {
        Some(known) => has_class(terms, known, t),
        None => has_term(terms, among, t),
    }
}

/// Whether the class of a term is among these: whether the term is one of the terms whose classes these are.
fn has_class(terms: &Terms, classes: &IndexSet<ClassId>, t: TermId) -> bool
    requires { t < length terms.now.terms }
    ensures { (us : List (Tm ℕ)) → AreClassesOf terms.now us classes.now.keys → result
        ≡ is_in numbers (tm_at terms.now.terms t) us }
{
    classes.contains(&terms.class(t))
}

/// The classes of these where many terms are sought among many of them.
pub(crate) fn classes_of_many(
    alloc: Global,
    terms: &Terms,
    among: &[TermId],
    sought: usize,
) -> Result<Option<IndexSet<ClassId>>, Memory>
    requires { All (λ i. i < length terms.now.terms) among.now }
    ensures { IfOk result
        (λ found. IfSome found (λ s. AreClassesOf terms.now (tms_at terms.now.terms among.now) s.keys)) }
{
    if among.len() <= FEW || sought <= FEW {
        return Ok(None);
    }
    Ok(Some(classes_of(alloc, terms, among)?))
}

/// The same, but none where memory runs out.
pub(crate) fn classes_at_hand(
    alloc: Global,
    terms: &Terms,
    among: &[TermId],
    sought: usize,
) -> Option<IndexSet<ClassId>>
    requires { All (λ i. i < length terms.now.terms) among.now }
    ensures { IfSome result (λ s. AreClassesOf terms.now (tms_at terms.now.terms among.now) s.keys) }
{
    match classes_of_many(alloc, terms, among, sought) {
        Ok(classes) => classes,
        Err(_) => None,
    }
}

/// The classes of terms.
fn classes_of(alloc: Global, terms: &Terms, among: &[TermId]) -> Result<IndexSet<ClassId>, Memory>
    requires { All (λ i. i < length terms.now.terms) among.now }
    ensures { IfOk result (λ s. AreClassesOf terms.now (tms_at terms.now.terms among.now) s.keys) }
{
    let mut classes = IndexSet::new(alloc);
    for t in among {
        add_class(terms, &mut classes, *t)?;
    }
    Ok(classes)
}

/// No term yet, whose classes are to be kept where there will be many.
pub(crate) fn classes_of_none(alloc: Global, coming: usize) -> Option<IndexSet<ClassId>>
    ensures { IfSome result (λ s. s.keys ≡ []) }
{
    if coming <= FEW {
        return None;
    }
    Some(IndexSet::new(alloc))
}

/// One term more, whose class is added where classes are kept.
pub(crate) fn add_term(
    terms: &Terms,
    classes: &mut Option<IndexSet<ClassId>>,
    t: TermId,
) -> Result<(), Memory>
    requires { t < length terms.now.terms }
    ensures { OnOk result ((us : List (Tm ℕ)) → IfSome classes.old (λ s. AreClassesOf terms.now us s.keys)
        → IfSome classes.new (λ s. AreClassesOf terms.now (tm_at terms.now.terms t ∷ us) s.keys)) }
{
    match classes {
        Some(known) => add_class(terms, known, t),
        None => Ok(()),
    }
}

/// Adds the class of a term.
fn add_class(terms: &Terms, classes: &mut IndexSet<ClassId>, t: TermId) -> Result<(), Memory>
    requires { t < length terms.now.terms }
    ensures { OnOk result (AddsClass terms.now t classes.old.keys classes.new.keys) }
{
    classes.insert(terms.class(t))?;
    Ok(())
}
