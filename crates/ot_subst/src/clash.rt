//! When a binder has to be renamed.
ghost use Rattle.std.specs.Prelude.{◌≡◌, ◌<◌, [], length, false, IfOk, MatchBool, Decides};
ghost use Rattle.std.specs.List.{All};
ghost use Rattle.ot_logic.specs.Lists.{IsMember};
ghost use Rattle.ot_logic.specs.Hol.{inst_var, IsFree};
ghost use Rattle.ot_logic.specs.NamedTerms.{nameless};
ghost use Rattle.ot_logic.specs.Naming.{numbers};
ghost use Rattle.ot_term.specs.TermTable.{term_at, variable_of, IsGrownTo, IsTermTable};
ghost use Rattle.ot_subst.specs.Substitution.{type_part, IsSubstOf};
ghost use Rattle.ot_subst.specs.Renamed.{pairs_of};
ghost use Rattle.ot_subst.specs.Walk.{AreReady};
ghost use Rattle.ot_subst.specs.Clash.{IsPutIn, IsFreeInSome, IsCaught, Catches, AreCandidates, MayStay, IsUnclashing};

use crate::renamed::{Renamed, meets};
use crate::subst::Subst;
use ot_logic::Memory;
use ot_term::{Nodes, TermId, VarKey};
use ot_type::TableFault;
use std::alloc::Global;

/// A substitution at work, with the binders that were renamed so far.
#[derive(Clone, Copy)]
pub(crate) struct Work<'a> {
    pub(crate) alloc: Global,
    pub(crate) subst: &'a Subst,
    pub(crate) renamed: &'a Renamed<'a>,
}

/// Whether a variable is free in a term.
fn is_free<N: Nodes<L>, L>(alloc: Global, terms: &N, w: &VarKey, id: TermId) -> Result<bool, Memory>
    requires table { IsTermTable (N.table terms.now) }
    requires variable { w.now.ty < length (N.table terms.now).types }
    requires term { id < length (N.table terms.now).terms }
    ensures { IfOk result (λ b. Decides b (IsFree numbers (variable_of (N.table terms.now).types w.now)
        (nameless numbers (term_at (N.table terms.now).terms id)))) }
{
    let xs = terms.free_named(alloc, w.name, id)?;
    Ok(xs.contains(w))
}

/// Whether a variable may be free in a term of the substitution. Few pairs are looked through. Of many the answer is
/// always that it may be: then the free variables of a body tell sooner.
fn may_be_put_in<N: Nodes<L>, L>(
    alloc: Global,
    terms: &N,
    subst: &Subst,
    w: &VarKey,
) -> Result<bool, Memory>
    requires table { IsTermTable (N.table terms.now) }
    requires subst { IsSubstOf (N.table terms.now) subst.now }
    requires variable { w.now.ty < length (N.table terms.now).types }
    ensures { IfOk result (λ b. b ≡ false → ¬ (IsPutIn (N.table terms.now) subst.now w.now)) }
{
    let (few, others) = subst.terms();
    if others.is_empty() {
        return is_free_in_pairs(alloc, terms, few, w);
    }
    Ok(true)
}

/// Whether a variable is free in a term of these pairs.
fn is_free_in_pairs<N: Nodes<L>, L>(
    alloc: Global,
    terms: &N,
    pairs: &[(VarKey, TermId)],
    w: &VarKey,
) -> Result<bool, Memory>
    requires table { IsTermTable (N.table terms.now) }
    requires terms { All (λ p. p.1 < length (N.table terms.now).terms) pairs.now }
    requires variable { w.now.ty < length (N.table terms.now).types }
    ensures { IfOk result (λ b. Decides b (IsFreeInSome (N.table terms.now) pairs.now w.now)) }
{
    for pair in pairs {
        if is_free(alloc, terms, w, pair.1)? {
            return Ok(true);
        }
    }
    Ok(false)
}

/// Whether `x`, where it is not the binder `v`, becomes a term in which `w` is free.
fn is_caught<N: Nodes<L>, L>(
    terms: &mut N,
    work: &Work<'_>,
    v: &VarKey,
    w: &VarKey,
    x: &VarKey,
) -> Result<bool, Memory>
    requires table { IsTermTable (N.table terms.old) }
    requires subst { IsSubstOf (N.table terms.old) work.now.subst.now }
    requires new { w.now.ty < length (N.table terms.old).types }
    requires variable { x.now.ty < length (N.table terms.old).types }
    ensures ok { IfOk result (λ b. Decides b (IsCaught (N.table terms.old) work.now.subst.now v.now w.now x.now)) }
    ensures grown { IsGrownTo 0 (N.table terms.old) (N.table terms.new) }
{
    if *x == *v {
        return Ok(false);
    }
    let name = x.name;
    match terms.type_inst(work.subst.types(), x.ty) {
        Ok(ty) => {
            let key = VarKey { name, ty };
            match work.subst.get(&key) {
                Some(id) => is_free(work.alloc, &*terms, w, id),
                None => Ok(key == *w),
            }
        }
        Err(TableFault::Nesting) => Ok(false),
        Err(TableFault::Memory(memory)) => Err(memory),
    }
}

/// Whether one of the variables, other than the binder `v`, becomes a term in which `w` is free.
fn any_is_caught<N: Nodes<L>, L>(
    terms: &mut N,
    work: &Work<'_>,
    v: &VarKey,
    w: &VarKey,
    xs: &[VarKey],
) -> Result<bool, Memory>
    requires table { IsTermTable (N.table terms.old) }
    requires subst { IsSubstOf (N.table terms.old) work.now.subst.now }
    requires new { w.now.ty < length (N.table terms.old).types }
    requires variables { All (λ x. x.ty < length (N.table terms.old).types) xs.now }
    ensures ok { IfOk result
        (λ b. MatchBool b
        ((x : VarKey) × IsMember x xs.now × IsCaught (N.table terms.old) work.now.subst.now v.now w.now x)
        ((x : VarKey) → IsMember x xs.now
        → ¬ (IsCaught (N.table terms.old) work.now.subst.now v.now w.now x))) }
    ensures grown { IsGrownTo 0 (N.table terms.old) (N.table terms.new) }
{
    for x in xs {
        if is_caught(terms, work, v, w, x)? {
            return Ok(true);
        }
    }
    Ok(false)
}

/// Whether a binder `v` of this body that becomes `w` captures a variable: one of a term that is put in for a variable
/// of the body, or one that a variable of the body becomes by the type part.
pub(crate) fn catches<N: Nodes<L>, L>(
    terms: &mut N,
    work: &Work<'_>,
    v: &VarKey,
    w: &VarKey,
    body: TermId,
) -> Result<bool, Memory>
    requires table { IsTermTable (N.table terms.old) }
    requires subst { IsSubstOf (N.table terms.old) work.now.subst.now }
    requires binder { v.now.ty < length (N.table terms.old).types }
    requires new { w.now.ty < length (N.table terms.old).types }
    requires body { body < length (N.table terms.old).terms }
    ensures ok { IfOk result
        (λ b. Decides b (Catches (N.table terms.old) work.now.subst.now v.now w.now body)) }
    ensures grown { IsGrownTo 0 (N.table terms.old) (N.table terms.new) }
{
    let xs = candidates(work.alloc, &*terms, work.subst, w, body)?;
    any_is_caught(terms, work, v, w, &xs)
}

/// The free variables of a body that may become a term in which `w` is free. Where it is free in no term that is put
/// in, only one of its own name can.
fn candidates<N: Nodes<L>, L>(
    alloc: Global,
    terms: &N,
    subst: &Subst,
    w: &VarKey,
    body: TermId,
) -> Result<Vec<VarKey>, Memory>
    requires table { IsTermTable (N.table terms.now) }
    requires subst { IsSubstOf (N.table terms.now) subst.now }
    requires variable { w.now.ty < length (N.table terms.now).types }
    requires body { body < length (N.table terms.now).terms }
    ensures { IfOk result (λ xs. AreCandidates (N.table terms.now) subst.now w.now body xs.items) }
{
    if may_be_put_in(alloc, terms, subst, w)? {
        return terms.free_vars(alloc, body);
    }
    terms.free_named(alloc, w.name, body)
}

/// Whether the binder `v` of a body, which is `w` after the type part, has to be renamed. Without renamed binders
/// around, it has to be only where it clashes.
pub(crate) fn clashes<N: Nodes<L>, L>(
    terms: &mut N,
    work: &Work<'_>,
    v: &VarKey,
    w: &VarKey,
    body: TermId,
) -> Result<bool, Memory>
    requires ready { AreReady (N.table terms.old) work.now.subst.now (pairs_of work.now.renamed.now) }
    requires binder { v.now.ty < length (N.table terms.old).types }
    requires new { w.now.ty < length (N.table terms.old).types }
    requires instance { variable_of (N.table terms.old).types w.now ≡ inst_var numbers
        (type_part (N.table terms.old) work.now.subst.now) (variable_of (N.table terms.old).types v.now) }
    requires body { body < length (N.table terms.old).terms }
    ensures ok { IfOk result
        (λ b. MatchBool b
        (pairs_of work.now.renamed.now ≡ [] → ¬ (IsUnclashing (N.table terms.old) work.now.subst.now v.now body))
        (MayStay (N.table terms.old) work.now.subst.now (pairs_of work.now.renamed.now) v.now body)) }
    ensures grown { IsGrownTo 0 (N.table terms.old) (N.table terms.new) }
{
    if meets(work.renamed, v, w) || work.subst.get(w).is_some() {
        return Ok(true);
    }
    // Where no type changes, no variable that stays becomes the binder, and most binders are free in no term that is
    // put in.
    if work.subst.types().is_empty() && !may_be_put_in(work.alloc, &*terms, work.subst, w)? {
        return Ok(false);
    }
    catches(terms, work, v, w, body)
}
