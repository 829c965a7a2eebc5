//! The walk that puts a substitution into a term, node by node.
ghost use Rattle.std.specs.Prelude.{◌≡◌, ℕ, ◌<◌, ◌≤◌, suc, max, Some, Err, IfOk, OnErr, length, slice_get, false};
ghost use Rattle.ot_logic.specs.Trees.{Ty, NApp, NAbs};
ghost use Rattle.ot_logic.specs.Hol.{is_shallow, fun_ty};
ghost use Rattle.ot_logic.specs.NamedTerms.{nameless, named_type};
ghost use Rattle.ot_logic.specs.Naming.{numbers};
ghost use Rattle.ot_logic.specs.Bounds.{bound_named};
ghost use Rattle.ot_term.specs.TermTable.{term_at, term_of, variable_of, is_within_limit, IsGrownTo};
ghost use Rattle.ot_term.specs.TermTable.{AreBelow};
ghost use Rattle.ot_subst.specs.Renamed.{pairs_of};
ghost use Rattle.ot_subst.specs.Walk.{becomes, IsSetUp, IsLater};
ghost use Rattle.ot_subst.specs.Memory.{IsMemory, IsWalked, IsCounted, above};

use crate::clash::{Work, clashes};
use crate::fresh::new_name;
use crate::images::{constant_of, image_of};
use crate::renamed::Renamed;
use crate::results::Results;
use ot_logic::Names;
use ot_term::{Nodes, Steps, TermFault, TermId, TermNode, VarKey};
use ot_type::TableFault;

/// The application of a function to an argument that it takes.
fn join<N: Nodes<L>, L>(terms: &mut N, f: TermId, x: TermId) -> Result<TermId, TableFault>
    requires f { f < length (N.table terms.old).terms }
    requires x { x < length (N.table terms.old).terms }
    requires typed { (a b : Ty ℕ) × (named_type numbers (term_at (N.table terms.old).terms f) ≡ Some (fun_ty numbers a b))
        × (named_type numbers (term_at (N.table terms.old).terms x) ≡ Some a) }
    ensures ok { IfOk result (λ id. slice_get (N.table terms.new).terms id
        ≡ Some (NApp (term_at (N.table terms.old).terms f) (term_at (N.table terms.old).terms x))) }
    ensures nesting { result ≡ Err TableFault.Nesting
        → is_within_limit (NApp (term_at (N.table terms.old).terms f) (term_at (N.table terms.old).terms x)) ≡ false }
    ensures grown { IsGrownTo 0 (N.table terms.old) (N.table terms.new) }
{
    match terms.app(f, x) {
        Ok(id) => Ok(id),
        Err(TermFault::Nesting) => Err(TableFault::Nesting),
        Err(TermFault::Memory(memory)) => Err(TableFault::Memory(memory)),
        Err(TermFault::NotFunction | TermFault::ArgumentType) => unreachable!(),
    }
}

/// What an application becomes.
#[cycle(walk)]
fn application<N: Nodes<L>, L>(
    work: &Work<'_>,
    terms: &mut N,
    names: &mut Names,
    memory: &mut Results,
    f: TermId,
    x: TermId,
    steps: &mut Steps<L>,
) -> Result<TermId, TableFault>
    requires set_up { IsSetUp (length names.old) (N.table terms.old) work.now.subst.now (pairs_of work.now.renamed.now) }
    requires remembered { IsMemory (N.table terms.old) work.now.subst.now (pairs_of work.now.renamed.now) memory.old }
    requires f { f < length (N.table terms.old).terms }
    requires x { x < length (N.table terms.old).terms }
    requires typed { (ty : Ty ℕ) × (named_type numbers
        (NApp (term_at (N.table terms.old).terms f) (term_at (N.table terms.old).terms x)) ≡ Some ty) }
    ensures ok { IfOk result
        (IsWalked (N.table terms.old) (N.table terms.new) work.now.subst.now (pairs_of work.now.renamed.now)
        memory.old memory.new steps.old steps.new
        (NApp (term_at (N.table terms.old).terms f) (term_at (N.table terms.old).terms x)) (suc (max f x))) }
    ensures nesting { result ≡ Err TableFault.Nesting
        → is_shallow numbers
        (becomes (N.table terms.old) work.now.subst.now (pairs_of work.now.renamed.now)
        (nameless numbers (NApp (term_at (N.table terms.old).terms f) (term_at (N.table terms.old).terms x))))
        ≡ false }
    ensures refused { OnErr result (IsCounted (N.table terms.old) work.now.subst.now (pairs_of work.now.renamed.now) memory.old
        steps.old steps.new (NApp (term_at (N.table terms.old).terms f) (term_at (N.table terms.old).terms x))
        (suc (max f x))) }
    ensures later { IsLater names.old names.new (N.table terms.old) (N.table terms.new) }
{
    let f = walk(work, terms, names, memory, f, steps)?;
    let x = walk(work, terms, names, memory, x, steps)?;
    join(terms, f, x)
}

/// What an abstraction becomes.
#[cycle(walk)]
fn abstraction<N: Nodes<L>, L>(
    work: &Work<'_>,
    terms: &mut N,
    names: &mut Names,
    memory: &mut Results,
    v: VarKey,
    body: TermId,
    steps: &mut Steps<L>,
) -> Result<TermId, TableFault>
    requires set_up { IsSetUp (length names.old) (N.table terms.old) work.now.subst.now (pairs_of work.now.renamed.now) }
    requires remembered { IsMemory (N.table terms.old) work.now.subst.now (pairs_of work.now.renamed.now) memory.old }
    requires v { v.ty < length (N.table terms.old).types }
    requires body { body < length (N.table terms.old).terms }
    requires typed { (ty : Ty ℕ) × (named_type numbers
        (NAbs (variable_of (N.table terms.old).types v) (term_at (N.table terms.old).terms body)) ≡ Some ty) }
    requires bound { bound_named (NAbs (variable_of (N.table terms.old).types v) (term_at (N.table terms.old).terms body))
        ≤ length names.old }
    ensures ok { IfOk result
        (IsWalked (N.table terms.old) (N.table terms.new) work.now.subst.now (pairs_of work.now.renamed.now)
        memory.old memory.new steps.old steps.new
        (NAbs (variable_of (N.table terms.old).types v) (term_at (N.table terms.old).terms body)) (suc body)) }
    ensures nesting { result ≡ Err TableFault.Nesting
        → is_shallow numbers
        (becomes (N.table terms.old) work.now.subst.now (pairs_of work.now.renamed.now)
        (nameless numbers (NAbs (variable_of (N.table terms.old).types v) (term_at (N.table terms.old).terms body))))
        ≡ false }
    ensures refused { OnErr result (IsCounted (N.table terms.old) work.now.subst.now (pairs_of work.now.renamed.now) memory.old
        steps.old steps.new (NAbs (variable_of (N.table terms.old).types v) (term_at (N.table terms.old).terms body))
        (suc body)) }
    ensures later { IsLater names.old names.new (N.table terms.old) (N.table terms.new) }
{
    let ty = terms.type_inst(work.subst.types(), v.ty)?;
    let name = v.name;
    let kept = VarKey { name, ty };
    if !clashes(terms, work, &v, &kept, body)? {
        let body = walk(work, terms, names, memory, body, steps)?;
        return terms.abs(kept, body);
    }
    let name = new_name(terms, work, names, &v, ty, body)?;
    let new = VarKey { name, ty };
    let renamed = Renamed::Binder(&v, &new, work.renamed);
    let inside = Work {
        alloc: work.alloc,
        subst: work.subst,
        renamed: &renamed,
    };
    let mut results = Results::hashed(work.alloc);
    let body = walk(&inside, terms, names, &mut results, body, steps)?;
    terms.abs(new, body)
}

/// What the term of a node becomes.
#[cycle(walk)]
fn image_of_node<N: Nodes<L>, L>(
    work: &Work<'_>,
    terms: &mut N,
    names: &mut Names,
    memory: &mut Results,
    node: TermNode,
    steps: &mut Steps<L>,
) -> Result<TermId, TableFault>
    requires set_up { IsSetUp (length names.old) (N.table terms.old) work.now.subst.now (pairs_of work.now.renamed.now) }
    requires remembered { IsMemory (N.table terms.old) work.now.subst.now (pairs_of work.now.renamed.now) memory.old }
    requires below { AreBelow (length (N.table terms.old).types) (length (N.table terms.old).terms) node }
    requires typed { (ty : Ty ℕ)
        × (named_type numbers (term_of (N.table terms.old).types (N.table terms.old).terms node) ≡ Some ty) }
    requires bound { bound_named (term_of (N.table terms.old).types (N.table terms.old).terms node)
        ≤ length names.old }
    ensures ok { IfOk result
        (IsWalked (N.table terms.old) (N.table terms.new) work.now.subst.now (pairs_of work.now.renamed.now)
        memory.old memory.new steps.old steps.new (term_of (N.table terms.old).types (N.table terms.old).terms node)
        (above node)) }
    ensures nesting { result ≡ Err TableFault.Nesting
        → is_shallow numbers (becomes (N.table terms.old) work.now.subst.now (pairs_of work.now.renamed.now)
        (nameless numbers (term_of (N.table terms.old).types (N.table terms.old).terms node))) ≡ false }
    ensures refused { OnErr result (IsCounted (N.table terms.old) work.now.subst.now (pairs_of work.now.renamed.now) memory.old
        steps.old steps.new (term_of (N.table terms.old).types (N.table terms.old).terms node) (above node)) }
    ensures later { IsLater names.old names.new (N.table terms.old) (N.table terms.new) }
{
    match node {
        TermNode::Var(v) => image_of(terms, work.subst, work.renamed, v),
        TermNode::Const(name, ty) => constant_of(terms, work.subst, work.renamed, name, ty),
        TermNode::App(f, x) => application(work, terms, names, memory, f, x, steps),
        TermNode::Abs(v, body) => abstraction(work, terms, names, memory, v, body, steps),
    }
}

/// What a term becomes. Results are remembered for as long as the binders that were renamed are the same.
#[cycle(walk)]
pub(crate) fn walk<N: Nodes<L>, L>(
    work: &Work<'_>,
    terms: &mut N,
    names: &mut Names,
    memory: &mut Results,
    id: TermId,
    steps: &mut Steps<L>,
) -> Result<TermId, TableFault>
    requires set_up { IsSetUp (length names.old) (N.table terms.old) work.now.subst.now (pairs_of work.now.renamed.now) }
    requires remembered { IsMemory (N.table terms.old) work.now.subst.now (pairs_of work.now.renamed.now) memory.old }
    requires inside { id < length (N.table terms.old).terms }
    ensures ok { IfOk result
        (IsWalked (N.table terms.old) (N.table terms.new) work.now.subst.now (pairs_of work.now.renamed.now)
        memory.old memory.new steps.old steps.new (term_at (N.table terms.old).terms id) (suc id)) }
    ensures nesting { result ≡ Err TableFault.Nesting
        → is_shallow numbers (becomes (N.table terms.old) work.now.subst.now (pairs_of work.now.renamed.now)
        (nameless numbers (term_at (N.table terms.old).terms id))) ≡ false }
    ensures refused { OnErr result (IsCounted (N.table terms.old) work.now.subst.now (pairs_of work.now.renamed.now) memory.old
        steps.old steps.new (term_at (N.table terms.old).terms id) (suc id)) }
    ensures later { IsLater names.old names.new (N.table terms.old) (N.table terms.new) }
{
    // A closed term stays as it is where no type changes.
    if work.subst.types().is_empty() && terms.is_closed(id) {
        return Ok(id);
    }
    if let Some(done) = memory.get(id) {
        return Ok(done);
    }
    let node = terms.take(id, steps);
    let image = image_of_node(work, terms, names, memory, node, steps)?;
    Ok(memory.keep(id, image)?)
}
