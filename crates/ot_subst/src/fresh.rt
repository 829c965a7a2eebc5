//! What a binder that clashes is renamed to.
ghost use Rattle.std.specs.Prelude.{◌≡◌, ◌<◌, true, length, IfOk};
ghost use Rattle.ot_logic.specs.Naming.{IsNameTable};
ghost use Rattle.ot_logic.specs.Table.{Extends};
ghost use Rattle.ot_term.specs.TermTable.{IsGrownTo};
ghost use Rattle.ot_subst.specs.Renamed.{pairs_of};
ghost use Rattle.ot_subst.specs.Walk.{AreReady, IsSetUp, IsLater};
ghost use Rattle.ot_subst.specs.Clash.{StaysApart};

use crate::clash::{Work, catches};
use crate::renamed::{depth, meets};
use ot_logic::{Memory, Name, NameId, Names};
use ot_term::{Nodes, TermId, VarKey};
use ot_type::TypeId;
use std::alloc::Global;

/// A name by the number of the renamed binders around, so that equal terms get equal binders.
fn usual_name(alloc: Global, names: &mut Names, depth: u64) -> Result<NameId, Memory>
    ensures within { IfOk result (λ name. name < length names.new) }
    ensures extends { Extends names.old names.new }
    ensures table { IsNameTable names.new }
{
    // What holds of each table of names.
    let _count = names.count();
    let text = format!(in alloc; "x#{depth}")?;
    names.intern(Name::of_text(alloc, text.as_bytes())?)
}

/// Whether the binder `v` may become `w`: then it captures no other variable of the body.
fn may_become<N: Nodes<L>, L>(
    terms: &mut N,
    work: &Work<'_>,
    v: &VarKey,
    w: &VarKey,
    body: TermId,
) -> Result<bool, Memory>
    requires ready { AreReady (N.table terms.old) work.now.subst.now (pairs_of work.now.renamed.now) }
    requires binder { v.now.ty < length (N.table terms.old).types }
    requires new { w.now.ty < length (N.table terms.old).types }
    requires body { body < length (N.table terms.old).terms }
    ensures ok { IfOk result (λ b. b ≡ true
        → StaysApart (N.table terms.old) work.now.subst.now (pairs_of work.now.renamed.now) v.now w.now body) }
    ensures grown { IsGrownTo 0 (N.table terms.old) (N.table terms.new) }
{
    if meets(work.renamed, v, w) {
        return Ok(false);
    }
    Ok(!catches(terms, work, v, w, body)?)
}

/// The new name of the binder `v` of a body, whose type becomes `ty`: the usual one, or one that is new where the binder
/// would capture a variable under that.
pub(crate) fn new_name<N: Nodes<L>, L>(
    terms: &mut N,
    work: &Work<'_>,
    names: &mut Names,
    v: &VarKey,
    ty: TypeId,
    body: TermId,
) -> Result<NameId, Memory>
    requires set_up { IsSetUp (length names.old) (N.table terms.old) work.now.subst.now (pairs_of work.now.renamed.now) }
    requires binder { v.now.ty < length (N.table terms.old).types }
    requires new { ty < length (N.table terms.old).types }
    requires body { body < length (N.table terms.old).terms }
    ensures within { IfOk result (λ name. name < length names.new) }
    ensures apart { IfOk result
        (λ name. StaysApart (N.table terms.old) work.now.subst.now (pairs_of work.now.renamed.now) v.now
        (record { name = name; ty = ty }) body) }
    ensures later { IsLater names.old names.new (N.table terms.old) (N.table terms.new) }
    ensures grown { IsGrownTo 0 (N.table terms.old) (N.table terms.new) }
{
    let name = usual_name(work.alloc, names, depth(work.renamed))?;
    if may_become(terms, work, v, &VarKey { name, ty }, body)? {
        return Ok(name);
    }
    names.add_new()
}
