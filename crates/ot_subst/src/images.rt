//! What variables and constants become.
ghost use Rattle.std.specs.Prelude.{◌≡◌, ◌<◌, ◌+◌, max, false, Err, IfOk, length};
ghost use Rattle.ot_logic.specs.Trees.{Free, Con};
ghost use Rattle.ot_logic.specs.Hol.{is_shallow};
ghost use Rattle.ot_logic.specs.Naming.{numbers};
ghost use Rattle.ot_type.specs.TypeTable.{type_at};
ghost use Rattle.ot_term.specs.TermTable.{variable_of, IsGrownTo};
ghost use Rattle.ot_subst.specs.Renamed.{pairs_of};
ghost use Rattle.ot_subst.specs.Walk.{becomes, bound_of, HasForm, AreReady};

use crate::renamed::{Renamed, new_binder};
use crate::subst::Subst;
use ot_logic::NameId;
use ot_term::{Nodes, TermId, VarKey};
use ot_type::{TableFault, TypeId};

/// What a variable becomes.
pub(crate) fn image_of<N: Nodes<L>, L>(
    terms: &mut N,
    subst: &Subst,
    renamed: &Renamed<'_>,
    v: VarKey,
) -> Result<TermId, TableFault>
    requires ready { AreReady (N.table terms.old) subst.now (pairs_of renamed.now) }
    requires variable { v.ty < length (N.table terms.old).types }
    ensures ok { IfOk result
        (λ id. HasForm (N.table terms.new) id (becomes (N.table terms.old) subst.now (pairs_of renamed.now)
        (Free (variable_of (N.table terms.old).types v)))) }
    ensures nesting { result ≡ Err TableFault.Nesting
        → is_shallow numbers (becomes (N.table terms.old) subst.now (pairs_of renamed.now)
        (Free (variable_of (N.table terms.old).types v))) ≡ false }
    ensures grown { IsGrownTo (max (v.name + 1) (bound_of (pairs_of renamed.now))) (N.table terms.old) (N.table terms.new) }
{
    if let Some(new) = new_binder(renamed, &v) {
        return Ok(terms.var(new)?);
    }
    let ty = terms.type_inst(subst.types(), v.ty)?;
    let name = v.name;
    let key = VarKey { name, ty };
    match subst.get(&key) {
        Some(id) => Ok(id),
        None => Ok(terms.var(key)?),
    }
}

/// What a constant becomes.
pub(crate) fn constant_of<N: Nodes<L>, L>(
    terms: &mut N,
    subst: &Subst,
    renamed: &Renamed<'_>,
    name: NameId,
    ty: TypeId,
) -> Result<TermId, TableFault>
    requires ready { AreReady (N.table terms.old) subst.now (pairs_of renamed.now) }
    requires ty { ty < length (N.table terms.old).types }
    ensures ok { IfOk result
        (λ id. HasForm (N.table terms.new) id (becomes (N.table terms.old) subst.now (pairs_of renamed.now)
        (Con name (type_at (N.table terms.old).types ty)))) }
    ensures nesting { result ≡ Err TableFault.Nesting
        → is_shallow numbers (becomes (N.table terms.old) subst.now (pairs_of renamed.now)
        (Con name (type_at (N.table terms.old).types ty))) ≡ false }
    ensures grown { IsGrownTo (name + 1) (N.table terms.old) (N.table terms.new) }
{
    let ty = terms.type_inst(subst.types(), ty)?;
    Ok(terms.constant(name, ty)?)
}
