//! Finite maps from names to names.
ghost use Rattle.std.specs.Prelude.{◌≡◌, false, [], ◌∷◌, ◌++◌, map, IfOk, OnOk, OnErr};
ghost use Rattle.ot_logic.specs.Naming.{numbers};
ghost use Rattle.ot_interp.specs.Interpretation.{is_held, renamed, after_pairs};

use indexmap::IndexMap;
use ot_logic::{Memory, NameId};
use std::alloc::Global;

/// What a name becomes.
pub(crate) fn renamed(pairs: &IndexMap<NameId, NameId>, name: NameId) -> NameId
    ensures { result ≡ renamed numbers pairs.now.entries name }
{
    match pairs.get(&name) {
        Some(to) => *to,
        None => name,
    }
}

/// Adds a pair for a name that isn't held.
pub(crate) fn add(
    pairs: &mut IndexMap<NameId, NameId>,
    from: NameId,
    to: NameId,
) -> Result<(), Memory>
    requires { is_held numbers pairs.old.entries from ≡ false }
    ensures ok { OnOk result (pairs.new.entries ≡ pairs.old.entries ++ (from, to) ∷ []) }
    ensures err { OnErr result (pairs.new.entries ≡ pairs.old.entries) }
{
    pairs.insert(from, to)?;
    Ok(())
}

/// The pairs of one map, their second names renamed by another.
fn images(
    alloc: Global,
    inner: &IndexMap<NameId, NameId>,
    outer: &IndexMap<NameId, NameId>,
) -> Result<IndexMap<NameId, NameId>, Memory>
    ensures { IfOk result
        (λ both. both.entries ≡ map (λ p. (p.0, renamed numbers outer.now.entries p.1)) inner.now.entries) }
{
    let mut both = IndexMap::new(alloc);
    for (from, to) in inner {
        add(&mut both, *from, renamed(outer, *to))?;
    }
    Ok(both)
}

/// First one map, then another.
pub(crate) fn after(
    alloc: Global,
    inner: &IndexMap<NameId, NameId>,
    outer: &IndexMap<NameId, NameId>,
) -> Result<IndexMap<NameId, NameId>, Memory>
    ensures { IfOk result (λ both. both.entries ≡ after_pairs numbers inner.now.entries outer.now.entries) }
{
    let mut both = images(alloc, inner, outer)?;
    for (from, to) in outer {
        if !both.contains_key(from) {
            add(&mut both, *from, *to)?;
        }
    }
    Ok(both)
}
