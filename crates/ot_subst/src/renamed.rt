//! The binders that were renamed on the way to a term.
ghost use Rattle.std.specs.Prelude.{◌≡◌, ◌↔◌, IsTrue};
ghost use Rattle.std.specs.Map.{lookup};
ghost use Rattle.ot_subst.specs.Substitution.{same_key};
ghost use Rattle.ot_subst.specs.Renamed.{pairs_of, Meets};

use ot_term::VarKey;

/// The binders around a term that were renamed, the innermost first: each as it was, and what it has become.
#[derive(Clone, Copy)]
pub(crate) enum Renamed<'a> {
    Outermost,
    Binder(&'a VarKey, &'a VarKey, &'a Renamed<'a>),
}

/// What a variable has become that a renamed binder binds.
pub(crate) fn new_binder(renamed: &Renamed<'_>, v: &VarKey) -> Option<VarKey>
    ensures { result ≡ lookup (same_key v.now) (pairs_of renamed.now) }
{
    match renamed {
        Renamed::Outermost => None,
        Renamed::Binder(old, new, around) => {
            if *v == **old {
                Some(**new)
            } else {
                new_binder(around, v)
            }
        }
    }
}

/// Whether a binder `v` was renamed, or one has become `w`.
pub(crate) fn meets(renamed: &Renamed<'_>, v: &VarKey, w: &VarKey) -> bool
    ensures { IsTrue result ↔ Meets (pairs_of renamed.now) v.now w.now }
{
    match renamed {
        Renamed::Outermost => false,
        Renamed::Binder(old, new, around) => *v == **old || *w == **new || meets(around, v, w),
    }
}

/// How many binders were renamed.
pub(crate) fn depth(renamed: &Renamed<'_>) -> u64 {
    match renamed {
        Renamed::Outermost => 0,
        Renamed::Binder(_, _, around) => depth(around).saturating_add(1),
    }
}
