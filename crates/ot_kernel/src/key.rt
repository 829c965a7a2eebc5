//! What sequents are found by: the alpha classes of their terms.
ghost use Rattle.std.specs.Prelude.{◌<◌, length, IfOk};
ghost use Rattle.std.specs.List.{All};
ghost use Rattle.ot_kernel.specs.Keys.{IsKeyOf};

use ot_class::ClassId;
use ot_logic::Memory;
use ot_term::{TermId, Terms};
use std::alloc::Global;
use std::collections::BTreeSet;

/// The class of a sequent's conclusion, and the set of those of its hypotheses: one key for all sequents that are the
/// same up to the names of binders.
#[derive(PartialEq, Eq, Hash, Drop)]
pub struct SequentKey {
    concl: ClassId,
    hyps: BTreeSet<ClassId>,
}

/// The key of a sequent.
pub(crate) fn key_of(
    alloc: Global,
    terms: &Terms,
    hyps: &[TermId],
    concl: TermId,
) -> Result<SequentKey, Memory>
    requires hyps { All (λ i. i < length terms.now.terms) hyps.now }
    requires concl { concl < length terms.now.terms }
    ensures { IfOk result (IsKeyOf terms.now.classes hyps.now concl) }
{
    let mut classes = BTreeSet::new(alloc);
    for t in hyps {
        classes.insert(terms.class(*t))?;
    }
    Ok(SequentKey {
        concl: terms.class(concl),
        hyps: classes,
    })
}
