//! Sequents by the numbers of their terms, and hypotheses as sets.
ghost use Rattle.std.specs.Prelude.{◌≡◌, ◌==◌, ◌++◌, [], ◌∷◌, filter, not, nat_eq, IfOk};
ghost use Rattle.std.specs.List.{list_any};
ghost use Rattle.ot_log_rules.specs.Statements.{once_of};
ghost use Rattle.ot_log_rules.specs.declared.statement.StepFault.TheVariants.{Memory as OutOfMemory};
ghost use Rattle.ot_logic.specs.RanOut.{ran_out};

use crate::sets::set_of;
use ot_log_nodes::TermId;
use ot_logic::Memory;
use std::alloc::{AllocError, AllocFailed, Global};

/// Among so many terms, or for so many, a scan for each is short.
const FEW: usize = 8;

/// A sequent: its hypotheses, no two of them one term, and its conclusion.
#[derive(Drop)]
pub struct Statement {
    pub hyps: Vec<TermId>,
    pub concl: TermId,
}

/// Why a step gives no sequent.
#[derive(Clone, Copy)]
pub enum StepFault {
    /// The step doesn't follow.
    BadStep,
    /// There was too little memory.
    Memory(Memory),
}

impl From<Memory> for StepFault {
    ghost from_gives = { λ _ f. f ≡ OutOfMemory ran_out };

    fn from(memory: Memory) -> StepFault {
        StepFault::Memory(memory)
    }
}

impl From<AllocError> for StepFault {
    ghost from_gives = { λ _ f. f ≡ OutOfMemory ran_out };

    fn from(refused: AllocError) -> StepFault {
        StepFault::Memory(Memory::from(refused))
    }
}

impl<T: Drop> From<AllocFailed<T>> for StepFault {
    ghost from_gives = { λ _ f. f ≡ OutOfMemory ran_out };

    fn from(refused: AllocFailed<T>) -> StepFault {
        StepFault::Memory(Memory::from(refused))
    }
}

/// The union of two sets of terms: the first list as it is, and behind it those of the second list that the first
/// lacks, in their order. It repeats no term where neither list does.
///
/// Any numbers may be given, as no table is asked. It fails only where memory runs out.
pub fn union(alloc: Global, g: &[TermId], h: &[TermId]) -> Result<Vec<TermId>, Memory>
    ensures { IfOk result (λ v. v.items ≡ g.now ++ filter (λ t. not (list_any (λ u. nat_eq u t) g.now)) h.now) }
{
    let more = lacking(alloc, g, h)?;
    let mut all = Vec::from_slice(alloc, g)?;
    all.extend_from_slice(more.as_slice())?;
    Ok(all)
}

/// Those of the second list that the first lacks.
fn lacking(alloc: Global, g: &[TermId], h: &[TermId]) -> Result<Vec<TermId>, Memory>
    ensures { IfOk result (λ v. v.items ≡ filter (λ t. not (list_any (λ u. nat_eq u t) g.now)) h.now) }
{
    if g.len() <= FEW || h.len() <= FEW {
        return Ok(h.iter().copied().filter(|t| !g.contains(t)).collect(alloc)?);
    }
    lacking_by_hash(alloc, g, h)
}

/// The same, by a look-up for each.
fn lacking_by_hash(alloc: Global, g: &[TermId], h: &[TermId]) -> Result<Vec<TermId>, Memory>
    ensures { IfOk result (λ v. v.items ≡ filter (λ t. not (list_any (λ u. nat_eq u t) g.now)) h.now) }
{
    let known = set_of(alloc, g)?;
    let mut more = Vec::new(alloc);
    for t in h {
        if !known.contains(t) {
            more.push(*t)?;
        }
    }
    Ok(more)
}

/// The list without a term: each place of `t` is left out, and the others stay in their order.
///
/// Any number may be given, also one that the list lacks. It fails only where memory runs out.
pub fn minus(alloc: Global, t: TermId, g: &[TermId]) -> Result<Vec<TermId>, Memory>
    ensures { IfOk result (λ v. v.items ≡ filter (λ u. not (nat_eq u t)) g.now) }
{
    Ok(g.iter().copied().filter(|u| *u != t).collect(alloc)?)
}

/// The members of a list, each once, at its last place.
pub(crate) fn once_each(alloc: Global, g: &[TermId]) -> Result<Vec<TermId>, Memory>
    ensures { IfOk result (λ v. v.items ≡ once_of g.now) }
{
    if g.len() <= FEW {
        return each_by_scans(alloc, g);
    }
    let last_first: Vec<TermId> = g.iter().rev().copied().collect(alloc)?;
    let known = set_of(alloc, last_first.as_slice())?;
    Ok(known.as_slice().iter().rev().copied().collect(alloc)?)
}

/// The same, by a scan of the rest for each.
fn each_by_scans(alloc: Global, g: &[TermId]) -> Result<Vec<TermId>, Memory>
    ensures { IfOk result (λ v. v.items ≡ once_of g.now) }
{
    let mut once = Vec::new(alloc);
    for (i, t) in g.iter().enumerate() {
        if !g[i + 1..].contains(t) {
            once.push(*t)?;
        }
    }
    Ok(once)
}

/// A list of one sequent.
pub(crate) fn alone(alloc: Global, statement: Statement) -> Result<Vec<Statement>, Memory>
    ensures { IfOk result (λ v. v.items ≡ statement ∷ []) }
{
    let mut all = Vec::new(alloc);
    all.push(statement)?;
    Ok(all)
}

/// A list of two sequents.
pub(crate) fn both(
    alloc: Global,
    first: Statement,
    second: Statement,
) -> Result<Vec<Statement>, Memory>
    ensures { IfOk result (λ v. v.items ≡ first ∷ second ∷ []) }
{
    let mut all = Vec::new(alloc);
    all.push(first)?;
    all.push(second)?;
    Ok(all)
}
