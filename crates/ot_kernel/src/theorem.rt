ghost use Rattle.std.specs.Prelude.{◌≡◌, ◌<◌, [], ◌∷◌, length, IfOk};
ghost use Rattle.std.specs.List.{All};
ghost use Rattle.ot_logic.specs.Hol.{same_sequent};
ghost use Rattle.ot_logic.specs.Naming.{numbers};

use crate::hypotheses::has_terms;
use ot_alpha::alpha_eq;
use ot_logic::Memory;
use ot_term::{TermId, Terms};
use std::alloc::Global;
use std::marker::Model;
use std::ops::DerefSlice;
use std::slice::from_ref;

/// How hypotheses are kept: most theorems have none, and most others one, for which nothing is allocated.
#[derive(Drop)]
pub(crate) enum Kept {
    None,
    One(TermId),
    Many(Box<Vec<TermId>>),
}

/// The hypotheses of a theorem, in little room: a kernel keeps each theorem for good.
#[derive(Drop)]
pub struct Hypotheses {
    kept: Kept,
}

impl Model for Hypotheses {
    ghost use Rattle.std.specs.Prelude.{ℕ, List};
    ghost use Rattle.ot_kernel.specs.Kept.{kept_terms};

    ghost Value = { List ℕ };

    ghost view = { λ h. kept_terms h.kept };
}

impl Hypotheses {
    /// No hypotheses.
    pub(crate) fn none() -> Hypotheses
        ensures items { result ≡ [] }
    {
        Hypotheses { kept: Kept::None }
    }

    /// A single one.
    pub(crate) fn one(t: TermId) -> Hypotheses
        ensures items { result ≡ t ∷ [] }
    {
        Hypotheses { kept: Kept::One(t) }
    }

    /// Those of a list, in its order.
    pub(crate) fn of(alloc: Global, list: Vec<TermId>) -> Result<Hypotheses, Memory>
        ensures items { IfOk result (λ h. h ≡ list.items) }
    {
        let kept = match list.as_slice() {
            [] => Kept::None,
            [t] => Kept::One(*t),
            _ => Kept::Many(Box::new(alloc, list)?),
        };
        Ok(Hypotheses { kept })
    }

    /// Those of a slice, in its order.
    pub(crate) fn from_slice(alloc: Global, list: &[TermId]) -> Result<Hypotheses, Memory>
        ensures items { IfOk result (λ h. h ≡ list.now) }
    {
        match list {
            [] => Ok(Hypotheses::none()),
            [t] => Ok(Hypotheses::one(*t)),
            _ => Hypotheses::of(alloc, Vec::from_slice(alloc, list)?),
        }
    }
}

impl DerefSlice for Hypotheses {
    type Elem = TermId;

    ghost deref_gives = { λ h ts. ts ≡ h };

    fn deref(&self) -> &[TermId]
        ensures value { result.now ≡ self.now }
    {
        match &self.kept {
            Kept::None => &[],
            Kept::One(t) => from_ref(t),
            Kept::Many(list) => list,
        }
    }
}

/// A theorem: hypotheses, no two of them alike up to the names of binders, and a conclusion.
#[derive(Drop)]
pub struct Theorem {
    pub(crate) hyps: Hypotheses,
    pub(crate) concl: TermId,
}

impl Theorem {
    ghost use Rattle.ot_kernel.specs.Numbered.{tm_at, tms_at, numbered_sequent};
    ghost use Rattle.ot_kernel.specs.Spelled.{IsInside};

    /// Whether this is the theorem's sequent.
    pub(crate) fn states(
        &self,
        alloc: Global,
        terms: &Terms,
        hyps: &[TermId],
        concl: TermId,
    ) -> bool
        requires inside { IsInside (length terms.now.terms) self.now }
        requires hyps { All (λ i. i < length terms.now.terms) hyps.now }
        requires concl { concl < length terms.now.terms }
        ensures { result ≡ same_sequent numbers (numbered_sequent terms.now.terms self.now)
            (record { hyps = tms_at terms.now.terms hyps.now; concl = tm_at terms.now.terms concl }) }
    {
        if !alpha_eq(terms, self.concl, concl) {
            return false;
        }
        if !has_terms(alloc, terms, hyps, &self.hyps) {
            return false;
        }
        has_terms(alloc, terms, &self.hyps, hyps)
    }
}

/// The number of a theorem in its kernel.
#[derive(Clone, Copy)]
pub struct ThmId(pub(crate) usize);

impl Model for ThmId {
    ghost use Rattle.std.specs.Prelude.{ℕ};

    ghost Value = { ℕ };

    ghost view = { λ n. n.0 };

    ghost inverse = { λ n. record { 0 = n } };
}
