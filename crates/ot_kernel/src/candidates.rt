//! Theorems of a list, found by their conclusion and one of their hypotheses.
ghost use Rattle.std.specs.Prelude.{◌≡◌, ◌<◌, ◌≤◌, [], ℕ, false, Some, length, map, take, slice_get, IfOk};
ghost use Rattle.std.specs.List.{All};
ghost use Rattle.std.specs.Map.{lookup};
ghost use Rattle.ot_kernel.specs.State.{State, sequent_at, theorem_at};
ghost use Rattle.ot_kernel.specs.Candidates.{is_stronger, theorems_in, HasPart, HaveParts, AreCandidates};
ghost use Rattle.ot_kernel.specs.Chains.{same_part, AreChained};

use crate::kernel::Kernel;
use crate::theorem::ThmId;
use indexmap::IndexMap;
use ot_class::ClassId;
use ot_logic::Memory;
use ot_term::TermId;
use std::alloc::Global;

/// The class of a theorem's conclusion, and that of one of its hypotheses where it has any.
#[derive(Clone, Copy, PartialEq, Eq, Hash)]
pub enum Part {
    Bare(ClassId),
    With(ClassId, ClassId),
}

/// The places of a list, those of one part chained in their order.
#[derive(Drop)]
pub struct Chains {
    // For each part its first place.
    firsts: IndexMap<Part, usize>,
    // For each place the next one of its part, or the end of the list.
    nexts: Vec<usize>,
}

impl Chains {
    /// The first place of a part.
    fn first(&self, part: &Part) -> Option<usize>
        ensures { result ≡ lookup (same_part part.now) self.now.firsts.entries }
    {
        self.firsts.get(part).copied()
    }
}

/// Theorems in an order, to find the first one with a conclusion and with hypotheses among some.
#[derive(Drop)]
pub struct Candidates {
    theorems: Vec<ThmId>,
    chains: Chains,
}

impl Candidates {
    /// No theorems. It takes no memory.
    pub fn none(alloc: Global) -> Candidates
        ensures theorems { theorems_in result ≡ [] }
        ensures found { (k : State) → AreCandidates k result }
    {
        Candidates {
            theorems: Vec::new(alloc),
            chains: Chains {
                firsts: IndexMap::new(alloc),
                nexts: Vec::new(alloc),
            },
        }
    }
}

impl Kernel {
    /// Theorems as candidates.
    pub fn candidates(&self, alloc: Global, theorems: Vec<ThmId>) -> Result<Candidates, Memory>
        requires { All (λ i. i < length self.now.theorems) theorems.items }
        ensures theorems { IfOk result (λ c. theorems_in c ≡ theorems.items) }
        ensures found { IfOk result (AreCandidates self.now) }
    {
        let parts = self.parts_of(alloc, &theorems)?;
        let chains = chained(alloc, &parts)?;
        Ok(Candidates { theorems, chains })
    }

    /// A place among the candidates, or their end, before which none has this conclusion and hypotheses among these.
    ///
    /// Such a candidate has no hypotheses, or it is found by one of these.
    pub fn first_within(&self, candidates: &Candidates, hyps: &[TermId], concl: TermId) -> usize
        requires candidates { AreCandidates self.now candidates.now }
        requires hyps { All (λ i. i < length self.now.terms) hyps.now }
        requires concl { concl < length self.now.terms }
        ensures within { result ≤ length (theorems_in candidates.now) }
        ensures none { All (λ q. is_stronger q (sequent_at self.now hyps.now concl) ≡ false)
            (take result (map (theorem_at self.now) (theorems_in candidates.now))) }
    {
        let class = self.terms.class(concl);
        let bare = Part::Bare(class);
        let mut best = self.first_of(candidates, bare, candidates.theorems.len(), hyps, concl);
        for h in hyps {
            let part = Part::With(class, self.terms.class(*h));
            best = self.first_of(candidates, part, best, hyps, concl);
        }
        best
    }

    /// A place, or the end, before which no candidate of a part has this conclusion and hypotheses among these.
    fn first_of(
        &self,
        candidates: &Candidates,
        part: Part,
        end: usize,
        hyps: &[TermId],
        concl: TermId,
    ) -> usize
        requires candidates { AreCandidates self.now candidates.now }
        requires end { end ≤ length (theorems_in candidates.now) }
        requires hyps { All (λ i. i < length self.now.terms) hyps.now }
        requires concl { concl < length self.now.terms }
        ensures within { result ≤ end }
        ensures none { (c : AreCandidates self.now candidates.now) (j i : ℕ) → j < result
            → slice_get c.parts j ≡ Some part → slice_get (theorems_in candidates.now) j ≡ Some i
            → is_stronger (theorem_at self.now i) (sequent_at self.now hyps.now concl) ≡ false }
    {
        let mut place = candidates.chains.first(&part).unwrap_or(end);
        while place < end {
            if self.is_within(candidates.theorems[place], hyps, concl) {
                return place;
            }
            place = candidates.chains.nexts[place];
        }
        end
    }

    /// The parts of theorems.
    fn parts_of(&self, alloc: Global, theorems: &[ThmId]) -> Result<Vec<Part>, Memory>
        requires { All (λ i. i < length self.now.theorems) theorems.now }
        ensures { IfOk result (λ parts. HaveParts self.now theorems.now parts.items) }
    {
        let mut parts = Vec::new(alloc);
        for th in theorems {
            parts.push(self.part_of(*th))?;
        }
        Ok(parts)
    }

    /// The part of a theorem, by the last of its hypotheses.
    fn part_of(&self, th: ThmId) -> Part
        requires { th < length self.now.theorems }
        ensures { HasPart self.now (theorem_at self.now th) result }
    {
        let concl = self.terms.class(self.concl(th));
        match self.hyps(th).last() {
            Some(h) => Part::With(concl, self.terms.class(*h)),
            None => Part::Bare(concl),
        }
    }
}

/// The chains of a list's parts, made from its end on.
fn chained(alloc: Global, parts: &[Part]) -> Result<Chains, Memory>
    ensures { IfOk result (AreChained parts.now) }
{
    let mut firsts = IndexMap::new(alloc);
    let mut nexts = vec![in alloc; parts.len(); parts.len()]?;
    for place in (0..parts.len()).rev() {
        let next = firsts.insert(parts[place], place)?;
        nexts[place] = next.unwrap_or(parts.len());
    }
    Ok(Chains { firsts, nexts })
}
