//! A map from terms to terms, by place.
ghost use Rattle.std.specs.Prelude.{◌≡◌, ◌<◌, ◌++◌, ◌∷◌, [], None, OnOk, length, nat_eq};
ghost use Rattle.std.specs.Map.{lookup};
ghost use Rattle.ot_logic.specs.Table.{Extends};

use ot_logic::Memory;
use ot_term::TermId;
use std::alloc::Global;
use std::marker::Model;

/// A map from terms to terms. A table holds the place of each term's pair, so that nothing is hashed, and all pairs
/// can be forgotten at once.
#[derive(Drop)]
pub(crate) struct Placed {
    pairs: Vec<(TermId, TermId)>,
    // By the numbers of terms; where a term has no pair any number may stand.
    places: Vec<u32>,
}

impl Model for Placed {
    ghost use Rattle.std.specs.Prelude.{ℕ, List};
    ghost use Rattle.ot_subst.specs.Places.{ArePlaced};

    ghost Value = { List (ℕ × ℕ) };

    ghost view = { λ p. p.pairs.items };

    ghost invariant = { λ p. ArePlaced p.places.items p.pairs.items };
}

impl Placed {
    pub(crate) fn new(alloc: Global) -> Placed
        ensures { result ≡ [] }
    {
        Placed {
            pairs: Vec::new(alloc),
            places: Vec::new(alloc),
        }
    }

    /// Forgets all pairs, and keeps the room that they took.
    pub(crate) fn clear(&mut self)
        ensures { self.new ≡ [] }
    {
        self.pairs.clear();
    }

    /// What stands for a term.
    pub(crate) fn get(&self, id: TermId) -> Option<TermId>
        ensures { result ≡ lookup (nat_eq id) self.now }
    {
        let index = id.index();
        if index >= self.places.len() {
            return None;
        }
        let place = self.places[index] as usize;
        if place >= self.pairs.len() {
            return None;
        }
        let (key, image) = self.pairs[place];
        if key == id { Some(image) } else { None }
    }

    /// Adds the pair of a term that has none.
    pub(crate) fn push(&mut self, id: TermId, image: TermId) -> Result<(), Memory>
        requires absent { lookup (nat_eq id) self.old ≡ None }
        ensures ok { OnOk result (self.new ≡ self.old ++ (id, image) ∷ []) }
    {
        let index = id.index();
        let place = self.pairs.len();
        Memory::unless_full(place)?;
        reach(&mut self.places, index)?;
        self.pairs.push((id, image))?;
        self.places[index] = place as u32;
        Ok(())
    }
}

/// Makes the table longer where the index is past its end. The places in it stay.
fn reach(places: &mut Vec<u32>, index: usize) -> Result<(), Memory>
    ensures within { OnOk result (index < length places.new.items) }
    ensures extends { Extends places.old.items places.new.items }
{
    if index >= places.len() {
        let len = Memory::next(index as u64)?;
        places.resize(len as usize, 0)?;
    }
    Ok(())
}
