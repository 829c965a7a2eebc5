//! What terms have become.
ghost use Rattle.std.specs.Prelude.{◌≡◌, ◌++◌, ◌∷◌, [], None, IfOk, OnOk, nat_eq};
ghost use Rattle.std.specs.Map.{lookup};

use crate::placed::Placed;
use indexmap::IndexMap;
use ot_logic::Memory;
use ot_term::TermId;
use std::alloc::Global;
use std::marker::Model;

/// What terms have become by a substitution, each term once. Whoever substitutes often keeps one of these for all
/// calls.
#[derive(Drop)]
pub struct Results {
    found: Found,
}

/// A walk looks terms up by place. The body of a renamed binder has results of its own, which are hashed: they take no
/// more room than there are of them, however many binders are renamed inside each other.
#[derive(Drop)]
enum Found {
    Placed(Placed),
    Hashed(IndexMap<TermId, TermId>),
}

impl Model for Results {
    ghost use Rattle.std.specs.Prelude.{ℕ, List};
    ghost use Rattle.ot_subst.specs.Held.{pairs_in};

    ghost Value = { List (ℕ × ℕ) };

    ghost view = { λ r. pairs_in r.found };
}

impl Results {
    /// No results, for whoever keeps them from call to call: terms are looked up by place.
    pub fn new(alloc: Global) -> Results
        ensures { result ≡ [] }
    {
        Results {
            found: Found::Placed(Placed::new(alloc)),
        }
    }

    /// No results, for one call alone: terms are looked up by hash.
    pub fn hashed(alloc: Global) -> Results
        ensures { result ≡ [] }
    {
        Results {
            found: Found::Hashed(IndexMap::new(alloc)),
        }
    }

    /// Forgets all results.
    pub(crate) fn clear(&mut self)
        ensures { self.new ≡ [] }
    {
        match &mut self.found {
            Found::Placed(pairs) => pairs.clear(),
            Found::Hashed(pairs) => pairs.clear(),
        }
    }

    /// What a term has become.
    pub(crate) fn get(&self, id: TermId) -> Option<TermId>
        ensures { result ≡ lookup (nat_eq id) self.now }
    {
        match &self.found {
            Found::Placed(pairs) => pairs.get(id),
            Found::Hashed(pairs) => pairs.get(&id).copied(),
        }
    }

    /// Remembers what a term becomes, which was not remembered before.
    pub(crate) fn keep(&mut self, id: TermId, image: TermId) -> Result<TermId, Memory>
        requires { lookup (nat_eq id) self.old ≡ None }
        ensures { IfOk result (λ q. (q ≡ image) × (self.new ≡ self.old ++ (id, q) ∷ [])) }
    {
        match &mut self.found {
            Found::Placed(pairs) => pairs.push(id, image)?,
            Found::Hashed(pairs) => insert(pairs, id, image)?,
        }
        Ok(image)
    }
}

/// Adds the pair of a term that has none.
fn insert(pairs: &mut IndexMap<TermId, TermId>, id: TermId, image: TermId) -> Result<(), Memory>
    requires { lookup (nat_eq id) pairs.old.entries ≡ None }
    ensures { OnOk result (pairs.new.entries ≡ pairs.old.entries ++ (id, image) ∷ []) }
{
    pairs.insert(id, image)?;
    Ok(())
}
