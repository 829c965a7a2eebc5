//! Theorems of a list, found by their sequents.
ghost use Rattle.std.specs.Prelude.{◌≡◌, ◌<◌, ◌++◌, ◌∷◌, [], List, length, OnOk, OnErr};
ghost use Rattle.std.specs.List.{All};
ghost use Rattle.std.specs.Map.{lookup};
ghost use Rattle.ot_logic.specs.Names.{Name as NameValue};
ghost use Rattle.ot_logic.specs.Trees.{Sequent};
ghost use Rattle.ot_kernel.specs.Keys.{same_key};
ghost use Rattle.ot_kernel.specs.State.{State, sequent_at, theorem_at};
ghost use Rattle.ot_kernel.specs.Places.{IsPlaced};
ghost use Rattle.ot_kernel.specs.Alike.{AreFirstPlaces, IsFirstPlace};

use crate::kernel::Kernel;
use crate::key::{SequentKey, key_of};
use crate::theorem::ThmId;
use indexmap::IndexMap;
use ot_logic::Memory;
use ot_term::TermId;
use std::alloc::Global;
use std::marker::Model;

/// For the sequents of a list, the place of the first one that is the same up to the names of binders. Contracts say
/// that no sequent before it is.
#[derive(Drop)]
pub struct Places {
    firsts: IndexMap<SequentKey, usize>,
}

impl Model for Places {
    ghost use Rattle.std.specs.Prelude.{ℕ, List};
    ghost use Rattle.std.specs.Coded.{coded_list, coded×, coded_ℕ};
    ghost use Rattle.ot_kernel.specs.declared.key.SequentKey.{SequentKey};
    ghost use Rattle.ot_kernel.specs.Keys.{coded_key};

    ghost Value = { List (SequentKey × ℕ) };

    ghost coded = { coded_list (coded× coded_key coded_ℕ) };

    ghost view = { λ p. p.firsts.entries };
}

impl Places {
    /// Those of no sequents. It takes no memory.
    pub fn new(alloc: Global) -> Places
        ensures empty { result ≡ [] }
        ensures none { (k : State) → AreFirstPlaces k [] result }
    {
        Places {
            firsts: IndexMap::new(alloc),
        }
    }

    /// The place of a key.
    pub(crate) fn get(&self, key: &SequentKey) -> Option<usize>
        ensures { result ≡ lookup (same_key key.now) self.now }
    {
        self.firsts.get(key).copied()
    }

    /// Gives a key its place, where it has none.
    pub(crate) fn note(&mut self, key: SequentKey, place: usize) -> Result<(), Memory>
        ensures ok { OnOk result (IsPlaced key place self.old self.new) }
        ensures err { OnErr result (self.new ≡ self.old) }
    {
        if self.firsts.contains_key(&key) {
            return Ok(());
        }
        self.firsts.insert(key, place)?;
        Ok(())
    }
}

impl Kernel {
    /// A place in a list before which no sequent is this one up to the names of binders; none where no sequent of the
    /// list is.
    ///
    /// Its key takes memory: without that the answer is the first place.
    pub fn place_of(&self, places: &Places, hyps: &[TermId], concl: TermId) -> Option<usize>
        requires hyps { All (λ i. i < length self.now.terms) hyps.now }
        requires concl { concl < length self.now.terms }
        ensures { (qs : List (Sequent NameValue)) → AreFirstPlaces self.now qs places.now
            → IsFirstPlace qs (sequent_at self.now hyps.now concl) result }
    {
        match key_of(self.alloc, &self.terms, hyps, concl) {
            Ok(key) => places.get(&key),
            Err(_) => Some(0),
        }
    }

    /// Notes the theorem whose sequent comes next in a list, at its place. The list without it is found as before.
    pub fn note_theorem(&self, places: &mut Places, th: ThmId, place: usize) -> Result<(), Memory>
        requires { th < length self.now.theorems }
        ensures more { OnOk result ((qs : List (Sequent NameValue)) → length qs ≡ place → AreFirstPlaces self.now qs
            places.old → AreFirstPlaces self.now (qs ++ theorem_at self.now th ∷ []) places.new) }
        ensures still { OnOk result ((qs : List (Sequent NameValue)) → length qs ≡ place → AreFirstPlaces self.now qs
            places.old → AreFirstPlaces self.now qs places.new) }
        ensures err { OnErr result (places.new ≡ places.old) }
    {
        let key = key_of(self.alloc, &self.terms, self.hyps(th), self.concl(th))?;
        places.note(key, place)?;
        Ok(())
    }
}
