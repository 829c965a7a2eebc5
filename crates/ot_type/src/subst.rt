ghost use Rattle.std.specs.Prelude.{◌≡◌, ◌↔◌, ◌<◌, ℕ, ◌++◌, ◌∷◌, [], IsTrue};
ghost use Rattle.std.specs.Prelude.{OnOk, OnErr, nat_eq, is_some, if◌then◌else◌};
ghost use Rattle.std.specs.Map.{lookup};
ghost use Rattle.std.specs.List.{All};

use crate::table::TypeId;
use indexmap::IndexMap;
use ot_logic::{Memory, NameId};
use std::alloc::Global;
use std::marker::Model;

/// The type part of a substitution: names, each with the type that takes the place of its variable.
#[derive(Drop)]
pub struct TypeSubst {
    pairs: IndexMap<NameId, TypeId>,
}

impl Model for TypeSubst {
    ghost use Rattle.std.specs.Prelude.{ℕ, List};

    ghost Value = { List (ℕ × ℕ) };

    ghost view = { λ s. s.pairs.entries };
}

impl TypeSubst {
    /// The substitution of no names.
    pub fn new(alloc: Global) -> TypeSubst
        ensures { result ≡ [] }
    {
        TypeSubst {
            pairs: IndexMap::new(alloc),
        }
    }

    /// Adds a name and its type at the end. A name that is there keeps its type; after running out of memory all is as before.
    pub fn add(&mut self, name: NameId, ty: TypeId) -> Result<(), Memory>
        ensures ok { OnOk result
            (self.new ≡ (if is_some (lookup (nat_eq name) self.old) then self.old else self.old ++ (name, ty) ∷ [])) }
        ensures err { OnErr result (self.new ≡ self.old) }
        // For the condition of `Types::inst`.
        ensures within { (n : ℕ) → ty < n → All (λ p. p.1 < n) self.old → All (λ p. p.1 < n) self.new }
    {
        if !self.pairs.contains_key(&name) {
            self.pairs.insert(name, ty)?;
        }
        Ok(())
    }

    /// Whether there are no names.
    pub fn is_empty(&self) -> bool
        ensures { IsTrue result ↔ (self.now ≡ []) }
    {
        self.pairs.is_empty()
    }

    /// The type of a name.
    pub(crate) fn get(&self, name: NameId) -> Option<TypeId>
        ensures { result ≡ lookup (nat_eq name) self.now }
    {
        self.pairs.get(&name).copied()
    }
}
