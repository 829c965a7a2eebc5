//! The free variables of a class, and the types at which those of one name are free.
ghost use Rattle.std.specs.Prelude.{◌≡◌, ◌↔◌, ℕ, nat_eq, [], map, IfOk, Decides};
ghost use Rattle.std.specs.List.{filter};
ghost use Rattle.ot_logic.specs.Lists.{IsMember, AreDistinct};
ghost use Rattle.ot_lists.specs.Variables.{variable_by, variable_of};

use crate::id::ClassId;
use crate::table::Classes;
use ot_lists::Key;
use ot_logic::{Memory, NameId};
use ot_type::TypeId;
use std::alloc::Global;

impl Classes {
    ghost use Rattle.ot_class.specs.Class.{class_at, IsNumber};

    /// The free variables of a class, each once.
    pub fn free_vars(&self, id: ClassId) -> Result<Vec<Key>, Memory>
        requires { IsNumber self.now id }
        ensures free { IfOk result (λ vars. (v : Key) → IsMember v vars.items
            ↔ IsMember (variable_of v) (class_at self.now id).frees) }
        ensures once { IfOk result (λ vars. AreDistinct vars.items) }
    {
        let list = id.list();
        // No variable stands in a list twice.
        let _count = self.lists.len(list);
        self.lists.members(list)
    }

    /// The types at which variables of a name are free in a class, each once.
    pub fn types_of(&self, alloc: Global, name: NameId, id: ClassId) -> Result<Vec<TypeId>, Memory>
        requires { IsNumber self.now id }
        ensures free { IfOk result (λ types. (t : ℕ) → IsMember t types.items
            ↔ IsMember (variable_by name t) (class_at self.now id).frees) }
        ensures once { IfOk result (λ types. AreDistinct types.items) }
    {
        let keys = self.free_vars(id)?;
        types_named(alloc, name, keys.as_slice())
    }

    /// Whether no variable is free in a class.
    pub fn is_closed(&self, id: ClassId) -> bool
        requires { IsNumber self.now id }
        ensures { Decides result ((class_at self.now id).frees ≡ []) }
    {
        self.lists.len(id.list()) == 0
    }
}

/// The types of those variables that have a name.
fn types_named(alloc: Global, name: NameId, keys: &[Key]) -> Result<Vec<TypeId>, Memory>
    ensures { IfOk result
        (λ types. types.items ≡ map (λ k. k.ty) (filter (λ k. nat_eq k.name name) keys.now)) }
{
    Ok(
        keys.iter()
            .filter(|key| key.name == name)
            .map(|key| key.ty)
            .collect(alloc)?,
    )
}
