//! Lists of variables by number.
ghost use Rattle.std.specs.Prelude.{◌≡◌, ◌<◌, ◌≤◌, ℕ, true, [], ◌∷◌, ◌++◌, map, reverse, Some, slice_get, length};
ghost use Rattle.std.specs.Prelude.{IfOk};
ghost use Rattle.ot_logic.specs.Lists.{IsMember, AreDistinct};
ghost use Rattle.ot_logic.specs.Table.{Extends, IsInjective};
ghost use Rattle.ot_logic.specs.Trees.{Variable};
ghost use Rattle.ot_logic.specs.NamedTerms.{place};
ghost use Rattle.ot_logic.specs.Naming.{numbers};
ghost use Rattle.ot_shape.specs.Shape.{joined, without};

use crate::joining::Joined;
use crate::map::Maps;
use crate::sequence::{ListId, Sequences};
use ot_logic::{Memory, NameId};
use ot_type::TypeId;
use std::alloc::Global;
use std::marker::Model;

/// A variable, by the numbers of its name and its type.
#[derive(Clone, Copy, PartialEq, Eq, Hash)]
pub struct Key {
    pub name: NameId,
    pub ty: TypeId,
}

/// Lists of variables, each with a number that it keeps. No variable stands in one twice.
#[derive(Drop)]
pub struct Lists {
    table: Sequences,
}

impl Model for Lists {
    ghost use Rattle.std.specs.Prelude.{ℕ, List};
    ghost use Rattle.std.specs.Coded.{coded_list, coded_ℕ};
    ghost use Rattle.ot_logic.specs.Trees.{Variable};
    ghost use Rattle.ot_logic.specs.Codes.{coded_variable};

    ghost Value = { List (List (Variable ℕ)) };

    ghost coded = { coded_list (coded_list (coded_variable coded_ℕ)) };

    ghost use Rattle.ot_lists.specs.Lists.{lists_of};

    ghost view = { λ t. lists_of t.table };
}

impl Lists {
    ghost use Rattle.ot_lists.specs.Variables.{variable_of, list_at};

    /// The table with no lists. It takes no memory.
    pub fn new(alloc: Global) -> Lists
        ensures { result ≡ [] }
    {
        Lists {
            table: Sequences::new(alloc),
        }
    }

    /// The list without variables.
    pub fn empty(&mut self) -> Result<ListId, Memory>
        ensures ok { IfOk result (λ id. slice_get self.new id ≡ Some []) }
        ensures extends { Extends self.old self.new }
        ensures once { IsInjective self.new }
    {
        Ok(self.table.empty()?)
    }

    /// The list with one variable more at its end, which it lacks.
    pub fn push(&mut self, front: ListId, last: Key) -> Result<ListId, Memory>
        requires front { front < length self.old }
        requires new { ¬ (IsMember (variable_of last) (list_at self.old front)) }
        ensures ok { IfOk result
            (λ id. slice_get self.new id ≡ Some (list_at self.old front ++ variable_of last ∷ [])) }
        ensures extends { Extends self.old self.new }
        ensures once { IsInjective self.new }
    {
        // The table is sound.
        let _count = self.table.len(front);
        let number = self.table.number(last)?;
        let single = self.table.single(number)?;
        Ok(self.table.append(front, single)?)
    }

    /// How many variables a list has.
    pub fn len(&self, id: ListId) -> u32
        requires { id < length self.now }
        ensures count { result ≡ length (list_at self.now id) }
        ensures once { AreDistinct (list_at self.now id) }
        ensures injective { IsInjective self.now }
    {
        self.table.len(id)
    }

    /// The place of a variable in a list, where it stands there.
    pub fn place_of(&self, id: ListId, v: &Key) -> Result<Option<u32>, Memory>
        requires { id < length self.now }
        ensures place { IfOk result (λ o. o ≡ place numbers (list_at self.now id) (variable_of v.now)) }
        ensures injective { IsInjective self.now }
    {
        let number = self.table.number_of(v)?;
        match number {
            Some(number) => self.table.place_of(id, number),
            None => Ok(None),
        }
    }

    /// The variables of a list, the last one first.
    pub fn members(&self, id: ListId) -> Result<Vec<Key>, Memory>
        requires { id < length self.now }
        ensures { IfOk result (λ keys. map variable_of (reverse keys.items) ≡ list_at self.now id) }
    {
        self.table.members(id)
    }

    /// Joins the list of a function with that of its argument.
    pub(crate) fn join(&mut self, maps: &mut Maps, f: ListId, x: ListId) -> Result<Joined, Memory>
        requires f { f < length self.old }
        requires x { x < length self.old }
        requires once { IsInjective maps.old }
        ensures list { IfOk result (λ j. slice_get self.new j.list
            ≡ Some (joined numbers (list_at self.old f) (list_at self.old x))) }
        ensures places { IfOk result (λ j. slice_get maps.new j.map
            ≡ Some (map (place numbers (list_at self.old f)) (list_at self.old x))) }
        ensures extends { Extends self.old self.new }
        ensures stays_once { IsInjective self.new }
        ensures maps_extend { Extends maps.old maps.new }
        ensures maps_stay_once { IsInjective maps.new }
    {
        // The table is sound.
        let _count = self.table.len(f);
        let joined = self.table.join(maps, f, x)?;
        Ok(joined)
    }

    /// The list without a variable.
    pub fn without(&mut self, id: ListId, v: Key) -> Result<ListId, Memory>
        requires { id < length self.old }
        ensures ok { IfOk result
            (λ r. slice_get self.new r ≡ Some (without numbers (variable_of v) (list_at self.old id))) }
        ensures extends { Extends self.old self.new }
        ensures once { IsInjective self.new }
    {
        // The table is sound.
        let _count = self.table.len(id);
        let place = self.place_of(id, &v)?;
        match place {
            Some(place) => Ok(self.table.without(id, place)?),
            None => Ok(id),
        }
    }
}
