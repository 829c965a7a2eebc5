//! How the lists of a function and its argument are joined.
ghost use Rattle.std.specs.Prelude.{◌≡◌, ◌<◌, Some, map, slice_get, length, IfOk};
ghost use Rattle.ot_logic.specs.Table.{Extends, IsInjective};
ghost use Rattle.ot_logic.specs.NamedTerms.{place};
ghost use Rattle.ot_logic.specs.Naming.{numbers};
ghost use Rattle.ot_shape.specs.Shape.{joined};
ghost use Rattle.ot_lists.specs.Variables.{list_at};

use crate::list::Lists;
use crate::map::{MapId, Maps};
use crate::sequence::ListId;
use ot_logic::Memory;

/// What comes of two lists: for each hole of the argument the hole of the function that is the same variable, and the
/// list of both.
#[derive(Clone, Copy)]
pub struct Joined {
    pub map: MapId,
    pub list: ListId,
}

/// Joins the list of a function with that of its argument.
pub fn join(lists: &mut Lists, maps: &mut Maps, f: ListId, x: ListId) -> Result<Joined, Memory>
    requires f { f < length lists.old }
    requires x { x < length lists.old }
    requires lists_once { IsInjective lists.old }
    requires maps_once { IsInjective maps.old }
    ensures list { IfOk result (λ j. slice_get lists.new j.list
        ≡ Some (joined numbers (list_at lists.old f) (list_at lists.old x))) }
    ensures places { IfOk result (λ j. slice_get maps.new j.map
        ≡ Some (map (place numbers (list_at lists.old f)) (list_at lists.old x))) }
    ensures lists_extend { Extends lists.old lists.new }
    ensures maps_extend { Extends maps.old maps.new }
    ensures lists_stay_once { IsInjective lists.new }
    ensures maps_stay_once { IsInjective maps.new }
{
    lists.join(maps, f, x)
}
