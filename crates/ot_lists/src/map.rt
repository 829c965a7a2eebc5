//! Which holes of a function and its argument are one variable, by number.
ghost use Rattle.std.specs.Prelude.{◌≡◌, ◌<◌, ◌+◌, [], ◌++◌, Some, None, map, replicate, slice_get, length, IfOk};
ghost use Rattle.std.specs.List.{range_with_len};
ghost use Rattle.ot_logic.specs.Table.{Extends, IsInjective};
ghost use Rattle.ot_lists.specs.NodeHash.{map_writes, map_writes-alike};

use indexmap::IndexMap;
use ot_logic::Memory;
use std::alloc::Global;
use std::hash::{Hash, Hasher};
use std::marker::Model;

/// The number of a map from the holes of an argument to those of the function.
#[derive(Clone, Copy, PartialEq, Eq, Hash)]
pub struct MapId(u32);

impl Model for MapId {
    ghost use Rattle.std.specs.Prelude.{ℕ};

    ghost Value = { ℕ };

    ghost view = { λ n. n.0 };

    ghost inverse = { λ n. record { 0 = n } };
}

/// The map of no holes, or a map and a run of holes at its end. A run is as long as it can be: each map has one form.
#[derive(Clone, Copy, PartialEq, Eq)]
enum MapNode {
    Empty,
    // So many holes that the function lacks.
    New(MapId, u32),
    // The function's holes from this one on, so many.
    Same(MapId, u32, u32),
}

// A node is one write: a table hashes it at each call.
impl Hash for MapNode {
    ghost hash_input = { map_writes };

    ghost respects_eq = { map_writes-alike };

    fn hash<H: Hasher>(&self, state: &mut H) {
        match *self {
            MapNode::Empty => state.write_u8(0),
            MapNode::New(front, count) => state.write_u64(
                front.0 as u64 + count as u64 * (1 << 32),
            ),
            MapNode::Same(front, start, count) => {
                let ends = start as u64 + count as u64 * (1 << 32);
                state.write_u128(front.0 as u128 + ends as u128 * (1 << 32));
            }
        }
    }
}

/// Maps, each with a number that it keeps.
#[derive(Drop)]
pub struct Maps {
    nodes: IndexMap<MapNode, ()>,
}

impl Model for Maps {
    ghost use Rattle.std.specs.Prelude.{ℕ, List, Option};
    ghost use Rattle.std.specs.Coded.{coded_list, coded_option, coded_ℕ};

    ghost Value = { List (List (Option ℕ)) };

    ghost coded = { coded_list (coded_list (coded_option coded_ℕ)) };

    ghost use Rattle.ot_lists.specs.Maps.{maps_of, AreMapNodes};

    ghost view = { λ t. maps_of t.nodes.entries };

    ghost invariant = { λ t. AreMapNodes t.nodes.entries (maps_of t.nodes.entries) };
}

impl Maps {
    ghost use Rattle.ot_lists.specs.Maps.{map_of, map_at, IsBelow, IsLongest};

    /// The table with no maps. It takes no memory.
    pub fn new(alloc: Global) -> Maps
        ensures { result ≡ [] }
    {
        Maps {
            nodes: IndexMap::new(alloc),
        }
    }

    /// The map of no holes.
    pub fn empty(&mut self) -> Result<MapId, Memory>
        ensures ok { IfOk result (λ id. slice_get self.new id ≡ Some []) }
        ensures extends { Extends self.old self.new }
        ensures once { IsInjective self.new }
    {
        // The first node of a table has no others to stand upon.
        if let Some((_, _)) = self.nodes.get_index(0) {
            return Ok(MapId(0));
        }
        self.intern(MapNode::Empty)
    }

    /// The map with so many holes more at its end, which the function lacks.
    pub fn push_new(&mut self, front: MapId, count: u32) -> Result<MapId, Memory>
        requires { front < length self.old }
        ensures ok { IfOk result (λ id. slice_get self.new id ≡ Some (map_at self.old front ++ replicate count None)) }
        ensures extends { Extends self.old self.new }
        ensures once { IsInjective self.new }
    {
        // The table is sound.
        let _last = self.node(front);
        if count == 0 {
            return Ok(front);
        }
        let node = self.with_new(front, count)?;
        self.intern(node)
    }

    /// The map with so many holes more at its end, which are the function's from a number on.
    pub fn push_same(&mut self, front: MapId, start: u32, count: u32) -> Result<MapId, Memory>
        requires { front < length self.old }
        ensures ok { IfOk result (λ id. slice_get self.new id
            ≡ Some (map_at self.old front ++ map Some (range_with_len start count))) }
        ensures extends { Extends self.old self.new }
        ensures once { IsInjective self.new }
    {
        // The table is sound.
        let _last = self.node(front);
        if count == 0 {
            return Ok(front);
        }
        let node = self.with_same(front, start, count)?;
        self.intern(node)
    }

    /// The node of a map with so many holes more, which the function lacks.
    fn with_new(&self, front: MapId, count: u32) -> Result<MapNode, Memory>
        requires front { front < length self.now }
        requires some { 0 < count }
        ensures is { IfOk result (λ n. map_of self.now n ≡ map_at self.now front ++ replicate count None) }
        ensures below { IfOk result (IsBelow (length self.now)) }
        ensures longest { IfOk result (IsLongest self.now) }
    {
        let MapNode::New(longer, before) = *self.node(front) else {
            return Ok(MapNode::New(front, count));
        };
        let count = sum(before, count)?;
        Ok(MapNode::New(longer, count))
    }

    /// The node of a map with so many holes more, the function's from a number on.
    fn with_same(&self, front: MapId, start: u32, count: u32) -> Result<MapNode, Memory>
        requires front { front < length self.now }
        requires some { 0 < count }
        ensures is { IfOk result
            (λ n. map_of self.now n ≡ map_at self.now front ++ map Some (range_with_len start count)) }
        ensures below { IfOk result (IsBelow (length self.now)) }
        ensures longest { IfOk result (IsLongest self.now) }
    {
        let MapNode::Same(longer, first, before) = *self.node(front) else {
            return Ok(MapNode::Same(front, start, count));
        };
        let goes_on = first as usize + before as usize == start as usize;
        if !goes_on {
            return Ok(MapNode::Same(front, start, count));
        }
        let count = sum(before, count)?;
        Ok(MapNode::Same(longer, first, count))
    }

    /// The node of a number.
    fn node(&self, id: MapId) -> &MapNode
        requires { id < length self.now }
        ensures is { map_at self.now id ≡ map_of self.now result.now }
        ensures below { IsBelow (length self.now) result.now }
        ensures longest { IsLongest self.now result.now }
        ensures once { IsInjective self.now }
    {
        match self.nodes.get_index(id.0 as usize) {
            Some((node, _)) => node,
            None => unreachable!(),
        }
    }

    /// The number of a node, which is added where it is new.
    fn intern(&mut self, node: MapNode) -> Result<MapId, Memory>
        requires below { IsBelow (length self.old) node }
        requires longest { IsLongest self.old node }
        ensures ok { IfOk result (λ id. slice_get self.new id ≡ Some (map_of self.old node)) }
        ensures extends { Extends self.old self.new }
        ensures once { IsInjective self.new }
    {
        Memory::unless_full(self.nodes.len())?;
        let (index, _) = self.nodes.insert_full(node, ())?;
        Ok(MapId(index as u32))
    }
}

/// How many two runs are together.
fn sum(before: u32, count: u32) -> Result<u32, Memory>
    ensures { IfOk result (λ n. n ≡ before + count) }
{
    let count = before as usize + count as usize;
    Memory::unless_full(count)?;
    Ok(count as u32)
}
