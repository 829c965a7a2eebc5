//! One sequence and what another one adds.
ghost use Rattle.std.specs.Prelude.{◌≡◌, ◌<◌, [], ◌++◌, Some, None, map, replicate, slice_get, length, IfOk};
ghost use Rattle.ot_logic.specs.Lists.{AreDistinct};
ghost use Rattle.ot_logic.specs.Table.{Extends, IsInjective};
ghost use Rattle.ot_lists.specs.Maps.{map_at};
ghost use Rattle.ot_lists.specs.Places.{place_in};

use crate::joining::Joined;
use crate::map::Maps;
use crate::sequence::pieces::Piece;
use crate::sequence::{ListId, Sequences};
use ot_logic::Memory;

impl Sequences {
    ghost use Rattle.ot_lists.specs.SequenceTable.{sequence_at, IsUnder, Grows, IsSequenceTable};
    ghost use Rattle.ot_lists.specs.Pieces.{joined_in, whole, added, holes, ArePieces, IsKnown};

    /// Joins the sequence of a function with that of its argument.
    pub(crate) fn join(&mut self, maps: &mut Maps, f: ListId, x: ListId) -> Result<Joined, Memory>
        requires f { f < length self.old.lists }
        requires x { x < length self.old.lists }
        requires once { IsInjective maps.old }
        ensures list { IfOk result (λ j. slice_get self.new.lists j.list
            ≡ Some (joined_in (sequence_at self.old f) (sequence_at self.old x))) }
        ensures places { IfOk result (λ j. slice_get maps.new j.map
            ≡ Some (map (place_in (sequence_at self.old f)) (sequence_at self.old x))) }
        ensures grows { Grows self.old self.new }
        ensures table { IsSequenceTable self.new }
        ensures maps_extend { Extends maps.old maps.new }
        ensures maps_stay_once { IsInjective maps.new }
    {
        let count = self.len(x);
        let none = maps.empty()?;
        if count == 0 {
            return Ok(Joined { map: none, list: f });
        }
        if f == x {
            let map = maps.push_same(none, 0, count)?;
            return Ok(Joined { map, list: f });
        }
        if self.len(f) == 0 {
            let map = maps.push_new(none, count)?;
            return Ok(Joined { map, list: x });
        }
        let pieces = self.pieces(f, x)?;
        let none = Joined { map: none, list: f };
        self.join_pieces(maps, none, pieces.as_slice())
    }

    /// Joins the pieces of the argument's sequence.
    fn join_pieces(
        &mut self,
        maps: &mut Maps,
        none: Joined,
        pieces: &[Piece],
    ) -> Result<Joined, Memory>
        requires list { none.list < length self.old.lists }
        requires empty { slice_get maps.old none.map ≡ Some [] }
        requires pieces { ArePieces self.old (sequence_at self.old none.list) pieces.now }
        requires distinct { AreDistinct (whole self.old (sequence_at self.old none.list) pieces.now) }
        requires under { IsUnder (length self.old.keys)
            (whole self.old (sequence_at self.old none.list) pieces.now) }
        requires table { IsSequenceTable self.old }
        requires once { IsInjective maps.old }
        ensures list { IfOk result (λ j. slice_get self.new.lists j.list
            ≡ Some (joined_in (sequence_at self.old none.list)
            (whole self.old (sequence_at self.old none.list) pieces.now))) }
        ensures places { IfOk result (λ j. slice_get maps.new j.map
            ≡ Some (map (place_in (sequence_at self.old none.list))
            (whole self.old (sequence_at self.old none.list) pieces.now))) }
        ensures grows { Grows self.old self.new }
        ensures table { IsSequenceTable self.new }
        ensures maps_extend { Extends maps.old maps.new }
        ensures maps_stay_once { IsInjective maps.new }
    {
        let mut joined = none;
        for piece in pieces {
            joined = self.join_piece(maps, joined, *piece)?;
        }
        Ok(joined)
    }

    /// Joins a piece of the argument's sequence.
    fn join_piece(
        &mut self,
        maps: &mut Maps,
        joined: Joined,
        piece: Piece,
    ) -> Result<Joined, Memory>
        requires list { joined.list < length self.old.lists }
        requires front { joined.map < length maps.old }
        requires piece { IsKnown self.old piece }
        requires distinct { AreDistinct (sequence_at self.old joined.list ++ added self.old piece) }
        requires table { IsSequenceTable self.old }
        requires once { IsInjective maps.old }
        ensures list { IfOk result (λ j. slice_get self.new.lists j.list
            ≡ Some (sequence_at self.old joined.list ++ added self.old piece)) }
        ensures places { IfOk result (λ j. slice_get maps.new j.map
            ≡ Some (map_at maps.old joined.map ++ holes self.old piece)) }
        ensures grows { Grows self.old self.new }
        ensures table { IsSequenceTable self.new }
        ensures maps_extend { Extends maps.old maps.new }
        ensures maps_stay_once { IsInjective maps.new }
    {
        match piece {
            Piece::Same(start, count) => {
                let map = maps.push_same(joined.map, start, count)?;
                Ok(Joined {
                    map,
                    list: joined.list,
                })
            }
            Piece::NewTree(tree) => self.join_new(maps, joined, tree),
            Piece::NewOne(x) => {
                let tree = self.single(x)?;
                self.join_new(maps, joined, tree)
            }
        }
    }

    /// Joins a part of the argument's sequence that the function lacks.
    fn join_new(&mut self, maps: &mut Maps, joined: Joined, tree: ListId) -> Result<Joined, Memory>
        requires list { joined.list < length self.old.lists }
        requires front { joined.map < length maps.old }
        requires tree { tree < length self.old.lists }
        requires distinct { AreDistinct (sequence_at self.old joined.list ++ sequence_at self.old tree) }
        requires once { IsInjective maps.old }
        ensures list { IfOk result (λ j. slice_get self.new.lists j.list
            ≡ Some (sequence_at self.old joined.list ++ sequence_at self.old tree)) }
        ensures places { IfOk result (λ j. slice_get maps.new j.map
            ≡ Some (map_at maps.old joined.map ++ replicate (length (sequence_at self.old tree)) None)) }
        ensures grows { Grows self.old self.new }
        ensures table { IsSequenceTable self.new }
        ensures maps_extend { Extends maps.old maps.new }
        ensures maps_stay_once { IsInjective maps.new }
    {
        let count = self.len(tree);
        let list = self.append(joined.list, tree)?;
        let map = maps.push_new(joined.map, count)?;
        Ok(Joined { map, list })
    }
}
