//! A sequence in pieces, as another one has them.
ghost use Rattle.std.specs.Prelude.{◌≡◌, ◌≢◌, ◌<◌, ◌+◌, ◌*◌, ◌^◌, ◌++◌, [], ◌∷◌, ℕ, List, IfOk, IfSome, OnOk, length};

use crate::sequence::walk::Part;
use crate::sequence::{ListId, SequenceNode, Sequences};
use ot_logic::Memory;

/// A piece of an argument's sequence.
#[derive(Clone, Copy)]
pub(crate) enum Piece {
    // A tree and a number that the function lacks.
    NewTree(ListId),
    NewOne(u32),
    // What the function has from a place on, so many numbers.
    Same(u32, u32),
}

impl Piece {
    ghost use Rattle.ot_lists.specs.SequenceTable.{SequenceTable};
    ghost use Rattle.ot_lists.specs.Pieces.{whole, piece_of, IsPiece, ArePieces};

    /// The function's place behind a piece that it has, or the one that is given.
    fn end(&self, next: u32) -> u32
        ensures new { ((k n : ℕ) → self.now ≢ Piece.Same k n) → result ≡ next }
        ensures same { (k n : ℕ) → self.now ≡ Piece.Same k n → k + n < 2 ^ 32 → result ≡ k + n }
    {
        match self {
            Piece::Same(start, count) => start.saturating_add(*count),
            _ => next,
        }
    }

    /// Two pieces as one, if the function has the second one behind the first one.
    fn joined_with(&self, piece: &Piece) -> Option<Piece>
        ensures is { IfSome result (λ p. (t : SequenceTable) (fs : List ℕ)
            → piece_of t fs p ≡ piece_of t fs self.now ++ piece_of t fs piece.now) }
        ensures piece { IfSome result (λ p. (t : SequenceTable) (fs : List ℕ)
            → IsPiece t fs piece.now → IsPiece t fs p) }
    {
        let Piece::Same(first, before) = *self else {
            return None;
        };
        let Piece::Same(start, count) = *piece else {
            return None;
        };
        if first as usize + before as usize != start as usize {
            return None;
        }
        let count = before.checked_add(count)?;
        Some(Piece::Same(first, count))
    }

    /// Puts a piece behind others, the last of which it lengthens where it goes on with that.
    fn put_behind(self, pieces: &mut Vec<Piece>) -> Result<(), Memory>
        ensures whole { OnOk result ((t : SequenceTable) (fs : List ℕ)
            → whole t fs pieces.new.items ≡ whole t fs pieces.old.items ++ piece_of t fs self) }
        ensures pieces { OnOk result ((t : SequenceTable) (fs : List ℕ)
            → ArePieces t fs pieces.old.items → IsPiece t fs self → ArePieces t fs pieces.new.items) }
    {
        let Some(last) = pieces.pop() else {
            return Ok(pieces.push(self)?);
        };
        if let Some(longer) = last.joined_with(&self) {
            return Ok(pieces.push(longer)?);
        }
        pieces.push(last)?;
        Ok(pieces.push(self)?)
    }
}

/// A part of a sequence that is cut at a number, with the place where it begins.
#[derive(Clone, Copy)]
struct Found {
    tree: ListId,
    begin: u32,
    number: u32,
}

impl Sequences {
    ghost use Rattle.ot_lists.specs.SequenceTable.{sequence_at, IsSequenceTable};
    ghost use Rattle.ot_lists.specs.Parts.{part_of, steps, steps_of, IsPartOf, ArePartsOf};
    ghost use Rattle.ot_lists.specs.Pieces.{ahead, whole, piece_of, found_of, IsPiece, ArePieces, IsPartAt};

    /// The pieces of an argument's sequence, the first one first. What follows on a piece that the function has mostly
    /// does so in the function, too: it is sought there first.
    pub(crate) fn pieces(&self, f: ListId, x: ListId) -> Result<Vec<Piece>, Memory>
        requires f { f < length self.now.lists }
        requires x { x < length self.now.lists }
        ensures whole { IfOk result
            (λ ps. whole self.now (sequence_at self.now f) ps.items ≡ sequence_at self.now x) }
        ensures pieces { IfOk result (λ ps. ArePieces self.now (sequence_at self.now f) ps.items) }
    {
        let mut pieces = Vec::new(self.allocator());
        let mut parts = Vec::new(self.allocator());
        let mut next = 0;
        parts.push(Part::Tree(x))?;
        while let Some(part) = parts.pop() {
            next = self.cut_part(f, part, next, &mut parts, &mut pieces)?;
        }
        Ok(pieces)
    }

    /// Cuts a part off what is ahead. The place where the next one is sought is returned.
    fn cut_part(
        &self,
        f: ListId,
        part: Part,
        next: u32,
        parts: &mut Vec<Part>,
        pieces: &mut Vec<Piece>,
    ) -> Result<u32, Memory>
        requires f { f < length self.now.lists }
        requires part { IsPartOf self.now part }
        requires parts { ArePartsOf self.now parts.old.items }
        requires pieces { ArePieces self.now (sequence_at self.now f) pieces.old.items }
        ensures whole { OnOk result
            (whole self.now (sequence_at self.now f) pieces.new.items ++ ahead self.now parts.new.items
            ≡ whole self.now (sequence_at self.now f) pieces.old.items
            ++ (part_of self.now part ++ ahead self.now parts.old.items)) }
        ensures pieces { OnOk result (ArePieces self.now (sequence_at self.now f) pieces.new.items) }
        ensures steps { OnOk result (steps self.now parts.new.items
            < steps self.now parts.old.items + steps_of self.now part) }
        ensures parts { OnOk result (ArePartsOf self.now parts.new.items) }
    {
        let piece = self.piece(f, part, next, parts)?;
        let Some(piece) = piece else {
            return Ok(next);
        };
        let next = piece.end(next);
        piece.put_behind(pieces)?;
        Ok(next)
    }

    /// The piece that a part is. A tree that is none is put back as its parts.
    fn piece(
        &self,
        f: ListId,
        part: Part,
        next: u32,
        parts: &mut Vec<Part>,
    ) -> Result<Option<Piece>, Memory>
        requires f { f < length self.now.lists }
        requires part { IsPartOf self.now part }
        requires parts { ArePartsOf self.now parts.old.items }
        ensures ahead { IfOk result (λ o. found_of self.now (sequence_at self.now f) o ++ ahead self.now parts.new.items
            ≡ part_of self.now part ++ ahead self.now parts.old.items) }
        ensures piece { IfOk result (λ o. IfSome o (IsPiece self.now (sequence_at self.now f))) }
        ensures steps { OnOk result (steps self.now parts.new.items
            < steps self.now parts.old.items + steps_of self.now part) }
        ensures parts { OnOk result (ArePartsOf self.now parts.new.items) }
    {
        match part {
            Part::One(y) => Ok(Some(self.piece_of_one(f, y, next)?)),
            Part::Tree(tree) => match self.piece_of_tree(f, tree, next) {
                Some(piece) => Ok(Some(piece)),
                None => {
                    self.put_back(tree, parts)?;
                    Ok(None)
                }
            },
        }
    }

    /// The piece that a number is.
    fn piece_of_one(&self, f: ListId, y: u32, next: u32) -> Result<Piece, Memory>
        requires { f < length self.now.lists }
        ensures is { IfOk result (λ p. piece_of self.now (sequence_at self.now f) p ≡ y ∷ []) }
        ensures piece { IfOk result (IsPiece self.now (sequence_at self.now f)) }
    {
        if let Some(found) = self.cut_at(f, next) {
            if found.number == y {
                return Ok(Piece::Same(next, 1));
            }
        }
        let place = self.place_of(f, y)?;
        match place {
            Some(place) => Ok(Piece::Same(place, 1)),
            None => Ok(Piece::NewOne(y)),
        }
    }

    /// The piece that a tree is, if the function lacks it, as far as the bounds tell, or has it at the next place. The
    /// empty tree is none.
    fn piece_of_tree(&self, f: ListId, tree: ListId, next: u32) -> Option<Piece>
        requires f { f < length self.now.lists }
        requires tree { tree < length self.now.lists }
        ensures is { IfSome result
            (λ p. piece_of self.now (sequence_at self.now f) p ≡ sequence_at self.now tree) }
        ensures piece { IfSome result (IsPiece self.now (sequence_at self.now f)) }
    {
        let SequenceNode::Cut(before, _, _) = *self.node(tree) else {
            return None;
        };
        if self.are_apart(f, tree) {
            return Some(Piece::NewTree(tree));
        }
        let place = next.saturating_add(self.len(before));
        let found = self.cut_at(f, place)?;
        if found.tree == tree {
            return Some(Piece::Same(found.begin, self.len(tree)));
        }
        None
    }

    /// Puts the parts of a tree in the place of the tree, so that the first is the next one.
    fn put_back(&self, tree: ListId, parts: &mut Vec<Part>) -> Result<(), Memory>
        requires tree { tree < length self.now.lists }
        requires parts { ArePartsOf self.now parts.old.items }
        ensures ahead { OnOk result (ahead self.now parts.new.items
            ≡ sequence_at self.now tree ++ ahead self.now parts.old.items) }
        ensures steps { OnOk result (steps self.now parts.new.items
            < steps self.now parts.old.items + (3 * length (sequence_at self.now tree) + 1)) }
        ensures parts { OnOk result (ArePartsOf self.now parts.new.items) }
    {
        if let SequenceNode::Cut(before, x, behind) = *self.node(tree) {
            parts.push(Part::Tree(behind))?;
            parts.push(Part::One(x))?;
            parts.push(Part::Tree(before))?;
        }
        Ok(())
    }

    /// The part of a sequence that is cut at a place.
    fn cut_at(&self, id: ListId, place: u32) -> Option<Found>
        requires { id < length self.now.lists }
        ensures tree { IfSome result (λ c. c.tree < length self.now.lists) }
        ensures part { IfSome result
            (λ c. IsPartAt (sequence_at self.now id) (sequence_at self.now c.tree) c.begin) }
        ensures number { IfSome result (λ c. IsPartAt (sequence_at self.now id) (c.number ∷ []) place) }
        ensures table { IsSequenceTable self.now }
    {
        let _count = self.len(id);
        let mut rest = id;
        let mut begin = 0;
        'cut: loop {
            let SequenceNode::Cut(before, number, behind) = *self.node(rest) else {
                return None;
            };
            let middle = begin + self.len(before);
            if place == middle {
                return Some(Found {
                    tree: rest,
                    begin,
                    number,
                });
            }
            if place < middle {
                rest = before;
                continue;
            }
            begin = middle + 1;
            rest = behind;
        }
    }
}
