//! A sequence, from its end to its front.
ghost use Rattle.std.specs.Prelude.{◌≡◌, ◌<◌, ◌≤◌, ◌+◌, ◌*◌, ◌⊎◌, ℕ, true, List, [], ◌∷◌, ◌++◌, map, reverse, length};
ghost use Rattle.std.specs.Prelude.{IfOk, OnOk};
ghost use Rattle.ot_lists.specs.Places.{place_in};

use crate::list::Key;
use crate::sequence::{Extent, ListId, SequenceNode, Sequences};
use ot_logic::Memory;

/// A part of a sequence that is still to be walked.
#[derive(Clone, Copy)]
pub(crate) enum Part {
    Tree(ListId),
    One(u32),
}

impl Sequences {
    ghost use Rattle.ot_lists.specs.SequenceTable.{sequence_at, IsSequenceTable};
    ghost use Rattle.ot_lists.specs.Variables.{variable_of};
    ghost use Rattle.ot_lists.specs.Lists.{variable_at};
    ghost use Rattle.ot_lists.specs.Parts.{spread, steps, ArePartsOf, AreLeft};

    /// The variables of a sequence, the last one first.
    pub(crate) fn members(&self, id: ListId) -> Result<Vec<Key>, Memory>
        requires { id < length self.now.lists }
        ensures { IfOk result (λ keys. map variable_of (reverse keys.items)
            ≡ map (variable_at self.now.keys) (sequence_at self.now id)) }
    {
        let _count = self.len(id);
        let alloc = self.allocator();
        let mut members = Vec::new(alloc);
        let mut parts = Vec::new(alloc);
        parts.push(Part::Tree(id))?;
        while let Some(part) = parts.pop() {
            match part {
                Part::Tree(tree) => {
                    self.open(tree, &mut parts)?;
                }
                Part::One(x) => {
                    members.push(self.key(x))?;
                }
            }
        }
        Ok(members)
    }

    /// The place of a number in a sequence, where it stands there. Parts whose bounds are apart from it are passed over.
    pub(crate) fn place_of(&self, id: ListId, x: u32) -> Result<Option<u32>, Memory>
        requires { id < length self.now.lists }
        ensures place { IfOk result (λ o. o ≡ place_in (sequence_at self.now id) x) }
        ensures table { IsSequenceTable self.now }
    {
        let mut end = self.len(id);
        let mut parts = Vec::new(self.allocator());
        parts.push(Part::Tree(id))?;
        while let Some(part) = parts.pop() {
            match part {
                Part::Tree(tree) => end = self.pass(tree, x, end, &mut parts)?,
                Part::One(y) => {
                    end -= 1;
                    if x == y {
                        return Ok(Some(end));
                    }
                }
            }
        }
        Ok(None)
    }

    /// Passes over a part that cannot have a number, and opens another one. What is left of the end is returned.
    fn pass(&self, tree: ListId, x: u32, end: u32, parts: &mut Vec<Part>) -> Result<u32, Memory>
        requires tree { tree < length self.now.lists }
        requires parts { ArePartsOf self.now parts.old.items }
        requires end { length (sequence_at self.now tree) ≤ end }
        ensures left { (l : List ℕ) → AreLeft self.now x l (parts.old.items ++ Part.Tree tree ∷ []) end
            → IfOk result (AreLeft self.now x l parts.new.items) }
        ensures steps { OnOk result (steps self.now parts.new.items
            < steps self.now parts.old.items + (3 * length (sequence_at self.now tree) + 1)) }
        ensures parts { OnOk result (ArePartsOf self.now parts.new.items) }
    {
        let extent = self.extent(tree);
        if is_outside(extent, x) {
            return Ok(end - extent.count);
        }
        self.open(tree, parts)?;
        Ok(end)
    }

    /// Puts the parts of a tree in the place of the tree.
    fn open(&self, tree: ListId, parts: &mut Vec<Part>) -> Result<(), Memory>
        requires tree { tree < length self.now.lists }
        requires parts { ArePartsOf self.now parts.old.items }
        ensures spread { OnOk result (spread self.now parts.new.items
            ≡ spread self.now parts.old.items ++ sequence_at self.now tree) }
        ensures steps { OnOk result (steps self.now parts.new.items
            < steps self.now parts.old.items + (3 * length (sequence_at self.now tree) + 1)) }
        ensures parts { OnOk result (ArePartsOf self.now parts.new.items) }
    {
        if let SequenceNode::Cut(before, x, behind) = *self.node(tree) {
            parts.push(Part::Tree(before))?;
            parts.push(Part::One(x))?;
            parts.push(Part::Tree(behind))?;
        }
        Ok(())
    }
}

/// Whether a number is out of the bounds of a sequence.
fn is_outside(extent: Extent, x: u32) -> bool
    ensures { result ≡ true → (x < extent.low) ⊎ (extent.high < x) }
{
    if x < extent.low {
        return true;
    }
    if extent.high < x {
        return true;
    }
    false
}
