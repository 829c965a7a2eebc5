//! A sequence without one of its numbers.
ghost use Rattle.std.specs.Prelude.{◌≡◌, ◌<◌, [], ◌++◌, Some, remove, slice_get, length, IfOk};
ghost use Rattle.ot_logic.specs.Lists.{AreDistinct};

use crate::sequence::append::Frame;
use crate::sequence::{ListId, SequenceNode, Sequences};
use ot_logic::Memory;

/// The two sides of a gap.
#[derive(Clone, Copy)]
pub(crate) struct Sides {
    before: ListId,
    behind: ListId,
}

impl Sequences {
    ghost use Rattle.ot_lists.specs.SequenceTable.{sequence_at, Grows, IsSequenceTable};
    ghost use Rattle.ot_lists.specs.Frames.{nested, AreTops};

    /// A sequence without the number at a place.
    pub(crate) fn without(&mut self, id: ListId, place: u32) -> Result<ListId, Memory>
        requires id { id < length self.old.lists }
        requires place { place < length (sequence_at self.old id) }
        ensures ok { IfOk result (λ r. slice_get self.new.lists r ≡ Some (remove (sequence_at self.old id) place)) }
        ensures grows { Grows self.old self.new }
        ensures table { IsSequenceTable self.new }
    {
        let mut frames = Vec::new(self.allocator());
        let sides = self.gap(id, place, &mut frames)?;
        let middle = self.append(sides.before, sides.behind)?;
        self.fill(frames, middle)
    }

    /// The frames about a place of a sequence, the outermost first, and what stands within them on both sides of it.
    fn gap(&self, id: ListId, place: u32, frames: &mut Vec<Frame>) -> Result<Sides, Memory>
        requires id { id < length self.now.lists }
        requires place { place < length (sequence_at self.now id) }
        requires none { frames.old.items ≡ [] }
        ensures before { IfOk result (λ s. s.before < length self.now.lists) }
        ensures behind { IfOk result (λ s. s.behind < length self.now.lists) }
        ensures whole { IfOk result (λ s. nested self.now frames.new.items
            (sequence_at self.now s.before ++ sequence_at self.now s.behind)
            ≡ remove (sequence_at self.now id) place) }
        ensures tops { IfOk result (λ s. AreTops self.now frames.new.items
            (sequence_at self.now s.before ++ sequence_at self.now s.behind)) }
        ensures distinct { IfOk result
            (λ s. AreDistinct (sequence_at self.now s.before ++ sequence_at self.now s.behind)) }
        ensures table { IsSequenceTable self.now }
    {
        let _count = self.len(id);
        let mut rest = id;
        let mut at = place;
        'gap: loop {
            let SequenceNode::Cut(before, x, behind) = *self.node(rest) else {
                unreachable!();
            };
            let left = self.len(before);
            if at == left {
                return Ok(Sides { before, behind });
            }
            if at < left {
                frames.push(Frame::Before(x, behind))?;
                rest = before;
                continue;
            }
            frames.push(Frame::Behind(before, x))?;
            rest = behind;
            at -= left + 1;
        }
    }
}
