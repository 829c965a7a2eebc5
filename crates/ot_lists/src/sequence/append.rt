//! One sequence behind another.
ghost use Rattle.std.specs.Prelude.{◌≡◌, ◌<◌, [], ◌++◌, Some, slice_get, length, IfOk};
ghost use Rattle.ot_logic.specs.Lists.{AreDistinct};
ghost use Rattle.ot_lists.specs.Ranks.{IsTop};

use crate::sequence::{ListId, SequenceNode, Sequences, is_higher};
use ot_logic::Memory;

/// A sequence with a gap: what stands before a number, the number, and the gap; or the gap, a number, and what stands
/// behind it.
#[derive(Clone, Copy)]
pub(crate) enum Frame {
    Behind(ListId, u32),
    Before(u32, ListId),
}

impl Sequences {
    ghost use Rattle.ot_lists.specs.SequenceTable.{sequence_at, Grows, IsSequenceTable};
    ghost use Rattle.ot_lists.specs.Frames.{top_of, side_of, filled, nested, AreTops};

    /// One sequence and another behind it, with which it shares no number.
    pub(crate) fn append(&mut self, before: ListId, behind: ListId) -> Result<ListId, Memory>
        requires before { before < length self.old.lists }
        requires behind { behind < length self.old.lists }
        requires distinct { AreDistinct (sequence_at self.old before ++ sequence_at self.old behind) }
        ensures ok { IfOk result (λ id. slice_get self.new.lists id
            ≡ Some (sequence_at self.old before ++ sequence_at self.old behind)) }
        ensures grows { Grows self.old self.new }
        ensures table { IsSequenceTable self.new }
    {
        let mut frames = Vec::new(self.allocator());
        let middle = self.seam(before, behind, &mut frames)?;
        self.fill(frames, middle)
    }

    /// The frames about the place where two sequences meet, the outermost first, and what fills them.
    fn seam(
        &self,
        before: ListId,
        behind: ListId,
        frames: &mut Vec<Frame>,
    ) -> Result<ListId, Memory>
        requires before { before < length self.now.lists }
        requires behind { behind < length self.now.lists }
        requires distinct { AreDistinct (sequence_at self.now before ++ sequence_at self.now behind) }
        requires none { frames.old.items ≡ [] }
        ensures below { IfOk result (λ id. id < length self.now.lists) }
        ensures whole { IfOk result (λ id. nested self.now frames.new.items (sequence_at self.now id)
            ≡ sequence_at self.now before ++ sequence_at self.now behind) }
        ensures tops { IfOk result (λ id. AreTops self.now frames.new.items (sequence_at self.now id)) }
        ensures table { IsSequenceTable self.now }
    {
        let _count = self.len(before);
        let mut left = before;
        let mut right = behind;
        'seam: loop {
            let SequenceNode::Cut(first, x, inner) = *self.node(left) else {
                return Ok(right);
            };
            let SequenceNode::Cut(centre, y, last) = *self.node(right) else {
                return Ok(left);
            };
            if is_higher(x, y) {
                frames.push(Frame::Behind(first, x))?;
                left = inner;
                continue;
            }
            frames.push(Frame::Before(y, last))?;
            right = centre;
        }
    }

    /// The sequence of frames, the outermost first, and what fills them.
    pub(crate) fn fill(&mut self, mut frames: Vec<Frame>, middle: ListId) -> Result<ListId, Memory>
        requires middle { middle < length self.old.lists }
        requires tops { AreTops self.old frames.items (sequence_at self.old middle) }
        requires distinct { AreDistinct (nested self.old frames.items (sequence_at self.old middle)) }
        requires table { IsSequenceTable self.old }
        ensures ok { IfOk result (λ id. slice_get self.new.lists id
            ≡ Some (nested self.old frames.items (sequence_at self.old middle))) }
        ensures grows { Grows self.old self.new }
        ensures table { IsSequenceTable self.new }
    {
        let mut list = middle;
        while let Some(frame) = frames.pop() {
            list = self.fill_one(frame, list)?;
        }
        Ok(list)
    }

    /// The sequence of one frame and what fills it.
    fn fill_one(&mut self, frame: Frame, list: ListId) -> Result<ListId, Memory>
        requires list { list < length self.old.lists }
        requires side { side_of frame < length self.old.lists }
        requires key { top_of frame < length self.old.keys }
        requires top { IsTop (top_of frame) (filled self.old frame (sequence_at self.old list)) }
        requires distinct { AreDistinct (filled self.old frame (sequence_at self.old list)) }
        ensures ok { IfOk result (λ id. slice_get self.new.lists id
            ≡ Some (filled self.old frame (sequence_at self.old list))) }
        ensures grows { Grows self.old self.new }
        ensures table { IsSequenceTable self.new }
    {
        match frame {
            Frame::Behind(before, x) => self.cut(before, x, list),
            Frame::Before(x, behind) => self.cut(list, x, behind),
        }
    }
}
