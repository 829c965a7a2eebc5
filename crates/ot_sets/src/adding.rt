//! What a set has more than another.
ghost use Rattle.std.specs.Prelude.{◌<◌, ◌⊎◌, ℕ, length, OnOk};
ghost use Rattle.ot_sets.specs.Table.{Has};

use crate::table::{SetId, SetNode, Sets};
use ot_logic::Memory;

impl Sets {
    ghost use Rattle.ot_sets.specs.Unions.{HasAdded, Adds};

    /// Appends the numbers that the second set has and the first lacks, and maybe some that both have. It costs
    /// about a step for each part that isn't in both.
    #[cycle(adding)]
    pub fn push_added(&self, known: SetId, set: SetId, out: &mut Vec<usize>) -> Result<(), Memory>
        requires known { known < length self.now }
        requires set { set < length self.now }
        ensures { OnOk result (HasAdded self.now known set out.old.items out.new.items) }
    {
        if known == set {
            return Ok(());
        }
        match self.node(set) {
            SetNode::Empty => Ok(()),
            SetNode::One(number) => {
                out.push(number)?;
                Ok(())
            }
            SetNode::Both(first, second) => self.push_halves(known, first, second, out),
        }
    }

    /// The same, of the halves of the second set.
    #[cycle(adding)]
    fn push_halves(
        &self,
        known: SetId,
        first: SetId,
        second: SetId,
        out: &mut Vec<usize>,
    ) -> Result<(), Memory>
        requires known { known < length self.now }
        requires first { first < length self.now }
        requires second { second < length self.now }
        ensures { OnOk result (Adds (Has self.now known) (λ k. Has self.now first k ⊎ Has self.now second k)
            out.old.items out.new.items) }
    {
        match self.node(known) {
            SetNode::Both(known_first, known_second) => {
                self.push_added(known_first, first, out)?;
                self.push_added(known_second, second, out)?;
                Ok(())
            }
            SetNode::Empty | SetNode::One(_) => {
                self.push_added(known, first, out)?;
                self.push_added(known, second, out)?;
                Ok(())
            }
        }
    }
}
