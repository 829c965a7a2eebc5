//! Unions of sets.
ghost use Rattle.std.specs.Prelude.{◌≡◌, ◌<◌, Some, length, slice_get, IfOk, IfSome};
ghost use Rattle.ot_logic.specs.Table.{Extends};
ghost use Rattle.ot_sets.specs.Trees.{Both};

use crate::table::{Pair, SetId, SetNode, Sets};
use ot_logic::Memory;

impl Sets {
    ghost use Rattle.ot_sets.specs.Table.{tree_at, IsUnionAt};

    /// The set of the numbers of two sets.
    #[cycle(join)]
    pub fn join(&mut self, a: SetId, b: SetId) -> Result<SetId, Memory>
        requires a { a < length self.old }
        requires b { b < length self.old }
        ensures ok { IfOk result (IsUnionAt self.new a b) }
        ensures extends { Extends self.old self.new }
    {
        if a == b {
            return Ok(a);
        }
        let is_b_empty = self.is_empty(b);
        if is_b_empty {
            return Ok(a);
        }
        let is_a_empty = self.is_empty(a);
        if is_a_empty {
            return Ok(b);
        }
        self.join_full(a, b)
    }

    /// The same, of two sets that have numbers. It is looked for among the unions that were made.
    #[cycle(join)]
    fn join_full(&mut self, a: SetId, b: SetId) -> Result<SetId, Memory>
        requires a { a < length self.old }
        requires b { b < length self.old }
        ensures ok { IfOk result (IsUnionAt self.new a b) }
        ensures extends { Extends self.old self.new }
    {
        if let Some(union) = self.known(a, b) {
            return Ok(union);
        }
        let union = self.join_nodes(a, b)?;
        self.keep(a, b, union)?;
        Ok(union)
    }

    /// The same, half by half. Two sets that aren't both made of halves are the halves of the union.
    #[cycle(join)]
    fn join_nodes(&mut self, a: SetId, b: SetId) -> Result<SetId, Memory>
        requires a { a < length self.old }
        requires b { b < length self.old }
        ensures ok { IfOk result (IsUnionAt self.new a b) }
        ensures extends { Extends self.old self.new }
    {
        match self.node(a) {
            SetNode::Both(first, second) => self.join_halves(a, first, second, b),
            SetNode::Empty | SetNode::One(_) => self.both(a, b),
        }
    }

    /// The same, of a set with these halves and another one.
    #[cycle(join)]
    fn join_halves(
        &mut self,
        a: SetId,
        first: SetId,
        second: SetId,
        b: SetId,
    ) -> Result<SetId, Memory>
        requires a { slice_get self.old a ≡ Some (Both (tree_at self.old first) (tree_at self.old second)) }
        requires first { first < a }
        requires second { second < a }
        requires b { b < length self.old }
        ensures ok { IfOk result (IsUnionAt self.new a b) }
        ensures extends { Extends self.old self.new }
    {
        match self.node(b) {
            SetNode::Both(other_first, other_second) => {
                let firsts = self.join(first, other_first)?;
                let seconds = self.join(second, other_second)?;
                let union = self.both(firsts, seconds)?;
                Ok(union)
            }
            SetNode::Empty | SetNode::One(_) => self.both(a, b),
        }
    }

    /// The union of two sets that was made before, if it was.
    fn known(&self, a: SetId, b: SetId) -> Option<SetId>
        ensures { IfSome result (IsUnionAt self.now a b) }
    {
        match self.unions.get(&Pair { a, b }) {
            Some(union) => Some(*union),
            None => None,
        }
    }

    /// Keeps the union of two sets.
    fn keep(&mut self, a: SetId, b: SetId, union: SetId) -> Result<(), Memory>
        requires a { a < length self.old }
        requires b { b < length self.old }
        requires union { IsUnionAt self.old a b union }
        ensures { self.new ≡ self.old }
    {
        self.unions.insert(Pair { a, b }, union)?;
        Ok(())
    }
}
