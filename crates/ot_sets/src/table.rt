//! The table of sets.
ghost use Rattle.std.specs.Prelude.{◌≡◌, ◌<◌, [], ℕ, Some, true, slice_get, length, IfOk};
ghost use Rattle.ot_logic.specs.Table.{Extends};
ghost use Rattle.ot_sets.specs.Trees.{Empty as EmptyTree};

use indexmap::IndexMap;
use ot_logic::Memory;
use std::alloc::Global;
use std::marker::Model;

/// The number of a set.
#[derive(Clone, Copy, PartialEq, Eq, Hash)]
pub struct SetId(u32);

impl Model for SetId {
    ghost use Rattle.std.specs.Prelude.{ℕ};

    ghost Value = { ℕ };

    ghost view = { λ n. n.0 };

    ghost inverse = { λ n. record { 0 = n } };
}

/// No number, one number alone, or those of two sets.
#[derive(Clone, Copy, PartialEq, Eq, Hash)]
pub(crate) enum SetNode {
    Empty,
    One(usize),
    Both(SetId, SetId),
}

/// Two sets.
#[derive(Clone, Copy, PartialEq, Eq, Hash)]
pub(crate) struct Pair {
    pub(crate) a: SetId,
    pub(crate) b: SetId,
}

/// Sets of numbers, each with a number of its own that it keeps.
///
/// A set is a tree: which half a number goes to is told by its bits, from the highest down. So two sets that differ in
/// few numbers share most parts, and to join them costs about a step for each part that differs. The unions that were
/// made are kept.
#[derive(Drop)]
pub struct Sets {
    pub(crate) nodes: IndexMap<SetNode, ()>,
    pub(crate) unions: IndexMap<Pair, SetId>,
    // Of the numbers so many bits are looked at.
    bits: u32,
}

impl Model for Sets {
    ghost use Rattle.std.specs.Prelude.{List};
    ghost use Rattle.std.specs.Coded.{coded_list};
    ghost use Rattle.ot_sets.specs.Trees.{Tree};
    ghost use Rattle.ot_sets.specs.Codes.{coded_tree};

    ghost Value = { List Tree };

    ghost coded = { coded_list coded_tree };

    ghost use Rattle.ot_sets.specs.Table.{sets_of, AreSetNodes, AreUnions};

    ghost view = { λ t. sets_of t.nodes.entries };

    ghost invariant = { λ t. AreSetNodes t.nodes.entries (sets_of t.nodes.entries)
        × AreUnions (sets_of t.nodes.entries) t.unions.entries };
}

impl Sets {
    ghost use Rattle.ot_sets.specs.Table.{tree_of, IsBelow, IsUnionAt};
    ghost use Rattle.ot_sets.specs.Unions.{IsSetOf};

    /// The table with no sets, for numbers below a bound. It takes no memory.
    ///
    /// The bound is for speed alone: greater numbers are taken too, and their sets share less.
    pub fn new(alloc: Global, bound: usize) -> Sets
        ensures { result ≡ [] }
    {
        Sets {
            nodes: IndexMap::new(alloc),
            unions: IndexMap::new(alloc),
            bits: bits_of(bound),
        }
    }

    /// The set of no number.
    pub fn empty(&mut self) -> Result<SetId, Memory>
        ensures ok { IfOk result (λ id. IsSetOf self.new id (λ k. ⊥)) }
        ensures extends { Extends self.old self.new }
    {
        let id = self.intern(SetNode::Empty)?;
        Ok(id)
    }

    /// The set of one number.
    pub fn single(&mut self, number: usize) -> Result<SetId, Memory>
        ensures ok { IfOk result (λ id. IsSetOf self.new id (λ k. k ≡ number)) }
        ensures extends { Extends self.old self.new }
    {
        let empty = self.empty()?;
        let mut set = self.one(number)?;
        let mut rest = number;
        for _bit in 0..self.bits {
            set = self.beside(set, empty, rest % 2 == 0)?;
            rest /= 2;
        }
        Ok(set)
    }

    /// The set of one number, without halves.
    fn one(&mut self, number: usize) -> Result<SetId, Memory>
        ensures ok { IfOk result (λ id. IsSetOf self.new id (λ k. k ≡ number)) }
        ensures extends { Extends self.old self.new }
    {
        let id = self.intern(SetNode::One(number))?;
        Ok(id)
    }

    /// The set of the numbers of both, the first or the second of them in front.
    fn beside(&mut self, set: SetId, other: SetId, is_first: bool) -> Result<SetId, Memory>
        requires set { set < length self.old }
        requires other { other < length self.old }
        ensures ok { IfOk result (IsUnionAt self.new set other) }
        ensures extends { Extends self.old self.new }
    {
        if is_first {
            self.both(set, other)
        } else {
            let turned = self.both(other, set)?;
            Ok(turned)
        }
    }

    /// The set whose halves are these.
    pub(crate) fn both(&mut self, first: SetId, second: SetId) -> Result<SetId, Memory>
        requires first { first < length self.old }
        requires second { second < length self.old }
        ensures ok { IfOk result (IsUnionAt self.new first second) }
        ensures extends { Extends self.old self.new }
    {
        let id = self.intern(SetNode::Both(first, second))?;
        Ok(id)
    }

    /// Whether a set is the one that is no number and no two halves.
    pub(crate) fn is_empty(&self, id: SetId) -> bool
        requires { id < length self.now }
        ensures { result ≡ true → slice_get self.now id ≡ Some EmptyTree }
    {
        match self.node(id) {
            SetNode::Empty => true,
            SetNode::One(_) | SetNode::Both(_, _) => false,
        }
    }

    /// The node of a set. The numbers in it are lower.
    pub(crate) fn node(&self, id: SetId) -> SetNode
        requires { id < length self.now }
        ensures tree { slice_get self.now id ≡ Some (tree_of self.now result) }
        ensures below { IsBelow id result }
    {
        match self.nodes.get_index(id.0 as usize) {
            Some((node, _)) => *node,
            None => unreachable!(),
        }
    }

    /// The number of a node, which is added where it is new.
    pub(crate) fn intern(&mut self, node: SetNode) -> Result<SetId, Memory>
        requires { IsBelow (length self.old) node }
        ensures ok { IfOk result (λ id. slice_get self.new id ≡ Some (tree_of self.old node)) }
        ensures extends { Extends self.old self.new }
    {
        Memory::unless_full(self.nodes.len())?;
        let (index, _) = self.nodes.insert_full(node, ())?;
        Ok(SetId(index as u32))
    }
}

/// How many bits the number has.
fn bits_of(number: usize) -> u32 {
    usize::BITS - number.leading_zeros()
}
