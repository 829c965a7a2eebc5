//! The table of sequences of numbers, none of which has a number twice. A sequence is cut at its number of the highest
//! rank, and what stands before and behind that is cut likewise: a treap by place. So each sequence has one form, those
//! that differ in one number share most of their parts, and a part is found in some twenty steps for a thousand numbers.
//! The rank of a number is fixed, so numbers can be chosen whose ranks ascend along a sequence. Such a sequence is a
//! chain of cuts, and costs what a plain list would.
ghost use Rattle.std.specs.Prelude.{◌≡◌, ◌≢◌, ◌<◌, ◌+◌, ◌⊎◌, ℕ, true, false, [], ◌∷◌, ◌++◌, min, max, Some};
ghost use Rattle.std.specs.Prelude.{slice_get, length};
ghost use Rattle.std.specs.Prelude.{IfOk};
ghost use Rattle.ot_logic.specs.Lists.{IsMember, AreDistinct};
ghost use Rattle.ot_logic.specs.Table.{Extends};
ghost use Rattle.ot_lists.specs.Ranks.{rank, IsTop};
ghost use Rattle.ot_lists.specs.NodeHash.{sequence_writes, sequence_writes-alike};

mod append;
mod join;
mod pieces;
mod remove;
mod walk;

use crate::list::Key;
use indexmap::{IndexMap, IndexSet};
use ot_logic::Memory;
use std::alloc::Global;
use std::hash::{Hash, Hasher};
use std::marker::Model;

/// The number of a list.
#[derive(Clone, Copy, PartialEq, Eq, Hash)]
pub struct ListId(u32);

impl Model for ListId {
    ghost use Rattle.std.specs.Prelude.{ℕ};

    ghost Value = { ℕ };

    ghost view = { λ n. n.0 };

    ghost inverse = { λ n. record { 0 = n } };
}

impl ListId {
    /// The number itself.
    pub fn number(self) -> u32
        ensures { result ≡ self }
    {
        self.0
    }

    /// The list with a number.
    pub fn from_number(number: u32) -> ListId
        ensures { result ≡ number }
    {
        ListId(number)
    }
}

/// The empty sequence, or what stands before the number of the highest rank, that number, and what stands behind it.
#[derive(Clone, Copy, PartialEq, Eq)]
enum SequenceNode {
    Empty,
    Cut(ListId, u32, ListId),
}

// A node is one write: a table hashes it at each call.
impl Hash for SequenceNode {
    ghost hash_input = { sequence_writes };

    ghost respects_eq = { sequence_writes-alike };

    fn hash<H: Hasher>(&self, state: &mut H) {
        match *self {
            SequenceNode::Empty => state.write_u8(0),
            SequenceNode::Cut(before, x, behind) => {
                let ends = x as u64 + behind.0 as u64 * (1 << 32);
                state.write_u128(before.0 as u128 + ends as u128 * (1 << 32));
            }
        }
    }
}

/// How many numbers a sequence has, and bounds of these.
#[derive(Clone, Copy)]
struct Extent {
    count: u32,
    low: u32,
    high: u32,
}

/// Sequences, each with a number that it keeps, of the numbers of variables.
#[derive(Drop)]
pub(crate) struct Sequences {
    keys: IndexSet<Key>,
    nodes: IndexMap<SequenceNode, Extent>,
}

impl Model for Sequences {
    ghost use Rattle.ot_lists.specs.SequenceTable.{SequenceTable};

    ghost Value = { SequenceTable };

    ghost use Rattle.ot_lists.specs.Sequences.{sequences_of, AreSequences};

    ghost view = { λ t. record { keys = t.keys.keys; lists = sequences_of t.nodes.entries } };

    ghost invariant = { λ t. AreSequences t.keys.keys t.nodes.entries (sequences_of t.nodes.entries) };
}

impl Sequences {
    ghost use Rattle.ot_lists.specs.SequenceTable.{sequence_at, IsNumberOf, Grows, IsSequenceTable};
    ghost use Rattle.ot_lists.specs.Sequences.{sequence_of, IsBelow, IsCutAtTop, Describes, IsBeside};

    /// The table with no sequences. It takes no memory.
    pub(crate) fn new(alloc: Global) -> Sequences
        ensures { result ≡ record { keys = []; lists = [] } }
    {
        Sequences {
            keys: IndexSet::new(alloc),
            nodes: IndexMap::new(alloc),
        }
    }

    /// The number of a variable, which is added where it is new.
    pub(crate) fn number(&mut self, key: Key) -> Result<u32, Memory>
        ensures ok { IfOk result (λ x. slice_get self.new.keys x ≡ Some key) }
        ensures keys { Extends self.old.keys self.new.keys }
        ensures lists { self.new.lists ≡ self.old.lists }
        ensures table { IsSequenceTable self.new }
    {
        Memory::unless_full(self.keys.len())?;
        let (index, _) = self.keys.insert_full(key)?;
        Ok(index as u32)
    }

    /// The number that a variable has, if it has one.
    pub(crate) fn number_of(&self, key: &Key) -> Result<Option<u32>, Memory>
        ensures number { IfOk result (IsNumberOf self.now.keys key.now) }
        ensures table { IsSequenceTable self.now }
    {
        match self.keys.get_index_of(key) {
            None => Ok(None),
            Some(index) => {
                Memory::unless_full(index)?;
                Ok(Some(index as u32))
            }
        }
    }

    /// The variable of a number.
    pub(crate) fn key(&self, x: u32) -> Key
        requires { x < length self.now.keys }
        ensures { slice_get self.now.keys x ≡ Some result }
    {
        self.keys[x as usize]
    }

    /// The allocator.
    pub(crate) fn allocator(&self) -> Global {
        *self.keys.allocator()
    }

    /// The sequence without numbers.
    pub(crate) fn empty(&mut self) -> Result<ListId, Memory>
        ensures ok { IfOk result (λ id. slice_get self.new.lists id ≡ Some []) }
        ensures grows { Grows self.old self.new }
        ensures table { IsSequenceTable self.new }
    {
        let none = Extent {
            count: 0,
            low: u32::MAX,
            high: 0,
        };
        self.intern(SequenceNode::Empty, none)
    }

    /// The sequence of one number.
    pub(crate) fn single(&mut self, x: u32) -> Result<ListId, Memory>
        requires { x < length self.old.keys }
        ensures ok { IfOk result (λ id. slice_get self.new.lists id ≡ Some (x ∷ [])) }
        ensures grows { Grows self.old self.new }
        ensures table { IsSequenceTable self.new }
    {
        let none = self.empty()?;
        self.cut(none, x, none)
    }

    /// How many numbers a sequence has.
    pub(crate) fn len(&self, id: ListId) -> u32
        requires { id < length self.now.lists }
        ensures count { result ≡ length (sequence_at self.now id) }
        ensures table { IsSequenceTable self.now }
    {
        self.extent(id).count
    }

    /// Whether two sequences share no number, as far as their bounds tell.
    pub(crate) fn are_apart(&self, f: ListId, x: ListId) -> bool
        requires f { f < length self.now.lists }
        requires x { x < length self.now.lists }
        ensures apart { result ≡ true
            → (y : ℕ) → IsMember y (sequence_at self.now f) → IsMember y (sequence_at self.now x) → ⊥ }
        ensures table { IsSequenceTable self.now }
    {
        let left = self.extent(f);
        let right = self.extent(x);
        bounds_are_apart(left, right)
    }

    /// The sequence of two, with a number between them whose rank is the highest.
    fn cut(&mut self, before: ListId, x: u32, behind: ListId) -> Result<ListId, Memory>
        requires before { before < length self.old.lists }
        requires behind { behind < length self.old.lists }
        requires key { x < length self.old.keys }
        requires top { IsTop x (sequence_at self.old before ++ x ∷ sequence_at self.old behind) }
        requires distinct { AreDistinct (sequence_at self.old before ++ x ∷ sequence_at self.old behind) }
        ensures ok { IfOk result (λ id. slice_get self.new.lists id
            ≡ Some (sequence_at self.old before ++ x ∷ sequence_at self.old behind)) }
        ensures grows { Grows self.old self.new }
        ensures table { IsSequenceTable self.new }
    {
        let left = self.extent(before);
        let right = self.extent(behind);
        let extent = around(left, x, right)?;
        self.intern(SequenceNode::Cut(before, x, behind), extent)
    }

    /// What stands beside a number.
    fn extent(&self, id: ListId) -> Extent
        requires { id < length self.now.lists }
        ensures describes { Describes (sequence_at self.now id) result }
        ensures table { IsSequenceTable self.now }
    {
        match self.nodes.get_index(id.0 as usize) {
            Some((_, extent)) => *extent,
            None => unreachable!(),
        }
    }

    /// The node of a number.
    fn node(&self, id: ListId) -> &SequenceNode
        requires { id < length self.now.lists }
        ensures is { sequence_at self.now id ≡ sequence_of self.now.lists result.now }
        ensures below { IsBelow (length self.now.lists) result.now }
        ensures top { IsCutAtTop result.now (sequence_at self.now id) }
        ensures table { IsSequenceTable self.now }
    {
        match self.nodes.get_index(id.0 as usize) {
            Some((node, _)) => node,
            None => unreachable!(),
        }
    }

    /// The number of a node, which is added where it is new. What stands beside it is given.
    fn intern(&mut self, node: SequenceNode, extent: Extent) -> Result<ListId, Memory>
        requires below { IsBelow (length self.old.lists) node }
        requires beside { IsBeside (length self.old.keys) self.old.lists node extent }
        ensures ok { IfOk result (λ id. slice_get self.new.lists id ≡ Some (sequence_of self.old.lists node)) }
        ensures grows { Grows self.old self.new }
        ensures table { IsSequenceTable self.new }
    {
        Memory::unless_full(self.nodes.len())?;
        if let Some(index) = self.nodes.get_index_of(&node) {
            return Ok(ListId(index as u32));
        }
        let (index, _) = self.nodes.insert_full(node, extent)?;
        Ok(ListId(index as u32))
    }
}

/// Whether the rank of a number is higher than that of another one.
fn is_higher(x: u32, y: u32) -> bool
    ensures higher { result ≡ true → rank y < rank x }
    ensures lower { result ≡ false → x ≢ y → rank x < rank y }
{
    let left = rank_of(x);
    let right = rank_of(y);
    left > right
}

/// The rank of a number.
fn rank_of(x: u32) -> u32
    ensures { result ≡ rank x }
{
    x.wrapping_mul(0x9E37_79B9)
}

/// Whether all numbers within some bounds are below all within others, or above.
fn bounds_are_apart(left: Extent, right: Extent) -> bool
    ensures { result ≡ true → (left.high < right.low) ⊎ (right.high < left.low) }
{
    if left.high < right.low {
        return true;
    }
    if right.high < left.low {
        return true;
    }
    false
}

/// How many numbers two sequences have with one between them, and the bounds of these.
fn around(before: Extent, x: u32, behind: Extent) -> Result<Extent, Memory>
    ensures count { IfOk result (λ e. e.count ≡ before.count + (1 + behind.count)) }
    ensures low { IfOk result (λ e. e.low ≡ min x (min before.low behind.low)) }
    ensures high { IfOk result (λ e. e.high ≡ max x (max before.high behind.high)) }
{
    let count = before.count as usize + (1 + behind.count as usize);
    Memory::unless_full(count)?;
    let count = count as u32;
    let low = x.min(before.low.min(behind.low));
    let high = x.max(before.high.max(behind.high));
    Ok(Extent { count, low, high })
}
