//! The table: its nodes, what stands beside them, and how they are made.
ghost use Rattle.std.specs.Prelude.{◌≡◌, ◌↔◌, ◌+◌, ◌<◌, IsTrue, length, slice_get, Some, IfOk};
ghost use Rattle.std.specs.Option.{option_map};
ghost use Rattle.std.specs.List.{All};
ghost use Rattle.ot_logic.specs.Table.{Extends, IsInjective};
ghost use Rattle.ot_logic.specs.Naming.{names};
ghost use Rattle.ot_logic.specs.Trees.{TyVar, TyOp, Free, Con, Bound, App, Abs};
ghost use Rattle.ot_logic.specs.Hol.{depth_ty, depth_all, depth_tm};
ghost use Rattle.ot_log_format.specs.Walks.{loose, has_free};
ghost use Rattle.ot_log_nodes.specs.Below.{is_name_node, is_type_node, is_term_node};

mod change;
mod instance;
mod lists;
mod places;
mod shapes;
mod typing;

use crate::node::{NameId, Node, TermId, TermNode, TypeId, TypeNode, VariableNode};
pub use change::{Change, Done};
use indexmap::IndexMap;
use ot_logic::{Memory, Name};
use smallvec::SmallVec;
use std::alloc::Global;
use std::marker::Model;
pub use typing::{DEPTH_LIMIT, Typed, Typings};

/// What stands beside a node: its depth; and of a term how many abstractions have to stand around
/// it, and whether a variable is free in it.
#[derive(Clone, Copy)]
pub(crate) struct NodeInfo {
    depth: u64,
    loose: u64,
    free: bool,
}

/// Names, types and nameless terms, each with a number that it keeps. Two numbers are equal exactly
/// where what they stand for is. A call that takes a number has the condition that it is one of
/// this table.
#[derive(Drop)]
pub struct Nodes {
    nodes: IndexMap<Node, NodeInfo>,
}

impl Model for Nodes {
    ghost use Rattle.std.specs.Prelude.{ℕ, List};
    ghost use Rattle.std.specs.Coded.{coded_list};
    ghost use Rattle.ot_log_nodes.specs.Items.{Item, coded_item};

    ghost Value = { List Item };

    ghost coded = { coded_list coded_item };

    ghost use Rattle.ot_log_nodes.specs.Table.{items_of, IsTable};

    ghost view = { λ t. items_of t.nodes.entries };

    ghost invariant = { λ t. IsTable t.nodes.entries (items_of t.nodes.entries) };
}

impl Nodes {
    ghost use Rattle.ot_log_nodes.specs.Items.{Item, IsName, IsType, IsTerm, HasName, HasType, HasTerm};
    ghost use Rattle.ot_log_nodes.specs.Items.{name_at, type_at, types_at, term_at, first_items};
    ghost use Rattle.ot_log_nodes.specs.Table.{type_tree, term_tree, tree_of, HasParts, HasTypeParts, HasTermParts};
    ghost use Rattle.ot_log_nodes.specs.Table.{IsBeside, IsTermBeside, Fits};
    ghost use Rattle.ot_log_nodes.specs.Below.{AreTypesBelow, AreTermsBelow, AreBelow};
    ghost use Rattle.ot_logic.specs.Interned.{IsEntry};

    /// The table of the three primitive names alone.
    pub fn new(alloc: Global) -> Result<Nodes, Memory>
        ensures { IfOk result (λ t. t ≡ first_items) }
    {
        let none = NodeInfo {
            depth: 0,
            loose: 0,
            free: false,
        };
        let mut nodes = IndexMap::new(alloc);
        nodes.insert(Node::Name(Name::of_text(alloc, b"->")?), none)?;
        nodes.insert(Node::Name(Name::of_text(alloc, b"bool")?), none)?;
        nodes.insert(Node::Name(Name::of_text(alloc, b"=")?), none)?;
        Ok(Nodes { nodes })
    }

    /// The allocator of the table.
    pub fn allocator(&self) -> Global {
        *self.nodes.allocator()
    }

    /// The number of a name.
    pub fn name(&mut self, name: Name) -> Result<NameId, Memory>
        ensures ok { IfOk result (λ id. IsName self.new id name) }
        ensures extends { Extends self.old self.new }
    {
        Ok(NameId(self.intern(Node::Name(name))?))
    }

    /// The type variable of a name.
    pub fn type_var(&mut self, name: NameId) -> Result<TypeId, Memory>
        requires { HasName self.old name }
        ensures ok { IfOk result (λ id. IsType self.new id (TyVar (name_at self.old name))) }
        ensures extends { Extends self.old self.new }
    {
        Ok(TypeId(self.intern(Node::Ty(TypeNode::Var(name)))?))
    }

    /// The type of an operator and its arguments, of which there may be any number.
    pub fn type_op(&mut self, name: NameId, args: &[TypeId]) -> Result<TypeId, Memory>
        requires name { HasName self.old name }
        requires args { All (HasType self.old) args.now }
        ensures ok { IfOk result (λ id. IsType self.new id (TyOp (name_at self.old name) (types_at
            self.old args.now))) }
        ensures extends { Extends self.old self.new }
    {
        let args = SmallVec::from_slice(*self.nodes.allocator(), args)?;
        Ok(TypeId(self.intern(Node::Ty(TypeNode::Op(name, args)))?))
    }

    /// A free variable.
    pub fn free(&mut self, name: NameId, ty: TypeId) -> Result<TermId, Memory>
        requires name { HasName self.old name }
        requires ty { HasType self.old ty }
        ensures ok { IfOk result (λ id. IsTerm self.new id (Free (record {
          name = name_at self.old
              name;
          ty = type_at self.old ty;
        }))) }
        ensures extends { Extends self.old self.new }
    {
        self.term(TermNode::Free(VariableNode { name, ty }))
    }

    /// A constant at a type.
    pub fn constant(&mut self, name: NameId, ty: TypeId) -> Result<TermId, Memory>
        requires name { HasName self.old name }
        requires ty { HasType self.old ty }
        ensures ok { IfOk result (λ id. IsTerm self.new id (Con (name_at self.old name) (type_at
            self.old ty))) }
        ensures extends { Extends self.old self.new }
    {
        self.term(TermNode::Const(name, ty))
    }

    /// The place of an abstraction around, the innermost 0.
    pub fn bound(&mut self, place: u64) -> Result<TermId, Memory>
        ensures ok { IfOk result (λ id. IsTerm self.new id (Bound place)) }
        ensures extends { Extends self.old self.new }
    {
        self.term(TermNode::Bound(place))
    }

    /// A function applied to an argument.
    pub fn app(&mut self, f: TermId, x: TermId) -> Result<TermId, Memory>
        requires f { HasTerm self.old f }
        requires x { HasTerm self.old x }
        ensures ok { IfOk result (λ id. IsTerm self.new id (App (term_at self.old f) (term_at
            self.old x))) }
        ensures extends { Extends self.old self.new }
    {
        self.term(TermNode::App(f, x))
    }

    /// An abstraction over a type, of a body with its places.
    pub fn abs(&mut self, ty: TypeId, body: TermId) -> Result<TermId, Memory>
        requires ty { HasType self.old ty }
        requires body { HasTerm self.old body }
        ensures ok { IfOk result (λ id. IsTerm self.new id (Abs (type_at self.old ty) (term_at
            self.old body))) }
        ensures extends { Extends self.old self.new }
    {
        self.term(TermNode::Abs(ty, body))
    }

    /// The term of a node.
    pub fn term(&mut self, node: TermNode) -> Result<TermId, Memory>
        requires { HasTermParts self.old node }
        ensures ok { IfOk result (λ id. IsTerm self.new id (term_tree self.old node)) }
        ensures extends { Extends self.old self.new }
    {
        Ok(TermId(self.intern(Node::Tm(node))?))
    }

    /// Whether the number is that of a name of this table.
    pub fn has_name(&self, id: NameId) -> bool
        ensures { IsTrue result ↔ HasName self.now id }
    {
        match self.node(id.0) {
            Some(node) => is_name(node),
            None => false,
        }
    }

    /// Whether the number is that of a type of this table.
    pub fn has_type(&self, id: TypeId) -> bool
        ensures { IsTrue result ↔ HasType self.now id }
    {
        match self.node(id.0) {
            Some(node) => is_type(node),
            None => false,
        }
    }

    /// Whether the number is that of a term of this table.
    pub fn has_term(&self, id: TermId) -> bool
        ensures { IsTrue result ↔ HasTerm self.now id }
    {
        match self.node(id.0) {
            Some(node) => is_term(node),
            None => false,
        }
    }

    /// The name of a number.
    pub fn name_of(&self, id: NameId) -> &Name
        requires { HasName self.now id }
        ensures { result.now ≡ name_at self.now id }
    {
        match self.entry(id.0).0 {
            Node::Name(name) => name,
            Node::Ty(_) => unreachable!(),
            Node::Tm(_) => unreachable!(),
        }
    }

    /// The node of a type. Its parts have lower numbers than the type.
    pub fn type_node(&self, id: TypeId) -> &TypeNode
        requires { HasType self.now id }
        ensures tree { type_at self.now id ≡ type_tree self.now result.now }
        ensures parts { HasTypeParts self.now result.now }
        ensures below { AreTypesBelow id result.now }
        ensures once { IsInjective self.now }
    {
        match self.entry(id.0).0 {
            Node::Ty(node) => node,
            Node::Name(_) => unreachable!(),
            Node::Tm(_) => unreachable!(),
        }
    }

    /// The node of a term. Its parts have lower numbers than the term.
    pub fn term_node(&self, id: TermId) -> TermNode
        requires { HasTerm self.now id }
        ensures tree { term_at self.now id ≡ term_tree self.now result }
        ensures parts { HasTermParts self.now result }
        ensures below { AreTermsBelow id result }
        ensures once { IsInjective self.now }
    {
        match self.entry(id.0).0 {
            Node::Tm(node) => *node,
            Node::Name(_) => unreachable!(),
            Node::Ty(_) => unreachable!(),
        }
    }

    /// How deep a type is nested.
    pub fn type_depth(&self, id: TypeId) -> u64
        requires { HasType self.now id }
        ensures { result ≡ depth_ty names (type_at self.now id) }
    {
        self.entry(id.0).1.depth
    }

    /// How deep a term is nested.
    pub fn term_depth(&self, id: TermId) -> u64
        requires { HasTerm self.now id }
        ensures { result ≡ depth_tm names (term_at self.now id) }
    {
        self.beside(id).depth
    }

    /// How many abstractions have to stand around a term.
    pub fn loose(&self, id: TermId) -> u64
        requires { HasTerm self.now id }
        ensures { result ≡ loose (term_at self.now id) }
    {
        self.beside(id).loose
    }

    /// Whether a variable is free in a term.
    pub fn has_free(&self, id: TermId) -> bool
        requires { HasTerm self.now id }
        ensures { result ≡ has_free (term_at self.now id) }
    {
        self.beside(id).free
    }

    /// What stands beside a term.
    fn beside(&self, id: TermId) -> NodeInfo
        requires { HasTerm self.now id }
        ensures { IsTermBeside (term_at self.now id) result }
    {
        *self.entry(id.0).1
    }

    /// The node of a number, where the table has one.
    fn node(&self, index: usize) -> Option<&Node>
        ensures { option_map (λ n. tree_of self.now n.now) result ≡ slice_get self.now index }
    {
        match self.nodes.get_index(index) {
            Some((node, _)) => Some(node),
            None => None,
        }
    }

    /// The node of a number, and what stands beside it.
    fn entry(&self, index: usize) -> (&Node, &NodeInfo)
        requires { index < length self.now }
        ensures entry { IsEntry tree_of AreBelow Fits self.now index result.0.now result.1.now }
        ensures once { IsInjective self.now }
    {
        match self.nodes.get_index(index) {
            Some(entry) => entry,
            None => unreachable!(),
        }
    }

    /// What is to stand beside a new node.
    fn beside_new(&self, node: &Node) -> Result<NodeInfo, Memory>
        requires { HasParts self.now node.now }
        ensures { IfOk result (IsBeside (tree_of self.now node.now)) }
    {
        match node {
            Node::Name(_) => Ok(NodeInfo {
                depth: 0,
                loose: 0,
                free: false,
            }),
            Node::Ty(node) => Ok(NodeInfo {
                depth: self.depth_new(node)?,
                loose: 0,
                free: false,
            }),
            Node::Tm(node) => self.term_beside_new(*node),
        }
    }

    /// The depth of the type of a new node.
    fn depth_new(&self, node: &TypeNode) -> Result<u64, Memory>
        requires { HasTypeParts self.now node.now }
        ensures { IfOk result (λ d. d ≡ depth_ty names (type_tree self.now node.now)) }
    {
        match node {
            TypeNode::Var(_) => Ok(1),
            TypeNode::Op(_, args) => above(self.deepest(args.as_slice())),
        }
    }

    /// What is to stand beside a new term.
    fn term_beside_new(&self, node: TermNode) -> Result<NodeInfo, Memory>
        requires { HasTermParts self.now node }
        ensures { IfOk result (IsTermBeside (term_tree self.now node)) }
    {
        match node {
            TermNode::Free(_) => Ok(NodeInfo {
                depth: 1,
                loose: 0,
                free: true,
            }),
            TermNode::Const(_, _) => Ok(NodeInfo {
                depth: 1,
                loose: 0,
                free: false,
            }),
            TermNode::Bound(place) => Ok(NodeInfo {
                depth: 1,
                loose: above(place)?,
                free: false,
            }),
            TermNode::App(f, x) => {
                let (f, x) = (self.beside(f), self.beside(x));
                Ok(NodeInfo {
                    depth: above(f.depth.max(x.depth))?,
                    loose: f.loose.max(x.loose),
                    free: f.free || x.free,
                })
            }
            TermNode::Abs(_, body) => {
                let body = self.beside(body);
                Ok(NodeInfo {
                    depth: above(body.depth)?,
                    loose: body.loose.saturating_sub(1),
                    free: body.free,
                })
            }
        }
    }

    /// The greatest depth of the types, or 0.
    fn deepest(&self, ids: &[TypeId]) -> u64
        requires { All (HasType self.now) ids.now }
        ensures { result ≡ depth_all names (types_at self.now ids.now) }
    {
        let mut most = 0;
        for id in ids {
            most = most.max(self.type_depth(*id));
        }
        most
    }

    /// The number of a node, which is added where it is new.
    fn intern(&mut self, node: Node) -> Result<usize, Memory>
        requires { HasParts self.old node }
        ensures ok { IfOk result (λ id. slice_get self.new id ≡ Some (tree_of self.old node)) }
        ensures extends { Extends self.old self.new }
    {
        match self.nodes.get_index_of(&node) {
            Some(index) => Ok(index),
            None => {
                let beside = self.beside_new(&node)?;
                let index = self.nodes.len();
                self.nodes.insert(node, beside)?;
                Ok(index)
            }
        }
    }
}

/// One more.
fn above(depth: u64) -> Result<u64, Memory>
    ensures { IfOk result (λ d. d ≡ depth + 1) }
{
    Memory::next(depth)
}

/// Whether the node is that of a name.
fn is_name(node: &Node) -> bool
    ensures { result ≡ is_name_node node.now }
{
    matches!(node, Node::Name(_))
}

/// Whether the node is that of a type.
fn is_type(node: &Node) -> bool
    ensures { result ≡ is_type_node node.now }
{
    matches!(node, Node::Ty(_))
}

/// Whether the node is that of a term.
fn is_term(node: &Node) -> bool
    ensures { result ≡ is_term_node node.now }
{
    matches!(node, Node::Tm(_))
}
