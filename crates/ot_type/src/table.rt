ghost use Rattle.std.specs.Prelude.{◌≡◌, ℕ, ◌<◌, ◌≤◌, ◌+◌, max, ◌∷◌, [], Some, Err};
ghost use Rattle.std.specs.Prelude.{slice_get, length, IfOk, IfSome, OnErr, MatchOption, ◌≢◌, ◌*◌};
ghost use Rattle.std.specs.List.{All};
ghost use Rattle.ot_logic.specs.Table.{Extends};
ghost use Rattle.ot_logic.specs.Trees.{Ty, TyOp, TyVar};
ghost use Rattle.ot_logic.specs.Hol.{depth_ty, depth_all, fun_ty, bool_ty, depth_limit};
ghost use Rattle.ot_logic.specs.Naming.{numbers};
ghost use Rattle.ot_logic.specs.Bounds.{bound_ty, names_in};

mod instance;
mod subtypes;

use crate::fault::TableFault;
use crate::node::TypeNode;
use indexmap::IndexMap;
use ot_logic::{DEPTH_LIMIT, Memory, NameId};
use smallvec::SmallVec;
use std::alloc::Global;
use std::marker::Model;

/// The number of a type in its table.
#[derive(Clone, Copy, Default, PartialEq, Eq, PartialOrd, Ord, Hash)]
pub struct TypeId(u32);

impl Model for TypeId {
    ghost use Rattle.std.specs.Prelude.{ℕ};

    ghost Value = { ℕ };

    ghost view = { λ n. n.0 };

    ghost inverse = { λ n. record { 0 = n } };
}

impl TypeId {
    /// This number and another one in one number of 64 bits.
    pub(crate) fn pair_with(self, other: TypeId) -> u64
        ensures { result ≡ self + other * 4294967296 }
    {
        self.0 as u64 + other.0 as u64 * (1 << 32)
    }
}

/// What stands beside a node: how deep its type is, and whether no type variable stands in it.
#[derive(Clone, Copy, Debug)]
struct NodeInfo {
    depth: u32,
    ground: bool,
}

/// The types of higher-order logic, as the OpenTheory article format has them: a type is a type variable with a name,
/// or a type operator with a name and a list of types.
///
/// Each number keeps its type after every call, refused or not, and two numbers are equal exactly where the types
/// are. A call that takes a number has the condition that it is one of this table. No type is nested deeper than
/// 4,096: a variable and an operator without arguments have depth 1, another operator has 1 more than its deepest
/// argument.
#[derive(Drop)]
pub struct Types {
    nodes: IndexMap<TypeNode, NodeInfo>,
}

impl Model for Types {
    ghost use Rattle.std.specs.Prelude.{ℕ, List};
    ghost use Rattle.std.specs.Coded.{coded_list, coded_ℕ};
    ghost use Rattle.ot_logic.specs.Trees.{Ty};
    ghost use Rattle.ot_logic.specs.Codes.{coded_ty};

    ghost Value = { List (Ty ℕ) };

    ghost coded = { coded_list (coded_ty coded_ℕ) };

    ghost use Rattle.ot_type.specs.TypeTable.{type_trees, IsTypeSound};

    ghost view = { λ t. type_trees t.nodes.entries };

    ghost invariant = { λ t. IsTypeSound t.nodes.entries (type_trees t.nodes.entries) };
}

impl Types {
    ghost use Rattle.ot_type.specs.TypeTable.{ArgsBelow, Describes, IsTypeTable, are_ground, is_ground, tree_of, type_at, types_at};

    /// The table with no types.
    pub fn new(alloc: Global) -> Types
        ensures { result ≡ [] }
    {
        Types {
            nodes: IndexMap::new(alloc),
        }
    }

    /// The type variable of a name. After running out of memory the table is as before.
    pub fn var(&mut self, name: NameId) -> Result<TypeId, Memory>
        ensures ok { IfOk result (λ id. slice_get self.new id ≡ Some (TyVar name)) }
        ensures names { names_in self.new ≤ max (names_in self.old) (name + 1) }
        ensures extends { Extends self.old self.new }
        ensures err { OnErr result (self.new ≡ self.old) }
        ensures table { IsTypeTable self.new }
    {
        let beside = NodeInfo {
            depth: 1,
            ground: false,
        };
        self.intern(TypeNode::Var(name), beside)
    }

    /// The type of an operator and its arguments, of which there may be any number.
    ///
    /// `Nesting` comes exactly where the type would be nested deeper than 4,096. After a refusal the table is as before.
    pub fn op(&mut self, name: NameId, args: &[TypeId]) -> Result<TypeId, TableFault>
        requires { All (λ i. i < length self.old) args.now }
        ensures ok { IfOk result (λ id. slice_get self.new id ≡ Some (TyOp name (types_at self.old args.now))) }
        ensures names { names_in self.new ≤ max (names_in self.old) (name + 1) }
        ensures nesting { result ≡ Err TableFault.Nesting → depth_limit
            < depth_ty numbers (TyOp name (types_at self.old args.now)) }
        ensures extends { Extends self.old self.new }
        ensures err { OnErr result (self.new ≡ self.old) }
        ensures table { IsTypeTable self.new }
    {
        let node = TypeNode::Op(name, SmallVec::from_slice(*self.nodes.allocator(), args)?);
        if let Some(id) = self.find(&node) {
            return Ok(id);
        }
        let deepest = self.deepest(args);
        if deepest >= DEPTH_LIMIT {
            return Err(TableFault::Nesting);
        }
        let beside = NodeInfo {
            depth: deepest + 1,
            ground: self.are_ground(args),
        };
        Ok(self.intern(node, beside)?)
    }

    /// The type of functions from `a` to `b`, which is the operator `->` with these two arguments.
    ///
    /// `Nesting` comes exactly where the type would be nested deeper than 4,096. After a refusal the table is as before.
    pub fn fun(&mut self, a: TypeId, b: TypeId) -> Result<TypeId, TableFault>
        requires from { a < length self.old }
        requires to { b < length self.old }
        ensures ok { IfOk result
            (λ id. slice_get self.new id ≡ Some (fun_ty numbers (type_at self.old a) (type_at self.old b))) }
        ensures names { names_in self.new ≤ max (names_in self.old) 1 }
        ensures nesting { result ≡ Err TableFault.Nesting → depth_limit
            < depth_ty numbers (fun_ty numbers (type_at self.old a) (type_at self.old b)) }
        ensures extends { Extends self.old self.new }
        ensures err { OnErr result (self.new ≡ self.old) }
        ensures table { IsTypeTable self.new }
    {
        self.op(NameId::ARROW, &[a, b])
    }

    /// The type of propositions, which is the operator `bool` without arguments. After running out of memory the table is as
    /// before.
    pub fn boolean(&mut self) -> Result<TypeId, Memory>
        ensures ok { IfOk result (λ id. slice_get self.new id ≡ Some (bool_ty numbers)) }
        ensures names { names_in self.new ≤ max (names_in self.old) 2 }
        ensures extends { Extends self.old self.new }
        ensures err { OnErr result (self.new ≡ self.old) }
        ensures table { IsTypeTable self.new }
    {
        let no_args = SmallVec::new(*self.nodes.allocator());
        let node = TypeNode::Op(NameId::BOOL, no_args);
        if let Some(id) = self.find(&node) {
            return Ok(id);
        }
        let beside = NodeInfo {
            depth: 1,
            ground: true,
        };
        self.intern(node, beside)
    }

    /// The node of a type. Its arguments have lower numbers than the type.
    pub fn node(&self, id: TypeId) -> &TypeNode
        requires { id < length self.now }
        ensures tree { slice_get self.now id ≡ Some (tree_of self.now result.now) }
        ensures args { ArgsBelow id result.now }
        ensures table { IsTypeTable self.now }
    {
        match self.nodes.get_index(id.0 as usize) {
            Some((node, _)) => node,
            None => unreachable!(),
        }
    }

    /// The argument type and the result type of a function type; `None` exactly where the type is no function type.
    pub fn as_fun(&self, id: TypeId) -> Option<(TypeId, TypeId)>
        requires { id < length self.now }
        ensures { MatchOption result ((a b : Ty ℕ) → type_at self.now id ≢ fun_ty numbers a b)
            (λ p. (type_at self.now id ≡ fun_ty numbers (type_at self.now p.0) (type_at self.now p.1)) × (p.0 < id)
            × (p.1 < id)) }
    {
        match self.node(id) {
            TypeNode::Var(_) => None,
            TypeNode::Op(name, args) => two_of_arrow(*name, args.as_slice()),
        }
    }

    /// The number of a node that the table has. Nearly all calls ask for one that is there.
    fn find(&self, node: &TypeNode) -> Option<TypeId>
        ensures found { IfSome result (λ id. slice_get self.now id ≡ Some (tree_of self.now node.now)) }
        ensures table { IsTypeTable self.now }
    {
        match self.nodes.get_index_of(node) {
            Some(index) if index <= u32::MAX as usize => Some(TypeId(index as u32)),
            _ => None,
        }
    }

    /// The number of a node, which is added where it is new.
    fn intern(&mut self, node: TypeNode, beside: NodeInfo) -> Result<TypeId, Memory>
        requires args { ArgsBelow (length self.old) node }
        requires beside { Describes (tree_of self.old node) beside }
        ensures ok { IfOk result (λ id. slice_get self.new id ≡ Some (tree_of self.old node)) }
        ensures names { names_in self.new ≤ max (names_in self.old) (bound_ty (tree_of self.old node)) }
        ensures extends { Extends self.old self.new }
        ensures err { OnErr result (self.new ≡ self.old) }
        ensures table { IsTypeTable self.new }
    {
        Memory::unless_full(self.nodes.len())?;
        let (index, _) = self.nodes.insert_full(node, beside)?;
        Ok(TypeId(index as u32))
    }

    /// The greatest depth of the types, or 0.
    fn deepest(&self, ids: &[TypeId]) -> u32
        requires { All (λ i. i < length self.now) ids.now }
        ensures max { result ≡ depth_all numbers (types_at self.now ids.now) }
        ensures shallow { result ≤ depth_limit }
    {
        let mut most = 0;
        for id in ids {
            most = most.max(self.height(*id));
        }
        most
    }

    /// How deep the type is.
    fn height(&self, id: TypeId) -> u32
        requires { id < length self.now }
        ensures depth { result ≡ depth_ty numbers (type_at self.now id) }
        ensures shallow { result ≤ depth_limit }
    {
        self.beside(id).depth
    }

    /// Whether no type variable stands in the type.
    fn is_ground(&self, id: TypeId) -> bool
        requires { id < length self.now }
        ensures { result ≡ is_ground (type_at self.now id) }
    {
        self.beside(id).ground
    }

    /// Whether none stands in any of the types.
    fn are_ground(&self, ids: &[TypeId]) -> bool
        requires { All (λ i. i < length self.now) ids.now }
        ensures { result ≡ are_ground (types_at self.now ids.now) }
    {
        let mut all = true;
        for id in ids {
            all = all & self.is_ground(*id);
        }
        all
    }

    /// What stands beside the node of a type.
    fn beside(&self, id: TypeId) -> &NodeInfo
        requires { id < length self.now }
        ensures { Describes (type_at self.now id) result.now }
    {
        match self.nodes.get_index(id.0 as usize) {
            Some((_, beside)) => beside,
            None => unreachable!(),
        }
    }
}

/// The arguments of `->`, where these are its name and two arguments.
fn two_of_arrow(name: NameId, args: &[TypeId]) -> Option<(TypeId, TypeId)>
    ensures { MatchOption result ((a b : ℕ) → name ≡ 0 → args.now ≢ a ∷ b ∷ [])
        (λ p. (name ≡ 0) × (args.now ≡ p.0 ∷ p.1 ∷ [])) }
{
    match args {
        [a, b] if name == NameId::ARROW => Some((*a, *b)),
        _ => None,
    }
}
