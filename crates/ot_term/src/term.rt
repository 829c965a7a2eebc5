//! Terms by number, the symbols in them, and why a table has no number for a term.
ghost use Rattle.std.specs.Prelude.{◌≡◌};
ghost use Rattle.ot_term.specs.NodeHash.{node_writes, node_writes-alike};
ghost use Rattle.ot_term.specs.Greatest.{greatest_part, greatest_part-alike};
ghost use Rattle.ot_logic.specs.RanOut.{ran_out};

use ot_logic::{Memory, NameId};
use ot_near::Refers;
use ot_type::{TableFault, TypeId};
use std::hash::{Hash, Hasher};
use std::marker::Model;

/// The number of a term in its table.
#[derive(Clone, Copy, Default, PartialEq, Eq, PartialOrd, Ord, Hash)]
pub struct TermId(pub(crate) u32);

impl Model for TermId {
    ghost use Rattle.std.specs.Prelude.{ℕ};

    ghost Value = { ℕ };

    ghost view = { λ n. n.0 };

    ghost inverse = { λ n. record { 0 = n } };
}

impl TermId {
    /// The number: a table numbers its terms from 0 on, in the order in which they come.
    pub fn index(self) -> usize
        ensures { result ≡ self }
    {
        self.0 as usize
    }
}

/// A variable: a name with a type. Two variables with one name and two types are two variables.
#[derive(Clone, Copy, PartialEq, Eq, Hash)]
pub struct VarKey {
    pub name: NameId,
    pub ty: TypeId,
}

// What stands in the places of a list that nothing takes yet.
impl Default for VarKey {
    fn default() -> VarKey {
        VarKey {
            name: NameId::ARROW,
            ty: TypeId::default(),
        }
    }
}

/// A term, its parts by number.
#[derive(Clone, Copy, PartialEq, Eq)]
pub enum TermNode {
    /// A variable.
    Var(VarKey),
    /// A constant at a type.
    Const(NameId, TypeId),
    /// A function applied to an argument.
    App(TermId, TermId),
    /// The abstraction of a variable from a body.
    Abs(VarKey, TermId),
}

// The two numbers of an application are one write: a table hashes a node at each call.
impl Hash for TermNode {
    ghost hash_input = { node_writes };

    ghost respects_eq = { node_writes-alike };

    fn hash<H: Hasher>(&self, state: &mut H) {
        match *self {
            TermNode::Var(v) => {
                state.write_u8(0);
                v.hash(state);
            }
            TermNode::Const(name, ty) => {
                state.write_u8(1);
                name.hash(state);
                ty.hash(state);
            }
            TermNode::App(f, x) => state.write_u64(f.0 as u64 + x.0 as u64 * (1 << 32)),
            TermNode::Abs(v, body) => {
                v.hash(state);
                body.hash(state);
            }
        }
    }
}

// The table looks for a node near its greatest part, which is mostly a young one.
impl Refers for TermNode {
    ghost greatest = { greatest_part };

    ghost greatest_alike = { greatest_part-alike };

    fn greatest(&self) -> Option<u32> {
        match *self {
            TermNode::Var(_) => None,
            TermNode::Const(_, _) => None,
            TermNode::App(f, x) => Some(f.0.max(x.0)),
            TermNode::Abs(_, body) => Some(body.0),
        }
    }
}

/// What a symbol names.
#[derive(Clone, Copy, Debug, PartialEq, Eq, Hash)]
pub enum SymbolKind {
    /// A constant.
    Con,
    /// A type operator.
    TyOp,
}

/// A constant or a type operator. The two kinds are apart: a constant `bool` is not the type operator `bool`.
#[derive(Clone, Copy, Debug, PartialEq, Eq, Hash)]
pub struct Symbol {
    pub kind: SymbolKind,
    pub name: NameId,
}

/// Why a table has no number for a term.
#[derive(Clone, Copy, Debug, PartialEq, Eq)]
pub enum TermFault {
    /// What is applied is of no function type.
    NotFunction,
    /// The argument's type is not the one that the function takes, or the two sides of an equation differ in type.
    ArgumentType,
    /// The term would pass the nesting limit: its depth, or the depth of the type of one of its subterms.
    Nesting,
    /// Memory ran out.
    Memory(Memory),
}

impl From<Memory> for TermFault {
    ghost use Rattle.std.specs.Prelude.{◌≡◌};
    ghost use Rattle.ot_term.specs.declared.term.TermFault.TheVariants.{Memory};

    ghost from_gives = { λ _ r. r ≡ Memory ran_out };

    fn from(memory: Memory) -> TermFault {
        TermFault::Memory(memory)
    }
}

impl From<TableFault> for TermFault {
    ghost use Rattle.std.specs.Prelude.{◌≡◌};
    ghost use Rattle.ot_term.specs.Fault.{term_fault};

    ghost from_gives = { λ refused r. r ≡ term_fault refused };

    fn from(refused: TableFault) -> TermFault {
        match refused {
            TableFault::Nesting => TermFault::Nesting,
            TableFault::Memory(memory) => TermFault::Memory(memory),
        }
    }
}
