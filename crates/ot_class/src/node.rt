//! What the tables of classes keep.
ghost use Rattle.ot_class.specs.NodeHash.{node_writes, node_writes-alike, pair_writes, pair_writes-alike};

use crate::id::ShapeId;
use ot_lists::{ListId, MapId};
use ot_logic::NameId;
use ot_type::TypeId;
use std::hash::{Hash, Hasher};

/// A shape, its parts by number.
#[derive(Clone, Copy, PartialEq, Eq)]
pub(crate) enum ShapeNode {
    // A variable.
    Var,
    // A constant at a type.
    Const(NameId, TypeId),
    // A function, an argument, and which of the argument's holes the function has.
    App(ShapeId, ShapeId, MapId),
    // The abstraction over a type of a hole from a body.
    Abs(TypeId, u32, ShapeId),
    // An abstraction over a type that binds nothing in its body.
    Unused(TypeId, ShapeId),
}

// The two shapes of an application are one write: a table hashes a node at each call.
impl Hash for ShapeNode {
    ghost hash_input = { node_writes };

    ghost respects_eq = { node_writes-alike };

    fn hash<H: Hasher>(&self, state: &mut H) {
        match *self {
            ShapeNode::Var => state.write_u8(0),
            ShapeNode::Const(name, ty) => {
                state.write_u8(1);
                name.hash(state);
                ty.hash(state);
            }
            ShapeNode::App(f, x, map) => {
                state.write_u64(f.0 as u64 + x.0 as u64 * (1 << 32));
                map.hash(state);
            }
            ShapeNode::Abs(ty, hole, body) => {
                state.write_u8(2);
                ty.hash(state);
                hole.hash(state);
                body.hash(state);
            }
            ShapeNode::Unused(ty, body) => {
                state.write_u8(3);
                ty.hash(state);
                body.hash(state);
            }
        }
    }
}

/// The lists of a function and of its argument.
#[derive(Clone, Copy, PartialEq, Eq)]
pub(crate) struct Pair {
    pub(crate) f: ListId,
    pub(crate) x: ListId,
}

impl Hash for Pair {
    ghost hash_input = { pair_writes };

    ghost respects_eq = { pair_writes-alike };

    fn hash<H: Hasher>(&self, state: &mut H) {
        state.write_u64(self.f.number() as u64 + self.x.number() as u64 * (1 << 32));
    }
}
