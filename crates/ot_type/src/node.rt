ghost use Rattle.std.specs.Prelude.{◌≡◌, fold};
ghost use Rattle.ot_type.specs.NodeHash.{node_writes, args_writes, node_writes-alike};

use crate::table::TypeId;
use ot_logic::NameId;
use smallvec::SmallVec;
use std::hash::{Hash, Hasher};

/// A type, its arguments by number.
#[derive(PartialEq, Eq, Drop)]
pub enum TypeNode {
    /// The type variable of a name.
    Var(NameId),
    /// The type operator of a name, with its arguments.
    Op(NameId, SmallVec<TypeId, 2>),
}

// Two arguments, as most operators have, are one write of eight bytes: a table hashes a node at each call.
impl Hash for TypeNode {
    ghost hash_input = { node_writes };

    ghost respects_eq = { node_writes-alike };

    fn hash<H: Hasher>(&self, state: &mut H) {
        match self {
            TypeNode::Var(name) => {
                state.write_u8(0);
                name.hash(state);
            }
            TypeNode::Op(name, args) => {
                name.hash(state);
                hash_args(args.as_slice(), state);
            }
        }
    }
}

/// The arguments of an operator.
fn hash_args<H: Hasher>(args: &[TypeId], state: &mut H)
    ensures { state.new ≡ fold H.write state.old (args_writes args.now) }
{
    match args {
        [a, b] => state.write_u64(a.pair_with(*b)),
        _ => args.hash(state),
    }
}
