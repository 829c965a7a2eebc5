ghost use Rattle.std.specs.Prelude.{◌≡◌};

use ot_kernel::ThmId;
use ot_logic::{Cmd, Kind, NameId};
use ot_term::{TermId, VarKey};
use ot_trace::StepId;
use ot_type::TypeId;

/// A list of objects: the empty one, or a cell of the machine, by a number of 32 bits that keeps an object small.
#[derive(Clone, Copy)]
pub enum List {
    Nil,
    Cell(u32),
}

/// What stands on the stack: a small value, whatever it stands for.
#[derive(Clone, Copy)]
pub enum Object {
    Number(i64),
    Name(NameId),
    List(List),
    TypeOp(NameId),
    Type(TypeId),
    Const(NameId),
    Var(VarKey),
    Term(TermId),
    Theorem(ThmId),
}

/// An object, and the step that made it. A number alone may have none: it has its own when a command takes it as an
/// operand.
#[derive(Clone, Copy)]
pub struct Entry {
    pub object: Object,
    pub step: Option<StepId>,
}

/// A list that isn't empty, with its nesting.
#[derive(Clone, Copy)]
pub struct Cell {
    pub head: Object,
    pub tail: List,
    pub nesting: u32,
}

impl Object {
    ghost use Rattle.std.specs.Prelude.{List as Items};
    ghost use Rattle.ot_kernel.specs.State.{State};
    ghost use Rattle.ot_machine.specs.Objects.{Objects, kind_of};
    ghost use Rattle.ot_machine.specs.Meaning.{object_of};

    /// Its kind, whatever its numbers stand for.
    pub fn kind(self) -> Kind
        ensures { (k : State) (cs : Items Objects) → result ≡ kind_of (object_of k cs self) }
    {
        match self {
            Object::Number(_) => Kind::Num,
            Object::Name(_) => Kind::Name,
            Object::List(_) => Kind::List,
            Object::TypeOp(_) => Kind::TyOp,
            Object::Type(_) => Kind::Ty,
            Object::Const(_) => Kind::Con,
            Object::Var(_) => Kind::Var,
            Object::Term(_) => Kind::Tm,
            Object::Theorem(_) => Kind::Thm,
        }
    }
}

/// A command, its name by number.
#[derive(Clone, Copy, PartialEq, Eq)]
pub enum Command {
    Numeral(i64),
    Named(NameId),
    Order(Cmd),
}
