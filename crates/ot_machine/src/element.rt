//! What a list of one kind has as its elements.
ghost use Rattle.std.specs.Prelude.{◌<◌, ℕ, List, Result, IfOk, length};
ghost use Rattle.ot_logic.specs.Names.{Name};
ghost use Rattle.ot_logic.specs.Trees.{Ty, Tm};
ghost use Rattle.ot_logic.specs.Faults.{Fault as Refusal};
ghost use Rattle.ot_kernel.specs.State.{State, name_at, type_at, term_at};
ghost use Rattle.ot_machine.specs.Objects.{Object as Stated, Objects};
ghost use Rattle.ot_machine.specs.Meaning.{object_of, IsIn};
ghost use Rattle.ot_machine.specs.Places.{as_name, as_type, as_term};
ghost use Rattle.ot_machine.specs.Answers.{Makes};

use crate::fault::Fault;
use crate::object::Object;
use ot_logic::{Kind, NameId};
use ot_term::TermId;
use ot_type::TypeId;

/// A number of the kernel that the objects of one kind have.
pub(crate) trait Element: Copy {
    /// What such a number stands for.
    ghost Value: { Type 0 };

    /// An object, where it is of this kind.
    ghost as_one: { Stated → Result Value (Refusal Name) };

    /// What the number stands for.
    ghost value_at: { State → Self → Value };

    /// Whether the number is of the kernel.
    ghost is_inside: { State → Self → Type 0 };

    /// The number of an object that has to be of this kind.
    fn of(object: Object) -> Result<Self, Fault>
        ensures found { (k : State) (cs : List Objects)
            → Makes k (value_at k) result (as_one (object_of k cs object)) }
        ensures inside { (k : State) (n : ℕ) → IsIn k n object → IfOk result (is_inside k) };
}

impl Element for NameId {
    ghost Value = { Name };

    ghost as_one = { as_name };

    ghost value_at = { name_at };

    ghost is_inside = { λ k n. n < length k.names };

    #[inline(always)]
    fn of(object: Object) -> Result<NameId, Fault> {
        match object {
            Object::Name(name) => Ok(name),
            other => Err(Fault::WrongKind(Kind::Name, other.kind())),
        }
    }
}

impl Element for TypeId {
    ghost Value = { Ty Name };

    ghost as_one = { as_type };

    ghost value_at = { type_at };

    ghost is_inside = { λ k t. t < length k.types };

    #[inline(always)]
    fn of(object: Object) -> Result<TypeId, Fault> {
        match object {
            Object::Type(ty) => Ok(ty),
            other => Err(Fault::WrongKind(Kind::Ty, other.kind())),
        }
    }
}

impl Element for TermId {
    ghost Value = { Tm Name };

    ghost as_one = { as_term };

    ghost value_at = { term_at };

    ghost is_inside = { λ k t. t < length k.terms };

    #[inline(always)]
    fn of(object: Object) -> Result<TermId, Fault> {
        match object {
            Object::Term(term) => Ok(term),
            other => Err(Fault::WrongKind(Kind::Tm, other.kind())),
        }
    }
}
