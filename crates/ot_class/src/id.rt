//! The numbers of shapes and of classes.
ghost use Rattle.std.specs.Prelude.{◌≡◌};
ghost use Rattle.ot_class.specs.Numbers.{shape_number, list_number};

use ot_lists::ListId;
use std::marker::Model;

/// The number of a shape.
#[derive(Clone, Copy, PartialEq, Eq, Hash)]
pub(crate) struct ShapeId(pub(crate) u32);

impl Model for ShapeId {
    ghost use Rattle.std.specs.Prelude.{ℕ};

    ghost Value = { ℕ };

    ghost view = { λ n. n.0 };

    ghost inverse = { λ n. record { 0 = n } };
}

/// The number of an alpha class: those of its shape and of the list of its free variables.
#[derive(Clone, Copy, PartialEq, Eq, PartialOrd, Ord, Hash)]
pub struct ClassId(u64);

impl Model for ClassId {
    ghost use Rattle.std.specs.Prelude.{ℕ};

    ghost Value = { ℕ };

    ghost view = { λ c. c.0 };

    ghost inverse = { λ n. record { 0 = n } };
}

impl ClassId {
    /// The class of a shape and a list.
    pub(crate) fn new(shape: ShapeId, list: ListId) -> ClassId
        ensures shape { shape_number result ≡ shape }
        ensures list { list_number result ≡ list }
    {
        let low = shape.0;
        let high = list.number();
        ClassId(high as u64 * (1 << 32) + low as u64)
    }

    /// The shape.
    pub(crate) fn shape(self) -> ShapeId
        ensures { result ≡ shape_number self }
    {
        ShapeId((self.0 % (1 << 32)) as u32)
    }

    /// The list of free variables.
    pub(crate) fn list(self) -> ListId
        ensures { result ≡ list_number self }
    {
        ListId::from_number((self.0 / (1 << 32)) as u32)
    }
}
