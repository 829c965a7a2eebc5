use ot_logic::Name;
use smallvec::SmallVec;
use std::marker::Model;

/// The number of a name in its table.
#[derive(Clone, Copy, PartialEq, Eq, Hash)]
pub struct NameId(pub(crate) usize);

impl Model for NameId {
    ghost use Rattle.std.specs.Prelude.{ℕ};

    ghost Value = { ℕ };

    ghost view = { λ n. n.0 };

    ghost inverse = { λ n. record { 0 = n } };
}

impl NameId {
    /// The number of `->` in each table.
    pub const ARROW: NameId = NameId(0);

    /// The number of `bool`.
    pub const BOOL: NameId = NameId(1);

    /// The number of `=`.
    pub const EQUALS: NameId = NameId(2);
}

/// The number of a type in its table.
#[derive(Clone, Copy, Default, PartialEq, Eq, Hash)]
pub struct TypeId(pub(crate) usize);

impl Model for TypeId {
    ghost use Rattle.std.specs.Prelude.{ℕ};

    ghost Value = { ℕ };

    ghost view = { λ n. n.0 };

    ghost inverse = { λ n. record { 0 = n } };
}

impl TypeId {
    /// The number of no type: 0 is that of a name.
    pub(crate) const NONE: TypeId = TypeId(0);
}

/// The number of a nameless term in its table.
#[derive(Clone, Copy, PartialEq, Eq, PartialOrd, Ord, Hash)]
pub struct TermId(pub(crate) usize);

impl Model for TermId {
    ghost use Rattle.std.specs.Prelude.{ℕ};

    ghost Value = { ℕ };

    ghost view = { λ n. n.0 };

    ghost inverse = { λ n. record { 0 = n } };
}

/// A type, its parts by number.
#[derive(PartialEq, Eq, Hash, Drop)]
pub enum TypeNode {
    /// The type variable of a name.
    Var(NameId),
    /// The type operator of a name, with its arguments.
    Op(NameId, SmallVec<TypeId, 2>),
}

/// A variable, its name and type by number.
#[derive(Clone, Copy, PartialEq, Eq, Hash)]
pub struct VariableNode {
    pub name: NameId,
    pub ty: TypeId,
}

/// A nameless term, its parts by number.
#[derive(Clone, Copy, PartialEq, Eq, Hash)]
pub enum TermNode {
    /// A free variable.
    Free(VariableNode),
    /// A constant at a type.
    Const(NameId, TypeId),
    /// The place of an abstraction around, the innermost 0.
    Bound(u64),
    /// A function applied to an argument.
    App(TermId, TermId),
    /// An abstraction over a type.
    Abs(TypeId, TermId),
}

/// What has a number.
#[derive(PartialEq, Eq, Hash, Drop)]
pub(crate) enum Node {
    Name(Name),
    Ty(TypeNode),
    Tm(TermNode),
}
