use crate::name::Name;

/// A type as a tree, for tests and for whoever reads terms from text.
#[derive(Drop)]
pub enum Ty {
    Var(Name),
    Op(Name, Vec<Ty>),
}

/// A nameless term as a tree: bound places by number, the innermost abstraction 0.
#[derive(Drop)]
pub enum Tm {
    Free(Name, Ty),
    Con(Name, Ty),
    Bound(u64),
    App(Box<Tm>, Box<Tm>),
    Abs(Ty, Box<Tm>),
}
