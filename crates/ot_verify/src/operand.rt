use ot_log_nodes::NameId;

/// A name, and the number of a type.
#[derive(Clone, Copy)]
pub(crate) struct NamedType {
    pub(crate) name: NameId,
    pub(crate) ty: usize,
}

/// A variable, and the number of a term for it.
#[derive(Clone, Copy)]
pub(crate) struct TermPair {
    pub(crate) variable: NamedType,
    pub(crate) term: usize,
}

/// The name of a constant, and the variable that it stands for.
#[derive(Clone, Copy)]
pub(crate) struct ConstantPair {
    pub(crate) constant: NameId,
    pub(crate) variable: NamedType,
}
