//! What a record names, by number.
use ot_log_nodes::{NameId, TermId, TypeId};

/// A count, a name, a type, a term, or a sequent by its number in the log.
#[derive(Clone, Copy)]
pub enum Operand {
    Count(usize),
    Name(NameId),
    Type(TypeId),
    Term(TermId),
    Sequent(usize),
}
