/// Why a line of readable text is refused, apart from running out of memory.
#[derive(Clone, Copy, Debug, PartialEq, Eq)]
pub enum TextFault {
    /// The line isn't of the forms.
    Syntax,
    /// More than 8,192 parentheses and braces are open.
    TooManyOpen,
    /// A name stands for a bound place, and no abstraction around it has that name.
    Unbound,
    /// An operator word between two terms is no hidden constant's.
    UnknownOperator,
    /// An application doesn't fit, the sides of an equation differ in type, or a term that has to
    /// be a proposition is none.
    BadTypes,
    /// A term passes the nesting limit.
    TooDeep,
}
