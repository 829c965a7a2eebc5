/// What an object of the machine is.
#[derive(Clone, Copy, PartialEq, Eq)]
pub enum Kind {
    Num,
    Name,
    List,
    TyOp,
    Ty,
    Con,
    Var,
    Tm,
    Thm,
}
