//! Plain types and terms: their parts, and whether two are equal.
ghost use Rattle.std.specs.Prelude.{◌≡◌, map, length, true, false, IfNone, IfSome};
ghost use Rattle.ot_text.specs.Texts.{is_function};
ghost use Rattle.ot_logic.specs.Naming.{names};
ghost use Rattle.ot_logic.specs.Trees.{TyOp};
ghost use Rattle.ot_logic.specs.Hol.{same_ty, same_tys, same_tm, fun_ty, bool_ty};
ghost use Rattle.ot_logic.specs.PlainTrees.{type_of_tree, tys_of, term_of_tree};

use ot_logic::{Name, Tm, Ty};
use ot_text::is_text;

/// Whether two types are equal.
#[cycle(same)]
#[tactic(auto, using(ot_logic::proofs::PlainTrees::type_steps))]
pub(crate) fn same_type(left: &Ty, right: &Ty) -> bool
    ensures { result ≡ same_ty names (type_of_tree left.now) (type_of_tree right.now) }
{
    match (left, right) {
        (Ty::Var(n), Ty::Var(m)) => *n == *m,
        (Ty::Op(n, ts), Ty::Op(m, us)) => *n == *m && same_types(ts, us),
        (Ty::Var(_), Ty::Op(_, _)) => false,
        (Ty::Op(_, _), Ty::Var(_)) => false,
    }
}

#[cycle(same)]
fn same_types(left: &Vec<Ty>, right: &Vec<Ty>) -> bool
    ensures { result ≡ same_tys names (tys_of (map type_of_tree left.now.items))
        (tys_of (map type_of_tree right.now.items)) }
{
    if left.len() != right.len() {
        return false;
    }
    for (i, ty) in left.iter().enumerate() {
        if !same_type(ty, &right[i]) {
            return false;
        }
    }
    true
}

/// Whether a type is that of propositions.
#[tactic(auto, using(ot_logic::proofs::PlainTrees::type_steps))]
pub(crate) fn is_bool(ty: &Ty) -> bool
    ensures { result ≡ same_ty names (type_of_tree ty.now) (bool_ty names) }
{
    match ty {
        Ty::Op(name, args) => {
            if !args.is_empty() {
                return false;
            }
            is_text(name, b"bool")
        }
        Ty::Var(_) => false,
    }
}

/// The argument type and the result type of a function type.
pub(crate) fn function_parts(ty: &Ty) -> Option<(&Ty, &Ty)>
    ensures none { IfNone result (is_function names (type_of_tree ty.now) ≡ false) }
    ensures some { IfSome result
        (λ p. type_of_tree ty.now ≡ fun_ty names (type_of_tree p.0.now) (type_of_tree p.1.now)) }
{
    match ty {
        Ty::Op(name, args) => {
            if is_arrow(name, args) {
                Some((&args[0], &args[1]))
            } else {
                None
            }
        }
        Ty::Var(_) => None,
    }
}

/// Whether an operator with these arguments is `->` with two.
pub(crate) fn is_arrow(name: &Name, args: &Vec<Ty>) -> bool
    ensures function { result ≡ is_function names (TyOp name.now (tys_of (map type_of_tree args.now.items))) }
    ensures two { result ≡ true → length args.now.items ≡ 2 }
{
    ot_text::is_arrow(name, args.len())
}

/// Whether two terms are equal.
#[tactic(auto, using(ot_logic::proofs::PlainTrees::term_steps))]
pub(crate) fn same_term(left: &Tm, right: &Tm) -> bool
    ensures { result ≡ same_tm names (term_of_tree left.now) (term_of_tree right.now) }
{
    match left {
        Tm::Free(n, t) => match right {
            Tm::Free(m, u) => *n == *m && same_type(t, u),
            Tm::Con(_, _) => false,
            Tm::Bound(_) => false,
            Tm::App(_, _) => false,
            Tm::Abs(_, _) => false,
        },
        Tm::Con(n, t) => match right {
            Tm::Free(_, _) => false,
            Tm::Con(m, u) => *n == *m && same_type(t, u),
            Tm::Bound(_) => false,
            Tm::App(_, _) => false,
            Tm::Abs(_, _) => false,
        },
        Tm::Bound(i) => match right {
            Tm::Free(_, _) => false,
            Tm::Con(_, _) => false,
            Tm::Bound(j) => *i == *j,
            Tm::App(_, _) => false,
            Tm::Abs(_, _) => false,
        },
        Tm::App(f, x) => match right {
            Tm::Free(_, _) => false,
            Tm::Con(_, _) => false,
            Tm::Bound(_) => false,
            Tm::App(g, y) => same_term(f, g) && same_term(x, y),
            Tm::Abs(_, _) => false,
        },
        Tm::Abs(t, a) => match right {
            Tm::Free(_, _) => false,
            Tm::Con(_, _) => false,
            Tm::Bound(_) => false,
            Tm::App(_, _) => false,
            Tm::Abs(u, b) => same_type(t, u) && same_term(a, b),
        },
    }
}
