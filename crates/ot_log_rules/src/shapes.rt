//! The shapes that steps ask for: applications, equations, and the type of propositions.
ghost use Rattle.std.specs.Prelude.{◌≡◌, ◌≢◌, ℕ, None, MatchOption};
ghost use Rattle.std.specs.Bool.{Decides};
ghost use Rattle.ot_logic.specs.Names.{Name};
ghost use Rattle.ot_logic.specs.Naming.{names};
ghost use Rattle.ot_logic.specs.Trees.{Ty, Tm, App};
ghost use Rattle.ot_logic.specs.Hol.{fun_ty, bool_ty, as_equation};
ghost use Rattle.ot_log_nodes.specs.Items.{HasType, HasTerm, type_at, term_at};
ghost use Rattle.ot_log_rules.specs.Shapes.{IsApp, equals_at, IsEquals, IsRelation, AreSides};

use ot_log_nodes::{NameId, Nodes, TermId, TermNode, TypeId, TypeNode};

/// An equation: the type of its sides, and the two sides.
#[derive(Clone, Copy)]
pub struct Sides {
    pub ty: TypeId,
    pub left: TermId,
    pub right: TermId,
}

/// The function and the argument of an application.
pub(crate) fn as_app(nodes: &Nodes, id: TermId) -> Option<(TermId, TermId)>
    requires { HasTerm nodes.now id }
    ensures { MatchOption result ((f x : Tm Name) → term_at nodes.now id ≢ App f x)
        (λ p. IsApp nodes.now id p.0 p.1) }
{
    match nodes.term_node(id) {
        TermNode::App(f, x) => Some((f, x)),
        _ => None,
    }
}

/// The type and the two sides of a term that is an equation.
pub fn as_equation(nodes: &Nodes, id: TermId) -> Option<Sides>
    requires { HasTerm nodes.now id }
    ensures { MatchOption result (as_equation names (term_at nodes.now id) ≡ None) (AreSides nodes.now id) }
{
    let (half, right) = as_app(nodes, id)?;
    let (equals, left) = as_app(nodes, half)?;
    let ty = as_equals(nodes, equals)?;
    Some(Sides { ty, left, right })
}

/// The type of the sides, where the term is the equality relation.
fn as_equals(nodes: &Nodes, id: TermId) -> Option<TypeId>
    requires { HasTerm nodes.now id }
    ensures { MatchOption result ((a : Ty Name) → term_at nodes.now id ≢ equals_at a) (IsEquals nodes.now id) }
{
    match nodes.term_node(id) {
        TermNode::Const(name, ty) => {
            nodes.primitives();
            if name == NameId::EQUALS {
                as_relation(nodes, ty)
            } else {
                None
            }
        }
        _ => None,
    }
}

/// The type of the arguments, where the type is that of relations over one type.
fn as_relation(nodes: &Nodes, ty: TypeId) -> Option<TypeId>
    requires { HasType nodes.now ty }
    ensures { MatchOption result ((a : Ty Name)
        → type_at nodes.now ty ≢ fun_ty names a (fun_ty names a (bool_ty names))) (IsRelation nodes.now ty) }
{
    nodes.primitives();
    let (first, predicate) = nodes.as_fun(ty)?;
    let (second, truth) = nodes.as_fun(predicate)?;
    if first == second && is_boolean(nodes, truth) {
        Some(first)
    } else {
        None
    }
}

/// Whether the type is that of propositions.
pub(crate) fn is_boolean(nodes: &Nodes, ty: TypeId) -> bool
    requires { HasType nodes.now ty }
    ensures { Decides result (type_at nodes.now ty ≡ bool_ty names) }
{
    match nodes.type_node(ty) {
        TypeNode::Op(name, args) => {
            nodes.primitives();
            *name == NameId::BOOL && args.is_empty()
        }
        TypeNode::Var(_) => false,
    }
}
