//! Which of a kernel's terms are relations that are written between two propositions.
ghost use Rattle.std.specs.Prelude.{◌≡◌, ◌<◌, length, IfNone, IfSome};
ghost use Rattle.ot_logic.specs.Naming.{names};
ghost use Rattle.ot_logic.specs.Hol.{bool_ty, same_ty};
ghost use Rattle.ot_kernel.specs.State.{name_at, type_at};
ghost use Rattle.ot_forms.specs.Meaning.{relation_ty};
ghost use Rattle.ot_pretty.specs.Spines.{is_relation_constant};
ghost use Rattle.ot_pretty.specs.Under.{IsRelationName, IsNoRelationName, IsHalfRelation, IsNoHalfRelation};

use ot_kernel::Kernel;
use ot_logic::NameId;
use ot_parse::{Notation, WordKind, base_of, is_operator};
use ot_print::nodes::function_parts;
use ot_term::{TermId, TermNode};
use ot_type::{TypeId, TypeNode};
use ot_view::{term_node, type_node};

/// The constant and the left side of a hidden relation between propositions that is applied to one term.
pub(crate) fn relation_parts(
    kernel: &Kernel,
    notation: &Notation,
    id: TermId,
) -> Option<(NameId, TermId)>
    requires { id < length kernel.now.terms }
    ensures none { IfNone result (IsNoHalfRelation notation.now kernel.now id) }
    ensures parts { IfSome result (λ p. IsHalfRelation notation.now kernel.now id p.0 p.1) }
    ensures inside { IfSome result (λ p. (p.0 < length kernel.now.names) × (p.1 < id)) }
{
    match *term_node(kernel, id) {
        TermNode::App(head, left) => match relation_name(kernel, notation, head) {
            Some(name) => Some((name, left)),
            None => None,
        },
        TermNode::Var(_) | TermNode::Const(_, _) | TermNode::Abs(_, _) => None,
    }
}

/// The name of a constant that is a hidden relation between propositions.
fn relation_name(kernel: &Kernel, notation: &Notation, id: TermId) -> Option<NameId>
    requires { id < length kernel.now.terms }
    ensures none { IfNone result (IsNoRelationName notation.now kernel.now id) }
    ensures constant { IfSome result (IsRelationName notation.now kernel.now id) }
    ensures inside { IfSome result (λ n. n < length kernel.now.names) }
{
    match *term_node(kernel, id) {
        TermNode::Const(name, ty) => {
            if is_relation(kernel, notation, name, ty) {
                Some(name)
            } else {
                None
            }
        }
        TermNode::Var(_) | TermNode::App(_, _) | TermNode::Abs(_, _) => None,
    }
}

/// Whether a constant is hidden behind an operator word, and relates propositions.
fn is_relation(kernel: &Kernel, notation: &Notation, name: NameId, ty: TypeId) -> bool
    requires name { name < length kernel.now.names }
    requires ty { ty < length kernel.now.types }
    ensures { result ≡ is_relation_constant notation.now (name_at kernel.now name) (type_at kernel.now ty) }
{
    let word = kernel.names().get(name);
    if !notation.is_hidden(WordKind::Con, word) {
        return false;
    }
    if !is_operator(base_of(word)) {
        return false;
    }
    is_relation_type(kernel, ty)
}

/// Whether a type is bool -> (bool -> bool).
fn is_relation_type(kernel: &Kernel, ty: TypeId) -> bool
    requires { ty < length kernel.now.types }
    ensures { result ≡ same_ty names (type_at kernel.now ty) relation_ty }
{
    let Some((left, rest)) = function_parts(kernel, ty) else {
        return false;
    };
    if !is_bool(kernel, left) {
        return false;
    }
    let Some((right, value)) = function_parts(kernel, rest) else {
        return false;
    };
    if !is_bool(kernel, right) {
        return false;
    }
    is_bool(kernel, value)
}

/// Whether a type is that of propositions.
fn is_bool(kernel: &Kernel, ty: TypeId) -> bool
    requires { ty < length kernel.now.types }
    ensures { result ≡ same_ty names (type_at kernel.now ty) (bool_ty names) }
{
    match type_node(kernel, ty) {
        TypeNode::Op(name, args) => {
            if !args.is_empty() {
                return false;
            }
            is_bool_name(kernel, *name)
        }
        TypeNode::Var(_) => false,
    }
}

/// Whether a name is that of the type of propositions.
fn is_bool_name(kernel: &Kernel, name: NameId) -> bool
    requires { name < length kernel.now.names }
    ensures { result ≡ names.same (name_at kernel.now name) names.bool_name }
{
    kernel.sound();
    name == NameId::BOOL
}
