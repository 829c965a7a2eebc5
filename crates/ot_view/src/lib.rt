//! What a kernel's numbers stand for, one node at a time, and the binders around a term.
#![tactic(auto)]

ghost use Rattle.std.specs.Prelude.{◌≡◌, ◌<◌, ◌↔◌, length, map, Some, IfOk, MatchOption};
ghost use Rattle.ot_logic.specs.Lists.{IsMember};
ghost use Rattle.ot_logic.specs.Names.{Name as NameValue};
ghost use Rattle.ot_logic.specs.Naming.{names};
ghost use Rattle.ot_logic.specs.Trees.{Variable, NApp, NAbs};
ghost use Rattle.ot_logic.specs.Hol.{same_ty, same_tm, same_var};
ghost use Rattle.ot_logic.specs.NamedTerms.{named_type, IsFreeIn};
ghost use Rattle.ot_kernel.specs.State.{type_at, variable_at, named_at, term_at};
ghost use Rattle.ot_view.specs.Nodes.{type_tree, IsTypeNode, term_tree, IsTermNode};
ghost use Rattle.ot_view.specs.Nodes.{IsKey, AreKeysIn, IsNoApplication, IsNoAbstraction};

mod binders;

pub use binders::{Binders, place};
use ot_alpha::alpha_eq;
use ot_kernel::Kernel;
use ot_logic::Memory;
use ot_term::{TermId, TermNode, VarKey};
use ot_type::{TypeId, TypeNode};
use std::alloc::Global;

/// The node of a type of the kernel: what it shows of the type is what the number stands for. Its name is of the
/// kernel, and its arguments have lower numbers than the type.
pub fn type_node(kernel: &Kernel, id: TypeId) -> &TypeNode
    requires { id < length kernel.now.types }
    ensures tree { type_at kernel.now id ≡ type_tree kernel.now result.now }
    ensures inside { IsTypeNode kernel.now id result.now }
{
    kernel.sound();
    kernel.terms().types().node(id)
}

/// The node of a term of the kernel: what it shows of the term is what the number stands for. Its names and types are
/// of the kernel, and its parts have lower numbers than the term.
pub fn term_node(kernel: &Kernel, id: TermId) -> &TermNode
    requires { id < length kernel.now.terms }
    ensures tree { named_at kernel.now.terms id ≡ term_tree kernel.now result.now }
    ensures inside { IsTermNode kernel.now id result.now }
{
    kernel.sound();
    kernel.terms().node(id)
}

/// The function and the argument of a term of the kernel, both of the kernel; none exactly where the term is no
/// application.
pub fn application(kernel: &Kernel, id: TermId) -> Option<(TermId, TermId)>
    requires { id < length kernel.now.terms }
    ensures { MatchOption result (IsNoApplication (named_at kernel.now.terms id)) (λ p.
        (named_at kernel.now.terms id ≡ NApp (named_at kernel.now.terms p.0) (named_at kernel.now.terms p.1))
        × (p.0 < length kernel.now.terms) × (p.1 < length kernel.now.terms)) }
{
    match term_node(kernel, id) {
        TermNode::App(f, x) => Some((*f, *x)),
        TermNode::Var(_) | TermNode::Const(_, _) | TermNode::Abs(_, _) => None,
    }
}

/// The variable and the body of a term of the kernel, both of the kernel; none exactly where the term is no
/// abstraction.
pub fn abstraction(kernel: &Kernel, id: TermId) -> Option<(VarKey, TermId)>
    requires { id < length kernel.now.terms }
    ensures { MatchOption result (IsNoAbstraction (named_at kernel.now.terms id)) (λ p.
        (named_at kernel.now.terms id ≡ NAbs (variable_at kernel.now p.0) (named_at kernel.now.terms p.1))
        × IsKey kernel.now p.0 × (p.1 < length kernel.now.terms)) }
{
    match term_node(kernel, id) {
        TermNode::Abs(v, body) => Some((*v, *body)),
        TermNode::Var(_) | TermNode::Const(_, _) | TermNode::App(_, _) => None,
    }
}

/// Whether two numbers of types of the kernel stand for one type.
pub fn same_type(kernel: &Kernel, a: TypeId, b: TypeId) -> bool
    requires left { a < length kernel.now.types }
    requires right { b < length kernel.now.types }
    ensures { result ≡ same_ty names (type_at kernel.now a) (type_at kernel.now b) }
{
    // What holds of each kernel, and of its table of terms.
    kernel.sound();
    let _terms = kernel.terms();
    a == b
}

/// Whether two numbers of terms of the kernel stand for one term, up to the names of binders.
pub fn same_term(kernel: &Kernel, a: TermId, b: TermId) -> bool
    requires left { a < length kernel.now.terms }
    requires right { b < length kernel.now.terms }
    ensures { result ≡ same_tm names (term_at kernel.now a) (term_at kernel.now b) }
{
    kernel.sound();
    alpha_eq(kernel.terms(), a, b)
}

/// Whether two keys, whose names and types are of the kernel, stand for one variable.
pub fn same_variable(kernel: &Kernel, v: &VarKey, w: &VarKey) -> bool
    requires left { IsKey kernel.now v.now }
    requires right { IsKey kernel.now w.now }
    ensures { result ≡ same_var names (variable_at kernel.now v.now) (variable_at kernel.now w.now) }
{
    // What holds of each kernel, and of its table of terms.
    kernel.sound();
    let _terms = kernel.terms();
    v.name == w.name && v.ty == w.ty
}

/// The type of a term of the kernel, which is of the kernel.
pub fn type_of(kernel: &Kernel, id: TermId) -> TypeId
    requires { id < length kernel.now.terms }
    ensures typed { named_type names (named_at kernel.now.terms id) ≡ Some (type_at kernel.now result) }
    ensures below { result < length kernel.now.types }
{
    kernel.sound();
    kernel.terms().type_of(id)
}

/// The free variables of a term of the kernel, in no stated order. Their names and types are of the kernel.
pub fn free_vars(alloc: Global, kernel: &Kernel, id: TermId) -> Result<Vec<VarKey>, Memory>
    requires { id < length kernel.now.terms }
    ensures inside { IfOk result (λ vars. AreKeysIn kernel.now vars.items) }
    ensures free { IfOk result (λ vars. (v : Variable NameValue)
        → IsMember v (map (variable_at kernel.now) vars.items) ↔ IsFreeIn names v (named_at kernel.now.terms id)) }
{
    kernel.sound();
    kernel.terms().free_vars(alloc, id)
}
