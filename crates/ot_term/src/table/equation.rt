//! Equations: how they are made, and how they are taken apart.
ghost use Rattle.std.specs.Prelude.{◌≡◌, ◌≢◌, ◌↔◌, ℕ, ◌<◌, [], Some, Err, slice_get};
ghost use Rattle.std.specs.Prelude.{length, IfOk, IfNone, IfSome, IsTrue, false};
ghost use Rattle.ot_logic.specs.Trees.{Ty, Named, NConst};
ghost use Rattle.ot_logic.specs.Hol.{bool_ty, depth_ty, depth_limit};
ghost use Rattle.ot_logic.specs.NamedTerms.{named_type};
ghost use Rattle.ot_logic.specs.Naming.{numbers};
ghost use Rattle.ot_type.specs.TypeTable.{type_at};

use crate::table::Terms;
use crate::term::{TermFault, TermId, TermNode};
use ot_logic::NameId;
use ot_type::{TableFault, TypeId, TypeNode};

/// The constant `=` at a type, and the types of its application to one term and to two.
#[derive(Clone, Copy)]
struct Equality {
    constant: TermId,
    test: TypeId,
    truth: TypeId,
}

impl Terms {
    ghost use Rattle.ot_term.specs.TermTable.{term_at, term_of, AreBelow, is_within_limit};
    ghost use Rattle.ot_term.specs.TermTable.{IsGrownTo};
    ghost use Rattle.ot_term.specs.Equality.{named_equation, equality_ty, IsEquality};

    /// The equation of two terms of one type.
    ///
    /// `ArgumentType` exactly where their types differ, `Nesting` exactly where they are the same and the equation would
    /// pass the nesting limit; never `NotFunction`. A refusal may leave more types and terms than there were.
    pub fn eq(&mut self, a: TermId, b: TermId) -> Result<TermId, TermFault>
        requires a { a < length self.old.terms }
        requires b { b < length self.old.terms }
        ensures ok { IfOk result (λ id. (ty : Ty ℕ) × (named_type numbers (term_at self.old.terms a) ≡ Some ty)
            × (slice_get self.new.terms id
            ≡ Some (named_equation ty (term_at self.old.terms a) (term_at self.old.terms b)))) }
        ensures not_function { result ≢ Err TermFault.NotFunction }
        ensures argument_type { result ≡ Err TermFault.ArgumentType
            → named_type numbers (term_at self.old.terms a) ≢ named_type numbers (term_at self.old.terms b) }
        ensures nesting { result ≡ Err TermFault.Nesting → (ty : Ty ℕ)
            × (named_type numbers (term_at self.old.terms a) ≡ Some ty)
            × (named_type numbers (term_at self.old.terms b) ≡ Some ty)
            × (is_within_limit (named_equation ty (term_at self.old.terms a) (term_at self.old.terms b)) ≡ false) }
        ensures grown { IsGrownTo 3 self.old self.new }
    {
        let ty = self.type_of(a);
        if ty != self.type_of(b) {
            return Err(TermFault::ArgumentType);
        }
        Ok(self.equation(ty, a, b)?)
    }

    /// The two sides of an equation; None exactly where the term is none. The constant `=` counts only at a type
    /// `a -> (a -> bool)`.
    #[inline(always)]
    pub fn as_eq(&self, id: TermId) -> Option<(TermId, TermId)>
        requires { id < length self.now.terms }
        ensures none { IfNone result
            ((ty : Ty ℕ) (a b : Named ℕ) → term_at self.now.terms id ≢ named_equation ty a b) }
        ensures sides { IfSome result (λ p. (ty : Ty ℕ)
            × (term_at self.now.terms id ≡ named_equation ty (term_at self.now.terms p.0)
            (term_at self.now.terms p.1))) }
        ensures below { IfSome result (λ p. (p.0 < id) × (p.1 < id)) }
    {
        let TermNode::App(left, b) = *self.node(id) else {
            return None;
        };
        let TermNode::App(equals, a) = *self.node(left) else {
            return None;
        };
        if self.is_equality(equals) {
            Some((a, b))
        } else {
            None
        }
    }

    /// Whether the term is the constant `=` at a type at which it is equality.
    fn is_equality(&self, id: TermId) -> bool
        requires { id < length self.now.terms }
        ensures { IsTrue result ↔ (ty : Ty ℕ) × (term_at self.now.terms id ≡ NConst numbers.equals (equality_ty ty)) }
    {
        match *self.node(id) {
            TermNode::Const(name, ty) => name == NameId::EQUALS && self.is_equality_type(ty),
            _ => false,
        }
    }

    /// Whether the type is `a -> (a -> bool)` for some a.
    fn is_equality_type(&self, ty: TypeId) -> bool
        requires { ty < length self.now.types }
        ensures { IsTrue result ↔ (a : Ty ℕ) × (type_at self.now.types ty ≡ equality_ty a) }
    {
        let Some(outer) = self.types.as_fun(ty) else {
            return false;
        };
        let Some(inner) = self.types.as_fun(outer.1) else {
            return false;
        };
        outer.0 == inner.0 && self.is_bool(inner.1)
    }

    /// Whether the type is that of propositions.
    fn is_bool(&self, ty: TypeId) -> bool
        requires { ty < length self.now.types }
        ensures { IsTrue result ↔ (type_at self.now.types ty ≡ bool_ty numbers) }
    {
        match self.types.node(ty) {
            TypeNode::Op(name, args) => names_bool(*name, args.as_slice()),
            TypeNode::Var(_) => false,
        }
    }

    /// The equation of two terms of this type.
    fn equation(&mut self, ty: TypeId, a: TermId, b: TermId) -> Result<TermId, TableFault>
        requires ty { ty < length self.old.types }
        requires a { a < length self.old.terms }
        requires b { b < length self.old.terms }
        requires typed_a { named_type numbers (term_at self.old.terms a) ≡ Some (type_at self.old.types ty) }
        requires typed_b { named_type numbers (term_at self.old.terms b) ≡ Some (type_at self.old.types ty) }
        ensures ok { IfOk result
            (λ id. slice_get self.new.terms id ≡ Some
            (named_equation (type_at self.old.types ty) (term_at self.old.terms a) (term_at self.old.terms b))) }
        ensures nesting { result ≡ Err TableFault.Nesting
            → is_within_limit (named_equation (type_at self.old.types ty) (term_at self.old.terms a)
            (term_at self.old.terms b)) ≡ false }
        ensures grown { IsGrownTo 3 self.old self.new }
    {
        let equality = self.equality(ty)?;
        let left = self.apply(equality.constant, a, equality.test)?;
        self.apply(left, b, equality.truth)
    }

    /// The constant `=` between terms of this type, with the types of its application to one term and to two.
    fn equality(&mut self, ty: TypeId) -> Result<Equality, TableFault>
        requires { ty < length self.old.types }
        ensures ok { IfOk result (IsEquality self.new (type_at self.old.types ty)) }
        ensures nesting { result ≡ Err TableFault.Nesting → depth_limit
            < depth_ty numbers (equality_ty (type_at self.old.types ty)) }
        ensures grown { IsGrownTo 3 self.old self.new }
    {
        // What holds of each table.
        let _types = self.types();
        if let Some(known) = self.known_equality(ty) {
            return Ok(known);
        }
        let made = self.made_equality(ty)?;
        self.equalities.insert(ty, made.constant)?;
        Ok(made)
    }

    /// The same, where an earlier call has noted the constant. What was noted is looked at, so that no more than its
    /// number has to be kept.
    fn known_equality(&self, ty: TypeId) -> Option<Equality>
        requires { ty < length self.now.types }
        ensures { IfSome result (IsEquality self.now (type_at self.now.types ty)) }
    {
        let constant = *self.equalities.get(&ty)?;
        let relation = self.type_of_equals(constant)?;
        let outer = self.types.as_fun(relation)?;
        let inner = self.types.as_fun(outer.1)?;
        if outer.0 == ty && inner.0 == ty && self.is_bool(inner.1) {
            Some(Equality {
                constant,
                test: outer.1,
                truth: inner.1,
            })
        } else {
            None
        }
    }

    /// The type of a constant `=`; None where the number is that of no such constant.
    fn type_of_equals(&self, id: TermId) -> Option<TypeId>
        ensures { IfSome result (λ ty. (ty < length self.now.types)
            × (slice_get self.now.terms id ≡ Some (NConst numbers.equals (type_at self.now.types ty)))) }
    {
        match *self.node_of(id)? {
            TermNode::Const(name, ty) if name == NameId::EQUALS => Some(ty),
            _ => None,
        }
    }

    /// The node of a number, where the table has one.
    fn node_of(&self, id: TermId) -> Option<&TermNode>
        ensures tree { IfSome result
            (λ node. slice_get self.now.terms id ≡ Some (term_of self.now.types self.now.terms node.now)) }
        ensures below { IfSome result (λ node. AreBelow (length self.now.types) id node.now) }
    {
        match self.nodes.get_index(id.0 as usize) {
            Some((node, _)) => Some(node),
            None => None,
        }
    }

    /// The constant `=` at a type, made or found among the terms.
    fn made_equality(&mut self, ty: TypeId) -> Result<Equality, TableFault>
        requires { ty < length self.old.types }
        ensures ok { IfOk result (IsEquality self.new (type_at self.old.types ty)) }
        ensures nesting { result ≡ Err TableFault.Nesting → depth_limit
            < depth_ty numbers (equality_ty (type_at self.old.types ty)) }
        ensures grown { IsGrownTo 3 self.old self.new }
    {
        let truth = self.type_bool()?;
        let test = self.type_fun(ty, truth)?;
        let relation = self.type_fun(ty, test)?;
        let constant = self.constant(NameId::EQUALS, relation)?;
        Ok(Equality {
            constant,
            test,
            truth,
        })
    }
}

/// Whether the name and arguments are those of the type of propositions.
fn names_bool(name: NameId, args: &[TypeId]) -> bool
    ensures { IsTrue result ↔ (name ≡ 1) × (args.now ≡ []) }
{
    name == NameId::BOOL && args.is_empty()
}
