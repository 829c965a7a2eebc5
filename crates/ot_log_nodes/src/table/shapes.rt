//! Function types, the type of propositions, and equations.
ghost use Rattle.std.specs.Prelude.{◌≡◌, ◌≢◌, ℕ, [], ◌∷◌, None, IfOk, MatchOption};
ghost use Rattle.ot_logic.specs.Table.{Extends, IsInjective};
ghost use Rattle.ot_logic.specs.Naming.{names};
ghost use Rattle.ot_logic.specs.Hol.{fun_ty, bool_ty, as_fun_ty, equation};

use crate::node::{NameId, TermId, TypeId, TypeNode};
use crate::table::Nodes;
use ot_logic::Memory;

impl Nodes {
    ghost use Rattle.ot_log_nodes.specs.Items.{IsType, IsTerm, HasType, HasTerm, type_at, term_at, first_items};
    ghost use Rattle.ot_log_nodes.specs.Shapes.{IsFunction};

    /// The type of functions from `a` to `b`.
    pub fn fun(&mut self, a: TypeId, b: TypeId) -> Result<TypeId, Memory>
        requires from { HasType self.old a }
        requires to { HasType self.old b }
        ensures ok { IfOk result (λ id. IsType self.new id (fun_ty names (type_at self.old a)
            (type_at self.old b))) }
        ensures extends { Extends self.old self.new }
    {
        self.primitives();
        self.type_op(NameId::ARROW, &[a, b])
    }

    /// The type of propositions.
    pub fn boolean(&mut self) -> Result<TypeId, Memory>
        ensures ok { IfOk result (λ id. IsType self.new id (bool_ty names)) }
        ensures extends { Extends self.old self.new }
    {
        self.primitives();
        self.type_op(NameId::BOOL, &[])
    }

    /// The equation of two terms of this type.
    pub fn equation(&mut self, ty: TypeId, a: TermId, b: TermId) -> Result<TermId, Memory>
        requires ty { HasType self.old ty }
        requires a { HasTerm self.old a }
        requires b { HasTerm self.old b }
        ensures ok { IfOk result (λ id. IsTerm self.new id (equation names (type_at self.old ty)
            (term_at self.old a) (term_at self.old b))) }
        ensures extends { Extends self.old self.new }
    {
        self.primitives();
        let boolean = self.boolean()?;
        let predicate = self.fun(ty, boolean)?;
        let relation = self.fun(ty, predicate)?;
        let equals = self.constant(NameId::EQUALS, relation)?;
        let half = self.app(equals, a)?;
        self.app(half, b)
    }

    /// The argument type and the result type of a function type.
    pub fn as_fun(&self, id: TypeId) -> Option<(TypeId, TypeId)>
        requires { HasType self.now id }
        ensures { MatchOption result (as_fun_ty names (type_at self.now id) ≡ None) (λ p. IsFunction
            self.now id p.0 p.1) }
    {
        match self.type_node(id) {
            TypeNode::Var(_) => None,
            TypeNode::Op(name, args) => {
                self.primitives();
                two_of_arrow(*name, args.as_slice())
            }
        }
    }

    /// A law: the primitive names have their numbers, and nothing stands at two numbers.
    pub fn primitives(&self)
        ensures first { Extends first_items self.now }
        ensures once { IsInjective self.now }
    {
        // What holds of each table.
        let _nodes = &self.nodes;
    }
}

/// The arguments of `->`, where these are its name and two arguments.
fn two_of_arrow(name: NameId, args: &[TypeId]) -> Option<(TypeId, TypeId)>
    ensures { MatchOption result ((a b : ℕ) → name ≡ 0 → args.now ≢ a ∷ b ∷ [])
        (λ p. (name ≡ 0) × (args.now ≡ p.0 ∷ p.1 ∷ [])) }
{
    match args {
        [a, b] if name == NameId::ARROW => Some((*a, *b)),
        _ => None,
    }
}
