//! The table of terms as substitution sees it.
ghost use Rattle.std.specs.Prelude.{◌≡◌, ◌≢◌, ◌↔◌, ℕ, ◌<◌, ◌+◌, ◌-◌, ◌^◌, min, max, map, Some};
ghost use Rattle.std.specs.Prelude.{Err, slice_get, length, IfOk, OnErr, false, Decides};
ghost use Rattle.std.specs.List.{All};
ghost use Rattle.ot_logic.specs.Lists.{IsMember, AreDistinct};
ghost use Rattle.ot_logic.specs.Trees.{Ty, Variable, NVar, NConst, NApp, NAbs};
ghost use Rattle.ot_logic.specs.Hol.{fun_ty, IsClosed, IsFree, depth_ty, depth_limit, inst};
ghost use Rattle.ot_logic.specs.NamedTerms.{named_type, nameless};
ghost use Rattle.ot_logic.specs.Naming.{numbers};
ghost use Rattle.ot_type.specs.TypeTable.{type_at, images};
ghost use Rattle.ot_term.specs.Term.{TermTable};
ghost use Rattle.ot_term.specs.TermTable.{term_at, term_of, variable_of, is_within_limit};
ghost use Rattle.ot_term.specs.TermTable.{AreBelow, IsGrownTo, IsTermTable};

use crate::steps::Steps;
use crate::table::Terms;
use crate::term::{TermFault, TermId, TermNode, VarKey};
use ot_logic::{Memory, NameId};
use ot_type::{TableFault, TypeId, TypeSubst};
use std::alloc::Global;

/// A table of terms whose nodes are taken up one by one, each for a step over the ledger `L`. No other call gives the
/// parts of a node, but for the variables that are free in a term. The calls that make and read terms are those of
/// `Terms`, with the same answers.
pub trait Nodes<L> {
    ghost table: { Self → TermTable };

    /// The node of a term, for one step. Its parts have lower numbers.
    fn take(&self, id: TermId, steps: &mut Steps<L>) -> TermNode
        requires { id < length (table self.now).terms }
        ensures tree { slice_get (table self.now).terms id
            ≡ Some (term_of (table self.now).types (table self.now).terms result) }
        ensures below { AreBelow (length (table self.now).types) id result }
        ensures counted { steps.new ≡ min (steps.old + 1) (2 ^ 64 - 1) }
        ensures table { IsTermTable (table self.now) };

    /// The type of a term.
    fn type_of(&self, id: TermId) -> TypeId
        requires { id < length (table self.now).terms }
        ensures below { result < length (table self.now).types }
        ensures typed { named_type numbers (term_at (table self.now).terms id)
            ≡ Some (type_at (table self.now).types result) }
        ensures table { IsTermTable (table self.now) };

    /// Whether a term is this variable.
    fn is_var(&self, id: TermId, v: &VarKey) -> bool
        requires term { id < length (table self.now).terms }
        requires ty { v.now.ty < length (table self.now).types }
        ensures { Decides result
            (term_at (table self.now).terms id ≡ NVar (variable_of (table self.now).types v.now)) };

    /// The free variables of a term, each once.
    fn free_vars(&self, alloc: Global, id: TermId) -> Result<Vec<VarKey>, Memory>
        requires { id < length (table self.now).terms }
        ensures within { IfOk result (λ vars. All (λ v. v.ty < length (table self.now).types) vars.items) }
        ensures free { IfOk result
            (λ vars. (w : Variable ℕ) → IsMember w (map (variable_of (table self.now).types) vars.items)
            ↔ IsFree numbers w (nameless numbers (term_at (table self.now).terms id))) }
        ensures once { IfOk result (λ vars. AreDistinct vars.items) };

    /// The free variables of a term that have a name, each once.
    fn free_named(&self, alloc: Global, name: NameId, id: TermId) -> Result<Vec<VarKey>, Memory>
        requires { id < length (table self.now).terms }
        ensures within { IfOk result (λ vars. All (λ v. v.ty < length (table self.now).types) vars.items) }
        ensures free { IfOk result
            (λ vars. (w : Variable ℕ) → IsMember w (map (variable_of (table self.now).types) vars.items)
            ↔ ((w.name ≡ name) × IsFree numbers w (nameless numbers (term_at (table self.now).terms id)))) }
        ensures once { IfOk result (λ vars. AreDistinct vars.items) };

    /// Whether no variable is free in a term.
    fn is_closed(&self, id: TermId) -> bool
        requires { id < length (table self.now).terms }
        ensures { Decides result (IsClosed numbers (nameless numbers (term_at (table self.now).terms id))) };

    /// The instance of a type: each variable that the substitution holds is replaced by its type, all at once.
    fn type_inst(&mut self, s: &TypeSubst, id: TypeId) -> Result<TypeId, TableFault>
        requires id { id < length (table self.old).types }
        requires pairs { All (λ p. p.1 < length (table self.old).types) s.now }
        ensures ok { IfOk result (λ r. slice_get (table self.new).types r
            ≡ Some (inst numbers (images (table self.old).types s.now) (type_at (table self.old).types id))) }
        ensures nesting { result ≡ Err TableFault.Nesting → depth_limit < depth_ty numbers
            (inst numbers (images (table self.old).types s.now) (type_at (table self.old).types id)) }
        ensures terms { (table self.new).terms ≡ (table self.old).terms }
        ensures grown { IsGrownTo 0 (table self.old) (table self.new) };

    /// A variable.
    fn var(&mut self, v: VarKey) -> Result<TermId, Memory>
        requires { v.ty < length (table self.old).types }
        ensures ok { IfOk result
            (λ id. slice_get (table self.new).terms id ≡ Some (NVar (variable_of (table self.old).types v))) }
        ensures types { (table self.new).types ≡ (table self.old).types }
        ensures grown { IsGrownTo (v.name + 1) (table self.old) (table self.new) }
        ensures err { OnErr result (table self.new ≡ table self.old) };

    /// A constant at a type.
    fn constant(&mut self, name: NameId, ty: TypeId) -> Result<TermId, Memory>
        requires { ty < length (table self.old).types }
        ensures ok { IfOk result
            (λ id. slice_get (table self.new).terms id ≡ Some (NConst name (type_at (table self.old).types ty))) }
        ensures types { (table self.new).types ≡ (table self.old).types }
        ensures grown { IsGrownTo (name + 1) (table self.old) (table self.new) }
        ensures err { OnErr result (table self.new ≡ table self.old) };

    /// The application of a function to an argument.
    fn app(&mut self, f: TermId, x: TermId) -> Result<TermId, TermFault>
        requires f { f < length (table self.old).terms }
        requires x { x < length (table self.old).terms }
        ensures ok { IfOk result (λ id. slice_get (table self.new).terms id
            ≡ Some (NApp (term_at (table self.old).terms f) (term_at (table self.old).terms x))) }
        ensures not_function { result ≡ Err TermFault.NotFunction → (a b : Ty ℕ)
            → named_type numbers (term_at (table self.old).terms f) ≢ Some (fun_ty numbers a b) }
        ensures argument_type { result ≡ Err TermFault.ArgumentType → (a b : Ty ℕ)
            × (named_type numbers (term_at (table self.old).terms f) ≡ Some (fun_ty numbers a b))
            × (named_type numbers (term_at (table self.old).terms x) ≢ Some a) }
        ensures nesting { result ≡ Err TermFault.Nesting → (b : Ty ℕ)
            × (named_type numbers (NApp (term_at (table self.old).terms f) (term_at (table self.old).terms x))
            ≡ Some b)
            × (is_within_limit (NApp (term_at (table self.old).terms f) (term_at (table self.old).terms x)) ≡ false) }
        ensures types { (table self.new).types ≡ (table self.old).types }
        ensures grown { IsGrownTo 0 (table self.old) (table self.new) }
        ensures err { OnErr result (table self.new ≡ table self.old) };

    /// The abstraction of a variable from a body.
    fn abs(&mut self, v: VarKey, body: TermId) -> Result<TermId, TableFault>
        requires ty { v.ty < length (table self.old).types }
        requires body { body < length (table self.old).terms }
        ensures ok { IfOk result (λ id. slice_get (table self.new).terms id
            ≡ Some (NAbs (variable_of (table self.old).types v) (term_at (table self.old).terms body))) }
        ensures nesting { result ≡ Err TableFault.Nesting → is_within_limit
            (NAbs (variable_of (table self.old).types v) (term_at (table self.old).terms body)) ≡ false }
        ensures grown { IsGrownTo (max (v.name + 1) 1) (table self.old) (table self.new) }
        ensures err { OnErr result ((table self.new).terms ≡ (table self.old).terms) };
}

impl<L> Nodes<L> for Terms {
    ghost table = { λ t. t };

    fn take(&self, id: TermId, steps: &mut Steps<L>) -> TermNode {
        steps.add_one();
        *self.node(id)
    }

    fn type_of(&self, id: TermId) -> TypeId {
        self.type_of(id)
    }

    fn is_var(&self, id: TermId, v: &VarKey) -> bool {
        self.is_var(id, v)
    }

    fn free_vars(&self, alloc: Global, id: TermId) -> Result<Vec<VarKey>, Memory> {
        self.free_vars(alloc, id)
    }

    fn free_named(&self, alloc: Global, name: NameId, id: TermId) -> Result<Vec<VarKey>, Memory> {
        self.free_named(alloc, name, id)
    }

    fn is_closed(&self, id: TermId) -> bool {
        self.is_closed(id)
    }

    fn type_inst(&mut self, s: &TypeSubst, id: TypeId) -> Result<TypeId, TableFault> {
        self.type_inst(s, id)
    }

    fn var(&mut self, v: VarKey) -> Result<TermId, Memory> {
        self.var(v)
    }

    fn constant(&mut self, name: NameId, ty: TypeId) -> Result<TermId, Memory> {
        self.constant(name, ty)
    }

    fn app(&mut self, f: TermId, x: TermId) -> Result<TermId, TermFault> {
        self.app(f, x)
    }

    fn abs(&mut self, v: VarKey, body: TermId) -> Result<TermId, TableFault> {
        self.abs(v, body)
    }
}
