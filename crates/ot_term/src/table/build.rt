//! How terms are made.
ghost use Rattle.std.specs.Prelude.{◌≡◌, ◌≢◌, ℕ, ◌<◌, ◌+◌, max, Some, Err, slice_get, length, IfOk, OnErr, false};
ghost use Rattle.ot_logic.specs.Trees.{Ty, NVar, NConst, NApp, NAbs};
ghost use Rattle.ot_logic.specs.Hol.{fun_ty};
ghost use Rattle.ot_logic.specs.NamedTerms.{named_type};
ghost use Rattle.ot_logic.specs.Naming.{numbers};
ghost use Rattle.ot_type.specs.TypeTable.{type_at};

use crate::table::Terms;
use crate::term::{TermFault, TermId, TermNode, VarKey};
use ot_logic::{DEPTH_LIMIT, Memory, NameId};
use ot_type::{TableFault, TypeId};

impl Terms {
    ghost use Rattle.ot_term.specs.TermTable.{term_at, variable_of, is_within_limit, IsGrownTo, IsTermTable};

    /// A variable. `Memory` leaves the table as it was.
    pub fn var(&mut self, v: VarKey) -> Result<TermId, Memory>
        requires { v.ty < length self.old.types }
        ensures ok { IfOk result (λ id. slice_get self.new.terms id ≡ Some (NVar (variable_of self.old.types v))) }
        ensures types { self.new.types ≡ self.old.types }
        ensures grown { IsGrownTo (v.name + 1) self.old self.new }
        ensures err { OnErr result (self.new ≡ self.old) }
    {
        // The table's types are within the limit.
        let _types = &self.types;
        let ty = v.ty;
        self.intern(TermNode::Var(v), ty, 1)
    }

    /// A constant at a type. `Memory` leaves the table as it was.
    pub fn constant(&mut self, name: NameId, ty: TypeId) -> Result<TermId, Memory>
        requires { ty < length self.old.types }
        ensures ok { IfOk result
            (λ id. slice_get self.new.terms id ≡ Some (NConst name (type_at self.old.types ty))) }
        ensures types { self.new.types ≡ self.old.types }
        ensures grown { IsGrownTo (name + 1) self.old self.new }
        ensures err { OnErr result (self.new ≡ self.old) }
    {
        // The table's types are within the limit.
        let _types = &self.types;
        self.intern(TermNode::Const(name, ty), ty, 1)
    }

    /// The application of a function to an argument that it takes, whose type is this one.
    pub(super) fn apply(&mut self, f: TermId, x: TermId, ty: TypeId) -> Result<TermId, TableFault>
        requires f { f < length self.old.terms }
        requires x { x < length self.old.terms }
        requires ty { ty < length self.old.types }
        requires typed { named_type numbers (NApp (term_at self.old.terms f) (term_at self.old.terms x))
            ≡ Some (type_at self.old.types ty) }
        ensures ok { IfOk result
            (λ id. slice_get self.new.terms id ≡ Some (NApp (term_at self.old.terms f) (term_at self.old.terms x))) }
        ensures nesting { result ≡ Err TableFault.Nesting
            → is_within_limit (NApp (term_at self.old.terms f) (term_at self.old.terms x)) ≡ false }
        ensures types { self.new.types ≡ self.old.types }
        ensures grown { IsGrownTo 0 self.old self.new }
        ensures err { OnErr result (self.new ≡ self.old) }
    {
        let deepest = self.depth(f).max(self.depth(x));
        if deepest >= DEPTH_LIMIT {
            return Err(TableFault::Nesting);
        }
        let depth = deepest + 1;
        Ok(self.intern(TermNode::App(f, x), ty, depth)?)
    }

    /// The application of a function to an argument.
    ///
    /// `NotFunction` exactly where the type of `f` is no function type, `ArgumentType` exactly where it is one and takes
    /// arguments of another type than that of `x`, `Nesting` exactly where neither holds and the term would pass the
    /// nesting limit. A refusal leaves the table as it was.
    pub fn app(&mut self, f: TermId, x: TermId) -> Result<TermId, TermFault>
        requires f { f < length self.old.terms }
        requires x { x < length self.old.terms }
        ensures ok { IfOk result
            (λ id. slice_get self.new.terms id ≡ Some (NApp (term_at self.old.terms f) (term_at self.old.terms x))) }
        ensures not_function { result ≡ Err TermFault.NotFunction → (a b : Ty ℕ)
            → named_type numbers (term_at self.old.terms f) ≢ Some (fun_ty numbers a b) }
        ensures argument_type { result ≡ Err TermFault.ArgumentType → (a b : Ty ℕ)
            × (named_type numbers (term_at self.old.terms f) ≡ Some (fun_ty numbers a b))
            × (named_type numbers (term_at self.old.terms x) ≢ Some a) }
        ensures nesting { result ≡ Err TermFault.Nesting → (b : Ty ℕ)
            × (named_type numbers (NApp (term_at self.old.terms f) (term_at self.old.terms x)) ≡ Some b)
            × (is_within_limit (NApp (term_at self.old.terms f) (term_at self.old.terms x)) ≡ false) }
        ensures types { self.new.types ≡ self.old.types }
        ensures grown { IsGrownTo 0 self.old self.new }
        ensures err { OnErr result (self.new ≡ self.old) }
    {
        let ty = self.app_type(f, x)?;
        Ok(self.apply(f, x, ty)?)
    }

    /// The type of the application of a function to an argument.
    fn app_type(&self, f: TermId, x: TermId) -> Result<TypeId, TermFault>
        requires f { f < length self.now.terms }
        requires x { x < length self.now.terms }
        ensures below { IfOk result (λ ty. ty < length self.now.types) }
        ensures typed { IfOk result (λ ty.
            named_type numbers (NApp (term_at self.now.terms f) (term_at self.now.terms x))
            ≡ Some (type_at self.now.types ty)) }
        ensures not_function { result ≡ Err TermFault.NotFunction → (a b : Ty ℕ)
            → named_type numbers (term_at self.now.terms f) ≢ Some (fun_ty numbers a b) }
        ensures argument_type { result ≡ Err TermFault.ArgumentType → (a b : Ty ℕ)
            × (named_type numbers (term_at self.now.terms f) ≡ Some (fun_ty numbers a b))
            × (named_type numbers (term_at self.now.terms x) ≢ Some a) }
        ensures limit { result ≢ Err TermFault.Nesting }
        ensures table { IsTermTable self.now }
    {
        let Some(parts) = self.types.as_fun(self.type_of(f)) else {
            return Err(TermFault::NotFunction);
        };
        if parts.0 != self.type_of(x) {
            return Err(TermFault::ArgumentType);
        }
        Ok(parts.1)
    }

    /// The abstraction of a variable from a body.
    ///
    /// `Nesting` exactly where the term would pass the nesting limit, by its own type too. A refusal leaves the terms as
    /// they were; the types may have grown.
    pub fn abs(&mut self, v: VarKey, body: TermId) -> Result<TermId, TableFault>
        requires ty { v.ty < length self.old.types }
        requires body { body < length self.old.terms }
        ensures ok { IfOk result (λ id. slice_get self.new.terms id
            ≡ Some (NAbs (variable_of self.old.types v) (term_at self.old.terms body))) }
        ensures nesting { result ≡ Err TableFault.Nesting
            → is_within_limit (NAbs (variable_of self.old.types v) (term_at self.old.terms body)) ≡ false }
        ensures grown { IsGrownTo (max (v.name + 1) 1) self.old self.new }
        ensures err { OnErr result (self.new.terms ≡ self.old.terms) }
    {
        // What is there is within the limit, and its type is there.
        if let Some(id) = self.find(&TermNode::Abs(v, body)) {
            return Ok(id);
        }
        let inner = self.depth(body);
        if inner >= DEPTH_LIMIT {
            return Err(TableFault::Nesting);
        }
        let depth = inner + 1;
        let ty = self.abs_type(v, body)?;
        Ok(self.intern(TermNode::Abs(v, body), ty, depth)?)
    }

    /// The type of the abstraction of a variable from a body.
    fn abs_type(&mut self, v: VarKey, body: TermId) -> Result<TypeId, TableFault>
        requires ty { v.ty < length self.old.types }
        requires body { body < length self.old.terms }
        ensures below { IfOk result (λ ty. ty < length self.new.types) }
        ensures typed { IfOk result (λ ty.
            named_type numbers (NAbs (variable_of self.old.types v) (term_at self.old.terms body))
            ≡ Some (type_at self.new.types ty)) }
        ensures nesting { result ≡ Err TableFault.Nesting
            → is_within_limit (NAbs (variable_of self.old.types v) (term_at self.old.terms body)) ≡ false }
        ensures terms { self.new.terms ≡ self.old.terms }
        ensures grown { IsGrownTo 1 self.old self.new }
    {
        let of_body = self.type_of(body);
        self.type_fun(v.ty, of_body)
    }
}
