//! The calls on types, passed on to the table of types. The terms stay as they are.
ghost use Rattle.std.specs.Prelude.{◌≡◌, ℕ, ◌<◌, ◌+◌, Some, Err, slice_get, length, IfOk, OnErr};
ghost use Rattle.std.specs.List.{All};
ghost use Rattle.ot_logic.specs.Trees.{Ty, TyOp, TyVar};
ghost use Rattle.ot_logic.specs.Hol.{depth_ty, depth_limit, fun_ty, bool_ty, inst};
ghost use Rattle.ot_logic.specs.Naming.{numbers};
ghost use Rattle.ot_type.specs.TypeTable.{type_at, types_at, images};

use crate::table::Terms;
use ot_logic::{Memory, NameId};
use ot_type::{TableFault, TypeId, TypeSubst};

impl Terms {
    ghost use Rattle.ot_term.specs.TermTable.{IsGrownTo};

    /// The type variable of a name. `Memory` leaves the table as it was.
    pub fn type_var(&mut self, name: NameId) -> Result<TypeId, Memory>
        ensures ok { IfOk result (λ id. slice_get self.new.types id ≡ Some (TyVar name)) }
        ensures terms { self.new.terms ≡ self.old.terms }
        ensures grown { IsGrownTo (name + 1) self.old self.new }
        ensures err { OnErr result (self.new ≡ self.old) }
    {
        self.types.var(name)
    }

    /// The type of an operator and its arguments, which are of this table. `Nesting` where the type would be deeper
    /// than 4,096; a refusal leaves the table as it was.
    pub fn type_op(&mut self, name: NameId, args: &[TypeId]) -> Result<TypeId, TableFault>
        requires { All (λ i. i < length self.old.types) args.now }
        ensures ok { IfOk result
            (λ id. slice_get self.new.types id ≡ Some (TyOp name (types_at self.old.types args.now))) }
        ensures nesting { result ≡ Err TableFault.Nesting → depth_limit
            < depth_ty numbers (TyOp name (types_at self.old.types args.now)) }
        ensures terms { self.new.terms ≡ self.old.terms }
        ensures grown { IsGrownTo (name + 1) self.old self.new }
        ensures err { OnErr result (self.new ≡ self.old) }
    {
        self.types.op(name, args)
    }

    /// The function type. `Nesting` where it would be deeper than 4,096; a refusal leaves the table as it was.
    pub fn type_fun(&mut self, a: TypeId, b: TypeId) -> Result<TypeId, TableFault>
        requires from { a < length self.old.types }
        requires to { b < length self.old.types }
        ensures ok { IfOk result (λ id. slice_get self.new.types id
            ≡ Some (fun_ty numbers (type_at self.old.types a) (type_at self.old.types b))) }
        ensures nesting { result ≡ Err TableFault.Nesting → depth_limit
            < depth_ty numbers (fun_ty numbers (type_at self.old.types a) (type_at self.old.types b)) }
        ensures terms { self.new.terms ≡ self.old.terms }
        ensures grown { IsGrownTo 1 self.old self.new }
        ensures err { OnErr result (self.new ≡ self.old) }
    {
        self.types.fun(a, b)
    }

    /// The type of propositions. `Memory` leaves the table as it was.
    pub fn type_bool(&mut self) -> Result<TypeId, Memory>
        ensures ok { IfOk result (λ id. slice_get self.new.types id ≡ Some (bool_ty numbers)) }
        ensures terms { self.new.terms ≡ self.old.terms }
        ensures grown { IsGrownTo 2 self.old self.new }
        ensures err { OnErr result (self.new ≡ self.old) }
    {
        self.types.boolean()
    }

    /// The instance of a type: each variable that the substitution holds is replaced by its type. The substitution's
    /// types are of this table. `Nesting` where the instance would be deeper than 4,096; a refusal may leave more
    /// types.
    pub fn type_inst(&mut self, s: &TypeSubst, id: TypeId) -> Result<TypeId, TableFault>
        requires id { id < length self.old.types }
        requires pairs { All (λ p. p.1 < length self.old.types) s.now }
        ensures ok { IfOk result (λ r. slice_get self.new.types r
            ≡ Some (inst numbers (images self.old.types s.now) (type_at self.old.types id))) }
        ensures nesting { result ≡ Err TableFault.Nesting → depth_limit
            < depth_ty numbers (inst numbers (images self.old.types s.now) (type_at self.old.types id)) }
        ensures terms { self.new.terms ≡ self.old.terms }
        ensures grown { IsGrownTo 0 self.old self.new }
    {
        self.types.inst(s, id)
    }
}
