ghost use Rattle.std.specs.Prelude.{◌≡◌, ◌<◌, ◌≤◌, ℕ, List, Some, Err, slice_get, length, IfOk, OnOk};
ghost use Rattle.std.specs.List.{All, AllZip};
ghost use Rattle.ot_logic.specs.Table.{Extends};
ghost use Rattle.ot_logic.specs.Hol.{depth_ty, depth_all, depth_limit, inst, inst_all, type_at as image_of};
ghost use Rattle.ot_logic.specs.Naming.{numbers};
ghost use Rattle.ot_logic.specs.Bounds.{names_in};
ghost use Rattle.ot_logic.specs.Trees.{Ty};
ghost use Rattle.ot_type.specs.TypeTable.{type_at};
ghost use Rattle.ot_type.specs.Instance.{IsMemo};

use crate::fault::TableFault;
use crate::node::TypeNode;
use crate::subst::TypeSubst;
use crate::table::{TypeId, Types};
use indexmap::IndexMap;
use ot_logic::Memory;
use smallvec::SmallVec;

/// A type that is nested deeper than this, or has an operator with more arguments than this, is worked on once in a call.
const SMALL_DEPTH: u32 = 4;

const FEW: usize = 2;

impl Types {
    ghost use Rattle.ot_type.specs.TypeTable.{IsTypeTable, types_at, images};
    ghost use Rattle.ot_type.specs.Instance.{IsInstance};

    /// The instance of a type: each variable that the substitution holds is replaced by its type, all at once.
    ///
    /// The substitution's types are of this table. `Nesting` comes exactly where the instance is nested deeper than
    /// 4,096. After a refusal the table may hold more types. A type variable, and a type in which none stands, is
    /// answered at once, and a type that is shared is worked on once in a call, or is small.
    pub fn inst(&mut self, s: &TypeSubst, id: TypeId) -> Result<TypeId, TableFault>
        requires id { id < length self.old }
        requires pairs { All (λ p. p.1 < length self.old) s.now }
        ensures ok { IfOk result
            (λ r. slice_get self.new r ≡ Some (inst numbers (images self.old s.now) (type_at self.old id))) }
        ensures nesting { result ≡ Err TableFault.Nesting → depth_limit
            < depth_ty numbers (inst numbers (images self.old s.now) (type_at self.old id)) }
        ensures names { names_in self.new ≤ names_in self.old }
        ensures extends { Extends self.old self.new }
        ensures table { IsTypeTable self.new }
    {
        let alloc = *self.nodes.allocator();
        if s.is_empty() {
            return Ok(id);
        }
        let mut done = IndexMap::new(alloc);
        self.inst_part(s, id, &mut done)
    }

    /// The same, with the instances of types that were worked on.
    #[cycle(inst_part)]
    fn inst_part(
        &mut self,
        s: &TypeSubst,
        id: TypeId,
        done: &mut IndexMap<TypeId, TypeId>,
    ) -> Result<TypeId, TableFault>
        requires id { id < length self.old }
        requires pairs { All (λ p. p.1 < length self.old) s.now }
        requires done { IsMemo self.old (images self.old s.now) done.old.entries }
        ensures ok { IfOk result
            (λ r. slice_get self.new r ≡ Some (inst numbers (images self.old s.now) (type_at self.old id))) }
        ensures nesting { result ≡ Err TableFault.Nesting → depth_limit
            < depth_ty numbers (inst numbers (images self.old s.now) (type_at self.old id)) }
        ensures names { names_in self.new ≤ names_in self.old }
        ensures extends { Extends self.old self.new }
        ensures table { IsTypeTable self.new }
        ensures done { OnOk result (IsMemo self.new (images self.new s.now) done.new.entries) }
    {
        let alloc = *self.nodes.allocator();
        if self.is_ground(id) {
            return Ok(id);
        }
        let (name, args): (_, SmallVec<TypeId, 2>) = match self.node(id) {
            TypeNode::Var(name) => return Ok(s.get(*name).unwrap_or(id)),
            TypeNode::Op(name, args) => {
                // Before its arguments are copied: a type of many may be met many times.
                if let Some(instance) = done.get(&id) {
                    return Ok(*instance);
                }
                (*name, SmallVec::from_slice(alloc, args.as_slice())?)
            }
        };
        let instances = self.inst_parts(s, args.as_slice(), done)?;
        let instance = self.op(name, instances.as_slice())?;
        let is_great = (args.len() > FEW) | (self.height(id) > SMALL_DEPTH);
        keep(is_great, id, instance, done)?;
        Ok(instance)
    }

    /// The instances of types, one by one.
    #[cycle(inst_part)]
    fn inst_parts(
        &mut self,
        s: &TypeSubst,
        ids: &[TypeId],
        done: &mut IndexMap<TypeId, TypeId>,
    ) -> Result<SmallVec<TypeId, 2>, TableFault>
        requires ids { All (λ i. i < length self.old) ids.now }
        requires pairs { All (λ p. p.1 < length self.old) s.now }
        requires done { IsMemo self.old (images self.old s.now) done.old.entries }
        ensures ok { IfOk result (λ found. AllZip (IsInstance self.old self.new s.now) ids.now found.items) }
        ensures nesting { result ≡ Err TableFault.Nesting → depth_limit
            < depth_all numbers (inst_all numbers (image_of numbers (images self.old s.now)) (types_at self.old ids.now)) }
        ensures names { names_in self.new ≤ names_in self.old }
        ensures extends { Extends self.old self.new }
        ensures table { IsTypeTable self.new }
        ensures done { OnOk result (IsMemo self.new (images self.new s.now) done.new.entries) }
    {
        // What holds of each table of types.
        let _nodes = &self.nodes;
        let mut found: SmallVec<TypeId, 2> = SmallVec::new(*self.nodes.allocator());
        for id in ids {
            let instance = self.inst_part(s, *id, done)?;
            found.push(instance)?;
        }
        Ok(found)
    }
}

/// Keeps the instance of a type, where that is asked for.
fn keep(
    is_asked: bool,
    id: TypeId,
    instance: TypeId,
    done: &mut IndexMap<TypeId, TypeId>,
) -> Result<(), Memory>
    ensures { OnOk result ((ts : List (Ty ℕ)) (s : List (ℕ × Ty ℕ)) → IsMemo ts s done.old.entries → id < length ts
        → slice_get ts instance ≡ Some (inst numbers s (type_at ts id)) → IsMemo ts s done.new.entries) }
{
    if is_asked {
        done.insert(id, instance)?;
    }
    Ok(())
}
