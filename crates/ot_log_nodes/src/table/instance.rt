//! Instances of types. A type that is shared is worked on once.
ghost use Rattle.std.specs.Prelude.{◌≡◌, ◌<◌, IfOk, OnOk};
ghost use Rattle.std.specs.List.{All};
ghost use Rattle.ot_logic.specs.Table.{Extends};
ghost use Rattle.ot_logic.specs.Naming.{names};
ghost use Rattle.ot_logic.specs.Hol.{inst};

use crate::node::{NameId, TypeId, TypeNode};
use crate::table::Nodes;
use indexmap::IndexMap;
use ot_logic::Memory;
use smallvec::SmallVec;

impl Nodes {
    ghost use Rattle.ot_log_nodes.specs.Items.{IsType, HasType, type_at};
    ghost use Rattle.ot_log_nodes.specs.Changing.{type_map, HasTypes, AreInstances, HasInstances};

    /// The instance of a type: each variable that the pairs hold is replaced by its type, all at
    /// once.
    #[cycle(inst)]
    pub(crate) fn inst(
        &mut self,
        pairs: &IndexMap<NameId, TypeId>,
        done: &mut IndexMap<TypeId, TypeId>,
        id: TypeId,
    ) -> Result<TypeId, Memory>
        requires id { HasType self.old id }
        requires pairs { HasTypes self.old pairs.now.entries }
        requires done { AreInstances self.old (type_map self.old pairs.now.entries) done.old.entries }
        ensures ok { IfOk result (λ r. IsType self.new r (inst names (type_map self.old
            pairs.now.entries) (type_at self.old id))) }
        ensures extends { Extends self.old self.new }
        ensures done { OnOk result (AreInstances self.new (type_map self.new pairs.now.entries)
            done.new.entries) }
        ensures pairs { OnOk result (HasTypes self.new pairs.now.entries) }
    {
        if let Some(known) = done.get(&id) {
            return Ok(*known);
        }
        let instance = self.inst_node(pairs, done, id)?;
        done.insert(id, instance)?;
        Ok(instance)
    }

    /// The same, by its node.
    #[cycle(inst)]
    fn inst_node(
        &mut self,
        pairs: &IndexMap<NameId, TypeId>,
        done: &mut IndexMap<TypeId, TypeId>,
        id: TypeId,
    ) -> Result<TypeId, Memory>
        requires id { HasType self.old id }
        requires pairs { HasTypes self.old pairs.now.entries }
        requires done { AreInstances self.old (type_map self.old pairs.now.entries) done.old.entries }
        ensures ok { IfOk result (λ r. IsType self.new r (inst names (type_map self.old
            pairs.now.entries) (type_at self.old id))) }
        ensures extends { Extends self.old self.new }
        ensures done { OnOk result (AreInstances self.new (type_map self.new pairs.now.entries)
            done.new.entries) }
        ensures pairs { OnOk result (HasTypes self.new pairs.now.entries) }
    {
        let alloc = self.allocator();
        match self.type_node(id) {
            TypeNode::Var(name) => match pairs.get(name) {
                Some(ty) => Ok(*ty),
                None => Ok(id),
            },
            TypeNode::Op(name, args) => {
                let name = *name;
                let copied: SmallVec<TypeId, 2> = SmallVec::from_slice(alloc, args.as_slice())?;
                let instances = self.inst_each(pairs, done, id, copied.as_slice())?;
                self.type_op(name, instances.as_slice())
            }
        }
    }

    /// The instances of the arguments of a type, which have lower numbers.
    #[cycle(inst)]
    fn inst_each(
        &mut self,
        pairs: &IndexMap<NameId, TypeId>,
        done: &mut IndexMap<TypeId, TypeId>,
        above: TypeId,
        ids: &[TypeId],
    ) -> Result<SmallVec<TypeId, 2>, Memory>
        requires ids { All (HasType self.old) ids.now }
        requires below { All (λ i. i < above) ids.now }
        requires pairs { HasTypes self.old pairs.now.entries }
        requires done { AreInstances self.old (type_map self.old pairs.now.entries) done.old.entries }
        ensures ok { IfOk result (λ r. HasInstances self.old self.new (type_map self.old
            pairs.now.entries) ids.now r.items) }
        ensures extends { Extends self.old self.new }
        ensures done { OnOk result (AreInstances self.new (type_map self.new pairs.now.entries)
            done.new.entries) }
        ensures pairs { OnOk result (HasTypes self.new pairs.now.entries) }
    {
        let mut instances = SmallVec::new(self.allocator());
        for id in ids {
            instances.push(self.inst(pairs, done, *id)?)?;
        }
        Ok(instances)
    }
}
