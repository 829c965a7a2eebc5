ghost use Rattle.std.specs.Prelude.{◌<◌, ◌++◌, length, IfOk, OnOk};
ghost use Rattle.ot_logic.specs.Lists.{AreDistinct, IsSameSet};
ghost use Rattle.ot_logic.specs.Hol.{vars_ty};
ghost use Rattle.ot_logic.specs.Naming.{numbers};

use crate::node::TypeNode;
use crate::table::{TypeId, Types};
use ot_logic::{Memory, NameId};
use std::alloc::Global;
use std::collections::BTreeSet;

impl Types {
    ghost use Rattle.ot_type.specs.TypeTable.{type_at};
    ghost use Rattle.ot_type.specs.Subtypes.{AddsParts, AreSubtypes};

    /// The names of the variables of a type, each once. A type that is shared is looked at once.
    pub fn vars(&self, alloc: Global, id: TypeId) -> Result<Vec<NameId>, Memory>
        requires { id < length self.now }
        ensures names { IfOk result (λ names. IsSameSet names.items (vars_ty numbers (type_at self.now id))) }
        ensures once { IfOk result (λ names. AreDistinct names.items) }
    {
        // Each type has one number.
        let _nodes = &self.nodes;
        let parts = self.subtypes(alloc, id)?;
        let mut names = Vec::new(alloc);
        for part in &parts {
            if let TypeNode::Var(name) = self.node(*part) {
                names.push(*name)?;
            }
        }
        Ok(names)
    }

    /// The numbers of a type and of all types inside it, each once, the greatest first.
    pub(super) fn subtypes(&self, alloc: Global, id: TypeId) -> Result<Vec<TypeId>, Memory>
        requires { id < length self.now }
        ensures { IfOk result (λ ids. AreSubtypes self.now (type_at self.now id) ids.items) }
    {
        let mut found = Vec::new(alloc);
        let mut pending = BTreeSet::new(alloc);
        pending.insert(id)?;
        while let Some(next) = pending.pop_last() {
            self.add_parts(next, &mut pending)?;
            found.push(next)?;
        }
        Ok(found)
    }

    /// Adds the arguments of a type.
    fn add_parts(&self, id: TypeId, pending: &mut BTreeSet<TypeId>) -> Result<(), Memory>
        requires { id < length self.now }
        ensures { OnOk result (AddsParts self.now id pending.old.keys pending.new.keys) }
    {
        match self.node(id) {
            TypeNode::Var(_) => Ok(()),
            TypeNode::Op(_, args) => add_all(pending, args.as_slice()),
        }
    }
}

/// Adds numbers to a set.
fn add_all(set: &mut BTreeSet<TypeId>, ids: &[TypeId]) -> Result<(), Memory>
    ensures { OnOk result (IsSameSet set.new.keys (set.old.keys ++ ids.now)) }
{
    for id in ids {
        set.insert(*id)?;
    }
    Ok(())
}
