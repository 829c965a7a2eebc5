//! The names and variables of constants that are defined together, read from a list of a machine of this session.
ghost use Rattle.std.specs.Prelude.{◌≡◌, ◌<◌, length, map, IfOk};
ghost use Rattle.std.specs.List.{All};
ghost use Rattle.ot_kernel.specs.State.{name_at, variable_at};
ghost use Rattle.ot_machine.specs.DefinitionLists.{definition_pair, pairs_of};
ghost use Rattle.ot_machine.specs.Meaning.{object_of, list_at, lists_of, IsOf, IsIn, IsListIn};
ghost use Rattle.ot_machine.specs.Answers.{Makes};

use crate::fault::Fault;
use crate::machine::Machine;
use crate::object::{List, Object};
use crate::parts::ListForm;
use crate::session::Session;
use ot_logic::{Memory, NameId};
use ot_term::VarKey;
use std::alloc::Global;

impl Session {
    /// The pairs of a list.
    pub(crate) fn pairs_of(
        &self,
        alloc: Global,
        machine: &Machine,
        list: List,
    ) -> Result<Vec<(NameId, VarKey)>, Fault>
        requires of { IsOf self.now machine.now }
        requires inside { IsListIn (length machine.now.cells.items) list }
        ensures read { Makes self.now.kernel
            (λ v. map (λ p. (name_at self.now.kernel p.0, variable_at self.now.kernel p.1)) v.items) result
            (pairs_of (list_at (lists_of self.now machine.now) list)) }
        ensures names { IfOk result (λ v. All (λ p. p.0 < length self.now.kernel.names) v.items) }
        ensures variables { IfOk result (λ v.
            All (λ p. (p.1.name < length self.now.kernel.names) × (p.1.ty < length self.now.kernel.types)) v.items) }
    {
        let mut pairs = Vec::new(alloc);
        let mut rest = list;
        'pairs: while let Some((object, tail)) = self.first(machine, rest) {
            let pair = self.definition_pair(machine, object)?;
            pairs.push(pair)?;
            rest = tail;
        }
        Ok(pairs)
    }

    /// A name and a variable.
    fn definition_pair(&self, machine: &Machine, pair: Object) -> Result<(NameId, VarKey), Fault>
        requires of { IsOf self.now machine.now }
        requires inside { IsIn self.now.kernel (length machine.now.cells.items) pair }
        ensures read { Makes self.now.kernel (λ p. (name_at self.now.kernel p.0, variable_at self.now.kernel p.1))
            result (definition_pair (object_of self.now.kernel (lists_of self.now machine.now) pair)) }
        ensures name { IfOk result (λ p. p.0 < length self.now.kernel.names) }
        ensures variable { IfOk result (λ p. (p.1.name < length self.now.kernel.names) × (p.1.ty < length self.now.kernel.types)) }
    {
        let list = self.list_in(pair, ListForm::Definition)?;
        let (name, variable) = self.two_of(machine, list, ListForm::Definition)?;
        let name = self.name_in(name, ListForm::Definition)?;
        let variable = self.variable_in(variable, ListForm::Definition)?;
        Ok((name, variable))
    }
}

/// The variables of pairs.
pub(crate) fn variables_of(alloc: Global, pairs: &[(NameId, VarKey)]) -> Result<Vec<VarKey>, Memory>
    ensures { IfOk result (λ v. v.items ≡ map (λ p. p.1) pairs.now) }
{
    Ok(pairs.iter().map(|pair| pair.1).collect(alloc)?)
}
