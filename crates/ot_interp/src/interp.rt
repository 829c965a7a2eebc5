ghost use Rattle.std.specs.Prelude.{◌≡◌, ◌<◌, ℕ, false, [], ◌∷◌, ◌++◌, IfOk, OnOk, OnErr};
ghost use Rattle.ot_logic.specs.Naming.{numbers};
ghost use Rattle.ot_interp.specs.Interpretation.{identity, is_held, renamed, after, IsWithin};

use crate::pairs;
use indexmap::IndexMap;
use ot_logic::{Memory, NameId};
use std::alloc::Global;
use std::marker::Model;

/// An interpretation, which the `interpret:` statements of a theory file write: for constants and for type operators,
/// names and the names that they become. A name that isn't held stays. Where all numbers are of one table, those that
/// the calls give are, too (`within`).
#[derive(Drop)]
pub struct Interp {
    constants: IndexMap<NameId, NameId>,
    type_ops: IndexMap<NameId, NameId>,
}

impl Model for Interp {
    ghost use Rattle.std.specs.Prelude.{ℕ};
    ghost use Rattle.ot_interp.specs.Interpretation.{Interpretation, coded_interpretation};

    ghost Value = { Interpretation ℕ };

    ghost coded = { coded_interpretation };

    ghost view = { λ i. record { constants = i.constants.entries; type_ops = i.type_ops.entries } };
}

impl Interp {
    /// The interpretation under which every name stays.
    pub fn new(alloc: Global) -> Interp
        ensures pairs { result ≡ identity }
        ensures within { (size : ℕ) → IsWithin size result }
    {
        Interp {
            constants: IndexMap::new(alloc),
            type_ops: IndexMap::new(alloc),
        }
    }

    /// Adds a constant that isn't held, and the one that it becomes: the statement `interpret: const "from" as "to"`.
    /// After running out of memory the interpretation is as it was.
    pub fn add_constant(&mut self, from: NameId, to: NameId) -> Result<(), Memory>
        requires { is_held numbers self.old.constants from ≡ false }
        ensures ok { OnOk result
            (self.new ≡ record { constants = self.old.constants ++ (from, to) ∷ []; type_ops = self.old.type_ops }) }
        ensures err { OnErr result (self.new ≡ self.old) }
        ensures within { (size : ℕ) → from < size → to < size → IsWithin size self.old → IsWithin size self.new }
    {
        pairs::add(&mut self.constants, from, to)
    }

    /// Adds a type operator that isn't held, and the one that it becomes: the statement `interpret: type "from" as
    /// "to"`. After running out of memory the interpretation is as it was.
    pub fn add_type_op(&mut self, from: NameId, to: NameId) -> Result<(), Memory>
        requires { is_held numbers self.old.type_ops from ≡ false }
        ensures ok { OnOk result
            (self.new ≡ record { constants = self.old.constants; type_ops = self.old.type_ops ++ (from, to) ∷ [] }) }
        ensures err { OnErr result (self.new ≡ self.old) }
        ensures within { (size : ℕ) → from < size → to < size → IsWithin size self.old → IsWithin size self.new }
    {
        pairs::add(&mut self.type_ops, from, to)
    }

    /// First this interpretation, then the outer one, as what a package's theory file says comes before what is said
    /// by the block that names the package. The one error is running out of memory.
    pub fn after(&self, alloc: Global, outer: &Interp) -> Result<Interp, Memory>
        ensures pairs { IfOk result (λ both. both ≡ after numbers self.now outer.now) }
        ensures within { IfOk result (λ both. (size : ℕ) → IsWithin size self.now → IsWithin size outer.now
            → IsWithin size both) }
    {
        let constants = pairs::after(alloc, &self.constants, &outer.constants)?;
        let type_ops = pairs::after(alloc, &self.type_ops, &outer.type_ops)?;
        Ok(Interp {
            constants,
            type_ops,
        })
    }

    /// What the name of a constant becomes.
    pub fn constant(&self, name: NameId) -> NameId
        ensures name { result ≡ renamed numbers self.now.constants name }
        ensures within { (size : ℕ) → name < size → IsWithin size self.now → result < size }
    {
        pairs::renamed(&self.constants, name)
    }

    /// What the name of a type operator becomes.
    pub fn type_op(&self, name: NameId) -> NameId
        ensures name { result ≡ renamed numbers self.now.type_ops name }
        ensures within { (size : ℕ) → name < size → IsWithin size self.now → result < size }
    {
        pairs::renamed(&self.type_ops, name)
    }
}
