//! The maps of a substitution.
ghost use Rattle.std.specs.Prelude.{◌≡◌, ◌<◌, length, IfOk, OnOk};
ghost use Rattle.ot_logic.specs.Table.{Extends};
ghost use Rattle.ot_machine.specs.Meaning.{IsRun, origin_of};
ghost use Rattle.ot_machine.specs.Substitutions.{maps_of};
ghost use Rattle.ot_log_values.specs.Steps.{Reads, of_list};
ghost use Rattle.ot_log_values.specs.Lists.{AreMapsOf};
ghost use Rattle.ot_log_values.specs.Reading.{with_first, all_first};
ghost use Rattle.ot_log_values.specs.Known.{AreKnown};

use crate::steps::two_elements;
use crate::values::Values;
use indexmap::IndexMap;
use ot_log_nodes::{NameId, Nodes, TermId, TypeId, VariableNode};
use ot_logic::Memory;
use ot_machine::Session;
use ot_trace::StepId;
use std::alloc::Global;
use std::hash::Hash;

impl Values {
    /// The types of names and the terms of variables of a substitution, which is the list of a step. Of several for
    /// one name or variable the first alone is given.
    pub fn maps(
        &mut self,
        nodes: &mut Nodes,
        session: &Session,
        list: StepId,
    ) -> Result<(Vec<(NameId, TypeId)>, Vec<(VariableNode, TermId)>), Memory>
        requires run { IsRun session.now }
        requires list { list < length session.now.trace }
        requires known { AreKnown session.now nodes.old self.old }
        requires value { Reads (of_list maps_of) (origin_of session.now list) }
        ensures made { IfOk result (λ p. AreMapsOf session.now nodes.new list p.0.items p.1.items) }
        ensures extends { Extends nodes.old nodes.new }
        ensures known { AreKnown session.now nodes.new self.new }
    {
        let alloc = nodes.allocator();
        let (first, second) = two_elements(alloc, session, list)?;
        let types = self.each_of::<(NameId, TypeId)>(nodes, session, first)?;
        let terms = self.each_of::<(VariableNode, TermId)>(nodes, session, second)?;
        nodes.primitives();
        let first_types = firsts(alloc, &types)?;
        let first_terms = firsts(alloc, &terms)?;
        Ok((first_types, first_terms))
    }
}

/// The pairs, of several for one key the first alone.
fn firsts<K: Copy + Eq + Hash, V: Copy>(
    alloc: Global,
    pairs: &[(K, V)],
) -> Result<Vec<(K, V)>, Memory>
    ensures { IfOk result (λ v. v.items ≡ all_first K.eq pairs.now) }
{
    let mut seen = IndexMap::new(alloc);
    let mut found = Vec::new(alloc);
    for pair in pairs {
        add_first(&mut seen, &mut found, *pair)?;
    }
    Ok(found)
}

/// Adds a pair, unless there is one for its key.
fn add_first<K: Copy + Eq + Hash, V: Copy>(
    seen: &mut IndexMap<K, V>,
    found: &mut Vec<(K, V)>,
    pair: (K, V),
) -> Result<(), Memory>
    requires { seen.old.entries ≡ found.old.items }
    ensures found { OnOk result (found.new.items ≡ with_first K.eq found.old.items pair) }
    ensures seen { OnOk result (seen.new.entries ≡ found.new.items) }
{
    let (key, value) = pair;
    if seen.contains_key(&key) {
        return Ok(());
    }
    seen.insert(key, value)?;
    found.push((key, value))?;
    Ok(())
}
