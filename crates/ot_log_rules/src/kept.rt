//! Assumptions and results: sequents that are kept once.
ghost use Rattle.std.specs.Prelude.{◌≡◌, ◌++◌, ◌∷◌, [], map, false, IfOk, OnOk, OnErr};
ghost use Rattle.std.specs.List.{All, list_all, list_any};
ghost use Rattle.ot_logic.specs.Naming.{names};
ghost use Rattle.ot_logic.specs.Table.{Extends};
ghost use Rattle.ot_log_format.specs.Steps.{is_proposition, assumption_step};
ghost use Rattle.ot_log_nodes.specs.Items.{HasTerm, term_at};
ghost use Rattle.ot_log_nodes.specs.Typing.{AreTypings};
ghost use Rattle.ot_log_rules.specs.Statements.{terms_at, sequent_at, HasStatement, Gives};
ghost use Rattle.ot_log_rules.specs.Keeping.{ordered, parts_of, parts_at, key_eq, AreKeyed};
ghost use Rattle.ot_log_format.specs.State.{kept_once};

use crate::statement::{Statement, StepFault, once_each};
use crate::typing::is_proposition;
use indexmap::IndexSet;
use ot_log_nodes::{Nodes, TermId, Typings};
use ot_logic::Memory;
use std::alloc::Global;
use std::collections::BTreeSet;

/// The sequent of these hypotheses and this conclusion, propositions all.
pub fn assumption(
    nodes: &mut Nodes,
    typings: &mut Typings,
    hyps: &[TermId],
    concl: TermId,
) -> Result<Statement, StepFault>
    requires hyps { All (HasTerm nodes.old) hyps.now }
    requires concl { HasTerm nodes.old concl }
    requires known { AreTypings nodes.old typings.old.known.entries }
    ensures gives { Gives result (assumption_step names (terms_at nodes.old hyps.now) (term_at nodes.old concl)) nodes.new }
    ensures extends { Extends nodes.old nodes.new }
    ensures known { AreTypings nodes.new typings.new.known.entries }
{
    let passes = is_proposition(nodes, typings, concl)?;
    if !passes {
        return Err(StepFault::BadStep);
    }
    let all_pass = are_propositions(nodes, typings, hyps)?;
    if !all_pass {
        return Err(StepFault::BadStep);
    }
    nodes.primitives();
    let hyps = once_each(nodes.allocator(), hyps)?;
    Ok(Statement { hyps, concl })
}

/// Whether terms are all propositions.
fn are_propositions(
    nodes: &mut Nodes,
    typings: &mut Typings,
    ids: &[TermId],
) -> Result<bool, Memory>
    requires ids { All (HasTerm nodes.old) ids.now }
    requires known { AreTypings nodes.old typings.old.known.entries }
    ensures ok { IfOk result (λ b. b ≡ list_all (is_proposition names) (terms_at nodes.old ids.now)) }
    ensures extends { Extends nodes.old nodes.new }
    ensures known { AreTypings nodes.new typings.new.known.entries }
{
    for id in ids {
        let passes = is_proposition(nodes, typings, *id)?;
        if !passes {
            return Ok(false);
        }
    }
    Ok(true)
}

/// Sequents, each kept once: two of them differ in the set of their hypotheses or in the conclusion.
#[derive(Drop)]
pub struct Kept {
    statements: Vec<Statement>,
    keys: IndexSet<Key>,
}

/// The hypotheses of a sequent in the order of their numbers, each once, and its conclusion.
#[derive(PartialEq, Eq, Hash, Drop)]
pub(crate) struct Key {
    hyps: Vec<TermId>,
    concl: TermId,
}

impl Kept {
    /// Nothing is kept.
    pub fn new(alloc: Global) -> Kept
        ensures kept { AreKeyed result }
        ensures none { result.statements.items ≡ [] }
    {
        Kept {
            statements: Vec::new(alloc),
            keys: IndexSet::new(alloc),
        }
    }

    /// The sequents that are kept, in the order in which they came.
    pub fn statements(&self) -> &[Statement]
        ensures { result.now ≡ self.now.statements.items }
    {
        &self.statements
    }

    /// Keeps a sequent, where it isn't there yet. After running out of memory all is as before.
    pub fn keep(&mut self, nodes: &Nodes, statement: &Statement) -> Result<(), Memory>
        requires kept { AreKeyed self.old }
        requires all { All (HasStatement nodes.now) self.old.statements.items }
        requires statement { HasStatement nodes.now statement.now }
        ensures kept { AreKeyed self.new }
        ensures all { All (HasStatement nodes.now) self.new.statements.items }
        ensures ok { OnOk result (map (sequent_at nodes.now) self.new.statements.items
            ≡ kept_once names (map (sequent_at nodes.now) self.old.statements.items)
            (sequent_at nodes.now statement.now)) }
        ensures err { OnErr result (self.new.statements.items ≡ self.old.statements.items) }
    {
        nodes.primitives();
        let alloc = nodes.allocator();
        let key = key_of(alloc, statement)?;
        if self.keys.contains(&key) {
            return Ok(());
        }
        let copy = copied(alloc, statement)?;
        self.add(key, copy)
    }

    /// Adds a sequent with its key, which is new.
    fn add(&mut self, key: Key, statement: Statement) -> Result<(), Memory>
        requires kept { AreKeyed self.old }
        requires key { parts_of key ≡ parts_at statement }
        requires fresh { list_any (key_eq key) self.old.keys.keys ≡ false }
        ensures kept { AreKeyed self.new }
        ensures ok { OnOk result (self.new.statements.items ≡ self.old.statements.items ++ statement ∷ []) }
        ensures err { OnErr result (self.new.statements.items ≡ self.old.statements.items) }
    {
        self.statements.push(statement)?;
        if let Err(refused) = self.keys.insert(key) {
            let _last = self.statements.pop();
            return Err(Memory::from(refused));
        }
        Ok(())
    }
}

/// The key of a sequent.
fn key_of(alloc: Global, statement: &Statement) -> Result<Key, Memory>
    ensures { IfOk result (λ k. parts_of k ≡ parts_at statement.now) }
{
    Ok(Key {
        hyps: ordered(alloc, &statement.hyps)?,
        concl: statement.concl,
    })
}

/// The numbers of a list in ascending order, each once.
fn ordered(alloc: Global, ids: &[TermId]) -> Result<Vec<TermId>, Memory>
    ensures { IfOk result (λ v. v.items ≡ ordered ids.now) }
{
    let mut set = BTreeSet::new(alloc);
    for id in ids {
        set.insert(*id)?;
    }
    Ok(set.iter().copied().collect(alloc)?)
}

/// A copy of a statement.
pub fn copied(alloc: Global, statement: &Statement) -> Result<Statement, Memory>
    ensures { IfOk result (λ q. (q.hyps.items ≡ statement.now.hyps.items) × (q.concl ≡ statement.now.concl)) }
{
    Ok(Statement {
        hyps: Vec::from_slice(alloc, &statement.hyps)?,
        concl: statement.concl,
    })
}
