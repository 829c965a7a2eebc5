//! Substitution in sequents.
ghost use Rattle.std.specs.Prelude.{◌≡◌, map, length, IfOk, OnOk};
ghost use Rattle.std.specs.Bool.{Decides};
ghost use Rattle.std.specs.List.{All, list_all};
ghost use Rattle.ot_logic.specs.Naming.{names};
ghost use Rattle.ot_logic.specs.Hol.{subst_tm};
ghost use Rattle.ot_logic.specs.Rules.{has_type};
ghost use Rattle.ot_logic.specs.Table.{Extends};
ghost use Rattle.ot_log_format.specs.Steps.{subst_step};
ghost use Rattle.ot_log_nodes.specs.Items.{HasTerm, type_at, term_at};
ghost use Rattle.ot_log_nodes.specs.Changing.{changed, changing, type_map, term_map, HasVariable};
ghost use Rattle.ot_log_nodes.specs.Changing.{HasTypes, HasTerms, HasChange, IsDone};
ghost use Rattle.ot_log_nodes.specs.Typing.{AreTypings};
ghost use Rattle.ot_log_rules.specs.Statements.{terms_at, sequent_at, HasStatement, Gives};
ghost use Rattle.ot_log_rules.specs.Putting.{firsts, with_new, IsPut, IsChanged};

use crate::statement::{Statement, StepFault, once_each};
use crate::typing::typing_of;
use indexmap::IndexMap;
use ot_log_nodes::{Change, Done, NameId, Nodes, TermId, TypeId, Typings, VariableNode};
use ot_logic::Memory;
use std::alloc::Global;
use std::hash::Hash;

/// A substitution put into each term of a sequent: the types, then the terms. Of several pairs for one name or variable
/// the first counts. Each term that counts has its variable's type.
pub fn subst(
    nodes: &mut Nodes,
    typings: &mut Typings,
    types: &[(NameId, TypeId)],
    terms: &[(VariableNode, TermId)],
    a: &Statement,
) -> Result<Statement, StepFault>
    requires types { HasTypes nodes.old types.now }
    requires terms { HasTerms nodes.old terms.now }
    requires a { HasStatement nodes.old a.now }
    requires known { AreTypings nodes.old typings.old.known.entries }
    ensures gives { Gives result (subst_step names (type_map nodes.old types.now) (term_map nodes.old terms.now)
        (sequent_at nodes.old a.now)) nodes.new }
    ensures extends { Extends nodes.old nodes.new }
    ensures known { AreTypings nodes.new typings.new.known.entries }
{
    let alloc = nodes.allocator();
    let types = first_pairs(alloc, types)?;
    let terms = first_pairs(alloc, terms)?;
    nodes.primitives();
    let typed = are_typed(nodes, typings, &terms)?;
    if !typed {
        return Err(StepFault::BadStep);
    }
    let made = put(nodes, types, terms, a)?;
    Ok(made)
}

/// The pairs, of several for one key the first alone.
pub(crate) fn first_pairs<K: Copy + Eq + Hash, V: Copy>(
    alloc: Global,
    pairs: &[(K, V)],
) -> Result<IndexMap<K, V>, Memory>
    requires { (x y : K) → Decides (K.eq x y) (x ≡ y) }
    ensures { IfOk result (λ m. m.entries ≡ firsts K.eq pairs.now) }
{
    let mut first = IndexMap::new(alloc);
    for pair in pairs {
        add_new(&mut first, *pair)?;
    }
    Ok(first)
}

/// Adds a pair, unless there is one for its key.
fn add_new<K: Copy + Eq + Hash, V: Copy>(
    first: &mut IndexMap<K, V>,
    pair: (K, V),
) -> Result<(), Memory>
    ensures { OnOk result (first.new.entries ≡ with_new K.eq first.old.entries pair) }
{
    let (key, value) = pair;
    if first.contains_key(&key) {
        return Ok(());
    }
    first.insert(key, value)?;
    Ok(())
}

/// Whether each term has its variable's type.
fn are_typed(
    nodes: &mut Nodes,
    typings: &mut Typings,
    terms: &IndexMap<VariableNode, TermId>,
) -> Result<bool, Memory>
    requires terms { HasTerms nodes.old terms.now.entries }
    requires known { AreTypings nodes.old typings.old.known.entries }
    ensures ok { IfOk result
        (λ b. b ≡ list_all (λ p. has_type names p.1 p.0.ty) (term_map nodes.old terms.now.entries)) }
    ensures extends { Extends nodes.old nodes.new }
    ensures known { AreTypings nodes.new typings.new.known.entries }
{
    let count = terms.len();
    for i in 0..count {
        let Some((variable, term)) = terms.get_index(i) else {
            unreachable!();
        };
        let typed = is_typed(nodes, typings, *variable, *term)?;
        if !typed {
            return Ok(false);
        }
    }
    Ok(true)
}

/// Whether the term has the variable's type.
fn is_typed(
    nodes: &mut Nodes,
    typings: &mut Typings,
    variable: VariableNode,
    term: TermId,
) -> Result<bool, Memory>
    requires variable { HasVariable nodes.old variable }
    requires term { HasTerm nodes.old term }
    requires known { AreTypings nodes.old typings.old.known.entries }
    ensures ok { IfOk result (λ b. b ≡ has_type names (term_at nodes.old term) (type_at nodes.old variable.ty)) }
    ensures extends { Extends nodes.old nodes.new }
    ensures known { AreTypings nodes.new typings.new.known.entries }
{
    let typing = typing_of(nodes, typings, term)?;
    nodes.primitives();
    match typing {
        Some(typed) => Ok(typed.ty == variable.ty),
        None => Ok(false),
    }
}

/// The substitution of these pairs, put into each term of a sequent.
pub(crate) fn put(
    nodes: &mut Nodes,
    types: IndexMap<NameId, TypeId>,
    terms: IndexMap<VariableNode, TermId>,
    a: &Statement,
) -> Result<Statement, Memory>
    requires types { HasTypes nodes.old types.entries }
    requires terms { HasTerms nodes.old terms.entries }
    requires a { HasStatement nodes.old a.now }
    ensures ok { IfOk result (λ q. IsPut nodes.old nodes.new types.entries terms.entries a.now q) }
    ensures extends { Extends nodes.old nodes.new }
{
    let change = Change::Put { types, terms };
    let mut done = Done::new(nodes.allocator());
    changed_statement(nodes, &change, &mut done, a)
}

/// A sequent under a change of each of its terms.
fn changed_statement(
    nodes: &mut Nodes,
    change: &Change,
    done: &mut Done,
    a: &Statement,
) -> Result<Statement, Memory>
    requires change { HasChange nodes.old change.now }
    requires done { IsDone nodes.old (changing nodes.old change.now) done.old }
    requires a { HasStatement nodes.old a.now }
    ensures ok { IfOk result (λ q. IsChanged nodes.old nodes.new (changing nodes.old change.now) a.now q) }
    ensures extends { Extends nodes.old nodes.new }
{
    let changed = change_each(nodes, change, done, &a.hyps)?;
    nodes.primitives();
    let hyps = once_each(nodes.allocator(), &changed)?;
    let concl = nodes.change(change, done, a.concl)?;
    Ok(Statement { hyps, concl })
}

/// Terms under one change.
fn change_each(
    nodes: &mut Nodes,
    change: &Change,
    done: &mut Done,
    ids: &[TermId],
) -> Result<Vec<TermId>, Memory>
    requires ids { All (HasTerm nodes.old) ids.now }
    requires change { HasChange nodes.old change.now }
    requires done { IsDone nodes.old (changing nodes.old change.now) done.old }
    ensures ok { IfOk result (λ v. terms_at nodes.new v.items ≡ map (changed (changing nodes.old change.now) 0)
        (terms_at nodes.old ids.now)) }
    ensures has { IfOk result (λ v. All (HasTerm nodes.new) v.items) }
    ensures extends { Extends nodes.old nodes.new }
    ensures done { OnOk result (IsDone nodes.new (changing nodes.new change.now) done.new) }
    ensures change { OnOk result (HasChange nodes.new change.now) }
{
    let mut all = Vec::new(nodes.allocator());
    for id in ids {
        let changed = nodes.change(change, done, *id)?;
        all.push(changed)?;
    }
    Ok(all)
}
