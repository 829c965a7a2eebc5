//! Types of terms, and the nesting limit.
ghost use Rattle.std.specs.Prelude.{◌≡◌, [], map, IfOk};
ghost use Rattle.std.specs.List.{All, list_all};
ghost use Rattle.ot_logic.specs.Naming.{names};
ghost use Rattle.ot_logic.specs.Hol.{IsWellTyped};
ghost use Rattle.ot_logic.specs.Table.{Extends};
ghost use Rattle.ot_log_format.specs.Steps.{is_proposition, is_within, is_sequent_within};
ghost use Rattle.ot_log_nodes.specs.Items.{HasTerm, term_at};
ghost use Rattle.ot_log_nodes.specs.Typing.{IsTyping, AreTypings};
ghost use Rattle.ot_log_rules.specs.Statements.{terms_at, sequent_at, HasStatement};
ghost use Rattle.ot_log_rules.specs.Limits.{AreWellTyped};

use crate::shapes::is_boolean;
use crate::statement::Statement;
use ot_log_nodes::{DEPTH_LIMIT, Nodes, TermId, Typed, Typings};
use ot_logic::Memory;
use std::mem;

/// The type of a term, or `None` where it isn't well typed. After running out of memory nothing is known of types.
pub(crate) fn typing_of(
    nodes: &mut Nodes,
    typings: &mut Typings,
    id: TermId,
) -> Result<Option<Typed>, Memory>
    requires id { HasTerm nodes.old id }
    requires known { AreTypings nodes.old typings.old.known.entries }
    ensures ok { IfOk result (IsTyping nodes.new [] (term_at nodes.old id)) }
    ensures extends { Extends nodes.old nodes.new }
    ensures known { AreTypings nodes.new typings.new.known.entries }
{
    let none = Typings::new(nodes.allocator());
    let mut known = mem::replace(typings, none);
    let typing = nodes.typing(&mut known, id)?;
    *typings = known;
    Ok(typing)
}

/// Whether a term is well typed and of the type of propositions.
pub(crate) fn is_proposition(
    nodes: &mut Nodes,
    typings: &mut Typings,
    id: TermId,
) -> Result<bool, Memory>
    requires id { HasTerm nodes.old id }
    requires known { AreTypings nodes.old typings.old.known.entries }
    ensures ok { IfOk result (λ b. b ≡ is_proposition names (term_at nodes.old id)) }
    ensures extends { Extends nodes.old nodes.new }
    ensures known { AreTypings nodes.new typings.new.known.entries }
{
    let typing = typing_of(nodes, typings, id)?;
    match typing {
        Some(typed) => Ok(is_boolean(nodes, typed.ty)),
        None => Ok(false), // It is open, or its types don't fit.
    }
}

/// Whether a term that is well typed is within the nesting limit: its depth, and the depth of the type of each part.
pub(crate) fn is_within(
    nodes: &mut Nodes,
    typings: &mut Typings,
    id: TermId,
) -> Result<bool, Memory>
    requires id { HasTerm nodes.old id }
    requires typed { IsWellTyped names (term_at nodes.old id) }
    requires known { AreTypings nodes.old typings.old.known.entries }
    ensures ok { IfOk result (λ b. b ≡ is_within names (term_at nodes.old id)) }
    ensures extends { Extends nodes.old nodes.new }
    ensures known { AreTypings nodes.new typings.new.known.entries }
{
    if nodes.term_depth(id) > DEPTH_LIMIT {
        return Ok(false);
    }
    let typing = typing_of(nodes, typings, id)?;
    match typing {
        Some(typed) => Ok(typed.within),
        None => Ok(false),
    }
}

/// Whether the terms of a statement, which are well typed, are within the nesting limit.
pub fn is_statement_within(
    nodes: &mut Nodes,
    typings: &mut Typings,
    statement: &Statement,
) -> Result<bool, Memory>
    requires has { HasStatement nodes.old statement.now }
    requires typed { AreWellTyped (sequent_at nodes.old statement.now) }
    requires known { AreTypings nodes.old typings.old.known.entries }
    ensures ok { IfOk result (λ b. b ≡ is_sequent_within names (sequent_at nodes.old statement.now)) }
    ensures extends { Extends nodes.old nodes.new }
    ensures known { AreTypings nodes.new typings.new.known.entries }
{
    let within = are_within(nodes, typings, &statement.hyps)?;
    if !within {
        return Ok(false);
    }
    is_within(nodes, typings, statement.concl)
}

/// Whether the terms of statements, which are well typed, are within the nesting limit.
pub fn are_statements_within(
    nodes: &mut Nodes,
    typings: &mut Typings,
    statements: &[Statement],
) -> Result<bool, Memory>
    requires has { All (HasStatement nodes.old) statements.now }
    requires typed { All (λ q. AreWellTyped (sequent_at nodes.old q)) statements.now }
    requires known { AreTypings nodes.old typings.old.known.entries }
    ensures ok { IfOk result
        (λ b. b ≡ list_all (is_sequent_within names) (map (sequent_at nodes.old) statements.now)) }
    ensures extends { Extends nodes.old nodes.new }
    ensures known { AreTypings nodes.new typings.new.known.entries }
{
    for statement in statements {
        let within = is_statement_within(nodes, typings, statement)?;
        if !within {
            return Ok(false);
        }
    }
    Ok(true)
}

/// Whether terms that are well typed are within the nesting limit.
fn are_within(nodes: &mut Nodes, typings: &mut Typings, ids: &[TermId]) -> Result<bool, Memory>
    requires ids { All (HasTerm nodes.old) ids.now }
    requires typed { All (λ i. IsWellTyped names (term_at nodes.old i)) ids.now }
    requires known { AreTypings nodes.old typings.old.known.entries }
    ensures ok { IfOk result (λ b. b ≡ list_all (is_within names) (terms_at nodes.old ids.now)) }
    ensures extends { Extends nodes.old nodes.new }
    ensures known { AreTypings nodes.new typings.new.known.entries }
{
    for id in ids {
        let within = is_within(nodes, typings, *id)?;
        if !within {
            return Ok(false);
        }
    }
    Ok(true)
}
