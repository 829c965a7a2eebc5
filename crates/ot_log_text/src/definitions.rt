//! The texts of definitions.
ghost use Rattle.std.specs.Prelude.{◌≡◌, ◌++◌, codes, map};
ghost use Rattle.std.specs.List.{All};
ghost use Rattle.ot_log_nodes.specs.Items.{HasName, name_at};
ghost use Rattle.ot_log_nodes.specs.Changing.{variable_at, HasVariable};
ghost use Rattle.ot_log_rules.specs.Statements.{sequent_at, HasStatement};
ghost use Rattle.ot_log_rules.specs.Definitions.{definition_at, HasDefinition, pairs_at, HasPairs, names_at};
ghost use Rattle.ot_text.specs.Texts.{sequent_text};
ghost use Rattle.ot_text.specs.Sections.{pair_text, pairs_text, names_text};
ghost use Rattle.ot_text.specs.Sections.{head_text, theorems_text, definition_text};
ghost use Rattle.ot_text.specs.Pages.{IsPut, printed};
ghost use Rattle.ot_log_rules.specs.Accepting.{accepted_at, HasAccepted};

use crate::sequents::put_statement;
use crate::table::InNodes;
use crate::terms::put_typed;
use crate::types::put_name;
use ot_log_nodes::{NameId, Nodes, VariableNode};
use ot_log_rules::{Accepted, Definition, Statement};
use ot_text::{Page, Printable, put_separated};
use std::alloc::Global;

impl Printable<InNodes<'_>> for Accepted {
    ghost is_inside = { λ t a. HasAccepted t.nodes.now a };

    ghost text = { λ t a. definition_text (accepted_at t.nodes.now a) };

    fn put(&self, page: &mut Page, alloc: Global, table: &InNodes<'_>) {
        put_accepted(page, alloc, table.nodes, self);
    }
}

/// What is defined, from what, and the theorems.
fn put_accepted(page: &mut Page, alloc: Global, nodes: &Nodes, accepted: &Accepted)
    requires { HasAccepted nodes.now accepted.now }
    ensures { IsPut (definition_text (accepted_at nodes.now accepted.now)) (printed page.old)
        (printed page.new) }
{
    put_head(page, alloc, nodes, &accepted.definition);
    page.put(b" : ");
    put_theorems(page, alloc, nodes, accepted.theorems.as_slice());
}

/// What is defined, and from what.
fn put_head(page: &mut Page, alloc: Global, nodes: &Nodes, definition: &Definition)
    requires { HasDefinition nodes.now definition.now }
    ensures { IsPut (head_text (definition_at nodes.now definition.now)) (printed page.old)
        (printed page.new) }
{
    match definition {
        Definition::Constant { name, term: _term } => {
            page.put(b"const ");
            put_name(page, nodes, *name);
        }
        Definition::Constants { pairs, premise } => {
            page.put(b"consts");
            put_pairs(page, alloc, nodes, pairs.as_slice());
            put_premise(page, alloc, nodes, premise);
        }
        Definition::TypeOperator {
            name,
            abs,
            rep,
            vars,
            premise,
        } => {
            page.put(b"type ");
            put_name(page, nodes, *name);
            page.put(b" (");
            put_names(page, alloc, nodes, vars.as_slice());
            page.put(b") abs ");
            put_name(page, nodes, *abs);
            page.put(b" rep ");
            put_name(page, nodes, *rep);
            put_premise(page, alloc, nodes, premise);
        }
    }
}

/// The sequent from which something is defined.
fn put_premise(page: &mut Page, alloc: Global, nodes: &Nodes, premise: &Statement)
    requires { HasStatement nodes.now premise.now }
    ensures { IsPut (codes " from " ++ sequent_text (sequent_at nodes.now premise.now)) (printed
        page.old) (printed page.new) }
{
    page.put(b" from ");
    put_statement(page, alloc, nodes, premise);
}

/// Theorems, a semicolon between two.
fn put_theorems(page: &mut Page, alloc: Global, nodes: &Nodes, theorems: &[Statement])
    requires { All (HasStatement nodes.now) theorems.now }
    ensures { IsPut (theorems_text (map (sequent_at nodes.now) theorems.now)) (printed page.old)
        (printed page.new) }
{
    put_separated(page, alloc, &InNodes { nodes }, theorems, b" ; ");
}

/// Constants for variables, a comma between two pairs.
fn put_pairs(page: &mut Page, alloc: Global, nodes: &Nodes, pairs: &[(NameId, VariableNode)])
    requires { HasPairs nodes.now pairs.now }
    ensures { IsPut (pairs_text (pairs_at nodes.now pairs.now)) (printed page.old) (printed page.new) }
{
    put_separated(page, alloc, &InNodes { nodes }, pairs, b",");
}

impl Printable<InNodes<'_>> for (NameId, VariableNode) {
    ghost is_inside = { λ t p. HasName t.nodes.now p.0 × HasVariable t.nodes.now p.1 };

    ghost text = { λ t p. pair_text (name_at t.nodes.now p.0, variable_at t.nodes.now p.1) };

    fn put(&self, page: &mut Page, _alloc: Global, table: &InNodes<'_>) {
        put_pair(page, table.nodes, self.0, self.1);
    }
}

/// A constant's name and its variable.
fn put_pair(page: &mut Page, nodes: &Nodes, name: NameId, v: VariableNode)
    requires name { HasName nodes.now name }
    requires variable { HasVariable nodes.now v }
    ensures { IsPut (pair_text (name_at nodes.now name, variable_at nodes.now v)) (printed page.old)
        (printed page.new) }
{
    page.put(b" ");
    put_name(page, nodes, name);
    page.put(b" for ");
    put_typed(page, nodes, v.name, v.ty);
}

/// Names, a space between two.
fn put_names(page: &mut Page, alloc: Global, nodes: &Nodes, names: &[NameId])
    requires { All (HasName nodes.now) names.now }
    ensures { IsPut (names_text (names_at nodes.now names.now)) (printed page.old) (printed page.new) }
{
    put_separated(page, alloc, &InNodes { nodes }, names, b" ");
}
