//! The texts of definitions.
ghost use Rattle.std.specs.Prelude.{◌≡◌, ◌<◌, ◌++◌, codes, length, map};
ghost use Rattle.std.specs.List.{All};
ghost use Rattle.ot_kernel.specs.State.{name_at, variable_at, theorem_at};
ghost use Rattle.ot_kernel.specs.Definitions.{definition_at, theorems_at, pairs_at};
ghost use Rattle.ot_kernel.specs.Definitions.{IsDefinitionIn, IsHeld, ArePairsIn};
ghost use Rattle.ot_text.specs.Texts.{sequent_text};
ghost use Rattle.ot_text.specs.Sections.{pair_text, pairs_text, names_text};
ghost use Rattle.ot_text.specs.Sections.{head_text, theorems_text, definition_text};
ghost use Rattle.ot_view.specs.Nodes.{IsKey};
ghost use Rattle.ot_text.specs.Pages.{IsPut, printed};

use crate::nodes::put_name;
use crate::sequents::put_sequent;
use crate::table::InKernel;
use crate::terms::put_typed;
use ot_kernel::{Definition, Kernel, ThmId};
use ot_logic::NameId;
use ot_term::VarKey;
use ot_text::{Page, Printable, put_separated};
use std::alloc::Global;

impl Printable<InKernel<'_>> for Definition {
    ghost is_inside = { λ t d. IsHeld t.kernel.now d };

    ghost text = { λ t d. definition_text (definition_at t.kernel.now d) };

    fn put(&self, page: &mut Page, alloc: Global, table: &InKernel<'_>) {
        put_definition(page, alloc, table.kernel, self);
    }
}

/// What is defined, from what, and the theorems.
pub(crate) fn put_definition(
    page: &mut Page,
    alloc: Global,
    kernel: &Kernel,
    definition: &Definition,
)
    requires { IsDefinitionIn (length kernel.now.names) (length kernel.now.types) (length kernel.now.theorems)
        definition.now }
    ensures { IsPut (head_text (definition_at kernel.now definition.now) ++ codes " : "
        ++ theorems_text (theorems_at kernel.now definition.now)) (printed page.old) (printed page.new) }
{
    put_head(page, alloc, kernel, definition);
    page.put(b" : ");
    put_theorems(page, alloc, kernel, definition);
}

/// What is defined, and from what.
fn put_head(page: &mut Page, alloc: Global, kernel: &Kernel, definition: &Definition)
    requires { IsDefinitionIn (length kernel.now.names) (length kernel.now.types) (length kernel.now.theorems)
        definition.now }
    ensures { IsPut (head_text (definition_at kernel.now definition.now)) (printed page.old) (printed page.new) }
{
    match definition {
        Definition::Con { name, .. } => {
            page.put(b"const ");
            put_name(page, kernel, *name);
        }
        Definition::List {
            names,
            vars,
            premise,
            ..
        } => {
            page.put(b"consts");
            put_pairs(page, kernel, names.as_slice(), vars.as_slice());
            put_premise(page, alloc, kernel, *premise);
        }
        Definition::TyOp {
            name,
            abs,
            rep,
            vars,
            premise,
            ..
        } => {
            page.put(b"type ");
            put_name(page, kernel, *name);
            page.put(b" (");
            put_names(page, alloc, kernel, vars.as_slice());
            page.put(b") abs ");
            put_name(page, kernel, *abs);
            page.put(b" rep ");
            put_name(page, kernel, *rep);
            put_premise(page, alloc, kernel, *premise);
        }
    }
}

/// The theorem from which something is defined.
fn put_premise(page: &mut Page, alloc: Global, kernel: &Kernel, th: ThmId)
    requires { th < length kernel.now.theorems }
    ensures { IsPut (codes " from " ++ sequent_text (theorem_at kernel.now th)) (printed page.old)
        (printed page.new) }
{
    page.put(b" from ");
    put_sequent(page, alloc, kernel, th);
}

/// The theorems of a definition, a semicolon between two.
fn put_theorems(page: &mut Page, alloc: Global, kernel: &Kernel, definition: &Definition)
    requires { IsDefinitionIn (length kernel.now.names) (length kernel.now.types) (length kernel.now.theorems)
        definition.now }
    ensures { IsPut (theorems_text (theorems_at kernel.now definition.now)) (printed page.old) (printed page.new) }
{
    match definition {
        Definition::Con { th, .. } => put_sequent(page, alloc, kernel, *th),
        Definition::List { th, .. } => put_sequent(page, alloc, kernel, *th),
        Definition::TyOp { abs_th, rep_th, .. } => {
            put_sequent(page, alloc, kernel, *abs_th);
            page.put(b" ; ");
            put_sequent(page, alloc, kernel, *rep_th);
        }
    }
}

/// Constants for variables, a comma between two pairs.
fn put_pairs(page: &mut Page, kernel: &Kernel, names: &[NameId], vars: &[VarKey])
    requires { ArePairsIn (length kernel.now.names) (length kernel.now.types) names.now vars.now }
    ensures { IsPut (pairs_text (pairs_at kernel.now names.now vars.now)) (printed page.old) (printed page.new) }
{
    let mut is_first = true;
    for (i, name) in names.iter().enumerate() {
        page.separate(is_first, b",");
        put_pair(page, kernel, *name, &vars[i]);
        is_first = false;
    }
}

/// A constant's name and its variable.
fn put_pair(page: &mut Page, kernel: &Kernel, name: NameId, v: &VarKey)
    requires name { name < length kernel.now.names }
    requires variable { IsKey kernel.now v.now }
    ensures { IsPut (pair_text (name_at kernel.now name, variable_at kernel.now v.now)) (printed page.old)
        (printed page.new) }
{
    page.put(b" ");
    put_name(page, kernel, name);
    page.put(b" for ");
    put_typed(page, kernel, v.name, v.ty);
}

/// Names, a space between two.
fn put_names(page: &mut Page, alloc: Global, kernel: &Kernel, names: &[NameId])
    requires { All (λ i. i < length kernel.now.names) names.now }
    ensures { IsPut (names_text (map (name_at kernel.now) names.now)) (printed page.old) (printed page.new) }
{
    put_separated(page, alloc, &InKernel { kernel }, names, b" ");
}
