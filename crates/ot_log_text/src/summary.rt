//! The text of what a log proves.
ghost use Rattle.std.specs.Prelude.{◌≡◌, ◌<◌, length, OnOk, OnErr, Err};
ghost use Rattle.std.specs.List.{All};
ghost use Rattle.ot_log_rules.specs.Statements.{HasStatement};
ghost use Rattle.ot_text.specs.Pages.{IsPut, printed, Appended};
ghost use Rattle.ot_log_rules.specs.Accepting.{HasAccepted};
ghost use Rattle.ot_log_text.specs.Summaries.{listed_text};

use crate::table::InNodes;
use ot_log_nodes::Nodes;
use ot_log_rules::{Accepted, Statement};
use ot_text::{Page, PrintFault, put_section, put_sorted_section};
use std::alloc::Global;

/// Appends the text of these assumptions, definitions and results. Assumptions come in the order of
/// the bytes of their texts, each text once, definitions and results in the order given. `TooLarge`
/// exactly where the text has more than `max` bytes. After a refusal `out` is as it was.
pub fn summary_text(
    alloc: Global,
    nodes: &Nodes,
    assumptions: &[Statement],
    definitions: &[Accepted],
    results: &[Statement],
    max: usize,
    out: &mut Vec<u8>,
) -> Result<(), PrintFault>
    requires assumptions { All (HasStatement nodes.now) assumptions.now }
    requires definitions { All (HasAccepted nodes.now) definitions.now }
    requires results { All (HasStatement nodes.now) results.now }
    ensures ok { OnOk result (Appended (listed_text nodes.now assumptions.now definitions.now
        results.now) max out.old.items out.new.items) }
    ensures too_large { result ≡ Err PrintFault.TooLarge → max < length (listed_text nodes.now
        assumptions.now definitions.now results.now) }
    ensures err { OnErr result (out.new.items ≡ out.old.items) }
{
    let mut page = Page::new(alloc, max);
    put_summary(&mut page, alloc, nodes, assumptions, definitions, results);
    page.finish(out)
}

/// The three sections.
fn put_summary(
    page: &mut Page,
    alloc: Global,
    nodes: &Nodes,
    assumptions: &[Statement],
    definitions: &[Accepted],
    results: &[Statement],
)
    requires assumptions { All (HasStatement nodes.now) assumptions.now }
    requires definitions { All (HasAccepted nodes.now) definitions.now }
    requires results { All (HasStatement nodes.now) results.now }
    ensures { IsPut (listed_text nodes.now assumptions.now definitions.now results.now) (printed
        page.old) (printed page.new) }
{
    let table = InNodes { nodes };
    put_sorted_section(page, alloc, &table, true, b"assumptions", assumptions);
    put_section(page, alloc, &table, true, b"definitions", definitions);
    put_section(page, alloc, &table, true, b"theorems", results);
}
