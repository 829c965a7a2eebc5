//! Terms in the order of their texts.
ghost use Rattle.std.specs.Prelude.{◌≡◌, map, OnOk, IfOk};
ghost use Rattle.std.specs.List.{All};
ghost use Rattle.ot_log_nodes.specs.Items.{HasTerm, term_at};
ghost use Rattle.ot_log_records.specs.Expansions.{with_term, by_text};
ghost use Rattle.ot_log_order.specs.Places.{AreAscending, IsPlace};

use crate::comparing::compare;
use ot_log_nodes::{Nodes, TermId};
use ot_logic::Memory;
use std::cmp::Ordering;

/// The terms in the order of the bytes of their texts, each text once: of several terms with one text, the last of
/// the list. The terms are of this table. Their texts are those that are printed, and may be too long for memory:
/// none is made as a whole. The one error is running out of memory.
pub fn sorted_by_text(nodes: &Nodes, terms: &[TermId]) -> Result<Vec<TermId>, Memory>
    requires { All (HasTerm nodes.now) terms.now }
    ensures has { IfOk result (λ found. All (HasTerm nodes.now) found.items) }
    ensures sorted { IfOk result (λ found.
        map (term_at nodes.now) found.items ≡ by_text (map (term_at nodes.now) terms.now)) }
{
    let mut sorted = Vec::new(nodes.allocator());
    for i in (0..terms.len()).rev() {
        insert(nodes, &mut sorted, terms[i])?;
    }
    Ok(sorted)
}

/// Puts a term at its place, unless its text is there.
fn insert(nodes: &Nodes, sorted: &mut Vec<TermId>, term: TermId) -> Result<(), Memory>
    requires sorted { All (HasTerm nodes.now) sorted.old.items }
    requires ascending { AreAscending nodes.now sorted.old.items }
    requires term { HasTerm nodes.now term }
    ensures has { OnOk result (All (HasTerm nodes.now) sorted.new.items) }
    ensures put { let terms = map (term_at nodes.now) in
        OnOk result (terms sorted.new.items ≡ with_term (term_at nodes.now term) (terms sorted.old.items)) }
{
    match place_of(nodes, sorted.as_slice(), term)? {
        Some(place) => {
            sorted.insert(place, term)?;
            Ok(())
        }
        None => Ok(()),
    }
}

/// The place of a term among others, found by halving; none where its text is there.
fn place_of(nodes: &Nodes, sorted: &[TermId], term: TermId) -> Result<Option<usize>, Memory>
    requires sorted { All (HasTerm nodes.now) sorted.now }
    requires ascending { AreAscending nodes.now sorted.now }
    requires term { HasTerm nodes.now term }
    ensures { IfOk result (IsPlace nodes.now sorted.now term) }
{
    let mut low = 0;
    let mut high = sorted.len();
    'places: while low < high {
        let middle = low + (high - low) / 2;
        match compare(nodes, term, sorted[middle])? {
            Ordering::Less => high = middle,
            Ordering::Equal => return Ok(None),
            Ordering::Greater => low = middle + 1,
        }
    }
    Ok(Some(low))
}
