//! The text of what theorems rest on.
ghost use Rattle.std.specs.Prelude.{◌≡◌, ◌<◌, ◌++◌, ◌∷◌, [], ℕ, List, codes, length, map, OnOk, OnErr, IfOk, Err};
ghost use Rattle.std.specs.List.{All};
ghost use Rattle.ot_text.specs.Gathered.{bytes_in, texts_of};
ghost use Rattle.ot_text.specs.Pages.{Appended, IsPut, printed};
ghost use Rattle.ot_text.specs.Texts.{ascending, number_text, sequent_text};
ghost use Rattle.ot_machine.specs.Meaning.{export_of, run_of, IsExportIn, IsRun};
ghost use Rattle.ot_uses.specs.Picked.{support_in};
ghost use Rattle.ot_uses.specs.Placing.{picked};
ghost use Rattle.ot_uses.specs.Ready.{theorem_steps, IsReady};
ghost use Rattle.ot_uses.specs.Texts.{counted_text, support_text, uses_text as text_of};
ghost use Rattle.ot_uses.specs.Used.{support_of};

use crate::finding::{leads_of, uses};
use ot_kernel::{Kernel, ThmId};
use ot_leads::{Leads, Uses};
use ot_logic::Memory;
use ot_machine::{Export, Session};
use ot_print::InKernel;
use ot_text::{Page, PrintFault, Printable, gathered, put_indented};
use std::alloc::Global;
use std::collections::BTreeSet;

/// Appends for each export its number, counted from 1, its sequent, and the assumptions and the definitions that it
/// rests on: the assumptions in the order of the bytes of their texts, the definitions in the order in which they
/// were accepted.
///
/// The exports are of the session. The trace is walked once, and nothing is printed that isn't in the text.
/// `TooLarge` exactly where the text has more than `max` bytes. After a refusal `out` is as it was.
pub fn uses_text(
    alloc: Global,
    session: &Session,
    exports: &[Export],
    max: usize,
    out: &mut Vec<u8>,
) -> Result<(), PrintFault>
    requires run { IsRun session.now }
    requires exports { All (IsExportIn session.now) exports.now }
    ensures ok { OnOk result (Appended (text_of (run_of session.now) (map (export_of session.now) exports.now))
        max out.old.items out.new.items) }
    ensures too_large { result ≡ Err PrintFault.TooLarge
        → max < length (text_of (run_of session.now) (map (export_of session.now) exports.now)) }
    ensures err { OnErr result (out.new.items ≡ out.old.items) }
{
    let mut page = Page::new(alloc, max);
    put_exports(&mut page, alloc, session, exports);
    page.finish(out)
}

/// The exports in order, with their numbers.
fn put_exports(page: &mut Page, alloc: Global, session: &Session, exports: &[Export])
    requires run { IsRun session.now }
    requires exports { All (IsExportIn session.now) exports.now }
    ensures { IsPut (text_of (run_of session.now) (map (export_of session.now) exports.now))
        (printed page.old) (printed page.new) }
{
    match leads_of(alloc, session, exports) {
        Ok(mut leads) => put_each(page, alloc, session, &mut leads, exports),
        Err(memory) => page.stop(PrintFault::Memory(memory)),
    }
}

/// The exports in order, with their numbers, by what steps lead to.
fn put_each(
    page: &mut Page,
    alloc: Global,
    session: &Session,
    leads: &mut Leads,
    exports: &[Export],
)
    requires run { IsRun session.now }
    requires exports { All (IsExportIn session.now) exports.now }
    requires ready { IsReady session.now (theorem_steps exports.now) leads.old }
    ensures { IsPut (text_of (run_of session.now) (map (export_of session.now) exports.now))
        (printed page.old) (printed page.new) }
{
    for (i, export) in exports.iter().enumerate() {
        put_export(page, alloc, session, leads, i + 1, export);
    }
}

/// An export with what it rests on, behind its number.
fn put_export(
    page: &mut Page,
    alloc: Global,
    session: &Session,
    leads: &mut Leads,
    number: usize,
    export: &Export,
)
    requires run { IsRun session.now }
    requires export { IsExportIn session.now export.now }
    requires ready { IsReady session.now (export.now.theorem ∷ []) leads.old }
    ensures put { IsPut (support_text number (support_of (run_of session.now) (export_of session.now export.now)))
        (printed page.old) (printed page.new) }
    ensures ready { (roots : List ℕ) → IsReady session.now roots leads.old → IsReady session.now roots leads.new }
{
    if page.is_stopped() {
        return;
    }
    match uses(alloc, session, leads, export.theorem) {
        Ok(used) => put_support(page, alloc, session.kernel(), number, export.th, &used),
        Err(memory) => page.stop(PrintFault::Memory(memory)),
    }
}

/// A theorem with the assumptions and the definitions at these places.
fn put_support(
    page: &mut Page,
    alloc: Global,
    kernel: &Kernel,
    number: usize,
    th: ThmId,
    used: &Uses,
)
    requires th { th < length kernel.now.theorems }
    requires assumptions { All (λ i. i < length kernel.now.assumptions) used.now.assumptions.items }
    requires definitions { All (λ i. i < length kernel.now.definitions) used.now.definitions.items }
    ensures { IsPut (support_text number (support_in kernel.now th used.now)) (printed page.old) (printed page.new) }
{
    page.put(b"theorem ");
    page.put_number(number);
    page.put(b": ");
    let table = InKernel { kernel };
    th.put(page, alloc, &table);
    page.put(b"\n");
    put_assumptions(page, alloc, kernel, &used.assumptions);
    put_items(
        page,
        alloc,
        &table,
        b"definitions",
        kernel.definitions(),
        &used.definitions,
    );
}

/// The assumptions at these places. Their texts together cost no more than the limit.
fn put_assumptions(page: &mut Page, alloc: Global, kernel: &Kernel, places: &[usize])
    requires { All (λ i. i < length kernel.now.assumptions) places.now }
    ensures { IsPut
        (counted_text (codes "assumptions") (ascending (map sequent_text (picked kernel.now.assumptions places.now))))
        (printed page.old) (printed page.new) }
{
    if page.is_stopped() {
        return;
    }
    match assumption_texts(alloc, kernel, places, page.room()) {
        Ok(texts) => put_texts(page, b"assumptions", &texts),
        Err(fault) => page.stop(fault),
    }
}

/// The texts of the assumptions at these places. `TooLarge` only where they have more than `max` bytes together.
fn assumption_texts(
    alloc: Global,
    kernel: &Kernel,
    places: &[usize],
    max: usize,
) -> Result<BTreeSet<Vec<u8>>, PrintFault>
    requires { All (λ i. i < length kernel.now.assumptions) places.now }
    ensures ok { IfOk result
        (λ texts. texts_of texts ≡ ascending (map sequent_text (picked kernel.now.assumptions places.now))) }
    ensures too_large { result ≡ Err PrintFault.TooLarge
        → max < bytes_in (ascending (map sequent_text (picked kernel.now.assumptions places.now))) }
{
    let assumptions = kernel.assumptions();
    let mut used = Vec::new(alloc);
    for place in places {
        used.push(assumptions[*place])?;
    }
    gathered(alloc, &InKernel { kernel }, &used, max)
}

/// How many texts there are, and each.
fn put_texts(page: &mut Page, title: &[u8], texts: &BTreeSet<Vec<u8>>)
    ensures { IsPut (counted_text title.now (texts_of texts.now)) (printed page.old) (printed page.new) }
{
    put_count(page, title, texts.len());
    put_indented(page, texts);
}

/// How many items there are at these places, and each.
fn put_items<Table, T: Printable<Table>>(
    page: &mut Page,
    alloc: Global,
    table: &Table,
    title: &[u8],
    items: &[T],
    places: &[usize],
)
    requires items { All (T.is_inside table.now) items.now }
    requires places { All (λ i. i < length items.now) places.now }
    ensures { IsPut (counted_text title.now (map (T.text table.now) (picked items.now places.now)))
        (printed page.old) (printed page.new) }
{
    put_count(page, title, places.len());
    for place in places {
        page.put(b"    ");
        items[*place].put(page, alloc, table);
        page.put(b"\n");
    }
}

/// The line that says how many there are.
fn put_count(page: &mut Page, title: &[u8], count: usize)
    ensures { IsPut (codes "  " ++ title.now ++ codes ": " ++ number_text count ++ 10 ∷ [])
        (printed page.old) (printed page.new) }
{
    page.put(b"  ");
    page.put(title);
    page.put(b": ");
    page.put_number(count);
    page.put(b"\n");
}
