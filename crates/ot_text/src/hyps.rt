//! The front of a sequent's text: the hypotheses and the turnstile.
ghost use Rattle.std.specs.Prelude.{[], map};
ghost use Rattle.std.specs.List.{All};
ghost use Rattle.ot_text.specs.Texts.{ascending, hyps_text};
ghost use Rattle.ot_text.specs.Gathered.{texts_of};
ghost use Rattle.ot_text.specs.Separated.{hyps_from};
ghost use Rattle.ot_text.specs.Pages.{IsPut, printed};

use crate::gather::gathered;
use crate::page::Page;
use crate::printable::Printable;
use std::alloc::Global;
use std::collections::BTreeSet;

/// Puts the hypotheses of these numbers and the turnstile on a page. The hypotheses' texts together cost no more than
/// the limit.
pub fn put_hypotheses<Table, T: Printable<Table>>(
    page: &mut Page,
    alloc: Global,
    table: &Table,
    hyps: &[T],
)
    requires { All (T.is_inside table.now) hyps.now }
    ensures { IsPut (hyps_text (ascending (map (T.text table.now) hyps.now))) (printed page.old) (printed page.new) }
{
    if page.is_stopped() {
        return;
    }
    match gathered(alloc, table, hyps, page.room()) {
        Ok(texts) => put_hyps(page, &texts),
        Err(fault) => page.stop(fault),
    }
}

/// Puts the hypotheses' texts and the turnstile on a page.
pub fn put_hyps(page: &mut Page, texts: &BTreeSet<Vec<u8>>)
    ensures { IsPut (hyps_text (texts_of texts.now)) (printed page.old) (printed page.new) }
{
    let mut is_first = true;
    for text in texts {
        page.separate(is_first, b", ");
        page.put(text.as_slice());
        is_first = false;
    }
    put_turnstile(page, is_first);
}

/// The turnstile, behind a space where hypotheses stand before it.
fn put_turnstile(page: &mut Page, is_first: bool)
    ensures { IsPut (hyps_from is_first []) (printed page.old) (printed page.new) }
{
    if is_first {
        page.put(b"|- ");
    } else {
        page.put(b" |- ");
    }
}
