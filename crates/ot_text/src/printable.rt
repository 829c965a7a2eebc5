//! What has a text under a table.
ghost use Rattle.std.specs.Prelude.{◌≡◌, ◌<◌, ℕ, List, length, OnOk, OnErr, Err};
ghost use Rattle.ot_text.specs.Pages.{IsPut, printed, Appended};

use crate::fault::PrintFault;
use crate::page::Page;
use std::alloc::Global;

/// What has a text under a table. A crate has a type of its own for the table under which it prints.
pub trait Printable<Table> {
    /// Whether its numbers are of the table.
    ghost is_inside: { Table → Self → Type 0 };

    /// Its text.
    ghost text: { Table → Self → List ℕ };

    /// Puts the text on a page.
    fn put(&self, page: &mut Page, alloc: Global, table: &Table)
        requires { is_inside table.now self.now }
        ensures { IsPut (text table.now self.now) (printed page.old) (printed page.new) };
}

/// Appends the text. `TooLarge` exactly where it has more than `max` bytes. After a refusal `out` is as it was.
pub fn append<Table, T: Printable<Table>>(
    alloc: Global,
    table: &Table,
    item: &T,
    max: usize,
    out: &mut Vec<u8>,
) -> Result<(), PrintFault>
    requires { T.is_inside table.now item.now }
    ensures ok { OnOk result (Appended (T.text table.now item.now) max out.old.items out.new.items) }
    ensures too_large { result ≡ Err PrintFault.TooLarge → max < length (T.text table.now item.now) }
    ensures err { OnErr result (out.new.items ≡ out.old.items) }
{
    let mut page = Page::new(alloc, max);
    item.put(&mut page, alloc, table);
    page.finish(out)
}
