//! Items with a separator between two.
ghost use Rattle.std.specs.Prelude.{map};
ghost use Rattle.std.specs.List.{All};
ghost use Rattle.ot_text.specs.Separated.{separated};
ghost use Rattle.ot_text.specs.Pages.{IsPut, printed};

use crate::page::Page;
use crate::printable::Printable;
use std::alloc::Global;

/// Puts items on a page, a separator between two.
pub fn put_separated<Table, T: Printable<Table>>(
    page: &mut Page,
    alloc: Global,
    table: &Table,
    items: &[T],
    separator: &[u8],
)
    requires { All (T.is_inside table.now) items.now }
    ensures { IsPut (separated separator.now (map (T.text table.now) items.now)) (printed page.old) (printed page.new) }
{
    let mut is_first = true;
    for item in items {
        page.separate(is_first, separator);
        item.put(page, alloc, table);
        is_first = false;
    }
}
