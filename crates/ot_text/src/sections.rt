//! The sections of a summary, and indented lines.
ghost use Rattle.std.specs.Prelude.{◌++◌, codes, ◌∷◌, [], true, map};
ghost use Rattle.std.specs.List.{All};
ghost use Rattle.ot_text.specs.Texts.{number_text, ascending};
ghost use Rattle.ot_text.specs.Sections.{section_text, indented_text};
ghost use Rattle.ot_text.specs.Gathered.{texts_of};
ghost use Rattle.ot_text.specs.Pages.{IsPut, printed};

use crate::gather::gathered;
use crate::page::Page;
use crate::printable::Printable;
use std::alloc::Global;
use std::collections::BTreeSet;

/// Puts a section of items in their own order on a page, where it is asked for.
pub fn put_section<Table, T: Printable<Table>>(
    page: &mut Page,
    alloc: Global,
    table: &Table,
    is_asked: bool,
    title: &[u8],
    items: &[T],
)
    requires { All (T.is_inside table.now) items.now }
    ensures { IsPut (section_text is_asked title.now (map (T.text table.now) items.now)) (printed page.old)
        (printed page.new) }
{
    if !is_asked {
        return;
    }
    put_title(page, title, items.len());
    for item in items {
        page.put(b"  ");
        item.put(page, alloc, table);
        page.put(b"\n");
    }
}

/// Puts a section of items on a page, in the order of the bytes of their texts and each text once, where it is asked
/// for. The texts together cost no more than the limit.
pub fn put_sorted_section<Table, T: Printable<Table>>(
    page: &mut Page,
    alloc: Global,
    table: &Table,
    is_asked: bool,
    title: &[u8],
    items: &[T],
)
    requires { All (T.is_inside table.now) items.now }
    ensures { IsPut (section_text is_asked title.now (ascending (map (T.text table.now) items.now))) (printed page.old)
        (printed page.new) }
{
    if !is_asked {
        return;
    }
    if page.is_stopped() {
        return;
    }
    match gathered(alloc, table, items, page.room()) {
        Ok(texts) => put_texts(page, title, &texts),
        Err(fault) => page.stop(fault),
    }
}

/// A section of texts.
fn put_texts(page: &mut Page, title: &[u8], texts: &BTreeSet<Vec<u8>>)
    ensures { IsPut (section_text true title.now (texts_of texts.now)) (printed page.old) (printed page.new) }
{
    put_title(page, title, texts.len());
    for text in texts {
        page.put(b"  ");
        page.put(text.as_slice());
        page.put(b"\n");
    }
}

/// Puts texts on a page, each on a line of its own behind four spaces.
pub fn put_indented(page: &mut Page, texts: &BTreeSet<Vec<u8>>)
    ensures { IsPut (indented_text (texts_of texts.now)) (printed page.old) (printed page.new) }
{
    for text in texts {
        page.put(b"    ");
        page.put(text.as_slice());
        page.put(b"\n");
    }
}

/// The first line of a section: its title, and how many items it has.
fn put_title(page: &mut Page, title: &[u8], count: usize)
    ensures { IsPut (title.now ++ codes ": " ++ number_text count ++ 10 ∷ []) (printed page.old) (printed page.new) }
{
    page.put(title);
    page.put(b": ");
    page.put_number(count);
    page.put(b"\n");
}
