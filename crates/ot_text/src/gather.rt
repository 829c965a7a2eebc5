//! Texts in the order of their bytes, each once.
ghost use Rattle.std.specs.Prelude.{◌≡◌, ◌<◌, ◌+◌, map, IfOk, OnOk, Err};
ghost use Rattle.std.specs.BTreeSet.{insert_key};
ghost use Rattle.std.specs.List.{All};
ghost use Rattle.ot_text.specs.Texts.{ascending, order};
ghost use Rattle.ot_text.specs.Gathered.{texts_of, bytes_in};

use crate::fault::PrintFault;
use crate::printable::{Printable, append};
use std::alloc::Global;
use std::collections::BTreeSet;

/// The texts of items. `TooLarge` only where they have more than `max` bytes together.
pub fn gathered<Table, T: Printable<Table>>(
    alloc: Global,
    table: &Table,
    items: &[T],
    max: usize,
) -> Result<BTreeSet<Vec<u8>>, PrintFault>
    requires { All (T.is_inside table.now) items.now }
    ensures ok { IfOk result (λ texts. texts_of texts ≡ ascending (map (T.text table.now) items.now)) }
    ensures too_large { result ≡ Err PrintFault.TooLarge → max < bytes_in (ascending (map (T.text table.now) items.now)) }
{
    let mut texts = BTreeSet::new(alloc);
    let mut room = max;
    for item in items {
        let mut text = Vec::new(alloc);
        append(alloc, table, item, max, &mut text)?;
        add_text(&mut texts, &mut room, text)?;
    }
    Ok(texts)
}

/// Puts a text among the others, if it isn't there, and takes its bytes off the room. `TooLarge` where they have more
/// bytes than there is room for.
pub fn add_text(
    texts: &mut BTreeSet<Vec<u8>>,
    room: &mut usize,
    text: Vec<u8>,
) -> Result<(), PrintFault>
    ensures ok { OnOk result (texts_of texts.new ≡ insert_key order (texts_of texts.old) text.items) }
    ensures room { OnOk result (room.new + bytes_in (insert_key order (texts_of texts.old) text.items) ≡ room.old
        + bytes_in (texts_of texts.old)) }
    ensures too_large { result ≡ Err PrintFault.TooLarge → room.old + bytes_in (texts_of texts.old)
        < bytes_in (insert_key order (texts_of texts.old) text.items) }
{
    let len = text.len();
    if !texts.insert(text)? {
        return Ok(());
    }
    if len > *room {
        return Err(PrintFault::TooLarge);
    }
    *room -= len;
    Ok(())
}
