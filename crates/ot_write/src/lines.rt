//! Lines at the end of a vector.
ghost use Rattle.std.specs.Prelude.{◌≡◌, ◌++◌, pos, OnOk};
ghost use Rattle.ot_written.specs.Bytes.{line_bytes};
ghost use Rattle.ot_written.specs.Written.{Numeral, Spelled, Order};

use itoa::Buffer;
use ot_logic::{Cmd, Memory, Name};

/// Appends a line that holds a word. After running out of memory some front of it may be added.
pub(crate) fn push_word(word: Cmd, out: &mut Vec<u8>) -> Result<(), Memory>
    ensures { OnOk result (out.new.items ≡ out.old.items ++ line_bytes (Order word)) }
{
    out.extend_from_slice(word.text())?;
    out.push(b'\n')?;
    Ok(())
}

/// Appends a line that holds a number. After running out of memory some front of it may be added.
pub(crate) fn push_number(number: i64, out: &mut Vec<u8>) -> Result<(), Memory>
    ensures { OnOk result (out.new.items ≡ out.old.items ++ line_bytes (Numeral number)) }
{
    let mut buffer = Buffer::new();
    out.extend_from_slice(buffer.format(number).as_bytes())?;
    out.push(b'\n')?;
    Ok(())
}

/// Appends a line that holds a key. After running out of memory some front of it may be added.
pub(crate) fn push_key(key: u64, out: &mut Vec<u8>) -> Result<(), Memory>
    ensures { OnOk result (out.new.items ≡ out.old.items ++ line_bytes (Numeral (pos key))) }
{
    let mut buffer = Buffer::new();
    out.extend_from_slice(buffer.format(key).as_bytes())?;
    out.push(b'\n')?;
    Ok(())
}

/// Appends a line that holds a name. After running out of memory some front of it may be added.
pub(crate) fn push_name(name: &Name, out: &mut Vec<u8>) -> Result<(), Memory>
    ensures { OnOk result (out.new.items ≡ out.old.items ++ line_bytes (Spelled name.now)) }
{
    name.spell(out)?;
    out.push(b'\n')?;
    Ok(())
}
