//! Full names of packages.
ghost use Rattle.std.specs.Prelude.{◌≡◌, true, IfOk};
ghost use Rattle.std.specs.Str.{IsUtf8};
ghost use Rattle.std.specs.String.{string_bytes};
ghost use Rattle.ot_blocks.specs.Paths.{is_package};

use ot_logic::Memory;
use std::alloc::Global;

/// A full name as a text of its own.
pub(crate) fn name_text(alloc: Global, full: &[u8]) -> Result<String, Memory>
    requires { is_package full.now ≡ true }
    ensures { IfOk result (λ text. string_bytes text ≡ full.now) }
{
    Ok(String::from_str(alloc, text(full))?)
}

fn text(bytes: &[u8]) -> &str
    requires { IsUtf8 bytes.now }
    ensures { result.now ≡ bytes.now }
{
    str::from_utf8(bytes).unwrap()
}
