ghost use Rattle.std.specs.Prelude.{◌≡◌, Some, None, [], min, length, drop, OnOk};
ghost use Rattle.std.specs.Io.{ReadsAtMost};
ghost use Rattle.std.specs.Io.KnownBytes.{ReadConsumes};
ghost use Rattle.ot_io.specs.Causes.{HasCause};

use crate::copying::copy_part;
use crate::source::{Failed, Source};

/// A source over bytes that were made in memory. It never fails.
#[derive(Drop)]
pub struct Bytes<'a> {
    left: &'a [u8],
}

impl<'a> Bytes<'a> {
    ghost use Rattle.std.specs.Prelude.{◌≡◌};

    /// A source that has these bytes left.
    pub fn new(bytes: &'a [u8]) -> Bytes<'a>
        ensures { result.left.now ≡ bytes.now }
    {
        Bytes { left: bytes }
    }
}

impl<'a> Source for Bytes<'a> {
    ghost left = { λ s. Some s.left.now };

    ghost faults = { λ _. 0 };

    ghost folder = { λ _. Some [] };

    ghost misses = { λ _. 0 };

    ghost at = { λ _. None };

    fn read(&mut self, buf: &mut [u8]) -> Result<usize, Failed>
        ensures bound { ReadsAtMost result buf.new }
        ensures bytes { ReadConsumes (Some self.old.left.now) (Some self.new.left.now) result buf.new }
        ensures cause { HasCause 0 0 result }
        ensures whole { OnOk result (self.new.left.now ≡ drop (min (length buf.new) (length self.old.left.now))
            self.old.left.now) }
    {
        let bytes = self.left;
        if bytes.is_empty() {
            return Ok(0);
        }
        let count = copy_part(bytes, 0, bytes.len(), buf);
        self.left = &bytes[count..];
        Ok(count)
    }
}
