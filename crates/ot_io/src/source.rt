ghost use Rattle.std.specs.Prelude.{◌≡◌, ℕ, List, Option};
ghost use Rattle.std.specs.Io.{ReadsAtMost};
ghost use Rattle.std.specs.Io.KnownBytes.{ReadConsumes};
ghost use Rattle.ot_io.specs.Causes.{HasCause};
ghost use Rattle.ot_io.specs.Folder.{Folder};

/// The device failed in this call.
#[derive(Clone, Copy, PartialEq, Eq)]
pub struct Failed;

/// A stream of bytes, perhaps those of a file.
///
/// A source without files knows the folder without files and no path, and has missed none.
pub trait Source {
    /// The bytes that are left, where known.
    ghost left: { Self → Option (List ℕ) };

    /// How often the device failed. The count never falls.
    ghost faults: { Self → ℕ };

    /// The files, where known.
    ghost folder: { Self → Option Folder };

    /// How often a file was missing. The count never falls.
    ghost misses: { Self → ℕ };

    /// The path that was asked for last, where known.
    ghost at: { Self → Option (List ℕ) };

    /// Takes the next bytes into the front of `buf`, and answers how many. `Ok(0)` for a buffer that
    /// is not empty is the end.
    ///
    /// `Failed` comes only where the device failed in this call, and then no byte was taken.
    fn read(&mut self, buf: &mut [u8]) -> Result<usize, Failed>
        ensures bound { ReadsAtMost result buf.new }
        ensures bytes { ReadConsumes (left self.old) (left self.new) result buf.new }
        ensures cause { HasCause (faults self.old) (faults self.new) result }
        ensures folder { folder self.new ≡ folder self.old }
        ensures misses { misses self.new ≡ misses self.old }
        ensures at { at self.new ≡ at self.old };
}
