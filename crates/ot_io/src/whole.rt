ghost use Rattle.std.specs.Prelude.{◌≡◌};
ghost use Rattle.ot_io.specs.Folder.{bytes_at, path_asked};
ghost use Rattle.ot_io.specs.Keeping.{KeepsFiles};
ghost use Rattle.ot_io.specs.Readings.{HasReadFiles};
ghost use Rattle.ot_io.specs.Whole.{IsReadOf, HasFileCause};

use crate::files::{Files, OpenFault};
use crate::front::{ReadFault, read_front};
use ot_logic::Memory;
use std::alloc::Global;

/// Why a file isn't read.
#[derive(Clone, Copy)]
pub enum FileFault {
    /// There is no such file.
    Missing,
    /// It has more bytes than are read.
    TooLarge,
    /// The device failed.
    Failed,
    Memory(Memory),
}

/// The bytes of a path's file, where it has at most `max_bytes`. No more than one further byte is read, and the file
/// stays open.
///
/// `Missing` and `Failed` come only where their count rose in this call.
pub fn read_file<F: Files>(
    alloc: Global,
    files: &mut F,
    path: &str,
    max_bytes: usize,
) -> Result<Vec<u8>, FileFault>
    ensures reads { HasReadFiles (F.folder files.old) (λ folder. IsReadOf result max_bytes (bytes_at folder path.now)) }
    ensures cause { HasFileCause result
        (F.faults files.old) (F.faults files.new) (F.misses files.old) (F.misses files.new) }
    ensures at { F.at files.new ≡ path_asked (F.folder files.old) path.now }
    ensures kept { KeepsFiles F.folder F.faults F.misses files.old files.new }
{
    match files.open_file(path) {
        Ok(()) => match read_front(alloc, files, max_bytes) {
            Ok(bytes) => {
                if bytes.len() <= max_bytes {
                    Ok(bytes)
                } else {
                    Err(FileFault::TooLarge)
                }
            }
            Err(ReadFault::Failed) => Err(FileFault::Failed),
            Err(ReadFault::Memory(memory)) => Err(FileFault::Memory(memory)),
        },
        Err(OpenFault::Missing) => Err(FileFault::Missing),
        Err(OpenFault::Failed) => Err(FileFault::Failed),
    }
}
