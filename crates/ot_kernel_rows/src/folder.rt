//! Folders of files in memory.
ghost use Rattle.std.specs.Prelude.{◌≡◌, ◌++◌, map, IfOk, string_bytes};
ghost use Rattle.ot_io.specs.FileList.{folder_of};

use std::alloc::Global;
use std::test::Fail;

/// A path, and the text of its file in two parts.
pub(crate) type Entry = (&'static str, &'static [u8], &'static [u8]);

/// A file of a table.
fn file_of(alloc: Global, entry: &Entry) -> Result<(String, Vec<u8>), Fail>
    ensures path { IfOk result (λ file. string_bytes file.0 ≡ entry.now.0.now) }
    ensures bytes { IfOk result (λ file. file.1.items ≡ entry.now.1.now ++ entry.now.2.now) }
{
    let path = String::from_str(alloc, entry.0)?;
    let mut bytes = Vec::from_slice(alloc, entry.1)?;
    bytes.extend_from_slice(entry.2)?;
    Ok((path, bytes))
}

/// The files of a table.
pub(crate) fn files_of(alloc: Global, entries: &[Entry]) -> Result<Vec<(String, Vec<u8>)>, Fail>
    ensures { IfOk result (λ files. folder_of files.items
        ≡ map (λ e. (e.0.now, e.1.now ++ e.2.now)) entries.now) }
{
    let mut files = Vec::new(alloc);
    'each: for entry in entries {
        let file = file_of(alloc, entry)?;
        files.push(file)?;
    }
    Ok(files)
}
