ghost use Rattle.std.specs.Prelude.{◌≡◌, ◌≤◌, ◌↔◌, [], None, Some, min, length, drop};
ghost use Rattle.std.specs.Prelude.{MatchOption, IsTrue, IfOk, OnOk, OnErr, IsErr, IsErrOf};
ghost use Rattle.std.specs.Io.{ReadsAtMost};
ghost use Rattle.std.specs.Io.KnownBytes.{ReadConsumes};
ghost use Rattle.ot_io.specs.Causes.{HasCause, next_count};
ghost use Rattle.ot_io.specs.Folder.{bytes_at, path_asked, has_distinct_paths, GivesFile, HasOpenCause};
ghost use Rattle.ot_io.specs.MemoryStates.{no_calls, FailsNext, after_call, after_failed_call};
ghost use Rattle.ot_io.specs.FileList.{folder_of, IsFileAt};

use crate::calls::Calls;
use crate::copying::copy_part;
use crate::files::{Files, OpenFault};
use crate::source::{Failed, Source};
use std::marker::Model;

/// Files in memory, for tests. Calls of `open_file` and `read` are numbered together from 1, and fail
/// exactly at the numbers that are listed.
#[derive(Drop)]
pub struct MemFiles {
    files: Vec<(String, Vec<u8>)>,
    current: Option<usize>,
    offset: usize,
    asked: Option<usize>,
    misses: u64,
    piece: usize,
    calls: Calls,
}

impl Model for MemFiles {
    ghost use Rattle.std.specs.Prelude.{drop};
    ghost use Rattle.ot_io.specs.MemoryStates.{FilesState};
    ghost use Rattle.ot_io.specs.FileList.{folder_of, open_bytes, path_of, IsReader};

    ghost Value = { FilesState };

    ghost view = { λ s. record {
      folder = folder_of s.files.items;
      left = drop s.offset (open_bytes (folder_of s.files.items) s.current);
      at = path_of (folder_of s.files.items) s.asked;
      misses = s.misses;
      piece = s.piece;
      calls = s.calls;
    } };

    ghost invariant = { λ s. IsReader s.files.items s.current s.offset s.piece };
}

impl MemFiles {
    /// Files with these paths and bytes, none of them open, of which a read gives at most `piece`
    /// bytes, and whose calls with the numbers of `fail` fail.
    pub fn new(files: Vec<(String, Vec<u8>)>, piece: usize, fail: Vec<u64>) -> MemFiles
        requires paths { IsTrue (has_distinct_paths (folder_of files.items)) }
        requires piece { 1 ≤ piece }
        ensures { result ≡ record {
          folder = folder_of files.items;
          left = [];
          at = None;
          misses = 0;
          piece = piece;
          calls = no_calls fail.items;
        } }
    {
        MemFiles {
            files,
            current: None,
            offset: 0,
            asked: None,
            misses: 0,
            piece,
            calls: Calls::new(fail),
        }
    }
}

/// The place of a path's file.
fn place_of(files: &[(String, Vec<u8>)], path: &str) -> Option<usize>
    ensures { MatchOption result
        (bytes_at (folder_of files.now) path.now ≡ None)
        (IsFileAt (folder_of files.now) path.now) }
{
    for (place, file) in files.iter().enumerate() {
        if path == file.0.as_str() {
            return Some(place);
        }
    }
    None
}

impl Source for MemFiles {
    ghost left = { λ s. Some s.left };

    ghost faults = { λ s. s.calls.faults };

    ghost folder = { λ s. Some s.folder };

    ghost misses = { λ s. s.misses };

    ghost at = { λ s. s.at };

    fn read(&mut self, buf: &mut [u8]) -> Result<usize, Failed>
        ensures bound { ReadsAtMost result buf.new }
        ensures bytes { ReadConsumes (Some self.old.left) (Some self.new.left) result buf.new }
        ensures cause { HasCause self.old.calls.faults self.new.calls.faults result }
        ensures folder { self.new.folder ≡ self.old.folder }
        ensures misses { self.new.misses ≡ self.old.misses }
        ensures at { self.new.at ≡ self.old.at }

        // Exactly the listed calls fail; another gives as much as it may.
        ensures fails { IsErr result ↔ FailsNext self.old.calls }
        ensures count { IfOk result
            (λ n. n ≡ min (length buf.new) (min self.old.piece (length self.old.left))) }
        ensures ok { IfOk result (λ n. self.new
            ≡ record self.old { left = drop n self.old.left; calls = after_call self.old.calls }) }
        ensures err { OnErr result (self.new
            ≡ record self.old { calls = after_failed_call self.old.calls }) }
    {
        self.calls.begin()?;
        match self.current {
            Some(place) => {
                let count = copy_part(&self.files[place].1, self.offset, self.piece, buf);
                self.offset += count;
                Ok(count)
            }
            None => Ok(0),
        }
    }
}

impl Files for MemFiles {
    fn open_file(&mut self, path: &str) -> Result<(), OpenFault>
        ensures folder { self.new.folder ≡ self.old.folder }
        ensures at { self.new.at ≡ path_asked (Some self.old.folder) path.now }
        ensures ok { OnOk result (GivesFile self.old.folder path.now (Some self.new.left)) }
        ensures missing { IsErrOf result OpenFault.Missing
            → bytes_at self.old.folder path.now ≡ None }
        ensures closed { OnErr result (self.new.left ≡ []) }
        ensures cause { HasOpenCause result
            self.old.calls.faults self.new.calls.faults self.old.misses self.new.misses }

        // Exactly the listed calls fail.
        ensures fails { IsErrOf result OpenFault.Failed ↔ FailsNext self.old.calls }
        ensures after_ok { OnOk result (self.new ≡ record self.old {
          left = self.new.left;
          at = Some path.now;
          calls = after_call self.old.calls;
        }) }
        ensures after_missing { IsErrOf result OpenFault.Missing → self.new ≡ record self.old {
          left = [];
          at = None;
          misses = next_count self.old.misses;
          calls = after_call self.old.calls;
        } }
        ensures after_failed { IsErrOf result OpenFault.Failed → self.new ≡ record self.old {
          left = [];
          at = path_asked (Some self.old.folder) path.now;
          calls = after_failed_call self.old.calls;
        } }
    {
        self.close();
        self.asked = place_of(&self.files, path);
        if self.calls.begin().is_err() {
            return Err(OpenFault::Failed);
        }
        match self.asked {
            Some(place) => {
                self.current = Some(place);
                self.offset = 0;
                Ok(())
            }
            None => {
                self.misses = self.misses.saturating_add(1);
                Err(OpenFault::Missing)
            }
        }
    }

    fn close(&mut self)
        ensures folder { self.new.folder ≡ self.old.folder }
        ensures at { self.new.at ≡ self.old.at }
        ensures left { self.new.left ≡ [] }
        ensures faults { self.new.calls.faults ≡ self.old.calls.faults }
        ensures misses { self.new.misses ≡ self.old.misses }
        ensures state { self.new ≡ record self.old { left = [] } }
    {
        self.current = None;
        self.offset = 0;
    }
}
