ghost use Rattle.std.specs.Prelude.{◌≡◌, [], None, Some};
ghost use Rattle.ot_io.specs.Folder.{left_of};

use crate::files::{Files, OpenFault};
use crate::source::{Failed, Source};
use std::io::{ErrorKind, Read};
use std::{fs, rt};

/// The files of a system, by their paths, with counts of its failures. What they hold is known as far as the system tells
/// it; a real one tells nothing.
///
/// A path that the system doesn't find is a missing file. All else that it answers in place of a file
/// or of its bytes is a failure: at a folder, a path through a file, a missing permission, a byte 0.
#[derive(Drop)]
pub struct DirFiles<R: rt::Files> {
    system: R,
    file: Option<R::File>,
    misses: u64,
    faults: u64,
}

impl<R: rt::Files> DirFiles<R> {
    /// The files of this system, of which none is open.
    pub fn new(system: R) -> DirFiles<R>
        ensures left { ⟦<DirFiles<R> as Source>⟧.left result ≡ Some [] }
        ensures faults { ⟦<DirFiles<R> as Source>⟧.faults result ≡ 0 }
        ensures misses { ⟦<DirFiles<R> as Source>⟧.misses result ≡ 0 }
    {
        DirFiles {
            system,
            file: None,
            misses: 0,
            faults: 0,
        }
    }
}

impl<R: rt::Files> Source for DirFiles<R> {
    ghost left = { λ s. left_of R.File.remaining s.file };

    ghost faults = { λ s. s.faults };

    ghost folder = { λ _. None };

    ghost misses = { λ s. s.misses };

    ghost at = { λ _. None };

    fn read(&mut self, buf: &mut [u8]) -> Result<usize, Failed> {
        let Some(file) = &mut self.file else {
            return Ok(0);
        };
        match file.read(buf) {
            Ok(count) => Ok(count),
            Err(_) => {
                self.faults = self.faults.saturating_add(1);
                Err(Failed)
            }
        }
    }
}

impl<R: rt::Files> Files for DirFiles<R> {
    fn open_file(&mut self, path: &str) -> Result<(), OpenFault> {
        self.file = None;
        match fs::open(&self.system, path) {
            Ok(file) => {
                self.file = Some(file);
                Ok(())
            }
            Err(error) if error.kind() == ErrorKind::NotFound => {
                self.misses = self.misses.saturating_add(1);
                Err(OpenFault::Missing)
            }
            Err(_) => {
                self.faults = self.faults.saturating_add(1);
                Err(OpenFault::Failed)
            }
        }
    }

    fn close(&mut self) {
        self.file = None;
    }
}
