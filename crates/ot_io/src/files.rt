ghost use Rattle.std.specs.Prelude.{◌≡◌, [], Some, OnOk, OnErr, IfSome, IsErrOf};
ghost use Rattle.ot_io.specs.Folder.{path_asked, bytes_at, GivesFile, HasOpenCause};

use crate::source::Source;

/// Why no file was opened.
#[derive(Clone, Copy, PartialEq, Eq)]
pub enum OpenFault {
    /// There is no such file.
    Missing,
    /// The device failed in this call.
    Failed,
}

/// Files by their paths, one open at a time. The bytes left are those of the file that is open; with
/// no open file there are none.
pub trait Files: Source {
    /// Opens the file of a path. The former file is closed, whatever the answer is.
    ///
    /// `Missing` comes only where a file was missing in this call, and never where the folder is known
    /// and has the path. `Failed` comes only where the device failed in this call. After either no
    /// file is open.
    fn open_file(&mut self, path: &str) -> Result<(), OpenFault>
        ensures folder { Self.folder self.new ≡ Self.folder self.old }
        ensures at { Self.at self.new ≡ path_asked (Self.folder self.old) path.now }
        ensures ok { OnOk result (IfSome (Self.folder self.old)
            (λ folder. GivesFile folder path.now (Self.left self.new))) }
        ensures missing { IsErrOf result OpenFault.Missing → IfSome (Self.folder self.old)
            (λ folder. bytes_at folder path.now ≡ None) }
        ensures closed { OnErr result (Self.left self.new ≡ Some []) }
        ensures cause { HasOpenCause result
            (Self.faults self.old) (Self.faults self.new) (Self.misses self.old) (Self.misses self.new) };

    /// Closes the file that is open, if one is.
    fn close(&mut self)
        ensures folder { Self.folder self.new ≡ Self.folder self.old }
        ensures at { Self.at self.new ≡ Self.at self.old }
        ensures left { Self.left self.new ≡ Some [] }
        ensures faults { Self.faults self.new ≡ Self.faults self.old }
        ensures misses { Self.misses self.new ≡ Self.misses self.old };
}
