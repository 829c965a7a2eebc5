ghost use Rattle.std.specs.Prelude.{◌≡◌};
ghost use Rattle.ot_scan.specs.declared.fault.ScanFault.TheVariants.{ReadFault};

use ot_io::Failed;

/// Why the next line of an article can't be given.
#[derive(Clone, Copy, PartialEq, Eq)]
pub enum ScanFault {
    /// The source failed.
    ReadFault,
    /// The line of this number has more than 65,535 bytes, its newline not counted.
    LineTooLong(u64),
    /// The article goes past its limit, in the line of this number.
    ArticleTooLong(u64),
}

impl From<Failed> for ScanFault {
    ghost from_gives = { λ _ e. e ≡ ReadFault };

    fn from(_: Failed) -> ScanFault {
        ScanFault::ReadFault
    }
}
