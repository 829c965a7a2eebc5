ghost use Rattle.std.specs.Prelude.{◌≤◌, ◌<◌, ◌+◌, ◌^◌, length, OnOk};
ghost use Rattle.ot_scan.specs.Lines.{limit_fault};
ghost use Rattle.ot_scan.specs.Reading.{ChecksLimits};

use crate::fault::ScanFault;
use ot_lines::without_last;

/// The most bytes of a line, its newline not counted.
pub const LINE_BYTES: usize = 65535;

/// Whether the piece of a line, which stands after so many bytes, keeps the limits.
pub fn check_limits(max_bytes: u64, before: u64, number: u64, piece: &[u8]) -> Result<(), ScanFault>
    requires { before + length piece.now < 2 ^ 64 }
    ensures limits { ChecksLimits result number (limit_fault max_bytes before piece.now) }
    ensures within { OnOk result (before + length piece.now ≤ max_bytes) }
{
    let is_long = without_last(piece, b'\n').len() > LINE_BYTES;
    let is_past = before + piece.len() as u64 > max_bytes;
    if is_long && !(is_past && max_bytes <= before + LINE_BYTES as u64) {
        return Err(ScanFault::LineTooLong(number));
    }
    if is_past {
        return Err(ScanFault::ArticleTooLong(number));
    }
    Ok(())
}
