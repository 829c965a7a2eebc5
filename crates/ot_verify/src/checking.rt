ghost use Rattle.std.specs.Prelude.{◌≡◌, ◌≤◌, ◌<◌, ◌^◌, ◌++◌, [], length, Err, IsOk, IfOk, OnOk, OnErr};
ghost use Rattle.ot_io.specs.Causes.{CountRose};
ghost use Rattle.ot_io.specs.Keeping.{KeepsSource};
ghost use Rattle.ot_io.specs.Reading.{HasRead};
ghost use Rattle.ot_verify.specs.Reading.{log_check};
ghost use Rattle.ot_text.specs.Pages.{Appended};
ghost use Rattle.ot_verify.specs.Verifying.{Verifies, AreProved, proved_text};

use crate::fault::{VerifiedText, VerifyFault};
use crate::log::Log;
use crate::reader::Reader;
use crate::records::take_record;
use ot_io::Source;
use ot_log_text::PrintFault;
use std::alloc::Global;
use std::marker::Model;

/// What a log that is accepted proves: its assumptions, its definitions, and its results.
#[derive(Drop)]
pub struct Verified {
    log: Log,
}

impl Model for Verified {
    ghost use Rattle.ot_verify.specs.Verifying.{Proved, coded_proved, proved_by};

    ghost Value = { Proved };

    ghost coded = { coded_proved };

    ghost view = { λ v. proved_by v.log.state };
}

impl Verified {
    /// Appends the summary: the assumptions in the order of the bytes of their texts, the
    /// definitions in the order in which they were accepted, and the results in the order in which
    /// they came, each once. `TooLarge` exactly where the summary has more than `max` bytes. After
    /// a refusal `out` is as it was.
    pub fn text(&self, alloc: Global, max: usize, out: &mut Vec<u8>) -> Result<(), VerifiedText>
        ensures ok { OnOk result (Appended (proved_text self.now) max out.old.items out.new.items) }
        ensures too_large { result ≡ Err VerifiedText.TooLarge → max < length (proved_text self.now) }
        ensures err { OnErr result (out.new.items ≡ out.old.items) }
    {
        match self.log.text(alloc, max, out) {
            Ok(()) => Ok(()),
            Err(PrintFault::TooLarge) => Err(VerifiedText::TooLarge),
            Err(PrintFault::Memory(memory)) => Err(VerifiedText::Memory(memory)),
        }
    }
}

/// Checks a proof log of at most `max_bytes` bytes, in one pass over a source.
///
/// `At` comes exactly where the check stops, with its line and fault. `ReadFault` comes only where
/// the source failed in this call. Where the log is accepted the source was read to its end, the
/// definitions are accepted, and each result is derivable from the assumptions under them.
pub fn verify<S: Source>(
    alloc: Global,
    source: &mut S,
    max_bytes: u64,
) -> Result<Verified, VerifyFault>
    requires { max_bytes ≤ 2 ^ 32 }
    // Of the bytes that were read, which end where the log is accepted.
    ensures checked { HasRead (S.left source.old) (S.left source.new) (IsOk result)
        (λ bytes rest. Verifies result (log_check max_bytes bytes)) }
    ensures proved { IfOk result AreProved }
    ensures cause { result ≡ Err VerifyFault.ReadFault → CountRose (S.faults source.old) (S.faults source.new) }
    ensures kept { KeepsSource S.folder S.faults S.misses S.at source.old source.new }
{
    let mut log = Log::new(alloc)?;
    let mut reader = Reader::new(max_bytes);
    reader.header(alloc, source)?;
    'records: loop {
        let Some(word) = reader.begin(alloc, source)? else {
            log.sound();
            return Ok(Verified { log });
        };
        let first = reader.last();
        take_record(alloc, &mut log, &mut reader, source, word, first)?;
    }
}
