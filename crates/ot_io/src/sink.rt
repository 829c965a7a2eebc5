ghost use Rattle.std.specs.Prelude.{◌≡◌, ◌<◌, ℕ, List, Option, length, IfOk, OnOk, OnErr};
ghost use Rattle.std.specs.Io.{WritesAtMost};
ghost use Rattle.std.specs.Io.KnownBytes.{WriteAppends, Keeps, Appends};
ghost use Rattle.ot_io.specs.Causes.{HasCause};
ghost use Rattle.ot_io.specs.Sinks.{FlushesAll, AppendsFront};

use crate::source::Failed;

/// A place for bytes.
pub trait Sink {
    /// The bytes that were written, where known.
    ghost written: { Self → Option (List ℕ) };

    /// How many of them were flushed, where known.
    ghost flushed: { Self → Option ℕ };

    /// How often the device failed. The count never falls.
    ghost faults: { Self → ℕ };

    /// Adds a front of `piece`, and answers of how many bytes: at least 1, where the piece is not
    /// empty.
    ///
    /// `Failed` comes only where the device failed in this call, and then nothing was added.
    fn write(&mut self, piece: &[u8]) -> Result<usize, Failed>
        ensures bound { WritesAtMost result piece.now }
        ensures some { IfOk result (λ n. 0 < length piece.now → 0 < n) }
        ensures bytes { WriteAppends (written self.old) (written self.new) result piece.now }
        ensures flushed { flushed self.new ≡ flushed self.old }
        ensures cause { HasCause (faults self.old) (faults self.new) result };

    /// Makes sure of all that was written, and adds nothing.
    ///
    /// `Failed` comes only where the device failed in this call, and then as much is flushed as
    /// before.
    fn flush(&mut self) -> Result<(), Failed>
        ensures bytes { Keeps (written self.old) (written self.new) }
        ensures flushed { OnOk result
            (FlushesAll (flushed self.old) (written self.new) (flushed self.new)) }
        ensures not_flushed { OnErr result (flushed self.new ≡ flushed self.old) }
        ensures cause { HasCause (faults self.old) (faults self.new) result };
}

/// The sink failed while bytes were written to it.
#[derive(Clone, Copy, PartialEq, Eq)]
pub struct WriteFault;

/// Writes all the bytes, in order. It takes no memory.
///
/// `WriteFault` comes only where the sink failed in this call, and then a front of the bytes was
/// written.
pub fn write_whole<K: Sink>(sink: &mut K, bytes: &[u8]) -> Result<(), WriteFault>
    ensures ok { OnOk result (Appends (K.written sink.old) (K.written sink.new) bytes.now) }
    ensures front { OnErr result
        (AppendsFront (K.written sink.old) (K.written sink.new) bytes.now) }
    ensures flushed { K.flushed sink.new ≡ K.flushed sink.old }
    ensures cause { HasCause (K.faults sink.old) (K.faults sink.new) result }
{
    let mut done = 0;
    while done < bytes.len() {
        match sink.write(&bytes[done..]) {
            Ok(count) => done += count,
            Err(Failed) => return Err(WriteFault),
        }
    }
    Ok(())
}
