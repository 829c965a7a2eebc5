ghost use Rattle.std.specs.Prelude.{◌≡◌, ◌<◌, ◌≤◌, ◌↔◌, ◌⊎◌, ◌++◌, [], Some, length, take, IfOk, OnOk, OnErr, IsErr};
ghost use Rattle.std.specs.Io.{WritesAtMost};
ghost use Rattle.std.specs.Io.KnownBytes.{WriteAppends};
ghost use Rattle.ot_io.specs.Causes.{HasCause};
ghost use Rattle.ot_io.specs.MemoryStates.{no_calls, FailsNext, after_call};
ghost use Rattle.ot_io.specs.MemoryStates.{after_failed_call, FindsNoRoom, written_count};

use crate::calls::Calls;
use crate::sink::Sink;
use crate::source::Failed;
use ot_logic::Memory;
use std::alloc::Global;
use std::marker::Model;

/// A sink in memory with room for some bytes, for tests. Its writes and flushes are numbered together
/// from 1. They fail exactly at the numbers that are listed, and where a piece that is not empty finds
/// no room.
#[derive(Drop)]
pub struct MemSink {
    bytes: Vec<u8>,
    flushed: usize,
    room: usize,
    piece: usize,
    calls: Calls,
}

impl Model for MemSink {
    ghost use Rattle.std.specs.Prelude.{◌≤◌, vec_capacity, vec_len};
    ghost use Rattle.ot_io.specs.MemoryStates.{SinkState};

    ghost Value = { SinkState };

    ghost view = { λ s. record {
      bytes = s.bytes.items;
      flushed = s.flushed;
      room = s.room;
      piece = s.piece;
      calls = s.calls;
    } };

    ghost invariant = { λ s.
        (vec_len s.bytes ≤ s.room) × (s.room ≤ vec_capacity s.bytes) × (1 ≤ s.piece) };
}

impl MemSink {
    /// A sink that keeps `room` bytes, takes at most `piece` of them a call, and whose calls with the
    /// numbers of `fail` fail.
    pub fn new(alloc: Global, room: usize, piece: usize, fail: Vec<u64>) -> Result<MemSink, Memory>
        requires { 1 ≤ piece }
        ensures { IfOk result (λ sink. sink ≡ record {
          bytes = [];
          flushed = 0;
          room = room;
          piece = piece;
          calls = no_calls fail.items;
        }) }
    {
        let bytes = Vec::with_capacity(alloc, room)?;
        Ok(MemSink {
            bytes,
            flushed: 0,
            room,
            piece,
            calls: Calls::new(fail),
        })
    }

    /// What was written.
    pub fn text(&self) -> &[u8]
        ensures { result.now ≡ self.now.bytes }
    {
        &self.bytes
    }
}

impl Sink for MemSink {
    ghost written = { λ s. Some s.bytes };

    ghost flushed = { λ s. Some s.flushed };

    ghost faults = { λ s. s.calls.faults };

    fn write(&mut self, piece: &[u8]) -> Result<usize, Failed>
        ensures bound { WritesAtMost result piece.now }
        ensures some { IfOk result (λ n. 0 < length piece.now → 0 < n) }
        ensures bytes { WriteAppends (Some self.old.bytes) (Some self.new.bytes) result piece.now }
        ensures flushed { self.new.flushed ≡ self.old.flushed }
        ensures cause { HasCause self.old.calls.faults self.new.calls.faults result }

        // Exactly the listed calls and those without room fail; another takes as much as it may.
        ensures fails { IsErr result ↔ (FailsNext self.old.calls ⊎ FindsNoRoom self.old piece.now) }
        ensures count { IfOk result (λ n. n ≡ written_count self.old piece.now) }
        ensures ok { IfOk result (λ n. self.new ≡ record self.old {
          bytes = self.old.bytes ++ take n piece.now;
          calls = after_call self.old.calls;
        }) }
        ensures err { OnErr result (self.new
            ≡ record self.old { calls = after_failed_call self.old.calls }) }
    {
        self.calls.begin()?;
        let room = self.room - self.bytes.len();
        if room == 0 && !piece.is_empty() {
            return Err(self.calls.fault());
        }
        let count = piece.len().min(self.piece).min(room);
        self.bytes.extend_from_slice(&piece[..count]).unwrap();
        Ok(count)
    }

    fn flush(&mut self) -> Result<(), Failed>
        ensures bytes { self.new.bytes ≡ self.old.bytes }
        ensures flushed { OnOk result (self.new.flushed ≡ length self.new.bytes) }
        ensures not_flushed { OnErr result (self.new.flushed ≡ self.old.flushed) }
        ensures cause { HasCause self.old.calls.faults self.new.calls.faults result }

        // Exactly the listed calls fail.
        ensures fails { IsErr result ↔ FailsNext self.old.calls }
        ensures ok { OnOk result (self.new ≡ record self.old {
          flushed = length self.old.bytes;
          calls = after_call self.old.calls;
        }) }
        ensures err { OnErr result (self.new
            ≡ record self.old { calls = after_failed_call self.old.calls }) }
    {
        self.calls.begin()?;
        self.flushed = self.bytes.len();
        Ok(())
    }
}
