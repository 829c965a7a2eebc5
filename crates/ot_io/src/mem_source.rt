ghost use Rattle.std.specs.Prelude.{◌≡◌, ◌≤◌, ◌↔◌, [], Some, None, min, length, drop, IfOk, OnErr, IsErr};
ghost use Rattle.std.specs.Io.{ReadsAtMost};
ghost use Rattle.std.specs.Io.KnownBytes.{ReadConsumes};
ghost use Rattle.ot_io.specs.Causes.{HasCause};
ghost use Rattle.ot_io.specs.MemoryStates.{no_calls, FailsNext, after_call, after_failed_call};

use crate::calls::Calls;
use crate::copying::copy_part;
use crate::source::{Failed, Source};
use std::marker::Model;

/// A source over bytes in memory, for tests. Its reads are numbered from 1, and fail exactly at the
/// numbers that are listed.
#[derive(Drop)]
pub struct MemSource {
    bytes: Vec<u8>,
    offset: usize,
    piece: usize,
    calls: Calls,
}

impl Model for MemSource {
    ghost use Rattle.std.specs.Prelude.{◌≤◌, drop, length};
    ghost use Rattle.ot_io.specs.MemoryStates.{SourceState};

    ghost Value = { SourceState };

    ghost view = { λ s. record {
      left = drop s.offset s.bytes.items;
      piece = s.piece;
      calls = s.calls;
    } };

    ghost invariant = { λ s. (s.offset ≤ length s.bytes.items) × (1 ≤ s.piece) };
}

impl MemSource {
    /// A source of these bytes that gives at most `piece` of them a call, and whose calls with the
    /// numbers of `fail` fail.
    pub fn new(bytes: Vec<u8>, piece: usize, fail: Vec<u64>) -> MemSource
        requires { 1 ≤ piece }
        ensures { result
            ≡ record { left = bytes.items; piece = piece; calls = no_calls fail.items } }
    {
        MemSource {
            bytes,
            offset: 0,
            piece,
            calls: Calls::new(fail),
        }
    }
}

impl Source for MemSource {
    ghost left = { λ s. Some s.left };

    ghost faults = { λ s. s.calls.faults };

    ghost folder = { λ _. Some [] };

    ghost misses = { λ _. 0 };

    ghost at = { λ _. None };

    fn read(&mut self, buf: &mut [u8]) -> Result<usize, Failed>
        ensures bound { ReadsAtMost result buf.new }
        ensures bytes { ReadConsumes (Some self.old.left) (Some self.new.left) result buf.new }
        ensures cause { HasCause self.old.calls.faults self.new.calls.faults result }

        // Exactly the listed calls fail; another gives as much as it may.
        ensures fails { IsErr result ↔ FailsNext self.old.calls }
        ensures count { IfOk result
            (λ n. n ≡ min (length buf.new) (min self.old.piece (length self.old.left))) }
        ensures ok { IfOk result (λ n. self.new
            ≡ record self.old { left = drop n self.old.left; calls = after_call self.old.calls }) }
        ensures err { OnErr result (self.new
            ≡ record self.old { calls = after_failed_call self.old.calls }) }
    {
        self.calls.begin()?;
        let count = copy_part(&self.bytes, self.offset, self.piece, buf);
        self.offset += count;
        Ok(count)
    }
}
