//! That memory ran out.
ghost use Rattle.std.specs.Prelude.{◌≡◌, ◌≤◌, ◌<◌, ◌+◌, ◌^◌, IfOk, OnOk, OnErr};

use std::alloc::{AllocError, AllocFailed};

/// Memory ran out. It comes of a refusal of the allocator, or of numbers that ran out, and of nothing else.
#[derive(Clone, Copy, Debug, PartialEq, Eq)]
pub struct Memory(());

impl From<AllocError> for Memory {
    fn from(_: AllocError) -> Memory {
        Memory(())
    }
}

impl<T: Drop> From<AllocFailed<T>> for Memory {
    fn from(_: AllocFailed<T>) -> Memory {
        Memory(())
    }
}

impl Memory {
    /// Passes where a table of this many entries has a number of 32 bits for one more.
    pub fn unless_full(count: usize) -> Result<(), Memory>
        ensures ok { OnOk result (count < 2 ^ 32) }
        ensures full { OnErr result (2 ^ 32 ≤ count) }
    {
        if count > u32::MAX as usize {
            return Err(Memory(()));
        }
        Ok(())
    }

    /// The number of 64 bits behind another.
    pub fn next(count: u64) -> Result<u64, Memory>
        ensures ok { IfOk result (λ n. n ≡ count + 1) }
        ensures full { OnErr result (2 ^ 64 ≤ count + 1) }
    {
        match count.checked_add(1) {
            Some(next) => Ok(next),
            None => Err(Memory(())),
        }
    }
}
