ghost use Rattle.std.specs.Prelude.{◌≡◌, ◌≤◌, ◌↔◌, OnOk, OnErr, IsErr};
ghost use Rattle.ot_io.specs.Causes.{HasCause};
ghost use Rattle.ot_io.specs.MemoryStates.{no_calls, FailsNext, after_call, after_failed_call, with_fault};

use crate::source::Failed;
use std::marker::Model;

/// The calls of an object in memory, numbered from 1: those with listed numbers fail.
#[derive(Drop)]
pub struct Calls {
    fail: Vec<u64>,
    made: u64,
    faults: u64,
}

impl Model for Calls {
    ghost use Rattle.ot_io.specs.MemoryStates.{CallState};

    ghost Value = { CallState };

    ghost view = { λ c. record { fail = c.fail.items; made = c.made; faults = c.faults } };
}

impl Calls {
    pub fn new(fail: Vec<u64>) -> Calls
        ensures { result ≡ no_calls fail.items }
    {
        Calls {
            fail,
            made: 0,
            faults: 0,
        }
    }

    /// Counts a call, which fails exactly where its number is listed.
    pub fn begin(&mut self) -> Result<(), Failed>
        ensures cause { HasCause self.old.faults self.new.faults result }
        ensures fails { IsErr result ↔ FailsNext self.old }
        ensures ok { OnOk result (self.new ≡ after_call self.old) }
        ensures err { OnErr result (self.new ≡ after_failed_call self.old) }
    {
        self.made = self.made.saturating_add(1);
        if self.fail.contains(&self.made) {
            self.faults = self.faults.saturating_add(1);
            return Err(Failed);
        }
        Ok(())
    }

    /// Counts a failure of the call that was begun.
    pub fn fault(&mut self) -> Failed
        ensures state { self.new ≡ with_fault self.old }
        ensures later { self.old.faults ≤ self.new.faults }
    {
        self.faults = self.faults.saturating_add(1);
        Failed
    }
}
