//! How the steps of a walk over terms are counted.
ghost use Rattle.std.specs.Prelude.{◌≡◌, ◌+◌, ◌-◌, ◌^◌, min};

use std::marker::Model;

/// A count of steps, over a ledger of the counter's owner. A value of the ledger is wanted to begin a count, so code
/// that is generic over the ledger can go on with a count and can't make one.
#[derive(Drop)]
pub struct Steps<L> {
    count: u64,
    _ledger: L,
}

impl<L> Model for Steps<L> {
    ghost use Rattle.std.specs.Prelude.{ℕ};

    ghost Value = { ℕ };

    ghost view = { λ s. s.count };
}

impl<L> Steps<L> {
    /// A count that begins at 0. It takes no memory.
    pub fn new(ledger: L) -> Steps<L>
        ensures { result ≡ 0 }
    {
        Steps {
            count: 0,
            _ledger: ledger,
        }
    }

    /// The steps so far.
    pub fn count(&self) -> u64
        ensures { result ≡ self.now }
    {
        self.count
    }

    /// One step more. At the end of its type the count saturates.
    pub(crate) fn add_one(&mut self)
        ensures { self.new ≡ min (self.old + 1) (2 ^ 64 - 1) }
    {
        self.count = self.count.saturating_add(1);
    }
}
