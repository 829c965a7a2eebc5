//! Lists of numbers in rising order.
ghost use Rattle.std.specs.Prelude.{◌≡◌, ◌↔◌, ℕ, ◌<◌, length, IfOk};
ghost use Rattle.std.specs.List.{All};
ghost use Rattle.std.specs.List.Sorted.{IsStrictlyIncreasing};
ghost use Rattle.ot_logic.specs.Lists.{IsMember};
ghost use Rattle.ot_leads.specs.Found.{IsFirst};

use ot_logic::Memory;
use ot_trace::StepId;
use std::alloc::Global;

/// The numbers in rising order, each once.
pub(crate) fn rising(mut numbers: Vec<usize>) -> Vec<usize>
    ensures rises { IsStrictlyIncreasing result.items }
    ensures same { (p : ℕ) → IsMember p result.items ↔ IsMember p numbers.items }
{
    numbers.sort_unstable();
    numbers.dedup();
    numbers
}

/// The first place of each step. The steps have numbers below the count.
pub(crate) fn first_places(
    alloc: Global,
    count: usize,
    steps: &[StepId],
) -> Result<Vec<usize>, Memory>
    requires { All (λ i. i < count) steps.now }
    ensures { IfOk result (λ places. (p : ℕ) → IsMember p places.items
        ↔ ((p < length steps.now) × IsFirst steps.now p)) }
{
    let mut is_new = vec![in alloc; true; count]?;
    let mut places = Vec::new(alloc);
    for (place, step) in steps.iter().enumerate() {
        if is_new[step.index()] {
            is_new[step.index()] = false;
            places.push(place)?;
        }
    }
    Ok(places)
}
