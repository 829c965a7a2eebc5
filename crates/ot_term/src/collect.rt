//! Sets that are made of lists.
ghost use Rattle.std.specs.Prelude.{◌≡◌, [], fold, OnOk, IfOk};
ghost use Rattle.std.specs.BTreeSet.{insert_key as insert_ordered};
ghost use Rattle.indexmap.specs.IndexSet.{insert_key};

use indexmap::IndexSet;
use ot_logic::Memory;
use std::alloc::Global;
use std::collections::BTreeSet;
use std::hash::Hash;

/// Adds the items of a list to a set.
pub(crate) fn add_all<T: Ord + Copy>(set: &mut BTreeSet<T>, items: &[T]) -> Result<(), Memory>
    ensures { OnOk result (set.new.keys ≡ fold (insert_ordered T.cmp) set.old.keys items.now) }
{
    for item in items {
        set.insert(*item)?;
    }
    Ok(())
}

/// The items of a list, each once, in the order of their first places.
pub(crate) fn distinct<T: Copy + Eq + Hash>(alloc: Global, items: &[T]) -> Result<Vec<T>, Memory>
    ensures { IfOk result (λ once. once.items ≡ fold (insert_key T.eq) [] items.now) }
{
    let mut seen = IndexSet::new(alloc);
    for item in items {
        seen.insert(*item)?;
    }
    Ok(seen.iter().copied().collect(alloc)?)
}
