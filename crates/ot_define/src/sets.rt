//! Lists as sets, by hash.
ghost use Rattle.std.specs.Prelude.{◌≡◌, [], fold, IfOk, OnOk, OnErr};
ghost use Rattle.std.specs.Bool.{Decides};
ghost use Rattle.std.specs.List.{list_all, list_any};
ghost use Rattle.indexmap.specs.IndexSet.{insert_key};
ghost use Rattle.ot_logic.specs.Naming.{numbers};
ghost use Rattle.ot_laws.specs.Conditions.{are_distinct};

use indexmap::IndexSet;
use ot_logic::Memory;
use std::alloc::Global;
use std::hash::Hash;

/// Adds the items of a list to a set. After running out of memory it is as before.
pub(crate) fn add_all<T: Copy + Eq + Hash>(set: &mut IndexSet<T>, items: &[T]) -> Result<(), Memory>
    ensures ok { OnOk result (set.new.keys ≡ fold (insert_key T.eq) set.old.keys items.now) }
    ensures err { OnErr result (set.new.keys ≡ set.old.keys) }
{
    let before = set.len();
    for item in items {
        if let Err(refused) = set.insert(*item) {
            set.truncate(before);
            return Err(Memory::from(refused));
        }
    }
    Ok(())
}

/// The items of a list, each once.
pub(crate) fn set_of<T: Copy + Eq + Hash>(alloc: Global, items: &[T]) -> Result<IndexSet<T>, Memory>
    ensures { IfOk result (λ set. set.keys ≡ fold (insert_key T.eq) [] items.now) }
{
    let mut set = IndexSet::new(alloc);
    add_all(&mut set, items)?;
    Ok(set)
}

/// Whether no item stands twice in the list.
pub(crate) fn are_distinct<T: Copy + Eq + Hash>(alloc: Global, items: &[T]) -> Result<bool, Memory>
    requires { (x y : T) → Decides (T.eq x y) (x ≡ y) }
    ensures { IfOk result (λ b. b ≡ are_distinct T.eq items.now) }
{
    let set = set_of(alloc, items)?;
    Ok(set.len() == items.len())
}

/// Whether each item of a list is one of the others.
pub(crate) fn are_among<T: Copy + Eq + Hash>(
    alloc: Global,
    items: &[T],
    others: &[T],
) -> Result<bool, Memory>
    requires { (x y : T) → Decides (T.eq x y) (x ≡ y) }
    ensures { IfOk result (λ b. b ≡ list_all (λ x. list_any (T.eq x) others.now) items.now) }
{
    let set = set_of(alloc, others)?;
    Ok(has_all(&set, items))
}

/// Whether each item of a list is in the set.
fn has_all<T: Copy + Eq + Hash>(set: &IndexSet<T>, items: &[T]) -> bool
    ensures { result ≡ list_all (λ x. list_any (T.eq x) set.now.keys) items.now }
{
    items.iter().all(|item| set.contains(item))
}
