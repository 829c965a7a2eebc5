//! The table: its nodes with what stands beside them, and how many users each number has.
ghost use Rattle.std.specs.Prelude.{◌≡◌, ◌↔◌, ◌<◌, ◌≤◌, ◌+◌, [], ℕ, slice_get, slice_index, IfOk, OnOk, OnErr};
ghost use Rattle.std.specs.Prelude.{IfSome, IsSome, IsTrue};
ghost use Rattle.std.specs.Option.{option_map};
ghost use Rattle.std.specs.Map.Iter.{deref_pair};
ghost use Rattle.indexmap.specs.IndexMap.{keys, index_map_len, index_of, insert_index, insert_entry};
ghost use Rattle.ot_near.specs.Table.{near_map, IsNear, IsSoughtIn, IsFull};

use crate::place::{PlaceHasher, Placed, Refers};
use indexmap::IndexMap;
use std::alloc::{AllocError, Global};
use std::hash::BuildHasherDefault;
use std::marker::Model;

/// As many users of one number stand near it; further ones are far.
const NEAR_USERS: u8 = 8;

type Entries<K, V> = IndexMap<Placed<K>, V, BuildHasherDefault<PlaceHasher>>;

/// Nodes with what stands beside them, each node once, in the order in which they came: contracts see the map of the
/// nodes, by its entries.
#[derive(Drop)]
pub struct NearMap<K: Refers, V> {
    entries: Entries<K, V>,
    // By number, up to `NEAR_USERS`. A node is far only where its number has so many.
    users: Vec<u8>,
}

impl<K: Refers, V> Model for NearMap<K, V> {
    ghost use base.Stored.{coded_unit};
    ghost use Rattle.indexmap.specs.IndexMap.{keys};
    ghost use Rattle.indexmap.specs.Layout.{hash_map_code};
    ghost use Rattle.ot_near.specs.Table.{NearEntries, near_map, nodes_of, IsNear};

    ghost Value = { NearEntries K V };

    ghost coded = { hash_map_code K.code V.code coded_unit };

    ghost view = { λ t. near_map (nodes_of t.entries.entries) };

    ghost invariant = { λ t. IsNear K.eq K.greatest (keys t.entries) t.users.items };
}

impl<K: Refers, V> NearMap<K, V> {
    /// The table with no nodes. It takes no memory.
    pub fn new(alloc: Global) -> NearMap<K, V>
        ensures { result ≡ near_map [] }
    {
        NearMap {
            entries: IndexMap::with_hasher(alloc, BuildHasherDefault::new()),
            users: Vec::new(alloc),
        }
    }

    /// What takes memory for the table.
    pub fn allocator(&self) -> &Global {
        self.entries.allocator()
    }

    /// How many nodes there are.
    pub fn len(&self) -> usize
        ensures { result ≡ index_map_len self.now }
    {
        self.entries.len()
    }

    /// The node of a number, and what stands beside it.
    pub fn get_index(&self, index: usize) -> Option<(&K, &V)>
        ensures entry { option_map deref_pair result ≡ slice_get self.now.entries index }
        ensures found { IsSome result ↔ (index < index_map_len self.now) }
    {
        match self.entries.get_index(index) {
            Some((placed, value)) => Some((&placed.node, value)),
            None => None,
        }
    }

    /// The number of a node that the table has.
    pub fn find(&self, node: K) -> Option<usize>
    where
        K: Drop,
        ensures index { result ≡ index_of K.eq self.now node }
        ensures within { IfSome result (λ i. i < index_map_len self.now) }
    {
        let sought = sought(&self.entries, self.users.as_slice(), node);
        self.entries.get_index_of(&sought)
    }

    /// The same, node by node.
    pub fn walk_to(&self, node: &K) -> Option<usize>
        ensures index { result ≡ index_of K.eq self.now node.now }
        ensures within { IfSome result (λ i. i < index_map_len self.now) }
    {
        for index in 0..self.entries.len() {
            let Some((placed, _)) = self.entries.get_index(index) else {
                unreachable!();
            };
            if *node == placed.node {
                return Some(index);
            }
        }
        None
    }

    /// The number of a node, which is added where it is new, with this beside it. `AllocError` leaves the table as it was.
    pub fn insert_full(&mut self, node: K, value: V) -> Result<(usize, Option<V>), AllocError>
    where
        K: Drop,
        V: Drop,
        ensures index { IfOk result (λ r. r.0 ≡ insert_index K.eq self.old node) }
        ensures len { OnOk result (index_map_len self.new ≤ index_map_len self.old + 1) }
        ensures within { IfOk result (λ r. r.0 < index_map_len self.new) }
        ensures entries { OnOk result (self.new.entries ≡ insert_entry K.eq self.old.entries node value) }
        ensures err { OnErr result (self.new ≡ self.old) }
    {
        make_count(&mut self.users, self.entries.len())?;
        let greatest = node.greatest();
        let sought = sought(&self.entries, self.users.as_slice(), node);
        let (index, old) = self.entries.insert_full(sought, value)?;
        count_user(&mut self.users, greatest, old.is_none());
        Ok((index, old))
    }
}

/// The node as the table has it, or is to have it: far only where its number has many users and it isn't near.
fn sought<K: Refers + Drop, V>(entries: &Entries<K, V>, users: &[u8], node: K) -> Placed<K>
    requires { IsNear K.eq K.greatest (keys entries.now) users.now }
    ensures node { result.node ≡ node }
    ensures sought { IsSoughtIn K.eq K.greatest (keys entries.now) users.now result }
{
    let is_full = has_many(users, node.greatest());
    let mut placed = Placed {
        node,
        is_far: false,
    };
    if is_full {
        placed.is_far = !entries.contains_key(&placed);
    }
    placed
}

/// Whether further users of a number are far from it.
fn has_many(users: &[u8], number: Option<u32>) -> bool
    ensures { IsTrue result ↔ IsFull users.now number }
{
    match number {
        Some(number) => match users.get(number as usize) {
            Some(count) => *count >= NEAR_USERS,
            None => false,
        },
        None => false,
    }
}

/// Makes a count for one node more than there are.
fn make_count(users: &mut Vec<u8>, nodes: usize) -> Result<(), AllocError>
    ensures { (i : ℕ) → slice_index users.old.items i ≤ slice_index users.new.items i }
{
    if users.len() <= nodes {
        users.push(0)?;
    }
    Ok(())
}

/// Counts a user of a number, where it is new.
fn count_user(users: &mut Vec<u8>, number: Option<u32>, is_new: bool)
    ensures { (i : ℕ) → slice_index users.old.items i ≤ slice_index users.new.items i }
{
    if !is_new {
        return;
    }
    if let Some(number) = number {
        if let Some(count) = users.get_mut(number as usize) {
            if *count < NEAR_USERS {
                *count += 1;
            }
        }
    }
}
