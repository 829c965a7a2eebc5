//! Where the hash table looks for a node.
ghost use Rattle.std.specs.Prelude.{◌≡◌, ◌+◌, ◌*◌, ◌/◌, ◌%◌, ◌^◌, ◌<◌, ℕ, Option, IsTrue};
ghost use Rattle.std.specs.Hash as fed;
ghost use Rattle.ot_near.specs.Place.{near_place, far_place, place_by, mix_of, place-alike, written_to};

use std::hash::{FoldHasher, Hash, Hasher};

/// A node that refers to nodes by number.
pub trait Refers: Eq + Hash {
    // The greatest number that the node refers to, if there is one by which to look for it.
    ghost greatest: { Self → Option ℕ };

    /// The greatest number that the node refers to. A node that has none is looked for all over the table.
    fn greatest(&self) -> Option<u32>
        ensures { result ≡ greatest self.now };

    // Equal nodes have one greatest number.
    ghost greatest_alike: { (x y : Self) → IsTrue (Self.eq x y) → greatest x ≡ greatest y };
}

/// A node, and whether it is kept far from its greatest number.
#[derive(PartialEq, Eq, Drop)]
pub(crate) struct Placed<K> {
    pub(crate) node: K,
    pub(crate) is_far: bool,
}

impl<K: Refers> Hash for Placed<K> {
    ghost hash_input = { λ p. fed.u32 (place_by (K.greatest p.node) p.is_far (mix_of (K.hash_input p.node))) };

    ghost respects_eq = { place-alike K.eq K.greatest K.hash_input K.greatest_alike K.respects_eq };

    fn hash<H: Hasher>(&self, state: &mut H) {
        let mut mixed = FoldHasher::default();
        self.node.hash(&mut mixed);
        let mix = mixed.finish();
        state.write_u32(place(self.node.greatest(), self.is_far, mix));
    }
}

/// The place of a node whose greatest number and mix these are.
fn place(greatest: Option<u32>, is_far: bool, mix: u64) -> u32
    ensures { result ≡ place_by greatest is_far mix }
{
    match greatest {
        Some(number) => {
            if is_far {
                far_place(mix)
            } else {
                near_place(number, mix)
            }
        }
        None => far_place(mix),
    }
}

/// The group of a number, which the low bits pick, with a tag of the mixed node in the high ones.
fn near_place(number: u32, mix: u64) -> u32
    ensures { result ≡ near_place number mix }
{
    number % (1 << 24) + (mix / (1 << 56)) as u32 * (1 << 24)
}

/// The group and the tag of the mixed node.
pub(crate) fn far_place(mix: u64) -> u32
    ensures { result ≡ far_place mix }
{
    (mix % (1 << 32)) as u32
}

/// Takes the place that a node has found for itself.
#[derive(Clone, Copy)]
pub(crate) struct PlaceHasher {
    place: u32,
}

impl Default for PlaceHasher {
    fn default() -> PlaceHasher {
        PlaceHasher { place: 0 }
    }
}

impl Hasher for PlaceHasher {
    ghost write = { written_to };

    ghost finish = { λ h. h.place };

    fn finish(&self) -> u64 {
        self.place as u64
    }

    fn write(&mut self, bytes: &[u8]) {
        if let [a, b, c, d] = bytes {
            self.place = u32::from_le_bytes([*a, *b, *c, *d]);
        }
    }
}
