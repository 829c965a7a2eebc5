//! The places of keys that come in order.
ghost use Rattle.std.specs.Prelude.{◌≡◌};
ghost use Rattle.ot_near.specs.Key.{key_place, key_taken};

use crate::place::far_place;
use std::hash::{FoldHasher, Hasher};

/// Keys from 0 up to this stand by themselves.
const NEAR_KEYS: u64 = 1 << 20;

/// Takes the place of a whole number. Small ones stand beside their neighbours, since keys that are given in order are
/// asked for in order; negative and large ones are mixed, so that no choice of keys crowds one place.
#[derive(Clone, Copy)]
pub struct KeyHasher {
    place: u32,
}

impl Default for KeyHasher {
    fn default() -> KeyHasher {
        KeyHasher { place: 0 }
    }
}

impl Hasher for KeyHasher {
    ghost write = { key_taken };

    ghost finish = { λ h. h.place };

    fn finish(&self) -> u64 {
        self.place as u64
    }

    fn write(&mut self, bytes: &[u8]) {
        if let [a, b, c, d, e, f, g, h] = bytes {
            self.place = key_place(u64::from_le_bytes([*a, *b, *c, *d, *e, *f, *g, *h]));
        }
    }
}

/// The place of a key, negative ones behind the others.
fn key_place(key: u64) -> u32
    ensures { result ≡ key_place key }
{
    if key < NEAR_KEYS {
        (key + key % (1 << 8) * (1 << 24)) as u32
    } else {
        let mut mixed = FoldHasher::default();
        mixed.write_u64(key);
        far_place(mixed.finish())
    }
}
