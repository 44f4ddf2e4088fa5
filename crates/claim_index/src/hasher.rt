//! How the keys of claims and of slots are hashed.
ghost use Rattle.std.specs.Prelude.{◌≡◌};
ghost use Rattle.claim_index.specs.Hashes.{written, finished, pushed};

use std::hash::Hasher;

/// The golden ratio's digits, as an odd number.
const SPREAD: u64 = 0x9e37_79b9_7f4a_7c15;

/// What is written is one number. Numbers that differ in their two lowest bits alone lie side by side in a table, and are kept apart
/// there by their tags: so what neighbouring processes say on one slot is found in one piece of memory.
#[derive(Clone, Copy)]
pub struct KeyHasher {
    number: u64,
}

impl Default for KeyHasher {
    ghost use Rattle.claim_index.specs.Hashes.{begun};

    ghost is_default = { λ h. h ≡ begun };

    fn default() -> KeyHasher {
        KeyHasher { number: 0 }
    }
}

impl KeyHasher {
    // One byte more, the lowest.
    fn push(&mut self, byte: u8)
        ensures { self.new ≡ pushed self.old byte }
    {
        self.number = self.number.wrapping_mul(256).wrapping_add(byte as u64);
    }
}

impl Hasher for KeyHasher {
    ghost write = { written };

    ghost finish = { finished };

    fn finish(&self) -> u64 {
        (self.number / 4).wrapping_mul(SPREAD) ^ (self.number % 4) * 0x100_0000
    }

    fn write(&mut self, bytes: &[u8]) {
        for byte in bytes {
            self.push(*byte);
        }
    }
}
