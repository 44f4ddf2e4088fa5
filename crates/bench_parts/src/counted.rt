ghost use Rattle.std.specs.Prelude.{◌≡◌, ◌≤◌, ◌+◌, length};
ghost use Rattle.bench_parts.specs.Hashes.{capped_sum};
ghost use Rattle.bench_parts.specs.Hashes as defs;

use crate::blocks::blocks_of;
use rp_base::Scheme;
use std::cell::Cell;

/// How many bytes come before the statement in what the plain scheme hashes: the key's 32, and the body's 21.
const BEFORE: u64 = 53;

/// A number of plain signatures, made or checked, and the blocks that were hashed for them: at least one each. Both counts end at 2^64 - 1.
#[derive(Clone, Copy)]
pub struct Work {
    pub signatures: u64,
    pub blocks: u64,
    pub ghost each: { signatures ≤ blocks },
}

impl Work {
    /// No signature yet.
    pub fn none() -> Work
        ensures signatures { result.signatures ≡ 0 }
        ensures blocks { result.blocks ≡ 0 }
    {
        Work {
            signatures: 0,
            blocks: 0,
        }
    }

    // One signature more, for which a text of `len` bytes was hashed.
    fn and_one(self, len: u64) -> Work
        ensures signatures { result.signatures ≡ capped_sum self.signatures 1 }
        ensures blocks { result.blocks ≡ capped_sum self.blocks (defs.blocks_of len) }
    {
        Work {
            signatures: self.signatures.saturating_add(1),
            blocks: self.blocks.saturating_add(blocks_of(len)),
        }
    }

    /// And a signature under the key on the body, which hashes both.
    pub fn and_checked(self, key: &[u8], body: &[u8]) -> Work
        ensures signatures { result.signatures ≡ capped_sum self.signatures 1 }
        ensures blocks { result.blocks ≡ capped_sum self.blocks (defs.blocks_of (length key.now + length body.now)) }
    {
        self.and_one(key.len() as u64 + body.len() as u64)
    }

    /// And a signature of a process on the statement, in a body of 21 bytes more under a key of 32.
    pub fn and_signed(self, statement: &[u8]) -> Work
        ensures signatures { result.signatures ≡ capped_sum self.signatures 1 }
        ensures blocks { result.blocks ≡ capped_sum self.blocks (defs.blocks_of (53 + length statement.now)) }
    {
        self.and_one(BEFORE + statement.len() as u64)
    }
}

/// A scheme, with what was checked by it as if it were the plain one.
#[derive(Drop)]
pub struct Counted<V> {
    pub scheme: V,
    checked: Cell<Work>,
}

impl<V: Drop> Counted<V> {
    /// Nothing is checked yet.
    pub fn new(scheme: V) -> Counted<V>
        ensures { result.scheme ≡ scheme }
    {
        Counted {
            scheme,
            checked: Cell::new(Work::none()),
        }
    }

    /// How many signatures were checked, and the blocks that the plain scheme hashes for them.
    pub fn checked(&self) -> Work
        ensures { result.signatures ≤ result.blocks }
    {
        self.checked.get()
    }
}

impl<V: Scheme> Scheme for Counted<V> {
    ghost valid = { λ s. V.valid s.scheme };

    fn verify(&self, key: &[u8], body: &[u8], sig: &[u8]) -> bool {
        self.checked.set(self.checked.get().and_checked(key, body));
        self.scheme.verify(key, body, sig)
    }
}
