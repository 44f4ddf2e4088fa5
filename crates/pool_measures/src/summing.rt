use rp_base::Scheme;
use std::cell::Cell;

/// Every signature is valid. In place of a hash it sums up the body's bytes, so that each body is spelled.
#[derive(Drop)]
pub(crate) struct Summing {
    sum: Cell<u8>,
}

impl Summing {
    /// No body is summed up yet.
    pub(crate) fn new() -> Summing {
        Summing { sum: Cell::new(0) }
    }

    /// The sum of all bytes so far.
    pub(crate) fn sum(&self) -> u8 {
        self.sum.get()
    }
}

fn sum_of(bytes: &[u8]) -> u8 {
    let mut sum = 0u8;
    for byte in bytes {
        sum = sum.wrapping_add(*byte);
    }
    sum
}

impl Scheme for Summing {
    ghost use Rattle.std.specs.Prelude.{true};

    ghost valid = { λ s key body sig. true };

    fn verify(&self, _key: &[u8], body: &[u8], _sig: &[u8]) -> bool {
        self.sum.set(self.sum.get().wrapping_add(sum_of(body)));
        true
    }
}
