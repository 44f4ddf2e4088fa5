// Digits of a message's hash and of its checksum (RFC 8554, sections 3.1.3 and 4.4).
ghost use Rattle.std.specs.Prelude.{◌≡◌, ℕ, ◌<◌, ◌≤◌, ◌*◌, ◌/◌, ◌++◌, length, slice_index};
ghost use Rattle.signature_defs.specs.Strings.{coef};
ghost use Rattle.signature_defs.specs.LmOts.{checksum, digit, ots_chains, ots_steps, ots_width};

use crate::kinds::{ots_chains, ots_shift, ots_steps, ots_width};
use lms_chains::{CHAINS, Numbers};
use signature_defs::OtsType;

// The digit at place `i` of a string.
fn coef(string: &[u8], i: usize, kind: OtsType) -> u8
    requires within { i * ots_width kind < 8 * length string.now }
    requires small { i < 512 }
    ensures value { result ≡ coef string.now i (ots_width kind) }
    ensures bound { result ≤ ots_steps kind }
{
    let width = ots_width(kind);
    let shift = 8 - (width * (i % (8 / width)) + width);
    (string[i * width / 8] >> shift) & ots_steps(kind)
}

// How far the digits of a hash are below the largest one, in all, shifted into place.
fn checksum(hash: &[u8; 32], kind: OtsType) -> [u8; 2]
    ensures { result ≡ checksum kind hash.now }
{
    let mut sum = 0u16;
    for i in 0..256 / ots_width(kind) {
        sum += u16::from(ots_steps(kind) - coef(hash, i, kind));
    }
    (sum << ots_shift(kind)).to_be_bytes()
}

// A message's hash and its checksum, from which the digits of all chains are read.
#[derive(Drop)]
pub(crate) struct Digits {
    bytes: [u8; 34],
}

impl Digits {
    pub(crate) fn new(hash: &[u8; 32], kind: OtsType) -> Digits
        ensures { result.bytes ≡ hash.now ++ checksum kind hash.now }
    {
        let mut bytes = [0u8; 34];
        bytes[..32].copy_from_slice(hash);
        bytes[32..].copy_from_slice(&checksum(hash, kind));
        Digits { bytes }
    }

    pub(crate) fn at(&self, i: u16, kind: OtsType) -> u8
        requires { i < ots_chains kind }
        ensures value { result ≡ coef self.now.bytes i (ots_width kind) }
        ensures bound { result ≤ ots_steps kind }
    {
        coef(&self.bytes, usize::from(i), kind)
    }
    // The digits of all chains.
    pub(crate) fn all(&self, kind: OtsType) -> Numbers
        ensures value { (i : ℕ) → i < ots_chains kind → slice_index result i ≡ coef self.now.bytes i (ots_width kind) }
        ensures bound { (i : ℕ) → i < ots_chains kind → slice_index result i ≤ ots_steps kind }
    {
        let mut all = [0u16; CHAINS];
        'digits: for i in 0..ots_chains(kind) {
            all[usize::from(i)] = u16::from(self.at(i, kind));
        }
        all
    }
}
