ghost use Rattle.std.specs.Prelude.{◌≡◌, ◌<◌, true};
ghost use Rattle.std.specs.Bool.{OnTrue};
ghost use Rattle.signature_defs.specs.Schemes.{is_valid};
ghost use Rattle.sig_scheme.specs.Views.{scheme as scheme_of};

use crate::checked::Checked;
use rp_base::{NoMemory, Scheme};
use sig_scheme::AnyScheme;
use std::alloc::Global;

/// How many signatures are kept: one for each value of a byte.
const KEPT: usize = 256;

/// Signatures that were found valid lately, each at the place that one of its bytes says, in place of the one before.
#[derive(Drop)]
pub(crate) struct Lately {
    kept: Vec<Checked>,
}

// The place of a signature: a byte in its third quarter, where that of one leaf differs from that of another.
fn place_of(sig: &[u8]) -> usize
    ensures { result < 256 }
{
    match sig.get(sig.len() / 4 * 3) {
        Some(byte) => *byte as usize,
        None => 0,
    }
}

impl Lately {
    /// None yet.
    pub(crate) fn new(alloc: Global) -> Result<Lately, NoMemory> {
        let mut kept = Vec::new(alloc);
        for _place in 0..KEPT {
            kept.push(Checked::new(alloc))?;
        }
        Ok(Lately { kept })
    }

    // Whether it is kept, and so is valid.
    fn has(&self, scheme: AnyScheme, key: &[u8], body: &[u8], sig: &[u8]) -> bool
        ensures { OnTrue result (is_valid (scheme_of scheme) key.now body.now sig.now ≡ true) }
    {
        match self.kept.get(place_of(sig)) {
            Some(checked) => checked.is(scheme, key, body, sig),
            None => false,
        }
    }

    /// Keeps a valid signature, where there is memory for it.
    pub(crate) fn keep(&mut self, scheme: AnyScheme, key: &[u8], body: &[u8], sig: &[u8])
        requires { is_valid (scheme_of scheme) key.now body.now sig.now ≡ true }
    {
        let Some(checked) = self.kept.get_mut(place_of(sig)) else {
            return;
        };
        let _ = checked.put(scheme, key, body, sig);
    }

    /// Whether the signature is valid. It is hashed only where it is not kept.
    pub fn verify(&mut self, scheme: AnyScheme, key: &[u8], body: &[u8], sig: &[u8]) -> bool
        ensures { result ≡ is_valid (scheme_of scheme) key.now body.now sig.now }
    {
        if self.has(scheme, key, body, sig) {
            return true;
        }
        let valid = scheme.verify(key, body, sig);
        if valid {
            self.keep(scheme, key, body, sig);
        }
        valid
    }
}
