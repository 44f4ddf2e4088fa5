use lms_hss::HssKey;
use lms_tree::LmsKey;
use rp_base::{PlainSigner, Retract, Signer, Spent, Tally};
use std::mem;

/// A signer of a group's scheme. Its `Debug` shows no key.
#[derive(Debug)]
pub enum AnySigner {
    /// It signs up to the total that it was made with.
    Plain(PlainSigner),

    /// It signs once with each leaf of its tree.
    Lms(LmsKey),

    /// It signs once with each leaf of its lowest trees, which follow one another.
    Hss(HssKey),
}

// Written out, so that whoever drops a value makes one call (docs/CONTRIBUTING.md).
impl Drop for AnySigner {
    fn drop(self) {
        match self {
            AnySigner::Plain(signer) => mem::drop(signer),
            AnySigner::Lms(key) => mem::drop(key),
            AnySigner::Hss(key) => mem::drop(key),
        }
    }
}

impl Tally for AnySigner {
    ghost use Rattle.sig_scheme.specs.Signers.{used, total, SameKey};

    ghost used = { used };

    ghost total = { total };

    ghost same_key = { SameKey };

    fn used(&self) -> u32 {
        match self {
            AnySigner::Plain(signer) => signer.used(),
            AnySigner::Lms(key) => key.used(),
            AnySigner::Hss(key) => key.used(),
        }
    }

    fn total(&self) -> u32 {
        match self {
            AnySigner::Plain(signer) => signer.total(),
            AnySigner::Lms(key) => key.total(),
            AnySigner::Hss(key) => key.total(),
        }
    }

    fn skip_to(&mut self, to: u32) {
        match self {
            AnySigner::Plain(signer) => signer.skip_to(to),
            AnySigner::Lms(key) => key.skip_to(to),
            AnySigner::Hss(key) => key.skip_to(to),
        }
    }
}

impl Signer for AnySigner {
    ghost use Rattle.sig_scheme.specs.Signers.{public, sig_len, signature, admits, any_keeps};

    ghost public = { public };

    ghost sig_len = { sig_len };

    ghost signature = { signature };

    ghost admits = { admits };

    ghost keeps = { any_keeps };

    fn public(&self) -> &[u8] {
        match self {
            AnySigner::Plain(signer) => signer.public(),
            AnySigner::Lms(key) => key.public(),
            AnySigner::Hss(key) => key.public(),
        }
    }

    fn sig_len(&self) -> usize {
        match self {
            AnySigner::Plain(signer) => signer.sig_len(),
            AnySigner::Lms(key) => key.sig_len(),
            AnySigner::Hss(key) => key.sig_len(),
        }
    }

    fn sign(&mut self, body: &[u8], out: &mut [u8]) -> Result<usize, Spent> {
        match self {
            AnySigner::Plain(signer) => signer.sign(body, out),
            AnySigner::Lms(key) => key.sign(body, out),
            AnySigner::Hss(key) => key.sign(body, out),
        }
    }
}

impl Retract for AnySigner {
    fn retract(&mut self, to: u32) {
        match self {
            AnySigner::Plain(signer) => signer.retract(to),
            AnySigner::Lms(key) => key.retract(to),
            AnySigner::Hss(key) => key.retract(to),
        }
    }
}
