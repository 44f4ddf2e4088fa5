ghost use Rattle.std.specs.Prelude.{◌≡◌, true};
ghost use Rattle.signature_defs.specs.Schemes.{is_valid};
ghost use Rattle.sig_scheme.specs.Views.{scheme as scheme_in};
ghost use Rattle.sig_scheme.specs.Signers as signers;

use crate::lately::Lately;
use rp_base::{Retract, Signer, Spent, Tally};
use sig_scheme::{AnyScheme, AnySigner};
use std::cell::RefCell;
use std::marker::Model;
use std::rc::Rc;

/// A signer of a group whose processes share what they check: its signatures are known to be valid from when they are made. Contracts
/// see the signer.
#[derive(Drop)]
pub struct SharedSigner {
    signer: AnySigner,
    lately: Rc<RefCell<Lately>>,
}

impl Model for SharedSigner {
    ghost use Rattle.sig_scheme.specs.declared.any_signer.AnySigner.{AnySigner};

    ghost Value = { AnySigner };

    ghost view = { λ s. s.signer };
}

// The scheme whose signatures the signer makes.
fn scheme_of(signer: &AnySigner) -> AnyScheme
    ensures { signers.admits signer.now ≡ is_valid (scheme_in result) }
{
    match signer {
        AnySigner::Plain(_) => AnyScheme::Plain,
        AnySigner::Lms(_) => AnyScheme::Lms,
        AnySigner::Hss(_) => AnyScheme::Hss,
    }
}

// The signature of the signer is known to be valid from now on.
fn note(lately: &RefCell<Lately>, signer: &AnySigner, body: &[u8], sig: &[u8])
    requires { signers.admits signer.now (signers.public signer.now) body.now sig.now ≡ true }
{
    let scheme = scheme_of(signer);
    if let Ok(mut lately) = lately.try_borrow_mut() {
        lately.keep(scheme, signer.public(), body, sig);
    }
}

impl SharedSigner {
    /// The signer, whose signatures are noted there.
    pub(crate) fn new(signer: AnySigner, lately: Rc<RefCell<Lately>>) -> SharedSigner
        ensures { result ≡ signer }
    {
        SharedSigner { signer, lately }
    }
}

impl Tally for SharedSigner {
    ghost use Rattle.sig_scheme.specs.Signers.{used, total, SameKey};

    ghost used = { used };

    ghost total = { total };

    ghost same_key = { SameKey };

    fn used(&self) -> u32 {
        self.signer.used()
    }

    fn total(&self) -> u32 {
        self.signer.total()
    }

    fn skip_to(&mut self, to: u32) {
        self.signer.skip_to(to);
    }
}

impl Signer for SharedSigner {
    ghost use Rattle.sig_scheme.specs.Signers.{public, sig_len, signature, admits, any_keeps};

    ghost public = { public };

    ghost sig_len = { sig_len };

    ghost signature = { signature };

    ghost admits = { admits };

    ghost keeps = { any_keeps };

    fn public(&self) -> &[u8] {
        self.signer.public()
    }

    fn sig_len(&self) -> usize {
        self.signer.sig_len()
    }

    fn sign(&mut self, body: &[u8], out: &mut [u8]) -> Result<usize, Spent> {
        match self.signer.sign(body, out) {
            Ok(len) => {
                note(&self.lately, &self.signer, body, &out[..len]);
                Ok(len)
            }
            Err(Spent) => Err(Spent),
        }
    }
}

impl Retract for SharedSigner {
    fn retract(&mut self, to: u32) {
        self.signer.retract(to);
    }
}
