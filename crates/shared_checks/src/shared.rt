ghost use Rattle.std.specs.Prelude.{◌≡◌, IfOk};
ghost use Rattle.signature_defs.specs.Schemes.{is_valid};
ghost use Rattle.sig_scheme.specs.Views.{scheme as scheme_of};

use crate::lately::Lately;
use crate::signer::SharedSigner;
use rp_base::{NoMemory, Scheme};
use sig_scheme::{AnyScheme, AnySigner};
use std::alloc::Global;
use std::cell::RefCell;
use std::marker::Model;
use std::rc::Rc;

/// A scheme, with the signatures that are known to be valid. Contracts see the scheme: what is known changes no answer, only how often a
/// signature is hashed.
#[derive(Drop)]
pub struct SharedScheme {
    scheme: AnyScheme,
    lately: Rc<RefCell<Lately>>,
}

impl Model for SharedScheme {
    ghost use Rattle.sig_scheme.specs.declared.any_scheme.AnyScheme.{AnyScheme};

    ghost Value = { AnyScheme };

    ghost view = { λ s. s.scheme };
}

impl SharedScheme {
    /// The scheme; no signature is known yet.
    pub fn new(alloc: Global, scheme: AnyScheme) -> Result<SharedScheme, NoMemory>
        ensures { IfOk result (λ s. s ≡ scheme) }
    {
        let lately = Lately::new(alloc)?;
        Ok(SharedScheme {
            scheme,
            lately: Rc::new(alloc, RefCell::new(lately))?,
        })
    }

    /// The scheme.
    pub fn scheme(&self) -> &AnyScheme
        ensures { result.now ≡ self.now }
    {
        &self.scheme
    }

    /// The signer, whose signatures are known from when they are made.
    pub fn signer(&self, signer: AnySigner) -> Result<SharedSigner, NoMemory>
        ensures { IfOk result (λ s. s ≡ signer) }
    {
        let lately = self.lately.clone()?;
        Ok(SharedSigner::new(signer, lately))
    }
}

impl Scheme for SharedScheme {
    ghost valid = { λ s. is_valid (scheme_of s) };

    fn verify(&self, key: &[u8], body: &[u8], sig: &[u8]) -> bool {
        match self.lately.try_borrow_mut() {
            Ok(mut lately) => lately.verify(self.scheme, key, body, sig),
            Err(_) => self.scheme.verify(key, body, sig),
        }
    }
}
