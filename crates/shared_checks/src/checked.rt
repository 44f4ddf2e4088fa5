ghost use Rattle.std.specs.Prelude.{◌≡◌, true, false, OnOk};
ghost use Rattle.std.specs.Bool.{OnTrue};
ghost use Rattle.signature_defs.specs.Schemes.{is_valid};
ghost use Rattle.sig_scheme.specs.Views.{scheme as scheme_of};

use rp_base::NoMemory;
use sig_scheme::AnyScheme;
use std::alloc::Global;

/// The room of a signature that was found valid: by this scheme, under this key, on this body. It is used again for the next one.
#[derive(Drop)]
pub(crate) struct Checked {
    // whether there is one
    filled: bool,
    scheme: AnyScheme,
    key: Vec<u8>,
    body: Vec<u8>,
    sig: Vec<u8>,
    ghost valid: { filled ≡ true → is_valid (scheme_of scheme) key.items body.items sig.items ≡ true },
}

// These bytes in place of those that were there.
fn refill(bytes: &mut Vec<u8>, by: &[u8]) -> Result<(), NoMemory>
    ensures { OnOk result (bytes.new.items ≡ by.now) }
{
    bytes.clear();
    bytes.extend_from_slice(by)?;
    Ok(())
}

impl Checked {
    /// No signature yet.
    pub fn new(alloc: Global) -> Checked
        ensures { result.filled ≡ false }
    {
        Checked {
            filled: false,
            scheme: AnyScheme::Plain,
            key: Vec::new(alloc),
            body: Vec::new(alloc),
            sig: Vec::new(alloc),
        }
    }

    /// A valid signature in place of the one before. Without memory there is none.
    pub fn put(
        &mut self,
        scheme: AnyScheme,
        key: &[u8],
        body: &[u8],
        sig: &[u8],
    ) -> Result<(), NoMemory>
        requires { is_valid (scheme_of scheme) key.now body.now sig.now ≡ true }
        ensures filled { OnOk result (self.new.filled ≡ true) }
        ensures scheme { OnOk result (self.new.scheme ≡ scheme) }
        ensures key { OnOk result (self.new.key.items ≡ key.now) }
        ensures body { OnOk result (self.new.body.items ≡ body.now) }
        ensures sig { OnOk result (self.new.sig.items ≡ sig.now) }
    {
        self.filled = false;
        refill(&mut self.key, key)?;
        refill(&mut self.body, body)?;
        refill(&mut self.sig, sig)?;
        self.scheme = scheme;
        self.filled = true;
        Ok(())
    }

    /// Whether it is this signature, which then is valid.
    pub fn is(&self, scheme: AnyScheme, key: &[u8], body: &[u8], sig: &[u8]) -> bool
        ensures { OnTrue result (is_valid (scheme_of scheme) key.now body.now sig.now ≡ true) }
    {
        self.filled
            && self.scheme == scheme
            && self.sig.as_slice() == sig
            && self.body.as_slice() == body
            && self.key.as_slice() == key
    }
}
