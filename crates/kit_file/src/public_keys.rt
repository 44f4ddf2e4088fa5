ghost use Rattle.std.specs.Prelude.{◌≡◌, IfOk, None};
ghost use Rattle.sig_scheme.specs.Keys.{IsKeyOf, refusal_of};
ghost use Rattle.sig_scheme.specs.Views.{secret};

use rp_base::NoMemory;
use sig_scheme::{KeyFault, PublicKey, Secret};
use std::alloc::Global;

/// The public key of a secret of a kit, which is refused for want of memory at most.
///
/// # Errors
/// [`NoMemory`] where memory for its trees is refused.
pub fn public_key_of(alloc: Global, of: Secret) -> Result<PublicKey, NoMemory>
    requires { refusal_of (secret of) ≡ None }
    ensures { IfOk result (IsKeyOf (secret of)) }
{
    match of.public_key(alloc) {
        Ok(key) => Ok(key),
        Err(KeyFault::NoMemory) => Err(NoMemory),
        Err(KeyFault::Levels | KeyFault::TooTall | KeyFault::TooLong) => unreachable!(),
    }
}
