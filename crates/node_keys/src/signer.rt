//! The signer of a hosted process.
ghost use Rattle.std.specs.Prelude.{◌≡◌, IfOk, IsSomeAnd, IsTrue, None};
ghost use Rattle.byte_defs.specs.Members.{has};
ghost use Rattle.kit_defs.specs.Kits.{IsKit};
ghost use Rattle.sig_scheme.specs.Keys.{refusal_of};
ghost use Rattle.sig_scheme.specs.Signers.{IsSignerOf};
ghost use Rattle.sig_scheme.specs.Views.{secret as secret_in};
ghost use Rattle.node_defs.specs.Casts.{host_of, hosted_by};

use kit_file::Kit;
use rp_base::{NoMemory, Pid};
use sig_scheme::{AnySigner, KeyFault, Secret};
use std::alloc::Global;

// The signer of a secret that has one.
fn made(alloc: Global, secret: &Secret) -> Result<AnySigner, NoMemory>
    requires { refusal_of (secret_in secret.now) ≡ None }
    ensures { IfOk result (IsSignerOf (secret_in secret.now)) }
{
    match secret.signer(alloc) {
        Ok(signer) => Ok(signer),
        Err(KeyFault::NoMemory) => Err(NoMemory),
        Err(KeyFault::Levels | KeyFault::TooTall | KeyFault::TooLong) => unreachable!(),
    }
}

/// The signer of the secret of a hosted process, which has signed nothing. That of trees takes their memory and the time of their public
/// keys, as `sig_scheme::Secret::signer` says.
///
/// # Errors
/// [`NoMemory`] where memory for its trees is refused.
pub fn signer_of(alloc: Global, kit: &Kit, me: Pid) -> Result<AnySigner, NoMemory>
    requires kit { IsKit kit.now }
    requires hosted { IsTrue (has (hosted_by kit.now) me) }
    ensures { IfOk result (λ signer. IsSomeAnd (host_of kit.now me) (λ host. IsSignerOf host.secret signer)) }
{
    let Some(secret) = kit.secret(me) else {
        unreachable!();
    };
    made(alloc, secret)
}
