ghost use Rattle.std.specs.Prelude.{◌≡◌, ◌≤◌, ◌<◌, ◌+◌, IfOk, None, length, take};
ghost use Rattle.kit_defs.specs.Kits.{IsSecret};
ghost use Rattle.sig_scheme.specs.Keys.{refusal_of};
ghost use Rattle.sig_scheme.specs.Signers.{IsSignerOf};
ghost use Rattle.sig_scheme.specs.Views.{secret as secret_in};
ghost use Rattle.store_defs.specs.Keys as keys;
ghost use Rattle.store_defs.specs.Keys.{signs_of};
ghost use Rattle.store_keys.specs.Keys.{most, next, signs};

use rp_base::{NoMemory, Signer, Tally};
use sig_scheme::{AnySigner, KeyFault, Secret};
use std::alloc::Global;
use store_records::{reply_secret, state_secret};

/// A key that signs with the leaf that its caller names, and with no leaf twice.
#[derive(Drop)]
pub struct LeafKey {
    signer: AnySigner,
}

// The signer of a secret that has one.
fn made(alloc: Global, secret: &Secret) -> Result<AnySigner, NoMemory>
    requires { refusal_of (secret_in secret.now) ≡ None }
    ensures { IfOk result (IsSignerOf (secret_in secret.now)) }
{
    match secret.signer(alloc) {
        Ok(signer) => Ok(signer),
        Err(KeyFault::NoMemory) => Err(NoMemory),
        Err(KeyFault::Levels | KeyFault::TooTall | KeyFault::TooLong) => unreachable!(),
    }
}

/// The key of a process's replies, of the process's secret. That of trees takes their memory and the time of their public keys.
///
/// # Errors
/// [`NoMemory`] where memory for its trees is refused.
#[tactic(auto, using(crate::proofs::Secrets::reply_not_refused))]
pub fn reply_key(alloc: Global, secret: &Secret) -> Result<LeafKey, NoMemory>
    requires { IsSecret (secret_in secret.now) }
    ensures signs { IfOk result (λ k. signs k ≡ signs_of (keys.reply_secret (secret_in secret.now))) }
    ensures unused { IfOk result (λ k. next k ≡ 0) }
{
    let signer = made(alloc, &reply_secret(secret))?;
    Ok(LeafKey { signer })
}

/// The key of a process's states, of the process's secret. That of trees takes their memory and the time of their public keys.
///
/// # Errors
/// [`NoMemory`] where memory for its trees is refused.
#[tactic(auto, using(crate::proofs::Secrets::state_not_refused))]
pub fn state_key(alloc: Global, secret: &Secret) -> Result<LeafKey, NoMemory>
    requires { IsSecret (secret_in secret.now) }
    ensures signs { IfOk result (λ k. signs k ≡ signs_of (keys.state_secret (secret_in secret.now))) }
    ensures unused { IfOk result (λ k. next k ≡ 0) }
{
    let signer = made(alloc, &state_secret(secret))?;
    Ok(LeafKey { signer })
}

impl LeafKey {
    /// How many leaves it has.
    pub fn total(&self) -> u32
        ensures { result ≡ (signs self.now).total }
    {
        self.signer.total()
    }

    /// Its public key.
    pub fn public(&self) -> &[u8]
        ensures { result.now ≡ (signs self.now).public }
    {
        self.signer.public()
    }

    /// The most bytes that a signature has: at most 16,384.
    pub fn most(&self) -> usize
        ensures value { result ≡ most self.now }
        ensures small { result ≤ 16384 }
    {
        self.signer.sig_len()
    }

    /// Signs a body with the leaf of this number, which no body was signed with and none can be signed with again. The signature lies at
    /// the front of `out`; the answer is its length.
    #[tactic(auto, using(crate::proofs::Skipped::most_kept, crate::proofs::Skipped::signature_kept, crate::proofs::Skipped::signs_kept))]
    pub fn sign(&mut self, leaf: u32, body: &[u8], out: &mut [u8]) -> usize
        requires unused { next self.old ≤ leaf }
        requires within { leaf < (signs self.old).total }
        requires room { most self.old ≤ length out.old }
        ensures signed { take result out.new ≡ (signs self.old).signature leaf body.now }
        ensures fits { result ≤ most self.old }
        ensures next { next self.new ≡ leaf + 1 }
        ensures signs { signs self.new ≡ signs self.old }
        ensures most { most self.new ≡ most self.old }
    {
        self.signer.skip_to(leaf);
        let Ok(count) = self.signer.sign(body, out) else {
            unreachable!();
        };
        count
    }
}
