//! The keys that sign replies and states are made from a process's own secret, with the same parameters: each part is SHA-256 of four
//! letters, a number and the seed or plain key, 0 for a tree's id and 1 for the seed or key.
ghost use Rattle.std.specs.Prelude.{◌≡◌, List, ℕ, take};
ghost use Rattle.sig_scheme.specs.Views.{secret as plain};
ghost use Rattle.store_defs.specs.Keys as keys;

use sha2::{Digest, Sha256};
use sig_scheme::Secret;

/// The secret that signs a process's replies.
pub fn reply_secret(secret: &Secret) -> Secret
    ensures { plain result ≡ keys.reply_secret (plain secret.now) }
{
    derived_secret(b"RPR1", secret)
}

/// The secret that signs a process's states.
pub fn state_secret(secret: &Secret) -> Secret
    ensures { plain result ≡ keys.state_secret (plain secret.now) }
{
    derived_secret(b"RPT1", secret)
}

fn derived_secret(letters: &[u8; 4], secret: &Secret) -> Secret
    ensures { plain result ≡ keys.derived_secret letters.now (plain secret.now) }
{
    match secret {
        Secret::Plain { key, total } => Secret::Plain {
            key: derived(letters, 1, key),
            total: *total,
        },
        Secret::Lms {
            height,
            ots,
            id: _,
            seed,
        } => Secret::Lms {
            height: *height,
            ots: *ots,
            id: first_half(&derived(letters, 0, seed)),
            seed: derived(letters, 1, seed),
        },
        Secret::Hss {
            levels,
            height,
            ots,
            id: _,
            seed,
        } => Secret::Hss {
            levels: *levels,
            height: *height,
            ots: *ots,
            id: first_half(&derived(letters, 0, seed)),
            seed: derived(letters, 1, seed),
        },
    }
}

fn first_half(value: &[u8; 32]) -> [u8; 16]
    ensures { result ≡ take 16 value.now }
{
    let mut half = [0; 16];
    half.copy_from_slice(&value[..16]);
    half
}

// SHA-256 of the letters, the number and the seed or key.
fn derived(letters: &[u8; 4], number: u8, seed: &[u8; 32]) -> [u8; 32]
    ensures { result ≡ keys.derived letters.now number seed.now }
{
    let mut hasher = Sha256::new();
    hasher.update(letters);
    hasher.update(&[number]);
    hasher.update(seed);
    hasher.finalize()
}
