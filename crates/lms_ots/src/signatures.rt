// A signature's bytes (RFC 8554, section 4.5):
//
// | Bytes | 0 to 3 | 4 to 35 | 36 to 67 | ... |
// |---|---|---|---|---|
// | Field | typecode | C | y[0] | ... to y[p - 1] |
ghost use Rattle.std.specs.Prelude.{◌≡◌, ℕ, ◌+◌, ◌*◌, ◌<◌, ◌≤◌, ◌++◌, [], length, slice_index_or};
ghost use Rattle.std.specs.Option.{option_map};
ghost use Rattle.sha2.specs.Sha256.{sha256};
ghost use Rattle.sha2.specs.Hashers.{Holds256};
ghost use Rattle.signature_defs.specs.Strings.{part, strings, u16str, u32str};
ghost use Rattle.signature_defs.specs.LmOts.{message_hash, ots_candidate, ots_public_key, ots_signature, ots_signature_length, ots_signature_type, randomizer};

use crate::chains::{chain_head, key_head, secret};
use crate::digits::Digits;
use crate::fields::u32_at;
use crate::kinds::{ots_chains, ots_signature_length, ots_steps, ots_type_of, ots_typecode};
use lms_chains::{CHAINS, Steps, Values, same, secrets, walk_alike, walk_by_length};
use sha2::{Digest, Sha256};
use signature_defs::OtsType;

const D_PBLC: u16 = 0x8080;

const D_MESG: u16 = 0x8181;

// The chain that no signature has, from which C is made.
const RANDOMIZER: u16 = 0xfffd;

// A hash that has taken in the key and the tag.
fn tagged(key: &[u8; 20], tag: u16) -> Sha256
    ensures { Holds256 result (key.now ++ u16str tag) }
{
    let mut hasher = Sha256::new();
    hasher.update(key);
    hasher.update(&tag.to_be_bytes());
    hasher
}

fn message_hash(key: &[u8; 20], c: &[u8], message: &[u8]) -> [u8; 32]
    ensures { result ≡ sha256 (key.now ++ u16str 0x8181 ++ c.now ++ message.now) }
{
    let mut hasher = tagged(key, D_MESG);
    hasher.update(c);
    hasher.update(message);
    hasher.finalize()
}

// The ends of all chains hashed to a public key.
fn hash_of_ends(key: &[u8; 20], count: u16, ends: &Values) -> [u8; 32]
    requires { count ≤ 265 }
    ensures { result ≡ sha256 (key.now ++ u16str 0x8080 ++ strings (λ i. slice_index_or ends.now i []) count) }
{
    let mut hasher = tagged(key, D_PBLC);
    for i in 0..count {
        hasher.update(&ends[usize::from(i)]);
    }
    hasher.finalize()
}

/// The public key of one-time key `q` (RFC 8554, section 4.3), whose chains begin at values made from the seed
/// (Appendix A).
pub fn ots_public(kind: OtsType, id: &[u8; 16], q: u32, seed: &[u8; 32]) -> [u8; 32]
    ensures { result ≡ ots_public_key kind id.now q seed.now }
{
    let key = key_head(id, q);
    let count = ots_chains(kind);
    let starts = secrets(&key, count, seed);
    let ends = walk_alike(&key, count, ots_steps(kind), &starts);
    hash_of_ends(&key, count, &ends)
}

/// Writes the signature of one-time key `q` on the message (RFC 8554, section 4.5), and gives its length. Its C is made
/// from the seed, so that key, number and message determine it.
pub fn ots_sign_into(
    kind: OtsType,
    id: &[u8; 16],
    q: u32,
    seed: &[u8; 32],
    message: &[u8],
    out: &mut [u8],
) -> usize
    requires { length out.old ≡ ots_signature_length kind }
    ensures written { out.new ≡ ots_signature kind id.now q seed.now message.now }
    ensures length { result ≡ ots_signature_length kind }
{
    let key = key_head(id, q);
    let c = secret(&chain_head(&key, RANDOMIZER), seed);
    let digits = Digits::new(&message_hash(&key, &c, message), kind);
    out[..4].copy_from_slice(&ots_typecode(kind).to_be_bytes());
    out[4..36].copy_from_slice(&c);
    let count = ots_chains(kind);
    let steps = Steps {
        from: same(0),
        to: digits.all(kind),
    };
    let ends = walk_by_length(&key, count, &steps, &secrets(&key, count, seed));
    for i in 0..count {
        let at = 36 + 32 * usize::from(i);
        out[at..at + 32].copy_from_slice(&ends[usize::from(i)]);
    }
    ots_signature_length(kind)
}

// The parameter set that a signature names and has the length of.
fn signature_type(sig: &[u8]) -> Option<OtsType>
    ensures { result ≡ ots_signature_type sig.now }
{
    if sig.len() < 4 {
        return None;
    }
    let kind = ots_type_of(u32_at(sig, 0))?;
    if sig.len() == ots_signature_length(kind) {
        Some(kind)
    } else {
        None
    }
}

// The value of a chain in a signature.
fn value_at(sig: &[u8], i: u16) -> [u8; 32]
    requires { 68 + 32 * i ≤ length sig.now }
    ensures { result ≡ part (36 + 32 * i) 32 sig.now }
{
    let at = 36 + 32 * usize::from(i);
    let mut value = [0u8; 32];
    value.copy_from_slice(&sig[at..at + 32]);
    value
}

// The values of all chains in a signature.
fn values_of(sig: &[u8], count: u16) -> Values
    requires count { count ≤ 265 }
    requires length { 36 + 32 * count ≤ length sig.now }
    ensures { (i : ℕ) → i < count → slice_index_or result i [] ≡ part (36 + 32 * i) 32 sig.now }
{
    let mut values = [[0u8; 32]; CHAINS];
    'values: for i in 0..count {
        values[usize::from(i)] = value_at(sig, i);
    }
    values
}

/// The public key that a signature on the message leads to (RFC 8554, section 4.6, algorithm 4b). None exactly where the
/// typecode is not 1 to 4 or the length is not that type's.
pub fn ots_candidate(id: &[u8; 16], q: u32, message: &[u8], sig: &[u8]) -> Option<[u8; 32]>
    ensures { result ≡ ots_candidate id.now q message.now sig.now }
{
    let kind = signature_type(sig)?;
    let key = key_head(id, q);
    let digits = Digits::new(&message_hash(&key, &sig[4..36], message), kind);
    let count = ots_chains(kind);
    let steps = Steps {
        from: digits.all(kind),
        to: same(u16::from(ots_steps(kind))),
    };
    let ends = walk_by_length(&key, count, &steps, &values_of(sig, count));
    Some(hash_of_ends(&key, count, &ends))
}
