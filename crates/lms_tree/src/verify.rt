// A public key and a signature (RFC 8554, sections 5.3 and 5.4), where L is the length of a one-time signature:
//
// | Bytes of a key | 0 to 3 | 4 to 7 | 8 to 23 | 24 to 55 |
// |---|---|---|---|---|
// | Field | typecode | one-time typecode | I | T[1] |
//
// | Bytes of a signature | 4 | L | 4 | 32 each |
// |---|---|---|---|---|
// | Field | q | one-time signature | typecode | path[0] to path[h - 1] |
ghost use Rattle.std.specs.Prelude.{◌≡◌, ◌+◌, ◌<◌, ◌≤◌, ◌^◌, length, IsTrue};
ghost use Rattle.signature_defs.specs.Strings.{part};
ghost use Rattle.signature_defs.specs.Lms.{has_types, lms_signature_length, lms_valid, root_candidate, valid_by};

use crate::heights::lms_height_of;
use crate::nodes::{leaf, parent};
use lms_ots::{OtsType, ots_candidate, ots_signature_length, ots_type_of, ots_typecode, u32_at};
use rp_base::Scheme;

// Whether the signature names the key's two types and a leaf of the tree, and has their length.
fn has_types(key: &[u8], kind: OtsType, height: usize, sig: &[u8]) -> bool
    requires key { length key.now ≡ 56 }
    requires height { height ≤ 25 }
    ensures { result ≡ has_types key.now kind height sig.now }
{
    let length = ots_signature_length(kind);
    sig.len() == 4 + length + 4 + 32 * height
        && u32_at(sig, 4) == ots_typecode(kind)
        && u32_at(sig, 4 + length) == u32_at(key, 0)
        && u32_at(sig, 0) < 1 << height
}

// The root that the path leads to from leaf `q`, whose one-time public key is `key`.
fn root_candidate(
    kind: OtsType,
    height: usize,
    id: &[u8; 16],
    q: u32,
    key: &[u8; 32],
    sig: &[u8],
) -> [u8; 32]
    requires height { height ≤ 25 }
    requires leaf { q < 2 ^ height }
    requires length { length sig.now ≡ lms_signature_length kind height }
    ensures { result ≡ root_candidate kind height id.now q key.now sig.now }
{
    let path = 8 + ots_signature_length(kind);
    let mut r = (1 << height) + q;
    let mut value = leaf(id, r, key);
    for i in 0..height {
        let at = path + 32 * i;
        value = parent(id, r, &value, &sig[at..at + 32]);
        r /= 2;
    }
    value
}

fn id_of(key: &[u8]) -> [u8; 16]
    requires { length key.now ≡ 56 }
    ensures { result ≡ part 8 16 key.now }
{
    let mut id = [0u8; 16];
    id.copy_from_slice(&key[8..24]);
    id
}

// Whether the signature is valid under the key, which is one of these two types.
fn valid_by(kind: OtsType, height: usize, key: &[u8], message: &[u8], sig: &[u8]) -> bool
    requires key { length key.now ≡ 56 }
    requires height { height ≤ 25 }
    ensures { result ≡ valid_by kind height key.now message.now sig.now }
{
    if !has_types(key, kind, height, sig) {
        return false;
    }
    let id = id_of(key);
    let q = u32_at(sig, 0);
    let Some(found) = ots_candidate(&id, q, message, &sig[4..4 + ots_signature_length(kind)]) else {
        return false;
    };
    root_candidate(kind, height, &id, q, &found, sig).as_slice() == &key[24..56]
}

/// Whether this is an LMS signature under the key on the body (RFC 8554, section 5.4.2). False where the key does not have 56
/// bytes, a type is unknown, the signature's types are not the key's, its leaf is not in the tree, or its length is not
/// that of the types.
pub fn lms_verify(key: &[u8], body: &[u8], sig: &[u8]) -> bool
    ensures { result ≡ lms_valid key.now body.now sig.now }
{
    if key.len() != 56 {
        return false;
    }
    let Some(height) = lms_height_of(u32_at(key, 0)) else {
        return false;
    };
    let Some(kind) = ots_type_of(u32_at(key, 4)) else {
        return false;
    };
    valid_by(kind, height, key, body, sig)
}

/// LMS signatures: a key's 56 bytes name its types.
#[derive(Clone, Copy)]
pub struct LmsScheme;

impl Scheme for LmsScheme {
    ghost valid = { λ s key body sig. lms_valid key body sig };

    fn verify(&self, key: &[u8], body: &[u8], sig: &[u8]) -> bool {
        lms_verify(key, body, sig)
    }
}
