// A public key and a signature (RFC 8554, sections 6.1 and 6.2), where L is the number of levels:
//
// | Bytes of a key | 0 to 3 | 4 to 59 |
// |---|---|---|
// | Field | L | pub[0] |
//
// | Bytes of a signature | 4 | by its types | 56 | ... | by its types |
// |---|---|---|---|---|---|
// | Field | L - 1 | sig[0] | pub[1] | ... to pub[L - 1] | sig[L - 1] |
ghost use Rattle.std.specs.Prelude.{◌≡◌, ◌≤◌, IfSome, length};
ghost use Rattle.signature_defs.specs.Hss.{hss_valid, length_under, levels_valid};

use lms_ots::{ots_signature_length, ots_type_of, u32_at};
use lms_tree::{lms_height_of, lms_verify};
use rp_base::Scheme;

// The bytes of a signature under an LMS key, by the key's types; None where one is unknown.
fn length_under(key: &[u8]) -> Option<usize>
    requires { length key.now ≡ 56 }
    ensures value { result ≡ length_under key.now }
    ensures bound { IfSome result (λ n. n ≤ 16384) }
{
    let height = lms_height_of(u32_at(key, 0))?;
    let kind = ots_type_of(u32_at(key, 4))?;
    Some(8 + ots_signature_length(kind) + 32 * height)
}

// Under a key, `signed_keys` signed keys and then the signature on the message (RFC 8554, section 6.3).
fn levels_valid(signed_keys: u32, key: &[u8], message: &[u8], sig: &[u8]) -> bool
    requires { length key.now ≡ 56 }
    ensures { result ≡ levels_valid signed_keys key.now message.now sig.now }
{
    let mut key = key;
    let mut rest = sig;
    for _ in 0..signed_keys {
        let Some(length) = length_under(key) else {
            return false;
        };
        if rest.len() < length + 56 {
            return false;
        }
        let (signature, behind) = rest.split_at(length);
        let (below, deeper) = behind.split_at(56);
        if !lms_verify(key, below, signature) {
            return false;
        }
        key = below;
        rest = deeper;
    }
    lms_verify(key, message, rest)
}

/// Whether this is an HSS signature under the key on the body, in 1 to 8 levels (RFC 8554, section 6.3). False where the
/// key does not have 60 bytes, its number of levels is not 1 to 8 or not the signature's, a signature on a key or on the body
/// is not valid under the key above it, or bytes are left at the end.
pub fn hss_verify(key: &[u8], body: &[u8], sig: &[u8]) -> bool
    ensures { result ≡ hss_valid key.now body.now sig.now }
{
    if key.len() != 60 || sig.len() < 4 {
        return false;
    }
    let levels = u32_at(key, 0);
    if levels < 1 || levels > 8 || u32_at(sig, 0) != levels - 1 {
        return false;
    }
    levels_valid(levels - 1, &key[4..], body, &sig[4..])
}

/// HSS signatures: a key's 60 bytes name its levels, and the types of its top tree.
#[derive(Clone, Copy)]
pub struct HssScheme;

impl Scheme for HssScheme {
    ghost valid = { λ s key body sig. hss_valid key body sig };

    fn verify(&self, key: &[u8], body: &[u8], sig: &[u8]) -> bool {
        hss_verify(key, body, sig)
    }
}
