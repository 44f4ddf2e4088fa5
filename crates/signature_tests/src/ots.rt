use lms_ots::{OtsType, ots_candidate, ots_public, ots_sign_into, ots_signature_length};
use sha2::{Digest, Sha256};
use std::alloc::Global;
use std::test::Fail;

pub(crate) const ID: [u8; 16] = [0, 1, 2, 3, 4, 5, 6, 7, 8, 9, 10, 11, 12, 13, 14, 15];

pub(crate) const SEED: [u8; 32] = [
    32, 33, 34, 35, 36, 37, 38, 39, 40, 41, 42, 43, 44, 45, 46, 47, 48, 49, 50, 51, 52, 53, 54, 55,
    56, 57, 58, 59, 60, 61, 62, 63,
];

pub(crate) const LEAF: u32 = 0x0102_0304;

const MESSAGE: &[u8] = b"one message";

// The number that a hash begins with.
pub(crate) fn head(hash: &[u8; 32]) -> u64 {
    u64::from_be_bytes([
        hash[0], hash[1], hash[2], hash[3], hash[4], hash[5], hash[6], hash[7],
    ])
}

// Whether the key's public half and its signature begin with these hashes, the signature has this length, and it fits the key, and no
// part of it does.
fn signs(alloc: Global, kind: OtsType, length: usize, heads: [u64; 2]) -> Result<bool, Fail> {
    let key = ots_public(kind, &ID, LEAF, &SEED);
    let mut sig = vec![in alloc; 0u8; ots_signature_length(kind)]?;
    let written = ots_sign_into(kind, &ID, LEAF, &SEED, MESSAGE, &mut sig);
    let found = [head(&key), head(&Sha256::digest(sig.as_slice()))];
    let whole = ots_candidate(&ID, LEAF, MESSAGE, &sig);
    let cut = ots_candidate(&ID, LEAF, MESSAGE, &sig[1..]);
    Ok(written == length && found == heads && whole == Some(key) && cut.is_none())
}

// Lengths are the RFC's; hashes are those of another program, in Python, for the same key, leaf and message.
#[test]
fn each_parameter_set_gives_the_other_programs_keys_and_signatures(
    rt: HostRuntime,
) -> Result<(), Fail> {
    for (kind, length, public, signature) in [
        (OtsType::W1, 8516, 0xe1cc582f301ff4fb, 0xe043d80ee0a34cc0),
        (OtsType::W2, 4292, 0x2d2f73e95dcc6631, 0xc856ce08d58fc718),
        (OtsType::W4, 2180, 0xe263570fbb4f846b, 0x001685860e91e689),
        (OtsType::W8, 1124, 0x5960b11e9ef0f283, 0xc51a24776b4ea5c5),
    ] {
        let heads = [public, signature];
        assert!(rt; signs(rt.alloc(), kind, length, heads)?, "{kind:?}");
    }
    Ok(())
}
