ghost use Rattle.std.specs.Prelude.{◌≤◌, length};

use crate::ots::{ID, LEAF, SEED, head};
use lms_ots::{OtsType, ots_candidate, ots_public, ots_sign_into, ots_signature_length};
use sha2::{Digest, Sha256};
use sha256_lanes::{from_lane, hash_short, splat, to_lanes};
use std::alloc::Global;
use std::simd::u32x4;
use std::test::Fail;

// The one block that a message is with its padding.
fn padded(message: &[u8]) -> [u8; 64]
    requires { length message.now ≤ 55 }
{
    let mut block = [0u8; 64];
    block[..message.len()].copy_from_slice(message);
    block[message.len()] = 0x80;
    block[62..].copy_from_slice(&(8 * message.len() as u16).to_be_bytes());
    block
}

fn half(block: &[u8; 64], at: usize) -> [u8; 32]
    requires { at ≤ 32 }
{
    let mut half = [0u8; 32];
    half.copy_from_slice(&block[at..at + 32]);
    half
}

// The words of four blocks.
fn blocks(a: &[u8; 64], b: &[u8; 64], c: &[u8; 64], d: &[u8; 64]) -> [u32x4; 16] {
    let mut words = [splat(0); 16];
    words[..8].copy_from_slice(&to_lanes(&[half(a, 0), half(b, 0), half(c, 0), half(d, 0)]));
    words[8..].copy_from_slice(&to_lanes(&[half(a, 32), half(b, 32), half(c, 32), half(d, 32)]));
    words
}

// The first two digests are those of FIPS 180-4's examples.
#[test]
fn four_lanes_hash_four_messages_of_the_standard_and_of_other_lengths(
    rt: HostRuntime,
) -> Result<(), Fail> {
    let abc = b"abc";
    let one_block = b"a block with its padding has room for fifty-five bytes.";
    let other = b"another message";
    let digests = hash_short(blocks(
        &padded(abc),
        &padded(b""),
        &padded(one_block),
        &padded(other),
    ));
    for (lane, message, first) in [
        (0, abc.as_slice(), 0xba7816bf8f01cfea),
        (1, b"".as_slice(), 0xe3b0c44298fc1c14),
        (2, one_block.as_slice(), 0xccc3f6ef72a67892),
        (3, other.as_slice(), 0x28ea0f231192a657),
    ] {
        let digest = from_lane(&digests, lane);
        assert_eq!(rt; digest, Sha256::digest(message), "lane {lane}");
        assert_eq!(rt; head(&digest), first, "lane {lane}");
    }
    Ok(())
}

// Whether the signature of this message begins with this hash, and fits the key.
fn signs(alloc: Global, kind: OtsType, number: u32, signature: u64) -> Result<bool, Fail> {
    let message = format!(in alloc; "message {number}")?;
    let mut sig = vec![in alloc; 0u8; ots_signature_length(kind)]?;
    ots_sign_into(kind, &ID, LEAF, &SEED, message.as_bytes(), &mut sig);
    let found = head(&Sha256::digest(sig.as_slice()));
    let key = ots_candidate(&ID, LEAF, message.as_bytes(), &sig);
    Ok(found == signature && key == Some(ots_public(kind, &ID, LEAF, &SEED)))
}

// Of 200,000 messages (with W2 of 40,000), those whose hashes have the most digits 0, the most greatest ones, the most alike
// and the most unlike, for each width. What the signatures begin with, hashed, is of another program, in Python.
#[test]
fn messages_of_like_and_unlike_digits_get_the_other_programs_signatures(
    rt: HostRuntime,
) -> Result<(), Fail> {
    for (kind, number, signature) in [
        (OtsType::W1, 106558, 0x1e8191ff526eceb4),
        (OtsType::W1, 63197, 0x26bbedd8cc07e4fd),
        (OtsType::W1, 11, 0x0caf3bf723b7300e),
        (OtsType::W2, 38766, 0xa1abf1ca51b62660),
        (OtsType::W2, 38043, 0xd81b9c583058070a),
        (OtsType::W2, 8278, 0x98ba42fde9ca7972),
        (OtsType::W2, 550, 0xabc08788b46df60f),
        (OtsType::W4, 90503, 0xd459c5a60e06c472),
        (OtsType::W4, 170248, 0x232e791a0fe5537b),
        (OtsType::W4, 846, 0xb04166a936425161),
        (OtsType::W8, 8675, 0xd26adb12224feba2),
        (OtsType::W8, 259, 0x21377223a590aa98),
        (OtsType::W8, 20033, 0x2ec89cd624be0f2a),
        (OtsType::W8, 2, 0xe7f59e9623cf1554),
    ] {
        assert!(rt;
            signs(rt.alloc(), kind, number, signature)?,
            "{kind:?} {number}"
        );
    }
    Ok(())
}
