use lms_tree::{KeyFault, LmsKey, OtsType, lms_verify};
use rp_base::{Signer, Tally};
use sha2::{Digest, Sha256};
use std::alloc::Global;
use std::test::Fail;

const ID: [u8; 16] = [0, 1, 2, 3, 4, 5, 6, 7, 8, 9, 10, 11, 12, 13, 14, 15];

const SEED: [u8; 32] = [
    32, 33, 34, 35, 36, 37, 38, 39, 40, 41, 42, 43, 44, 45, 46, 47, 48, 49, 50, 51, 52, 53, 54, 55,
    56, 57, 58, 59, 60, 61, 62, 63,
];

const MESSAGE: &[u8] = b"one message";

// The number that the hash of these bytes begins with.
fn mark(bytes: &[u8]) -> u64 {
    let hash = Sha256::digest(bytes);
    u64::from_be_bytes([
        hash[0], hash[1], hash[2], hash[3], hash[4], hash[5], hash[6], hash[7],
    ])
}

// A key of 32 leaves, and its signature with the first or the last of them.
fn signed(alloc: Global, kind: OtsType, last: bool) -> Result<(LmsKey, Vec<u8>), Fail> {
    let mut key = LmsKey::make(alloc, 5, kind, ID, SEED)?;
    if last && key.total() > 0 {
        key.skip_to(key.total() - 1);
    }
    let mut sig = vec![in alloc; 0u8; key.sig_len()]?;
    key.sign(MESSAGE, &mut sig)?;
    Ok((key, sig))
}

fn is_valid(key: &LmsKey, sig: &[u8]) -> bool {
    lms_verify(key.public(), MESSAGE, sig)
}

// Whether key and signature of the first or the last leaf begin with these hashes, the signature fits the key, and the last leaf spends it.
fn signs(alloc: Global, kind: OtsType, last: bool, marks: [u64; 2]) -> Result<bool, Fail> {
    let (key, sig) = signed(alloc, kind, last)?;
    let found = [mark(key.public()), mark(&sig)];
    let is_spent = key.used() == key.total();
    Ok(found == marks && is_valid(&key, &sig) && is_spent == last)
}

// Hashes are those of another program, in Python, for the same keys, leaves and message.
#[test]
fn first_and_last_leaf_sign_as_the_other_program_does(rt: HostRuntime) -> Result<(), Fail> {
    for (kind, public, first, last) in [
        (
            OtsType::W1,
            0x002750d937bb00c9,
            0x4fc95fd6bb561b94,
            0xc478571942480669,
        ),
        (
            OtsType::W2,
            0x66d188bc65384eb0,
            0x3b0e6aef5c49daaa,
            0x1a81c22404ad0e0b,
        ),
        (
            OtsType::W4,
            0x9e6b2b886219ff73,
            0x0b0cfdeb3d20df52,
            0x13c42fc28a2f8f40,
        ),
        (
            OtsType::W8,
            0x7e711fc3460aa061,
            0x86f230958378eb8b,
            0x073700ad5b6f820f,
        ),
    ] {
        assert!(rt;
            signs(rt.alloc(), kind, false, [public, first])?,
            "{kind:?}"
        );
        assert!(rt; signs(rt.alloc(), kind, true, [public, last])?, "{kind:?}");
    }
    Ok(())
}

#[test]
fn a_signature_of_another_length_is_not_valid(rt: HostRuntime) -> Result<(), Fail> {
    let (key, mut sig) = signed(rt.alloc(), OtsType::W8, false)?;
    assert_eq!(rt; sig.len(), 1292);
    sig.push(0)?;
    assert!(rt; !is_valid(&key, &sig));
    for length in [1291, 1132, 1128, 36, 8, 7, 4, 3, 0] {
        sig.truncate(length);
        assert!(rt; !is_valid(&key, &sig), "{length} bytes");
    }
    Ok(())
}

fn flip(bytes: &mut [u8], at: usize) {
    if let Some(byte) = bytes.get_mut(at) {
        *byte ^= 1;
    }
}

#[test]
fn a_changed_bit_is_noticed_in_each_field(rt: HostRuntime) -> Result<(), Fail> {
    let (key, mut sig) = signed(rt.alloc(), OtsType::W8, false)?;
    assert!(rt; !lms_verify(key.public(), b"another message", &sig));
    for at in [0, 3, 4, 7, 8, 39, 40, 1127, 1128, 1131, 1132, 1260, 1291] {
        flip(&mut sig, at);
        assert!(rt; !is_valid(&key, &sig), "byte {at}");
        flip(&mut sig, at);
    }
    assert!(rt; is_valid(&key, &sig));
    Ok(())
}

fn set_last_byte(bytes: &mut [u8], field: usize, number: u8) {
    if let Some(byte) = bytes.get_mut(field.saturating_add(3)) {
        *byte = number;
    }
}

#[test]
fn no_other_leaf_or_type_is_valid(rt: HostRuntime) -> Result<(), Fail> {
    let (key, mut sig) = signed(rt.alloc(), OtsType::W8, false)?;
    for (field, own) in [(0, 0), (4, 4), (1128, 5)] {
        for number in 0..34 {
            set_last_byte(&mut sig, field, number);
            assert_eq!(rt;
                is_valid(&key, &sig),
                number == own,
                "field {field}, {number}"
            );
        }
        set_last_byte(&mut sig, field, own);
    }
    Ok(())
}

#[test]
fn only_trees_of_three_heights_are_built(rt: HostRuntime) {
    for typecode in [0, 4, 8, 9, 16, u32::MAX] {
        let made = LmsKey::make(rt.alloc(), typecode, OtsType::W1, ID, SEED);
        assert!(rt; matches!(made, Err(KeyFault::TooTall)), "{typecode}");
    }
}
