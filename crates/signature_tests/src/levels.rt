use lms_hss::{HssKey, HssScheme, KeyFault, OtsType, hss_verify};
use rp_base::{Scheme, Signer, Tally};
use sha2::{Digest, Sha256};
use std::alloc::Global;
use std::test::Fail;

const ID: [u8; 16] = [0, 1, 2, 3, 4, 5, 6, 7, 8, 9, 10, 11, 12, 13, 14, 15];

const SEED: [u8; 32] = [
    32, 33, 34, 35, 36, 37, 38, 39, 40, 41, 42, 43, 44, 45, 46, 47, 48, 49, 50, 51, 52, 53, 54, 55,
    56, 57, 58, 59, 60, 61, 62, 63,
];

const MESSAGE: &[u8] = b"one message";

// The number that the hash of these bytes begins with.
fn mark(bytes: &[u8]) -> u64 {
    let hash = Sha256::digest(bytes);
    u64::from_be_bytes([
        hash[0], hash[1], hash[2], hash[3], hash[4], hash[5], hash[6], hash[7],
    ])
}

// A key of two levels, 1,024 signatures in all.
fn two_levels(alloc: Global) -> Result<HssKey, Fail> {
    Ok(HssKey::make(alloc, 2, 5, OtsType::W8, ID, SEED)?)
}

// The key's signature of this number, which is not below those that it made.
fn sign_at(alloc: Global, key: &mut HssKey, number: u32) -> Result<Vec<u8>, Fail> {
    if key.used() <= number && number < key.total() {
        key.skip_to(number);
    }
    let mut sig = vec![in alloc; 0u8; key.sig_len()]?;
    key.sign(MESSAGE, &mut sig)?;
    Ok(sig)
}

fn is_valid(key: &HssKey, sig: &[u8]) -> bool {
    hss_verify(key.public(), MESSAGE, sig)
}

// Hashes are those of another program, in Python, for the same keys, numbers and message.
#[test]
fn two_levels_sign_as_the_other_program_does(rt: HostRuntime) -> Result<(), Fail> {
    let mut key = two_levels(rt.alloc())?;
    assert!(rt; mark(key.public()) == 0x06fae04d68ce750c && key.total() == 1024);
    for (number, signature) in [
        (0, 0xa6d40af11b0785e0),
        (1, 0x75053ada09454780),
        (31, 0xb428673f29e392c0),
        (32, 0x6255bc0895da5444),
        (33, 0xf429a9244ec7c6b8),
        (1023, 0x94683ab19414df0f),
    ] {
        let sig = sign_at(rt.alloc(), &mut key, number)?;
        assert!(rt; sig.len() == 2644 && mark(&sig) == signature, "{number}");
        assert!(rt; is_valid(&key, &sig), "{number}");
    }
    let mut sig = vec![in rt.alloc(); 0u8; key.sig_len()]?;
    assert!(rt; key.used() == key.total() && key.sign(MESSAGE, &mut sig).is_err());
    Ok(())
}

#[test]
fn three_levels_sign_as_the_other_program_does(rt: HostRuntime) -> Result<(), Fail> {
    let mut key = HssKey::make(rt.alloc(), 3, 5, OtsType::W4, ID, SEED)?;
    assert!(rt; mark(key.public()) == 0x3fc7579d6cbbd3dc && key.total() == 32768);
    for (number, signature) in [
        (0, 0xdcbe3f8bbe91c535),
        (31, 0x20f39c3991ba00d0),
        (32, 0xef80b5bfac6c788f),
        (1023, 0x44da8a3c9b13859c),
        (1024, 0x63a5a3d3207c7df8),
        (1056, 0x1ec124af12f7f06b),
        (32767, 0x030f5da62934f700),
    ] {
        let sig = sign_at(rt.alloc(), &mut key, number)?;
        assert!(rt; mark(&sig) == signature, "{number}");
        assert!(rt; HssScheme.verify(key.public(), MESSAGE, &sig), "{number}");
    }
    Ok(())
}

#[test]
fn one_level_signs_as_the_other_program_does(rt: HostRuntime) -> Result<(), Fail> {
    let mut key = HssKey::make(rt.alloc(), 1, 5, OtsType::W1, ID, SEED)?;
    let sig = sign_at(rt.alloc(), &mut key, 0)?;
    assert!(rt; mark(key.public()) == 0x195c952b5a2ec665 && mark(&sig) == 0x57f6ce65556a34b5);
    assert!(rt; key.total() == 32 && is_valid(&key, &sig));
    Ok(())
}

#[test]
fn a_signature_of_another_length_is_not_valid(rt: HostRuntime) -> Result<(), Fail> {
    let mut key = two_levels(rt.alloc())?;
    let mut sig = sign_at(rt.alloc(), &mut key, 0)?;
    sig.push(0)?;
    assert!(rt; !is_valid(&key, &sig));
    for length in [2643, 1352, 1351, 1296, 1295, 1200, 8, 5, 4, 3, 0] {
        sig.truncate(length);
        assert!(rt; !is_valid(&key, &sig), "{length} bytes");
    }
    Ok(())
}

// Puts a number into the last of the four bytes of a field.
fn set_last_byte(bytes: &mut [u8], field: usize, number: u8) {
    if let Some(byte) = bytes.get_mut(field.saturating_add(3)) {
        *byte = number;
    }
}

// Fields: Nspk; q, one-time type and type of the upper signature; the lower key's types; q of the lower signature.
#[test]
fn no_other_count_leaf_or_type_is_valid(rt: HostRuntime) -> Result<(), Fail> {
    let mut key = two_levels(rt.alloc())?;
    let mut sig = sign_at(rt.alloc(), &mut key, 0)?;
    for (field, own) in [
        (0, 1),
        (4, 0),
        (8, 4),
        (1132, 5),
        (1296, 5),
        (1300, 4),
        (1352, 0),
    ] {
        for number in 0..34 {
            set_last_byte(&mut sig, field, number);
            assert_eq!(rt;
                is_valid(&key, &sig),
                number == own,
                "field {field}, {number}"
            );
        }
        set_last_byte(&mut sig, field, own);
    }
    Ok(())
}

#[test]
fn no_other_number_of_levels_is_valid(rt: HostRuntime) -> Result<(), Fail> {
    let mut key = two_levels(rt.alloc())?;
    let mut sig = sign_at(rt.alloc(), &mut key, 0)?;
    let mut public = key.public().to_vec(rt.alloc())?;
    for levels in 0..10u8 {
        set_last_byte(&mut public, 0, levels);
        for count in 0..10u8 {
            set_last_byte(&mut sig, 0, count);
            let valid = hss_verify(&public, MESSAGE, &sig);
            assert_eq!(rt;
                valid,
                levels == 2 && count == 1,
                "{levels} levels, {count} keys"
            );
        }
    }
    Ok(())
}

#[test]
fn the_first_reason_not_to_make_a_key_is_reported(rt: HostRuntime) {
    for (levels, height, ots, fault) in [
        (0, 8, OtsType::W1, KeyFault::Levels),
        (4, 5, OtsType::W8, KeyFault::Levels),
        (1, 4, OtsType::W8, KeyFault::TooTall),
        (2, 8, OtsType::W1, KeyFault::TooTall),
        (3, 7, OtsType::W8, KeyFault::TooTall),
        (2, 5, OtsType::W1, KeyFault::TooLong),
        (3, 6, OtsType::W1, KeyFault::TooLong),
    ] {
        let made = HssKey::make(rt.alloc(), levels, height, ots, ID, SEED);
        let reported = made.err();
        assert!(rt;
            reported == Some(fault),
            "{levels} levels of {height}: {reported:?}"
        );
    }
}

#[test]
fn a_key_is_printed_without_its_seed(rt: HostRuntime) -> Result<(), Fail> {
    let key = two_levels(rt.alloc())?;
    let printed = format!(in rt.alloc(); "{key:?}")?;
    assert_eq!(rt; printed.as_str(), "HssKey { .. }");
    Ok(())
}
