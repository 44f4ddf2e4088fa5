use rp_base::{Retract, Scheme, Signer, Tally};
use sha2::{Digest, Sha256};
use sig_scheme::{AnyScheme, KeyFault, OtsType, PublicKey, Secret, levels_are_built};
use std::alloc::Global;
use std::test::Fail;

const PLAIN: Secret = Secret::Plain {
    key: [7; 32],
    total: 2,
};

const LMS: Secret = Secret::Lms {
    height: 5,
    ots: OtsType::W1,
    id: [0, 1, 2, 3, 4, 5, 6, 7, 8, 9, 10, 11, 12, 13, 14, 15],
    seed: [
        32, 33, 34, 35, 36, 37, 38, 39, 40, 41, 42, 43, 44, 45, 46, 47, 48, 49, 50, 51, 52, 53, 54,
        55, 56, 57, 58, 59, 60, 61, 62, 63,
    ],
};

const HSS: Secret = Secret::Hss {
    levels: 2,
    height: 5,
    ots: OtsType::W8,
    id: [0, 1, 2, 3, 4, 5, 6, 7, 8, 9, 10, 11, 12, 13, 14, 15],
    seed: [
        32, 33, 34, 35, 36, 37, 38, 39, 40, 41, 42, 43, 44, 45, 46, 47, 48, 49, 50, 51, 52, 53, 54,
        55, 56, 57, 58, 59, 60, 61, 62, 63,
    ],
};

const BODY: &[u8] = b"one message";

// The number that the hash of these bytes begins with.
fn mark(bytes: &[u8]) -> u64 {
    let hash = Sha256::digest(bytes);
    u64::from_be_bytes([
        hash[0], hash[1], hash[2], hash[3], hash[4], hash[5], hash[6], hash[7],
    ])
}

// The signer's next signature on the body.
fn sign<G: Signer>(alloc: Global, signer: &mut G) -> Result<Vec<u8>, Fail> {
    let mut sig = vec![in alloc; 0u8; signer.sig_len()]?;
    signer.sign(BODY, &mut sig)?;
    Ok(sig)
}

fn is_spent<G: Signer>(alloc: Global, signer: &mut G) -> Result<bool, Fail> {
    let mut sig = vec![in alloc; 0u8; signer.sig_len()]?;
    Ok(signer.sign(BODY, &mut sig).is_err())
}

fn skip_to_last<T: Tally>(signer: &mut T) {
    if signer.used() < signer.total() {
        signer.skip_to(signer.total() - 1);
    }
}

fn is_valid<V: Scheme>(scheme: &V, key: &[u8], sig: &[u8]) -> bool {
    scheme.verify(key, BODY, sig)
}

// Whether the signer's public key, its first signature and its last one begin with these hashes, and the last of `total` spends it.
fn signs(alloc: Global, secret: &Secret, total: u32, marks: [u64; 3]) -> Result<bool, Fail> {
    let mut signer = secret.signer(alloc)?;
    let public = mark(signer.public());
    let first = mark(&sign(alloc, &mut signer)?);
    skip_to_last(&mut signer);
    let last = mark(&sign(alloc, &mut signer)?);
    let counts = [signer.used(), signer.total()];
    let is_spent = is_spent(alloc, &mut signer)?;
    Ok([public, first, last] == marks && counts == [total; 2] && is_spent)
}

// Hashes are those of another program, in Python, for the same secrets and body.
#[test]
fn signers_sign_as_the_other_program_does(rt: HostRuntime) -> Result<(), Fail> {
    for (secret, total, public, first, last) in [
        (
            PLAIN,
            2,
            0x4bb06f8e4e3a7715,
            0x821331f475ab72a5,
            0x821331f475ab72a5,
        ),
        (
            LMS,
            32,
            0x002750d937bb00c9,
            0x4fc95fd6bb561b94,
            0xc478571942480669,
        ),
        (
            HSS,
            1024,
            0x06fae04d68ce750c,
            0xa6d40af11b0785e0,
            0x94683ab19414df0f,
        ),
    ] {
        let marks = [public, first, last];
        assert!(rt; signs(rt.alloc(), &secret, total, marks)?, "{secret:?}");
    }
    Ok(())
}

#[test]
fn a_signature_that_is_taken_back_is_made_again(rt: HostRuntime) -> Result<(), Fail> {
    for secret in [PLAIN, LMS, HSS] {
        let mut signer = secret.signer(rt.alloc())?;
        let first = sign(rt.alloc(), &mut signer)?;
        signer.retract(0);
        assert_eq!(rt; signer.used(), 0, "{secret:?}");
        assert_eq!(rt;
            mark(&sign(rt.alloc(), &mut signer)?),
            mark(&first),
            "{secret:?}"
        );
    }
    Ok(())
}

#[test]
fn a_signature_is_valid_by_its_own_scheme_alone(rt: HostRuntime) -> Result<(), Fail> {
    let schemes = [AnyScheme::Plain, AnyScheme::Lms, AnyScheme::Hss];
    for (secret, own) in [
        (PLAIN, AnyScheme::Plain),
        (LMS, AnyScheme::Lms),
        (HSS, AnyScheme::Hss),
    ] {
        let mut signer = secret.signer(rt.alloc())?;
        let sig = sign(rt.alloc(), &mut signer)?;
        for scheme in schemes {
            assert_eq!(rt;
                is_valid(&scheme, signer.public(), &sig),
                scheme == own,
                "{scheme:?}"
            );
        }
    }
    Ok(())
}

#[test]
fn public_keys_are_those_of_the_signers(rt: HostRuntime) -> Result<(), Fail> {
    let plain = PLAIN.public_key(rt.alloc())?;
    let lms = LMS.public_key(rt.alloc())?;
    assert!(rt; plain == PublicKey::Plain([7; 32]) && plain.as_bytes() == [7; 32].as_slice());
    assert!(rt; lms != plain && lms.as_bytes().len() == 56);
    assert!(rt; mark(lms.as_bytes()) == 0x002750d937bb00c9);
    let hss = HSS.public_key(rt.alloc())?;
    assert!(rt; hss != lms && hss.as_bytes().len() == 60);
    assert!(rt; mark(hss.as_bytes()) == 0x06fae04d68ce750c);
    Ok(())
}

#[test]
fn only_trees_of_three_heights_have_signers(rt: HostRuntime) {
    for height in [0, 4, 8, 9, u32::MAX] {
        let secret = Secret::Lms {
            height,
            ots: OtsType::W1,
            id: [0; 16],
            seed: [0; 32],
        };
        assert!(rt;
            matches!(secret.signer(rt.alloc()), Err(KeyFault::TooTall)),
            "{height}"
        );
        assert!(rt;
            matches!(secret.public_key(rt.alloc()), Err(KeyFault::TooTall)),
            "{height}"
        );
    }
}

// Whether a secret of these levels has a signer and a public key, or neither for this reason. Where there is none, they are not made here.
fn has_signer(
    alloc: Global,
    levels: u32,
    height: u32,
    ots: OtsType,
    fault: Option<KeyFault>,
) -> bool {
    if fault.is_none() {
        return levels_are_built(levels, height, ots);
    }
    let secret = Secret::Hss {
        levels,
        height,
        ots,
        id: [0; 16],
        seed: [0; 32],
    };
    let reported = [secret.signer(alloc).err(), secret.public_key(alloc).err()];
    !levels_are_built(levels, height, ots) && reported == [fault; 2]
}

// Rows with the first reason each, or none; a key of levels that are built is not made here, as some take long.
#[test]
fn only_some_levels_have_signers(rt: HostRuntime) {
    for (levels, height, ots, fault) in [
        (0, 4, OtsType::W1, Some(KeyFault::Levels)),
        (4, 5, OtsType::W8, Some(KeyFault::Levels)),
        (2, 4, OtsType::W1, Some(KeyFault::TooTall)),
        (1, 8, OtsType::W8, Some(KeyFault::TooTall)),
        (3, 7, OtsType::W1, Some(KeyFault::TooTall)),
        (2, 5, OtsType::W1, Some(KeyFault::TooLong)),
        (3, 6, OtsType::W1, Some(KeyFault::TooLong)),
        (1, 7, OtsType::W1, None),
        (2, 7, OtsType::W2, None),
        (3, 6, OtsType::W8, None),
    ] {
        assert!(rt;
            has_signer(rt.alloc(), levels, height, ots, fault),
            "{levels} {height} {ots:?}"
        );
    }
}

#[test]
fn keys_and_seeds_are_not_printed(rt: HostRuntime) -> Result<(), Fail> {
    let plain = format!(in rt.alloc(); "{PLAIN:?}")?;
    let lms = format!(in rt.alloc(); "{LMS:?}")?;
    let hss = format!(in rt.alloc(); "{HSS:?}")?;
    assert_eq!(rt; plain.as_str(), "Plain { total: 2, .. }");
    assert_eq!(rt;
        hss.as_str(),
        "Hss { levels: 2, height: 5, ots: W8, id: [0, 1, 2, 3, 4, 5, 6, 7, 8, 9, 10, 11, 12, 13, 14, 15], .. }"
    );
    assert_eq!(rt;
        lms.as_str(),
        "Lms { height: 5, ots: W1, id: [0, 1, 2, 3, 4, 5, 6, 7, 8, 9, 10, 11, 12, 13, 14, 15], .. }"
    );
    Ok(())
}

#[test]
fn signers_are_printed_without_their_keys(rt: HostRuntime) -> Result<(), Fail> {
    let plain = PLAIN.signer(rt.alloc())?;
    let lms = LMS.signer(rt.alloc())?;
    let hss = HSS.signer(rt.alloc())?;
    let printed = format!(in rt.alloc(); "{plain:?} {lms:?} {hss:?}")?;
    assert_eq!(rt;
        printed.as_str(),
        "Plain(PlainSigner { total: 2, used: 0, .. }) Lms(LmsKey { .. }) Hss(HssKey { .. })"
    );
    Ok(())
}
