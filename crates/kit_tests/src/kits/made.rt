use kit_file::write_kit;
use kit_making::{KeyPlan, make_kit};
use sha2::{Digest, Sha256};
use sig_scheme::OtsType;
use std::test::Fail;

const SEED: [u8; 32] = [
    0, 1, 2, 3, 4, 5, 6, 7, 8, 9, 10, 11, 12, 13, 14, 15, 16, 17, 18, 19, 20, 21, 22, 23, 24, 25,
    26, 27, 28, 29, 30, 31,
];

// What another program, in Python, writes for one member of two processes with plain keys for 7 signatures, and this seed.
const PLAIN: &[u8] = b"rampart kit 1
scheme plain
group 8303ca4d81d97afed6931bd5391d7eb0
key 0 3427359e9e727deb642976176fede3de0e5cb7af24fca3d2ddec8c3c5663fe09
key 1 7e9344677ed099c935bbbc976be09051ea5cce1f353d88a9a04617026201d83f
genesis 0
port 0 47000
port 1 47001
host 0 plain 7
pair 0 1 5855ee5121fe557457f8e9e9fd737e34751991ec45348663fd50cfeca1ea1b21
host 1 plain 7
pair 1 0 5855ee5121fe557457f8e9e9fd737e34751991ec45348663fd50cfeca1ea1b21
";

// The number that the hash of these bytes begins with.
fn mark(bytes: &[u8]) -> u64 {
    number(&Sha256::digest(bytes))
}

fn number(hash: &[u8; 32]) -> u64 {
    u64::from_be_bytes([
        hash[0], hash[1], hash[2], hash[3], hash[4], hash[5], hash[6], hash[7],
    ])
}

#[test]
fn a_plain_kit_is_written_as_the_other_program_does(rt: HostRuntime) -> Result<(), Fail> {
    let kit = make_kit(rt.alloc(), 1, 2, KeyPlan::Plain(7), &SEED)?;
    let mut text = Vec::new(rt.alloc());
    write_kit(&kit, &mut text)?;
    assert_eq!(rt; text.as_slice(), PLAIN);
    Ok(())
}

// Hashes are those of the other program, for one member of two processes with LMS keys of typecodes 5 and 4.
#[test]
fn a_kit_of_trees_is_written_as_the_other_program_does(rt: HostRuntime) -> Result<(), Fail> {
    let kit = make_kit(rt.alloc(), 1, 2, KeyPlan::Lms(5, OtsType::W8), &SEED)?;
    let mut text = Vec::new(rt.alloc());
    write_kit(&kit, &mut text)?;
    assert_eq!(rt; text.iter().filter(|c| **c == b'\n').count(), 12);
    assert_eq!(rt; mark(&text), 0x3c1b29ff42177b36);
    assert_eq!(rt; number(&kit.digest()), 0x5a41605d0b0212fc);
    Ok(())
}

// Hashes are those of the other program, for one member of two processes with keys of two levels of typecodes 5 and 4.
#[test]
fn a_kit_of_levels_is_written_as_the_other_program_does(rt: HostRuntime) -> Result<(), Fail> {
    let kit = make_kit(rt.alloc(), 1, 2, KeyPlan::Hss(2, 5, OtsType::W8), &SEED)?;
    let mut text = Vec::new(rt.alloc());
    write_kit(&kit, &mut text)?;
    assert_eq!(rt; text.iter().filter(|c| **c == b'\n').count(), 12);
    assert_eq!(rt; mark(&text), 0xff3e67e8b8b84c92);
    assert_eq!(rt; number(&kit.digest()), 0x060f2d8c88d3ac76);
    Ok(())
}

#[test]
fn a_kit_is_shown_without_its_secrets(rt: HostRuntime) -> Result<(), Fail> {
    let kit = make_kit(rt.alloc(), 1, 2, KeyPlan::Plain(7), &SEED)?;
    let shown = format!(in rt.alloc(); "{kit:?}")?;
    assert_eq!(rt;
        shown.as_str(),
        "Kit { scheme: Plain, group: GroupId([131, 3, 202, 77, 129, 217, 122, 254, 214, 147, 27, 213, 57, 29, 126, 176]), genesis: [Pid(0)], .. }"
    );
    Ok(())
}
