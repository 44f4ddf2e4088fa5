//! Tags of RFC 4231 (section 4), and what `unseal` says of a datagram.
ghost use Rattle.std.specs.Prelude.{◌≡◌, ◌<◌};

use auth_link::{LinkFault, LinkKeys, hmac, seal_into, unseal};
use rp_base::{GroupId, Pid};
use std::test::Fail;

#[test]
fn a_key_of_20_bytes(rt: HostRuntime) {
    let tag = hmac(&[0x0b; 20], &*b"Hi There");
    let expected = [
        0xb0, 0x34, 0x4c, 0x61, 0xd8, 0xdb, 0x38, 0x53, 0x5c, 0xa8, 0xaf, 0xce, 0xaf, 0x0b, 0xf1,
        0x2b, 0x88, 0x1d, 0xc2, 0x00, 0xc9, 0x83, 0x3d, 0xa7, 0x26, 0xe9, 0x37, 0x6c, 0x2e, 0x32,
        0xcf, 0xf7,
    ];
    assert!(rt; tag == expected);
}

#[test]
fn a_key_shorter_than_a_tag(rt: HostRuntime) {
    let tag = hmac(&*b"Jefe", &*b"what do ya want for nothing?");
    let expected = [
        0x5b, 0xdc, 0xc1, 0x46, 0xbf, 0x60, 0x75, 0x4e, 0x6a, 0x04, 0x24, 0x26, 0x08, 0x95, 0x75,
        0xc7, 0x5a, 0x00, 0x3f, 0x08, 0x9d, 0x27, 0x39, 0x83, 0x9d, 0xec, 0x58, 0xb9, 0x64, 0xec,
        0x38, 0x43,
    ];
    assert!(rt; tag == expected);
}

#[test]
fn a_message_longer_than_a_block_with_its_key(rt: HostRuntime) {
    let tag = hmac(&[0xaa; 20], &[0xdd; 50]);
    let expected = [
        0x77, 0x3e, 0xa9, 0x1e, 0x36, 0x80, 0x0e, 0x46, 0x85, 0x4d, 0xb8, 0xeb, 0xd0, 0x91, 0x81,
        0xa7, 0x29, 0x59, 0x09, 0x8b, 0x3e, 0xf8, 0xc1, 0x22, 0xd9, 0x63, 0x55, 0x14, 0xce, 0xd5,
        0x65, 0xfe,
    ];
    assert!(rt; tag == expected);
}

#[test]
fn a_key_of_25_bytes(rt: HostRuntime) {
    let tag = hmac(
        &[
            1, 2, 3, 4, 5, 6, 7, 8, 9, 10, 11, 12, 13, 14, 15, 16, 17, 18, 19, 20, 21, 22, 23, 24,
            25,
        ],
        &[0xcd; 50],
    );
    let expected = [
        0x82, 0x55, 0x8a, 0x38, 0x9a, 0x44, 0x3c, 0x0e, 0xa4, 0xcc, 0x81, 0x98, 0x99, 0xf2, 0x08,
        0x3a, 0x85, 0xf0, 0xfa, 0xa3, 0xe5, 0x78, 0xf8, 0x07, 0x7a, 0x2e, 0x3f, 0xf4, 0x67, 0x29,
        0x66, 0x5b,
    ];
    assert!(rt; tag == expected);
}

#[test]
fn a_key_longer_than_a_block(rt: HostRuntime) {
    let tag = hmac(
        &[0xaa; 131],
        &*b"Test Using Larger Than Block-Size Key - Hash Key First",
    );
    let expected = [
        0x60, 0xe4, 0x31, 0x59, 0x1e, 0xe0, 0xb6, 0x7f, 0x0d, 0x8a, 0x26, 0xaa, 0xcb, 0xf5, 0xb7,
        0x7f, 0x8e, 0x0b, 0xc6, 0x21, 0x37, 0x28, 0xc5, 0x14, 0x05, 0x46, 0x04, 0x0f, 0x0e, 0xe3,
        0x7f, 0x54,
    ];
    assert!(rt; tag == expected);
}

#[test]
fn a_long_key_and_a_long_message(rt: HostRuntime) {
    let tag = hmac(
        &[0xaa; 131],
        &*b"This is a test using a larger than block-size key and a larger than block-size data. The key needs to be hashed before being used by the HMAC algorithm.",
    );
    let expected = [
        0x9b, 0x09, 0xff, 0xa7, 0x1b, 0x94, 0x2f, 0xcb, 0x27, 0x63, 0x5f, 0xbc, 0xd5, 0xb0, 0xe9,
        0x44, 0xbf, 0xdc, 0x63, 0x64, 0x4f, 0x07, 0x13, 0x93, 0x8a, 0x7f, 0x51, 0x53, 0x5c, 0x3a,
        0x35, 0xe2,
    ];
    assert!(rt; tag == expected);
}

fn group() -> GroupId {
    GroupId([0, 1, 2, 3, 4, 5, 6, 7, 8, 9, 10, 11, 12, 13, 14, 15])
}

fn pid(n: u8) -> Pid
    requires { n < 64 }
    ensures { result ≡ n }
{
    match Pid::new(n) {
        Some(p) => p,
        None => unreachable!(),
    }
}

// Process 2, which shares a key with process 1.
fn receiver() -> LinkKeys {
    let mut keys = LinkKeys::new(pid(2), group());
    let peer = pid(1);
    keys.add(peer, &[7; 32]);
    keys
}

// The datagram of an empty frame from process 1 to process 2, made by another implementation of HMAC.
const EMPTY: [u8; 54] = [
    0x52, 0x50, 0x44, 0x31, 0x00, 0x01, 0x02, 0x03, 0x04, 0x05, 0x06, 0x07, 0x08, 0x09, 0x0a, 0x0b,
    0x0c, 0x0d, 0x0e, 0x0f, 0x01, 0x02, 0xa4, 0xef, 0x06, 0x4a, 0xdf, 0x36, 0xe6, 0x3b, 0xf5, 0x8e,
    0x4c, 0x2a, 0x2b, 0xb1, 0x48, 0x02, 0xc0, 0x17, 0xad, 0x19, 0x29, 0x9b, 0x51, 0xfa, 0x35, 0x02,
    0xb0, 0x77, 0x19, 0x40, 0xdc, 0x0f,
];

// The same with the frame `hi`.
const HI: [u8; 56] = [
    0x52, 0x50, 0x44, 0x31, 0x00, 0x01, 0x02, 0x03, 0x04, 0x05, 0x06, 0x07, 0x08, 0x09, 0x0a, 0x0b,
    0x0c, 0x0d, 0x0e, 0x0f, 0x01, 0x02, 0x68, 0x69, 0x30, 0xc3, 0x72, 0x18, 0xd3, 0x7d, 0xef, 0x15,
    0xab, 0xc4, 0x65, 0x30, 0x8e, 0x29, 0xf8, 0x98, 0x52, 0xd6, 0x0d, 0x56, 0xe6, 0x05, 0xd7, 0xf7,
    0xd9, 0x4a, 0xc8, 0x17, 0x97, 0xe9, 0xf9, 0xec,
];

#[test]
fn an_empty_frame_is_opened(rt: HostRuntime) {
    let keys = receiver();
    match unseal(&keys, &EMPTY) {
        Ok(opened) => {
            assert!(rt; opened.from == pid(1));
            assert!(rt; opened.frame.is_empty());
        }
        Err(_) => assert!(rt; false),
    }
}

#[test]
fn a_frame_is_sealed_as_elsewhere(rt: HostRuntime) {
    let mut keys = LinkKeys::new(pid(1), group());
    let peer = pid(2);
    keys.add(peer, &[7; 32]);
    let mut out = [0; 60];
    let len = seal_into(&keys, peer, b"hi", &mut out);
    assert!(rt; &out[..len] == HI.as_slice());
    assert!(rt; &out[56..] == [0; 4].as_slice());
}

fn fault_of(keys: &LinkKeys, datagram: &[u8]) -> Option<LinkFault> {
    match unseal(keys, datagram) {
        Ok(_) => None,
        Err(fault) => Some(fault),
    }
}

#[test]
fn each_fault_is_the_first(rt: HostRuntime) {
    let keys = receiver();
    let mut changed = HI;
    changed[55] ^= 1;
    let mut stranger = changed;
    stranger[20] = 3;
    let mut no_process = stranger;
    no_process[20] = 200;
    let mut not_for_me = no_process;
    not_for_me[21] = 1;
    let mut other_group = not_for_me;
    other_group[19] = 0;
    let mut magic = other_group;
    magic[3] = 0x32;
    for (datagram, fault) in [
        (&EMPTY[..53], LinkFault::Short),
        (&changed, LinkFault::BadTag),
        (&stranger, LinkFault::UnknownPeer),
        (&no_process, LinkFault::UnknownPeer),
        (&not_for_me, LinkFault::NotForMe),
        (&other_group, LinkFault::OtherGroup),
        (&magic, LinkFault::Magic),
    ] {
        assert!(rt; fault_of(&keys, datagram) == Some(fault), "{datagram:?}");
    }
}

#[test]
fn link_keys_are_printed_without_the_keys(rt: HostRuntime) -> Result<(), Fail> {
    let keys = receiver();
    let printed = format!(in rt.alloc(); "{keys:?}")?;
    assert_eq!(rt;
        printed.as_str(),
        "LinkKeys { me: Pid(2), group: GroupId([0, 1, 2, 3, 4, 5, 6, 7, 8, 9, 10, 11, 12, 13, 14, 15]), .. }"
    );
    Ok(())
}
