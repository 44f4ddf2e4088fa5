//! What a kit gives the processes that it hosts. Kit and datagrams are another program's, in Python.
use auth_link::{LinkKeys, unseal};
use kit_reading::read_kit;
use node_keys::{link_keys, port_of, roster_of, signer_of};
use rp_base::{Pid, Tally};
use std::test::Fail;

// Process 1 is hosted elsewhere.
const KIT: &[u8] = b"rampart kit 1
scheme plain
group 6f289d5b5aa425dc2f365877e4cf8595
key 0 2dd447ac7305bc84b2dc0da0fe9411f33e1af724d30036daa8b9c930ce8b3722
key 1 00d30be9d2cd77737e2bbd0d7678b8b6c35b2fa04810456308028c71958103a5
key 2 507aa84610ebd0cb3754ee593d0514612015e4cd006506e3282581f9b0b83331
genesis 0 1
port 0 47000
port 1 47001
port 2 47002
host 0 plain 100
pair 0 1 e5d93ab81fbaf5647142a212f6fec7a66fc65a8250045aaf87c78aa3de95e3e9
pair 0 2 40641e44bcb9284630967045be08bd3abccbdbf09b4497667058aa8b1537da6b
host 2 plain 7
pair 2 0 40641e44bcb9284630967045be08bd3abccbdbf09b4497667058aa8b1537da6b
pair 2 1 7963274e20ac613d8594bbb76cafc3ae8000e57689a2d909a6e176bf95f08b89
";

// The frame `hi`, from one process to another.

const ONE_TO_ZERO: [u8; 56] = [
    0x52, 0x50, 0x44, 0x31, 0x6f, 0x28, 0x9d, 0x5b, 0x5a, 0xa4, 0x25, 0xdc, 0x2f, 0x36, 0x58, 0x77,
    0xe4, 0xcf, 0x85, 0x95, 0x01, 0x00, 0x68, 0x69, 0x96, 0xc1, 0x05, 0xd4, 0x7c, 0xdb, 0x99, 0x0d,
    0x15, 0x8a, 0x78, 0x98, 0xf1, 0x70, 0xb2, 0x37, 0x8a, 0x4f, 0x0a, 0x41, 0xc4, 0x4f, 0x41, 0x1f,
    0xab, 0xf4, 0xe7, 0x09, 0xe4, 0x8b, 0x97, 0x7b,
];

const TWO_TO_ZERO: [u8; 56] = [
    0x52, 0x50, 0x44, 0x31, 0x6f, 0x28, 0x9d, 0x5b, 0x5a, 0xa4, 0x25, 0xdc, 0x2f, 0x36, 0x58, 0x77,
    0xe4, 0xcf, 0x85, 0x95, 0x02, 0x00, 0x68, 0x69, 0xde, 0xee, 0x4a, 0x39, 0x89, 0xc4, 0x4f, 0x8c,
    0x30, 0x8f, 0x67, 0x81, 0x82, 0x84, 0x7b, 0x8c, 0xcc, 0xc7, 0xa5, 0x2a, 0x25, 0x99, 0x86, 0x1b,
    0xc4, 0xc0, 0xe7, 0x22, 0xf6, 0x24, 0x09, 0x8d,
];

const ONE_TO_TWO: [u8; 56] = [
    0x52, 0x50, 0x44, 0x31, 0x6f, 0x28, 0x9d, 0x5b, 0x5a, 0xa4, 0x25, 0xdc, 0x2f, 0x36, 0x58, 0x77,
    0xe4, 0xcf, 0x85, 0x95, 0x01, 0x02, 0x68, 0x69, 0xcb, 0xd5, 0x78, 0x52, 0x94, 0x40, 0x38, 0x6b,
    0xb8, 0xea, 0xa8, 0xfc, 0xa3, 0x27, 0x71, 0x67, 0x15, 0x96, 0x33, 0xd6, 0x82, 0xe8, 0xee, 0x42,
    0xa9, 0x21, 0x5b, 0x56, 0x0b, 0x39, 0x22, 0xa9,
];

fn pid(n: u8) -> Result<Pid, &'static str> {
    Pid::new(n).ok_or("a number above 63")
}

// Who sent the datagram.
fn sender(keys: &LinkKeys, datagram: &[u8]) -> Option<u8> {
    match unseal(keys, datagram) {
        Ok(opened) => Some(opened.from.get()),
        Err(_) => None,
    }
}

#[test]
fn hosted_processes_open_what_others_sealed(rt: HostRuntime) -> Result<(), Fail> {
    let kit = read_kit(rt.alloc(), KIT)?;
    let zero = link_keys(&kit, pid(0)?);
    let two = link_keys(&kit, pid(2)?);
    let opened = [
        sender(&zero, &ONE_TO_ZERO),
        sender(&zero, &TWO_TO_ZERO),
        sender(&two, &ONE_TO_TWO),
        sender(&two, &TWO_TO_ZERO),
    ];
    assert!(rt; opened == [Some(1), Some(2), Some(1), None]);
    Ok(())
}

#[test]
fn a_process_that_is_not_hosted_has_no_key(rt: HostRuntime) -> Result<(), Fail> {
    let kit = read_kit(rt.alloc(), KIT)?;
    let one = link_keys(&kit, pid(1)?);
    let mut to_one = TWO_TO_ZERO;
    to_one[21] = 1;
    assert_eq!(rt; sender(&one, &to_one), None);
    Ok(())
}

#[test]
fn a_hosted_process_has_port_and_signer(rt: HostRuntime) -> Result<(), Fail> {
    let kit = read_kit(rt.alloc(), KIT)?;
    let two = pid(2)?;
    assert!(rt; kit.hosted().contains(two));
    let signer = signer_of(rt.alloc(), &kit, two)?;
    assert_eq!(rt; port_of(&kit, two), 47_002);
    assert_eq!(rt; signer.total(), 7);
    Ok(())
}

#[test]
fn the_roster_is_the_kits(rt: HostRuntime) -> Result<(), Fail> {
    let kit = read_kit(rt.alloc(), KIT)?;
    let roster = roster_of(rt.alloc(), &kit)?;
    assert_eq!(rt; roster.processes().mask(), 7);
    assert_eq!(rt; roster.key(pid(1)?), kit.roster().key(pid(1)?));
    Ok(())
}
