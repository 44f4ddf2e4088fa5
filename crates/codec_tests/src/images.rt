use member_events::{Claim, Statement};
use rp_base::Pid;
use snapshot_rp::{Image, KeptClaim, SnapshotFault, Version, read_snapshot, write_snapshot};
use std::process::Abort;
use std::test::Fail;

// One image in both versions, by another program, in Python. Process 3 left view 0; it halted in view 1.

const FIRST: [u8; 147] = [
    3, 0, 1, 0, 3, 0, 0, 1, 0, 0, 0, 1, 3, 0, 8, 11, 0, 0, 0, 3, 0, 0, 1, 0, 1, 7, 0, 0, 0, 2, 0,
    0, 1, 2, 0, 1, 3, 0, 0, 0, 0, 2, 0, 2, 97, 98, 0, 0, 0, 0, 0, 1, 3, 0, 8, 1, 0, 0, 0, 0, 0, 1,
    97, 0, 2, 1, 2, 0, 0, 0, 0, 0, 0, 0, 1, 2, 0, 12, 12, 0, 1, 0, 0, 2, 2, 0, 0, 3, 0, 0, 0, 1, 5,
    1, 1, 0, 5, 7, 0, 0, 0, 1, 0, 0, 1, 0, 5, 7, 0, 0, 0, 2, 0, 1, 9, 0, 0, 0, 1, 3, 0, 0, 0, 1,
    97, 0, 0, 0, 2, 2, 0, 0, 0, 0, 3, 0, 1, 0, 1, 98, 1, 0, 2, 9, 0, 1, 1,
];

const SECOND: [u8; 153] = [
    3, 0, 1, 0, 3, 0, 0, 1, 0, 0, 0, 1, 3, 0, 8, 11, 0, 0, 0, 3, 0, 0, 1, 0, 1, 7, 0, 0, 0, 2, 0,
    0, 1, 2, 0, 1, 3, 0, 0, 0, 0, 2, 0, 2, 97, 98, 0, 0, 0, 0, 0, 1, 3, 0, 8, 1, 0, 0, 0, 0, 0, 1,
    97, 0, 2, 1, 2, 0, 0, 0, 0, 0, 0, 0, 1, 2, 0, 12, 12, 0, 1, 0, 0, 2, 2, 0, 0, 3, 0, 0, 0, 1, 5,
    1, 1, 0, 5, 7, 0, 0, 0, 1, 0, 0, 1, 0, 5, 7, 0, 0, 0, 2, 0, 1, 9, 0, 0, 0, 1, 0, 0, 3, 0, 0, 0,
    1, 97, 0, 0, 0, 2, 0, 0, 2, 0, 0, 0, 0, 0, 1, 3, 0, 1, 0, 1, 98, 1, 0, 2, 9, 0, 1, 1,
];

fn has_its_lists(image: &Image) -> bool {
    [
        image.left.len(),
        image.perceived.len(),
        image.accepted.len(),
        image.signed.len(),
        image.previous.len(),
        image.heard.len(),
        image.conflicts.len(),
        image.delivered.len(),
    ] == [1, 2, 2, 1, 0, 1, 1, 2]
}

#[test]
fn an_image_of_either_version_is_read_and_written(rt: HostRuntime) -> Result<(), Fail> {
    for (version, bytes) in [
        (Version::One, FIRST.as_slice()),
        (Version::Two, SECOND.as_slice()),
    ] {
        let Ok(image) = read_snapshot(rt.alloc(), version, bytes) else {
            assert!(rt; false, "no image");
            return Ok(());
        };
        assert!(rt; has_its_lists(&image));
        assert!(rt; image.me.get() == 3 && image.halted);
        let mut out = Vec::new(rt.alloc());
        out.push(255)?;
        assert!(rt; write_snapshot(&image, &mut out).is_ok());
        assert!(rt; out[0] == 255 && &out[1..] == SECOND.as_slice());
    }
    Ok(())
}

// Where the fault is with this byte in place of another.
fn fault_with(rt: &HostRuntime, at: usize, byte: u8) -> Option<SnapshotFault> {
    let mut bytes = SECOND;
    for (place, it) in bytes.iter_mut().enumerate() {
        if place == at {
            *it = byte;
        }
    }
    read_snapshot(rt.alloc(), Version::Two, &bytes).err()
}

#[test]
fn each_fault_has_its_place(rt: HostRuntime) {
    // a byte, what it is set to, and where the fault is
    for (at, byte, place) in [
        (0, 64, 0),
        (4, 16, 4),
        (12, 64, 12),
        (15, 15, 15),
        (30, 9, 30),
        (31, 2, 26),
        (76, 255, 78),
        (93, 65, 93),
        (103, 64, 104),
        (152, 2, 152),
    ] {
        assert_eq!(rt;
            fault_with(&rt, at, byte),
            Some(SnapshotFault::Image(place)),
            "byte {at}"
        );
    }
    let behind = read_snapshot(rt.alloc(), Version::One, &SECOND).err();
    assert_eq!(rt; behind, Some(SnapshotFault::Image(145)));
}

#[test]
fn a_claim_is_kept_and_lent(rt: HostRuntime) -> Result<(), Fail> {
    let claim = Claim {
        signer: Pid::new(5).expect(&rt, "a process"),
        statement: Statement::End { view: 1, length: 2 },
        signature: &[7, 8],
    };
    let kept = KeptClaim::new(rt.alloc(), &claim)?;
    assert!(rt; kept.signer() == claim.signer);
    assert!(rt; kept.claim().statement == claim.statement);
    assert!(rt; kept.claim().signature == claim.signature);
    Ok(())
}

#[test]
fn faults_are_reported(rt: HostRuntime) -> Result<(), Fail> {
    let reported = format!(in rt.alloc();
        "{}, {}",
        SnapshotFault::Image(7),
        SnapshotFault::NoMemory
    )?;
    assert!(rt; reported.as_str() == "no image: the fault is at byte 7, out of memory");
    Ok(())
}
