//! An append stopped at each call of its disk, with three images each.
use journal_disk::append;
use rp_devices::{Left, MemDisk};
use std::alloc::Global;
use std::process::Abort;
use std::test::Fail;

const GATE: usize = 60;

// The length of a tick of process 0 that signed nothing, the entry, and the next gate.
const TICK: [u8; 10] = [0, 0, 0, 5, 0, 9, 0, 0, 0, 0];

// A journal at rest without entries, on a disk that stops at this call.
fn stopping(rt: &impl Abort, alloc: Global, call: u64) -> Result<MemDisk, Fail> {
    let bytes = [0; 61].to_vec(alloc)?;
    let mut disk = MemDisk::new(alloc, bytes, Vec::new(alloc))
        .ok()
        .expect(rt, "memory");
    disk.stop_at(call);
    Ok(disk)
}

// Whether the image is the journal without the entry, and whether it is the journal with it.
fn stands(image: &[u8]) -> (bool, bool) {
    let whole = image.len() >= 71 && &image[61..71] == TICK.as_slice();
    let gate = image.get(GATE).copied().unwrap_or(0);
    (image.len() >= 61 && gate != 1, whole && gate == 1)
}

fn image_of(rt: &impl Abort, disk: &MemDisk, left: Left) -> (bool, bool) {
    let image = disk.image(left).ok().expect(rt, "memory");
    stands(image.as_slice())
}

// The images that have nothing of the last writes, all of them, and other bytes.
fn images(rt: &impl Abort, disk: &MemDisk) -> [(bool, bool); 3] {
    [Left::Nothing, Left::All, Left::Each(0xa5)].map(|left| image_of(rt, disk, left))
}

#[test]
fn stopped_at_the_first_write_or_sync_the_entry_is_absent(rt: HostRuntime) -> Result<(), Fail> {
    for call in 0..2 {
        let mut disk = stopping(&rt, rt.alloc(), call)?;
        assert!(rt; disk.bytes().len() == 61);
        assert!(rt; append(&mut disk, 60, &TICK).is_err());
        assert!(rt; disk.log().len() == 1);
        assert!(rt; images(&rt, &disk) == [(true, false); 3]);
    }
    Ok(())
}

#[test]
fn stopped_at_the_second_it_is_absent_or_whole(rt: HostRuntime) -> Result<(), Fail> {
    for call in 2..4 {
        let mut disk = stopping(&rt, rt.alloc(), call)?;
        assert!(rt; disk.bytes().len() == 61);
        assert!(rt; append(&mut disk, 60, &TICK).is_err());
        assert!(rt; images(&rt, &disk) == [(true, false), (false, true), (true, false)]);
    }
    Ok(())
}

#[test]
fn then_it_is_whole(rt: HostRuntime) -> Result<(), Fail> {
    let mut disk = stopping(&rt, rt.alloc(), 4)?;
    assert!(rt; disk.bytes().len() == 61);
    assert!(rt; append(&mut disk, 60, &TICK).is_ok());
    assert!(rt; disk.calls() == 4);
    assert!(rt; image_of(&rt, &disk, Left::Nothing) == (false, true));
    assert!(rt; image_of(&rt, &disk, Left::Each(0xa5)) == (false, true));
    Ok(())
}
