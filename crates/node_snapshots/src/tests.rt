use crate::data::{DIGEST, IMAGES, JOURNAL, KIT, LINE, PLACE};
use crate::{Part, snap};
use journal_rp::{Header, Journal, Reading};
use kit_reading::read_kit;
use rp_devices::MemDisk;
use snapshot_rp::{Version, read_snapshot};
use std::alloc::Global;
use std::process::Abort;
use std::test::Fail;
use text_codec::byte_list;

fn bytes_of(rt: &impl Abort, alloc: Global, word: &[u8]) -> Vec<u8> {
    let Ok(bytes) = byte_list(alloc, word) else {
        panic!(rt; "hexadecimal");
    };
    bytes
}

fn part_of(rt: &impl Abort, alloc: Global, entries: u64, word: &[u8]) -> Part {
    let bytes = bytes_of(rt, alloc, word);
    let Ok(image) = read_snapshot(alloc, Version::Two, bytes.as_slice()) else {
        panic!(rt; "an image");
    };
    Part { entries, image }
}

#[test]
fn a_node_writes_the_line_that_another_does(rt: HostRuntime) -> Result<(), Fail> {
    let Ok(kit) = read_kit(rt.alloc(), KIT) else {
        panic!(rt; "a kit");
    };
    let bytes = bytes_of(&rt, rt.alloc(), JOURNAL);
    let Ok(mut disk) = MemDisk::new(rt.alloc(), bytes, Vec::new(rt.alloc())) else {
        panic!(rt; "a disk");
    };
    let header = Header {
        group: kit.group(),
        hosted: kit.hosted(),
        digest: kit.digest(),
    };
    let Ok(mut journal) = Journal::<Reading>::start(&mut disk, &header) else {
        panic!(rt; "a journal");
    };
    assert!(rt; journal.skip(&mut disk, PLACE, &DIGEST).is_ok());
    let Ok(None) = journal.read(rt.alloc(), &mut disk) else {
        panic!(rt; "no entry");
    };
    let Ok(mut journal) = journal.finish(&mut disk) else {
        panic!(rt; "a finished journal");
    };
    let mut parts = Vec::new(rt.alloc());
    parts.push(part_of(&rt, rt.alloc(), 3, IMAGES[0]))?;
    parts.push(part_of(&rt, rt.alloc(), 3, IMAGES[1]))?;
    let Ok(line) = snap(rt.alloc(), &kit, &parts, &mut journal, &mut disk) else {
        panic!(rt; "a line");
    };
    assert!(rt; line.as_slice() == LINE);
    Ok(())
}
