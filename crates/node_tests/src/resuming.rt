//! A node that begins by a snapshot.
use crate::data::{AGAIN, BEHIND, HOSTS, KIT, REFUSED, SCRIPT};
use crate::runs::{answered, disk_of, is_answered, joined};
use node_loop::{NoService, resume_host};
use rp_base::{MemSink, MemSource, NoMemory};
use rp_devices::{MemDisk, MemLink};
use std::alloc::Global;
use std::test::Fail;

/// Whether a node that begins by this line on the disk is answered by these texts, and ends so.
fn is_resumed(
    alloc: Global,
    lines: &[u8],
    disk: &mut MemDisk,
    texts: &[&[u8]],
    ended: u8,
) -> Result<bool, NoMemory> {
    let input = joined(alloc, &[KIT, lines])?;
    let mut source = MemSource::new(input, Vec::new(alloc));
    let mut sink = MemSink::new(alloc, Vec::new(alloc));
    let mut link = MemLink::new(alloc, Vec::new(alloc));
    let status = resume_host(
        alloc,
        &mut source,
        &mut sink,
        disk,
        &mut link,
        &mut NoService,
    );
    let reported = joined(alloc, texts)?;
    Ok(status == ended && sink.bytes() == reported.as_slice())
}

/// The line of the snapshot among these lines, with its line feed.
fn snap_in(alloc: Global, text: &[u8]) -> Result<Vec<u8>, NoMemory> {
    let mut line = Vec::new(alloc);
    if let Some(snap) = text
        .split(|b| *b == b'\n')
        .find(|line| line.starts_with(b"snap "))
    {
        line.extend_from_slice(snap)?;
        line.push(b'\n')?;
    }
    Ok(line)
}

/// The script with the line `snap` after its second line.
fn snapped(alloc: Global) -> Result<Vec<u8>, NoMemory> {
    joined(alloc, &[&SCRIPT[..23], b"snap\n", &SCRIPT[23..]])
}

#[test]
fn a_node_goes_on_from_its_snapshot(rt: HostRuntime) -> Result<(), Fail> {
    let alloc = rt.alloc();
    let mut disk = disk_of(alloc, b"")?;
    let mut link = MemLink::new(alloc, Vec::new(alloc));
    let script = snapped(alloc)?;
    let (status, sink) = answered(alloc, &script, &mut disk, &mut link)?;
    assert_eq!(rt; status, 0);
    let line = snap_in(alloc, sink.bytes())?;
    assert!(rt; is_resumed(alloc, &line, &mut disk, &[AGAIN[6]], 0)?);

    // The journal of another life of the node has no byte at the place.
    let mut fresh = disk_of(alloc, b"")?;
    assert!(rt; is_answered(alloc, b"", &mut fresh, &mut link, &[HOSTS], 0)?);
    assert_eq!(rt; fresh.bytes().len(), 61);
    assert!(rt; is_resumed(alloc, &line, &mut fresh, &[b"stop 8 journal 0 287\n"], 8)?);
    Ok(())
}

/// The line after `go` is the fourteenth. No call of the disk is made.
#[test]
fn a_line_of_no_snapshot_is_refused(rt: HostRuntime) -> Result<(), Fail> {
    let alloc = rt.alloc();
    let stop: &[u8] = b"stop 7 snap 14\n";
    for lines in [b"snap 00\n".as_slice(), b"", b"snap", b"0 tick\n"] {
        let mut disk = disk_of(alloc, b"")?;
        assert!(rt; is_resumed(alloc, lines, &mut disk, &[stop], 7)?);
        assert_eq!(rt; disk.calls(), 0);
    }
    Ok(())
}

/// What comes before the place is hashed, and not read.
#[test]
fn a_node_begins_behind_an_entry_that_is_refused(rt: HostRuntime) -> Result<(), Fail> {
    let alloc = rt.alloc();
    let mut disk = disk_of(alloc, REFUSED)?;
    let mut link = MemLink::new(alloc, Vec::new(alloc));
    assert!(rt;
        is_answered(
            alloc,
            b"",
            &mut disk,
            &mut link,
            &[b"stop 8 journal 0 60\n"],
            8
        )?
    );
    let texts: [&[u8]; 1] = [
        b"host 0 view 0 delivered 0 entries 7\nhost 1 view 0 delivered 0 entries 0\n",
    ];
    assert!(rt; is_resumed(alloc, BEHIND, &mut disk, &texts, 0)?);
    Ok(())
}
