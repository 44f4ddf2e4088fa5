//! The word `resume` over streams, a disk and a link in memory. Kits, snapshots, journals and answers were made by another program.
use crate::rampart_calls::asked;
use rampart_cli::rampart;
use rp_base::{MemSink, MemSource, NoMemory};
use rp_devices::{Left, MemDisk, MemLink};
use std::alloc::Global;
use std::test::Fail;

/// A kit of two processes, both members and both hosted. It has 13 lines.
const KIT: &[u8] = b"rampart kit 1
scheme plain
group 6f289d5b5aa425dc2f365877e4cf8595
key 0 2dd447ac7305bc84b2dc0da0fe9411f33e1af724d30036daa8b9c930ce8b3722
key 1 00d30be9d2cd77737e2bbd0d7678b8b6c35b2fa04810456308028c71958103a5
genesis 0 1
port 0 47000
port 1 47001
host 0 plain 100
pair 0 1 e5d93ab81fbaf5647142a212f6fec7a66fc65a8250045aaf87c78aa3de95e3e9
host 1 plain 100
pair 1 0 e5d93ab81fbaf5647142a212f6fec7a66fc65a8250045aaf87c78aa3de95e3e9
go
";

/// Process 0 submits two bytes, and process 1 receives them;
const FIRST: &[u8] = b"0 submit 6869\n1 recv 8\n";

/// and at last both have delivered them.
const REST: &[u8] = b"0 recv 8\n1 recv 8\n0 recv 8\n1 recv 8\n";

/// What the node says of these lines, up to the snapshot between them, and after it.
const SAID: [&[u8]; 2] = [
    b"host 0 view 0 delivered 0 entries 0\nhost 1 view 0 delivered 0 entries 0\nrecv 1 1\n",
    b"recv 0 1\nrecv 1 1\ndeliver 0 0 0 0 0 6869\nrecv 0 1\ndeliver 1 0 0 0 0 6869\nrecv 1 1\n",
];

/// How it begins then.
const AGAIN: &[u8] = b"host 0 view 0 delivered 1 entries 3\nhost 1 view 0 delivered 1 entries 3\n";

/// The line of its snapshot after the first two lines, at place 287.
const SNAP: &[u8] =
    b"snap 52504e326f289d5b5aa425dc2f365877e4cf8595000000000000000390bfcb0f0fe0dac819cccb817ca6c26c17fbefebfe48540ca\
    3ee9d3b81749767000000000000011f69d60211bb16b913ac8dcbedd56495ea2082f4f300c08324cc6917fd37b6e481000000000000000\
    1000000dc00000000000000000000010002686900000002000009010000000000026869002062707711494183e4dfb8f8afde1281e6722\
    c5d3a7f3d13af58e73f7649bd811700000a02000000000000026869002004de2f7a6a2aedf287e2a075d769cfd6cef9ce2fc1b7fecb8c0\
    97cb074e75e750000000000000002000009010000000000026869002062707711494183e4dfb8f8afde1281e6722c5d3a7f3d13af58e73\
    f7649bd811700000a02000000000000026869002004de2f7a6a2aedf287e2a075d769cfd6cef9ce2fc1b7fecb8c097cb074e75e7500000\
    0000000000000000000000001000000d901000000000000000000000000000101000a020000000000000268690020b8ca2526d01d20e89\
    9ec835a690edd01a6d579cb5f9639fff4086cd83043e95e0000000000000003000009010000000000026869002062707711494183e4dfb\
    8f8afde1281e6722c5d3a7f3d13af58e73f7649bd811700000a02000000000000026869002004de2f7a6a2aedf287e2a075d769cfd6cef\
    9ce2fc1b7fecb8c097cb074e75e7501000a020000000000000268690020b8ca2526d01d20e899ec835a690edd01a6d579cb5f9639fff40\
    86cd83043e95e00000000000000\n";

/// A header of the kit's journals after its magic, and then an entry of one byte that is none of any process.
const REFUSED: &[u8] = b"\
    \x6f\x28\x9d\x5b\x5a\xa4\x25\xdc\x2f\x36\x58\x77\xe4\xcf\x85\x95\x00\x00\x00\x00\x00\x00\x00\x03\x90\xbf\xcb\x0f\
    \x0f\xe0\xda\xc8\x19\xcc\xcb\x81\x7c\xa6\xc2\x6c\x17\xfb\xef\xeb\xfe\x48\x54\x0c\xa3\xee\x9d\x3b\x81\x74\x97\x67\
    \x01\x00\x00\x00\x01\xff\x00";

/// The processes before their first event, at place 66 of a journal with the older magic, of which process 0 has 7 entries.
const OF_VERSION_1: &[u8] =
    b"snap 52504e316f289d5b5aa425dc2f365877e4cf8595000000000000000390bfcb0f0fe0dac819cccb817ca6c26c17fbefebfe48540ca\
    3ee9d3b817497670000000000000042eb7a4117832263aaba59fc550b8723cb19e1da89c4e93d3e0ba99d6fe3a2c8cc000000000000000\
    70000001e00000000000000000000000000000000000000000000000000000000000000000000000000000000001e01000000000000000\
    0000000000000000000000000000000000000000000\n";

/// The same of a journal with the newer magic.
const OF_VERSION_2: &[u8] =
    b"snap 52504e326f289d5b5aa425dc2f365877e4cf8595000000000000000390bfcb0f0fe0dac819cccb817ca6c26c17fbefebfe48540ca\
    3ee9d3b8174976700000000000000424e4da232ca0173ba47e0578da4ba56032811660db1d1f16ce6b356884152974a000000000000000\
    70000001e00000000000000000000000000000000000000000000000000000000000000000000000000000000001e01000000000000000\
    0000000000000000000000000000000000000000000\n";

/// How a node begins from these.
const AFTER_REFUSED: &[u8] =
    b"host 0 view 0 delivered 0 entries 7\nhost 1 view 0 delivered 0 entries 0\n";

/// A disk with these bytes, whose calls don't fail.
fn disk_of(alloc: Global, bytes: &[u8]) -> Result<MemDisk, NoMemory> {
    MemDisk::new(alloc, bytes.to_vec(alloc)?, Vec::new(alloc))
}

/// The status of this word on the kit and these texts after it, and what was written.
fn answered(
    alloc: Global,
    word: &str,
    texts: &[&[u8]],
    disk: &mut MemDisk,
) -> Result<(u8, MemSink), NoMemory> {
    let words = asked(alloc, &[word, "journal"])?;
    let mut input = KIT.to_vec(alloc)?;
    for text in texts {
        input.extend_from_slice(text)?;
    }
    let mut source = MemSource::new(input, Vec::new(alloc));
    let mut sink = MemSink::new(alloc, Vec::new(alloc));
    let mut link = MemLink::new(alloc, Vec::new(alloc));
    let status = rampart(alloc, &words, &mut source, &mut sink, disk, &mut link);
    Ok((status, sink))
}

/// Whether this is written, and the status is this one.
fn is_answered(
    alloc: Global,
    word: &str,
    texts: &[&[u8]],
    disk: &mut MemDisk,
    reported: &[u8],
    ended: u8,
) -> Result<bool, NoMemory> {
    let (status, sink) = answered(alloc, word, texts, disk)?;
    Ok(status == ended && sink.bytes() == reported)
}

/// The journal of the whole script, with a snapshot between its lines; and whether the node said what it should.
fn written(alloc: Global) -> Result<(MemDisk, bool), NoMemory> {
    let mut disk = disk_of(alloc, b"")?;
    let [before, after] = SAID;
    let mut reported = before.to_vec(alloc)?;
    reported.extend_from_slice(SNAP)?;
    reported.extend_from_slice(after)?;
    let is_said = is_answered(
        alloc,
        "node",
        &[FIRST, b"snap\n", REST],
        &mut disk,
        &reported,
        0,
    )?;
    Ok((disk, is_said))
}

#[test]
fn a_node_begins_from_its_snapshot_and_a_journal_that_has_gone_on(
    rt: HostRuntime,
) -> Result<(), Fail> {
    let alloc = rt.alloc();
    let (mut disk, is_said) = written(alloc)?;
    assert!(rt; is_said);
    assert!(rt; is_answered(alloc, "resume", &[SNAP], &mut disk, AGAIN, 0)?);
    Ok(())
}

/// The journal has the same header, and no entry.
#[test]
fn a_snapshot_of_a_longer_journal_is_refused(rt: HostRuntime) -> Result<(), Fail> {
    let alloc = rt.alloc();
    let mut begun = disk_of(alloc, b"")?;
    let _ = answered(alloc, "node", &[], &mut begun)?;
    assert!(rt; begun.bytes().len() == 61);
    assert!(rt;
        is_answered(
            alloc,
            "resume",
            &[SNAP],
            &mut begun,
            b"stop 8 journal 0 287\n",
            8
        )?
    );
    Ok(())
}

/// The line after the kit is the 14th. The disk is not asked.
#[test]
fn a_line_that_is_no_snapshot_begins_nothing(rt: HostRuntime) -> Result<(), Fail> {
    let alloc = rt.alloc();
    let mut disk = disk_of(alloc, b"")?;
    for line in [b"snap 00\n".as_slice(), b"", b"0 tick\n", b"snap\n"] {
        assert!(rt; is_answered(alloc, "resume", &[line], &mut disk, b"stop 7 snap 14\n", 7)?);
    }
    assert_eq!(rt; disk.calls(), 0);
    Ok(())
}

/// A journal with this magic, whose one entry is none.
fn refused(alloc: Global, magic: &[u8]) -> Result<MemDisk, NoMemory> {
    let mut bytes = magic.to_vec(alloc)?;
    bytes.extend_from_slice(REFUSED)?;
    disk_of(alloc, &bytes)
}

/// `node` refuses the entry, and `resume` from after it looks at none.
#[test]
fn what_comes_before_the_place_is_only_hashed(rt: HostRuntime) -> Result<(), Fail> {
    let alloc = rt.alloc();
    for (magic, line) in [(b"RPJ1", OF_VERSION_1), (b"RPJ2", OF_VERSION_2)] {
        let mut disk = refused(alloc, magic)?;
        assert!(rt; is_answered(alloc, "node", &[], &mut disk, b"stop 8 journal 0 60\n", 8)?);
        assert!(rt; is_answered(alloc, "resume", &[line], &mut disk, AFTER_REFUSED, 0)?);
    }
    Ok(())
}

/// Whether the node, on what is left of its disk, begins from its snapshot as it begins without.
fn begins_alike(alloc: Global, image: &[u8]) -> Result<bool, NoMemory> {
    let (status, by_node) = answered(alloc, "node", &[], &mut disk_of(alloc, image)?)?;
    let mut disk = disk_of(alloc, image)?;
    Ok(status == 0 && is_answered(alloc, "resume", &[SNAP], &mut disk, by_node.bytes(), 0)?)
}

/// The disk stops at each call after the snapshot was written, and keeps what it may of what was not synced.
#[test]
fn after_a_stop_at_any_call_of_the_disk_both_words_begin_alike(
    rt: HostRuntime,
) -> Result<(), Fail> {
    let alloc = rt.alloc();
    let mut front = disk_of(alloc, b"")?;
    let _ = answered(alloc, "node", &[FIRST, b"snap\n"], &mut front)?;
    let (whole, _) = written(alloc)?;
    for call in front.calls()..whole.calls() {
        let mut disk = disk_of(alloc, b"")?;
        disk.stop_at(call);
        let (status, _sink) = answered(alloc, "node", &[FIRST, b"snap\n", REST], &mut disk)?;
        assert_eq!(rt; status, 5);
        for left in [Left::Nothing, Left::All, Left::Each(0xa5)] {
            assert!(rt; begins_alike(alloc, &disk.image(left)?)?);
        }
    }
    Ok(())
}
