//! Runs in which nothing stops the node before its input ends.
use crate::data::{AGAIN, DATAGRAMS, DELIVERED, HOSTS, KIT, SCRIPT, SNAP};
use node_loop::{NoService, host};
use rp_base::{Link, MemSink, MemSource, NoMemory};
use rp_devices::{MemDisk, MemLink};
use std::alloc::Global;
use std::test::Fail;

/// A disk with these bytes, whose calls don't fail.
pub fn disk_of(alloc: Global, bytes: &[u8]) -> Result<MemDisk, NoMemory> {
    MemDisk::new(alloc, bytes.to_vec(alloc)?, Vec::new(alloc))
}

/// The status and what was written, of the kit and then these lines.
pub fn answered(
    alloc: Global,
    script: &[u8],
    disk: &mut MemDisk,
    link: &mut MemLink,
) -> Result<(u8, MemSink), NoMemory> {
    let mut input = KIT.to_vec(alloc)?;
    input.extend_from_slice(script)?;
    let mut source = MemSource::new(input, Vec::new(alloc));
    let mut sink = MemSink::new(alloc, Vec::new(alloc));
    let status = host(alloc, &mut source, &mut sink, disk, link, &mut NoService);
    Ok((status, sink))
}

/// These texts one after the other.
pub fn joined(alloc: Global, texts: &[&[u8]]) -> Result<Vec<u8>, NoMemory> {
    let mut all = Vec::new(alloc);
    for text in texts {
        all.extend_from_slice(text)?;
    }
    Ok(all)
}

/// Whether the kit and these lines are answered by these texts, one after the other, and the node ends so.
pub fn is_answered(
    alloc: Global,
    script: &[u8],
    disk: &mut MemDisk,
    link: &mut MemLink,
    texts: &[&[u8]],
    ended: u8,
) -> Result<bool, NoMemory> {
    let (status, sink) = answered(alloc, script, disk, link)?;
    let reported = joined(alloc, texts)?;
    Ok(status == ended && sink.bytes() == reported.as_slice())
}

/// The same on an empty disk and a link on which these datagrams wait for process 1.
pub fn is_answered_at_first(
    alloc: Global,
    script: &[u8],
    datagrams: &[&[u8]],
    texts: &[&[u8]],
    ended: u8,
) -> Result<bool, NoMemory> {
    let mut disk = disk_of(alloc, b"")?;
    let mut link = MemLink::new(alloc, Vec::new(alloc));
    for datagram in datagrams {
        if link.send(47001, datagram).is_err() {
            return Ok(false);
        }
    }
    is_answered(alloc, script, &mut disk, &mut link, texts, ended)
}

#[test]
fn what_one_submits_both_deliver_and_know_again(rt: HostRuntime) -> Result<(), Fail> {
    let alloc = rt.alloc();
    let mut disk = disk_of(alloc, b"")?;
    let mut link = MemLink::new(alloc, Vec::new(alloc));
    let texts = [HOSTS, DELIVERED];
    assert!(rt; is_answered(alloc, SCRIPT, &mut disk, &mut link, &texts, 0)?);
    assert_eq!(rt; link.sent().len(), 5);

    let mut again = disk_of(alloc, disk.bytes())?;
    assert!(rt; is_answered(alloc, b"", &mut again, &mut link, &[AGAIN[6]], 0)?);
    Ok(())
}

/// Its images are those of two processes that have done nothing.
#[test]
fn a_snapshot_is_written_between_other_lines(rt: HostRuntime) -> Result<(), Fail> {
    let texts = [HOSTS, SNAP, b"recv 0 0\n"];
    assert!(rt; is_answered_at_first(rt.alloc(), b"snap\n0 recv 1\n", &[], &texts, 0)?);
    Ok(())
}

/// Each has its line; the empty frame is opened, and the process refuses it.
#[test]
fn datagrams_that_are_none_are_dropped(rt: HostRuntime) -> Result<(), Fail> {
    let texts = [
        HOSTS,
        b"drop 1 short\ndrop 1 magic\ndrop 1 badtag\nrefused 1 short\ndrop 1 unknownpeer\ndrop 1 notforme\ndrop 1 othergroup\n",
        b"drop 1 unknownpeer\nrecv 1 8\n",
    ];
    assert!(rt; is_answered_at_first(rt.alloc(), b"1 recv 20\n", &DATAGRAMS, &texts, 0)?);
    Ok(())
}

/// `recv 2` takes two of them, and the third waits.
#[test]
fn no_more_come_than_were_asked_for(rt: HostRuntime) -> Result<(), Fail> {
    let script = b"1 recv 2\n1 recv 2\n";
    let texts = [
        HOSTS,
        b"drop 1 short\ndrop 1 short\nrecv 1 2\ndrop 1 short\nrecv 1 1\n",
    ];
    assert!(rt; is_answered_at_first(rt.alloc(), script, &[b"", b"", b""], &texts, 0)?);
    Ok(())
}

#[test]
fn what_an_event_is_refused_for_is_reported(rt: HostRuntime) -> Result<(), Fail> {
    let script = b"0 tick\n0 renew\n0 join 3\n0 submit -\n";
    let texts = [HOSTS, b"refused 0 nokey\n"];
    assert!(rt; is_answered_at_first(rt.alloc(), script, &[], &texts, 0)?);
    Ok(())
}
