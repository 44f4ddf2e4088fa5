//! Calls that fail, and stops at each call of the disk.
use crate::data::{AGAIN, HOSTS, KIT, SCRIPT};
use crate::runs::{answered, disk_of, is_answered, joined};
use node_loop::{NoService, host};
use rp_base::{MemSink, MemSource, NoMemory};
use rp_devices::{Left, MemDisk, MemLink};
use std::alloc::Global;
use std::test::Fail;

const ONE_TURN: &[u8] = b"1 submit 61\n";

/// Whether the kit and these lines are answered by these texts, and the node ends so, where one call of the link fails.
fn is_answered_though(
    alloc: Global,
    script: &[u8],
    call: u64,
    texts: &[&[u8]],
    ended: u8,
) -> Result<bool, NoMemory> {
    let mut disk = disk_of(alloc, b"")?;
    let mut link = MemLink::new(alloc, vec_of(alloc, &[call])?);
    is_answered(alloc, script, &mut disk, &mut link, texts, ended)
}

/// The link's calls are two binds, and then a send or a receive.
#[test]
fn a_failed_call_of_the_link_has_its_line(rt: HostRuntime) -> Result<(), Fail> {
    for (script, reported) in [
        (ONE_TURN, b"fault 1\n".as_slice()),
        (b"0 recv 1\n", b"fault 0\nrecv 0 0\n"),
    ] {
        assert!(rt; is_answered_though(rt.alloc(), script, 2, &[HOSTS, reported], 0)?);
    }
    Ok(())
}

#[test]
fn a_port_that_is_not_bound_ends_the_node(rt: HostRuntime) -> Result<(), Fail> {
    assert!(rt; is_answered_though(rt.alloc(), ONE_TURN, 1, &[b"stop 6 link\n"], 6)?);
    Ok(())
}

/// What was written: nothing before the opening is over, or the lines of the hosts, and then the stop.
fn is_reported(alloc: Global, written: &[u8]) -> Result<bool, NoMemory> {
    let opened = joined(alloc, &[HOSTS, b"stop 5 disk\n"])?;
    Ok(written == b"stop 5 disk\n".as_slice() || written == opened.as_slice())
}

/// Whether a node whose disk fails at this call ends by it, and sends nothing.
fn is_ended_by(alloc: Global, call: u64) -> Result<bool, NoMemory> {
    let mut disk = MemDisk::new(alloc, Vec::new(alloc), vec_of(alloc, &[call])?)?;
    let mut link = MemLink::new(alloc, Vec::new(alloc));
    let (status, sink) = answered(alloc, ONE_TURN, &mut disk, &mut link)?;
    Ok(status == 5 && link.sent().is_empty() && is_reported(alloc, sink.bytes())?)
}

#[test]
fn any_failed_call_of_the_disk_ends_the_node_and_nothing_leaves(
    rt: HostRuntime,
) -> Result<(), Fail> {
    let alloc = rt.alloc();
    let mut whole = disk_of(alloc, b"")?;
    let mut link = MemLink::new(alloc, Vec::new(alloc));
    let _ = answered(alloc, ONE_TURN, &mut whole, &mut link)?;
    for call in 0..whole.calls() {
        assert!(rt; is_ended_by(alloc, call)?, "{call}");
    }
    Ok(())
}

/// Whether a node that is opened on this image goes on after at least `turns` turns. An image of a journal that was not begun yet is none.
fn goes_on(alloc: Global, image: &[u8], turns: usize, begun: bool) -> Result<bool, NoMemory> {
    let mut disk = disk_of(alloc, image)?;
    let mut link = MemLink::new(alloc, Vec::new(alloc));
    let (status, sink) = answered(alloc, b"", &mut disk, &mut link)?;
    if !begun && status == 8 {
        return Ok(true);
    }
    let Some(front) = AGAIN.get(turns..) else {
        return Ok(false);
    };
    Ok(status == 0 && front.contains(&sink.bytes()))
}

/// Whether each turn of the script that sent a datagram is there again, whatever the disk keeps of what was not synced.
fn keeps_what_left(alloc: Global, call: u64, begun: bool) -> Result<bool, NoMemory> {
    let mut disk = disk_of(alloc, b"")?;
    disk.stop_at(call);
    let mut link = MemLink::new(alloc, Vec::new(alloc));
    let (status, _sink) = answered(alloc, SCRIPT, &mut disk, &mut link)?;
    for left in [Left::Nothing, Left::All, Left::Each(0xa5)] {
        let image = disk.image(left)?;
        if !goes_on(alloc, &image, link.sent().len(), begun)? {
            return Ok(false);
        }
    }
    Ok(status == 5)
}

#[test]
fn a_stop_at_any_call_of_the_disk_keeps_what_left(rt: HostRuntime) -> Result<(), Fail> {
    let alloc = rt.alloc();
    let mut link = MemLink::new(alloc, Vec::new(alloc));
    let mut opened = disk_of(alloc, b"")?;
    let _ = answered(alloc, b"", &mut opened, &mut link)?;
    let mut whole = disk_of(alloc, b"")?;
    let _ = answered(alloc, SCRIPT, &mut whole, &mut link)?;
    for call in 0..whole.calls() {
        let begun = opened.calls() <= call;
        assert!(rt; keeps_what_left(alloc, call, begun)?);
    }
    Ok(())
}

fn vec_of(alloc: Global, numbers: &[u64]) -> Result<Vec<u64>, NoMemory> {
    Ok(numbers.to_vec(alloc)?)
}

/// Whether this is written of the script, and the node ends so, where reads and writes with these numbers fail.
fn is_written(
    alloc: Global,
    reads: &[u64],
    writes: &[u64],
    written: &[u8],
    ended: u8,
) -> Result<bool, NoMemory> {
    let input = joined(alloc, &[KIT, SCRIPT])?;
    let mut source = MemSource::new(input, vec_of(alloc, reads)?);
    let mut sink = MemSink::new(alloc, vec_of(alloc, writes)?);
    let mut disk = disk_of(alloc, b"")?;
    let mut link = MemLink::new(alloc, Vec::new(alloc));
    let status = host(
        alloc,
        &mut source,
        &mut sink,
        &mut disk,
        &mut link,
        &mut NoService,
    );
    Ok(status == ended && sink.bytes() == written)
}

/// The first write is that of the lines of the hosts, the second that of the first `recv`.
#[test]
fn a_failed_stream_ends_the_node(rt: HostRuntime) -> Result<(), Fail> {
    let alloc = rt.alloc();
    assert!(rt; is_written(alloc, &[0], &[], b"stop 3 read\n", 3)?);
    assert!(rt; is_written(alloc, &[], &[0], b"", 4)?);
    assert!(rt; is_written(alloc, &[], &[1], HOSTS, 4)?);
    Ok(())
}
