//! Kits, lines and journals that are none.
use crate::data::{HOSTS, SCRIPT, TREES};
use crate::runs::{answered, disk_of, is_answered, is_answered_at_first, joined};
use node_loop::{NoService, host};
use rp_base::{MemSink, MemSource, NoDisk, NoLink, NoMemory};
use rp_devices::MemLink;
use std::alloc::Global;
use std::test::Fail;

/// Whether a node whose input is these lines ends with status 7 and says this. It has no kit of a node: neither disk nor link is asked.
fn is_reported(alloc: Global, parts: &[&[&[u8]]], reported: &[u8]) -> Result<bool, NoMemory> {
    let mut input = Vec::new(alloc);
    for lines in parts {
        input.extend_from_slice(&joined(alloc, lines)?)?;
    }
    let mut source = MemSource::new(input, Vec::new(alloc));
    let mut sink = MemSink::new(alloc, Vec::new(alloc));
    let status = host(
        alloc,
        &mut source,
        &mut sink,
        &mut NoDisk::new(),
        &mut NoLink::new(),
        &mut NoService,
    );
    Ok(status == 7 && sink.bytes() == reported)
}

/// The key of process 0 with another last digit.
const OTHER_KEY: &[u8] =
    b"key 0 0000000500000004810e5b050b40914a3ceaa445223af68f5da715e941ff8904086b62654840ce0d3bc959584817765217da2e660dcb4d40\n";

#[test]
fn a_kit_that_is_none_is_reported_by_its_line(rt: HostRuntime) -> Result<(), Fail> {
    let alloc = rt.alloc();
    let other_key: [&[&[u8]]; 3] = [&TREES[..3], &[OTHER_KEY], &TREES[4..]];
    assert!(rt; is_reported(alloc, &other_key, b"stop 7 keymismatch 9\n")?);
    assert!(rt; is_reported(alloc, &[&TREES[..2], &TREES[3..]], b"stop 7 missing 3\n")?);
    assert!(rt; is_reported(alloc, &[&TREES[..4], &TREES[3..]], b"stop 7 repeated 5\n")?);
    Ok(())
}

#[test]
fn an_input_without_a_hosted_process_is_no_kit(rt: HostRuntime) -> Result<(), Fail> {
    let alloc = rt.alloc();
    assert!(rt; is_reported(alloc, &[&TREES[..8], &TREES[12..]], b"stop 7 missing 9\n")?);
    assert!(rt; is_reported(alloc, &[&TREES[..1]], b"stop 7 line 2\n")?);
    assert!(rt; is_reported(alloc, &[], b"stop 7 line 1\n")?);
    Ok(())
}

/// What comes before them is carried out.
#[test]
fn a_line_that_is_none_ends_the_node(rt: HostRuntime) -> Result<(), Fail> {
    let alloc = rt.alloc();
    for line in [
        b"x\n".as_slice(),
        b"2 tick\n",
        b"0 recv 0\n",
        b"0 recv 1001\n",
        b"0 tick",
        b"0 expel 1\n",
        b"0 submit 6g\n",
        b"\n",
    ] {
        let script = joined(alloc, &[b"0 recv 1\n", line])?;
        let texts = [HOSTS, b"recv 0 0\nstop 7 line 15\n"];
        assert!(rt; is_answered_at_first(alloc, &script, &[], &texts, 7)?);
    }
    Ok(())
}

/// The journal of the script's node, with another byte at a place.
fn changed(alloc: Global, journal: &[u8], at: usize) -> Result<Vec<u8>, NoMemory> {
    let mut bytes = journal.to_vec(alloc)?;
    if let Some(byte) = bytes.get_mut(at) {
        *byte ^= 0x55;
    }
    Ok(bytes)
}

/// A file that is none, and a journal in which the byte at a place was changed.
#[test]
fn a_journal_that_is_another_is_reported_by_its_place(rt: HostRuntime) -> Result<(), Fail> {
    let alloc = rt.alloc();
    let mut whole = disk_of(alloc, b"")?;
    let mut link = MemLink::new(alloc, Vec::new(alloc));
    let _ = answered(alloc, SCRIPT, &mut whole, &mut link)?;
    for (at, reported) in [
        (30, b"stop 8 journal 0 0\n".as_slice()),
        (100, b"stop 8 journal 0 60\n"),
    ] {
        let bytes = changed(alloc, whole.bytes(), at)?;
        let mut disk = disk_of(alloc, &bytes)?;
        assert!(rt; is_answered(alloc, b"", &mut disk, &mut link, &[reported], 8)?);
    }
    Ok(())
}
