use crate::runs::{header, is_turn, read_all, turn_of};
use file_disk::FileDisk;
use journal_rp::{Journal, JournalFault, Reading, entry_at};
use member_events::Event;
use rp_base::Disk;
use rp_devices::MemDisk;
use std::alloc::Global;
use std::fs;
use std::process::Abort;
use std::rt::Files;
use std::test::Fail;

// A journal that was written before there were batches, whose one entry is a tick of process 0 that signed nothing.
fn old_journal(alloc: Global) -> Result<Vec<u8>, Fail> {
    let mut bytes = b"RPJ1".to_vec(alloc)?;
    bytes.extend_from_slice(&[7; 16])?;
    bytes.extend_from_slice(&[0, 0, 0, 0, 0, 0, 0, 1])?;
    bytes.extend_from_slice(&[9; 32])?;
    bytes.extend_from_slice(&[1, 0, 0, 0, 5, 0, 9, 0, 0, 0, 0])?;
    Ok(bytes)
}

fn disk_of(rt: &impl Abort, alloc: Global, bytes: Vec<u8>) -> MemDisk {
    MemDisk::new(alloc, bytes, Vec::new(alloc))
        .ok()
        .expect(rt, "memory")
}

#[test]
fn an_older_journal_goes_on_as_it_began(rt: HostRuntime) -> Result<(), Fail> {
    let mut disk = disk_of(&rt, rt.alloc(), old_journal(rt.alloc())?);
    let mut journal = Journal::<Reading>::start(&mut disk, &header())
        .ok()
        .expect(&rt, "a journal");
    assert!(rt; journal.batch() == 1);
    let Ok(Some(tick)) = journal.read(rt.alloc(), &mut disk) else {
        assert!(rt; false, "an entry");
        return Ok(());
    };
    assert!(rt; matches!(tick.entry().event, Event::Tick));
    assert!(rt; matches!(journal.read(rt.alloc(), &mut disk), Ok(None)));
    Ok(())
}

#[test]
fn a_journal_as_bytes_is_read_so_too(rt: HostRuntime) -> Result<(), Fail> {
    let bytes = old_journal(rt.alloc())?;
    assert!(rt; bytes.len() == 71);
    let first = entry_at(&bytes, 60);
    let end = entry_at(&bytes, 70);
    let (front, _) = bytes.as_slice().split_at(70);
    let cut = entry_at(front, 60);
    assert!(rt; matches!(first, Ok(Some((_, 70)))));
    assert!(rt; matches!(end, Ok(None)));
    assert!(rt; matches!(cut, Err(60)));
    Ok(())
}

#[test]
fn what_begins_otherwise_is_no_journal(rt: HostRuntime) -> Result<(), Fail> {
    let mut bytes = old_journal(rt.alloc())?;
    assert!(rt; bytes.len() == 71);
    for len in [1, 60] {
        let short = bytes[..len].to_vec(rt.alloc())?;
        let mut disk = disk_of(&rt, rt.alloc(), short);
        let started = Journal::<Reading>::start(&mut disk, &header());
        assert!(rt; matches!(started, Err(JournalFault::NotAJournal)));
    }
    bytes[59] = 8;
    let mut disk = disk_of(&rt, rt.alloc(), bytes);
    let started = Journal::<Reading>::start(&mut disk, &header());
    assert!(rt; matches!(started, Err(JournalFault::NotAJournal)));
    Ok(())
}

#[test]
fn an_open_gate_before_no_entry_is_reported(rt: HostRuntime) -> Result<(), Fail> {
    let mut bytes = old_journal(rt.alloc())?;
    assert!(rt; bytes.len() == 71);
    bytes[66] = 255;
    let mut disk = disk_of(&rt, rt.alloc(), bytes);
    let mut journal = Journal::<Reading>::start(&mut disk, &header())
        .ok()
        .expect(&rt, "a journal");
    let read = journal.read(rt.alloc(), &mut disk);
    assert!(rt; matches!(read, Err(JournalFault::Entry(60))));
    Ok(())
}

// Three turns in a journal on this disk, and the mark after two of them.
fn three_turns<D: Disk>(rt: &impl Abort, alloc: Global, disk: &mut D) -> (u64, [u8; 32]) {
    let mut journal = Journal::<Reading>::start(disk, &header())
        .ok()
        .expect(rt, "a journal");
    assert!(rt; journal.batch() == 16);
    let Ok(None) = journal.read(alloc, disk) else {
        panic!(rt; "no entry yet");
    };
    let journal = journal.finish(disk).ok().expect(rt, "finish");
    let (journal, _) = journal
        .append(disk, turn_of(rt, alloc, 0))
        .ok()
        .expect(rt, "a turn");
    let (mut journal, turn) = journal
        .append(disk, turn_of(rt, alloc, 1))
        .ok()
        .expect(rt, "a turn");
    assert!(rt; turn.sends().is_empty() && turn.notes().is_empty());
    let mark = journal.mark(disk).ok().expect(rt, "a mark");
    assert!(rt; journal.append(disk, turn_of(rt, alloc, 2)).is_ok());
    mark
}

// Whether the entry of this turn is the next one, and the last.
fn ends_with<R: Files>(
    alloc: Global,
    disk: &mut FileDisk<'_, R>,
    journal: &mut Journal<Reading>,
    turn: u8,
) -> bool {
    match journal.read(alloc, disk) {
        Ok(Some(entry)) => is_turn(&entry, turn) && matches!(journal.read(alloc, disk), Ok(None)),
        _ => false,
    }
}

#[test]
fn a_journal_in_a_file_is_read_again(rt: HostRuntime) -> Result<(), Fail> {
    let path = "journal_rp_tests_file";
    let _ = fs::remove_file(&rt, path);
    let mut disk = FileDisk::new(&rt, path);
    let (place, digest) = three_turns(&rt, rt.alloc(), &mut disk);
    drop(disk);
    let mut memory = disk_of(&rt, rt.alloc(), fs::read(&rt, path)?);
    let mut journal = Journal::<Reading>::start(&mut memory, &header())
        .ok()
        .expect(&rt, "a journal");
    assert!(rt; read_all(rt.alloc(), &mut memory, &mut journal) == Some(3));
    let mut again = FileDisk::new(&rt, path);
    let mut journal = Journal::<Reading>::start(&mut again, &header())
        .ok()
        .expect(&rt, "a journal");
    assert!(rt; journal.skip(&mut again, place, &[0; 32]) == Err(JournalFault::Other(place)));
    let mut journal = Journal::<Reading>::start(&mut again, &header())
        .ok()
        .expect(&rt, "a journal");
    assert!(rt; journal.skip(&mut again, place, &digest).is_ok());
    assert!(rt; ends_with(rt.alloc(), &mut again, &mut journal, 2));
    assert!(rt; journal.finish(&mut again).is_ok());
    fs::remove_file(&rt, path)?;
    Ok(())
}
