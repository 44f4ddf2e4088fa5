//! A run of a journal in memory: turn n of process 0 is a Submit of the byte n.
ghost use Rattle.std.specs.Prelude.{Some, OnSome, IfOk};
ghost use Rattle.rp_devices.specs.Disks.{disk_bytes};
ghost use Rattle.journal_defs.specs.Journals.{IsClosedAt};
ghost use Rattle.journal_disk.specs.Disks.{HasLength};
ghost use Rattle.journal_rp.specs.Stages.{gate_of, len_of};

use journal_rp::{EntryBytes, Header, Journal, Journalled, Reading, Turn, Unsynced, Writing};
use member_events::{Event, EventVerdict, Outcome};
use rp_base::{GroupId, Pid, PidSet};
use rp_devices::MemDisk;
use std::alloc::Global;
use std::process::Abort;

/// Process 0, which is said to have taken whatever has a spelling.
#[derive(Drop)]
pub struct Anyone;

impl Journalled for Anyone {
    ghost use Rattle.journal_defs.specs.Entries.{IsEntry};
    ghost use Rattle.journal_entries.specs.Views.{event as event_of, turn_entry};

    ghost number = { λ p. 0 };

    ghost took = { λ p e o. IsEntry (turn_entry 0 (event_of e) o) };

    fn number(&self) -> Pid {
        Pid::default()
    }

    ghost spells = { λ p e o took. took };
}

/// The most turns that are taken in.
pub const TURNS: u8 = 20;

/// Whose journal it is.
pub fn header() -> Header {
    Header {
        group: GroupId([7; 16]),
        hosted: PidSet::from_mask(1),
        digest: [9; 32],
    }
}

/// Turn n.
pub fn turn_of(rt: &impl Abort, alloc: Global, n: u8) -> Turn<Unsynced, Anyone> {
    let outcome = Outcome {
        verdict: EventVerdict::Taken,
        heard: 0,
        signed: Vec::new(alloc),
        spent: false,
        sends: Vec::new(alloc),
        notes: Vec::new(alloc),
    };
    Turn::new(alloc, Anyone, &Event::Submit(&[n]), outcome)
        .ok()
        .expect(rt, "memory")
}

/// Whether this is the entry of turn n.
pub fn is_turn(entry: &EntryBytes, n: u8) -> bool {
    match entry.entry().event {
        Event::Submit(payload) => payload == [n].as_slice(),
        _ => false,
    }
}

/// How many entries there are, each of them turn by turn; none where one is another or cannot be read.
pub fn read_all(alloc: Global, disk: &mut MemDisk, journal: &mut Journal<Reading>) -> Option<u8>
    requires { HasLength (Some (disk_bytes disk.old)) (len_of journal.old) }
    ensures length { HasLength (Some (disk_bytes disk.new)) (len_of journal.new) }
    ensures closed { OnSome result (IsClosedAt (disk_bytes disk.new) (gate_of journal.new)) }
{
    'entries: for n in 0..200u8 {
        match journal.read(alloc, disk) {
            Ok(Some(entry)) if is_turn(&entry, n) => {}
            Ok(None) => return Some(n),
            _ => return None,
        }
    }
    None
}

// How many turns were taken in before one failed.
fn append_all(rt: &impl Abort, alloc: Global, disk: &mut MemDisk, journal: Journal<Writing>) -> u8
    requires { HasLength (Some (disk_bytes disk.old)) (len_of journal) }
{
    let mut journal = journal;
    'turns: for n in 0..TURNS {
        match journal.append(disk, turn_of(rt, alloc, n)) {
            Ok((next, _turn)) => journal = next,
            Err(_) => return n,
        }
    }
    TURNS
}

/// How many turns were taken in by a run on a disk, before a call failed.
pub fn run(rt: &impl Abort, alloc: Global, disk: &mut MemDisk) -> u8 {
    let Ok(mut journal) = Journal::<Reading>::start(disk, &header()) else {
        return 0;
    };
    if read_all(alloc, disk, &mut journal).is_none() {
        return 0;
    }
    match journal.finish(disk) {
        Ok(journal) => append_all(rt, alloc, disk, journal),
        Err(_) => 0,
    }
}

/// How many entries a journal has that is started again on these bytes.
pub fn reopened(rt: &impl Abort, alloc: Global, image: Vec<u8>) -> Option<u8> {
    let mut disk = MemDisk::new(alloc, image, Vec::new(alloc))
        .ok()
        .expect(rt, "memory");
    let Ok(mut journal) = Journal::<Reading>::start(&mut disk, &header()) else {
        return None;
    };
    let Some(count) = read_all(alloc, &mut disk, &mut journal) else {
        return None;
    };
    match journal.finish(&mut disk) {
        Ok(_) => Some(count),
        Err(_) => None,
    }
}
