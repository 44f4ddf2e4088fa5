//! Process 0 of four, whose memory runs out anywhere. It goes on where its types let it, is opened again from its journal elsewhere, and
//! no number of its key is on two texts that left. In the gate no memory is refused; `rt try --test --fail-alloc 1..` refuses each
//! allocation in turn.
ghost use Rattle.std.specs.Prelude.{Some, IfOk, IfSome, IsTrue};
ghost use Rattle.rp_devices.specs.Disks.{disk_bytes};
ghost use Rattle.journal_defs.specs.Journals.{IsClosedAt};
ghost use Rattle.journal_disk.specs.Disks.{HasLength};
ghost use Rattle.journal_rp.specs.Stages.{gate_of, len_of};
ghost use Rattle.hosted_core.specs.Hosts.{IsReal};
ghost use Rattle.rp_base.specs.Signer.{used_of};

use frame_codec::split_frame;
use hosted_core::{Hosted, Taken};
use journal_rp::{EntryBytes, Header, Journal, Reading, Writing};
use member_events::{Entry, Event, Sending, claims_of};
use rp_base::{GroupId, NoMemory, Pid, PidSet, PlainScheme, PlainSigner, Roster};
use rp_devices::MemDisk;
use std::alloc::Global;
use view_table::View;

const KEYS: [[u8; 32]; 4] = [[1; 32], [2; 32], [3; 32], [4; 32]];

const GROUP: GroupId = GroupId([7; 16]);

// The public keys of the four, which are their keys.
fn roster(alloc: Global) -> Result<Roster, NoMemory> {
    let mut roster = Roster::new(alloc)?;
    roster.add(Pid::new(0).unwrap(), &KEYS[0])?;
    roster.add(Pid::new(1).unwrap(), &KEYS[1])?;
    roster.add(Pid::new(2).unwrap(), &KEYS[2])?;
    roster.add(Pid::new(3).unwrap(), &KEYS[3])?;
    Ok(roster)
}

// Process 0 as it starts, with a key that signs 100 times.
fn member(alloc: Global) -> Result<Hosted<PlainSigner>, NoMemory>
    ensures { IfOk result (IsReal used_of) }
{
    let four = [
        Pid::new(0).unwrap(),
        Pid::new(1).unwrap(),
        Pid::new(2).unwrap(),
        Pid::new(3).unwrap(),
    ];
    let Some(genesis) = View::new(0, &four) else {
        return Err(NoMemory);
    };
    let roster = roster(alloc)?;
    let signer = PlainSigner::new(KEYS[0], 100);
    Hosted::new(alloc, GROUP, roster, genesis, four[0], 1, signer)
}

fn header() -> Header {
    Header {
        group: GROUP,
        hosted: PidSet::from_mask(1),
        digest: [9; 32],
    }
}

// A process, and the journal that keeps its turns.
#[derive(Drop)]
struct Node {
    journal: Journal<Writing>,
    hosted: Hosted<PlainSigner>,
    ghost real: { IsReal used_of hosted },
}

// Takes up an entry of the journal. False where memory ran out, or the entry isn't the process's own.
fn take_up(hosted: &mut Hosted<PlainSigner>, bytes: &EntryBytes) -> bool
    requires { IsReal used_of hosted.old }
    ensures { IsReal used_of hosted.new }
{
    let Entry {
        process,
        event,
        spent,
        signatures,
    } = bytes.entry();

    // The type is named, since the checker does not know it here otherwise.
    let event: Event<'_> = event;
    let entry = Entry {
        process,
        event,
        spent,
        signatures,
    };
    process == hosted.core().me() && hosted.absorb(&PlainScheme, &entry).is_ok()
}

// Takes up the journal. False where memory ran out.
fn take_up_all(
    alloc: Global,
    disk: &mut MemDisk,
    journal: &mut Journal<Reading>,
    hosted: &mut Hosted<PlainSigner>,
) -> bool
    requires length { HasLength (Some (disk_bytes disk.old)) (len_of journal.old) }
    requires real { IsReal used_of hosted.old }
    ensures length { HasLength (Some (disk_bytes disk.new)) (len_of journal.new) }
    ensures closed { IsTrue result → IsClosedAt (disk_bytes disk.new) (gate_of journal.new) }
    ensures real { IsReal used_of hosted.new }
{
    'entries: for _ in 0..200u8 {
        match journal.read(alloc, disk) {
            Ok(Some(entry)) => {
                if !take_up(hosted, &entry) {
                    return false;
                }
            }
            Ok(None) => return true,
            Err(_) => return false,
        }
    }
    false
}

// The process, opened on its journal. None where memory ran out.
fn open(alloc: Global, disk: &mut MemDisk) -> Option<Node>
    ensures { IfSome result (λ n. HasLength (Some (disk_bytes disk.new)) (len_of n.journal)) }
{
    let Ok(mut hosted) = member(alloc) else {
        return None;
    };
    let Ok(mut journal) = Journal::<Reading>::start(disk, &header()) else {
        return None;
    };
    if !take_up_all(alloc, disk, &mut journal, &mut hosted) {
        return None;
    }
    match journal.finish(disk) {
        Ok(journal) => Some(Node { journal, hosted }),
        Err(_) => None,
    }
}

// The signatures that the process has on claims of a frame, 32 bytes each.
fn add_own(frame: &[u8], out: &mut Vec<u8>) -> Result<(), NoMemory> {
    let Ok(view) = split_frame(frame) else {
        return Ok(());
    };
    let Ok(claims) = claims_of(&view) else {
        return Ok(());
    };
    for claim in claims {
        if claim.signer.get() == 0 {
            out.extend_from_slice(claim.signature)?;
        }
    }
    Ok(())
}

// Those of all frames.
fn add_all(sends: &[Sending], out: &mut Vec<u8>) -> Result<(), NoMemory> {
    for sending in sends {
        add_own(sending.frame.bytes(), out)?;
    }
    Ok(())
}

// What is seen of a run from outside: the signatures that left, 32 bytes each, and how often an event or the node was lost.
#[derive(Drop)]
struct Seen {
    left: Vec<u8>,
    losses: u8,
}

// One event. None where the node ended.
fn hand(
    alloc: Global,
    disk: &mut MemDisk,
    node: Node,
    event: &Event<'_>,
    seen: &mut Seen,
) -> Result<Option<Node>, NoMemory>
    requires { HasLength (Some (disk_bytes disk.old)) (len_of node.journal) }
    ensures { IfOk result (λ o. IfSome o (λ n. HasLength (Some (disk_bytes disk.new)) (len_of n.journal))) }
{
    let Node { journal, hosted } = node;
    let turn = match hosted.take(alloc, &PlainScheme, event) {
        Ok(Taken::Refused(hosted, _)) => return Ok(Some(Node { journal, hosted })),
        Ok(Taken::Lost(hosted)) => {
            seen.losses = seen.losses.saturating_add(1);
            return Ok(Some(Node { journal, hosted }));
        }
        Ok(Taken::Turn(turn)) => turn,
        Err(NoMemory) => return Ok(None),
    };
    let Ok((journal, turn)) = journal.append(disk, turn) else {
        return Ok(None);
    };
    add_all(turn.sends(), &mut seen.left)?;
    let hosted = turn.into_process();
    Ok(Some(Node { journal, hosted }))
}

const EVENTS: [Event<'static>; 7] = [
    Event::Submit(b"hi"),
    Event::Tick,
    Event::Submit(b"you"),
    Event::Renew,
    Event::Submit(b"more"),
    Event::Submit(b"and more"),
    Event::Tick,
];

// How many numbers of its key the process has used after these events. Where it ended it is opened again, and goes on with the next
// event. None where it could not be opened.
fn live(alloc: Global, disk: &mut MemDisk, seen: &mut Seen) -> Result<Option<u32>, NoMemory> {
    let mut node = open(alloc, disk);
    'events: for event in &EVENTS {
        let here = match node {
            Some(node) => node,
            None => {
                seen.losses = seen.losses.saturating_add(1);
                match open(alloc, disk) {
                    Some(node) => node,
                    None => return Ok(None),
                }
            }
        };
        node = hand(alloc, disk, here, event, seen)?;
    }
    match node {
        Some(node) => Ok(Some(node.hosted.core().used())),
        None => Ok(None),
    }
}

fn add_signatures(entry: &EntryBytes, out: &mut Vec<u8>) -> Result<(), NoMemory> {
    for signature in entry.entry().signatures {
        out.extend_from_slice(signature)?;
    }
    Ok(())
}

// The signatures that the journal has, by the numbers of the key, 32 bytes each.
fn signed(alloc: Global, disk: &mut MemDisk) -> Result<Vec<u8>, NoMemory> {
    let Ok(mut journal) = Journal::<Reading>::start(disk, &header()) else {
        return Err(NoMemory);
    };
    let mut out = Vec::new(alloc);
    'entries: for _ in 0..200u8 {
        match journal.read(alloc, disk) {
            Ok(Some(entry)) => add_signatures(&entry, &mut out)?,
            Ok(None) => return Ok(out),
            Err(_) => return Err(NoMemory),
        }
    }
    Err(NoMemory)
}

// A run: what was seen of it, what its journal has, and how many numbers the process had used at its end, where it is there.
#[derive(Drop)]
struct Life {
    seen: Seen,
    signed: Vec<u8>,
    used: Option<u32>,
}

// None where the test itself lacks memory.
fn whole_life(alloc: Global) -> Result<Life, NoMemory> {
    let mut disk = MemDisk::new(alloc, Vec::new(alloc), Vec::new(alloc))?;
    let mut seen = Seen {
        left: Vec::new(alloc),
        losses: 0,
    };
    let used = live(alloc, &mut disk, &mut seen)?;
    let signed = signed(alloc, &mut disk)?;
    Ok(Life { seen, signed, used })
}

// Whether each signature that left is one of the journal's.
fn are_kept(left: &[u8], signed: &[u8]) -> bool {
    left.chunks_exact(32)
        .all(|one| signed.chunks_exact(32).any(|kept| kept == one))
}

// The journal has one text for each number of the key, in order; nothing else left, and the process has used as many.
#[test]
fn no_number_is_on_two_texts_that_left(rt: HostRuntime) {
    let Ok(life) = whole_life(rt.alloc()) else {
        return;
    };
    assert!(rt; are_kept(&life.seen.left, &life.signed));
    if let Some(used) = life.used {
        assert!(rt; life.signed.len() as u64 == 32 * u64::from(used));
    }

    // By another program: how often a process signs that loses nothing, and how many claims of its own it sends.
    if life.seen.losses == 0 {
        assert!(rt; life.used == Some(9));
        assert!(rt; life.seen.left.len() == 32 * 20);
    }
}
