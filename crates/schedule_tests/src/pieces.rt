ghost use Rattle.replay_defs.specs.Pieces.{most_waiting};

use schedule_file::{ScheduleEvent, write_schedule};
use schedule_making::generate;
use schedule_pieces::{ScheduleFault, ScheduleReader, WINDOW_BYTES};
use schedule_reading::read_schedule;
use std::alloc::{AllocError, Global};
use std::test::Fail;

// Why a reader stopped.
#[derive(Drop)]
enum Stopped {
    Fault(ScheduleFault),

    // The piece has no room.
    Full,
}

impl From<ScheduleFault> for Stopped {
    fn from(fault: ScheduleFault) -> Stopped {
        Stopped::Fault(fault)
    }
}

impl From<AllocError> for Stopped {
    fn from(_refused: AllocError) -> Stopped {
        Stopped::Fault(ScheduleFault::NoMemory)
    }
}

// Feeds a piece where it has room.
#[tactic(auto, unfolding(replay_defs::specs::Pieces::most_waiting))]
fn feed(reader: &mut ScheduleReader, piece: &[u8]) -> Result<(), Stopped> {
    if piece.len() > WINDOW_BYTES || reader.waiting() + piece.len() > WINDOW_BYTES {
        return Err(Stopped::Full);
    }
    reader.feed(piece);
    Ok(())
}

// Takes all events that are whole.
fn take(reader: &mut ScheduleReader, events: &mut Vec<ScheduleEvent>) -> Result<(), Stopped> {
    for _ in 0..WINDOW_BYTES {
        let Some(event) = reader.next()? else {
            break;
        };
        events.push(event).map_err(|_| ScheduleFault::NoMemory)?;
    }
    Ok(())
}

// The events of an input in pieces of this size.
fn in_pieces(alloc: Global, bytes: &[u8], size: usize) -> Result<Vec<ScheduleEvent>, Stopped> {
    let mut reader = ScheduleReader::new(alloc).map_err(|_| ScheduleFault::NoMemory)?;
    let mut events = Vec::new(alloc);
    for piece in bytes.chunks(size.max(1)) {
        feed(&mut reader, piece)?;
        take(&mut reader, &mut events)?;
    }
    reader.end()?;
    Ok(events)
}

// The fault at which reading in pieces of this size stops.
fn fault_in_pieces(alloc: Global, bytes: &[u8], size: usize) -> Option<ScheduleFault> {
    match in_pieces(alloc, bytes, size) {
        Ok(_) => None,
        Err(Stopped::Fault(fault)) => Some(fault),
        Err(Stopped::Full) => Some(ScheduleFault::NoMemory),
    }
}

// Process 0 alone, with a plain key of 32 bytes 0 that makes 100,000 signatures: a header of 62 bytes.
fn alone(alloc: Global) -> Result<Vec<u8>, AllocError> {
    let mut bytes = Vec::new(alloc);
    bytes.extend_from_slice(b"RPS1\x00")?;
    bytes.extend_from_slice(&[0; 16])?;
    bytes.extend_from_slice(&[1, 0, 0])?;
    bytes.extend_from_slice(&[0; 32])?;
    bytes.extend_from_slice(&[0, 1, 0x86, 0xa0, 1, 0])?;
    Ok(bytes)
}

// Process 0 is correct and process 1 corrupt, with keys in two levels; after them comes each kind of event.
fn each_event(alloc: Global) -> Result<Vec<u8>, AllocError> {
    let mut bytes = Vec::new(alloc);
    bytes.extend_from_slice(b"RPS3\x02\x04")?;
    bytes.extend_from_slice(&[9; 16])?;
    bytes.extend_from_slice(&[2, 0, 0, 2, 5, 4])?;
    bytes.extend_from_slice(&[7; 48])?;
    bytes.extend_from_slice(&[1, 1, 2, 5, 4])?;
    bytes.extend_from_slice(&[8; 48])?;
    bytes.extend_from_slice(&[2, 1, 0])?;
    bytes.extend_from_slice(&[1, 0, 0, 2, 0x68, 0x69, 2, 0, 1, 0, 1, 0])?;
    bytes.extend_from_slice(&[3, 0, 0, 0, 7, 0])?;
    bytes.extend_from_slice(&[4, 0, 0, 0, 5, 0, 0, 0, 0, 0, 0, 0, 3])?;
    bytes.extend_from_slice(&[5, 1, 0, 0, 0, 0, 0, 0, 0, 1, 0, 5, 7, 0, 0, 0, 4])?;
    bytes.extend_from_slice(&[6, 0, 1, 7, 0, 63, 8, 0, 9, 0])?;
    Ok(bytes)
}

// An event as bytes, spelled here once more.
fn spell(event: &ScheduleEvent, out: &mut Vec<u8>) -> Result<(), AllocError> {
    match event {
        ScheduleEvent::Submit { at, payload } => {
            out.extend_from_slice(&[1, at.get()])?;
            spell_text(payload, out)
        }
        ScheduleEvent::Raw { to, from, bytes } => {
            out.extend_from_slice(&[2, to.get(), from.get()])?;
            spell_text(bytes, out)
        }
        ScheduleEvent::Pass { frame, to } => {
            out.extend_from_slice(&[3])?;
            out.extend_from_slice(&frame.to_be_bytes())?;
            out.extend_from_slice(&[to.get()])
        }
        ScheduleEvent::Drain { count, to } => {
            out.extend_from_slice(&[4])?;
            out.extend_from_slice(&count.to_be_bytes())?;
            out.extend_from_slice(&to.mask().to_be_bytes())
        }
        ScheduleEvent::Lie {
            signer,
            to,
            statement,
        } => {
            out.extend_from_slice(&[5, signer.get()])?;
            out.extend_from_slice(&to.mask().to_be_bytes())?;
            spell_text(statement, out)
        }
        ScheduleEvent::Suspect { at, of } => out.extend_from_slice(&[6, at.get(), of.get()]),
        ScheduleEvent::Join { at, of } => out.extend_from_slice(&[7, at.get(), of.get()]),
        ScheduleEvent::Renew { at } => out.extend_from_slice(&[8, at.get()]),
        ScheduleEvent::Tick { at } => out.extend_from_slice(&[9, at.get()]),
    }
}

fn spell_text(bytes: &[u8], out: &mut Vec<u8>) -> Result<(), AllocError> {
    let len = u16::try_from(bytes.len()).unwrap_or(u16::MAX);
    out.extend_from_slice(&len.to_be_bytes())?;
    out.extend_from_slice(bytes)
}

// Whether pieces of this size give the events after the first `header` bytes, which are the header.
fn are_given(alloc: Global, bytes: &[u8], header: usize, size: usize) -> Result<bool, AllocError> {
    let Ok(events) = in_pieces(alloc, bytes, size) else {
        return Ok(false);
    };
    let mut spelled = Vec::new(alloc);
    for event in &events {
        spell(event, &mut spelled)?;
    }
    Ok(bytes.get(header..) == Some(spelled.as_slice()))
}

#[test]
fn pieces_of_any_size_give_the_events_of_the_whole(rt: HostRuntime) -> Result<(), Fail> {
    let bytes = each_event(rt.alloc())?;
    for size in 1..200 {
        assert!(rt; are_given(rt.alloc(), &bytes, 132, size)?);
    }
    let mut large = Vec::new(rt.alloc());
    write_schedule(&generate(rt.alloc(), 1)?, &mut large)?;
    for size in [1, 7, 4096, 65_536] {
        assert!(rt; are_given(rt.alloc(), &large, 179, size)?);
    }
    Ok(())
}

#[test]
fn an_input_that_ends_anywhere_has_the_fault_of_the_whole(rt: HostRuntime) -> Result<(), Fail> {
    let bytes = each_event(rt.alloc())?;
    for len in 0..=bytes.len() {
        let (front, _) = bytes.split_at(len);
        let whole = read_schedule(rt.alloc(), front).err();
        for size in [1, 5, 64, 1000] {
            assert!(rt;
                fault_in_pieces(rt.alloc(), front, size) == whole,
                "{len} bytes by {size}"
            );
        }
    }
    Ok(())
}

// The header of process 0 alone, a Pass, and a byte that is no tag.
#[test]
fn a_fault_is_reported_with_its_place_for_every_cut(rt: HostRuntime) -> Result<(), Fail> {
    let mut bytes = alone(rt.alloc())?;
    bytes.extend_from_slice(&[3, 0, 0, 0, 0, 0, 10])?;
    for size in 1..80 {
        assert!(rt;
            fault_in_pieces(rt.alloc(), &bytes, size) == Some(ScheduleFault::Tag { place: 68 })
        );
    }
    Ok(())
}

#[test]
fn the_header_is_there_once_it_is_whole(rt: HostRuntime) -> Result<(), Fail> {
    let mut front = alone(rt.alloc())?;
    let Some(last) = front.pop() else {
        panic!(rt; "a header of 62 bytes");
    };
    let mut reader = ScheduleReader::new(rt.alloc())?;
    assert!(rt; feed(&mut reader, &front).is_ok());
    assert!(rt; reader.header().is_none() && reader.waiting() == 61);
    assert!(rt; feed(&mut reader, &[last]).is_ok() && reader.waiting() == 0);
    let Some(header) = reader.header() else {
        panic!(rt; "a header");
    };
    assert!(rt; header.batch == 1 && header.processes.len() == 1 && header.genesis.len() == 1);
    assert!(rt; reader.end().is_ok());
    Ok(())
}

// A reader that was given the header of process 0 alone.
fn started(alloc: Global) -> Result<ScheduleReader, Stopped> {
    let mut reader = ScheduleReader::new(alloc).map_err(|_| ScheduleFault::NoMemory)?;
    feed(&mut reader, &alone(alloc)?)?;
    Ok(reader)
}

// Whether a piece is taken, and all events that are whole then.
fn is_taken(reader: &mut ScheduleReader, piece: &[u8], events: &mut Vec<ScheduleEvent>) -> bool {
    feed(reader, piece).is_ok() && take(reader, events).is_ok()
}

// 1,024 Submits of 65,531 bytes each, and one that the limit cuts off in its payload, which lies from byte 67,107,906 on.
#[test]
fn more_than_the_limit_is_too_long_unless_a_fault_stands_before(
    rt: HostRuntime,
) -> Result<(), Fail> {
    let mut submit = Vec::new(rt.alloc());
    submit.extend_from_slice(&[1, 0, 0xff, 0xfb])?;
    submit.extend_from_slice(&[0; 65_531])?;
    let mut reader = started(rt.alloc()).ok().expect(&rt, "a reader");
    let mut events = Vec::new(rt.alloc());
    for _ in 0..1024 {
        assert!(rt; is_taken(&mut reader, &submit, &mut events));
        events.clear();
    }
    let Some(cut) = submit.get(..67_108_864 - 62 - 1024 * 65_535) else {
        panic!(rt; "a part of a Submit");
    };
    assert!(rt; reader.end().is_ok() && is_taken(&mut reader, cut, &mut events));
    assert!(rt; reader.end() == Err(ScheduleFault::Short { place: 67_107_906 }));
    let limit = ScheduleFault::TooLong { place: 67_108_864 };
    assert!(rt; feed(&mut reader, &[0]).is_ok() && reader.end() == Err(limit));
    assert!(rt; reader.next().err() == Some(limit) && reader.waiting() == 0);
    Ok(())
}

// Ticks of two bytes each: the one after a million of them is one too many.
#[test]
fn the_step_behind_a_million_is_too_many(rt: HostRuntime) -> Result<(), Fail> {
    let mut ticks = Vec::new(rt.alloc());
    for _ in 0..32_768 {
        ticks.extend_from_slice(&[9, 0])?;
    }
    let mut reader = started(rt.alloc()).ok().expect(&rt, "a reader");
    let mut events = Vec::new(rt.alloc());
    for _ in 0..30 {
        assert!(rt; is_taken(&mut reader, &ticks, &mut events));
    }
    assert_eq!(rt; events.len(), 983_040);
    assert!(rt; feed(&mut reader, &ticks).is_ok() && take(&mut reader, &mut events).is_err());
    let many = ScheduleFault::TooMany { place: 2_000_062 };
    assert!(rt; events.len() == 1_000_000 && reader.end() == Err(many));
    Ok(())
}
