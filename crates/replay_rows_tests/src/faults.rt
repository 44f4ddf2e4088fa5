use crate::asking::{fault, is_fault};
use crate::data::{
    FRAME_NOT_SENT, NO_BYTES, ONE_MEMBER, ONE_PLACE, SPENT_TREE, TAG_BEFORE_FRAME, THREE_SENDERS,
    THREE_SENDERS_ONE_LIAR, TWO_LEVELS, WRONG_MAGIC,
};
use replay_defs::FaultKind;
use replay_run::ReplayFault;
use std::alloc::Global;
use std::test::Fail;

/// Where the fields of `ONE_MEMBER` begin; its one event begins at 62.
const FIELDS: [usize; 14] = [0, 4, 5, 21, 22, 23, 24, 56, 60, 61, 62, 63, 64, 66];

/// Schedules, the place of a byte, another value for it, and the kind of the fault that is reported at this place.
const CHANGED: [(&[u8], usize, u8, FaultKind); 18] = [
    (ONE_MEMBER, 4, 2, FaultKind::Scheme),
    (TWO_LEVELS, 4, 1, FaultKind::Scheme),
    (ONE_PLACE, 4, 3, FaultKind::Scheme),
    (ONE_PLACE, 5, 1, FaultKind::Field),
    (ONE_PLACE, 5, 17, FaultKind::Field),
    (ONE_MEMBER, 21, 0, FaultKind::Roster),
    (ONE_MEMBER, 21, 65, FaultKind::Roster),
    (ONE_MEMBER, 22, 64, FaultKind::Roster),
    (ONE_MEMBER, 23, 2, FaultKind::Roster),
    (THREE_SENDERS, 60, 0, FaultKind::Roster),
    (SPENT_TREE, 24, 8, FaultKind::Key),
    (SPENT_TREE, 25, 0, FaultKind::Key),
    (TWO_LEVELS, 24, 4, FaultKind::Key),
    (TWO_LEVELS, 26, 1, FaultKind::Key),
    (ONE_MEMBER, 60, 0, FaultKind::Roster),
    (ONE_MEMBER, 60, 17, FaultKind::Roster),
    (ONE_MEMBER, 61, 1, FaultKind::Roster),
    (THREE_SENDERS, 176, 0, FaultKind::Roster),
];

/// Events after the header of `ONE_MEMBER`, with the fault of the whole and its place.
const ALONE: [(&[u8], FaultKind, usize); 15] = [
    (b"\x00", FaultKind::Tag, 62),
    (b"\x0a", FaultKind::Tag, 62),
    (b"\x09\x00\x0a", FaultKind::Tag, 64),
    (b"\x01\x01\x00\x00", FaultKind::Field, 63),
    (b"\x02\x00\x40\x00\x00", FaultKind::Field, 64),
    (b"\x02\x00\x00\xf0\x01", FaultKind::Field, 65),
    (b"\x03\x00\x00\x00\x00\x01", FaultKind::Field, 67),
    (b"\x06\x00\x40", FaultKind::Field, 64),
    (b"\x07\x40\x00", FaultKind::Field, 63),
    (
        b"\x05\x00\x00\x00\x00\x00\x00\x00\x00\x00\x00\x00",
        FaultKind::Field,
        63,
    ),
    (b"\x01\x00\xff\xff", FaultKind::Short, 66),
    (b"\x04\x00\x0f\x42\x41", FaultKind::TooMany, 62),
    (b"\x09\x00\x04\x00\x0f\x42\x40", FaultKind::TooMany, 64),
    (
        b"\x04\x00\x0f\x42\x40\x00\x00\x00\x00\x00\x00\x00\x00\x09\x00",
        FaultKind::TooMany,
        75,
    ),
    (
        b"\x04\x00\x0f\x42\x40\x00\x00\x00\x00\x00\x00\x00\x00\x0a",
        FaultKind::Tag,
        75,
    ),
];

/// Events after the header of `THREE_SENDERS_ONE_LIAR` at its corrupt process, and the place of its number: a Submit and a Pass.
const AT_THE_LIAR: [(&[u8], usize); 2] = [
    (b"\x01\x03\x00\x00", 180),
    (b"\x03\x00\x00\x00\x00\x03", 184),
];

/// A Lie of process 3 to 0, 1 and 2, up to the length of its statement.
const LIE: &[u8] = b"\x05\x03\x00\x00\x00\x00\x00\x00\x00\x07";

/// Lengths and statements that no Lie may have: none at all, no kind, a byte too many, a cut of 1,025, a place with a count of one.
const NO_STATEMENTS: [&[u8]; 5] = [
    b"\x00\x00",
    b"\x00\x01\xff",
    b"\x00\x06\x07\x00\x00\x00\x00\x00",
    b"\x00\x05\x07\x00\x00\x04\x01",
    b"\x00\x09\x0c\x00\x00\x00\x00\x01\x00\x00\x00",
];

/// The header of a schedule, which has `header` bytes, and other events after it.
fn after(alloc: Global, schedule: &[u8], header: usize, events: &[u8]) -> Result<Vec<u8>, Fail> {
    let mut bytes = schedule.to_vec(alloc)?;
    bytes.truncate(header);
    bytes.extend_from_slice(events)?;
    Ok(bytes)
}

#[test]
fn a_schedule_that_ends_within_a_field(rt: HostRuntime) -> Result<(), Fail> {
    assert!(rt; is_fault(rt.alloc(), NO_BYTES, FaultKind::Short, 0)?);
    let mut place = 0;
    for len in 0..ONE_MEMBER.len() {
        if FIELDS.contains(&len) {
            place = len;
        }
        if len != 62 {
            let front = after(rt.alloc(), ONE_MEMBER, len, &[])?;
            assert!(rt; is_fault(rt.alloc(), &front, FaultKind::Short, place)?);
        }
    }
    Ok(())
}

/// The schedule with another byte at a place.
fn changed(alloc: Global, schedule: &[u8], place: usize, value: u8) -> Result<Vec<u8>, Fail> {
    let mut bytes = schedule.to_vec(alloc)?;
    if let Some(byte) = bytes.get_mut(place) {
        *byte = value;
    }
    Ok(bytes)
}

#[test]
fn a_field_of_the_header_with_a_wrong_value(rt: HostRuntime) -> Result<(), Fail> {
    assert!(rt; is_fault(rt.alloc(), WRONG_MAGIC, FaultKind::Magic, 0)?);
    for (schedule, place, value, kind) in CHANGED {
        let bytes = changed(rt.alloc(), schedule, place, value)?;
        assert!(rt; is_fault(rt.alloc(), &bytes, kind, place)?);
    }
    Ok(())
}

#[test]
fn a_field_of_an_event_with_a_wrong_value(rt: HostRuntime) -> Result<(), Fail> {
    for (events, kind, place) in ALONE {
        let bytes = after(rt.alloc(), ONE_MEMBER, 62, events)?;
        assert!(rt; is_fault(rt.alloc(), &bytes, kind, place)?);
    }
    Ok(())
}

#[test]
fn an_event_at_a_corrupt_process(rt: HostRuntime) -> Result<(), Fail> {
    for (events, place) in AT_THE_LIAR {
        let bytes = after(rt.alloc(), THREE_SENDERS_ONE_LIAR, 179, events)?;
        assert!(rt; is_fault(rt.alloc(), &bytes, FaultKind::Field, place)?);
    }
    Ok(())
}

#[test]
fn a_lie_that_is_no_statement(rt: HostRuntime) -> Result<(), Fail> {
    for statement in NO_STATEMENTS {
        let mut bytes = after(rt.alloc(), THREE_SENDERS_ONE_LIAR, 179, LIE)?;
        bytes.extend_from_slice(statement)?;
        assert!(rt; is_fault(rt.alloc(), &bytes, FaultKind::Field, 191)?);
    }
    Ok(())
}

/// The header of `ONE_MEMBER`, and `count` Submits of the longest payload after it.
fn with_submits(alloc: Global, count: u32) -> Result<Vec<u8>, Fail> {
    let mut bytes = after(alloc, ONE_MEMBER, 62, &[])?;
    for _ in 0..count {
        bytes.extend_from_slice(&[1, 0, 0xff, 0xff])?;
        bytes.extend_from_slice(&[0; 65_535])?;
    }
    Ok(bytes)
}

/// The last of 1,024 Submits passes the limit.
#[test]
fn more_bytes_than_a_schedule_may_have(rt: HostRuntime) -> Result<(), Fail> {
    let bytes = with_submits(rt.alloc(), 1024)?;
    assert!(rt; is_fault(rt.alloc(), &bytes, FaultKind::TooLong, 67_108_864)?);
    Ok(())
}

/// Whether a schedule has no report since its run passes on a frame that is not sent.
fn is_not_sent(alloc: Global, schedule: &[u8], wanted: ReplayFault) -> Result<bool, Fail> {
    Ok(fault(alloc, schedule)? == wanted)
}

/// The second schedule sends one frame in its first event, and passes on the next.
#[test]
fn a_frame_that_is_not_sent(rt: HostRuntime) -> Result<(), Fail> {
    let none_sent = ReplayFault::NoSuchFrame {
        event: 0,
        frame: 0,
        sent: 0,
    };
    assert!(rt; is_not_sent(rt.alloc(), FRAME_NOT_SENT, none_sent)?);
    let events = b"\x01\x00\x00\x01a\x03\x00\x00\x00\x01\x01";
    let bytes = after(rt.alloc(), THREE_SENDERS, 179, events)?;
    let one_sent = ReplayFault::NoSuchFrame {
        event: 1,
        frame: 1,
        sent: 1,
    };
    assert!(rt; is_not_sent(rt.alloc(), &bytes, one_sent)?);
    Ok(())
}

#[test]
fn a_fault_of_the_bytes_comes_before_one_of_the_run(rt: HostRuntime) -> Result<(), Fail> {
    assert!(rt; is_fault(rt.alloc(), TAG_BEFORE_FRAME, FaultKind::Tag, 68)?);
    Ok(())
}
