use crate::asking::is_report;
use crate::data::NO_EVENTS;
use std::alloc::Global;
use std::test::Fail;

/// Bytes that are no frame, in the order of the report's lines.
const FRAMES: [&[u8]; 10] = [
    b"",
    b"\x02",
    b"\x01\x04",
    b"\x01\x01\0",
    b"\x01\x01\x01\0\0\x01\x03\0\0",
    b"\x01\x02\x01\0\x07\x01\0\0\0\0\0\0\x01\x03\0\0",
    b"\x01\x01\x01\0\x05\x06\0\0\x03\x01\x01\x03\0\0",
    b"\x01\x01\x01\0\x05\x07\0\0\x04\x01\x01\x03\0\0",
    b"\x01\x01\x01\0\x0a\x08\0\0\x01\x01\x01\x03\0\0\0\x01\x03\0\0",
    b"\x01\x03\x04\0\0\0",
];

/// What another program, in Python, writes of `NO_EVENTS` with a Raw of each of the frames, from process 3 to process 0.
const REPORT: &[u8] = b"rampart report 1
events 10
refused 0 0 short
refused 1 0 version
refused 2 0 kind
refused 3 0 count
refused 4 0 statement
refused 5 0 misplaced
refused 6 0 statement
refused 7 0 range
refused 8 0 range
refused 9 0 range
process 0 open 1 0 0
view 0 0 : 0 1 2 3
process 1 open 1 0 0
view 1 0 : 0 1 2 3
process 2 open 1 0 0
view 2 0 : 0 1 2 3
process 3 open 1 0 0
view 3 0 : 0 1 2 3
honest yes
bounded yes
agree yes
sound yes
";

/// `NO_EVENTS`, and a Raw of each frame.
fn schedule(alloc: Global) -> Result<Vec<u8>, Fail> {
    let mut schedule = NO_EVENTS.to_vec(alloc)?;
    for frame in FRAMES {
        let len = u16::try_from(frame.len()).unwrap_or(u16::MAX);
        schedule.extend_from_slice(&[2, 0, 3])?;
        schedule.extend_from_slice(&len.to_be_bytes())?;
        schedule.extend_from_slice(frame)?;
    }
    Ok(schedule)
}

#[test]
fn the_table_of_hostile_frames(rt: HostRuntime) -> Result<(), Fail> {
    let bytes = schedule(rt.alloc())?;
    assert!(rt; is_report(rt.alloc(), &bytes, false, REPORT)?);
    Ok(())
}
