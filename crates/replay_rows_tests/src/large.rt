use crate::asking::is_report;
use crate::data::ONE_MEMBER;
use schedule_file::write_schedule;
use schedule_making::generate;
use std::alloc::Global;
use std::test::Fail;

/// What another program, in Python, writes of the schedule that it makes from the number 1: the short report.
const FROM_ONE: &[u8] = b"rampart report 1
events 2160
refused 100
process 0 open 21 1000 4434
process 1 open 21 1000 3413
process 2 open 21 1000 3393
honest yes
bounded yes
agree yes
sound yes
";

/// What another program, in Python, writes of `ONE_MEMBER` with a payload of 65,535 bytes, the most that a schedule can hold.
const LONGEST_PAYLOAD: &[u8] = b"rampart report 1
events 1
refused 0 0 toolong
process 0 open 1 0 0
view 0 0 : 0
honest yes
bounded yes
agree yes
sound yes
";

/// What another program, in Python, writes of a group of one that renews its view as often as it can, and once more. A view takes a Renew
/// and a Tick.
const ALL_VIEWS: &[u8] = b"rampart report 1
events 2047
refused 1
process 0 open 1024 0 5115
honest yes
bounded yes
agree yes
sound yes
";

/// The schedule that is made from the number 1.
fn made(alloc: Global) -> Result<Vec<u8>, Fail> {
    let mut schedule = Vec::new(alloc);
    write_schedule(&generate(alloc, 1)?, &mut schedule)?;
    Ok(schedule)
}

/// The header of `ONE_MEMBER`, and these bytes after it, `times` times.
fn after_header(alloc: Global, events: &[u8], times: u32) -> Result<Vec<u8>, Fail> {
    let mut schedule = ONE_MEMBER.to_vec(alloc)?;
    schedule.truncate(62);
    for _ in 0..times {
        schedule.extend_from_slice(events)?;
    }
    Ok(schedule)
}

#[test]
fn a_large_schedule(rt: HostRuntime) -> Result<(), Fail> {
    let schedule = made(rt.alloc())?;
    assert!(rt; is_report(rt.alloc(), &schedule, true, FROM_ONE)?);
    Ok(())
}

#[test]
fn the_longest_payload_is_refused(rt: HostRuntime) -> Result<(), Fail> {
    let mut schedule = after_header(rt.alloc(), &[1, 0, 0xff, 0xff], 1)?;
    schedule.extend_from_slice(&[0; 65_535])?;
    assert!(rt; is_report(rt.alloc(), &schedule, false, LONGEST_PAYLOAD)?);
    Ok(())
}

#[test]
fn the_last_view_has_no_next(rt: HostRuntime) -> Result<(), Fail> {
    let mut schedule = after_header(rt.alloc(), &[8, 0, 9, 0], 1023)?;
    schedule.extend_from_slice(&[8, 0])?;
    assert!(rt; is_report(rt.alloc(), &schedule, true, ALL_VIEWS)?);
    Ok(())
}
