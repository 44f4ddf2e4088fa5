use schedule_file::{Key, OtsType, ScheduleEvent, Scheme, write_schedule};
use schedule_reading::{ScheduleFault, read_schedule};
use std::alloc::{AllocError, Global};
use std::test::Fail;

// Process 0 alone, with a plain key of 32 bytes 0 that makes 100,000 signatures: a header of 62 bytes.
fn alone(alloc: Global) -> Result<Vec<u8>, AllocError> {
    let mut bytes = Vec::new(alloc);
    bytes.extend_from_slice(b"RPS1\x00")?;
    bytes.extend_from_slice(&[0; 16])?;
    bytes.extend_from_slice(&[1, 0, 0])?;
    bytes.extend_from_slice(&[0; 32])?;
    bytes.extend_from_slice(&[0, 1, 0x86, 0xa0, 1, 0])?;
    Ok(bytes)
}

// Process 0 is correct and process 1 corrupt, with HSS keys of two levels, and a place has up to four messages.
fn levels(alloc: Global) -> Result<Vec<u8>, AllocError> {
    let mut bytes = Vec::new(alloc);
    bytes.extend_from_slice(b"RPS3\x02\x04")?;
    bytes.extend_from_slice(&[9; 16])?;
    bytes.extend_from_slice(&[2, 0, 0, 2, 5, 4])?;
    bytes.extend_from_slice(&[7; 48])?;
    bytes.extend_from_slice(&[1, 1, 2, 5, 4])?;
    bytes.extend_from_slice(&[8; 48])?;
    bytes.extend_from_slice(&[2, 1, 0])?;
    Ok(bytes)
}

// A schedule of 67,108,864 bytes, the most that one has: 1,024 Submits of 65,535 bytes after that header, and one of 962.
fn longest(alloc: Global) -> Result<Vec<u8>, AllocError> {
    let mut bytes = alone(alloc)?;
    for _ in 0..1024 {
        bytes.extend_from_slice(&[1, 0, 0xff, 0xfb])?;
        bytes.extend_from_slice(&[0; 65_531])?;
    }
    bytes.extend_from_slice(&[1, 0, 0x03, 0xbe])?;
    bytes.extend_from_slice(&[0; 958])?;
    Ok(bytes)
}

#[test]
fn one_submit_is_read(rt: HostRuntime) -> Result<(), Fail> {
    let mut bytes = alone(rt.alloc())?;
    bytes.extend_from_slice(&[1, 0, 0, 2, 0x68, 0x69])?;
    let schedule = read_schedule(rt.alloc(), &bytes)?;
    assert!(rt; schedule.header.scheme == Scheme::Plain && schedule.header.batch == 1);
    let [ScheduleEvent::Submit { at, payload }] = schedule.events.as_slice() else {
        panic!(rt; "one Submit");
    };
    assert_eq!(rt; (at.get(), payload.as_slice()), (0, b"hi".as_slice()));
    let mut out = Vec::new(rt.alloc());
    write_schedule(&schedule, &mut out)?;
    assert!(rt; out == bytes);
    Ok(())
}

#[test]
fn a_drain_and_a_lie_are_read(rt: HostRuntime) -> Result<(), Fail> {
    let mut bytes = levels(rt.alloc())?;
    bytes.extend_from_slice(&[4, 0, 0, 0, 5, 0, 0, 0, 0, 0, 0, 0, 3])?;
    bytes.extend_from_slice(&[5, 1, 0, 0, 0, 0, 0, 0, 0, 1, 0, 5, 7, 0, 0, 0, 4])?;
    let schedule = read_schedule(rt.alloc(), &bytes)?;
    assert!(rt; schedule.header.scheme == Scheme::Hss && schedule.header.batch == 4);
    let [first, _] = schedule.header.processes.as_slice() else {
        panic!(rt; "two processes");
    };
    let Key::Hss {
        levels,
        height,
        ots,
        id,
        seed,
    } = first.key
    else {
        panic!(rt; "keys in levels");
    };
    assert!(rt; (levels, height, id, seed) == (2, 5, [7; 16], [7; 32]) && ots == OtsType::W8);
    let [drain, lie] = schedule.events.as_slice() else {
        panic!(rt; "two events");
    };
    let ScheduleEvent::Drain { count, to } = drain else {
        panic!(rt; "a Drain");
    };
    assert_eq!(rt; (*count, to.mask()), (5, 3));
    let ScheduleEvent::Lie {
        signer,
        to,
        statement,
    } = lie
    else {
        panic!(rt; "a Lie");
    };
    assert_eq!(rt;
        (signer.get(), to.mask(), statement.as_slice()),
        (1, 1, [7, 0, 0, 0, 4].as_slice())
    );
    Ok(())
}

#[test]
fn the_first_fault_is_reported_with_its_place(rt: HostRuntime) -> Result<(), Fail> {
    let fault = |bytes: &[u8]| read_schedule(rt.alloc(), bytes).err();
    assert!(rt; fault(&[]) == Some(ScheduleFault::Short { place: 0 }));
    assert!(rt; fault(b"RPX1") == Some(ScheduleFault::Magic { place: 0 }));
    let mut bytes = alone(rt.alloc())?;
    bytes.extend_from_slice(&[3, 0, 0, 0, 0, 0, 10])?;
    assert!(rt; fault(&bytes) == Some(ScheduleFault::Tag { place: 68 }));
    let mut bytes = alone(rt.alloc())?;
    bytes.extend_from_slice(&[4, 0, 0x0f, 0x42, 0x41])?;
    assert!(rt; fault(&bytes) == Some(ScheduleFault::TooMany { place: 62 }));
    let mut bytes = levels(rt.alloc())?;
    bytes.extend_from_slice(&[5, 0])?;
    assert!(rt; fault(&bytes) == Some(ScheduleFault::Field { place: 133 }));
    Ok(())
}

#[test]
fn past_the_limit_the_first_fault_is_reported(rt: HostRuntime) -> Result<(), Fail> {
    let fault = |bytes: &[u8]| read_schedule(rt.alloc(), bytes).err();
    let mut bytes = longest(rt.alloc())?;
    assert_eq!(rt; bytes.len(), 67_108_864);
    assert!(rt; fault(&bytes).is_none());
    bytes.push(0)?;
    assert!(rt; fault(&bytes) == Some(ScheduleFault::TooLong { place: 67_108_864 }));
    if let Some(byte) = bytes.get_mut(2) {
        *byte = b'X';
    }
    assert!(rt; fault(&bytes) == Some(ScheduleFault::Magic { place: 0 }));
    Ok(())
}
