use crate::runs::{TURNS, reopened, run};
use rp_devices::{Left, MemDisk};
use std::alloc::Global;
use std::process::Abort;
use std::test::Fail;

// A new journal is begun by the calls 0 to 2, read by one and finished by two. Each turn then takes four.
const FIRST_TURN: u64 = 6;

const IMAGES: [Left; 3] = [Left::Nothing, Left::All, Left::Each(0xa5)];

// A disk on which a run was stopped at this call, and how many turns it took in.
fn stopped(rt: &impl Abort, alloc: Global, call: u64) -> (MemDisk, u8) {
    let mut disk = MemDisk::new(alloc, Vec::new(alloc), Vec::new(alloc))
        .ok()
        .expect(rt, "memory");
    disk.stop_at(call);
    let done = run(rt, alloc, &mut disk);
    (disk, done)
}

fn entries_of(rt: &impl Abort, alloc: Global, disk: &MemDisk, left: Left) -> Option<u8> {
    let image = disk.image(left).ok().expect(rt, "memory");
    reopened(rt, alloc, image)
}

#[test]
fn stopped_before_the_gate_is_written_the_turn_is_absent(rt: HostRuntime) -> Result<(), Fail> {
    for call in [FIRST_TURN, FIRST_TURN + 1] {
        let (disk, done) = stopped(&rt, rt.alloc(), call);
        assert!(rt; done == 0);
        for left in IMAGES {
            assert!(rt; entries_of(&rt, rt.alloc(), &disk, left) == Some(0));
        }
    }
    Ok(())
}

#[test]
fn stopped_at_the_gate_it_is_absent_or_whole(rt: HostRuntime) -> Result<(), Fail> {
    for call in [FIRST_TURN + 2, FIRST_TURN + 3] {
        let (disk, done) = stopped(&rt, rt.alloc(), call);
        assert!(rt; done == 0);
        assert!(rt; entries_of(&rt, rt.alloc(), &disk, Left::Nothing) == Some(0));
        assert!(rt; entries_of(&rt, rt.alloc(), &disk, Left::All) == Some(1));
        assert!(rt; entries_of(&rt, rt.alloc(), &disk, Left::Each(0xa5)) == Some(0));
    }
    Ok(())
}

#[test]
fn after_the_second_sync_it_is_whole(rt: HostRuntime) -> Result<(), Fail> {
    let (disk, done) = stopped(&rt, rt.alloc(), FIRST_TURN + 4);
    assert!(rt; done == 1);
    for left in IMAGES {
        assert!(rt; entries_of(&rt, rt.alloc(), &disk, left) == Some(1));
    }
    Ok(())
}

// Stopped before its first sync is made, a new journal may not be begun: the disk is empty or torn.
#[test]
fn stopped_in_start_it_is_begun_anew_or_no_journal(rt: HostRuntime) -> Result<(), Fail> {
    for call in 0..3 {
        let (disk, done) = stopped(&rt, rt.alloc(), call);
        assert!(rt; done == 0);
        assert!(rt; entries_of(&rt, rt.alloc(), &disk, Left::Nothing) == Some(0));
        assert!(rt; entries_of(&rt, rt.alloc(), &disk, Left::All) == Some(0));
        let torn = entries_of(&rt, rt.alloc(), &disk, Left::Each(0xa5));
        assert!(rt; torn == if call == 0 { Some(0) } else { None });
    }
    Ok(())
}

// How many entries are found where a run was stopped at this call: those of the turns that were taken in, and one more where its
// gate was written and that is kept.
fn expected(call: u64, left: Left) -> u64 {
    let behind = call.saturating_sub(FIRST_TURN);
    let taken = (behind / 4).min(u64::from(TURNS));
    if taken < u64::from(TURNS) && behind % 4 >= 2 && left == Left::All {
        taken + 1
    } else {
        taken
    }
}

#[test]
fn a_run_that_is_stopped_anywhere_is_read_again(rt: HostRuntime) -> Result<(), Fail> {
    for call in 3..FIRST_TURN + 4 * u64::from(TURNS) + 4 {
        let (disk, done) = stopped(&rt, rt.alloc(), call);
        assert!(rt; u64::from(done) == expected(call, Left::Nothing));
        for left in IMAGES {
            let found = entries_of(&rt, rt.alloc(), &disk, left);
            assert!(rt; matches!(found, Some(count) if u64::from(count) == expected(call, left)));
        }
    }
    Ok(())
}
