use crate::data::{KIT, LINE};
use crate::{Snap, judge_line};
use kit_reading::read_kit;
use std::alloc::Global;
use std::process::Abort;
use std::test::Fail;

// What is judged of this line for the kit's node.
fn judged(rt: &impl Abort, alloc: Global, line: &[u8]) -> Option<Snap> {
    let Ok(kit) = read_kit(alloc, KIT) else {
        panic!(rt; "a kit");
    };
    let Ok(snap) = judge_line(alloc, &kit, line) else {
        panic!(rt; "memory");
    };
    snap
}

// The line with other digits from this one on.
fn altered(alloc: Global, at: u16, digits: &[u8]) -> Result<Vec<u8>, Fail> {
    let mut line = LINE.to_vec(alloc)?;
    let mut at = usize::from(at);
    for digit in digits {
        if let Some(old) = line.get_mut(at) {
            *old = *digit;
        }
        at = at.wrapping_add(1);
    }
    Ok(line)
}

#[test]
fn a_line_of_another_program_is_judged(rt: HostRuntime) -> Result<(), Fail> {
    let Some(snap) = judged(&rt, rt.alloc(), LINE) else {
        panic!(rt; "a snapshot");
    };
    assert!(rt; snap.place == 882);
    assert!(rt; snap.digest[0] == 0x38 && snap.digest[31] == 0x55);
    assert!(rt; snap.processes.len() == 2);
    assert!(rt; snap.processes[0].process.get() == 0 && snap.processes[0].entries == 3);
    assert!(rt; snap.processes[1].process.get() == 1 && snap.processes[1].entries == 3);
    Ok(())
}

#[test]
fn what_is_no_snapshot_of_the_node_is_refused(rt: HostRuntime) -> Result<(), Fail> {
    let alloc = rt.alloc();
    assert!(rt; judged(&rt, alloc, b"snap 00").is_none());
    let mut short = LINE.to_vec(alloc)?;
    assert!(rt; short.pop().is_some() && short.pop().is_some());
    assert!(rt; judged(&rt, alloc, short.as_slice()).is_none());

    // As many entries as the place, and one more.
    let most = altered(alloc, 205, b"0000000000000372")?;
    assert!(rt; judged(&rt, alloc, most.as_slice()).is_some());
    let more = altered(alloc, 205, b"0000000000000373")?;
    assert!(rt; judged(&rt, alloc, more.as_slice()).is_none());

    // The image of process 1 says that it is that of process 0.
    let other = altered(alloc, 1525, b"00")?;
    assert!(rt; judged(&rt, alloc, other.as_slice()).is_none());

    // A signature that is not valid.
    let forged = altered(alloc, 295, b"63")?;
    assert!(rt; judged(&rt, alloc, forged.as_slice()).is_none());

    // A length that no bytes are there for, and letters of no version.
    let long = altered(alloc, 221, b"ffffffff")?;
    assert!(rt; judged(&rt, alloc, long.as_slice()).is_none());
    let letters = altered(alloc, 11, b"33")?;
    assert!(rt; judged(&rt, alloc, letters.as_slice()).is_none());
    Ok(())
}
