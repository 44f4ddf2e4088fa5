ghost use Rattle.std.specs.Prelude.{◌<◌};

use crate::group::pid;
use claim_firsts::{Conviction, Firsts, OwnClaim};
use rp_base::{NoMemory, Pid, PidSet};
use std::alloc::Global;
use std::process::Abort;
use std::test::Fail;
use stmt_codec::{Claim, Payload, Statement};

// Shows an End of view 5 of this length.
fn see_end(rt: &impl Abort, firsts: &mut Firsts<'_>, signer: Pid, length: u16)
    requires { length < 1024 }
{
    let claim = Claim {
        signer,
        statement: Statement::End { view: 5, length },
        signature: b"s",
    };
    firsts.see(&claim).expect(rt, "memory");
}

// The signer says itself an End of view 5 of this length.
fn say_end(
    alloc: Global,
    firsts: &mut Firsts<'_>,
    signer: Pid,
    length: u8,
) -> Result<(), NoMemory> {
    let claim = OwnClaim {
        signer,
        statement: Payload::from_vec(Vec::from_slice(alloc, &[7, 0, 5, 0, length])?),
        signature: Payload::from_vec(Vec::from_slice(alloc, b"s")?),
    };
    firsts.see_own(claim)
}

// The length that an End says.
fn said(claim: &Claim<'_>) -> Option<u16> {
    match claim.statement {
        Statement::End { length, .. } => Some(length),
        _ => None,
    }
}

// Who is convicted at this place, and by which two lengths.
fn reported(all: &[Conviction<'_>], place: usize) -> Option<(u8, Option<u16>, Option<u16>)> {
    match all.get(place) {
        Some(c) => Some((c.process.get(), said(&c.first), said(&c.second))),
        None => None,
    }
}

#[test]
fn the_first_pair_of_each_is_reported_by_process_number(rt: HostRuntime) -> Result<(), Fail> {
    let mut firsts = Firsts::new(rt.alloc());
    for (signer, length) in [(3, 1), (1, 3), (1, 4), (3, 2), (1, 5), (2, 7)] {
        see_end(&rt, &mut firsts, pid(signer), length);
    }
    assert_eq!(rt; firsts.convicted().mask(), 0b1010);
    let all = firsts.convictions(rt.alloc())?;
    assert_eq!(rt; reported(all.as_slice(), 0), Some((1, Some(3), Some(4))));
    assert_eq!(rt; reported(all.as_slice(), 1), Some((3, Some(1), Some(2))));
    assert_eq!(rt; all.len(), 2);
    Ok(())
}

#[test]
fn whoever_repeats_itself_is_not_convicted(rt: HostRuntime) -> Result<(), Fail> {
    let mut firsts = Firsts::new(rt.alloc());
    for (signer, length) in [(3, 1), (1, 3), (3, 1), (2, 4), (1, 3)] {
        see_end(&rt, &mut firsts, pid(signer), length);
    }
    assert_eq!(rt; firsts.convicted().mask(), 0);
    let all = firsts.convictions(rt.alloc())?;
    assert_eq!(rt; all.len(), 0);
    Ok(())
}

#[test]
fn a_slot_is_answered_by_the_signers_own_word(rt: HostRuntime) -> Result<(), Fail> {
    let third = PidSet::from_mask(0b1000);
    let mut firsts = Firsts::new(rt.alloc());
    see_end(&rt, &mut firsts, pid(3), 1);
    let unanswered = firsts.is_answered(third);
    say_end(rt.alloc(), &mut firsts, pid(3), 1)?;
    let answered = firsts.is_answered(third);
    assert_eq!(rt; [unanswered, answered], [false, true]);

    // an own word that differs convicts
    say_end(rt.alloc(), &mut firsts, pid(3), 2)?;
    assert_eq!(rt; firsts.is_answered(third), false);
    let others = firsts.is_answered(PidSet::from_mask(0b0111));
    assert_eq!(rt; others, true);
    let all = firsts.convictions(rt.alloc())?;
    assert_eq!(rt; reported(all.as_slice(), 0), Some((3, Some(1), Some(2))));
    Ok(())
}
