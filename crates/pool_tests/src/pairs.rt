ghost use Rattle.std.specs.Prelude.{◌≡◌, ◌<◌};
ghost use Rattle.message_defs.specs.Spelling.{IsClaim};
ghost use Rattle.stmt_codec.specs.Views.{claim as claim_of};

use claim_lists::{ClaimList, Conflicts};
use rp_base::Pid;
use std::process::Abort;
use stmt_codec::{Claim, Statement, spelled_len};

fn pid(n: u8) -> Pid
    requires { n < 64 }
    ensures { result ≡ n }
{
    Pid::new(n).unwrap()
}

// The length that an End says.
fn said(claim: &Claim<'_>) -> Option<u16> {
    match claim.statement {
        Statement::End { length, .. } => Some(length),
        _ => None,
    }
}

// What the claim at this place of the list says.
fn said_at(list: &ClaimList, place: usize) -> Option<u16> {
    match list.get(place) {
        Some(claim) => said(&claim),
        None => None,
    }
}

// What the heard claim of the pair at this place says.
fn heard_at(conflicts: &Conflicts, place: usize) -> Option<u16> {
    match conflicts.heard_at(place) {
        Some(claim) => said(&claim),
        None => None,
    }
}

// What the other claim of the pair at this place says.
fn other_at(conflicts: &Conflicts, place: usize) -> Option<u16> {
    match conflicts.other_at(place) {
        Some(claim) => said(&claim),
        None => None,
    }
}

fn put(rt: &impl Abort, list: &mut ClaimList, claim: &Claim<'_>)
    requires { IsClaim (claim_of claim.now) }
{
    let bytes = spelled_len(&claim.statement) + claim.signature.len();
    list.reserve(1, bytes).expect(rt, "memory");
    list.push(claim);
}

fn keep(rt: &impl Abort, conflicts: &mut Conflicts, heard: &Claim<'_>, other: &Claim<'_>)
    requires heard { IsClaim (claim_of heard.now) }
    requires other { IsClaim (claim_of other.now) }
{
    let heard_bytes = spelled_len(&heard.statement) + heard.signature.len();
    let other_bytes = spelled_len(&other.statement) + other.signature.len();
    conflicts
        .reserve(1, heard_bytes + other_bytes)
        .expect(rt, "memory");
    conflicts.keep(heard, other);
}

// Keeps that the signer said Ends of view 5 of these two lengths.
fn keep_ends(rt: &impl Abort, conflicts: &mut Conflicts, signer: Pid, length: u16, later: u16)
    requires length { length < 1024 }
    requires later { later < 1024 }
{
    let heard = Claim {
        signer,
        statement: Statement::End { view: 5, length },
        signature: b"s",
    };
    let other = Claim {
        signer,
        statement: Statement::End {
            view: 5,
            length: later,
        },
        signature: b"t",
    };
    keep(rt, conflicts, &heard, &other);
}

#[test]
fn the_first_pair_of_each_signer_stays(rt: HostRuntime) {
    let rt = &rt;
    let mut conflicts = Conflicts::new(rt.alloc());
    assert!(rt; !conflicts.has_pair(pid(1)) && conflicts.len() == 0);
    keep_ends(rt, &mut conflicts, pid(1), 3, 4);
    keep_ends(rt, &mut conflicts, pid(2), 0, 1);
    keep_ends(rt, &mut conflicts, pid(1), 3, 5);
    assert!(rt; conflicts.len() == 2);
    assert!(rt;
        conflicts.has_pair(pid(1)) && conflicts.has_pair(pid(2)) && !conflicts.has_pair(pid(0))
    );
    for (place, heard, other) in [
        (0, Some(3), Some(4)),
        (1, Some(0), Some(1)),
        (2, None, None),
    ] {
        assert!(rt; heard_at(&conflicts, place) == heard && other_at(&conflicts, place) == other);
    }
}

#[test]
fn claims_come_back_in_order(rt: HostRuntime) {
    let rt = &rt;
    let mut list = ClaimList::new(rt.alloc());
    let first = Claim {
        signer: pid(7),
        statement: Statement::End { view: 0, length: 9 },
        signature: b"signature",
    };
    put(rt, &mut list, &first);
    put(rt, &mut list, &first);
    assert!(rt; list.len() == 2 && said_at(&list, 1) == Some(9) && said_at(&list, 2).is_none());
    list.clear();
    assert!(rt; list.len() == 0 && said_at(&list, 0).is_none());
}
