ghost use Rattle.std.specs.Prelude.{◌≡◌, ◌<◌, ◌≤◌, length as len, not, ◌==◌};
ghost use Rattle.message_defs.specs.Spelling.{IsClaim};
ghost use Rattle.stmt_codec.specs.Views.{claim as claim_of};

use arrayvec::ArrayVec;
use claim_pool::{Message, Own, Pool, Verdict, is_signed};
use own_place::SignedSlots;
use rp_base::{GroupId, NoMemory, Pid, PidSet, Roster, Scheme};
use std::process::Abort;
use stmt_codec::{Claim, Slot, Statement, claim_len};
use view_table::View;

// A signature is valid where it is not empty.
struct NotEmpty;

impl Scheme for NotEmpty {
    ghost use Rattle.std.specs.Prelude.{not, length, ◌==◌};

    ghost valid = { λ s key body sig. not (length sig == 0) };

    fn verify(&self, _key: &[u8], _body: &[u8], sig: &[u8]) -> bool {
        !sig.is_empty()
    }
}

fn pid(n: u8) -> Pid
    requires { n < 64 }
    ensures { result ≡ n }
{
    Pid::new(n).unwrap()
}

// Processes 0, 1 and 2 have keys.
fn roster(rt: &impl AllocGlobal) -> Result<Roster, NoMemory> {
    let mut roster = Roster::new(rt.alloc())?;
    roster.add(pid(0), b"zero")?;
    roster.add(pid(1), b"one")?;
    roster.add(pid(2), b"two")?;
    Ok(roster)
}

// None of the messages of three members.
fn none_of_three() -> ArrayVec<u16, 16> {
    let mut counts = ArrayVec::new();
    counts.push(0);
    counts.push(0);
    counts.push(0);
    counts
}

// Nothing is signed or delivered yet in a view of three members.
fn own(rt: &impl AllocGlobal) -> Own {
    Own {
        me: pid(0),
        position: None,
        keyed: PidSet::new(),
        signed: SignedSlots::new(rt.alloc()),
        ended: false,
        rank: 0,
        ready: None,
        ordered: 0,
        orders: none_of_three(),
        delivered: 0,
        counts: none_of_three(),
        earlier: 0,
    }
}

fn hear(rt: &impl Abort, pool: &mut Pool, roster: &Roster, own: &Own, claim: &Claim<'_>) -> Verdict
    requires { IsClaim (claim_of claim.now) }
{
    let bytes = claim_len(&claim);
    pool.reserve(1, bytes).expect(rt, "memory");
    assert!(rt; own.counts.len() == pool.view().members().len());
    pool.take(&NotEmpty, roster, &GroupId([7; 16]), own, claim)
}

// An End of this view and length, with this signature.
fn end<'a, R: Abort + AllocGlobal>(
    rt: &R,
    pool: &mut Pool,
    roster: &Roster,
    signer: Pid,
    view: u16,
    length: u16,
    signature: &'a [u8],
) -> Verdict
    requires view { view ≤ 1023 }
    requires length { length ≤ 1024 }
    requires short { len signature.now ≤ 16384 }
{
    let claim = Claim {
        signer,
        statement: Statement::End { view, length },
        signature,
    };
    hear(rt, pool, roster, &own(rt), &claim)
}

// An Echo of message 31 of process 1 in view 0.
fn echo<R: Abort + AllocGlobal>(rt: &R, pool: &mut Pool, roster: &Roster, signer: Pid) -> Verdict {
    let claim = Claim {
        signer,
        statement: Statement::Echo {
            view: 0,
            sender: pid(1),
            number: 31,
            payload: b"a",
        },
        signature: b"s",
    };
    hear(rt, pool, roster, &own(rt), &claim)
}

// Whether the process is heard to say an End of view 5 with this length.
fn says_end(pool: &Pool, signer: Pid, said: u16) -> bool {
    match pool.first(signer, 7, Slot::View { view: 5 }) {
        Some(Statement::End { length, .. }) => length == said,
        _ => false,
    }
}

// How many bytes the signature of its heard End of view 5 has.
fn end_signature(pool: &Pool, signer: Pid) -> Option<usize> {
    match pool.heard_claim(signer, 7, Slot::View { view: 5 }) {
        Some(claim) => Some(claim.signature.len()),
        None => None,
    }
}

// Who certifies message 31 of process 1 in view 0, as a mask.
fn certifiers(pool: &Pool) -> Option<u64> {
    let slot = Slot::Message {
        view: 0,
        sender: pid(1),
        number: 31,
    };
    match pool.certificate::<Message>(slot) {
        Some(certificate) => Some(certificate.signers().mask()),
        None => None,
    }
}

// Whether all that is heard is process 1's End of length 3 in view 5, with a signature of one byte.
fn has_one_end(pool: &Pool) -> bool {
    pool.size() == (1, 6)
        && pool.claim_at(1).is_none()
        && says_end(pool, pid(1), 3)
        && !says_end(pool, pid(3), 3)
        && end_signature(pool, pid(1)) == Some(1)
        && pool.count(&Statement::End { view: 5, length: 3 }) == 1
        && pool.placed_len() == 0
        && pool.fixed_len() == 0
}

fn is_checked(roster: &Roster, claim: &Claim<'_>) -> bool
    requires { IsClaim (claim_of claim.now) }
{
    is_signed(&NotEmpty, roster, &GroupId([7; 16]), claim)
}

#[test]
fn the_eight_verdicts(rt: HostRuntime) -> Result<(), NoMemory> {
    let rt = &rt;
    let roster = roster(rt)?;
    let view = View::new(5, &[pid(0), pid(1), pid(3)]).expect(rt, "a view");
    let mut pool = Pool::new(rt.alloc(), view)?;
    let pool = &mut pool;
    let outside = [
        end(rt, pool, &roster, pid(1), 4, 0, b"s"),
        end(rt, pool, &roster, pid(1), 6, 0, b"s"),
        end(rt, pool, &roster, pid(2), 5, 0, b"s"),
    ];
    assert!(rt; outside == [Verdict::Old, Verdict::Early, Verdict::Stranger]);
    let ahead = Claim {
        signer: pid(1),
        statement: Statement::Init {
            view: 5,
            number: 32,
            payload: b"",
        },
        signature: b"s",
    };
    assert!(rt; hear(rt, pool, &roster, &own(rt), &ahead) == Verdict::OutOfWindow);
    let within = [
        end(rt, pool, &roster, pid(1), 5, 3, b""),
        end(rt, pool, &roster, pid(3), 5, 3, b"s"),
        end(rt, pool, &roster, pid(1), 5, 3, b"s"),
        end(rt, pool, &roster, pid(1), 5, 3, b""),
        end(rt, pool, &roster, pid(1), 5, 4, b"s"),
    ];
    assert!(rt; within[..2] == [Verdict::Unsigned; 2]);
    assert!(rt; within[2..] == [Verdict::Heard, Verdict::Known, Verdict::Conflict]);
    assert!(rt; has_one_end(pool));
    Ok(())
}

#[test]
fn an_echo_of_all_three_is_a_certificate(rt: HostRuntime) -> Result<(), NoMemory> {
    let rt = &rt;
    let roster = roster(rt)?;
    let view = View::new(0, &[pid(2), pid(1), pid(0)]).expect(rt, "a view");
    let mut pool = Pool::new(rt.alloc(), view)?;
    let pool = &mut pool;
    assert!(rt; echo(rt, pool, &roster, pid(0)) == Verdict::Heard);
    assert!(rt; echo(rt, pool, &roster, pid(1)) == Verdict::Heard);
    assert!(rt; certifiers(pool).is_none());
    assert!(rt; echo(rt, pool, &roster, pid(2)) == Verdict::Heard);
    assert!(rt; certifiers(pool) == Some(7));
    Ok(())
}

#[test]
fn a_claim_is_checked_by_its_signature(rt: HostRuntime) -> Result<(), NoMemory> {
    let roster = roster(&rt)?;
    let signed = Claim {
        signer: pid(1),
        statement: Statement::End { view: 0, length: 0 },
        signature: b"s",
    };
    assert!(rt; is_checked(&roster, &signed));
    let unsigned = Claim {
        signer: pid(1),
        statement: Statement::End { view: 0, length: 0 },
        signature: b"",
    };
    assert!(rt; !is_checked(&roster, &unsigned));
    Ok(())
}
