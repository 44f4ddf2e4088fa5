ghost use Rattle.std.specs.Prelude.{◌≡◌, ◌<◌, ◌≤◌, length as len};
ghost use Rattle.message_defs.specs.Spelling.{IsClaim, IsBatch};
ghost use Rattle.stmt_codec.specs.Views.{claim as claim_of};

use arrayvec::ArrayVec;
use claim_pool::{Own, Pool, Verdict};
use multicast_rules::{
    counts_of, deliverable, echo_due, init_due, keep_due, message_held, order_due, place_due,
};
use own_place::SignedSlots;
use rp_base::{GroupId, NoMemory, Pid, PidSet, Roster, Scheme};
use std::process::Abort;
use stmt_codec::{Batch, Claim, Statement, claim_len};
use view_table::View;

// A signature is valid where it is not empty.
struct NotEmpty;

impl Scheme for NotEmpty {
    ghost use Rattle.std.specs.Prelude.{not, length, ◌==◌};

    ghost valid = { λ s key body sig. not (length sig == 0) };

    fn verify(&self, _key: &[u8], _body: &[u8], sig: &[u8]) -> bool {
        !sig.is_empty()
    }
}

fn pid(n: u8) -> Pid
    requires { n < 64 }
    ensures { result ≡ n }
{
    Pid::new(n).unwrap()
}

// Processes 0 to 3 have keys.
fn roster(rt: &impl AllocGlobal) -> Result<Roster, NoMemory> {
    let mut roster = Roster::new(rt.alloc())?;
    roster.add(pid(0), b"zero")?;
    roster.add(pid(1), b"one")?;
    roster.add(pid(2), b"two")?;
    roster.add(pid(3), b"three")?;
    Ok(roster)
}

fn counts(of_members: &[u16]) -> ArrayVec<u16, 16>
    requires { len of_members.now ≤ 16 }
{
    ArrayVec::try_from(of_members).unwrap()
}

// The place of a member of this rank which has signed nothing yet and delivered nothing: `none` has a 0 for each member.
fn own(rt: &impl AllocGlobal, me: Pid, rank: u8, none: &[u16]) -> Own
    requires { len none.now ≤ 16 }
{
    Own {
        me,
        position: Some(rank),
        keyed: PidSet::new(),
        signed: SignedSlots::new(rt.alloc()),
        ended: false,
        rank: 0,
        ready: None,
        ordered: 0,
        orders: counts(none),
        delivered: 0,
        counts: counts(none),
        earlier: 0,
    }
}

// The pool hears the claim.
fn hear(rt: &impl Abort, pool: &mut Pool, own: &Own, roster: &Roster, claim: &Claim<'_>)
    requires { IsClaim (claim_of claim.now) }
{
    let bytes = claim_len(&claim);
    pool.reserve(1, bytes).expect(rt, "memory");
    assert!(rt; own.counts.len() == pool.view().members().len());
    let verdict = pool.take(&NotEmpty, roster, &GroupId([7; 16]), own, claim);
    assert!(rt; verdict == Verdict::Heard);
}

// An Init of view 0.
fn init(rt: &impl Abort, pool: &mut Pool, own: &Own, roster: &Roster, sender: Pid, number: u16)
    requires { number ≤ 1023 }
{
    let claim = Claim {
        signer: sender,
        statement: Statement::Init {
            view: 0,
            number,
            payload: b"a",
        },
        signature: b"s",
    };
    hear(rt, pool, own, roster, &claim);
}

// An Echo of view 0.
fn echo(
    rt: &impl Abort,
    pool: &mut Pool,
    own: &Own,
    roster: &Roster,
    signer: Pid,
    sender: Pid,
    number: u16,
)
    requires { number ≤ 1023 }
{
    let claim = Claim {
        signer,
        statement: Statement::Echo {
            view: 0,
            sender,
            number,
            payload: b"a",
        },
        signature: b"s",
    };
    hear(rt, pool, own, roster, &claim);
}

// Echoes of view 0 by these members.
fn echoes(
    rt: &impl Abort,
    pool: &mut Pool,
    own: &Own,
    roster: &Roster,
    by: &[Pid],
    sender: Pid,
    number: u16,
)
    requires { number ≤ 1023 }
{
    for signer in by {
        echo(rt, pool, own, roster, *signer, sender, number);
    }
}

// An Order of place 0 of view 0.
fn ordered(rt: &impl Abort, pool: &mut Pool, own: &Own, roster: &Roster, signer: Pid, batch: Batch)
    requires { IsBatch batch }
{
    let claim = Claim {
        signer,
        statement: Statement::Order {
            view: 0,
            place: 0,
            batch,
        },
        signature: b"s",
    };
    hear(rt, pool, own, roster, &claim);
}

// A Place of place 0 of view 0.
fn placed(rt: &impl Abort, pool: &mut Pool, own: &Own, roster: &Roster, signer: Pid, batch: Batch)
    requires { IsBatch batch }
{
    let claim = Claim {
        signer,
        statement: Statement::Place {
            view: 0,
            place: 0,
            batch,
        },
        signature: b"s",
    };
    hear(rt, pool, own, roster, &claim);
}

fn initial(rt: &impl Abort, pool: &Pool, own: &Own, accepted: u32) -> Option<u16> {
    assert!(rt; own.counts.len() == pool.view().members().len());
    init_due(pool, own, accepted)
}

fn order(rt: &impl Abort, pool: &Pool, own: &Own, batch_limit: u8) -> Option<(u16, Batch)>
    requires some { 1 ≤ batch_limit }
    requires few { batch_limit ≤ 16 }
{
    assert!(rt; own.orders.len() == pool.view().members().len());
    order_due(pool, own, batch_limit)
}

fn delivered(rt: &impl Abort, pool: &Pool, own: &Own, sender: Pid) -> u16 {
    assert!(rt; own.counts.len() == pool.view().members().len());
    counts_of(pool, own, sender)
}

// Two members, process 1 before process 0. Messages of both are certified at once: the one of least rank goes first, though its
// process number is greater.
#[test]
fn a_batch_goes_by_rank(rt: HostRuntime) -> Result<(), NoMemory> {
    let rt = &rt;
    let roster = &roster(rt)?;
    let members = [pid(1), pid(0)];
    let view = View::new(0, &members).expect(rt, "a view");
    let mut pool = Pool::new(rt.alloc(), view)?;
    let pool = &mut pool;
    let manager = own(rt, pid(1), 0, &[0, 0]);
    assert!(rt; order(rt, pool, &manager, 16).is_none());
    echoes(rt, pool, &manager, roster, &members, pid(0), 0);
    echoes(rt, pool, &manager, roster, &members, pid(0), 1);
    assert!(rt; !message_held(pool, pid(1), 0));
    echoes(rt, pool, &manager, roster, &members, pid(1), 0);
    let mut batch = Batch::of(pid(1), 0);
    assert!(rt; message_held(pool, pid(1), 0) && order(rt, pool, &manager, 1) == Some((0, batch)));
    batch.push(pid(0), 0);
    batch.push(pid(0), 1);
    assert!(rt; order(rt, pool, &manager, 16) == Some((0, batch)));
    let deputy = own(rt, pid(0), 1, &[0, 0]);
    assert!(rt; order(rt, pool, &deputy, 16).is_none());
    Ok(())
}

// These two messages.
fn two(first: Pid, second: Pid, number: u16) -> Batch
    requires { number ≤ 1023 }
    ensures { IsBatch result }
{
    let mut batch = Batch::of(first, 0);
    batch.push(second, number);
    batch
}

// Four members. A place is certified and kept whose second message is not certified yet: nothing of it is delivered, and then
// both at once.
#[test]
fn a_place_is_delivered_whole(rt: HostRuntime) -> Result<(), NoMemory> {
    let rt = &rt;
    let roster = &roster(rt)?;
    let view = View::new(0, &[pid(0), pid(1), pid(2), pid(3)]).expect(rt, "a view");
    let mut pool = Pool::new(rt.alloc(), view)?;
    let pool = &mut pool;
    let own = own(rt, pid(2), 2, &[0, 0, 0, 0]);
    let others = [pid(0), pid(1), pid(3)];
    let batch = two(pid(0), pid(0), 1);
    echoes(rt, pool, &own, roster, &others, pid(0), 0);
    assert!(rt; keep_due(pool, &own).is_none());
    placed(rt, pool, &own, roster, pid(0), batch);
    placed(rt, pool, &own, roster, pid(1), batch);
    placed(rt, pool, &own, roster, pid(3), batch);
    assert!(rt; keep_due(pool, &own) == Some((0, batch)));
    assert!(rt; deliverable(pool, &own, 1).is_none());
    echoes(rt, pool, &own, roster, &others, pid(0), 1);
    assert!(rt; deliverable(pool, &own, 1) == Some(batch) && deliverable(pool, &own, 0).is_none());
    assert!(rt; delivered(rt, pool, &own, pid(0)) == 0);
    Ok(())
}

// Four members, in the order 2, 0, 1, 3. A member of rank 2 has an Init to sign where a payload was accepted, answers the Init of
// least rank, and the manager's Order as soon as its messages are certified.
#[test]
fn a_member_answers(rt: HostRuntime) -> Result<(), NoMemory> {
    let rt = &rt;
    let roster = &roster(rt)?;
    let members = [pid(2), pid(0), pid(1), pid(3)];
    let view = View::new(0, &members).expect(rt, "a view");
    let mut pool = Pool::new(rt.alloc(), view)?;
    let pool = &mut pool;
    let own = own(rt, pid(1), 2, &[0, 0, 0, 0]);
    assert!(rt; initial(rt, pool, &own, 0).is_none() && initial(rt, pool, &own, 1) == Some(0));
    let first = echo_due(pool, &own);
    init(rt, pool, &own, roster, pid(0), 0);
    let second = echo_due(pool, &own);
    init(rt, pool, &own, roster, pid(2), 0);
    let third = echo_due(pool, &own);
    assert!(rt; [first, second, third] == [None, Some((pid(0), 0)), Some((pid(2), 0))]);
    let batch = two(pid(2), pid(0), 0);
    ordered(rt, pool, &own, roster, pid(2), batch);
    echoes(rt, pool, &own, roster, &members, pid(2), 0);
    assert!(rt; place_due(pool, &own).is_none());
    echoes(rt, pool, &own, roster, &members, pid(0), 0);
    assert!(rt; place_due(pool, &own) == Some((0, batch)));
    Ok(())
}
