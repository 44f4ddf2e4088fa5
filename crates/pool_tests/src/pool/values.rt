ghost use Rattle.std.specs.Prelude.{◌≡◌, ◌<◌, ◌≤◌};
ghost use Rattle.message_defs.specs.Spelling.{IsClaim};
ghost use Rattle.stmt_codec.specs.Views.{claim as claim_of};

use claim_pool::{Place, Pool};
use rp_base::{NoMemory, Pid, Update};
use std::process::Abort;
use stmt_codec::{Batch, Claim, Slot, Statement, claim_len};
use view_table::View;

fn pid(n: u8) -> Pid
    requires { n < 64 }
    ensures { result ≡ n }
{
    Pid::new(n).unwrap()
}

fn hear_own(rt: &impl Abort, pool: &mut Pool, claim: &Claim<'_>)
    requires { IsClaim (claim_of claim.now) }
{
    let bytes = claim_len(&claim);
    pool.reserve(1, bytes).expect(rt, "memory");
    pool.hear_own(claim);
}

// Hears that the member places messages 0 of processes 1 and 0 at place 0 of view 0.
fn hear_place(rt: &impl Abort, pool: &mut Pool, signer: Pid) {
    let mut batch = Batch::of(pid(1), 0);
    batch.push(pid(0), 0);
    let claim = Claim {
        signer,
        statement: Statement::Place {
            view: 0,
            place: 0,
            batch,
        },
        signature: b"s",
    };
    hear_own(rt, pool, &claim);
}

// Hears that the member notifies the removal of process 3 in view 0.
fn hear_removal(rt: &impl Abort, pool: &mut Pool, signer: Pid) {
    let claim = Claim {
        signer,
        statement: Statement::Notify {
            view: 0,
            update: Update::Remove(pid(3)),
        },
        signature: b"s",
    };
    hear_own(rt, pool, &claim);
}

// Whether place 0 of view 0 is certified and has a batch.
fn is_certified(pool: &Pool) -> bool {
    let place = Slot::Place { view: 0, place: 0 };
    pool.certified::<Place>(place).is_some() && pool.batch_at(0).is_some()
}

#[test]
fn a_place_of_all_three_is_placed_with_its_names(rt: HostRuntime) -> Result<(), NoMemory> {
    let rt = &rt;
    let view = View::new(0, &[pid(2), pid(1), pid(0)]).expect(rt, "a view");
    let mut pool = Pool::new(rt.alloc(), view)?;
    let pool = &mut pool;
    hear_place(rt, pool, pid(2));
    hear_place(rt, pool, pid(1));
    assert!(rt; pool.placed_len() == 0 && pool.batch_at(0).is_none());
    hear_place(rt, pool, pid(0));
    hear_place(rt, pool, pid(0));
    assert!(rt; pool.size().0 == 3 && is_certified(pool) && pool.batch_at(1).is_none());
    assert!(rt; pool.placed_len() == 1);
    assert_eq!(rt; pool.names_before(0), [0, 0, 0].as_slice());
    assert_eq!(rt; pool.names_before(1), [0, 1, 1].as_slice());
    Ok(())
}

// Hears process 1's Init of this number, of this view.
fn hear_init(rt: &impl Abort, pool: &mut Pool, view: u16, number: u16)
    requires view { view ≤ 1023 }
    requires number { number ≤ 1023 }
{
    let claim = Claim {
        signer: pid(1),
        statement: Statement::Init {
            view,
            number,
            payload: b"a",
        },
        signature: b"s",
    };
    hear_own(rt, pool, &claim);
}

#[test]
fn inits_end_behind_the_greatest_that_is_heard(rt: HostRuntime) -> Result<(), NoMemory> {
    let rt = &rt;
    let view = View::new(0, &[pid(2), pid(1), pid(0)]).expect(rt, "a view");
    let mut pool = Pool::new(rt.alloc(), view)?;
    let pool = &mut pool;
    assert!(rt; pool.inits_end(pid(1)) == 0);
    hear_init(rt, pool, 0, 4);
    hear_init(rt, pool, 0, 2);
    hear_init(rt, pool, 1, 9);
    assert!(rt; pool.inits_end(pid(1)) == 5 && pool.inits_end(pid(2)) == 0);
    pool.turn_to(View::new(1, &[pid(2), pid(1), pid(0)]).expect(rt, "a view"));
    assert!(rt; pool.inits_end(pid(1)) == 0);
    Ok(())
}

#[test]
fn more_than_f_notify_an_update(rt: HostRuntime) -> Result<(), NoMemory> {
    let rt = &rt;
    let view = View::new(0, &[pid(3), pid(2), pid(1), pid(0)]).expect(rt, "a view");
    let mut pool = Pool::new(rt.alloc(), view)?;
    let pool = &mut pool;
    hear_removal(rt, pool, pid(1));
    assert!(rt; !pool.is_notified(Update::Remove(pid(3))) && pool.notified().first().is_none());
    hear_removal(rt, pool, pid(0));
    assert!(rt; pool.is_notified(Update::Remove(pid(3))) && !pool.is_notified(Update::Add(pid(3))));
    assert!(rt; pool.notified().removed().mask() == 8 && pool.notified().added().mask() == 0);
    Ok(())
}
