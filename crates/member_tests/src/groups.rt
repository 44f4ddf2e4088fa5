use accounts::{Account, Delivered, Payload};
use group_questions::{agree, bounded};
use rp_base::{Pid, PidSet};
use std::alloc::Global;
use std::test::Fail;
use view_table::View;

fn pid(n: u8) -> Result<Pid, Fail> {
    Ok(Pid::new(n).ok_or("no process")?)
}

// A process that delivered one message of process 3 in a view of four.
fn reported(alloc: Global, me: u8, payload: &[u8]) -> Result<Account, Fail> {
    let members = [pid(0)?, pid(1)?, pid(2)?, pid(3)?];
    let mut views = Vec::new(alloc);
    views.push(View::new(0, &members).ok_or("no view")?)?;
    let mut first = Vec::new(alloc);
    first.push(Delivered {
        place: 0,
        sender: pid(3)?,
        number: 0,
        payload: Payload::from_vec(Vec::from_slice(alloc, payload)?),
    })?;
    let mut delivered = Vec::new(alloc);
    delivered.push(first)?;
    Ok(Account {
        me: pid(me)?,
        views,
        delivered,
        accepted: Vec::new(alloc),
        perceived: Vec::new(alloc),
    })
}

// Two members of four are corrupt, and the other two delivered different payloads of one message.
#[test]
fn too_many_corrupt_members(rt: HostRuntime) -> Result<(), Fail> {
    let mut accounts = Vec::new(rt.alloc());
    accounts.push(reported(rt.alloc(), 0, b"\x61")?)?;
    accounts.push(reported(rt.alloc(), 1, b"\x62")?)?;
    let mut correct = PidSet::new();
    correct.insert(pid(0)?);
    correct.insert(pid(1)?);
    assert!(rt; !bounded(&accounts, correct));
    assert!(rt; !agree(&accounts));
    Ok(())
}

// One member of four is corrupt, and the other three delivered the same.
#[test]
fn one_corrupt_member(rt: HostRuntime) -> Result<(), Fail> {
    let mut accounts = Vec::new(rt.alloc());
    let mut correct = PidSet::new();
    for me in 0..3 {
        accounts.push(reported(rt.alloc(), me, b"\x61")?)?;
        correct.insert(pid(me)?);
    }
    assert!(rt; bounded(&accounts, correct));
    assert!(rt; agree(&accounts));
    Ok(())
}
