use rp_base::{Pid, Update, UpdateFault};
use std::process::Abort;
use view_table::{View, next};

fn pid(rt: &impl Abort, n: u8) -> Pid {
    Pid::new(n).expect(rt, "a process number")
}

// The view of this number with the first of the processes 0 to 15.
fn first_of(rt: &impl Abort, number: u16, count: usize) -> View {
    let mut members = [pid(rt, 0); 16];
    for (i, member) in members.iter_mut().enumerate() {
        *member = pid(rt, i as u8);
    }
    assert!(rt; count <= 16);
    View::new(number, &members[..count]).expect(rt, "a view")
}

// Why no view follows.
fn refusal(view: &View, update: Update) -> Option<UpdateFault> {
    match next(view, update) {
        Ok(_) => None,
        Err(fault) => Some(fault),
    }
}

#[test]
fn next_refusals(rt: HostRuntime) {
    let four = first_of(&rt, 0, 4);
    let full = first_of(&rt, 0, 16);
    let one = first_of(&rt, 0, 1);
    let last = first_of(&rt, 1_023, 4);
    for (view, update, fault) in [
        (&four, Update::Add(pid(&rt, 2)), UpdateFault::AlreadyMember),
        (&full, Update::Add(pid(&rt, 20)), UpdateFault::GroupFull),
        (&one, Update::Remove(pid(&rt, 5)), UpdateFault::NotMember),
        (&one, Update::Remove(pid(&rt, 0)), UpdateFault::LastMember),
        (&last, Update::Renew, UpdateFault::ViewsSpent),
        (&last, Update::Add(pid(&rt, 2)), UpdateFault::ViewsSpent),
    ] {
        assert!(rt; refusal(view, update) == Some(fault));
    }
    assert!(rt; Pid::new(64).is_none());
}

#[test]
fn views_that_follow(rt: HostRuntime) -> Result<(), UpdateFault> {
    let four = first_of(&rt, 1_022, 4);
    let fewer = next(&four, Update::Remove(pid(&rt, 1)))?;
    assert!(rt; fewer.number() == 1_023);
    assert!(rt; fewer.members() == [pid(&rt, 0), pid(&rt, 2), pid(&rt, 3)].as_slice());
    let fifteen = first_of(&rt, 0, 15);
    let full = next(&fifteen, Update::Add(pid(&rt, 20)))?;
    assert!(rt; full.number() == 1 && full.members().len() == 16);
    assert!(rt; full.rank_of(pid(&rt, 20)) == Some(15));
    let renewed = next(&full, Update::Renew)?;
    assert!(rt; renewed.number() == 2 && renewed.members() == full.members());
    Ok(())
}
