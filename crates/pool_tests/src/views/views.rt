use rp_base::Pid;
use std::process::Abort;
use view_table::{View, faulty, quorum};

fn pid(rt: &impl Abort, n: u8) -> Pid {
    Pid::new(n).expect(rt, "a process number")
}

#[test]
fn a_view_and_its_ranks(rt: HostRuntime) {
    let members = [pid(&rt, 7), pid(&rt, 0), pid(&rt, 63)];
    let view = View::new(1023, &members).expect(&rt, "a view");
    assert!(rt; view.number() == 1023 && view.members() == members.as_slice());
    for (process, rank) in [
        (members[0], Some(0)),
        (members[2], Some(2)),
        (pid(&rt, 1), None),
    ] {
        assert!(rt; view.rank_of(process) == rank);
    }
    assert!(rt; view.is_member(members[1]) && !view.is_member(pid(&rt, 1)));
    let copy = view.clone().expect(&rt, "a copy takes no memory");
    assert!(rt; copy.number() == 1023 && copy.members() == members.as_slice());
}

#[test]
fn what_is_no_view(rt: HostRuntime) {
    let mut many = [pid(&rt, 0); 17];
    for (i, member) in many.iter_mut().enumerate() {
        *member = pid(&rt, i as u8);
    }
    assert!(rt; View::new(0, &many[..16]).is_some());
    assert!(rt; View::new(0, &many).is_none());
    assert!(rt; View::new(0, &[]).is_none());
    assert!(rt; View::new(1024, &many[..1]).is_none());
    many[15] = many[0];
    assert!(rt; View::new(0, &many[..16]).is_none());
}

#[test]
fn how_many_are_a_quorum(rt: HostRuntime) {
    let sizes = [
        (1, 0, 1),
        (2, 0, 2),
        (3, 0, 3),
        (4, 1, 3),
        (7, 2, 5),
        (16, 5, 11),
    ];
    for (n, f, q) in sizes {
        assert!(rt; faulty(n) == f && quorum(n) == q);
    }
}
