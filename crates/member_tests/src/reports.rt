use accounts::{Account, Delivered, Payload};
use member_events::EventFault;
use member_image::PhaseWord;
use message_defs::FrameFault;
use report_lines::{
    Answers, ProcessReport, push_answers, push_block, push_head, push_process, push_refused,
    push_refused_count,
};
use rp_base::{Pid, PidSet};
use std::alloc::Global;
use std::test::Fail;
use view_table::View;

fn pid(n: u8) -> Result<Pid, Fail> {
    Ok(Pid::new(n).ok_or("no process")?)
}

// A process that delivered one message of process 3 in a view of four.
fn reported(alloc: Global, me: u8, payload: &[u8]) -> Result<Account, Fail> {
    let members = [pid(0)?, pid(1)?, pid(2)?, pid(3)?];
    let mut views = Vec::new(alloc);
    views.push(View::new(0, &members).ok_or("no view")?)?;
    let mut first = Vec::new(alloc);
    first.push(Delivered {
        place: 0,
        sender: pid(3)?,
        number: 0,
        payload: Payload::from_vec(Vec::from_slice(alloc, payload)?),
    })?;
    let mut delivered = Vec::new(alloc);
    delivered.push(first)?;
    Ok(Account {
        me: pid(me)?,
        views,
        delivered,
        accepted: Vec::new(alloc),
        perceived: Vec::new(alloc),
    })
}

#[test]
fn a_process_with_two_liars(rt: HostRuntime) -> Result<(), Fail> {
    let account = reported(rt.alloc(), 1, b"\x62")?;
    let mut liars = PidSet::new();
    liars.insert(pid(3)?);
    liars.insert(pid(2)?);
    let report = ProcessReport {
        account: &account,
        phase: PhaseWord::OpenView,
        signed: 3,
        liars,
        halted: None,
    };
    let mut out = Vec::new(rt.alloc());
    push_block(&mut out, &report, false)?;
    assert_eq!(rt;
        out.as_slice(),
        b"process 1 open 1 1 3\nview 1 0 : 0 1 2 3\nmessage 1 0 0 3 0 62\nliar 1 2\nliar 1 3\n".as_slice()
    );
    Ok(())
}

#[test]
fn a_process_that_halted(rt: HostRuntime) -> Result<(), Fail> {
    let account = reported(rt.alloc(), 2, b"")?;
    let report = ProcessReport {
        account: &account,
        phase: PhaseWord::HaltedView,
        signed: 12,
        liars: PidSet::new(),
        halted: Some((1, 0)),
    };
    let mut out = Vec::new(rt.alloc());
    push_block(&mut out, &report, true)?;
    assert_eq!(rt;
        out.as_slice(),
        b"process 2 halted 1 1 12\nview 2 0 : 0 1 2 3\nmessage 2 0 0 3 0 -\nspent 2\nhalted 2 1 0\n".as_slice()
    );
    let mut first = Vec::new(rt.alloc());
    push_process(&mut first, &report)?;
    assert_eq!(rt; first.as_slice(), b"process 2 halted 1 1 12\n".as_slice());
    Ok(())
}

#[test]
fn what_stands_before_the_processes(rt: HostRuntime) -> Result<(), Fail> {
    let mut out = Vec::new(rt.alloc());
    push_head(&mut out, 9)?;
    push_refused(
        &mut out,
        5,
        pid(0)?,
        EventFault::BadFrame(FrameFault::Misplaced),
    )?;
    push_refused(&mut out, 257, pid(0)?, EventFault::Backlog)?;
    push_refused_count(&mut out, 100)?;
    assert_eq!(rt;
        out.as_slice(),
        b"rampart report 1\nevents 9\nrefused 5 0 misplaced\nrefused 257 0 backlog\nrefused 100\n".as_slice()
    );
    Ok(())
}

#[test]
fn what_stands_behind_them(rt: HostRuntime) -> Result<(), Fail> {
    let mut out = Vec::new(rt.alloc());
    push_answers(
        &mut out,
        Answers {
            honest: true,
            bounded: false,
            agree: false,
            sound: true,
        },
    )?;
    assert_eq!(rt;
        out.as_slice(),
        b"honest yes\nbounded no\nagree no\nsound yes\n".as_slice()
    );
    Ok(())
}
